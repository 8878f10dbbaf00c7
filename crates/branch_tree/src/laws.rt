//! What lawful trees prove.
ghost use Rattle.std.specs.Prelude.{◌≡◌, List, true};
ghost use Rattle.flow_types.specs.declared.bound.Bound.{Bound};
ghost use Rattle.flow_types.specs.declared.parts.Parts.{Parts};
ghost use Rattle.flow_types.specs.Valid.{IsScenario};
ghost use Rattle.time_windows.specs.Boxes.{Box};
ghost use Rattle.time_windows.specs.Plans.{IsBoundIn};
ghost use Rattle.branch_tree.specs.declared.tree.TreeNode.{TreeNode};
ghost use Rattle.branch_tree.specs.Lawful.{IsAnyNode, IsBoundedNode, IsLawfulTree, IsTreeBound};
ghost use Rattle.branch_tree.specs.Trees.{is_tree};

/// The nodes of a lawful tree are those of one tree in preorder, whatever is said of them.
pub fn lawful_trees_are_trees()
    ensures { (parts : Parts) (box : Box) (nodes : List TreeNode) (bounds : List Bound)
        → IsLawfulTree parts IsAnyNode box nodes bounds → is_tree nodes ≡ true }
{}

/// Where no plan in a leaf's box that keeps every rule costs less than the leaf's bound, none in
/// the tree's box costs less than the tree's bound; and where that is `NoPlan` there is none.
pub fn tree_bounds_are_bounds()
    ensures { (parts : Parts) (box : Box) (nodes : List TreeNode) (bound : Bound)
        → IsScenario parts → IsTreeBound parts (IsBoundedNode parts) box nodes bound
        → IsBoundIn parts box bound }
{}
