//! What the bound of a leaf means.
ghost use Rattle.std.specs.Prelude.{◌≡◌, List, Ok, Result};
ghost use Rattle.branch_tree.specs.declared.leaf.Leaf.{Leaf};
ghost use Rattle.cut_rows.specs.declared.names.CutName.{CutName};
ghost use Rattle.dual_leaf.specs.declared.fault.LeafFault.{LeafFault};
ghost use Rattle.dual_leaf.specs.Leaf.{IsLeafBound};
ghost use Rattle.time_windows.specs.Plans.{IsBoundIn};
ghost use Rattle.flow_types.specs.Valid.{IsScenario};
ghost use Rattle.flow_types.specs.declared.bound.Bound.{Bound};
ghost use Rattle.flow_types.specs.declared.parts.Parts.{Parts};
ghost use Rattle.time_windows.specs.Boxes.{Box, IsBoxOf};

/// No plan in the box that keeps every rule costs less than the bound of a leaf, whoever worked it
/// out, and whatever the pool.
pub fn leaf_bounds_are_bounds()
    ensures { (parts : Parts) (pool : List CutName) (box : Box) (leaf : Leaf) (bound : Bound)
        → IsScenario parts → IsBoxOf parts box → IsLeafBound parts pool box leaf (Ok bound)
        → IsBoundIn parts box bound }
{}

/// A leaf has one bound in a box, or one fault.
pub fn leaf_bounds_are_one()
    ensures { (parts : Parts) (pool : List CutName) (box : Box) (leaf : Leaf)
        (first second : Result Bound LeafFault) → IsScenario parts
        → IsLeafBound parts pool box leaf first → IsLeafBound parts pool box leaf second
        → first ≡ second }
{}
