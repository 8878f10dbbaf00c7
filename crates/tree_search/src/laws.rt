//! What the record of a search proves.
ghost use Rattle.std.specs.Prelude.{◌+◌, ◌*◌, ◌≤◌};
ghost use Rattle.time_windows.specs.Plans.{IsBoundIn};
ghost use Rattle.flow_types.specs.Valid.{IsScenario};
ghost use Rattle.flow_types.specs.declared.parts.Parts.{Parts};
ghost use Rattle.time_windows.specs.Boxes.{Box};
ghost use Rattle.time_windows.specs.Tight.{IsTightened};
ghost use Rattle.branch_tree.specs.Lawful.{IsTreeBound};
ghost use Rattle.tree_search.specs.Budgets.{options_in};
ghost use Rattle.tree_search.specs.Records.{IsClosed, IsSearchRecord};
ghost use Rattle.tree_search.specs.declared.found.Budget.{Budget};
ghost use Rattle.dual_leaf.specs.Trees.{IsLeafBoundAt};
ghost use Rattle.tree_search.specs.declared.found.Found.{Found};

/// The record of a search proves its bound, whatever the search was let to spend and whoever wrote
/// the record: no plan in the root box that keeps every rule costs less, and where the bound is
/// `NoPlan` there is none.
pub fn search_records_are_bounds()
    ensures { (parts : Parts) (root : Box) (budget : Budget) (found : Found) → IsScenario parts
        → IsSearchRecord parts root budget found → IsBoundIn parts root found.bound }
{}

/// The tree of a search's record is a lawful one on the tight root box, in which each leaf has its
/// bound, and the record's bound is the tree's.
pub fn search_trees_have_the_bound()
    ensures { (parts : Parts) (root : Box) (budget : Budget) (found : Found)
        → (searched : IsSearchRecord parts root budget found)
        → IsTreeBound parts (IsLeafBoundAt parts found.pool) searched.tight found.tree found.bound }
{}

/// Some budget of nodes is enough for a search to close its gap: its last plan costs no more than
/// its bound, so it is a least one, or no plan in the root box keeps every rule.
///
/// Each node of a flight has so many options in the tight root box: the periods from which the
/// flight may choose, and one more where it may leave the node out. Twice the product of these over
/// all nodes of all flights, less 1, is enough, whatever the limits of the runs: a split shares out
/// the options of its box to two sides that have some, and a box that waits to be split has a node
/// with several. The product is that of the tight box which the record names (`own`), or of any
/// other one of the root (`any`): they say the same.
pub fn enough_nodes_close()
    ensures own { (parts : Parts) (root : Box) (budget : Budget) (found : Found) → IsScenario parts
        → (searched : IsSearchRecord parts root budget found)
        → 2 * options_in parts searched.tight ≤ budget.nodes + 1 → IsClosed parts found }
    ensures any { (parts : Parts) (root tight : Box) (budget : Budget) (found : Found)
        → IsScenario parts → IsTightened parts root tight
        → IsSearchRecord parts root budget found
        → 2 * options_in parts tight ≤ budget.nodes + 1 → IsClosed parts found }
{}
