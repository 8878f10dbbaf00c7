//! What the rows of a run's leaf are, and what it comes to.
ghost use Rattle.std.specs.Prelude.{ℕ, ℤ, ◌≡◌, List, Option};
ghost use Rattle.branch_tree.specs.declared.leaf.Leaf.TheVariants.{Dual};
ghost use Rattle.bytime_model.specs.declared.multiplier.Multiplier.{Multiplier};
ghost use Rattle.bytime_model.specs.Multipliers.{AreAscending, ArePositive};
ghost use Rattle.cut_rows.specs.declared.names.CutName.{CutName};
ghost use Rattle.cut_rows.specs.Pools.{IsPoolOf};
ghost use Rattle.flow_types.specs.Valid.{IsScenario};
ghost use Rattle.flow_types.specs.declared.parts.Parts.{Parts};
ghost use Rattle.presolve.specs.Relaxed.{program_of};
ghost use Rattle.relaxed_bound.specs.declared.limits.Limits.{Limits};
ghost use Rattle.relaxed_bound.specs.Relaxed.{TellsNoLess, relaxed_leaf, run_of};
ghost use Rattle.time_windows.specs.Boxes.{Box, IsBoxOf};
ghost use Rattle.time_windows.specs.Tight.{IsTight};
ghost use Rattle.dual_sums.specs.Dual.{IsDualValue};

/// The leaf of a run names each row once, in the order of rows, and none of its multipliers is 0.
pub fn run_leaves_are_in_order()
    ensures ascending { (parts : Parts) (pool : List CutName) (box : Box) (limits : Limits)
        (cutoff : Option ℤ)
        (weight : ℕ) (rows : List Multiplier)
        → Dual weight rows ≡ relaxed_leaf parts pool box limits cutoff → AreAscending rows }
    ensures positive { (parts : Parts) (pool : List CutName) (box : Box) (limits : Limits)
        (cutoff : Option ℤ)
        (weight : ℕ) (rows : List Multiplier)
        → Dual weight rows ≡ relaxed_leaf parts pool box limits cutoff → ArePositive rows }
{}

/// In a tight box the leaf of a run comes to no less than what the run's multipliers tell, by the
/// same weight: where it didn't end Infeasible, the value of its last tableau; and else the right
/// side, with its sign turned, of the row that no column can repair. After Infeasible the leaf's
/// weight is 0 and it comes to more than 0, so it says by itself that no plan in the box keeps
/// every rule.
pub fn run_leaves_tell_no_less()
    ensures { (parts : Parts) (pool : List CutName) (box : Box) (limits : Limits)
        (cutoff : Option ℤ) (weight : ℕ)
        (rows : List Multiplier) (value : ℤ) → IsScenario parts → IsPoolOf parts pool
        → IsBoxOf parts box
        → IsTight parts box → Dual weight rows ≡ relaxed_leaf parts pool box limits cutoff
        → IsDualValue parts pool box weight rows value
        → TellsNoLess (program_of parts pool box) (run_of parts pool box limits cutoff) weight
        value }
{}
