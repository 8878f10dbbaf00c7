//! What the program of a box is, and what its points are.
ghost use Rattle.std.specs.Prelude.{ℕ, ℤ, ◌≡◌, List};
ghost use Rattle.cut_rows.specs.declared.names.CutName.{CutName};
ghost use Rattle.cut_rows.specs.Pools.{IsPoolOf};
ghost use Rattle.flow_types.specs.Valid.{IsScenario};
ghost use Rattle.flow_types.specs.declared.parts.Parts.{Parts};
ghost use Rattle.presolve.specs.Points.{IsRelaxationPoint, relaxation_cost, value_of_point};
ghost use Rattle.presolve.specs.Relaxed.{program_of};
ghost use Rattle.scaled_simplex.specs.Points.{IsProgramPoint, point_cost};
ghost use Rattle.scaled_simplex.specs.Program.{IsProblem};
ghost use Rattle.time_windows.specs.Boxes.{Box, IsBoxOf};
ghost use Rattle.time_windows.specs.Tight.{IsTight};

/// The program of a tight box, with whatever pool of the scenario's cuts, is one that a run can be
/// made of: its numbers are near enough to 0, and its columns and rows few enough. This holds
/// whether or not there is room for its tableau.
pub fn programs_are_problems()
    ensures { (parts : Parts) (pool : List CutName) (box : Box) → IsScenario parts
        → IsPoolOf parts pool → IsBoxOf parts box → IsTight parts box
        → IsProblem (program_of parts pool box) }
{}

/// A point of a tight box's program is a point of the relaxation, so it keeps the rows of the cuts
/// too, and costs as much.
pub fn program_points_are_points()
    ensures point { (parts : Parts) (pool : List CutName) (box : Box) (numerator : ℕ → ℤ)
        (denominator : ℤ) → IsScenario parts → IsPoolOf parts pool → IsBoxOf parts box
        → IsTight parts box → IsProgramPoint (program_of parts pool box) numerator denominator
        → IsRelaxationPoint parts pool box (value_of_point parts box numerator denominator)
        denominator }
    ensures cost { (parts : Parts) (pool : List CutName) (box : Box) (numerator : ℕ → ℤ)
        (denominator : ℤ) → IsScenario parts → IsPoolOf parts pool → IsBoxOf parts box
        → IsTight parts box
        → relaxation_cost parts (value_of_point parts box numerator denominator) denominator
        ≡ point_cost (program_of parts pool box) numerator denominator }
{}
