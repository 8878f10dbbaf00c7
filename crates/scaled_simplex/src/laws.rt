//! What the point of a run hangs on.
ghost use Rattle.std.specs.Prelude.{◌≡◌, ◌↔◌, ◌/◌, ◌%◌, ℕ, nat_abs};
ghost use Rattle.std.specs.Int.{IsGcd};
ghost use Rattle.scaled_simplex.specs.Fractions.{AreLast, IsWhole, bottom_at, top_at};
ghost use Rattle.scaled_simplex.specs.LastTableau.{IsLastTableau};
ghost use Rattle.scaled_simplex.specs.Program.{IsProblem, Problem};
ghost use Rattle.scaled_simplex.specs.Run.{Outcome};
ghost use Rattle.scaled_simplex.specs.Tableau.{Tableau};
ghost use Rattle.scaled_simplex.specs.declared.fractions.Fractions.{Fractions};

/// A program has one last tableau at the most: pivots, room and cutoff only say whether a run
/// comes to it.
pub fn last_tableaus_are_one()
    ensures { (problem : Problem) (first second : Tableau) → IsLastTableau problem first
        → IsLastTableau problem second → first ≡ second }
{}

/// A program has one point in numbers at the most: the points of two runs that ended Optimal are
/// the same.
pub fn points_are_one()
    ensures { (problem : Problem) (outcome other : Outcome) (first second : Fractions)
        → IsProblem problem → AreLast problem outcome first → AreLast problem other second
        → first ≡ second }
{}

/// The value of a column is whole by exactly the multiples of its denominator in lowest terms. So
/// the least number by which those of several columns are is the least common multiple of these.
pub fn values_are_whole_by_their_denominators()
    ensures { (problem : Problem) (tableau : Tableau) (column divisor times : ℕ)
        → IsProblem problem → IsLastTableau problem tableau
        → IsGcd (nat_abs (top_at problem tableau column))
        (nat_abs (bottom_at problem tableau column)) divisor
        → IsWhole problem tableau column times
        ↔ (times % (nat_abs (bottom_at problem tableau column) / divisor) ≡ 0) }
{}
