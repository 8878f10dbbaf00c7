//! What rounds of prices tell of all plans.
ghost use Rattle.std.specs.Prelude.{◌≡◌, ℕ};
ghost use Rattle.flow_types.specs.Valid.{IsScenario};
ghost use Rattle.flow_types.specs.declared.bound.Bound.{Bound};
ghost use Rattle.flow_types.specs.declared.parts.Parts.{Parts};
ghost use Rattle.time_windows.specs.Boxes.{Box};
ghost use Rattle.lagrange_bound.specs.Rounds.{IsRoundBound};
ghost use Rattle.time_windows.specs.Plans.{IsBoundIn};

use priced_plans::priced_bounds_are_bounds;

/// The bound of each round is a bound on the feasible plans in the box; where it is that no plan
/// exists, none is there.
pub fn round_bounds_are_bounds()
    ensures { (parts : Parts) (box : Box) (round : ℕ) (bound : Bound) → IsScenario parts
        → IsRoundBound parts box round bound → IsBoundIn parts box bound }
{
    priced_bounds_are_bounds();
}

/// A round has one bound in a box.
pub fn round_bounds_are_the_same()
    ensures { (parts : Parts) (box : Box) (round : ℕ) (first second : Bound) → IsScenario parts
        → IsRoundBound parts box round first → IsRoundBound parts box round second
        → first ≡ second }
{}
