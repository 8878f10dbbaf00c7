//! What the counts of trips mean, and what it is to break no rule.
ghost use Rattle.std.specs.Prelude.{ℕ, ◌≡◌, ◌≤◌, ◌↔◌, List, None, Some};
ghost use Rattle.flow_types.specs.Counts.{arrives_at, departs_at, stays_at};
ghost use Rattle.flow_types.specs.Feasible.{IsFeasible};
ghost use Rattle.flow_types.specs.Trips.{IsTrip};
ghost use Rattle.flow_types.specs.Valid.{IsScenario};
ghost use Rattle.flow_types.specs.declared.flight.Flight.{Flight};
ghost use Rattle.flow_types.specs.declared.parts.Parts.{Parts};
ghost use Rattle.flow_types.specs.declared.plan.Stop.{Stop};
ghost use Rattle.plan_rules.specs.BrokenRules.{IsFirstBroken};
ghost use Rattle.plan_rules.specs.FirstBroken.{first_broken};
ghost use Rattle.plan_rules.specs.declared.broken.Broken.{Broken};

/// A trip is counted at most once in a place and period: so the sums over the trips of a plan are
/// numbers of flights.
pub fn trips_are_counted_once()
    ensures departs { (periods place period : ℕ) (flight : Flight) (trip : List Stop)
        → IsTrip periods flight trip → departs_at place period flight trip ≤ 1 }
    ensures arrives { (periods place period : ℕ) (flight : Flight) (trip : List Stop)
        → IsTrip periods flight trip → arrives_at place period flight trip ≤ 1 }
    ensures stays { (periods place period : ℕ) (flight : Flight) (trip : List Stop)
        → IsTrip periods flight trip → stays_at place period flight trip ≤ 1 }
{}

/// A plan of a valid scenario is feasible exactly where it breaks no rule first.
pub fn plans_that_break_nothing_are_feasible()
    ensures { (parts : Parts) (plan : List (List Stop)) → IsScenario parts
        → (first_broken parts plan ≡ None) ↔ IsFeasible parts plan }
{}

/// The rule that a plan breaks first is broken, with the values that it names, and each one that
/// comes before it is kept.
pub fn first_broken_rules_are_first()
    ensures { (parts : Parts) (plan : List (List Stop)) (rule : Broken)
        → first_broken parts plan ≡ Some rule → IsFirstBroken parts plan rule }
{}
