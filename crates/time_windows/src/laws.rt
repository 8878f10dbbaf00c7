//! What the root box and splits keep of plans.
ghost use Rattle.std.specs.Prelude.{ℕ, ◌≡◌, ◌<◌, ◌⊎◌, List, Some, length, slice_get};
ghost use Rattle.flow_types.specs.Feasible.{AreTrips};
ghost use Rattle.flow_types.specs.Trips.{IsTrip};
ghost use Rattle.flow_types.specs.Valid.{IsScenario};
ghost use Rattle.flow_types.specs.declared.flight.Flight.{Flight};
ghost use Rattle.flow_types.specs.declared.parts.Parts.{Parts};
ghost use Rattle.flow_types.specs.declared.plan.Stop.{Stop};
ghost use Rattle.time_windows.specs.Boxes.{Box, IsInBox, IsTripInBox, root_box};
ghost use Rattle.time_windows.specs.Splits.{IsBranching, early_branch, late_branch};

/// Every trip of a flight is in the root box, and so is every plan.
pub fn trips_are_in_the_root_box()
    ensures trips { (parts : Parts) (f : ℕ) (flight : Flight) (stops : List Stop)
        → IsScenario parts → slice_get parts.flights f ≡ Some flight
        → IsTrip parts.day.periods flight stops → IsTripInBox (root_box parts f) stops }
    ensures plans { (parts : Parts) (plan : List (List Stop)) → IsScenario parts
        → AreTrips parts.day.periods parts.flights plan → IsInBox (root_box parts) plan }
{}

/// Each plan of a box is in one of the two sides of a split, and in one alone.
pub fn splits_share_out_plans()
    ensures shared { (parts : Parts) (box : Box) (flight node time : ℕ) (plan : List (List Stop))
        → IsScenario parts → flight < length parts.flights → IsBranching (box flight node) time
        → AreTrips parts.day.periods parts.flights plan → IsInBox box plan
        → IsInBox (early_branch flight node time box) plan
        ⊎ IsInBox (late_branch flight node time box) plan }
    ensures apart { (parts : Parts) (box : Box) (flight node time : ℕ) (plan : List (List Stop))
        → IsScenario parts → flight < length parts.flights → IsBranching (box flight node) time
        → AreTrips parts.day.periods parts.flights plan
        → IsInBox (early_branch flight node time box) plan
        → IsInBox (late_branch flight node time box) plan → ⊥ }
{}
