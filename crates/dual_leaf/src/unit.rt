//! What the one plan costs that may be in a box where each node has one option.
ghost use Rattle.std.specs.Prelude.{◌≡◌, ◌+◌, ◌<◌, List, length};
ghost use Rattle.flow_types.specs.declared.plan.Stop.{Stop};
ghost use Rattle.flow_types.specs.Scenario.{parts_of};
ghost use Rattle.flight_routes.specs.Work.{IsWorkFor};
ghost use Rattle.plan_rules.specs.Loads.{AreLoads, IsMadeFor as AreLoadsFor};
ghost use Rattle.time_windows.specs.Held.{IsMadeFor, box_of};
ghost use Rattle.greedy_plan.specs.Greedy.{with_rest};
ghost use Rattle.dual_leaf.specs.Leaf.{IsCostIn, IsUnitBox};
ghost use Rattle.time_windows.specs.Plans.{IsBoundIn};
ghost use Rattle.flow_types.specs.Bounds.{IsNearBound};
ghost use Rattle.dual_leaf.specs.UnitSums.{IsNext, IsSoFar};

use exact_sums::plus;
use flight_routes::Work;
use flow_types::{Bound, Scenario};
use plan_rules::Loads;
use time_windows::{Boxes, Subproblem};

/// What the plan in the box costs that keeps every rule, or that there is none. Each node of the
/// box has one option, so no flight has two trips in it: each takes the one that fits beside those
/// before it. The box, the work and the loads, which are cleared first, are of the scenario. It
/// takes no memory, and time as a least trip for each flight.
pub fn unit_cost(work: &mut Work, loads: &mut Loads, s: &Scenario, boxes: &Boxes) -> Bound
    requires boxes { IsMadeFor (parts_of s.now) boxes.now }
    requires unit { IsUnitBox (box_of boxes.now) }
    requires work { IsWorkFor (parts_of s.now) work.old }
    requires loads { AreLoadsFor (parts_of s.now) loads.old }
    ensures cost { IsCostIn (parts_of s.now) (box_of boxes.now) result }
    ensures sound { IsBoundIn (parts_of s.now) (box_of boxes.now) result }
    ensures near { IsNearBound result }
    ensures work { IsWorkFor (parts_of s.now) work.new }
    ensures loads { AreLoadsFor (parts_of s.now) loads.new }
{
    loads.clear();
    let mut sum = Some(0);
    for number in 0..s.flights().len() {
        sum = with_next(work, loads, s, boxes, number as u32, sum);
    }
    Bound::of(sum)
}

// The sum of the costs with that of the next flight's trip.
fn with_next(
    work: &mut Work,
    loads: &mut Loads,
    s: &Scenario,
    boxes: &Boxes,
    flight: u32,
    sum: Option<i128>,
) -> Option<i128>
    requires boxes { IsMadeFor (parts_of s.now) boxes.now }
    requires unit { IsUnitBox (box_of boxes.now) }
    requires work { IsWorkFor (parts_of s.now) work.old }
    requires loads { AreLoadsFor (parts_of s.now) loads.old }
    requires flight { flight < length (parts_of s.now).flights }
    requires before { IsSoFar (parts_of s.now) (box_of boxes.now) flight loads.old sum }
    ensures so_far { IsSoFar (parts_of s.now) (box_of boxes.now) (flight + 1) loads.new result }
    ensures work { IsWorkFor (parts_of s.now) work.new }
    ensures loads { AreLoadsFor (parts_of s.now) loads.new }
{
    if sum.is_none() {
        return None;
    }
    let cost = add_next(work, loads, s, boxes, flight);
    plus(sum, cost)
}

// Counts the trip of the next flight that fits beside those before it, and tells what it costs.
fn add_next(
    work: &mut Work,
    loads: &mut Loads,
    s: &Scenario,
    boxes: &Boxes,
    flight: u32,
) -> Option<i128>
    requires boxes { IsMadeFor (parts_of s.now) boxes.now }
    requires work { IsWorkFor (parts_of s.now) work.old }
    requires loads { AreLoadsFor (parts_of s.now) loads.old }
    requires flight { flight < length (parts_of s.now).flights }
    ensures next { (trips : List (List Stop)) → length trips ≡ flight
        → AreLoads (parts_of s.now) (with_rest (parts_of s.now).flights trips) loads.old
        → IsNext (parts_of s.now) (box_of boxes.now) trips flight loads.new result }
    ensures work { IsWorkFor (parts_of s.now) work.new }
    ensures loads { AreLoadsFor (parts_of s.now) loads.new }
{
    let cost = work.least_fit(Subproblem { s, boxes }, flight, loads);
    if cost.is_some() {
        loads.add(s, flight, work.trip());
    }
    cost
}
