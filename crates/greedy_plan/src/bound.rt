//! The bound that goes with the greedy plan.
ghost use Rattle.std.specs.Prelude.{IfOk};
ghost use Rattle.flow_types.specs.Scenario.{parts_of};
ghost use Rattle.flow_types.specs.declared.bound.Bound.{Bound};
ghost use Rattle.flow_types.specs.declared.parts.Parts.{Parts};
ghost use Rattle.flight_routes.specs.Prices.{AreFree, ArePricesOf};
ghost use Rattle.flight_routes.specs.Work.{IsWorkFor};
ghost use Rattle.time_windows.specs.Boxes.{Box};
ghost use Rattle.time_windows.specs.Held.{IsMadeFor, box_of};
ghost use Rattle.time_windows.specs.Subproblems.{box_in, parts_in};
ghost use Rattle.flow_types.specs.Bounds.{IsLowerBound};
ghost use Rattle.time_windows.specs.Plans.{AreTripsIn};
ghost use Rattle.greedy_plan.specs.FirstBound.{IsFirstBound};

use exact_sums::plus;
use flight_routes::{Prices, Work};
use flow_types::{Bound, OutOfMemory, Scenario};
use std::alloc::Global;
use time_windows::{Boxes, Subproblem};

/// A bound on the cost of the plans in the box: the sum over the flights of the least cost of a
/// trip in it, as if each flight were alone; that no plan exists, where a flight has no trip there.
///
/// The box is one of the scenario. It takes memory for prices, which are all 0, and for the room in
/// which least trips are found; time as a least trip for each flight.
pub fn first_bound(alloc: Global, s: &Scenario, boxes: &Boxes) -> Result<Bound, OutOfMemory>
    requires { IsMadeFor (parts_of s.now) boxes.now }
    ensures { IfOk result (IsFirstBound (parts_of s.now) (box_of boxes.now)) }
{
    let prices = Prices::new(alloc, s)?;
    let mut work = Work::new(alloc, s)?;
    Ok(bound_of(Subproblem { s, boxes }, &mut work, &prices))
}

// The bound, by least trips at no price.
fn bound_of(problem: Subproblem<'_>, work: &mut Work, prices: &Prices) -> Bound
    requires work { IsWorkFor (parts_in problem) work.old }
    requires prices { ArePricesOf (parts_in problem) prices.now }
    requires free { AreFree prices.now }
    ensures { IsFirstBound (parts_in problem.entry) (box_in problem.entry) result }
{
    let mut sum = Some(0);
    for number in 0..problem.s.flights().len() {
        sum = plus(sum, work.least_trip(problem, number as u32, 1, prices));
    }
    Bound::of(sum)
}

/// No plan in the box, with one trip for each flight, costs less than the bound, whether or not it
/// keeps the rules of places and connections. None is there where the bound is that no plan exists.
pub fn first_bounds_are_bounds()
    ensures { (parts : Parts) (box : Box) (bound : Bound) → IsFirstBound parts box bound
        → IsLowerBound parts (AreTripsIn parts box) bound }
{}
