//! The least trips under prices, flight by flight.
ghost use Rattle.std.specs.Prelude.{◌≤◌, ◌<◌, ◌+◌, ◌^◌, IfSome, length};
ghost use Rattle.exact_sums.specs.Leasts.{IsLeast};
ghost use Rattle.flow_types.specs.declared.bound.PriceKey.{PriceKey};
ghost use Rattle.flight_routes.specs.Inside.{IsTripIn};
ghost use Rattle.flight_routes.specs.Prices.{ArePricesOf, price_at, priced_cost};
ghost use Rattle.exact_sums.specs.Near.{IsNear};
ghost use Rattle.flight_routes.specs.Work.{IsWorkFor};
ghost use Rattle.plan_rules.specs.Loads.{AreLoads, IsMadeFor as AreLoadsFor, no_trips};
ghost use Rattle.time_windows.specs.Subproblems.{box_in, parts_in};
ghost use Rattle.priced_plans.specs.Keys.{IsKeyFor};
ghost use Rattle.lagrange_bound.specs.Rounds.{cost_weight};
ghost use Rattle.lagrange_bound.specs.Taking.{HaveTaken, IsTakenSum};

use exact_sums::plus;
use flight_routes::{Prices, Work};
use plan_rules::Loads;
use time_windows::Subproblem;

/// How much costs weigh beside prices.
pub const COST_WEIGHT: u64 = 1024;

// Takes the least trip of the next flight and counts it, and answers what it costs with its prices;
// nothing where there is no trip.
fn take_trip(
    problem: Subproblem<'_>,
    flight: u32,
    prices: &Prices,
    work: &mut Work,
    loads: &mut Loads,
) -> Option<i128>
    requires flight { flight < length (parts_in problem).flights }
    requires prices { ArePricesOf (parts_in problem) prices.now }
    requires work { IsWorkFor (parts_in problem) work.old }
    requires loads { AreLoadsFor (parts_in problem) loads.old }
    ensures least { IsLeast (IsTripIn (parts_in problem.entry) (box_in problem.entry) flight)
        (priced_cost cost_weight prices.now (parts_in problem.entry) flight) result }
    ensures taken { HaveTaken (parts_in problem.entry) (box_in problem.entry) prices.now flight
        loads.old → IfSome result (λ least. HaveTaken (parts_in problem.entry)
        (box_in problem.entry) prices.now (flight + 1) loads.new) }
    ensures work { IsWorkFor (parts_in problem.entry) work.new }
    ensures made { AreLoadsFor (parts_in problem.entry) loads.new }
{
    match work.least_trip(problem, flight, COST_WEIGHT, prices) {
        None => None,
        Some(least) => {
            loads.add(problem.s, flight, work.trip());
            Some(least)
        }
    }
}

/// Takes the least trip of each flight, and answers what they cost together with their prices;
/// nothing where a flight has none.
pub fn take_trips(
    problem: Subproblem<'_>,
    prices: &Prices,
    work: &mut Work,
    loads: &mut Loads,
) -> Option<i128>
    requires prices { ArePricesOf (parts_in problem) prices.now }
    requires low { (key : PriceKey) → IsKeyFor (parts_in problem) key
        → price_at prices.now key ≤ 2 ^ 61 }
    requires work { IsWorkFor (parts_in problem) work.old }
    requires loads { AreLoads (parts_in problem) (no_trips (parts_in problem)) loads.old }
    ensures sum { IsTakenSum (parts_in problem.entry) (box_in problem.entry) prices.now
        (length (parts_in problem.entry).flights) loads.new result }
    ensures near { IfSome result (IsNear (2 ^ 100)) }
    ensures work { IsWorkFor (parts_in problem.entry) work.new }
    ensures made { AreLoadsFor (parts_in problem.entry) loads.new }
{
    let mut sum = Some(0);
    for number in 0..problem.s.flights().len() {
        sum = plus(sum, take_trip(problem, number as u32, prices, work, loads));
    }
    sum
}
