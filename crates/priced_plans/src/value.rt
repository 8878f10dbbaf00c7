//! The value of prices in a box.
ghost use Rattle.std.specs.Prelude.{◌≡◌, ◌*◌, ◌≤◌, ◌<◌, ◌^◌, IfSome, MatchOption, length};
ghost use Rattle.exact_sums.specs.Near.{IsNear};
ghost use Rattle.flow_types.specs.Capacities.{capacity_of};
ghost use Rattle.flow_types.specs.Scenario.{parts_of};
ghost use Rattle.flow_types.specs.declared.bound.PriceKind.TheVariants.{Capacity};
ghost use Rattle.flight_routes.specs.Prices.{ArePricesOf, block_of};
ghost use Rattle.flight_routes.specs.Work.{IsWorkFor};
ghost use Rattle.time_windows.specs.Held.{IsMadeFor, box_of};
ghost use Rattle.time_windows.specs.Subproblems.{box_in, parts_in};
ghost use Rattle.priced_plans.specs.Values.{IsPricedSum, IsPricedValue, capacity_price, limit_price};
ghost use Rattle.priced_plans.specs.Valuing.{AreSmall, LacksTrip, row_price};

use exact_sums::plus;
use flight_routes::{Prices, Work};
use flow_types::{CapKind, PriceKind, Scenario, capacity_at};
use time_windows::{Boxes, Subproblem};

/// The value of the prices in the box, at this weight of the costs: the least of weight times cost
/// plus prices over the trips of each flight, added up, less what all capacities would pay. None
/// where a flight has no trip in the box.
///
/// The work, the box and the prices are of the scenario, and the weight and every price are below
/// 2^62. It takes no memory, and time as a least trip for each flight, and for each place and
/// period.
pub fn priced_value(
    work: &mut Work,
    s: &Scenario,
    boxes: &Boxes,
    weight: u64,
    prices: &Prices,
) -> Option<i128>
    requires work { IsWorkFor (parts_of s.now) work.old }
    requires boxes { IsMadeFor (parts_of s.now) boxes.now }
    requires weight { weight < 2 ^ 62 }
    requires prices { ArePricesOf (parts_of s.now) prices.now }
    requires small { AreSmall prices.now }
    ensures value { MatchOption result (LacksTrip (parts_of s.now) (box_of boxes.now))
        (IsPricedValue (parts_of s.now) (box_of boxes.now) weight prices.now) }
    ensures within { IfSome result (IsNear (2 ^ 123)) }
    ensures work { IsWorkFor (parts_of s.now) work.new }
{
    let limit = limit_price(s, prices);
    match least_sum(work, Subproblem { s, boxes }, weight, prices) {
        None => None,
        Some(sum) => Some(sum - limit as i128),
    }
}

// The least of the trips of each flight, added up.
#[tactic(auto, using(crate::proofs::NearFacts::least_small, crate::proofs::NearFacts::part_more))]
fn least_sum(work: &mut Work, problem: Subproblem<'_>, weight: u64, prices: &Prices) -> Option<i128>
    requires work { IsWorkFor (parts_in problem) work.old }
    requires weight { weight < 2 ^ 62 }
    requires prices { ArePricesOf (parts_in problem) prices.now }
    requires small { AreSmall prices.now }
    ensures sum { MatchOption result (LacksTrip (parts_in problem.entry) (box_in problem.entry))
        (IsPricedSum (parts_in problem.entry) (box_in problem.entry) weight prices.now
        (length (parts_in problem.entry).flights)) }
    ensures within { IfSome result (IsNear (2 ^ 120)) }
    ensures work { IsWorkFor (parts_in problem.entry) work.new }
{
    let mut sum = Some(0);
    for number in 0..problem.s.flights().len() {
        sum = plus(sum, work.least_trip(problem, number as u32, weight, prices));
    }
    sum
}

/// What all departures, arrivals and flights inside sectors that there is room for would pay. The
/// prices are of the scenario. It takes no memory, and time for each place and period.
pub fn limit_price(s: &Scenario, prices: &Prices) -> u128
    requires { ArePricesOf (parts_of s.now) prices.now }
    ensures value { result ≡ limit_price (parts_of s.now) prices.now }
    ensures small { result ≤ 2 ^ 122 }
{
    capacity_price(CapKind::Dep, s, prices)
        + capacity_price(CapKind::Arr, s, prices)
        + capacity_price(CapKind::Sector, s, prices)
}

// What the capacities of this kind would pay.
#[tactic(auto, using(exact_sums::proofs::RangeFacts::sum_next))]
fn capacity_price(kind: CapKind, s: &Scenario, prices: &Prices) -> u128
    requires { ArePricesOf (parts_of s.now) prices.now }
    ensures value { result
        ≡ capacity_price (parts_of s.now) kind (block_of (Capacity kind) prices.now) }
    ensures small { result ≤ 2 ^ 120 }
{
    let mut sum = 0u128;
    for place in 0..s.places().len() {
        sum += row_price(kind, s, prices, place as u32);
    }
    sum
}

// What the place's capacities of this kind would pay in all periods.
#[tactic(auto, using(exact_sums::proofs::RangeFacts::sum_next))]
fn row_price(kind: CapKind, s: &Scenario, prices: &Prices, place: u32) -> u128
    requires prices { ArePricesOf (parts_of s.now) prices.now }
    requires place { place < length (parts_of s.now).places }
    ensures value { result ≡ row_price (parts_of s.now) kind prices.now place }
    ensures small { result ≤ 2 ^ 110 }
{
    let row = prices.row(PriceKind::Capacity(kind), place);
    let mut sum = 0u128;
    for period in 0..s.day().periods {
        sum += cell_price(kind, s, place, period, row[usize::from(period)]);
    }
    sum
}

// What the place's capacity of this kind in a period would pay at this price, which mostly is 0.
fn cell_price(kind: CapKind, s: &Scenario, place: u32, period: u16, price: u64) -> u128
    requires price { price < 2 ^ 62 }
    ensures value { result ≡ price * capacity_of (parts_of s.now).places kind place period }
    ensures small { result ≤ 2 ^ 94 }
{
    if price == 0 {
        return 0;
    }
    u128::from(price) * u128::from(capacity_at(s.places(), kind, place, period))
}
