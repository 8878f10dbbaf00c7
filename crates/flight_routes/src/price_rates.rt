//! The rates of a flight under prices.
ghost use Rattle.std.specs.Prelude.{◌≡◌, ◌≤◌, ◌<◌, ◌+◌, ◌-◌, ◌*◌, ◌^◌, ℕ, IfSome, Some, option_map, length, slice_index, ℤ, pos, ◌*ℤ◌, ◌-ℤ◌, ◌+ℤ◌};
ghost use Rattle.flow_types.specs.declared.flight.Flight.{Flight};
ghost use Rattle.flow_types.specs.Limits.{most_connections, most_delay_cost, most_nodes, most_periods};
ghost use Rattle.flow_types.specs.Scenario.{flight_at, parts_of};
ghost use Rattle.flow_types.specs.Trips.{place_at};
ghost use Rattle.time_windows.specs.Boxes.{IsInWindow};
ghost use Rattle.flight_routes.specs.FlightParts.{paid_cost, paid_value};
ghost use Rattle.flight_routes.specs.Filling.{ArePaidSmall, AreSmallAt, IsPriceTable, OnlyEnd, OnlyPaid, OnlyStays};
ghost use Rattle.flight_routes.specs.Prices.{ArePricesOf, price_in, summed};
ghost use Rattle.flight_routes.specs.RateLists.{rates_of};
ghost use Rattle.flight_routes.specs.Rates.{rate_at};
ghost use Rattle.exact_sums.specs.Near.{IsNear};
ghost use Rattle.flight_routes.specs.Ready.{AreWindows, IsInSpan, row_of};
ghost use Rattle.flight_routes.specs.TripRates.{AreTripRates};

use crate::cost::Cost;
use crate::ends::{airport_at, kind_at};
use crate::later::add_up_later;
use crate::priced_flight::PricedFlight;
use crate::prices::Prices;
use crate::rates::RateTable;
use crate::time_costs::{credit_then, last_of, total_then};
use flow_types::{CapKind, Flight, PriceKey, PriceKind, Scenario, place_at};
use time_windows::{Access, End, Window};

// A weight times a cost.
fn weighted_cost(weight: u64, cost: Option<i64>) -> Option<i128>
    requires weight { weight < 2 ^ 62 }
    requires cost { IfSome cost (IsNear most_delay_cost) }
    ensures value { result ≡ option_map (λ value. pos weight *ℤ value) cost }
    ensures within { IfSome result (IsNear (2 ^ 100)) }
{
    match cost {
        None => None,
        Some(cost) => Some(i128::from(weight) * i128::from(cost)),
    }
}

// What is paid, less a cost.
fn less(paid: u128, cost: Option<i128>) -> Option<i128>
    requires paid { paid < 2 ^ 100 }
    requires cost { IfSome cost (IsNear (2 ^ 100)) }
    ensures value { result ≡ option_map (λ value. pos paid -ℤ value) cost }
    ensures within { IfSome result (IsNear (2 ^ 110)) }
{
    match cost {
        None => None,
        Some(cost) => Some(paid as i128 - cost),
    }
}

// A cost and what is paid, less what is paid back.
fn more(cost: Option<i128>, paid: u64, back: u128) -> Option<i128>
    requires cost { IfSome cost (IsNear (2 ^ 100)) }
    requires back { back < 2 ^ 100 }
    ensures value { result ≡ option_map (λ value. value +ℤ (pos paid -ℤ pos back)) cost }
    ensures within { IfSome result (IsNear (2 ^ 110)) }
{
    match cost {
        None => None,
        Some(cost) => Some(cost + (i128::from(paid) - back as i128)),
    }
}

// What this end of the trip costs in the period: leaving its price, and what the connections cost
// from then on, less the credit; arriving the total and its price, less what the connections pay
// back.
fn end_value(priced: PricedFlight<'_>, end: End, time: u16, later: u128) -> Option<i128>
    requires time { time < (parts_of priced.s.now).day.periods }
    requires later { later ≤ most_connections * 2 ^ 71 }
    ensures value { result ≡ Some (paid_value priced.entry end time later) }
    ensures within { IfSome result (IsNear (2 ^ 110)) }
{
    let PricedFlight {
        s,
        flight,
        weight,
        ..
    } = priced;
    let price = priced.prices.get(PriceKey {
        kind: PriceKind::Capacity(kind_at(end)),
        row: airport_at(end, &s.flights()[flight as usize]),
        period: time,
    });
    match end {
        End::Departure => {
            less(
                u128::from(price) + later,
                weighted_cost(weight, credit_then(s, flight, time)),
            )
        }
        End::Arrival => {
            more(
                weighted_cost(weight, total_then(s, flight, time)),
                price,
                later,
            )
        }
    }
}

// Sets what this end of the trip costs in each period of the window.
#[tactic(auto, using(crate::proofs::FillFacts::end_more, crate::proofs::FillFacts::end_none))]
fn set_end(table: &mut RateTable, priced: PricedFlight<'_>, end: End, window: Window, sums: &[u128])
    requires window { window.hi < (parts_of priced.s.now).day.periods }
    requires sums { length sums.now ≡ (parts_of priced.s.now).day.periods }
    requires small { (t : ℕ) → window.lo ≤ t → t ≤ window.hi
        → slice_index sums.now t ≤ most_connections * 2 ^ 71 }
    ensures costs { (t : ℕ) → window.lo ≤ t → t ≤ window.hi
        → rate_at end (rates_of table.new) t
        ≡ Some (paid_value priced.entry end t (slice_index sums.now t)) }
    ensures only { OnlyEnd end table.old table.new }
    ensures within { AreSmallAt end table.old → AreSmallAt end table.new }
{
    for time in window.lo..window.hi + 1 {
        let value = end_value(priced, end, time, sums[usize::from(time)]);
        table.set_end(end, time, Cost::new(value));
    }
}

// Sets what being at the node has cost up to each period, from the first one of the table on.
#[tactic(auto, using(crate::proofs::LaterFacts::summed_more))]
fn set_paid(table: &mut RateTable, s: &Scenario, node: u16, place: u32, prices: &Prices)
    requires prices { ArePricesOf (parts_of s.now) prices.now }
    requires node { node < most_nodes }
    requires place { place < length (parts_of s.now).places }
    requires day { table.old.span.hi < (parts_of s.now).day.periods }
    ensures paid { (t : ℕ) → IsInSpan table.old.span t → (rates_of table.new).paid node t
        ≡ pos (summed (price_in prices.now.inside place) table.old.span.lo t) }
    ensures only { OnlyPaid node table.old table.new }
    ensures within { ArePaidSmall table.old → ArePaidSmall table.new }
{
    let stays = prices.row(PriceKind::Capacity(CapKind::Sector), place);
    let span = table.span();
    let mut sum = 0u128;
    for time in span.lo..span.hi + 1 {
        table.set_paid(node, time, sum);
        sum += u128::from(stays[usize::from(time)]);
    }
}

// Sets what an end of the trip costs in each period, with the connections that the flight has
// there: each costs from its departure on, and pays back from the turnaround after its arrival on.
fn set_end_rates(
    table: &mut RateTable,
    sums: &mut [u128],
    priced: PricedFlight<'_>,
    end: End,
    window: Window,
)
    requires window { window.hi < (parts_of priced.s.now).day.periods }
    requires sums { length sums.old ≡ (parts_of priced.s.now).day.periods }
    ensures costs { (t : ℕ) → window.lo ≤ t → t ≤ window.hi
        → rate_at end (rates_of table.new) t ≡ Some (paid_cost priced.entry end t) }
    ensures only { OnlyEnd end table.old table.new }
    ensures within { AreSmallAt end table.old → AreSmallAt end table.new }
    ensures sums { length sums.new ≡ (parts_of priced.entry.s.now).day.periods }
{
    let turns = priced.turns.of_flight(priced.flight, end);
    let periods = priced.s.day().periods;
    add_up_later(sums, priced.prices, turns, end, window, periods);
    set_end(table, priced, end, window, sums);
}

// Sets what that end of the trip costs, where its node is open; a closed one has no period to set.
fn set_end_in(
    table: &mut RateTable,
    sums: &mut [u128],
    priced: PricedFlight<'_>,
    end: End,
    accesses: &[Access],
    node: u16,
)
    requires accesses { length accesses.now ≡ most_nodes }
    requires windows { AreWindows table.old.span (row_of accesses.now) }
    requires day { table.old.span.hi < (parts_of priced.s.now).day.periods }
    requires node { node < most_nodes }
    requires sums { length sums.old ≡ (parts_of priced.s.now).day.periods }
    ensures costs { (t : ℕ) → IsInWindow (row_of accesses.now node).window t
        → rate_at end (rates_of table.new) t ≡ Some (paid_cost priced.entry end t) }
    ensures only { OnlyEnd end table.old table.new }
    ensures within { AreSmallAt end table.old → AreSmallAt end table.new }
    ensures sums { length sums.new ≡ (parts_of priced.entry.s.now).day.periods }
{
    if let Some(window) = accesses[usize::from(node)].window {
        set_end_rates(table, sums, priced, end, window);
    }
}

// Sets what being in each sector of the flight has cost up to each period, from the first one of
// the table on.
fn set_stays(table: &mut RateTable, s: &Scenario, flight: &Flight, last: u16, prices: &Prices)
    requires prices { ArePricesOf (parts_of s.now) prices.now }
    requires day { table.old.span.hi < (parts_of s.now).day.periods }
    requires last { last < most_nodes }
    requires places { (n : ℕ) → 0 < n → n < last
        → place_at flight.now n < length (parts_of s.now).places }
    ensures paid { (n t : ℕ) → 0 < n → n < last → IsInSpan table.old.span t
        → (rates_of table.new).paid n t
        ≡ pos (summed (price_in prices.now.inside (place_at flight.now n)) table.old.span.lo t) }
    ensures first { (t : ℕ) → t < most_periods
        → (rates_of table.new).paid 0 t ≡ (rates_of table.old).paid 0 t }
    ensures only { OnlyStays table.old table.new }
    ensures within { ArePaidSmall table.old → ArePaidSmall table.new }
{
    for node in 1..last {
        set_paid(table, s, node, place_at(flight, node), prices);
    }
}

/// Sets the rates of the flight: what leaving and arriving cost it, and what being in its sectors
/// has cost up to each period of the table, at this weight of its cost and these prices.
pub fn set_price_rates(
    table: &mut RateTable,
    sums: &mut [u128],
    priced: PricedFlight<'_>,
    accesses: &[Access],
)
    requires table { IsPriceTable table.old }
    requires accesses { length accesses.now ≡ most_nodes }
    requires windows { AreWindows table.old.span (row_of accesses.now) }
    requires day { table.old.span.hi < (parts_of priced.s.now).day.periods }
    requires sums { length sums.old ≡ (parts_of priced.s.now).day.periods }
    ensures rates { (details : Flight)
        → flight_at priced.entry.s.now priced.entry.flight ≡ Some details
        → AreTripRates priced.entry.weight priced.entry.prices.now (parts_of priced.entry.s.now)
        priced.entry.flight details (row_of accesses.now) table.old.span (rates_of table.new) }
    ensures table { IsPriceTable table.new }
    ensures span { table.new.span ≡ table.old.span }
    ensures sums { length sums.new ≡ (parts_of priced.entry.s.now).day.periods }
{
    let PricedFlight {
        s,
        flight,
        prices,
        ..
    } = priced;
    let details = &s.flights()[flight as usize];
    let last = last_of(details);
    set_end_in(table, sums, priced, End::Departure, accesses, 0);
    set_end_in(table, sums, priced, End::Arrival, accesses, last);
    set_stays(table, s, details, last, prices);
}
