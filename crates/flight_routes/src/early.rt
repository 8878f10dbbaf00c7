//! Least ways among those that end early, as far as no later one may cost as little.
ghost use Rattle.std.specs.Prelude.{◌≡◌, ◌+◌, ◌≤◌, ◌<◌, ◌∷◌, ◌*◌, ◌^◌, ◌+ℤ◌, ℕ, IfSome, IsSome, IsTrue, List, MatchOption, Some, length, vec_capacity};
ghost use Rattle.exact_sums.specs.Leasts.{IsFirstLeast, IsLeast};
ghost use Rattle.flow_types.specs.declared.plan.Stop.{Stop};
ghost use Rattle.flow_types.specs.Limits.{most_nodes, most_periods};
ghost use Rattle.flow_types.specs.Trips.{arrival_from};
ghost use Rattle.flight_routes.specs.Early.{AreAhead, AreEnds, IsLess, IsNoMore, ahead_in, cut_at, cut_window};
ghost use Rattle.flight_routes.specs.RateLists.{rates_of};
ghost use Rattle.flight_routes.specs.Rates.{value_or_zero};
ghost use Rattle.exact_sums.specs.Near.{IsNear};
ghost use Rattle.flight_routes.specs.Ready.{AreSmall, AreWindows, row_of};
ghost use Rattle.flight_routes.specs.TripOrder.{IsNoLater};
ghost use Rattle.flight_routes.specs.WayParts.{AreRisingIn, IsWayIn, cost_in};

use crate::accesses::window_at;
use crate::cost::Cost;
use crate::rates::RateTable;
use crate::table::Table;
use crate::ways::Ways;
use flow_types::{MOST_NODES, Stop};
use time_windows::{Access, End, Window};

// The part of a window from which the flight may still arrive by the period, so many periods on.
fn cut_window(window: Option<Window>, cap: u16, ahead: u16) -> Option<Window>
    requires cap { cap < most_periods }
    ensures { result ≡ cut_window cap ahead window }
{
    match window {
        None => None,
        Some(window) => {
            if u32::from(window.lo) + u32::from(ahead) <= u32::from(cap) {
                Some(Window {
                    lo: window.lo,
                    hi: window.hi.min(cap - ahead),
                })
            } else {
                None
            }
        }
    }
}

// Puts the windows of a row into another row, cut so that the flight may still arrive by the
// period.
fn cut_row(accesses: &[Access], cap: u16, distances: &[u16], cut: &mut [Access])
    requires accesses { length accesses.now ≡ most_nodes }
    requires distances { length distances.now ≡ most_nodes }
    requires cap { cap < most_periods }
    requires cut { length cut.old ≡ most_nodes }
    ensures length { length cut.new ≡ most_nodes }
    ensures row { (n : ℕ) → row_of cut.new n
        ≡ cut_at cap (ahead_in distances.now n) (row_of accesses.now n) }
{
    for node in 0..MOST_NODES {
        cut[node] = Access {
            window: cut_window(accesses[node].window, cap, distances[node]),
            must: accesses[node].must,
        };
    }
}

// What leaving in the period costs, if that isn't past the window.
fn leave_in(rates: &RateTable, window: Window, time: u16) -> Cost
    requires end { window.hi < most_periods }
    requires small { AreSmall (rates_of rates.now) }
    ensures rate { time ≤ window.hi → result ≡ (rates_of rates.now).leaves time }
    ensures small { IfSome result (IsNear (2 ^ 110)) }
{
    if time <= window.hi {
        rates.leaves_at(time)
    } else {
        Cost::none()
    }
}

// What arriving in the period costs, if that isn't before the window.
fn arrive_in(rates: &RateTable, window: Window, time: u16) -> Cost
    requires time { time < most_periods }
    requires small { AreSmall (rates_of rates.now) }
    ensures rate { window.lo ≤ time → result ≡ (rates_of rates.now).arrives time }
    ensures small { IfSome result (IsNear (2 ^ 110)) }
{
    if window.lo <= time {
        rates.arrives_at(time)
    } else {
        Cost::none()
    }
}

// No more than leaving and arriving cost, wherever the flight may leave in the one window and
// arrive in the other, so many periods later or more; none only where it may not.
fn ends_bound(rates: &RateTable, leave: Window, arrive: Window, ahead: u16) -> Cost
    requires leave { leave.hi < most_periods }
    requires arrive { arrive.hi < most_periods }
    requires proper { leave.lo ≤ leave.hi }
    requires ahead { ahead ≤ most_periods }
    requires small { AreSmall (rates_of rates.now) }
    ensures { (from to : ℕ) → AreEnds leave arrive (rates_of rates.now) ahead from to
        → IsNoMore result (value_or_zero ((rates_of rates.now).leaves from)
        +ℤ value_or_zero ((rates_of rates.now).arrives to)) }
{
    let mut from = Cost::none();
    let mut least = Cost::none();
    for time in leave.lo + ahead..arrive.hi + 1 {
        from = from.lesser(leave_in(rates, leave, time - ahead));
        least = least.lesser(from.and(arrive_in(rates, arrive, time)));
    }
    least
}

// The first period of the window in which an end of the trip has a rate, or one past the window.
fn first_rated(rates: &RateTable, end: End, window: Window) -> u32
    requires end { window.hi < most_periods }
    ensures { result ≤ most_periods }
{
    for time in window.lo..window.hi + 1 {
        if rates.end_at(end, time).is_some() {
            return u32::from(time);
        }
    }
    u32::from(window.hi) + 1
}

/// The last node of the flight.
pub fn last_node(ways: Ways<'_>) -> u16
    ensures { result + 1 ≡ length ways.entry.flight.now.nodes }
{
    (ways.flight.nodes.items().len() - 1) as u16
}

/// About the first period in which the flight can arrive: as early as it may, but not before it
/// could, if it left as soon as it may.
pub fn about_first_end(ways: Ways<'_>) -> u32
    ensures { result ≤ 2 * most_periods }
{
    let Some(leaves) = window_at(ways.accesses, 0) else {
        return 0;
    };
    let Some(arrives) = window_at(ways.accesses, last_node(ways)) else {
        return 0;
    };
    let rated = first_rated(ways.rates, End::Departure, leaves);
    let waits = rated.saturating_sub(u32::from(leaves.lo));
    let rated = first_rated(ways.rates, End::Arrival, arrives);
    rated.max(u32::from(arrives.lo) + waits)
}

/// The last period in which the flight can arrive, 0 where it can't.
pub fn last_end(ways: Ways<'_>) -> u32
    ensures { result < most_periods }
{
    match window_at(ways.accesses, last_node(ways)) {
        None => 0,
        Some(window) => u32::from(window.hi),
    }
}

// No more than any way costs that ends in the periods from `lo` to `hi`: it leaves and arrives at
// some cost, takes its time, and what it pays in between isn't below 0. None only where there is no
// such way.
fn ways_bound(ways: Ways<'_>, distances: &[u16], lo: u16, hi: u16) -> Cost
    requires distances { length distances.now ≡ most_nodes }
    requires rising { AreRisingIn ways }
    requires ahead { AreAhead ways.flight.now (ahead_in distances.now) }
    requires far { ahead_in distances.now 0 ≤ most_periods }
    ensures { (stop : Stop) (rest : List Stop)
        → IsWayIn ways.entry (stop ∷ rest)
        → lo ≤ arrival_from stop rest → arrival_from stop rest ≤ hi
        → IsNoMore result (cost_in ways.entry (stop ∷ rest)) }
{
    let Some(leave) = window_at(ways.accesses, 0) else {
        return Cost::none();
    };
    let last = last_node(ways);
    let Some(arrive) = window_at(ways.accesses, last) else {
        return Cost::none();
    };
    let ends = Window {
        lo: arrive.lo.max(lo),
        hi: arrive.hi.min(hi),
    };
    ends_bound(ways.rates, leave, ends, distances[0])
}

// Whether every way that ends after the period costs more than the least, where none of them costs
// less than `later`.
#[tactic(auto, using(crate::proofs::EarlyFacts::less_more))]
fn later_cost_more(ways: Ways<'_>, cap: u16, later: Cost, least: Cost) -> bool
    requires later { (stop : Stop) (rest : List Stop)
        → IsWayIn ways (stop ∷ rest)
        → cap < arrival_from stop rest
        → IsNoMore later (cost_in ways (stop ∷ rest)) }
    ensures some { IsTrue result → IsSome least }
    ensures more { IsTrue result → (stop : Stop) (rest : List Stop)
        → IsWayIn ways.entry (stop ∷ rest)
        → cap < arrival_from stop rest
        → IsLess least (Some (cost_in ways.entry (stop ∷ rest))) }
{
    least.is_less(later)
}

/// The least cost of the flight's ways, if no way that ends after the period may cost as little,
/// with the stops of the first that reaches it. Else none, and nothing is known.
pub fn early_way(
    table: &mut Table,
    ways: Ways<'_>,
    cut: &mut [Access],
    distances: &[u16],
    cap: u16,
    stops: &mut Vec<Stop>,
) -> Cost
    requires distances { length distances.now ≡ most_nodes }
    requires ahead { AreAhead ways.flight.now (ahead_in distances.now) }
    requires far { ahead_in distances.now 0 ≤ most_periods }
    requires cut { length cut.old ≡ most_nodes }
    requires rising { AreRisingIn ways }
    requires cap { cap < most_periods }
    requires room { most_nodes ≤ vec_capacity stops.old }
    ensures least { IsSome result
        → IsLeast (IsWayIn ways.entry) (cost_in ways.entry) result }
    ensures first { IsSome result
        → IsFirstLeast (IsWayIn ways.entry) (cost_in ways.entry) IsNoLater stops.new.items }
    ensures room { most_nodes ≤ vec_capacity stops.new }
    ensures length { length cut.new ≡ most_nodes }
{
    let early = ways_bound(ways, distances, 0, cap);
    let later = ways_bound(ways, distances, cap + 1, u16::MAX);
    // the least of the early ways is no less than `early`, and would have to be less than `later`
    if !early.is_less(later) {
        return Cost::none();
    }
    cut_row(ways.accesses, cap, distances, cut);
    let early_ways = Ways {
        flight: ways.flight,
        accesses: cut,
        rates: ways.rates,
    };
    let least = table.least_way(early_ways);
    if !later_cost_more(ways, cap, later, least) {
        return Cost::none();
    }
    table.trace(early_ways, least, stops);
    least
}
