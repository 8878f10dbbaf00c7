//! The rates of a flight beside the trips of others, at which only trips that fit are ways.
ghost use Rattle.std.specs.Prelude.{◌≡◌, ◌≤◌, ◌<◌, ◌+◌, ◌^◌, ◌↔◌, ◌⊎◌, ℕ, IfSome, IsTrue, List, None, Some, length, option_map, slice_get, slice_index, pos, ◌-ℤ◌};
ghost use Rattle.flow_types.specs.declared.flight.Flight.{Flight};
ghost use Rattle.flow_types.specs.declared.place.CapKind.TheVariants as kind;
ghost use Rattle.flow_types.specs.declared.plan.Stop.{Stop};
ghost use Rattle.flow_types.specs.Capacities.{caps_of, has_kind};
ghost use Rattle.flow_types.specs.Limits.{most_nodes};
ghost use Rattle.flow_types.specs.Scenario.{flight_at, parts_of};
ghost use Rattle.flow_types.specs.Trips.{place_at};
ghost use Rattle.plan_rules.specs.Loads.{AreLoads, IsMadeFor};
ghost use Rattle.time_windows.specs.Boxes.{IsInWindow};
ghost use Rattle.flight_routes.specs.FlightParts.{IsFreeFor, plain_value};
ghost use Rattle.flight_routes.specs.Filling.{AreSmallAt, IsFitTable, OnlyClear, OnlyEnd};
ghost use Rattle.flight_routes.specs.FitRates.{AreFitRates, IsGiven};
ghost use Rattle.flight_routes.specs.FitTimes.{HasSpace, IsClearAt, IsFirstFull, IsInTimeAt, IsNextFull, fit_value};
ghost use Rattle.flight_routes.specs.RateLists.{rates_of};
ghost use Rattle.exact_sums.specs.Near.{IsNear};
ghost use Rattle.flight_routes.specs.Rates.{AreClear, rate_at};
ghost use Rattle.flight_routes.specs.Ready.{AreWindows, IsInSpan, row_of};

use crate::cost::Cost;
use crate::ends::{airport_at, kind_at};
use crate::loaded_flight::LoadedFlight;
use crate::rates::RateTable;
use crate::time_costs::{credit_then, last_of, total_then};
use crate::turn_times::{arrive_limit, first_leave};
use flow_types::{CapKind, Flight, MOST_PERIODS, Scenario, place_at};
use plan_rules::Loads;
use time_windows::{Access, End, Window};

// Whether there is room for one more flight.
fn has_space(s: &Scenario, loads: &Loads, kind: CapKind, place: u32, time: u16) -> bool
    requires loads { IsMadeFor (parts_of s.now) loads.now }
    requires place { IsTrue (has_kind kind (slice_get (parts_of s.now).places place)) }
    requires time { time < (parts_of s.now).day.periods }
    ensures { IsTrue result ↔ HasSpace (parts_of s.now) loads.now kind place time }
{
    loads.load(kind, place, time) < s.capacity(kind, place, time)
}

// A cost in 128 bits.
fn wide_cost(cost: Option<i64>) -> Option<i128>
    ensures value { result ≡ cost }
    ensures within { IfSome result (IsNear (2 ^ 110)) }
{
    match cost {
        None => None,
        Some(cost) => Some(i128::from(cost)),
    }
}

// What is paid back for the cost.
fn negative_cost(cost: Option<i64>) -> Option<i128>
    ensures value { result ≡ option_map (λ value. pos 0 -ℤ value) cost }
    ensures within { IfSome result (IsNear (2 ^ 110)) }
{
    match cost {
        None => None,
        Some(cost) => Some(0 - i128::from(cost)),
    }
}

// Whether a departure is no earlier, or an arrival is earlier.
fn is_in_time(end: End, bound: u32, time: u16) -> bool
    ensures { IsTrue result ↔ IsInTimeAt end bound time }
{
    match end {
        End::Departure => bound <= u32::from(time),
        End::Arrival => u32::from(time) < bound,
    }
}

// What this end of the trip costs in the period, by the flight's table alone.
fn value_at(s: &Scenario, flight: u32, end: End, time: u16) -> Option<i128>
    requires { flight < length (parts_of s.now).flights }
    ensures value { result
        ≡ Some (fit_value end (parts_of s.now).tables (flight_at s.now flight) time) }
    ensures within { IfSome result (IsNear (2 ^ 110)) }
{
    match end {
        End::Departure => negative_cost(credit_then(s, flight, time)),
        End::Arrival => wide_cost(total_then(s, flight, time)),
    }
}

// What this end of the trip costs in the period; nothing where the flight may not leave or arrive
// then: out of time, or without room.
fn fit_at(loaded: LoadedFlight<'_>, end: End, time: u16, bound: u32) -> Option<i128>
    requires time { time < (parts_of loaded.s.now).day.periods }
    ensures given { IsGiven result
        (IsFreeFor loaded.entry end bound time)
        (plain_value loaded.entry end time) }
    ensures within { IfSome result (IsNear (2 ^ 110)) }
{
    let LoadedFlight {
        s,
        flight,
        loads,
        ..
    } = loaded;
    if !is_in_time(end, bound, time) {
        return None;
    }
    let airport = airport_at(end, &s.flights()[flight as usize]);
    if !has_space(s, loads, kind_at(end), airport, time) {
        return None;
    }
    value_at(s, flight, end, time)
}

// Sets what this end of the trip costs in each period of the window.
#[tactic(auto, using(crate::proofs::FillFacts::end_more, crate::proofs::FillFacts::end_none))]
fn set_end(table: &mut RateTable, loaded: LoadedFlight<'_>, end: End, window: Window, bound: u32)
    requires { window.hi < (parts_of loaded.s.now).day.periods }
    ensures costs { (t : ℕ) → window.lo ≤ t → t ≤ window.hi
        → IsGiven (rate_at end (rates_of table.new) t)
        (IsFreeFor loaded.entry end bound t)
        (plain_value loaded.entry end t) }
    ensures only { OnlyEnd end table.old table.new }
    ensures within { AreSmallAt end table.old → AreSmallAt end table.new }
{
    for time in window.lo..window.hi + 1 {
        let value = fit_at(loaded, end, time, bound);
        table.set_end(end, time, Cost::new(value));
    }
}

// Sets what that end of the trip costs, where its node is open; a closed one has no period to set.
fn set_end_in(
    table: &mut RateTable,
    loaded: LoadedFlight<'_>,
    end: End,
    accesses: &[Access],
    node: u16,
    bound: u32,
)
    requires accesses { length accesses.now ≡ most_nodes }
    requires windows { AreWindows table.old.span (row_of accesses.now) }
    requires day { table.old.span.hi < (parts_of loaded.s.now).day.periods }
    requires node { node < most_nodes }
    ensures costs { (t : ℕ) → IsInWindow (row_of accesses.now node).window t
        → IsGiven (rate_at end (rates_of table.new) t)
        (IsFreeFor loaded.entry end bound t)
        (plain_value loaded.entry end t) }
    ensures only { OnlyEnd end table.old table.new }
    ensures within { AreSmallAt end table.old → AreSmallAt end table.new }
{
    if let Some(window) = accesses[usize::from(node)].window {
        set_end(table, loaded, end, window, bound);
    }
}

// The capacities of the sector, by period.
fn capacities_of(s: &Scenario, place: u32) -> &[u32]
    ensures { result.now ≡ caps_of kind.Sector (slice_get (parts_of s.now).places place) }
{
    match s.places().get(place as usize) {
        None => &[],
        Some(place) => place.first.items(),
    }
}

// Whether there is room for one more flight than are counted.
fn has_room(counts: &[u32], capacities: &[u32], time: u16) -> bool
    requires { time < length counts.now }
    ensures { IsTrue result
        ↔ slice_index counts.now time + 1 ≤ slice_index capacities.now time }
{
    let at = usize::from(time);
    counts[at] < capacities.get(at).copied().unwrap_or(0)
}

// The first full period, by that from the next period on.
#[tactic(auto, using(crate::proofs::FillFacts::first_kept, crate::proofs::FillFacts::first_here))]
fn first_full(counts: &[u32], capacities: &[u32], time: u16, later: u16) -> u16
    requires time { time < length counts.now }
    ensures full { IsNextFull counts.now capacities.now time later result }
    ensures choice { (result ≡ time) ⊎ (result ≡ later) }
{
    if has_room(counts, capacities, time) {
        later
    } else {
        time
    }
}

// Sets the first full period from each period of the table on.
fn set_full(table: &mut RateTable, s: &Scenario, node: u16, place: u32, loads: &Loads)
    requires day { table.old.span.hi < (parts_of s.now).day.periods }
    requires loads { IsMadeFor (parts_of s.now) loads.now }
    requires place { IsTrue (has_kind kind.Sector (slice_get (parts_of s.now).places place)) }
    requires node { node < most_nodes }
    ensures full { (t : ℕ) → IsInSpan table.old.span t → IsFirstFull (parts_of s.now) loads.now
        place table.old.span.hi t ((rates_of table.new).clear node t) }
    ensures clear { IsClearAt table.old.span node (rates_of table.new) }
    ensures only { OnlyClear node table.old table.new }
{
    let span = table.span();
    let counts = loads.row(CapKind::Sector, place);
    let capacities = capacities_of(s, place);
    let mut time = span.hi + 1;
    let mut first = MOST_PERIODS;
    while span.lo < time {
        time -= 1;
        first = first_full(counts, capacities, time, first);
        table.set_clear(node, time, first);
    }
}

// Sets the first full period from each period of the table on, for each sector of the flight.
fn set_all_full(table: &mut RateTable, s: &Scenario, flight: &Flight, last: u16, loads: &Loads)
    requires table { IsFitTable table.old }
    requires day { table.old.span.hi < (parts_of s.now).day.periods }
    requires loads { IsMadeFor (parts_of s.now) loads.now }
    requires last { last < most_nodes }
    requires sectors { (n : ℕ) → 0 < n → n < last → IsTrue (has_kind kind.Sector
        (slice_get (parts_of s.now).places (place_at flight.now n))) }
    ensures full { (n t : ℕ) → 0 < n → n < last → IsInSpan table.old.span t
        → IsFirstFull (parts_of s.now) loads.now (place_at flight.now n) table.old.span.hi t
        ((rates_of table.new).clear n t) }
    ensures clear { (n : ℕ) → 0 < n → n < last
        → IsClearAt table.old.span n (rates_of table.new) }
    ensures table { IsFitTable table.new }
    ensures leaves { table.new.leaves ≡ table.old.leaves }
    ensures arrives { table.new.arrives ≡ table.old.arrives }
    ensures span { table.new.span ≡ table.old.span }
{
    for node in 1..last {
        set_full(table, s, node, place_at(flight, node), loads);
    }
}

/// Sets the rates of the flight beside the loads: what leaving and arriving cost it where there is
/// room and its connections let it, and how long there is room in each of its sectors, from each
/// period of the table on.
pub fn set_fit_rates(table: &mut RateTable, loaded: LoadedFlight<'_>, accesses: &[Access])
    requires table { IsFitTable table.old }
    requires day { table.old.span.hi < (parts_of loaded.s.now).day.periods }
    requires accesses { length accesses.now ≡ most_nodes }
    requires windows { AreWindows table.old.span (row_of accesses.now) }
    ensures rates { (trips : List (List Stop)) (details : Flight)
        → AreLoads (parts_of loaded.entry.s.now) trips loaded.entry.loads.now
        → flight_at loaded.entry.s.now loaded.entry.flight ≡ Some details
        → AreFitRates (parts_of loaded.entry.s.now) trips loaded.entry.flight details
        (row_of accesses.now) table.old.span (rates_of table.new) }
    ensures clear { (details : Flight)
        → flight_at loaded.entry.s.now loaded.entry.flight ≡ Some details
        → AreClear details table.old.span (rates_of table.new) }
    ensures table { IsFitTable table.new }
    ensures span { table.new.span ≡ table.old.span }
{
    let LoadedFlight {
        s,
        flight,
        turns,
        loads,
    } = loaded;
    let details = &s.flights()[flight as usize];
    let last = last_of(details);
    let leave = End::Departure;
    let first = first_leave(turns.of_flight(flight, leave), loads);
    set_end_in(table, loaded, leave, accesses, 0, first);
    let arrive = End::Arrival;
    let limit = arrive_limit(turns.of_flight(flight, arrive), loads);
    set_end_in(table, loaded, arrive, accesses, last, limit);
    set_all_full(table, s, details, last, loads);
}
