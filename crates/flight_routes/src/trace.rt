//! The first of the least ways of a flight.
ghost use Rattle.std.specs.Prelude.{◌≡◌, ◌*◌, ◌+◌, ◌≤◌, ◌<◌, ◌^◌, ℕ, Some, IfSome, IsSome, length, vec_capacity};
ghost use Rattle.exact_sums.specs.Leasts.{IsFirstLeast, IsLeast};
ghost use Rattle.flow_types.specs.Limits.{most_delay, most_nodes, most_periods};
ghost use Rattle.flow_types.specs.Routes.{IsLeg};
ghost use Rattle.time_windows.specs.Boxes.{IsInWindow};
ghost use Rattle.flight_routes.specs.Entries.{cell_at, cell_in};
ghost use Rattle.flight_routes.specs.Firsts.{IsFirst, IsFirstAt, IsFirstTime, IsEntryAt, IsFirstTimeAt, IsKeptMove, IsKeptStart, IsNext, IsNextBy, earlier, key_of};
ghost use Rattle.flight_routes.specs.RateLists.{paid_in, rates_of};
ghost use Rattle.exact_sums.specs.Near.{IsNear};
ghost use Rattle.flight_routes.specs.TripOrder.{IsNoLater};
ghost use Rattle.flight_routes.specs.WayParts.{AreCellsIn, IsWayIn, cost_in, rates_in, row_in};
ghost use Rattle.flight_routes.specs.Ways.{IsLimit};

use crate::accesses::{limit_of, window_at};
use crate::cost::Cost;
use crate::rates::{RateTable, part_of};
use crate::relax::{cell_at, entry_at};
use crate::starts::start_of;
use crate::ways::Ways;
use flow_types::{Leg, Stop};
use time_windows::Window;

// The place of the stop among all.
fn key_of(stop: Stop) -> u32
    ensures { result ≡ key_of stop }
{
    u32::from(stop.node) * 512 + u32::from(stop.time)
}

// The earlier of two stops, as far as they are there.
fn earlier(a: Option<Stop>, b: Option<Stop>) -> Option<Stop>
    ensures { result ≡ earlier a b }
{
    match (a, b) {
        (None, b) => b,
        (a, None) => a,
        (Some(a), Some(b)) => {
            if key_of(b) < key_of(a) {
                Some(b)
            } else {
                Some(a)
            }
        }
    }
}

// The first of the periods in which an entry costs so much, with a way on from there.
fn first_cost(paid: &[i128], cells: &[Cost], first: u16, last: u16, wanted: Cost) -> Option<u16>
    requires paid { length paid.now ≡ most_periods }
    requires cells { length cells.now ≡ most_periods }
    requires last { last < most_periods }
    requires small { (t : ℕ) → IsNear (2 ^ 100) (paid_in paid.now t) }
    requires costs { (u : ℕ) → first ≤ u → u ≤ last
        → IfSome (cell_in cells.now u) (IsNear (2 ^ 111)) }
    ensures { IsFirstTime (IsEntryAt (paid_in paid.now) (cell_in cells.now) first last wanted)
        result }
{
    for time in first..last + 1 {
        if entry_at(paid, cells, time).is_same(wanted) {
            return Some(time);
        }
    }
    None
}

// The first period in which entering the next node keeps the cost.
fn first_entry(
    rates: &RateTable,
    cells: &[Cost],
    leg: Leg,
    next: Window,
    from: u16,
    value: Cost,
) -> Option<u16>
    requires cells { length cells.now ≡ most_nodes * most_periods }
    requires node { leg.from < most_nodes }
    requires to { leg.to < most_nodes }
    requires least { leg.least ≤ most_delay }
    requires from { from < most_periods }
    requires last { next.hi < most_periods }
    requires paid { (n t : ℕ) → IsNear (2 ^ 100) ((rates_of rates.now).paid n t) }
    requires costs { (u : ℕ) → next.lo ≤ u → u ≤ next.hi
        → IfSome (cell_at cells.now leg.to u) (IsNear (2 ^ 111)) }
    requires some { IsSome value }
    requires value { IfSome value (IsNear (2 ^ 111)) }
    ensures { IsFirstTime (IsKeptMove (rates_of rates.now) (cell_at cells.now leg.to) next leg.from
        leg.least from value) result }
{
    let first = next.lo.max(from + leg.least);
    let last = next.hi.min(rates.clear_at(leg.from, from));
    let wanted = rates.with_paid(leg.from, from, value);
    let paid = rates.paid_part(leg.from);
    first_cost(paid, part_of(cells, leg.to), first, last, wanted)
}

// The first stop to go on to by the leg, if that keeps the cost.
fn first_by(
    ways: Ways<'_>,
    cells: &[Cost],
    stop: Stop,
    limit: u16,
    leg: Leg,
    value: Cost,
) -> Option<Stop>
    requires cells { length cells.now ≡ most_nodes * most_periods }
    requires leg { IsLeg (length ways.flight.now.nodes) leg }
    requires time { stop.time < most_periods }
    requires limit { IsLimit (row_in ways) (length ways.flight.now.nodes) stop.node limit }
    requires costs { (n u : ℕ) → n < length ways.flight.now.nodes
        → IsInWindow (row_in ways n).window u → IfSome (cell_at cells.now n u) (IsNear (2 ^ 111)) }
    requires some { IsSome value }
    requires value { IfSome value (IsNear (2 ^ 111)) }
    ensures { IsFirst (IsNextBy leg (row_in ways.entry) (rates_in ways.entry) cells.now stop value)
        result }
{
    if leg.from != stop.node {
        return None;
    }
    if leg.to > limit {
        return None;
    }
    let Some(next) = window_at(ways.accesses, leg.to) else {
        return None;
    };
    match first_entry(ways.rates, cells, leg, next, stop.time, value) {
        None => None,
        Some(time) => Some(Stop { node: leg.to, time }),
    }
}

// The first stop to go on to from one that isn't at the last node, of those that keep the cost.
fn next_stop(ways: Ways<'_>, cells: &[Cost], stop: Stop) -> Stop
    requires length { length cells.now ≡ most_nodes * most_periods }
    requires cells { AreCellsIn ways 0 cells.now }
    requires node { stop.node + 1 < length ways.flight.now.nodes }
    requires window { IsInWindow (row_in ways stop.node).window stop.time }
    requires reaches { IsSome (cell_at cells.now stop.node stop.time) }
    ensures { IsFirstAt (IsNext ways.entry.flight.now (row_in ways.entry) (rates_in ways.entry)
        cells.now stop (cell_at cells.now stop.node stop.time)) result }
{
    let legs = ways.flight.legs.items();
    let nodes = ways.flight.nodes.items().len() as u16;
    let limit = limit_of(ways.accesses, nodes, stop.node);
    let value = cell_at(cells, stop.node, stop.time);
    let mut first = None;
    for at in 0..legs.len() {
        first = earlier(first, first_by(ways, cells, stop, limit, legs[at], value));
    }
    match first {
        None => unreachable!(),
        Some(next) => next,
    }
}

// The first period of the window of the first node in which a start has the least cost.
fn first_start(ways: Ways<'_>, cells: &[Cost], window: Window, least: Cost) -> Option<u16>
    requires window { (row_in ways 0).window ≡ Some window }
    requires length { length cells.now ≡ most_nodes * most_periods }
    requires cells { AreCellsIn ways 0 cells.now }
    requires least { IsSome least }
    ensures { IsFirstTime (IsKeptStart (row_in ways.entry) (rates_in ways.entry) cells.now least)
        result }
{
    for time in window.lo..window.hi + 1 {
        if start_of(ways.rates, cells, time).is_same(least) {
            return Some(time);
        }
    }
    None
}

// The first stop of the first of the least ways.
fn start_stop(ways: Ways<'_>, cells: &[Cost], least: Cost) -> Stop
    requires length { length cells.now ≡ most_nodes * most_periods }
    requires cells { AreCellsIn ways 0 cells.now }
    requires least { IsLeast (IsWayIn ways) (cost_in ways) least }
    requires some { IsSome least }
    ensures node { result.node ≡ 0 }
    ensures first { IsFirstTimeAt (IsKeptStart (row_in ways.entry) (rates_in ways.entry) cells.now
        least) result.time }
{
    let Some(window) = window_at(ways.accesses, 0) else {
        unreachable!()
    };
    match first_start(ways, cells, window, least) {
        None => unreachable!(),
        Some(time) => Stop { node: 0, time },
    }
}

/// Puts the stops of the first of the least ways, by the cells of a table, into a vector that has
/// room for them.
pub fn trace(ways: Ways<'_>, cells: &[Cost], least: Cost, stops: &mut Vec<Stop>)
    requires length { length cells.now ≡ most_nodes * most_periods }
    requires cells { AreCellsIn ways 0 cells.now }
    requires least { IsLeast (IsWayIn ways) (cost_in ways) least }
    requires some { IsSome least }
    requires room { most_nodes ≤ vec_capacity stops.old }
    ensures first { IsFirstLeast (IsWayIn ways.entry) (cost_in ways.entry) IsNoLater
        stops.new.items }
    ensures room { most_nodes ≤ vec_capacity stops.new }
{
    let nodes = ways.flight.nodes.items().len();
    let mut stop = start_stop(ways, cells, least);
    stops.clear();
    stops.push_reserved(stop);
    while usize::from(stop.node) + 1 < nodes {
        stop = next_stop(ways, cells, stop);
        stops.push_reserved(stop);
    }
}
