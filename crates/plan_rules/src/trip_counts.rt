//! When a trip departs and arrives, and counts that it is added to or taken out of.
ghost use Rattle.std.specs.Prelude.{◌≡◌};
ghost use Rattle.flow_types.specs.Counts.{arrives_at, departs_at, stays_at, stays_from};
ghost use Rattle.flow_types.specs.Trips.{arrival_of, departure_of};
ghost use Rattle.plan_rules.specs.Grid.{Changes};

use crate::grid::{Change, Grid};
use flow_types::{Flight, Stop, place_at};

/// When the trip departs: the period of its first stop, nothing where it has none.
pub fn departure_of(stops: &[Stop]) -> Option<u16>
    ensures { result ≡ departure_of stops.now }
{
    match stops.first() {
        None => None,
        Some(stop) => Some(stop.time),
    }
}

/// When the trip arrives: the period of its last stop, nothing where it has none.
pub fn arrival_of(stops: &[Stop]) -> Option<u16>
    ensures { result ≡ arrival_of stops.now }
{
    match stops.last() {
        None => None,
        Some(stop) => Some(stop.time),
    }
}

/// Counts the trip's departure, or counts it no more.
pub fn change_departure(grid: &mut Grid, change: Change, flight: &Flight, stops: &[Stop])
    ensures { Changes change (λ k t. departs_at k t flight.now stops.now) grid.old grid.new }
{
    if let Some(stop) = stops.first() {
        grid.change(change, place_at(flight, stop.node), stop.time);
    }
}

/// Counts the trip's arrival, or counts it no more.
pub fn change_arrival(grid: &mut Grid, change: Change, flight: &Flight, stops: &[Stop])
    ensures { Changes change (λ k t. arrives_at k t flight.now stops.now) grid.old grid.new }
{
    if let Some(stop) = stops.last() {
        grid.change(change, place_at(flight, stop.node), stop.time);
    }
}

/// Counts the trip in each of its places but the last, from the period in which it enters up to the
/// one before it enters the next, or counts it there no more.
pub fn change_stays(grid: &mut Grid, change: Change, flight: &Flight, stops: &[Stop])
    ensures { Changes change (λ k t. stays_at k t flight.now stops.now) grid.old grid.new }
{
    if let Some((first, rest)) = stops.split_first() {
        change_stays_from(grid, change, flight, *first, rest);
    }
}

// Counts the rest of a trip, from its stop `first` on, in each place but the last, from the period
// in which it enters up to the one before it enters the next, or counts it there no more.
fn change_stays_from(grid: &mut Grid, change: Change, flight: &Flight, first: Stop, rest: &[Stop])
    ensures { Changes change (λ k t. stays_from k t flight.now first rest.now) grid.old grid.new }
{
    let mut stop = first;
    for next in rest {
        grid.change_stay(change, place_at(flight, stop.node), stop.time, next.time);
        stop = *next;
    }
}
