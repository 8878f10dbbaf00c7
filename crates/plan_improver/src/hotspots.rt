//! Capacities that are full.
ghost use Rattle.std.specs.Prelude.{◌<◌, IsTrue, slice_get};
ghost use Rattle.flow_types.specs.Capacities.{has_kind};
ghost use Rattle.flow_types.specs.Scenario.{parts_of};
ghost use Rattle.plan_rules.specs.Loads.{IsMadeFor};

use flow_types::{CapKind, Flight, OutOfMemory, Scenario, Stop, has_kind, place_at};
use plan_rules::Loads;
use time_windows::Window;

/// A capacity that is full in one period.
#[derive(Clone, Copy, Debug, PartialEq, Eq)]
pub struct Hotspot {
    pub kind: CapKind,
    pub place: u32,
    pub period: u16,
}

/// The periods in which a flight is under way.
#[derive(Clone, Copy, Debug, PartialEq, Eq)]
pub struct Times {
    pub leaves: u16,
    pub arrives: u16,
}

/// The times of a trip, none where it has no stops.
pub fn times_of(stops: &[Stop]) -> Option<Times> {
    let leaves = stops.first()?.time;
    let arrives = stops.last()?.time;
    Some(Times { leaves, arrives })
}

/// Adds the full capacities that may keep the flight from `early` and give it `late`: those of
/// departures and arrivals between these times, and those of its sectors on the whole way.
pub fn add_hotspots(
    hotspots: &mut Vec<Hotspot>,
    s: &Scenario,
    loads: &Loads,
    flight: &Flight,
    early: Times,
    late: Times,
) -> Result<(), OutOfMemory>
    requires { IsMadeFor (parts_of s.now) loads.now }
{
    let leaves = Window {
        lo: early.leaves,
        hi: late.leaves,
    };
    add_full(hotspots, s, loads, CapKind::Dep, flight.from, leaves)?;
    let arrives = Window {
        lo: early.arrives,
        hi: late.arrives,
    };
    add_full(hotspots, s, loads, CapKind::Arr, flight.to, arrives)?;
    let way = Window {
        lo: early.leaves,
        hi: late.arrives,
    };
    for place in flight.nodes.items() {
        add_full(hotspots, s, loads, CapKind::Sector, *place, way)?;
    }
    Ok(())
}

// Whether there is no room for one more flight.
fn is_full(s: &Scenario, loads: &Loads, kind: CapKind, place: u32, period: u16) -> bool
    requires loads { IsMadeFor (parts_of s.now) loads.now }
    requires place { IsTrue (has_kind kind (slice_get (parts_of s.now).places place)) }
    requires period { period < (parts_of s.now).day.periods }
{
    loads.load(kind, place, period) >= s.capacity(kind, place, period)
}

// Adds those of one place in these periods, if it has capacities of the kind.
fn add_full(
    hotspots: &mut Vec<Hotspot>,
    s: &Scenario,
    loads: &Loads,
    kind: CapKind,
    place: u32,
    periods: Window,
) -> Result<(), OutOfMemory>
    requires { IsMadeFor (parts_of s.now) loads.now }
{
    if !has_kind(kind, s.places(), place) {
        return Ok(());
    }
    for period in periods.lo..s.day().periods {
        if period <= periods.hi && is_full(s, loads, kind, place, period) {
            hotspots.push(Hotspot {
                kind,
                place,
                period,
            })?;
        }
    }
    Ok(())
}

/// Leaves the first of these alone, and adds its capacity in so many periods before and after,
/// whether it is full then or not.
pub fn widen(hotspots: &mut Vec<Hotspot>, s: &Scenario, width: u16) -> Result<(), OutOfMemory> {
    let Some(hotspot) = hotspots.first().copied() else {
        return Ok(());
    };
    hotspots.clear();
    let last = hotspot.period.saturating_add(width);
    for period in hotspot.period.saturating_sub(width)..s.day().periods {
        if period <= last {
            hotspots.push(Hotspot { period, ..hotspot })?;
        }
    }
    Ok(())
}

/// The periods from the first of these to the last; none where there are no capacities.
pub fn span_of(hotspots: &[Hotspot]) -> Option<Times> {
    let first = hotspots.first()?.period;
    let mut span = Times {
        leaves: first,
        arrives: first,
    };
    for hotspot in hotspots {
        span.leaves = span.leaves.min(hotspot.period);
        span.arrives = span.arrives.max(hotspot.period);
    }
    Some(span)
}

/// Whether the trip of the flight counts for the capacity in its period.
pub fn meets(flight: &Flight, stops: &[Stop], hotspot: Hotspot) -> bool {
    match hotspot.kind {
        CapKind::Dep => is_there(flight, stops.first(), hotspot),
        CapKind::Arr => is_there(flight, stops.last(), hotspot),
        CapKind::Sector => stays(flight, stops, hotspot),
    }
}

// Whether the stop is at the place in the period.
fn is_there(flight: &Flight, stop: Option<&Stop>, hotspot: Hotspot) -> bool {
    match stop {
        None => false,
        Some(stop) => stop.time == hotspot.period && place_at(flight, stop.node) == hotspot.place,
    }
}

// Whether the trip is at the place in the period, before it enters the next.
fn stays(flight: &Flight, stops: &[Stop], hotspot: Hotspot) -> bool {
    for at in 1..stops.len() {
        let stop = stops[at - 1];
        let is_then = stop.time <= hotspot.period && hotspot.period < stops[at].time;
        if is_then && place_at(flight, stop.node) == hotspot.place {
            return true;
        }
    }
    false
}
