//! Whether each flight has a trip of its own network and windows.
ghost use Rattle.std.specs.Prelude.{◌≡◌, ◌==◌, ◌<◌, ◌+◌, ◌^◌, All, OnOk, length};
ghost use Rattle.std.specs.Option.{option_or};
ghost use Rattle.flow_types.specs.Scenario.{parts_of};
ghost use Rattle.flow_types.specs.Trips.{earliest_of, latest_of};
ghost use Rattle.plan_rules.specs.FirstBroken.{Names, broken_number, broken_onward, broken_step, broken_trip, broken_trip_in, broken_window, first_along, is_within_hours, leg_between};
ghost use Rattle.plan_rules.specs.Judge.{IsUpward};

use crate::Broken;
use flow_types::{Flight, Leg, Scenario, Stop, Trip};

/// Whether each flight has one trip, and a trip of its own.
pub fn check_trips(s: &Scenario, plan: &[Trip]) -> Result<(), Broken>
    ensures { Names (option_or (broken_number (length plan.now) (length (parts_of s.now).flights))
        (first_along (broken_trip_in (parts_of s.now).day.periods plan.now)
        (parts_of s.now).flights)) result }
{
    let flights = s.flights();
    if plan.len() != flights.len() {
        return Err(Broken::Trips {
            got: plan.len() as u64,
            need: flights.len() as u32,
        });
    }
    let periods = s.day().periods;
    for at in 0..flights.len() {
        check_trip(periods, &flights[at], at as u32, plan[at].items())?;
    }
    Ok(())
}

// Whether the stops are a trip of the flight.
fn check_trip(periods: u16, flight: &Flight, number: u32, stops: &[Stop]) -> Result<(), Broken>
    requires { All IsUpward flight.now.legs }
    ensures { Names (broken_trip periods number flight.now stops.now) result }
{
    let Some((first, rest)) = stops.split_first() else {
        return Err(Broken::Start { flight: number });
    };
    if first.node != 0 {
        return Err(Broken::Start { flight: number });
    }
    check_window(periods, flight, number, 0, *first)?;
    check_onward(periods, flight, number, *first, rest)
}

// Whether the rest of the stops leads from the first one to the flight's last node. Each leg leads
// to a higher node, so the places in the trip are at most the nodes and fit their type.
fn check_onward(
    periods: u16,
    flight: &Flight,
    number: u32,
    first: Stop,
    rest: &[Stop],
) -> Result<(), Broken>
    requires { All IsUpward flight.now.legs }
    ensures { Names (broken_onward periods number flight.now 0 first rest.now) result }
{
    let mut stop = first;
    let mut place_in_trip = 0u16;
    for next in rest {
        check_step(flight, number, place_in_trip, stop, *next)?;
        place_in_trip += 1;
        check_window(periods, flight, number, place_in_trip, *next)?;
        stop = *next;
    }
    if !is_last(flight, stop.node) {
        return Err(Broken::Ending { flight: number });
    }
    Ok(())
}

// Whether a leg leads from the stop to the next one, and in time; the next one's node is then
// higher.
fn check_step(
    flight: &Flight,
    number: u32,
    place_in_trip: u16,
    stop: Stop,
    next: Stop,
) -> Result<(), Broken>
    requires { All IsUpward flight.now.legs }
    ensures broken { Names
        (broken_step number place_in_trip stop next
        (leg_between flight.now.legs stop.node next.node)) result }
    ensures upward { OnOk result (stop.node < next.node) }
    ensures within { OnOk result (next.node < 2 ^ 16) }
{
    let Some(leg) = leg_between(flight.legs.items(), stop.node, next.node) else {
        return Err(Broken::NoLeg {
            flight: number,
            place_in_trip,
        });
    };
    if u32::from(stop.time) + u32::from(leg.least) > u32::from(next.time) {
        return Err(Broken::Least {
            flight: number,
            place_in_trip,
            least: leg.least,
        });
    }
    Ok(())
}

// The leg between the nodes, if there is one.
fn leg_between(legs: &[Leg], from: u16, to: u16) -> Option<Leg>
    ensures { result ≡ leg_between legs.now from to }
{
    legs.iter()
        .copied()
        .find(|leg| leg.from == from && leg.to == to)
}

// Whether the stop's time is in its node's window.
fn check_window(
    periods: u16,
    flight: &Flight,
    number: u32,
    place_in_trip: u16,
    stop: Stop,
) -> Result<(), Broken>
    ensures { Names (broken_window periods number flight.now place_in_trip stop) result }
{
    if !is_within_hours(periods, flight, stop) {
        return Err(Broken::Window {
            flight: number,
            place_in_trip,
        });
    }
    Ok(())
}

// Whether the node is the flight's last.
fn is_last(flight: &Flight, node: u16) -> bool
    ensures { result ≡ (node + 1 == length flight.now.nodes) }
{
    usize::from(node) + 1 == flight.nodes.items().len()
}

// Whether the stop's time is neither before its node's window nor after it.
fn is_within_hours(periods: u16, flight: &Flight, stop: Stop) -> bool
    ensures { result ≡ is_within_hours periods flight.now stop }
{
    let time = u32::from(stop.time);
    earliest_of(flight, stop.node) <= time && time <= latest_of(periods, flight, stop.node)
}

// The first period in which the flight may enter the node.
fn earliest_of(flight: &Flight, node: u16) -> u32
    ensures { result ≡ earliest_of flight.now node }
{
    if node == 0 {
        u32::from(flight.sd)
    } else if usize::from(node) + 1 == flight.nodes.items().len() {
        u32::from(flight.sa)
    } else {
        0
    }
}

// The last period in which it may.
fn latest_of(periods: u16, flight: &Flight, node: u16) -> u32
    ensures { result ≡ latest_of periods flight.now node }
{
    let last = u32::from(periods.saturating_sub(1));
    if node == 0 {
        (u32::from(flight.sd) + u32::from(flight.mg)).min(last)
    } else if usize::from(node) + 1 == flight.nodes.items().len() {
        (u32::from(flight.sa) + u32::from(flight.md)).min(last)
    } else {
        last
    }
}
