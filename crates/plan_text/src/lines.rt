//! The line of a trip.
ghost use Rattle.std.specs.Prelude.{◌≡◌, ◌<◌, ◌++◌, IfOk, IfSome, OnOk, length, slice_get};
ghost use Rattle.flow_types.specs.Scenario.{flight_at, parts_of};
ghost use Rattle.flow_types.specs.Trips.{place_at};
ghost use Rattle.plan_text.specs.Lines.{place_name, stop_text, stops_text, trip_text};

use flow_types::{Flight, OutOfMemory, Place, Scenario, Stop, place_at};
use std::alloc::Global;
use text_records::{put, put_field, put_number};

// The name of the place at the node of the flight, empty where there is none.
fn place_name<'a>(places: &'a [Place], flight: &Flight, node: u16) -> &'a [u8]
    ensures { result.now ≡ place_name (slice_get places.now (place_at flight.now node)) }
{
    match places.get(place_at(flight, node) as usize) {
        None => b"",
        Some(place) => place.name.items(),
    }
}

// Adds a stop of the flight.
fn put_stop(
    alloc: Global,
    out: &mut Vec<u8>,
    places: &[Place],
    flight: &Flight,
    stop: Stop,
) -> Result<(), OutOfMemory>
    ensures { OnOk result (out.new.items ≡ out.old.items ++ stop_text places.now flight.now stop) }
{
    put_field(out, place_name(places, flight, stop.node))?;
    put_number(alloc, out, u64::from(stop.time))
}

// Adds the stops of the flight.
fn put_stops(
    alloc: Global,
    out: &mut Vec<u8>,
    places: &[Place],
    flight: &Flight,
    stops: &[Stop],
) -> Result<(), OutOfMemory>
    ensures { OnOk result
        (out.new.items ≡ out.old.items ++ stops_text places.now flight.now stops.now) }
{
    for stop in stops {
        put_stop(alloc, out, places, flight, *stop)?;
    }
    Ok(())
}

// Adds the line for the trip of the flight.
fn put_trip(
    alloc: Global,
    out: &mut Vec<u8>,
    places: &[Place],
    flight: &Flight,
    stops: &[Stop],
) -> Result<(), OutOfMemory>
    ensures { OnOk result
        (out.new.items ≡ out.old.items ++ trip_text places.now flight.now stops.now) }
{
    put(out, b"trip,")?;
    put(out, flight.name.items())?;
    put_stops(alloc, out, places, flight, stops)?;
    put(out, b"\n")
}

/// The line of a flight's trip, with its line feed: `trip,<flight>,<place>,<period>,..`. The flight
/// is one of the scenario's by its position. The stops may be in any order, and one at a node that
/// the flight hasn't is written without a name. It takes memory for the line.
pub fn trip_line(
    alloc: Global,
    s: &Scenario,
    flight: u32,
    stops: &[Stop],
) -> Result<Vec<u8>, OutOfMemory>
    requires { flight < length (parts_of s.now).flights }
    ensures { IfSome (flight_at s.now flight)
        (λ of. IfOk result (λ line. line.items ≡ trip_text (parts_of s.now).places of stops.now)) }
{
    let mut line = Vec::new(alloc);
    let flight = &s.flights()[flight as usize];
    put_trip(alloc, &mut line, s.places(), flight, stops)?;
    Ok(line)
}
