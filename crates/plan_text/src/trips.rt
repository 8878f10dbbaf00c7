//! The record `trip`.
ghost use Rattle.std.specs.Prelude.{◌+◌, ◌≤◌, ◌<◌, IfOk, length};
ghost use Rattle.csv.specs.Records.{fields_of};
ghost use Rattle.text_records.specs.Errors.{Finds, Gives};
ghost use Rattle.text_records.specs.Names.{known_at};
ghost use Rattle.plan_text.specs.Trips.{most_fields, flight_in, stop_in, stops_from, trip_of};
ghost use Rattle.flow_types.specs.Limits.{most_nodes};

use crate::named_scenario::NamedScenario;
use crate::trips_read::TripsRead;
use csv::ByteRecord;
use flow_types::{Cause, MOST_NODES, Stop, Trip};
use std::alloc::Global;
use text_records::{FieldFault, RecordError, ends_after, known_at, name_in, number_in};

// The most fields of a record: its kind, the flight, and a place and a period for each node.
const MOST_FIELDS: usize = 2 + 2 * MOST_NODES;

// The node, if the name in the field of this number is that of one.
fn node_known(number: usize, node: Option<u16>) -> Result<u16, FieldFault>
    ensures { Finds (λ k. k) result (known_at number node) }
{
    node.ok_or(FieldFault {
        field: number,
        cause: Cause::UnknownName,
    })
}

// The flight that a record tells the trip of, by its position.
#[tactic(auto, unfolding(crate::specs::Trips::flight_in))]
fn flight_in(
    scenario: &NamedScenario,
    trips: &TripsRead,
    row: &ByteRecord,
) -> Result<u32, FieldFault>
    ensures found { Finds (λ k. k) result (flight_in scenario.now trips.now (fields_of row.now)) }
    ensures here { IfOk result (λ k. k < length trips.now) }
{
    let name = name_in(row, 2)?;
    let flight = known_at(2, scenario.flight_named(name))?;
    trips.unread_at(flight)
}

// The stop that the field of this number and the next tell.
#[tactic(auto, unfolding(crate::specs::Trips::stop_in))]
fn stop_in(
    scenario: &NamedScenario,
    nodes: &[u32],
    row: &ByteRecord,
    number: usize,
) -> Result<Stop, FieldFault>
    requires nodes { length nodes.now ≤ most_nodes }
    requires first { 1 ≤ number }
    requires last { number + 1 ≤ most_fields }
    ensures { Finds (λ stop. stop) result
        (stop_in scenario.now nodes.now (fields_of row.now) number) }
{
    let name = name_in(row, number)?;
    let node = node_known(number, scenario.node_named(nodes, name))?;
    let time = number_in(row, number + 1, 0, scenario.last_period().into())?;
    Ok(Stop {
        node,
        time: time as u16,
    })
}

// The stops that the record tells, of which there are at most 32.
fn stops_in(
    alloc: Global,
    scenario: &NamedScenario,
    nodes: &[u32],
    row: &ByteRecord,
) -> Result<Trip, RecordError>
    requires { length nodes.now ≤ most_nodes }
    ensures { Gives (λ trip. trip) result
        (stops_from scenario.now nodes.now (fields_of row.now) most_nodes 3) }
{
    let mut stops = Trip::empty(alloc);
    let mut number = 3;
    'pairs: while number <= row.len().min(MOST_FIELDS) {
        stops.add(stop_in(scenario, nodes, row, number)?)?;
        number += 2;
    }
    Ok(stops)
}

/// The trip that a `trip` record tells, and the position of its flight.
#[tactic(auto, unfolding(crate::specs::Trips::trip_of))]
pub fn trip_of(
    alloc: Global,
    scenario: &NamedScenario,
    trips: &TripsRead,
    row: &ByteRecord,
) -> Result<(u32, Trip), RecordError>
    ensures found { Gives (λ found. (found.0, found.1)) result
        (trip_of scenario.now trips.now (fields_of row.now)) }
    ensures here { IfOk result (λ found. found.0 < length trips.now) }
{
    let flight = flight_in(scenario, trips, row)?;
    let stops = stops_in(alloc, scenario, scenario.nodes_at(flight), row)?;
    ends_after(row, MOST_FIELDS)?;
    Ok((flight, stops))
}
