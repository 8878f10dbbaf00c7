//! The record `connect`.
ghost use Rattle.std.specs.Prelude.{◌≡◌, ◌<◌, IfOk, IsTrue, OnOk, false, length};
ghost use Rattle.csv.specs.Records.{fields_of};
ghost use Rattle.text_records.specs.Errors.{Finds};
ghost use Rattle.scenario_reader.specs.Connections.{are_connected, connection_of, first_in, meet, second_in};
ghost use Rattle.scenario_reader.specs.Validity.{IsMeeting};
ghost use Rattle.flow_types.specs.Limits.{most_connections};

use crate::flight_draft::FlightDraft;
use crate::named_list::NamedList;
use csv::ByteRecord;
use flow_types::{Cause, Connection, MOST_CONNECTIONS, MOST_DELAY};
use text_records::{FieldFault, ends_after, known_in, number_in};

// The flight that brings the aircraft.
#[tactic(auto, unfolding(crate::specs::Connections::first_in))]
fn first_in(
    flights: &NamedList<FlightDraft>,
    connections: &[Connection],
    row: &ByteRecord,
) -> Result<u32, FieldFault>
    ensures found { Finds (λ first. first) result
        (first_in flights.now connections.now (fields_of row.now)) }
    ensures room { OnOk result (length connections.now < most_connections) }
{
    let first = known_in(2, flights.names(), row)?;
    if connections.len() >= MOST_CONNECTIONS {
        return Err(FieldFault {
            field: 2,
            cause: Cause::Limit,
        });
    }
    Ok(first)
}

// Whether the two are connected already.
fn are_connected(connections: &[Connection], first: u32, second: u32) -> bool
    ensures { result ≡ are_connected connections.now first second }
{
    connections
        .iter()
        .any(|other| other.first == first && other.second == second)
}

// Whether the second departs from where the first arrives.
fn meet(flights: &[FlightDraft], first: u32, second: u32) -> bool
    ensures { result ≡ meet flights.now first second }
{
    match (flights.get(second as usize), flights.get(first as usize)) {
        (Some(second), Some(first)) => second.from == first.to,
        _ => false,
    }
}

// The flight that leaves with it.
#[tactic(auto, unfolding(crate::specs::Connections::second_in))]
fn second_in(
    flights: &NamedList<FlightDraft>,
    connections: &[Connection],
    first: u32,
    row: &ByteRecord,
) -> Result<u32, FieldFault>
    ensures found { Finds (λ second. second) result
        (second_in flights.now connections.now first (fields_of row.now)) }
    ensures once { IfOk result (λ second. are_connected connections.now first second ≡ false) }
    ensures together { IfOk result (λ second. IsTrue (meet flights.now first second)) }
{
    let second = known_in(3, flights.names(), row)?;
    let refused = |cause| Err(FieldFault { field: 3, cause });
    if are_connected(connections, first, second) {
        return refused(Cause::Repeated);
    }
    if !meet(flights.items(), first, second) {
        return refused(Cause::Apart);
    }
    Ok(second)
}

/// The connection that a `connect` record tells.
#[tactic(auto, unfolding(crate::specs::Connections::connection_of))]
pub fn connection_of(
    flights: &NamedList<FlightDraft>,
    connections: &[Connection],
    row: &ByteRecord,
) -> Result<Connection, FieldFault>
    ensures found { Finds (λ connection. connection) result
        (connection_of flights.now connections.now (fields_of row.now)) }
    ensures valid { IfOk result (IsMeeting flights.now) }
    ensures once { IfOk result
        (λ connection. are_connected connections.now connection.first connection.second ≡ false) }
    ensures room { OnOk result (length connections.now < most_connections) }
{
    let first = first_in(flights, connections, row)?;
    let second = second_in(flights, connections, first, row)?;
    let turnaround = number_in(row, 4, 0, u64::from(MOST_DELAY))? as u16;
    ends_after(row, 4)?;
    Ok(Connection {
        first,
        second,
        turnaround,
    })
}
