//! The records of connections.
ghost use Rattle.std.specs.Prelude.{◌≡◌, ◌++◌, ◌∷◌, [], IfOk, IfSome, IsTrue, None, OnOk, map, slice_get};
ghost use Rattle.scenario_maker.specs.Writing.{can_stand, connection_row, flight_name, row_text, rows_text, standing, waiting};

use flow_types::{Connection, Flight, OutOfMemory};
use std::alloc::Global;
use text_records::{put, put_field, put_number};

/// Adds the lines of the connections at the front that can stand behind so many flights, and gives
/// those that still wait. It takes memory for the lines. Nothing is said of the text after
/// `OutOfMemory`.
pub fn put_standing<'a>(
    alloc: Global,
    out: &mut Vec<u8>,
    flights: &[Flight],
    connections: &'a [Connection],
    count: usize,
) -> Result<&'a [Connection], OutOfMemory>
    ensures text { OnOk result (out.new.items ≡ out.old.items
        ++ rows_text (map (connection_row flights.now) (standing count connections.now))) }
    ensures left { IfOk result (λ left. left.now ≡ waiting count connections.now) }
{
    let mut left = connections;
    while let Some((connection, rest)) = next_standing(left, count) {
        put_connection(alloc, out, flights, connection)?;
        left = rest;
    }
    Ok(left)
}

// The connection at the front and those behind it, if it can stand behind so many flights.
fn next_standing(connections: &[Connection], count: usize) -> Option<(Connection, &[Connection])>
    ensures some { IfSome result (λ next. connections.now ≡ next.0 ∷ next.1.now) }
    ensures stands { IfSome result (λ next. IsTrue (can_stand count next.0)) }
    ensures none { result ≡ None → standing count connections.now ≡ [] }
{
    let (first, rest) = connections.split_first()?;
    if can_stand(*first, count) {
        Some((*first, rest))
    } else {
        None
    }
}

// Whether both flights of the connection are among so many.
fn can_stand(connection: Connection, count: usize) -> bool
    ensures { result ≡ can_stand count connection }
{
    (connection.first as usize) < count && (connection.second as usize) < count
}

// Adds the line of a connection.
fn put_connection(
    alloc: Global,
    out: &mut Vec<u8>,
    flights: &[Flight],
    connection: Connection,
) -> Result<(), OutOfMemory>
    ensures { OnOk result
        (out.new.items ≡ out.old.items ++ row_text (connection_row flights.now connection)) }
{
    put(out, b"connect")?;
    put_field(out, flight_name(flights, connection.first))?;
    put_field(out, flight_name(flights, connection.second))?;
    put_number(alloc, out, u64::from(connection.turnaround))?;
    put(out, b"\n")
}

// The name of the flight at this position, empty where there is none.
fn flight_name(flights: &[Flight], position: u32) -> &[u8]
    ensures { result.now ≡ flight_name (slice_get flights.now position) }
{
    match flights.get(position as usize) {
        None => b"",
        Some(flight) => flight.name.items(),
    }
}
