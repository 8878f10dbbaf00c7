//! The two ends of a trip, and of connections.
ghost use Rattle.std.specs.Prelude.{◌≡◌};
ghost use Rattle.time_windows.specs.Ends.{flight_at, other_at};

use flow_types::Connection;

/// An end of a trip, and of the connections that a flight has there.
#[derive(Clone, Copy, Debug, PartialEq, Eq)]
pub enum End {
    /// It leaves, with the aircraft of the flights that it waits for.
    Departure,
    /// It arrives, and flights wait for its aircraft.
    Arrival,
}

/// The flight that has this end of its trip in the connection.
pub fn flight_at(end: End, connection: Connection) -> u32
    ensures { result ≡ flight_at end connection }
{
    match end {
        End::Departure => connection.second,
        End::Arrival => connection.first,
    }
}

/// The other flight.
pub fn other_at(end: End, connection: Connection) -> u32
    ensures { result ≡ other_at end connection }
{
    match end {
        End::Departure => connection.first,
        End::Arrival => connection.second,
    }
}
