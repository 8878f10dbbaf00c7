//! The rules that a plan may break.

/// A place and a period in which there are more flights than may be.
#[derive(Clone, Copy, Debug, PartialEq, Eq)]
pub struct Overload {
    pub place: u32,
    pub period: u16,
    pub load: u32,
    pub capacity: u32,
}

/// The first rule that a plan breaks. The number of trips comes first. Then come the rules of a
/// trip, flight by flight: its start; stop by stop its window, then whether a leg leads to the next
/// stop and in time; its ending. Then come turnarounds by connection, and departures, arrivals and
/// sectors, each by place and then period. `first_broken` in `specs/FirstBroken.antt` says it
/// exactly.
///
/// Flights, connections and places are numbers in the scenario's lists; a place in a trip is the
/// number of a stop. All count from 0.
#[derive(Clone, Copy, Debug, PartialEq, Eq)]
pub enum Broken {
    /// The plan hasn't one trip for each flight: it has `got`, and there are `need` flights.
    Trips {
        got: u64,
        need: u32,
    },
    /// The trip has no stop, or its first isn't at node 0.
    Start {
        flight: u32,
    },
    /// The stop's time isn't in its node's window.
    Window {
        flight: u32,
        place_in_trip: u16,
    },
    /// No leg leads from the stop to the next one.
    NoLeg {
        flight: u32,
        place_in_trip: u16,
    },
    /// The stop after it comes earlier than the leg's least time allows.
    Least {
        flight: u32,
        place_in_trip: u16,
        least: u16,
    },
    /// The last stop isn't at the last node.
    Ending {
        flight: u32,
    },
    /// The second flight leaves before the turnaround has passed since the first one arrived.
    Turn {
        connection: u32,
        arrives: u16,
        leaves: u16,
    },
    /// More flights depart than may.
    Departures(Overload),
    /// More flights arrive than may.
    Arrivals(Overload),
    /// More flights are inside the sector than may be.
    Sectors(Overload),
}
