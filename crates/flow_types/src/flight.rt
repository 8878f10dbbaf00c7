//! Flights: their route networks, their windows and what their delays cost.

use crate::Sequence;
use crate::place::Name;

/// The places of a flight by node, as positions in the list of places: the origin, the sectors in
/// the order of their first use as the start of a leg, the destination.
pub type Nodes = Sequence<u32>;

/// A leg between two nodes of a flight.
#[derive(Clone, Copy, Debug, PartialEq, Eq)]
pub struct Leg {
    /// The node that it starts from.
    pub from: u16,
    /// The node that it leads to, above `from`.
    pub to: u16,
    /// The least number of periods from entering `from` to entering `to`.
    pub least: u16,
}

/// The legs of a flight, in the order of the text.
pub type Legs = Sequence<Leg>;

/// What a flight's delays cost.
#[derive(Clone, Copy, Debug, PartialEq, Eq)]
pub enum Cost {
    /// So much for each period of ground delay and for each period of airborne delay.
    Linear { ground: u32, airborne: u32 },
    /// Two tables by their positions: totals by arrival delay, and credits by ground delay.
    Tables { total: u32, credit: u32 },
}

/// A flight. Its times are periods of the day.
#[derive(Debug)]
pub struct Flight {
    pub name: Name,
    /// The airport that it departs from, as a position in the list of places.
    pub from: u32,
    /// The airport that it arrives at.
    pub to: u32,
    /// The scheduled departure.
    pub sd: u16,
    /// The scheduled arrival.
    pub sa: u16,
    /// The greatest ground delay.
    pub mg: u16,
    /// The greatest arrival delay.
    pub md: u16,
    pub nodes: Nodes,
    pub legs: Legs,
    pub cost: Cost,
}

impl Drop for Flight {
    fn drop(self) {
        let Flight {
            name: _,
            from: _,
            to: _,
            sd: _,
            sa: _,
            mg: _,
            md: _,
            nodes: _,
            legs: _,
            cost: _,
        } = self;
    }
}

/// The flights, which connections name by their position.
pub type Flights = Sequence<Flight>;

/// Costs or credits by delay.
pub type Values = Sequence<i64>;

/// A named table of costs or credits: the value at a position is that of as many periods of delay.
#[derive(Debug)]
pub struct CostTable {
    pub name: Name,
    pub values: Values,
}

impl Drop for CostTable {
    fn drop(self) {
        let CostTable { name: _, values: _ } = self;
    }
}

/// The tables, which flights name by their position.
pub type Tables = Sequence<CostTable>;

/// Two flights of one aircraft.
#[derive(Clone, Copy, Debug, PartialEq, Eq)]
pub struct Connection {
    /// The flight that brings the aircraft, by its position.
    pub first: u32,
    /// The flight that leaves with it.
    pub second: u32,
    /// The least number of periods from the arrival to the departure.
    pub turnaround: u16,
}

/// The connections.
pub type Connections = Sequence<Connection>;
