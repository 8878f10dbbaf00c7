//! Airports and sectors, with what they can take in each period.

use crate::Sequence;

/// A name: 1 to 32 ASCII letters, digits, `-` and `_` in a valid scenario.
pub type Name = Sequence<u8>;

/// A capacity for each period.
pub type Caps = Sequence<u32>;

/// What kind of place it is.
#[derive(Clone, Copy, Debug, PartialEq, Eq)]
pub enum PlaceKind {
    Airport,
    Sector,
}

/// An airport or a sector.
#[derive(Debug)]
pub struct Place {
    pub name: Name,
    pub kind: PlaceKind,
    /// By period: how many flights may depart from an airport, or be inside a sector.
    pub first: Caps,
    /// By period: how many flights may arrive at an airport. A sector has none.
    pub second: Caps,
}

impl Drop for Place {
    fn drop(self) {
        let Place {
            name: _,
            kind: _,
            first: _,
            second: _,
        } = self;
    }
}

/// The places, which flights and capacities name by their position.
pub type Places = Sequence<Place>;

/// Which capacity of a place is meant.
#[derive(Clone, Copy, Debug, PartialEq, Eq)]
pub enum CapKind {
    /// Departures from an airport.
    Dep,
    /// Arrivals at an airport.
    Arr,
    /// Flights inside a sector.
    Sector,
}
