//! The parts of a scenario, valid or not.

use crate::day::Day;
use crate::flight::{Connections, Flights, Tables};
use crate::place::Places;

/// What a scenario is made of. `Scenario::new` says whether the parts are a valid scenario.
#[derive(Debug)]
pub struct Parts {
    pub day: Day,
    pub places: Places,
    pub flights: Flights,
    pub tables: Tables,
    pub connections: Connections,
}

impl Drop for Parts {
    fn drop(self) {
        let Parts {
            day: _,
            places: _,
            flights: _,
            tables: _,
            connections: _,
        } = self;
    }
}
