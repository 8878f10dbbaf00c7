//! What a day of air traffic is: the scenario, trips, plans and bounds, with the limits of each,
//! and the definitions that every other crate cites.
//!
//! The parts of a day are plain structs with public fields. `Scenario` holds parts that are valid,
//! and is known to be so wherever it is lent:
//!
//!     let Ok(s) = Scenario::new(parts) else { return None };
//!     let first = &s.flights()[0];
//!     if has_kind(CapKind::Dep, s.places(), first.from) {
//!         let capacity = s.capacity(CapKind::Dep, first.from, first.sd);
//!         let late = s.total(0, 4) - s.credit(0, 4);
//!         ..
//!     }
//!
//! The definitions stand in `specs/`, one module a notion: `Limits`, `Routes` and `Valid` (a valid
//! scenario), `Trips`, `Counts`, `Feasible` (a plan that keeps every rule), `Costs`, `Bounds`,
//! `Words` (numbers and names in a text). `Scenario::new` is proved to answer `Ok` exactly where
//! the parts are a valid scenario (`valid`); each look-up is proved to give what its definition
//! gives.
#![tactic(auto)]

mod bound;
mod calendar;
mod day;
mod differ;
mod fault;
mod flight;
mod limits;
mod lookup;
mod memory;
mod parts;
mod place;
mod plan;
mod route;
mod scenario;
mod sequence;
mod valid;
mod words;

pub use bound::{Bound, PriceKey, PriceKind};
pub use calendar::{days_in_month, is_date};
pub use day::Day;
pub use fault::{Cause, Fault};
pub use flight::{
    Connection, Connections, Cost, CostTable, Flight, Flights, Leg, Legs, Nodes, Tables, Values,
};
pub use limits::{
    LAST_YEAR, MOST_CAPACITY, MOST_CONNECTIONS, MOST_DELAY, MOST_DIGITS, MOST_FLIGHTS, MOST_LEGS,
    MOST_MINUTES, MOST_NAME_BYTES, MOST_NODES, MOST_NODES_IN_ALL, MOST_PERIOD_COST, MOST_PERIODS,
    MOST_PLACES, MOST_TABLES, MOST_TEXT_BYTES, MOST_VALUE, MOST_VALUES,
};
pub use lookup::{
    capacity_at, credit_at, has_kind, is_airport, is_plain, is_sector, place_at, total_at,
    value_count,
};
pub use memory::OutOfMemory;
pub use parts::Parts;
pub use place::{CapKind, Caps, Name, Place, PlaceKind, Places};
pub use plan::{Plan, Stop, Trip};
pub use scenario::Scenario;
pub use sequence::Sequence;
pub use words::{is_name, parse_number, spelled_number};
