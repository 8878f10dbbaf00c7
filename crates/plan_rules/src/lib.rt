//! The rules of a plan: how many flights are where, whether a plan keeps every rule, and what it
//! costs.
//!
//! A caller makes `Loads` once for a scenario, and lends them to `judge` for each plan:
//!
//!     let mut loads = Loads::new(alloc, &s)?;
//!     match judge(&mut loads, &s, &plan) {
//!         Verdict::Keeps { cost } => println!("it costs {cost}; {} depart",
//!             loads.load(CapKind::Dep, place, period)),
//!         Verdict::Breaks(Broken::Turn { connection, .. }) => ..,
//!         Verdict::Breaks(_) => ..,
//!     }
//!
//! `judge` answers `Keeps`, with the plan's cost, exactly where the plan is feasible (`keeps`,
//! `cost`); the loads then count its trips (`loads`). Otherwise it answers the first rule that the
//! plan breaks, with its values, and the loads hold no trips (`broken`, `loads`). Trips may be
//! added one by one too (`Loads::add`), and taken out one by one (`Loads::remove`) or together
//! (`Loads::clear`). `trip_cost` is the cost of one trip, and `cost` the sum of those of a plan's;
//! `departure_of` and `arrival_of` say when a trip begins and ends.
//! `plans_that_break_nothing_are_feasible` ties the two definitions together.
//!
//! Time: `judge` looks at each stop with the legs of its flight, at each period that a flight
//! spends in a place, and a few times at each place and period. `Loads` take twelve bytes a place
//! and period, and eight a flight.
#![tactic(auto)]

mod broken;
mod costs;
mod grid;
mod judging;
mod laws;
mod loads;
mod trip_counts;
mod trips;

pub use broken::{Broken, Overload};
pub use costs::{cost, trip_cost};
pub use judging::{Verdict, judge};
pub use laws::{
    first_broken_rules_are_first, plans_that_break_nothing_are_feasible, trips_are_counted_once,
};
pub use loads::Loads;
pub use trip_counts::{arrival_of, departure_of};
