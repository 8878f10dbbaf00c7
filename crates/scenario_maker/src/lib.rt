//! Writes the text of a day: of a scenario that is there, or of one that a rule makes up. It is
//! read as that day where the legs of each flight stand in an order in which they can be read, and
//! where it isn't longer than a text may be; else it is refused.
//!
//!     // The text of a day with so many flights, and of a scenario.
//!     fn made(alloc: Global, flights: u32) -> Result<Vec<u8>, OutOfMemory> {
//!         make(alloc, flights.min(2000))
//!     }
//!     fn kept(alloc: Global, s: &Scenario) -> Result<Vec<u8>, OutOfMemory> {
//!         scenario_text(alloc, s)
//!     }
//!
//! A text is a list of records in `specs/`, and a line for each: the day, its places with their
//! capacities of period 0, the capacities that aren't those, tables, and flights with their legs
//! and tables. Each connection stands behind the later of its flights, and behind those before it.
//! `scenario_text` writes it byte by byte; `made_day` is a scenario by its definition, and `make`
//! gives its text.
//!
//! What the texts mean are laws, of no code. `written_scenarios_are_read`: the text of parts is
//! read as these parts exactly where they are a valid scenario in which the legs of each flight
//! stand in an order in which they can be read. `texts_that_read_are_written_again`: so they stand
//! in every scenario that is read from a text. `made_texts_are_read`: the text of a made day is
//! read as that day; and it is no longer than a text may be (`made_texts_are_short`).
//!
//! Memory: the text, in blocks that grow by doubling, and the digits of a number; for a made day
//! its lists, less than 1 KiB a flight. Time: the length of the text, and for each place its
//! periods.
#![tactic(auto)]

mod connections;
mod courses;
mod flights;
mod laws;
mod making;
mod places;
mod tables;
mod traffic;
mod writing;

pub use laws::{
    made_texts_are_read, made_texts_are_short, texts_that_read_are_written_again,
    written_scenarios_are_read,
};
pub use making::{made_day, make};
pub use writing::scenario_text;
