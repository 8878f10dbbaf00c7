//! Reads the text of a scenario: the day, its places and their capacities, its flights with their
//! legs and costs, and its connections.
//!
//!     // How many flights the day of a text has, or why it isn't read.
//!     fn flights_of(alloc: Global, text: &[u8]) -> Result<usize, Refusal> {
//!         let scenario = read_scenario(alloc, text)?;
//!         Ok(scenario.flights().len())
//!     }
//!
//! A text is records of comma-separated fields, one kind of record a line (`day`, `airport`,
//! `sector`, `cap`, `flight`, `leg`, `connect`, `table`, `cost`, `note`). `scenario_of` in `specs/`
//! says what a text means: a fold of one step a record over the records that `csv` gives, where
//! each step checks field by field, so that what it answers is the scenario or the first fault, by
//! record, then field, then cause. `read_scenario` is proved to answer exactly that (clauses
//! `scenario` and `fault`). Want of memory is the third answer, of which no clause says when it
//! comes.
//!
//! A text that reads is the text of a valid scenario, by the definition alone
//! (`texts_that_read_are_valid`), and what `read_scenario` answers is known to be valid without a
//! second test: the draft keeps the rules at every record (`IsDraft`), and a network whose
//! destination is reached and that has no dead end is a route.
//!
//! Memory: the text, the longest record, the scenario, and as much again as the names and legs of
//! its flights while they are read; nothing grows with the number of records that add nothing.
//! Time: the length of the text, a look-up by hash for each name, for each leg the at most 64 legs
//! and 32 nodes of its flight, for each change of capacities its periods, and for each connection
//! those before it.
#![tactic(auto)]

ghost use Rattle.std.specs.Prelude.{◌≡◌, ◌≤◌, Ok, Err, IfOk, length};
ghost use Rattle.flow_types.specs.Scenario.{parts_of};
ghost use Rattle.flow_types.specs.declared.fault.Fault.{Fault as TheFault};
ghost use Rattle.scenario_reader.specs.Reading.{scenario_of};
ghost use Rattle.flow_types.specs.Limits.{most_text_bytes};

mod capacities;
mod connections;
mod date;
mod draft;
mod finish;
mod flight_draft;
mod flights;
mod kind;
mod laws;
mod legs;
mod named_list;
mod places;
mod reading;
mod records;
mod sectors;
mod tables;

use crate::reading::scenario_of;
use flow_types::Scenario;
pub use laws::texts_that_read_are_valid;
use std::alloc::Global;
pub use text_records::Refusal;

/// The scenario of a text of at most 64 MiB, or its first fault: by record, then field, then in the
/// order of `Cause`. It takes memory for the scenario, for the longest record, and as much again as
/// the names and legs of its flights while it is read.
pub fn read_scenario(alloc: Global, text: &[u8]) -> Result<Scenario, Refusal>
    requires { length text.now ≤ most_text_bytes }
    // What is read is the scenario of the text.
    ensures scenario { IfOk result (λ s. scenario_of text.now ≡ Ok (parts_of s)) }
    // A fault that is told is the text's first.
    ensures fault { (fault : TheFault) → result ≡ Err (Refusal.Text fault)
        → scenario_of text.now ≡ Err fault }
{
    scenario_of(alloc, text)
}
