//! Reads the text of a plan, and writes the line of a trip.
//!
//!     // The line of the first trip of a text.
//!     fn first_line(alloc: Global, s: &Scenario, text: &[u8]) -> Result<Vec<u8>, Refusal> {
//!         let plan = read_plan(alloc, s, text)?;
//!         match plan.items().first() {
//!             Some(trip) => Ok(trip_line(alloc, s, 0, trip.items())?),
//!             None => Ok(Vec::new(alloc)),
//!         }
//!     }
//!
//! A plan's text is records of comma-separated fields, of which only `trip` says anything: a
//! flight, and a place and a period for each of its stops. `plan_of` in `specs/` says what a text
//! means: a fold of one step a record over the records that `csv` gives, where each step checks
//! field by field, so that what it answers is the plan or the first fault, by record, then field,
//! then cause. `read_plan` is proved to answer exactly that (clauses `plan` and `fault`). Want of
//! memory is the third answer, of which no clause says when it comes. `trip_line` is proved to
//! write the line of `trip_text`, byte by byte.
//!
//! Memory: the text, the longest record, the plan, and the names of the scenario's flights and
//! places while they are looked up; nothing grows with the number of records that are passed over.
//! Time: the length of the text, a look-up by hash for each name, and for each place the at most
//! 32 nodes of its flight.
#![tactic(auto)]

ghost use Rattle.std.specs.Prelude.{◌≡◌, ◌≤◌, Ok, Err, IfOk, length};
ghost use Rattle.flow_types.specs.Scenario.{parts_of};
ghost use Rattle.flow_types.specs.declared.fault.Fault.{Fault as TheFault};
ghost use Rattle.plan_text.specs.Plans.{plan_of};
ghost use Rattle.flow_types.specs.Limits.{most_text_bytes};

mod kind;
mod lines;
mod named_scenario;
mod names;
mod reading;
mod trips;
mod trips_read;

use crate::reading::plan_of;
use flow_types::{Plan, Scenario};
pub use lines::trip_line;
use std::alloc::Global;
pub use text_records::Refusal;

/// The plan of a text of at most 64 MiB for a scenario: one trip a flight, in the order of the
/// flights, empty where the text doesn't name the flight. That the trips keep the rules isn't
/// asked. It takes memory for the plan, for the longest record and for the names of the scenario.
pub fn read_plan(alloc: Global, s: &Scenario, text: &[u8]) -> Result<Plan, Refusal>
    requires { length text.now ≤ most_text_bytes }
    // What is read is the plan of the text.
    ensures plan { IfOk result (λ plan. plan_of (parts_of s.now) text.now ≡ Ok plan) }
    ensures trips { IfOk result (λ plan. length plan ≡ length (parts_of s.now).flights) }
    // A fault that is told is the text's first.
    ensures fault { (fault : TheFault) → result ≡ Err (Refusal.Text fault)
        → plan_of (parts_of s.now) text.now ≡ Err fault }
{
    let plan = plan_of(alloc, s, text)?;
    Ok(plan)
}
