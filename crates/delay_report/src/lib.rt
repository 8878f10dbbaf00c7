//! What is printed of a day that was planned, of a plan that was judged, and of a certificate that
//! was checked: texts of values, which name no file and no search.
//!
//!     // The four lines that say how good a plan is.
//!     fn lines(
//!         alloc: Global,
//!         s: &Scenario,
//!         plan: &Plan,
//!         least: i128,
//!     ) -> Result<Vec<u8>, OutOfMemory>
//!         requires { IsFeasible (parts_of s.now) plan.now }
//!     {
//!         claim_report(alloc, &Claim::of(s, Some(plan), Bound::AtLeast(least), 1))
//!     }
//!
//! A [`Claim`] is a plan, if there is one, what it costs, a bound and the number of nodes of the
//! tree that proves it. Only [`Claim::of`] makes one: it counts the cost once, and says what it is.
//! `plan_report` gives the claim's four lines and a line for each trip of its plan, `claim_report`
//! the four lines alone, `explain_report` these with what the plan comes to: each flight's times,
//! delays and cost, the capacities that are used up, and the sums; `broken_line` and `keeps_line`
//! what is printed of a plan that was judged, and `refused_line` the first fault of a certificate:
//! each byte by byte as in `specs/Texts.antt`, `specs/Delays.antt`, `specs/Verdicts.antt` and
//! `specs/Refusals.antt`. The moments of an explanation are civil times, of which
//! `specs/Moments.antt` says what they are. A report is read as its plan
//! (`reports_are_read_as_their_plans`), and two of the same bytes tell the same cost, bound and
//! number of nodes (`reports_tell_their_claims`).
//!
//! Memory: the text that is made, and one line; for an explanation also the plan's loads, and
//! sixteen bytes a period. Time: the length of the text, and for an explanation what `judge` takes
//! and a look at each place and period.
#![tactic(auto)]

mod claim;
mod delays;
mod laws;
mod moments;
mod refusals;
mod report;
mod verdicts;

pub use claim::{Claim, Outcome};
pub use delays::explain_report;
pub use laws::{reports_are_read_as_their_plans, reports_tell_their_claims};
pub use refusals::refused_line;
pub use report::{claim_report, plan_report};
pub use verdicts::{broken_line, keeps_line};
