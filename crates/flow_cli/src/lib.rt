//! The commands of the program: what is done for its words, what is printed, and how it ends.
//!
//! A program hands its words, files and an output to [`exit_code`], or words of its own to [`run`]:
//!
//!     // Plans the day in the file `day.csv`, and says whether the plan is optimal.
//!     fn is_optimal<F: Files, S: Sink>(
//!         alloc: Global,
//!         files: &mut F,
//!         out: &mut S,
//!     ) -> Result<bool, OutOfMemory> {
//!         let mut words = Vec::new(alloc);
//!         words.push(String::from_str(alloc, "plan")?)?;
//!         words.push(String::from_str(alloc, "day.csv")?)?;
//!         Ok(run(alloc, &words, files, out).status == Status::Done)
//!     }
//!
//! What is printed and how a run ends is said by `run`'s contract: in `specs/Answer.antt`, and for
//! each command in `specs/Planning.antt`, `specs/Certifying.antt`, `specs/Checking.antt`,
//! `specs/Judging.antt` and `specs/Making.antt`; what words ask for is said in `command_words`, and
//! the reports and verdicts, byte by byte, in `delay_report`. Where a day was planned, `run` hands
//! back the record of the search whose numbers it printed. From the status to the number that the
//! process ends with, and from the words of the environment to those of `run`, it is said by
//! `exit_code`'s, in `specs/Exit.antt`. Where the files tell that they hold what a command reads,
//! no call fails and there is memory, it does its work: that is [`runs_are_complete`], in
//! `specs/Complete.antt`.
//!
//! What `plan --cert` stores is the certificate of a search's record ([`certificate_of`], as
//! `specs/Own.antt` defines it). Its numbers are within the limits of lines, and the verdict on its
//! text is its claim, and no other one ([`own_certificates_are_accepted`]): whoever checks it, by
//! `check` or anything else that answers the verdict on a text, is told the record's last plan,
//! what it costs, the bound and the number of nodes.
//!
//! Memory: the words, a text, the scenario, its search or the plan with its loads, and the answer.
//! The record's last plan is printed where it lies.
#![tactic(auto)]

mod answer;
mod certifying;
mod checking;
mod exit;
mod faults;
mod judging;
mod laws;
mod making;
mod own_certificate;
mod planning;
mod reading;
mod running;
mod status;

pub use answer::{FoundList, Ran};
pub use exit::exit_code;
pub use laws::runs_are_complete;
pub use own_certificate::{certificate_of, own_certificates_are_accepted};
pub use running::run;
pub use status::Status;
