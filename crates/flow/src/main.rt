//! The program: it plans a day of air traffic and says how good the plan is, checks and explains
//! certificates of such claims, judges plans, and makes days to try things on.
//!
//! `main` hands what the environment answers about its words, the system's files and the standard
//! output to `flow_cli::exit_code`, whose contract says what is written and with which number the
//! program ends:
//!
//!     flow plan day.csv --cert day.cert
//!     flow check day.csv day.cert
//!     flow explain day.csv day.cert
//!     flow judge day.csv plan.csv
//!     flow make 60
//!     flow trial 60
//!
//! That the environment gives the words that were typed, and that the system's files and output
//! read and write what they are asked to, is trusted. That `main` hands them on is one expression,
//! which the stored run compares.
#![tactic(auto)]

use flow_cli::exit_code;
use flow_outside::{HostFiles, HostSink};
use std::env;
use std::process::ExitCode;

fn main(rt: HostRuntime) -> ExitCode {
    exit_code(
        rt.alloc(),
        env::args(&rt),
        &mut HostFiles::new(&rt),
        &mut HostSink::new(&rt),
    )
}
