//! The command that words are.
ghost use Rattle.std.specs.Prelude.{◌≡◌, IfOk, IfSome, map, option_map, string_bytes};
ghost use Rattle.command_words.specs.Words.{MaySearch, asked, asked_by};

use crate::form::is_command;
use crate::line::flow_command;
use crate::reading::told_by;
use clap::error::ErrorKind;
use flow_types::OutOfMemory;
use std::alloc::Global;

/// What is to be done.
#[derive(Clone, Copy)]
pub enum Command<'a> {
    /// To plan the day of this name, by a search that may spend so much, and to store a certificate
    /// under a name, if one is given.
    Plan {
        name: &'a str,
        limits: SearchLimits,
        cert: Option<&'a str>,
    },
    /// To check the certificate of the second name by the day of the first, and to show its claim.
    Check {
        name: &'a str,
        cert: &'a str,
        view: View,
    },
    /// To judge the plan of the second name by the day of the first.
    Judge {
        name: &'a str,
        plan: &'a str,
    },
    /// To make a day of so many flights.
    Make {
        count: u64,
    },
    /// To make a day of so many flights, and to plan it.
    Trial {
        count: u64,
    },
}

/// What a search may spend.
#[derive(Clone, Copy)]
pub struct SearchLimits {
    pub nodes: u64,
    pub pivots: u64,
    pub cells: u32,
    pub rounds: u32,
}

/// How a claim is shown.
#[derive(Clone, Copy)]
pub enum View {
    /// By its four lines.
    Claim,
    /// With the delays of its plan, and the capacities that this uses up.
    Delays,
}

/// The command in the words: `plan`, a name and any options of it; `check`, `explain` or `judge`
/// and two names; or `make` or `trial` and a number. A name isn't empty and doesn't begin with `-`.
/// An option is one of two words, the second of which is a certificate's name or a number; each
/// stands once at most, before the name or behind it. For any other words there is none.
///
/// It takes memory for what `clap` knows of the commands and finds in the words.
pub fn command_of<'a>(
    alloc: Global,
    words: &'a [String],
) -> Result<Option<Command<'a>>, OutOfMemory>
    ensures asked { IfOk result
        (λ command. option_map asked_by command ≡ asked (map string_bytes words.now)) }
    ensures may { IfOk result (λ command. IfSome command MaySearch) }
{
    if !is_command(words) {
        return Ok(None);
    }
    match flow_command(alloc)?.try_get_matches_from(words) {
        Ok(matches) => Ok(told_by(&matches)),
        Err(error) => match error.kind() {
            ErrorKind::OutOfMemory => Err(OutOfMemory),
            _ => Ok(None),
        },
    }
}
