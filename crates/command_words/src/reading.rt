//! What the matches of a line ask for.
ghost use Rattle.std.specs.Prelude.{◌≡◌, option_map};
ghost use Rattle.clap.specs.Words.{first_of, found_of, rows_of, subcommand_rows_of};
ghost use Rattle.command_words.specs.Reading.{asked_in, checked_in, count_in, judged_in, limits_in, number_in, planned_in, told_by};
ghost use Rattle.command_words.specs.Words.{asked_by};

use crate::command::{Command, SearchLimits, View};
use clap::ArgMatches;

/// The command that the matches tell.
pub fn told_by<'a>(matches: &ArgMatches<'a>) -> Option<Command<'a>>
    ensures { option_map asked_by result ≡ told_by (subcommand_rows_of matches.now) }
{
    let (name, below) = matches.subcommand()?;
    asked_in(name, below)
}

// The command of this name.
fn asked_in<'a>(name: &str, matches: &ArgMatches<'a>) -> Option<Command<'a>>
    ensures { option_map asked_by result ≡ asked_in name.now (rows_of (found_of matches.now)) }
{
    match name {
        "plan" => planned_in(matches),
        "check" => checked_in(View::Claim, matches),
        "explain" => checked_in(View::Delays, matches),
        "judge" => judged_in(matches),
        "make" => Some(Command::Make {
            count: number_in(matches, "count")?,
        }),
        "trial" => Some(Command::Trial {
            count: number_in(matches, "count")?,
        }),
        _ => None,
    }
}

// The day that is to be planned, and how.
fn planned_in<'a>(matches: &ArgMatches<'a>) -> Option<Command<'a>>
    ensures { option_map asked_by result ≡ planned_in (rows_of (found_of matches.now)) }
{
    let name = text_in(matches, "name")?;
    let limits = limits_in(matches)?;
    Some(Command::Plan {
        name,
        limits,
        cert: text_in(matches, "cert"),
    })
}

// What a search may spend.
fn limits_in(matches: &ArgMatches<'_>) -> Option<SearchLimits>
    ensures { result ≡ limits_in (rows_of (found_of matches.now)) }
{
    Some(SearchLimits {
        nodes: number_in(matches, "nodes")?,
        pivots: number_in(matches, "pivots")?,
        cells: small_number_in(matches, "cells")?,
        rounds: small_number_in(matches, "rounds")?,
    })
}

// The certificate that is to be checked.
fn checked_in<'a>(view: View, matches: &ArgMatches<'a>) -> Option<Command<'a>>
    ensures { option_map asked_by result ≡ checked_in view (rows_of (found_of matches.now)) }
{
    let name = text_in(matches, "name")?;
    let cert = text_in(matches, "cert")?;
    Some(Command::Check { name, cert, view })
}

// The plan that is to be judged.
fn judged_in<'a>(matches: &ArgMatches<'a>) -> Option<Command<'a>>
    ensures { option_map asked_by result ≡ judged_in (rows_of (found_of matches.now)) }
{
    let name = text_in(matches, "name")?;
    let plan = text_in(matches, "plan")?;
    Some(Command::Judge { name, plan })
}

// The text of this id.
fn text_in<'a>(matches: &ArgMatches<'a>, id: &str) -> Option<&'a str>
    ensures { option_map (λ text. text.now) result
        ≡ first_of id.now (rows_of (found_of matches.now)) }
{
    matches.get_str(id)
}

// The number of this id.
fn number_in(matches: &ArgMatches<'_>, id: &str) -> Option<u64>
    ensures { result ≡ number_in 64 id.now (rows_of (found_of matches.now)) }
{
    matches.get_one::<u64>(id)
}

// The number of this id, of 32 bits.
fn small_number_in(matches: &ArgMatches<'_>, id: &str) -> Option<u32>
    ensures { result ≡ number_in 32 id.now (rows_of (found_of matches.now)) }
{
    matches.get_one::<u32>(id)
}
