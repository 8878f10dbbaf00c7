//! The commands as `clap` reads them.
ghost use Rattle.std.specs.Prelude.{◌≡◌, IfOk, false};
ghost use Rattle.clap.specs.Words.{App, rule_of, with_subcommand};
ghost use Rattle.command_words.specs.Lines.{Shows, cert_rule, count_app, count_rule, default_text_of, flow_app, id_of, limit_rule, name_rule, plan_app, two_name_app};

use crate::options::{Limit, count_range, range_of};
use clap::Arg;
use clap::builder::ValueParser;
use std::alloc::{AllocError, Global};

/// The commands of the program.
pub fn flow_command<'a>(alloc: Global) -> Result<clap::Command<'a>, AllocError>
    ensures { IfOk result (Shows flow_app) }
{
    let flow = clap::Command::new(alloc, "flow").no_binary_name(true);
    let flow = with_subcommand(flow, plan_command(alloc))?;
    let flow = with_subcommand(flow, two_name_command(alloc, "check", "cert"))?;
    let flow = with_subcommand(flow, two_name_command(alloc, "judge", "plan"))?;
    let flow = with_subcommand(flow, two_name_command(alloc, "explain", "cert"))?;
    let flow = with_subcommand(flow, count_command(alloc, "make"))?;
    with_subcommand(flow, count_command(alloc, "trial"))
}

// The command with one more below it, if there was memory for that one.
fn with_subcommand<'a>(
    above: clap::Command<'a>,
    below: Result<clap::Command<'a>, AllocError>,
) -> Result<clap::Command<'a>, AllocError>
    ensures { (app sub : App) → Shows app above.entry → IfOk below.entry (Shows sub)
        → IfOk result (Shows (with_subcommand app sub.top)) }
{
    above.subcommand(below?)
}

// The command that plans a day.
fn plan_command<'a>(alloc: Global) -> Result<clap::Command<'a>, AllocError>
    ensures { IfOk result (Shows plan_app) }
{
    clap::Command::new(alloc, "plan")
        .arg(name_arg(alloc, "name"))?
        .arg(cert_arg(alloc))?
        .arg(limit_arg(alloc, Limit::Nodes))?
        .arg(limit_arg(alloc, Limit::Pivots))?
        .arg(limit_arg(alloc, Limit::Cells))?
        .arg(limit_arg(alloc, Limit::Rounds))
}

// A command with two names.
fn two_name_command<'a>(
    alloc: Global,
    name: &'a str,
    second: &'a str,
) -> Result<clap::Command<'a>, AllocError>
    ensures { IfOk result (Shows (two_name_app name.entry.now second.entry.now)) }
{
    clap::Command::new(alloc, name)
        .arg(name_arg(alloc, "name"))?
        .arg(name_arg(alloc, second))
}

// A command with a number.
fn count_command<'a>(alloc: Global, name: &'a str) -> Result<clap::Command<'a>, AllocError>
    ensures { IfOk result (Shows (count_app name.entry.now)) }
{
    let range = count_range();
    let count = Arg::new(alloc, "count")
        .required(true)
        .value_parser(ValueParser::Unsigned(range.least, range.most));
    clap::Command::new(alloc, name).arg(count)
}

// A name.
fn name_arg<'a>(alloc: Global, id: &'a str) -> Arg<'a>
    ensures rule { rule_of result ≡ name_rule id.entry.now }
    ensures local { result.global ≡ false }
{
    Arg::new(alloc, id).required(true)
}

// The option under whose name a certificate is stored.
fn cert_arg<'a>(alloc: Global) -> Arg<'a>
    ensures rule { rule_of result ≡ cert_rule }
    ensures local { result.global ≡ false }
{
    Arg::new(alloc, "cert").long("cert")
}

// The option that limits something.
fn limit_arg<'a>(alloc: Global, limit: Limit) -> Arg<'a>
    ensures rule { rule_of result ≡ limit_rule limit }
    ensures local { result.global ≡ false }
{
    let range = range_of(limit);
    Arg::new(alloc, id_of(limit))
        .long(id_of(limit))
        .value_parser(ValueParser::Unsigned(range.least, range.most))
        .default_value(default_text_of(limit))
}

// The name of the option, without its hyphens.
fn id_of<'a>(limit: Limit) -> &'a str
    ensures { result.now ≡ id_of limit }
{
    match limit {
        Limit::Nodes => "nodes",
        Limit::Pivots => "pivots",
        Limit::Cells => "cells",
        Limit::Rounds => "rounds",
    }
}

// The number that holds without the option.
fn default_text_of<'a>(limit: Limit) -> &'a str
    ensures { result.now ≡ default_text_of limit }
{
    match limit {
        Limit::Nodes => "2001",
        Limit::Pivots => "20000",
        Limit::Cells => "2000000",
        Limit::Rounds => "64",
    }
}
