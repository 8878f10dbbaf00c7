//! From what the environment gives to the number that the program ends with.
ghost use Rattle.std.specs.Prelude.{◌≡◌, IfOk, drop, map, string_bytes};
ghost use Rattle.std.specs.Process.{exit_status};
ghost use Rattle.std.specs.Vec.Iter.{into_iter_items};
ghost use Rattle.flow_cli.specs.Answer.{Ends, KeepFiles};
ghost use Rattle.flow_cli.specs.Exit.{ExitsWith, words_given};
ghost use Rattle.flow_cli.specs.Outside.{change};
ghost use Rattle.command_words.specs.Words.{asked};
ghost use Rattle.flow_cli.specs.Words.{cert_in};

use crate::answer::Ran;
use crate::running::run;
use crate::status::Status;
use flow_outside::{Files, Sink};
use flow_types::OutOfMemory;
use std::alloc::Global;
use std::process::ExitCode;
use std::{env, io};

/// Runs the program on what the environment answers about its words, and gives what the process is
/// to end with: the number of `run`'s status for the words behind the program's name. Words of
/// which one isn't UTF-8 are those of no command. No name but that of a certificate that is stored
/// comes to hold anything else. It takes memory for the words, besides that of `run`.
pub fn exit_code<F: Files, S: Sink>(
    alloc: Global,
    args: io::Result<env::Args>,
    files: &mut F,
    out: &mut S,
) -> ExitCode
    ensures exits { ExitsWith (change (F.seen files.old) (F.seen files.new))
        (change (S.seen out.old) (S.seen out.new)) (words_given args) (exit_status result) }
    ensures kept { KeepFiles (cert_in (asked (words_given args))) (F.seen files.old)
        (F.seen files.new) }
{
    let ran = run_given(alloc, args, files, out);
    ExitCode::from(ran.status.number())
}

/// Runs the program on the words that are given.
fn run_given<F: Files, S: Sink>(
    alloc: Global,
    args: io::Result<env::Args>,
    files: &mut F,
    out: &mut S,
) -> Ran
    ensures ends { Ends (change (F.seen files.old) (F.seen files.new))
        (change (S.seen out.old) (S.seen out.new)) (words_given args) result }
    ensures kept { KeepFiles (cert_in (asked (words_given args))) (F.seen files.old)
        (F.seen files.new) }
{
    match words_of(alloc, args) {
        Ok(words) => run(alloc, &words, files, out),
        Err(OutOfMemory) => Ran::without_record(alloc, Status::OutOfMemory),
    }
}

/// The words behind the program's name, none where they aren't UTF-8.
fn words_of(alloc: Global, args: io::Result<env::Args>) -> Result<Vec<String>, OutOfMemory>
    ensures { IfOk result (λ words. words_given args ≡ map string_bytes words.items) }
{
    match args {
        Ok(args) => words_behind_name(alloc, args),
        Err(error) if error.kind() == io::ErrorKind::OutOfMemory => Err(OutOfMemory),
        Err(_) => Ok(Vec::new(alloc)),
    }
}

/// The words behind the first one.
fn words_behind_name(alloc: Global, mut args: env::Args) -> Result<Vec<String>, OutOfMemory>
    ensures { IfOk result (λ words. words.items ≡ drop 1 (into_iter_items args)) }
{
    args.next();
    let mut words = Vec::new(alloc);
    while let Some(word) = args.next() {
        words.push(word)?;
    }
    Ok(words)
}
