//! A run of the program, from its words to its status.
ghost use Rattle.std.specs.Prelude.{◌≡◌, ◌⊎◌, ◌≤◌, IfOk, IfSome, OnErr, map, option_map, string_bytes};
ghost use Rattle.flow_outside.specs.Counts.{Rose};
ghost use Rattle.flow_outside.specs.Seen.{AreKept};
ghost use Rattle.flow_cli.specs.Answer.{Ends, IsAnswer, KeepFiles};
ghost use Rattle.flow_cli.specs.Answers.{IfAnswered, OnNoMemory, work_status};
ghost use Rattle.flow_cli.specs.Outside.{change, printed_by};
ghost use Rattle.flow_cli.specs.Reading.{IsQuiet};
ghost use Rattle.command_words.specs.Words.{MaySearch, asked, asked_by};
ghost use Rattle.flow_cli.specs.Words.{budget_of, cert_in};

use crate::answer::{Answer, EarlyEnd, Ran};
use crate::certifying::certify_named;
use crate::checking::check_named;
use crate::judging::judge_named;
use crate::making::{make_day, try_day};
use crate::planning::plan_named;
use crate::status::Status;
use command_words::{Command, SearchLimits, command_of};
use flow_outside::{Files, Sink, put_all};
use flow_types::OutOfMemory;
use relaxed_bound::Limits;
use std::alloc::Global;
use tree_search::Budget;

// The commands, and the words that each one takes.
const USAGE: &[u8] = b"usage
plan NAME [--cert NAME] [--nodes N] [--pivots N] [--cells N] [--rounds N]
check NAME CERT
judge NAME PLAN
explain NAME CERT
make N
trial N
";

/// Runs the program: the words are `plan` and the name of a day, with options that say how much its
/// search may spend and under which name a certificate is stored; or `check` or `explain`, the name
/// of a day and that of a certificate; or `judge`, the name of a day and that of a plan; or `make`
/// or `trial` and a number of flights. The texts are read from the files, at most 64 MiB of each,
/// and 1 GiB of a certificate, the day's first; the day is planned, its certificate is checked or
/// its plan judged, or a day is made, and the answer is written. A certificate is stored before.
///
/// The status says what the answer is. `Done`, `Infeasible` and `OpenGap` come for a day that is
/// planned or tried, with the record whose numbers were printed: `OpenGap` only where its nodes and
/// two more are more than it might have. `Done` and `BadCertificate` come for a certificate that is
/// checked, `Done` and `Broken` for a plan that is judged, `Done` for a day that is made. `Usage`
/// comes for any other words, `ReadFault` where a name isn't there or a call fails, `TooLong` for a
/// longer text, `BadScenario` for a text that is no scenario, `BadPlan` for a text that is no plan,
/// `WriteFault` where the certificate isn't stored or the answer isn't written to its end, and
/// `OutOfMemory` where there is no memory; then nothing is stored or written. `TooLong` also comes
/// where the certificate that is to be stored would be longer than 1 GiB: then nothing is stored,
/// and its record is handed back. With any other status there is no record.
///
/// No name but that of the certificate changes, and without one what the files hold stays as it
/// was. Their count of faults stays where the answer isn't that a read failed. It takes memory for
/// a text, the scenario, its search, what a check takes or the plan with its loads, and the answer
/// with the certificate.
pub fn run<F: Files, S: Sink>(alloc: Global, words: &[String], files: &mut F, out: &mut S) -> Ran
    ensures answered { Ends (change (F.seen files.old) (F.seen files.new))
        (change (S.seen out.old) (S.seen out.new)) (map string_bytes words.now) result }
    // WriteFault comes only where the store of a certificate or the output failed.
    ensures write_fault { result.status ≡ Status.WriteFault
        → Rose (F.seen files.old).store_faults (F.seen files.new).store_faults
        ⊎ Rose (S.seen out.old).faults (S.seen out.new).faults }
    ensures kept { KeepFiles (cert_in (asked (map string_bytes words.now))) (F.seen files.old)
        (F.seen files.new) }
    ensures write_counts { (S.seen out.old).faults ≤ (S.seen out.new).faults }
{
    match answer_to(alloc, words, files) {
        Err(OutOfMemory) => Ran::without_record(alloc, Status::OutOfMemory),
        Ok(answer) => match put_all(out, &answer.text) {
            Err(_) => Ran::without_record(alloc, Status::WriteFault),
            Ok(()) => Ran {
                status: answer.status,
                records: answer.records,
            },
        },
    }
}

// The answer to the words, whether it comes early or not.
fn answer_to<F: Files>(
    alloc: Global,
    words: &[String],
    files: &mut F,
) -> Result<Answer, OutOfMemory>
    ensures answered { IfOk result
        (λ answer. IsAnswer (change (F.seen files.old) (F.seen files.new))
        (asked (map string_bytes words.now)) (printed_by answer)) }
    ensures quiet { IfOk result
        (λ answer. IsQuiet (change (F.seen files.old) (F.seen files.new)) answer.status) }
    ensures unfailed { OnErr result ((F.seen files.new).faults ≡ (F.seen files.old).faults) }
    ensures kept { KeepFiles (cert_in (asked (map string_bytes words.now))) (F.seen files.old)
        (F.seen files.new) }
    ensures lost { OnErr result (AreKept (F.seen files.old) (F.seen files.new)) }
{
    match work(alloc, words, files) {
        Ok(answer) => Ok(answer),
        Err(EarlyEnd::Answered(answer)) => Ok(answer),
        Err(EarlyEnd::OutOfMemory) => Err(OutOfMemory),
    }
}

// The work of the command in the words.
fn work<F: Files>(alloc: Global, words: &[String], files: &mut F) -> Result<Answer, EarlyEnd>
    ensures answered { IfAnswered result (IsAnswer (change (F.seen files.old) (F.seen files.new))
        (asked (map string_bytes words.now))) }
    ensures quiet { IsQuiet (change (F.seen files.old) (F.seen files.new)) (work_status result) }
    ensures kept { KeepFiles (cert_in (asked (map string_bytes words.now))) (F.seen files.old)
        (F.seen files.new) }
    ensures lost { OnNoMemory result (AreKept (F.seen files.old) (F.seen files.new)) }
{
    let command = command_of(alloc, words)?;
    work_of(alloc, command, files)
}

// The work of a command, if there is one.
fn work_of<F: Files>(
    alloc: Global,
    command: Option<Command<'_>>,
    files: &mut F,
) -> Result<Answer, EarlyEnd>
    requires { IfSome command MaySearch }
    ensures answered { IfAnswered result (IsAnswer (change (F.seen files.old) (F.seen files.new))
        (option_map asked_by command.entry)) }
    ensures quiet { IsQuiet (change (F.seen files.old) (F.seen files.new)) (work_status result) }
    ensures kept { KeepFiles (cert_in (option_map asked_by command.entry)) (F.seen files.old)
        (F.seen files.new) }
    ensures lost { OnNoMemory result (AreKept (F.seen files.old) (F.seen files.new)) }
{
    match command {
        Some(
            Command::Plan {
                name,
                limits,
                cert: None,
            },
        ) => plan_named(alloc, files, name, budget_of(limits)),
        Some(
            Command::Plan {
                name,
                limits,
                cert: Some(cert),
            },
        ) => certify_named(alloc, files, name, budget_of(limits), cert),
        Some(Command::Check { name, cert, view }) => check_named(alloc, files, name, cert, view),
        Some(Command::Judge { name, plan }) => judge_named(alloc, files, name, plan),
        Some(Command::Make { count }) => Ok(make_day(alloc, count as u32)?),
        Some(Command::Trial { count }) => Ok(try_day(alloc, count as u32)?),
        None => Ok(Answer::fixed(alloc, USAGE, Status::Usage)),
    }
}

// What a search may spend.
fn budget_of(limits: SearchLimits) -> Budget
    ensures { result ≡ budget_of limits }
{
    Budget {
        nodes: limits.nodes,
        limits: Limits {
            pivots: limits.pivots,
            cells: limits.cells,
        },
        rounds: limits.rounds,
    }
}
