//! What is read under a name: a text, or the scenario of a text.
ghost use Rattle.std.specs.Prelude.{◌≡◌, ◌≤◌, IfErr, IfOk, Ok, OnOk, [], codes, length};
ghost use Rattle.flow_types.specs.Limits.{most_text_bytes};
ghost use Rattle.flow_outside.specs.Seen.{AreKept};
ghost use Rattle.flow_types.specs.Scenario.{parts_of};
ghost use Rattle.flow_cli.specs.Answers.{IfEarly, early_status};
ghost use Rattle.scenario_reader.specs.Reading.{scenario_of};
ghost use Rattle.flow_cli.specs.Outside.{change, printed_by};
ghost use Rattle.flow_cli.specs.Reading.{IsDayOf, IsQuiet, IsRefused, IsSignedDay, IsTextOf, IsUnread, IsWithoutDay};

use crate::answer::{Answer, EarlyEnd};
use crate::faults::{fault_line, too_long_line};
use crate::status::Status;
use certificate::Digest;
use flow_outside::{Files, LoadFault, load};
use flow_types::{MOST_TEXT_BYTES, Scenario};
use scenario_reader::{Refusal, read_scenario};
use std::alloc::Global;

/// A day that was read, and the digest of its text.
#[derive(Drop)]
pub struct SignedDay {
    pub s: Scenario,
    pub digest: Digest,
}

/// The text under the name, or the answer that says why it isn't read.
pub fn text_of<F: Files>(alloc: Global, files: &mut F, name: &str) -> Result<Vec<u8>, EarlyEnd>
    ensures text { IfOk result (λ text. IsTextOf (F.seen files.old).held name.now text.items) }
    ensures unread { IfEarly result
        (IsUnread (change (F.seen files.old) (F.seen files.new)) name.now) }
    ensures quiet { IfErr result (λ early.
        IsQuiet (change (F.seen files.old) (F.seen files.new)) (early_status early)) }
    ensures unfailed { OnOk result ((F.seen files.new).faults ≡ (F.seen files.old).faults) }
    ensures kept { AreKept (F.seen files.old) (F.seen files.new) }
{
    match load(alloc, files, name, MOST_TEXT_BYTES) {
        Ok(text) => Ok(text),
        Err(LoadFault::Read) => Err(EarlyEnd::Answered(read_fault(alloc))),
        Err(LoadFault::TooLong(size)) => Err(EarlyEnd::Answered(Answer::of(
            alloc,
            too_long_line(alloc, size)?,
            Status::TooLong,
        ))),
        Err(LoadFault::OutOfMemory) => Err(EarlyEnd::OutOfMemory),
    }
}

/// The scenario of the text under the name, or the answer that says why there is none.
pub fn day_of<F: Files>(alloc: Global, files: &mut F, name: &str) -> Result<Scenario, EarlyEnd>
    ensures day { IfOk result (λ s. IsDayOf (F.seen files.old).held name.now (parts_of s)) }
    ensures without { IfEarly result
        (IsWithoutDay (change (F.seen files.old) (F.seen files.new)) name.now) }
    ensures quiet { IfErr result (λ early.
        IsQuiet (change (F.seen files.old) (F.seen files.new)) (early_status early)) }
    ensures unfailed { OnOk result ((F.seen files.new).faults ≡ (F.seen files.old).faults) }
    ensures kept { AreKept (F.seen files.old) (F.seen files.new) }
{
    let text = text_of(alloc, files, name)?;
    scenario_of(alloc, &text)
}

/// The scenario of the text under the name and the digest of the text, or the answer that says why
/// there is none.
pub fn signed_day_of<F: Files>(
    alloc: Global,
    files: &mut F,
    name: &str,
) -> Result<SignedDay, EarlyEnd>
    ensures day { IfOk result (λ day.
        IsSignedDay (F.seen files.old).held name.now (parts_of day.s) day.digest) }
    ensures without { IfEarly result
        (IsWithoutDay (change (F.seen files.old) (F.seen files.new)) name.now) }
    ensures quiet { IfErr result (λ early.
        IsQuiet (change (F.seen files.old) (F.seen files.new)) (early_status early)) }
    ensures unfailed { OnOk result ((F.seen files.new).faults ≡ (F.seen files.old).faults) }
    ensures kept { AreKept (F.seen files.old) (F.seen files.new) }
{
    let text = text_of(alloc, files, name)?;
    let s = scenario_of(alloc, &text)?;
    Ok(SignedDay {
        s,
        digest: Digest::of(&text),
    })
}

// The scenario of a text, or the answer that says why there is none.
fn scenario_of(alloc: Global, text: &[u8]) -> Result<Scenario, EarlyEnd>
    requires few { length text.now ≤ most_text_bytes }
    ensures read { IfOk result (λ s. scenario_of text.now ≡ Ok (parts_of s)) }
    ensures refused { IfEarly result (IsRefused text.now) }
    ensures quiet { IfErr result (λ early. early_status early ≡ Status.ReadFault → ⊥) }
{
    match read_scenario(alloc, text) {
        Ok(s) => Ok(s),
        Err(Refusal::Text(fault)) => Err(EarlyEnd::Answered(Answer::of(
            alloc,
            fault_line(alloc, fault)?,
            Status::BadScenario,
        ))),
        Err(Refusal::OutOfMemory) => Err(EarlyEnd::OutOfMemory),
    }
}

/// The answer where a read failed. It takes no memory.
pub fn read_fault(alloc: Global) -> Answer
    ensures { printed_by result
        ≡ record { text = codes "fault,read\n"; status = Status.ReadFault; records = [] } }
{
    Answer::fixed(alloc, b"fault,read\n", Status::ReadFault)
}
