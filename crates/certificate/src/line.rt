//! A line of a text: what it tells, and what may stand after it.
ghost use Rattle.std.specs.Prelude.{◌≡◌, ◌≤◌, length};
ghost use Rattle.cut_rows.specs.Routes.{AreRoutesOf};
ghost use Rattle.flow_types.specs.Scenario.{parts_of};
ghost use Rattle.certificate.specs.Fields.{fields_of};
ghost use Rattle.certificate.specs.Found.{Finds, Gives};
ghost use Rattle.certificate.specs.Limits.{most_line_bytes};
ghost use Rattle.certificate.specs.Reading.{fields_step, in_first, kind_here, last_fault, line_step, long_fault, past_end};
ghost use Rattle.certificate.specs.Stages.{IsSmall};

use crate::fault::{LineError, LineFault, TextCause};
use crate::fields::LineFields;
use crate::item::CertItem;
use crate::items::item_of;
use crate::kind::{LineKind, kind_of};
use crate::limits::MOST_LINE_BYTES;
use crate::stage::{Stage, bad_kind, is_ended, may_stand, next_at, stage_after};
use cut_rows::Routes;
use flow_types::Scenario;
use std::alloc::Global;

/// A fault of a whole line, told of its first field.
pub fn in_first(cause: TextCause) -> LineFault
    ensures { result ≡ in_first cause }
{
    LineFault { field: 1, cause }
}

// What is wrong with bytes behind the last line, if there are any.
fn past_end(bytes: &[u8]) -> Option<LineFault>
    ensures { result ≡ past_end bytes.now }
{
    if bytes.is_empty() {
        None
    } else {
        Some(in_first(TextCause::AfterEnd))
    }
}

/// What is wrong with the bytes after the last line feed, if anything is.
pub fn last_fault(stage: &Stage, bytes: &[u8]) -> Option<LineFault>
    ensures { result ≡ last_fault stage.now bytes.now }
{
    if is_ended(stage) {
        past_end(bytes)
    } else if bytes.len() > MOST_LINE_BYTES {
        Some(in_first(TextCause::LongLine))
    } else {
        Some(in_first(TextCause::Missing))
    }
}

/// What is wrong with a line of more bytes than one may have.
pub fn long_fault(stage: &Stage) -> LineFault
    ensures { result ≡ long_fault stage.now }
{
    if is_ended(stage) {
        in_first(TextCause::AfterEnd)
    } else {
        in_first(TextCause::LongLine)
    }
}

// The kind of a line, if it has one and such a line may stand here.
fn kind_here(stage: &Stage, kind: Option<LineKind>) -> Result<LineKind, LineFault>
    ensures { Finds (λ kind. kind) result (kind_here stage.now kind) }
{
    match kind {
        Some(kind) if may_stand(stage, kind) => Ok(kind),
        _ => Err(bad_kind()),
    }
}

// What the fields of a line tell, and what may stand after it.
#[tactic(auto, unfolding(crate::specs::Reading::fields_step))]
fn fields_step(
    alloc: Global,
    s: &Scenario,
    routes: &Routes,
    stage: &Stage,
    fields: &mut LineFields<'_>,
) -> Result<(CertItem, Stage), LineError>
    requires small { IsSmall stage.now }
    requires routes { AreRoutesOf (parts_of s.now) routes.now }
    ensures { Gives (λ found. (found.0, found.1)) result
        (fields_step (parts_of s.now) stage.now fields.old) }
{
    let word = fields.field()?;
    let kind = kind_here(stage, kind_of(word))?;
    let item = item_of(alloc, s, next_at(stage), kind, fields)?;
    let after = stage_after(alloc, s, routes, stage, &item)?;
    Ok((item, after))
}

/// What a line tells, given without its line feed, and what may stand after it. A trip takes memory
/// for its stops, a cut twice for its nodes, and any other line none.
pub fn line_step(
    alloc: Global,
    s: &Scenario,
    routes: &Routes,
    stage: &Stage,
    line: &[u8],
) -> Result<(CertItem, Stage), LineError>
    requires small { IsSmall stage.now }
    requires routes { AreRoutesOf (parts_of s.now) routes.now }
    ensures { Gives (λ found. (found.0, found.1)) result
        (line_step (parts_of s.now) stage.now line.now) }
{
    if is_ended(stage) {
        return Err(LineError::Fault(in_first(TextCause::AfterEnd)));
    }
    if line.len() > MOST_LINE_BYTES {
        return Err(LineError::Fault(in_first(TextCause::LongLine)));
    }
    fields_step(alloc, s, routes, stage, &mut LineFields::of_line(line))
}
