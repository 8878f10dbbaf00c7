//! A certificate, read line by line.
ghost use Rattle.std.specs.Prelude.{◌≡◌, Err, IfErr, IfNone, IfOk, IfSome, IsErrOf, None, Ok, OnOk, []};
ghost use Rattle.cut_rows.specs.Routes.{AreRoutesOf};
ghost use Rattle.flow_outside.specs.Counts.{Rose};
ghost use Rattle.flow_outside.specs.Held.{HasName};
ghost use Rattle.flow_outside.specs.Seen.{AreKept};
ghost use Rattle.flow_types.specs.Scenario.{parts_of};
ghost use Rattle.certificate.specs.Readers.{AreBounded, AreTaken, IsAtEnd, IsItemTaken, IsReading, IsRefused, Tells, refusal_of, refusal_of_take, told_by};
ghost use Rattle.certificate.specs.Stages.{IsSmall};
ghost use Rattle.certificate.specs.declared.fault.CertRefusal.TheVariants as refusal;
ghost use Rattle.certificate.specs.declared.stage.Stage.TheVariants as stages;

use crate::fault::{CertRefusal, LineError, LineFault, TextFault};
use crate::item::CertItem;
use crate::limits::MOST_CERT_BYTES;
use crate::line::{last_fault, line_step, long_fault};
use crate::lines::{LineEnd, TakeError, take_line};
use crate::pieces::Pieces;
use crate::stage::{Stage, is_ended};
use cut_rows::Routes;
use flow_outside::{Files, LoadFault};
use flow_types::Scenario;
use std::alloc::Global;
use std::marker::Model;

// The line that comes next.
#[derive(Drop)]
struct NextLine {
    // What may stand there.
    stage: Stage,
    // Its number, from 1.
    number: u32,
}

// What the lines are of: a scenario, and its routes.
#[derive(Clone, Copy)]
struct RoutedDay<'a> {
    s: &'a Scenario,
    routes: &'a Routes,
}

// What the next line tells, and what may stand after it; nothing at the end of the text.
fn next_item<F: Files>(
    alloc: Global,
    files: &mut F,
    day: RoutedDay<'_>,
    pieces: &mut Pieces,
    line: &mut Vec<u8>,
    next: &NextLine,
) -> Result<Option<(CertItem, Stage)>, CertRefusal>
    requires reading { IsReading pieces.old next.now.stage next.now.number }
    requires routes { AreRoutesOf (parts_of day.s.now) day.routes.now }
    ensures item { IfOk result (λ found. IfSome found (λ it. IsItemTaken (parts_of day.entry.s.now)
        (F.seen files.old).held pieces.old pieces.new next.now.stage it.0 it.1)) }
    ensures end { IfOk result (λ found. IfNone found ((next.now.stage ≡ stages.Ended)
        × IsAtEnd pieces.new × AreTaken (F.seen files.old).held pieces.old pieces.new [])) }
    ensures bounded { OnOk result (AreBounded pieces.old pieces.new) }
    ensures refused { IfErr result
        (IsRefused (parts_of day.entry.s.now) (F.seen files.old).held pieces.old next.now.stage
        next.now.number) }
    ensures ended { IsAtEnd pieces.old → next.now.stage ≡ stages.Ended
        → (result ≡ Ok None) × (pieces.new ≡ pieces.old) }
    ensures failed { IsErrOf result refusal.Read → HasName (F.seen files.old).held pieces.old.name
        → Rose (F.seen files.old).faults (F.seen files.new).faults }
    ensures unfailed { (IsErrOf result refusal.Read → ⊥)
        → (F.seen files.new).faults ≡ (F.seen files.old).faults }
    ensures kept { AreKept (F.seen files.old) (F.seen files.new) }
{
    if is_ended(&next.stage) && pieces.is_at_end() {
        return Ok(None);
    }
    let end = take_line(files, pieces, line)?;
    item_of_line(alloc, day, next, line, end)
}

impl From<TakeError> for CertRefusal {
    ghost from_gives = { λ error e. e ≡ refusal_of_take error };

    fn from(error: TakeError) -> Self {
        match error {
            TakeError::Read => CertRefusal::Read,
            TakeError::OutOfMemory => CertRefusal::OutOfMemory,
        }
    }
}

fn refusal_of(number: u32, error: LineError) -> CertRefusal
    ensures { result ≡ refusal_of number error }
{
    match error {
        LineError::Fault(LineFault { field, cause }) => CertRefusal::Text(TextFault {
            line: number,
            field,
            cause,
        }),
        LineError::OutOfMemory => CertRefusal::OutOfMemory,
    }
}

// What a line tells that was taken so far, and what may stand after it; nothing where the text has
// ended as it may.
fn item_of_line(
    alloc: Global,
    day: RoutedDay<'_>,
    next: &NextLine,
    line: &[u8],
    end: LineEnd,
) -> Result<Option<(CertItem, Stage)>, CertRefusal>
    requires small { IsSmall next.now.stage }
    requires routes { AreRoutesOf (parts_of day.s.now) day.routes.now }
    ensures { Tells next.now.number result
        (told_by (parts_of day.entry.s.now) next.now.stage line.now end) }
{
    match end {
        LineEnd::Feed => match line_step(alloc, day.s, day.routes, &next.stage, line) {
            Ok(found) => Ok(Some(found)),
            Err(error) => Err(refusal_of(next.number, error)),
        },
        LineEnd::Text => match last_fault(&next.stage, line) {
            None => Ok(None),
            Some(fault) => Err(refusal_of(next.number, LineError::Fault(fault))),
        },
        LineEnd::Long => {
            let fault = LineError::Fault(long_fault(&next.stage));
            Err(refusal_of(next.number, fault))
        }
    }
}

/// Reads the text of a certificate line by line. Of the text it keeps one piece, one line and the
/// last cut.
/// Contracts see where it is in the text, what may stand next, and the refusal that it keeps.
pub struct CertReader {
    alloc: Global,
    pieces: Pieces,
    line: Vec<u8>,
    next: NextLine,
    kept: Option<CertRefusal>,
}

impl Drop for CertReader {
    fn drop(self) {
        let CertReader {
            alloc: _,
            pieces: _,
            line: _,
            next: _,
            kept: _,
        } = self;
    }
}

impl Model for CertReader {
    ghost use Rattle.std.specs.Prelude.{IfNone};
    ghost use Rattle.certificate.specs.Readers.{IsReading, ReaderSeen};

    ghost Value = { ReaderSeen };

    ghost view = { λ r. record {
      pieces = r.pieces;
      stage = r.next.stage;
      number = r.next.number;
      kept = r.kept;
    } };

    ghost invariant = { λ r. IfNone r.kept (IsReading r.pieces r.next.stage r.next.number) };
}

impl CertReader {
    ghost use Rattle.std.specs.Prelude.{◌≡◌, ◌+◌, ◌<◌, ◌≤◌, Err, IfErr, IfNone, IfOk, IfSome, IsErrOf, None, Ok, OnOk, Some, [], length};
    ghost use Rattle.cut_rows.specs.Routes.{AreRoutesOf};
    ghost use Rattle.flow_outside.specs.Counts.{Rose};
    ghost use Rattle.flow_outside.specs.Held.{HasName, IfTold};
    ghost use Rattle.flow_outside.specs.Loads.{IfTooLong, OnRead, UnlessRead};
    ghost use Rattle.flow_outside.specs.Seen.{AreKept};
    ghost use Rattle.flow_types.specs.Scenario.{parts_of};
    ghost use Rattle.certificate.specs.Limits.{most_cert_bytes};
    ghost use Rattle.certificate.specs.Readers.{AreBounded, AreTaken, IsFinished, IsItemRead, IsRefused};
    ghost use Rattle.certificate.specs.declared.fault.CertRefusal.TheVariants as refusal;
    ghost use Rattle.certificate.specs.declared.stage.Stage.TheVariants as stages;

    /// A reader of what the name holds, at its first line. It asks for the size and reads nothing
    /// yet. `Read` and `TooLong` come as for `flow_outside::load`, with a limit of 1 GiB. It takes
    /// memory for the name and a piece.
    pub fn new<F: Files>(alloc: Global, files: &mut F, name: &str) -> Result<CertReader, LoadFault>
        ensures name { IfOk result (λ reader. reader.pieces.name ≡ name.now) }
        ensures begin { IfOk result (λ reader. (reader.pieces.offset ≡ 0)
            × (reader.pieces.ahead ≡ []) × (reader.stage ≡ stages.Head) × (reader.number ≡ 1)
            × (reader.kept ≡ None)) }
        ensures size { IfOk result (λ reader. IfTold (F.seen files.old).held name.now
            (λ bytes. length bytes ≡ reader.pieces.size)) }
        ensures within { IfOk result (λ reader. reader.pieces.size ≤ most_cert_bytes) }
        ensures above { IfTooLong result (λ n. most_cert_bytes < n) }
        ensures told { IfTooLong result (λ n.
            IfTold (F.seen files.old).held name.now (λ bytes. n ≡ length bytes)) }
        ensures present { UnlessRead result (HasName (F.seen files.old).held name.now) }
        ensures read { OnRead result
            (HasName (F.seen files.old).held name.now
            → Rose (F.seen files.old).faults (F.seen files.new).faults) }
        ensures unfailed { UnlessRead result
            ((F.seen files.new).faults ≡ (F.seen files.old).faults) }
        ensures kept { AreKept (F.seen files.old) (F.seen files.new) }
    {
        let pieces = Pieces::new(alloc, files, name, MOST_CERT_BYTES)?;
        Ok(CertReader {
            alloc,
            pieces,
            line: Vec::new(alloc),
            next: NextLine {
                stage: Stage::Head,
                number: 1,
            },
            kept: None,
        })
    }

    /// The number of the line that comes next, from 1.
    pub fn line(&self) -> u32
        ensures number { result ≡ self.now.number }
        ensures few { IfNone self.now.kept (result ≤ most_cert_bytes + 1) }
    {
        self.next.number
    }

    /// What the next line of the text tells, of a certificate for the scenario, whose routes are
    /// lent for its cuts; nothing after the last line. A refusal is kept and answered again, and
    /// after the end each call answers that. What is said of the text holds where the files tell
    /// what the name holds, and that is what it was when the reader was made. It takes memory for
    /// the longest line so far, for the stops of a trip, and twice for the nodes of a cut.
    pub fn next<F: Files>(
        &mut self,
        files: &mut F,
        s: &Scenario,
        routes: &Routes,
    ) -> Result<Option<CertItem>, CertRefusal>
        requires routes { AreRoutesOf (parts_of s.now) routes.now }
        ensures item { IfOk result (λ found. IfSome found (λ item.
            IsItemRead (parts_of s.now) (F.seen files.old).held self.old item self.new)) }
        ensures end { IfOk result (λ found. IfNone found (IsFinished self.new
            × AreTaken (F.seen files.old).held self.old.pieces self.new.pieces []
            × (self.old.stage ≡ stages.Ended))) }
        ensures refused { IfErr result (λ it. IfNone self.old.kept (IsRefused (parts_of s.now)
            (F.seen files.old).held self.old.pieces self.old.stage self.old.number it)) }
        // A refusal is kept, and answered again.
        ensures keeps { IfErr result (λ it. self.new.kept ≡ Some it) }
        ensures goes_on { OnOk result (self.new.kept ≡ None) }
        ensures again { IfSome self.old.kept (λ it. (result ≡ Err it) × (self.new ≡ self.old)
            × (F.seen files.new ≡ F.seen files.old)) }
        ensures ended { IsFinished self.old → (result ≡ Ok None) × (self.new ≡ self.old) }
        ensures bounded { OnOk result (AreBounded self.old.pieces self.new.pieces) }
        ensures failed { IfNone self.old.kept (IsErrOf result refusal.Read
            → HasName (F.seen files.old).held self.old.pieces.name
            → Rose (F.seen files.old).faults (F.seen files.new).faults) }
        ensures unfailed { (IsErrOf result refusal.Read → ⊥)
            → (F.seen files.new).faults ≡ (F.seen files.old).faults }
        ensures kept { AreKept (F.seen files.old) (F.seen files.new) }
    {
        if let Some(refusal) = self.kept {
            return Err(refusal);
        }
        match next_item(
            self.alloc,
            files,
            RoutedDay { s, routes },
            &mut self.pieces,
            &mut self.line,
            &self.next,
        ) {
            Ok(None) => Ok(None),
            Ok(Some((item, stage))) => {
                self.next.stage = stage;
                self.next.number += 1;
                Ok(Some(item))
            }
            Err(refusal) => {
                self.kept = Some(refusal);
                Err(refusal)
            }
        }
    }
}
