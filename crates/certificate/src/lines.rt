//! The lines of a text that is read in pieces.
ghost use Rattle.std.specs.Prelude.{◌≡◌, ◌≤◌, IfOk, IsErrOf, OnOk, length};
ghost use Rattle.flow_outside.specs.Counts.{Rose};
ghost use Rattle.flow_outside.specs.Held.{HasName};
ghost use Rattle.flow_outside.specs.Seen.{AreKept};
ghost use Rattle.certificate.specs.Readers.{AreBounded, IsLineTaken, IsPartTaken};
ghost use Rattle.certificate.specs.declared.lines.TakeError.TheVariants as error;
ghost use Rattle.certificate.specs.Limits.{most_line_bytes};

use crate::limits::MOST_LINE_BYTES;
use crate::pieces::Pieces;
use flow_outside::{Failed, Files};
use flow_types::OutOfMemory;

/// How a line ends.
#[derive(Clone, Copy, Debug, PartialEq, Eq)]
pub enum LineEnd {
    /// By a line feed.
    Feed,
    /// By the end of the text.
    Text,
    /// By neither: the line has more bytes than a line may have, and goes on.
    Long,
}

/// Why no line was taken.
#[derive(Clone, Copy, Debug, PartialEq, Eq)]
pub enum TakeError {
    Read,
    OutOfMemory,
}

impl From<OutOfMemory> for TakeError {
    ghost from_gives = { λ _ e. e ≡ error.OutOfMemory };

    fn from(_: OutOfMemory) -> Self {
        TakeError::OutOfMemory
    }
}

impl From<Failed> for TakeError {
    ghost from_gives = { λ _ e. e ≡ error.Read };

    fn from(_: Failed) -> Self {
        TakeError::Read
    }
}

// Takes what is read already of the line: to its end, or all of it.
fn take_part(pieces: &mut Pieces, line: &mut Vec<u8>) -> Result<Option<LineEnd>, OutOfMemory>
    requires { length line.old.items ≤ most_line_bytes }
    ensures { IfOk result
        (λ end. IsPartTaken pieces.old pieces.new line.old.items line.new.items end) }
{
    let ahead = pieces.ahead();
    let part = &ahead[..ahead.len().min(MOST_LINE_BYTES + 1 - line.len())];
    match part.iter().position(|byte| *byte == b'\n') {
        Some(feed) => {
            line.extend_from_slice(&part[..feed])?;
            pieces.take(feed + 1);
            Ok(Some(LineEnd::Feed))
        }
        None => {
            line.extend_from_slice(part)?;
            let count = part.len();
            pieces.take(count);
            if line.len() > MOST_LINE_BYTES {
                Ok(Some(LineEnd::Long))
            } else {
                Ok(None)
            }
        }
    }
}

/// Takes the next line, and puts it without its line feed in place of what was there. Of a line
/// that is too long it takes no more than shows that.
pub fn take_line<F: Files>(
    files: &mut F,
    pieces: &mut Pieces,
    line: &mut Vec<u8>,
) -> Result<LineEnd, TakeError>
    ensures taken { IfOk result (λ end.
        IsLineTaken (F.seen files.old).held pieces.old pieces.new line.new.items end) }
    ensures bounded { pieces.old.offset ≤ pieces.old.size
        → OnOk result (AreBounded pieces.old pieces.new) }
    ensures failed { IsErrOf result error.Read →
        HasName (F.seen files.old).held pieces.old.name
        → Rose (F.seen files.old).faults (F.seen files.new).faults }
    ensures unfailed { (IsErrOf result error.Read → ⊥)
        → (F.seen files.new).faults ≡ (F.seen files.old).faults }
    ensures kept { AreKept (F.seen files.old) (F.seen files.new) }
{
    line.clear();
    loop {
        if let Some(end) = take_part(pieces, line)? {
            return Ok(end);
        }
        if !pieces.more(files)? {
            return Ok(LineEnd::Text);
        }
    }
}
