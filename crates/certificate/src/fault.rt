//! What is wrong with a text.
ghost use Rattle.std.specs.Prelude.{◌≡◌};
ghost use Rattle.certificate.specs.Fields.{bad};
ghost use Rattle.certificate.specs.declared.fault.LineError.TheVariants as error;

use flow_types::OutOfMemory;

/// Why a line of a text isn't one of a certificate.
#[derive(Clone, Copy, Debug, PartialEq, Eq)]
pub enum TextCause {
    /// The text ends before the line's line feed.
    Missing,
    /// The line has more bytes than a line may have.
    LongLine,
    /// The line's first field is no word that may stand here.
    BadKind,
    /// A field isn't there, is one too many, isn't of its form or out of its range; in a trip, a
    /// flight that isn't the next one, or a place where it has no node.
    BadField,
    /// A row of a leaf, or a cut, isn't above the one before it.
    Order,
    /// There is no such cut.
    BadCut,
    /// Something stands behind the last line.
    AfterEnd,
}

/// What is wrong with a line: the number of a field, from 1, and why.
#[derive(Clone, Copy, Debug, PartialEq, Eq)]
pub struct LineFault {
    pub field: usize,
    pub cause: TextCause,
}

/// Why a line wasn't read.
#[derive(Clone, Copy, Debug, PartialEq, Eq)]
pub enum LineError {
    Fault(LineFault),
    OutOfMemory,
}

impl From<LineFault> for LineError {
    ghost from_gives = { λ fault e. e ≡ error.Fault fault };

    fn from(fault: LineFault) -> Self {
        LineError::Fault(fault)
    }
}

impl From<OutOfMemory> for LineError {
    ghost from_gives = { λ _ e. e ≡ error.OutOfMemory };

    fn from(_: OutOfMemory) -> Self {
        LineError::OutOfMemory
    }
}

/// That the field of this number isn't what it has to be.
pub fn bad(field: usize) -> LineFault
    ensures { result ≡ bad field }
{
    LineFault {
        field,
        cause: TextCause::BadField,
    }
}

/// What is wrong with a text: the number of a line, from 1, of a field of it, and why.
#[derive(Clone, Copy, Debug, PartialEq, Eq)]
pub struct TextFault {
    pub line: u32,
    pub field: usize,
    pub cause: TextCause,
}

/// Why no item is read. A reader that has answered one answers it again.
#[derive(Clone, Copy, Debug, PartialEq, Eq)]
pub enum CertRefusal {
    /// The text has this fault, and none before it.
    Text(TextFault),
    /// A read failed, or the name isn't there.
    Read,
    OutOfMemory,
}
