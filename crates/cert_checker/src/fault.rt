//! Why a certificate is refused.
ghost use Rattle.std.specs.Prelude.{◌≡◌};
ghost use Rattle.cert_checker.specs.declared.fault.StepError.TheVariants as error;
ghost use Rattle.cert_checker.specs.Steps.{bad_kind};

use certificate::{Digest, TextCause};
use flow_types::{Bound, OutOfMemory, Plan};
use plan_rules::Broken;

/// What is wrong with a certificate.
#[derive(Debug, Drop)]
pub enum CertCause {
    /// What is wrong with the text, whatever it is of.
    Text(TextCause),
    /// It is of another day.
    OtherScenario { stated: Digest, real: Digest },
    /// The box is empty, or has no such flight or node, or that node can't be split there.
    BadSplit,
    /// No node of the box that must be entered is closed.
    NotEmpty,
    /// A node that must be entered is closed, or one hasn't exactly one choice.
    NotUnit,
    /// A node of the box that must be entered is closed.
    Closed,
    /// There is no such row; or it may have no price, in a leaf of prices.
    UnknownRow,
    /// The weight is 0 and the value this, which isn't above 0.
    Useless { value: i128 },
    /// The plan breaks this rule.
    BrokenPlan { plan: Plan, broken: Broken },
    /// The plan doesn't cost what is stated.
    OtherCost { stated: i64, real: i64 },
    /// The plan isn't in the first box: its flight enters the node outside its window, or not at
    /// all and must.
    OutsideRoot { flight: u32, node: u16 },
    /// The least of the leaves' bounds isn't what is stated.
    OtherBound { stated: Bound, real: Bound },
    /// The tree hasn't as many nodes as is stated.
    OtherCount { stated: u64, real: u64 },
}

/// The first fault of a certificate: the number of a line, from 1, of a field of it, and why.
#[derive(Debug, Drop)]
pub struct CertFault {
    pub line: u32,
    pub field: usize,
    pub cause: CertCause,
}

/// Why there is no claim.
#[derive(Debug, Drop)]
pub enum CheckFault {
    /// The certificate has this fault, and none before it.
    Refused(CertFault),
    /// A read failed, or the name isn't there.
    Read,
    /// The text is longer than a certificate may be. It has so many bytes.
    TooLong(u64),
    OutOfMemory,
}

/// What is wrong with a line, in a field of it.
#[derive(Debug, Drop)]
pub struct StepFault {
    pub field: usize,
    pub cause: CertCause,
}

/// Why a check doesn't go on after a line.
#[derive(Debug, Drop)]
pub enum StepError {
    Fault(StepFault),
    OutOfMemory,
}

impl From<OutOfMemory> for StepError {
    ghost from_gives = { λ _ e. e ≡ error.OutOfMemory };

    fn from(_: OutOfMemory) -> Self {
        StepError::OutOfMemory
    }
}

/// The cause, in this field.
pub fn in_field(field: usize, cause: CertCause) -> StepFault
    ensures { result ≡ record { field = field; cause = cause } }
{
    StepFault { field, cause }
}

/// The line can't stand there.
pub fn bad_kind() -> StepFault
    ensures { result ≡ bad_kind }
{
    in_field(1, CertCause::Text(TextCause::BadKind))
}
