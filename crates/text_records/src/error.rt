//! Why a field, a record or a whole text isn't taken.
ghost use Rattle.std.specs.Prelude.{◌≡◌};
ghost use Rattle.text_records.specs.declared.error.RecordError.TheVariants as error;
ghost use Rattle.text_records.specs.declared.error.Refusal.TheVariants as refusal;
ghost use Rattle.text_records.specs.Errors.{refusal_of};

use flow_types::{Cause, Fault, OutOfMemory};
use std::alloc::{AllocError, AllocFailed};

/// What is wrong with a field of a record.
#[derive(Clone, Copy, Debug, PartialEq, Eq)]
pub struct FieldFault {
    /// The number of the field, from 1.
    pub field: usize,
    pub cause: Cause,
}

/// Why a record isn't taken in.
#[derive(Clone, Copy, Debug, PartialEq, Eq)]
pub enum RecordError {
    Field(FieldFault),
    OutOfMemory,
}

impl From<FieldFault> for RecordError {
    ghost from_gives = { λ fault e. e ≡ error.Field fault };

    fn from(fault: FieldFault) -> Self {
        RecordError::Field(fault)
    }
}

impl From<OutOfMemory> for RecordError {
    ghost from_gives = { λ _ e. e ≡ error.OutOfMemory };

    fn from(_: OutOfMemory) -> Self {
        RecordError::OutOfMemory
    }
}

impl From<AllocError> for RecordError {
    ghost from_gives = { λ _ e. e ≡ error.OutOfMemory };

    fn from(_: AllocError) -> Self {
        RecordError::OutOfMemory
    }
}

impl<T: Drop> From<AllocFailed<T>> for RecordError {
    ghost from_gives = { λ _ e. e ≡ error.OutOfMemory };

    fn from(_: AllocFailed<T>) -> Self {
        RecordError::OutOfMemory
    }
}

/// Why a text isn't read.
#[derive(Clone, Copy, Debug, PartialEq, Eq)]
pub enum Refusal {
    /// The text has this fault, and none before it.
    Text(Fault),
    OutOfMemory,
}

impl From<Fault> for Refusal {
    ghost from_gives = { λ fault e. e ≡ refusal.Text fault };

    fn from(fault: Fault) -> Self {
        Refusal::Text(fault)
    }
}

impl From<OutOfMemory> for Refusal {
    ghost from_gives = { λ _ e. e ≡ refusal.OutOfMemory };

    fn from(_: OutOfMemory) -> Self {
        Refusal::OutOfMemory
    }
}

/// Why a text isn't read whose record of this number, from 1, isn't taken in.
pub fn refusal_of(number: u32, error: RecordError) -> Refusal
    ensures { result ≡ refusal_of number error }
{
    match error {
        RecordError::Field(FieldFault { field, cause }) => Refusal::Text(Fault {
            at: number,
            field,
            cause,
        }),
        RecordError::OutOfMemory => Refusal::OutOfMemory,
    }
}
