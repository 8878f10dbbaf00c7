//! Fields by their numbers, and what they have to be.
ghost use Rattle.std.specs.Prelude.{◌≤◌, IfOk, IsTrue};
ghost use Rattle.csv.specs.Records.{fields_of};
ghost use Rattle.flow_types.specs.Words.{is_name};
ghost use Rattle.text_records.specs.Fields.{ends_after, field_in, name_in, number_in};
ghost use Rattle.text_records.specs.Errors.{Finds};

use crate::error::FieldFault;
use csv::ByteRecord;
use flow_types::{Cause, is_name, parse_number};

/// The field of this number, from 1.
#[tactic(auto, using(crate::proofs::FieldFacts::field_at_is))]
pub fn field_in(row: &ByteRecord, number: usize) -> Result<&[u8], FieldFault>
    requires { 1 ≤ number }
    ensures { Finds (λ bytes. bytes.now) result (field_in (fields_of row.now) number) }
{
    match row.get(number - 1) {
        Some(bytes) => Ok(bytes),
        None => Err(FieldFault {
            field: number,
            cause: Cause::MissingField,
        }),
    }
}

/// Whether the record has no field past this one.
pub fn ends_after(row: &ByteRecord, last: usize) -> Result<(), FieldFault>
    ensures { Finds (λ unit. unit) result (ends_after (fields_of row.now) last) }
{
    if row.len() > last {
        return Err(FieldFault {
            field: last + 1,
            cause: Cause::ExtraField,
        });
    }
    Ok(())
}

/// The field of this number, from 1, which has to be a name.
#[tactic(auto, unfolding(crate::specs::Fields::name_in))]
pub fn name_in(row: &ByteRecord, number: usize) -> Result<&[u8], FieldFault>
    requires { 1 ≤ number }
    ensures found { Finds (λ bytes. bytes.now) result (name_in (fields_of row.now) number) }
    ensures named { IfOk result (λ bytes. IsTrue (is_name bytes.now)) }
{
    let bytes = field_in(row, number)?;
    if !is_name(bytes) {
        return Err(FieldFault {
            field: number,
            cause: Cause::BadName,
        });
    }
    Ok(bytes)
}

/// The number in the field of this number, from 1, which has to be within these limits.
#[tactic(auto, unfolding(crate::specs::Fields::number_in))]
pub fn number_in(row: &ByteRecord, number: usize, low: u64, high: u64) -> Result<u64, FieldFault>
    requires { 1 ≤ number }
    ensures found { Finds (λ value. value) result (number_in (fields_of row.now) number low high) }
    ensures low { IfOk result (λ value. low ≤ value) }
    ensures high { IfOk result (λ value. value ≤ high) }
{
    let bytes = field_in(row, number)?;
    let Some(value) = parse_number(bytes) else {
        return Err(FieldFault {
            field: number,
            cause: Cause::BadNumber,
        });
    };
    if value < low || value > high {
        return Err(FieldFault {
            field: number,
            cause: Cause::OutOfRange,
        });
    }
    Ok(value)
}
