//! The fields of a line, one after the other.
ghost use Rattle.std.specs.Prelude.{◌≡◌, ◌∷◌, ◌≤◌, ◌<◌, ◌^◌, IfOk, IfSome, length, unsigned_abs};
ghost use Rattle.std.specs.Option.{option_copied};
ghost use Rattle.certificate.specs.Fields.{end_or_bad, fields_in, fields_of, is_nil, whole_or_none, within, within_either};
ghost use Rattle.certificate.specs.Found.{Finds};
ghost use Rattle.certificate.specs.Limits.{most_line_bytes};

use crate::fault::{LineFault, bad};
use crate::numbers::{natural_of, whole_of};
use std::marker::Model;

/// What is left of a line, whose fields are divided by commas. Contracts see the fields, and the
/// number of the first of them. After a fault nothing is said of what is left.
#[derive(Drop)]
pub struct LineFields<'a> {
    number: usize,
    // Nothing after the last field.
    rest: Option<&'a [u8]>,
}

impl<'a> Model for LineFields<'a> {
    ghost use Rattle.std.specs.Prelude.{◌+◌, ◌<◌, ◌^◌, length};
    ghost use Rattle.std.specs.Option.{option_copied};
    ghost use Rattle.certificate.specs.Fields.{FieldsLeft, fields_in};

    ghost Value = { FieldsLeft };

    ghost view = { λ f. record {
      number = f.number;
      fields = fields_in (option_copied f.rest);
    } };

    ghost invariant = { λ f. f.number + length (fields_in (option_copied f.rest)) < 2 ^ 32 };
}

impl<'a> LineFields<'a> {
    ghost use Rattle.std.specs.Prelude.{◌≡◌, ◌≤◌, ◌^◌, IfOk, IfSome, length, unsigned_abs};
    ghost use Rattle.certificate.specs.Fields.{end_of_line, field_from, fields_of, has_more, is_nil, number_from, whole_from};
    ghost use Rattle.certificate.specs.Found.{Finds};
    ghost use Rattle.certificate.specs.Limits.{most_line_bytes};

    /// All fields of the line.
    pub fn of_line(line: &'a [u8]) -> LineFields<'a>
        requires { length line.now ≤ most_line_bytes }
        ensures number { result.number ≡ 1 }
        ensures fields { result.fields ≡ fields_of line.now }
    {
        LineFields {
            number: 1,
            rest: Some(line),
        }
    }

    /// The number of the next field.
    pub fn next_number(&self) -> usize
        ensures { result ≡ self.now.number }
    {
        self.number
    }

    /// Whether no field is left.
    pub fn is_empty(&self) -> bool
        ensures { result ≡ is_nil self.now.fields }
    {
        is_nil(self.rest)
    }

    /// Whether a field is left, if there may be so many more.
    pub fn has_more(&self, most: usize) -> bool
        ensures { result ≡ has_more most self.now }
    {
        most > 0 && !self.is_empty()
    }

    /// The next field.
    pub fn field(&mut self) -> Result<&'a [u8], LineFault>
        ensures { Finds (λ field. (field.now, self.new)) result (field_from self.old) }
    {
        let bytes = self.rest.ok_or(bad(self.number))?;
        let (field, rest) = split_field(bytes);
        self.number += 1;
        self.rest = rest;
        Ok(field)
    }

    /// The number in the next field, from `low` to `high`.
    #[tactic(auto, unfolding(crate::specs::Fields::number_from))]
    pub fn number(&mut self, low: u64, high: u64) -> Result<u64, LineFault>
        ensures found { Finds (λ n. (n, self.new)) result (number_from low high self.old) }
        ensures within { IfOk result (λ n. n ≤ high) }
    {
        let number = self.next_number();
        let field = self.field()?;
        within(number, low, high, natural_of(field))
    }

    /// The number in the next field, no further from 0 than `most`, or `none`.
    #[tactic(auto, unfolding(crate::specs::Fields::whole_from))]
    pub fn whole(&mut self, most: u128) -> Result<Option<i128>, LineFault>
        ensures found { Finds (λ z. (z, self.new)) result (whole_from most self.old) }
        ensures within { IfOk result (λ z. IfSome z (λ z. unsigned_abs z ≤ most)) }
    {
        let number = self.next_number();
        let field = self.field()?;
        whole_or_none(number, most, field)
    }

    /// That no field is left.
    pub fn end(&self) -> Result<(), LineFault>
        ensures { Finds (λ done. done) result (end_of_line self.now) }
    {
        end_or_bad(self.number, self.rest)
    }
}

// Whether nothing is left.
fn is_nil(rest: Option<&[u8]>) -> bool
    ensures { result ≡ is_nil (fields_in (option_copied rest.entry)) }
{
    match rest {
        None => true,
        Some(_) => false,
    }
}

// That nothing is left.
fn end_or_bad(number: usize, rest: Option<&[u8]>) -> Result<(), LineFault>
    ensures { Finds (λ done. done) result
        (end_or_bad number (fields_in (option_copied rest.entry))) }
{
    match rest {
        None => Ok(()),
        Some(_) => Err(bad(number)),
    }
}

// The bytes up to the first comma, and those after it, if there is one.
fn split_field(bytes: &[u8]) -> (&[u8], Option<&[u8]>)
    ensures { fields_of bytes.now ≡ result.0.now ∷ fields_in (option_copied result.1) }
{
    match bytes.iter().position(|byte| *byte == b',') {
        None => (bytes, None),
        Some(comma) => (&bytes[..comma], Some(&bytes[comma + 1..])),
    }
}

// A number that has to be there, from `low` to `high`.
fn within(field: usize, low: u64, high: u64, number: Option<u128>) -> Result<u64, LineFault>
    ensures found { Finds (λ n. n) result (within field low high number) }
    ensures within { IfOk result (λ n. n ≤ high) }
{
    match number {
        Some(n) if u128::from(low) <= n && n <= u128::from(high) => Ok(n as u64),
        _ => Err(bad(field)),
    }
}

// A number that has to be there, no further from 0 than `most`.
fn within_either(field: usize, most: u128, number: Option<i128>) -> Result<i128, LineFault>
    ensures found { Finds (λ z. z) result (within_either field most number) }
    ensures within { IfOk result (λ z. unsigned_abs z ≤ most) }
{
    match number {
        Some(z) if z.unsigned_abs() <= most => Ok(z),
        _ => Err(bad(field)),
    }
}

// `none`, or such a number.
fn whole_or_none(field: usize, most: u128, word: &[u8]) -> Result<Option<i128>, LineFault>
    ensures found { Finds (λ z. z) result (whole_or_none field most word.now) }
    ensures within { IfOk result (λ z. IfSome z (λ z. unsigned_abs z ≤ most)) }
{
    if word == b"none".as_slice() {
        return Ok(None);
    }
    Ok(Some(within_either(field, most, whole_of(word))?))
}
