//! What is printed of a certificate that is refused.
ghost use Rattle.std.specs.Prelude.{◌≡◌, ◌++◌, IfOk, OnOk};
ghost use Rattle.std.specs.Fmt.{decimal, signed_decimal};
ghost use Rattle.hex.specs.Hex.{encode_lower};
ghost use Rattle.flow_types.specs.Scenario.{parts_of};
ghost use Rattle.text_records.specs.Lines.{field_text};
ghost use Rattle.delay_report.specs.Refusals.{cause_values, cause_word, refused_text, text_cause_word, two_fields};
ghost use Rattle.delay_report.specs.Texts.{bound_word};

use crate::verdicts::put_broken;
use cert_checker::{CertCause, CertFault};
use certificate::{Digest, TextCause};
use flow_types::{Bound, OutOfMemory, Scenario};
use std::alloc::Global;
use text_records::{put, put_field, put_number};

/// The line of the first fault of a certificate: the number of its line, that of the field, the
/// cause, and its values: digests as 64 digits, and of a plan that is broken what `broken_line`
/// says. It takes memory for the line.
pub fn refused_line(alloc: Global, s: &Scenario, fault: &CertFault) -> Result<Vec<u8>, OutOfMemory>
    ensures { IfOk result (λ line. line.items ≡ refused_text (parts_of s.now) fault.now) }
{
    let mut line = Vec::new(alloc);
    put(&mut line, b"refused")?;
    put_number(alloc, &mut line, u64::from(fault.line))?;
    put_number(alloc, &mut line, fault.field as u64)?;
    put_field(&mut line, cause_word(&fault.cause))?;
    put_values(alloc, &mut line, s, &fault.cause)?;
    put(&mut line, b"\n")?;
    Ok(line)
}

fn text_cause_word(cause: TextCause) -> &'static [u8]
    ensures { result.now ≡ text_cause_word cause }
{
    match cause {
        TextCause::Missing => b"Missing",
        TextCause::LongLine => b"LongLine",
        TextCause::BadKind => b"BadKind",
        TextCause::BadField => b"BadField",
        TextCause::Order => b"Order",
        TextCause::BadCut => b"BadCut",
        TextCause::AfterEnd => b"AfterEnd",
    }
}

// The name of the cause.
fn cause_word(cause: &CertCause) -> &'static [u8]
    ensures { result.now ≡ cause_word cause.now }
{
    match cause {
        CertCause::Text(cause) => text_cause_word(*cause),
        CertCause::OtherScenario { .. } => b"OtherScenario",
        CertCause::BadSplit => b"BadSplit",
        CertCause::NotEmpty => b"NotEmpty",
        CertCause::NotUnit => b"NotUnit",
        CertCause::Closed => b"Closed",
        CertCause::UnknownRow => b"UnknownRow",
        CertCause::Useless { .. } => b"Useless",
        CertCause::BrokenPlan { .. } => b"BrokenPlan",
        CertCause::OtherCost { .. } => b"OtherCost",
        CertCause::OutsideRoot { .. } => b"OutsideRoot",
        CertCause::OtherBound { .. } => b"OtherBound",
        CertCause::OtherCount { .. } => b"OtherCount",
    }
}

// Adds the values of the cause.
fn put_values(
    alloc: Global,
    out: &mut Vec<u8>,
    s: &Scenario,
    cause: &CertCause,
) -> Result<(), OutOfMemory>
    ensures { OnOk result
        (out.new.items ≡ out.old.items ++ cause_values (parts_of s.now) cause.now) }
{
    match cause {
        CertCause::OtherScenario { stated, real } => put_digests(out, stated, real),
        CertCause::Useless { value } => put_signed(alloc, out, *value),
        CertCause::BrokenPlan { plan, broken } => put_broken(alloc, out, s, plan, *broken),
        CertCause::OtherCost { stated, real } => put_costs(alloc, out, *stated, *real),
        CertCause::OutsideRoot { flight, node } => put_node(alloc, out, *flight, *node),
        CertCause::OtherBound { stated, real } => put_bounds(alloc, out, *stated, *real),
        CertCause::OtherCount { stated, real } => put_counts(alloc, out, *stated, *real),
        CertCause::Text(_)
        | CertCause::BadSplit
        | CertCause::NotEmpty
        | CertCause::NotUnit
        | CertCause::Closed
        | CertCause::UnknownRow => Ok(()),
    }
}

// Adds two fields that are digests.
fn put_digests(out: &mut Vec<u8>, stated: &Digest, real: &Digest) -> Result<(), OutOfMemory>
    ensures { OnOk result (out.new.items
        ≡ out.old.items ++ two_fields (encode_lower stated.now) (encode_lower real.now)) }
{
    put_field(out, &stated.digits())?;
    put_field(out, &real.digits())
}

// Adds two fields that are costs.
fn put_costs(alloc: Global, out: &mut Vec<u8>, stated: i64, real: i64) -> Result<(), OutOfMemory>
    ensures { OnOk result (out.new.items
        ≡ out.old.items ++ two_fields (signed_decimal stated) (signed_decimal real)) }
{
    put_signed(alloc, out, i128::from(stated))?;
    put_signed(alloc, out, i128::from(real))
}

// Adds a flight and a node of it, by their numbers.
fn put_node(alloc: Global, out: &mut Vec<u8>, flight: u32, node: u16) -> Result<(), OutOfMemory>
    ensures { OnOk result (out.new.items
        ≡ out.old.items ++ two_fields (decimal flight) (decimal node)) }
{
    put_number(alloc, out, u64::from(flight))?;
    put_number(alloc, out, u64::from(node))
}

// Adds two fields that are bounds.
fn put_bounds(
    alloc: Global,
    out: &mut Vec<u8>,
    stated: Bound,
    real: Bound,
) -> Result<(), OutOfMemory>
    ensures { OnOk result (out.new.items
        ≡ out.old.items ++ two_fields (bound_word stated) (bound_word real)) }
{
    put_bound(alloc, out, stated)?;
    put_bound(alloc, out, real)
}

// Adds two fields that are counts.
fn put_counts(alloc: Global, out: &mut Vec<u8>, stated: u64, real: u64) -> Result<(), OutOfMemory>
    ensures { OnOk result (out.new.items
        ≡ out.old.items ++ two_fields (decimal stated) (decimal real)) }
{
    put_number(alloc, out, stated)?;
    put_number(alloc, out, real)
}

// Adds a field that is a number, below 0 or not.
fn put_signed(alloc: Global, out: &mut Vec<u8>, number: i128) -> Result<(), OutOfMemory>
    ensures { OnOk result (out.new.items ≡ out.old.items ++ field_text (signed_decimal number)) }
{
    put_field(out, number.to_string(alloc)?.as_bytes())
}

// Adds a field that is a bound.
fn put_bound(alloc: Global, out: &mut Vec<u8>, bound: Bound) -> Result<(), OutOfMemory>
    ensures { OnOk result (out.new.items ≡ out.old.items ++ field_text (bound_word bound)) }
{
    match bound {
        Bound::NoPlan => put_field(out, b"none"),
        Bound::AtLeast(least) => put_signed(alloc, out, least),
    }
}
