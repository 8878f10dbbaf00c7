//! What is printed of a text that is refused.
ghost use Rattle.std.specs.Prelude.{◌≡◌, IfOk};
ghost use Rattle.flow_cli.specs.Faults.{cause_word, fault_text, too_long_text};

use flow_types::{Cause, Fault, OutOfMemory};
use std::alloc::Global;
use text_records::{put, put_field, put_line, put_number};

// The name of the cause.
fn cause_word(cause: Cause) -> &'static [u8]
    ensures { result.now ≡ cause_word cause }
{
    match cause {
        Cause::NoDay => b"NoDay",
        Cause::UnknownKind => b"UnknownKind",
        Cause::MissingField => b"MissingField",
        Cause::ExtraField => b"ExtraField",
        Cause::BadName => b"BadName",
        Cause::BadNumber => b"BadNumber",
        Cause::BadDate => b"BadDate",
        Cause::Repeated => b"Repeated",
        Cause::UnknownName => b"UnknownName",
        Cause::OutOfRange => b"OutOfRange",
        Cause::BackInTime => b"BackInTime",
        Cause::Unreached => b"Unreached",
        Cause::BackLeg => b"BackLeg",
        Cause::Apart => b"Apart",
        Cause::Limit => b"Limit",
        Cause::ShortTable => b"ShortTable",
        Cause::NoRoute => b"NoRoute",
        Cause::DeadEnd => b"DeadEnd",
    }
}

/// The line of a fault: the number of the record, that of the field, and the cause.
pub fn fault_line(alloc: Global, fault: Fault) -> Result<Vec<u8>, OutOfMemory>
    ensures { IfOk result (λ line. line.items ≡ fault_text fault) }
{
    let mut line = Vec::new(alloc);
    put(&mut line, b"refused")?;
    put_number(alloc, &mut line, u64::from(fault.at))?;
    put_number(alloc, &mut line, fault.field as u64)?;
    put_field(&mut line, cause_word(fault.cause))?;
    put(&mut line, b"\n")?;
    Ok(line)
}

/// The line of a text of too many bytes.
pub fn too_long_line(alloc: Global, size: u64) -> Result<Vec<u8>, OutOfMemory>
    ensures { IfOk result (λ line. line.items ≡ too_long_text size) }
{
    let mut line = Vec::new(alloc);
    put_line(
        &mut line,
        b"refused,toolong,",
        size.to_string(alloc)?.as_bytes(),
    )?;
    Ok(line)
}
