//! What texts that are written are made of.
ghost use Rattle.std.specs.Prelude.{◌≡◌, ◌++◌, OnOk};
ghost use Rattle.std.specs.Fmt.{decimal};
ghost use Rattle.text_records.specs.Lines.{field_text, line_text};

use flow_types::OutOfMemory;
use std::alloc::Global;

/// Adds the bytes at the end of a text. After `OutOfMemory` nothing is said of the text. It takes
/// memory for the text, in blocks that grow by doubling.
pub fn put(text: &mut Vec<u8>, bytes: &[u8]) -> Result<(), OutOfMemory>
    ensures { OnOk result (text.new.items ≡ text.old.items ++ bytes.now) }
{
    text.extend_from_slice(bytes)?;
    Ok(())
}

/// Adds a line: what it says, and its word. As with `put`, nothing is said of the text after
/// `OutOfMemory`.
pub fn put_line(text: &mut Vec<u8>, label: &[u8], word: &[u8]) -> Result<(), OutOfMemory>
    ensures { OnOk result (text.new.items ≡ text.old.items ++ line_text label.now word.now) }
{
    put(text, label)?;
    put(text, word)?;
    put(text, b"\n")
}

/// Adds a field, which isn't the first of its line. As with `put`, nothing is said of the text
/// after `OutOfMemory`.
pub fn put_field(text: &mut Vec<u8>, word: &[u8]) -> Result<(), OutOfMemory>
    ensures { OnOk result (text.new.items ≡ text.old.items ++ field_text word.now) }
{
    put(text, b",")?;
    put(text, word)
}

/// Adds a field that is a number. As with `put`, nothing is said of the text after `OutOfMemory`.
/// It takes memory for the number's digits too.
pub fn put_number(alloc: Global, text: &mut Vec<u8>, number: u64) -> Result<(), OutOfMemory>
    ensures { OnOk result (text.new.items ≡ text.old.items ++ field_text (decimal number)) }
{
    put_field(text, number.to_string(alloc)?.as_bytes())
}
