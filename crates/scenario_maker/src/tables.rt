//! The records of tables.
ghost use Rattle.std.specs.Prelude.{◌≡◌, ◌++◌, OnOk, map};
ghost use Rattle.std.specs.Fmt.{signed_decimal};
ghost use Rattle.scenario_maker.specs.Writing.{more_text, row_text, rows_text, table_row};

use flow_types::{CostTable, OutOfMemory};
use std::alloc::Global;
use text_records::{put, put_field};

/// Adds the line of each table. As with `put`, nothing is said of the text after `OutOfMemory`.
pub fn put_tables(alloc: Global, out: &mut Vec<u8>, tables: &[CostTable]) -> Result<(), OutOfMemory>
    ensures { OnOk result
        (out.new.items ≡ out.old.items ++ rows_text (map table_row tables.now)) }
{
    for table in tables {
        put_table(alloc, out, table)?;
    }
    Ok(())
}

// Adds the line of a table.
fn put_table(alloc: Global, out: &mut Vec<u8>, table: &CostTable) -> Result<(), OutOfMemory>
    ensures { OnOk result (out.new.items ≡ out.old.items ++ row_text (table_row table.now)) }
{
    put(out, b"table")?;
    put_field(out, table.name.items())?;
    put_values(alloc, out, table.values.items())
}

// Adds a field for each value, and the end of the line.
fn put_values(alloc: Global, out: &mut Vec<u8>, values: &[i64]) -> Result<(), OutOfMemory>
    ensures { OnOk result
        (out.new.items ≡ out.old.items ++ more_text (map signed_decimal values.now)) }
{
    for value in values {
        put_field(out, value.to_string(alloc)?.as_bytes())?;
    }
    put(out, b"\n")
}
