//! The records of a text, one at a time.
ghost use Rattle.std.specs.Prelude.{◌≡◌, ◌≤◌, [], Ok, false, IfOk, OnErr, length};
ghost use Rattle.csv.specs.Records.{fields_of};
ghost use Rattle.text_records.specs.Rows.{TakesRow, rows_of};

use csv::{ByteRecord, Reader, ReaderBuilder};
use flow_types::OutOfMemory;
use std::alloc::Global;
use std::marker::Model;

/// A text's records that are left. Contracts see it as the list of their fields.
#[derive(Drop)]
pub struct Rows<'a> {
    reader: Reader<&'a [u8]>,
    // Whether the last read gave no record.
    ended: bool,
}

impl<'a> Model for Rows<'a> {
    ghost use Rattle.std.specs.Prelude.{ℕ, List};

    ghost Value = { List (List (List ℕ)) };

    ghost use Rattle.text_records.specs.Reader.{IsReading, rows_left};

    ghost view = { λ rows. rows_left rows.ended rows.reader };

    ghost invariant = { λ rows. IsReading rows.ended rows.reader };
}

impl<'a> Rows<'a> {
    /// The records of a text. It takes no memory.
    pub fn of_text(alloc: Global, text: &'a [u8]) -> Self
        ensures rows { result ≡ rows_of text.now }
        ensures few { length result ≤ length text.now }
    {
        let reader = ReaderBuilder::new()
            .has_headers(false)
            .flexible(true)
            .from_reader(alloc, text);
        Rows {
            reader,
            ended: false,
        }
    }

    /// Puts the next record into `row`, if there is one. It takes memory for the record: its bytes,
    /// and 8 bytes a field, in blocks that grow by doubling. Where there is none, nothing is left,
    /// and what `row` holds isn't said.
    #[tactic(auto, using(crate::proofs::ReaderFacts::is_ready, crate::proofs::ReaderFacts::stays_ready, crate::proofs::ReaderFacts::takes_row))]
    pub fn next_row(&mut self, row: &mut ByteRecord) -> Result<bool, OutOfMemory>
        ensures takes { IfOk result
            (λ found. TakesRow found self.old (fields_of row.new) self.new) }
        ensures ends { result ≡ Ok false → self.new ≡ [] }
        ensures stops { OnErr result (self.new ≡ []) }
    {
        if self.ended {
            return Ok(false);
        }
        self.ended = true;
        let found = self.reader.read_byte_record(row).map_err(|_| OutOfMemory)?;
        self.ended = !found;
        Ok(found)
    }
}
