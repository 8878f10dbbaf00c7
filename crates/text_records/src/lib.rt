//! Texts of records: their records one at a time, fields that are names or numbers, and names by
//! their positions; and the step by which texts are written. All that reads or writes a text stands
//! on it.
//!
//!     let mut rows = Rows::of_text(alloc, text);
//!     let mut row = ByteRecord::new(alloc);
//!     while rows.next_row(&mut row)? {
//!         let name = name_in(&row, 2)?;
//!         let period = number_in(&row, 3, 0, 511)?;
//!         ends_after(&row, 3)?;
//!     }
//!
//! `Rows` are seen as the list of the records that are left, each the list of its fields; the
//! records of a text are those of `csv`'s definitions, and `csv` reads them. `next_row` fills one
//! `ByteRecord` with each in turn.
//!
//! There are three errors, by what fails: a `FieldFault` is a field and a cause, a `RecordError`
//! such a fault or want of memory, and a `Refusal` the first fault of a whole text, or want of
//! memory. Each function's clause says that it gives exactly what its definition of the same name
//! in `specs/` gives (`Finds`, and `Gives` and `Reads` where memory may be wanting), so a reader
//! whose steps are chained as its definition is answers the first fault.
//!
//! A `NameIndex` is the names that were told so far, seen as the list; `known_in` and `new_name`
//! read the fields that name what is known and what is new. `put` adds bytes to a text that is
//! written, and `put_line`, `put_field` and `put_number` a line or a field.
//!
//! Memory: 8 KiB, the longest record, at 8 bytes a field besides its bytes, in blocks that grow by
//! doubling, and a copy of each name. Time: the length of the text, and a look-up by hash for each
//! name.
#![tactic(auto)]

mod error;
mod fields;
mod names;
mod rows;
mod writing;

pub use error::{FieldFault, RecordError, Refusal, refusal_of};
pub use fields::{ends_after, field_in, name_in, number_in};
pub use names::{NameIndex, known_at, known_in, new_name};
pub use rows::Rows;
pub use writing::{put, put_field, put_line, put_number};
