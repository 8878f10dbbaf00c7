//! Rows of whole numbers that are mostly 0, in room for so many entries, and the step of a
//! simplex in whole numbers: one row is cleared in a column by means of another.
//!
//! A caller gives the rows, and combines them:
//!
//!     let mut arena = RowArena::new(alloc, 3, 1_000)?;
//!     arena.push_row(&[Entry { column: 0, value: 2 }, Entry { column: 4, value: -3 }])?;
//!     arena.push_row(&[Entry { column: 0, value: 5 }, Entry { column: 7, value: 1 }])?;
//!     match arena.combine(1, 0, 0) {
//!         Ok(()) => {
//!             // Row 1 is 2 times itself less 5 times row 0: 15 in column 4, 2 in column 7.
//!             for column in arena.filled() { .. }
//!         }
//!         Err(wide) => .., // and the rows are as before
//!     }
//!
//! A row is a list of entries by ascending column, none of them 0 and none further from 0 than
//! `MOST_ENTRY`. The definitions stand in `specs/`: `Rows` (a row, and what it has in a column),
//! `Combining` (the difference of two rows, its divisor, the row that is cleared), and `Arena`
//! (the rows in their room, and what a call of `combine` makes of them). `Products`, `Desks` and
//! `Shelves` (how rows lie in their block) serve the proofs.
//!
//! Proved: `combine` makes exactly the row of the definition (`ok`), tells exactly the first
//! entry that is too far from 0, or that there is no room (`wide`), keeps the rows in each error
//! (`err`), and tells each column that the row has and its old one hadn't (`filled`). `push_row`
//! adds exactly the row where there is room (`ok`, `room`), and where there is none tells that
//! (`wide`). `negate` turns the signs of one row, `compact` changes nothing that can be read, and
//! `entry` finds what a row has in a column. Each row is valid (`valid` of `row`), and there are
//! never more entries than cells (`room` of `live`). For crates above, the modules `AboveFacts`,
//! `RowFacts` and `WholeLaws` of `proofs/` have lemmas on rows and on products.
//!
//! All rows lie in one block of raw memory with two halves, side by side in one of them:
//!
//!     | row 0 | row 2    | old row 1 | row 3 | row 1 | free .. || the other half .. |
//!     start                                          tail
//!
//! A row that still fits into its place is written there, another one at the tail, with a quarter
//! of its length to grow into. Where the half is too short for that, or the rows have come to
//! stretch over three times their entries, all are first laid closely into the other half. So
//! between two such steps at least a third as much is written as they move.
//!
//! Memory: all is taken by `new`: 24 bytes for each row, and for each of the cells 48 in the
//! block and 52 where a row is combined. What isn't written to isn't touched: of each half some
//! three times what the rows have, at 16 bytes an entry, and 20 bytes for each entry of the two
//! longest rows that were combined, or 52 where they needed 128 bits.
//!
//! Time: `combine` finds the column in both rows by bisection, and takes out of both factors what
//! they have in common, so that there is less to divide. Then it goes once over both rows, from
//! one entry of the pivot to the next, and writes what comes of them in 64 bits, or in 128 where
//! a part of it is too far from 0 for 64. At last it goes over what has come for its divisor,
//! until that is 1, to divide if it isn't, and to write the row.
#![tactic(auto)]

mod arena;
mod combining;
mod desk;
mod dividing;
mod entry;
mod narrow;
mod pair;
mod place;
mod products;
mod row;
mod shelf;
mod walk;
mod wide;
mod width;

pub use arena::RowArena;
pub use entry::{Entry, MOST_ENTRY};
pub use wide::Wide;
