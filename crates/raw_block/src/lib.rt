//! A block of memory with so many places, each empty or holding a value. A place is written and
//! read with no test of its index, in any order; what no value is put in is never touched.
//!
//! A caller puts values in places, and reads them there:
//!
//!     let mut block: Block<u32> = Block::new(alloc, 1_000)?;
//!     for k in 0..3 {
//!         block.put(10 + k, 7);
//!     }
//!     block.put(11, 8); // the place held a value, which is let go of
//!     let run: &[u32] = block.run(10, 3); // 7, 8, 7
//!     assert!(block.get(11) == 8);
//!     assert!(block.len() == 1_000);
//!
//! Contracts see the list of places, as a list of values that may be missing. The definitions stand
//! in `specs/Places`: `IsFilled` (a place holds a value) and `IsRun` (so many in a row do).
//! `Ownership` and `Parts` say what a block owns, and how its fields belong together.
//!
//! Proved: `new` makes empty places, or tells that there is no memory; `len` counts them; `get`
//! gives what a place holds, and `put` changes one place and no other; `run` gives the values of
//! places in a row (each by its one `ensures`). No place is read before it is written, none outside
//! the block is reached, and the block is given back once, when it is let go of. What reaches
//! memory through the pointer are the five functions of `cells`, whose proofs are by hand, in
//! `proofs/cells`: they follow those of the kit's crate `circular_buffer` (its licence lies in this
//! folder), with places that may be written twice and a block that may be given back while its
//! places hold values. The values are `Copy`, so they need no step at their end.
//!
//! Memory: the size of a value for each place, in one block, taken by `new` alone; what no value
//! was put in isn't touched. Time: each call takes the same for any block.
#![tactic(auto)]

mod block;
mod cells;

pub use block::Block;
// A crate can name a block in a contract only if the types of its fields are exported.
#[doc(hidden)]
pub use cells::{Base, Cells, Deed};
