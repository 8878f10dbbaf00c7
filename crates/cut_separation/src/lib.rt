//! The cuts that a point exceeds: of all whole cuts of a day, in their order, the first 10,000 that
//! the point of a box breaks.
//!
//! A caller has a point of the box, as a run of the box's program tells it, and the table of the
//! day, and asks:
//!
//!     let point = FreePoint { columns, numerators, denominator };
//!     let pool = separate(alloc, &s, &table, &boxes, &point)?;
//!     for cut in pool.items() {
//!         println!("{cut:?} is broken");
//!     }
//!
//! A cut of heads is whole where it names all heads of its node, and one of having departed always
//! is. So there is at most one of each kind for each node and period, and their order is by kind,
//! then by flight, node and period.
//!
//! The definitions stand in `specs/`: `Whole` (the whole cuts), `Points` (a point, and the fraction
//! of each variable there) and `Exceeding` (which cuts it exceeds); `Framed` serves the proof.
//!
//! Proved: `separate` gives exactly the first 10,000 of the whole cuts that the point exceeds, or
//! all of these where there are fewer (`exactly`), and they are cuts of the scenario (`pool`). The
//! list of whole cuts has each cut that is whole and no other (`each`), in order (`order`), so that
//! none is there twice (`whole_cuts_are_in_order`).
//!
//! The row of each cut is held in room that is made once, and its terms are looked up by their
//! positions (`bytime_model::Columns`), so the work is the same for each term.
//!
//! Memory: 8 bytes for each position, room for a row, and 40 bytes and 2 for each head for each cut
//! that is taken. Time: for each node and period the heads of the node, each with the legs of the
//! flight.
#![tactic(auto)]

mod frame;
mod laws;
mod point;
mod separation;
mod tries;
mod values;
mod whole;

pub use laws::whole_cuts_are_in_order;
pub use point::FreePoint;
pub use separation::separate;
pub use tries::MOST_CUTS;
