//! What the relaxation of a box of plans tells: a leaf, whose bound may close the box, and a point
//! by which it may be split, within limits of time and room.
//!
//! A caller makes the run on a tight box, and asks for the bound of its leaf:
//!
//!     let mut boxes = Boxes::root(alloc, &s)?;
//!     boxes.tighten(&s);
//!     let limits = Limits { pivots: 100_000, cells: 50_000_000 };
//!     let pool = Pool::empty(alloc);
//!     let mut work = LeafWork::new(alloc, &s)?;
//!     let relaxation = Relaxation::of(&s, &boxes, work.table(), &pool);
//!     let relaxed = relax(alloc, relaxation, limits, Some(cutoff))?;
//!     match work.leaf_bound(&s, &pool, &boxes, &relaxed.leaf) {
//!         Ok(bound) if bound.is_reached(Some(cutoff)) => println!("no plan in it costs less"),
//!         _ => println!("it may be split, as by {:?}", relaxed.point),
//!     }
//!
//! The rows of the pool's cuts stand behind those of the day, so a leaf may name them by their
//! positions. With a cutoff the run ends as soon as its value, rounded up, has reached it: a search
//! that wants no plan of that cost or more needs no better bound.
//!
//! The definitions stand in `specs/`: `Relaxed` (the leaf that the run of the box's program tells),
//! `Point` (its point) and `Licence` (why a box may be split). `Telling` serves the proof.
//!
//! Proved of `relax`: the leaf is exactly the Dual leaf whose weight and multipliers the run tells
//! (`leaf`), and how the run ended is told (`end`). However it ended, the leaf's numbers are in
//! range (`range`), its rows are all there, and with the weight 0 they come to more than 0: so on a
//! box in which no node that must be entered is closed the leaf has a bound (`some`). Where what it
//! comes to by its weight, rounded up, doesn't reach the cutoff, a point of the relaxation costs
//! less, or the run was given up (`licensed`). The point is exactly that of the run; there is none
//! only where the run didn't end Optimal, or where the point's denominator is too far from 0
//! (`told`). It is one of the relaxation (`point`). The leaf names each row once, in the order of
//! rows, and none of its multipliers is 0 (`run_leaves_are_in_order`). What it comes to is no less
//! than what the run's multipliers tell, by the run's weight; and after a run that ended Infeasible
//! it has the weight 0 and comes to more than 0 (`run_leaves_tell_no_less`).
//!
//! Memory: the program, 16 bytes for each entry, and what a solver takes (`scaled_simplex`): 118
//! bytes for each of the cells, of which the run touches what its tableau needs. Time: for each
//! pivot the rows that have an entry in its column.
#![tactic(auto)]

mod laws;
mod leaf;
mod limits;

pub use laws::{run_leaves_are_in_order, run_leaves_tell_no_less};
pub use leaf::{Point, Relaxed, relax};
pub use limits::Limits;
