//! Boxes of plans: when each flight may enter each node and whether it must, tightened along the
//! legs and the connections (constraint propagation on time windows), and split in two.
//!
//! A caller makes the root box of a scenario, tightens it, and splits it where a node has several
//! choices:
//!
//!     let mut boxes = Boxes::root(alloc, &s)?;
//!     match boxes.tighten(&s) {
//!         Tight::Empty(flight, node) => println!("no plan: {flight} can't enter {node}"),
//!         Tight::Live if boxes.is_unit() => ..,
//!         Tight::Live => {
//!             let mut late = boxes.copy(alloc)?;
//!             boxes.narrow_by(flight, node, time);
//!             late.narrow_after(flight, node, time);
//!             ..
//!         }
//!     }
//!
//! A search goes down and up a path of boxes, which a `Trail` keeps as one box and a log of what
//! changed on the way:
//!
//!     let mut trail = Trail::new(alloc, boxes)?;
//!     let told = trail.down(&s, flight, node, time, Side::Early)?;
//!     // .. at trail.boxes(), the tight box of the early side ..
//!     trail.up();
//!
//! The definitions stand in `specs/`: `Boxes` (a box, the root box, and what it is for a trip or a
//! plan to be in one), `Plans` (the plans in a box that keep every rule, and bounds over them),
//! `Tight` (what a tight box is), `Splits` (the sides of a split), `Groups` (lists of items in one
//! block), `Turns` with `Ends` (the connections of each flight), `Held` (what `Boxes` holds),
//! `Subproblems` (a scenario with a box) and `Path` (a path of boxes, and the log that keeps it).
//! `Steps` and `Narrowing` serve the proof of `tighten`, and `Trail` that of the trail.
//!
//! Proved: `tighten` leaves the widest tight box within (`tight`), loses no plan that keeps the
//! turnarounds (`kept`), and tells the first node that must be entered and is closed (`told`). The
//! root box holds every plan (`trips_are_in_the_root_box`), and each plan of a box is in one of the
//! two sides of a split, and in one alone (`splits_share_out_plans`). What was made for a scenario
//! stays so, within its root box, where it is narrowed or tightened (`made`). `Trail::down` adds
//! the tight box of the side to the path, and `up` takes exactly the last box away: the boxes above
//! are what they were (`above`).
//!
//! Memory: 16 bytes for each of 32 nodes a flight, a copy of the legs, and 24 bytes a connection
//! and 16 a flight. In a root box what is of the legs and the connections may take up to twice
//! that, since those lists grow there. `tighten`, the splits and the look-ups take none. A trail
//! takes 8 bytes for each of 32 nodes a flight beside its box, and 16 for each step of its log, one
//! for each change of a node and one for the step down; the log may take up to twice that, since it
//! grows. `up` takes none. Time: `tighten` goes over the legs of each flight twice, and over its
//! connections; and again over both as often as a connection has moved one of its windows, which is
//! at most once for each period of its ends. `Trail::down` goes over the legs of the flight that is
//! split, and from there on as `tighten` does; then once over the marks of all nodes. `up` puts
//! back what was noted.
#![tactic(auto)]

mod access;
mod accesses;
mod boxes;
mod connections;
mod ends;
mod groups;
mod laws;
mod leg_groups;
mod marks;
mod network;
mod root;
mod rows;
mod subproblem;
mod tightening;
mod trail;
mod turns;
mod windows;

pub use access::{Access, Window};
pub use boxes::Boxes;
pub use ends::End;
pub use groups::Groups;
pub use laws::{splits_share_out_plans, trips_are_in_the_root_box};
pub use subproblem::Subproblem;
pub use tightening::Tight;
pub use trail::{Side, Trail};
pub use turns::{Turn, Turns};
