//! Cuts and their rows: valid inequalities beside the rows of the by-time program, which no plan
//! that keeps every rule breaks, and values between 0 and 1 may. They are in the manner of
//! Bertsimas, Lulli and Odoni 2011: without them half a flight may take each of two ways, and
//! arrive before it left.
//!
//! A caller makes the routes of a scenario once, and room for one row, and asks for it by its cut:
//!
//!     let routes = Routes::new(alloc, &s)?;
//!     let mut row = RowBuffer::new(alloc)?;
//!     let cut = CutName::Departed { flight, node, time };
//!     if fill_cut(&mut row, &s, &routes, &cut) {
//!         for term in row.terms() {
//!             println!("{} times {:?}", term.factor, term.variable);
//!         }
//!         println!("is at most {}", row.limit());
//!     }
//!
//! Whoever knows that a cut is there, as one who makes them, has its row by `hold_heads` or
//! `hold_departed`, with no test.
//!
//! A `Pool` has cuts in their order, each once. Whoever has one asks `fill_row` by the names of all
//! rows, of which those of cuts are positions in the pool (`cut_names`); it wants the scenario's
//! `Table`, which is made once and lent for each box. A `Relaxation` lends a box with a table and a
//! pool to whoever works out what these tell of the box.
//!
//! The definitions stand in `specs/`: `Cuts` (which cuts there are, and their rows), `Order` (the
//! order of cuts), `Routes` (the distances of all flights), `Table` (what is looked up again and
//! again), `Pools` (the rows of a day with a pool, by their names) and `Relaxations` (the scenario
//! and the box of a relaxation). Why a cut holds at each plan is shown in `proofs/CutLaws.antt`, of
//! the three kinds one by one; `proofs/PoolRows.antt` has what holds of each row with a pool, for
//! the proofs of crates above.
//!
//! Proved: `fill_cut` and `fill_row` tell whether there is such a cut or row (`told`) and hold
//! exactly it (`row`), which no plan that keeps every rule breaks (`valid`), or no terms (`none`).
//! Like terms are collected (`collected`): no two are of one variable, and no factor is 0. `is_cut`
//! tells whether there is such a cut, and `is_head` whether a node is a head of another;
//! `hold_heads` and `hold_departed` hold exactly the row of their cut. `Routes` are the distances
//! of each flight (`routes`). A pool is the list of its cuts, and in order (`order`); a cut is
//! added at its end (`ok`), and for want of memory it stays as it was (`err`). `is_before` tells
//! the order of two cuts, and `precedes` whether a cut comes after all of a pool (`all`).
//!
//! Memory: `Routes` takes a byte for each two nodes of a flight and 34 for each node, or up to
//! twice that: at most 4 MB. `Table` takes that, and what `Columns`, `Visits` and the cost row
//! take; while it is made it takes a root box. A pool takes 40 bytes a cut and 2 for each node that
//! it names. The others take none. Time: for a cut of heads the legs of its flight once for each
//! head, for nodes that are apart their number squared, and for another cut the same for any
//! flight.
#![tactic(auto)]

mod apart;
mod departed;
mod fill;
mod heads;
mod names;
mod nodes;
mod order;
mod pool;
mod relaxation;
mod routes;
mod table;

pub use departed::hold_departed;
pub use fill::{fill_cut, fill_row, is_cut, is_row_with};
pub use heads::{hold_heads, is_head};
pub use names::{CutName, Heads};
pub use order::is_before;
pub use pool::{Cuts, Pool, cut_names};
pub use relaxation::Relaxation;
pub use routes::Routes;
pub use table::{Table, table_for};
