//! The lower bound of a leaf: what no plan of its box costs less than; of a Dual and of a Lag leaf
//! by weak duality.
//!
//! A caller makes the room once for a scenario, and asks for one leaf at a time on a tight box:
//!
//!     let mut work = LeafWork::new(alloc, &s)?;
//!     let mut boxes = Boxes::root(alloc, &s)?;
//!     boxes.tighten(&s);
//!     let mut rows = Multipliers::empty(alloc);
//!     rows.add(Multiplier { row: RowName::Dep { place, period }, value: 3 })?;
//!     let leaf = Leaf::Dual { weight: 1, rows };
//!     match work.leaf_bound(&s, &Pool::empty(alloc), &boxes, &leaf) {
//!         Ok(Bound::AtLeast(least)) => println!("no plan in the box costs less than {least}"),
//!         Ok(Bound::NoPlan) => println!("no plan is in the box"),
//!         Err(fault) => println!("the leaf says nothing: {fault:?}"),
//!     }
//!
//! The definitions stand in `specs/`: `Leaf` (the bound of a leaf, or why it has none) and `Lag`
//! (the prices that a Lag leaf is; what these come to is said in `priced_plans`). What a Dual leaf
//! comes to is said in `dual_sums`; `PriceLeaf` has the leaf that prices are, `PriceRows` the row
//! that each is put on, and `Trees` the bound of each leaf of a tree. The others serve the proof:
//! `Listing`, `Options`, `UnitSums`, and `Work` (the room).
//!
//! Proved: `leaf_bound` gives exactly the bound of the leaf, or exactly the first fault (`bound`),
//! and no plan in the box that keeps every rule costs less, whoever chose the multipliers
//! (`sound`). So it is of any bound that the definition gives a leaf (`leaf_bounds_are_bounds`),
//! which serves trees of leaves; and it gives a leaf one bound or one fault in a box
//! (`leaf_bounds_are_one`). What `leaf_bound` gives is nearer to 0 than 2^115, and than 2^124 for a
//! Lag leaf (`near`), so that sums with it have room. `is_priceable` tells whether a row may have a
//! price.
//!
//! Prices are made a leaf, which names them by the rows that they stand on:
//!
//!     let leaf = lag_leaf(alloc, &s, COST_WEIGHT, rounds.prices())?;
//!
//! Its multipliers set exactly the prices, each on a row that is there and may have one; none is 0,
//! and each row is named once, in the order of rows (`prices`). In every box in which no node that
//! must be entered is closed the leaf has the bound that the prices tell (`bound`); and one of
//! weight 0 says that no plan is in a box in which the value of the prices is above 0 (`closes`).
//!
//! For a Lag leaf the prices are set that its multipliers are, and then each flight's least trip is
//! found under them: whole trips, where a Dual leaf looks at one variable at a time.
//!
//! `table` lends the positions of variables, the visits and the cost row, which programs borrow.
//!
//! Memory: 20 bytes for each variable that the tight root box leaves free (0.4 GB for the largest
//! days), 24 for each of 32 nodes a flight and each period by which it may be late or wait,
//! `Visits`, `Routes`, `Loads`, `Prices`, and 1.1 MB; `leaf_bound` takes none. Time: for a Dual
//! leaf the nodes of the flights, the periods by which they may be late or wait, and for each row
//! that the leaf names what `RowBuffer::fill_with` takes, and for each of its terms of being inside
//! the legs of the flight; for a Unit leaf a least trip for each flight; for a Lag leaf that, and
//! each price.
#![tactic(auto)]

mod bound;
mod fault;
mod lag;
mod laws;
mod listing;
mod options;
mod plain;
mod price_rows;
mod unit;
mod work;

pub use fault::LeafFault;
pub use laws::{leaf_bounds_are_bounds, leaf_bounds_are_one};
pub use listing::{closing_leaf, lag_leaf};
pub use price_rows::is_priceable;
pub use work::LeafWork;
