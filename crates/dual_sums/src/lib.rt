//! What rows come to beside the cost: the Lagrangian dual of the by-time program on a box, with the
//! rows of cuts beside those of the program.
//!
//! A caller lists rows, each with how often it is counted, and asks for their value on a tight box:
//!
//!     let table = table_for(alloc, &s)?;
//!     let mut sums = Sums::new(alloc, table.columns.count())?;
//!     let mut buffer = RowBuffer::new(alloc)?;
//!     let pool = Pool::empty(alloc);
//!     let relaxation = Relaxation::of(&s, &boxes, &table, &pool);
//!     let rows = [Multiplier { row: RowName::Dep { place, period }, value: 3 }];
//!     match dual_value(&mut sums, &mut buffer, relaxation, 1, &rows) {
//!         Ok(value) => println!("they come to {value} at the least"),
//!         Err(position) => println!("there is no row with the name at {position}"),
//!     }
//!
//! The name of a cut's row is its position in the pool.
//!
//! The definitions stand in `specs/`: `Dual` (what a list of rows comes to). The others serve the
//! proof: `Sums`, `Growing` (how sums grow), `Slots` and `Rows`.
//!
//! Proved: `dual_value` gives exactly the least, over all values 0 or 1 that the box leaves the
//! variables, of so many times the cost and so many times what each row is above its limit, or the
//! position of the first row that isn't there (`value`); it is nearer to 0 than 2^115 (`near`).
//!
//! The value is worked out in sums: a constant, and a factor for each variable that is free. Each
//! term of the cost row and of the rows is looked up in the box, and lands in the constant, at a
//! position, or nowhere. How far the factors are below 0 is kept up to date, so the value is there
//! at once; and each position knows the stamp under which it was set, so nothing is cleared.
//!
//! Memory: `Sums` takes 20 bytes for each position (0.4 GB for the largest days); `dual_value`
//! takes none. Time: the periods by which flights may be late or wait, and for each row what
//! `fill_row` takes, and for each of its terms of being inside the legs of the flight.
#![tactic(auto)]

mod costs;
mod dual;
mod rows;
mod slots;
mod sums;
mod terms;

pub use dual::dual_value;
pub use sums::Sums;
