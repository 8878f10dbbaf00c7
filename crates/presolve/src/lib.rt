//! The linear program of a box, for the dual simplex: the relaxation of the by-time program, with
//! the rows of a pool of cuts, and what the box fixes replaced.
//!
//! A caller makes it of a tight box, by the scenario's table and a pool of its cuts, and hands it
//! on. What the run gives back, a weight and a multiplier for each row, becomes a Dual leaf:
//!
//!     let mut boxes = Boxes::root(alloc, &s)?;
//!     boxes.tighten(&s);
//!     let table = table_for(alloc, &s)?;
//!     let pool = Pool::empty(alloc);
//!     let made = program(alloc, Relaxation::of(&s, &boxes, &table, &pool))?;
//!     for k in 0..made.columns.items().len() {
//!         println!("{:?} costs {}", made.columns.items()[k], made.program.costs()[k]);
//!     }
//!     // .. a run over made.program, which gives `weight` and `multipliers` ..
//!     let rows = leaf_of(alloc, made.kept.items(), &multipliers)?;
//!     let leaf = Leaf::Dual { weight, rows };
//!
//! The columns are the variables that the box leaves free, flight by flight, node by node. A column
//! stands for its variable, or for 1 less the variable where the variable's cost is negative, so no
//! cost of the program is. The rows are those of the by-time program, and after them those of the
//! pool's cuts, in its order. Each has the factors of what lands on a column added up, and what is
//! fixed taken from its limit; rows that no values from 0 to 1 exceed are left out. After them
//! stands a row for each column that says that it is at most 1.
//!
//! Where a run has room for so many entries, `program_within` gives the program up as soon as its
//! first tableau is known to have more.
//!
//! The definitions stand in `specs/`: `Variables` (the columns), `Landed` (where a sum of terms
//! lands), `Relaxed` (the program), `Leaf` (the leaf that multipliers give, and what they promise),
//! `Presolved` (what callers get) and `Points` (the points of the relaxation, and the one that a
//! point of the program gives). `Counting`, `Frames`, `Gathering` and `Listing` serve the proofs.
//! `proofs/WorkedProgram.antt` has the program of a narrow box of a day of two flights, and a point
//! of it.
//!
//! Proved: `program` and `program_within` give exactly the definition's program, columns, names and
//! marks (`presolved`), and `program_within` gives none only where its first tableau has more
//! entries than there is room for (`wide`). With or without room its numbers are near enough to 0,
//! and its columns and rows few enough, for a run (`programs_are_problems`). Whatever multipliers
//! of it there are, of the run or of anyone else, the Dual leaf that `leaf_of` makes of them has a
//! value of no less than theirs (in `presolved`, `promise`). `leaf_of` gives exactly the
//! definition's rows. Whatever point of a tight box's program there is, of the run or of anyone
//! else: with flipped columns turned back, and what the box fixes as the box leaves it, it is a
//! point of the relaxation, so it keeps all rows of the by-time program and of the pool's cuts
//! (`program_points_are_points`, `point`), and it costs as much (`cost`).
//!
//! Memory: 4 bytes for each variable that the tight root box leaves free, 25 for each column, and
//! what the program takes: 16 bytes for each factor and some 40 for each row; lists take up to
//! twice that, since they grow. The table is lent, once made for all boxes of a scenario. While it
//! runs, it takes room for one row (0.2 MB), and 12 bytes for each row's name of one flight and
//! kind, one place or one connection at a time (0.2 MB at the most), and then for each cut of the
//! pool. A program that is given up takes no more of this than one that has just room. Time: for
//! each variable of the day what the box leaves of it, and for each row its terms.
#![tactic(auto)]

mod columns;
mod costs;
mod flips;
mod frame;
mod gather;
mod kinds;
mod laws;
mod leaf;
mod numbers;
mod presolved;
mod rows;
mod tally;

pub use laws::{program_points_are_points, programs_are_problems};
pub use leaf::leaf_of;
pub use presolved::{Flags, Presolved, program, program_within};
pub use tally::Refused;
