//! The least cost of columns that are 0 or more and keep every constraint: the dual simplex in
//! whole numbers (Lemke 1954; rows scaled to whole numbers as in Edmonds 1967 and Bareiss 1968).
//! Nothing is ever rounded, every run ends, and each of its ends tells a bound that is true.
//!
//! A caller makes a program, and runs it in room for so many entries:
//!
//!     let mut program = Program::new(alloc, &[1, 1], 0)?;
//!     let terms = [Entry { column: 0, value: -1 }, Entry { column: 1, value: -1 }];
//!     program.add_row(alloc, &terms, -1)?;
//!     let run = Solver::new(alloc, &program, 1000)?.run(100, None);
//!     if run.end() == End::Optimal {
//!         let value = run.value();
//!         println!("nothing costs less than {} / {}", value.numerator, value.denominator);
//!     }
//!     let weights = run.multipliers(alloc)?;
//!
//! The definitions stand in `specs/`: `Program` (programs), `Tableau` (the first tableau), `Search`
//! and `Run` (which row leaves and which index enters, how the rows change, when a run ends), and
//! `Multipliers` (what a run tells). `Points` has the points of a program, `LastPoint` what a run
//! that ended Optimal tells besides, `LastTableau` the tableau in which it ended, and `Fractions`
//! the point of that in numbers. `Solving` has what callers see of a solver and of its run. The
//! others serve the proofs: `Ratios`, `Board`, `BoardOf`, `Derived`, `Multiples` and `Steps`.
//! `proofs/WorkedRuns.antt` has the runs of a small program, with each of the five ends, and
//! `proofs/WorkedPoints.antt` a point.
//!
//! Proved: `run` ends exactly as the defined run does, with its telling row; `multipliers` and
//! `value` are exactly those of the definition. Whatever the end, the multipliers are 0 or more,
//! and for each column the weighted cost plus what the constraints add to it is 0 or more
//! (`justified`). So no values of the columns that keep the constraints cost less than the value;
//! after `Infeasible` the weight is 0 and the value is above 0, so there are none. After `Optimal`
//! the point of the last tableau keeps the program and costs the value (`point` of `end`), and the
//! value is below the cutoff (`uncut` of `run`). `point` gives exactly that one, over the least
//! denominator (`fractions`); it costs the value (`worth`), and hangs on the program alone
//! (`points_are_one`). No product passes 128 bits.
//!
//! A pivot costs what its rows have, not what the tableau has rows: the row that leaves is found in
//! a set of numbers, and the rows that may have an entry at an index in a list, which is made anew
//! when it has become long.
//!
//! Memory: a program takes 8 bytes for each column, 16 for each factor and some 40 for each row.
//! `Solver::new` takes all that a run needs, 118 bytes for each of the cells and 24 for each index,
//! and `run` takes none. What isn't written to isn't touched: of the rows what `row_arena` tells, 8
//! bytes for each row in the lists, of which there are at most some four times as many as entries,
//! and 4 for each in the longest list.
#![tactic(auto)]

mod basis;
mod board;
mod end;
mod ending;
mod first;
mod fractions;
mod iteration;
mod iterations;
mod laws;
mod link;
mod listing;
mod lists;
mod multiples;
mod pivots;
mod program;
mod ratio;
mod refused;
mod solver;
mod steps;

pub use end::End;
pub use fractions::{Fractions, Numerators};
pub use laws::{last_tableaus_are_one, points_are_one, values_are_whole_by_their_denominators};
pub use program::{Constraint, Program};
pub use solver::{Factors, Run, Solver, Value, Weights};
