//! A test of `scaled_simplex`: how runs of programs end and what they tell, against what an
//! independent program says of them.
//!
//! It stands above the crate that it tries, so that this isn't proved a second time with it. The
//! clauses of `scaled_simplex` say that a run is that of its definition; the test, that the
//! definition is the run that another program makes. A line of the table is a program, the limits
//! of a run, and what is said of it:
//!
//!     7. 3 plus 2, -2 at most -1; cells 90 pivots 4: optimal, weight 2, value 7/2, rows 3 0, \
//!         point 1 over 2
//!
//! `tools/simplex_table` makes the table, and tells what its lines are.
#![tactic(auto)]

#[cfg(test)]
mod programs;
#[cfg(test)]
mod rows;
#[cfg(test)]
mod runs;
#[cfg(test)]
mod table;
