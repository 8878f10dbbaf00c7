//! A day of two flights and its variants, for worked cases and tests.
//!
//! Proofs cite the values and texts of `specs/`: `Days` has the flights, the days and plans of
//! them, `Texts` the bytes of a text of each. Tests call the functions here, which make the same
//! scenarios and plans; each clause says which one:
//!
//!     let s = two_flights(alloc, 1, 9, 9)?;
//!     let plan = plan_with(alloc, &trip_at(1, 3))?;
//!     assert_eq!(rt; judge(&mut Loads::new(alloc, &s)?, &s, &plan), Verdict::Keeps { cost: 1 });
//!
//! The days are valid scenarios, the definitions say of them what is expected
//! (`proofs/WorkedCases`), and `proofs/WorkedDay` has what proofs of other crates need of them.
#![tactic(auto)]

mod days;
mod texts;

pub use days::{plan_with, there_and_back, trip_at, two_flights};
pub use texts::{ON_TIME, THERE_AND_BACK, TWO_FLIGHTS};
