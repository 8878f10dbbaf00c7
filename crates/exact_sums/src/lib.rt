//! Sums of lists, exact over the whole numbers and the integers, and the least of a set, with the
//! laws that every layer cites: a bound, a cost and a count are each a sum of these, and a least
//! trip is the least of a set of lists of stops. The code is the laws, and the sum of two numbers
//! that may be missing.
//!
//! `specs/Leasts.antt` says what the least of a set is, and the first of those that reach it.
//! `specs/Sums.antt` has the sums, `specs/Lists.antt` what items give by their numbers, and
//! `specs/Near.antt` what isn't far from 0. The range of the numbers from `first` on, `count` of
//! them, is the list `range_with_len first count` of std, so that a sum over a range is one over a
//! list. A caller calls a law as a statement to have it in its own proof:
//!
//!     pub fn cost_of(first: &[u32], second: &[u32]) -> i128
//!         ensures { result ≡ total pos (first.now ++ second.now) }
//!     {
//!         sums_are_added_up();
//!         sum(first) + sum(second)
//!     }
//!
//! `proofs/` has the laws of the least (`LeastFacts`: of a union, along a correspondence, of the
//! same set said otherwise), those of loops that append what each number, item or numbered item
//! gives (`LoopFacts`), and lemmas that std lacks: `SumFacts`, `ProductFacts`, `ItemFacts` (an item
//! by its position, what a filter keeps) and `ShortLists` (lists that are written out).
#![tactic(auto)]

mod laws;
mod sums;

pub use laws::{sums_are_added_up, sums_are_compared};
pub use sums::plus;
