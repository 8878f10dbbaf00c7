//! Sets of numbers below a bound, whose least number is found at once.
//!
//!     let mut waiting = NumberSet::new(alloc, 1000)?;
//!     waiting.insert(7);
//!     waiting.insert(3);
//!     waiting.remove(7);
//!     assert!(waiting.first() == Some(3));
//!
//! A set has a bit for each number, 64 to a word, and a bit for each word that has one.
//! `FewNumbers` is one of numbers below 2,048 that lies where it is made.
//!
//! Proved: a set that is made has no numbers (`none`); `insert` and `remove` change whether the
//! number is in the set and nothing else; `contains` tells it; `first` gives the least number of
//! the set, or that there is none. Of few numbers, `below` makes those below a count, `insert` adds
//! one, and `pop_first` takes the first away and no other, or leaves a set of none as it was.
//!
//! Memory: a bit for each number below the bound, and a sixty-fourth of that. Only `NumberSet::new`
//! takes any; `FewNumbers` is 256 bytes in place. Time: `insert`, `remove` and `contains` take the
//! same for any set, `first` goes over a word for each 4,096 numbers below the least, and
//! `pop_first` over 32 words at the most.
#![tactic(auto)]

mod bits;
mod few;
mod set;

pub use few::FewNumbers;
pub use set::NumberSet;
