//! Sets of numbers.
ghost use Rattle.std.specs.Prelude.{◌≡◌, ◌<◌, ◌/◌, ◌%◌, ◌+◌, ◌*◌, IfOk, replicate};

use crate::bits::{first_bit, first_in, put};
use std::alloc::{AllocError, Global};
use std::marker::Model;

/// A set of numbers below a bound. Contracts see it as the bound and its words,
/// and ask whether it has a number.
#[derive(Debug)]
pub struct NumberSet {
    bound: u32,
    words: Vec<u64>,
    // A bit for each word that isn't 0.
    summary: Vec<u64>,
}

impl Drop for NumberSet {
    fn drop(self) {
        let NumberSet {
            bound: _,
            words: _,
            summary: _,
        } = self;
    }
}

impl Model for NumberSet {
    ghost use Rattle.number_set.specs.Numbers.{AreKept, Numbers};

    ghost Value = { Numbers };

    ghost view = { λ s. record { bound = s.bound; words = s.words.items } };

    ghost invariant = { λ s. AreKept s.bound s.words.items s.summary.items };
}

impl NumberSet {
    ghost use Rattle.std.specs.Prelude.{◌≡◌, ◌<◌, ℕ, IfOk, MatchOption, false, true};
    ghost use Rattle.number_set.specs.Numbers.{IsChanged, IsFirst, has};

    /// A set with no numbers, which has room for those below the bound. It takes a bit for each.
    #[tactic(auto, using(crate::proofs::SetFacts::none_kept, crate::proofs::SetFacts::none_new))]
    pub fn new(alloc: Global, bound: u32) -> Result<NumberSet, AllocError>
        ensures bound { IfOk result (λ s. s.bound ≡ bound) }
        ensures none { IfOk result (λ s. (k : ℕ) → has s k ≡ false) }
    {
        let words = bound as usize / 64 + 1;
        Ok(NumberSet {
            bound,
            words: zeros(alloc, words)?,
            summary: zeros(alloc, words / 64 + 1)?,
        })
    }

    /// Whether the number is in the set.
    pub fn contains(&self, number: u32) -> bool
        requires { number < self.now.bound }
        ensures { result ≡ has self.now number }
    {
        self.words[number as usize / 64] >> (number % 64) & 1 == 1
    }

    /// Adds the number, where it isn't in the set.
    pub fn insert(&mut self, number: u32)
        requires { number < self.old.bound }
        ensures { IsChanged number true self.old self.new }
    {
        self.change(number, true);
    }

    /// Takes the number away, where it is in the set.
    pub fn remove(&mut self, number: u32)
        requires { number < self.old.bound }
        ensures { IsChanged number false self.old self.new }
    {
        self.change(number, false);
    }

    // Whether the number is in the set from now on.
    #[tactic(auto, using(crate::proofs::SetFacts::put_changed))]
    fn change(&mut self, number: u32, now: bool)
        requires { number < self.old.bound }
        ensures { IsChanged number now self.old self.new }
    {
        put(&mut self.words, &mut self.summary, number, now);
    }

    /// The least number of the set, nothing where it has none.
    #[tactic(auto, using(crate::proofs::SetFacts::first_told, crate::proofs::SetFacts::none_told, crate::proofs::SetFacts::word_few, crate::proofs::SetFacts::word_some, crate::proofs::SetFacts::word_within))]
    pub fn first(&self) -> Option<u32>
        ensures { MatchOption result ((k : ℕ) → has self.now k ≡ false)
            (IsFirst self.now) }
    {
        match first_bit(&self.summary) {
            None => None,
            Some(word) => Some(first_in(&self.words, word)),
        }
    }
}

// So many words without bits.
fn zeros(alloc: Global, count: usize) -> Result<Vec<u64>, AllocError>
    ensures { IfOk result (λ words. words.items ≡ replicate count 0) }
{
    Ok(vec![in alloc; 0; count]?)
}
