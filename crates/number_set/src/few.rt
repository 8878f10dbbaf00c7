//! Sets of few numbers, which take no memory.
use crate::bits::{first_some, lowest_bit, with_bit, without_bit};
use std::marker::Model;

/// A set of numbers below 2,048. Contracts see it as its words, with a bit for each number.
#[derive(Debug, Drop)]
pub struct FewNumbers {
    words: [u64; 32],
}

impl Model for FewNumbers {
    ghost use Rattle.std.specs.Prelude.{ℕ, List};

    ghost Value = { List ℕ };

    ghost view = { λ s. s.words };
}

impl FewNumbers {
    ghost use Rattle.std.specs.Prelude.{◌≡◌, ◌↔◌, ◌<◌, ◌≤◌, ℕ, MatchOption, None};
    ghost use Rattle.number_set.specs.Few.{IsAdded, IsIn, IsTaken, bit_in};

    /// The numbers below the count.
    pub fn below(count: u32) -> FewNumbers
        requires { count ≤ 2048 }
        ensures { (k : ℕ) → IsIn result k ↔ k < count }
    {
        let mut numbers = FewNumbers { words: [0; 32] };
        for number in 0..count {
            numbers.insert(number);
        }
        numbers
    }

    /// Adds the number, where it isn't in the set.
    pub fn insert(&mut self, number: u32)
        requires { number < 2048 }
        ensures { IsAdded number self.old self.new }
    {
        let word = number as usize / 64;
        self.words[word] = with_bit(self.words[word], number % 64);
    }

    /// Takes one of them away, the first; where there is none the set is as before.
    #[tactic(auto, using(crate::proofs::FewFacts::none_in, crate::proofs::FewFacts::bit_taken))]
    pub fn pop_first(&mut self) -> Option<u32>
        ensures taken { MatchOption result ((k : ℕ) → bit_in self.old k ≡ 0)
            (λ number. IsTaken number self.old self.new) }
        ensures kept { result ≡ None → self.new ≡ self.old }
    {
        let at = first_some(&self.words)?;
        let bit = lowest_bit(self.words[at]);
        self.words[at] = without_bit(self.words[at], bit);
        Some(at as u32 * 64 + bit)
    }
}
