//! Sums over free variables.
ghost use Rattle.std.specs.Prelude.{◌≡◌, ◌<◌, ◌≤◌, ◌+◌, ◌-◌, ◌^◌, pos, unsigned_abs, ◌-ℤ◌, ◌+ℤ◌};
ghost use Rattle.dual_sums.specs.Sums.{below};

use crate::slots::Slots;
use bytime_model::Landing;
use flow_types::OutOfMemory;
use std::alloc::Global;
use std::marker::Model;

/// A constant, and a factor for each position. Contracts see it as these. It takes 20 bytes a
/// position.
#[derive(Debug, Drop)]
pub struct Sums {
    constant: i128,
    factors: Slots,
    // How far the factors are below 0, added up.
    lows: u128,
}

impl Model for Sums {
    ghost use Rattle.std.specs.Prelude.{◌≡◌, sum_by};
    ghost use Rattle.dual_sums.specs.Sums.{Summed, below};

    ghost Value = { Summed };

    ghost view = { λ s. record { constant = s.constant; factors = s.factors } };

    ghost invariant = { λ s. s.lows ≡ sum_by below s.factors };
}

impl Sums {
    ghost use Rattle.std.specs.Prelude.{ℕ, ◌≡◌, ◌<◌, ◌+◌, ◌^◌, IfOk, length, pos, replicate, slice_index_or, slice_set, unsigned_abs, ◌+ℤ◌, ◌*ℤ◌};
    ghost use Rattle.bytime_model.specs.Landing.{IsLandingWithin, landed};
    ghost use Rattle.dual_sums.specs.Sums.{Summed, least_sum, mass, nothing, sum_at};

    /// So many positions, with factors of 0, and the constant 0.
    #[tactic(auto, using(crate::proofs::SumsFacts::zeros_low))]
    pub fn new(alloc: Global, positions: usize) -> Result<Sums, OutOfMemory>
        ensures { IfOk result (λ sums. sums ≡ nothing positions) }
    {
        Ok(Sums {
            constant: 0,
            factors: Slots::new(alloc, positions)?,
            lows: 0,
        })
    }

    /// Leaves factors of 0, and the constant 0.
    #[tactic(auto, using(crate::proofs::SumsFacts::zeros_low))]
    pub fn clear(&mut self)
        ensures { self.new ≡ nothing (length self.old.factors) }
    {
        self.constant = 0;
        self.lows = 0;
        self.factors.clear();
    }

    /// Adds so much where the landing says.
    pub fn land(&mut self, landing: Landing, more: i128)
        requires within { IsLandingWithin (length self.old.factors) landing }
        requires room { mass self.old + unsigned_abs more < 2 ^ 126 }
        ensures sum { (bit : ℕ → ℕ) → sum_at bit self.new
            ≡ sum_at bit self.old +ℤ more *ℤ pos (landed bit landing) }
        ensures mass { mass self.new ≤ mass self.old + unsigned_abs more }
        ensures same { length self.new.factors ≡ length self.old.factors }
    {
        match landing {
            Landing::Nowhere => {}
            Landing::Surely => self.add_constant(more),
            Landing::At(position) => self.add(position, more),
        }
    }

    // Adds to the constant.
    #[tactic(auto, using(crate::proofs::SumsFacts::constant_grows))]
    fn add_constant(&mut self, more: i128)
        requires { mass self.old + unsigned_abs more < 2 ^ 126 }
        ensures sum { (bit : ℕ → ℕ) → sum_at bit self.new
            ≡ sum_at bit self.old +ℤ more *ℤ pos 1 }
        ensures mass { mass self.new ≤ mass self.old + unsigned_abs more }
        ensures same { length self.new.factors ≡ length self.old.factors }
    {
        self.constant = plus(self.constant, more);
    }

    // Adds to the factor at a position.
    #[tactic(auto, using(crate::proofs::SumsFacts::factor_near, crate::proofs::SumsFacts::low_at, crate::proofs::SumsFacts::low_set, crate::proofs::SumsFacts::below_le, crate::proofs::SumsFacts::abs_sum, crate::proofs::SumsFacts::lows_le, crate::proofs::SumsFacts::whole, crate::proofs::SumsFacts::factor_grows))]
    fn add(&mut self, position: usize, more: i128)
        requires within { position < length self.old.factors }
        requires room { mass self.old + unsigned_abs more < 2 ^ 126 }
        ensures sum { (bit : ℕ → ℕ) → sum_at bit self.new
            ≡ sum_at bit self.old +ℤ more *ℤ pos (bit position) }
        ensures mass { mass self.new ≤ mass self.old + unsigned_abs more }
        ensures same { length self.new.factors ≡ length self.old.factors }
    {
        let old = self.factors.get(position);
        let factor = plus(old, more);
        self.lows = lows_after(self.lows, old, factor);
        self.factors.set(position, factor);
    }

    /// What it comes to at the least, where what stands at each position is counted once or not at
    /// all.
    #[tactic(auto, using(crate::proofs::SumsFacts::lows_le))]
    pub fn least(&self) -> i128
        requires { mass self.now < 2 ^ 126 }
        ensures { result ≡ least_sum self.now }
    {
        less(self.constant, self.lows)
    }
}

// How far below 0.
fn below(value: i128) -> u128
    ensures { result ≡ below value }
{
    if value < 0 { value.unsigned_abs() } else { 0 }
}

// The sum of two numbers that aren't far from 0.
fn plus(a: i128, b: i128) -> i128
    requires { unsigned_abs a + unsigned_abs b < 2 ^ 126 }
    ensures { result ≡ a +ℤ b }
{
    a + b
}

// The one less the other.
fn less(value: i128, by: u128) -> i128
    requires value { unsigned_abs value < 2 ^ 126 }
    requires by { by < 2 ^ 126 }
    ensures { result ≡ value -ℤ pos by }
{
    value - by as i128
}

// How far all are below 0, where one of them changes.
fn lows_after(lows: u128, old: i128, new: i128) -> u128
    requires there { below old ≤ lows }
    requires room { lows + below new < 2 ^ 128 }
    ensures { result ≡ lows - below old + below new }
{
    lows - below(old) + below(new)
}
