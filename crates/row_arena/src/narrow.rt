//! What comes of pairs, in 64 bits.
ghost use Rattle.std.specs.Prelude.{◌≡◌, ◌≤◌, ◌*◌, ◌*ℤ◌, ◌-ℤ◌, IfSome, false, nat_abs};
ghost use Rattle.row_arena.specs.Rows.{most_entry};

use crate::entry::{Entry, MOST_ENTRY};
use crate::pair::Pair;
use crate::products::Factors;
use crate::width::Width;

impl Width for Entry {
    ghost use Rattle.std.specs.Prelude.{◌≤◌, false, nat_abs};
    ghost use Rattle.row_arena.specs.Rows.{most_entry};

    ghost entry = { λ e. e };

    ghost IsKept = { λ e. nat_abs e.value ≤ most_entry };

    ghost takes_all = { false };

    #[inline(always)]
    fn of_pair(by: Factors, pair: Pair) -> Option<Entry> {
        let target = product(by.target, pair.target, by.reach)?;
        let pivot = product(by.pivot, pair.pivot, by.reach)?;
        let value = less(target, pivot)?;
        Some(Entry {
            column: pair.column,
            value,
        })
    }

    #[inline(always)]
    fn is_zero(self) -> bool {
        self.value == 0
    }
}

// The product of a factor and a number, where the number is within the reach.
#[tactic(auto, using(crate::proofs::ReachFacts::within_reach))]
#[inline(always)]
fn product(factor: i64, number: i64, reach: i64) -> Option<i64>
    requires reach { nat_abs reach ≤ most_entry }
    requires near { nat_abs factor * nat_abs reach ≤ most_entry }
    ensures product { IfSome result (λ z. z ≡ factor *ℤ number) }
    ensures near { IfSome result (λ z. nat_abs z ≤ most_entry) }
{
    if is_beyond(number, reach) {
        return None;
    }
    Some(times(factor, number))
}

// Whether the number is further from 0 than the reach.
#[inline(always)]
fn is_beyond(number: i64, reach: i64) -> bool
    requires { nat_abs reach ≤ most_entry }
    ensures { result ≡ false → nat_abs number ≤ nat_abs reach }
{
    number > reach || number < -reach
}

// The product of two numbers.
#[tactic(auto, using(crate::proofs::ReachFacts::product_near))]
#[inline(always)]
fn times(factor: i64, number: i64) -> i64
    requires { nat_abs factor * nat_abs number ≤ most_entry }
    ensures product { result ≡ factor *ℤ number }
    ensures near { nat_abs result ≤ most_entry }
{
    factor * number
}

// The one less the other, unless that is too far from 0.
#[inline(always)]
fn less(one: i64, other: i64) -> Option<i64>
    requires one { nat_abs one ≤ most_entry }
    requires other { nat_abs other ≤ most_entry }
    ensures less { IfSome result (λ z. z ≡ one -ℤ other) }
    ensures near { IfSome result (λ z. nat_abs z ≤ most_entry) }
{
    if other == 0 {
        return Some(one);
    }
    if_near(one - other)
}

// The number, unless it is too far from 0.
#[inline(always)]
fn if_near(number: i64) -> Option<i64>
    ensures same { IfSome result (λ z. z ≡ number) }
    ensures near { IfSome result (λ z. nat_abs z ≤ most_entry) }
{
    if number > MOST_ENTRY || number < -MOST_ENTRY {
        return None;
    }
    Some(number)
}
