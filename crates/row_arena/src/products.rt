//! What comes of pairs, in 128 bits.
ghost use Rattle.std.specs.Prelude.{◌≡◌, ◌<◌, ◌≤◌, ◌^◌, ◌*ℤ◌, ◌-ℤ◌, nat_abs};
ghost use Rattle.row_arena.specs.Products.{AreNear};
ghost use Rattle.row_arena.specs.Rows.{most_entry};

use crate::pair::Pair;
use crate::width::Width;

/// A number in a column, as wide as a difference of two products.
#[derive(Clone, Copy, Debug, PartialEq, Eq)]
pub struct WideEntry {
    pub column: u32,
    pub value: i128,
}

/// How often the target is taken, and how often the pivot is taken away; and how far from 0 an
/// entry may be for its product with either not to be too far.
#[derive(Clone, Copy, Debug, PartialEq, Eq)]
pub struct Factors {
    pub target: i64,
    pub pivot: i64,
    pub reach: i64,
}

impl Width for WideEntry {
    ghost use Rattle.std.specs.Prelude.{◌<◌, ◌^◌, nat_abs, true};
    ghost use Rattle.row_arena.specs.Products.{entry_of};

    ghost entry = { entry_of };

    ghost IsKept = { λ w. nat_abs w.value < 2 ^ 126 };

    ghost takes_all = { true };

    #[inline(always)]
    fn of_pair(by: Factors, pair: Pair) -> Option<WideEntry> {
        Some(wide_of(by, pair))
    }

    #[inline(always)]
    fn is_zero(self) -> bool {
        self.value == 0
    }
}

// What comes of a pair.
#[inline(always)]
fn wide_of(by: Factors, pair: Pair) -> WideEntry
    requires { AreNear by }
    ensures column { result.column ≡ pair.column }
    ensures value { result.value ≡ (by.target *ℤ pair.target) -ℤ (by.pivot *ℤ pair.pivot) }
    ensures within { nat_abs result.value < 2 ^ 126 }
{
    WideEntry {
        column: pair.column,
        value: less(
            product(by.target, pair.target),
            product(by.pivot, pair.pivot),
        ),
    }
}

// The one less the other.
#[inline(always)]
fn less(one: i128, other: i128) -> i128
    requires one { nat_abs one < 2 ^ 125 }
    requires other { nat_abs other < 2 ^ 125 }
    ensures less { result ≡ one -ℤ other }
    ensures within { nat_abs result < 2 ^ 126 }
{
    one - other
}

// The product of two numbers of 64 bits.
#[tactic(auto, using(crate::proofs::ProductFacts::product_near))]
#[inline(always)]
fn product(left: i64, right: i64) -> i128
    requires left { nat_abs left ≤ most_entry }
    requires right { nat_abs right ≤ most_entry }
    ensures product { result ≡ left *ℤ right }
    ensures within { nat_abs result < 2 ^ 125 }
{
    left as i128 * right as i128
}
