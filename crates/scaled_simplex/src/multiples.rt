//! The least common multiple of denominators, one fraction after the other.
ghost use Rattle.std.specs.Prelude.{◌≡◌, ◌<◌, ◌≤◌, ◌*◌, ◌%◌, pos, ◌*ℤ◌};
ghost use Rattle.row_arena.specs.Rows.{most_entry};
ghost use Rattle.scaled_simplex.specs.Multiples.{IsDivisor, IsLeastWith};

/// A fraction of 0 or more.
#[derive(Clone, Copy)]
pub struct Quotient {
    pub top: u64,
    pub bottom: u64,
    pub ghost some: { 0 < bottom },
    pub ghost top_near: { top ≤ most_entry },
    pub ghost bottom_near: { bottom ≤ most_entry },
}

/// The least multiple of the denominator by which the fraction is whole.
pub fn multiple_with(denominator: u64, of: Quotient) -> u128
    requires some { 0 < denominator }
    requires near { denominator ≤ most_entry }
    ensures { IsLeastWith denominator of.top of.bottom result }
{
    let rest = rest_of(denominator, of);
    let factor = of.bottom / common_divisor(of.bottom, rest);
    product(denominator, factor)
}

// What is left when the fraction's top, times the denominator, is divided by its bottom: 0 where
// the denominator makes the fraction whole.
fn rest_of(denominator: u64, of: Quotient) -> u64
    requires { denominator ≤ most_entry }
    ensures { result ≡ (of.top * denominator) % of.bottom }
{
    (product(of.top, denominator) % of.bottom as u128) as u64
}

/// The fraction as a numerator over the denominator, by which it is whole.
#[tactic(auto, using(crate::proofs::MultipleFacts::numerator_is, crate::proofs::MultipleFacts::numerator_near))]
pub fn numerator_over(denominator: u64, of: Quotient) -> i128
    requires near { denominator ≤ most_entry }
    requires whole { (of.top * denominator) % of.bottom ≡ 0 }
    ensures { pos of.bottom *ℤ result ≡ pos of.top *ℤ pos denominator }
{
    let size = product(of.top, denominator) / of.bottom as u128;
    size as i128
}

// The product of two numbers that are no greater than an entry may be.
#[tactic(auto, using(crate::proofs::MultipleFacts::product_near))]
fn product(left: u64, right: u64) -> u128
    requires left { left ≤ most_entry }
    requires right { right ≤ most_entry }
    ensures { result ≡ left * right }
{
    left as u128 * right as u128
}

// The greatest common divisor.
fn common_divisor(a: u64, b: u64) -> u64
    ensures { IsDivisor a b result }
{
    let mut x = a;
    let mut y = b;
    while y != 0 {
        let rest = x % y;
        x = y;
        y = rest;
    }
    x
}
