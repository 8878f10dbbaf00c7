//! Lower bounds on the cost of plans, and what prices are put on.

use crate::place::CapKind;

/// A lower bound on what the plans of a set cost that keep every rule: of all plans, or of a box.
#[derive(Clone, Copy, Debug, PartialEq, Eq)]
pub enum Bound {
    /// None is in the set. It is above every number.
    NoPlan,
    /// None of them costs less.
    AtLeast(i128),
}

impl Bound {
    ghost use Rattle.std.specs.Prelude.{◌≡◌, true, false};
    ghost use Rattle.flow_types.specs.Bounds.{IsAtMost, bound_of, is_reached, lesser};

    /// The bound of a least cost; that there is no plan, where there is none.
    pub fn of(least: Option<i128>) -> Bound
        ensures { result ≡ bound_of least }
    {
        match least {
            None => Bound::NoPlan,
            Some(least) => Bound::AtLeast(least),
        }
    }

    /// Whether it is above the other one. That there is no plan is above every number.
    pub fn is_above(self, other: Bound) -> bool
        ensures above { result ≡ true → IsAtMost other self }
        ensures strictly { result ≡ true → IsAtMost self other → ⊥ }
        ensures not { result ≡ false → IsAtMost self other }
    {
        match (self, other) {
            (_, Bound::NoPlan) => false,
            (Bound::NoPlan, Bound::AtLeast(_)) => true,
            (Bound::AtLeast(first), Bound::AtLeast(second)) => first > second,
        }
    }

    /// Whether nothing is left to be gained below the cutoff, the cost of a known plan: there is no
    /// plan, or none that costs less. Where no plan is known, a number leaves something.
    pub fn is_reached(self, cutoff: Option<i64>) -> bool
        ensures { result ≡ is_reached cutoff self }
    {
        match (cutoff, self) {
            (_, Bound::NoPlan) => true,
            (None, Bound::AtLeast(_)) => false,
            (Some(cutoff), Bound::AtLeast(least)) => i128::from(cutoff) <= least,
        }
    }

    /// The lesser of two.
    pub fn lesser(self, other: Bound) -> Bound
        ensures { result ≡ lesser self other }
    {
        match (self, other) {
            (Bound::NoPlan, other) => other,
            (first, Bound::NoPlan) => first,
            (Bound::AtLeast(first), Bound::AtLeast(second)) => Bound::AtLeast(first.min(second)),
        }
    }
}

/// What prices are put on.
#[derive(Clone, Copy, Debug, PartialEq, Eq)]
pub enum PriceKind {
    /// The capacities of places, of this kind.
    Capacity(CapKind),
    /// Connections.
    Connection,
}

/// What one price is put on: a capacity in a period, or a connection from a period on. The row is
/// the position of the place or of the connection.
#[derive(Clone, Copy, Debug, PartialEq, Eq)]
pub struct PriceKey {
    pub kind: PriceKind,
    pub row: u32,
    pub period: u16,
}
