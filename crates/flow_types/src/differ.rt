//! What no two items of one list may share: a name, a pair of flights, a pair of nodes.
ghost use Rattle.std.specs.Prelude.{◌≡◌, ◌≢◌, ◌↔◌, IsTrue, All, AllPairs};
ghost use Rattle.flow_types.specs.Routes.{IsOtherLeg};
ghost use Rattle.flow_types.specs.Valid.{IsOtherConnection};

use crate::flight::{Connection, CostTable, Flight, Leg};
use crate::place::Place;

/// An item that has to differ from every other one of its list.
pub trait Differ {
    ghost is_other: { Self → Self → Type 0 };

    /// Whether the two differ in what they may not share.
    fn differs(&self, other: &Self) -> bool
        ensures { IsTrue result ↔ is_other self.now other.now };
}

impl Differ for Place {
    ghost is_other = { λ a b. a.name ≢ b.name };

    fn differs(&self, other: &Self) -> bool {
        !are_same(self.name.items(), other.name.items())
    }
}

impl Differ for Flight {
    ghost is_other = { λ a b. a.name ≢ b.name };

    fn differs(&self, other: &Self) -> bool {
        !are_same(self.name.items(), other.name.items())
    }
}

impl Differ for CostTable {
    ghost is_other = { λ a b. a.name ≢ b.name };

    fn differs(&self, other: &Self) -> bool {
        !are_same(self.name.items(), other.name.items())
    }
}

impl Differ for Connection {
    ghost is_other = { IsOtherConnection };

    fn differs(&self, other: &Self) -> bool {
        self.first != other.first || self.second != other.second
    }
}

impl Differ for Leg {
    ghost is_other = { IsOtherLeg };

    fn differs(&self, other: &Self) -> bool {
        self.from != other.from || self.to != other.to
    }
}

impl Differ for u32 {
    ghost is_other = { λ a b. a ≢ b };

    fn differs(&self, other: &Self) -> bool {
        *self != *other
    }
}

/// Whether no two items share what they may not. It compares each pair.
pub fn all_differ<T: Differ>(items: &[T]) -> bool
    ensures { IsTrue result ↔ AllPairs T.is_other items.now }
{
    for at in 0..items.len() {
        if !all_differ_from(&items[..at], &items[at]) {
            return false;
        }
    }
    true
}

// Whether each item differs from the one that follows them.
fn all_differ_from<T: Differ>(items: &[T], next: &T) -> bool
    ensures { IsTrue result ↔ All (λ item. T.is_other item next.now) items.now }
{
    items.iter().all(|item| item.differs(next))
}

// Whether the bytes are the same.
fn are_same(a: &[u8], b: &[u8]) -> bool
    ensures { IsTrue result ↔ (a.now ≡ b.now) }
{
    a == b
}
