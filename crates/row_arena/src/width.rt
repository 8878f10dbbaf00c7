//! How wide the numbers are that come of two rows side by side.
ghost use Rattle.std.specs.Prelude.{◌≡◌, Bool, IfSome, IsSome, IsTrue, pos};
ghost use Rattle.std.specs.Ordering.{int_eq};
ghost use Rattle.row_arena.specs.Products.{AreNear, came_of};
ghost use Rattle.row_arena.specs.declared.entry.Entry.{Entry};

use crate::pair::Pair;
use crate::products::Factors;

/// A number in a column, in so many bits.
pub trait Width: Copy {
    /// As an entry of a row.
    ghost entry: { Self → Entry };

    /// What is known of a number that came of a pair.
    ghost IsKept: { Self → Type 0 };

    /// Whether there are enough bits for whatever comes of a pair.
    ghost takes_all: { Bool };

    /// What comes of a pair by these factors: as often the target's entry as the one, less as often
    /// the pivot's as the other. There may be none where that or a part of it is too far from 0.
    fn of_pair(by: Factors, pair: Pair) -> Option<Self>
        requires { AreNear by }
        ensures came { IfSome result (λ item. entry item ≡ came_of by pair) }
        ensures kept { IfSome result IsKept }
        ensures all { IsTrue takes_all → IsSome result };

    /// Whether the number is 0.
    fn is_zero(self) -> bool
        ensures { result ≡ int_eq (entry self).value (pos 0) };
}
