//! Sums that may be missing.
ghost use Rattle.std.specs.Prelude.{◌≡◌, ◌^◌, IfSome};
ghost use Rattle.exact_sums.specs.Near.{IsNear};
ghost use Rattle.exact_sums.specs.Sums.{plus};

/// The sum of both, where both are there. Each is no further from 0 than 2^120.
pub fn plus(sum: Option<i128>, more: Option<i128>) -> Option<i128>
    requires sum { IfSome sum (IsNear (2 ^ 120)) }
    requires more { IfSome more (IsNear (2 ^ 120)) }
    ensures { result ≡ plus sum more }
{
    match sum {
        None => None,
        Some(sum) => match more {
            None => None,
            Some(more) => Some(sum + more),
        },
    }
}
