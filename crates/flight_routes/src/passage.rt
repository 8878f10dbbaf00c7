//! What one leg leads over.
ghost use Rattle.std.specs.Prelude.{◌≡◌, ◌≤◌, ◌<◌, ◌^◌, ℕ, IfSome, length};
ghost use Rattle.std.proofs.Props.{props};
ghost use Rattle.exact_sums.specs.Near.{IsNear};
ghost use Rattle.flow_types.specs.Limits.{most_periods};
ghost use Rattle.flight_routes.specs.Entries.{cell_in};
ghost use Rattle.flight_routes.specs.RateLists.{paid_in};

use crate::cost::Cost;
use time_windows::Window;

/// What a leg leads over, in parts of lists that are of its two nodes: what being at the first one
/// has cost up to each period, the first period from each one on in which a flight may not be
/// there, and the least cost of the ways on from the next one in each period; and when that is
/// open.
#[derive(Clone, Copy)]
pub struct Passage<'a> {
    pub paid: &'a [i128],
    pub clear: &'a [u16],
    pub cells: &'a [Cost],
    pub next: Window,
    pub ghost all_paid: { length paid.now ≡ most_periods },
    pub ghost all_clear: { length clear.now ≡ most_periods },
    pub ghost all_cells: { length cells.now ≡ most_periods },
    pub ghost last: { next.hi < most_periods },
    pub ghost small: { (t : ℕ) → IsNear (2 ^ 100) (paid_in paid.now t) },
    pub ghost costs: { (u : ℕ) → next.lo ≤ u → u ≤ next.hi
        → IfSome (cell_in cells.now u) (IsNear (2 ^ 111)) } by { Prim.hlevel props },
}
