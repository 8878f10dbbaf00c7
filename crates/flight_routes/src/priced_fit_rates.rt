//! The rates of a flight under prices, beside the trips of others.
ghost use Rattle.std.specs.Prelude.{◌≡◌, ◌≤◌, ◌<◌, ℕ, length};
ghost use Rattle.flow_types.specs.Limits.{most_nodes, most_periods};
ghost use Rattle.time_windows.specs.Boxes.{IsInWindow};
ghost use Rattle.flight_routes.specs.Filling.{AreSmallAt, OnlyEnd};
ghost use Rattle.flight_routes.specs.PricedFitRates.{if_both};
ghost use Rattle.flight_routes.specs.RateLists.{rates_of};
ghost use Rattle.flight_routes.specs.Rates.{rate_at};
ghost use Rattle.flight_routes.specs.Ready.{AreWindows, row_of};

use crate::cost::Cost;
use crate::rates::RateTable;
use time_windows::{Access, End, Window};

// Closes this end of the trip in each period of the window in which the flight may not be there
// beside the loads.
#[tactic(auto, using(crate::proofs::FillFacts::end_more, crate::proofs::FillFacts::end_none))]
fn close_end(table: &mut RateTable, fits: &RateTable, end: End, window: Window)
    requires { window.hi < most_periods }
    ensures costs { (t : ℕ) → window.lo ≤ t → t ≤ window.hi
        → rate_at end (rates_of table.new) t
        ≡ if_both (rate_at end (rates_of fits.now) t) (rate_at end (rates_of table.old) t) }
    ensures only { OnlyEnd end table.old table.new }
    ensures within { AreSmallAt end table.old → AreSmallAt end table.new }
{
    for time in window.lo..window.hi + 1 {
        if !fits.end_at(end, time).is_some() {
            table.set_end(end, time, Cost::none());
        }
    }
}

/// Closes this end of the trip in each period in which the flight may not be there beside the
/// loads, where its node is open.
pub fn close_end_in(
    table: &mut RateTable,
    fits: &RateTable,
    end: End,
    accesses: &[Access],
    node: u16,
)
    requires accesses { length accesses.now ≡ most_nodes }
    requires windows { AreWindows table.old.span (row_of accesses.now) }
    requires few { table.old.span.hi < most_periods }
    requires node { node < most_nodes }
    ensures costs { (t : ℕ) → IsInWindow (row_of accesses.now node).window t
        → rate_at end (rates_of table.new) t
        ≡ if_both (rate_at end (rates_of fits.now) t) (rate_at end (rates_of table.old) t) }
    ensures only { OnlyEnd end table.old table.new }
    ensures within { AreSmallAt end table.old → AreSmallAt end table.new }
{
    if let Some(window) = accesses[usize::from(node)].window {
        close_end(table, fits, end, window);
    }
}
