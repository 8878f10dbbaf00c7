//! The least cost of the ways from a first stop.
ghost use Rattle.std.specs.Prelude.{◌≡◌, ◌*◌, ◌<◌, ◌^◌, Some, IfSome, length};
ghost use Rattle.exact_sums.specs.Leasts.{IsLeast};
ghost use Rattle.flow_types.specs.Limits.{most_nodes, most_periods};
ghost use Rattle.flight_routes.specs.Entries.{cell_at};
ghost use Rattle.flight_routes.specs.RateLists.{rates_of};
ghost use Rattle.exact_sums.specs.Near.{IsNear};
ghost use Rattle.flight_routes.specs.WayParts.{AreCellsIn, IsWayIn, cost_in, rates_in, row_in};
ghost use Rattle.flight_routes.specs.Ways.{IsStart, both_of, start_cost};

use crate::accesses::window_at;
use crate::cost::Cost;
use crate::rates::RateTable;
use crate::relax::cell_at;
use crate::ways::Ways;
use time_windows::Window;

/// What the ways from a first stop in the period cost at least.
pub fn start_of(rates: &RateTable, cells: &[Cost], time: u16) -> Cost
    requires length { length cells.now ≡ most_nodes * most_periods }
    requires time { time < most_periods }
    requires leaves { IfSome ((rates_of rates.now).leaves time) (IsNear (2 ^ 110)) }
    requires cell { IfSome (cell_at cells.now 0 time) (IsNear (2 ^ 111)) }
    ensures { result ≡ both_of ((rates_of rates.now).leaves time) (cell_at cells.now 0 time) }
{
    rates.leaves_at(time).and(cell_at(cells, 0, time))
}

// The least of them over the window of the first node.
fn least_start(ways: Ways<'_>, cells: &[Cost], window: Window) -> Cost
    requires window { (row_in ways 0).window ≡ Some window }
    requires length { length cells.now ≡ most_nodes * most_periods }
    requires cells { AreCellsIn ways 0 cells.now }
    ensures { IsLeast (IsStart (row_in ways.entry) (rates_in ways.entry) cells.now)
        (start_cost (rates_in ways.entry) cells.now) result }
{
    let mut least = Cost::none();
    for time in window.lo..window.hi + 1 {
        least = least.lesser(start_of(ways.rates, cells, time));
    }
    least
}

/// The least over the window of the first node, if it is open.
pub fn least_cost(ways: Ways<'_>, cells: &[Cost]) -> Cost
    requires length { length cells.now ≡ most_nodes * most_periods }
    requires cells { AreCellsIn ways 0 cells.now }
    ensures { IsLeast (IsWayIn ways.entry) (cost_in ways.entry) result }
{
    match window_at(ways.accesses, 0) {
        None => Cost::none(),
        Some(window) => least_start(ways, cells, window),
    }
}
