//! The least cost of the ways on from each stop, node by node from the last.
ghost use Rattle.std.specs.Prelude.{◌≡◌, ◌*◌, ◌+◌, ◌≤◌, ◌<◌, ◌^◌, ℕ, None, Some, IfSome, length, neg_ℤ, slice_index_or};
ghost use Rattle.exact_sums.specs.Leasts.{IsLeast, raised};
ghost use Rattle.flow_types.specs.Limits.{most_nodes, most_periods};
ghost use Rattle.flow_types.specs.Routes.{IsLeg};
ghost use Rattle.time_windows.specs.Boxes.{IsInWindow};
ghost use Rattle.flight_routes.specs.Entries.{IsMoveBy, Offers, cell_at, entry_cost};
ghost use Rattle.flight_routes.specs.RateLists.{paid_in, rates_of};
ghost use Rattle.flight_routes.specs.Rates.{IsWayOn};
ghost use Rattle.exact_sums.specs.Near.{IsNear};
ghost use Rattle.flight_routes.specs.WayParts.{AreCellsIn, rates_in, row_in};
ghost use Rattle.flight_routes.specs.Ways.{HasLegsFrom, IsCell, IsLimit, entered_cost, stop_at};

use crate::accesses::{limit_of, window_at};
use crate::cost::Cost;
use crate::passage::Passage;
use crate::rates::{RateTable, part_of, place_of};
use crate::relax::relax;
use crate::ways::Ways;
use flow_types::Leg;
use time_windows::Window;

// An open node, and how far a leg from there may lead.
#[derive(Clone, Copy)]
struct Origin {
    node: u16,
    window: Window,
    limit: u16,
}

// Offers to the slot of each period of the node's window the least entry by a leg, if it starts
// there.
fn relax_leg(ways: Ways<'_>, cells: &[Cost], origin: Origin, leg: Leg, row: &mut [Cost])
    requires cells { length cells.now ≡ most_nodes * most_periods }
    requires row { length row.old ≡ most_periods }
    requires node { origin.node < length ways.flight.now.nodes }
    requires leg { IsLeg (length ways.flight.now.nodes) leg }
    requires window { (row_in ways origin.node).window ≡ Some origin.window }
    requires limit { IsLimit (row_in ways) (length ways.flight.now.nodes) origin.node origin.limit }
    requires costs { (n u : ℕ) → origin.node < n → n < length ways.flight.now.nodes
        → IsInWindow (row_in ways n).window u → IfSome (cell_at cells.now n u) (IsNear (2 ^ 111)) }
    ensures { (t : ℕ) → origin.window.lo ≤ t → t ≤ origin.window.hi → Offers
        (IsMoveBy (row_in ways.entry) (rates_in ways.entry) cells.now leg origin.node t)
        (entry_cost ((rates_in ways.entry).paid origin.node) (cell_at cells.now leg.to))
        (slice_index_or row.old t None) (slice_index_or row.new t None) }
{
    let Origin {
        node,
        window,
        limit,
    } = origin;
    if leg.from == node && leg.to <= limit {
        if let Some(next) = window_at(ways.accesses, leg.to) {
            let passage = Passage {
                paid: ways.rates.paid_part(node),
                clear: ways.rates.clear_part(node),
                cells: part_of(cells, leg.to),
                next,
            };
            relax(passage, leg.least, window, row);
        }
    }
}

// Puts nothing into the slots of a window.
fn clear_row(window: Window, row: &mut [Cost])
    requires row { length row.old ≡ most_periods }
    requires end { window.hi < most_periods }
    ensures { (t : ℕ) → window.lo ≤ t → t ≤ window.hi → slice_index_or row.new t None ≡ None }
{
    for time in window.lo..window.hi + 1 {
        row[usize::from(time)] = Cost::none();
    }
}

// Puts into the slot of each period of a window what arriving then costs.
fn arrive_row(rates: &RateTable, window: Window, row: &mut [Cost])
    requires row { length row.old ≡ most_periods }
    requires end { window.hi < most_periods }
    ensures { (t : ℕ) → window.lo ≤ t → t ≤ window.hi
        → slice_index_or row.new t None ≡ (rates_of rates.now).arrives t }
{
    for time in window.lo..window.hi + 1 {
        row[usize::from(time)] = rates.arrives_at(time);
    }
}

// Puts into the slot of each period of a node's window the least cost of the ways on from there,
// with what being at the node had cost by then.
fn enter_row(
    ways: Ways<'_>,
    legs: &[Leg],
    cells: &[Cost],
    node: u16,
    window: Window,
    row: &mut [Cost],
)
    requires legs { HasLegsFrom node ways.flight.now.legs legs.now }
    requires length { length cells.now ≡ most_nodes * most_periods }
    requires cells { AreCellsIn ways (node + 1) cells.now }
    requires node { node + 1 < length ways.flight.now.nodes }
    requires window { (row_in ways node).window ≡ Some window }
    requires row { length row.old ≡ most_periods }
    ensures { (t : ℕ) → window.lo ≤ t → t ≤ window.hi
        → IsLeast (IsWayOn ways.entry.flight.now (row_in ways.entry) (rates_in ways.entry)
        (stop_at node t)) (entered_cost (rates_in ways.entry) (stop_at node t))
        (slice_index_or row.new t None) }
{
    let nodes = ways.flight.nodes.items().len() as u16;
    let origin = Origin {
        node,
        window,
        limit: limit_of(ways.accesses, nodes, node),
    };
    clear_row(window, row);
    for at in 0..legs.len() {
        relax_leg(ways, cells, origin, legs[at], row);
    }
}

// Takes from the slot of each period of a window what being at the node had cost by then.
fn lower_row(paid: &[i128], window: Window, row: &mut [Cost])
    requires paid { length paid.now ≡ most_periods }
    requires row { length row.old ≡ most_periods }
    requires end { window.hi < most_periods }
    requires small { (t : ℕ) → IsNear (2 ^ 100) (paid_in paid.now t) }
    requires costs { (t : ℕ) → window.lo ≤ t → t ≤ window.hi
        → IfSome (slice_index_or row.old t None) (IsNear (2 ^ 112)) }
    ensures { (t : ℕ) → window.lo ≤ t → t ≤ window.hi → slice_index_or row.new t None
        ≡ raised (neg_ℤ (paid_in paid.now t)) (slice_index_or row.old t None) }
{
    for time in window.lo..window.hi + 1 {
        let at = usize::from(time);
        row[at] = row[at].minus(paid[at]);
    }
}

// Puts into the slot of each period of a node's window the least cost of the ways on from there.
fn leave_row(
    ways: Ways<'_>,
    legs: &[Leg],
    cells: &[Cost],
    node: u16,
    window: Window,
    row: &mut [Cost],
)
    requires legs { HasLegsFrom node ways.flight.now.legs legs.now }
    requires length { length cells.now ≡ most_nodes * most_periods }
    requires cells { AreCellsIn ways (node + 1) cells.now }
    requires node { node + 1 < length ways.flight.now.nodes }
    requires window { (row_in ways node).window ≡ Some window }
    requires row { length row.old ≡ most_periods }
    ensures { (t : ℕ) → window.lo ≤ t → t ≤ window.hi
        → IsCell ways.entry.flight.now (row_in ways.entry) (rates_in ways.entry) node t
        (slice_index_or row.new t None) }
{
    enter_row(ways, legs, cells, node, window, row);
    lower_row(ways.rates.paid_part(node), window, row);
}

// Fills the row of any node, the last one among them.
fn fill_row(
    ways: Ways<'_>,
    legs: &[Leg],
    cells: &[Cost],
    node: u16,
    window: Window,
    row: &mut [Cost],
)
    requires legs { HasLegsFrom node ways.flight.now.legs legs.now }
    requires length { length cells.now ≡ most_nodes * most_periods }
    requires cells { AreCellsIn ways (node + 1) cells.now }
    requires node { node < length ways.flight.now.nodes }
    requires window { (row_in ways node).window ≡ Some window }
    requires row { length row.old ≡ most_periods }
    ensures { (t : ℕ) → window.lo ≤ t → t ≤ window.hi
        → IsCell ways.entry.flight.now (row_in ways.entry) (rates_in ways.entry) node t
        (slice_index_or row.new t None) }
{
    if usize::from(node) + 1 == ways.flight.nodes.items().len() {
        arrive_row(ways.rates, window, row);
    } else {
        leave_row(ways, legs, cells, node, window, row);
    }
}

// Copies the slots of a node's window into its cells.
fn store(row: &[Cost], node: u16, window: Window, cells: &mut [Cost])
    requires row { length row.now ≡ most_periods }
    requires cells { length cells.old ≡ most_nodes * most_periods }
    requires node { node < most_nodes }
    requires end { window.hi < most_periods }
    ensures here { (t : ℕ) → window.lo ≤ t → t ≤ window.hi
        → cell_at cells.new node t ≡ slice_index_or row.now t None }
    ensures other { (n t : ℕ) → t < most_periods → (n ≡ node → ⊥)
        → cell_at cells.new n t ≡ cell_at cells.old n t }
{
    for time in window.lo..window.hi + 1 {
        cells[place_of(node, time)] = row[usize::from(time)];
    }
}

// Fills the cells of a node, where those of the nodes after it are filled. The legs are those of
// the flight from the node, it may be with others of the flight.
fn fill_node(ways: Ways<'_>, legs: &[Leg], node: u16, row: &mut [Cost], cells: &mut [Cost])
    requires legs { HasLegsFrom node ways.flight.now.legs legs.now }
    requires node { node < length ways.flight.now.nodes }
    requires row { length row.old ≡ most_periods }
    requires length { length cells.old ≡ most_nodes * most_periods }
    requires cells { AreCellsIn ways (node + 1) cells.old }
    ensures { AreCellsIn ways.entry node cells.new }
{
    if let Some(window) = window_at(ways.accesses, node) {
        fill_row(ways, legs, cells, node, window, row);
        store(row, node, window, cells);
    }
}

/// Fills the cells of all nodes, from the last to the first.
pub fn fill_nodes(ways: Ways<'_>, row: &mut [Cost], cells: &mut [Cost])
    requires row { length row.old ≡ most_periods }
    requires length { length cells.old ≡ most_nodes * most_periods }
    ensures { AreCellsIn ways.entry 0 cells.new }
{
    let legs = ways.flight.legs.items();
    let nodes = ways.flight.nodes.items().len() as u16;
    for node in (0..nodes).rev() {
        fill_node(ways, legs, node, row, cells);
    }
}
