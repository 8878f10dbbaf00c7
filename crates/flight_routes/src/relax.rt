//! What one leg offers to the stops at its start.
ghost use Rattle.std.specs.Prelude.{◌≡◌, ◌*◌, ◌+◌, ◌≤◌, ◌<◌, ◌^◌, ℕ, None, IfSome, length, slice_index_or};
ghost use Rattle.exact_sums.specs.Leasts.{IsLeast, raised};
ghost use Rattle.flow_types.specs.Limits.{most_delay, most_nodes, most_periods};
ghost use Rattle.flight_routes.specs.Entries.{IsEntry, IsMove, Offers, cell_at, cell_in, entered_of, entry_cost, kept_of, offered_of};
ghost use Rattle.flight_routes.specs.PassageParts.{cells_over, clear_over, paid_over};
ghost use Rattle.flight_routes.specs.RateLists.{clear_in, paid_in};
ghost use Rattle.flight_routes.specs.Rates.{IsClear};
ghost use Rattle.exact_sums.specs.Near.{IsNear};

use crate::cost::Cost;
use crate::passage::Passage;
use crate::rates::place_of;
use time_windows::Window;

/// What the cells hold for the node and the period.
pub fn cell_at(cells: &[Cost], node: u16, time: u16) -> Cost
    requires cells { length cells.now ≡ most_nodes * most_periods }
    requires node { node < most_nodes }
    requires time { time < most_periods }
    ensures { result ≡ cell_at cells.now node time }
{
    cells[place_of(node, time)]
}

// The least entry from the next period on, where the flight may wait for it.
fn kept_of(clear: &[u16], time: u16, wait: Cost) -> Cost
    requires clear { length clear.now ≡ most_periods }
    requires time { time < most_periods }
    ensures { result ≡ kept_of (clear_in clear.now) time wait }
{
    if clear_at(clear, time) == time {
        Cost::none()
    } else {
        wait
    }
}

/// What an entry in the period costs, with a way on from there.
pub fn entry_at(paid: &[i128], cells: &[Cost], time: u16) -> Cost
    requires paid { length paid.now ≡ most_periods }
    requires cells { length cells.now ≡ most_periods }
    requires time { time < most_periods }
    requires small { IsNear (2 ^ 100) (paid_in paid.now time) }
    requires cost { IfSome (cell_in cells.now time) (IsNear (2 ^ 111)) }
    ensures { result ≡ raised (paid_in paid.now time) (cell_in cells.now time) }
{
    cells[usize::from(time)].plus(paid[usize::from(time)])
}

// What an entry in the period costs, with a way on from there, if the next node is open then.
fn entered_of(passage: Passage<'_>, time: u16) -> Cost
    requires { time ≤ passage.next.hi }
    ensures { result
        ≡ entered_of (paid_over passage.entry) (cells_over passage.entry) passage.entry.next time }
{
    if passage.next.lo <= time {
        entry_at(passage.paid, passage.cells, time)
    } else {
        Cost::none()
    }
}

// The first period from this one on in which the flight may not be there.
fn clear_at(clear: &[u16], time: u16) -> u16
    requires clear { length clear.now ≡ most_periods }
    requires time { time < most_periods }
    ensures { result ≡ clear_in clear.now time }
{
    clear[usize::from(time)]
}

// What the slot of a period becomes.
fn offered_of(clear: &[u16], from: u16, time: u16, wait: Cost, slot: Cost) -> Cost
    requires clear { length clear.now ≡ most_periods }
    requires from { from < most_periods }
    ensures { result ≡ offered_of (clear_in clear.now) from time wait slot }
{
    if time <= clear_at(clear, from) {
        slot.lesser(wait)
    } else {
        slot
    }
}

// The least entry from this period on, by that from the next one on.
fn wait_from(passage: Passage<'_>, time: u16, wait: Cost) -> Cost
    requires hi { time ≤ passage.next.hi }
    requires kept { IsClear time passage.next.hi (clear_over passage) }
    requires wait { IsLeast (IsEntry (clear_over passage) (cells_over passage) passage.next
        (time + 1)) (entry_cost (paid_over passage) (cells_over passage)) wait }
    ensures { IsLeast (IsEntry (clear_over passage.entry) (cells_over passage.entry)
        passage.entry.next time) (entry_cost (paid_over passage.entry) (cells_over passage.entry))
        result }
{
    let entered = entered_of(passage, time);
    kept_of(passage.clear, time, wait).lesser(entered)
}

// Offers to the slot of a period, if it is in the window, the least entry in a period or later.
fn offer(clear: &[u16], window: Window, from: u16, time: u16, wait: Cost, row: &mut [Cost])
    requires clear { length clear.now ≡ most_periods }
    requires row { length row.old ≡ most_periods }
    requires end { window.hi < most_periods }
    ensures here { from ≤ window.hi → slice_index_or row.new from None
        ≡ offered_of (clear_in clear.now) from time wait (slice_index_or row.old from None) }
    ensures other { (t : ℕ) → (t ≡ from → ⊥)
        → slice_index_or row.new t None ≡ slice_index_or row.old t None }
{
    if from <= window.hi {
        let at = usize::from(from);
        row[at] = offered_of(clear, from, time, wait, row[at]);
    }
}

/// Offers to the slot of each period of a window the least entry by a leg of so many periods.
pub fn relax(passage: Passage<'_>, least: u16, window: Window, row: &mut [Cost])
    requires row { length row.old ≡ most_periods }
    requires least { least ≤ most_delay }
    requires proper { window.lo ≤ window.hi }
    requires end { window.hi < most_periods }
    requires kept { IsClear window.lo passage.next.hi (clear_over passage) }
    ensures { (t : ℕ) → window.lo ≤ t → t ≤ window.hi → Offers
        (IsMove (clear_over passage.entry) (cells_over passage.entry) passage.entry.next least t)
        (entry_cost (paid_over passage.entry) (cells_over passage.entry))
        (slice_index_or row.old t None) (slice_index_or row.new t None) }
{
    let mut wait = Cost::none();
    for time in (window.lo + least..passage.next.hi + 1).rev() {
        wait = wait_from(passage, time, wait);
        offer(passage.clear, window, time - least, time, wait, row);
    }
}
