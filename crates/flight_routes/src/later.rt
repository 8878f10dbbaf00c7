//! Prices added up over the periods from each one on, for the periods of a window.
ghost use Rattle.std.specs.Prelude.{◌≡◌, ◌+◌, ◌*◌, ◌≤◌, ◌<◌, ◌^◌, ℕ, All, length, slice_index, sum_by};
ghost use Rattle.flow_types.specs.Limits.{most_connections, most_periods};
ghost use Rattle.flight_routes.specs.Later.{shift_of};
ghost use Rattle.flight_routes.specs.Prices.{price_in, summed};

use crate::prices::Prices;
use flow_types::PriceKind;
use time_windows::{End, Turn, Window};

/// Sets the sum of each period of the window to what the connections cost from then on: with a
/// departure from the period itself, with an arrival from the turnaround after it.
pub fn add_up_later(
    sums: &mut [u128],
    prices: &Prices,
    turns: &[Turn],
    end: End,
    window: Window,
    periods: u16,
)
    requires sums { length sums.old ≡ periods }
    requires periods { periods ≤ most_periods }
    requires window { window.hi < periods }
    requires long { prices.now.turns.periods ≡ periods }
    requires turns { All (λ turn. turn.connection < prices.now.turns.rows) turns.now }
    requires few { length turns.now ≤ most_connections }
    ensures sums { (t : ℕ) → window.lo ≤ t → t ≤ window.hi → slice_index sums.new t
        ≡ sum_by (λ turn. summed (price_in prices.now.turns turn.connection)
        (t + shift_of end turn) periods) turns.now }
    ensures length { length sums.new ≡ periods }
    ensures small { (t : ℕ) → window.lo ≤ t → t ≤ window.hi
        → slice_index sums.new t ≤ most_connections * 2 ^ 71 }
{
    clear_sums(sums, window);
    for turn in turns {
        add_later(
            sums,
            prices,
            turn.connection,
            shift_of(end, *turn),
            window,
            periods,
        );
    }
}

// How many periods after it the connection costs.
fn shift_of(end: End, turn: Turn) -> u16
    ensures { result ≡ shift_of end turn }
{
    match end {
        End::Departure => 0,
        End::Arrival => turn.turnaround,
    }
}

// Sets the sums of the window to 0.
fn clear_sums(sums: &mut [u128], window: Window)
    requires window { window.hi < length sums.old }
    requires few { window.hi < most_periods }
    ensures length { length sums.new ≡ length sums.old }
    ensures zeros { (t : ℕ) → window.lo ≤ t → t ≤ window.hi → slice_index sums.new t ≡ 0 }
{
    for time in window.lo..window.hi + 1 {
        sums[usize::from(time)] = 0;
    }
}

// Adds to the sum of a period, if it is in the window.
fn add_in(sums: &mut [u128], window: Window, time: u16, more: u128)
    requires window { window.hi < length sums.old }
    requires low { window.lo ≤ time }
    requires small { time ≤ window.hi → slice_index sums.old time < 2 ^ 100 }
    requires more { more < 2 ^ 100 }
    ensures length { length sums.new ≡ length sums.old }
    ensures here { time ≤ window.hi
        → slice_index sums.new time ≡ slice_index sums.old time + more }
    ensures others { (t : ℕ) → t ≤ window.hi → (t ≡ time → ⊥)
        → slice_index sums.new t ≡ slice_index sums.old t }
{
    if time <= window.hi {
        sums[usize::from(time)] += more;
    }
}

// Adds to the sum of each period of the window what one connection costs from so many periods later
// on.
fn add_later(
    sums: &mut [u128],
    prices: &Prices,
    connection: u32,
    shift: u16,
    window: Window,
    periods: u16,
)
    requires sums { length sums.old ≡ periods }
    requires periods { periods ≤ most_periods }
    requires window { window.hi < periods }
    requires long { prices.now.turns.periods ≡ periods }
    requires connection { connection < prices.now.turns.rows }
    requires small { (t : ℕ) → window.lo ≤ t → t ≤ window.hi → slice_index sums.old t < 2 ^ 99 }
    ensures length { length sums.new ≡ length sums.old }
    ensures added { (t : ℕ) → window.lo ≤ t → t ≤ window.hi → slice_index sums.new t
        ≡ slice_index sums.old t
        + summed (price_in prices.now.turns connection) (t + shift) periods }
    ensures small { (t : ℕ) → window.lo ≤ t → t ≤ window.hi
        → slice_index sums.new t ≤ slice_index sums.old t + 2 ^ 71 }
{
    let turns = prices.row(PriceKind::Connection, connection);
    let mut sum = 0u128;
    let mut time = periods;
    while u32::from(window.lo) + u32::from(shift) < u32::from(time) {
        time -= 1;
        sum += u128::from(turns[usize::from(time)]);
        add_in(sums, window, time - shift, sum);
    }
}
