//! When its connections let a flight leave and arrive, beside the flights that are there.
ghost use Rattle.std.specs.Prelude.{◌≤◌, ◌<◌, ◌^◌, ◌↔◌, ℕ, All, length};
ghost use Rattle.flight_routes.specs.TurnTimes.{IsAfter, IsInTime};

use plan_rules::Loads;
use time_windows::Turn;

/// The first period in which the flight may leave, after the flights that it waits for.
pub fn first_leave(turns: &[Turn], loads: &Loads) -> u32
    requires { All (λ turn. turn.other < length loads.now.arrives) turns.now }
    ensures { (time : ℕ) → (result ≤ time) ↔ All (IsAfter loads.now time) turns.now }
{
    let mut first = 0u32;
    for turn in turns {
        first = first.max(leave_after(*turn, loads));
    }
    first
}

// The first period after the turnaround from the other flight, 0 where that isn't there.
fn leave_after(turn: Turn, loads: &Loads) -> u32
    requires { turn.other < length loads.now.arrives }
    ensures { (time : ℕ) → (result ≤ time) ↔ IsAfter loads.now time turn }
{
    match loads.arrival(turn.other) {
        None => 0,
        Some(arrives) => u32::from(arrives) + u32::from(turn.turnaround),
    }
}

/// The first period in which the flight may no longer arrive, before the flights that wait for it.
pub fn arrive_limit(turns: &[Turn], loads: &Loads) -> u32
    requires { All (λ turn. turn.other < length loads.now.leaves) turns.now }
    ensures { (time : ℕ) → time < 2 ^ 16
        → (time < result) ↔ All (IsInTime loads.now time) turns.now }
{
    let mut limit = u32::MAX;
    for turn in turns {
        limit = limit.min(arrive_before(*turn, loads));
    }
    limit
}

// The first period with no time for the turnaround to the other flight, a late one where that isn't
// there.
fn arrive_before(turn: Turn, loads: &Loads) -> u32
    requires { turn.other < length loads.now.leaves }
    ensures { (time : ℕ) → time < 2 ^ 16 → (time < result) ↔ IsInTime loads.now time turn }
{
    match loads.departure(turn.other) {
        None => u32::MAX,
        Some(leaves) => (u32::from(leaves) + 1).saturating_sub(u32::from(turn.turnaround)),
    }
}
