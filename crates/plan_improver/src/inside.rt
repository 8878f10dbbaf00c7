//! Whether a plan is in a box.
ghost use Rattle.std.specs.Prelude.{◌≡◌, ◌↔◌, ◌<◌, ◌^◌, All, IsTrue, ℕ, length, true};
ghost use Rattle.std.specs.List.{Any};
ghost use Rattle.time_windows.specs.Boxes.{IsInBox, IsInWindow, IsTripInBox};
ghost use Rattle.time_windows.specs.Held.{box_of};

use flow_types::{MOST_NODES, Plan, Stop};
use time_windows::{Boxes, Window};

/// Whether each stop of the plan is in its node's window, and each node that must be entered has a
/// stop. It takes no memory.
pub fn is_in_box(boxes: &Boxes, plan: &Plan) -> bool
    requires { length plan.now < 2 ^ 32 }
    ensures { IsTrue result ↔ IsInBox (box_of boxes.now) plan.now }
{
    let trips = plan.items();
    for flight in 0..trips.len() {
        if !is_trip_in_box(boxes, flight as u32, trips[flight].items()) {
            return false;
        }
    }
    true
}

// Whether the flight's trip is.
fn is_trip_in_box(boxes: &Boxes, flight: u32, stops: &[Stop]) -> bool
    ensures { IsTrue result ↔ IsTripInBox (box_of boxes.now flight) stops.now }
{
    keeps_windows(boxes, flight, stops) && keeps_musts(boxes, flight, stops)
}

// Whether each stop is in its node's window.
fn keeps_windows(boxes: &Boxes, flight: u32, stops: &[Stop]) -> bool
    ensures { IsTrue result
        ↔ All (λ stop. IsInWindow (box_of boxes.now flight stop.node).window stop.time) stops.now }
{
    stops.iter().all(|stop| is_in_window(boxes.window(flight, stop.node), stop.time))
}

// Whether the period is in the window.
fn is_in_window(window: Option<Window>, time: u16) -> bool
    ensures { IsTrue result ↔ IsInWindow window time }
{
    match window {
        None => false,
        Some(window) => window.lo <= time && time <= window.hi,
    }
}

// Whether each node that must be entered has a stop.
fn keeps_musts(boxes: &Boxes, flight: u32, stops: &[Stop]) -> bool
    ensures { IsTrue result ↔ ((node : ℕ) → (box_of boxes.now flight node).must ≡ true
        → Any (λ stop. stop.node ≡ node) stops.now) }
{
    for node in 0..MOST_NODES as u16 {
        if boxes.must(flight, node) && !has_stop(stops, node) {
            return false;
        }
    }
    true
}

// Whether a stop is at the node.
fn has_stop(stops: &[Stop], node: u16) -> bool
    ensures { IsTrue result ↔ Any (λ stop. stop.node ≡ node) stops.now }
{
    stops.iter().any(|stop| stop.node == node)
}
