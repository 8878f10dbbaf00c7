//! Where a plan is outside a box.
ghost use Rattle.std.specs.Prelude.{◌≡◌, ◌<◌, ◌^◌, length, option_map};
ghost use Rattle.std.specs.List.{list_any};
ghost use Rattle.time_windows.specs.Held.{box_of};
ghost use Rattle.cert_checker.specs.Outside.{first_outside, is_at, is_in_window, is_outside, is_stray, node_outside};

use flow_types::{MOST_NODES, Plan, Stop};
use time_windows::{Access, Boxes, Window};

// Whether the period is in the window.
fn is_in_window(window: Option<Window>, time: u16) -> bool
    ensures { result ≡ is_in_window window time }
{
    match window {
        None => false,
        Some(window) => window.lo <= time && time <= window.hi,
    }
}

// Whether a stop at the node isn't in its window.
fn has_stray(window: Option<Window>, node: u16, stops: &[Stop]) -> bool
    ensures { result ≡ list_any (is_stray window node) stops.now }
{
    stops.iter().any(|stop| stop.node == node && !is_in_window(window, stop.time))
}

fn has_stop(node: u16, stops: &[Stop]) -> bool
    ensures { result ≡ list_any (is_at node) stops.now }
{
    stops.iter().any(|stop| stop.node == node)
}

// Whether a stop at the node isn't in its window, or none is there and one must be.
fn is_outside(access: Access, node: u16, stops: &[Stop]) -> bool
    ensures { result ≡ is_outside access node stops.now }
{
    has_stray(access.window, node, stops) || (access.must && !has_stop(node, stops))
}

// The first node at which the trip of the flight is outside the box.
fn node_outside(boxes: &Boxes, flight: u32, stops: &[Stop]) -> Option<u16>
    ensures { result ≡ node_outside (box_of boxes.now flight) stops.now }
{
    for node in 0..MOST_NODES as u16 {
        if is_outside(boxes.access(flight, node), node, stops) {
            return Some(node);
        }
    }
    None
}

/// The first flight and node at which the plan is outside the box: a stop isn't in its node's
/// window, or there is none at a node that must be entered. It takes no memory.
pub fn first_outside(boxes: &Boxes, plan: &Plan) -> Option<(u32, u16)>
    requires { length plan.now < 2 ^ 32 }
    ensures { option_map (λ at. (at.0, at.1)) result ≡ first_outside (box_of boxes.now) plan.now }
{
    let trips = plan.items();
    for flight in 0..trips.len() {
        if let Some(node) = node_outside(boxes, flight as u32, trips[flight].items()) {
            return Some((flight as u32, node));
        }
    }
    None
}
