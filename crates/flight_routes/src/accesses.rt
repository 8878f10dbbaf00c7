//! What a row of accesses says of a node, and of all.
ghost use Rattle.std.specs.Prelude.{◌≡◌, ◌≤◌, ◌<◌, ◌-◌, ℕ, length};
ghost use Rattle.flow_types.specs.Limits.{most_nodes};
ghost use Rattle.time_windows.specs.Boxes.{IsInWindow, IsProper};
ghost use Rattle.flight_routes.specs.Ready.{AreWindows, IsInSpan, row_of};
ghost use Rattle.flight_routes.specs.Ways.{IsLimit};

use flow_types::MOST_NODES;
use time_windows::{Access, Window};

/// The window of the node.
pub fn window_at(accesses: &[Access], node: u16) -> Option<Window>
    requires accesses { length accesses.now ≡ most_nodes }
    requires node { node < most_nodes }
    ensures { result ≡ (row_of accesses.now node).window }
{
    accesses[usize::from(node)].window
}

// Whether the node must be entered.
fn must_at(accesses: &[Access], node: u16) -> bool
    requires accesses { length accesses.now ≡ most_nodes }
    requires node { node < most_nodes }
    ensures { result ≡ (row_of accesses.now node).must }
{
    accesses[usize::from(node)].must
}

/// The first node after this one that must be entered, or the number of the nodes.
pub fn limit_of(accesses: &[Access], nodes: u16, node: u16) -> u16
    requires accesses { length accesses.now ≡ most_nodes }
    requires nodes { nodes ≤ most_nodes }
    requires node { node < nodes }
    ensures { IsLimit (row_of accesses.now) nodes node result }
{
    for next in node + 1..nodes {
        if must_at(accesses, next) {
            return next;
        }
    }
    nodes
}

// The span with the periods of a window.
fn with_window(span: Window, window: Option<Window>) -> Window
    ensures span { (t : ℕ) → IsInSpan span t → IsInSpan result t }
    ensures window { (t : ℕ) → IsInWindow window t → IsInSpan result t }
    ensures day { (last : ℕ) → span.hi ≤ last → ((t : ℕ) → IsInWindow window t → t ≤ last)
        → IsProper window → result.hi ≤ last }
{
    match window {
        None => span,
        Some(window) => Window {
            lo: span.lo.min(window.lo),
            hi: span.hi.max(window.hi),
        },
    }
}

/// The periods of a day from the first to the last in which a node is open.
pub fn span_of(accesses: &[Access], periods: u16) -> Window
    requires accesses { length accesses.now ≡ most_nodes }
    requires proper { (n : ℕ) → IsProper (row_of accesses.now n).window }
    requires day { (n t : ℕ) → IsInWindow (row_of accesses.now n).window t → t < periods }
    requires some { 0 < periods }
    ensures windows { AreWindows result (row_of accesses.now) }
    ensures day { result.hi < periods }
{
    let mut span = Window {
        lo: periods - 1,
        hi: 0,
    };
    for node in 0..MOST_NODES {
        span = with_window(span, window_at(accesses, node as u16));
    }
    span
}
