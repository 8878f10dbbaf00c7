//! Reads and writes of a list of accesses, 32 a flight.
ghost use Rattle.std.specs.Prelude.{◌≡◌, ◌<◌};
ghost use Rattle.flow_types.specs.Limits.{most_nodes};
ghost use Rattle.time_windows.specs.Boxes.{IsWindowWithin};
ghost use Rattle.time_windows.specs.Held.{access_at};
ghost use Rattle.time_windows.specs.Narrowing.{IsSetAt};

use crate::access::{Access, Window};
use flow_types::MOST_NODES;

/// A node that the flight may not enter.
pub const CLOSED: Access = Access {
    window: None,
    must: false,
};

/// What the list says of the flight's node; where it has none, the node is closed.
pub fn access_at(accesses: &[Access], flight: u32, node: u16) -> Access
    ensures { result ≡ access_at accesses.now flight node }
{
    let node = usize::from(node);
    if node < MOST_NODES {
        accesses
            .get(flight as usize * MOST_NODES + node)
            .copied()
            .unwrap_or(CLOSED)
    } else {
        CLOSED
    }
}

/// The window of the flight's node.
pub fn window_at(accesses: &[Access], flight: u32, node: u16) -> Option<Window>
    ensures { result ≡ (access_at accesses.now flight node).window }
{
    access_at(accesses, flight, node).window
}

/// Narrows the window of the flight's node to this one.
pub fn set_window(accesses: &mut [Access], flight: u32, node: u16, window: Option<Window>)
    requires node { node < most_nodes }
    requires within { IsWindowWithin window (access_at accesses.old flight node).window }
    ensures { IsSetAt flight node window accesses.old accesses.new }
{
    let index = flight as usize * MOST_NODES + usize::from(node);
    if index < accesses.len() {
        accesses[index].window = window;
    }
}
