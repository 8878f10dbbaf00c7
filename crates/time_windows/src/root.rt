//! The root box.
ghost use Rattle.std.specs.Prelude.{◌≡◌, ◌≤◌, ◌<◌, ◌+◌, ◌^◌};
ghost use Rattle.flow_types.specs.Trips.{earliest_of, latest_of};
ghost use Rattle.time_windows.specs.Boxes.{root_access};

use crate::access::{Access, Window};
use crate::accesses::CLOSED;
use flow_types::Flight;

/// What the root box says of the flight's node.
pub fn root_access(periods: u16, flight: &Flight, node: u16) -> Access
    requires periods { 1 ≤ periods }
    requires leaves { flight.now.sd + flight.now.mg < 2 ^ 16 }
    requires arrives { flight.now.sa + flight.now.md < 2 ^ 16 }
    ensures { result ≡ root_access periods flight.now node }
{
    let nodes = flight.nodes.items().len();
    if usize::from(node) < nodes {
        Access {
            window: Some(Window {
                lo: earliest_of(flight, node),
                hi: latest_of(periods, flight, node),
            }),
            must: node == 0 || usize::from(node) + 1 == nodes,
        }
    } else {
        CLOSED
    }
}

// The first period in which the flight may enter the node.
fn earliest_of(flight: &Flight, node: u16) -> u16
    ensures { result ≡ earliest_of flight.now node }
{
    if node == 0 {
        flight.sd
    } else if usize::from(node) + 1 == flight.nodes.items().len() {
        flight.sa
    } else {
        0
    }
}

// The last one.
fn latest_of(periods: u16, flight: &Flight, node: u16) -> u16
    requires periods { 1 ≤ periods }
    requires leaves { flight.now.sd + flight.now.mg < 2 ^ 16 }
    requires arrives { flight.now.sa + flight.now.md < 2 ^ 16 }
    ensures { result ≡ latest_of periods flight.now node }
{
    if node == 0 {
        (flight.sd + flight.mg).min(periods - 1)
    } else if usize::from(node) + 1 == flight.nodes.items().len() {
        (flight.sa + flight.md).min(periods - 1)
    } else {
        periods - 1
    }
}
