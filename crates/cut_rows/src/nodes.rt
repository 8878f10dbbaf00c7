//! Nodes of a flight that a cut names.
ghost use Rattle.std.specs.Prelude.{◌≡◌, slice_get};
ghost use Rattle.std.specs.List.{list_all};
ghost use Rattle.flow_types.specs.Scenario.{parts_of};
ghost use Rattle.bytime_model.specs.Rows.{is_node};
ghost use Rattle.route_distances.specs.Walks.{legs_of};
ghost use Rattle.cut_rows.specs.Cuts.{ascends_from};

use flow_types::{Leg, Scenario};

/// The legs of the flight, none where there is no such flight.
pub fn legs_at(s: &Scenario, flight: u32) -> &[Leg]
    ensures { result.now ≡ legs_of (slice_get (parts_of s.now).flights flight) }
{
    match s.flights().get(flight as usize) {
        None => &[],
        Some(flight) => flight.legs.items(),
    }
}

/// Whether the flight has the node.
pub fn is_node(s: &Scenario, flight: u32, node: u16) -> bool
    ensures { result ≡ is_node (slice_get (parts_of s.now).flights flight) node }
{
    match s.flights().get(flight as usize) {
        None => false,
        Some(flight) => usize::from(node) < flight.nodes.items().len(),
    }
}

/// Whether the flight has all of the nodes.
pub fn are_nodes(s: &Scenario, flight: u32, nodes: &[u16]) -> bool
    ensures { result ≡ list_all (is_node (slice_get (parts_of s.now).flights flight)) nodes.now }
{
    nodes.iter().all(|node| is_node(s, flight, *node))
}

/// Whether the nodes stand in ascending order.
pub fn ascends(nodes: &[u16]) -> bool
    ensures { result ≡ ascends_from 0 nodes.now }
{
    let mut low = 0;
    for node in nodes {
        if u32::from(*node) < low {
            return false;
        }
        low = u32::from(*node) + 1;
    }
    true
}
