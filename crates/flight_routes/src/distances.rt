//! How long a flight takes at least to its destination.
ghost use Rattle.std.specs.Prelude.{◌≡◌, ◌+◌, ◌≤◌, ◌<◌, ◌*◌, ℕ, length};
ghost use Rattle.std.specs.List.{Contains};
ghost use Rattle.flow_types.specs.declared.flight.Leg.{Leg};
ghost use Rattle.flow_types.specs.Limits.{most_delay, most_nodes, most_periods};
ghost use Rattle.flight_routes.specs.Early.{AreAhead, ahead_in};
ghost use Rattle.flight_routes.specs.Ready.{IsUpward};

use flow_types::{Flight, Leg, MOST_NODES, MOST_PERIODS};

// The least by the legs from the node, as long as a day where there is none.
fn distance_from(legs: &[Leg], node: u16, distances: &[u16]) -> u16
    requires distances { length distances.now ≡ most_nodes }
    requires legs { (leg : Leg) → Contains legs.now leg
        → (leg.to < most_nodes) × (leg.least ≤ most_delay) }
    requires few { (n : ℕ) → ahead_in distances.now n ≤ most_periods }
    ensures legs { (leg : Leg) → Contains legs.now leg → leg.from ≡ node
        → result ≤ leg.least + ahead_in distances.now leg.to }
    ensures few { result ≤ most_periods }
{
    let mut least = MOST_PERIODS;
    for at in 0..legs.len() {
        let leg = legs[at];
        if leg.from == node {
            least = least.min(leg.least + distances[usize::from(leg.to)]);
        }
    }
    least
}

/// No more than the flight takes from each node to the last one: the least sum along its legs.
pub fn distances_of(flight: &Flight) -> [u16; 32]
    requires { IsUpward flight.now }
    ensures ahead { AreAhead flight.now (ahead_in result) }
    ensures few { ahead_in result 0 ≤ most_periods }
{
    let legs = flight.legs.items();
    let last = flight.nodes.items().len() - 1;
    let mut distances = [MOST_PERIODS; MOST_NODES];
    distances[last] = 0;
    for node in (0..last).rev() {
        distances[node] = distance_from(legs, node as u16, &distances);
    }
    distances
}
