//! The tests of a flight's route network. Each answers true exactly where its definition holds.
ghost use Rattle.std.specs.Prelude.{◌≡◌, ◌≢◌, ◌<◌, ◌≤◌, ◌+◌, ◌-◌, ◌↔◌, ℕ, length, slice_get, slice_index, IsTrue, All, AllPairs};
ghost use Rattle.flow_types.specs.Limits.{most_legs, most_nodes};
ghost use Rattle.flow_types.specs.Routes.{IsLeg, IsOtherLeg, IsRoute, is_entered, is_left, is_sector, starts_in_order};

use crate::differ::all_differ;
use crate::flight::Leg;
use crate::limits::{MOST_DELAY, MOST_LEGS, MOST_NODES};
use crate::lookup::is_sector;
use crate::place::Place;

/// Whether the nodes and legs are a route from the origin to the destination.
pub fn is_route(
    places: &[Place],
    origin: u32,
    destination: u32,
    nodes: &[u32],
    legs: &[Leg],
) -> bool
    ensures { IsTrue result ↔ IsRoute places.now origin destination nodes.now legs.now }
{
    are_nodes(places, origin, destination, nodes)
        && are_legs(nodes.len(), legs)
        && are_all_entered(nodes.len(), legs)
        && are_all_left(nodes.len(), legs)
}

// Whether the nodes are the origin, different sectors, and the destination.
fn are_nodes(places: &[Place], origin: u32, destination: u32, nodes: &[u32]) -> bool
    ensures { IsTrue result ↔ (2 ≤ length nodes.now) × (length nodes.now ≤ most_nodes)
        × (slice_index nodes.now 0 ≡ origin)
        × (slice_index nodes.now (length nodes.now - 1) ≡ destination)
        × ((k : ℕ) → 0 < k → k + 1 < length nodes.now
        → IsTrue (is_sector (slice_get places.now (slice_index nodes.now k))))
        × AllPairs (λ a b. a ≢ b) nodes.now }
{
    2 <= nodes.len()
        && nodes.len() <= MOST_NODES
        && nodes[0] == origin
        && nodes[nodes.len() - 1] == destination
        && are_sectors_between(places, nodes)
        && all_differ(nodes)
}

// Whether a sector stands at each node but the first and the last.
fn are_sectors_between(places: &[Place], nodes: &[u32]) -> bool
    requires { 2 ≤ length nodes.now }
    ensures { IsTrue result
        ↔ ((k : ℕ) → 0 < k → k + 1 < length nodes.now
        → IsTrue (is_sector (slice_get places.now (slice_index nodes.now k)))) }
{
    for k in 1..nodes.len() - 1 {
        if !is_sector(places, nodes[k]) {
            return false;
        }
    }
    true
}

// Whether the legs are different ones between the nodes, in the order of their starts.
fn are_legs(nodes: usize, legs: &[Leg]) -> bool
    ensures { IsTrue result ↔ (length legs.now ≤ most_legs) × All (IsLeg nodes) legs.now
        × AllPairs IsOtherLeg legs.now × IsTrue (starts_in_order 1 legs.now) }
{
    legs.len() <= MOST_LEGS
        && legs.iter().all(|leg| is_leg(nodes, *leg))
        && all_differ(legs)
        && starts_in_order(legs)
}

// Whether the leg is between nodes, upward, and of a time within its limit.
fn is_leg(nodes: usize, leg: Leg) -> bool
    ensures { IsTrue result ↔ IsLeg nodes leg }
{
    leg.from < leg.to && (leg.to as usize) < nodes && leg.least <= MOST_DELAY
}

// Whether each leg starts at the origin, at an earlier leg's start, or at the next sector.
fn starts_in_order(legs: &[Leg]) -> bool
    ensures { result ≡ starts_in_order 1 legs.now }
{
    let mut next = 1u32;
    for leg in legs {
        let from = u32::from(leg.from);
        if from > next {
            return false;
        }
        next = next.max(from + 1);
    }
    true
}

// Whether each node but the first is entered.
fn are_all_entered(nodes: usize, legs: &[Leg]) -> bool
    ensures { IsTrue result ↔ ((k : ℕ) → 0 < k → k < nodes → IsTrue (is_entered legs.now k)) }
{
    for k in 1..nodes {
        if !is_entered(legs, k) {
            return false;
        }
    }
    true
}

// Whether some leg enters the node.
fn is_entered(legs: &[Leg], node: usize) -> bool
    ensures { result ≡ is_entered legs.now node }
{
    legs.iter().any(|leg| leg.to as usize == node)
}

// Whether each node but the last is left.
fn are_all_left(nodes: usize, legs: &[Leg]) -> bool
    ensures { IsTrue result ↔ ((k : ℕ) → k + 1 < nodes → IsTrue (is_left legs.now k)) }
{
    for k in 1..nodes {
        if !is_left(legs, k - 1) {
            return false;
        }
    }
    true
}

// Whether some leg leaves the node.
fn is_left(legs: &[Leg], node: usize) -> bool
    ensures { result ≡ is_left legs.now node }
{
    legs.iter().any(|leg| leg.from as usize == node)
}
