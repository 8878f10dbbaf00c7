//! The least times from the origin.
ghost use Rattle.std.specs.Prelude.{◌≡◌, ◌≤◌, ◌<◌, ◌+◌, ◌^◌, All, IfOk, length, slice_index};
ghost use Rattle.flow_types.specs.Limits.{most_nodes};
ghost use Rattle.flow_types.specs.Routes.{IsLeg};
ghost use Rattle.route_distances.specs.Walks.{least_with, shortest_of, sooner};
ghost use Rattle.route_distances.specs.Ways.{AreShortest};

use flow_types::{Leg, OutOfMemory, Sequence};
use std::alloc::Global;

/// The least time from node 0 to each of so many nodes, from the first on.
#[tactic(auto, using(exact_sums::proofs::EachFacts::each_none, exact_sums::proofs::EachFacts::each_more, crate::proofs::TimeFacts::legs_within))]
pub fn shortest_times(alloc: Global, legs: &[Leg], nodes: u16) -> Result<Sequence<u16>, OutOfMemory>
    requires legs { All (IsLeg nodes) legs.now }
    requires few { nodes ≤ most_nodes }
    ensures { IfOk result (AreShortest legs.now nodes) }
{
    let mut times = Sequence::empty(alloc);
    for node in 0..nodes {
        times.add(time_to(times.items(), legs, node))?;
    }
    Ok(times)
}

// The least time to the node, by those of the nodes before it.
fn time_to(times: &[u16], legs: &[Leg], node: u16) -> u16
    requires times { AreShortest legs.now node times.now }
    requires legs { All (IsLeg most_nodes) legs.now }
    ensures { result ≡ shortest_of legs.now node }
{
    let mut least = None;
    for leg in legs {
        least = least_with(times, node, least, *leg);
    }
    least.unwrap_or(0)
}

// The lesser of a time and the one that the leg comes to, if it leads to the node.
fn least_with(times: &[u16], node: u16, least: Option<u16>, leg: Leg) -> Option<u16>
    requires { slice_index times.now leg.from + leg.least < 2 ^ 16 }
    ensures { result ≡ least_with (slice_index times.now) node least leg }
{
    if leg.to == node {
        let time = times.get(usize::from(leg.from)).copied().unwrap_or(0) + leg.least;
        Some(sooner(time, least))
    } else {
        least
    }
}

// The lesser of two times, where there is another.
fn sooner(time: u16, other: Option<u16>) -> u16
    ensures { result ≡ sooner time other }
{
    match other {
        None => time,
        Some(other) => time.min(other),
    }
}
