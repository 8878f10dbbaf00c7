//! The distances of a flight.
ghost use Rattle.std.specs.Prelude.{◌≤◌, All, IfOk, length};
ghost use Rattle.flow_types.specs.Limits.{most_nodes};
ghost use Rattle.flow_types.specs.Routes.{IsLeg};
ghost use Rattle.route_distances.specs.Ways.{AreWaysAlong};

use crate::reached::all_reached;
use crate::times::shortest_times;
use flow_types::{Flight, OutOfMemory, Scenario, Sequence};
use std::alloc::Global;
use std::marker::Model;

/// How far each node of a flight is from its origin, and which nodes lead to which.
#[derive(Debug, Drop)]
pub struct Distances {
    // Of each node.
    times: Sequence<u16>,
    // Of each node to start from, a mark for each node that a walk leads to.
    reached: Sequence<Sequence<bool>>,
}

impl Model for Distances {
    ghost use Rattle.route_distances.specs.Ways.{Ways};

    ghost Value = { Ways };

    ghost view = { λ d. record { times = d.times; reached = d.reached } };
}

impl Distances {
    ghost use Rattle.std.specs.Prelude.{◌≡◌, ◌<◌, ◌↔◌, ℕ, IfOk, length, true};
    ghost use Rattle.flow_types.specs.Scenario.{flight_at, parts_of};
    ghost use Rattle.route_distances.specs.Walks.{HasNode, IsReached, IsShortest, legs_of};
    ghost use Rattle.route_distances.specs.Ways.{AreWaysAlong, reaches_in, shortest_in};

    /// The distances of the flight, which is one of the scenario's. It takes a byte for each two
    /// nodes of the flight and 34 for each node, or up to twice that, since the lists grow.
    #[tactic(auto, using(crate::proofs::WayFacts::ways_along, crate::proofs::WayFacts::ways_least, crate::proofs::WayFacts::ways_lead))]
    pub fn new(alloc: Global, s: &Scenario, flight: u32) -> Result<Distances, OutOfMemory>
        requires { flight < length (parts_of s.now).flights }
        ensures ways { IfOk result (AreWaysAlong (legs_of (flight_at s.now flight))) }
        ensures least { IfOk result (λ ways. (node : ℕ) → HasNode (flight_at s.now flight) node
            → IsShortest (legs_of (flight_at s.now flight)) node (shortest_in ways node)) }
        ensures leads { IfOk result (λ ways. (from to : ℕ) → (reaches_in ways from to ≡ true)
            ↔ IsReached (legs_of (flight_at s.now flight)) from to) }
    {
        distances_along(alloc, &s.flights()[flight as usize])
    }

    /// How many periods it takes at the least from the origin to the node. 0 where the flight has
    /// no such node.
    pub fn shortest(&self, node: u16) -> u16
        ensures { result ≡ shortest_in self.now node }
    {
        self.times
            .items()
            .get(usize::from(node))
            .copied()
            .unwrap_or(0)
    }

    /// Whether a walk of one leg or more goes from the one node to the other. None does where the
    /// flight hasn't both.
    pub fn reaches(&self, from: u16, to: u16) -> bool
        ensures { result ≡ reaches_in self.now from to }
    {
        match self.reached.items().get(usize::from(from)) {
            None => false,
            Some(marks) => marks.items().get(usize::from(to)).copied().unwrap_or(false),
        }
    }
}

// The distances along the legs of a flight.
fn distances_along(alloc: Global, flight: &Flight) -> Result<Distances, OutOfMemory>
    requires legs { All (IsLeg (length flight.now.nodes)) flight.now.legs }
    requires few { length flight.now.nodes ≤ most_nodes }
    ensures { IfOk result (AreWaysAlong flight.now.legs) }
{
    let legs = flight.legs.items();
    let nodes = flight.nodes.items().len() as u16;
    Ok(Distances {
        times: shortest_times(alloc, legs, nodes)?,
        reached: all_reached(alloc, legs, nodes)?,
    })
}
