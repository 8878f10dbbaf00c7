//! The distances of all flights.
use flow_types::{OutOfMemory, Scenario, Sequence};
use route_distances::Distances;
use std::alloc::Global;
use std::marker::Model;

/// How far the nodes of each flight are from its origin, and which lead to which.
#[derive(Debug, Drop)]
pub struct Routes {
    distances: Sequence<Distances>,
}

impl Model for Routes {
    ghost use Rattle.std.specs.Prelude.{List};
    ghost use Rattle.route_distances.specs.Ways.{Ways};

    ghost Value = { List Ways };

    ghost view = { λ r. r.distances };
}

impl Routes {
    ghost use Rattle.std.specs.Prelude.{◌≡◌, IfOk};
    ghost use Rattle.flow_types.specs.Scenario.{parts_of};
    ghost use Rattle.route_distances.specs.Ways.{reaches_in, shortest_in};
    ghost use Rattle.cut_rows.specs.Routes.{AreRoutesOf, ways_of};

    /// The distances of each of the scenario's flights. It takes a byte for each two nodes of a
    /// flight and 34 for each node, or up to twice that, since the lists grow.
    #[tactic(auto, using(exact_sums::proofs::EachFacts::each_none, crate::proofs::RouteFacts::all_routes))]
    pub fn new(alloc: Global, s: &Scenario) -> Result<Routes, OutOfMemory>
        ensures routes { IfOk result (AreRoutesOf (parts_of s.now)) }
    {
        let mut distances = Sequence::empty(alloc);
        for flight in 0..s.flights().len() {
            distances.add(Distances::new(alloc, s, flight as u32)?)?;
        }
        Ok(Routes { distances })
    }

    /// How many periods it takes the flight at the least to get from its origin to the node. 0
    /// where there is no such flight or node.
    pub fn shortest(&self, flight: u32, node: u16) -> u16
        ensures { result ≡ shortest_in (ways_of self.now flight) node }
    {
        match self.distances.items().get(flight as usize) {
            None => 0,
            Some(distances) => distances.shortest(node),
        }
    }

    /// Whether a walk of one leg or more of the flight goes from the one node to the other.
    pub fn reaches(&self, flight: u32, from: u16, to: u16) -> bool
        ensures { result ≡ reaches_in (ways_of self.now flight) from to }
    {
        match self.distances.items().get(flight as usize) {
            None => false,
            Some(distances) => distances.reaches(from, to),
        }
    }
}
