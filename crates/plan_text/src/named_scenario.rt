//! A scenario whose flights and places are found by their names.
ghost use Rattle.std.specs.Prelude.{◌≡◌, ◌<◌, ◌≤◌, ◌-◌, ◌==◌, IfOk, length, position};
ghost use Rattle.flow_types.specs.Scenario.{parts_of};
ghost use Rattle.text_records.specs.Names.{position_of};
ghost use Rattle.plan_text.specs.Names.{flight_names, node_named, nodes_at};
ghost use Rattle.flow_types.specs.Limits.{most_nodes, most_periods};

use crate::names::{names_of_flights, names_of_places};
use flow_types::{OutOfMemory, Scenario};
use std::alloc::Global;
use std::marker::Model;
use text_records::NameIndex;

/// A scenario with its names. Contracts see it as the scenario's parts.
pub struct NamedScenario<'a> {
    scenario: &'a Scenario,
    flights: NameIndex,
    places: NameIndex,
}

impl<'a> Drop for NamedScenario<'a> {
    fn drop(self) {
        let NamedScenario {
            scenario: _,
            flights: _,
            places: _,
        } = self;
    }
}

impl<'a> Model for NamedScenario<'a> {
    ghost use Rattle.std.specs.Prelude.{◌≡◌};
    ghost use Rattle.flow_types.specs.Scenario.{parts_of};
    ghost use Rattle.flow_types.specs.declared.parts.Parts.{Parts};
    ghost use Rattle.plan_text.specs.Names.{AreNames};

    ghost Value = { Parts };

    ghost view = { λ named. parts_of named.scenario.now };

    ghost invariant = { λ named. AreNames
        (parts_of named.scenario.now) named.flights named.places };
}

impl<'a> NamedScenario<'a> {
    /// The scenario with its names. It takes memory for the names.
    pub fn of_scenario(alloc: Global, scenario: &'a Scenario) -> Result<Self, OutOfMemory>
        ensures { IfOk result (λ named. named ≡ parts_of scenario.now) }
    {
        let flights = names_of_flights(alloc, scenario.flights())?;
        let places = names_of_places(alloc, scenario.places())?;
        Ok(NamedScenario {
            scenario,
            flights,
            places,
        })
    }

    /// How many flights there are.
    pub fn flight_count(&self) -> usize
        ensures { result ≡ length self.now.flights }
    {
        self.scenario.flights().len()
    }

    /// The last period of the day.
    pub fn last_period(&self) -> u16
        ensures value { result ≡ self.now.day.periods - 1 }
        ensures small { result < most_periods }
    {
        self.scenario.day().periods - 1
    }

    /// The position of the flight of this name.
    pub fn flight_named(&self, name: &[u8]) -> Option<u32>
        ensures { result ≡ position_of name.now (flight_names self.now.flights) }
    {
        self.flights.find(name)
    }

    /// The places of the nodes of the flight at this position, which are at most 32.
    pub fn nodes_at(&self, flight: u32) -> &[u32]
        ensures nodes { result.now ≡ nodes_at self.now.flights flight }
        ensures few { length result.now ≤ most_nodes }
    {
        match self.scenario.flights().get(flight as usize) {
            Some(flight) => flight.nodes.items(),
            None => &[],
        }
    }

    /// The first of these nodes that is at the place of this name.
    pub fn node_named(&self, nodes: &[u32], name: &[u8]) -> Option<u16>
        requires { length nodes.now ≤ most_nodes }
        ensures { result ≡ node_named self.now.places nodes.now name.now }
    {
        match self.places.find(name) {
            Some(place) => node_of(nodes, place),
            None => None,
        }
    }
}

// The first of these nodes that is at the place.
fn node_of(nodes: &[u32], place: u32) -> Option<u16>
    requires { length nodes.now ≤ most_nodes }
    ensures { result ≡ position (λ node. node == place) nodes.now }
{
    match nodes.iter().position(|node| *node == place) {
        Some(node) => Some(node as u16),
        None => None,
    }
}
