//! What the flights come to when all records have passed.
ghost use Rattle.std.specs.Prelude.{◌≡◌, ◌≤◌, All, IfOk, length, map};
ghost use Rattle.flow_types.specs.Scenario.{parts_of};
ghost use Rattle.scenario_reader.specs.Sectors.{most_sectors};
ghost use Rattle.text_records.specs.Errors.{Reads};
ghost use Rattle.scenario_reader.specs.Finish.{finished, finished_flight, finished_flights, flight_with, has_route, leads_on, leg_between, node_of, nodes_of};

use crate::draft::ScenarioDraft;
use crate::flight_draft::{FlightDraft, PlaceLeg, is_among};
use flow_types::{
    Cause, Fault, Flight, Flights, Leg, Legs, Nodes, OutOfMemory, Parts, Scenario, Sequence,
};
use std::alloc::Global;
use text_records::Refusal;

// Whether a leg leads to the destination.
fn has_route(flight: &FlightDraft) -> bool
    ensures { result ≡ has_route flight.now }
{
    flight.legs.items().iter().any(|leg| leg.to == flight.to)
}

// Whether a leg starts from each sector that a leg leads to.
fn leads_on(flight: &FlightDraft) -> bool
    ensures { result ≡ leads_on flight.now }
{
    flight
        .reached
        .items()
        .iter()
        .all(|place| is_among(flight.passed.items(), *place))
}

// The places of the nodes.
fn nodes_of(alloc: Global, flight: &FlightDraft) -> Result<Nodes, OutOfMemory>
    ensures { IfOk result (λ nodes. nodes ≡ nodes_of flight.now) }
{
    let mut nodes = vec![in alloc; flight.from]?;
    nodes.extend_from_slice(flight.passed.items())?;
    nodes.push(flight.to)?;
    Ok(Sequence::from_vec(nodes))
}

// The first node at the place.
fn node_of(nodes: &[u32], place: u32) -> u16
    requires { length nodes.now ≤ 65535 }
    ensures { result ≡ node_of nodes.now place }
{
    match nodes.iter().position(|node| *node == place) {
        Some(node) => node as u16,
        None => nodes.len() as u16,
    }
}

// The legs between these nodes.
fn legs_between(alloc: Global, nodes: &[u32], legs: &[PlaceLeg]) -> Result<Legs, OutOfMemory>
    requires { length nodes.now ≤ 65535 }
    ensures { IfOk result (λ found. found ≡ map (leg_between nodes.now) legs.now) }
{
    let mut found = Sequence::empty(alloc);
    for leg in legs {
        found.add(Leg {
            from: node_of(nodes, leg.from),
            to: node_of(nodes, leg.to),
            least: leg.least,
        })?;
    }
    Ok(found)
}

// The flight with these nodes.
fn flight_with(alloc: Global, flight: &FlightDraft, nodes: Nodes) -> Result<Flight, OutOfMemory>
    requires { length nodes ≤ 65535 }
    ensures { IfOk result (λ found. found ≡ flight_with flight.now nodes) }
{
    let legs = legs_between(alloc, nodes.items(), flight.legs.items())?;
    let name = Vec::from_slice(alloc, flight.name.items())?;
    Ok(Flight {
        name: Sequence::from_vec(name),
        from: flight.from,
        to: flight.to,
        sd: flight.hours.sd,
        sa: flight.hours.sa,
        mg: flight.hours.mg,
        md: flight.hours.md,
        nodes,
        legs,
        cost: flight.cost,
    })
}

// The flight between nodes, or what is wrong with its network.
#[tactic(auto, unfolding(crate::specs::Finish::finished_flight))]
fn finished_flight(alloc: Global, flight: &FlightDraft) -> Result<Flight, Refusal>
    requires { length flight.now.passed ≤ most_sectors }
    ensures { Reads (λ found. found) result (finished_flight flight.now) }
{
    let refused = |cause| {
        Err(Refusal::Text(Fault {
            at: flight.at,
            field: 1,
            cause,
        }))
    };
    if !has_route(flight) {
        return refused(Cause::NoRoute);
    }
    if !leads_on(flight) {
        return refused(Cause::DeadEnd);
    }
    let nodes = nodes_of(alloc, flight)?;
    Ok(flight_with(alloc, flight, nodes)?)
}

fn finished_flights(alloc: Global, flights: &[FlightDraft]) -> Result<Flights, Refusal>
    requires { All (λ flight. length flight.passed ≤ most_sectors) flights.now }
    ensures { Reads (λ found. found) result (finished_flights flights.now) }
{
    let mut found = Sequence::empty(alloc);
    for flight in flights {
        found.add(finished_flight(alloc, flight)?)?;
    }
    Ok(found)
}

/// The scenario of a draft, or the first flight's fault.
#[tactic(auto, unfolding(crate::specs::Finish::finished))]
pub fn finished(alloc: Global, draft: ScenarioDraft) -> Result<Scenario, Refusal>
    ensures { Reads parts_of result (finished draft) }
{
    let flights = finished_flights(alloc, draft.flights().items())?;
    let ScenarioDraft {
        day,
        places,
        flights: _,
        tables,
        connections,
        nodes: _,
    } = draft;
    Ok(Scenario::of_valid(Parts {
        day,
        places: places.into_items(),
        flights,
        tables: tables.into_items(),
        connections,
    }))
}
