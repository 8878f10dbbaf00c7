//! Filling a row of a capacity by the visits to its place.
ghost use Rattle.std.specs.Prelude.{◌≡◌, ◌+◌, ◌≤◌, [], IfSome, length};
ghost use Rattle.std.specs.List.{flat_map};
ghost use Rattle.flow_types.specs.Limits.{most_flights, most_legs, most_nodes};
ghost use Rattle.flow_types.specs.Scenario.{parts_of};
ghost use Rattle.bytime_model.specs.Filling.{Adds, visit_terms, visit_terms_in};
ghost use Rattle.bytime_model.specs.Rows.{capacity_terms, most_terms};
ghost use Rattle.bytime_model.specs.Visits.{AreVisitsOf};

use crate::buffer::RowBuffer;
use crate::fill::{last_node, put_entry, put_stay, put_uses};
use crate::visits::{Visit, Visits};
use flow_types::{CapKind, Flight, Scenario};

// Adds what the flight takes of a capacity of this kind in the period, by its visit to the place.
fn put_visit(buffer: &mut RowBuffer, kind: CapKind, time: u16, visit: Visit, flight: &Flight)
    requires room { length buffer.old.terms + most_legs + 2 ≤ most_terms }
    requires some { 1 ≤ length flight.now.nodes }
    requires nodes { length flight.now.nodes ≤ most_nodes }
    requires legs { length flight.now.legs ≤ most_legs }
    ensures { Adds (visit_terms kind time visit flight.now) buffer.old buffer.new }
{
    let node = visit.node;
    match kind {
        CapKind::Dep => {
            if node == 0 {
                put_entry(buffer, visit.flight, node, time);
            }
        }
        CapKind::Arr => {
            if node == last_node(flight) {
                put_entry(buffer, visit.flight, node, time);
            }
        }
        CapKind::Sector => put_stay(buffer, visit.flight, flight, time, node),
    }
}

// Adds what a visit of a flight puts into the row, by the flight's number.
fn put_visit_in(buffer: &mut RowBuffer, s: &Scenario, kind: CapKind, time: u16, visit: Visit)
    requires room { length buffer.old.terms + most_legs + 2 ≤ most_terms }
    ensures { Adds (visit_terms_in kind time (parts_of s.now).flights visit)
        buffer.old buffer.new }
{
    match s.flights().get(visit.flight as usize) {
        None => {}
        Some(flight) => put_visit(buffer, kind, time, visit, flight),
    }
}

// Adds what all of the visits take of a capacity of this kind in the period.
#[tactic(auto, using(crate::proofs::FillFacts::filled_none, crate::proofs::FillFacts::filled_all))]
fn put_visits(buffer: &mut RowBuffer, s: &Scenario, visits: &[Visit], kind: CapKind, time: u16)
    requires few { length visits.now ≤ most_flights }
    requires none { buffer.old.terms ≡ [] }
    ensures { Adds (flat_map (visit_terms_in kind time (parts_of s.now).flights) visits.now)
        buffer.old buffer.new }
{
    for visit in visits {
        put_visit_in(buffer, s, kind, time, *visit);
    }
}

// Adds what all flights take of the place's capacity of this kind in the period.
fn put_visited(
    buffer: &mut RowBuffer,
    s: &Scenario,
    visits: &Visits,
    kind: CapKind,
    place: u32,
    time: u16,
)
    requires visits { AreVisitsOf (parts_of s.now) visits.now }
    requires none { buffer.old.terms ≡ [] }
    ensures { Adds (capacity_terms (parts_of s.now) kind place time) buffer.old buffer.new }
{
    put_visits(buffer, s, visits.at(place), kind, time);
}

/// Adds what all flights put into the row of the place: by the visits where they are known, and
/// else flight by flight.
pub fn put_taken(
    buffer: &mut RowBuffer,
    s: &Scenario,
    visits: Option<&Visits>,
    kind: CapKind,
    place: u32,
    time: u16,
)
    requires visits { IfSome visits (λ visits. AreVisitsOf (parts_of s.now) visits.now) }
    requires none { buffer.old.terms ≡ [] }
    ensures { Adds (capacity_terms (parts_of s.now) kind place time) buffer.old buffer.new }
{
    match visits {
        None => put_uses(buffer, s, kind, place, time),
        Some(visits) => put_visited(buffer, s, visits, kind, place, time),
    }
}
