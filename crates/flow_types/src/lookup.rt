//! What the parts of a scenario say of a place, a flight or a table. Each look-up is told by a
//! position or a node, and has an answer where nothing stands there. None takes memory.
ghost use Rattle.std.specs.Prelude.{◌≡◌, ◌↔◌, Some, ℕ, ◌==◌, count_by, slice_get, slice_index, slice_index_or, IsTrue, pos};
ghost use Rattle.flow_types.specs.Capacities.{capacity_of, has_kind};
ghost use Rattle.flow_types.specs.Costs.{credit_of, total_of, value_at};
ghost use Rattle.flow_types.specs.Routes.{IsPlain, is_airport, is_sector, next_of};
ghost use Rattle.flow_types.specs.Trips.{place_at};
ghost use Rattle.flow_types.specs.Valid.{value_count};

use crate::flight::{Cost, CostTable, Flight, Leg};
use crate::place::{CapKind, Place, PlaceKind};

/// Whether an airport stands at the position in the list of places.
pub fn is_airport(places: &[Place], place: u32) -> bool
    ensures { result ≡ is_airport (slice_get places.now place) }
{
    match places.get(place as usize) {
        None => false,
        Some(place) => place.kind == PlaceKind::Airport,
    }
}

/// Whether a sector stands at the position in the list of places.
pub fn is_sector(places: &[Place], place: u32) -> bool
    ensures { result ≡ is_sector (slice_get places.now place) }
{
    match places.get(place as usize) {
        None => false,
        Some(place) => place.kind == PlaceKind::Sector,
    }
}

/// Whether a place stands at the position that has capacities of this kind: an airport those of
/// departures and arrivals, a sector those of flights inside it.
pub fn has_kind(kind: CapKind, places: &[Place], place: u32) -> bool
    ensures { result ≡ has_kind kind (slice_get places.now place) }
{
    match kind {
        CapKind::Dep | CapKind::Arr => is_airport(places, place),
        CapKind::Sector => is_sector(places, place),
    }
}

/// The place of the flight's node, as a position in the list of places; 0 where it has no such
/// node.
pub fn place_at(flight: &Flight, node: u16) -> u32
    ensures { result ≡ place_at flight.now node }
{
    unsigned_at(flight.nodes.items(), node)
}

/// How many values the table at the position has, 0 where there is none.
pub fn value_count(tables: &[CostTable], table: u32) -> usize
    ensures { result ≡ value_count (slice_get tables.now table) }
{
    match tables.get(table as usize) {
        None => 0,
        Some(table) => table.values.items().len(),
    }
}

/// The capacity of the place in the period, where it has one of this kind (`has_kind`), and else
/// what the place's other list has there. 0 where there is no such place or period.
pub fn capacity_at(places: &[Place], kind: CapKind, place: u32, period: u16) -> u32
    ensures { result ≡ capacity_of places.now kind place period }
{
    match places.get(place as usize) {
        None => 0,
        Some(place) => match kind {
            CapKind::Dep => unsigned_at(place.first.items(), period),
            CapKind::Arr => unsigned_at(place.second.items(), period),
            CapKind::Sector => unsigned_at(place.first.items(), period),
        },
    }
}

// The number at the position, 0 where there is none.
fn unsigned_at(numbers: &[u32], position: u16) -> u32
    ensures { result ≡ slice_index numbers.now position }
{
    numbers.get(position as usize).copied().unwrap_or(0)
}

/// What so much arrival delay of the flight costs.
pub fn total_at(tables: &[CostTable], flight: &Flight, delay: u16) -> i64
    ensures { result ≡ total_of tables.now flight.now.cost delay }
{
    match flight.cost {
        Cost::Linear { airborne, .. } => i64::from(airborne) * i64::from(delay),
        Cost::Tables { total, .. } => value_at(tables, total, delay),
    }
}

/// How much less so much ground delay of the flight costs than as much in the air.
pub fn credit_at(tables: &[CostTable], flight: &Flight, delay: u16) -> i64
    ensures { result ≡ credit_of tables.now flight.now.cost delay }
{
    match flight.cost {
        Cost::Linear { ground, airborne } => {
            let delay = i64::from(delay);
            i64::from(airborne) * delay - i64::from(ground) * delay
        }
        Cost::Tables { credit, .. } => value_at(tables, credit, delay),
    }
}

// The value of the table at the delay, 0 where there is none.
fn value_at(tables: &[CostTable], table: u32, delay: u16) -> i64
    ensures { result ≡ value_at (slice_get tables.now table) delay }
{
    match tables.get(table as usize) {
        None => 0,
        Some(table) => signed_at(table.values.items(), delay),
    }
}

// The value at the position, 0 where there is none.
fn signed_at(values: &[i64], position: u16) -> i64
    ensures { result ≡ slice_index_or values.now position (pos 0) }
{
    values.get(position as usize).copied().unwrap_or(0)
}

/// Whether the node is a sector whose only successor has it as its only predecessor.
pub fn is_plain(flight: &Flight, node: u16) -> bool
    ensures { IsTrue result ↔ IsPlain flight.now.nodes flight.now.legs node }
{
    let legs = flight.legs.items();
    0 < node
        && (node as usize) + 1 < flight.nodes.items().len()
        && count_from(legs, node) == 1
        && count_to(legs, next_of(legs, node)) == 1
}

// How many legs leave the node.
fn count_from(legs: &[Leg], node: u16) -> usize
    ensures { result ≡ count_by (λ leg. leg.from == node) legs.now }
{
    legs.iter().filter(|leg| leg.from == node).count()
}

// How many legs enter the node.
fn count_to(legs: &[Leg], node: u16) -> usize
    ensures { result ≡ count_by (λ leg. leg.to == node) legs.now }
{
    legs.iter().filter(|leg| leg.to == node).count()
}

// Where the first leg from the node leads; the node itself where none leaves it.
fn next_of(legs: &[Leg], node: u16) -> u16
    ensures { result ≡ next_of legs.now node }
{
    for leg in legs {
        if leg.from == node {
            return leg.to;
        }
    }
    node
}
