//! The tests of a valid scenario. Each answers true exactly where its definition holds.
//!
//! Time: names, connections and legs are compared pair by pair, so a scenario at its limits takes
//! some twenty million short comparisons. No test takes memory.
ghost use Rattle.std.specs.Prelude.{◌≡◌, ◌≢◌, ◌<◌, ◌≤◌, ◌+◌, ◌↔◌, length, slice_get, sum_by, IsTrue, All};
ghost use Rattle.flow_types.specs.Limits as limits;
ghost use Rattle.flow_types.specs.Routes.{is_airport};
ghost use Rattle.flow_types.specs.Valid.{AreConnections, AreFlights, ArePlaces, AreTables, IsConnection, IsDay, IsFlight, IsPlace, IsScenario, IsTable, IsValue, arrival_count, is_cost};

use crate::calendar::is_date;
use crate::day::Day;
use crate::differ::all_differ;
use crate::flight::{Connection, Cost, CostTable, Flight};
use crate::limits::{
    LAST_YEAR, MOST_CAPACITY, MOST_CONNECTIONS, MOST_DELAY, MOST_FLIGHTS, MOST_MINUTES,
    MOST_NODES_IN_ALL, MOST_PERIOD_COST, MOST_PERIODS, MOST_PLACES, MOST_TABLES, MOST_VALUE,
    MOST_VALUES,
};
use crate::lookup::{is_airport, value_count};
use crate::parts::Parts;
use crate::place::{Place, PlaceKind};
use crate::route::is_route;
use crate::words::is_name;

/// Whether the parts are a valid scenario.
pub fn is_scenario(parts: &Parts) -> bool
    ensures { IsTrue result ↔ IsScenario parts.now }
{
    is_day(&parts.day)
        && are_places(parts.places.items(), parts.day.periods)
        && are_flights(parts.flights.items(), parts)
        && are_tables(parts.tables.items())
        && are_connections(parts.connections.items(), parts.flights.items())
}

/// Whether the day can be planned.
pub fn is_day(day: &Day) -> bool
    ensures { IsTrue result ↔ IsDay day.now }
{
    1 <= day.year
        && day.year <= LAST_YEAR
        && is_date(day.year, day.month, day.day)
        && is_time(day)
        && are_periods(day)
}

// Whether the day's hour and minute are a time.
fn is_time(day: &Day) -> bool
    ensures { IsTrue result ↔ (day.now.hour ≤ 23) × (day.now.minute ≤ 59) }
{
    day.hour <= 23 && day.minute <= 59
}

// Whether the day's periods are within their limits.
fn are_periods(day: &Day) -> bool
    ensures { IsTrue result ↔ (1 ≤ day.now.minutes) × (day.now.minutes ≤ limits.most_minutes)
        × (1 ≤ day.now.periods) × (day.now.periods ≤ limits.most_periods) }
{
    1 <= day.minutes
        && day.minutes <= MOST_MINUTES
        && 1 <= day.periods
        && day.periods <= MOST_PERIODS
}

// Whether each capacity is within its limit.
fn are_capacities(caps: &[u32]) -> bool
    ensures { IsTrue result ↔ All (λ c. c ≤ limits.most_capacity) caps.now }
{
    caps.iter().all(|c| *c <= MOST_CAPACITY)
}

// How many arrival capacities a place has.
fn arrival_count(kind: PlaceKind, periods: u16) -> u16
    ensures { result ≡ arrival_count kind periods }
{
    match kind {
        PlaceKind::Airport => periods,
        PlaceKind::Sector => 0,
    }
}

// Whether the place has a name, and its capacities for every period.
fn is_place(place: &Place, periods: u16) -> bool
    ensures { IsTrue result ↔ IsPlace periods place.now }
{
    is_name(place.name.items())
        && place.first.items().len() == periods as usize
        && place.second.items().len() == arrival_count(place.kind, periods) as usize
        && are_capacities(place.first.items())
        && are_capacities(place.second.items())
}

// Whether they are places of different names, and not too many.
fn are_places(places: &[Place], periods: u16) -> bool
    ensures { IsTrue result ↔ ArePlaces periods places.now }
{
    places.len() <= MOST_PLACES
        && places.iter().all(|place| is_place(place, periods))
        && all_differ(places)
}

// Whether they are flights of different names, and not too many, nor their nodes.
fn are_flights(flights: &[Flight], parts: &Parts) -> bool
    ensures { IsTrue result
        ↔ AreFlights parts.now.day.periods parts.now.places parts.now.tables flights.now }
{
    flights.len() <= MOST_FLIGHTS
        && have_few_nodes(flights)
        && all_differ(flights)
        && are_all_flights(flights, parts)
}

// Whether each is a flight of these parts.
fn are_all_flights(flights: &[Flight], parts: &Parts) -> bool
    ensures { IsTrue result
        ↔ All (IsFlight parts.now.day.periods parts.now.places parts.now.tables) flights.now }
{
    flights.iter().all(|flight| is_flight(parts, flight))
}

// Whether the nodes of all flights are not too many.
fn have_few_nodes(flights: &[Flight]) -> bool
    ensures { IsTrue result
        ↔ (sum_by (λ flight. length flight.nodes) flights.now ≤ limits.most_nodes_in_all) }
{
    let mut left = MOST_NODES_IN_ALL;
    for flight in flights {
        let nodes = flight.nodes.items().len();
        if nodes > left {
            return false;
        }
        left -= nodes;
    }
    true
}

// Whether it is a flight of these parts.
fn is_flight(parts: &Parts, flight: &Flight) -> bool
    ensures { IsTrue result
        ↔ IsFlight parts.now.day.periods parts.now.places parts.now.tables flight.now }
{
    let places = parts.places.items();
    is_name(flight.name.items())
        && are_times(flight, parts.day.periods)
        && are_ends(places, flight)
        && is_route(
            places,
            flight.from,
            flight.to,
            flight.nodes.items(),
            flight.legs.items(),
        )
        && is_cost(parts.tables.items(), flight.mg, flight.md, flight.cost)
}

// Whether the flight's times are within the day, and its delays within their limits.
fn are_times(flight: &Flight, periods: u16) -> bool
    ensures { IsTrue result ↔ (flight.now.sd ≤ flight.now.sa) × (flight.now.sa < periods)
        × (flight.now.mg ≤ limits.most_delay) × (flight.now.md ≤ limits.most_delay) }
{
    flight.sd <= flight.sa
        && flight.sa < periods
        && flight.mg <= MOST_DELAY
        && flight.md <= MOST_DELAY
}

// Whether the flight goes from one airport to another.
fn are_ends(places: &[Place], flight: &Flight) -> bool
    ensures { IsTrue result ↔ IsTrue (is_airport (slice_get places.now flight.now.from))
        × IsTrue (is_airport (slice_get places.now flight.now.to))
        × (flight.now.from ≢ flight.now.to) }
{
    is_airport(places, flight.from) && is_airport(places, flight.to) && flight.from != flight.to
}

// Whether the cost is within its limits, or its tables reach to the greatest delays.
fn is_cost(tables: &[CostTable], mg: u16, md: u16, cost: Cost) -> bool
    ensures { result ≡ is_cost tables.now mg md cost }
{
    match cost {
        Cost::Linear { ground, airborne } => ground <= MOST_PERIOD_COST
            && airborne <= MOST_PERIOD_COST,
        Cost::Tables { total, credit } => {
            (md as usize) < value_count(tables, total)
                && (mg as usize) < value_count(tables, credit)
        }
    }
}

// Whether they are tables of different names, and not too many.
fn are_tables(tables: &[CostTable]) -> bool
    ensures { IsTrue result ↔ AreTables tables.now }
{
    tables.len() <= MOST_TABLES && tables.iter().all(|table| is_table(table)) && all_differ(tables)
}

// Whether the table has a name, and values within their limits, one at the least.
fn is_table(table: &CostTable) -> bool
    ensures { IsTrue result ↔ IsTable table.now }
{
    let values = table.values.items();
    is_name(table.name.items())
        && !values.is_empty()
        && values.len() <= MOST_VALUES
        && values.iter().all(|v| is_value(*v))
}

// Whether the value is within its limits.
fn is_value(v: i64) -> bool
    ensures { IsTrue result ↔ IsValue v }
{
    -MOST_VALUE <= v && v <= MOST_VALUE
}

// Whether they connect different pairs of flights, and are not too many.
fn are_connections(connections: &[Connection], flights: &[Flight]) -> bool
    ensures { IsTrue result ↔ AreConnections flights.now connections.now }
{
    connections.len() <= MOST_CONNECTIONS
        && connections
            .iter()
            .all(|connection| is_connection(flights, connection))
        && all_differ(connections)
}

// Whether the second flight departs from where the first arrives.
fn is_connection(flights: &[Flight], connection: &Connection) -> bool
    ensures { IsTrue result ↔ IsConnection flights.now connection.now }
{
    let (first, second) = (connection.first as usize, connection.second as usize);
    first < flights.len()
        && second < flights.len()
        && flights[second].from == flights[first].to
        && connection.turnaround <= MOST_DELAY
}
