//! Days that a rule makes up, for trials.
ghost use Rattle.std.specs.Prelude.{◌≡◌, ◌≤◌, ◌<◌, ◌==◌, ◌%◌, ◌++◌, ◌∷◌, [], IfOk, Ok, OnOk, replicate};
ghost use Rattle.std.specs.Fmt.{decimal};
ghost use Rattle.exact_sums.specs.Lists.{all_below};
ghost use Rattle.flow_types.specs.Scenario.{parts_of};
ghost use Rattle.scenario_reader.specs.Reading.{scenario_of};
ghost use Rattle.scenario_maker.specs.Courses.{course_of};
ghost use Rattle.scenario_maker.specs.Made.{made_airport, made_connections, made_flight, made_flights, made_leg, made_parts, made_places, made_sector, made_text, ways_legs, ways_nodes};

use crate::courses::{Course, course_of, first_sector, second_sector, third_sector};
use crate::writing::scenario_text;
use flow_types::{
    Caps, Connection, Connections, Cost, Day, Flight, Flights, Leg, Legs, Name, Nodes, OutOfMemory,
    Parts, Place, PlaceKind, Places, Scenario, Sequence, Tables,
};
use std::alloc::Global;
use text_records::put;

const DAY: Day = Day {
    year: 2011,
    month: 3,
    day: 14,
    hour: 6,
    minute: 0,
    minutes: 15,
    periods: 96,
};

/// The text of the made day of so many flights, at most 2,000. It takes memory for the day, its
/// text and the digits of a number.
pub fn make(alloc: Global, n: u32) -> Result<Vec<u8>, OutOfMemory>
    requires { n ≤ 2000 }
    ensures { IfOk result (λ text. text.items ≡ made_text n) }
{
    scenario_text(alloc, &made_day(alloc, n)?)
}

/// A day of so many flights, at most 2,000, between six airports and through ten sectors, whose
/// capacities grow with the flights. It is the day that its text is read as. It takes memory for
/// its lists.
pub fn made_day(alloc: Global, n: u32) -> Result<Scenario, OutOfMemory>
    requires { n ≤ 2000 }
    ensures parts { IfOk result (λ s. parts_of s ≡ made_parts n) }
    ensures read { IfOk result (λ s. scenario_of (made_text n) ≡ Ok (parts_of s)) }
{
    let parts = made_parts(alloc, n)?;
    Ok(Scenario::of_valid(parts))
}

// What a made day consists of.
fn made_parts(alloc: Global, n: u32) -> Result<Parts, OutOfMemory>
    requires { n ≤ 2000 }
    ensures { IfOk result (λ parts. parts ≡ made_parts n) }
{
    Ok(Parts {
        day: DAY,
        places: made_places(alloc, n)?,
        flights: made_flights(alloc, n)?,
        tables: Tables::empty(alloc),
        connections: made_connections(alloc, n)?,
    })
}

// The airports, and then the sectors.
fn made_places(alloc: Global, n: u32) -> Result<Places, OutOfMemory>
    requires { n ≤ 2000 }
    ensures { IfOk result (λ places. places ≡ made_places n) }
{
    let mut places = Places::empty(alloc);
    add_airports(alloc, &mut places, 1 + n / 120)?;
    add_sectors(alloc, &mut places, 1 + n / 60)?;
    Ok(places)
}

// Adds six airports, each with so much room all day.
fn add_airports(alloc: Global, places: &mut Places, room: u32) -> Result<(), OutOfMemory>
    ensures { OnOk result
        (places.new ≡ places.old ++ all_below 6 (λ k. made_airport room k ∷ [])) }
{
    for k in 0..6 {
        places.add(made_airport(alloc, room, k)?)?;
    }
    Ok(())
}

fn made_airport(alloc: Global, room: u32, k: u32) -> Result<Place, OutOfMemory>
    ensures { IfOk result (λ place. place ≡ made_airport room k) }
{
    Ok(Place {
        name: id(alloc, b"P", k)?,
        kind: PlaceKind::Airport,
        first: all_day(alloc, room)?,
        second: all_day(alloc, room)?,
    })
}

// Adds ten sectors, each with so much room all day.
fn add_sectors(alloc: Global, places: &mut Places, room: u32) -> Result<(), OutOfMemory>
    ensures { OnOk result
        (places.new ≡ places.old ++ all_below 10 (λ k. made_sector room k ∷ [])) }
{
    for k in 0..10 {
        places.add(made_sector(alloc, room, k)?)?;
    }
    Ok(())
}

fn made_sector(alloc: Global, room: u32, k: u32) -> Result<Place, OutOfMemory>
    ensures { IfOk result (λ place. place ≡ made_sector room k) }
{
    Ok(Place {
        name: id(alloc, b"Z", k)?,
        kind: PlaceKind::Sector,
        first: all_day(alloc, room)?,
        second: Caps::empty(alloc),
    })
}

// The same capacity in each period.
fn all_day(alloc: Global, room: u32) -> Result<Caps, OutOfMemory>
    ensures { IfOk result (λ caps. caps ≡ replicate 96 room) }
{
    list(alloc, &[room; 96])
}

fn made_flights(alloc: Global, n: u32) -> Result<Flights, OutOfMemory>
    requires { n ≤ 2000 }
    ensures { IfOk result (λ flights. flights ≡ made_flights n) }
{
    let mut flights = Flights::empty(alloc);
    for i in 0..n {
        flights.add(made_flight(alloc, i)?)?;
    }
    Ok(flights)
}

// Every third flight has another way, by which it is longer under way.
fn made_flight(alloc: Global, i: u32) -> Result<Flight, OutOfMemory>
    requires { i < 2000 }
    ensures { IfOk result (λ flight. flight ≡ made_flight i) }
{
    let course = course_of(i);
    let another = i % 3 == 0;
    let departs = course.departs as u16;
    Ok(Flight {
        name: id(alloc, b"F", i)?,
        from: course.from,
        to: course.to,
        sd: departs,
        sa: departs + 5,
        mg: 8,
        md: 8,
        nodes: made_nodes(alloc, i, course, another)?,
        legs: made_legs(alloc, another)?,
        cost: Cost::Linear {
            ground: 1,
            airborne: 2,
        },
    })
}

// The places of a flight, with another way or without. Sectors stand behind the six airports.
fn made_nodes(alloc: Global, i: u32, course: Course, another: bool) -> Result<Nodes, OutOfMemory>
    requires course { course ≡ course_of i }
    requires from { course.from < 6 }
    requires to { course.to < 6 }
    requires small { i < 2000 }
    ensures { IfOk result (λ nodes. nodes ≡ ways_nodes another i) }
{
    let first = 6 + first_sector(i, course);
    let second = 6 + second_sector(i, course);
    if another {
        let third = 6 + third_sector(i, course);
        list(alloc, &[course.from, first, second, third, course.to])
    } else {
        list(alloc, &[course.from, first, second, course.to])
    }
}

fn made_legs(alloc: Global, another: bool) -> Result<Legs, OutOfMemory>
    ensures { IfOk result (λ legs. legs ≡ ways_legs another) }
{
    if another {
        let legs = [
            leg(0, 1, 1),
            leg(1, 2, 2),
            leg(2, 4, 2),
            leg(1, 3, 3),
            leg(3, 4, 2),
        ];
        list(alloc, &legs)
    } else {
        list(alloc, &[leg(0, 1, 1), leg(1, 2, 2), leg(2, 3, 2)])
    }
}

fn leg(from: u16, to: u16, least: u16) -> Leg
    ensures { result ≡ made_leg from to least }
{
    Leg { from, to, least }
}

// Each flight back waits for the aircraft of the flight before it.
fn made_connections(alloc: Global, n: u32) -> Result<Connections, OutOfMemory>
    ensures { IfOk result (λ connections. connections ≡ made_connections n) }
{
    let mut connections = Connections::empty(alloc);
    for i in 0..n {
        if i % 3 == 2 {
            connections.add(Connection {
                first: i - 1,
                second: i,
                turnaround: 2,
            })?;
        }
    }
    Ok(connections)
}

// A name of a letter and a number.
fn id(alloc: Global, letter: &[u8], number: u32) -> Result<Name, OutOfMemory>
    ensures { IfOk result (λ name. name ≡ letter.now ++ decimal number) }
{
    let mut name = Vec::from_slice(alloc, letter)?;
    put(&mut name, number.to_string(alloc)?.as_bytes())?;
    Ok(Name::from_vec(name))
}

// The items as a list.
fn list<T: Copy>(alloc: Global, items: &[T]) -> Result<Sequence<T>, OutOfMemory>
    ensures { IfOk result (λ list. list ≡ items.now) }
{
    Ok(Sequence::from_vec(Vec::from_slice(alloc, items)?))
}
