//! The worked days and plans of them.
ghost use Rattle.std.specs.Prelude.{◌≡◌, ◌∷◌, [], IfOk};
ghost use Rattle.flow_types.specs.Scenario.{parts_of};
ghost use Rattle.flow_types.specs.declared.flight.Cost.TheVariants.{Linear};
ghost use Rattle.worked_days.specs.Days as days;

use flow_types::{
    Connection, Connections, Cost, Day, Flight, Flights, Leg, OutOfMemory, Parts, Place, PlaceKind,
    Places, Plan, Scenario, Sequence, Stop, Tables, Trip,
};
use std::alloc::Global;

const DAY: Day = Day {
    year: 2011,
    month: 3,
    day: 14,
    hour: 6,
    minute: 0,
    minutes: 15,
    periods: 8,
};

// The items as a list.
fn list<T: Copy>(alloc: Global, items: &[T]) -> Result<Sequence<T>, OutOfMemory>
    ensures { IfOk result (λ list. list ≡ items.now) }
{
    Ok(Sequence::from_vec(Vec::from_slice(alloc, items)?))
}

// An airport with the same capacities all day.
fn airport(alloc: Global, name: &[u8], leave: u8, arrive: u8) -> Result<Place, OutOfMemory>
    ensures { IfOk result (λ place. place ≡ days.airport_with name.now leave arrive) }
{
    Ok(Place {
        name: list(alloc, name)?,
        kind: PlaceKind::Airport,
        first: list(alloc, &[u32::from(leave); 8])?,
        second: list(alloc, &[u32::from(arrive); 8])?,
    })
}

// A sector with the same capacity all day.
fn sector(alloc: Global, name: &[u8], inside: u8) -> Result<Place, OutOfMemory>
    ensures { IfOk result (λ place. place ≡ days.sector_with name.now inside) }
{
    Ok(Place {
        name: list(alloc, name)?,
        kind: PlaceKind::Sector,
        first: list(alloc, &[u32::from(inside); 8])?,
        second: Sequence::empty(alloc),
    })
}

// Two airports and a sector.
fn places_with(alloc: Global, leave: u8, arrive: u8, inside: u8) -> Result<Places, OutOfMemory>
    ensures { IfOk result (λ places. places ≡ days.places_with leave arrive inside) }
{
    let mut places = Places::empty(alloc);
    places.add(airport(alloc, b"ORIG", leave, 9)?)?;
    places.add(airport(alloc, b"DEST", 9, arrive)?)?;
    places.add(sector(alloc, b"S", inside)?)?;
    Ok(places)
}

// A flight by way of the sector, from one of the airports to the other.
fn flight(
    alloc: Global,
    name: &[u8],
    from: u32,
    to: u32,
    departs: u8,
) -> Result<Flight, OutOfMemory>
    ensures { IfOk result
        (λ flight. flight ≡ days.flight_with name.now from to departs (Linear 1 2)) }
{
    let legs = [
        Leg {
            from: 0,
            to: 1,
            least: 0,
        },
        Leg {
            from: 1,
            to: 2,
            least: 2,
        },
    ];
    Ok(Flight {
        name: list(alloc, name)?,
        from,
        to,
        sd: u16::from(departs),
        sa: u16::from(departs) + 2,
        mg: 4,
        md: 5,
        nodes: list(alloc, &[from, 2, to])?,
        legs: list(alloc, &legs)?,
        cost: Cost::Linear {
            ground: 1,
            airborne: 2,
        },
    })
}

// The first flight and a second one.
fn flights_with(alloc: Global, second: Flight) -> Result<Flights, OutOfMemory>
    ensures { IfOk result (λ flights. flights ≡ days.there ∷ second ∷ []) }
{
    let mut flights = Flights::empty(alloc);
    flights.add(flight(alloc, b"F1", 0, 1, 0)?)?;
    flights.add(second)?;
    Ok(flights)
}

// What `two_flights` is made of.
fn parts_of_two_flights(
    alloc: Global,
    leave: u8,
    arrive: u8,
    inside: u8,
) -> Result<Parts, OutOfMemory>
    ensures { IfOk result (λ parts. parts ≡ days.two_flights leave arrive inside) }
{
    let second = flight(alloc, b"F2", 0, 1, 0)?;
    Ok(Parts {
        day: DAY,
        places: places_with(alloc, leave, arrive, inside)?,
        flights: flights_with(alloc, second)?,
        tables: Tables::empty(alloc),
        connections: Connections::empty(alloc),
    })
}

/// Two flights that are scheduled alike, with so many that may leave the first airport, arrive at
/// the second and be inside the sector in each period. It takes memory for its lists.
pub fn two_flights(
    alloc: Global,
    leave: u8,
    arrive: u8,
    inside: u8,
) -> Result<Scenario, OutOfMemory>
    ensures { IfOk result (λ s. parts_of s ≡ days.two_flights leave arrive inside) }
{
    let parts = parts_of_two_flights(alloc, leave, arrive, inside)?;
    Ok(Scenario::of_valid(parts))
}

// What `there_and_back` is made of.
fn parts_of_there_and_back(alloc: Global, leave: u8, turnaround: u8) -> Result<Parts, OutOfMemory>
    ensures { IfOk result (λ parts. parts ≡ days.there_and_back leave turnaround) }
{
    let second = flight(alloc, b"G1", 1, 0, 3)?;
    let connections = [Connection {
        first: 0,
        second: 1,
        turnaround: u16::from(turnaround),
    }];
    Ok(Parts {
        day: DAY,
        places: places_with(alloc, leave, 9, 9)?,
        flights: flights_with(alloc, second)?,
        tables: Tables::empty(alloc),
        connections: list(alloc, &connections)?,
    })
}

/// A flight and the flight of its aircraft back, with so many that may leave the first airport in
/// each period, and so many periods of turnaround. It takes memory for its lists.
pub fn there_and_back(alloc: Global, leave: u8, turnaround: u8) -> Result<Scenario, OutOfMemory>
    ensures { IfOk result (λ s. parts_of s ≡ days.there_and_back leave turnaround) }
{
    let parts = parts_of_there_and_back(alloc, leave, turnaround)?;
    Ok(Scenario::of_valid(parts))
}

/// The stops of a trip through the sector that departs and arrives in these periods.
pub fn trip_at(departure: u16, arrival: u16) -> [Stop; 3]
    ensures { result ≡ days.trip_at departure arrival }
{
    [
        Stop {
            node: 0,
            time: departure,
        },
        Stop {
            node: 1,
            time: departure,
        },
        Stop {
            node: 2,
            time: arrival,
        },
    ]
}

/// The plan of the first flight on time and these stops of the second. It takes memory for both.
pub fn plan_with(alloc: Global, second: &[Stop]) -> Result<Plan, OutOfMemory>
    ensures { IfOk result (λ plan. plan ≡ days.plan_with second.now) }
{
    let mut plan = Plan::empty(alloc);
    plan.add(Trip::from_stops(alloc, &trip_at(0, 2))?)?;
    plan.add(Trip::from_stops(alloc, second)?)?;
    Ok(plan)
}
