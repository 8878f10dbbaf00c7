//! The records of a flight.
ghost use Rattle.std.specs.Prelude.{◌≡◌, ◌++◌, OnOk, map, slice_get};
ghost use Rattle.scenario_maker.specs.Writing.{airborne_of, cost_rows, flight_row, flight_rows, hours_fields, leg_row, more_text, on_ground_of, place_name, price_fields, row_text, rows_text, table_name};

use flow_types::{Cost, CostTable, Flight, Leg, OutOfMemory, Place, place_at};
use std::alloc::Global;
use text_records::{put, put_field, put_number};

/// Adds the lines of a flight, of its legs and of its tables. As with `put`, nothing is said of the
/// text after `OutOfMemory`.
pub fn put_flight(
    alloc: Global,
    out: &mut Vec<u8>,
    places: &[Place],
    tables: &[CostTable],
    flight: &Flight,
) -> Result<(), OutOfMemory>
    ensures { OnOk result (out.new.items ≡ out.old.items
        ++ rows_text (flight_rows places.now tables.now flight.now)) }
{
    put_schedule(alloc, out, places, flight)?;
    put_legs(alloc, out, places, flight)?;
    put_cost(out, tables, flight)
}

// Adds the line of a flight's schedule.
fn put_schedule(
    alloc: Global,
    out: &mut Vec<u8>,
    places: &[Place],
    flight: &Flight,
) -> Result<(), OutOfMemory>
    ensures { OnOk result
        (out.new.items ≡ out.old.items ++ row_text (flight_row places.now flight.now)) }
{
    put(out, b"flight")?;
    put_field(out, flight.name.items())?;
    put_field(out, place_name(places, flight.from))?;
    put_field(out, place_name(places, flight.to))?;
    put_hours(alloc, out, flight)
}

// Adds the times, greatest delays and prices of a flight, and the end of its line.
fn put_hours(alloc: Global, out: &mut Vec<u8>, flight: &Flight) -> Result<(), OutOfMemory>
    ensures { OnOk result
        (out.new.items ≡ out.old.items ++ more_text (hours_fields flight.now)) }
{
    put_number(alloc, out, u64::from(flight.sd))?;
    put_number(alloc, out, u64::from(flight.sa))?;
    put_number(alloc, out, u64::from(flight.mg))?;
    put_number(alloc, out, u64::from(flight.md))?;
    put_prices(alloc, out, flight.cost)
}

// Adds the prices of a flight, and the end of its line.
fn put_prices(alloc: Global, out: &mut Vec<u8>, cost: Cost) -> Result<(), OutOfMemory>
    ensures { OnOk result (out.new.items ≡ out.old.items ++ more_text (price_fields cost)) }
{
    put_number(alloc, out, on_ground_of(cost))?;
    put_number(alloc, out, airborne_of(cost))?;
    put(out, b"\n")
}

// The price of a period on the ground, 0 where the cost is by tables.
fn on_ground_of(cost: Cost) -> u64
    ensures { result ≡ on_ground_of cost }
{
    match cost {
        Cost::Linear {
            ground,
            airborne: _,
        } => u64::from(ground),
        Cost::Tables {
            total: _,
            credit: _,
        } => 0,
    }
}

// The price of a period in the air, 0 where the cost is by tables.
fn airborne_of(cost: Cost) -> u64
    ensures { result ≡ airborne_of cost }
{
    match cost {
        Cost::Linear {
            ground: _,
            airborne,
        } => u64::from(airborne),
        Cost::Tables {
            total: _,
            credit: _,
        } => 0,
    }
}

// Adds the line of each leg of the flight.
fn put_legs(
    alloc: Global,
    out: &mut Vec<u8>,
    places: &[Place],
    flight: &Flight,
) -> Result<(), OutOfMemory>
    ensures { OnOk result (out.new.items ≡ out.old.items
        ++ rows_text (map (leg_row places.now flight.now) flight.now.legs)) }
{
    for leg in flight.legs.items() {
        put_leg(alloc, out, places, flight, *leg)?;
    }
    Ok(())
}

// Adds the line of a leg of the flight.
fn put_leg(
    alloc: Global,
    out: &mut Vec<u8>,
    places: &[Place],
    flight: &Flight,
    leg: Leg,
) -> Result<(), OutOfMemory>
    ensures { OnOk result
        (out.new.items ≡ out.old.items ++ row_text (leg_row places.now flight.now leg)) }
{
    put(out, b"leg")?;
    put_field(out, flight.name.items())?;
    put_field(out, place_name(places, place_at(flight, leg.from)))?;
    put_field(out, place_name(places, place_at(flight, leg.to)))?;
    put_number(alloc, out, u64::from(leg.least))?;
    put(out, b"\n")
}

// Adds the line of the flight's tables, if its cost is by tables.
fn put_cost(out: &mut Vec<u8>, tables: &[CostTable], flight: &Flight) -> Result<(), OutOfMemory>
    ensures { OnOk result (out.new.items ≡ out.old.items
        ++ rows_text (cost_rows tables.now flight.now.name flight.now.cost)) }
{
    match flight.cost {
        Cost::Linear {
            ground: _,
            airborne: _,
        } => Ok(()),
        Cost::Tables { total, credit } => {
            put(out, b"cost")?;
            put_field(out, flight.name.items())?;
            put_field(out, table_name(tables, total))?;
            put_field(out, table_name(tables, credit))?;
            put(out, b"\n")
        }
    }
}

// The name of the place at this position, empty where there is none.
fn place_name(places: &[Place], position: u32) -> &[u8]
    ensures { result.now ≡ place_name (slice_get places.now position) }
{
    match places.get(position as usize) {
        None => b"",
        Some(place) => place.name.items(),
    }
}

// The name of the table at this position, empty where there is none.
fn table_name(tables: &[CostTable], position: u32) -> &[u8]
    ensures { result.now ≡ table_name (slice_get tables.now position) }
{
    match tables.get(position as usize) {
        None => b"",
        Some(table) => table.name.items(),
    }
}
