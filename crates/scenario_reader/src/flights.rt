//! The record `flight`.
ghost use Rattle.std.specs.Prelude.{◌≡◌, ◌≢◌, List, ℕ, ◌+◌, ◌<◌, ◌≤◌, [], None, IfOk, OnOk, IsTrue, length, slice_get};
ghost use Rattle.csv.specs.Records.{fields_of};
ghost use Rattle.flow_types.specs.Routes.{is_airport};
ghost use Rattle.flow_types.specs.Valid.{is_cost};
ghost use Rattle.flow_types.specs.Words.{is_name};
ghost use Rattle.flow_types.specs.declared.flight.CostTable.{CostTable};
ghost use Rattle.text_records.specs.Errors.{Finds};
ghost use Rattle.scenario_reader.specs.Flights.{airport_at, arrival_in, cost_in, destination_in, flight_name_of, hours_in, origin_in, other_airport_at};
ghost use Rattle.text_records.specs.Names.{position_of};
ghost use Rattle.scenario_reader.specs.Validity.{IsHours};
ghost use Rattle.flow_types.specs.Limits.{most_flights, most_nodes_in_all};

use crate::flight_draft::Hours;
use crate::named_list::NamedList;
use csv::ByteRecord;
use flow_types::{
    Cause, Cost, MOST_DELAY, MOST_FLIGHTS, MOST_NODES_IN_ALL, MOST_PERIOD_COST, Place, is_airport,
};
use text_records::{FieldFault, NameIndex, ends_after, name_in, new_name, number_in};

/// The name of a new flight, where there is room for its two nodes.
#[tactic(auto, unfolding(crate::specs::Flights::flight_name_of))]
pub fn flight_name_of<'a>(
    names: &NameIndex,
    total: u32,
    row: &'a ByteRecord,
) -> Result<&'a [u8], FieldFault>
    requires { total ≤ most_nodes_in_all }
    ensures found { Finds (λ name. name.now) result
        (flight_name_of names.now total (fields_of row.now)) }
    ensures named { IfOk result (λ name. IsTrue (is_name name.now)) }
    ensures fresh { IfOk result (λ name. position_of name.now names.now ≡ None) }
    ensures room { OnOk result (length names.now < most_flights) }
    ensures few { OnOk result (total + 2 ≤ most_nodes_in_all) }
{
    let name = new_name(MOST_FLIGHTS, names, row)?;
    if total as usize + 2 > MOST_NODES_IN_ALL {
        return Err(FieldFault {
            field: 2,
            cause: Cause::Limit,
        });
    }
    Ok(name)
}

// The place, which has to be an airport.
fn airport_at(number: usize, places: &[Place], place: Option<u32>) -> Result<u32, FieldFault>
    ensures found { Finds (λ place. place) result (airport_at number places.now place) }
    ensures airport { IfOk result (λ place. IsTrue (is_airport (slice_get places.now place))) }
{
    match place {
        Some(place) if is_airport(places, place) => Ok(place),
        _ => Err(FieldFault {
            field: number,
            cause: Cause::UnknownName,
        }),
    }
}

/// Where the flight departs from.
#[tactic(auto, unfolding(crate::specs::Flights::origin_in))]
pub fn origin_in(places: &NamedList<Place>, row: &ByteRecord) -> Result<u32, FieldFault>
    ensures found { Finds (λ place. place) result (origin_in places.now (fields_of row.now)) }
    ensures airport { IfOk result (λ place. IsTrue (is_airport (slice_get places.now place))) }
{
    let name = name_in(row, 3)?;
    airport_at(3, places.items(), places.names().find(name))
}

// The place, which has to be an airport other than the origin.
fn other_airport_at(places: &[Place], origin: u32, place: Option<u32>) -> Result<u32, FieldFault>
    ensures found { Finds (λ place. place) result (other_airport_at places.now origin place) }
    ensures airport { IfOk result (λ place. IsTrue (is_airport (slice_get places.now place))) }
    ensures apart { IfOk result (λ place. origin ≢ place) }
{
    if place == Some(origin) {
        return Err(FieldFault {
            field: 4,
            cause: Cause::Repeated,
        });
    }
    airport_at(4, places, place)
}

/// Where the flight arrives.
#[tactic(auto, unfolding(crate::specs::Flights::destination_in))]
pub fn destination_in(
    places: &NamedList<Place>,
    origin: u32,
    row: &ByteRecord,
) -> Result<u32, FieldFault>
    ensures found { Finds (λ place. place) result
        (destination_in places.now origin (fields_of row.now)) }
    ensures airport { IfOk result (λ place. IsTrue (is_airport (slice_get places.now place))) }
    ensures apart { IfOk result (λ place. origin ≢ place) }
{
    let name = name_in(row, 4)?;
    other_airport_at(places.items(), origin, places.names().find(name))
}

// The scheduled arrival.
#[tactic(auto, unfolding(crate::specs::Flights::arrival_in))]
fn arrival_in(periods: u16, departure: u64, row: &ByteRecord) -> Result<u64, FieldFault>
    requires { 1 ≤ periods }
    ensures found { Finds (λ arrival. arrival) result
        (arrival_in periods departure (fields_of row.now)) }
    ensures forward { IfOk result (λ arrival. departure ≤ arrival) }
    ensures within { IfOk result (λ arrival. arrival < periods) }
{
    let arrival = number_in(row, 6, 0, u64::from(periods - 1))?;
    if arrival < departure {
        return Err(FieldFault {
            field: 6,
            cause: Cause::BackInTime,
        });
    }
    Ok(arrival)
}

/// The scheduled times and the greatest delays.
#[tactic(auto, unfolding(crate::specs::Flights::hours_in))]
pub fn hours_in(periods: u16, row: &ByteRecord) -> Result<Hours, FieldFault>
    requires { 1 ≤ periods }
    ensures found { Finds (λ hours. hours) result (hours_in periods (fields_of row.now)) }
    ensures valid { IfOk result (IsHours periods) }
{
    let departure = number_in(row, 5, 0, u64::from(periods - 1))?;
    let arrival = arrival_in(periods, departure, row)?;
    let on_ground = number_in(row, 7, 0, u64::from(MOST_DELAY))?;
    let late = number_in(row, 8, 0, u64::from(MOST_DELAY))?;
    Ok(Hours {
        sd: departure as u16,
        sa: arrival as u16,
        mg: on_ground as u16,
        md: late as u16,
    })
}

/// What the flight's delays cost, at the record's end.
#[tactic(auto, unfolding(crate::specs::Flights::cost_in))]
pub fn cost_in(row: &ByteRecord) -> Result<Cost, FieldFault>
    ensures found { Finds (λ cost. cost) result (cost_in (fields_of row.now)) }
    ensures valid { IfOk result (λ cost. (tables : List CostTable) (mg md : ℕ)
        → IsTrue (is_cost tables mg md cost)) }
{
    let on_ground = number_in(row, 9, 0, u64::from(MOST_PERIOD_COST))?;
    let airborne = number_in(row, 10, 0, u64::from(MOST_PERIOD_COST))?;
    ends_after(row, 10)?;
    Ok(Cost::Linear {
        ground: on_ground as u32,
        airborne: airborne as u32,
    })
}
