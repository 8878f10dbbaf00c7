//! The record `leg`.
ghost use Rattle.std.specs.Prelude.{◌≡◌, ◌≤◌, ◌<◌, ◌&&◌, ◌||◌, ◌==◌, Some, IfOk, IsTrue, false, length, slice_get};
ghost use Rattle.csv.specs.Records.{fields_of};
ghost use Rattle.text_records.specs.Errors.{Finds};
ghost use Rattle.scenario_reader.specs.Legs.{adds_node, end_in, flight_at, flight_in, is_among, is_back, is_full, is_joined, is_own, leg_of, own_at, own_in, start_in};
ghost use Rattle.scenario_reader.specs.Validity.{IsNewLeg};
ghost use Rattle.flow_types.specs.Limits.{most_legs};

use crate::flight_draft::{FlightDraft, PlaceLeg, is_among};
use crate::named_list::NamedList;
use csv::ByteRecord;
use flow_types::{Cause, MOST_DELAY, MOST_LEGS, MOST_NODES, MOST_NODES_IN_ALL, Place, is_sector};
use text_records::{FieldFault, ends_after, name_in, number_in};

// A flight that has room for a leg, with its position.
fn flight_at(
    flights: &[FlightDraft],
    flight: Option<u32>,
) -> Result<(u32, &FlightDraft), FieldFault>
    ensures found { Finds (λ found. (found.0, found.1.now)) result (flight_at flights.now flight) }
    ensures here { IfOk result (λ found. slice_get flights.now found.0 ≡ Some found.1.now) }
    ensures room { IfOk result (λ found. length found.1.now.legs < most_legs) }
{
    let unknown = FieldFault {
        field: 2,
        cause: Cause::UnknownName,
    };
    let Some(k) = flight else {
        return Err(unknown);
    };
    let Some(flight) = flights.get(k as usize) else {
        return Err(unknown);
    };
    if flight.legs.items().len() >= MOST_LEGS {
        return Err(FieldFault {
            field: 2,
            cause: Cause::Limit,
        });
    }
    Ok((k, flight))
}

/// The flight that gets a leg, with its position.
#[tactic(auto, unfolding(crate::specs::Legs::flight_in))]
pub fn flight_in<'a>(
    flights: &'a NamedList<FlightDraft>,
    row: &ByteRecord,
) -> Result<(u32, &'a FlightDraft), FieldFault>
    ensures found { Finds (λ found. (found.0, found.1.now)) result
        (flight_in flights.now (fields_of row.now)) }
    ensures here { IfOk result (λ found. slice_get flights.now found.0 ≡ Some found.1.now) }
    ensures room { IfOk result (λ found. length found.1.now.legs < most_legs) }
{
    let name = name_in(row, 2)?;
    flight_at(flights.items(), flights.names().find(name))
}

// Whether the place is a sector, or one of the flight's two airports.
fn is_own(places: &[Place], flight: &FlightDraft, place: u32) -> bool
    ensures { result ≡ is_own places.now flight.now place }
{
    is_sector(places, place) || place == flight.from || place == flight.to
}

// The place, which has to be one that the flight may use.
fn own_at(
    number: usize,
    places: &[Place],
    flight: &FlightDraft,
    place: Option<u32>,
) -> Result<u32, FieldFault>
    ensures found { Finds (λ place. place) result (own_at number places.now flight.now place) }
    ensures own { IfOk result (λ place. IsTrue (is_own places.now flight.now place)) }
{
    match place {
        Some(place) if is_own(places, flight, place) => Ok(place),
        _ => Err(FieldFault {
            field: number,
            cause: Cause::UnknownName,
        }),
    }
}

#[tactic(auto, unfolding(crate::specs::Legs::own_in))]
fn own_in(
    number: usize,
    places: &NamedList<Place>,
    flight: &FlightDraft,
    row: &ByteRecord,
) -> Result<u32, FieldFault>
    requires { 1 ≤ number }
    ensures found { Finds (λ place. place) result
        (own_in number places.now flight.now (fields_of row.now)) }
    ensures own { IfOk result (λ place. IsTrue (is_own places.now flight.now place)) }
{
    let name = name_in(row, number)?;
    own_at(number, places.items(), flight, places.names().find(name))
}

// Where the leg starts.
#[tactic(auto, unfolding(crate::specs::Legs::start_in))]
fn start_in(
    places: &NamedList<Place>,
    flight: &FlightDraft,
    row: &ByteRecord,
) -> Result<u32, FieldFault>
    ensures found { Finds (λ place. place) result
        (start_in places.now flight.now (fields_of row.now)) }
    ensures start { IfOk result
        (λ place. IsTrue (place == flight.now.from || is_among flight.now.reached place)) }
{
    let place = own_in(3, places, flight, row)?;
    if place != flight.from && !is_among(flight.reached.items(), place) {
        return Err(FieldFault {
            field: 3,
            cause: Cause::Unreached,
        });
    }
    Ok(place)
}

// Whether a new node would be one too many.
fn is_full(total: u32, flight: &FlightDraft) -> bool
    ensures { result ≡ is_full total flight.now }
{
    flight.reached.items().len() + 2 >= MOST_NODES || total as usize >= MOST_NODES_IN_ALL
}

// Where the leg leads.
#[tactic(auto, unfolding(crate::specs::Legs::end_in))]
fn end_in(
    places: &NamedList<Place>,
    total: u32,
    flight: &FlightDraft,
    from: u32,
    row: &ByteRecord,
) -> Result<u32, FieldFault>
    ensures found { Finds (λ place. place) result
        (end_in places.now total flight.now from (fields_of row.now)) }
    ensures own { IfOk result (λ place. IsTrue (is_own places.now flight.now place)) }
    ensures once { IfOk result (λ place. is_joined flight.now.legs from place ≡ false) }
    ensures onward { IfOk result (λ place. is_back flight.now from place ≡ false) }
    ensures few { IfOk result
        (λ place. (adds_node flight.now place && is_full total flight.now) ≡ false) }
{
    let place = own_in(4, places, flight, row)?;
    let refused = |cause| Err(FieldFault { field: 4, cause });
    if flight.is_joined(from, place) {
        return refused(Cause::Repeated);
    }
    if flight.is_back(from, place) {
        return refused(Cause::BackLeg);
    }
    if flight.adds_node(place) && is_full(total, flight) {
        return refused(Cause::Limit);
    }
    Ok(place)
}

/// The leg that a `leg` record tells of its flight.
#[tactic(auto, unfolding(crate::specs::Legs::leg_of))]
pub fn leg_of(
    places: &NamedList<Place>,
    total: u32,
    flight: &FlightDraft,
    row: &ByteRecord,
) -> Result<PlaceLeg, FieldFault>
    requires { length flight.now.legs < most_legs }
    ensures found { Finds (λ leg. leg) result
        (leg_of places.now total flight.now (fields_of row.now)) }
    ensures valid { IfOk result (IsNewLeg places.now total flight.now) }
{
    let from = start_in(places, flight, row)?;
    let to = end_in(places, total, flight, from, row)?;
    let least = number_in(row, 5, 0, u64::from(MOST_DELAY))? as u16;
    ends_after(row, 5)?;
    Ok(PlaceLeg { from, to, least })
}
