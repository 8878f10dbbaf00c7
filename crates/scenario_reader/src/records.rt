//! What each record does to what was read before it.
ghost use Rattle.std.specs.Prelude.{◌≡◌, ◌+◌, ◌<◌, ◌≤◌, [], None, Some, IfOk, OnOk, length, slice_get};
ghost use Rattle.csv.specs.Records.{fields_of};
ghost use Rattle.flow_types.specs.Valid.{IsDay};
ghost use Rattle.scenario_reader.specs.DraftParts.{flight_names, node_total};
ghost use Rattle.scenario_reader.specs.Flights.{flight_of};
ghost use Rattle.scenario_reader.specs.Legs.{leg_in};
ghost use Rattle.scenario_reader.specs.Reading.{airport_step, cap_step, connect_step, cost_step, day_by_kind, first_step, flight_step, leg_step, record_step, sector_step, step_of, table_step};
ghost use Rattle.scenario_reader.specs.Validity.{IsFlightDraft, IsNewLeg};
ghost use Rattle.scenario_reader.specs.declared.flight_draft.FlightDraft.{FlightDraft as TheFlightDraft};
ghost use Rattle.text_records.specs.Errors.{Finds, Gives};
ghost use Rattle.text_records.specs.Names.{position_of};
ghost use Rattle.flow_types.specs.Limits.{most_flights, most_nodes_in_all};

use crate::capacities::cap_change_of;
use crate::connections::connection_of;
use crate::draft::ScenarioDraft;
use crate::flight_draft::{FlightDraft, PlaceLeg};
use crate::flights::{cost_in, destination_in, flight_name_of, hours_in, origin_in};
use crate::kind::{Kind, kind_of};
use crate::legs::{flight_in, leg_of};
use crate::places::{airport_of, day_of, sector_of};
use crate::sectors::Sectors;
use crate::tables::{pricing_of, table_of};
use csv::ByteRecord;
use flow_types::{Cause, Day, Sequence};
use std::alloc::Global;
use text_records::{FieldFault, RecordError, field_in};

// The flight that a `flight` record tells, with no legs yet.
#[tactic(auto, unfolding(crate::specs::Flights::flight_of))]
fn flight_of(
    alloc: Global,
    draft: &ScenarioDraft,
    number: u32,
    row: &ByteRecord,
) -> Result<FlightDraft, RecordError>
    ensures found { Gives (λ flight. flight) result
        (flight_of draft.now number (fields_of row.now)) }
    ensures valid { IfOk result
        (IsFlightDraft draft.now.day.periods draft.now.places draft.now.tables) }
    ensures fresh { IfOk result
        (λ flight. position_of flight.name (flight_names draft.now.flights) ≡ None) }
    ensures empty { IfOk result (λ flight. flight.reached ≡ []) }
    ensures room { OnOk result (length draft.now.flights < most_flights) }
    ensures few { OnOk result (node_total draft.now.flights + 2 ≤ most_nodes_in_all) }
{
    let name = flight_name_of(draft.flights().names(), draft.node_total(), row)?;
    let from = origin_in(draft.places(), row)?;
    let to = destination_in(draft.places(), from, row)?;
    let hours = hours_in(draft.day().periods, row)?;
    let cost = cost_in(row)?;
    Ok(FlightDraft {
        at: number,
        name: Sequence::from_vec(Vec::from_slice(alloc, name)?),
        from,
        to,
        hours,
        cost,
        legs: Sequence::empty(alloc),
        passed: Sectors::none(),
        reached: Sectors::none(),
    })
}

// The leg that a `leg` record tells, and the position of its flight.
#[tactic(auto, unfolding(crate::specs::Legs::leg_in))]
fn leg_in(draft: &ScenarioDraft, row: &ByteRecord) -> Result<(u32, PlaceLeg), FieldFault>
    ensures found { Finds (λ found. (found.0, found.1)) result
        (leg_in draft.now (fields_of row.now)) }
    ensures here { IfOk result (λ found. found.0 < length draft.now.flights) }
    ensures valid { IfOk result (λ found. (flight : TheFlightDraft)
        → slice_get draft.now.flights found.0 ≡ Some flight
        → IsNewLeg draft.now.places (node_total draft.now.flights) flight found.1) }
{
    let (k, flight) = flight_in(draft.flights(), row)?;
    let leg = leg_of(draft.places(), draft.node_total(), flight, row)?;
    Ok((k, leg))
}

#[tactic(auto, unfolding(crate::specs::Reading::airport_step))]
fn airport_step(
    alloc: Global,
    draft: &mut ScenarioDraft,
    row: &ByteRecord,
) -> Result<(), RecordError>
    ensures { Gives (λ _. draft.new) result (airport_step draft.old (fields_of row.now)) }
{
    let place = airport_of(alloc, draft.day().periods, draft.places().names(), row)?;
    draft.add_place(alloc, place)?;
    Ok(())
}

#[tactic(auto, unfolding(crate::specs::Reading::sector_step))]
fn sector_step(
    alloc: Global,
    draft: &mut ScenarioDraft,
    row: &ByteRecord,
) -> Result<(), RecordError>
    ensures { Gives (λ _. draft.new) result (sector_step draft.old (fields_of row.now)) }
{
    let place = sector_of(alloc, draft.day().periods, draft.places().names(), row)?;
    draft.add_place(alloc, place)?;
    Ok(())
}

#[tactic(auto, unfolding(crate::specs::Reading::flight_step))]
fn flight_step(
    alloc: Global,
    draft: &mut ScenarioDraft,
    number: u32,
    row: &ByteRecord,
) -> Result<(), RecordError>
    ensures { Gives (λ _. draft.new) result (flight_step draft.old number (fields_of row.now)) }
{
    let flight = flight_of(alloc, draft, number, row)?;
    draft.add_flight(alloc, flight)?;
    Ok(())
}

#[tactic(auto, unfolding(crate::specs::Reading::leg_step))]
fn leg_step(draft: &mut ScenarioDraft, row: &ByteRecord) -> Result<(), RecordError>
    ensures { Gives (λ _. draft.new) result (leg_step draft.old (fields_of row.now)) }
{
    let (flight, leg) = leg_in(draft, row)?;
    draft.add_leg(flight, leg)?;
    Ok(())
}

#[tactic(auto, unfolding(crate::specs::Reading::connect_step))]
fn connect_step(draft: &mut ScenarioDraft, row: &ByteRecord) -> Result<(), RecordError>
    ensures { Gives (λ _. draft.new) result (connect_step draft.old (fields_of row.now)) }
{
    let connection = connection_of(draft.flights(), draft.connections(), row)?;
    draft.add_connection(connection)?;
    Ok(())
}

#[tactic(auto, unfolding(crate::specs::Reading::table_step))]
fn table_step(alloc: Global, draft: &mut ScenarioDraft, row: &ByteRecord) -> Result<(), RecordError>
    ensures { Gives (λ _. draft.new) result (table_step draft.old (fields_of row.now)) }
{
    let table = table_of(alloc, draft.tables().names(), row)?;
    draft.add_table(alloc, table)?;
    Ok(())
}

#[tactic(auto, unfolding(crate::specs::Reading::cost_step))]
fn cost_step(draft: &mut ScenarioDraft, row: &ByteRecord) -> Result<(), FieldFault>
    ensures { Finds (λ _. draft.new) result (cost_step draft.old (fields_of row.now)) }
{
    let pricing = pricing_of(draft.flights(), draft.tables(), row)?;
    draft.set_pricing(pricing);
    Ok(())
}

#[tactic(auto, unfolding(crate::specs::Reading::cap_step))]
fn cap_step(draft: &mut ScenarioDraft, row: &ByteRecord) -> Result<(), FieldFault>
    ensures { Finds (λ _. draft.new) result (cap_step draft.old (fields_of row.now)) }
{
    let change = cap_change_of(draft.day().periods, draft.places(), row)?;
    draft.change_capacities(change);
    Ok(())
}

fn fault_of_kind(cause: Cause) -> RecordError
    ensures { result ≡ RecordError.Field (record { field = 1; cause = cause }) }
{
    RecordError::Field(FieldFault { field: 1, cause })
}

// What a record of this kind does.
fn step_of(
    alloc: Global,
    draft: &mut ScenarioDraft,
    number: u32,
    row: &ByteRecord,
    kind: Option<Kind>,
) -> Result<(), RecordError>
    ensures { Gives (λ _. draft.new) result (step_of draft.old number (fields_of row.now) kind) }
{
    match kind {
        None => Err(fault_of_kind(Cause::UnknownKind)),
        Some(Kind::Day) => Err(fault_of_kind(Cause::Repeated)),
        Some(Kind::Airport) => airport_step(alloc, draft, row),
        Some(Kind::Sector) => sector_step(alloc, draft, row),
        Some(Kind::Flight) => flight_step(alloc, draft, number, row),
        Some(Kind::Leg) => leg_step(draft, row),
        Some(Kind::Connect) => connect_step(draft, row),
        Some(Kind::Table) => table_step(alloc, draft, row),
        Some(Kind::Cost) => Ok(cost_step(draft, row)?),
        Some(Kind::Cap) => Ok(cap_step(draft, row)?),
        Some(Kind::Note) => Ok(()),
    }
}

/// Takes in a record that isn't the first, which has this number.
#[tactic(auto, unfolding(crate::specs::Reading::record_step))]
pub fn record_step(
    alloc: Global,
    draft: &mut ScenarioDraft,
    number: u32,
    row: &ByteRecord,
) -> Result<(), RecordError>
    ensures { Gives (λ _. draft.new) result (record_step draft.old number (fields_of row.now)) }
{
    let kind = kind_of(field_in(row, 1)?);
    step_of(alloc, draft, number, row, kind)
}

// The day that the first record tells, if it is of that kind.
fn day_by_kind(row: &ByteRecord, kind: Option<Kind>) -> Result<Day, FieldFault>
    ensures found { Finds (λ day. day) result (day_by_kind (fields_of row.now) kind) }
    ensures valid { IfOk result IsDay }
{
    match kind {
        Some(Kind::Day) => day_of(row),
        _ => Err(FieldFault {
            field: 1,
            cause: Cause::NoDay,
        }),
    }
}

/// The draft after the first record.
#[tactic(auto, unfolding(crate::specs::Reading::first_step))]
pub fn first_step(alloc: Global, row: &ByteRecord) -> Result<ScenarioDraft, FieldFault>
    ensures { Finds (λ draft. draft) result (first_step (fields_of row.now)) }
{
    let kind = kind_of(field_in(row, 1)?);
    let day = day_by_kind(row, kind)?;
    Ok(ScenarioDraft::of_day(alloc, day))
}
