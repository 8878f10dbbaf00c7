//! A text record by record, into one `ByteRecord` that is used again.
ghost use Rattle.std.specs.Prelude.{◌≤◌, length};
ghost use Rattle.csv.specs.Records.{fields_of};
ghost use Rattle.flow_types.specs.Scenario.{parts_of};
ghost use Rattle.plan_text.specs.Plans.{plan_of, record_step, records_step, step_of, trip_step};
ghost use Rattle.text_records.specs.Errors.{Gives, Reads};
ghost use Rattle.flow_types.specs.Limits.{most_text_bytes};

use crate::kind::{Kind, kind_of};
use crate::named_scenario::NamedScenario;
use crate::trips::trip_of;
use crate::trips_read::TripsRead;
use csv::ByteRecord;
use flow_types::{Cause, Plan, Scenario};
use std::alloc::Global;
use text_records::{FieldFault, RecordError, Refusal, Rows, field_in, refusal_of};

#[tactic(auto, unfolding(crate::specs::Plans::trip_step))]
fn trip_step(
    alloc: Global,
    scenario: &NamedScenario,
    trips: &mut TripsRead,
    row: &ByteRecord,
) -> Result<(), RecordError>
    ensures { Gives (λ _. trips.new) result (trip_step scenario.now trips.old (fields_of row.now)) }
{
    let (flight, trip) = trip_of(alloc, scenario, trips, row)?;
    trips.set_trip(flight, trip);
    Ok(())
}

// What a record of this kind does.
fn step_of(
    alloc: Global,
    scenario: &NamedScenario,
    trips: &mut TripsRead,
    row: &ByteRecord,
    kind: Option<Kind>,
) -> Result<(), RecordError>
    ensures { Gives (λ _. trips.new) result
        (step_of scenario.now trips.old (fields_of row.now) kind) }
{
    match kind {
        None => Err(RecordError::Field(FieldFault {
            field: 1,
            cause: Cause::UnknownKind,
        })),
        Some(Kind::Trip) => trip_step(alloc, scenario, trips, row),
        Some(Kind::PassedOver) => Ok(()),
    }
}

// Takes in a record.
#[tactic(auto, unfolding(crate::specs::Plans::record_step))]
fn record_step(
    alloc: Global,
    scenario: &NamedScenario,
    trips: &mut TripsRead,
    row: &ByteRecord,
) -> Result<(), RecordError>
    ensures { Gives (λ _. trips.new) result
        (record_step scenario.now trips.old (fields_of row.now)) }
{
    let kind = kind_of(field_in(row, 1)?);
    step_of(alloc, scenario, trips, row, kind)
}

// Takes in all records.
fn records_step(
    alloc: Global,
    scenario: &NamedScenario,
    trips: &mut TripsRead,
    rows: &mut Rows,
) -> Result<(), Refusal>
    requires { length rows.old ≤ most_text_bytes }
    ensures { Reads (λ _. trips.new) result (records_step scenario.now 1 trips.old rows.old) }
{
    let mut row = ByteRecord::new(alloc);
    let mut number = 1;
    'records: while rows.next_row(&mut row)? {
        if let Err(error) = record_step(alloc, scenario, trips, &row) {
            return Err(refusal_of(number, error));
        }
        number += 1;
    }
    Ok(())
}

/// The plan of a text, or its first fault.
pub fn plan_of(alloc: Global, s: &Scenario, text: &[u8]) -> Result<Plan, Refusal>
    requires { length text.now ≤ most_text_bytes }
    ensures { Reads (λ plan. plan) result (plan_of (parts_of s.now) text.now) }
{
    let scenario = NamedScenario::of_scenario(alloc, s)?;
    let mut trips = TripsRead::none(alloc, scenario.flight_count())?;
    let mut rows = Rows::of_text(alloc, text);
    records_step(alloc, &scenario, &mut trips, &mut rows)?;
    Ok(trips.into_plan(alloc)?)
}
