//! A text record by record, into one `ByteRecord` that is used again.
ghost use Rattle.std.specs.Prelude.{◌≤◌, length};
ghost use Rattle.csv.specs.Records.{fields_of};
ghost use Rattle.flow_types.specs.Scenario.{parts_of};
ghost use Rattle.scenario_reader.specs.Reading.{records_step, scenario_of};
ghost use Rattle.text_records.specs.Errors.{Reads};
ghost use Rattle.flow_types.specs.Limits.{most_text_bytes};

use crate::draft::ScenarioDraft;
use crate::finish::finished;
use crate::records::{first_step, record_step};
use csv::ByteRecord;
use flow_types::{Cause, Fault, Scenario};
use std::alloc::Global;
use text_records::{RecordError, Refusal, Rows, refusal_of};

// Takes in all records from the second on.
fn records_step(
    alloc: Global,
    draft: &mut ScenarioDraft,
    rows: &mut Rows,
    row: &mut ByteRecord,
) -> Result<(), Refusal>
    requires { length rows.old ≤ most_text_bytes }
    ensures { Reads (λ _. draft.new) result (records_step 2 draft.old rows.old) }
{
    let mut number = 2;
    'records: while rows.next_row(row)? {
        if let Err(error) = record_step(alloc, draft, number, row) {
            return Err(refusal_of(number, error));
        }
        number += 1;
    }
    Ok(())
}

/// The scenario of a text, or its first fault.
pub fn scenario_of(alloc: Global, text: &[u8]) -> Result<Scenario, Refusal>
    requires { length text.now ≤ most_text_bytes }
    ensures { Reads parts_of result (scenario_of text.now) }
{
    let mut rows = Rows::of_text(alloc, text);
    let mut row = ByteRecord::new(alloc);
    if !rows.next_row(&mut row)? {
        return Err(Refusal::Text(Fault {
            at: 1,
            field: 1,
            cause: Cause::NoDay,
        }));
    }
    let mut draft = match first_step(alloc, &row) {
        Ok(draft) => draft,
        Err(fault) => return Err(refusal_of(1, RecordError::Field(fault))),
    };
    records_step(alloc, &mut draft, &mut rows, &mut row)?;
    finished(alloc, draft)
}
