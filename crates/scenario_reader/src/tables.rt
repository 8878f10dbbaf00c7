//! The records `table` and `cost`.
ghost use Rattle.std.specs.Prelude.{◌≡◌, ◌≤◌, ◌<◌, ◌+◌, None, Some, All, IfOk, OnOk, drop, length, slice_get};
ghost use Rattle.csv.specs.Records.{fields_of};
ghost use Rattle.flow_types.specs.Valid.{IsTable, IsValue, value_count};
ghost use Rattle.text_records.specs.Errors.{Finds, Gives};
ghost use Rattle.text_records.specs.Names.{position_of};
ghost use Rattle.scenario_reader.specs.DraftParts.{table_names};
ghost use Rattle.scenario_reader.specs.Tables.{has_tables, pricing_of, signed, table_in, table_of, untabled_at, untabled_in, value_at, value_in, value_of, values_from};
ghost use Rattle.scenario_reader.specs.Validity.{IsPricing};
ghost use Rattle.flow_types.specs.Limits.{most_tables, most_value, most_values};

use crate::flight_draft::FlightDraft;
use crate::named_list::NamedList;
use csv::ByteRecord;
use flow_types::{
    Cause, Cost, CostTable, MOST_TABLES, MOST_VALUE, MOST_VALUES, Sequence, Values, parse_number,
    value_count,
};
use std::alloc::Global;
use text_records::{FieldFault, NameIndex, RecordError, ends_after, field_in, known_in, new_name};

/// The tables of a flight. It and they are named by their positions.
#[derive(Clone, Copy, Debug, PartialEq, Eq)]
pub struct Pricing {
    pub flight: u32,
    pub total: u32,
    pub credit: u32,
}

// The number with its sign.
fn signed(negative: bool, n: u64) -> i64
    requires { n ≤ most_value }
    ensures value { result ≡ signed negative n }
    ensures valid { IsValue result }
{
    if negative { -(n as i64) } else { n as i64 }
}

// The number with its sign, which has to be within its limits.
fn value_at(number: usize, negative: bool, size: Option<u64>) -> Result<i64, FieldFault>
    ensures found { Finds (λ value. value) result (value_at number negative size) }
    ensures valid { IfOk result IsValue }
{
    match size {
        Some(n) if n <= MOST_VALUE as u64 => Ok(signed(negative, n)),
        Some(_) => Err(FieldFault {
            field: number,
            cause: Cause::OutOfRange,
        }),
        None => Err(FieldFault {
            field: number,
            cause: Cause::BadNumber,
        }),
    }
}

// The value that the bytes of a field spell.
fn value_of(number: usize, bytes: &[u8]) -> Result<i64, FieldFault>
    ensures found { Finds (λ value. value) result (value_of number bytes.now) }
    ensures valid { IfOk result IsValue }
{
    match bytes.split_first() {
        Some((b'-', digits)) => value_at(number, true, parse_number(digits)),
        _ => value_at(number, false, parse_number(bytes)),
    }
}

// The value in the field of this number, of which the last may be the 514th.
fn value_in(number: usize, bytes: &[u8]) -> Result<i64, FieldFault>
    ensures found { Finds (λ value. value) result (value_in number bytes.now) }
    ensures valid { IfOk result IsValue }
    ensures within { OnOk result (number ≤ most_values + 2) }
{
    if number > MOST_VALUES + 2 {
        return Err(FieldFault {
            field: number,
            cause: Cause::ExtraField,
        });
    }
    value_of(number, bytes)
}

// The values in the fields from the third on.
fn values_in(alloc: Global, row: &ByteRecord) -> Result<Values, RecordError>
    ensures found { Gives (λ values. values) result (values_from 3 (drop 2 (fields_of row.now))) }
    ensures valid { IfOk result (λ values. All IsValue values) }
    ensures few { IfOk result (λ values. length values ≤ most_values) }
    ensures many { IfOk result (λ values. length (fields_of row.now) ≤ length values + 2) }
{
    let mut values = Sequence::empty(alloc);
    for at in 2..row.len().min(MOST_VALUES + 3) {
        let number = at + 1;
        values.add(value_in(number, field_in(row, number)?)?)?;
    }
    Ok(values)
}

/// The table that a `table` record tells.
#[tactic(auto, unfolding(crate::specs::Tables::table_of))]
pub fn table_of(
    alloc: Global,
    names: &NameIndex,
    row: &ByteRecord,
) -> Result<CostTable, RecordError>
    ensures found { Gives (λ table. table) result (table_of names.now (fields_of row.now)) }
    ensures valid { IfOk result IsTable }
    ensures fresh { IfOk result (λ table. position_of table.name names.now ≡ None) }
    ensures room { OnOk result (length names.now < most_tables) }
{
    let name = new_name(MOST_TABLES, names, row)?;
    field_in(row, 3)?;
    let values = values_in(alloc, row)?;
    Ok(CostTable {
        name: Sequence::from_vec(Vec::from_slice(alloc, name)?),
        values,
    })
}

// Whether the cost is told by tables.
fn has_tables(cost: Cost) -> bool
    ensures { result ≡ has_tables cost }
{
    match cost {
        Cost::Linear { .. } => false,
        Cost::Tables { .. } => true,
    }
}

// The flight, with its position, which has no tables yet.
fn untabled_at(flights: &[FlightDraft], k: u32) -> Result<(u32, &FlightDraft), FieldFault>
    ensures found { Finds (λ found. (found.0, found.1.now)) result
        (untabled_at k (slice_get flights.now k)) }
    ensures here { IfOk result (λ found. slice_get flights.now found.0 ≡ Some found.1.now) }
{
    match flights.get(k as usize) {
        Some(flight) if has_tables(flight.cost) => Err(FieldFault {
            field: 2,
            cause: Cause::Repeated,
        }),
        Some(flight) => Ok((k, flight)),
        None => Err(FieldFault {
            field: 2,
            cause: Cause::UnknownName,
        }),
    }
}

#[tactic(auto, unfolding(crate::specs::Tables::untabled_in))]
fn untabled_in<'a>(
    flights: &'a NamedList<FlightDraft>,
    row: &ByteRecord,
) -> Result<(u32, &'a FlightDraft), FieldFault>
    ensures found { Finds (λ found. (found.0, found.1.now)) result
        (untabled_in flights.now (fields_of row.now)) }
    ensures here { IfOk result (λ found. slice_get flights.now found.0 ≡ Some found.1.now) }
{
    let k = known_in(2, flights.names(), row)?;
    untabled_at(flights.items(), k)
}

// The table, which has so many values at the least.
#[tactic(auto, unfolding(crate::specs::Tables::table_in))]
fn table_in(
    number: usize,
    least: usize,
    tables: &NamedList<CostTable>,
    row: &ByteRecord,
) -> Result<u32, FieldFault>
    requires { 1 ≤ number }
    ensures found { Finds (λ table. table) result
        (table_in number least tables.now (fields_of row.now)) }
    ensures long { IfOk result (λ table. least ≤ value_count (slice_get tables.now table)) }
{
    let table = known_in(number, tables.names(), row)?;
    if value_count(tables.items(), table) < least {
        return Err(FieldFault {
            field: number,
            cause: Cause::ShortTable,
        });
    }
    Ok(table)
}

/// The tables that a `cost` record tells of its flight.
#[tactic(auto, unfolding(crate::specs::Tables::pricing_of))]
pub fn pricing_of(
    flights: &NamedList<FlightDraft>,
    tables: &NamedList<CostTable>,
    row: &ByteRecord,
) -> Result<Pricing, FieldFault>
    ensures found { Finds (λ pricing. pricing) result
        (pricing_of flights.now tables.now (fields_of row.now)) }
    ensures valid { IfOk result (IsPricing flights.now tables.now) }
{
    let (k, flight) = untabled_in(flights, row)?;
    let total = table_in(3, flight.hours.md as usize + 1, tables, row)?;
    let credit = table_in(4, flight.hours.mg as usize + 1, tables, row)?;
    ends_after(row, 4)?;
    Ok(Pricing {
        flight: k,
        total,
        credit,
    })
}
