//! The record `cap`.
ghost use Rattle.std.specs.Prelude.{◌≡◌, ◌<◌, ◌≤◌, IfOk, IsTrue, slice_get};
ghost use Rattle.csv.specs.Records.{fields_of};
ghost use Rattle.flow_types.specs.Capacities.{has_kind};
ghost use Rattle.text_records.specs.Errors.{Finds};
ghost use Rattle.scenario_reader.specs.Capacities.{cap_change_of, cap_kind_at, cap_kind_of, last_in, place_in};
ghost use Rattle.scenario_reader.specs.Validity.{IsCapChange};

use crate::named_list::NamedList;
use csv::ByteRecord;
use flow_types::{CapKind, Cause, MOST_CAPACITY, Place, has_kind};
use text_records::{FieldFault, ends_after, field_in, known_in, number_in};

/// A capacity of a place, which is named by its position, from one period to another.
#[derive(Clone, Copy, Debug, PartialEq, Eq)]
pub struct CapChange {
    pub kind: CapKind,
    pub place: u32,
    pub first: u16,
    pub last: u16,
    pub value: u32,
}

// The kind of capacity that the word names.
fn cap_kind_of(word: &[u8]) -> Option<CapKind>
    ensures { result ≡ cap_kind_of word.now }
{
    if word == b"dep".as_slice() {
        Some(CapKind::Dep)
    } else if word == b"arr".as_slice() {
        Some(CapKind::Arr)
    } else if word == b"sector".as_slice() {
        Some(CapKind::Sector)
    } else {
        None
    }
}

fn cap_kind_at(kind: Option<CapKind>) -> Result<CapKind, FieldFault>
    ensures { Finds (λ kind. kind) result (cap_kind_at kind) }
{
    kind.ok_or(FieldFault {
        field: 2,
        cause: Cause::UnknownKind,
    })
}

// The place, which has capacities of this kind.
#[tactic(auto, unfolding(crate::specs::Capacities::place_in))]
fn place_in(kind: CapKind, places: &NamedList<Place>, row: &ByteRecord) -> Result<u32, FieldFault>
    ensures found { Finds (λ place. place) result (place_in kind places.now (fields_of row.now)) }
    ensures kind { IfOk result (λ place. IsTrue (has_kind kind (slice_get places.now place))) }
{
    let place = known_in(3, places.names(), row)?;
    if !has_kind(kind, places.items(), place) {
        return Err(FieldFault {
            field: 3,
            cause: Cause::UnknownName,
        });
    }
    Ok(place)
}

// The last period, no earlier than the first.
#[tactic(auto, unfolding(crate::specs::Capacities::last_in))]
fn last_in(periods: u16, first: u64, row: &ByteRecord) -> Result<u64, FieldFault>
    requires { 1 ≤ periods }
    ensures found { Finds (λ last. last) result (last_in periods first (fields_of row.now)) }
    ensures forward { IfOk result (λ last. first ≤ last) }
    ensures within { IfOk result (λ last. last < periods) }
{
    let last = number_in(row, 5, 0, u64::from(periods - 1))?;
    if last < first {
        return Err(FieldFault {
            field: 5,
            cause: Cause::BackInTime,
        });
    }
    Ok(last)
}

/// The change of capacities that a `cap` record tells.
#[tactic(auto, unfolding(crate::specs::Capacities::cap_change_of))]
pub fn cap_change_of(
    periods: u16,
    places: &NamedList<Place>,
    row: &ByteRecord,
) -> Result<CapChange, FieldFault>
    requires { 1 ≤ periods }
    ensures found { Finds (λ change. change) result
        (cap_change_of periods places.now (fields_of row.now)) }
    ensures valid { IfOk result (IsCapChange periods places.now) }
{
    let kind = cap_kind_at(cap_kind_of(field_in(row, 2)?))?;
    let place = place_in(kind, places, row)?;
    let first = number_in(row, 4, 0, u64::from(periods - 1))?;
    let last = last_in(periods, first, row)?;
    let value = number_in(row, 6, 0, u64::from(MOST_CAPACITY))?;
    ends_after(row, 6)?;
    Ok(CapChange {
        kind,
        place,
        first: first as u16,
        last: last as u16,
        value: value as u32,
    })
}
