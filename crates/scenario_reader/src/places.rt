//! The day, airports and sectors.
ghost use Rattle.std.specs.Prelude.{◌≡◌, ◌<◌, ◌≤◌, ◌++◌, ◌∷◌, [], None, IfOk, OnOk, All, length, replicate, slice_get};
ghost use Rattle.csv.specs.Records.{fields_of};
ghost use Rattle.flow_types.specs.Valid.{IsDay, IsPlace};
ghost use Rattle.text_records.specs.Errors.{Finds, Gives};
ghost use Rattle.scenario_reader.specs.Capacities.{Reaches, with_change};
ghost use Rattle.scenario_reader.specs.Change.{changed_at};
ghost use Rattle.text_records.specs.Names.{position_of};
ghost use Rattle.scenario_reader.specs.Places.{airport_of, day_of, sector_of};
ghost use Rattle.scenario_reader.specs.DraftParts.{place_names};
ghost use Rattle.flow_types.specs.declared.place.Place.{Place};
ghost use Rattle.flow_types.specs.Limits.{most_capacity, most_places};

use crate::capacities::CapChange;
use crate::date::moment_of;
use crate::named_list::NamedList;
use csv::ByteRecord;
use flow_types::{
    CapKind, Caps, Day, MOST_CAPACITY, MOST_MINUTES, MOST_PERIODS, MOST_PLACES, Place, PlaceKind,
    Sequence,
};
use std::alloc::{AllocError, Global};
use text_records::{FieldFault, NameIndex, RecordError, ends_after, field_in, new_name, number_in};

impl NamedList<Place> {
    /// Changes a place's capacities. It takes no memory.
    pub fn change(&mut self, change: CapChange)
        requires here { change.place < length self.old }
        requires within { (place : Place) → slice_get self.old change.place ≡ Some place
            → Reaches change place }
        ensures { self.new ≡ changed_at (with_change change) self.old change.place }
    {
        change_place(&mut self.items[change.place as usize], change);
    }
}

// Changes the capacities of a place.
fn change_place(place: &mut Place, change: CapChange)
    requires { Reaches change place.old }
    ensures { place.new ≡ with_change change place.old }
{
    let from = change.first as usize;
    let count = (change.last - change.first) as usize + 1;
    match change.kind {
        CapKind::Arr => place.second.fill(from, count, change.value),
        CapKind::Dep | CapKind::Sector => place.first.fill(from, count, change.value),
    }
}

/// The day that a `day` record tells.
#[tactic(auto, unfolding(crate::specs::Places::day_of))]
pub fn day_of(row: &ByteRecord) -> Result<Day, FieldFault>
    ensures found { Finds (λ day. day) result (day_of (fields_of row.now)) }
    ensures valid { IfOk result IsDay }
{
    let moment = moment_of(field_in(row, 2)?)?;
    let minutes = number_in(row, 3, 1, u64::from(MOST_MINUTES))? as u16;
    let periods = number_in(row, 4, 1, u64::from(MOST_PERIODS))? as u16;
    ends_after(row, 4)?;
    Ok(Day {
        year: moment.year,
        month: moment.month,
        day: moment.day,
        hour: moment.hour,
        minute: moment.minute,
        minutes,
        periods,
    })
}

/// The airport that an `airport` record tells.
#[tactic(auto, unfolding(crate::specs::Places::airport_of))]
pub fn airport_of(
    alloc: Global,
    periods: u16,
    names: &NameIndex,
    row: &ByteRecord,
) -> Result<Place, RecordError>
    ensures found { Gives (λ place. place) result
        (airport_of periods names.now (fields_of row.now)) }
    ensures valid { IfOk result (IsPlace periods) }
    ensures fresh { IfOk result (λ place. position_of place.name names.now ≡ None) }
    ensures room { OnOk result (length names.now < most_places) }
{
    let name = new_name(MOST_PLACES, names, row)?;
    let departures = number_in(row, 3, 0, u64::from(MOST_CAPACITY))? as u32;
    let arrivals = number_in(row, 4, 0, u64::from(MOST_CAPACITY))? as u32;
    ends_after(row, 4)?;
    Ok(Place {
        name: Sequence::from_vec(Vec::from_slice(alloc, name)?),
        kind: PlaceKind::Airport,
        first: caps_of(alloc, periods, departures)?,
        second: caps_of(alloc, periods, arrivals)?,
    })
}

/// The sector that a `sector` record tells.
#[tactic(auto, unfolding(crate::specs::Places::sector_of))]
pub fn sector_of(
    alloc: Global,
    periods: u16,
    names: &NameIndex,
    row: &ByteRecord,
) -> Result<Place, RecordError>
    ensures found { Gives (λ place. place) result
        (sector_of periods names.now (fields_of row.now)) }
    ensures valid { IfOk result (IsPlace periods) }
    ensures fresh { IfOk result (λ place. position_of place.name names.now ≡ None) }
    ensures room { OnOk result (length names.now < most_places) }
{
    let name = new_name(MOST_PLACES, names, row)?;
    let capacity = number_in(row, 3, 0, u64::from(MOST_CAPACITY))? as u32;
    ends_after(row, 3)?;
    Ok(Place {
        name: Sequence::from_vec(Vec::from_slice(alloc, name)?),
        kind: PlaceKind::Sector,
        first: caps_of(alloc, periods, capacity)?,
        second: Sequence::empty(alloc),
    })
}

// The same capacity for every period.
fn caps_of(alloc: Global, periods: u16, capacity: u32) -> Result<Caps, AllocError>
    requires { capacity ≤ most_capacity }
    ensures caps { IfOk result (λ caps. caps ≡ replicate periods capacity) }
    ensures many { IfOk result (λ caps. length caps ≡ periods) }
    ensures few { IfOk result (λ caps. All (λ c. c ≤ most_capacity) caps) }
{
    Ok(Sequence::from_vec(vec![in alloc; capacity; periods as usize]?))
}
