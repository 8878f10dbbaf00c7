//! The records of the day and of its places.
ghost use Rattle.std.specs.Prelude.{◌≡◌, ◌++◌, OnOk, map};
ghost use Rattle.scenario_maker.specs.Writing.{beginning_text, cap_row, cap_rows, change_rows, change_rows_of, day_row, digit, first_of, place_row, row_text, rows_text};

use flow_types::{Day, OutOfMemory, Place, PlaceKind};
use std::alloc::Global;
use text_records::{put, put_field, put_number};

/// Adds the line of the day, which takes memory. Nothing is said of the text after `OutOfMemory`.
pub fn put_day(alloc: Global, out: &mut Vec<u8>, day: Day) -> Result<(), OutOfMemory>
    ensures { OnOk result (out.new.items ≡ out.old.items ++ row_text (day_row day)) }
{
    put(out, b"day")?;
    put_field(out, &beginning_text(day))?;
    put_number(alloc, out, u64::from(day.minutes))?;
    put_number(alloc, out, u64::from(day.periods))?;
    put(out, b"\n")
}

// The date and time at which the day begins, as `YYYY-MM-DDTHH:MM`.
#[tactic(auto, unfolding(crate::specs::Writing::beginning_text))]
fn beginning_text(day: Day) -> [u8; 16]
    ensures { result ≡ beginning_text day }
{
    [
        digit(day.year / 1000),
        digit(day.year / 100),
        digit(day.year / 10),
        digit(day.year),
        b'-',
        digit(u16::from(day.month / 10)),
        digit(u16::from(day.month)),
        b'-',
        digit(u16::from(day.day / 10)),
        digit(u16::from(day.day)),
        b'T',
        digit(u16::from(day.hour / 10)),
        digit(u16::from(day.hour)),
        b':',
        digit(u16::from(day.minute / 10)),
        digit(u16::from(day.minute)),
    ]
}

// The last digit of a number.
fn digit(number: u16) -> u8
    ensures { result ≡ digit number }
{
    b'0' + (number % 10) as u8
}

/// Adds the line of each place, with its capacities of period 0, which takes memory. Nothing is said
/// of the text after `OutOfMemory`.
pub fn put_places(alloc: Global, out: &mut Vec<u8>, places: &[Place]) -> Result<(), OutOfMemory>
    ensures { OnOk result
        (out.new.items ≡ out.old.items ++ rows_text (map place_row places.now)) }
{
    for place in places {
        put_place(alloc, out, place)?;
    }
    Ok(())
}

// Adds the line of a place.
fn put_place(alloc: Global, out: &mut Vec<u8>, place: &Place) -> Result<(), OutOfMemory>
    ensures { OnOk result (out.new.items ≡ out.old.items ++ row_text (place_row place.now)) }
{
    match place.kind {
        PlaceKind::Airport => {
            put(out, b"airport")?;
            put_field(out, place.name.items())?;
            put_number(alloc, out, first_of(place.first.items()))?;
            put_number(alloc, out, first_of(place.second.items()))?;
        }
        PlaceKind::Sector => {
            put(out, b"sector")?;
            put_field(out, place.name.items())?;
            put_number(alloc, out, first_of(place.first.items()))?;
        }
    }
    put(out, b"\n")
}

// The capacity of period 0, which is 0 where there is none.
fn first_of(caps: &[u32]) -> u64
    ensures { result ≡ first_of caps.now }
{
    match caps.first() {
        None => 0,
        Some(value) => u64::from(*value),
    }
}

/// Adds a line for each period whose capacity differs from that of period 0, which takes memory.
/// Nothing is said of the text after `OutOfMemory`.
pub fn put_changes(alloc: Global, out: &mut Vec<u8>, places: &[Place]) -> Result<(), OutOfMemory>
    ensures { OnOk result (out.new.items ≡ out.old.items ++ rows_text (change_rows places.now)) }
{
    for place in places {
        put_changes_of(alloc, out, place)?;
    }
    Ok(())
}

// Adds the changes of a place.
fn put_changes_of(alloc: Global, out: &mut Vec<u8>, place: &Place) -> Result<(), OutOfMemory>
    ensures { OnOk result (out.new.items
        ≡ out.old.items ++ rows_text (change_rows_of place.now.kind place.now)) }
{
    let name = place.name.items();
    match place.kind {
        PlaceKind::Airport => {
            put_caps(alloc, out, b"dep", name, place.first.items())?;
            put_caps(alloc, out, b"arr", name, place.second.items())
        }
        PlaceKind::Sector => put_caps(alloc, out, b"sector", name, place.first.items()),
    }
}

// Adds a line for each of the capacities that differs from the first one.
fn put_caps(
    alloc: Global,
    out: &mut Vec<u8>,
    word: &[u8],
    name: &[u8],
    caps: &[u32],
) -> Result<(), OutOfMemory>
    ensures { OnOk result (out.new.items ≡ out.old.items
        ++ rows_text (cap_rows word.now name.now (first_of caps.now) 0 caps.now)) }
{
    let usual = first_of(caps);
    for period in 0..caps.len() {
        let value = u64::from(caps[period]);
        if value != usual {
            put_cap(alloc, out, word, name, period as u64, value)?;
        }
    }
    Ok(())
}

// Adds the line of a capacity in one period.
fn put_cap(
    alloc: Global,
    out: &mut Vec<u8>,
    word: &[u8],
    name: &[u8],
    period: u64,
    value: u64,
) -> Result<(), OutOfMemory>
    ensures { OnOk result (out.new.items
        ≡ out.old.items ++ row_text (cap_row word.now name.now period value)) }
{
    put(out, b"cap")?;
    put_field(out, word)?;
    put_field(out, name)?;
    put_number(alloc, out, period)?;
    put_number(alloc, out, period)?;
    put_number(alloc, out, value)?;
    put(out, b"\n")
}
