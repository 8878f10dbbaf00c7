//! A date and time in a text.
ghost use Rattle.std.specs.Prelude.{◌≡◌, ◌≤◌, IfOk, OnOk, length};
ghost use Rattle.flow_types.specs.Calendar.{days_in_month};
ghost use Rattle.text_records.specs.Errors.{Finds};
ghost use Rattle.scenario_reader.specs.Dates.{has_marks, marked, moment_of, of_calendar, part_of};
ghost use Rattle.scenario_reader.specs.Moments.{IsMoment};
ghost use Rattle.flow_types.specs.Limits.{last_year};

use flow_types::{Cause, LAST_YEAR, parse_number};
use jiff::civil::Date;
use text_records::FieldFault;

/// A date and time of the calendar.
#[derive(Clone, Copy, Debug, PartialEq, Eq)]
pub struct Moment {
    pub year: u16,
    pub month: u8,
    pub day: u8,
    pub hour: u8,
    pub minute: u8,
}

/// The date and time that the bytes spell as `YYYY-MM-DDTHH:MM`.
#[tactic(auto, unfolding(crate::specs::Dates::moment_of))]
pub fn moment_of(text: &[u8]) -> Result<Moment, FieldFault>
    ensures found { Finds (λ moment. moment) result (moment_of text.now) }
    ensures valid { IfOk result IsMoment }
{
    has_form(text)?;
    let year = part_of(text, 0, 4, 1, u64::from(LAST_YEAR))? as u16;
    let month = part_of(text, 5, 7, 1, 12)? as u8;
    let day = part_of(text, 8, 10, 1, 31)? as u8;
    let hour = part_of(text, 11, 13, 0, 23)? as u8;
    let minute = part_of(text, 14, 16, 0, 59)? as u8;
    is_real(year, month, day)?;
    Ok(Moment {
        year,
        month,
        day,
        hour,
        minute,
    })
}

// Whether the bytes are 16 with the marks of a date and time between them.
fn has_form(text: &[u8]) -> Result<(), FieldFault>
    ensures { Finds (λ unit. unit) result (marked text.now) }
{
    if has_marks(text) {
        Ok(())
    } else {
        Err(bad_date())
    }
}

fn has_marks(text: &[u8]) -> bool
    ensures { result ≡ has_marks text.now }
{
    text.len() == 16 && text[4] == b'-' && text[7] == b'-' && text[10] == b'T' && text[13] == b':'
}

// The number that the bytes between two places spell, within its limits.
fn part_of(text: &[u8], from: usize, to: usize, low: u64, high: u64) -> Result<u64, FieldFault>
    requires order { from ≤ to }
    requires within { to ≤ length text.now }
    ensures found { Finds (λ value. value) result (part_of text.now from to low high) }
    ensures low { IfOk result (λ value. low ≤ value) }
    ensures high { IfOk result (λ value. value ≤ high) }
{
    match parse_number(&text[from..to]) {
        Some(value) if low <= value && value <= high => Ok(value),
        _ => Err(bad_date()),
    }
}

// Whether the month has this day.
fn is_real(year: u16, month: u8, day: u8) -> Result<(), FieldFault>
    requires year { year ≤ last_year }
    requires month_from { 1 ≤ month }
    requires month_to { month ≤ 12 }
    requires day_from { 1 ≤ day }
    requires day_to { day ≤ 31 }
    ensures found { Finds (λ unit. unit) result (of_calendar year month day) }
    ensures real { OnOk result (day ≤ days_in_month year month) }
{
    match Date::new(year as i16, month as i8, day as i8) {
        Ok(_) => Ok(()),
        Err(_) => Err(bad_date()),
    }
}

fn bad_date() -> FieldFault
    ensures { result ≡ record { field = 2; cause = Cause.BadDate } }
{
    FieldFault {
        field: 2,
        cause: Cause::BadDate,
    }
}
