//! The Gregorian calendar, carried on to every year.
ghost use Rattle.std.specs.Prelude.{◌≡◌, ◌↔◌, IsTrue};
ghost use Rattle.flow_types.specs.Calendar.{IsDate, days_in_month, is_leap_year};

// Whether the year has a 29th of February.
fn is_leap_year(year: u16) -> bool
    ensures { result ≡ is_leap_year year }
{
    year % 4 == 0 && (year % 100 != 0 || year % 400 == 0)
}

/// How many days the month has, which is one from 1 to 12; 31 for any other number.
pub fn days_in_month(year: u16, month: u8) -> u8
    ensures { result ≡ days_in_month year month }
{
    match month {
        2 if is_leap_year(year) => 29,
        2 => 28,
        4 | 6 | 9 | 11 => 30,
        _ => 31,
    }
}

/// Whether the numbers are a date: a month from 1 to 12, and a day from 1 to the month's last.
pub fn is_date(year: u16, month: u8, day: u8) -> bool
    ensures { IsTrue result ↔ IsDate year month day }
{
    1 <= month && month <= 12 && 1 <= day && day <= days_in_month(year, month)
}
