//! The moments at which the periods of a day begin.
ghost use Rattle.std.specs.Prelude.{◌≡◌, ◌*◌, ◌<◌, ◌+ℤ◌, pos, IfOk};
ghost use Rattle.flow_types.specs.Scenario.{parts_of};
ghost use Rattle.flow_types.specs.Valid.{IsDay};
ghost use Rattle.jiff.specs.Words.{civil_nanos};
ghost use Rattle.delay_report.specs.Moments.{digit, moment_text, AreMoments, IsBeginning};

use flow_types::{Day, OutOfMemory, Scenario};
use jiff::civil::{Date, DateTime, Time};
use std::alloc::Global;
use std::time::Duration;

/// The moments at which the periods of the scenario's day begin, each as `YYYY-MM-DDTHH:MM`.
/// It takes memory for them.
pub fn moments_of(alloc: Global, s: &Scenario) -> Result<Vec<[u8; 16]>, OutOfMemory>
    ensures { IfOk result (λ moments. AreMoments (parts_of s.now).day moments.items) }
{
    let day = s.day();
    let beginning = beginning_of(&day);
    let mut moments = Vec::new(alloc);
    for period in 0..day.periods {
        moments.push(moment_text(later(beginning, period, &day)))?;
    }
    Ok(moments)
}

// The moment at which the day begins.
fn beginning_of(day: &Day) -> DateTime
    requires { IsDay day.now }
    ensures { IsBeginning day.now result }
{
    let date = Date::new(day.year as i16, day.month as i8, day.day as i8).unwrap();
    let time = Time::new(day.hour as i8, day.minute as i8, 0, 0).unwrap();
    date.to_datetime(time)
}

// The moment at which a period of the day begins. The day itself begins at `beginning`.
fn later(beginning: DateTime, period: u16, day: &Day) -> DateTime
    requires day { IsDay day.now }
    requires beginning { IsBeginning day.now beginning }
    requires period { period < day.now.periods }
    ensures { civil_nanos result
        ≡ civil_nanos beginning +ℤ pos (60 * period * day.now.minutes * 1_000_000_000) }
{
    let seconds = 60 * u64::from(period) * u64::from(day.minutes);
    beginning.checked_add(Duration::from_secs(seconds)).unwrap()
}

// The moment as `YYYY-MM-DDTHH:MM`.
#[tactic(auto, unfolding(crate::specs::Moments::moment_text))]
fn moment_text(at: DateTime) -> [u8; 16]
    ensures { result ≡ moment_text at }
{
    let year = at.year().unsigned_abs();
    let month = at.month().unsigned_abs();
    let day = at.day().unsigned_abs();
    let hour = at.hour().unsigned_abs();
    let minute = at.minute().unsigned_abs();
    [
        digit(year / 1000),
        digit(year / 100),
        digit(year / 10),
        digit(year),
        b'-',
        digit(u16::from(month / 10)),
        digit(u16::from(month)),
        b'-',
        digit(u16::from(day / 10)),
        digit(u16::from(day)),
        b'T',
        digit(u16::from(hour / 10)),
        digit(u16::from(hour)),
        b':',
        digit(u16::from(minute / 10)),
        digit(u16::from(minute)),
    ]
}

// The last digit of a number.
fn digit(number: u16) -> u8
    ensures { result ≡ digit number }
{
    b'0' + (number % 10) as u8
}
