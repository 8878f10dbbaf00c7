//! What is printed of the delays of a plan, and of the capacities that it uses up.
ghost use Rattle.std.specs.Prelude.{◌≡◌, ◌++◌, ◌==◌, ◌<◌, IfOk, IfSome, IsTrue, OnOk, Some, length, pos, slice_get, ◌-ℤ◌};
ghost use Rattle.std.specs.Fmt.{signed_decimal};
ghost use Rattle.exact_sums.specs.Lists.{all_below};
ghost use Rattle.flow_types.specs.Capacities.{capacity_of, has_kind};
ghost use Rattle.flow_types.specs.Feasible.{IsFeasible};
ghost use Rattle.flow_types.specs.Limits.{most_flights};
ghost use Rattle.flow_types.specs.Scenario.{parts_of};
ghost use Rattle.plan_rules.specs.Loads.{AreLoads, IsMadeFor, load_at};
ghost use Rattle.text_records.specs.Lines.{field_text};
ghost use Rattle.delay_report.specs.Delays.{AreShort, IsExplained, all_full, both_delays, delay_between, delay_told, delay_text, delays_below, delays_text, flown_in, flown_text, full_at, full_line, full_texts, kind_word, minutes_past, moment_field, period_fields, stops_in, times_fields, total_text};
ghost use Rattle.delay_report.specs.Verdicts.{flight_field};

use crate::claim::Claim;
use crate::moments::moments_of;
use crate::report::claim_report;
use crate::verdicts::{flight_name, place_name};
use flow_types::{CapKind, Flight, OutOfMemory, Plan, Scenario, Stop, has_kind};
use plan_rules::{Loads, arrival_of, departure_of, judge, trip_cost};
use std::alloc::Global;
use text_records::{put, put_field, put_number};

// How late a flight is, or flights are together, in minutes.
#[derive(Clone, Copy)]
struct Delay {
    // Before it departs.
    ground: u64,
    // From then on; below 0 where it makes up for a late departure.
    airborne: i64,
}

const NO_DELAY: Delay = Delay {
    ground: 0,
    airborne: 0,
};

// When a flight departs and arrives, how late that is, and what its trip costs.
#[derive(Clone, Copy)]
struct Flown {
    departure: u16,
    arrival: u16,
    delay: Delay,
    cost: i64,
}

// The capacities of a place that limit the same thing, one a period.
#[derive(Clone, Copy)]
struct Capacities {
    kind: CapKind,
    place: u32,
}

/// What a claim comes to: its four lines; and, if it has a plan, for each flight when it departs
/// and arrives, how many minutes late, and what its trip costs; then each capacity that is used up,
/// departures first, then arrivals, then sectors, by place and period; and the sums of the delays.
/// Moments are civil times, of no time zone. The plan keeps every rule. It takes memory for the
/// text, for the counts of the day's places and periods, and for sixteen bytes a period.
pub fn explain_report(
    alloc: Global,
    s: &Scenario,
    claim: &Claim<'_>,
) -> Result<Vec<u8>, OutOfMemory>
    requires { IfSome claim.now.plan (IsFeasible (parts_of s.now)) }
    ensures { IfOk result (λ text. IsExplained (parts_of s.now) claim.now text.items) }
{
    let moments = moments_of(alloc, s)?;
    let mut out = claim_report(alloc, claim)?;
    if let Some(plan) = claim.plan() {
        put_plan(alloc, &mut out, s, &moments, plan)?;
    }
    Ok(out)
}

// Adds all lines of a plan.
fn put_plan(
    alloc: Global,
    out: &mut Vec<u8>,
    s: &Scenario,
    moments: &[[u8; 16]],
    plan: &Plan,
) -> Result<(), OutOfMemory>
    requires { IsFeasible (parts_of s.now) plan.now }
    ensures { OnOk result
        (out.new.items ≡ out.old.items ++ delays_text (parts_of s.now) moments.now plan.now) }
{
    let loads = loads_of(alloc, s, plan)?;
    put_delays(alloc, out, s, moments, plan)?;
    put_all_full(alloc, out, s, moments, &loads)?;
    put_total(alloc, out, total_delay(s, plan))
}

// What the plan counts.
fn loads_of(alloc: Global, s: &Scenario, plan: &Plan) -> Result<Loads, OutOfMemory>
    requires { IsFeasible (parts_of s.now) plan.now }
    ensures { IfOk result (AreLoads (parts_of s.now) plan.now) }
{
    let mut loads = Loads::new(alloc, s)?;
    let _verdict = judge(&mut loads, s, plan);
    Ok(loads)
}

// Adds the line of each flight.
fn put_delays(
    alloc: Global,
    out: &mut Vec<u8>,
    s: &Scenario,
    moments: &[[u8; 16]],
    plan: &Plan,
) -> Result<(), OutOfMemory>
    ensures { OnOk result (out.new.items ≡ out.old.items
        ++ all_below (length (parts_of s.now).flights)
        (delay_text (parts_of s.now) moments.now plan.now)) }
{
    for flight in 0..s.flights().len() {
        put_delay(alloc, out, s, moments, plan, flight as u32)?;
    }
    Ok(())
}

// Adds the line of the flight of that number.
fn put_delay(
    alloc: Global,
    out: &mut Vec<u8>,
    s: &Scenario,
    moments: &[[u8; 16]],
    plan: &Plan,
    flight: u32,
) -> Result<(), OutOfMemory>
    requires { flight < length (parts_of s.now).flights }
    ensures { OnOk result (out.new.items ≡ out.old.items
        ++ delay_text (parts_of s.now) moments.now plan.now flight) }
{
    match flown_in(s, plan, flight) {
        None => Ok(()),
        Some(flown) => put_flown(alloc, out, moments, flight_name(s, flight), flown),
    }
}

// Adds the line of a flight of that name.
fn put_flown(
    alloc: Global,
    out: &mut Vec<u8>,
    moments: &[[u8; 16]],
    name: &[u8],
    flown: Flown,
) -> Result<(), OutOfMemory>
    ensures { OnOk result (out.new.items ≡ out.old.items
        ++ flown_text moments.now (field_text name.now) (Some flown)) }
{
    put(out, b"delay")?;
    put_field(out, name)?;
    put_times(alloc, out, moments, flown)?;
    put_signed(alloc, out, flown.cost)?;
    put(out, b"\n")
}

// Adds the fields of a flight's times.
fn put_times(
    alloc: Global,
    out: &mut Vec<u8>,
    moments: &[[u8; 16]],
    flown: Flown,
) -> Result<(), OutOfMemory>
    ensures { OnOk result
        (out.new.items ≡ out.old.items ++ times_fields moments.now flown) }
{
    put_moment(out, moments, flown.departure)?;
    put_number(alloc, out, flown.delay.ground)?;
    put_moment(out, moments, flown.arrival)?;
    put_signed(alloc, out, flown.delay.airborne)
}

// Adds the field of the moment at which the period begins.
fn put_moment(out: &mut Vec<u8>, moments: &[[u8; 16]], period: u16) -> Result<(), OutOfMemory>
    ensures { OnOk result
        (out.new.items ≡ out.old.items ++ moment_field moments.now period) }
{
    match moments.get(period as usize) {
        None => put_field(out, b""),
        Some(moment) => put_field(out, moment),
    }
}

// Adds a field that is a number, below 0 or not.
fn put_signed(alloc: Global, out: &mut Vec<u8>, number: i64) -> Result<(), OutOfMemory>
    ensures { OnOk result (out.new.items ≡ out.old.items ++ field_text (signed_decimal number)) }
{
    put_field(out, number.to_string(alloc)?.as_bytes())
}

// When the flight of that number departs and arrives, how late that is, and what its trip costs.
fn flown_in(s: &Scenario, plan: &Plan, number: u32) -> Option<Flown>
    requires { number < length (parts_of s.now).flights }
    ensures flown { result ≡ flown_in (parts_of s.now) plan.now number }
    ensures near { IfSome result (λ flown. AreShort 1 flown.delay) }
{
    let flight = s.flights().get(number as usize)?;
    let stops = stops_in(plan, number);
    let departure = departure_of(stops)?;
    let arrival = arrival_of(stops)?;
    Some(Flown {
        departure,
        arrival,
        delay: delay_between(s.day().minutes, flight, departure, arrival),
        cost: trip_cost(s, number, stops),
    })
}

// The stops of the flight of that number.
fn stops_in(plan: &Plan, number: u32) -> &[Stop]
    ensures { result.now ≡ stops_in plan.now number }
{
    match plan.items().get(number as usize) {
        None => &[],
        Some(trip) => trip.items(),
    }
}

// How late a flight is that departs and arrives in these periods.
fn delay_between(minutes: u16, flight: &Flight, departure: u16, arrival: u16) -> Delay
    ensures delay { result ≡ delay_between minutes flight.now departure arrival }
    ensures near { AreShort 1 result }
{
    let ground = minutes_past(minutes, flight.sd, departure);
    let late = minutes_past(minutes, flight.sa, arrival);
    Delay {
        ground: u64::from(ground),
        airborne: difference(late, ground),
    }
}

// By how many minutes one period is past another.
fn minutes_past(minutes: u16, scheduled: u16, period: u16) -> u32
    ensures { result ≡ minutes_past minutes scheduled period }
{
    u32::from(period.saturating_sub(scheduled)) * u32::from(minutes)
}

// How much more the first is than the second.
fn difference(first: u32, second: u32) -> i64
    ensures { result ≡ pos first -ℤ pos second }
{
    i64::from(first) - i64::from(second)
}

// The delays of all flights together.
fn total_delay(s: &Scenario, plan: &Plan) -> Delay
    ensures { result ≡ delays_below (length (parts_of s.now).flights) (parts_of s.now) plan.now }
{
    let mut total = NO_DELAY;
    for flight in 0..s.flights().len() {
        total = both_delays(total, delay_in(s, plan, flight as u32));
    }
    total
}

// The delay of the flight of that number.
fn delay_in(s: &Scenario, plan: &Plan, number: u32) -> Delay
    requires { number < length (parts_of s.now).flights }
    ensures delay { result ≡ delay_told (flown_in (parts_of s.now) plan.now number) }
    ensures short { AreShort 1 result }
{
    match flown_in(s, plan, number) {
        None => NO_DELAY,
        Some(flown) => flown.delay,
    }
}

// Two delays together: of so many flights that they are all of a day's, and of one more.
fn both_delays(first: Delay, second: Delay) -> Delay
    requires first { AreShort most_flights first }
    requires second { AreShort 1 second }
    ensures { result ≡ both_delays first second }
{
    Delay {
        ground: first.ground + second.ground,
        airborne: first.airborne + second.airborne,
    }
}

// Adds the line of the sums.
fn put_total(alloc: Global, out: &mut Vec<u8>, total: Delay) -> Result<(), OutOfMemory>
    ensures { OnOk result (out.new.items ≡ out.old.items ++ total_text total) }
{
    put(out, b"total")?;
    put_number(alloc, out, total.ground)?;
    put_signed(alloc, out, total.airborne)?;
    put(out, b"\n")
}

// Adds the lines of all capacities that are used up.
fn put_all_full(
    alloc: Global,
    out: &mut Vec<u8>,
    s: &Scenario,
    moments: &[[u8; 16]],
    loads: &Loads,
) -> Result<(), OutOfMemory>
    requires { IsMadeFor (parts_of s.now) loads.now }
    ensures { OnOk result (out.new.items ≡ out.old.items
        ++ all_full (parts_of s.now) moments.now (load_at loads.now)) }
{
    put_full_of(alloc, out, s, moments, loads, CapKind::Dep)?;
    put_full_of(alloc, out, s, moments, loads, CapKind::Arr)?;
    put_full_of(alloc, out, s, moments, loads, CapKind::Sector)
}

// Adds those of one kind.
fn put_full_of(
    alloc: Global,
    out: &mut Vec<u8>,
    s: &Scenario,
    moments: &[[u8; 16]],
    loads: &Loads,
    kind: CapKind,
) -> Result<(), OutOfMemory>
    requires { IsMadeFor (parts_of s.now) loads.now }
    ensures { OnOk result (out.new.items ≡ out.old.items
        ++ full_texts (parts_of s.now) moments.now kind (load_at loads.now kind)) }
{
    for place in 0..s.places().len() {
        let of = Capacities {
            kind,
            place: place as u32,
        };
        put_full_at(alloc, out, s, moments, loads, of)?;
    }
    Ok(())
}

// Adds those of one kind of a place, if it has capacities of that kind.
fn put_full_at(
    alloc: Global,
    out: &mut Vec<u8>,
    s: &Scenario,
    moments: &[[u8; 16]],
    loads: &Loads,
    of: Capacities,
) -> Result<(), OutOfMemory>
    requires made { IsMadeFor (parts_of s.now) loads.now }
    requires place { of.place < length (parts_of s.now).places }
    ensures { OnOk result (out.new.items ≡ out.old.items
        ++ full_at (parts_of s.now) moments.now of.kind (load_at loads.now of.kind) of.place) }
{
    if !has_kind(of.kind, s.places(), of.place) {
        return Ok(());
    }
    for period in 0..s.day().periods {
        if is_full(s, loads, of, period) {
            put_full(alloc, out, s, moments, of, period)?;
        }
    }
    Ok(())
}

// Whether the capacity of the period is used up.
fn is_full(s: &Scenario, loads: &Loads, of: Capacities, period: u16) -> bool
    requires made { IsMadeFor (parts_of s.now) loads.now }
    requires place { of.place < length (parts_of s.now).places }
    requires kind { IsTrue (has_kind of.kind (slice_get (parts_of s.now).places of.place)) }
    requires period { period < (parts_of s.now).day.periods }
    ensures { result ≡ (load_at loads.now of.kind of.place period
        == capacity_of (parts_of s.now).places of.kind of.place period) }
{
    loads.load(of.kind, of.place, period) == s.capacity(of.kind, of.place, period)
}

// Adds the line of a capacity.
fn put_full(
    alloc: Global,
    out: &mut Vec<u8>,
    s: &Scenario,
    moments: &[[u8; 16]],
    of: Capacities,
    period: u16,
) -> Result<(), OutOfMemory>
    requires kind { IsTrue (has_kind of.kind (slice_get (parts_of s.now).places of.place)) }
    requires period { period < (parts_of s.now).day.periods }
    ensures { OnOk result (out.new.items ≡ out.old.items
        ++ full_line (parts_of s.now) moments.now of.kind of.place period) }
{
    put(out, b"full")?;
    put_field(out, kind_word(of.kind))?;
    put_field(out, place_name(s, of.place))?;
    put_period(alloc, out, moments, period)?;
    let capacity = s.capacity(of.kind, of.place, period);
    put_number(alloc, out, u64::from(capacity))?;
    put(out, b"\n")
}

// The word for what a capacity limits.
fn kind_word(kind: CapKind) -> &'static [u8]
    ensures { result.now ≡ kind_word kind }
{
    match kind {
        CapKind::Dep => b"dep",
        CapKind::Arr => b"arr",
        CapKind::Sector => b"sector",
    }
}

// Adds the fields of a period: its number, and the moment at which it begins.
fn put_period(
    alloc: Global,
    out: &mut Vec<u8>,
    moments: &[[u8; 16]],
    period: u16,
) -> Result<(), OutOfMemory>
    ensures { OnOk result
        (out.new.items ≡ out.old.items ++ period_fields moments.now period) }
{
    put_number(alloc, out, u64::from(period))?;
    put_moment(out, moments, period)
}
