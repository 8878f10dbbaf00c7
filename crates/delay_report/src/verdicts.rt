//! What is printed of a plan that was judged.
ghost use Rattle.std.specs.Prelude.{◌≡◌, ◌++◌, [], Some, IfOk, OnOk, codes, slice_get};
ghost use Rattle.std.specs.Fmt.{decimal};
ghost use Rattle.flow_types.specs.Scenario.{parts_of};
ghost use Rattle.plan_rules.specs.BrokenRules.{stop_at};
ghost use Rattle.plan_text.specs.Lines.{place_name};
ghost use Rattle.text_records.specs.Lines.{field_text};
ghost use Rattle.delay_report.specs.Verdicts.{broken_fields, broken_text, flight_field, flight_name, keeps_text, over_fields, place_field, place_of_stop, time_of_stop, turn_fields};

use flow_types::{Connection, OutOfMemory, Plan, Scenario, Stop, place_at};
use plan_rules::{Broken, Overload};
use std::alloc::Global;
use text_records::{put, put_field, put_line, put_number};

/// The line of a plan that keeps every rule, at its cost.
pub fn keeps_line(alloc: Global, cost: i64) -> Result<Vec<u8>, OutOfMemory>
    ensures { IfOk result (λ line. line.items ≡ keeps_text cost) }
{
    let mut line = Vec::new(alloc);
    put_line(&mut line, b"keeps,", cost.to_string(alloc)?.as_bytes())?;
    Ok(line)
}

/// The line of a rule that a plan breaks: which rule, where, and with which values.
pub fn broken_line(
    alloc: Global,
    s: &Scenario,
    plan: &Plan,
    broken: Broken,
) -> Result<Vec<u8>, OutOfMemory>
    ensures { IfOk result (λ line. line.items ≡ broken_text (parts_of s.now) plan.now broken) }
{
    let mut line = Vec::new(alloc);
    put(&mut line, b"broken")?;
    put_broken(alloc, &mut line, s, plan, broken)?;
    put(&mut line, b"\n")?;
    Ok(line)
}

// A plan that was judged, and its scenario.
#[derive(Clone, Copy)]
struct JudgedPlan<'a> {
    s: &'a Scenario,
    plan: &'a Plan,
}

/// Adds the fields that say which rule is broken, and where.
pub fn put_broken(
    alloc: Global,
    out: &mut Vec<u8>,
    s: &Scenario,
    plan: &Plan,
    broken: Broken,
) -> Result<(), OutOfMemory>
    ensures { OnOk result
        (out.new.items ≡ out.old.items ++ broken_fields (parts_of s.now) plan.now broken) }
{
    let judged = JudgedPlan { s, plan };
    match broken {
        Broken::Trips { got, need } => put_trip_count(alloc, out, got, need),
        Broken::Start { flight } => put_rule(out, b"start", s, flight),
        Broken::Window {
            flight,
            place_in_trip,
        } => put_window(alloc, out, judged, flight, place_in_trip),
        Broken::NoLeg {
            flight,
            place_in_trip,
        } => put_no_leg(out, judged, flight, place_in_trip),
        Broken::Least {
            flight,
            place_in_trip,
            least,
        } => put_least(alloc, out, judged, flight, place_in_trip, least),
        Broken::Ending { flight } => put_rule(out, b"ending", s, flight),
        Broken::Turn {
            connection,
            arrives,
            leaves,
        } => put_turn(alloc, out, s, connection, arrives, leaves),
        Broken::Departures(over) => put_over(alloc, out, s, b"departures", over),
        Broken::Arrivals(over) => put_over(alloc, out, s, b"arrivals", over),
        Broken::Sectors(over) => put_over(alloc, out, s, b"sectors", over),
    }
}

// Adds how many trips there are, and how many flights.
fn put_trip_count(alloc: Global, out: &mut Vec<u8>, got: u64, need: u32) -> Result<(), OutOfMemory>
    ensures { OnOk result
        (out.new.items ≡ out.old.items
        ++ (field_text (codes "trips")
        ++ (field_text (decimal got) ++ field_text (decimal need)))) }
{
    put_field(out, b"trips")?;
    put_number(alloc, out, got)?;
    put_number(alloc, out, u64::from(need))
}

// Adds the word for a rule, and the flight whose trip breaks it.
fn put_rule(out: &mut Vec<u8>, rule: &[u8], s: &Scenario, flight: u32) -> Result<(), OutOfMemory>
    ensures { OnOk result
        (out.new.items ≡ out.old.items
        ++ (field_text rule.now ++ flight_field (parts_of s.now) flight)) }
{
    put_field(out, rule)?;
    put_field(out, flight_name(s, flight))
}

// Adds a stop whose time isn't in its window.
fn put_window(
    alloc: Global,
    out: &mut Vec<u8>,
    judged: JudgedPlan<'_>,
    flight: u32,
    stop: u16,
) -> Result<(), OutOfMemory>
    ensures { OnOk result
        (out.new.items ≡ out.old.items
        ++ broken_fields (parts_of judged.entry.s.now) judged.entry.plan.now
        (Broken.Window flight stop)) }
{
    let JudgedPlan { s, plan } = judged;
    let entered = stop_at(plan, flight, usize::from(stop));
    put_rule(out, b"window", s, flight)?;
    put_stop(out, s, flight, entered)?;
    put_number(alloc, out, time_of_stop(entered))
}

// Adds two stops that no leg joins.
fn put_no_leg(
    out: &mut Vec<u8>,
    judged: JudgedPlan<'_>,
    flight: u32,
    stop: u16,
) -> Result<(), OutOfMemory>
    ensures { OnOk result
        (out.new.items ≡ out.old.items
        ++ broken_fields (parts_of judged.entry.s.now) judged.entry.plan.now
        (Broken.NoLeg flight stop)) }
{
    let JudgedPlan { s, plan } = judged;
    put_rule(out, b"noleg", s, flight)?;
    put_stop(out, s, flight, stop_at(plan, flight, usize::from(stop)))?;
    put_stop(out, s, flight, stop_at(plan, flight, usize::from(stop) + 1))
}

// Adds two stops that are nearer in time than the leg between them takes.
fn put_least(
    alloc: Global,
    out: &mut Vec<u8>,
    judged: JudgedPlan<'_>,
    flight: u32,
    stop: u16,
    least: u16,
) -> Result<(), OutOfMemory>
    ensures { OnOk result
        (out.new.items ≡ out.old.items
        ++ broken_fields (parts_of judged.entry.s.now) judged.entry.plan.now
        (Broken.Least flight stop least)) }
{
    let JudgedPlan { s, plan } = judged;
    let entered = stop_at(plan, flight, usize::from(stop));
    let next = stop_at(plan, flight, usize::from(stop) + 1);
    put_rule(out, b"least", s, flight)?;
    put_stop(out, s, flight, entered)?;
    put_number(alloc, out, time_of_stop(entered))?;
    put_stop(out, s, flight, next)?;
    put_number(alloc, out, time_of_stop(next))?;
    put_number(alloc, out, u64::from(least))
}

// Adds a turnaround that is too short.
fn put_turn(
    alloc: Global,
    out: &mut Vec<u8>,
    s: &Scenario,
    connection: u32,
    arrives: u16,
    leaves: u16,
) -> Result<(), OutOfMemory>
    ensures { OnOk result
        (out.new.items ≡ out.old.items
        ++ broken_fields (parts_of s.now) [] (Broken.Turn connection arrives leaves)) }
{
    match s.connections().get(connection as usize) {
        None => put_field(out, b"turn"),
        Some(connection) => put_times(alloc, out, s, connection, arrives, leaves),
    }
}

// Adds the flights of a connection, when they arrive and leave, and the turnaround.
fn put_times(
    alloc: Global,
    out: &mut Vec<u8>,
    s: &Scenario,
    connection: &Connection,
    arrives: u16,
    leaves: u16,
) -> Result<(), OutOfMemory>
    ensures { OnOk result
        (out.new.items ≡ out.old.items
        ++ (field_text (codes "turn")
        ++ turn_fields (parts_of s.now) (Some connection.now) arrives leaves)) }
{
    put_rule(out, b"turn", s, connection.first)?;
    put_field(out, flight_name(s, connection.second))?;
    put_number(alloc, out, u64::from(arrives))?;
    put_number(alloc, out, u64::from(leaves))?;
    put_number(alloc, out, u64::from(connection.turnaround))
}

// Adds the word for a rule, and the capacity that is passed.
fn put_over(
    alloc: Global,
    out: &mut Vec<u8>,
    s: &Scenario,
    rule: &[u8],
    over: Overload,
) -> Result<(), OutOfMemory>
    ensures { OnOk result
        (out.new.items ≡ out.old.items
        ++ (field_text rule.now ++ over_fields (parts_of s.now) over)) }
{
    put_field(out, rule)?;
    put_field(out, place_name(s, over.place))?;
    put_number(alloc, out, u64::from(over.period))?;
    put_number(alloc, out, u64::from(over.load))?;
    put_number(alloc, out, u64::from(over.capacity))
}

// Adds the name of the place at which the flight at this position makes the stop.
fn put_stop(
    out: &mut Vec<u8>,
    s: &Scenario,
    flight: u32,
    stop: Option<Stop>,
) -> Result<(), OutOfMemory>
    ensures { OnOk result
        (out.new.items ≡ out.old.items
        ++ place_field (parts_of s.now)
        (place_of_stop (slice_get (parts_of s.now).flights flight) stop)) }
{
    put_field(out, place_name(s, place_of_stop(s, flight, stop)))
}

/// The name of the flight at this position, empty where there is none.
pub fn flight_name(s: &Scenario, position: u32) -> &[u8]
    ensures { result.now ≡ flight_name (slice_get (parts_of s.now).flights position) }
{
    match s.flights().get(position as usize) {
        None => b"",
        Some(flight) => flight.name.items(),
    }
}

/// The name of the place at this position, empty where there is none.
pub fn place_name(s: &Scenario, position: u32) -> &[u8]
    ensures { result.now ≡ place_name (slice_get (parts_of s.now).places position) }
{
    match s.places().get(position as usize) {
        None => b"",
        Some(place) => place.name.items(),
    }
}

// The stop at this position of a flight's trip, if there is one.
fn stop_at(plan: &Plan, flight: u32, stop: usize) -> Option<Stop>
    ensures { result ≡ stop_at plan.now flight stop }
{
    match plan.items().get(flight as usize) {
        None => None,
        Some(trip) => trip.items().get(stop).copied(),
    }
}

// The position of the place of a flight's stop, 0 where there is no flight or no stop.
fn place_of_stop(s: &Scenario, flight: u32, stop: Option<Stop>) -> u32
    ensures { result ≡ place_of_stop (slice_get (parts_of s.now).flights flight) stop }
{
    match (s.flights().get(flight as usize), stop) {
        (Some(flight), Some(stop)) => place_at(flight, stop.node),
        _ => 0,
    }
}

// The period of the stop, 0 where there is none.
fn time_of_stop(stop: Option<Stop>) -> u64
    ensures { result ≡ time_of_stop stop }
{
    match stop {
        None => 0,
        Some(stop) => u64::from(stop.time),
    }
}
