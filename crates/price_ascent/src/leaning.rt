//! Prices that lean on a plan: they make its trips the least ones, as far as prices of the
//! capacities that it fills can.
//!
//! One flight after the other looks for its least trip under the prices so far. Where that is less
//! than its trip of the plan, what others fill on it gets dearer by the difference, and no more: as
//! in a queue, where each slot costs so much that whoever has the next one doesn't want it. With a
//! plan of the least cost and one scarce capacity that ends, as the search for shortest ways by
//! repeated relaxation does, with prices that prove it (the dual of an assignment problem). With
//! other plans, or where several capacities are scarce at once, some prices would rise for ever, so
//! passes are few, and the best prices count.
ghost use Rattle.std.specs.Prelude.{◌≡◌, ◌<◌, ◌≤◌, length};
ghost use Rattle.flow_types.specs.Scenario.{parts_of};
ghost use Rattle.flight_routes.specs.Work.{IsWorkFor};
ghost use Rattle.plan_rules.specs.Loads.{IsMadeFor as AreLoadsFor};
ghost use Rattle.time_windows.specs.Subproblems.{parts_in};
ghost use Rattle.price_ascent.specs.Slopes.{AreSlopesFor, IsGood, IsSlopeKey};

use crate::ascent::WEIGHT;
use crate::bids::span_of_stop;
use crate::landscape::Landscape;
use crate::slopes::{Slope, Span, excess_of, set_price, span_of};
use flight_routes::{Prices, Work};
use flow_types::{PriceKind, Scenario, Stop, Trip};
use plan_rules::{Loads, trip_cost};
use time_windows::End;

// How often prices are raised for a flight in a pass.
const MOST_RAISES: u32 = 4;

/// One pass over the flights, forward or back. Where a flight's least trip is less than that of the
/// plan, the capacities on it get dearer that the others fill in the plan. Whether one did.
pub fn lean(
    work: &mut Work,
    loads: &mut Loads,
    land: Landscape<'_>,
    prices: &mut Prices,
    plan: &[Trip],
    back: bool,
) -> bool
    requires work { IsWorkFor (parts_in land.problem) work.old }
    requires loads { AreLoadsFor (parts_in land.problem) loads.old }
    requires prices { IsGood (parts_in land.problem) prices.old }
    ensures work { IsWorkFor (parts_in land.entry.problem) work.new }
    ensures loads { AreLoadsFor (parts_in land.entry.problem) loads.new }
    ensures prices { IsGood (parts_in land.entry.problem) prices.new }
{
    count_all(loads, land.problem.s, plan);
    let count = land.problem.s.flights().len();
    let mut moved = false;
    for turn in 0..count {
        let number = if back { count - 1 - turn } else { turn };
        moved = lean_for(work, loads, land, prices, plan, number as u32) || moved;
    }
    moved
}

// Counts the trips of the plan, and no others.
fn count_all(loads: &mut Loads, s: &Scenario, plan: &[Trip])
    requires loads { AreLoadsFor (parts_of s.now) loads.old }
    ensures loads { AreLoadsFor (parts_of s.now) loads.new }
{
    loads.clear();
    for number in 0..s.flights().len() {
        count_one(loads, s, plan, number as u32);
    }
}

// Counts the flight's trip of the plan.
fn count_one(loads: &mut Loads, s: &Scenario, plan: &[Trip], flight: u32)
    requires loads { AreLoadsFor (parts_of s.now) loads.old }
    requires flight { flight < length (parts_of s.now).flights }
    ensures loads { AreLoadsFor (parts_of s.now) loads.new }
{
    if let Some(trip) = plan.get(flight as usize) {
        loads.add(s, flight, trip.items());
    }
}

// Raises prices for one flight, whose trip of the plan isn't counted meanwhile: what is full then
// is filled by others. Whether one rose.
fn lean_for(
    work: &mut Work,
    loads: &mut Loads,
    land: Landscape<'_>,
    prices: &mut Prices,
    plan: &[Trip],
    flight: u32,
) -> bool
    requires work { IsWorkFor (parts_in land.problem) work.old }
    requires loads { AreLoadsFor (parts_in land.problem) loads.old }
    requires prices { IsGood (parts_in land.problem) prices.old }
    requires flight { flight < length (parts_in land.problem).flights }
    ensures work { IsWorkFor (parts_in land.entry.problem) work.new }
    ensures loads { AreLoadsFor (parts_in land.entry.problem) loads.new }
    ensures prices { IsGood (parts_in land.entry.problem) prices.new }
{
    match plan.get(flight as usize) {
        None => false,
        Some(trip) => {
            let stops = trip.items();
            loads.remove(land.problem.s, flight, stops);
            let moved = raise_others(work, loads, land, prices, flight, stops);
            loads.add(land.problem.s, flight, stops);
            moved
        }
    }
}

// Raises the prices of what is full until no trip of the flight is less than these stops, or
// nothing can be raised; some times at the most. Whether a price rose.
fn raise_others(
    work: &mut Work,
    loads: &Loads,
    land: Landscape<'_>,
    prices: &mut Prices,
    flight: u32,
    stops: &[Stop],
) -> bool
    requires work { IsWorkFor (parts_in land.problem) work.old }
    requires loads { AreLoadsFor (parts_in land.problem) loads.now }
    requires prices { IsGood (parts_in land.problem) prices.old }
    requires flight { flight < length (parts_in land.problem).flights }
    ensures work { IsWorkFor (parts_in land.entry.problem) work.new }
    ensures prices { IsGood (parts_in land.entry.problem) prices.new }
{
    let mut moved = false;
    for _ in 0..MOST_RAISES {
        if !raise_least(work, loads, land, prices, flight, stops) {
            return moved;
        }
        moved = true;
    }
    moved
}

// Where the least trip of the flight is less than these stops, raises the prices of what is full on
// it, by the same amount each, so that it isn't any more. Whether there are such.
fn raise_least(
    work: &mut Work,
    loads: &Loads,
    land: Landscape<'_>,
    prices: &mut Prices,
    flight: u32,
    stops: &[Stop],
) -> bool
    requires work { IsWorkFor (parts_in land.problem) work.old }
    requires loads { AreLoadsFor (parts_in land.problem) loads.now }
    requires prices { IsGood (parts_in land.problem) prices.old }
    requires flight { flight < length (parts_in land.problem).flights }
    ensures work { IsWorkFor (parts_in land.entry.problem) work.new }
    ensures prices { IsGood (parts_in land.entry.problem) prices.new }
{
    let Some(least) = work.least_trip(land.problem, flight, WEIGHT, prices) else {
        return false;
    };
    let surplus = priced(land, prices, flight, stops).saturating_sub(least);
    let full = full_on(land, loads, flight, work.trip());
    if surplus <= 0 || full == 0 {
        return false;
    }
    let by = surplus
        .checked_div(i128::from(full))
        .unwrap_or(0)
        .saturating_add(1);
    let by = by.clamp(0, 1 << 60) as u64;
    raise_full(land, loads, prices, flight, work.trip(), by);
    true
}

// What the stops cost the flight, weighted, and pay.
fn priced(land: Landscape<'_>, prices: &Prices, flight: u32, stops: &[Stop]) -> i128
    requires prices { IsGood (parts_in land.problem) prices.now }
    requires flight { flight < length (parts_in land.problem).flights }
{
    let details = &land.problem.s.flights()[flight as usize];
    let cost = i128::from(trip_cost(land.problem.s, flight, stops));
    let cost = cost.saturating_mul(i128::from(WEIGHT));
    let mut sum = cost.saturating_add(paid_for_turns(land, prices, flight, stops));
    for at in 0..stops.len() {
        let span = span_of_stop(land.slopes, details, stops, at);
        sum = sum.saturating_add(paid_in(land, prices, span));
    }
    sum
}

// What the stops pay for connections from their departure on, less what they are paid from their
// arrival on.
fn paid_for_turns(land: Landscape<'_>, prices: &Prices, flight: u32, stops: &[Stop]) -> i128
    requires prices { IsGood (parts_in land.problem) prices.now }
    requires flight { flight < length (parts_in land.problem).flights }
{
    let end = land.problem.s.day().periods;
    let kind = PriceKind::Connection;
    let turns = land.problem.boxes.turns();
    let mut sum = 0i128;
    if let Some(departure) = stops.first() {
        for turn in turns.of_flight(flight, End::Departure) {
            let span = span_of(land.slopes, kind, turn.connection, departure.time, end);
            sum = sum.saturating_add(paid_in(land, prices, span));
        }
    }
    if let Some(arrival) = stops.last() {
        for turn in turns.of_flight(flight, End::Arrival) {
            let ready = arrival.time.saturating_add(turn.turnaround);
            let span = span_of(land.slopes, kind, turn.connection, ready, end);
            sum = sum.saturating_sub(paid_in(land, prices, span));
        }
    }
    sum
}

// The prices of the span together.
fn paid_in(land: Landscape<'_>, prices: &Prices, span: Span) -> i128
    requires prices { IsGood (parts_in land.problem) prices.now }
    requires span { span.end ≤ length land.slopes.now }
{
    let mut sum = 0i128;
    for at in span.first..span.end {
        sum = sum.saturating_add(i128::from(prices.get(land.slopes[at].key)));
    }
    sum
}

// How many prices the stops pay for what is full.
fn full_on(land: Landscape<'_>, loads: &Loads, flight: u32, stops: &[Stop]) -> u32
    requires loads { AreLoadsFor (parts_in land.problem) loads.now }
    requires flight { flight < length (parts_in land.problem).flights }
{
    let details = &land.problem.s.flights()[flight as usize];
    let mut count = 0u32;
    for at in 0..stops.len() {
        let span = span_of_stop(land.slopes, details, stops, at);
        count = count.saturating_add(full_in(land, loads, span));
    }
    count
}

// How many prices of the span are of what is full.
fn full_in(land: Landscape<'_>, loads: &Loads, span: Span) -> u32
    requires loads { AreLoadsFor (parts_in land.problem) loads.now }
    requires span { span.end ≤ length land.slopes.now }
{
    let mut count = 0u32;
    for at in span.first..span.end {
        if is_full(land.problem.s, loads, land.slopes[at]) {
            count = count.saturating_add(1);
        }
    }
    count
}

// Whether the loads leave no room for one more.
fn is_full(s: &Scenario, loads: &Loads, slope: Slope) -> bool
    requires slope { IsSlopeKey (parts_of s.now) slope.key }
    requires loads { AreLoadsFor (parts_of s.now) loads.now }
{
    excess_of(s, loads, slope.key, slope.limit) >= 0
}

// Raises the prices that the stops pay for what is full.
fn raise_full(
    land: Landscape<'_>,
    loads: &Loads,
    prices: &mut Prices,
    flight: u32,
    stops: &[Stop],
    by: u64,
)
    requires loads { AreLoadsFor (parts_in land.problem) loads.now }
    requires prices { IsGood (parts_in land.problem) prices.old }
    requires flight { flight < length (parts_in land.problem).flights }
    ensures prices { IsGood (parts_in land.entry.problem) prices.new }
{
    let details = &land.problem.s.flights()[flight as usize];
    for at in 0..stops.len() {
        let span = span_of_stop(land.slopes, details, stops, at);
        raise_full_in(land, loads, prices, span, by);
    }
}

// Raises those of the span that are full.
fn raise_full_in(land: Landscape<'_>, loads: &Loads, prices: &mut Prices, span: Span, by: u64)
    requires loads { AreLoadsFor (parts_in land.problem) loads.now }
    requires prices { IsGood (parts_in land.problem) prices.old }
    requires span { span.end ≤ length land.slopes.now }
    ensures prices { IsGood (parts_in land.entry.problem) prices.new }
{
    for at in span.first..span.end {
        raise_if_full(land.problem.s, loads, land.slopes[at], prices, by);
    }
}

// Raises one price, if it is full.
fn raise_if_full(s: &Scenario, loads: &Loads, slope: Slope, prices: &mut Prices, by: u64)
    requires slope { IsSlopeKey (parts_of s.now) slope.key }
    requires loads { AreLoadsFor (parts_of s.now) loads.now }
    requires prices { IsGood (parts_of s.now) prices.old }
    ensures prices { IsGood (parts_of s.now) prices.new }
{
    if is_full(s, loads, slope) {
        let price = prices.get(slope.key).saturating_add(by).min(1 << 60);
        set_price(s, slope.key, price as i64, prices);
    }
}
