//! A plan in the making.
ghost use Rattle.std.specs.Prelude.{◌≡◌, ◌<◌, IfOk, IfSome, length};
ghost use Rattle.flow_types.specs.Scenario.{parts_of};
ghost use Rattle.flight_routes.specs.Work.{IsWorkFor};
ghost use Rattle.plan_rules.specs.Loads.{IsMadeFor as AreLoadsFor};
ghost use Rattle.time_windows.specs.Subproblems.{parts_in};

use flight_routes::Work;
use flow_types::{OutOfMemory, Plan, Scenario, Stop, Trip};
use plan_rules::{Loads, trip_cost};
use std::alloc::Global;
use time_windows::Subproblem;

// How many times its worst delay a flight costs that is left out.
const TIMES_LEFT_OUT: i64 = 3;

// No penalty is less than such a part of the average: flights that may hardly wait would be left
// out for others else.
const LEAST_PART: i64 = 2;

/// What a flight has at present.
#[derive(Debug, Drop)]
pub struct Choice {
    /// The first of its least trips, if it were alone.
    pub alone: Trip,
    /// What that one costs.
    pub least: i64,
    /// Its trip; no stops where it is left out.
    pub trip: Trip,
    /// How much more than the least it costs.
    pub extra: i64,
    /// What it costs more where it is left out and no trip was found for it so far.
    pub penalty: i64,
    /// How often no trip was found for it of late.
    pub failures: i64,
}

impl Choice {
    /// What it costs more where the flight is left out: its penalty, once more for each time that
    /// no trip was found for it.
    pub fn left_out(&self) -> i64 {
        self.penalty.saturating_mul(self.failures.saturating_add(1))
    }

    /// Whether the flight is left out.
    pub fn is_left_out(&self) -> bool {
        self.trip.items().is_empty()
    }
}

/// How much more than the least the trip of the flight costs; so much where it has no stops.
pub fn extra_of(s: &Scenario, flight: u32, stops: &[Stop], least: i64, left_out: i64) -> i64
    requires { flight < length (parts_of s.now).flights }
{
    if stops.is_empty() {
        left_out
    } else {
        trip_cost(s, flight, stops).saturating_sub(least)
    }
}

/// A choice for each flight, which is left out; nothing where a flight has no trip in the box even
/// if it is alone. The loads hold no trips.
pub fn choices_of(
    alloc: Global,
    problem: Subproblem<'_>,
    work: &mut Work,
    loads: &Loads,
) -> Result<Option<Vec<Choice>>, OutOfMemory>
    requires work { IsWorkFor (parts_in problem) work.old }
    requires loads { AreLoadsFor (parts_in problem) loads.now }
    ensures count { IfOk result (λ found. IfSome found
        (λ choices. length choices.items ≡ length (parts_in problem.entry).flights)) }
    ensures work { IsWorkFor (parts_in problem.entry) work.new }
{
    let mut choices = Vec::new(alloc);
    for number in 0..problem.s.flights().len() {
        let flight = number as u32;
        if work.least_fit(problem, flight, loads).is_none() {
            return Ok(None);
        }
        choices.push(left_out(alloc, problem.s, flight, work.trip())?)?;
    }
    raise_penalties(&mut choices);
    Ok(Some(choices))
}

// Raises the penalties that are far below the average.
fn raise_penalties(choices: &mut [Choice])
    ensures { length choices.new ≡ length choices.old }
{
    let mut sum = 0i64;
    for at in 0..choices.len() {
        sum = sum.saturating_add(choices[at].penalty);
    }
    let least = sum / (choices.len().max(1) as i64) / LEAST_PART;
    for at in 0..choices.len() {
        choices[at].penalty = choices[at].penalty.max(least);
        choices[at].extra = choices[at].left_out();
    }
}

// The flight without a trip, with its least one if it were alone.
fn left_out(alloc: Global, s: &Scenario, flight: u32, alone: &[Stop]) -> Result<Choice, OutOfMemory>
    requires { flight < length (parts_of s.now).flights }
{
    let least = trip_cost(s, flight, alone);
    let worst = worst_of(s, flight).saturating_sub(least).max(1);
    Ok(Choice {
        alone: Trip::from_stops(alloc, alone)?,
        least,
        trip: Trip::empty(alloc),
        extra: 0,
        penalty: worst.saturating_mul(TIMES_LEFT_OUT),
        failures: 0,
    })
}

// No trip of the flight costs more.
fn worst_of(s: &Scenario, flight: u32) -> i64
    requires { flight < length (parts_of s.now).flights }
{
    let details = &s.flights()[flight as usize];
    let mut total = s.total(flight, 0);
    for delay in 0..details.md {
        total = total.max(s.total(flight, delay.saturating_add(1)));
    }
    let mut credit = s.credit(flight, 0);
    for delay in 0..details.mg {
        credit = credit.min(s.credit(flight, delay.saturating_add(1)));
    }
    total.saturating_sub(credit)
}

/// Whether no flight is left out.
pub fn is_complete(choices: &[Choice]) -> bool {
    choices.iter().all(|choice| !choice.is_left_out())
}

/// The plan that the choices make.
pub fn plan_of(alloc: Global, choices: &[Choice]) -> Result<Plan, OutOfMemory> {
    let mut plan = Plan::empty(alloc);
    for choice in choices {
        plan.add(Trip::from_stops(alloc, choice.trip.items())?)?;
    }
    Ok(plan)
}
