//! The cost row.
ghost use Rattle.std.specs.Prelude.{[], ◌≡◌, ◌+◌, ◌-◌, ◌≤◌, ◌<◌, ◌^◌, ◌++◌, Some, IfOk, OnOk, List, length, min, ◌+ℤ◌, ◌-ℤ◌};
ghost use Rattle.flow_types.specs.Limits.{most_delay_cost, most_trip_cost};
ghost use Rattle.flow_types.specs.declared.plan.Stop.{Stop};
ghost use Rattle.flow_types.specs.Costs.{plan_cost};
ghost use Rattle.flow_types.specs.Feasible.{AreTrips};
ghost use Rattle.flow_types.specs.Scenario.{flight_at, parts_of};
ghost use Rattle.bytime_model.specs.CostRow.{cost_row, flight_constant, flight_terms, late_step_at, late_terms, late_variable, most_late_at, most_wait_at, priced_value, unless_zero, wait_step_at, wait_terms, wait_variable};
ghost use Rattle.exact_sums.specs.Near.{IsNear};
ghost use Rattle.bytime_model.specs.declared.variables.Var.TheVariants.{By};
ghost use Rattle.bytime_model.specs.Rows.{AreCollected, term_of};
ghost use Rattle.bytime_model.specs.Values.{value_at};

use crate::variables::{Term, Terms, Var};
use flow_types::{Flight, OutOfMemory, Scenario};
use std::alloc::Global;
use std::marker::Model;

/// What a plan costs: a constant and a sum of terms.
#[derive(Debug, Drop)]
pub struct CostRow {
    pub constant: i64,
    pub terms: Terms,
}

impl Model for CostRow {
    ghost use Rattle.bytime_model.specs.CostRow.{Priced};

    ghost Value = { Priced };

    ghost view = { λ r. record { constant = r.constant; terms = r.terms } };
}

impl CostRow {
    ghost use Rattle.std.specs.Prelude.{◌≡◌};

    /// The constant.
    pub fn constant(&self) -> i64
        ensures { result ≡ self.now.constant }
    {
        self.constant
    }

    /// The terms.
    pub fn terms(&self) -> &[Term]
        ensures { result.now ≡ self.now.terms }
    {
        self.terms.items()
    }
}

/// The cost row. Its value at a plan, with one trip for each flight, is the plan's cost. No two of
/// its terms are of one variable, and no factor is 0. It takes memory and time for each period that
/// a flight may be late or wait.
pub fn linear_cost(alloc: Global, s: &Scenario) -> Result<CostRow, OutOfMemory>
    ensures row { IfOk result (λ row. row ≡ cost_row (parts_of s.now)) }
    ensures collected { IfOk result (λ row. AreCollected row.terms) }
    ensures cost { IfOk result (λ row. (plan : List (List Stop))
        → AreTrips (parts_of s.now).day.periods (parts_of s.now).flights plan
        → priced_value (value_at (parts_of s.now).flights plan) row
        ≡ plan_cost (parts_of s.now).tables (parts_of s.now).flights plan) }
{
    Ok(CostRow {
        constant: constant_of(s),
        terms: cost_terms(alloc, s)?,
    })
}

/// How many periods later than scheduled the flight may arrive: in the cost row there is a step for
/// each delay below this. The flight is one of the scenario's. It takes no memory.
pub fn most_late(s: &Scenario, flight: u32) -> u16
    requires { flight < length (parts_of s.now).flights }
    ensures { result ≡ most_late_at (parts_of s.now).day.periods (flight_at s.now flight) }
{
    let found = &s.flights()[flight as usize];
    within_day(s.day().periods, found.sa, found.md)
}

/// How many periods later than scheduled the flight may depart: in the cost row there is a step for
/// each delay below this. The flight is one of the scenario's. It takes no memory.
pub fn most_wait(s: &Scenario, flight: u32) -> u16
    requires { flight < length (parts_of s.now).flights }
    ensures { result ≡ most_wait_at (parts_of s.now).day.periods (flight_at s.now flight) }
{
    let found = &s.flights()[flight as usize];
    within_day(s.day().periods, found.sd, found.mg)
}

// So many periods after a time, or as many as are left of the day.
fn within_day(periods: u16, time: u16, most: u16) -> u16
    requires periods { 1 ≤ periods }
    requires most { time + most < 2 ^ 16 }
    requires within { time < periods }
    ensures { result ≡ min (time + most) (periods - 1) - time }
{
    (time + most).min(periods - 1) - time
}

/// What the flight is spared, if it has arrived with no more than this delay, against a period
/// more. In the cost row it is the factor of having entered the last node so long after the
/// scheduled arrival; there is no term where it is 0. The flight is one of the scenario's, and the
/// delay below 65,535. It takes no memory.
pub fn late_step(s: &Scenario, flight: u32, delay: u16) -> i64
    requires flight { flight < length (parts_of s.now).flights }
    requires delay { delay + 1 < 2 ^ 16 }
    ensures { result ≡ late_step_at (parts_of s.now).tables (flight_at s.now flight) delay }
{
    difference(s.total(flight, delay), s.total(flight, delay + 1))
}

/// What the flight isn't credited, if it has departed with no more than this delay, against a
/// period more. In the cost row it is the factor of having entered the first node so long after
/// the scheduled departure; there is no term where it is 0. The flight is one of the scenario's,
/// and the delay below 65,535. It takes no memory.
pub fn wait_step(s: &Scenario, flight: u32, delay: u16) -> i64
    requires flight { flight < length (parts_of s.now).flights }
    requires delay { delay + 1 < 2 ^ 16 }
    ensures { result ≡ wait_step_at (parts_of s.now).tables (flight_at s.now flight) delay }
{
    difference(s.credit(flight, delay + 1), s.credit(flight, delay))
}

/// The term of the cost row for this delay of the arrival, also where its factor is 0. The flight
/// is one of the scenario's, and the delay is below `most_late`. It takes no memory.
pub fn late_term(s: &Scenario, flight: u32, delay: u16) -> Term
    requires flight { flight < length (parts_of s.now).flights }
    requires delay { delay < most_late_at (parts_of s.now).day.periods (flight_at s.now flight) }
    ensures { result ≡ term_of
        (late_step_at (parts_of s.now).tables (flight_at s.now flight) delay)
        (late_variable flight (flight_at s.now flight) delay) }
{
    term_of(late_step(s, flight, delay), late_variable(s, flight, delay))
}

/// The term of the cost row for this delay of the departure, also where its factor is 0. The flight
/// is one of the scenario's, and the delay is below `most_wait`. It takes no memory.
pub fn wait_term(s: &Scenario, flight: u32, delay: u16) -> Term
    requires flight { flight < length (parts_of s.now).flights }
    requires delay { delay < most_wait_at (parts_of s.now).day.periods (flight_at s.now flight) }
    ensures { result ≡ term_of
        (wait_step_at (parts_of s.now).tables (flight_at s.now flight) delay)
        (wait_variable flight (flight_at s.now flight) delay) }
{
    term_of(wait_step(s, flight, delay), wait_variable(s, flight, delay))
}

// Having arrived with no more than this delay.
fn late_variable(s: &Scenario, flight: u32, delay: u16) -> Var
    requires flight { flight < length (parts_of s.now).flights }
    requires delay { delay < most_late_at (parts_of s.now).day.periods (flight_at s.now flight) }
    ensures { result ≡ late_variable flight (flight_at s.now flight) delay }
{
    let found = &s.flights()[flight as usize];
    let node = (found.nodes.items().len() - 1) as u16;
    let time = found.sa + delay;
    Var::By { flight, node, time }
}

// Having departed with no more than this delay.
fn wait_variable(s: &Scenario, flight: u32, delay: u16) -> Var
    requires flight { flight < length (parts_of s.now).flights }
    requires delay { delay < most_wait_at (parts_of s.now).day.periods (flight_at s.now flight) }
    ensures { result ≡ wait_variable flight (flight_at s.now flight) delay }
{
    let node = 0;
    let time = s.flights()[flight as usize].sd + delay;
    Var::By { flight, node, time }
}

// So many times the variable.
fn term_of(factor: i64, variable: Var) -> Term
    ensures { result ≡ term_of factor variable }
{
    Term { variable, factor }
}

// The difference of two numbers that aren't far from 0.
fn difference(a: i64, b: i64) -> i64
    requires a { IsNear most_delay_cost a }
    requires b { IsNear most_delay_cost b }
    ensures { result ≡ a -ℤ b }
{
    a - b
}

// Adds the term, where its factor isn't 0.
fn add_unless_zero(terms: &mut Terms, term: Term) -> Result<(), OutOfMemory>
    ensures { OnOk result (terms.new ≡ terms.old ++ unless_zero term.factor term.variable) }
{
    if term.factor != 0 {
        terms.add(term)?;
    }
    Ok(())
}

// A term for each period by which the flight may have arrived.
#[tactic(auto, using(exact_sums::proofs::LoopFacts::numbers_none, exact_sums::proofs::LoopFacts::numbers_all))]
fn add_late_terms(
    terms: &mut Terms,
    s: &Scenario,
    number: u32,
    flight: &Flight,
) -> Result<(), OutOfMemory>
    requires { flight_at s.now number ≡ Some flight.now }
    ensures { OnOk result (terms.new ≡ terms.old ++ late_terms (parts_of s.now).tables
        (parts_of s.now).day.periods number flight.now) }
{
    for delay in 0..most_late(s, number) {
        add_unless_zero(terms, late_term(s, number, delay))?;
    }
    Ok(())
}

// A term for each period by which it may have departed.
#[tactic(auto, using(exact_sums::proofs::LoopFacts::numbers_none, exact_sums::proofs::LoopFacts::numbers_all))]
fn add_wait_terms(
    terms: &mut Terms,
    s: &Scenario,
    number: u32,
    flight: &Flight,
) -> Result<(), OutOfMemory>
    requires { flight_at s.now number ≡ Some flight.now }
    ensures { OnOk result (terms.new ≡ terms.old ++ wait_terms (parts_of s.now).tables
        (parts_of s.now).day.periods number flight.now) }
{
    for delay in 0..most_wait(s, number) {
        add_unless_zero(terms, wait_term(s, number, delay))?;
    }
    Ok(())
}

// The flight's terms: for each period by which it may have arrived, and for each by which it may
// have departed.
fn add_flight_terms(
    terms: &mut Terms,
    s: &Scenario,
    number: u32,
    flight: &Flight,
) -> Result<(), OutOfMemory>
    requires { flight_at s.now number ≡ Some flight.now }
    ensures { OnOk result (terms.new ≡ terms.old ++ flight_terms (parts_of s.now).tables
        (parts_of s.now).day.periods number flight.now) }
{
    add_late_terms(terms, s, number, flight)?;
    add_wait_terms(terms, s, number, flight)
}

// No terms, and room for those of all flights: so many that the list needn't grow.
fn room_for_terms(alloc: Global, s: &Scenario) -> Result<Terms, OutOfMemory>
    ensures { IfOk result (λ terms. terms ≡ []) }
{
    let mut most = 0usize;
    for number in 0..s.flights().len() {
        let flight = number as u32;
        let steps = usize::from(most_late(s, flight)) + usize::from(most_wait(s, flight));
        most = most.saturating_add(steps);
    }
    Ok(Terms::from_vec(Vec::with_capacity(alloc, most)?))
}

// The terms of all flights.
#[tactic(auto, using(exact_sums::proofs::LoopFacts::numbered_none, exact_sums::proofs::LoopFacts::numbered_all))]
fn cost_terms(alloc: Global, s: &Scenario) -> Result<Terms, OutOfMemory>
    ensures { IfOk result (λ terms. terms ≡ (cost_row (parts_of s.now)).terms) }
{
    let flights = s.flights();
    let mut terms = room_for_terms(alloc, s)?;
    for number in 0..flights.len() {
        add_flight_terms(&mut terms, s, number as u32, &flights[number])?;
    }
    Ok(terms)
}

// The cost of the flight, if it were as late as it may.
fn flight_constant(s: &Scenario, number: u32, flight: &Flight) -> i64
    requires { flight_at s.now number ≡ Some flight.now }
    ensures constant { result ≡ flight_constant (parts_of s.now).tables
        (parts_of s.now).day.periods flight.now }
    ensures within { IsNear most_trip_cost result }
{
    difference(
        s.total(number, most_late(s, number)),
        s.credit(number, most_wait(s, number)),
    )
}

// The sum of both.
fn plus(sum: i64, more: i64) -> i64
    requires sum { IsNear (2 ^ 60) sum }
    requires more { IsNear most_trip_cost more }
    ensures { result ≡ sum +ℤ more }
{
    sum + more
}

/// What all flights cost, if they were as late as they may: the constant of the cost row. It takes
/// no memory, and time for each flight.
pub fn constant_of(s: &Scenario) -> i64
    ensures { result ≡ (cost_row (parts_of s.now)).constant }
{
    let flights = s.flights();
    let mut sum = 0;
    for number in 0..flights.len() {
        sum = plus(sum, flight_constant(s, number as u32, &flights[number]));
    }
    sum
}
