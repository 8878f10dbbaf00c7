//! Adding what plans cost to the sums.
ghost use Rattle.std.specs.Prelude.{◌≡◌, ◌≤◌, ◌<◌, ◌+◌, ◌*◌, ◌-◌, ◌^◌, length, pos, unsigned_abs, ◌*ℤ◌};
ghost use Rattle.flow_types.specs.Scenario.{flight_at, parts_of};
ghost use Rattle.bytime_model.specs.CostRow.{cost_row, priced_value};
ghost use Rattle.bytime_model.specs.Values.{form_value};
ghost use Rattle.cut_rows.specs.Relaxations.{parts_under};
ghost use Rattle.dual_sums.specs.Growing.{Grows, choice_under, late_terms_at, terms_at, wait_terms_at};
ghost use Rattle.dual_sums.specs.Sums.{mass};
ghost use Rattle.bytime_model.specs.Columns.{IsThere};

use crate::sums::Sums;
use crate::terms::add_variable;
use bytime_model::{Landing, Term, constant_of, late_term, most_late, most_wait, wait_term};
use cut_rows::Relaxation;
use flow_types::Scenario;

// So many times the factor.
fn times(weight: u64, term: Term) -> i128
    requires weight { weight < 2 ^ 62 }
    requires small { unsigned_abs term.factor ≤ 2000000000 }
    ensures product { result ≡ pos weight *ℤ term.factor }
    ensures small { unsigned_abs result < 2 ^ 93 }
{
    i128::from(weight) * i128::from(term.factor)
}

// Adds a term of the cost row so many times.
fn add_step(sums: &mut Sums, relaxation: Relaxation<'_>, term: Term, weight: u64)
    requires there { IsThere (parts_under relaxation).flights term.variable }
    requires positions { length sums.old.factors ≡ relaxation.table.now.columns.count }
    requires weight { weight < 2 ^ 62 }
    requires small { unsigned_abs term.factor ≤ 2000000000 }
    requires room { mass sums.old + 2 ^ 93 < 2 ^ 126 }
    ensures { Grows (choice_under relaxation.entry)
        (λ value. pos weight *ℤ (term.factor *ℤ pos (value term.variable))) (2 ^ 93) sums.old
        sums.new }
{
    let more = times(weight, term);
    add_variable(sums, relaxation, term.variable, more);
}

// Adds what the flight is spared for each period by which it may have arrived.
#[tactic(auto, using(crate::proofs::CostGrowFacts::steps_none, crate::proofs::CostGrowFacts::steps_all, crate::proofs::CostGrowFacts::late_small, crate::proofs::CostGrowFacts::late_there, crate::proofs::CostGrowFacts::late_few))]
fn add_late(sums: &mut Sums, relaxation: Relaxation<'_>, flight: u32, weight: u64)
    requires flight { flight < length (parts_under relaxation).flights }
    requires positions { length sums.old.factors ≡ relaxation.table.now.columns.count }
    requires weight { weight < 2 ^ 62 }
    requires room { mass sums.old + 2 ^ 102 < 2 ^ 126 }
    ensures { Grows (choice_under relaxation.entry)
        (λ value. pos weight *ℤ form_value value (late_terms_at (parts_under relaxation.entry)
        flight (flight_at relaxation.entry.problem.s.now flight))) (2 ^ 102) sums.old sums.new }
{
    let s = relaxation.problem.s;
    for delay in 0..most_late(s, flight) {
        add_step(sums, relaxation, late_term(s, flight, delay), weight);
    }
}

// Adds what it isn't credited for each period by which it may have departed.
#[tactic(auto, using(crate::proofs::CostGrowFacts::steps_none, crate::proofs::CostGrowFacts::steps_all, crate::proofs::CostGrowFacts::wait_small, crate::proofs::CostGrowFacts::wait_there, crate::proofs::CostGrowFacts::wait_few))]
fn add_wait(sums: &mut Sums, relaxation: Relaxation<'_>, flight: u32, weight: u64)
    requires flight { flight < length (parts_under relaxation).flights }
    requires positions { length sums.old.factors ≡ relaxation.table.now.columns.count }
    requires weight { weight < 2 ^ 62 }
    requires room { mass sums.old + 2 ^ 102 < 2 ^ 126 }
    ensures { Grows (choice_under relaxation.entry)
        (λ value. pos weight *ℤ form_value value (wait_terms_at (parts_under relaxation.entry)
        flight (flight_at relaxation.entry.problem.s.now flight))) (2 ^ 102) sums.old sums.new }
{
    let s = relaxation.problem.s;
    for delay in 0..most_wait(s, flight) {
        add_step(sums, relaxation, wait_term(s, flight, delay), weight);
    }
}

// Adds what is paid for a flight.
fn add_flight(sums: &mut Sums, relaxation: Relaxation<'_>, flight: u32, weight: u64)
    requires flight { flight < length (parts_under relaxation).flights }
    requires positions { length sums.old.factors ≡ relaxation.table.now.columns.count }
    requires weight { weight < 2 ^ 62 }
    requires room { mass sums.old + 2 ^ 103 < 2 ^ 126 }
    ensures { Grows (choice_under relaxation.entry)
        (λ value. pos weight *ℤ form_value value (terms_at (parts_under relaxation.entry) flight
        (flight_at relaxation.entry.problem.s.now flight))) (2 ^ 103) sums.old sums.new }
{
    add_late(sums, relaxation, flight, weight);
    add_wait(sums, relaxation, flight, weight);
}

// So many times the constant.
fn constant_times(s: &Scenario, weight: u64) -> i128
    requires weight { weight < 2 ^ 62 }
    ensures { result ≡ pos weight *ℤ (cost_row (parts_of s.now)).constant }
{
    i128::from(weight) * i128::from(constant_of(s))
}

// So many times the constant, which isn't far from 0.
#[tactic(auto, using(crate::proofs::CostGrowFacts::constant_within))]
fn constant_share(s: &Scenario, weight: u64) -> i128
    requires weight { weight < 2 ^ 62 }
    ensures product { result ≡ pos weight *ℤ (cost_row (parts_of s.now)).constant }
    ensures small { unsigned_abs result ≤ 2 ^ 104 }
{
    constant_times(s, weight)
}

/// Adds what a plan costs, so many times.
pub fn add_cost(sums: &mut Sums, relaxation: Relaxation<'_>, weight: u64)
    requires positions { length sums.old.factors ≡ relaxation.table.now.columns.count }
    requires weight { weight < 2 ^ 62 }
    requires room { mass sums.old + 2 ^ 114 < 2 ^ 126 }
    ensures { Grows (choice_under relaxation.entry)
        (λ value. pos weight *ℤ priced_value value (cost_row (parts_under relaxation.entry)))
        (2 ^ 114) sums.old sums.new }
{
    let s = relaxation.problem.s;
    sums.land(Landing::Surely, constant_share(s, weight));
    for flight in 0..s.flights().len() {
        add_flight(sums, relaxation, flight as u32, weight);
    }
}
