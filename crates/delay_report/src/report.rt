//! What is printed of a claim.
ghost use Rattle.std.specs.Prelude.{◌≡◌, ◌++◌, IfOk, OnOk, codes};
ghost use Rattle.flow_types.specs.Scenario.{parts_of};
ghost use Rattle.text_records.specs.Lines.{line_text};
ghost use Rattle.delay_report.specs.Texts.{bound_word, claim_text, cost_word, outcome_word, plan_text, trips_text};

use crate::claim::{Claim, Outcome};
use flow_types::{Bound, OutOfMemory, Scenario, Trip};
use plan_text::trip_line;
use std::alloc::Global;
use text_records::{put, put_line};

/// The four lines of a claim: its status, its cost, its bound and its number of nodes. It takes
/// memory for them.
pub fn claim_report(alloc: Global, claim: &Claim<'_>) -> Result<Vec<u8>, OutOfMemory>
    ensures { IfOk result
        (λ text. text.items ≡ claim_text claim.now.cost claim.now.bound claim.now.nodes) }
{
    let mut out = Vec::new(alloc);
    put_line(&mut out, b"status,", outcome_word(claim.outcome()))?;
    put_cost(alloc, &mut out, claim.cost())?;
    put_bound(alloc, &mut out, claim.bound())?;
    put_line(
        &mut out,
        b"nodes,",
        claim.nodes().to_string(alloc)?.as_bytes(),
    )?;
    Ok(out)
}

/// The text of a claim: its four lines, and, if it has a plan, a line for each trip that has a
/// flight in the scenario, which is the claim's. It prints what the claim says; that this is so of
/// the plan is said of `Claim::of`. It takes memory for the text and for a line.
pub fn plan_report(alloc: Global, s: &Scenario, claim: &Claim<'_>) -> Result<Vec<u8>, OutOfMemory>
    ensures { IfOk result
        (λ text. text.items ≡ claim_text claim.now.cost claim.now.bound claim.now.nodes
        ++ plan_text (parts_of s.now) claim.now.plan) }
{
    let mut out = claim_report(alloc, claim)?;
    if let Some(plan) = claim.plan() {
        put_trips(alloc, &mut out, s, plan.items())?;
    }
    Ok(out)
}

// The word for the outcome.
fn outcome_word(outcome: Outcome) -> &'static [u8]
    ensures { result.now ≡ outcome_word outcome }
{
    match outcome {
        Outcome::Optimal => b"optimal",
        Outcome::Infeasible => b"infeasible",
        Outcome::Open => b"open",
    }
}

// Adds the line of the cost.
fn put_cost(alloc: Global, out: &mut Vec<u8>, cost: Option<i64>) -> Result<(), OutOfMemory>
    ensures { OnOk result
        (out.new.items ≡ out.old.items ++ line_text (codes "cost,") (cost_word cost)) }
{
    match cost {
        None => put_line(out, b"cost,", b"none"),
        Some(cost) => put_line(out, b"cost,", cost.to_string(alloc)?.as_bytes()),
    }
}

// Adds the line of the bound.
fn put_bound(alloc: Global, out: &mut Vec<u8>, bound: Bound) -> Result<(), OutOfMemory>
    ensures { OnOk result
        (out.new.items ≡ out.old.items ++ line_text (codes "bound,") (bound_word bound)) }
{
    match bound {
        Bound::NoPlan => put_line(out, b"bound,", b"none"),
        Bound::AtLeast(least) => put_line(out, b"bound,", least.to_string(alloc)?.as_bytes()),
    }
}

// Adds a line for each flight's trip.
fn put_trips(
    alloc: Global,
    out: &mut Vec<u8>,
    s: &Scenario,
    trips: &[Trip],
) -> Result<(), OutOfMemory>
    ensures { OnOk result
        (out.new.items ≡ out.old.items
        ++ trips_text (parts_of s.now).places (parts_of s.now).flights trips.now) }
{
    for at in 0..s.flights().len().min(trips.len()) {
        put(out, &trip_line(alloc, s, at as u32, trips[at].items())?)?;
    }
    Ok(())
}
