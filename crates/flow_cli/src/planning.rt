//! The command `plan`.
ghost use Rattle.std.specs.Prelude.{◌≡◌, ◌<◌, IfOk, IfSome, length};
ghost use Rattle.flow_outside.specs.Seen.{AreKept};
ghost use Rattle.flow_types.specs.Scenario.{parts_of};
ghost use Rattle.flow_types.specs.Bounds.{IsBound};
ghost use Rattle.flow_types.specs.Feasible.{IsFeasible};
ghost use Rattle.time_windows.specs.Boxes.{root_box};
ghost use Rattle.tree_search.specs.Records.{IsSearchRecord, last_cost, last_plan};
ghost use Rattle.delay_report.specs.Texts.{report_text};
ghost use Rattle.flow_cli.specs.Answers.{IfAnswered, work_status};
ghost use Rattle.flow_cli.specs.Outside.{change, printed_by};
ghost use Rattle.flow_cli.specs.Planning.{IsEnough, IsOfPlan, IsOpen, IsPlannedDay, IsSpent, TellsRecord};
ghost use Rattle.flow_cli.specs.Reading.{IsQuiet};
ghost use Rattle.flow_cli.specs.Status.{status_of};

use crate::answer::{Answer, EarlyEnd};
use crate::reading::day_of;
use crate::status::Status;
use delay_report::{Claim, plan_report};
use flow_outside::Files;
use flow_types::{OutOfMemory, Scenario};
use std::alloc::Global;
use time_windows::{Boxes, trips_are_in_the_root_box};
use tree_search::{Budget, Found, enough_nodes_close, search};

/// The answer where the day of a name is to be planned, by a search that may spend so much.
pub fn plan_named<F: Files>(
    alloc: Global,
    files: &mut F,
    name: &str,
    budget: Budget,
) -> Result<Answer, EarlyEnd>
    requires nodes { 0 < budget.nodes }
    ensures answered { IfAnswered result
        (IsOfPlan (change (F.seen files.old) (F.seen files.new)) name.now budget) }
    ensures quiet { IsQuiet (change (F.seen files.old) (F.seen files.new)) (work_status result) }
    ensures kept { AreKept (F.seen files.old) (F.seen files.new) }
{
    let s = day_of(alloc, files, name)?;
    Ok(plan_day(alloc, &s, budget)?)
}

// The answer to a day.
fn plan_day(alloc: Global, s: &Scenario, budget: Budget) -> Result<Answer, OutOfMemory>
    requires nodes { 0 < budget.nodes }
    ensures { IfOk result (λ answer. IsPlannedDay (parts_of s.now) budget (printed_by answer)) }
{
    let found = search_day(alloc, s, budget)?;
    answer_of(alloc, s, found)
}

/// The answer that tells a record.
pub fn answer_of(alloc: Global, s: &Scenario, found: Found) -> Result<Answer, OutOfMemory>
    requires { IfSome (last_plan found) (IsFeasible (parts_of s.now)) }
    ensures { IfOk result (λ answer. TellsRecord (parts_of s.now) found (printed_by answer)) }
{
    let (text, status) = report_of(alloc, s, &found)?;
    Answer::of_record(alloc, text, status, found)
}

// What is printed of a record, and the status that belongs to it.
fn report_of(alloc: Global, s: &Scenario, found: &Found) -> Result<(Vec<u8>, Status), OutOfMemory>
    requires { IfSome (last_plan found.now) (IsFeasible (parts_of s.now)) }
    ensures text { IfOk result
        (λ report. report.0.items ≡ report_text (parts_of s.now)
        (last_plan found.now) found.now.bound (length found.now.tree)) }
    ensures status { IfOk result
        (λ report. report.1 ≡ status_of (last_cost (parts_of s.now) found.now) found.now.bound) }
{
    let claim = Claim::of(
        s,
        found.plans.items().last(),
        found.bound,
        found.tree.nodes(),
    );
    let text = plan_report(alloc, s, &claim)?;
    Ok((text, Status::of_outcome(claim.outcome())))
}

/// The record of a search of all plans of the day.
#[tactic(auto, using(crate::proofs::PlanningFacts::record_of_day, crate::proofs::PlanningFacts::bound_of_day, crate::proofs::PlanningFacts::last_is_feasible, crate::proofs::PlanningFacts::spent_of_day, crate::proofs::PlanningFacts::closed_of_day))]
pub fn search_day(alloc: Global, s: &Scenario, budget: Budget) -> Result<Found, OutOfMemory>
    requires nodes { 0 < budget.nodes }
    ensures record { IfOk result
        (IsSearchRecord (parts_of s.now) (root_box (parts_of s.now)) budget) }
    ensures feasible { IfOk result
        (λ found. IfSome (last_plan found) (IsFeasible (parts_of s.now))) }
    ensures bound { IfOk result (λ found. IsBound (parts_of s.now) found.bound) }
    ensures spent { IfOk result
        (λ found. IsOpen (parts_of s.now) found → IsSpent budget found) }
    ensures closed { IfOk result
        (λ found. IsEnough (parts_of s.now) budget → IsOpen (parts_of s.now) found → ⊥) }
{
    trips_are_in_the_root_box();
    enough_nodes_close();
    let root = Boxes::root(alloc, s)?;
    let found = search(alloc, s, &root, budget)?;
    Ok(found)
}
