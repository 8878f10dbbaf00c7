//! The command `judge`.
ghost use Rattle.std.specs.Prelude.{◌≡◌, IfOk};
ghost use Rattle.flow_outside.specs.Seen.{AreKept};
ghost use Rattle.flow_types.specs.Scenario.{parts_of};
ghost use Rattle.flow_cli.specs.Answers.{IfAnswered, work_status};
ghost use Rattle.flow_cli.specs.Judging.{IsOfJudge, IsOfPlanOf, IsVerdict};
ghost use Rattle.flow_cli.specs.Outside.{change, printed_by};
ghost use Rattle.flow_cli.specs.Reading.{IsQuiet};

use crate::answer::{Answer, EarlyEnd};
use crate::faults::fault_line;
use crate::reading::{day_of, text_of};
use crate::status::Status;
use delay_report::{broken_line, keeps_line};
use flow_outside::Files;
use flow_types::{OutOfMemory, Plan, Scenario};
use plan_rules::{Loads, Verdict, first_broken_rules_are_first, judge};
use plan_text::{Refusal, read_plan};
use std::alloc::Global;

/// The answer where the plan of the second name is to be judged by the day of the first, which is
/// read first.
pub fn judge_named<F: Files>(
    alloc: Global,
    files: &mut F,
    name: &str,
    plan: &str,
) -> Result<Answer, EarlyEnd>
    ensures answered { IfAnswered result
        (IsOfJudge (change (F.seen files.old) (F.seen files.new)) name.now plan.now) }
    ensures quiet { IsQuiet (change (F.seen files.old) (F.seen files.new)) (work_status result) }
    ensures kept { AreKept (F.seen files.old) (F.seen files.new) }
{
    let s = day_of(alloc, files, name)?;
    judge_of(alloc, &s, files, plan)
}

// The answer where the plan of a name is to be judged by the day that was read.
fn judge_of<F: Files>(
    alloc: Global,
    s: &Scenario,
    files: &mut F,
    name: &str,
) -> Result<Answer, EarlyEnd>
    ensures answered { IfAnswered result
        (IsOfPlanOf (parts_of s.now) (change (F.seen files.old) (F.seen files.new)) name.now) }
    ensures quiet { IsQuiet (change (F.seen files.old) (F.seen files.new)) (work_status result) }
    ensures kept { AreKept (F.seen files.old) (F.seen files.new) }
{
    let text = text_of(alloc, files, name)?;
    match read_plan(alloc, s, &text) {
        Ok(plan) => Ok(judge_plan(alloc, s, &plan)?),
        Err(Refusal::Text(fault)) => Ok(Answer::of(
            alloc,
            fault_line(alloc, fault)?,
            Status::BadPlan,
        )),
        Err(Refusal::OutOfMemory) => Err(EarlyEnd::OutOfMemory),
    }
}

// The verdict on a plan.
fn judge_plan(alloc: Global, s: &Scenario, plan: &Plan) -> Result<Answer, OutOfMemory>
    ensures { IfOk result (λ answer. IsVerdict (parts_of s.now) plan.now (printed_by answer)) }
{
    // what is found first is broken, and what comes before it is kept
    first_broken_rules_are_first();
    let mut loads = Loads::new(alloc, s)?;
    match judge(&mut loads, s, plan) {
        Verdict::Keeps { cost } => Ok(Answer::of(alloc, keeps_line(alloc, cost)?, Status::Done)),
        Verdict::Breaks(broken) => Ok(Answer::of(
            alloc,
            broken_line(alloc, s, plan, broken)?,
            Status::Broken,
        )),
    }
}
