//! The commands `make` and `trial`.
ghost use Rattle.std.specs.Prelude.{◌≡◌, ◌≤◌, ◌++◌, IfOk, IfSome, Ok, OnOk, length};
ghost use Rattle.std.specs.Fmt.{decimal};
ghost use Rattle.flow_types.specs.Feasible.{IsFeasible};
ghost use Rattle.flow_types.specs.Scenario.{parts_of};
ghost use Rattle.tree_search.specs.Records.{last_cost, last_plan};
ghost use Rattle.text_records.specs.Lines.{line_text};
ghost use Rattle.text_records.specs.Rows.{rows_of};
ghost use Rattle.scenario_reader.specs.Reading.{scenario_of};
ghost use Rattle.scenario_maker.specs.Made.{made_text};
ghost use Rattle.flow_cli.specs.Making.{IsOfMake, IsOfTrial, TellsTrial, claimed_of, trial_budget, trial_lines, trial_text};
ghost use Rattle.flow_cli.specs.Outside.{printed_by};
ghost use Rattle.flow_cli.specs.Status.{status_of};

use crate::answer::Answer;
use crate::planning::search_day;
use crate::status::Status;
use csv::ByteRecord;
use delay_report::{Claim, claim_report};
use flow_types::{OutOfMemory, Scenario};
use relaxed_bound::Limits;
use scenario_maker::{made_day, make, scenario_text};
use std::alloc::Global;
use text_records::{Rows, put, put_line};
use tree_search::{Budget, Found};

/// The answer where a day of so many flights is to be made.
pub fn make_day(alloc: Global, count: u32) -> Result<Answer, OutOfMemory>
    requires { count ≤ 2000 }
    ensures { IfOk result (λ answer. IsOfMake count (printed_by answer)) }
{
    Ok(Answer::of(alloc, make(alloc, count)?, Status::Done))
}

/// The answer where a day of so many flights is to be made and planned, by a search that may spend
/// a little.
pub fn try_day(alloc: Global, count: u32) -> Result<Answer, OutOfMemory>
    requires { count ≤ 2000 }
    ensures { IfOk result (λ answer. IsOfTrial count (printed_by answer)) }
{
    let s = made_day(alloc, count)?;
    let text = scenario_text(alloc, &s)?;
    let found = search_day(alloc, &s, trial_budget())?;
    told(alloc, count, &text, &s, found)
}

// What a trial's search may spend.
fn trial_budget() -> Budget
    ensures { result ≡ trial_budget }
{
    Budget {
        nodes: 21,
        limits: Limits {
            pivots: 500,
            cells: 2_000_000,
        },
        rounds: 16,
    }
}

// The answer that tells the record of a trial.
fn told(
    alloc: Global,
    count: u32,
    text: &[u8],
    s: &Scenario,
    found: Found,
) -> Result<Answer, OutOfMemory>
    requires made { text.now ≡ made_text count }
    requires feasible { IfSome (last_plan found) (IsFeasible (parts_of s.now)) }
    ensures { IfOk result
        (λ answer. TellsTrial count (parts_of s.now) found (printed_by answer)) }
{
    let (report, status) = trial_report(alloc, count, text, s, &found)?;
    Answer::of_record(alloc, report, status, found)
}

// What is printed of a trial's record, and the status that belongs to it.
fn trial_report(
    alloc: Global,
    count: u32,
    text: &[u8],
    s: &Scenario,
    found: &Found,
) -> Result<(Vec<u8>, Status), OutOfMemory>
    requires { IfSome (last_plan found.now) (IsFeasible (parts_of s.now)) }
    ensures text { IfOk result (λ report. report.0.items
        ≡ trial_text count (length (rows_of text.now)) (parts_of s.now)
        (claimed_of (parts_of s.now) found.now)) }
    ensures status { IfOk result
        (λ report. report.1 ≡ status_of (last_cost (parts_of s.now) found.now) found.now.bound) }
{
    let claim = Claim::of(
        s,
        found.plans.items().last(),
        found.bound,
        found.tree.nodes(),
    );
    let records = records_of(alloc, text)?;
    let mut out = Vec::new(alloc);
    put_trial(alloc, &mut out, count, records, s)?;
    put(&mut out, &claim_report(alloc, &claim)?)?;
    Ok((out, Status::of_outcome(claim.outcome())))
}

// Adds the lines of a trial's day.
fn put_trial(
    alloc: Global,
    out: &mut Vec<u8>,
    count: u32,
    records: u64,
    s: &Scenario,
) -> Result<(), OutOfMemory>
    ensures { OnOk result
        (out.new.items ≡ out.old.items ++ trial_lines count records (parts_of s.now)) }
{
    put_count(alloc, out, b"trial,", u64::from(count))?;
    put_count(alloc, out, b"records,", records)?;
    put_count(alloc, out, b"flights,", s.flights().len() as u64)?;
    put_count(alloc, out, b"connections,", s.connections().len() as u64)
}

// Adds the line of a count.
fn put_count(alloc: Global, out: &mut Vec<u8>, label: &[u8], count: u64) -> Result<(), OutOfMemory>
    ensures { OnOk result
        (out.new.items ≡ out.old.items ++ line_text label.now (decimal count)) }
{
    put_line(out, label, count.to_string(alloc)?.as_bytes())
}

// How many records the text has.
fn records_of(alloc: Global, text: &[u8]) -> Result<u64, OutOfMemory>
    ensures { IfOk result (λ count. count ≡ length (rows_of text.now)) }
{
    let mut rows = Rows::of_text(alloc, text);
    let mut row = ByteRecord::new(alloc);
    let mut count = 0;
    'records: while rows.next_row(&mut row)? {
        count += 1;
    }
    Ok(count)
}
