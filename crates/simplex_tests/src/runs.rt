//! How the runs of the table end, and what they tell.
use crate::programs::{program_of, sides_of};
use crate::table::RUNS;
use scaled_simplex::{End, Fractions, Program, Run, Solver};
use std::alloc::Global;
use std::process::Abort;
use std::str::SplitWhitespace;
use std::test::Fail;

// The number after the next word, where there is one.
fn number_in(words: &mut SplitWhitespace<'_>) -> Result<Option<i64>, Fail> {
    match words.next() {
        None => Ok(None),
        Some(_) => Ok(Some(words.next().unwrap_or("").parse::<i64>()?)),
    }
}

fn word_of(end: End) -> &'static str {
    match end {
        End::Optimal => "optimal",
        End::Cut => "cut",
        End::Infeasible => "infeasible",
        End::Limit => "limit",
        End::Wide => "wide",
    }
}

// Adds the value, which Infeasible has none of.
fn put_value(text: &mut String, run: &Run<'_>) -> Result<(), Fail> {
    if run.end() != End::Infeasible {
        let value = run.value();
        write!(text, ", value {}/{}", value.numerator, value.denominator)?;
    }
    Ok(())
}

// Adds the point, which Optimal alone has.
fn put_point(text: &mut String, alloc: Global, run: &Run<'_>) -> Result<(), Fail> {
    if run.end() != End::Optimal {
        return Ok(());
    }
    match run.point(alloc)? {
        Fractions::Point {
            numerators,
            denominator,
        } => {
            text.push_str(", point")?;
            for numerator in numerators.items() {
                write!(text, " {numerator}")?;
            }
            write!(text, " over {denominator}")?;
        }
        Fractions::TooWide { columns, multiple } => {
            write!(text, ", too wide at {columns} by {multiple}")?;
        }
    }
    Ok(())
}

// What the run tells.
fn text_of(alloc: Global, run: &Run<'_>) -> Result<String, Fail> {
    let weights = run.multipliers(alloc)?;
    let mut text = String::new(alloc);
    let (end, weight) = (word_of(run.end()), weights.weight);
    write!(&mut text, "{end}, weight {weight}")?;
    put_value(&mut text, run)?;
    text.push_str(", rows")?;
    for multiplier in weights.rows.items() {
        write!(&mut text, " {multiplier}")?;
    }
    put_point(&mut text, alloc, run)?;
    Ok(text)
}

// Runs the program within limits such as `cells 90 pivots 4 cutoff 3`.
fn said_of(alloc: Global, program: &Program, limits: &str) -> Result<String, Fail> {
    let mut words = limits.split_whitespace();
    let cells = u32::try_from(number_in(&mut words)?.unwrap_or(0))?;
    let pivots = u64::try_from(number_in(&mut words)?.unwrap_or(0))?;
    let cutoff = number_in(&mut words)?;
    let run = Solver::new(alloc, program, cells)?.run(pivots, cutoff);
    text_of(alloc, &run)
}

// Compares what is said of a run.
fn try_line(rt: &impl Abort, alloc: Global, line: &str) -> Result<(), Fail> {
    let (number, case) = sides_of(line, ". ")?;
    let (case, answer) = sides_of(case, ": ")?;
    let (program, limits) = sides_of(case, "; ")?;
    let program = program_of(alloc, program)?;
    let said = said_of(alloc, &program, limits)?;
    assert_eq!(rt; said.as_str(), answer, "run {number}: {case}");
    Ok(())
}

#[test]
fn runs_end_as_told(rt: HostRuntime) -> Result<(), Fail> {
    for line in RUNS.lines() {
        try_line(&rt, rt.alloc(), line)?;
    }
    Ok(())
}
