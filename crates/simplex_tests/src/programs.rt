//! The program that a text tells.
ghost use Rattle.std.specs.Prelude.{◌+◌, ◌<◌, ◌≤◌, All, IfOk, IsTrue, OnOk, length, nat_abs};
ghost use Rattle.row_arena.specs.Rows.{IsRow, most_entry};
ghost use Rattle.scaled_simplex.specs.Program.{IsCost, columns, most_indices};

use row_arena::{Entry, MOST_ENTRY};
use scaled_simplex::Program;
use std::alloc::Global;
use std::test::Fail;

/// What stands before and after the first of these words.
pub fn sides_of<'a>(text: &'a str, between: &str) -> Result<(&'a str, &'a str), Fail> {
    match text.split_once(between) {
        None => Err(Fail::from("a side is wanting")),
        Some(sides) => Ok(sides),
    }
}

/// Numbers with spaces between.
pub fn numbers_of(alloc: Global, text: &str) -> Result<Vec<i64>, Fail> {
    let mut numbers = Vec::new(alloc);
    for word in text.split_whitespace() {
        numbers.push(word.parse::<i64>()?)?;
    }
    Ok(numbers)
}

fn is_near(number: i64) -> bool
    ensures { IsTrue result → nat_abs number ≤ most_entry }
{
    number.unsigned_abs() <= MOST_ENTRY as u64
}

fn is_cost(cost: i64) -> bool
    ensures { IsTrue result → IsCost cost }
{
    0 <= cost && is_near(cost)
}

// Whether a program may have them.
fn are_costs(costs: &[i64]) -> bool
    ensures costs { IsTrue result → All IsCost costs.now }
    ensures few { IsTrue result → length costs.now ≤ most_indices }
{
    costs.len() < 1000 && costs.iter().all(|cost| is_cost(*cost))
}

// The program without rows, as `3 0 7 plus -2`.
fn bare_program(alloc: Global, text: &str) -> Result<Program, Fail> {
    let (costs, constant) = sides_of(text, " plus ")?;
    let costs = numbers_of(alloc, costs)?;
    let constant = constant.parse::<i64>()?;
    if are_costs(&costs) && is_near(constant) {
        Ok(Program::new(alloc, &costs, constant)?)
    } else {
        Err(Fail::from("no program"))
    }
}

// Adds the term, unless its factor is 0.
#[tactic(auto, using(row_arena::proofs::AboveFacts::row_pushed))]
fn add_term(terms: &mut Vec<Entry>, columns: u32, column: u32, factor: i64) -> Result<(), Fail>
    requires row { IsRow terms.old.items }
    requires within { All (λ term. term.column < columns) terms.old.items }
    ensures row { OnOk result (IsRow terms.new.items) }
    ensures within { OnOk result (All (λ term. term.column < columns) terms.new.items) }
{
    if factor == 0 {
        return Ok(());
    }
    let is_last = terms.iter().all(|term| term.column < column);
    if is_last && column < columns && is_near(factor) {
        terms.push(Entry {
            column,
            value: factor,
        })?;
        Ok(())
    } else {
        Err(Fail::from("no term"))
    }
}

/// The terms with these factors, column by column.
pub fn terms_of(alloc: Global, columns: u32, factors: &[i64]) -> Result<Vec<Entry>, Fail>
    ensures row { IfOk result (λ terms. IsRow terms.items) }
    ensures within { IfOk result (λ terms. All (λ term. term.column < columns) terms.items) }
{
    let mut terms = Vec::new(alloc);
    for column in 0..columns {
        let factor = factors.get(column as usize).ok_or("no factor")?;
        add_term(&mut terms, columns, column, *factor)?;
    }
    Ok(terms)
}

// Whether there may be a row more.
fn has_room(program: &Program) -> bool
    ensures { IsTrue result
        → columns program.now + length program.now.constraints < most_indices }
{
    program.columns() < 1000 && program.rows() < 1000
}

// Adds the row of these terms.
fn add_terms(program: &mut Program, alloc: Global, terms: &[Entry], limit: i64) -> Result<(), Fail>
    requires row { IsRow terms.now }
    requires within { All (λ term. term.column < columns program.old) terms.now }
{
    if is_near(limit) && has_room(program) {
        program.add_row(alloc, terms, limit)?;
        Ok(())
    } else {
        Err(Fail::from("no row"))
    }
}

// Adds a row, as `-1 0 2 at most -3`.
fn add_row(program: &mut Program, alloc: Global, text: &str) -> Result<(), Fail> {
    let (factors, limit) = sides_of(text, " at most ")?;
    let factors = numbers_of(alloc, factors)?;
    let terms = terms_of(alloc, program.columns(), &factors)?;
    add_terms(program, alloc, &terms, limit.parse::<i64>()?)
}

// Adds that the column is at most 1.
fn add_one(program: &mut Program, alloc: Global, column: u32) -> Result<(), Fail> {
    let mut terms = Vec::new(alloc);
    add_term(&mut terms, program.columns(), column, 1)?;
    add_terms(program, alloc, &terms, 1)
}

/// The program with these rows, in which each column is at most 1 too.
pub fn program_of(alloc: Global, text: &str) -> Result<Program, Fail> {
    let mut parts = text.split(", ");
    let mut program = bare_program(alloc, parts.next().unwrap_or(""))?;
    for part in parts {
        add_row(&mut program, alloc, part)?;
    }
    for column in 0..program.columns() {
        add_one(&mut program, alloc, column)?;
    }
    Ok(program)
}
