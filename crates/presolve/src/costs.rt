//! What the columns cost.
ghost use Rattle.std.specs.Prelude.{◌≡◌, ◌<◌, ◌+◌, ◌+ℤ◌, ◌^◌, All, IfOk, int_lt, length, map, pos, sum_by, unsigned_abs};
ghost use Rattle.std.specs.Int.{int_min};
ghost use Rattle.std.specs.List.{range_with_len};
ghost use Rattle.exact_sums.specs.Sums.{total};
ghost use Rattle.bytime_model.specs.CostRow.{cost_row};
ghost use Rattle.flow_types.specs.Scenario.{parts_of};
ghost use Rattle.presolve.specs.Gathering.{IsNumberedFor};
ghost use Rattle.presolve.specs.Listing.{HaveCosts, IsAt, IsWalked};
ghost use Rattle.presolve.specs.Variables.{columns_of};
ghost use Rattle.time_windows.specs.Held.{box_of};
ghost use Rattle.row_arena.specs.Rows.{IsRow, entry_at};

use crate::flips::plus;
use crate::gather::Gathering;
use crate::numbers::Numbers;
use bytime_model::CostRow;
use flow_types::{OutOfMemory, Scenario};
use row_arena::Entry;
use std::alloc::Global;
use time_windows::Boxes;

/// What the variables of the columns cost, and what is paid with each column at 0.
#[derive(Debug, Drop)]
pub struct Costs {
    pub values: Vec<i64>,
    pub constant: i64,
}

// Whether the entry at the place is the column's.
fn is_at(entries: &[Entry], place: usize, column: usize) -> bool
    ensures { IsAt column entries.now place result }
{
    place < entries.len() && entries[place].column as usize == column
}

// What the row has in the column, where the entries before the place are in earlier columns and the
// others aren't.
#[tactic(auto, using(crate::proofs::RowEntries::value_here, crate::proofs::RowEntries::value_none))]
fn value_at(entries: &[Entry], place: usize, column: usize) -> i64
    requires row { IsRow entries.now }
    requires walked { IsWalked column entries.now place }
    ensures { result ≡ entry_at entries.now column }
{
    if is_at(entries, place, column) {
        entries[place].value
    } else {
        0
    }
}

// The place of the first entry that isn't before the next column.
#[tactic(auto, using(crate::proofs::RowEntries::walks_on, crate::proofs::RowEntries::walks_none))]
fn next_place(entries: &[Entry], place: usize, column: usize) -> usize
    requires row { IsRow entries.now }
    requires walked { IsWalked column entries.now place }
    ensures { IsWalked (column + 1) entries.now result }
{
    if is_at(entries, place, column) {
        place + 1
    } else {
        place
    }
}

// What the row has in each of so many columns.
#[tactic(auto, using(crate::proofs::RowEntries::walk_none))]
fn values_of(alloc: Global, entries: &[Entry], count: usize) -> Result<Vec<i64>, OutOfMemory>
    requires { IsRow entries.now }
    ensures { IfOk result (λ values. values.items
        ≡ map (entry_at entries.now) (range_with_len 0 count)) }
{
    let mut values = Vec::with_capacity(alloc, count)?;
    let mut place = 0;
    for column in 0..count {
        values.push(value_at(entries, place, column))?;
        place = next_place(entries, place, column);
    }
    Ok(values)
}

// How far the number is from 0.
fn size(value: i64) -> i64
    requires { unsigned_abs value < 2 ^ 62 }
    ensures { result ≡ pos (unsigned_abs value) }
{
    if value < 0 { -value } else { value }
}

/// How far each number is from 0.
pub fn sizes_of(alloc: Global, values: &[i64]) -> Result<Vec<i64>, OutOfMemory>
    requires { All (λ value. unsigned_abs value < 2 ^ 62) values.now }
    ensures { IfOk result (λ sizes. sizes.items
        ≡ map (λ value. pos (unsigned_abs value)) values.now) }
{
    let mut sizes = Vec::with_capacity(alloc, values.len())?;
    for value in values {
        sizes.push(size(*value))?;
    }
    Ok(sizes)
}

// Whether the number is negative.
fn is_negative(value: i64) -> bool
    ensures { result ≡ int_lt value (pos 0) }
{
    value < 0
}

/// Which numbers are negative.
pub fn negatives_of(alloc: Global, values: &[i64]) -> Result<Vec<bool>, OutOfMemory>
    ensures { IfOk result (λ flips. flips.items
        ≡ map (λ value. int_lt value (pos 0)) values.now) }
{
    let mut flips = Vec::with_capacity(alloc, values.len())?;
    for value in values {
        flips.push(is_negative(*value))?;
    }
    Ok(flips)
}

// The number, where it is negative.
fn below(value: i64) -> i64
    ensures { result ≡ int_min (pos 0) value }
{
    value.min(0)
}

// The sum of those that are negative.
fn below_of(values: &[i64]) -> i64
    requires { sum_by unsigned_abs values.now < 2 ^ 62 }
    ensures { result ≡ total (λ value. int_min (pos 0) value) values.now }
{
    let mut total = 0;
    for value in values {
        total = plus(total, below(*value));
    }
    total
}

// The sum of three numbers.
fn sum(a: i64, b: i64, c: i64) -> i64
    requires { unsigned_abs a + unsigned_abs b + unsigned_abs c < 2 ^ 62 }
    ensures { result ≡ (a +ℤ b) +ℤ c }
{
    a + b + c
}

/// What the columns of the box cost.
#[tactic(auto, using(crate::proofs::CostFacts::terms_there, crate::proofs::CostFacts::terms_small, crate::proofs::CostFacts::terms_few, crate::proofs::CostFacts::values_small))]
pub fn costs_of(
    alloc: Global,
    s: &Scenario,
    boxes: &Boxes,
    numbers: &Numbers<'_>,
    cost: &CostRow,
    count: usize,
) -> Result<Costs, OutOfMemory>
    requires cost { cost.now ≡ cost_row (parts_of s.now) }
    requires numbered { IsNumberedFor (parts_of s.now) boxes.now numbers.now }
    requires count { count ≡ length (columns_of (parts_of s.now) (box_of boxes.now)) }
    ensures { IfOk result (λ costs. HaveCosts (parts_of s.now) (box_of boxes.now)
        costs.values.items costs.constant) }
{
    let mut gathering = Gathering::empty(alloc);
    gathering.land(numbers, s, boxes, cost.terms())?;
    let values = values_of(alloc, gathering.entries(), count)?;
    let constant = sum(cost.constant(), gathering.fixed(), below_of(&values));
    Ok(Costs { values, constant })
}
