//! The point of a run that ended Optimal, in numbers.
ghost use Rattle.std.specs.Prelude.{◌≡◌, ◌<◌, ◌≤◌, ◌<ℤ◌, ◌+◌, ◌^◌, IfOk, IfErr, Some, length, nat_abs, pos, slice_index};
ghost use Rattle.row_arena.specs.Arena.{row_at};
ghost use Rattle.row_arena.specs.Rows.{entry_at, most_entry};
ghost use Rattle.scaled_simplex.specs.BoardOf.{IsBoard, tableau_of};
ghost use Rattle.scaled_simplex.specs.Derived.{IsLast};
ghost use Rattle.scaled_simplex.specs.Fractions.{AreFractions, AreNumerators, AreTooWide, IsMultiple, bottom_at, row_of_column, top_at};
ghost use Rattle.scaled_simplex.specs.Program.{columns};
ghost use Rattle.scaled_simplex.specs.Run.{right_at};
ghost use Rattle.scaled_simplex.specs.declared.fractions.Fractions.TheVariants.{TooWide};

use crate::board::Board;
use crate::multiples::{Quotient, multiple_with, numerator_over};
use crate::program::Program;
use flow_types::{OutOfMemory, Sequence};
use row_arena::MOST_ENTRY;
use std::alloc::Global;

/// The values of the columns after a run that ended Optimal.
#[derive(Debug, Drop)]
pub enum Fractions {
    /// A numerator for each column, over one denominator: the least common multiple of the columns'
    /// denominators in lowest terms. It is above 0 and at most `MOST_ENTRY`.
    Point {
        numerators: Numerators,
        denominator: i128,
    },
    /// That multiple passes `MOST_ENTRY`. So many of the first columns are the fewest of which it
    /// does, and this is the multiple of these. It is below 2^124.
    TooWide {
        columns: u32,
        multiple: i128,
    },
}

/// A list of numerators.
pub type Numerators = Sequence<i128>;

// So many of the first columns are the fewest whose multiple is too far from 0.
#[derive(Clone, Copy)]
struct Passed {
    columns: u32,
    multiple: u128,
}

/// The point of the last tableau. It takes 16 bytes for each column.
pub fn fractions_of(
    alloc: Global,
    board: &Board,
    program: &Program,
) -> Result<Fractions, OutOfMemory>
    requires { IsLast program.now board.now }
    ensures { IfOk result (AreFractions program.now (tableau_of board.now)) }
{
    match common_denominator(board, program) {
        Ok(denominator) => point_over(alloc, board, program, denominator),
        Err(passed) => Ok(too_wide(passed)),
    }
}

// The point, where the multiple isn't too far from 0.
fn point_over(
    alloc: Global,
    board: &Board,
    program: &Program,
    denominator: u64,
) -> Result<Fractions, OutOfMemory>
    requires last { IsLast program.now board.now }
    requires near { denominator ≤ most_entry }
    requires multiple { IsMultiple program.now (tableau_of board.now) (columns program.now)
        denominator }
    ensures { IfOk result (AreFractions program.now (tableau_of board.now)) }
{
    let numerators = numerators_over(alloc, board, program, denominator)?;
    Ok(Fractions::Point {
        numerators: Sequence::from_vec(numerators),
        denominator: denominator as i128,
    })
}

// That there is no point in numbers, since the multiple is too far from 0.
fn too_wide(passed: Passed) -> Fractions
    requires { passed.multiple < 2 ^ 124 }
    ensures { result ≡ TooWide passed.columns (pos passed.multiple) }
{
    Fractions::TooWide {
        columns: passed.columns,
        multiple: passed.multiple as i128,
    }
}

// The least number by which the values of all columns are whole.
fn common_denominator(board: &Board, program: &Program) -> Result<u64, Passed>
    requires { IsLast program.now board.now }
    ensures near { IfOk result (λ denominator. denominator ≤ most_entry) }
    ensures multiple { IfOk result (IsMultiple program.now (tableau_of board.now)
        (columns program.now)) }
    ensures passed { IfErr result (λ passed. AreTooWide program.now (tableau_of board.now)
        passed.columns (pos passed.multiple)) }
{
    let mut denominator: u64 = 1;
    for column in 0..program.columns() {
        let value = quotient_at(board, program, column);
        let multiple = multiple_with(denominator, value);
        if multiple > MOST_ENTRY as u128 {
            return Err(Passed {
                columns: column + 1,
                multiple,
            });
        }
        denominator = multiple as u64;
    }
    Ok(denominator)
}

// A numerator for each column.
fn numerators_over(
    alloc: Global,
    board: &Board,
    program: &Program,
    denominator: u64,
) -> Result<Vec<i128>, OutOfMemory>
    requires last { IsLast program.now board.now }
    requires near { denominator ≤ most_entry }
    requires multiple { IsMultiple program.now (tableau_of board.now) (columns program.now)
        denominator }
    ensures count { IfOk result (λ numerators. length numerators.items ≡ columns program.now) }
    ensures each { IfOk result (λ numerators. AreNumerators program.now (tableau_of board.now)
        (pos denominator) numerators.items) }
{
    let mut numerators = Vec::with_capacity(alloc, program.columns() as usize)?;
    for column in 0..program.columns() {
        let value = quotient_at(board, program, column);
        numerators.push(numerator_over(denominator, value))?;
    }
    Ok(numerators)
}

// The value of a column.
fn quotient_at(board: &Board, program: &Program, column: u32) -> Quotient
    requires last { IsLast program.now board.now }
    requires within { column < columns program.now }
    ensures top { result.top ≡ nat_abs (top_at program.now (tableau_of board.now) column) }
    ensures bottom { result.bottom
        ≡ nat_abs (bottom_at program.now (tableau_of board.now) column) }
{
    match row_for(board, program, column) {
        None => Quotient { top: 0, bottom: 1 },
        Some(row) => quotient_in(board, program, row, column),
    }
}

// The quotient of a column which this row stands for.
fn quotient_in(board: &Board, program: &Program, row: u32, column: u32) -> Quotient
    requires board { IsBoard program.now board.now }
    requires row { row < length program.now.constraints }
    requires above { pos 0 <ℤ entry_at (row_at board.now.arena.rows row) column }
    ensures top { result.top ≡ nat_abs (right_at program.now (tableau_of board.now) row) }
    ensures bottom { result.bottom ≡ nat_abs (entry_at (row_at board.now.arena.rows row) column) }
{
    Quotient {
        top: board.arena.entry(row, program.right_side()).unsigned_abs(),
        bottom: board.arena.entry(row, column).unsigned_abs(),
    }
}

// The row that stands for a column, where one does.
fn row_for(board: &Board, program: &Program, column: u32) -> Option<u32>
    requires board { IsBoard program.now board.now }
    requires within { column < columns program.now }
    ensures { result ≡ row_of_column program.now (tableau_of board.now) column }
{
    let row = board.basis.row_of[column as usize];
    if row < program.rows() && board.basis.index_of[row as usize] == column {
        Some(row)
    } else {
        None
    }
}
