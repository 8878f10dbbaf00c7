//! A pivot.
ghost use Rattle.std.specs.Prelude.{◌≡◌, ◌<◌, ◌+◌, Err, IfErr, Ok, OnErr, OnOk, Some, int_lt, length, pos, set};
ghost use Rattle.scaled_simplex.specs.Tableau.{right_side};
ghost use Rattle.row_arena.specs.Arena.{combined, row_at};
ghost use Rattle.row_arena.specs.Rows.{entry_at, negated};
ghost use Rattle.scaled_simplex.specs.Board.{IsBasic};
ghost use Rattle.scaled_simplex.specs.BoardOf.{CanSweep, IsAlone, IsBoard, IsChosen, IsTodo, KeepsBoard, tableau_of};
ghost use Rattle.scaled_simplex.specs.Run.{pivoted, swept, swept_at};

use crate::board::Board;
use crate::listing::{list_row, list_rows, write_sorted};
use crate::program::Program;
use row_arena::{RowArena, Wide};

// Clears the row by the pivot row, if it has an entry at the index.
#[tactic(auto, using(crate::proofs::BoardFacts::index_small))]
fn sweep_row(
    board: &mut Board,
    program: &Program,
    row: u32,
    pivot: u32,
    index: u32,
) -> Result<(), Wide>
    requires board { IsBoard program.now board.old }
    requires can { CanSweep program.now pivot index board.old }
    requires row { row < length program.now.constraints }
    ensures ok { OnOk result (swept_at program.now board.old.arena.cells pivot index
        board.old.arena.rows row ≡ Ok board.new.arena.rows) }
    ensures board { OnOk result (IsBoard program.now board.new) }
    ensures wide { IfErr result (λ wide. swept_at program.now board.old.arena.cells pivot index
        board.old.arena.rows row ≡ Err wide) }
    ensures keeps { KeepsBoard program.now pivot board.old board.new }
{
    if row == pivot || board.arena.entry(row, index) == 0 {
        return Ok(());
    }
    board.arena.combine(row, pivot, index)?;
    list_row(&mut board.lists, &board.arena, program.rows(), row);
    let negative = is_negative(&board.arena, program, row);
    board.basis.put_sign(row, negative);
    Ok(())
}

/// Whether the row has a negative right side.
pub fn is_negative(arena: &RowArena, program: &Program, row: u32) -> bool
    requires { row < length arena.now.rows }
    ensures { result
        ≡ int_lt (entry_at (row_at arena.now.rows row) (right_side program.now)) (pos 0) }
{
    arena.entry(row, program.right_side()) < 0
}

// Clears the rows that are to be cleared.
fn sweep(board: &mut Board, program: &Program, pivot: u32, index: u32) -> Result<(), Wide>
    requires board { IsBoard program.now board.old }
    requires can { CanSweep program.now pivot index board.old }
    requires todo { IsTodo program.now index board.old.arena.rows board.old.todo.items }
    ensures ok { OnOk result (swept program.now board.old.arena.cells pivot index 0
        (length program.now.constraints) board.old.arena.rows ≡ Ok board.new.arena.rows) }
    ensures board { OnOk result (IsBoard program.now board.new) }
    ensures wide { IfErr result (λ wide. swept program.now board.old.arena.cells pivot index 0
        (length program.now.constraints + 1) board.old.arena.rows ≡ Err wide) }
    ensures keeps { KeepsBoard program.now pivot board.old board.new }
{
    for p in 0..board.todo.len() {
        let row = board.todo[p];
        sweep_row(board, program, row, pivot, index)?;
    }
    Ok(())
}

/// Makes the lists of rows anew, if they have become long.
pub fn renew_lists(board: &mut Board, program: &Program)
    requires board { IsBoard program.now board.old }
    ensures board { IsBoard program.now board.new }
    ensures arena { board.new.arena ≡ board.old.arena }
    ensures basis { board.new.basis ≡ board.old.basis }
{
    if board.lists.are_long() {
        list_rows(&mut board.lists, &board.arena, program.rows());
    }
}

// Finds the rows that may have an entry at the index.
#[tactic(auto, using(crate::proofs::TodoFacts::todo_told, crate::proofs::TodoFacts::index_listed))]
fn find_todo(board: &mut Board, program: &Program, index: u32)
    requires board { IsBoard program.now board.old }
    requires index { index < right_side program.now }
    ensures todo { IsTodo program.now index board.old.arena.rows board.new.todo.items }
    ensures board { IsBoard program.now board.new }
    ensures arena { board.new.arena ≡ board.old.arena }
    ensures basis { board.new.basis ≡ board.old.basis }
{
    write_sorted(&board.lists, index, &mut board.todo);
}

// The row that leaves is turned round, and stands for the index that enters.
#[tactic(auto, using(crate::proofs::BoardFacts::index_small, crate::proofs::TodoFacts::costs_after))]
fn turn_round(board: &mut Board, program: &Program, row: u32, index: u32)
    requires board { IsBoard program.now board.old }
    requires basic { IsBasic program.now (tableau_of board.old) }
    requires chosen { IsChosen program.now (tableau_of board.old) row index }
    requires row { row < length program.now.constraints }
    requires index { index < right_side program.now }
    requires todo { IsTodo program.now index board.old.arena.rows board.old.todo.items }
    ensures rows { board.new.arena.rows
        ≡ set board.old.arena.rows row (negated (row_at board.old.arena.rows row)) }
    ensures cells { board.new.arena.cells ≡ board.old.arena.cells }
    ensures basis { board.new.basis.index_of.items
        ≡ set board.old.basis.index_of.items row index }
    ensures board { IsBoard program.now board.new }
    ensures can { CanSweep program.now row index board.new }
    ensures todo { IsTodo program.now index board.new.arena.rows board.new.todo.items }
    ensures costs { row_at board.new.arena.rows (length program.now.constraints)
        ≡ row_at board.old.arena.rows (length program.now.constraints) }
{
    board.arena.negate(row);
    board.basis.put_sign(row, false);
    board.basis.enter(row, index);
}

// Clears the cost row by the pivot row, also where it has no entry at the index.
fn clear_costs(board: &mut Board, program: &Program, pivot: u32, index: u32) -> Result<(), Wide>
    requires board { IsBoard program.now board.old }
    requires can { CanSweep program.now pivot index board.old }
    ensures ok { OnOk result (combined board.old.arena.cells board.old.arena.rows
        (length program.now.constraints) pivot index ≡ Ok board.new.arena.rows) }
    ensures board { IsBoard program.now board.new }
    ensures wide { IfErr result (λ wide. combined board.old.arena.cells board.old.arena.rows
        (length program.now.constraints) pivot index ≡ Err wide) }
    ensures err { OnErr result (board.new.arena.rows ≡ board.old.arena.rows) }
    ensures count { length board.new.arena.rows ≡ length board.old.arena.rows }
    ensures cells { board.new.arena.cells ≡ board.old.arena.cells }
    ensures basis { board.new.basis ≡ board.old.basis }
{
    board.arena.combine(program.rows(), pivot, index)
}

// Clears all other rows by the pivot row, and last the cost row.
fn clear_others(board: &mut Board, program: &Program, pivot: u32, index: u32) -> Result<(), Wide>
    requires board { IsBoard program.now board.old }
    requires can { CanSweep program.now pivot index board.old }
    requires todo { IsTodo program.now index board.old.arena.rows board.old.todo.items }
    ensures ok { OnOk result (swept program.now board.old.arena.cells pivot index 0
        (length program.now.constraints + 1) board.old.arena.rows ≡ Ok board.new.arena.rows) }
    ensures board { OnOk result (IsBoard program.now board.new) }
    ensures wide { IfErr result (λ wide. swept program.now board.old.arena.cells pivot index 0
        (length program.now.constraints + 1) board.old.arena.rows ≡ Err wide) }
    ensures costs { OnErr result (row_at board.new.arena.rows (length program.now.constraints)
        ≡ row_at board.old.arena.rows (length program.now.constraints)) }
    ensures count { length board.new.arena.rows ≡ length board.old.arena.rows }
    ensures cells { board.new.arena.cells ≡ board.old.arena.cells }
    ensures index_of { board.new.basis.index_of.items ≡ board.old.basis.index_of.items }
{
    sweep(board, program, pivot, index)?;
    clear_costs(board, program, pivot, index)?;
    Ok(())
}

// Leaves the list of the index the one row that has an entry there.
fn leave_row(board: &mut Board, program: &Program, row: u32, index: u32)
    requires board { IsBoard program.now board.old }
    requires row { row < length program.now.constraints }
    requires index { index < right_side program.now }
    requires alone { IsAlone program.now board.old.arena.rows row index }
    ensures board { IsBoard program.now board.new }
    ensures arena { board.new.arena ≡ board.old.arena }
    ensures basis { board.new.basis ≡ board.old.basis }
{
    if board.lists.left() == 0 {
        list_rows(&mut board.lists, &board.arena, program.rows());
    } else {
        board.lists.leave(index, row);
    }
}

/// Turns the row that leaves round and lets it stand for the index that enters, and clears all
/// others there. Where a number or the number of entries passes what there is room for, the cost
/// row is as before.
#[tactic(auto, using(crate::proofs::TodoFacts::alone_after))]
pub fn pivot(board: &mut Board, program: &Program, row: u32, index: u32) -> Result<(), Wide>
    requires board { IsBoard program.now board.old }
    requires basic { IsBasic program.now (tableau_of board.old) }
    requires chosen { IsChosen program.now (tableau_of board.old) row index }
    ensures ok { OnOk result (pivoted program.now board.old.arena.cells (tableau_of board.old) row
        index ≡ Ok board.new.arena.rows) }
    ensures basis { OnOk result (board.new.basis.index_of.items
        ≡ set board.old.basis.index_of.items row index) }
    ensures board { OnOk result (IsBoard program.now board.new) }
    ensures wide { IfErr result (λ wide. pivoted program.now board.old.arena.cells
        (tableau_of board.old) row index ≡ Err wide) }
    ensures cells { board.new.arena.cells ≡ board.old.arena.cells }
    ensures count { length board.new.arena.rows ≡ length board.old.arena.rows }
    ensures costs { OnErr result (row_at board.new.arena.rows (length program.now.constraints)
        ≡ row_at board.old.arena.rows (length program.now.constraints)) }
{
    find_todo(board, program, index);
    turn_round(board, program, row, index);
    clear_others(board, program, row, index)?;
    leave_row(board, program, row, index);
    Ok(())
}
