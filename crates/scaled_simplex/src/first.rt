//! The first tableau.
ghost use Rattle.std.specs.Prelude.{◌≡◌, ◌<◌, ◌≤◌, ◌+◌, ◌++◌, [], IfErr, IfOk, OnOk, length, nat_abs, neg_ℤ, pos, slice_index_or, vec_capacity};
ghost use Rattle.std.specs.List.{range_with_len};
ghost use Rattle.row_arena.specs.Arena.{live};
ghost use Rattle.row_arena.specs.Rows.{most_entry, negated_entry, row_from, unless_zero};
ghost use Rattle.scaled_simplex.specs.Board.{AreFound, AreListed};
ghost use Rattle.scaled_simplex.specs.BoardOf.{IsBoard, tableau_of};
ghost use Rattle.scaled_simplex.specs.Program.{IsProblem, columns};
ghost use Rattle.scaled_simplex.specs.Refusals.{IfWide};
ghost use Rattle.scaled_simplex.specs.Tableau.{constraint_row, constraint_rows, cost_row, first_tableau, right_side};

use crate::basis::Basis;
use crate::board::Board;
use crate::listing::list_rows;
use crate::lists::RowLists;
use crate::pivots::is_negative;
use crate::program::{Constraint, Program};
use crate::refused::Refused;
use flow_types::OutOfMemory;
use row_arena::{Entry, RowArena};
use std::alloc::Global;

/// The first tableau of the program, in room for so many entries. `Refused::Wide` comes exactly
/// where its rows have more.
#[tactic(auto, using(crate::proofs::FirstBoardFacts::first_count))]
pub fn first_board(alloc: Global, program: &Program, cells: u32) -> Result<Board, Refused>
    ensures valid { IsProblem program.now }
    ensures tableau { IfOk result (λ board. tableau_of board ≡ first_tableau program.now) }
    ensures board { IfOk result (IsBoard program.now) }
    ensures cells { IfOk result (λ board. board.arena.cells ≡ cells) }
    ensures room { IfOk result (λ _. live (first_tableau program.now).rows ≤ cells) }
    ensures wide { IfErr result (λ refused. IfWide refused (λ _.
        cells < live (first_tableau program.now).rows)) }
{
    let arena = first_rows(alloc, program, cells)?;
    let basis = first_basis(alloc, program, &arena)?;
    let room = room_of(cells);
    let lists = first_lists(alloc, program, &arena, room)?;
    let todo = room_for(alloc, room)?;
    Ok(Board {
        arena,
        basis,
        lists,
        todo,
    })
}

// For how many rows the lists have room: half as many again as there may be entries, so that there
// is room for many more before they have to be made anew.
fn room_of(cells: u32) -> u32
    ensures { cells ≤ result }
{
    cells.saturating_add(cells / 2)
}

// Room for so many rows.
fn room_for(alloc: Global, count: u32) -> Result<Vec<u32>, OutOfMemory>
    ensures { IfOk result (λ rows. count ≤ vec_capacity rows) }
{
    Ok(Vec::with_capacity(alloc, count as usize)?)
}

// The lists of the constraints' rows.
fn first_lists(
    alloc: Global,
    program: &Program,
    arena: &RowArena,
    room: u32,
) -> Result<RowLists, OutOfMemory>
    requires rows { length program.now.constraints ≤ length arena.now.rows }
    requires room { arena.now.cells ≤ room }
    ensures listed { IfOk result (λ lists. AreListed arena.now.rows
        (length program.now.constraints) (right_side program.now) lists.rows) }
    ensures room { IfOk result (λ lists. lists.room ≡ room) }
{
    let mut lists = RowLists::new(alloc, program.right_side() as usize, room)?;
    list_rows(&mut lists, arena, program.rows());
    Ok(lists)
}

// The rows of the constraints, and after them the cost row.
#[tactic(auto, using(crate::proofs::FirstBoardFacts::all_count, crate::proofs::FirstBoardFacts::cost_is_row))]
fn first_rows(alloc: Global, program: &Program, cells: u32) -> Result<RowArena, Refused>
    ensures valid { IsProblem program.now }
    ensures rows { IfOk result (λ arena. arena.rows ≡ (first_tableau program.now).rows) }
    ensures cells { IfOk result (λ arena. arena.cells ≡ cells) }
    ensures wide { IfErr result (λ refused. IfWide refused (λ _.
        cells < live (first_tableau program.now).rows)) }
{
    let mut arena = RowArena::new(alloc, program.rows() + 1, cells)?;
    let mut row = Vec::new(alloc);
    push_constraints(&mut arena, &mut row, program)?;
    write_costs(&mut row, program)?;
    arena.push_row(&row)?;
    Ok(arena)
}

// Pushes the row of each constraint.
fn push_constraints(
    arena: &mut RowArena,
    row: &mut Vec<Entry>,
    program: &Program,
) -> Result<(), Refused>
    requires valid { IsProblem program.now }
    requires none { arena.old.rows ≡ [] }
    requires places { arena.old.most_rows ≡ length program.now.constraints + 1 }
    ensures rows { OnOk result (arena.new.rows
        ≡ constraint_rows program.now 0 program.now.constraints) }
    ensures places { arena.new.most_rows ≡ arena.old.most_rows }
    ensures cells { arena.new.cells ≡ arena.old.cells }
    ensures wide { IfErr result (λ refused. IfWide refused (λ _.
        arena.old.cells < live (constraint_rows program.now 0 program.now.constraints))) }
{
    for k in 0..program.rows() {
        write_constraint(row, program, k, &program.constraints()[k as usize])?;
        arena.push_row(row)?;
    }
    Ok(())
}

// Writes the row of a constraint: its terms, what is left of its limit, and the limit.
fn write_constraint(
    row: &mut Vec<Entry>,
    program: &Program,
    k: u32,
    constraint: &Constraint,
) -> Result<(), OutOfMemory>
    requires { k < length program.now.constraints }
    ensures { OnOk result (row.new.items ≡ constraint_row program.now k constraint.now) }
{
    let right_side = program.right_side();
    row.clear();
    row.extend_from_slice(constraint.terms())?;
    row.push(Entry {
        column: program.columns() + k,
        value: 1,
    })?;
    push_unless_zero(
        row,
        Entry {
            column: right_side,
            value: constraint.limit(),
        },
    )
}

// Writes the cost row: what each column costs, what is paid without them, and the weight.
fn write_costs(row: &mut Vec<Entry>, program: &Program) -> Result<(), OutOfMemory>
    requires valid { IsProblem program.now }
    ensures { OnOk result (row.new.items ≡ cost_row program.now) }
{
    row.clear();
    push_costs(row, program)?;
    push_unless_zero(
        row,
        Entry {
            column: program.right_side(),
            value: program.constant(),
        },
    )?;
    row.push(Entry {
        column: program.weight_index(),
        value: 1,
    })?;
    Ok(())
}

// Pushes for each column what it costs, with its sign turned.
#[tactic(auto, using(crate::proofs::FirstBoardFacts::cost_near, exact_sums::proofs::LoopFacts::numbers_all))]
fn push_costs(row: &mut Vec<Entry>, program: &Program) -> Result<(), OutOfMemory>
    requires valid { IsProblem program.now }
    requires none { row.old.items ≡ [] }
    ensures { OnOk result (row.new.items
        ≡ row_from (λ column. neg_ℤ (slice_index_or program.now.costs column (pos 0))) 0
        (columns program.now)) }
{
    for column in 0..program.columns() {
        push_unless_zero(row, turned(cost_of(program, column)))?;
    }
    Ok(())
}

// What a column costs, at its index.
fn cost_of(program: &Program, column: u32) -> Entry
    requires { column < columns program.now }
    ensures { result
        ≡ record { column = column; value = slice_index_or program.now.costs column (pos 0) } }
{
    Entry {
        column,
        value: program.costs()[column as usize],
    }
}

// The entry with its sign turned.
fn turned(entry: Entry) -> Entry
    requires { nat_abs entry.value ≤ most_entry }
    ensures { result ≡ negated_entry entry }
{
    Entry {
        column: entry.column,
        value: -entry.value,
    }
}

// Pushes the entry, unless it is 0.
fn push_unless_zero(row: &mut Vec<Entry>, entry: Entry) -> Result<(), OutOfMemory>
    ensures { OnOk result (row.new.items
        ≡ row.old.items ++ unless_zero entry.column entry.value) }
{
    if entry.value != 0 {
        row.push(entry)?;
    }
    Ok(())
}

// Each row stands for what it leaves of its limit, and it is said which ones have a negative right
// side.
#[tactic(auto, using(crate::proofs::FirstBoardFacts::signed_none, crate::proofs::FirstBoardFacts::signed_more))]
fn first_basis(alloc: Global, program: &Program, arena: &RowArena) -> Result<Basis, OutOfMemory>
    requires { length program.now.constraints < length arena.now.rows }
    ensures index_of { IfOk result (λ basis. basis.index_of.items
        ≡ range_with_len (columns program.now) (length program.now.constraints)) }
    ensures found { IfOk result (λ basis. AreFound program.now
        (record { rows = arena.now.rows; basis = basis.index_of.items }) basis.row_of.items
        basis.negative) }
{
    let mut basis = Basis::new(alloc, program.columns(), program.rows())?;
    for row in 0..program.rows() {
        basis.put_sign(row, is_negative(arena, program, row));
    }
    Ok(basis)
}
