//! The rows of the program.
ghost use Rattle.std.specs.Prelude.{◌≡◌, ◌<◌, ◌≤◌, ◌+◌, ◌^◌, ◌-ℤ◌, ◌∷◌, [], All, IfErr, IfOk, OnOk, length, map, sum_by, true, unsigned_abs};
ghost use Rattle.std.specs.List.{range_with_len};
ghost use Rattle.cut_rows.specs.Pools.{is_row_with};
ghost use Rattle.presolve.specs.Counting.{IfWide, IsCounted, IsPast, row_entries};
ghost use Rattle.presolve.specs.Frames.{IsFramed, box_in, parts_in, pool_in};
ghost use Rattle.presolve.specs.Gathering.{size_of};
ghost use Rattle.presolve.specs.Listing.{AddsNames, AddsRow, IsLandedRow, most_size, with_rows};
ghost use Rattle.presolve.specs.Relaxed.{at_most_one, flipped_row};
ghost use Rattle.presolve.specs.Variables.{columns_of};
ghost use Rattle.row_arena.specs.Rows.{IsRow};
ghost use Rattle.scaled_simplex.specs.Program.{columns, most_indices};

use crate::flips::{flipped_sum, greatest};
use crate::frame::{Frame, Room};
use crate::gather::Gathering;
use crate::tally::{Refused, Tally};
use bytime_model::{RowName, RowNames};
use cut_rows::{Relaxation, fill_row};
use flow_types::OutOfMemory;
use row_arena::Entry;
use scaled_simplex::Program;
use std::alloc::Global;
use time_windows::Subproblem;

// A limit, less what is taken from it.
fn less(limit: i64, taken: i64) -> i64
    requires { unsigned_abs limit + unsigned_abs taken < 2 ^ 62 }
    ensures { result ≡ limit -ℤ taken }
{
    limit - taken
}

// Lands the row of this name, and gives its limit.
#[tactic(auto, using(crate::proofs::RowFacts::row_there_at, crate::proofs::RowFacts::factors_small, crate::proofs::RowFacts::few_landed, crate::proofs::RowFacts::limit_near, crate::proofs::RowFacts::landed))]
fn land_row(room: &mut Room, frame: &Frame<'_>, name: RowName) -> Result<i64, OutOfMemory>
    requires framed { IsFramed frame.now }
    requires row { is_row_with (parts_in frame.now) (pool_in frame.now) name ≡ true }
    ensures { IfOk result (IsLandedRow (parts_in frame.now) (pool_in frame.now) (box_in frame.now)
        name room.new.gathering.entries) }
{
    let Relaxation {
        problem,
        table,
        pool,
    } = frame.relaxation;
    let Subproblem { s, boxes } = problem;
    fill_row(&mut room.buffer, s, table, pool, name);
    room.gathering
        .land(&frame.numbers, s, boxes, room.buffer.terms())?;
    Ok(less(room.buffer.limit(), room.gathering.fixed()))
}

// Adds the row that has landed, with flipped columns rewritten.
fn add_landed(
    program: &mut Program,
    alloc: Global,
    row: &mut Gathering,
    flips: &[bool],
    limit: i64,
) -> Result<(), OutOfMemory>
    requires row { IsRow row.old.entries }
    requires within { All (λ entry. entry.column < columns program.old) row.old.entries }
    requires flips { length flips.now ≡ columns program.old }
    requires size { size_of row.old.entries ≤ most_size }
    requires near { unsigned_abs limit ≤ most_size }
    requires few { columns program.old + length program.old.constraints < most_indices }
    ensures { OnOk result (program.new ≡ with_rows program.old (flipped_row flips.now
        (record { terms = row.old.entries; limit = limit }) ∷ [])) }
{
    let limit = less(limit, flipped_sum(flips, row.entries()));
    row.flip(flips);
    program.add_row(alloc, row.entries(), limit)?;
    Ok(())
}

/// A program while its rows are added, their names, and how many entries its tableau has.
#[derive(Debug, Drop)]
pub struct ProgramDraft {
    pub program: Program,
    pub kept: RowNames,
    pub tally: Tally,
}

// Adds the row of this name, if values of the columns may exceed it.
#[tactic(auto, using(crate::proofs::RowFacts::landed_row_is, crate::proofs::RowFacts::landed_within, crate::proofs::RowFacts::adds_kept, crate::proofs::RowFacts::adds_none, crate::proofs::RowFacts::greatest_room, crate::proofs::CountFacts::row_counted, crate::proofs::CountFacts::row_uncounted, crate::proofs::CountFacts::row_wide))]
fn add_row(
    draft: &mut ProgramDraft,
    alloc: Global,
    room: &mut Room,
    frame: &Frame<'_>,
    name: RowName,
) -> Result<(), Refused>
    requires framed { IsFramed frame.now }
    requires row { is_row_with (parts_in frame.now) (pool_in frame.now) name ≡ true }
    requires columns { columns draft.old.program
        ≡ length (columns_of (parts_in frame.now) (box_in frame.now)) }
    requires few { columns draft.old.program + length draft.old.program.constraints
        < most_indices }
    ensures row { OnOk result (AddsRow (parts_in frame.now) (pool_in frame.now) (box_in frame.now)
        name draft.old.program draft.new.program draft.old.kept draft.new.kept) }
    ensures counted { OnOk result (IsCounted
        (row_entries (parts_in frame.now) (pool_in frame.now) (box_in frame.now) name)
        draft.old.tally draft.new.tally) }
    ensures wide { IfErr result (λ refused. IfWide refused (IsPast draft.old.tally.cells
        (draft.old.tally.entries
        + row_entries (parts_in frame.now) (pool_in frame.now) (box_in frame.now) name))) }
{
    let limit = land_row(room, frame, name)?;
    if limit < greatest(room.gathering.entries()) {
        draft.tally.add(room.gathering.entries().len() + 1, 1)?;
        add_landed(
            &mut draft.program,
            alloc,
            &mut room.gathering,
            &frame.flips,
            limit,
        )?;
        draft.kept.add(name)?;
    }
    Ok(())
}

/// Adds the rows of these names that values of the columns may exceed.
#[tactic(auto, using(crate::proofs::RowFacts::rows_none, crate::proofs::RowFacts::rows_room, crate::proofs::RowFacts::rows_columns))]
pub fn add_rows(
    draft: &mut ProgramDraft,
    alloc: Global,
    room: &mut Room,
    frame: &Frame<'_>,
    names: &[RowName],
) -> Result<(), Refused>
    requires framed { IsFramed frame.now }
    requires rows { All (λ name. is_row_with (parts_in frame.now) (pool_in frame.now) name ≡ true)
        names.now }
    requires columns { columns draft.old.program
        ≡ length (columns_of (parts_in frame.now) (box_in frame.now)) }
    requires few { columns draft.old.program + length draft.old.program.constraints
        + length names.now ≤ most_indices }
    ensures adds { OnOk result (AddsNames (parts_in frame.now) (pool_in frame.now)
        (box_in frame.now) names.now draft.old draft.new) }
    ensures wide { IfErr result (λ refused. IfWide refused (IsPast draft.old.tally.cells
        (draft.old.tally.entries
        + sum_by (row_entries (parts_in frame.now) (pool_in frame.now) (box_in frame.now))
        names.now))) }
{
    for name in names {
        add_row(draft, alloc, room, frame, *name)?;
    }
    Ok(())
}

// Adds that the column is at most 1.
#[tactic(auto, using(crate::proofs::RowFacts::one_constraint))]
fn add_one(program: &mut Program, alloc: Global, column: u32) -> Result<(), OutOfMemory>
    requires within { column < columns program.old }
    requires few { columns program.old + length program.old.constraints < most_indices }
    ensures { OnOk result (program.new ≡ with_rows program.old (at_most_one column ∷ [])) }
{
    program.add_row(alloc, &[Entry { column, value: 1 }], 1)?;
    Ok(())
}

/// Adds that each column is at most 1.
#[tactic(auto, using(crate::proofs::RowFacts::ones_none, crate::proofs::RowFacts::ones_room, crate::proofs::RowFacts::ones_within))]
pub fn add_ones(program: &mut Program, alloc: Global, count: usize) -> Result<(), OutOfMemory>
    requires count { count ≡ columns program.old }
    requires few { columns program.old + length program.old.constraints + count ≤ most_indices }
    ensures { OnOk result (program.new ≡ with_rows program.old
        (map at_most_one (range_with_len 0 count))) }
{
    for column in 0..count {
        add_one(program, alloc, column as u32)?;
    }
    Ok(())
}
