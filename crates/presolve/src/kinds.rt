//! The rows of all names: those of the day, kind by kind and part by part, and those of the cuts.
ghost use Rattle.std.specs.Prelude.{◌≡◌, ◌≤◌, ◌+◌, IfErr, OnOk, length, sum_by};
ghost use Rattle.bytime_model.specs.AllRows.{kind_rows, kinds_rows};
ghost use Rattle.cut_rows.specs.Pools.{cut_names, rows_with};
ghost use Rattle.presolve.specs.Counting.{IfWide, IsPast, row_entries};
ghost use Rattle.presolve.specs.Frames.{IsFramed, box_in, parts_in, pool_in};
ghost use Rattle.presolve.specs.Listing.{AddsNames};
ghost use Rattle.presolve.specs.Variables.{columns_of};
ghost use Rattle.scaled_simplex.specs.Program.{columns, most_indices};

use crate::frame::{Frame, Room};
use crate::rows::{ProgramDraft, add_rows};
use crate::tally::Refused;
use bytime_model::{RowKind, part_count, part_rows, row_kinds};
use cut_rows::cut_names;
use std::alloc::Global;

// Adds the rows of this kind that values of the columns may exceed. The names of one flight, place
// or connection are there at a time, since most windows are so narrow that few rows are kept.
#[tactic(auto, using(crate::proofs::NamesFacts::adds_none, crate::proofs::NamesFacts::adds_columns, crate::proofs::NamesFacts::part_are))]
fn add_kind(
    draft: &mut ProgramDraft,
    alloc: Global,
    room: &mut Room,
    frame: &Frame<'_>,
    kind: RowKind,
) -> Result<(), Refused>
    requires framed { IsFramed frame.now }
    requires columns { columns draft.old.program
        ≡ length (columns_of (parts_in frame.now) (box_in frame.now)) }
    requires few { columns draft.old.program + length draft.old.program.constraints
        + length (kind_rows (parts_in frame.now) kind) ≤ most_indices }
    ensures adds { OnOk result (AddsNames (parts_in frame.now) (pool_in frame.now)
        (box_in frame.now) (kind_rows (parts_in frame.now) kind) draft.old draft.new) }
    ensures wide { IfErr result (λ refused. IfWide refused (IsPast draft.old.tally.cells
        (draft.old.tally.entries
        + sum_by (row_entries (parts_in frame.now) (pool_in frame.now) (box_in frame.now))
        (kind_rows (parts_in frame.now) kind)))) }
{
    let s = frame.relaxation.problem.s;
    for position in 0..part_count(s, kind) {
        let names = part_rows(alloc, s, kind, position)?;
        add_rows(draft, alloc, room, frame, names.items())?;
    }
    Ok(())
}

// Adds those of these kinds, one after the other.
#[tactic(auto, using(crate::proofs::NamesFacts::adds_none, crate::proofs::NamesFacts::adds_columns))]
fn add_kinds(
    draft: &mut ProgramDraft,
    alloc: Global,
    room: &mut Room,
    frame: &Frame<'_>,
    kinds: &[RowKind],
) -> Result<(), Refused>
    requires framed { IsFramed frame.now }
    requires columns { columns draft.old.program
        ≡ length (columns_of (parts_in frame.now) (box_in frame.now)) }
    requires few { columns draft.old.program + length draft.old.program.constraints
        + length (kinds_rows (parts_in frame.now) kinds.now) ≤ most_indices }
    ensures adds { OnOk result (AddsNames (parts_in frame.now) (pool_in frame.now)
        (box_in frame.now) (kinds_rows (parts_in frame.now) kinds.now) draft.old draft.new) }
    ensures wide { IfErr result (λ refused. IfWide refused (IsPast draft.old.tally.cells
        (draft.old.tally.entries
        + sum_by (row_entries (parts_in frame.now) (pool_in frame.now) (box_in frame.now))
        (kinds_rows (parts_in frame.now) kinds.now)))) }
{
    for kind in kinds {
        add_kind(draft, alloc, room, frame, *kind)?;
    }
    Ok(())
}

// Adds those of the cuts of the pool.
#[tactic(auto, using(crate::proofs::PoolFacts::cuts_few, crate::proofs::PoolFacts::names_there))]
fn add_cuts(
    draft: &mut ProgramDraft,
    alloc: Global,
    room: &mut Room,
    frame: &Frame<'_>,
) -> Result<(), Refused>
    requires framed { IsFramed frame.now }
    requires columns { columns draft.old.program
        ≡ length (columns_of (parts_in frame.now) (box_in frame.now)) }
    requires few { columns draft.old.program + length draft.old.program.constraints
        + length (cut_names (pool_in frame.now)) ≤ most_indices }
    ensures adds { OnOk result (AddsNames (parts_in frame.now) (pool_in frame.now)
        (box_in frame.now) (cut_names (pool_in frame.now)) draft.old draft.new) }
    ensures wide { IfErr result (λ refused. IfWide refused (IsPast draft.old.tally.cells
        (draft.old.tally.entries
        + sum_by (row_entries (parts_in frame.now) (pool_in frame.now) (box_in frame.now))
        (cut_names (pool_in frame.now))))) }
{
    let cuts = cut_names(alloc, frame.relaxation.pool)?;
    add_rows(draft, alloc, room, frame, cuts.items())
}

/// Adds the rows that values of the columns may exceed: those of the day, and after them those of
/// the pool's cuts. While it runs it takes a `Room`, and 12 bytes for each name of one flight and
/// kind, one place or one connection at a time, and then for each cut, or up to twice that.
#[tactic(auto, using(crate::proofs::NamesFacts::day_room, crate::proofs::NamesFacts::day_wide, crate::proofs::NamesFacts::cuts_room, crate::proofs::NamesFacts::cuts_wide, crate::proofs::NamesFacts::adds_all, crate::proofs::NamesFacts::adds_columns))]
pub fn add_all_names(
    draft: &mut ProgramDraft,
    alloc: Global,
    frame: &Frame<'_>,
) -> Result<(), Refused>
    requires framed { IsFramed frame.now }
    requires columns { columns draft.old.program
        ≡ length (columns_of (parts_in frame.now) (box_in frame.now)) }
    requires few { columns draft.old.program + length draft.old.program.constraints
        + length (rows_with (parts_in frame.now) (pool_in frame.now)) ≤ most_indices }
    ensures adds { OnOk result (AddsNames (parts_in frame.now) (pool_in frame.now)
        (box_in frame.now) (rows_with (parts_in frame.now) (pool_in frame.now)) draft.old
        draft.new) }
    ensures wide { IfErr result (λ refused. IfWide refused (IsPast draft.old.tally.cells
        (draft.old.tally.entries
        + sum_by (row_entries (parts_in frame.now) (pool_in frame.now) (box_in frame.now))
        (rows_with (parts_in frame.now) (pool_in frame.now))))) }
{
    let mut room = Room::new(alloc)?;
    let kinds = row_kinds();
    add_kinds(draft, alloc, &mut room, frame, &kinds)?;
    add_cuts(draft, alloc, &mut room, frame)?;
    Ok(())
}
