//! Rows that are added to the lists of their indices.
ghost use Rattle.std.specs.Prelude.{◌≡◌, ◌⊎◌, ◌<◌, ◌≤◌, ◌+◌, ◌∷◌, [], get_or, length, map, vec_capacity};
ghost use Rattle.row_arena.specs.Rows.{IsRow};
ghost use Rattle.scaled_simplex.specs.Board.{AreAdded, AreListed, AreSorted, column_of};

use crate::lists::RowLists;
use row_arena::{Entry, RowArena};

/// Makes the lists anew, of the first so many rows.
#[tactic(auto, using(crate::proofs::ListedFacts::none_listed))]
pub fn list_rows(lists: &mut RowLists, arena: &RowArena, rows: u32)
    requires rows { rows ≤ length arena.now.rows }
    requires room { arena.now.cells ≤ lists.old.room }
    ensures listed { AreListed arena.now.rows rows (length lists.old.rows) lists.new.rows }
    ensures room { lists.new.room ≡ lists.old.room }
{
    lists.empty(arena.live());
    for row in 0..rows {
        add_entries(lists, row, arena.row(row));
    }
}

// Adds the row to the lists of its entries.
#[tactic(auto, using(crate::proofs::ListedFacts::none_added, crate::proofs::ListedFacts::added_entries))]
fn add_entries(lists: &mut RowLists, row: u32, entries: &[Entry])
    requires room { lists.old.count + length entries.now ≤ lists.old.room }
    ensures added { AreAdded row (map column_of entries.now) lists.old.rows lists.new.rows }
    ensures count { lists.new.count ≤ lists.old.count + length entries.now }
    ensures room { lists.new.room ≡ lists.old.room }
{
    for k in 0..entries.len() {
        add_within(lists, row, entries[k].column);
    }
}

/// Lists the row that was combined last: it is added to the lists of the indices at which that gave
/// it an entry, as far as they have one. Where there is no room for that, the lists are made anew,
/// of the first so many rows.
pub fn list_row(lists: &mut RowLists, arena: &RowArena, rows: u32, row: u32)
    requires rows { rows ≤ length arena.now.rows }
    requires room { arena.now.cells ≤ lists.old.room }
    ensures listed { AreAdded row arena.now.filled lists.old.rows lists.new.rows
        ⊎ AreListed arena.now.rows rows (length lists.old.rows) lists.new.rows }
    ensures room { lists.new.room ≡ lists.old.room }
{
    if arena.filled().len() <= lists.left() {
        add_filled(lists, row, arena.filled());
    } else {
        list_rows(lists, arena, rows);
    }
}

// Adds the row to the lists of these indices, as far as they have one.
#[tactic(auto, using(crate::proofs::ListedFacts::none_added, crate::proofs::ListedFacts::added_index, crate::proofs::ListedFacts::added_all))]
fn add_filled(lists: &mut RowLists, row: u32, indices: &[u32])
    requires room { lists.old.count + length indices.now ≤ lists.old.room }
    ensures added { AreAdded row indices.now lists.old.rows lists.new.rows }
    ensures room { lists.new.room ≡ lists.old.room }
{
    for k in 0..indices.len() {
        add_within(lists, row, indices[k]);
    }
}

// Adds the row to the list of an index, if it has one.
#[tactic(auto, using(crate::proofs::ListedFacts::added_one, crate::proofs::ListedFacts::added_none))]
fn add_within(lists: &mut RowLists, row: u32, index: u32)
    requires room { lists.old.count < lists.old.room }
    ensures added { AreAdded row (index ∷ []) lists.old.rows lists.new.rows }
    ensures count { lists.new.count ≤ lists.old.count + 1 }
    ensures room { lists.new.room ≡ lists.old.room }
{
    if (index as usize) < lists.indices() {
        lists.add(index, row);
    }
}

/// Writes the rows of an index, in ascending order and each once, in place of what was there.
pub fn write_sorted(lists: &RowLists, index: u32, sorted: &mut Vec<u32>)
    requires index { index < length lists.now.rows }
    requires room { lists.now.room ≤ vec_capacity sorted.old }
    ensures sorted { AreSorted (get_or lists.now.rows index []) sorted.new.items }
    ensures room { vec_capacity sorted.old ≤ vec_capacity sorted.new }
{
    lists.write_rows(index, sorted);
    sorted.sort_unstable();
    sorted.dedup();
}
