//! Rows of whole numbers, and how one of them is combined with another.
ghost use Rattle.std.specs.Prelude.{◌≡◌, ◌<◌, ◌≤◌, ◌+◌, ◌^◌, ◌<ℤ◌, All, IfErr, IfOk, None, Err, Ok, OnErr, OnOk, length, pos, take, vec_capacity};
ghost use Rattle.std.specs.List.{find};
ghost use Rattle.row_arena.specs.Arena.{is_far, live, row_at, with_row};
ghost use Rattle.row_arena.specs.Combining.{cleared};
ghost use Rattle.row_arena.specs.Desks.{IsDesk, KeepsRoom};
ghost use Rattle.row_arena.specs.Products.{AreFilledBy, TellsFar};
ghost use Rattle.row_arena.specs.Rows.{IsRow, entry_at};
ghost use Rattle.row_arena.specs.Shelves.{IsShelf, rows_of};
ghost use Rattle.row_arena.specs.declared.wide.Wide.TheVariants as wide;

use crate::combining::clear_column;
use crate::desk::Desk;
use crate::entry::Entry;
use crate::row::entry_in;
use crate::shelf::Shelf;
use crate::wide::Wide;
use flow_types::OutOfMemory;
use std::alloc::Global;
use std::marker::Model;

/// Rows, in room for so many of them and so many entries. Contracts see the list of rows, both
/// limits, and the columns that the last call of `combine` filled.
pub struct RowArena {
    shelf: Shelf,
    most_rows: u32,
    cells: u32,
    // How many entries all rows have.
    live: u64,
    desk: Desk,
}

impl Drop for RowArena {
    fn drop(self) {
        let RowArena {
            shelf: _,
            most_rows: _,
            cells: _,
            live: _,
            desk: _,
        } = self;
    }
}

impl Model for RowArena {
    ghost use Rattle.row_arena.specs.Arena.{IsArena, Rows};
    ghost use Rattle.row_arena.specs.Shelves.{HasRooms, rows_of};

    ghost Value = { Rows };

    ghost view = { λ a. record {
      rows = rows_of a.shelf;
      most_rows = a.most_rows;
      cells = a.cells;
      filled = a.desk.filled.items;
    } };

    ghost invariant = { λ a. IsArena a.live (record {
      rows = rows_of a.shelf;
      most_rows = a.most_rows;
      cells = a.cells;
      filled = a.desk.filled.items;
    }) × HasRooms a.shelf a.most_rows a.cells a.desk };
}

impl RowArena {
    ghost use Rattle.std.specs.Prelude.{◌≡◌, ◌≢◌, ◌<◌, ◌≤◌, ◌++◌, ◌∷◌, ◌<ℤ◌, [], IfErr, IfOk, IsTrue, Err, Ok, OnErr, OnOk, length, nat_abs, not, pos, slice_set};
    ghost use Rattle.row_arena.specs.Arena.{AreFilled, combined, has_room, live, row_at};
    ghost use Rattle.row_arena.specs.Rows.{IsRow, entry_at, most_entry, negated};
    ghost use Rattle.row_arena.specs.declared.wide.Wide.TheVariants.{Cells};

    /// No rows, in room for so many rows and entries. It takes 24 bytes for each of the rows and
    /// 100 for each of the cells, of which a call touches what it writes to.
    pub fn new(alloc: Global, rows: u32, cells: u32) -> Result<RowArena, OutOfMemory>
        ensures { IfOk result (λ arena. arena
            ≡ record { rows = []; most_rows = rows; cells = cells; filled = [] }) }
    {
        Ok(RowArena {
            shelf: Shelf::new(alloc, rows, half_of(cells))?,
            most_rows: rows,
            cells,
            live: 0,
            desk: Desk::new(alloc, cells)?,
        })
    }

    /// How many rows there are.
    pub fn len(&self) -> u32
        ensures count { result ≡ length self.now.rows }
        ensures few { length self.now.rows ≤ self.now.most_rows }
    {
        count(&self.shelf, self.most_rows)
    }

    /// How many entries they have together, which is never more than the cells.
    pub fn live(&self) -> u64
        ensures live { result ≡ live self.now.rows }
        ensures room { live self.now.rows ≤ self.now.cells }
    {
        self.live
    }

    /// After a call of `combine` that was ok: columns, with all in which the target has an entry
    /// and had none before. After one that wasn't they tell nothing.
    pub fn filled(&self) -> &[u32]
        ensures { result.now ≡ self.now.filled }
    {
        &self.desk.filled
    }

    /// The entries of a row, by ascending column, none of them 0.
    pub fn row(&self, row: u32) -> &[Entry]
        requires { row < length self.now.rows }
        ensures row { result.now ≡ row_at self.now.rows row }
        ensures valid { IsRow result.now }
    {
        row_of(&self.shelf, row as usize)
    }

    /// What a row has in a column, 0 where it has no entry there. It looks by bisection.
    #[tactic(auto, using(crate::proofs::DifferenceRows::entry_near))]
    pub fn entry(&self, row: u32, column: u32) -> i64
        requires { row < length self.now.rows }
        ensures entry { result ≡ entry_at (row_at self.now.rows row) column }
        ensures near { nat_abs result ≤ most_entry }
    {
        entry_in(self.row(row), column)
    }

    /// Adds a row at the end. `Wide::Cells` comes exactly where the entries that are there and
    /// these together pass the cells. After an error all is as before. It takes no memory.
    pub fn push_row(&mut self, entries: &[Entry]) -> Result<(), Wide>
        requires place { length self.old.rows < self.old.most_rows }
        requires valid { IsRow entries.now }
        ensures ok { OnOk result (self.new ≡ record {
          rows = self.old.rows ++ entries.now ∷ [];
          most_rows = self.old.most_rows;
          cells = self.old.cells;
          filled = self.old.filled;
        }) }
        ensures room { OnOk result (IsTrue (has_room self.old.cells self.old.rows entries.now)) }
        ensures wide { IfErr result (λ wide.
            (wide ≡ Cells (live self.old.rows) (length entries.now))
            × IsTrue (not (has_room self.old.cells self.old.rows entries.now))) }
        ensures err { OnErr result (self.new ≡ self.old) }
    {
        let more = entries.len() as u64;
        check_room(self.live, more, self.cells)?;
        self.shelf.push(entries);
        self.live += more;
        Ok(())
    }

    /// Turns the sign of each entry of a row. It takes no memory.
    pub fn negate(&mut self, row: u32)
        requires { row < length self.old.rows }
        ensures { self.new ≡ record {
          rows = slice_set self.old.rows row (negated (row_at self.old.rows row));
          most_rows = self.old.most_rows;
          cells = self.old.cells;
          filled = self.old.filled;
        } }
    {
        self.shelf.negate(row as usize);
    }

    /// Lays all rows closely side by side, and leaves them as they are. Other calls see to that
    /// where they need it. It takes no memory.
    pub fn compact(&mut self)
        ensures { self.new ≡ self.old }
    {
        self.shelf.compact();
    }

    /// Clears a column in the target by means of the pivot, which has a positive number p there,
    /// where the target has t. The target becomes p times itself less t times the pivot, divided by the greatest common divisor of what comes of it; with no entries left it
    /// isn't divided. `Wide::Value` tells the first entry that is then further from 0 than
    /// `MOST_ENTRY`. Where there is none, `Wide::Cells` tells that the entries of all rows, the old
    /// target's among them, and those of the new one together pass the cells. After an error the
    /// rows are as before. It takes no memory.
    pub fn combine(&mut self, target: u32, pivot: u32, column: u32) -> Result<(), Wide>
        requires target { target < length self.old.rows }
        requires pivot { pivot < length self.old.rows }
        requires apart { target ≢ pivot }
        requires above { pos 0 <ℤ entry_at (row_at self.old.rows pivot) column }
        ensures ok { OnOk result
            (combined self.old.cells self.old.rows target pivot column ≡ Ok self.new.rows) }
        ensures wide { IfErr result (λ wide.
            combined self.old.cells self.old.rows target pivot column ≡ Err wide) }
        ensures err { OnErr result (self.new.rows ≡ self.old.rows) }
        ensures filled { OnOk result (AreFilled (row_at self.old.rows target)
            (row_at self.new.rows target) self.new.filled) }
        ensures count { length self.new.rows ≡ length self.old.rows }
        ensures most_rows { self.new.most_rows ≡ self.old.most_rows }
        ensures cells { self.new.cells ≡ self.old.cells }
    {
        let count = clear_in(
            &mut self.desk,
            &self.shelf,
            target as usize,
            pivot as usize,
            column,
        )?;
        self.live = put(
            &mut self.shelf,
            target as usize,
            &self.desk.narrow[..count],
            self.live,
            self.cells,
        )?;
        Ok(())
    }
}

// How long a half of the block is: half as much again as the entries that may be there, so that
// there is room for many before all have to be laid closely again.
fn half_of(cells: u32) -> usize
    ensures enough { cells ≤ result }
    ensures small { result < 2 ^ 34 }
{
    cells as usize + cells as usize / 2
}

// How many rows there are, where there are at most so many.
fn count(shelf: &Shelf, most: u32) -> u32
    requires { length (rows_of shelf.now) ≤ most }
    ensures { result ≡ length (rows_of shelf.now) }
{
    shelf.places.len() as u32
}

// The entries of a row.
#[tactic(auto, using(crate::proofs::ArenaFacts::row_at_valid))]
fn row_of(shelf: &Shelf, row: usize) -> &[Entry]
    requires shelf { IsShelf shelf.now }
    requires within { row < length (rows_of shelf.now) }
    requires valid { All IsRow (rows_of shelf.now) }
    ensures row { result.now ≡ row_at (rows_of shelf.now) row }
    ensures valid { IsRow result.now }
{
    shelf.row(row)
}

// Whether so many more entries fit.
fn check_room(live: u64, more: u64, cells: u32) -> Result<(), Wide>
    requires live { live < 2 ^ 32 }
    requires more { more < 2 ^ 63 }
    ensures ok { OnOk result (live + more ≤ cells) }
    ensures err { IfErr result (λ e. (e ≡ wide.Cells live more) × (cells < live + more)) }
{
    if live + more <= u64::from(cells) {
        Ok(())
    } else {
        Err(Wide::Cells { live, more })
    }
}

// Writes the target with the column cleared to `desk.narrow`, where none of its entries is too far
// from 0, and the columns that only the pivot has to `desk.filled`. Says how many entries it has.
fn clear_in(
    desk: &mut Desk,
    shelf: &Shelf,
    target: usize,
    pivot: usize,
    column: u32,
) -> Result<usize, Wide>
    requires shelf { IsShelf shelf.now }
    requires target { target < length (rows_of shelf.now) }
    requires pivot { pivot < length (rows_of shelf.now) }
    requires valid { All IsRow (rows_of shelf.now) }
    requires above { pos 0 <ℤ entry_at (row_at (rows_of shelf.now) pivot) column }
    requires desk { IsDesk (length (row_at (rows_of shelf.now) target)
        + length (row_at (rows_of shelf.now) pivot)) desk.old }
    ensures ok { IfOk result (λ count. take count desk.new.narrow.items
        ≡ cleared column (row_at (rows_of shelf.now) target) (row_at (rows_of shelf.now) pivot)) }
    ensures within { IfOk result (λ count. count ≤ length desk.new.narrow.items) }
    ensures near { OnOk result (find is_far
        (cleared column (row_at (rows_of shelf.now) target) (row_at (rows_of shelf.now) pivot))
        ≡ None) }
    ensures far { IfErr result (TellsFar (find is_far
        (cleared column (row_at (rows_of shelf.now) target) (row_at (rows_of shelf.now) pivot)))) }
    ensures filled { AreFilledBy (row_at (rows_of shelf.now) target)
        (row_at (rows_of shelf.now) pivot) (length (row_at (rows_of shelf.now) pivot))
        desk.new.filled.items }
    ensures room { KeepsRoom desk.old desk.new }
{
    clear_column(desk, row_of(shelf, target), row_of(shelf, pivot), column)
}

// Puts entries in the place of a row, where there is room for them, and says how many there are in
// all rows then.
#[tactic(auto, using(crate::proofs::ArenaFacts::puts))]
fn put(
    shelf: &mut Shelf,
    target: usize,
    entries: &[Entry],
    count: u64,
    cells: u32,
) -> Result<u64, Wide>
    requires shelf { IsShelf shelf.old }
    requires half { cells ≤ shelf.old.half }
    requires target { target < length (rows_of shelf.old) }
    requires live { count ≡ live (rows_of shelf.old) }
    requires room { count ≤ cells }
    ensures shelf { IsShelf shelf.new }
    ensures ok { OnOk result (with_row cells (rows_of shelf.old) target entries.now
        ≡ Ok (rows_of shelf.new)) }
    ensures live { IfOk result (λ now. now ≡ live (rows_of shelf.new)) }
    ensures wide { IfErr result (λ wide.
        with_row cells (rows_of shelf.old) target entries.now ≡ Err wide) }
    ensures err { OnErr result (rows_of shelf.new ≡ rows_of shelf.old) }
    ensures half { shelf.new.half ≡ shelf.old.half }
    ensures places { vec_capacity shelf.old.places ≤ vec_capacity shelf.new.places }
{
    let more = entries.len() as u64;
    check_room(count, more, cells)?;
    let before = length_of(shelf, target);
    shelf.replace(target, entries);
    Ok(count + more - before)
}

// How many entries a row has.
#[tactic(auto, using(crate::proofs::ArenaFacts::live_of))]
fn length_of(shelf: &Shelf, row: usize) -> u64
    requires shelf { IsShelf shelf.now }
    requires within { row < length (rows_of shelf.now) }
    ensures length { result ≡ length (row_at (rows_of shelf.now) row) }
    ensures within { result ≤ live (rows_of shelf.now) }
{
    shelf.row(row).len() as u64
}
