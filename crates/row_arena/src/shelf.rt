//! Rows side by side in one block.
ghost use Rattle.std.specs.Prelude.{◌≡◌, ◌<◌, ◌≤◌, ◌+◌, ◌-◌, ◌/◌, ◌^◌, ◌++◌, ◌∷◌, [], IfOk, None, Some, drop, length, map, nat_abs, set, take, vec_capacity, ◌⊎◌};
ghost use Rattle.row_arena.specs.Arena.{live, row_at};
ghost use Rattle.row_arena.specs.Rows.{IsRow, most_entry, negated, negated_entry};
ghost use Rattle.row_arena.specs.Shelves.{IsMoving, IsShelf, row_in, rows_of, written};

use crate::entry::Entry;
use crate::place::Place;
use flow_types::OutOfMemory;
use raw_block::Block;
use std::alloc::Global;

// How many entries more don't make the rows lie loosely.
const MORE: usize = 16_384;

/// Rows, each in a place of its own. The block has two halves, and all rows lie in one of them. A
/// row that outgrows its place goes to the free end of the half; where that is too short for it, or
/// the rows have come to lie loosely, all are laid closely into the other half first.
pub struct Shelf {
    pub block: Block<Entry>,
    pub places: Vec<Place>,
    // How long a half is, where the one begins that the rows lie in, and where its free end does.
    pub half: usize,
    pub start: usize,
    pub tail: usize,
    // How many entries there may be up to the free end before the rows are laid closely.
    pub most: usize,
}

impl Drop for Shelf {
    fn drop(self) {
        let Shelf {
            block: _,
            places: _,
            half: _,
            start: _,
            tail: _,
            most: _,
        } = self;
    }
}

impl Shelf {
    ghost use Rattle.std.specs.Prelude.{◌≡◌, ◌<◌, ◌≤◌, ◌+◌, ◌^◌, ◌++◌, ◌∷◌, [], IfOk, None, get_or, length, set, vec_capacity};
    ghost use Rattle.row_arena.specs.Arena.{live, row_at};
    ghost use Rattle.row_arena.specs.Rows.{IsRow, negated};
    ghost use Rattle.row_arena.specs.Shelves.{IsShelf, rows_of};
    ghost use Rattle.row_arena.specs.declared.place.Place.{Place};

    /// No rows, in places for so many of them, and halves of this length.
    pub fn new(alloc: Global, rows: u32, half: usize) -> Result<Shelf, OutOfMemory>
        requires { half < 2 ^ 34 }
        ensures shelf { IfOk result IsShelf }
        ensures rows { IfOk result (λ shelf. rows_of shelf ≡ []) }
        ensures half { IfOk result (λ shelf. shelf.half ≡ half) }
        ensures places { IfOk result (λ shelf. rows ≤ vec_capacity shelf.places) }
    {
        Ok(Shelf {
            block: Block::new(alloc, half + half)?,
            places: Vec::with_capacity(alloc, rows as usize)?,
            half,
            start: 0,
            tail: 0,
            most: MORE,
        })
    }

    /// The entries of a row.
    pub fn row(&self, row: usize) -> &[Entry]
        requires shelf { IsShelf self.now }
        requires within { row < length self.now.places.items }
        ensures { result.now ≡ row_at (rows_of self.now) row }
    {
        let place = self.places[row];
        self.block.run(place.from, place.len)
    }

    /// Adds a row at the end.
    pub fn push(&mut self, entries: &[Entry])
        requires shelf { IsShelf self.old }
        requires place { length self.old.places.items < vec_capacity self.old.places }
        requires room { live (rows_of self.old) + length entries.now ≤ self.old.half }
        ensures shelf { IsShelf self.new }
        ensures rows { rows_of self.new ≡ rows_of self.old ++ entries.now ∷ [] }
        ensures half { self.new.half ≡ self.old.half }
        ensures places { vec_capacity self.old.places ≤ vec_capacity self.new.places }
    {
        self.reserve(entries.len());
        let from = self.tail;
        write(&mut self.block, from, entries);
        let place = Place {
            from,
            len: entries.len(),
            room: entries.len(),
        };
        add_place(&mut self.places, place);
        self.tail = from + entries.len();
    }

    /// Puts entries in the place of a row.
    pub fn replace(&mut self, row: usize, entries: &[Entry])
        requires shelf { IsShelf self.old }
        requires within { row < length self.old.places.items }
        requires room { live (rows_of self.old) + length entries.now ≤ self.old.half }
        ensures shelf { IsShelf self.new }
        ensures rows { rows_of self.new ≡ set (rows_of self.old) row entries.now }
        ensures half { self.new.half ≡ self.old.half }
        ensures places { vec_capacity self.old.places ≤ vec_capacity self.new.places }
    {
        if entries.len() <= self.places[row].room {
            self.rewrite(row, entries);
        } else {
            self.reserve(entries.len());
            self.move_up(row, entries);
        }
    }

    // Puts entries in the place where the row lies.
    fn rewrite(&mut self, row: usize, entries: &[Entry])
        requires shelf { IsShelf self.old }
        requires within { row < length self.old.places.items }
        requires room { (d : Place)
            → length entries.now ≤ (get_or self.old.places.items row d).room }
        ensures shelf { IsShelf self.new }
        ensures rows { rows_of self.new ≡ set (rows_of self.old) row entries.now }
        ensures half { self.new.half ≡ self.old.half }
        ensures places { vec_capacity self.old.places ≤ vec_capacity self.new.places }
    {
        let place = self.places[row];
        write(&mut self.block, place.from, entries);
        self.places[row] = Place {
            from: place.from,
            len: entries.len(),
            room: place.room,
        };
    }

    // Puts entries in a place for the row at the free end, with some room more if there is.
    fn move_up(&mut self, row: usize, entries: &[Entry])
        requires shelf { IsShelf self.old }
        requires within { row < length self.old.places.items }
        requires room { self.old.tail + length entries.now ≤ self.old.start + self.old.half }
        ensures shelf { IsShelf self.new }
        ensures rows { rows_of self.new ≡ set (rows_of self.old) row entries.now }
        ensures half { self.new.half ≡ self.old.half }
        ensures places { vec_capacity self.old.places ≤ vec_capacity self.new.places }
    {
        let from = self.tail;
        let room = room_for(entries.len(), self.start + self.half - from);
        write(&mut self.block, from, entries);
        self.places[row] = Place {
            from,
            len: entries.len(),
            room,
        };
        self.tail = from + room;
    }

    /// Turns the sign of each entry of a row.
    pub fn negate(&mut self, row: usize)
        requires shelf { IsShelf self.old }
        requires within { row < length self.old.places.items }
        requires valid { IsRow (row_at (rows_of self.old) row) }
        ensures shelf { IsShelf self.new }
        ensures rows { rows_of self.new
            ≡ set (rows_of self.old) row (negated (row_at (rows_of self.old) row)) }
        ensures half { self.new.half ≡ self.old.half }
        ensures places { self.new.places ≡ self.old.places }
    {
        negate_at(&mut self.block, self.places[row]);
    }

    // Sees to it that so many more entries have room at the free end.
    fn reserve(&mut self, count: usize)
        requires shelf { IsShelf self.old }
        requires room { live (rows_of self.old) + count ≤ self.old.half }
        ensures shelf { IsShelf self.new }
        ensures rows { rows_of self.new ≡ rows_of self.old }
        ensures room { self.new.tail + count ≤ self.new.start + self.new.half }
        ensures half { self.new.half ≡ self.old.half }
        ensures places { vec_capacity self.old.places ≤ vec_capacity self.new.places }
        ensures count { length self.new.places.items ≡ length self.old.places.items }
    {
        if self.start + self.half - self.tail < count || self.tail - self.start > self.most {
            self.compact();
        }
    }

    /// Lays all rows closely into the other half.
    pub fn compact(&mut self)
        requires shelf { IsShelf self.old }
        requires room { live (rows_of self.old) ≤ self.old.half }
        ensures shelf { IsShelf self.new }
        ensures rows { rows_of self.new ≡ rows_of self.old }
        ensures tail { self.new.tail ≡ self.new.start + live (rows_of self.old) }
        ensures half { self.new.half ≡ self.old.half }
        ensures places { vec_capacity self.old.places ≤ vec_capacity self.new.places }
        ensures count { length self.new.places.items ≡ length self.old.places.items }
    {
        let start = self.half - self.start;
        let mut to = start;
        for row in 0..self.places.len() {
            to = lay(self, row, to);
        }
        self.start = start;
        self.tail = to;
        self.most = 3 * (to - start) + MORE;
    }
}

// Lays a row into the other half, behind those before it, and says where it ends.
#[tactic(auto, using(crate::proofs::ShelfSteps::copy_apart, crate::proofs::ShelfSteps::copy_within, crate::proofs::ShelfSteps::laid_rows))]
fn lay(shelf: &mut Shelf, row: usize, to: usize) -> usize
    requires moving { IsMoving shelf.old row to }
    requires within { row < length shelf.old.places.items }
    ensures moving { IsMoving shelf.new (row + 1) result }
    ensures rows { rows_of shelf.new ≡ rows_of shelf.old }
    ensures half { shelf.new.half ≡ shelf.old.half }
    ensures start { shelf.new.start ≡ shelf.old.start }
    ensures places { vec_capacity shelf.old.places ≤ vec_capacity shelf.new.places }
    ensures count { length shelf.new.places.items ≡ length shelf.old.places.items }
{
    let place = shelf.places[row];
    copy(&mut shelf.block, place, to);
    shelf.places[row] = Place {
        from: to,
        len: place.len,
        room: place.len,
    };
    to + place.len
}

// Adds a place where there is room for it.
fn add_place(places: &mut Vec<Place>, place: Place)
    requires room { length places.old.items < vec_capacity places.old }
    ensures places { places.new.items ≡ places.old.items ++ place ∷ [] }
    ensures room { vec_capacity places.old ≤ vec_capacity places.new }
{
    let _ = places.push(place);
}

// How much room a row of so many entries gets where so much is left: a quarter more than it needs.
fn room_for(count: usize, left: usize) -> usize
    requires { count ≤ left }
    ensures enough { count ≤ result }
    ensures within { result ≤ left }
{
    count + (count / 4).min(left - count)
}

// Writes entries into the block from a position on.
fn write(block: &mut Block<Entry>, at: usize, entries: &[Entry])
    requires within { at + length entries.now ≤ length block.old }
    requires small { length block.old < 2 ^ 36 }
    ensures { block.new ≡ written block.old at (map Some entries.now) }
{
    for k in 0..entries.len() {
        block.put(at + k, entries[k]);
    }
}

// Copies what a place has to a position that it ends before, or lies behind.
fn copy(block: &mut Block<Entry>, place: Place, to: usize)
    requires held { take place.len (drop place.from block.old) ≡ map Some (row_in block.old place) }
    requires source { place.from + place.len ≤ length block.old }
    requires within { to + place.len ≤ length block.old }
    requires apart { (place.from + place.len ≤ to) ⊎ (to + place.len ≤ place.from) }
    requires small { length block.old < 2 ^ 36 }
    ensures { block.new ≡ written block.old to (map Some (row_in block.old place)) }
{
    for k in 0..place.len {
        block.put(to + k, block.get(place.from + k));
    }
}

// Turns the sign of each entry of a place.
fn negate_at(block: &mut Block<Entry>, place: Place)
    requires held { take place.len (drop place.from block.old) ≡ map Some (row_in block.old place) }
    requires within { place.from + place.len ≤ length block.old }
    requires small { length block.old < 2 ^ 36 }
    requires valid { IsRow (row_in block.old place) }
    ensures { block.new
        ≡ written block.old place.from (map Some (negated (row_in block.old place))) }
{
    for k in 0..place.len {
        block.put(place.from + k, turned(block.get(place.from + k)));
    }
}

// The entry with its sign turned.
fn turned(entry: Entry) -> Entry
    requires { nat_abs entry.value ≤ most_entry }
    ensures { result ≡ negated_entry entry }
{
    Entry {
        column: entry.column,
        value: -entry.value,
    }
}
