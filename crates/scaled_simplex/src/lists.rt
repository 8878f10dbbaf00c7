//! For each index the rows that may have an entry there.
ghost use Rattle.std.specs.Prelude.{◌≡◌, ◌<◌, ◌≤◌, ◌+◌, ◌^◌, ◌++◌, ◌∷◌, [], ℕ, IfOk, length, replicate, set, vec_capacity};
ghost use Rattle.scaled_simplex.specs.Links.{chain, link_at};

use crate::link::Link;
use flow_types::OutOfMemory;
use std::alloc::Global;
use std::marker::Model;

// How many rows more make no list long.
const MORE: u64 = 65_536;

/// For each index a list of rows, among which are all that have an entry there, in room for so many
/// rows in all lists. Rows are added where an entry comes about, and not taken away where one goes,
/// so the lists are made anew when they have become long.
///
/// The rows lie in one block of links. That of an index begins with the last one that was added.
#[derive(Debug)]
pub struct RowLists {
    // For each index the number of its first link, counted from 1, or 0.
    firsts: Vec<u32>,
    links: Vec<Link>,
    room: u32,
    // With how many links the lists are long.
    most: u64,
}

impl Drop for RowLists {
    fn drop(self) {
        let RowLists {
            firsts: _,
            links: _,
            room: _,
            most: _,
        } = self;
    }
}

impl Model for RowLists {
    ghost use Rattle.std.specs.Prelude.{length, vec_capacity};
    ghost use Rattle.scaled_simplex.specs.Links.{AreLinks, Lists, chains};

    ghost Value = { Lists };

    ghost view = { λ l. record {
      rows = chains l.links.items l.firsts.items;
      count = length l.links.items;
      room = l.room;
    } };

    ghost invariant = { λ l. AreLinks l.links.items l.firsts.items l.room (vec_capacity l.links) };
}

impl RowLists {
    ghost use Rattle.std.specs.Prelude.{◌≡◌, ◌<◌, ◌≤◌, ◌+◌, ◌∷◌, [], IfOk, get_or, length, replicate, set, vec_capacity};

    /// Empty lists for so many indices, in room for so many rows.
    pub fn new(alloc: Global, indices: usize, room: u32) -> Result<RowLists, OutOfMemory>
        ensures { IfOk result (λ lists. lists
            ≡ record { rows = replicate indices []; count = 0; room = room }) }
    {
        Ok(RowLists {
            firsts: zeros(alloc, indices)?,
            links: Vec::with_capacity(alloc, room as usize)?,
            room,
            most: u64::MAX,
        })
    }

    /// Writes the rows of an index, in place of what was there.
    pub fn write_rows(&self, index: u32, rows: &mut Vec<u32>)
        requires index { index < length self.now.rows }
        requires room { self.now.room ≤ vec_capacity rows.old }
        ensures rows { rows.new.items ≡ get_or self.now.rows index [] }
        ensures room { vec_capacity rows.old ≤ vec_capacity rows.new }
    {
        write_chain(&self.links, self.firsts[index as usize], rows);
    }

    /// Adds a row to those of an index.
    pub fn add(&mut self, index: u32, row: u32)
        requires index { index < length self.old.rows }
        requires room { self.old.count < self.old.room }
        ensures rows { self.new.rows
            ≡ set self.old.rows index (row ∷ get_or self.old.rows index []) }
        ensures count { self.new.count ≡ self.old.count + 1 }
        ensures room { self.new.room ≡ self.old.room }
    {
        let next = self.firsts[index as usize];
        begin(&mut self.firsts, &mut self.links, index, Link { row, next });
    }

    /// Leaves the index one row.
    pub fn leave(&mut self, index: u32, row: u32)
        requires index { index < length self.old.rows }
        requires room { self.old.count < self.old.room }
        ensures rows { self.new.rows ≡ set self.old.rows index (row ∷ []) }
        ensures room { self.new.room ≡ self.old.room }
    {
        begin(
            &mut self.firsts,
            &mut self.links,
            index,
            Link { row, next: 0 },
        );
    }

    /// Takes all rows out, since so many are to come: with some four times as many, the lists are
    /// long.
    pub fn empty(&mut self, rows: u64)
        ensures { self.new ≡ record {
          rows = replicate (length self.old.rows) [];
          count = 0;
          room = self.old.room;
        } }
    {
        put_zeros(&mut self.firsts);
        self.links.clear();
        self.most = rows.saturating_mul(4).saturating_add(MORE);
    }

    /// For how many indices there are lists.
    pub fn indices(&self) -> usize
        ensures { result ≡ length self.now.rows }
    {
        self.firsts.len()
    }

    /// For how many rows more there is room.
    pub fn left(&self) -> usize
        ensures { result + self.now.count ≡ self.now.room }
    {
        self.room as usize - self.links.len()
    }

    /// Whether the lists have become long.
    pub fn are_long(&self) -> bool {
        self.links.len() as u64 > self.most
    }
}

// So many zeros.
fn zeros(alloc: Global, count: usize) -> Result<Vec<u32>, OutOfMemory>
    ensures { IfOk result (λ zeros. zeros.items ≡ replicate count 0) }
{
    Ok(vec![in alloc; 0; count]?)
}

// Puts a zero in each place.
fn put_zeros(numbers: &mut Vec<u32>)
    ensures { numbers.new.items ≡ replicate (length numbers.old.items) 0 }
{
    numbers.fill(0);
}

// Adds a link, with which the list of an index begins from now on.
fn begin(firsts: &mut Vec<u32>, links: &mut Vec<Link>, index: u32, link: Link)
    requires index { index < length firsts.old.items }
    requires room { length links.old.items < vec_capacity links.old }
    requires small { length links.old.items + 1 < 2 ^ 32 }
    ensures links { links.new.items ≡ links.old.items ++ link ∷ [] }
    ensures firsts { firsts.new.items ≡ set firsts.old.items index (length links.old.items + 1) }
    ensures room { vec_capacity links.old ≤ vec_capacity links.new }
{
    let _ = links.push(link);
    firsts[index as usize] = links.len() as u32;
}

// Writes the rows of the list that begins with the link of a number.
fn write_chain(links: &[Link], first: u32, rows: &mut Vec<u32>)
    requires earlier { (k : ℕ) → k < length links.now → (link_at links.now k).next ≤ k }
    requires first { first ≤ length links.now }
    requires room { length links.now ≤ vec_capacity rows.old }
    ensures rows { rows.new.items ≡ chain links.now (length links.now) first }
    ensures room { vec_capacity rows.old ≤ vec_capacity rows.new }
{
    rows.clear();
    let mut next = first;
    while next != 0 {
        let link = links[next as usize - 1];
        add_row(rows, link.row);
        next = link.next;
    }
}

// Adds a row where there is room for it.
fn add_row(rows: &mut Vec<u32>, row: u32)
    requires room { length rows.old.items < vec_capacity rows.old }
    ensures rows { rows.new.items ≡ rows.old.items ++ row ∷ [] }
    ensures room { vec_capacity rows.old ≤ vec_capacity rows.new }
{
    let _ = rows.push(row);
}
