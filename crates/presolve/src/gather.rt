//! Gathering terms by the columns that they land on.
ghost use Rattle.std.specs.Prelude.{◌≡◌, ◌<◌, ◌≤◌, ◌+◌, ◌^◌, ◌+ℤ◌, OnOk, length, true, unsigned_abs};
ghost use Rattle.std.specs.List.{filter};
ghost use Rattle.presolve.specs.Gathering.{IsAscending, IsFound, IsPlace, IsRaised, is_not_zero, size_of};

use crate::flips::flip;
use crate::numbers::{Numbers, Spot};
use bytime_model::Term;
use flow_types::{OutOfMemory, Scenario};
use row_arena::Entry;
use std::alloc::Global;
use std::marker::Model;
use time_windows::Boxes;

/// A sum of terms over the columns: a factor for each column by ascending number, and what is
/// fixed.
#[derive(Debug, Drop)]
pub struct Gathering {
    entries: Vec<Entry>,
    fixed: i64,
}

impl Model for Gathering {
    ghost use Rattle.presolve.specs.Gathering.{Gathered};

    ghost Value = { Gathered };

    ghost view = { λ g. record { entries = g.entries.items; fixed = g.fixed } };
}

impl Gathering {
    ghost use Rattle.std.specs.Prelude.{◌≡◌, ◌<◌, ◌≤◌, ◌+◌, ◌+ℤ◌, ◌^◌, [], All, OnOk, length, map, pos, unsigned_abs};
    ghost use Rattle.bytime_model.specs.Columns.{IsThere};
    ghost use Rattle.flow_types.specs.Scenario.{parts_of};
    ghost use Rattle.presolve.specs.Gathering.{AddsTerm, AreGathered, IsAscending, IsLanded, IsNumberedFor, most_factor, most_gathered, size_of};
    ghost use Rattle.presolve.specs.Relaxed.{flipped_entry};
    ghost use Rattle.time_windows.specs.Held.{box_of};

    /// With no terms. It takes no memory.
    pub fn empty(alloc: Global) -> Gathering
        ensures { result ≡ record { entries = []; fixed = pos 0 } }
    {
        Gathering {
            entries: Vec::new(alloc),
            fixed: 0,
        }
    }

    /// The factors of the columns, without zeros once all terms have landed.
    pub fn entries(&self) -> &[Entry]
        ensures { result.now ≡ self.now.entries }
    {
        &self.entries
    }

    /// What is fixed.
    pub fn fixed(&self) -> i64
        ensures { result ≡ self.now.fixed }
    {
        self.fixed
    }

    /// Forgets what it holds, and lands these terms: no more than 2^21, with factors of no more
    /// than 2^38 either way.
    #[tactic(auto, using(crate::proofs::GatherFacts::all_landed))]
    pub fn land(
        &mut self,
        numbers: &Numbers<'_>,
        s: &Scenario,
        boxes: &Boxes,
        terms: &[Term],
    ) -> Result<(), OutOfMemory>
        requires numbered { IsNumberedFor (parts_of s.now) boxes.now numbers.now }
        requires there { All (λ term. IsThere (parts_of s.now).flights term.variable) terms.now }
        requires small { All (λ term. unsigned_abs term.factor ≤ most_factor) terms.now }
        requires few { length terms.now ≤ most_gathered }
        ensures { OnOk result (IsLanded (parts_of s.now) (box_of boxes.now) terms.now self.new) }
    {
        self.clear();
        self.add_all(numbers, s, boxes, terms)?;
        drop_zeros(&mut self.entries);
        Ok(())
    }

    /// Negates the factors of flipped columns. What is fixed stays.
    pub fn flip(&mut self, flips: &[bool])
        requires within { All (λ entry. entry.column < length flips.now) self.old.entries }
        requires small { All (λ entry. unsigned_abs entry.value < 2 ^ 62) self.old.entries }
        ensures entries { self.new.entries ≡ map (flipped_entry flips.now) self.old.entries }
        ensures fixed { self.new.fixed ≡ self.old.fixed }
    {
        flip(flips, &mut self.entries);
    }

    fn clear(&mut self)
        ensures { self.new ≡ record { entries = []; fixed = pos 0 } }
    {
        self.entries.clear();
        self.fixed = 0;
    }

    // Adds all terms.
    #[tactic(auto, using(crate::proofs::GatherFacts::none_gathered, crate::proofs::GatherFacts::room_for, crate::proofs::GatherFacts::gathered_ascending))]
    fn add_all(
        &mut self,
        numbers: &Numbers<'_>,
        s: &Scenario,
        boxes: &Boxes,
        terms: &[Term],
    ) -> Result<(), OutOfMemory>
        requires empty { self.old ≡ record { entries = []; fixed = pos 0 } }
        requires numbered { IsNumberedFor (parts_of s.now) boxes.now numbers.now }
        requires there { All (λ term. IsThere (parts_of s.now).flights term.variable) terms.now }
        requires small { All (λ term. unsigned_abs term.factor ≤ most_factor) terms.now }
        requires few { length terms.now ≤ most_gathered }
        ensures { OnOk result (AreGathered (parts_of s.now) (box_of boxes.now) terms.now self.new) }
    {
        for term in terms {
            self.add(numbers, s, boxes, *term)?;
        }
        Ok(())
    }

    // Adds the term's factor to what is fixed.
    fn fix(&mut self, term: Term)
        requires { unsigned_abs self.old.fixed + unsigned_abs term.factor < 2 ^ 62 }
        ensures entries { self.new.entries ≡ self.old.entries }
        ensures fixed { self.new.fixed ≡ self.old.fixed +ℤ term.factor }
    {
        self.fixed = sum(self.fixed, term.factor);
    }

    // Adds the term where it lands.
    #[tactic(auto, using(crate::proofs::GatherFacts::adds_nothing, crate::proofs::GatherFacts::adds_fixed, crate::proofs::GatherFacts::adds_entry))]
    fn add(
        &mut self,
        numbers: &Numbers<'_>,
        s: &Scenario,
        boxes: &Boxes,
        term: Term,
    ) -> Result<(), OutOfMemory>
        requires numbered { IsNumberedFor (parts_of s.now) boxes.now numbers.now }
        requires there { IsThere (parts_of s.now).flights term.variable }
        requires ascending { IsAscending self.old.entries }
        requires room { size_of self.old.entries + unsigned_abs self.old.fixed
            + unsigned_abs term.factor < 2 ^ 62 }
        ensures { OnOk result (AddsTerm (parts_of s.now) (box_of boxes.now) term self.old
            self.new) }
    {
        match numbers.spot_of(s, boxes, term.variable) {
            Spot::Nowhere => {}
            Spot::Surely => self.fix(term),
            Spot::On(number) => raise(&mut self.entries, entry_of(number, term))?,
        }
        Ok(())
    }
}

// The sum of two numbers.
fn sum(a: i64, b: i64) -> i64
    requires { unsigned_abs a + unsigned_abs b < 2 ^ 62 }
    ensures { result ≡ a +ℤ b }
{
    a + b
}

// Drops the entries that are 0.
fn drop_zeros(entries: &mut Vec<Entry>)
    ensures { entries.new.items ≡ filter is_not_zero entries.old.items }
{
    entries.retain(|entry| entry.value != 0);
}

// Whether the entry before the place is the column's.
fn is_before(entries: &[Entry], place: usize, column: u32) -> bool
    requires { place ≤ length entries.now }
    ensures { IsFound column entries.now place result }
{
    place > 0 && entries[place - 1].column == column
}

// The entry with so much more.
fn raised(entry: Entry, more: Entry) -> Entry
    requires { unsigned_abs entry.value + unsigned_abs more.value < 2 ^ 62 }
    ensures { result ≡ record { column = entry.column; value = entry.value +ℤ more.value } }
{
    Entry {
        column: entry.column,
        value: entry.value + more.value,
    }
}

// Adds so much to the entry before the place, which is the same column's.
#[tactic(auto, using(crate::proofs::RaiseFacts::item_small))]
fn raise_before(entries: &mut Vec<Entry>, place: usize, more: Entry)
    requires ascending { IsAscending entries.old.items }
    requires some { 0 < place }
    requires within { place ≤ length entries.old.items }
    requires here { IsFound more.column entries.old.items place true }
    requires room { size_of entries.old.items + unsigned_abs more.value < 2 ^ 62 }
    ensures { IsRaised more.column more.value entries.old.items entries.new.items }
{
    entries[place - 1] = raised(entries[place - 1], more);
}

// Adds so much in the entry's column.
#[tactic(auto, using(crate::proofs::RaiseFacts::found_some))]
fn raise(entries: &mut Vec<Entry>, more: Entry) -> Result<(), OutOfMemory>
    requires ascending { IsAscending entries.old.items }
    requires room { size_of entries.old.items + unsigned_abs more.value < 2 ^ 62 }
    ensures { OnOk result (IsRaised more.column more.value entries.old.items entries.new.items) }
{
    let place = place_of(entries, more.column);
    if is_before(entries, place, more.column) {
        raise_before(entries, place, more);
    } else {
        entries.insert(place, more)?;
    }
    Ok(())
}

// The term's factor in the column of this number.
fn entry_of(number: u32, term: Term) -> Entry
    ensures { result ≡ record { column = number; value = term.factor } }
{
    Entry {
        column: number,
        value: term.factor,
    }
}

// The place after the last entry whose column isn't past this one. It is looked for from the end.
fn place_of(entries: &[Entry], column: u32) -> usize
    ensures { IsPlace column entries.now result }
{
    let mut place = entries.len();
    while place > 0 && column < entries[place - 1].column {
        place -= 1;
    }
    place
}
