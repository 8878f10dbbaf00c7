//! Lists of items in one block.
ghost use Rattle.std.specs.Prelude.{◌≡◌, ◌++◌, ◌∷◌, [], List, IfOk, OnOk, OnErr, ◌≤◌, ◌-◌, drop, get_or, length, take};
ghost use Rattle.time_windows.specs.Groups.{begin_at};

use flow_types::OutOfMemory;
use std::alloc::Global;
use std::marker::Model;

/// Lists of items, one after another in one block: those that are closed, and one that still grows.
#[derive(Debug)]
pub struct Groups<T> {
    items: Vec<T>,
    // Where each closed list ends.
    ends: Vec<usize>,
}

impl<T: Drop> Drop for Groups<T> {
    fn drop(self) {
        let Groups { items: _, ends: _ } = self;
    }
}

impl<T> Model for Groups<T> {
    ghost use Rattle.std.specs.Prelude.{drop, length};
    ghost use Rattle.time_windows.specs.Groups.{AreEnds, Grouped, cut, last_end};

    ghost Value = { Grouped T };

    ghost view = { λ g. record {
      closed = cut 0 g.ends.items g.items.items;
      pending = drop (last_end 0 g.ends.items) g.items.items;
    } };

    ghost invariant = { λ g. AreEnds 0 (length g.items.items) g.ends.items };
}

impl<T> Groups<T> {
    /// No lists. It takes no memory.
    pub fn new(alloc: Global) -> Self
        ensures { result ≡ record { closed = []; pending = [] } }
    {
        Groups {
            items: Vec::new(alloc),
            ends: Vec::new(alloc),
        }
    }

    /// The closed list at the position, no items where there is none.
    pub fn group(&self, position: usize) -> &[T]
        ensures { result.now ≡ get_or self.now.closed position [] }
    {
        match self.ends.get(position) {
            None => &[],
            Some(end) => part(&self.items, begin_of(&self.ends, position), *end),
        }
    }

    /// Closes the list that grows; the next one begins.
    pub fn close(&mut self) -> Result<(), OutOfMemory>
        ensures closed { OnOk result (self.new.closed ≡ self.old.closed ++ self.old.pending ∷ []) }
        ensures pending { OnOk result (self.new.pending ≡ []) }
        ensures err { OnErr result (self.new ≡ self.old) }
    {
        self.ends.push(self.items.len())?;
        Ok(())
    }
}

impl<T: Copy> Groups<T> {
    /// A second block with the same lists.
    pub fn copy(&self, alloc: Global) -> Result<Groups<T>, OutOfMemory>
        ensures { IfOk result (λ groups. groups ≡ self.now) }
    {
        Ok(Groups {
            items: Vec::from_slice(alloc, &self.items)?,
            ends: Vec::from_slice(alloc, &self.ends)?,
        })
    }
}

impl<T: Drop> Groups<T> {
    /// Adds an item to the list that grows.
    pub fn add(&mut self, item: T) -> Result<(), OutOfMemory>
        ensures closed { self.new.closed ≡ self.old.closed }
        ensures pending { OnOk result (self.new.pending ≡ self.old.pending ++ item ∷ []) }
        ensures err { OnErr result (self.new ≡ self.old) }
    {
        self.items.push(item)?;
        Ok(())
    }
}

// Where the list at the position begins.
fn begin_of(ends: &[usize], position: usize) -> usize
    requires { position ≤ length ends.now }
    ensures { result ≡ begin_at ends.now position }
{
    match position {
        0 => 0,
        _ => ends[position - 1],
    }
}

// The items from one place up to another.
fn part<T>(items: &[T], from: usize, to: usize) -> &[T]
    requires rises { from ≤ to }
    requires within { to ≤ length items.now }
    ensures { result.now ≡ take (to - from) (drop from items.now) }
{
    &items[from..to]
}
