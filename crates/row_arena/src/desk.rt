//! Where rows are combined.
ghost use Rattle.std.specs.Prelude.{◌≡◌, ◌<◌, ◌≤◌, ◌+◌, [], IfOk, length, vec_capacity};
ghost use Rattle.row_arena.specs.Desks.{IsDesk};

use crate::entry::Entry;
use crate::products::WideEntry;
use flow_types::OutOfMemory;
use std::alloc::Global;

/// The numbers that come of two rows, in 128 bits where they need them, and the columns that are
/// filled. A list of numbers is as long as it has been needed: what stands behind the numbers of
/// this time is of earlier ones.
pub struct Desk {
    pub narrow: Vec<Entry>,
    pub wides: Vec<WideEntry>,
    pub filled: Vec<u32>,
}

impl Drop for Desk {
    fn drop(self) {
        let Desk {
            narrow: _,
            wides: _,
            filled: _,
        } = self;
    }
}

impl Desk {
    ghost use Rattle.std.specs.Prelude.{◌≡◌, [], IfOk};
    ghost use Rattle.row_arena.specs.Desks.{IsDesk};

    /// Room for rows that have so many entries together.
    pub fn new(alloc: Global, cells: u32) -> Result<Desk, OutOfMemory>
        ensures room { IfOk result (IsDesk cells) }
        ensures none { IfOk result (λ desk. desk.filled.items ≡ []) }
    {
        Ok(Desk {
            narrow: Vec::with_capacity(alloc, cells as usize)?,
            wides: Vec::with_capacity(alloc, cells as usize)?,
            filled: Vec::with_capacity(alloc, cells as usize)?,
        })
    }
}

/// Sees to it that the list has so many items at least.
pub fn lengthen<T: Copy>(items: &mut Vec<T>, count: usize, item: T)
    requires room { count ≤ vec_capacity items.old }
    ensures length { count ≤ length items.new.items }
    ensures room { vec_capacity items.old ≤ vec_capacity items.new }
{
    while items.len() < count {
        add(items, item);
    }
}

// Adds an item.
fn add<T: Copy>(items: &mut Vec<T>, item: T)
    requires room { length items.old.items < vec_capacity items.old }
    ensures count { length items.new.items ≡ length items.old.items + 1 }
    ensures room { vec_capacity items.old ≤ vec_capacity items.new }
{
    let _ = items.push(item);
}
