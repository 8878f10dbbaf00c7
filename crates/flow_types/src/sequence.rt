//! One list type for every list of a scenario and a plan.
ghost use Rattle.std.specs.Prelude.{◌≡◌, ◌≤◌, ◌+◌, ◌++◌, ◌∷◌, [], List, OnOk, OnErr, length};
ghost use Rattle.flow_types.specs.Lists.{filled};

use crate::OutOfMemory;
use std::alloc::Global;
use std::marker::Model;

/// A list that grows at its end. Contracts see it as the list of its items.
#[derive(Debug, Drop)]
pub struct Sequence<T> {
    held: Vec<T>,
}

impl<T> Model for Sequence<T> {
    ghost Value = { List T };

    ghost view = { λ s. s.held.items };
}

impl<T> Sequence<T> {
    /// The list with no items. It takes no memory; the list grows by `alloc`.
    pub fn empty(alloc: Global) -> Self
        ensures { result ≡ [] }
    {
        Sequence {
            held: Vec::new(alloc),
        }
    }

    /// The items of a vector, which moves in. It takes no memory.
    pub fn from_vec(held: Vec<T>) -> Self
        ensures { result ≡ held.items }
    {
        Sequence { held }
    }

    /// The items, first to last.
    pub fn items(&self) -> &[T]
        ensures { result.now ≡ self.now }
    {
        &self.held
    }
}

impl<T: Copy> Sequence<T> {
    /// Puts the item in so many places from this one on. It takes no memory.
    pub fn fill(&mut self, from: usize, count: usize, item: T)
        requires { from + count ≤ length self.old }
        ensures { self.new ≡ filled from count item self.old }
    {
        for k in 0..count {
            self.held[from + k] = item;
        }
    }
}

impl<T: Drop> Sequence<T> {
    /// Adds an item at the end. Where there is no memory for it, the item is dropped and the list
    /// is as before.
    pub fn add(&mut self, item: T) -> Result<(), OutOfMemory>
        ensures ok { OnOk result (self.new ≡ self.old ++ item ∷ []) }
        ensures err { OnErr result (self.new ≡ self.old) }
    {
        self.held.push(item)?;
        Ok(())
    }
}
