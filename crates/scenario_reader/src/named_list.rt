//! Items in the order in which they came, found by their names.
ghost use Rattle.std.specs.Prelude.{◌≡◌, ◌<◌, ◌-◌, ◌^◌, ◌++◌, ◌∷◌, [], ℕ, List, None, OnOk, OnErr, length, map};
ghost use Rattle.text_records.specs.Names.{position_of};

use crate::flight_draft::FlightDraft;
use flow_types::{CostTable, OutOfMemory, Place, Sequence};
use std::alloc::Global;
use std::marker::Model;
use text_records::NameIndex;

/// An item that has a name.
pub trait Named: Drop {
    ghost name_of: { Self → List ℕ };

    /// The name.
    fn name(&self) -> &[u8]
        ensures { result.now ≡ name_of self.now };
}

impl Named for Place {
    ghost name_of = { λ place. place.name };

    fn name(&self) -> &[u8] {
        self.name.items()
    }
}

impl Named for FlightDraft {
    ghost name_of = { λ flight. flight.name };

    fn name(&self) -> &[u8] {
        self.name.items()
    }
}

impl Named for CostTable {
    ghost name_of = { λ table. table.name };

    fn name(&self) -> &[u8] {
        self.name.items()
    }
}

/// Items of different names. Contracts see the list.
pub struct NamedList<T: Named> {
    pub(crate) items: Vec<T>,
    pub(crate) index: NameIndex,
}

impl<T: Named> Drop for NamedList<T> {
    fn drop(self) {
        let NamedList { items: _, index: _ } = self;
    }
}

impl<T: Named> Model for NamedList<T> {
    ghost use Rattle.std.specs.Prelude.{◌≡◌, List, map};

    ghost Value = { List T };

    ghost view = { λ list. list.items.items };

    ghost invariant = { λ list. list.index ≡ map T.name_of list.items.items };
}

impl<T: Named> NamedList<T> {
    /// No items. It takes no memory.
    pub fn empty(alloc: Global) -> Self
        ensures { result ≡ [] }
    {
        NamedList {
            items: Vec::new(alloc),
            index: NameIndex::empty(alloc),
        }
    }

    /// The items.
    pub fn items(&self) -> &[T]
        ensures { result.now ≡ self.now }
    {
        &self.items
    }

    /// The names of the items.
    pub fn names(&self) -> &NameIndex
        ensures { result.now ≡ map T.name_of self.now }
    {
        &self.index
    }

    /// Adds an item, of a new name, at the end.
    pub fn add(&mut self, alloc: Global, item: T) -> Result<(), OutOfMemory>
        requires fresh { position_of (T.name_of item) (map T.name_of self.old) ≡ None }
        requires room { length self.old < 2 ^ 32 - 1 }
        ensures ok { OnOk result (self.new ≡ self.old ++ item ∷ []) }
        ensures err { OnErr result (self.new ≡ self.old) }
    {
        self.items.reserve(1)?;
        self.index.add(alloc, item.name())?;
        // There is room for it.
        let _ = self.items.push(item);
        Ok(())
    }

    /// The items alone.
    pub fn into_items(self) -> Sequence<T>
        ensures { result ≡ self }
    {
        let NamedList { items, index: _ } = self;
        Sequence::from_vec(items)
    }
}
