//! Names by their positions, and fields that name what is known or what is new.
ghost use Rattle.std.specs.Prelude.{◌≡◌, ◌<◌, ◌≤◌, ◌-◌, ◌^◌, ◌++◌, ◌∷◌, [], None, IfOk, IfSome, OnOk, OnErr, IsTrue, length};
ghost use Rattle.csv.specs.Records.{fields_of};
ghost use Rattle.flow_types.specs.Words.{is_name};
ghost use Rattle.text_records.specs.Errors.{Finds};
ghost use Rattle.text_records.specs.Names.{known_at, known_in, new_name, position_of};

use crate::error::FieldFault;
use crate::fields::name_in;
use csv::ByteRecord;
use flow_types::{Cause, OutOfMemory};
use indexmap::IndexSet;
use std::alloc::Global;
use std::marker::Model;

/// Names in the order in which they came, found by their bytes. Contracts see it as the list.
#[derive(Drop)]
pub struct NameIndex {
    names: IndexSet<Vec<u8>>,
}

impl Model for NameIndex {
    ghost use Rattle.std.specs.Prelude.{ℕ, ◌<◌, ◌^◌, List, length, map};

    ghost Value = { List (List ℕ) };

    ghost view = { λ index. map (λ name. name.items) index.names.keys };

    ghost invariant = { λ index. length index.names.keys < 2 ^ 32 };
}

impl NameIndex {
    /// No names. It takes no memory.
    pub fn empty(alloc: Global) -> Self
        ensures { result ≡ [] }
    {
        NameIndex {
            names: IndexSet::new(alloc),
        }
    }

    /// How many names there are.
    pub fn len(&self) -> usize
        ensures { result ≡ length self.now }
    {
        self.names.len()
    }

    /// The position of the name.
    pub fn find(&self, name: &[u8]) -> Option<u32>
        ensures position { result ≡ position_of name.now self.now }
        ensures within { IfSome result (λ k. k < length self.now) }
    {
        match self.names.get_index_of(name) {
            Some(k) => Some(k as u32),
            None => None,
        }
    }

    /// Adds a name, which isn't among them yet, at the end. It takes memory for a copy of it.
    pub fn add(&mut self, alloc: Global, name: &[u8]) -> Result<(), OutOfMemory>
        requires fresh { position_of name.now self.old ≡ None }
        requires room { length self.old < 2 ^ 32 - 1 }
        ensures ok { OnOk result (self.new ≡ self.old ++ name.now ∷ []) }
        ensures err { OnErr result (self.new ≡ self.old) }
    {
        let name = Vec::from_slice(alloc, name)?;
        self.names.insert_full(name)?;
        Ok(())
    }
}

/// The position, where there is one, of what the field of this number names.
pub fn known_at(number: usize, position: Option<u32>) -> Result<u32, FieldFault>
    ensures { Finds (λ k. k) result (known_at number position) }
{
    position.ok_or(FieldFault {
        field: number,
        cause: Cause::UnknownName,
    })
}

/// The position of the name in the field of this number, which has to be one of these.
#[tactic(auto, unfolding(crate::specs::Names::known_in))]
pub fn known_in(number: usize, names: &NameIndex, row: &ByteRecord) -> Result<u32, FieldFault>
    requires { 1 ≤ number }
    ensures { Finds (λ k. k) result (known_in number names.now (fields_of row.now)) }
{
    let name = name_in(row, number)?;
    known_at(number, names.find(name))
}

/// The name in field 2, which isn't among these yet, and of which there may be so many.
#[tactic(auto, unfolding(crate::specs::Names::new_name))]
pub fn new_name<'a>(
    limit: usize,
    names: &NameIndex,
    row: &'a ByteRecord,
) -> Result<&'a [u8], FieldFault>
    ensures found { Finds (λ name. name.now) result (new_name limit names.now (fields_of row.now)) }
    ensures named { IfOk result (λ name. IsTrue (is_name name.now)) }
    ensures fresh { IfOk result (λ name. position_of name.now names.now ≡ None) }
    ensures room { OnOk result (length names.now < limit) }
{
    let name = name_in(row, 2)?;
    if names.find(name).is_some() {
        return Err(FieldFault {
            field: 2,
            cause: Cause::Repeated,
        });
    }
    if names.len() >= limit {
        return Err(FieldFault {
            field: 2,
            cause: Cause::Limit,
        });
    }
    Ok(name)
}
