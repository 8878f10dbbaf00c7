//! Files in memory.
ghost use Rattle.std.specs.Prelude.{◌≡◌, ◌↔◌, ◌-◌, length, min, IfOk, OnOk, OnErr, IsErr, IsErrOf, IsTrue};
ghost use Rattle.std.specs.Result.{result_ok};
ghost use Rattle.std.specs.FinMap as map;
ghost use Rattle.std.specs.Option.{option_copied};
ghost use Rattle.flow_outside.specs.Held.{IfTold, ReadsPart};

use crate::schedule::{Schedule, one_more};
use crate::{Failed, Files, StoreFault};
use flow_types::OutOfMemory;
use std::alloc::Global;
use std::collections::BTreeMap;
use std::marker::Model;

/// Files in memory, which tell what they hold. A call that was named by `fail` fails and raises its
/// count. In every other call the counts stay, and only a name that isn't there fails to be read.
#[derive(Debug)]
pub struct MemoryFiles {
    alloc: Global,
    files: BTreeMap<String, Vec<u8>>,
    schedule: Schedule,
    faults: u64,
    store_faults: u64,
}

impl Drop for MemoryFiles {
    fn drop(self) {
        let MemoryFiles {
            alloc: _,
            files: _,
            schedule: _,
            faults: _,
            store_faults: _,
        } = self;
    }
}

impl Model for MemoryFiles {
    ghost use Rattle.flow_outside.specs.Memory.{FilesView, coded_files};

    ghost Value = { FilesView };

    ghost coded = { coded_files };

    ghost use Rattle.flow_outside.specs.Memory.{held_by};

    ghost view = { λ m. record {
      held = held_by m.files.entries;
      calls = m.schedule;
      faults = m.faults;
      store_faults = m.store_faults;
    } };
}

impl MemoryFiles {
    ghost use Rattle.flow_outside.specs.Memory.{no_calls, with_failing, is_named, after_read};

    /// Files with no name, none of whose calls is to fail. This takes no memory; they grow by
    /// `alloc`.
    pub fn new(alloc: Global) -> Self
        ensures { result ≡ record {
          held = map.empty;
          calls = no_calls;
          faults = 0;
          store_faults = 0;
        } }
    {
        MemoryFiles {
            alloc,
            files: BTreeMap::new(alloc),
            schedule: Schedule::new(alloc),
            faults: 0,
            store_faults: 0,
        }
    }

    /// Puts a copy of these bytes under the name, in place of what it held. This is no call of the
    /// trait. After `OutOfMemory` all is as before.
    pub fn add(&mut self, name: &str, bytes: &[u8]) -> Result<(), OutOfMemory>
        ensures ok { OnOk result (self.new ≡ record self.old {
          held = map.insert self.old.held name.now bytes.now;
        }) }
        ensures err { OnErr result (self.new ≡ self.old) }
    {
        let name = String::from_str(self.alloc, name)?;
        let bytes = bytes.to_vec(self.alloc)?;
        self.files.insert(name, bytes)?;
        Ok(())
    }

    /// Names a call that is to fail, counted from 1 over all calls of the trait. After
    /// `OutOfMemory` all is as before.
    pub fn fail(&mut self, call: u64) -> Result<(), OutOfMemory>
        ensures ok { OnOk result (self.new ≡ record self.old {
          calls = with_failing self.old.calls call;
        }) }
        ensures err { OnErr result (self.new ≡ self.old) }
    {
        self.schedule.fail(call)
    }

    /// What the name holds, or `None` where it isn't there. This is no call of the trait.
    pub fn get(&self, name: &str) -> Option<&[u8]>
        ensures { option_copied result ≡ map.get self.now.held name.now }
    {
        let bytes = self.files.get(name)?;
        Some(bytes)
    }

    /// Counts a call of `size` or `read_at`, which fails where it is named.
    fn begin_read(&mut self) -> Result<(), Failed>
        ensures named { IsErr result ↔ IsTrue (is_named self.old.calls) }
        ensures after { self.new ≡ after_read self.old }
    {
        if self.schedule.next_fails() {
            self.faults = one_more(self.faults);
            return Err(Failed);
        }
        Ok(())
    }
}

/// Copies bytes from an offset on to the front of a buffer, as many as there are and as it has room
/// for.
fn copy_part(bytes: &[u8], offset: u64, into: &mut [u8]) -> usize
    ensures count { result ≡ min (length bytes.now - offset) (length into.old) }
    ensures part { ReadsPart bytes.now offset result into.old into.new }
{
    let start = (bytes.len() as u64).min(offset) as usize;
    let rest = &bytes[start..];
    let count = rest.len().min(into.len());
    into[..count].copy_from_slice(&rest[..count]);
    count
}

impl Files for MemoryFiles {
    ghost use Rattle.std.specs.Prelude.{Some};
    ghost use Rattle.flow_outside.specs.Memory.{size_told, count_read, after_read};
    ghost use Rattle.flow_outside.specs.Memory.{is_named, after_store};

    ghost seen = { λ m. record {
      held = Some m.held;
      faults = m.faults;
      store_faults = m.store_faults;
    } };

    fn size(&mut self, name: &str) -> Result<u64, Failed>
        ensures answer { result_ok result ≡ size_told self.old name.now }
        ensures after { self.new ≡ after_read self.old }
    {
        self.begin_read()?;
        let bytes = self.get(name).ok_or(Failed)?;
        Ok(bytes.len() as u64)
    }

    fn read_at(&mut self, name: &str, offset: u64, into: &mut [u8]) -> Result<usize, Failed>
        ensures answer { result_ok result ≡ count_read self.old name.now offset (length into.old) }
        ensures part { IfOk result (λ n. IfTold (Some self.old.held) name.now
            (λ bytes. ReadsPart bytes offset n into.old into.new)) }
        ensures after { self.new ≡ after_read self.old }
    {
        self.begin_read()?;
        let bytes = self.get(name).ok_or(Failed)?;
        Ok(copy_part(bytes, offset, into))
    }

    fn store(&mut self, name: &str, bytes: &[u8]) -> Result<(), StoreFault>
        ensures named { IsErrOf result StoreFault.Failed ↔ IsTrue (is_named self.old.calls) }
        ensures after { self.new ≡ after_store self.old name.now bytes.now result }
    {
        if self.schedule.next_fails() {
            self.store_faults = one_more(self.store_faults);
            return Err(StoreFault::Failed);
        }
        match self.add(name, bytes) {
            Ok(()) => Ok(()),
            Err(OutOfMemory) => Err(StoreFault::OutOfMemory),
        }
    }
}
