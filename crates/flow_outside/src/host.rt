//! The files and the standard output of the system. They are the trusted edge: no clause says which
//! bytes the system reads or writes.
ghost use Rattle.std.specs.Prelude.{◌≡◌, ◌<◌, ◌≤◌, length, Err, IfOk, OnErr};
ghost use Rattle.std.specs.Result.{result_ok};
ghost use Rattle.flow_outside.specs.Counts.{count_after};

use crate::kept_open::KeptOpen;
use crate::schedule::one_more;
use crate::{Failed, Files, Sink, StoreFault};
use std::io::{ErrorKind, Read, Seek, SeekFrom};
use std::marker::Model;
use std::{fs, io, rt};

/// The system's files, which tell nothing of what they hold. A name is a path. Each error raises
/// the count that its call belongs to by one, and nothing else changes a count; contracts see the
/// two counts.
///
/// A file that is read in pieces is opened once: the one that was read last stays open until
/// another one is read, a size is asked for, or something is stored.
#[derive(Drop)]
pub struct HostFiles<R: rt::Files> {
    rt: R,
    faults: u64,
    store_faults: u64,
    last_read: Option<KeptOpen<R::File>>,
}

/// The standard output, which doesn't tell what was written. Each error raises the count by one,
/// and nothing else changes it; contracts see the count.
#[derive(Drop)]
pub struct HostSink<R> {
    rt: R,
    faults: u64,
}

impl<R: rt::Files> Model for HostFiles<R> {
    ghost use Rattle.flow_outside.specs.Counts.{FilesCounts};

    ghost Value = { FilesCounts };

    ghost view = { λ h. record { faults = h.faults; store_faults = h.store_faults } };
}

impl<R> Model for HostSink<R> {
    ghost use Rattle.std.specs.Prelude.{ℕ};

    ghost Value = { ℕ };

    ghost view = { λ h. h.faults };
}

/// Hands an answer of the system on. An error raises the count.
fn counted<T>(answer: io::Result<T>, count: &mut u64) -> Result<T, Failed>
    ensures value { result_ok result ≡ result_ok answer }
    ensures count { count.new ≡ count_after result count.old }
{
    match answer {
        Ok(value) => Ok(value),
        Err(_) => {
            *count = one_more(*count);
            Err(Failed)
        }
    }
}

/// The length of a file. A name that isn't a regular file's is an error, since a folder, a pipe or
/// a device has no length to read.
fn file_len<R: rt::Files>(rt: &R, name: &str) -> io::Result<u64> {
    let metadata = fs::metadata(rt, name)?;
    if !metadata.is_file() {
        return Err(io::Error::from(ErrorKind::InvalidInput));
    }
    Ok(metadata.len())
}

/// One read of a file, from an offset on.
fn read_part<F: Read + Seek>(file: &mut F, offset: u64, into: &mut [u8]) -> io::Result<usize>
    ensures within { IfOk result (λ n. n ≤ length into.old) }
{
    file.seek(SeekFrom::Start(offset))?;
    file.read(into)
}

/// The file of this name: the one that was read last, or else a new one.
fn opened<R: rt::Files>(
    rt: &R,
    last_read: Option<KeptOpen<R::File>>,
    name: &str,
) -> io::Result<KeptOpen<R::File>> {
    if let Some(kept) = last_read {
        if kept.has_name(name) {
            return Ok(kept);
        }
    }
    Ok(KeptOpen::new(fs::open(rt, name)?, name))
}

/// One write to the standard output. To write nothing of a piece that isn't empty is an error.
fn write_part<R: Print>(rt: &R, bytes: &[u8]) -> io::Result<usize>
    ensures within { IfOk result (λ n. n ≤ length bytes.now) }
    ensures some { IfOk result (λ n. 0 < length bytes.now → 0 < n) }
{
    let count = rt.write_some(bytes)?;
    if count == 0 && !bytes.is_empty() {
        return Err(io::Error::from(ErrorKind::WriteZero));
    }
    Ok(count)
}

impl<R: rt::Files> HostFiles<R> {
    ghost use Rattle.std.specs.Prelude.{◌≡◌, ◌≤◌, length, IfOk};

    /// The files that the runtime of `main` reaches. Both counts are 0. It takes no memory.
    pub fn new(rt: R) -> Self
        ensures { result ≡ record { faults = 0; store_faults = 0 } }
    {
        HostFiles {
            rt,
            faults: 0,
            store_faults: 0,
            last_read: None,
        }
    }

    // One read, of the file that was read last if that has the name.
    fn read_on(&mut self, name: &str, offset: u64, into: &mut [u8]) -> io::Result<usize>
        ensures within { IfOk result (λ n. n ≤ length into.old) }
        ensures same { self.new ≡ self.old }
    {
        let mut kept = opened(&self.rt, self.last_read.take(), name)?;
        let count = read_part(kept.file(), offset, into)?;
        self.last_read = Some(kept);
        Ok(count)
    }
}

impl<R: rt::Files> Files for HostFiles<R> {
    ghost use Rattle.std.specs.Prelude.{None};

    ghost seen = { λ h. record { held = None; faults = h.faults; store_faults = h.store_faults } };

    fn size(&mut self, name: &str) -> Result<u64, Failed>
        ensures after { self.new ≡ record self.old { faults = count_after result self.old.faults } }
    {
        self.last_read = None;
        counted(file_len(&self.rt, name), &mut self.faults)
    }

    fn read_at(&mut self, name: &str, offset: u64, into: &mut [u8]) -> Result<usize, Failed>
        ensures within { IfOk result (λ n. n ≤ length into.old) }
        ensures after { self.new ≡ record self.old { faults = count_after result self.old.faults } }
    {
        let answer = self.read_on(name, offset, into);
        counted(answer, &mut self.faults)
    }

    fn store(&mut self, name: &str, bytes: &[u8]) -> Result<(), StoreFault>
        ensures failed { OnErr result (result ≡ Err StoreFault.Failed) }
        ensures after { self.new ≡ record self.old {
          store_faults = count_after result self.old.store_faults;
        } }
    {
        self.last_read = None;
        let stored = fs::write(&self.rt, name, bytes);
        counted(stored, &mut self.store_faults).map_err(|_| StoreFault::Failed)
    }
}

impl<R: Print> HostSink<R> {
    /// The standard output that the runtime of `main` reaches. The count is 0. It takes no memory.
    pub fn new(rt: R) -> Self
        ensures { result ≡ 0 }
    {
        HostSink { rt, faults: 0 }
    }
}

impl<R: Print> Sink for HostSink<R> {
    ghost use Rattle.std.specs.Prelude.{None};

    ghost seen = { λ count. record { written = None; faults = count } };

    fn write(&mut self, bytes: &[u8]) -> Result<usize, Failed>
        ensures within { IfOk result (λ n. n ≤ length bytes.now) }
        ensures some { IfOk result (λ n. 0 < length bytes.now → 0 < n) }
        ensures after { self.new ≡ count_after result self.old }
    {
        counted(write_part(&self.rt, bytes), &mut self.faults)
    }
}
