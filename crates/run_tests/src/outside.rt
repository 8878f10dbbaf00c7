//! What no clause says: that calls succeed with ample memory, and what the adapter does over the
//! system's files. What the adapter of the standard output writes is compared by the program's
//! stored run.
ghost use Rattle.std.specs.Prelude.{◌≡◌, None};
ghost use Rattle.flow_outside.specs.Counts.{count_after};

use flow_outside::{
    Failed, Files, HostFiles, LoadFault, MemoryFiles, MemorySink, StoreFault, load, put_all,
};
use std::test::Fail;
use std::{env, fs, process};

const TEXT: &[u8] = b"day,2011-03-14T06:00,15,8\nflight,F1\n";

/// Files that tell nothing: each name has the first of "abcde", one byte a read, and after so many
/// calls each one fails.
#[derive(Drop)]
struct Dripping {
    size: u64,
    left: u64,
    works: u64,
    faults: u64,
}

impl Dripping {
    fn call(&mut self) -> Result<(), Failed>
        ensures count { self.new.faults ≡ count_after result self.old.faults }
    {
        if self.works == 0 {
            self.faults = self.faults.saturating_add(1);
            return Err(Failed);
        }
        self.works -= 1;
        Ok(())
    }
}

impl Files for Dripping {
    ghost seen = { λ d. record { held = None; faults = d.faults; store_faults = 0 } };

    fn size(&mut self, _name: &str) -> Result<u64, Failed> {
        self.call()?;
        Ok(self.size)
    }

    fn read_at(&mut self, _name: &str, place: u64, into: &mut [u8]) -> Result<usize, Failed> {
        self.call()?;
        if place >= self.left || place >= 5 || into.is_empty() {
            return Ok(0);
        }
        into[0] = b'a' + place as u8;
        Ok(1)
    }

    fn store(&mut self, _name: &str, _bytes: &[u8]) -> Result<(), StoreFault> {
        Err(StoreFault::OutOfMemory)
    }
}

#[test]
fn a_read_fails_in_mid_stream(rt: HostRuntime) -> Result<(), Fail> {
    let alloc = rt.alloc();
    // The size that is answered, the bytes that are there, the calls that work, and the text.
    let rows = [
        (5, 5, 6, Some("abcde")),
        (5, 5, 5, None),
        (5, 5, 3, None),
        (5, 5, 0, None),
        (5, 3, 6, Some("abc")),
        (3, 5, 6, Some("abc")),
        (0, 0, 1, Some("")),
    ];
    for (size, left, works, want) in rows {
        let mut files = Dripping {
            size,
            left,
            works,
            faults: 0,
        };
        match (load(alloc, &mut files, "any", 5), want) {
            (Ok(text), Some(want)) => assert_eq!(rt; text.as_slice(), want.as_bytes()),
            (Err(fault), None) => assert_eq!(rt; fault, LoadFault::Read),
            _ => panic!(rt; "size {size}, left {left}, works {works}"),
        }
    }
    Ok(())
}

#[test]
fn a_text_in_memory_is_stored_and_loaded(rt: HostRuntime) -> Result<(), Fail> {
    let alloc = rt.alloc();
    // The call that fails, the limit, and what `load` answers.
    let rows = [
        (0, 36, Ok(TEXT)),
        (0, 35, Err(LoadFault::TooLong(36))),
        (1, 36, Ok(b"older".as_slice())),
        (2, 36, Err(LoadFault::Read)),
        (3, 36, Err(LoadFault::Read)),
        (4, 36, Ok(TEXT)),
    ];
    for (call, limit, want) in rows {
        let mut files = MemoryFiles::new(alloc);
        files.fail(call)?;
        files.add("day.csv", b"older")?;
        let _ = files.store("day.csv", TEXT);
        match (load(alloc, &mut files, "day.csv", limit), want) {
            (Ok(text), Ok(want)) => assert_eq!(rt; text.as_slice(), want),
            (Err(fault), Err(want)) => assert_eq!(rt; fault, want),
            _ => panic!(rt; "call {call}, limit {limit}"),
        }
    }
    Ok(())
}

#[test]
fn an_output_in_memory_takes_a_text(rt: HostRuntime) -> Result<(), Fail> {
    let alloc = rt.alloc();
    // The room, the step, the call that is to fail, and how many bytes are written in the end.
    let rows = [
        (36, 16, 0, 36),
        (100, 36, 0, 36),
        (36, 1, 0, 36),
        (100, 16, 3, 32),
        (100, 16, 1, 0),
        (20, 16, 0, 20),
        (0, 16, 0, 0),
    ];
    for (room, step, call, written) in rows {
        let mut sink = MemorySink::new(alloc, room, step)?;
        sink.fail(call)?;
        let answer = put_all(&mut sink, TEXT);
        assert_eq!(rt; answer.is_ok(), written == 36, "room {room}, step {step}");
        assert_eq!(rt; sink.bytes(), &TEXT[..written], "room {room}, step {step}");
        assert_eq!(rt; put_all(&mut sink, b""), Ok(()));
    }
    Ok(())
}

#[test]
fn the_systems_files_are_read_and_written(rt: HostRuntime) -> Result<(), Fail> {
    let alloc = rt.alloc();
    let folder = env::temp_dir(&rt)?;
    let id = process::id(rt.process());
    let name = format!(in alloc; "{}/flow_outside_{id}", folder.as_path().display())?;
    let mut files = HostFiles::new(&rt);
    assert_eq!(rt;
        load(alloc, &mut files, name.as_str(), 36).err(),
        Some(LoadFault::Read)
    );
    files
        .store(name.as_str(), b"a text that is longer than the next one")
        .map_err(|_| "stored")?;
    files
        .store(name.as_str(), TEXT)
        .map_err(|_| "stored again")?;
    let text = load(alloc, &mut files, name.as_str(), 36);
    let long = load(alloc, &mut files, name.as_str(), 35);
    let mut tail = [0; 8];
    let count = files.read_at(name.as_str(), 30, &mut tail);
    let end = files.read_at(name.as_str(), 36, &mut tail);
    fs::remove_file(&rt, name.as_str())?;
    assert_eq!(rt; text?.as_slice(), TEXT);
    assert_eq!(rt; long.err(), Some(LoadFault::TooLong(36)));
    assert_eq!(rt; count, Ok(6));
    assert_eq!(rt; &tail[..6], b"ht,F1\n".as_slice());
    assert_eq!(rt; end, Ok(0));
    // A folder has no size, and no file can be made in what is not there.
    assert_eq!(rt; files.size("/"), Err(Failed));
    assert_eq!(rt;
        files.store("/no/such/folder/text", TEXT),
        Err(StoreFault::Failed)
    );
    Ok(())
}
