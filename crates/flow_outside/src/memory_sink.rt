//! An output in memory.
ghost use Rattle.std.specs.Prelude.{◌≡◌, ◌<◌, [], length, IfOk, OnOk, OnErr};
ghost use Rattle.std.specs.Result.{result_ok};

use crate::schedule::{Schedule, one_more};
use crate::{Failed, Sink};
use flow_types::OutOfMemory;
use std::alloc::Global;
use std::marker::Model;

/// An output in memory, which tells what was written. It has room for so many bytes in all, and
/// takes at most `step` of them in a call. A call that was named by `fail` fails, and so does one
/// that has bytes to write and finds the room full; the count rises in these calls alone.
#[derive(Debug)]
pub struct MemorySink {
    written: Vec<u8>,
    room: usize,
    step: usize,
    schedule: Schedule,
    faults: u64,
}

impl Drop for MemorySink {
    fn drop(self) {
        let MemorySink {
            written: _,
            room: _,
            step: _,
            schedule: _,
            faults: _,
        } = self;
    }
}

impl Model for MemorySink {
    ghost use Rattle.std.specs.Prelude.{◌<◌, ◌≤◌, vec_len, vec_capacity};
    ghost use Rattle.flow_outside.specs.Memory.{SinkView};

    ghost Value = { SinkView };

    ghost view = { λ s. record {
      written = s.written.items;
      room = s.room;
      step = s.step;
      calls = s.schedule;
      faults = s.faults;
    } };

    ghost invariant = { λ s.
        (vec_len s.written ≤ s.room) × (s.room ≤ vec_capacity s.written) × (0 < s.step) };
}

impl MemorySink {
    ghost use Rattle.flow_outside.specs.Memory.{no_calls, with_failing};

    /// An output to which nothing was written, none of whose calls is to fail. It takes memory for
    /// all its room.
    pub fn new(alloc: Global, room: usize, step: usize) -> Result<Self, OutOfMemory>
        requires { 0 < step }
        ensures { IfOk result (λ sink. sink ≡ record {
          written = [];
          room = room;
          step = step;
          calls = no_calls;
          faults = 0;
        }) }
    {
        Ok(MemorySink {
            written: Vec::with_capacity(alloc, room)?,
            room,
            step,
            schedule: Schedule::new(alloc),
            faults: 0,
        })
    }

    /// Names a call that is to fail, counted from 1 over all calls of the trait. After
    /// `OutOfMemory` all is as before.
    pub fn fail(&mut self, call: u64) -> Result<(), OutOfMemory>
        ensures ok { OnOk result (self.new ≡ record self.old {
          calls = with_failing self.old.calls call;
        }) }
        ensures err { OnErr result (self.new ≡ self.old) }
    {
        self.schedule.fail(call)
    }

    /// What was written.
    pub fn bytes(&self) -> &[u8]
        ensures { result.now ≡ self.now.written }
    {
        &self.written
    }
}

impl Sink for MemorySink {
    ghost use Rattle.std.specs.Prelude.{Some};
    ghost use Rattle.flow_outside.specs.Memory.{count_taken, after_write};

    ghost seen = { λ s. record { written = Some s.written; faults = s.faults } };

    fn write(&mut self, bytes: &[u8]) -> Result<usize, Failed>
        ensures count { result_ok result ≡ count_taken self.old (length bytes.now) }
        ensures some { IfOk result (λ n. 0 < length bytes.now → 0 < n) }
        ensures after { self.new ≡ after_write self.old bytes.now }
    {
        let named = self.schedule.next_fails();
        let left = self.room - self.written.len();
        if named || (left == 0 && !bytes.is_empty()) {
            self.faults = one_more(self.faults);
            return Err(Failed);
        }
        let count = self.step.min(left).min(bytes.len());
        let _ = self.written.extend_from_slice(&bytes[..count]);
        Ok(count)
    }
}
