//! Which calls are to fail, of an object in memory.
ghost use Rattle.std.specs.Prelude.{◌≡◌, OnOk, OnErr};
ghost use Rattle.flow_outside.specs.Counts.{raised};

use flow_types::OutOfMemory;
use std::alloc::Global;
use std::marker::Model;

/// A count with one more, which stops at the counter's last value.
pub(crate) fn one_more(count: u64) -> u64
    ensures { result ≡ raised count }
{
    if count < u64::MAX { count + 1 } else { count }
}

/// How many calls were made, and which are to fail.
#[derive(Debug, Drop)]
pub(crate) struct Schedule {
    made: u64,
    failing: Vec<u64>,
}

impl Model for Schedule {
    ghost use Rattle.flow_outside.specs.Memory.{Calls};

    ghost Value = { Calls };

    ghost view = { λ s. record { made = s.made; failing = s.failing.items } };
}

impl Schedule {
    ghost use Rattle.flow_outside.specs.Memory.{no_calls, with_failing, is_named, after_call};

    /// No call was made, and none is to fail. It takes no memory.
    pub(crate) fn new(alloc: Global) -> Self
        ensures { result ≡ no_calls }
    {
        Schedule {
            made: 0,
            failing: Vec::new(alloc),
        }
    }

    /// Names a call that is to fail.
    pub(crate) fn fail(&mut self, call: u64) -> Result<(), OutOfMemory>
        ensures ok { OnOk result (self.new ≡ with_failing self.old call) }
        ensures err { OnErr result (self.new ≡ self.old) }
    {
        self.failing.push(call)?;
        Ok(())
    }

    /// Counts one more call, and says whether it is to fail.
    pub(crate) fn next_fails(&mut self) -> bool
        ensures named { result ≡ is_named self.old }
        ensures made { self.new ≡ after_call self.old }
    {
        self.made = one_more(self.made);
        self.failing.contains(&self.made)
    }
}
