//! An output, to which bytes are written in order.
ghost use Rattle.std.specs.Prelude.{◌≡◌, ◌<◌, ◌≤◌, length, take, IfOk, OnOk, OnErr};
ghost use Rattle.flow_outside.specs.Counts.{Rose};
ghost use Rattle.flow_outside.specs.Seen.{SinkSeen};
ghost use Rattle.flow_outside.specs.Written.{appended};

use crate::Failed;

/// An output. Its count of faults is 64 bits wide. It never falls, and stops at its last value,
/// where a fault needs no rise.
pub trait Sink {
    /// All that was written, where it is told, and how often `write` failed.
    ghost seen: { Self → SinkSeen };

    /// Appends bytes from the front of the piece, and answers how many: at least one where the
    /// piece isn't empty. `Failed` comes only where `faults` rose, and then nothing was appended.
    /// After an answer `faults` stays.
    fn write(&mut self, bytes: &[u8]) -> Result<usize, Failed>
        ensures within { IfOk result (λ n. n ≤ length bytes.now) }
        ensures some { IfOk result (λ n. 0 < length bytes.now → 0 < n) }
        ensures appended { IfOk result (λ n.
            (seen self.new).written ≡ appended (seen self.old).written (take n bytes.now)) }
        ensures unfailed { OnOk result ((seen self.new).faults ≡ (seen self.old).faults) }
        ensures nothing { OnErr result ((seen self.new).written ≡ (seen self.old).written) }
        ensures failed { OnErr result (Rose (seen self.old).faults (seen self.new).faults) }
        ensures counts { (seen self.old).faults ≤ (seen self.new).faults };
}
