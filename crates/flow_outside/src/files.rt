//! Files, by name.
ghost use Rattle.std.specs.Prelude.{◌≡◌, ◌≤◌, length, IfOk, OnOk, OnErr, IsErrOf};
ghost use Rattle.flow_outside.specs.Counts.{Rose};
ghost use Rattle.flow_outside.specs.Held.{IfTold, HasName, ReadsPart, stored, KeepsOthers};
ghost use Rattle.flow_outside.specs.Seen.{AreKept, FilesSeen};

/// A call on files or on an output failed.
#[derive(Clone, Copy, Debug, PartialEq, Eq)]
pub struct Failed;

/// Why bytes were not stored.
#[derive(Clone, Copy, Debug, PartialEq, Eq)]
pub enum StoreFault {
    /// The store failed. Some of the bytes may stand under the name.
    Failed,
    /// There was no memory for the bytes, and nothing was stored.
    OutOfMemory,
}

/// Files, by name. Only `store` changes what they hold.
///
/// The two counts of faults are 64 bits wide. They never fall, and stop at their last value, where
/// a fault needs no rise.
pub trait Files {
    /// What the names hold, where it is told, how often `size` and `read_at` failed, and how often
    /// `store` did.
    ghost seen: { Self → FilesSeen };

    /// The length of what the name holds, in bytes. `Failed` always comes where the files tell
    /// that they don't have the name, and else only where `faults` rose; after an answer it stays.
    fn size(&mut self, name: &str) -> Result<u64, Failed>
        ensures length { IfOk result (λ n.
            IfTold (seen self.old).held name.now (λ bytes. n ≡ length bytes)) }
        ensures present { OnOk result (HasName (seen self.old).held name.now) }
        ensures unfailed { OnOk result ((seen self.new).faults ≡ (seen self.old).faults) }
        ensures failed { OnErr result
            (HasName (seen self.old).held name.now
            → Rose (seen self.old).faults (seen self.new).faults) }
        ensures kept { AreKept (seen self.old) (seen self.new) };

    /// Puts bytes of what the name holds, from an offset on (0 is the first byte), in front of
    /// `into` and answers how many: at least one where one is left and `into` isn't empty. `Failed`
    /// comes as for `size`; nothing is then said of `into`. After an answer `faults` stays.
    fn read_at(&mut self, name: &str, offset: u64, into: &mut [u8]) -> Result<usize, Failed>
        ensures within { IfOk result (λ n. n ≤ length into.old) }
        ensures part { IfOk result (λ n.
            IfTold (seen self.old).held name.now
            (λ bytes. ReadsPart bytes offset n into.old into.new)) }
        ensures present { OnOk result (HasName (seen self.old).held name.now) }
        ensures unfailed { OnOk result ((seen self.new).faults ≡ (seen self.old).faults) }
        ensures failed { OnErr result
            (HasName (seen self.old).held name.now
            → Rose (seen self.old).faults (seen self.new).faults) }
        ensures kept { AreKept (seen self.old) (seen self.new) };

    /// Puts these bytes under the name, in place of what it held. `Failed` comes only where
    /// `store_faults` rose, which stays after any other answer; nothing is then said of what the
    /// name holds, and every other name has what it had. After `OutOfMemory` all is as before.
    fn store(&mut self, name: &str, bytes: &[u8]) -> Result<(), StoreFault>
        ensures ok { OnOk result
            ((seen self.new).held ≡ stored (seen self.old).held name.now bytes.now) }
        ensures unfailed { OnOk result
            ((seen self.new).store_faults ≡ (seen self.old).store_faults) }
        ensures others { IsErrOf result StoreFault.Failed →
            KeepsOthers (seen self.old).held (seen self.new).held name.now }
        ensures failed { IsErrOf result StoreFault.Failed →
            Rose (seen self.old).store_faults (seen self.new).store_faults }
        ensures unchanged { IsErrOf result StoreFault.OutOfMemory
            → (seen self.new).held ≡ (seen self.old).held }
        ensures uncounted { IsErrOf result StoreFault.OutOfMemory →
            (seen self.new).store_faults ≡ (seen self.old).store_faults }
        ensures counts { (seen self.old).store_faults ≤ (seen self.new).store_faults }
        ensures faults { (seen self.new).faults ≡ (seen self.old).faults };
}
