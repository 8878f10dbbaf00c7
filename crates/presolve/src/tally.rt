//! Counting the entries of a tableau while its program is made.
ghost use Rattle.std.specs.Prelude.{◌≡◌, ◌↔◌, IsTrue};
ghost use Rattle.presolve.specs.Counting.{IsPast};
ghost use Rattle.presolve.specs.declared.tally.Refused.TheVariants as refused;

use flow_types::OutOfMemory;

/// Why there is no program.
#[derive(Clone, Copy, Debug, PartialEq, Eq)]
pub enum Refused {
    /// Its first tableau has more entries than there is room for.
    Wide,
    OutOfMemory,
}

impl From<OutOfMemory> for Refused {
    ghost from_gives = { λ _ e. e ≡ refused.OutOfMemory };

    fn from(_: OutOfMemory) -> Self {
        Refused::OutOfMemory
    }
}

/// How many entries the tableau has so far, at the least, and how many it may have, if there is a
/// limit.
#[derive(Clone, Copy, Debug)]
pub struct Tally {
    pub entries: u64,
    pub cells: Option<u32>,
}

impl Tally {
    ghost use Rattle.std.specs.Prelude.{◌≡◌, ◌+◌, ◌*◌, IfErr, OnOk};
    ghost use Rattle.presolve.specs.Counting.{IfWide, IsCounted, IsPast};
    ghost use Rattle.presolve.specs.declared.tally.Refused.TheVariants as refused;

    /// No entries yet.
    pub fn new(cells: Option<u32>) -> Tally
        ensures { result ≡ record { entries = 0; cells = cells } }
    {
        Tally { entries: 0, cells }
    }

    /// Counts this many times `each` more.
    pub fn add(&mut self, count: usize, each: u64) -> Result<(), Refused>
        ensures counted { OnOk result (IsCounted (count * each) self.old self.new) }
        ensures wide { IfErr result (λ refused. IfWide refused
            (IsPast self.old.cells (self.old.entries + count * each))) }
        ensures room { OnOk result (IsPast self.new.cells self.new.entries → ⊥) }
        ensures only { IfErr result (λ why. why ≡ refused.Wide) }
    {
        let more = (count as u64).saturating_mul(each);
        self.entries = self.entries.saturating_add(more);
        if is_past(self.cells, self.entries) {
            return Err(Refused::Wide);
        }
        Ok(())
    }
}

// Whether so many entries are too many.
fn is_past(cells: Option<u32>, entries: u64) -> bool
    ensures { IsTrue result ↔ IsPast cells entries }
{
    match cells {
        None => false,
        Some(cells) => u64::from(cells) < entries,
    }
}
