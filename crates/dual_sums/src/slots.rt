//! Numbers by position, all of which are 0 again at no cost.
ghost use Rattle.std.specs.Prelude.{◌≡◌, ◌<◌, ◌≤◌, ◌==◌, All, IfOk, ℤ, if◌then◌else◌, length, pos, replicate, slice_index, slice_index_or};

use flow_types::OutOfMemory;
use std::alloc::Global;
use std::marker::Model;

/// A number for each position: 20 bytes each. Contracts see it as the list of numbers. What was set
/// under an earlier stamp counts as 0.
#[derive(Debug)]
pub struct Slots {
    values: Vec<i128>,
    // The stamp under which each was set.
    stamps: Vec<u32>,
    stamp: u32,
}

impl Drop for Slots {
    fn drop(self) {
        let Slots {
            values: _,
            stamps: _,
            stamp: _,
        } = self;
    }
}

impl Model for Slots {
    ghost use Rattle.std.specs.Prelude.{◌≡◌, ◌≤◌, All, List, ℤ, length};
    ghost use Rattle.dual_sums.specs.Slots.{values_in};

    ghost Value = { List ℤ };

    ghost view = { λ s. values_in s.stamp s.stamps.items s.values.items };

    ghost invariant = { λ s. (length s.stamps.items ≡ length s.values.items)
        × All (λ stamp. stamp ≤ s.stamp) s.stamps.items };
}

impl Slots {
    ghost use Rattle.std.specs.Prelude.{◌≡◌, ◌<◌, IfOk, length, pos, replicate, slice_index_or, slice_set};

    /// So many zeros.
    pub fn new(alloc: Global, positions: usize) -> Result<Slots, OutOfMemory>
        ensures { IfOk result (λ values. values ≡ replicate positions (pos 0)) }
    {
        Ok(Slots {
            values: zeros(alloc, positions)?,
            stamps: no_stamps(alloc, positions)?,
            stamp: 0,
        })
    }

    /// Leaves zeros.
    #[tactic(auto, using(crate::proofs::SlotFacts::later_earlier))]
    pub fn clear(&mut self)
        ensures { self.new ≡ replicate (length self.old) (pos 0) }
    {
        self.stamp = next_stamp(&mut self.stamps, self.stamp);
    }

    /// The number at a position.
    #[tactic(auto, using(crate::proofs::SlotFacts::long))]
    pub fn get(&self, position: usize) -> i128
        requires { position < length self.now }
        ensures { result ≡ slice_index_or self.now position (pos 0) }
    {
        read(&self.values, &self.stamps, self.stamp, position)
    }

    /// Sets the number at a position.
    #[tactic(auto, using(crate::proofs::SlotFacts::long, crate::proofs::SlotFacts::set_value))]
    pub fn set(&mut self, position: usize, value: i128)
        requires { position < length self.old }
        ensures { self.new ≡ slice_set self.old position value }
    {
        self.stamps[position] = self.stamp;
        self.values[position] = value;
    }
}

// So many zeros.
fn zeros(alloc: Global, positions: usize) -> Result<Vec<i128>, OutOfMemory>
    ensures { IfOk result (λ values. values.items ≡ replicate positions (pos 0)) }
{
    Ok(vec![in alloc; 0; positions]?)
}

// A stamp of 0 for each position.
fn no_stamps(alloc: Global, positions: usize) -> Result<Vec<u32>, OutOfMemory>
    ensures { IfOk result (λ stamps. stamps.items ≡ replicate positions 0) }
{
    Ok(vec![in alloc; 0; positions]?)
}

// The value at a position, if it was set under this stamp.
fn read(values: &Vec<i128>, stamps: &Vec<u32>, stamp: u32, position: usize) -> i128
    requires values { position < length values.now.items }
    requires stamps { position < length stamps.now.items }
    ensures { result ≡ (if slice_index stamps.now.items position == stamp
        then slice_index_or values.now.items position (pos 0) else pos 0) }
{
    if stamps[position] == stamp {
        values[position]
    } else {
        0
    }
}

// A stamp above those of all positions, which are set to 0 where there is none.
fn next_stamp(stamps: &mut Vec<u32>, stamp: u32) -> u32
    requires { All (λ earlier. earlier ≤ stamp) stamps.old.items }
    ensures later { All (λ earlier. earlier < result) stamps.new.items }
    ensures length { length stamps.new.items ≡ length stamps.old.items }
{
    if stamp < u32::MAX {
        return stamp + 1;
    }
    clear_all(stamps);
    1
}

// Sets each to 0.
fn clear_all(stamps: &mut [u32])
    ensures length { length stamps.new ≡ length stamps.old }
    ensures clear { All (λ stamp. stamp ≡ 0) stamps.new }
{
    for stamp in stamps.iter_mut() {
        *stamp = 0;
    }
}
