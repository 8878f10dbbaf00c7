//! Counts by place and period.
ghost use Rattle.std.specs.Prelude.{◌≡◌, ◌+◌, ◌*◌, ◌^◌, ◌<◌, EachIndex, slice_index};
ghost use Rattle.plan_rules.specs.Grid.{Fits, changed};

use std::alloc::{AllocError, Global};
use std::marker::Model;

/// What becomes of a count.
#[derive(Clone, Copy, Debug, PartialEq, Eq)]
pub enum Change {
    /// One more.
    More,
    /// One less, and never below 0.
    Less,
}

/// A count for each place and each period, in one block of four bytes each.
#[derive(Debug, Drop)]
pub struct Grid {
    places: usize,
    periods: u16,
    counts: Vec<u32>,
}

impl Model for Grid {
    ghost use Rattle.std.specs.Prelude.{◌≡◌, ◌*◌, vec_len};
    ghost use Rattle.plan_rules.specs.Tally.{CountGrid};

    ghost Value = { CountGrid };

    ghost view = { λ a. record {
      places = a.places;
      periods = a.periods;
      counts = a.counts.items;
    } };

    ghost invariant = { λ a. vec_len a.counts ≡ a.places * a.periods };
}

impl Grid {
    ghost use Rattle.std.specs.Prelude.{◌≡◌, ◌==◌, ◌&&◌, ◌*◌, ◌<◌, ◌≤◌, ◌^◌, ℕ, nat_le, nat_lt, IfOk, length, slice_index};
    ghost use Rattle.flow_types.specs.Counts.{one_if};
    ghost use Rattle.plan_rules.specs.Grid.{Changes, IsEmpty, SameSize, count_at};

    /// A grid of zeros.
    pub fn new(alloc: Global, places: usize, periods: u16) -> Result<Grid, AllocError>
        requires { places * periods < 2 ^ 64 }
        ensures size { IfOk result (λ grid. (grid.places ≡ places) × (grid.periods ≡ periods)) }
        ensures zeros { IfOk result IsEmpty }
    {
        Ok(Grid {
            places,
            periods,
            counts: vec![in alloc; 0; places * usize::from(periods)]?,
        })
    }

    /// Sets every count to zero.
    pub fn clear(&mut self)
        ensures size { SameSize self.old self.new }
        ensures zeros { IsEmpty self.new }
    {
        clear_all(&mut self.counts);
    }

    /// The count of the place in the period, 0 outside the grid.
    pub fn get(&self, place: u32, period: u16) -> u32
        ensures count { place < self.now.places → period < self.now.periods
            → result ≡ count_at self.now place period }
        ensures places { self.now.places ≤ place → result ≡ 0 }
        ensures periods { self.now.periods ≤ period → result ≡ 0 }
    {
        if (place as usize) < self.places && period < self.periods {
            self.counts[place as usize * usize::from(self.periods) + usize::from(period)]
        } else {
            0
        }
    }

    /// The counts of the place, by period.
    pub fn row(&self, place: u32) -> &[u32]
        requires { place < self.now.places }
        ensures length { length result.now ≡ self.now.periods }
        ensures counts { (t : ℕ) → t < self.now.periods
            → slice_index result.now t ≡ count_at self.now place t }
    {
        let start = place as usize * usize::from(self.periods);
        &self.counts[start..start + usize::from(self.periods)]
    }

    /// Counts one more, or one less, at the place in the period, nothing outside the grid.
    pub fn change(&mut self, change: Change, place: u32, period: u16)
        ensures { Changes change (λ k t. one_if ((place == k) && (period == t))) self.old self.new }
    {
        let periods = self.periods;
        if (place as usize) < self.places && period < periods {
            let at = place as usize * usize::from(periods) + usize::from(period);
            self.counts[at] = changed(change, self.counts[at]);
        }
    }

    /// Counts one more, or one less, at the place in each period from `from` up to, but not
    /// including, `to`, nothing outside the grid.
    pub fn change_stay(&mut self, change: Change, place: u32, from: u16, to: u16)
        ensures { Changes change
            (λ k t. one_if ((place == k) && nat_le from t && nat_lt t to)) self.old self.new }
    {
        for period in from..to.min(self.periods) {
            self.change(change, place, period);
        }
    }
}

// The count after a change by one, where that fits in 32 bits.
fn changed(change: Change, count: u32) -> u32
    ensures { Fits change count 1 → result ≡ changed change count 1 }
{
    match change {
        Change::More => count.saturating_add(1),
        Change::Less => count.saturating_sub(1),
    }
}

// Sets each number to zero.
fn clear_all(counts: &mut [u32])
    ensures { EachIndex counts.new (λ k. slice_index counts.new k ≡ 0) }
{
    for count in counts.iter_mut() {
        *count = 0;
    }
}
