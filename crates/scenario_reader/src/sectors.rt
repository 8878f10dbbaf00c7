//! The sectors of a network that is read, of which there are few: a flight has at most 32 nodes.
ghost use Rattle.std.specs.Prelude.{◌≡◌, ◌<◌, ◌++◌, ◌∷◌, [], length};
ghost use Rattle.scenario_reader.specs.Sectors.{most_sectors};

use std::marker::Model;

/// The most sectors of a flight: its nodes without the two airports.
pub const MOST_SECTORS: usize = 30;

/// Sectors, named by their positions, in the order in which they came. Contracts see the list.
#[derive(Drop)]
pub struct Sectors {
    held: [u32; MOST_SECTORS],
    count: usize,
}

impl Model for Sectors {
    ghost use Rattle.std.specs.Prelude.{ℕ, ◌≤◌, List, take};
    ghost use Rattle.scenario_reader.specs.Sectors.{most_sectors};

    ghost Value = { List ℕ };

    ghost view = { λ sectors. take sectors.count sectors.held };

    ghost invariant = { λ sectors. sectors.count ≤ most_sectors };
}

impl Sectors {
    /// No sectors.
    pub fn none() -> Self
        ensures { result ≡ [] }
    {
        Sectors {
            held: [0; MOST_SECTORS],
            count: 0,
        }
    }

    /// The sectors, first to last.
    pub fn items(&self) -> &[u32]
        ensures { result.now ≡ self.now }
    {
        &self.held[..self.count]
    }

    /// Adds a sector at the end. It takes no memory.
    pub fn add(&mut self, sector: u32)
        requires { length self.old < most_sectors }
        ensures { self.new ≡ self.old ++ sector ∷ [] }
    {
        self.held[self.count] = sector;
        self.count += 1;
    }
}
