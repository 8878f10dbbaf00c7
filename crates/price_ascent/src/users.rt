//! How many flights there are for each place.

use flow_types::{CapKind, OutOfMemory, Scenario};
use std::alloc::Global;

/// How many flights depart from each place, arrive there, and may be inside. It takes twelve bytes
/// a place.
#[derive(Debug)]
pub struct Users {
    departing: Vec<u32>,
    arriving: Vec<u32>,
    inside: Vec<u32>,
}

impl Drop for Users {
    fn drop(self) {
        let Users {
            departing: _,
            arriving: _,
            inside: _,
        } = self;
    }
}

impl Users {
    /// The users of the scenario.
    pub fn new(alloc: Global, s: &Scenario) -> Result<Users, OutOfMemory> {
        let places = s.places().len();
        let mut users = Users {
            departing: vec![in alloc; 0; places]?,
            arriving: vec![in alloc; 0; places]?,
            inside: vec![in alloc; 0; places]?,
        };
        for flight in s.flights() {
            count(&mut users.departing, flight.from);
            count(&mut users.arriving, flight.to);
            for place in flight.nodes.items() {
                count(&mut users.inside, *place);
            }
        }
        Ok(users)
    }

    /// How many flights may use a capacity of the kind.
    pub fn of(&self, kind: CapKind, place: u32) -> u32 {
        let counts = match kind {
            CapKind::Dep => &self.departing,
            CapKind::Arr => &self.arriving,
            CapKind::Sector => &self.inside,
        };
        match counts.get(place as usize) {
            None => 0,
            Some(count) => *count,
        }
    }
}

// One more at the place.
fn count(counts: &mut [u32], place: u32) {
    if let Some(count) = counts.get_mut(place as usize) {
        *count = count.saturating_add(1);
    }
}
