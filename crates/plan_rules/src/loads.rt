//! How many flights depart from, arrive at and are inside each place in each period.
ghost use Rattle.std.specs.Prelude.{◌≡◌, ℕ, IfOk, None, length, replicate, slice_index_or};
ghost use Rattle.plan_rules.specs.Loads.{stops_after};

use crate::grid::{Change, Grid};
use crate::trip_counts::{
    arrival_of, change_arrival, change_departure, change_stays, departure_of,
};
use flow_types::{CapKind, Flight, OutOfMemory, Scenario, Stop};
use std::alloc::Global;
use std::marker::Model;

// What loads are known to hold without a look at their counts.
#[derive(Clone, Copy, Debug, PartialEq, Eq)]
enum Contents {
    // No trip: every count is zero.
    Nothing,
    // Trips, it may be.
    Trips,
}

/// The counts and end times of trips, at most one a flight, of the scenario that they were made
/// for: its places, periods and flights. They take twelve bytes a place and period, and eight a
/// flight. Contracts see them as a `Tally`.
#[derive(Debug)]
pub struct Loads {
    // How many flights depart from, arrive at and are inside a place in a period.
    departures: Grid,
    arrivals: Grid,
    inside: Grid,
    // When each flight departs and arrives, nothing where it isn't there.
    leaves: Vec<Option<u16>>,
    arrives: Vec<Option<u16>>,
    // Whether there may be trips.
    contents: Contents,
}

// Written out, so that proofs see one call where a room is let go of.
impl Drop for Loads {
    fn drop(self) {
        let Loads {
            departures: _,
            arrivals: _,
            inside: _,
            leaves: _,
            arrives: _,
            contents: _,
        } = self;
    }
}

impl Model for Loads {
    ghost use Rattle.plan_rules.specs.Tally.{Tally};

    ghost Value = { Tally };

    ghost use Rattle.plan_rules.specs.Contents.{AreContents};

    ghost view = { λ a. record {
      departures = a.departures;
      arrivals = a.arrivals;
      inside = a.inside;
      leaves = a.leaves.items;
      arrives = a.arrives.items;
    } };

    ghost invariant = { λ a. AreContents a.contents (record {
      departures = a.departures;
      arrivals = a.arrivals;
      inside = a.inside;
      leaves = a.leaves.items;
      arrives = a.arrives.items;
    }) };
}

impl Loads {
    ghost use Rattle.std.specs.Prelude.{◌≡◌, ◌<◌, ℕ, List, [], Some, length, slice_get, slice_index, slice_set, IfOk};
    ghost use Rattle.flow_types.specs.declared.parts.Parts.{Parts};
    ghost use Rattle.flow_types.specs.declared.plan.Stop.{Stop};
    ghost use Rattle.flow_types.specs.Scenario.{parts_of};
    ghost use Rattle.plan_rules.specs.Loads.{AreLoads, ChangesTrip, IsInGrid, IsMadeFor, IsTripAt, arrival_at, grid_of, departure_at, load_at, no_trips};

    /// Loads of a scenario, with no trips.
    pub fn new(alloc: Global, s: &Scenario) -> Result<Loads, OutOfMemory>
        ensures { IfOk result (AreLoads (parts_of s.now) (no_trips (parts_of s.now))) }
    {
        let places = s.places().len();
        let periods = s.day().periods;
        let flights = s.flights().len();
        Ok(Loads {
            departures: Grid::new(alloc, places, periods)?,
            arrivals: Grid::new(alloc, places, periods)?,
            inside: Grid::new(alloc, places, periods)?,
            leaves: no_times(alloc, flights)?,
            arrives: no_times(alloc, flights)?,
            contents: Contents::Nothing,
        })
    }

    /// Takes every trip out. The loads stay those of the scenario that they were made for. Where
    /// none was added since they were new or cleared, it takes no time.
    pub fn clear(&mut self)
        ensures { (parts : Parts) → IsMadeFor parts self.old
            → AreLoads parts (no_trips parts) self.new }
    {
        match self.contents {
            Contents::Nothing => {}
            Contents::Trips => {
                self.departures.clear();
                self.arrivals.clear();
                self.inside.clear();
                clear_times(&mut self.leaves);
                clear_times(&mut self.arrives);
                self.contents = Contents::Nothing;
            }
        }
    }

    /// Adds the stops as the flight's trip: where they are one, and none of the flight was there,
    /// the loads count it with the others. They were made for the scenario. It takes no memory.
    pub fn add(&mut self, s: &Scenario, flight: u32, stops: &[Stop])
        requires made { IsMadeFor (parts_of s.now) self.old }
        requires flight { flight < length (parts_of s.now).flights }
        ensures made { IsMadeFor (parts_of s.now) self.new }
        ensures trips { (trips : List (List Stop)) → AreLoads (parts_of s.now) trips self.old
            → slice_get trips flight ≡ Some [] → IsTripAt (parts_of s.now) flight stops.now
            → AreLoads (parts_of s.now) (slice_set trips flight stops.now) self.new }
    {
        self.change_trip(
            Change::More,
            &s.flights()[flight as usize],
            flight as usize,
            stops,
        );
    }

    /// Takes the stops out as the flight's trip: where they are the one that was added, the loads
    /// count the others alone. They were made for the scenario. It takes no memory.
    pub fn remove(&mut self, s: &Scenario, flight: u32, stops: &[Stop])
        requires made { IsMadeFor (parts_of s.now) self.old }
        requires flight { flight < length (parts_of s.now).flights }
        ensures made { IsMadeFor (parts_of s.now) self.new }
        ensures trips { (trips : List (List Stop)) → AreLoads (parts_of s.now) trips self.old
            → slice_get trips flight ≡ Some stops.now
            → AreLoads (parts_of s.now) (slice_set trips flight []) self.new }
    {
        self.change_trip(
            Change::Less,
            &s.flights()[flight as usize],
            flight as usize,
            stops,
        );
    }

    // Adds the stops as the trip of the flight with this number, or takes them out.
    fn change_trip(&mut self, change: Change, flight: &Flight, number: usize, stops: &[Stop])
        requires leaves { number < length self.old.leaves }
        requires arrives { number < length self.old.arrives }
        ensures { ChangesTrip change flight.now number stops.now self.old self.new }
    {
        self.contents = Contents::Trips;
        change_departure(&mut self.departures, change, flight, stops);
        change_arrival(&mut self.arrivals, change, flight, stops);
        change_stays(&mut self.inside, change, flight, stops);
        let after = stops_after(change, stops);
        self.leaves[number] = departure_of(after);
        self.arrives[number] = arrival_of(after);
    }

    /// How many flights depart from, arrive at or are inside the place in the period. Both are of
    /// the scenario that the loads were made for.
    pub fn load(&self, kind: CapKind, place: u32, period: u16) -> u32
        requires { IsInGrid (grid_of self.now kind) place period }
        ensures { result ≡ load_at self.now kind place period }
    {
        match kind {
            CapKind::Dep => self.departures.get(place, period),
            CapKind::Arr => self.arrivals.get(place, period),
            CapKind::Sector => self.inside.get(place, period),
        }
    }

    /// How many flights depart from, arrive at or are inside the place, by period.
    pub fn row(&self, kind: CapKind, place: u32) -> &[u32]
        requires { place < (grid_of self.now kind).places }
        ensures length { length result.now ≡ (grid_of self.now kind).periods }
        ensures loads { (t : ℕ) → t < (grid_of self.now kind).periods
            → slice_index result.now t ≡ load_at self.now kind place t }
    {
        match kind {
            CapKind::Dep => self.departures.row(place),
            CapKind::Arr => self.arrivals.row(place),
            CapKind::Sector => self.inside.row(place),
        }
    }

    /// When the flight departs, nothing where it isn't there. It is one of the scenario that the
    /// loads were made for.
    pub fn departure(&self, flight: u32) -> Option<u16>
        requires { flight < length self.now.leaves }
        ensures { result ≡ departure_at self.now flight }
    {
        self.leaves[flight as usize]
    }

    /// When the flight arrives, nothing where it isn't there. It is one of the scenario that the
    /// loads were made for.
    pub fn arrival(&self, flight: u32) -> Option<u16>
        requires { flight < length self.now.arrives }
        ensures { result ≡ arrival_at self.now flight }
    {
        self.arrives[flight as usize]
    }
}

// What is there of the trip after the change.
fn stops_after(change: Change, stops: &[Stop]) -> &[Stop]
    ensures { result.now ≡ stops_after change stops.now }
{
    match change {
        Change::More => stops,
        Change::Less => &[],
    }
}

// So many flights that aren't there.
fn no_times(alloc: Global, flights: usize) -> Result<Vec<Option<u16>>, OutOfMemory>
    ensures { IfOk result (λ times. times.items ≡ replicate flights None) }
{
    Ok(vec![in alloc; None; flights]?)
}

// Makes every flight one that isn't there.
fn clear_times(times: &mut Vec<Option<u16>>)
    ensures length { length times.new.items ≡ length times.old.items }
    ensures none { (f : ℕ) → slice_index_or times.new.items f None ≡ None }
{
    for time in times.iter_mut() {
        *time = None;
    }
}
