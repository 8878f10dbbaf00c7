//! A valid scenario.
ghost use Rattle.flow_types.specs.Limits.{most_delay_cost};
ghost use Rattle.flow_types.specs.Valid.{IsScenario};

use crate::day::Day;
use crate::flight::{Connection, CostTable, Flight};
use crate::lookup::{capacity_at, credit_at, is_plain, total_at};
use crate::parts::Parts;
use crate::place::{CapKind, Place};
use crate::valid::is_scenario;

/// A scenario that keeps every rule of a valid one, wherever it is lent.
#[derive(Debug)]
pub struct Scenario {
    parts: Parts,
    pub ghost valid: { IsScenario parts },
}

impl Drop for Scenario {
    fn drop(self) {
        let Scenario { parts: _ } = self;
    }
}

impl Scenario {
    ghost use Rattle.std.specs.Prelude.{◌≡◌, ◌<◌, ◌≤ℤ◌, ◌↔◌, length, neg_ℤ, pos, slice_get, IsTrue, IsOk, IfOk, IfErr};
    ghost use Rattle.flow_types.specs.Capacities.{capacity_of, has_kind};
    ghost use Rattle.flow_types.specs.Costs.{credit_at, total_at};
    ghost use Rattle.flow_types.specs.Scenario.{IsPlainAt, flight_at, parts_of};

    /// The scenario of these parts. Where they aren't a valid one they come back as they were.
    /// It takes no memory, and compares names, connections and legs pair by pair.
    pub fn new(parts: Parts) -> Result<Self, Parts>
        ensures valid { IsOk result ↔ IsScenario parts }
        ensures parts { IfOk result (λ scenario. parts_of scenario ≡ parts) }
        ensures back { IfErr result (λ returned. returned ≡ parts) }
    {
        if is_scenario(&parts) {
            Ok(Scenario { parts })
        } else {
            Err(parts)
        }
    }

    /// The scenario of parts that are known to be valid. It takes no memory.
    pub fn of_valid(parts: Parts) -> Self
        requires { IsScenario parts }
        ensures { parts_of result ≡ parts }
    {
        Scenario { parts }
    }

    /// The day.
    pub fn day(&self) -> Day
        ensures { result ≡ (parts_of self.now).day }
    {
        self.parts.day
    }

    /// The airports and sectors.
    pub fn places(&self) -> &[Place]
        ensures { result.now ≡ (parts_of self.now).places }
    {
        self.parts.places.items()
    }

    /// The flights.
    pub fn flights(&self) -> &[Flight]
        ensures { result.now ≡ (parts_of self.now).flights }
    {
        self.parts.flights.items()
    }

    /// The tables of costs and credits.
    pub fn tables(&self) -> &[CostTable]
        ensures { result.now ≡ (parts_of self.now).tables }
    {
        self.parts.tables.items()
    }

    /// The connections.
    pub fn connections(&self) -> &[Connection]
        ensures { result.now ≡ (parts_of self.now).connections }
    {
        self.parts.connections.items()
    }

    /// How many flights may depart from, arrive at or be inside the place in the period.
    /// The place has capacities of this kind, and the period is one of the day.
    pub fn capacity(&self, kind: CapKind, place: u32, period: u16) -> u32
        requires place { IsTrue (has_kind kind (slice_get (parts_of self.now).places place)) }
        requires period { period < (parts_of self.now).day.periods }
        ensures { result ≡ capacity_of (parts_of self.now).places kind place period }
    {
        capacity_at(self.places(), kind, place, period)
    }

    /// What so many periods of arrival delay of the flight cost. The flight is one of the
    /// scenario's, and the delay is at most its greatest one.
    pub fn total(&self, flight: u32, delay: u16) -> i64
        requires { flight < length (parts_of self.now).flights }
        ensures value { result
            ≡ total_at (parts_of self.now).tables (flight_at self.now flight) delay }
        ensures low { neg_ℤ (pos most_delay_cost) ≤ℤ result }
        ensures high { result ≤ℤ pos most_delay_cost }
    {
        total_at(self.tables(), &self.flights()[flight as usize], delay)
    }

    /// How much less so many periods of ground delay of the flight cost than as many in the air.
    /// The flight is one of the scenario's, and the delay is at most its greatest ground delay.
    pub fn credit(&self, flight: u32, delay: u16) -> i64
        requires { flight < length (parts_of self.now).flights }
        ensures value { result
            ≡ credit_at (parts_of self.now).tables (flight_at self.now flight) delay }
        ensures low { neg_ℤ (pos most_delay_cost) ≤ℤ result }
        ensures high { result ≤ℤ pos most_delay_cost }
    {
        credit_at(self.tables(), &self.flights()[flight as usize], delay)
    }

    /// Whether the node of the flight is a sector whose only successor has it as its only
    /// predecessor. The flight is one of the scenario's.
    pub fn plain(&self, flight: u32, node: u16) -> bool
        requires { flight < length (parts_of self.now).flights }
        ensures { IsTrue result ↔ IsPlainAt (flight_at self.now flight) node }
    {
        is_plain(&self.flights()[flight as usize], node)
    }
}
