//! Trips and plans.
ghost use Rattle.std.specs.Prelude.{◌≡◌, IfOk};

use crate::{OutOfMemory, Sequence};
use std::alloc::Global;

/// A node of a flight, and the period in which the flight enters it.
#[derive(Clone, Copy, Debug, PartialEq, Eq)]
pub struct Stop {
    pub node: u16,
    pub time: u16,
}

/// The stops of one flight, first to last.
pub type Trip = Sequence<Stop>;

/// A trip for each flight, in the order of the flights.
pub type Plan = Sequence<Trip>;

impl Sequence<Stop> {
    /// A trip of these stops, in a block of their size.
    pub fn from_stops(alloc: Global, stops: &[Stop]) -> Result<Trip, OutOfMemory>
        ensures { IfOk result (λ trip. trip ≡ stops.now) }
    {
        Ok(Sequence::from_vec(Vec::from_slice(alloc, stops)?))
    }
}

impl Sequence<Trip> {
    /// A second plan of these trips, in blocks of its own. It takes memory for all of its stops.
    pub fn copy(&self, alloc: Global) -> Result<Plan, OutOfMemory>
        ensures { IfOk result (λ plan. plan ≡ self.now) }
    {
        let mut plan = Plan::empty(alloc);
        for trip in self.items() {
            plan.add(Trip::from_stops(alloc, trip.items())?)?;
        }
        Ok(plan)
    }
}
