//! The trips that have been read so far.
ghost use Rattle.std.specs.Prelude.{◌≡◌, ◌<◌, None, IfOk, length, replicate, slice_get};
ghost use Rattle.text_records.specs.Errors.{Finds};
ghost use Rattle.plan_text.specs.Plans.{trips_of, with_trip};
ghost use Rattle.plan_text.specs.Trips.{unread_at};

use flow_types::{Cause, OutOfMemory, Plan, Trip};
use std::alloc::Global;
use std::marker::Model;
use text_records::FieldFault;

/// For each flight its trip, if a record tells it. Contracts see the list.
#[derive(Drop)]
pub struct TripsRead {
    trips: Vec<Option<Trip>>,
}

impl Model for TripsRead {
    ghost use Rattle.plan_text.specs.Trips.{TripsRead};

    ghost Value = { TripsRead };

    ghost view = { λ read. read.trips.items };
}

impl TripsRead {
    /// No trips of so many flights.
    pub fn none(alloc: Global, flights: usize) -> Result<Self, OutOfMemory>
        ensures { IfOk result (λ read. read ≡ replicate flights None) }
    {
        let mut trips = Vec::new(alloc);
        for _ in 0..flights {
            trips.push(None)?;
        }
        Ok(TripsRead { trips })
    }

    /// The flight at this position, whose trip no record has told yet.
    pub fn unread_at(&self, flight: u32) -> Result<u32, FieldFault>
        ensures found { Finds (λ k. k) result (unread_at flight (slice_get self.now flight)) }
        ensures here { IfOk result (λ k. k < length self.now) }
    {
        match self.trips.get(flight as usize) {
            Some(None) => Ok(flight),
            Some(Some(_)) => Err(FieldFault {
                field: 2,
                cause: Cause::Repeated,
            }),
            None => Err(FieldFault {
                field: 2,
                cause: Cause::UnknownName,
            }),
        }
    }

    /// Puts the trip of the flight at this position. It takes no memory.
    pub fn set_trip(&mut self, flight: u32, trip: Trip)
        requires { flight < length self.old }
        ensures { self.new ≡ with_trip self.old (flight, trip) }
    {
        self.trips[flight as usize] = Some(trip);
    }

    /// The plan: a trip for each flight, empty where no record told it.
    pub fn into_plan(self, alloc: Global) -> Result<Plan, OutOfMemory>
        ensures { IfOk result (λ plan. plan ≡ trips_of self) }
    {
        let TripsRead { trips } = self;
        let mut plan = Plan::empty(alloc);
        for trip in trips {
            plan.add(trip.unwrap_or(Trip::empty(alloc)))?;
        }
        Ok(plan)
    }
}
