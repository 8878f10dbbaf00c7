//! The lines after the tree: the plan with its trips, the bound, the count; and the head.
ghost use Rattle.std.specs.Prelude.{◌≡◌};
ghost use Rattle.flow_types.specs.Scenario.{parts_of};
ghost use Rattle.time_windows.specs.Held.{box_of};
ghost use Rattle.plan_rules.specs.FirstBroken.{first_broken};
ghost use Rattle.cert_checker.specs.Checks.{AreRoomsFor, Faults, TellsNow, TellsTo};
ghost use Rattle.cert_checker.specs.Steps.{bound_fault, count_fault, digest_fault, or_fault, plan_fault, plan_told, progress_told, same_bound, trip_told, trips_told};
ghost use Rattle.cert_checker.specs.declared.progress.Told.TheVariants as told;

use crate::fault::{CertCause, StepError, StepFault, bad_kind, in_field};
use crate::outside::first_outside;
use crate::progress::{Progress, Told};
use crate::rooms::Rooms;
use certificate::Digest;
use flow_types::{Bound, Plan, Scenario, Trip};
use plan_rules::{Verdict, judge};
use std::mem;
use time_windows::Boxes;

// What a whole plan tells, of which this cost is stated.
fn whole_plan(
    rooms: &mut Rooms,
    s: &Scenario,
    root: &Boxes,
    cost: i64,
    plan: Plan,
) -> Result<Told, StepError>
    requires { AreRoomsFor (parts_of s.now) rooms.old }
    ensures told { TellsTo result (or_fault (told.Whole cost plan)
        (plan_fault (parts_of s.now) (box_of root.now) plan cost
        (first_broken (parts_of s.now) plan))) }
    ensures rooms { AreRoomsFor (parts_of s.now) rooms.new }
{
    let real = match judge(&mut rooms.loads, s, &plan) {
        Verdict::Keeps { cost } => cost,
        Verdict::Breaks(broken) => {
            let cause = CertCause::BrokenPlan { plan, broken };
            return Err(StepError::Fault(in_field(1, cause)));
        }
    };
    if cost != real {
        let cause = CertCause::OtherCost { stated: cost, real };
        return Err(StepError::Fault(in_field(1, cause)));
    }
    if let Some((flight, node)) = first_outside(root, &plan) {
        let cause = CertCause::OutsideRoot { flight, node };
        return Err(StepError::Fault(in_field(1, cause)));
    }
    Ok(Told::Whole { cost, plan })
}

// What a plan's first trips tell, or all of them.
fn trips_told(
    rooms: &mut Rooms,
    s: &Scenario,
    root: &Boxes,
    cost: i64,
    trips: Plan,
) -> Result<Told, StepError>
    requires { AreRoomsFor (parts_of s.now) rooms.old }
    ensures told { TellsTo result (trips_told (parts_of s.now) (box_of root.now) cost trips) }
    ensures rooms { AreRoomsFor (parts_of s.now) rooms.new }
{
    if trips.items().len() < s.flights().len() {
        Ok(Told::Trips { cost, trips })
    } else {
        whole_plan(rooms, s, root, cost, trips)
    }
}

// What the plan costs, whose trips follow; or that there is none.
fn plan_told(
    rooms: &mut Rooms,
    s: &Scenario,
    root: &Boxes,
    told: Told,
    cost: Option<i64>,
) -> Result<Told, StepError>
    requires { AreRoomsFor (parts_of s.now) rooms.old }
    ensures told { TellsTo result (plan_told (parts_of s.now) (box_of root.now) told cost) }
    ensures rooms { AreRoomsFor (parts_of s.now) rooms.new }
{
    let Told::Nothing = told else {
        return Err(StepError::Fault(bad_kind()));
    };
    match cost {
        None => Ok(Told::NoPlan),
        Some(cost) => {
            let none = Plan::empty(rooms.alloc);
            trips_told(rooms, s, root, cost, none)
        }
    }
}

// The trip of the flight that comes next.
fn trip_told(
    rooms: &mut Rooms,
    s: &Scenario,
    root: &Boxes,
    told: Told,
    trip: Trip,
) -> Result<Told, StepError>
    requires { AreRoomsFor (parts_of s.now) rooms.old }
    ensures told { TellsTo result (trip_told (parts_of s.now) (box_of root.now) told trip) }
    ensures rooms { AreRoomsFor (parts_of s.now) rooms.new }
{
    let Told::Trips { cost, mut trips } = told else {
        return Err(StepError::Fault(bad_kind()));
    };
    trips.add(trip)?;
    trips_told(rooms, s, root, cost, trips)
}

/// The line of the plan, which tells what it costs; or that there is none.
pub fn plan_line(
    rooms: &mut Rooms,
    s: &Scenario,
    root: &Boxes,
    progress: &mut Progress,
    cost: Option<i64>,
) -> Result<(), StepError>
    requires { AreRoomsFor (parts_of s.now) rooms.old }
    ensures told { TellsNow result progress.new (progress_told progress.old
        (plan_told (parts_of s.now) (box_of root.now) progress.old.told cost)) }
    ensures rooms { AreRoomsFor (parts_of s.now) rooms.new }
{
    let told = mem::replace(&mut progress.told, Told::Nothing);
    progress.told = plan_told(rooms, s, root, told, cost)?;
    Ok(())
}

/// The line of a trip.
pub fn trip_line(
    rooms: &mut Rooms,
    s: &Scenario,
    root: &Boxes,
    progress: &mut Progress,
    trip: Trip,
) -> Result<(), StepError>
    requires { AreRoomsFor (parts_of s.now) rooms.old }
    ensures told { TellsNow result progress.new (progress_told progress.old
        (trip_told (parts_of s.now) (box_of root.now) progress.old.told trip)) }
    ensures rooms { AreRoomsFor (parts_of s.now) rooms.new }
{
    let told = mem::replace(&mut progress.told, Told::Nothing);
    progress.told = trip_told(rooms, s, root, told, trip)?;
    Ok(())
}

fn same_bound(stated: Bound, real: Bound) -> bool
    ensures { result ≡ same_bound stated real }
{
    match (stated, real) {
        (Bound::NoPlan, Bound::NoPlan) => true,
        (Bound::AtLeast(stated), Bound::AtLeast(real)) => stated == real,
        _ => false,
    }
}

/// What is wrong with the stated bound, if it isn't that of the leaves.
pub fn check_bound(progress: &Progress, stated: Bound) -> Result<(), StepFault>
    ensures { Faults result (bound_fault progress.now stated) }
{
    let real = progress.bound;
    if same_bound(stated, real) {
        Ok(())
    } else {
        Err(in_field(2, CertCause::OtherBound { stated, real }))
    }
}

/// What is wrong with the stated count, if the tree hasn't as many nodes.
pub fn check_count(progress: &Progress, stated: u64) -> Result<(), StepFault>
    ensures { Faults result (count_fault progress.now stated) }
{
    let real = progress.nodes;
    if stated == real {
        Ok(())
    } else {
        Err(in_field(2, CertCause::OtherCount { stated, real }))
    }
}

/// What is wrong with the stated digest, if it isn't that of the day's text.
pub fn check_digest(digest: &Digest, stated: Digest) -> Result<(), StepFault>
    ensures { Faults result (digest_fault digest.now stated) }
{
    if stated.bytes() == digest.bytes() {
        Ok(())
    } else {
        let real = digest.copy();
        Err(in_field(3, CertCause::OtherScenario { stated, real }))
    }
}
