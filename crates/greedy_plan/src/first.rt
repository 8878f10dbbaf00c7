//! The greedy plan.
ghost use Rattle.std.specs.Prelude.{◌≡◌, ◌<◌, IfOk, List, Ok, false, length, true};
ghost use Rattle.flow_types.specs.declared.plan.Stop.{Stop};
ghost use Rattle.flight_routes.specs.Fits.{IsTripThatFits};
ghost use Rattle.flow_types.specs.Feasible.{IsFeasible};
ghost use Rattle.flow_types.specs.Scenario.{parts_of};
ghost use Rattle.flight_routes.specs.Work.{IsWorkFor};
ghost use Rattle.plan_rules.specs.Loads.{AreLoads, IsMadeFor as AreLoadsFor, no_trips};
ghost use Rattle.time_windows.specs.Held.{IsMadeFor, box_of};
ghost use Rattle.time_windows.specs.Subproblems.{box_in, parts_in};
ghost use Rattle.greedy_plan.specs.Greedy.{IfPlanned, IsGreedyAnswer, IsOneMore, with_rest};

use flight_routes::Work;
use flow_types::{OutOfMemory, Plan, Scenario, Trip};
use plan_rules::Loads;
use std::alloc::Global;
use std::marker::Model;
use time_windows::{Boxes, Subproblem};

/// How far the greedy plan comes.
#[derive(Debug, Drop)]
pub enum Greedy {
    /// Each flight has a trip.
    Plan(Plan),
    /// The flights before this one have trips, and none of its own fits beside them.
    Stuck { kept: Plan, flight: u32 },
}

/// The room in which greedy plans are made, made once for a scenario: twelve bytes a place and
/// period, eight a flight, and 0.9 MB.
#[derive(Debug)]
pub struct PlanWork {
    work: Work,
    loads: Loads,
}

// Written out, so that proofs see one call where a room is let go of.
impl Drop for PlanWork {
    fn drop(self) {
        let PlanWork { work: _, loads: _ } = self;
    }
}

impl Model for PlanWork {
    ghost use Rattle.greedy_plan.specs.Work.{PlanRoom};

    ghost Value = { PlanRoom };

    ghost view = { λ a. record {
      work = a.work;
      loads = a.loads;
    } };
}

impl PlanWork {
    ghost use Rattle.std.specs.Prelude.{IfOk};
    ghost use Rattle.flow_types.specs.Feasible.{IsFeasible};
    ghost use Rattle.flow_types.specs.Scenario.{parts_of};
    ghost use Rattle.time_windows.specs.Held.{IsMadeFor, box_of};
    ghost use Rattle.greedy_plan.specs.Greedy.{IfPlanned, IsGreedyAnswer};
    ghost use Rattle.greedy_plan.specs.Work.{IsPlanRoomFor};

    /// Room for the greedy plans of the scenario.
    pub fn new(alloc: Global, s: &Scenario) -> Result<PlanWork, OutOfMemory>
        ensures { IfOk result (IsPlanRoomFor (parts_of s.now)) }
    {
        Ok(PlanWork {
            work: Work::new(alloc, s)?,
            loads: Loads::new(alloc, s)?,
        })
    }

    /// The greedy plan in the box: in the order of the flights, each takes the cheapest of its
    /// trips in the box that fit beside those before it, and of several the first in the order of
    /// trips. It keeps every rule. Where no trip of a flight fits, it is stuck there.
    ///
    /// The box is one of the scenario that the room was made for. It takes memory for the plan
    /// alone; time as a least trip for each flight. The room keeps nothing that a caller sees, so
    /// it is as good as before also after want of memory.
    pub fn first_plan(
        &mut self,
        alloc: Global,
        s: &Scenario,
        boxes: &Boxes,
    ) -> Result<Greedy, OutOfMemory>
        requires made { IsPlanRoomFor (parts_of s.now) self.old }
        requires boxes { IsMadeFor (parts_of s.now) boxes.now }
        ensures greedy { IfOk result (IsGreedyAnswer (parts_of s.now) (box_of boxes.now)) }
        ensures feasible { IfOk result
            (λ greedy. IfPlanned greedy (IsFeasible (parts_of s.now))) }
        ensures made { IsPlanRoomFor (parts_of s.now) self.new }
    {
        self.loads.clear();
        let problem = Subproblem { s, boxes };
        choose_trips(alloc, problem, &mut self.work, &mut self.loads)
    }
}

/// The greedy plan in the box, which is one of the scenario, with room of its own: what
/// `PlanWork::first_plan` answers.
///
/// It takes the memory of `PlanWork`, and the plan.
pub fn first_plan(alloc: Global, s: &Scenario, boxes: &Boxes) -> Result<Greedy, OutOfMemory>
    requires { IsMadeFor (parts_of s.now) boxes.now }
    ensures greedy { IfOk result (IsGreedyAnswer (parts_of s.now) (box_of boxes.now)) }
    ensures feasible { IfOk result (λ greedy. IfPlanned greedy (IsFeasible (parts_of s.now))) }
{
    let mut work = PlanWork::new(alloc, s)?;
    work.first_plan(alloc, s, boxes)
}

// Chooses a trip for each flight, as far as there is one that fits.
fn choose_trips(
    alloc: Global,
    problem: Subproblem<'_>,
    work: &mut Work,
    loads: &mut Loads,
) -> Result<Greedy, OutOfMemory>
    requires work { IsWorkFor (parts_in problem) work.old }
    requires loads { AreLoads (parts_in problem) (no_trips (parts_in problem)) loads.old }
    ensures greedy { IfOk result (IsGreedyAnswer (parts_in problem.entry) (box_in problem.entry)) }
    ensures feasible { IfOk result
        (λ greedy. IfPlanned greedy (IsFeasible (parts_in problem.entry))) }
    ensures work { IsWorkFor (parts_in problem.entry) work.new }
    ensures made { AreLoadsFor (parts_in problem.entry) loads.new }
{
    let mut plan = Plan::empty(alloc);
    for number in 0..problem.s.flights().len() {
        let flight = number as u32;
        if !choose_trip(alloc, problem, flight, work, loads, &mut plan)? {
            return Ok(Greedy::Stuck { kept: plan, flight });
        }
    }
    Ok(Greedy::Plan(plan))
}

// Chooses a trip for the next flight, and tells whether one fits.
fn choose_trip(
    alloc: Global,
    problem: Subproblem<'_>,
    flight: u32,
    work: &mut Work,
    loads: &mut Loads,
    plan: &mut Plan,
) -> Result<bool, OutOfMemory>
    requires work { IsWorkFor (parts_in problem) work.old }
    requires loads { AreLoads (parts_in problem) (with_rest (parts_in problem).flights plan.old)
        loads.old }
    requires flight { flight < length (parts_in problem).flights }
    requires next { length plan.old ≡ flight }
    ensures added { result ≡ Ok true
        → IsOneMore (parts_in problem.entry) (box_in problem.entry) plan.old plan.new loads.new }
    ensures stuck { result ≡ Ok false → plan.new ≡ plan.old }
    ensures none { result ≡ Ok false → (stops : List Stop)
        → IsTripThatFits (parts_in problem.entry) (box_in problem.entry)
        (with_rest (parts_in problem.entry).flights plan.old) flight stops → ⊥ }
    ensures work { IsWorkFor (parts_in problem.entry) work.new }
    ensures made { AreLoadsFor (parts_in problem.entry) loads.new }
{
    if work.least_fit(problem, flight, loads).is_none() {
        return Ok(false);
    }
    loads.add(problem.s, flight, work.trip());
    plan.add(Trip::from_stops(alloc, work.trip())?)?;
    Ok(true)
}
