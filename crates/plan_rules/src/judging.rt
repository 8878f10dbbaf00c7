//! Whether a plan keeps every rule.
ghost use Rattle.std.specs.Prelude.{◌≡◌, ◌<◌, ◌^◌, None, Some, ⊤, IsTrue, OnOk, All, length, slice_get};
ghost use Rattle.std.specs.Option.{option_or};
ghost use Rattle.flow_types.specs.Costs.{plan_cost};
ghost use Rattle.flow_types.specs.Feasible.{AreTrips, IsFeasible};
ghost use Rattle.flow_types.specs.Scenario.{parts_of};
ghost use Rattle.plan_rules.specs.FirstBroken.{Names, broken_turn, first_along, first_broken, first_over, first_over_in, over};
ghost use Rattle.plan_rules.specs.Judge.{MatchVerdict, first_broken_load};
ghost use Rattle.plan_rules.specs.Loads.{AreLoads, IsMadeFor, arrival_at, departure_at, load_at, no_trips};

use crate::costs::cost;
use crate::trips::check_trips;
use crate::{Broken, Loads, Overload};
use flow_types::{CapKind, Connection, Plan, Scenario, Trip, has_kind};

// Adds the plan's trips, one for each flight, to loads that have none.
fn add_all(loads: &mut Loads, s: &Scenario, plan: &[Trip])
    requires none { AreLoads (parts_of s.now) (no_trips (parts_of s.now)) loads.old }
    requires trips { AreTrips (parts_of s.now).day.periods (parts_of s.now).flights plan.now }
    ensures { AreLoads (parts_of s.now) plan.now loads.new }
{
    for at in 0..plan.len() {
        loads.add(s, at as u32, plan[at].items());
    }
}

// Whether each connection has its turnaround.
fn check_turns(loads: &Loads, connections: &[Connection]) -> Result<(), Broken>
    requires few { length connections.now < 2 ^ 32 }
    requires arrives { All
        (λ connection. connection.first < length loads.now.arrives) connections.now }
    requires leaves { All
        (λ connection. connection.second < length loads.now.leaves) connections.now }
    ensures { Names (first_along
        (broken_turn (arrival_at loads.now) (departure_at loads.now)) connections.now) result }
{
    for at in 0..connections.len() {
        check_turn(loads, &connections[at], at as u32)?;
    }
    Ok(())
}

// Whether the second flight leaves no earlier than the turnaround after the first has arrived.
fn check_turn(loads: &Loads, connection: &Connection, number: u32) -> Result<(), Broken>
    requires arrives { connection.now.first < length loads.now.arrives }
    requires leaves { connection.now.second < length loads.now.leaves }
    ensures { Names (broken_turn (arrival_at loads.now)
        (departure_at loads.now) number connection.now) result }
{
    let Some(arrives) = loads.arrival(connection.first) else {
        return Ok(());
    };
    let Some(leaves) = loads.departure(connection.second) else {
        return Ok(());
    };
    if u32::from(leaves) < u32::from(arrives) + u32::from(connection.turnaround) {
        return Err(Broken::Turn {
            connection: number,
            arrives,
            leaves,
        });
    }
    Ok(())
}

// Whether the capacities of this kind are kept in every place that has them.
fn check_kind(loads: &Loads, s: &Scenario, kind: CapKind) -> Result<(), Broken>
    requires { IsMadeFor (parts_of s.now) loads.now }
    ensures { Names (first_over (parts_of s.now) kind (load_at loads.now kind)) result }
{
    for place in 0..s.places().len() {
        check_place(loads, s, kind, place as u32)?;
    }
    Ok(())
}

// Whether the capacities of this kind are kept in the place in every period, if it has such.
fn check_place(loads: &Loads, s: &Scenario, kind: CapKind, place: u32) -> Result<(), Broken>
    requires made { IsMadeFor (parts_of s.now) loads.now }
    requires place { place < length (parts_of s.now).places }
    ensures { Names (first_over_in (parts_of s.now) kind (load_at loads.now kind) place) result }
{
    if !has_kind(kind, s.places(), place) {
        return Ok(());
    }
    for period in 0..s.day().periods {
        let load = loads.load(kind, place, period);
        let capacity = s.capacity(kind, place, period);
        if load > capacity {
            return Err(over(kind, place, period, load, capacity));
        }
    }
    Ok(())
}

// The broken capacity.
fn over(kind: CapKind, place: u32, period: u16, load: u32, capacity: u32) -> Broken
    ensures { result ≡ over kind place period load capacity }
{
    let over = Overload {
        place,
        period,
        load,
        capacity,
    };
    match kind {
        CapKind::Dep => Broken::Departures(over),
        CapKind::Arr => Broken::Arrivals(over),
        CapKind::Sector => Broken::Sectors(over),
    }
}

/// What `judge` finds.
#[derive(Clone, Copy, Debug, PartialEq, Eq)]
pub enum Verdict {
    /// The plan keeps every rule, and costs this.
    Keeps { cost: i64 },
    /// It breaks this rule.
    Breaks(Broken),
}

/// Whether the plan keeps every rule of the scenario, with its cost, or the first rule that it
/// breaks, in the order that `Broken` says. Every plan is judged: no leg leads to a node that a
/// flight hasn't. The loads were made for the scenario. After `Keeps` they are the plan's; after
/// `Breaks` they hold no trips. It takes no memory.
pub fn judge(loads: &mut Loads, s: &Scenario, plan: &Plan) -> Verdict
    requires { IsMadeFor (parts_of s.now) loads.old }
    ensures keeps { MatchVerdict result (λ cost. IsFeasible (parts_of s.now) plan.now)
        (λ broken. IsFeasible (parts_of s.now) plan.now → ⊥) }
    ensures cost { MatchVerdict result
        (λ cost. cost ≡ plan_cost (parts_of s.now).tables (parts_of s.now).flights plan.now)
        (λ broken. ⊤) }
    ensures broken { MatchVerdict result (λ cost. first_broken (parts_of s.now) plan.now ≡ None)
        (λ broken. first_broken (parts_of s.now) plan.now ≡ Some broken) }
    ensures loads { MatchVerdict result (λ cost. AreLoads (parts_of s.now) plan.now loads.new)
        (λ broken. AreLoads (parts_of s.now) (no_trips (parts_of s.now)) loads.new) }
{
    loads.clear();
    match check(loads, s, plan) {
        Ok(()) => Verdict::Keeps {
            cost: cost(s, plan),
        },
        Err(broken) => {
            loads.clear();
            Verdict::Breaks(broken)
        }
    }
}

// Whether the plan keeps every rule. Its trips are in the loads then.
fn check(loads: &mut Loads, s: &Scenario, plan: &Plan) -> Result<(), Broken>
    requires { AreLoads (parts_of s.now) (no_trips (parts_of s.now)) loads.old }
    ensures broken { Names (first_broken (parts_of s.now) plan.now) result }
    ensures loads { OnOk result (AreLoads (parts_of s.now) plan.now loads.new) }
    ensures made { IsMadeFor (parts_of s.now) loads.new }
{
    check_trips(s, plan.items())?;
    add_all(loads, s, plan.items());
    check_loads(loads, s)
}

// Whether the trips in the loads keep turnarounds and capacities.
fn check_loads(loads: &Loads, s: &Scenario) -> Result<(), Broken>
    requires { IsMadeFor (parts_of s.now) loads.now }
    ensures { Names (first_broken_load (parts_of s.now) loads.now) result }
{
    check_turns(loads, s.connections())?;
    check_kind(loads, s, CapKind::Dep)?;
    check_kind(loads, s, CapKind::Arr)?;
    check_kind(loads, s, CapKind::Sector)
}
