//! The climb.
ghost use Rattle.std.specs.Prelude.{◌≡◌, IfOk};
ghost use Rattle.flow_types.specs.declared.parts.Parts.{Parts};
ghost use Rattle.flow_types.specs.Scenario.{parts_of};
ghost use Rattle.flight_routes.specs.Prices.{AreAlike, AreFree};
ghost use Rattle.flight_routes.specs.Work.{IsWorkFor};
ghost use Rattle.plan_rules.specs.Loads.{IsMadeFor as AreLoadsFor};
ghost use Rattle.time_windows.specs.Held.{IsMadeFor, box_of};
ghost use Rattle.time_windows.specs.Subproblems.{box_in, parts_in};
ghost use Rattle.priced_plans.specs.PricedBound.{IsPricedBound};
ghost use Rattle.flow_types.specs.Bounds.{IsNearBound};
ghost use Rattle.price_ascent.specs.Slopes.{AreSlopesFor, IsGood};
ghost use Rattle.price_ascent.specs.Work.{climb_weight, is_positive};

use crate::bids::{Bids, pass};
use crate::kept::{KeptPrices, put_by, restore};
use crate::landscape::Landscape;
use crate::leaning::lean;
use crate::pace::{Pace, weighted_cost};
use crate::slopes::{Slope, all_slopes, excess_by_slopes, move_prices, paid_by_limits, take_over};
use crate::spread::Spread;
use flight_routes::{Prices, Work};
use flow_types::{Bound, MOST_NODES, OutOfMemory, Plan, Scenario, Stop, Trip};
use plan_rules::Loads;
use priced_plans::{priced_bound, priced_bounds_are_bounds, priced_value};
use std::alloc::Global;
use std::marker::Model;
use time_windows::{Boxes, Subproblem};

/// How much costs weigh beside prices.
pub const WEIGHT: u64 = 1 << 20;

/// Room to climb in, made once for a scenario, and what the last climb has led to: the best prices;
/// those under which the least trips pass no limit and cost the least; and how much the times of
/// trips differed. Contracts see it as an `AscentRoom`.
#[derive(Debug)]
pub struct Ascent {
    tables: Tables,
    trips: Trips,
    slopes: Vec<Slope>,
    // What the least trips under the planned prices cost, weighted, if they pass no limit.
    plan_cost: Option<i128>,
    // The value of the best prices in the last climb, and how that went.
    value: Option<i128>,
    pace: Pace,
}

// Written out, so that proofs see one call where a room is let go of.
impl Drop for Ascent {
    fn drop(self) {
        let Ascent {
            tables: _,
            trips: _,
            slopes: _,
            plan_cost: _,
            value: _,
            pace: _,
        } = self;
    }
}

// The prices of the last step, the best ones, and those of a plan.
#[derive(Debug)]
struct Tables {
    present: Prices,
    best: Prices,
    planned: Prices,
}

// Written out, so that proofs see one call where a room is let go of.
impl Drop for Tables {
    fn drop(self) {
        let Tables {
            present: _,
            best: _,
            planned: _,
        } = self;
    }
}

// Room for trips, with their counts, and the spreads of their times: for each of the nodes that a
// flight may have.
#[derive(Debug)]
struct Trips {
    work: Work,
    loads: Loads,
    spreads: Vec<Spread>,
}

// Written out, so that proofs see one call where a room is let go of.
impl Drop for Trips {
    fn drop(self) {
        let Trips {
            work: _,
            loads: _,
            spreads: _,
        } = self;
    }
}

impl Model for Ascent {
    ghost use Rattle.price_ascent.specs.Work.{AscentRoom};

    ghost Value = { AscentRoom };

    ghost view = { λ a. record {
      prices = a.tables.present;
      best = a.tables.best;
      planned = a.tables.planned;
      work = a.trips.work;
      loads = a.trips.loads;
      slopes = a.slopes.items;
    } };
}

impl Ascent {
    ghost use Rattle.std.specs.Prelude.{◌≡◌, ◌↔◌, IfOk, IsTrue};
    ghost use Rattle.flow_types.specs.Scenario.{parts_of};
    ghost use Rattle.flight_routes.specs.Prices.{AreFree, ArePricesOf};
    ghost use Rattle.time_windows.specs.Held.{IsMadeFor, box_of};
    ghost use Rattle.priced_plans.specs.Keys.{ArePlaced};
    ghost use Rattle.priced_plans.specs.PricedBound.{IsPricedBound};
    ghost use Rattle.time_windows.specs.Plans.{IsBoundIn};
    ghost use Rattle.flow_types.specs.Bounds.{IsNearBound};
    ghost use Rattle.price_ascent.specs.Work.{HasNone, IsAscentRoomFor, climb_weight};

    /// Room for the climbs of the scenario, with prices of 0.
    pub fn new(alloc: Global, s: &Scenario) -> Result<Ascent, OutOfMemory>
        ensures made { IfOk result (IsAscentRoomFor (parts_of s.now)) }
        ensures free { IfOk result (λ ascent. AreFree ascent.best) }
    {
        Ok(Ascent {
            tables: no_prices(alloc, s)?,
            trips: no_trips(alloc, s)?,
            slopes: all_slopes(alloc, s)?,
            plan_cost: None,
            value: None,
            pace: Pace::new(None, 1),
        })
    }

    /// Climbs in the box, in so many steps at the most, from the best prices so far, which at first
    /// are 0, and keeps the best on the way. Answers what they tell (`tell`).
    ///
    /// The first steps aim at a value that is greater by such a part, from 1 on. It ends early
    /// where a flight has no trip, where the bound is the cost or more, if one is known of a plan,
    /// or is past all costs where none is; and where the least trips pass no limit.
    ///
    /// The room and the box are of the scenario. It takes no memory, and for each step the time of
    /// a least trip for each flight and of a look at each price that may rise.
    pub fn climb(
        &mut self,
        s: &Scenario,
        boxes: &Boxes,
        cost: Option<i64>,
        part: u32,
        steps: u32,
    ) -> Bound
        requires made { IsAscentRoomFor (parts_of s.now) self.old }
        requires boxes { IsMadeFor (parts_of s.now) boxes.now }
        ensures told { IsPricedBound (parts_of s.now) (box_of boxes.now) climb_weight
            self.new.best result }
        ensures sound { IsBoundIn (parts_of s.now) (box_of boxes.now) result }
        ensures near { IsNearBound result }
        ensures placed { ArePlaced (parts_of s.now) self.new.best }
        ensures made { IsAscentRoomFor (parts_of s.now) self.new }
    {
        self.begin(s);
        self.pace = Pace::new(cost, part);
        self.go_on(Subproblem { s, boxes }, steps);
        self.tell(s, boxes)
    }

    /// Goes on with the last climb in the same box, in so many steps more, where this cost is known
    /// of a plan; nothing may have been done between them that changes the best prices.
    pub fn climb_on(&mut self, s: &Scenario, boxes: &Boxes, cost: Option<i64>, steps: u32) -> Bound
        requires made { IsAscentRoomFor (parts_of s.now) self.old }
        requires boxes { IsMadeFor (parts_of s.now) boxes.now }
        ensures told { IsPricedBound (parts_of s.now) (box_of boxes.now) climb_weight
            self.new.best result }
        ensures sound { IsBoundIn (parts_of s.now) (box_of boxes.now) result }
        ensures near { IsNearBound result }
        ensures placed { ArePlaced (parts_of s.now) self.new.best }
        ensures made { IsAscentRoomFor (parts_of s.now) self.new }
    {
        self.pace.aim(cost);
        self.go_on(Subproblem { s, boxes }, steps);
        self.tell(s, boxes)
    }

    /// Lets the flights bid in turn, in so many passes at the most, from the best prices so far,
    /// where a period of delay costs so much; and keeps the best on the way. Answers what they tell
    /// (`tell`).
    ///
    /// It ends early where a flight has no trip. The room and the box are of the scenario. It takes
    /// no memory, and for each pass the time of one and a half least trips for each flight, and of
    /// a look at what each may use.
    pub fn bid(&mut self, s: &Scenario, boxes: &Boxes, delay_cost: u64, passes: u32) -> Bound
        requires made { IsAscentRoomFor (parts_of s.now) self.old }
        requires boxes { IsMadeFor (parts_of s.now) boxes.now }
        ensures told { IsPricedBound (parts_of s.now) (box_of boxes.now) climb_weight
            self.new.best result }
        ensures sound { IsBoundIn (parts_of s.now) (box_of boxes.now) result }
        ensures near { IsNearBound result }
        ensures placed { ArePlaced (parts_of s.now) self.new.best }
        ensures made { IsAscentRoomFor (parts_of s.now) self.new }
    {
        let problem = Subproblem { s, boxes };
        let _before = self.weigh(s, boxes);
        let mut bids = Bids::new(s, delay_cost);
        for _ in 0..passes / 2 {
            if !self.bid_twice(problem, &mut bids) {
                break;
            }
        }
        self.tell(s, boxes)
    }

    /// Makes the trips of the plan the least ones, as far as dearer capacities that it fills can,
    /// in so many passes at the most, from the best prices so far; and keeps the best behind a
    /// pass, though they may tell less than those before. Answers what they tell (`tell`).
    ///
    /// The room and the box are of the scenario, and the plan may be any list of trips. It takes no
    /// memory, and for each pass the time of up to five least trips for each flight.
    pub fn lean_on(&mut self, s: &Scenario, boxes: &Boxes, plan: &Plan, passes: u32) -> Bound
        requires made { IsAscentRoomFor (parts_of s.now) self.old }
        requires boxes { IsMadeFor (parts_of s.now) boxes.now }
        ensures told { IsPricedBound (parts_of s.now) (box_of boxes.now) climb_weight
            self.new.best result }
        ensures sound { IsBoundIn (parts_of s.now) (box_of boxes.now) result }
        ensures near { IsNearBound result }
        ensures placed { ArePlaced (parts_of s.now) self.new.best }
        ensures made { IsAscentRoomFor (parts_of s.now) self.new }
    {
        let problem = Subproblem { s, boxes };
        self.begin(s);
        self.value = None;
        for pass in 0..passes {
            if !self.lean_once(problem, plan, pass % 2 == 1) {
                break;
            }
        }
        self.tell(s, boxes)
    }

    /// The value of the best prices in the box, in parts of a cost of 1 (2^20); nothing where a
    /// flight has no trip.
    ///
    /// The room and the box are of the scenario. It takes no memory, and time as `tell`.
    pub fn weigh(&mut self, s: &Scenario, boxes: &Boxes) -> Option<i128>
        requires made { IsAscentRoomFor (parts_of s.now) self.old }
        requires boxes { IsMadeFor (parts_of s.now) boxes.now }
        ensures made { IsAscentRoomFor (parts_of s.now) self.new }
    {
        self.tables.present.copy_from(&self.tables.best);
        self.value = self.present_value(Subproblem { s, boxes });
        self.value
    }

    /// The value of the best prices as the last climb or the last bids found it, in parts of a cost
    /// of 1 (2^20); nothing where a flight had no trip.
    pub fn value(&self) -> Option<i128> {
        self.value
    }

    /// Takes so many times these prices for the best ones, as far as they may rise.
    ///
    /// The room and the prices are of the scenario. It takes no memory, and the time of a look at
    /// each price that may rise.
    pub fn take_over(&mut self, s: &Scenario, prices: &Prices, times: u64)
        requires made { IsAscentRoomFor (parts_of s.now) self.old }
        requires prices { ArePricesOf (parts_of s.now) prices.now }
        ensures made { IsAscentRoomFor (parts_of s.now) self.new }
    {
        take_over(&self.slopes, s, prices, times, &mut self.tables.best);
    }

    /// Takes prices of 0 for the best ones. The room is of the scenario.
    pub fn clear(&mut self, s: &Scenario)
        requires made { IsAscentRoomFor (parts_of s.now) self.old }
        ensures made { IsAscentRoomFor (parts_of s.now) self.new }
    {
        clear(s, &mut self.tables.best);
    }

    /// Puts the best prices by, on top of those that were put by before. It takes 16 bytes for each
    /// that isn't 0.
    pub fn put_by(&self, s: &Scenario, kept: &mut KeptPrices) -> Result<(), OutOfMemory>
        requires made { IsAscentRoomFor (parts_of s.now) self.now }
    {
        put_by(&self.slopes, s, &self.tables.best, kept)
    }

    /// Takes the prices that were put by last for the best ones; prices of 0 where none were put
    /// by. The room is of the scenario, and so was that from which they were put by.
    pub fn restore(&mut self, s: &Scenario, kept: &KeptPrices)
        requires made { IsAscentRoomFor (parts_of s.now) self.old }
        ensures made { IsAscentRoomFor (parts_of s.now) self.new }
    {
        clear(s, &mut self.tables.best);
        restore(&self.slopes, s, kept, &mut self.tables.best);
    }

    /// What the best prices tell in the box, at the weight of 2^20: no feasible plan in it costs
    /// less, or there is none, since a flight has no trip in the box. The bound is nearer to 0 than
    /// 2^115.
    ///
    /// The room and the box are of the scenario. It takes no memory, and the time of a least trip
    /// for each flight and of a look at each price.
    pub fn tell(&mut self, s: &Scenario, boxes: &Boxes) -> Bound
        requires made { IsAscentRoomFor (parts_of s.now) self.old }
        requires boxes { IsMadeFor (parts_of s.now) boxes.now }
        ensures same { self.new.best ≡ self.old.best }
        ensures told { IsPricedBound (parts_of s.now) (box_of boxes.now) climb_weight
            self.new.best result }
        ensures sound { IsBoundIn (parts_of s.now) (box_of boxes.now) result }
        ensures near { IsNearBound result }
        ensures placed { ArePlaced (parts_of s.now) self.new.best }
        ensures made { IsAscentRoomFor (parts_of s.now) self.new }
    {
        priced_bounds_are_bounds();
        let problem = Subproblem { s, boxes };
        bound_of(&mut self.trips.work, problem, &self.tables.best)
    }

    /// Whether the best prices prove that no plan is in the box: a plan that keeps every rule pays
    /// no more than all capacities would, and here even the least trips pay more.
    ///
    /// The room and the box are of the scenario. It takes no memory, and time as `tell`.
    #[tactic(auto, using(crate::proofs::NoneFacts::none_told))]
    pub fn has_none(&mut self, s: &Scenario, boxes: &Boxes) -> bool
        requires made { IsAscentRoomFor (parts_of s.now) self.old }
        requires boxes { IsMadeFor (parts_of s.now) boxes.now }
        ensures same { self.new.best ≡ self.old.best }
        ensures none { IsTrue result
            ↔ HasNone (parts_of s.now) (box_of boxes.now) self.new.best }
        ensures placed { ArePlaced (parts_of s.now) self.new.best }
        ensures made { IsAscentRoomFor (parts_of s.now) self.new }
    {
        let value = priced_value(&mut self.trips.work, s, boxes, 0, &self.tables.best);
        is_positive(value)
    }

    /// The best prices.
    pub fn prices(&self) -> &Prices
        ensures { result.now ≡ self.now.best }
    {
        &self.tables.best
    }

    /// How many prices may rise.
    pub fn rising(&self) -> usize {
        self.slopes.len()
    }

    /// How much the periods differ in which the flight entered the node in the steps of the last
    /// climb.
    pub fn spread(&self, flight: u32, node: u16) -> Spread {
        match self.trips.spreads.get(spread_at(flight, node)) {
            None => Spread::none(),
            Some(spread) => *spread,
        }
    }

    /// The trips of the last climb in the box that pass no limit, if a step has led to such ones
    /// that cost less than this, if something is given; of several those that cost the least. That
    /// they are a plan that keeps every rule no clause says.
    ///
    /// It takes memory for the plan, and the time of a least trip for each flight. The best prices
    /// stay; after want of memory all that is told of the last climb does.
    pub fn plan(
        &mut self,
        alloc: Global,
        s: &Scenario,
        boxes: &Boxes,
        below: Option<i64>,
    ) -> Result<Option<Plan>, OutOfMemory>
        requires made { IsAscentRoomFor (parts_of s.now) self.old }
        requires boxes { IsMadeFor (parts_of s.now) boxes.now }
        ensures same { self.new.best ≡ self.old.best }
        ensures made { IsAscentRoomFor (parts_of s.now) self.new }
    {
        if !is_below(self.plan_cost, below.map(weighted_cost)) {
            return Ok(None);
        }
        let problem = Subproblem { s, boxes };
        let plan = least_trips(alloc, &mut self.trips.work, problem, &self.tables.planned)?;
        Ok(Some(plan))
    }

    // Begins a climb with the best prices so far.
    fn begin(&mut self, _s: &Scenario)
        requires made { IsAscentRoomFor (parts_of _s.now) self.old }
        ensures made { IsAscentRoomFor (parts_of _s.now) self.new }
    {
        self.tables.present.copy_from(&self.tables.best);
        self.plan_cost = None;
        forget(&mut self.trips.spreads);
    }

    // Climbs so many steps at the most.
    fn go_on(&mut self, problem: Subproblem<'_>, steps: u32)
        requires made { IsAscentRoomFor (parts_in problem) self.old }
        ensures made { IsAscentRoomFor (parts_in problem.entry) self.new }
    {
        let mut pace = self.pace;
        for _ in 0..steps {
            if !self.step(problem, &mut pace) {
                break;
            }
        }
        self.pace = pace;
        self.value = pace.best();
    }

    // One step, and whether the climb goes on.
    fn step(&mut self, problem: Subproblem<'_>, pace: &mut Pace) -> bool
        requires made { IsAscentRoomFor (parts_in problem) self.old }
        ensures made { IsAscentRoomFor (parts_in problem.entry) self.new }
    {
        let Some(value) = self.present_value(problem) else {
            return false;
        };
        let is_best = pace.note(value);
        keep_if(is_best, &mut self.tables.best, &self.tables.present);
        if pace.is_over() {
            return false;
        }
        let fifths = pace.fifths_kept();
        let excess = excess_by_slopes(
            &mut self.slopes,
            problem.s,
            &self.trips.loads,
            &self.tables.present,
            fifths,
        );
        self.keep_plan(problem.s, excess.plan_cost(value));
        let stride = pace.stride(value, excess.squares);
        move_prices(&self.slopes, problem.s, stride, &mut self.tables.present);
        excess.squares > 0
    }

    // Keeps the prices whose least trips are a plan, if it costs less than the one before.
    fn keep_plan(&mut self, _s: &Scenario, cost: Option<i128>)
        requires made { IsAscentRoomFor (parts_of _s.now) self.old }
        ensures made { IsAscentRoomFor (parts_of _s.now) self.new }
    {
        let is_cheaper = is_below(cost, self.plan_cost);
        keep_if(is_cheaper, &mut self.tables.planned, &self.tables.present);
        if is_cheaper {
            self.plan_cost = cost;
        }
    }

    // Two passes of bids, after which the prices are kept where they are the best; and whether each
    // flight had a trip.
    fn bid_twice(&mut self, problem: Subproblem<'_>, bids: &mut Bids) -> bool
        requires made { IsAscentRoomFor (parts_in problem) self.old }
        ensures made { IsAscentRoomFor (parts_in problem.entry) self.new }
    {
        if !self.bid_once(problem, bids) || !self.bid_once(problem, bids) {
            return false;
        }
        let value = self.present_value(problem);
        let is_best = is_below(self.value, value);
        keep_if(is_best, &mut self.tables.best, &self.tables.present);
        if is_best {
            self.value = value;
        }
        true
    }

    // One pass that leans on the plan, after which the prices are kept where they are the best or
    // the first; and whether a price has moved.
    fn lean_once(&mut self, problem: Subproblem<'_>, plan: &Plan, back: bool) -> bool
        requires made { IsAscentRoomFor (parts_in problem) self.old }
        ensures made { IsAscentRoomFor (parts_in problem.entry) self.new }
    {
        let moved = self.lean_all(problem, plan, back);
        let value = self.present_value(problem);
        let is_best = self.value.is_none() || is_below(self.value, value);
        keep_if(is_best, &mut self.tables.best, &self.tables.present);
        if is_best {
            self.value = value;
        }
        moved
    }

    // One pass that leans on the plan, and whether a price has moved.
    fn lean_all(&mut self, problem: Subproblem<'_>, plan: &Plan, back: bool) -> bool
        requires made { IsAscentRoomFor (parts_in problem) self.old }
        ensures made { IsAscentRoomFor (parts_in problem.entry) self.new }
    {
        let land = Landscape {
            problem,
            slopes: &self.slopes,
        };
        lean(
            &mut self.trips.work,
            &mut self.trips.loads,
            land,
            &mut self.tables.present,
            plan.items(),
            back,
        )
    }

    // One pass of bids, and whether each flight had a trip.
    fn bid_once(&mut self, problem: Subproblem<'_>, bids: &mut Bids) -> bool
        requires made { IsAscentRoomFor (parts_in problem) self.old }
        ensures made { IsAscentRoomFor (parts_in problem.entry) self.new }
    {
        let done = pass(
            &mut self.trips.work,
            &mut self.slopes,
            problem,
            &mut self.tables.present,
            bids,
        );
        bids.turn();
        done
    }

    // The value of the prices of the last step or pass, nothing where a flight has no trip.
    fn present_value(&mut self, problem: Subproblem<'_>) -> Option<i128>
        requires made { IsAscentRoomFor (parts_in problem) self.old }
        ensures made { IsAscentRoomFor (parts_in problem.entry) self.new }
    {
        let land = Landscape {
            problem,
            slopes: &self.slopes,
        };
        value_of(
            &mut self.trips.work,
            &mut self.trips.loads,
            &mut self.trips.spreads,
            land,
            &self.tables.present,
        )
    }
}

// Prices of 0.
#[tactic(auto, using(crate::proofs::SlopeFacts::good_free))]
fn no_prices(alloc: Global, s: &Scenario) -> Result<Tables, OutOfMemory>
    ensures present { IfOk result (λ tables. IsGood (parts_of s.now) tables.present) }
    ensures best { IfOk result (λ tables. IsGood (parts_of s.now) tables.best) }
    ensures free { IfOk result (λ tables. AreFree tables.best) }
    ensures planned { IfOk result (λ tables. IsGood (parts_of s.now) tables.planned) }
{
    Ok(Tables {
        present: Prices::new(alloc, s)?,
        best: Prices::new(alloc, s)?,
        planned: Prices::new(alloc, s)?,
    })
}

// Room for trips, and spreads of no steps.
fn no_trips(alloc: Global, s: &Scenario) -> Result<Trips, OutOfMemory>
    ensures work { IfOk result (λ trips. IsWorkFor (parts_of s.now) trips.work) }
    ensures loads { IfOk result (λ trips. AreLoadsFor (parts_of s.now) trips.loads) }
{
    Ok(Trips {
        work: Work::new(alloc, s)?,
        loads: Loads::new(alloc, s)?,
        spreads: no_spreads(alloc, s.flights().len())?,
    })
}

// Sets all prices to 0.
#[tactic(auto, using(crate::proofs::SlopeFacts::good_free))]
fn clear(s: &Scenario, prices: &mut Prices)
    requires { IsGood (parts_of s.now) prices.old }
    ensures { IsGood (parts_of s.now) prices.new }
{
    prices.clear();
}

// Keeps the prices in the place of those before, if they are better.
fn keep_if(better: bool, before: &mut Prices, prices: &Prices)
    requires { AreAlike before.old prices.now }
    ensures { (parts : Parts) → IsGood parts before.old → IsGood parts prices.now
        → IsGood parts before.new }
{
    if better {
        before.copy_from(prices);
    }
}

// Whether the first cost is below the second; none is above all.
fn is_below(cost: Option<i128>, other: Option<i128>) -> bool {
    match (cost, other) {
        (None, _) => false,
        (Some(_), None) => true,
        (Some(cost), Some(other)) => cost < other,
    }
}

// Whether there is a value above 0.
fn is_positive(value: Option<i128>) -> bool
    ensures { result ≡ is_positive value }
{
    match value {
        None => false,
        Some(value) => value > 0,
    }
}

// Where the spread of a node stands.
fn spread_at(flight: u32, node: u16) -> usize {
    (flight as usize)
        .saturating_mul(MOST_NODES)
        .saturating_add(usize::from(node))
}

// A spread of no steps for each node that one of so many flights may have.
fn no_spreads(alloc: Global, flights: usize) -> Result<Vec<Spread>, OutOfMemory> {
    Ok(vec![in alloc; Spread::none(); flights.saturating_mul(MOST_NODES)]?)
}

// Sets all spreads to those of no steps.
fn forget(spreads: &mut [Spread]) {
    for spread in spreads.iter_mut() {
        *spread = Spread::none();
    }
}

// Adds the times of a trip to the spreads.
fn add_times(spreads: &mut [Spread], flight: u32, stops: &[Stop]) {
    for stop in stops {
        if let Some(spread) = spreads.get_mut(spread_at(flight, stop.node)) {
            spread.add(stop.time);
        }
    }
}

// What the least trips under the prices cost and pay, nothing where a flight has none; the loads
// then count them, and their times are added to the spreads.
fn least_sum(
    work: &mut Work,
    loads: &mut Loads,
    spreads: &mut [Spread],
    problem: Subproblem<'_>,
    prices: &Prices,
) -> Option<i128>
    requires work { IsWorkFor (parts_in problem) work.old }
    requires loads { AreLoadsFor (parts_in problem) loads.old }
    requires prices { IsGood (parts_in problem) prices.now }
    ensures work { IsWorkFor (parts_in problem.entry) work.new }
    ensures loads { AreLoadsFor (parts_in problem.entry) loads.new }
{
    loads.clear();
    let mut sum = 0i128;
    for number in 0..problem.s.flights().len() {
        let flight = number as u32;
        let least = work.least_trip(problem, flight, WEIGHT, prices)?;
        loads.add(problem.s, flight, work.trip());
        add_times(spreads, flight, work.trip());
        sum = sum.saturating_add(least);
    }
    Some(sum)
}

// The value of the prices, nothing where a flight has no trip; the loads then count the least trips
// under them, whose times are added to the spreads.
fn value_of(
    work: &mut Work,
    loads: &mut Loads,
    spreads: &mut [Spread],
    land: Landscape<'_>,
    prices: &Prices,
) -> Option<i128>
    requires work { IsWorkFor (parts_in land.problem) work.old }
    requires loads { AreLoadsFor (parts_in land.problem) loads.old }
    requires prices { IsGood (parts_in land.problem) prices.now }
    ensures work { IsWorkFor (parts_in land.entry.problem) work.new }
    ensures loads { AreLoadsFor (parts_in land.entry.problem) loads.new }
{
    let least = least_sum(work, loads, spreads, land.problem, prices)?;
    Some(least.saturating_sub(paid_by_limits(land.slopes, land.problem.s, prices)))
}

// The least trips under the prices; no stops where a flight has none.
fn least_trips(
    alloc: Global,
    work: &mut Work,
    problem: Subproblem<'_>,
    prices: &Prices,
) -> Result<Plan, OutOfMemory>
    requires work { IsWorkFor (parts_in problem) work.old }
    requires prices { IsGood (parts_in problem) prices.now }
    ensures { IsWorkFor (parts_in problem.entry) work.new }
{
    let mut plan = Plan::empty(alloc);
    for number in 0..problem.s.flights().len() {
        let _least = work.least_trip(problem, number as u32, WEIGHT, prices);
        plan.add(Trip::from_stops(alloc, work.trip())?)?;
    }
    Ok(plan)
}

// What the prices tell.
fn bound_of(work: &mut Work, problem: Subproblem<'_>, prices: &Prices) -> Bound
    requires work { IsWorkFor (parts_in problem) work.old }
    requires prices { IsGood (parts_in problem) prices.now }
    ensures told { IsPricedBound (parts_in problem.entry) (box_in problem.entry) climb_weight
        prices.now result }
    ensures near { IsNearBound result }
    ensures work { IsWorkFor (parts_in problem.entry) work.new }
{
    priced_bound(work, problem.s, problem.boxes, WEIGHT, prices)
}
