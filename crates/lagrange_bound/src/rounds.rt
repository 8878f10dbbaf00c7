//! Prices that are found in rounds, and the best of them.
ghost use Rattle.std.specs.Prelude.{◌≡◌, ◌<◌, ◌+◌, IfSome, length};
ghost use Rattle.flow_types.specs.Scenario.{parts_of};
ghost use Rattle.flight_routes.specs.Prices.{AreFree, ArePricesOf};
ghost use Rattle.flight_routes.specs.Work.{IsWorkFor};
ghost use Rattle.plan_rules.specs.Loads.{IsMadeFor as AreLoadsFor};
ghost use Rattle.time_windows.specs.Boxes.{Box};
ghost use Rattle.time_windows.specs.Subproblems.{box_in, parts_in};
ghost use Rattle.flow_types.specs.Bounds.{IsNearBound};
ghost use Rattle.lagrange_bound.specs.Best.{HasPlanAt};
ghost use Rattle.lagrange_bound.specs.Rounds.{IsRoundStep, IsTableBound};
ghost use Rattle.lagrange_bound.specs.Taking.{HaveTaken};
ghost use Rattle.lagrange_bound.specs.Work.{AreLow, ArePlayed, AreTakenFor, IsBest, most_rounds};

use crate::limits::are_within;
use crate::moves::move_prices;
use crate::taking::{COST_WEIGHT, take_trips};
use crate::values::value_of;
use flight_routes::{Prices, Work};
use flow_types::{Bound, OutOfMemory, Scenario};
use plan_rules::Loads;
use priced_plans::{priced_bounds_are_bounds, told_by};
use std::alloc::Global;
use std::marker::Model;
use time_windows::{Boxes, Subproblem};

// From the next round on prices stay as they are: the step is 0.
const LAST_ROUND: u32 = 1024;

/// Room to play rounds in, and the best prices of those that were played last. Contracts see it as
/// a `RoundRoom`.
#[derive(Debug)]
pub struct Rounds {
    tables: PriceTables,
    work: Work,
    loads: Loads,
}

// The prices of the last round, and the best ones.
#[derive(Debug, Drop)]
struct PriceTables {
    present: Prices,
    best: Prices,
}

// Written out, so that proofs see one call where a room is let go of.
impl Drop for Rounds {
    fn drop(self) {
        let Rounds {
            tables: _,
            work: _,
            loads: _,
        } = self;
    }
}

impl Model for Rounds {
    ghost use Rattle.lagrange_bound.specs.Work.{RoundRoom};

    ghost Value = { RoundRoom };

    ghost view = { λ a. record {
      prices = a.tables.present;
      best = a.tables.best;
      work = a.work;
      loads = a.loads;
    } };
}

impl Rounds {
    ghost use Rattle.std.specs.Prelude.{◌≡◌, IfOk, IfSome};
    ghost use Rattle.flow_types.specs.Scenario.{parts_of};
    ghost use Rattle.flight_routes.specs.Prices.{AreFree};
    ghost use Rattle.time_windows.specs.Held.{IsMadeFor, box_of};
    ghost use Rattle.time_windows.specs.Plans.{IsBoundIn};
    ghost use Rattle.flow_types.specs.Bounds.{IsNearBound};
    ghost use Rattle.priced_plans.specs.Keys.{ArePlaced};
    ghost use Rattle.lagrange_bound.specs.Best.{HasPlanAt, IsMostOfRounds, IsOneOfRounds};
    ghost use Rattle.lagrange_bound.specs.Rounds.{IsTableBound};
    ghost use Rattle.lagrange_bound.specs.Work.{IsRoomFor, most_rounds};

    /// Room for the rounds of the scenario, with prices of 0.
    pub fn new(alloc: Global, s: &Scenario) -> Result<Rounds, OutOfMemory>
        ensures made { IfOk result (IsRoomFor (parts_of s.now)) }
        ensures free { IfOk result (λ rounds. AreFree rounds.best) }
    {
        Ok(Rounds {
            tables: PriceTables {
                present: Prices::new(alloc, s)?,
                best: Prices::new(alloc, s)?,
            },
            work: Work::new(alloc, s)?,
            loads: Loads::new(alloc, s)?,
        })
    }

    /// Plays so many rounds on a box, from prices of 0, and keeps the prices of the round with the
    /// greatest bound. Answers what they tell: no feasible plan in the box costs less, or there is
    /// none, since a flight has no trip in the box. The bound is nearer to 0 than 2^115.
    ///
    /// Where a plan in the box is known to cost so much, it ends at the first round whose bound
    /// reaches that: no other one tells more than a plan costs. And it ends before the first where
    /// the least trips pass no limit, since no round moves a price then.
    ///
    /// The room and the box are of the scenario. With no round the prices are 0, and after round
    /// 1,024 none moves them any more. It takes no memory, and time as a least trip for each
    /// flight, and for each place and period, once more often than there are rounds up to 1,024, at
    /// the most.
    pub fn play(&mut self, s: &Scenario, boxes: &Boxes, rounds: u32, enough: Option<i64>) -> Bound
        requires made { IsRoomFor (parts_of s.now) self.old }
        requires boxes { IsMadeFor (parts_of s.now) boxes.now }
        requires enough { IfSome enough (HasPlanAt (parts_of s.now) (box_of boxes.now)) }
        ensures one { IsOneOfRounds (parts_of s.now) (box_of boxes.now) rounds self.new.best }
        ensures told { IsTableBound (parts_of s.now) (box_of boxes.now) self.new.best result }
        ensures least { IsMostOfRounds (parts_of s.now) (box_of boxes.now) rounds result }
        ensures sound { IsBoundIn (parts_of s.now) (box_of boxes.now) result }
        ensures near { IsNearBound result }
        ensures placed { ArePlaced (parts_of s.now) self.new.best }
        ensures made { IsRoomFor (parts_of s.now) self.new }
    {
        priced_bounds_are_bounds();
        self.tables.present.clear();
        play_rounds(
            Subproblem { s, boxes },
            rounds,
            enough,
            &mut self.tables,
            &mut self.work,
            &mut self.loads,
        )
    }

    /// The prices that are kept.
    pub fn prices(&self) -> &Prices
        ensures { result.now ≡ self.now.best }
    {
        &self.tables.best
    }
}

// Plays the rounds, from prices of 0, as far as they may tell more.
fn play_rounds(
    problem: Subproblem<'_>,
    rounds: u32,
    enough: Option<i64>,
    tables: &mut PriceTables,
    work: &mut Work,
    loads: &mut Loads,
) -> Bound
    requires enough { IfSome enough (HasPlanAt (parts_in problem) (box_in problem)) }
    requires prices { ArePricesOf (parts_in problem) tables.old.present }
    requires free { AreFree tables.old.present }
    requires best { ArePricesOf (parts_in problem) tables.old.best }
    requires work { IsWorkFor (parts_in problem) work.old }
    requires loads { AreLoadsFor (parts_in problem) loads.old }
    ensures kept { IsBest (parts_in problem.entry) (box_in problem.entry) rounds tables.new.best
        result }
    ensures near { IsNearBound result }
    ensures prices { ArePricesOf (parts_in problem.entry) tables.new.present }
    ensures work { IsWorkFor (parts_in problem.entry) work.new }
    ensures loads { AreLoadsFor (parts_in problem.entry) loads.new }
{
    let mut bound = tell(problem, &tables.present, work, loads);
    tables.best.copy_from(&tables.present);
    if are_within(problem.s, loads) {
        return bound;
    }
    for played in 0..rounds.min(LAST_ROUND) {
        if let Bound::NoPlan = bound {
            return Bound::NoPlan;
        }
        if bound.is_reached(enough) {
            return bound;
        }
        bound = play_round(problem, played, bound, tables, work, loads);
    }
    bound
}

// One round more, after so many. Keeps its prices if they tell more than those that are kept.
fn play_round(
    problem: Subproblem<'_>,
    played: u32,
    bound: Bound,
    tables: &mut PriceTables,
    work: &mut Work,
    loads: &mut Loads,
) -> Bound
    requires few { played < most_rounds }
    requires played { ArePlayed (parts_in problem) (box_in problem) played tables.old.present
        tables.old.best loads.old bound }
    requires taken { HaveTaken (parts_in problem) (box_in problem) tables.old.present
        (length (parts_in problem).flights) loads.old }
    requires near { IsNearBound bound }
    requires work { IsWorkFor (parts_in problem) work.old }
    requires loads { AreLoadsFor (parts_in problem) loads.old }
    ensures near { IsNearBound result }
    ensures played { ArePlayed (parts_in problem.entry) (box_in problem.entry) (played + 1)
        tables.new.present tables.new.best loads.new result }
    ensures work { IsWorkFor (parts_in problem.entry) work.new }
    ensures loads { AreLoadsFor (parts_in problem.entry) loads.new }
{
    move_on(problem.s, loads, played, &mut tables.present);
    let told = tell(problem, &tables.present, work, loads);
    if told.is_above(bound) {
        tables.best.copy_from(&tables.present);
        told
    } else {
        bound
    }
}

// Moves the prices as the next round after so many, by the trips that the loads count.
fn move_on(s: &Scenario, loads: &Loads, played: u32, prices: &mut Prices)
    requires loads { AreLoadsFor (parts_of s.now) loads.now }
    requires prices { ArePricesOf (parts_of s.now) prices.old }
    requires few { played < most_rounds }
    requires low { AreLow (parts_of s.now) played prices.old }
    ensures step { (box : Box) → HaveTaken (parts_of s.now) box prices.old
        (length (parts_of s.now).flights) loads.now
        → IsRoundStep (parts_of s.now) box (played + 1) prices.old prices.new }
    ensures size { ArePricesOf (parts_of s.now) prices.new }
    ensures low { AreLow (parts_of s.now) (played + 1) prices.new }
{
    move_prices(s, loads, 1024 / (u64::from(played) + 1), prices);
}

// What the prices tell. The loads then count the least trips under them.
fn tell(problem: Subproblem<'_>, prices: &Prices, work: &mut Work, loads: &mut Loads) -> Bound
    requires prices { ArePricesOf (parts_in problem) prices.now }
    requires low { AreLow (parts_in problem) most_rounds prices.now }
    requires work { IsWorkFor (parts_in problem) work.old }
    requires loads { AreLoadsFor (parts_in problem) loads.old }
    ensures told { IsTableBound (parts_in problem.entry) (box_in problem.entry) prices.now result }
    ensures near { IsNearBound result }
    ensures taken { AreTakenFor (parts_in problem.entry) (box_in problem.entry) prices.now loads.new
        result }
    ensures work { IsWorkFor (parts_in problem.entry) work.new }
    ensures loads { AreLoadsFor (parts_in problem.entry) loads.new }
{
    loads.clear();
    let sum = take_trips(problem, prices, work, loads);
    told_by(value_of(problem.s, prices, sum), COST_WEIGHT)
}
