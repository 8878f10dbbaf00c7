//! What prices tell of a box.
ghost use Rattle.std.specs.Prelude.{◌≡◌, IfOk, IfSome, List, Ok};
ghost use Rattle.time_windows.specs.Tight.{IsLive};
ghost use Rattle.cut_rows.specs.declared.names.CutName.{CutName};
ghost use Rattle.dual_leaf.specs.Leaf.{IsLeafBound};
ghost use Rattle.flow_types.specs.declared.bound.Bound.{Bound};
ghost use Rattle.flow_types.specs.Scenario.{parts_of};
ghost use Rattle.branch_tree.specs.Leaves.{IsInRange};
ghost use Rattle.lagrange_bound.specs.Best.{HasPlanAt, IsMostOfRounds};
ghost use Rattle.flow_types.specs.Bounds.{IsNearBound};
ghost use Rattle.dual_leaf.specs.PriceLeaf.{IsLagOf};
ghost use Rattle.priced_plans.specs.Keys.{ArePlaced};
ghost use Rattle.time_windows.specs.Boxes.{Box};
ghost use Rattle.price_ascent.specs.Work.{IsAscentRoomFor};
ghost use Rattle.tree_search.specs.Rooms.{ArePriceRoomsFor, IsClimbed, IsToldBy, Tells, prices_from, weight_from};
ghost use Rattle.time_windows.specs.Subproblems.{box_in, parts_in};

use crate::gap::Gap;
use crate::rooms::PriceRooms;
use branch_tree::Leaf;
use dual_leaf::{closing_leaf, lag_leaf};
use flow_types::{Bound, OutOfMemory, Plan, Scenario};
use lagrange_bound::COST_WEIGHT;
use plan_improver::delay_cost;
use price_ascent::{Ascent, WEIGHT};
use std::alloc::Global;
use time_windows::Subproblem;

// How many steps the first climb may take for each round.
const FIRST_STEPS: u32 = 16;

/// By which part of the value climbs lead.
pub const LEAD_PART: u32 = 32;

// By which part of the value climbs lead where flights have bid.
const PART_AFTER_BIDS: u32 = 256;

// In how many passes flights bid.
const BID_PASSES: u32 = 300;

// In how many passes prices lean on a plan, and how often they do at the most, once of these from
// prices of 0.
const LEAN_PASSES: u32 = 8;

const MOST_LEANS: u32 = 6;

// How much the first climb may look at, in all its steps.
const MOST_LOOKS: u64 = 800_000_000;

// How much longer a price that may rise takes than a period of a leg.
const LOOKS_A_PRICE: u64 = 4;

// How many periods of the day count as one look.
const PERIODS_A_LOOK: u64 = 8;

/// Where prices come from.
#[derive(Clone, Copy, Debug, PartialEq, Eq)]
pub enum Source {
    Rounds,
    Ascent,
    /// The prices of a climb, with no weight on costs.
    Closing,
}

/// A bound that prices tell.
#[derive(Clone, Copy, Debug, PartialEq, Eq)]
pub struct Priced {
    pub bound: Bound,
    pub source: Source,
}

/// Where a search begins: climbs from prices of 0, a quarter of the first climb's steps, and
/// answers what the prices tell to which that leads. Where there are no rounds, or prices of 0 tell
/// a bound that reaches the cutoff, it stays at these; and where no trips can pass a limit, so that
/// the greedy plan costs the least, it looks at no prices.
pub fn begin_climb(
    problem: Subproblem<'_>,
    rooms: &mut PriceRooms,
    rounds: u32,
    cutoff: Option<i64>,
) -> Result<Bound, OutOfMemory>
    requires rooms { ArePriceRoomsFor (parts_in problem) rooms.old }
    ensures { ArePriceRoomsFor (parts_in problem.entry) rooms.new }
{
    if let (0, Some(cost)) = (rooms.ascent.rising(), cutoff) {
        return Ok(Bound::AtLeast(i128::from(cost)));
    }
    let Subproblem { s, boxes } = problem;
    let told = rooms.ascent.tell(s, boxes);
    if rounds == 0 || told.is_reached(cutoff) {
        return Ok(told);
    }
    let steps = first_steps(s, rooms.ascent.rising(), rounds);
    let climbed = rooms.ascent.climb(s, boxes, cutoff, LEAD_PART, steps / 4);
    rooms.ascent.put_by(s, &mut rooms.outset)?;
    Ok(climbed)
}

/// Goes on with the first climb for the rest of its steps, where it has led to a bound that doesn't
/// reach the cutoff; and answers what the prices tell, with no cutoff also that no plan is in the
/// box.
pub fn climb_further(
    problem: Subproblem<'_>,
    rooms: &mut PriceRooms,
    rounds: u32,
    gap: Gap,
) -> Bound
    requires rooms { ArePriceRoomsFor (parts_in problem) rooms.old }
    ensures { ArePriceRoomsFor (parts_in problem.entry) rooms.new }
{
    if rounds == 0 || gap.is_closed() {
        return gap.bound;
    }
    let Subproblem { s, boxes } = problem;
    let steps = first_steps(s, rooms.ascent.rising(), rounds);
    let climbed = rooms
        .ascent
        .climb_on(s, boxes, gap.cutoff, steps - steps / 4);
    if gap.cutoff.is_none() && rooms.ascent.has_none(s, boxes) {
        Bound::NoPlan
    } else {
        climbed
    }
}

/// Where the first plans leave a gap to the bound: lets the flights bid in turn from the prices of
/// the first steps of the first climb, and climbs on from where that leads. Answers what the better
/// prices tell, those or the best ones before. Where there are few rounds, or it doesn't pay, it
/// stays at the bound.
pub fn climb_again(
    problem: Subproblem<'_>,
    rooms: &mut PriceRooms,
    rounds: u32,
    gap: Gap,
) -> Result<Bound, OutOfMemory>
    requires rooms { ArePriceRoomsFor (parts_in problem) rooms.old }
    ensures { ArePriceRoomsFor (parts_in problem.entry) rooms.new }
{
    let Subproblem { s, boxes } = problem;
    let steps = first_steps(s, rooms.ascent.rising(), rounds);
    if !gap.is_far(s) || steps < BID_PASSES {
        return Ok(gap.bound);
    }
    let before = rooms.ascent.value().unwrap_or(0);
    rooms.ascent.put_by(s, &mut rooms.kept)?;
    rooms.ascent.restore(s, &rooms.outset);
    let _bid = rooms.ascent.bid(s, boxes, delay_cost(s), BID_PASSES);
    let climbed = rooms
        .ascent
        .climb(s, boxes, gap.cutoff, PART_AFTER_BIDS, steps - steps / 4);
    let is_less = rooms.ascent.value().unwrap_or(0) < before;
    restore_if(s, rooms, is_less);
    rooms.kept.forget();
    rooms.outset.forget();
    Ok(if is_less { gap.bound } else { climbed })
}

/// Where the best plan leaves a gap to the bound: leans on that plan and climbs on from where that
/// leads, from the best prices, once from prices of 0, and then as long as that tells more. Answers
/// what the better prices tell. Where there are few rounds, or it doesn't pay, it stays at the
/// bound.
pub fn climb_by_plan(
    problem: Subproblem<'_>,
    rooms: &mut PriceRooms,
    rounds: u32,
    plan: Option<&Plan>,
    gap: Gap,
) -> Result<Bound, OutOfMemory>
    requires rooms { ArePriceRoomsFor (parts_in problem) rooms.old }
    ensures { ArePriceRoomsFor (parts_in problem.entry) rooms.new }
{
    let Some(plan) = plan else {
        return Ok(gap.bound);
    };
    let steps = first_steps(problem.s, rooms.ascent.rising(), rounds);
    if steps < BID_PASSES || !gap.is_far(problem.s) {
        return Ok(gap.bound);
    }
    lean_often(problem, rooms, steps / 2, plan, gap)
}

// Leans on the plan and climbs on from where that leads, from the best prices, once from prices of
// 0, and then as long as that tells more; with so many steps for each climb.
fn lean_often(
    problem: Subproblem<'_>,
    rooms: &mut PriceRooms,
    steps: u32,
    plan: &Plan,
    gap: Gap,
) -> Result<Bound, OutOfMemory>
    requires rooms { ArePriceRoomsFor (parts_in problem) rooms.old }
    ensures { ArePriceRoomsFor (parts_in problem.entry) rooms.new }
{
    let Gap { cutoff, bound } = gap;
    let mut told = lean_once(problem, rooms, steps, plan, gap, false)?;
    let mut before = bound;
    let mut number = 1;
    while number < MOST_LEANS && !told.is_reached(cutoff) {
        let gap = Gap {
            cutoff,
            bound: told,
        };
        told = lean_once(problem, rooms, steps, plan, gap, number == 1)?;
        if !told.is_above(before) {
            return Ok(told);
        }
        before = told;
        number += 1;
    }
    Ok(told)
}

// Leans on the plan once, from the best prices or from prices of 0, and climbs on. Takes the prices
// before again where they told more.
fn lean_once(
    problem: Subproblem<'_>,
    rooms: &mut PriceRooms,
    steps: u32,
    plan: &Plan,
    gap: Gap,
    from_none: bool,
) -> Result<Bound, OutOfMemory>
    requires rooms { ArePriceRoomsFor (parts_in problem) rooms.old }
    ensures { ArePriceRoomsFor (parts_in problem.entry) rooms.new }
{
    let Subproblem { s, boxes } = problem;
    let before = rooms.ascent.weigh(s, boxes).unwrap_or(0);
    rooms.ascent.put_by(s, &mut rooms.kept)?;
    if from_none {
        rooms.ascent.clear(s);
    }
    let _leaned = rooms.ascent.lean_on(s, boxes, plan, LEAN_PASSES);
    let climbed = rooms
        .ascent
        .climb(s, boxes, gap.cutoff, PART_AFTER_BIDS, steps);
    let is_less = rooms.ascent.value().unwrap_or(0) < before;
    restore_if(s, rooms, is_less);
    rooms.kept.forget();
    Ok(if is_less { gap.bound } else { climbed })
}

// Takes the prices that were put by last for the best ones, where they are wanted.
fn restore_if(s: &Scenario, rooms: &mut PriceRooms, wanted: bool)
    requires rooms { ArePriceRoomsFor (parts_of s.now) rooms.old }
    ensures rooms { ArePriceRoomsFor (parts_of s.now) rooms.new }
{
    if wanted {
        rooms.ascent.restore(s, &rooms.kept);
    }
}

/// Where the search has gone on, and so many boxes wait where so many waited before: a box that was
/// split leaves its prices to both its sides. The early one begins with them, and they are put by
/// for the late one. Else the last that were put by are taken again, for the late side.
pub fn follow(
    s: &Scenario,
    rooms: &mut PriceRooms,
    before: u64,
    waiting: u64,
) -> Result<(), OutOfMemory>
    requires rooms { ArePriceRoomsFor (parts_of s.now) rooms.old }
    ensures rooms { ArePriceRoomsFor (parts_of s.now) rooms.new }
{
    if before < waiting {
        rooms.ascent.put_by(s, &mut rooms.kept)
    } else {
        rooms.ascent.restore(s, &rooms.kept);
        rooms.kept.forget();
        Ok(())
    }
}

// How many steps the first climb may take: so many for each round, fewer on long days with wide
// windows, but at least as many as there are rounds.
fn first_steps(s: &Scenario, rising: usize, rounds: u32) -> u32 {
    let looks = looks_of(s).saturating_add(LOOKS_A_PRICE.saturating_mul(rising as u64));
    let most = u32::try_from(MOST_LOOKS / looks.max(1)).unwrap_or(u32::MAX);
    rounds.saturating_mul(FIRST_STEPS).min(most).max(rounds)
}

// About how much a least trip for each flight looks at: for each leg the periods of its windows,
// and a part of the day's.
fn looks_of(s: &Scenario) -> u64 {
    let day = u64::from(s.day().periods) / PERIODS_A_LOOK;
    let mut looks = 0u64;
    for flight in s.flights() {
        let legs = flight.legs.items().len() as u64;
        let periods = day.saturating_add(u64::from(flight.md)).saturating_add(1);
        looks = looks.saturating_add(legs.saturating_mul(periods));
    }
    looks
}

/// The greatest bound that rounds of prices tell; or, where the gap to the bound of the run is open
/// and stays so, what the best prices of the climb before tell, if that is more; with no
/// cutoff, also that no plan is in the box. `climbed` is what these prices tell, where a climb has
/// told it. Where rounds tell more, climbs go on from their prices. Where a plan in the box is known to cost so much, no more
/// rounds are played than it takes to reach that.
pub fn price(
    problem: Subproblem<'_>,
    rooms: &mut PriceRooms,
    rounds: u32,
    gap: Gap,
    climbed: Option<Bound>,
    enough: Option<i64>,
) -> Priced
    requires rooms { ArePriceRoomsFor (parts_in problem) rooms.old }
    requires climbed { IfSome climbed
        (IsClimbed (parts_in problem) (box_in problem) rooms.old.ascent.best) }
    requires enough { IfSome enough (HasPlanAt (parts_in problem) (box_in problem)) }
    ensures told { IsToldBy (parts_in problem.entry) (box_in problem.entry) rooms.new result }
    ensures most { IsMostOfRounds (parts_in problem.entry) (box_in problem.entry) rounds
        result.bound }
    ensures near { IsNearBound result.bound }
    ensures rooms { ArePriceRoomsFor (parts_in problem.entry) rooms.new }
{
    let Subproblem { s, boxes } = problem;
    let cutoff = gap.cutoff;
    let played = rooms.rounds.play(s, boxes, rounds, enough);
    if rounds > 0 && !gap.is_closed() && !played.is_reached(cutoff) {
        if cutoff.is_none() && rooms.ascent.has_none(s, boxes) {
            return Priced {
                bound: Bound::NoPlan,
                source: Source::Closing,
            };
        }
        let climbed = told_or_tell(problem, &mut rooms.ascent, climbed);
        if climbed.is_above(played) {
            return Priced {
                bound: climbed,
                source: Source::Ascent,
            };
        }
        lead_on(s, rooms, played, climbed);
    }
    Priced {
        bound: played,
        source: Source::Rounds,
    }
}

// What the best prices of the climb tell, which may be known.
fn told_or_tell(problem: Subproblem<'_>, ascent: &mut Ascent, climbed: Option<Bound>) -> Bound
    requires ascent { IsAscentRoomFor (parts_in problem) ascent.old }
    requires climbed { IfSome climbed
        (IsClimbed (parts_in problem) (box_in problem) ascent.old.best) }
    ensures told { IsClimbed (parts_in problem.entry) (box_in problem.entry) ascent.new.best
        result }
    ensures ascent { IsAscentRoomFor (parts_in problem.entry) ascent.new }
{
    match climbed {
        Some(bound) => bound,
        None => ascent.tell(problem.s, problem.boxes),
    }
}

// Where rounds tell more than the best prices of the climb, climbs go on from those of the rounds.
fn lead_on(s: &Scenario, rooms: &mut PriceRooms, played: Bound, climbed: Bound)
    requires rooms { ArePriceRoomsFor (parts_of s.now) rooms.old }
    ensures rounds { rooms.new.rounds ≡ rooms.old.rounds }
    ensures rooms { ArePriceRoomsFor (parts_of s.now) rooms.new }
{
    if played.is_above(climbed) {
        rooms
            .ascent
            .take_over(s, rooms.rounds.prices(), WEIGHT / COST_WEIGHT);
    }
}

/// The leaf of the prices that the source keeps.
#[tactic(auto, using(crate::proofs::PriceFacts::closing_bound))]
pub fn price_leaf(
    alloc: Global,
    s: &Scenario,
    rooms: &PriceRooms,
    source: Source,
) -> Result<Leaf, OutOfMemory>
    requires rooms { ArePriceRoomsFor (parts_of s.now) rooms.now }
    requires placed { ArePlaced (parts_of s.now) (prices_from rooms.now source) }
    ensures prices { IfOk result
        (IsLagOf (parts_of s.now) (weight_from source) (prices_from rooms.now source)) }
    ensures range { IfOk result IsInRange }
    ensures bound { IfOk result (λ leaf. (pool : List CutName) (box : Box) (bound : Bound)
        → IsLive box → Tells (parts_of s.now) box rooms.now source bound
        → IsLeafBound (parts_of s.now) pool box leaf (Ok bound)) }
{
    match source {
        Source::Rounds => lag_leaf(alloc, s, COST_WEIGHT, rooms.rounds.prices()),
        Source::Ascent => lag_leaf(alloc, s, WEIGHT, rooms.ascent.prices()),
        Source::Closing => {
            let leaf = closing_leaf(alloc, s, rooms.ascent.prices())?;
            Ok(leaf)
        }
    }
}
