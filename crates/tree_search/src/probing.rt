//! At which branch prices tell the most of both sides: strong branching (Applegate, Bixby, Chvátal
//! and Cook, "Finding cuts in the TSP", 1995).
ghost use Rattle.std.specs.Prelude.{IfOk, IfSome};
ghost use Rattle.flow_types.specs.declared.parts.Parts.{Parts};
ghost use Rattle.time_windows.specs.Held.{IsMadeFor, box_of};
ghost use Rattle.time_windows.specs.Splits.{IsBranching};
ghost use Rattle.tree_search.specs.Rooms.{AreRoomsFor};
ghost use Rattle.tree_search.specs.Seen.{IsBranchOf};
ghost use Rattle.time_windows.specs.Subproblems.{box_in, parts_in};

use crate::branching::most_spread;
use crate::pricing::LEAD_PART;
use crate::rooms::Rooms;
use branch_tree::Branch;
use flow_types::OutOfMemory;
use price_ascent::WEIGHT;
use time_windows::{Boxes, Side, Subproblem, Tight};

// How many branches are tried beside the one that is near.
const CANDIDATES: usize = 4;

// How many steps a climb has in each side of a branch that is tried.
const STEPS: u32 = 10;

// What a side counts for that is closed.
const CLOSED: i128 = 10_000 * WEIGHT as i128;

// How much more the side counts that gains less.
const LESSER_SIDE: i128 = 5;

// What gains are measured by: the value that the last climb found, and the cost that closes a side.
#[derive(Clone, Copy)]
struct Measure {
    before: i128,
    cutoff: Option<i64>,
}

// A branch, and what its sides gain.
#[derive(Clone, Copy)]
struct Tried {
    branch: Branch,
    gain: i128,
}

/// The branch whose sides gain the most by a few steps of a climb from the best prices, five times
/// the lesser gain and once the greater: of the one that is near, if there is one, and those at which the last
/// climb left most open. The fallback where there is none of these. The best prices stay; what
/// else is told of the last climb goes.
pub fn strongest(
    problem: Subproblem<'_>,
    rooms: &mut Rooms,
    cutoff: Option<i64>,
    fallback: Branch,
    near: Option<Branch>,
) -> Result<Branch, OutOfMemory>
    requires fallback { IsBranchOf (parts_in problem) (box_in problem) fallback }
    requires near { IfSome near (IsBranchOf (parts_in problem) (box_in problem)) }
    requires rooms { AreRoomsFor (parts_in problem) rooms.old }
    ensures branch { IfOk result (IsBranchOf (parts_in problem.entry) (box_in problem.entry)) }
    ensures rooms { AreRoomsFor (parts_in problem.entry) rooms.new }
{
    let candidates = most_spread(rooms.alloc, problem, &rooms.prices.ascent, CANDIDATES, near)?;
    let before = rooms.prices.ascent.value().unwrap_or(0);
    rooms
        .prices
        .ascent
        .put_by(problem.s, &mut rooms.prices.kept)?;
    let mut chosen = Tried {
        branch: fallback,
        gain: -1,
    };
    for at in 0..candidates.len() {
        let measure = Measure { before, cutoff };
        chosen = better(problem, rooms, measure, chosen, candidates[at])?;
    }
    rooms.prices.ascent.restore(problem.s, &rooms.prices.kept);
    rooms.prices.kept.forget();
    Ok(chosen.branch)
}

// The branch, if its sides gain more than those of the one chosen so far, and else that one.
fn better(
    problem: Subproblem<'_>,
    rooms: &mut Rooms,
    measure: Measure,
    chosen: Tried,
    branch: Branch,
) -> Result<Tried, OutOfMemory>
    requires chosen { IsBranchOf (parts_in problem) (box_in problem) chosen.branch }
    requires branch { IsBranchOf (parts_in problem) (box_in problem) branch }
    requires rooms { AreRoomsFor (parts_in problem) rooms.old }
    ensures branch { IfOk result
        (λ tried. IsBranchOf (parts_in problem.entry) (box_in problem.entry) tried.branch) }
    ensures rooms { AreRoomsFor (parts_in problem.entry) rooms.new }
{
    let early = side_gain(problem, rooms, measure, branch, Side::Early)?;
    let late = side_gain(problem, rooms, measure, branch, Side::Late)?;
    let lesser = early.min(late).saturating_mul(LESSER_SIDE);
    let gain = lesser.saturating_add(early.max(late));
    if gain > chosen.gain {
        Ok(Tried { branch, gain })
    } else {
        Ok(chosen)
    }
}

// How much more than before the prices tell after some steps on this side of the branch.
fn side_gain(
    problem: Subproblem<'_>,
    rooms: &mut Rooms,
    measure: Measure,
    branch: Branch,
    side: Side,
) -> Result<i128, OutOfMemory>
    requires branch { IsBranchOf (parts_in problem) (box_in problem) branch }
    requires rooms { AreRoomsFor (parts_in problem) rooms.old }
    ensures rooms { AreRoomsFor (parts_in problem.entry) rooms.new }
{
    let Measure { before, cutoff } = measure;
    let Subproblem { s, boxes } = problem;
    let mut part = boxes.copy(rooms.alloc)?;
    narrow(&mut part, branch, side);
    if let Tight::Empty(_, _) = part.tighten(s) {
        return Ok(CLOSED);
    }
    rooms.prices.ascent.restore(s, &rooms.prices.kept);
    let climbed = rooms
        .prices
        .ascent
        .climb(s, &part, cutoff, LEAD_PART, STEPS);
    if climbed.is_reached(cutoff) {
        return Ok(CLOSED);
    }
    match rooms.prices.ascent.value() {
        None => Ok(CLOSED),
        Some(value) => Ok(value.saturating_sub(before).clamp(0, CLOSED)),
    }
}

// Leaves this side of the branch.
fn narrow(boxes: &mut Boxes, branch: Branch, side: Side)
    requires { IsBranching (box_of boxes.old branch.flight branch.node) branch.time }
    ensures { (parts : Parts) → IsMadeFor parts boxes.old → IsMadeFor parts boxes.new }
{
    let Branch { flight, node, time } = branch;
    match side {
        Side::Early => boxes.narrow_by(flight, node, time),
        Side::Late => boxes.narrow_after(flight, node, time),
    }
}
