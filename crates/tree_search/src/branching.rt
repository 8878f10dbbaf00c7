//! Where a box is split.
ghost use Rattle.std.specs.Prelude.{◌≡◌, ◌≤◌, ◌<◌, ℕ, All, IfOk, IfSome, IsTrue, MatchOption};
ghost use Rattle.flow_types.specs.declared.parts.Parts.{Parts};
ghost use Rattle.flow_types.specs.Limits.{most_nodes};
ghost use Rattle.time_windows.specs.Boxes.{Box, IsProper, options_of};
ghost use Rattle.time_windows.specs.Held.{box_of};
ghost use Rattle.time_windows.specs.Splits.{IsBranching};
ghost use Rattle.tree_search.specs.Seen.{IsBranchOf, IsChoiceIn};
ghost use Rattle.time_windows.specs.Subproblems.{box_in, parts_in};

use branch_tree::Branch;
use bytime_model::Var;
use flow_types::{MOST_NODES, OutOfMemory};
use price_ascent::{Ascent, Spread};
use relaxed_bound::Point;
use std::alloc::Global;
use time_windows::{Access, Boxes, Subproblem};

/// A branch of the box: the middle of the window of the first node that has several options. None
/// where no node has.
pub fn first_choice(problem: Subproblem<'_>) -> Option<Branch>
    ensures { IsChoiceIn (parts_in problem.entry) (box_in problem.entry) result }
{
    for flight in 0..problem.s.flights().len() {
        if let Some(branch) = choice_of(problem.boxes, flight as u32) {
            return Some(branch);
        }
    }
    None
}

/// The branch of the box at the variable that is nearest to a half at the point, of several the
/// first; the fallback where the point has none. A node that the point has entered half by a
/// period splits the flights that wait there for one another.
pub fn nearest_half(problem: Subproblem<'_>, point: &Point, fallback: Branch) -> Branch
    requires { IsBranchOf (parts_in problem) (box_in problem) fallback }
    ensures { IsBranchOf (parts_in problem.entry) (box_in problem.entry) result }
{
    let columns = point.columns.items();
    let numerators = point.numerators.items();
    let mut nearest = fallback;
    let mut least = u128::MAX;
    for at in 0..columns.len().min(numerators.len()) {
        let distance = distance_from_half(numerators[at], point.denominator);
        if distance < least {
            if let Some(branch) = branch_at(problem, columns[at]) {
                nearest = branch;
                least = distance;
            }
        }
    }
    nearest
}

/// The branch that is near, if there is one, and the branches of the box at which the last climb
/// left most open, so many at the most: each is the mean period in which a flight entered a node in
/// its steps, where these differ; first that where they differ the most.
pub fn most_spread(
    alloc: Global,
    problem: Subproblem<'_>,
    ascent: &Ascent,
    count: usize,
    near: Option<Branch>,
) -> Result<Vec<Branch>, OutOfMemory>
    requires { IfSome near (IsBranchOf (parts_in problem) (box_in problem)) }
    ensures { IfOk result
        (λ found. All (IsBranchOf (parts_in problem.entry) (box_in problem.entry)) found.items) }
{
    let mut found = list_of(alloc, near)?;
    let mut below = Rank::first();
    for _ in 0..count {
        below = add_next(problem, ascent, below, &mut found)?;
    }
    Ok(found)
}

// A list of the branch, if there is one.
fn list_of(alloc: Global, branch: Option<Branch>) -> Result<Vec<Branch>, OutOfMemory>
    ensures { (parts : Parts) (box : Box) → IfSome branch (IsBranchOf parts box)
        → IfOk result (λ found. All (IsBranchOf parts box) found.items) }
{
    let mut found = Vec::new(alloc);
    if let Some(branch) = branch {
        found.push(branch)?;
    }
    Ok(found)
}

// Adds the next branch of the box after the one of this rank, if there is one, and tells its rank.
fn add_next(
    problem: Subproblem<'_>,
    ascent: &Ascent,
    below: Rank,
    found: &mut Vec<Branch>,
) -> Result<Rank, OutOfMemory>
    requires { All (IsBranchOf (parts_in problem) (box_in problem)) found.old.items }
    ensures { IfOk result
        (λ rank. All (IsBranchOf (parts_in problem.entry) (box_in problem.entry)) found.new.items) }
{
    match next_spread(problem, ascent, below) {
        None => Ok(below),
        Some((branch, rank)) => {
            found.push(branch)?;
            Ok(rank)
        }
    }
}

// How far the periods are apart in which a flight entered a node, and which node that is: the
// first one of those that are as far apart comes first.
#[derive(Clone, Copy, Debug, PartialEq, Eq)]
struct Rank {
    width: u64,
    flight: usize,
    node: usize,
}

impl Rank {
    // Before all others.
    fn first() -> Rank {
        Rank {
            width: u64::MAX,
            flight: 0,
            node: 0,
        }
    }

    // Whether it comes after the other one.
    fn is_after(self, other: Rank) -> bool {
        if self.width != other.width {
            self.width < other.width
        } else if self.flight != other.flight {
            self.flight > other.flight
        } else {
            self.node > other.node
        }
    }
}

// The next branch of the box after the one of this rank.
fn next_spread(problem: Subproblem<'_>, ascent: &Ascent, below: Rank) -> Option<(Branch, Rank)>
    ensures { IfSome result
        (λ found. IsBranchOf (parts_in problem.entry) (box_in problem.entry) found.0) }
{
    let mut next: Option<(Branch, Rank)> = None;
    let mut widest = 0;
    for flight in 0..problem.s.flights().len() {
        for node in 0..MOST_NODES {
            let spread = ascent.spread(flight as u32, node as u16);
            let rank = Rank {
                width: spread.width(),
                flight,
                node,
            };
            if rank.width > widest && rank.is_after(below) {
                if let Some(branch) = branch_in(problem, flight as u32, node as u16, spread) {
                    next = Some((branch, rank));
                    widest = rank.width;
                }
            }
        }
    }
    next
}

// The branch at the mean, if it is one.
fn branch_in(problem: Subproblem<'_>, flight: u32, node: u16, spread: Spread) -> Option<Branch>
    ensures { IfSome result (IsBranchOf (parts_in problem.entry) (box_in problem.entry)) }
{
    let time = u16::try_from(spread.mean()?).ok()?;
    branch_at(problem, Var::By { flight, node, time })
}

// How far a fraction is from a half, over twice its denominator. Of numbers that aren't fractions
// from 0 to 1 it is whatever it is.
fn distance_from_half(numerator: i128, denominator: i128) -> u128 {
    numerator
        .wrapping_mul(2)
        .wrapping_sub(denominator)
        .unsigned_abs()
}

// The branch at the variable, if there is one: by its period its flight enters its node.
fn branch_at(problem: Subproblem<'_>, variable: Var) -> Option<Branch>
    ensures { IfSome result (IsBranchOf (parts_in problem.entry) (box_in problem.entry)) }
{
    match variable {
        Var::Inside { .. } => None,
        Var::By { flight, node, time } => {
            let there = (flight as usize) < problem.s.flights().len();
            if there && is_branching(problem.boxes.access(flight, node), time) {
                Some(Branch { flight, node, time })
            } else {
                None
            }
        }
    }
}

// Whether both sides leave something out.
fn is_branching(access: Access, time: u16) -> bool
    ensures { IsTrue result → IsBranching access time }
{
    match access.window {
        None => false,
        Some(window) => {
            window.lo <= time && (time < window.hi || (time == window.hi && !access.must))
        }
    }
}

// A branch of the box at the flight: the middle of the window of its first node that has several
// options. None where no node has.
fn choice_of(boxes: &Boxes, flight: u32) -> Option<Branch>
    ensures { MatchOption result
        ((n : ℕ) → n < most_nodes → options_of (box_of boxes.now flight n) ≤ 1)
        (λ branch. (branch.flight ≡ flight)
        × IsBranching (box_of boxes.now flight branch.node) branch.time) }
{
    for at in 0..MOST_NODES {
        let node = at as u16;
        if let Some(time) = middle_of(boxes.access(flight, node)) {
            return Some(Branch { flight, node, time });
        }
    }
    None
}

// The middle of a window with several options.
fn middle_of(access: Access) -> Option<u16>
    requires { IsProper access.window }
    ensures { MatchOption result (options_of access ≤ 1) (λ time. IsBranching access time) }
{
    let window = access.window?;
    if access.must && window.lo == window.hi {
        None
    } else {
        Some(window.lo + (window.hi - window.lo) / 2)
    }
}
