//! What is seen of a box: a leaf, or where it is split.
ghost use Rattle.std.specs.Prelude.{◌≡◌, IfOk, IfSome, IsTrue, Ok, Result, true};
ghost use Rattle.std.specs.Result.{IsOk};
ghost use Rattle.branch_tree.specs.Leaves.{IsInRange};
ghost use Rattle.dual_leaf.specs.declared.fault.LeafFault.{LeafFault};
ghost use Rattle.dual_leaf.specs.Leaf.{IsCostIn, IsLeafBound, IsNearOf, IsUnitBox};
ghost use Rattle.dual_leaf.specs.Work.{IsRoomFor};
ghost use Rattle.lagrange_bound.specs.Best.{HasPlanAt};
ghost use Rattle.tree_search.specs.Rooms.{AreRoomsFor};
ghost use Rattle.flow_types.specs.declared.bound.Bound.{Bound};
ghost use Rattle.flow_types.specs.declared.parts.Parts.{Parts};
ghost use Rattle.time_windows.specs.Boxes.{Box};
ghost use Rattle.flow_types.specs.Bounds.{is_reached};
ghost use Rattle.time_windows.specs.Tight.{IsLive, IsTight};
ghost use Rattle.cut_rows.specs.Pools.{IsPoolOf};
ghost use Rattle.relaxed_bound.specs.Point.{IsPointIn, IsToldPoint};
ghost use Rattle.tree_search.specs.Seen.{AreTold, IsBranchOf, IsRelaxedIn, IsSeen, may_split};
ghost use Rattle.time_windows.specs.Subproblems.{box_in, parts_in};

use crate::branching::{first_choice, nearest_half};
use crate::gap::Gap;
use crate::pricing::{price, price_leaf};
use crate::probing::strongest;
use crate::rooms::Rooms;
use crate::setting::Setting;
use branch_tree::{Branch, Leaf};
use cut_rows::{Pool, Relaxation};
use dual_leaf::LeafWork;
use flow_types::{Bound, OutOfMemory};
use relaxed_bound::{Limits, Point, Relaxed, relax};
use time_windows::Subproblem;

/// What is seen of a box.
#[derive(Drop)]
pub enum Seen {
    /// A leaf, with its bound.
    Leaf { leaf: Leaf, bound: Bound },
    /// Where the box is split.
    Split(Branch),
}

/// Where the search stands before a box is seen.
#[derive(Clone, Copy)]
pub struct Standing {
    /// What the best plan costs, if one is known.
    pub cutoff: Option<i64>,
    /// Whether there is room for two nodes more.
    pub more: bool,
}

/// What was told of a box before it is seen.
#[derive(Drop)]
pub struct Told {
    /// Whether the best plan, if one is known, is in the box.
    pub known: bool,
    /// What the box's relaxation tells.
    pub relaxed: Option<Relaxed>,
    /// What the best prices tell.
    pub climbed: Option<Bound>,
}

/// What is seen of the box. Where a node that must be entered is closed the leaf is Empty, and where
/// there is no choice the leaf is Unit. Else the leaf is that of the relaxation's run or of prices, whichever tells
/// more; or, where neither reaches the cutoff and there is room for two nodes more, the box is
/// split. Where a plan in the box is known to cost the cutoff, a bound that reaches it is enough.
pub fn see(
    problem: Subproblem<'_>,
    rooms: &mut Rooms,
    setting: Setting<'_>,
    standing: Standing,
    told: Told,
) -> Result<Seen, OutOfMemory>
    requires tight { IsTight (parts_in problem) (box_in problem) }
    requires rooms { AreRoomsFor (parts_in problem) rooms.old }
    requires pool { IsPoolOf (parts_in problem) setting.pool.now }
    requires known { IsTrue told.known
        → IfSome standing.cutoff (HasPlanAt (parts_in problem) (box_in problem)) }
    requires told { AreTold (parts_in problem) setting.pool.now (box_in problem)
        setting.budget.limits standing.cutoff rooms.old.prices.ascent.best told }
    requires tried { IsUnitBox (box_in problem) → (bound : Bound)
        → IsCostIn (parts_in problem) (box_in problem) bound
        → is_reached standing.cutoff bound ≡ true }
    ensures seen { IfOk result (IsSeen (parts_in problem.entry) setting.entry.pool.now
        setting.entry.budget standing.cutoff standing.more (box_in problem.entry)) }
    ensures rooms { AreRoomsFor (parts_in problem.entry) rooms.new }
{
    if problem.boxes.is_empty() {
        return Ok(Seen::Leaf {
            leaf: Leaf::Empty,
            bound: Bound::NoPlan,
        });
    }
    match first_choice(problem) {
        None => {
            let bound = bound_of(problem, setting.pool, &mut rooms.leaves, &Leaf::Unit);
            Ok(Seen::Leaf {
                leaf: Leaf::Unit,
                bound,
            })
        }
        Some(branch) => {
            let seen = see_open(problem, rooms, setting, standing, told, branch)?;
            Ok(seen)
        }
    }
}

// What is seen of a box in which no node that must be entered is closed, and which has a choice.
fn see_open(
    problem: Subproblem<'_>,
    rooms: &mut Rooms,
    setting: Setting<'_>,
    standing: Standing,
    told: Told,
    branch: Branch,
) -> Result<Seen, OutOfMemory>
    requires tight { IsTight (parts_in problem) (box_in problem) }
    requires rooms { AreRoomsFor (parts_in problem) rooms.old }
    requires pool { IsPoolOf (parts_in problem) setting.pool.now }
    requires known { IsTrue told.known
        → IfSome standing.cutoff (HasPlanAt (parts_in problem) (box_in problem)) }
    requires told { AreTold (parts_in problem) setting.pool.now (box_in problem)
        setting.budget.limits standing.cutoff rooms.old.prices.ascent.best told }
    requires live { IsLive (box_in problem) }
    requires branch { IsBranchOf (parts_in problem) (box_in problem) branch }
    ensures seen { IfOk result (IsSeen (parts_in problem.entry) setting.entry.pool.now
        setting.entry.budget standing.cutoff standing.more (box_in problem.entry)) }
    ensures rooms { AreRoomsFor (parts_in problem.entry) rooms.new }
{
    let Standing { cutoff, more } = standing;
    let Told {
        known,
        relaxed,
        climbed,
    } = told;
    let relaxed = told_or_run(problem, rooms, setting, cutoff, relaxed)?;
    let Relaxed {
        leaf,
        end: _,
        point,
    } = relaxed;
    let run = bound_of(problem, setting.pool, &mut rooms.leaves, &leaf);
    if is_closed(known, cutoff, run) {
        return Ok(Seen::Leaf { leaf, bound: run });
    }
    let gap = Gap { cutoff, bound: run };
    let enough = if_known(known, cutoff);
    let rounds = setting.budget.rounds;
    let priced = price(problem, &mut rooms.prices, rounds, gap, climbed, enough);
    if may_split(more, cutoff, run, priced.bound) {
        let branch = choose(problem, rooms, &point, cutoff, branch)?;
        Ok(Seen::Split(branch))
    } else if priced.bound.is_above(run) {
        let leaf = price_leaf(rooms.alloc, problem.s, &rooms.prices, priced.source)?;
        Ok(Seen::Leaf {
            leaf,
            bound: priced.bound,
        })
    } else {
        Ok(Seen::Leaf { leaf, bound: run })
    }
}

// What the relaxation of the box tells: what is there already, or by a run.
fn told_or_run(
    problem: Subproblem<'_>,
    rooms: &Rooms,
    setting: Setting<'_>,
    cutoff: Option<i64>,
    told: Option<Relaxed>,
) -> Result<Relaxed, OutOfMemory>
    requires tight { IsTight (parts_in problem) (box_in problem) }
    requires rooms { AreRoomsFor (parts_in problem) rooms.now }
    requires pool { IsPoolOf (parts_in problem) setting.pool.now }
    requires told { IfSome told (IsRelaxedIn (parts_in problem) setting.pool.now (box_in problem)
        setting.budget.limits cutoff) }
    ensures { IfOk result (IsRelaxedIn (parts_in problem.entry) setting.entry.pool.now
        (box_in problem.entry) setting.entry.budget.limits cutoff) }
{
    match told {
        Some(relaxed) => Ok(relaxed),
        None => run_of(problem, rooms, setting.pool, setting.budget.limits, cutoff),
    }
}

/// What a run of the box's relaxation with these cuts tells.
pub fn run_of(
    problem: Subproblem<'_>,
    rooms: &Rooms,
    pool: &Pool,
    limits: Limits,
    cutoff: Option<i64>,
) -> Result<Relaxed, OutOfMemory>
    requires tight { IsTight (parts_in problem) (box_in problem) }
    requires rooms { AreRoomsFor (parts_in problem) rooms.now }
    requires pool { IsPoolOf (parts_in problem) pool.now }
    ensures relaxed { IfOk result (IsRelaxedIn (parts_in problem.entry) pool.now
        (box_in problem.entry) limits cutoff) }
    ensures point { IfOk result (λ relaxed. IfSome relaxed.point
        (IsPointIn (parts_in problem.entry) pool.now (box_in problem.entry))) }
    ensures told { IfOk result (λ relaxed. IsToldPoint (parts_in problem.entry) pool.now
        (box_in problem.entry) limits cutoff relaxed.point) }
{
    let Subproblem { s, boxes } = problem;
    let relaxation = Relaxation::of(s, boxes, rooms.leaves.table(), pool);
    relax(rooms.alloc, relaxation, limits, cutoff)
}

// Whether the best plan, if one is known, is in the box, and the bound leaves nothing below the
// cutoff.
fn is_closed(known: bool, cutoff: Option<i64>, run: Bound) -> bool
    ensures known { IsTrue result → IsTrue known }
    ensures reached { IsTrue result → is_reached cutoff run ≡ true }
{
    known && run.is_reached(cutoff)
}

// The cutoff, if it is what a known plan costs.
fn if_known(known: bool, cutoff: Option<i64>) -> Option<i64>
    ensures { (parts : Parts) (box : Box) → (IsTrue known → IfSome cutoff (HasPlanAt parts box))
        → IfSome result (HasPlanAt parts box) }
{
    if known { cutoff } else { None }
}

// Whether there is room to split a box with these bounds, and neither reaches the cutoff.
fn may_split(more: bool, cutoff: Option<i64>, run: Bound, priced: Bound) -> bool
    ensures { result ≡ may_split more cutoff run priced }
{
    more && !run.is_reached(cutoff) && !priced.is_reached(cutoff)
}

// Where to split the box, which has this branch: where prices tell the most of both sides, of the
// branch that is nearest to a half at the run's point, if there is one, and some others.
fn choose(
    problem: Subproblem<'_>,
    rooms: &mut Rooms,
    point: &Option<Point>,
    cutoff: Option<i64>,
    fallback: Branch,
) -> Result<Branch, OutOfMemory>
    requires fallback { IsBranchOf (parts_in problem) (box_in problem) fallback }
    requires rooms { AreRoomsFor (parts_in problem) rooms.old }
    ensures branch { IfOk result (IsBranchOf (parts_in problem.entry) (box_in problem.entry)) }
    ensures rooms { AreRoomsFor (parts_in problem.entry) rooms.new }
{
    match point {
        None => strongest(problem, rooms, cutoff, fallback, None),
        Some(point) => {
            let near = nearest_half(problem, point, fallback);
            strongest(problem, rooms, cutoff, near, Some(near))
        }
    }
}

// The bound of a leaf that has one.
fn bound_of(problem: Subproblem<'_>, pool: &Pool, work: &mut LeafWork, leaf: &Leaf) -> Bound
    requires tight { IsTight (parts_in problem) (box_in problem) }
    requires work { IsRoomFor (parts_in problem) work.old }
    requires range { IsInRange leaf.now }
    requires some { (answer : Result Bound LeafFault)
        → IsLeafBound (parts_in problem) pool.now (box_in problem) leaf.now answer
        → IsOk answer }
    ensures bound { IsLeafBound (parts_in problem.entry) pool.now (box_in problem.entry) leaf.now
        (Ok result) }
    ensures near { IsNearOf leaf.now result }
    ensures work { IsRoomFor (parts_in problem.entry) work.new }
{
    work.leaf_bound(problem.s, pool, problem.boxes, leaf)
        .unwrap()
}
