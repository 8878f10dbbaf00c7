//! The pool of a search: the cuts that the point of its first box exceeds.
ghost use Rattle.std.specs.Prelude.{◌≡◌, ◌<◌, ◌^◌, [], IfOk, IfSome, None, Option, false, length, map, pos, slice_index_or, ℤ, ◌<ℤ◌};
ghost use Rattle.std.specs.List.{range_with_len};
ghost use Rattle.cut_rows.specs.Pools.{IsPoolOf};
ghost use Rattle.cut_rows.specs.Table.{IsTableFor};
ghost use Rattle.flow_types.specs.declared.parts.Parts.{Parts};
ghost use Rattle.presolve.specs.Points.{IsNumerator};
ghost use Rattle.relaxed_bound.specs.declared.limits.Limits.{Limits};
ghost use Rattle.relaxed_bound.specs.Point.{AreFractions, IsPointIn};
ghost use Rattle.time_windows.specs.Boxes.{Box};
ghost use Rattle.time_windows.specs.Tight.{IsLive, IsTight};
ghost use Rattle.tree_search.specs.Pools.{IsFirstPool, cuts_by, free_point, turned_at};
ghost use Rattle.tree_search.specs.Rooms.{AreRoomsFor};
ghost use Rattle.tree_search.specs.Seen.{IsBranchOf, IsRelaxedIn};
ghost use Rattle.time_windows.specs.Subproblems.{box_in, parts_in};

use crate::branching::first_choice;
use crate::rooms::Rooms;
use crate::seeing::run_of;
use branch_tree::Branch;
use cut_rows::{Pool, Table};
use cut_separation::{FreePoint, separate};
use flow_types::{OutOfMemory, Sequence};
use relaxed_bound::{Limits, Point, Relaxed};
use scaled_simplex::Numerators;
use std::alloc::Global;
use time_windows::Subproblem;

/// The pool of a search, and what the relaxation of its first box tells with it, where that is
/// known: so the run needn't be made again where the pool has no cuts.
#[derive(Drop)]
pub struct Pooled {
    pub pool: Pool,
    pub relaxed: Option<Relaxed>,
}

/// The pool that goes with the tight box and the cutoff: the cuts that the point of the box's
/// relaxation exceeds. It has none where the box is empty or has no choice, and where the run tells
/// no point.
pub fn pool_for(
    problem: Subproblem<'_>,
    rooms: &Rooms,
    limits: Limits,
    cutoff: Option<i64>,
) -> Result<Pooled, OutOfMemory>
    requires tight { IsTight (parts_in problem) (box_in problem) }
    requires rooms { AreRoomsFor (parts_in problem) rooms.now }
    ensures pool { IfOk result (λ pooled. IsFirstPool (parts_in problem.entry) limits cutoff
        (box_in problem.entry) pooled.pool) }
    ensures cuts { IfOk result (λ pooled. IsPoolOf (parts_in problem.entry) pooled.pool) }
    ensures relaxed { IfOk result (λ pooled. IfSome pooled.relaxed (IsRelaxedIn
        (parts_in problem.entry) pooled.pool (box_in problem.entry) limits cutoff)) }
{
    if problem.boxes.is_empty() {
        return Ok(no_pool(rooms.alloc));
    }
    match first_choice(problem) {
        None => Ok(no_pool(rooms.alloc)),
        Some(branch) => pool_open(problem, rooms, limits, cutoff, branch),
    }
}

// No cuts.
fn no_pool(alloc: Global) -> Pooled
    ensures pool { result.pool ≡ [] }
    ensures none { result.relaxed ≡ None }
{
    Pooled {
        pool: Pool::empty(alloc),
        relaxed: None,
    }
}

// The pool of a box in which no node that must be entered is closed, and which has this branch,
// which is for the contract alone.
fn pool_open(
    problem: Subproblem<'_>,
    rooms: &Rooms,
    limits: Limits,
    cutoff: Option<i64>,
    _branch: Branch,
) -> Result<Pooled, OutOfMemory>
    requires tight { IsTight (parts_in problem) (box_in problem) }
    requires rooms { AreRoomsFor (parts_in problem) rooms.now }
    requires live { IsLive (box_in problem) }
    requires branch { IsBranchOf (parts_in problem) (box_in problem) _branch }
    ensures pool { IfOk result (λ pooled. IsFirstPool (parts_in problem.entry) limits cutoff
        (box_in problem.entry) pooled.pool) }
    ensures cuts { IfOk result (λ pooled. IsPoolOf (parts_in problem.entry) pooled.pool) }
    ensures relaxed { IfOk result (λ pooled. IfSome pooled.relaxed (IsRelaxedIn
        (parts_in problem.entry) pooled.pool (box_in problem.entry) limits cutoff)) }
{
    let none = Pool::empty(rooms.alloc);
    let relaxed = run_of(problem, rooms, &none, limits, cutoff)?;
    let pool = cuts_by(rooms.alloc, problem, rooms.leaves.table(), &relaxed.point)?;
    let relaxed = if_none(&pool, relaxed);
    Ok(Pooled { pool, relaxed })
}

// What was told without cuts, if the pool has none.
#[tactic(auto, using(crate::proofs::PoolFacts::none_told))]
fn if_none(pool: &Pool, relaxed: Relaxed) -> Option<Relaxed>
    ensures { (parts : Parts) (box : Box) (limits : Limits) (cutoff : Option ℤ)
        → IsRelaxedIn parts [] box limits cutoff relaxed
        → IfSome result (IsRelaxedIn parts pool.now box limits cutoff) }
{
    if pool.items().is_empty() {
        Some(relaxed)
    } else {
        None
    }
}

// The cuts that the point exceeds, if there is one.
fn cuts_by(
    alloc: Global,
    problem: Subproblem<'_>,
    table: &Table,
    point: &Option<Point>,
) -> Result<Pool, OutOfMemory>
    requires tight { IsTight (parts_in problem) (box_in problem) }
    requires table { IsTableFor (parts_in problem) table.now }
    requires point { IfSome point.now (IsPointIn (parts_in problem) [] (box_in problem)) }
    ensures pool { IfOk result (λ pool. pool
        ≡ cuts_by (parts_in problem.entry) (box_in problem.entry) point.now) }
    ensures cuts { IfOk result (IsPoolOf (parts_in problem.entry)) }
{
    match point {
        None => Ok(Pool::empty(alloc)),
        Some(point) => {
            let Subproblem { s, boxes } = problem;
            let point = free_point(alloc, point)?;
            separate(alloc, s, table, boxes, &point)
        }
    }
}

// The numerator of the column's variable.
fn turned_at(point: &Point, column: usize) -> i128
    requires within { column < length point.now.numerators }
    requires small { point.now.denominator <ℤ pos (2 ^ 62) }
    requires fraction { IsNumerator point.now.denominator
        (slice_index_or point.now.numerators column (pos 0)) }
    ensures { result ≡ turned_at point.now column }
{
    let numerator = point.numerators.items()[column];
    if is_flipped(point.flipped.items(), column) {
        point.denominator - numerator
    } else {
        numerator
    }
}

// Whether the column stands for 1 less its variable.
fn is_flipped(flips: &[bool], column: usize) -> bool
    ensures { result ≡ slice_index_or flips.now column false }
{
    match flips.get(column) {
        None => false,
        Some(flip) => *flip,
    }
}

// The numerators with those of flipped columns turned back.
#[tactic(auto, using(exact_sums::proofs::LoopFacts::numbers_none, exact_sums::proofs::LoopFacts::numbers_mapped))]
fn turned_of(alloc: Global, point: &Point) -> Result<Numerators, OutOfMemory>
    requires point { AreFractions point.now }
    ensures { IfOk result (λ numerators. numerators
        ≡ map (turned_at point.now) (range_with_len 0 (length point.now.numerators))) }
{
    let mut numerators = Numerators::empty(alloc);
    for column in 0..point.numerators.items().len() {
        numerators.add(turned_at(point, column))?;
    }
    Ok(numerators)
}

// The point with flipped columns turned back.
fn free_point(alloc: Global, point: &Point) -> Result<FreePoint, OutOfMemory>
    requires point { AreFractions point.now }
    ensures { IfOk result (λ free. free ≡ free_point point.now) }
{
    Ok(FreePoint {
        columns: Sequence::from_vec(Vec::from_slice(alloc, point.columns.items())?),
        numerators: turned_of(alloc, point)?,
        denominator: point.denominator,
    })
}
