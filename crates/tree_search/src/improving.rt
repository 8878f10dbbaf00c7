//! Cheaper plans on the way.
ghost use Rattle.std.specs.Prelude.{IfOk, IfSome, OnOk};
ghost use Rattle.time_windows.specs.Plans.{IsPlanIn};
ghost use Rattle.tree_search.specs.Rooms.{AreRoomsFor};
ghost use Rattle.time_windows.specs.Subproblems.{box_in, parts_in};
ghost use Rattle.tree_search.specs.Visits.{IsImproved};

use crate::draft::{RecordDraft, offer};
use crate::rooms::Rooms;
use crate::setting::Start;
use flow_types::{Bound, OutOfMemory, Plan};
use plan_improver::{Aim, Search};
use price_ascent::WEIGHT;
use time_windows::Subproblem;

// After so many boxes a cheaper plan of the first box is looked for again, up to so many in all.
const BOXES_A_SEARCH: u32 = 16;

const MOST_BOXES: u32 = 1024;

/// Looks for a plan that costs less than the one with which searches begin, and offers it; where
/// the bound reaches what the best plan costs there is none.
pub fn improve(
    start: Start<'_>,
    rooms: &mut Rooms,
    draft: &mut RecordDraft,
    bound: Bound,
    search: Search,
) -> Result<(), OutOfMemory>
    requires rooms { AreRoomsFor (parts_in start.whole) rooms.old }
    ensures improved { OnOk result (IsImproved (parts_in start.entry.whole)
        (box_in start.entry.whole) draft.old draft.new) }
    ensures rooms { AreRoomsFor (parts_in start.entry.whole) rooms.new }
{
    if bound.is_reached(draft.best) {
        return Ok(());
    }
    let found = find_cheaper(start.whole, start.plan, rooms, bound, search)?;
    offer_found(start.whole, draft, found)
}

// How long the search for a cheaper plan is after the first climb: short where one is known, since
// better prices may still be found then.
fn next_search(cutoff: Option<i64>) -> Search {
    match cutoff {
        None => Search::Long,
        Some(_) => Search::Short,
    }
}

/// Looks for a cheaper plan behind the first climb, where there are rounds, so that prices were
/// looked for, and it pays. By prices of 0 a short search would find what the one before the climb
/// has found, and a long one what the one behind the bids finds.
pub fn improve_further(
    start: Start<'_>,
    rounds: u32,
    rooms: &mut Rooms,
    draft: &mut RecordDraft,
    bound: Bound,
) -> Result<(), OutOfMemory>
    requires rooms { AreRoomsFor (parts_in start.whole) rooms.old }
    ensures improved { OnOk result (IsImproved (parts_in start.entry.whole)
        (box_in start.entry.whole) draft.old draft.new) }
    ensures rooms { AreRoomsFor (parts_in start.entry.whole) rooms.new }
{
    if rounds == 0 || !draft.gap(bound).is_far(start.whole.s) {
        return Ok(());
    }
    let search = next_search(draft.best);
    improve(start, rooms, draft, bound, search)
}

/// Looks for a plan that costs less than the best one, where the prices now tell more than they did
/// before.
pub fn improve_again(
    start: Start<'_>,
    rooms: &mut Rooms,
    draft: &mut RecordDraft,
    before: Bound,
    bound: Bound,
) -> Result<(), OutOfMemory>
    requires rooms { AreRoomsFor (parts_in start.whole) rooms.old }
    ensures improved { OnOk result (IsImproved (parts_in start.entry.whole)
        (box_in start.entry.whole) draft.old draft.new) }
    ensures rooms { AreRoomsFor (parts_in start.entry.whole) rooms.new }
{
    if !bound.is_above(before) {
        return Ok(());
    }
    improve_best(start, rooms, draft, bound, Search::Again(0))
}

/// Looks for a cheaper plan of the first box with the prices of the present one: after every so
/// many boxes, up to a number of them, as long as the best plan costs more than this bound, which
/// prices told of the first box before it was seen.
pub fn seek(
    start: Start<'_>,
    rooms: &mut Rooms,
    draft: &mut RecordDraft,
    bound: Bound,
    number: u32,
) -> Result<(), OutOfMemory>
    requires rooms { AreRoomsFor (parts_in start.whole) rooms.old }
    ensures improved { OnOk result (IsImproved (parts_in start.entry.whole)
        (box_in start.entry.whole) draft.old draft.new) }
    ensures rooms { AreRoomsFor (parts_in start.entry.whole) rooms.new }
{
    if number % BOXES_A_SEARCH > 0 || number > MOST_BOXES {
        return Ok(());
    }
    let search = Search::Again(number / BOXES_A_SEARCH);
    improve_best(start, rooms, draft, bound, search)
}

// Looks for a plan that costs less than the best one, if one is known, and offers it; where the
// bound reaches what that costs there is none.
fn improve_best(
    start: Start<'_>,
    rooms: &mut Rooms,
    draft: &mut RecordDraft,
    bound: Bound,
    search: Search,
) -> Result<(), OutOfMemory>
    requires rooms { AreRoomsFor (parts_in start.whole) rooms.old }
    ensures improved { OnOk result (IsImproved (parts_in start.entry.whole)
        (box_in start.entry.whole) draft.old draft.new) }
    ensures rooms { AreRoomsFor (parts_in start.entry.whole) rooms.new }
{
    if bound.is_reached(draft.best) {
        return Ok(());
    }
    let from = match draft.plans.items().last() {
        None => start.plan,
        Some(plan) => plan,
    };
    let found = find_cheaper(start.whole, from, rooms, bound, search)?;
    offer_found(start.whole, draft, found)
}

// A plan of the subproblem that costs less than this one, if one is found; one that costs the bound
// is enough.
#[tactic(auto, using(crate::proofs::ImproveFacts::found_in_box))]
fn find_cheaper(
    problem: Subproblem<'_>,
    from: &Plan,
    rooms: &mut Rooms,
    bound: Bound,
    search: Search,
) -> Result<Option<Plan>, OutOfMemory>
    requires rooms { AreRoomsFor (parts_in problem) rooms.old }
    ensures found { IfOk result
        (λ found. IfSome found (IsPlanIn (parts_in problem.entry) (box_in problem.entry))) }
    ensures rooms { AreRoomsFor (parts_in problem.entry) rooms.new }
{
    let aim = Aim {
        problem,
        prices: rooms.prices.ascent.prices(),
        weight: WEIGHT,
        enough: bound,
    };
    rooms
        .plans
        .improver
        .cheaper_plan(rooms.alloc, aim, from, search)
}

/// Offers a plan of the subproblem, if one is found.
pub fn offer_found(
    problem: Subproblem<'_>,
    draft: &mut RecordDraft,
    found: Option<Plan>,
) -> Result<(), OutOfMemory>
    requires { IfSome found (IsPlanIn (parts_in problem) (box_in problem)) }
    ensures { OnOk result (IsImproved (parts_in problem.entry) (box_in problem.entry) draft.old
        draft.new) }
{
    match found {
        None => Ok(()),
        Some(plan) => {
            offer(draft, problem.s, plan)?;
            Ok(())
        }
    }
}
