//! The search.
ghost use Rattle.std.specs.Prelude.{◌≡◌, [], ◌∷◌, ◌+◌, ◌<◌, ◌≤◌, ◌↔◌, IfSome, IsTrue, IfOk, List, OnOk, length, true};
ghost use Rattle.branch_tree.specs.declared.tree.TreeNode.TheVariants.{Leaf as LeafNode, Split as SplitNode};
ghost use Rattle.branch_tree.specs.Trees.{is_tree};
ghost use Rattle.time_windows.specs.Plans.{IsBoundIn, IsPlanIn};
ghost use Rattle.flow_types.specs.Scenario.{parts_of};
ghost use Rattle.flow_types.specs.declared.bound.Bound.TheVariants.{NoPlan};
ghost use Rattle.time_windows.specs.Held.{IsMadeFor, box_of};
ghost use Rattle.time_windows.specs.Splits.{early_branch};
ghost use Rattle.time_windows.specs.Tight.{IsTight, IsTightened};
ghost use Rattle.tree_search.specs.declared.found.Budget.{Budget};
ghost use Rattle.branch_tree.specs.declared.walk.Step.TheVariants.{Early};
ghost use Rattle.flow_types.specs.Bounds.{least_of, lesser};
ghost use Rattle.cut_rows.specs.declared.names.CutName.{CutName};
ghost use Rattle.cut_rows.specs.Pools.{IsPoolOf};
ghost use Rattle.tree_search.specs.Drafts.{IsBlank, IsNoted};
ghost use Rattle.tree_search.specs.Pools.{IsFirstPool};
ghost use Rattle.tree_search.specs.Records.{IsSearchRecord};
ghost use Rattle.tree_search.specs.Rooms.{AreRoomsFor, IsClimbed};
ghost use Rattle.tree_search.specs.Searching.{IsLeft, IsSearched, IsSearching, IsStepped, planned_in};
ghost use Rattle.tree_search.specs.Seen.{AreTold};
ghost use Rattle.time_windows.specs.Subproblems.{box_in, parts_in};
ghost use Rattle.tree_search.specs.Visits.{IsImproved, IsVisited};
ghost use Rattle.branch_tree.specs.Paths.{AreSteps, IsFork, IsNextOr, Path, top_box};

use crate::branching::first_choice;
use crate::draft::{RecordDraft, no_draft, note, offer};
use crate::found::{Budget, Found};
use crate::gap::Gap;
use crate::improving::{improve, improve_again, improve_further, offer_found, seek};
use crate::pooling::{Pooled, pool_for};
use crate::pricing::{LEAD_PART, begin_climb, climb_again, climb_by_plan, climb_further, follow};
use crate::rooms::{Rooms, rooms_for};
use crate::seeing::{Seen, Standing, Told, see};
use crate::setting::{Setting, Start};
use branch_tree::{Branch, Leaf, Tree, TreeNode, Walk};
use cut_rows::Pool;
use flow_types::{Bound, OutOfMemory, Plan, Scenario};
use greedy_plan::Greedy;
use plan_improver::Search;
use std::alloc::Global;
use time_windows::{Boxes, Subproblem};

// Offers the greedy plan of the box.
fn visit(
    problem: Subproblem<'_>,
    rooms: &mut Rooms,
    draft: &mut RecordDraft,
) -> Result<(), OutOfMemory>
    requires rooms { AreRoomsFor (parts_in problem) rooms.old }
    ensures visited { OnOk result
        (IsVisited (parts_in problem.entry) (box_in problem.entry) draft.old draft.new) }
    ensures rooms { AreRoomsFor (parts_in problem.entry) rooms.new }
{
    let Subproblem { s, boxes } = problem;
    match rooms.plans.greedy.first_plan(rooms.alloc, s, boxes)? {
        Greedy::Plan(plan) => offer(draft, s, plan),
        Greedy::Stuck { .. } => Ok(()),
    }
}

// Offers the greedy plan of the box, and gives it, or as much of it as there is.
fn begin(
    problem: Subproblem<'_>,
    rooms: &mut Rooms,
    draft: &mut RecordDraft,
) -> Result<Plan, OutOfMemory>
    requires rooms { AreRoomsFor (parts_in problem) rooms.old }
    ensures visited { IfOk result
        (λ plan. IsVisited (parts_in problem.entry) (box_in problem.entry) draft.old draft.new) }
    ensures rooms { AreRoomsFor (parts_in problem.entry) rooms.new }
{
    let Subproblem { s, boxes } = problem;
    match rooms.plans.greedy.first_plan(rooms.alloc, s, boxes)? {
        Greedy::Plan(plan) => {
            let start = plan.copy(rooms.alloc)?;
            offer(draft, s, plan)?;
            Ok(start)
        }
        Greedy::Stuck { kept, .. } => Ok(kept),
    }
}

// Whether there is room in the budget for two nodes more, beside those that are there, the present
// box and those that wait.
fn has_room(budget: Budget, walk: &Walk, draft: &RecordDraft) -> bool
    requires { planned_in draft.now walk.now ≤ budget.nodes }
    ensures { IsTrue result ↔ planned_in draft.now walk.now + 2 ≤ budget.nodes }
{
    budget.nodes - draft.nodes.items().len() as u64 - walk.waiting() > 2
}

// Writes the leaf down, and goes to the next box that waits, if there is one.
fn leave(
    s: &Scenario,
    walk: &mut Walk,
    draft: &mut RecordDraft,
    leaf: Leaf,
    bound: Bound,
) -> Result<bool, OutOfMemory>
    requires { AreSteps (parts_of s.now) walk.old.above walk.old.steps }
    ensures noted { OnOk result (IsNoted (LeafNode leaf) bound draft.old draft.new) }
    ensures next { IfOk result (IsNextOr (parts_of s.now) walk.old walk.new) }
{
    note(draft, TreeNode::Leaf(leaf), bound)?;
    walk.next(s)
}

// Writes the split down, and goes to its early side.
fn split(
    s: &Scenario,
    walk: &mut Walk,
    draft: &mut RecordDraft,
    branch: Branch,
) -> Result<(), OutOfMemory>
    requires { IsFork (parts_of s.now) walk.old.present branch }
    ensures noted { OnOk result (IsNoted
        (SplitNode branch.flight branch.node branch.time draft.old.best) NoPlan draft.old
        draft.new) }
    ensures above { OnOk result (walk.new.above ≡ walk.old.present ∷ walk.old.above) }
    ensures steps { OnOk result (walk.new.steps ≡ Early branch ∷ walk.old.steps) }
    ensures tight { OnOk result (IsTightened (parts_of s.now)
        (early_branch branch.flight branch.node branch.time (box_of walk.old.present))
        (box_of walk.new.present)) }
    ensures made { OnOk result (IsMadeFor (parts_of s.now) walk.new.present) }
{
    let Branch { flight, node, time } = branch;
    let cutoff = draft.best;
    note(
        draft,
        TreeNode::Split {
            flight,
            node,
            time,
            cutoff,
        },
        Bound::NoPlan,
    )?;
    walk.split(s, branch)
}

// Sees the present box, writes down what is seen, and goes to the next one, if there is one. Only
// at the first box is it known that the best plan is in it.
fn see_and_move(
    s: &Scenario,
    setting: Setting<'_>,
    rooms: &mut Rooms,
    walk: &mut Walk,
    draft: &mut RecordDraft,
    told: Told,
) -> Result<bool, OutOfMemory>
    requires first { IsTrue told.known → walk.old.above ≡ [] }
    requires searching { IsSearching (parts_of s.now) setting.pool.now setting.budget walk.old
        draft.old }
    requires rooms { AreRoomsFor (parts_of s.now) rooms.old }
    requires pool { IsPoolOf (parts_of s.now) setting.pool.now }
    requires begun { length draft.old.nodes ≡ 0 → IsFirstPool (parts_of s.now) setting.budget.limits
        draft.old.best (box_of walk.old.present) setting.pool.now }
    requires told { AreTold (parts_of s.now) setting.pool.now (box_of walk.old.present)
        setting.budget.limits draft.old.best rooms.old.prices.ascent.best told }
    ensures left { IfOk result (IsLeft (parts_of s.now) setting.entry.pool.now setting.entry.budget
        walk.old draft.old walk.new draft.new) }
    ensures rooms { AreRoomsFor (parts_of s.now) rooms.new }
{
    let more = has_room(setting.budget, walk, draft);
    let standing = Standing {
        cutoff: draft.best,
        more,
    };
    let problem = Subproblem {
        s,
        boxes: walk.boxes(),
    };
    let seen = see(problem, rooms, setting, standing, told)?;
    match seen {
        Seen::Leaf { leaf, bound } => {
            let next = leave(s, walk, draft, leaf, bound)?;
            Ok(next)
        }
        Seen::Split(branch) => {
            split(s, walk, draft, branch)?;
            Ok(true)
        }
    }
}

// What a climb in a box leads to: what the best prices tell, where there is one, and a plan of the
// box, if one is found.
#[derive(Drop)]
struct Climbed {
    bound: Option<Bound>,
    plan: Option<Plan>,
}

// The plan that the last climb led to, if there is one that keeps every rule.
fn plan_of_climb(
    problem: Subproblem<'_>,
    rooms: &mut Rooms,
    cutoff: Option<i64>,
) -> Result<Option<Plan>, OutOfMemory>
    requires rooms { AreRoomsFor (parts_in problem) rooms.old }
    ensures plan { IfOk result
        (λ found. IfSome found (IsPlanIn (parts_in problem.entry) (box_in problem.entry))) }
    ensures same { rooms.new.prices.ascent.best ≡ rooms.old.prices.ascent.best }
    ensures rooms { AreRoomsFor (parts_in problem.entry) rooms.new }
{
    let Subproblem { s, boxes } = problem;
    match rooms.prices.ascent.plan(rooms.alloc, s, boxes, cutoff)? {
        None => Ok(None),
        Some(plan) => Ok(rooms.plans.improver.if_kept(s, boxes, plan)),
    }
}

// Climbs from the prices of the box that was split, if there is one.
fn climb_in(
    problem: Subproblem<'_>,
    rooms: &mut Rooms,
    steps: u32,
    cutoff: Option<i64>,
) -> Result<Climbed, OutOfMemory>
    requires rooms { AreRoomsFor (parts_in problem) rooms.old }
    ensures bound { IfOk result (λ climbed. IfSome climbed.bound (IsClimbed
        (parts_in problem.entry) (box_in problem.entry) rooms.new.prices.ascent.best)) }
    ensures plan { IfOk result (λ climbed. IfSome climbed.plan
        (IsPlanIn (parts_in problem.entry) (box_in problem.entry))) }
    ensures rooms { AreRoomsFor (parts_in problem.entry) rooms.new }
{
    let Subproblem { s, boxes } = problem;
    if steps == 0 || boxes.is_empty() || first_choice(problem).is_none() {
        return Ok(Climbed {
            bound: None,
            plan: None,
        });
    }
    let bound = rooms
        .prices
        .ascent
        .climb(s, boxes, cutoff, LEAD_PART, steps);
    let plan = plan_of_climb(problem, rooms, cutoff)?;
    Ok(Climbed {
        bound: Some(bound),
        plan,
    })
}

// Climbs in the box, and offers the plan to which that leads. Answers what the best prices tell,
// where there is a climb.
fn climb_and_offer(
    problem: Subproblem<'_>,
    rooms: &mut Rooms,
    draft: &mut RecordDraft,
    steps: u32,
) -> Result<Option<Bound>, OutOfMemory>
    requires rooms { AreRoomsFor (parts_in problem) rooms.old }
    ensures climbed { IfOk result (λ climbed. IfSome climbed (IsClimbed (parts_in problem.entry)
        (box_in problem.entry) rooms.new.prices.ascent.best)) }
    ensures improved { IfOk result (λ climbed. IsImproved (parts_in problem.entry)
        (box_in problem.entry) draft.old draft.new) }
    ensures rooms { AreRoomsFor (parts_in problem.entry) rooms.new }
{
    let Climbed { bound, plan } = climb_in(problem, rooms, steps, draft.best)?;
    offer_found(problem, draft, plan)?;
    Ok(bound)
}

// Sees the present box, goes on to the next one, if one waits, and offers that one's greedy plan.
fn step(
    s: &Scenario,
    setting: Setting<'_>,
    rooms: &mut Rooms,
    walk: &mut Walk,
    draft: &mut RecordDraft,
    told: Told,
) -> Result<bool, OutOfMemory>
    requires first { IsTrue told.known → walk.old.above ≡ [] }
    requires searching { IsSearching (parts_of s.now) setting.pool.now setting.budget walk.old
        draft.old }
    requires rooms { AreRoomsFor (parts_of s.now) rooms.old }
    requires pool { IsPoolOf (parts_of s.now) setting.pool.now }
    requires begun { length draft.old.nodes ≡ 0 → IsFirstPool (parts_of s.now) setting.budget.limits
        draft.old.best (box_of walk.old.present) setting.pool.now }
    requires told { AreTold (parts_of s.now) setting.pool.now (box_of walk.old.present)
        setting.budget.limits draft.old.best rooms.old.prices.ascent.best told }
    ensures stepped { IfOk result (IsStepped (parts_of s.now) setting.entry.pool.now
        setting.entry.budget walk.old draft.old walk.new draft.new) }
    ensures rooms { AreRoomsFor (parts_of s.now) rooms.new }
{
    let before = walk.waiting();
    if !see_and_move(s, setting, rooms, walk, draft, told)? {
        return Ok(false);
    }
    follow(s, &mut rooms.prices, before, walk.waiting())?;
    let problem = Subproblem {
        s,
        boxes: walk.boxes(),
    };
    visit(problem, rooms, draft)?;
    Ok(true)
}

// Climbs in the present box, which isn't the first, sees it, goes on to the next one, if one waits,
// and offers that one's greedy plan.
fn advance(
    s: &Scenario,
    setting: Setting<'_>,
    rooms: &mut Rooms,
    walk: &mut Walk,
    draft: &mut RecordDraft,
) -> Result<bool, OutOfMemory>
    requires searching { IsSearching (parts_of s.now) setting.pool.now setting.budget walk.old
        draft.old }
    requires rooms { AreRoomsFor (parts_of s.now) rooms.old }
    requires pool { IsPoolOf (parts_of s.now) setting.pool.now }
    requires begun { 0 < length draft.old.nodes }
    ensures stepped { IfOk result (IsStepped (parts_of s.now) setting.entry.pool.now
        setting.entry.budget walk.old draft.old walk.new draft.new) }
    ensures rooms { AreRoomsFor (parts_of s.now) rooms.new }
{
    let problem = Subproblem {
        s,
        boxes: walk.boxes(),
    };
    let climbed = climb_and_offer(problem, rooms, draft, setting.budget.rounds)?;
    let told = Told {
        known: false,
        relaxed: None,
        climbed,
    };
    let goes_on = step(s, setting, rooms, walk, draft, told)?;
    Ok(goes_on)
}

// Searches on from behind the first box, whose prices tell this bound, until no box waits.
fn go_through(
    start: Start<'_>,
    setting: Setting<'_>,
    rooms: &mut Rooms,
    walk: &mut Walk,
    draft: &mut RecordDraft,
    bound: Bound,
) -> Result<(), OutOfMemory>
    requires whole { box_in start.whole ≡ top_box walk.old }
    requires searching { IsSearching (parts_in start.whole) setting.pool.now setting.budget walk.old
        draft.old }
    requires rooms { AreRoomsFor (parts_in start.whole) rooms.old }
    requires pool { IsPoolOf (parts_in start.whole) setting.pool.now }
    requires begun { 0 < length draft.old.nodes }
    ensures { OnOk result (IsSearched (parts_in start.entry.whole) setting.entry.pool.now
        setting.entry.budget (top_box walk.old) draft.new) }
{
    let mut number = 1u32;
    while advance(start.whole.s, setting, rooms, walk, draft)? {
        number = number.saturating_add(1);
        seek(start, rooms, draft, bound, number)?;
    }
    Ok(())
}

// The least of the bounds.
#[tactic(auto, using(flow_types::proofs::BoundFacts::least_more, flow_types::proofs::BoundFacts::least_all))]
fn least_of(bounds: &[Bound]) -> Bound
    ensures { result ≡ least_of bounds.now }
{
    let mut least = Bound::NoPlan;
    for at in 0..bounds.len() {
        least = least.lesser(bounds[at]);
    }
    least
}

// What is handed back of a whole tree, and the cuts that its leaves may name.
fn found_in(draft: RecordDraft, pool: Pool) -> Found
    requires { is_tree draft.nodes ≡ true }
    ensures plans { result.plans ≡ draft.plans }
    ensures tree { result.tree ≡ draft.nodes }
    ensures counts { result.counts ≡ draft.counts }
    ensures bounds { result.bounds ≡ draft.bounds }
    ensures pool { result.pool ≡ pool }
    ensures bound { result.bound ≡ least_of result.bounds }
{
    let RecordDraft {
        plans,
        nodes,
        counts,
        bounds,
        best: _,
    } = draft;
    let bound = least_of(bounds.items());
    match Tree::from_nodes(nodes) {
        Err(_) => unreachable!(),
        Ok(tree) => Found {
            plans,
            tree,
            counts,
            bounds,
            pool,
            bound,
        },
    }
}

// How many steps of so many the next climb has: none, where the gap is closed.
fn steps_for(rounds: u32, gap: Gap) -> u32 {
    if gap.is_closed() { 0 } else { rounds }
}

// Looks for plans of the first box and for prices, in turns, and answers what the prices tell.
fn prepare(
    start: Start<'_>,
    rounds: u32,
    rooms: &mut Rooms,
    draft: &mut RecordDraft,
) -> Result<Bound, OutOfMemory>
    requires rooms { AreRoomsFor (parts_in start.whole) rooms.old }
    ensures improved { (pool : List CutName) (budget : Budget) (path : Path)
        → box_in start.entry.whole ≡ top_box path
        → IsSearching (parts_in start.entry.whole) pool budget path draft.old
        → IfOk result
        (λ bound. IsSearching (parts_in start.entry.whole) pool budget path draft.new) }
    ensures rooms { AreRoomsFor (parts_in start.entry.whole) rooms.new }
{
    let whole = start.whole;
    let bound = begin_climb(whole, &mut rooms.prices, rounds, draft.best)?;
    improve(start, rooms, draft, bound, Search::Short)?;
    let bound = climb_further(whole, &mut rooms.prices, rounds, draft.gap(bound));
    improve_further(start, rounds, rooms, draft, bound)?;
    let before = climb_again(whole, &mut rooms.prices, rounds, draft.gap(bound))?;
    improve(start, rooms, draft, before, Search::Long)?;
    let plan = draft.plans.items().last();
    let bound = climb_by_plan(whole, &mut rooms.prices, rounds, plan, draft.gap(before))?;
    improve_again(start, rooms, draft, before, bound)?;
    Ok(bound)
}

// Searches from the tight box on, which is the path's first one, until no box waits. Answers the
// pool that its leaves name.
fn search_whole(
    start: Start<'_>,
    budget: Budget,
    rooms: &mut Rooms,
    walk: &mut Walk,
    draft: &mut RecordDraft,
) -> Result<Pool, OutOfMemory>
    requires whole { box_in start.whole ≡ top_box walk.old }
    requires first { walk.old.above ≡ [] }
    requires here { IsMadeFor (parts_in start.whole) walk.old.present }
    requires tight { IsTight (parts_in start.whole) (box_of walk.old.present) }
    requires searching { (pool : List CutName)
        → IsSearching (parts_in start.whole) pool budget walk.old draft.old }
    requires rooms { AreRoomsFor (parts_in start.whole) rooms.old }
    ensures cuts { IfOk result (IsPoolOf (parts_in start.entry.whole)) }
    ensures searched { IfOk result (λ pool.
        IsSearched (parts_in start.entry.whole) pool budget (top_box walk.old) draft.new) }
{
    let s = start.whole.s;
    let bound = prepare(start, budget.rounds, rooms, draft)?;
    let problem = Subproblem {
        s,
        boxes: walk.boxes(),
    };
    let steps = steps_for(budget.rounds, draft.gap(bound));
    let climbed = climb_and_offer(problem, rooms, draft, steps)?;
    let Pooled { pool, relaxed } = pool_for(problem, rooms, budget.limits, draft.best)?;
    let setting = Setting {
        budget,
        pool: &pool,
    };
    let told = Told {
        known: true,
        relaxed,
        climbed,
    };
    if step(s, setting, rooms, walk, draft, told)? {
        go_through(start, setting, rooms, walk, draft, bound)?;
    }
    Ok(pool)
}

// Begins with the tight box, of which nothing is written down yet: copies it, offers its greedy
// plan, and searches it.
fn search_in(
    s: &Scenario,
    boxes: Boxes,
    budget: Budget,
    rooms: &mut Rooms,
    draft: &mut RecordDraft,
) -> Result<Pool, OutOfMemory>
    requires nodes { 0 < budget.nodes }
    requires made { IsMadeFor (parts_of s.now) boxes }
    requires tight { IsTight (parts_of s.now) (box_of boxes) }
    requires rooms { AreRoomsFor (parts_of s.now) rooms.old }
    requires blank { IsBlank draft.old }
    ensures cuts { IfOk result (IsPoolOf (parts_of s.now)) }
    ensures searched { IfOk result (λ pool.
        IsSearched (parts_of s.now) pool budget (box_of boxes) draft.new) }
{
    let first = boxes.copy(rooms.alloc)?;
    let whole = Subproblem { s, boxes: &first };
    let plan = begin(whole, rooms, draft)?;
    let start = Start { whole, plan: &plan };
    let mut walk = Walk::new(rooms.alloc, boxes)?;
    search_whole(start, budget, rooms, &mut walk, draft)
}

// What is written down of a whole search, and the cuts that its leaves may name.
#[derive(Drop)]
struct Searched {
    draft: RecordDraft,
    pool: Pool,
}

// Searches the tight box in rooms that are made for it, and gives all that is written down.
fn search_tight(
    alloc: Global,
    s: &Scenario,
    boxes: Boxes,
    budget: Budget,
) -> Result<Searched, OutOfMemory>
    requires nodes { 0 < budget.nodes }
    requires made { IsMadeFor (parts_of s.now) boxes }
    requires tight { IsTight (parts_of s.now) (box_of boxes) }
    ensures cuts { IfOk result (λ searched. IsPoolOf (parts_of s.now) searched.pool) }
    ensures searched { IfOk result (λ searched. IsSearched (parts_of s.now) searched.pool budget
        (box_of boxes) searched.draft) }
{
    let mut rooms = rooms_for(alloc, s)?;
    let mut draft = no_draft(alloc);
    let pool = search_in(s, boxes, budget, &mut rooms, &mut draft)?;
    Ok(Searched { draft, pool })
}

/// Searches the box, which is one of the scenario, for a plan that costs the least, and spends no
/// more than the budget, which has a node or more. It hands back the plans that it found, each
/// cheaper than the one before, and the tree that proves a bound: no plan in the box that keeps
/// every rule costs less, and with `NoPlan` there is none. The last plan costs the bound, or there
/// is neither a plan nor a bound, or fewer than two nodes of the budget were left (branch and
/// bound, after Land and Doig 1960). Before its first node it makes a pool of cuts: those that the
/// point of the tight box's relaxation exceeds, and every run from then on has their rows.
///
/// It takes two copies of the box, one more while a branch is chosen, a log of what changed on the
/// way, what `PlanWork`, `LeafWork`, `Rounds`, `Ascent` and `Improver` take, for each node some 110
/// bytes and what its leaf takes, 24 bytes a row, 16 for each price that is put by, some 50 for each
/// of at most 10,000 cuts, and for one box at a time what its run takes. The box stays as it was.
pub fn search(
    alloc: Global,
    s: &Scenario,
    root: &Boxes,
    budget: Budget,
) -> Result<Found, OutOfMemory>
    requires nodes { 0 < budget.nodes }
    requires made { IsMadeFor (parts_of s.now) root.now }
    ensures record { IfOk result (IsSearchRecord (parts_of s.now) (box_of root.now) budget) }
    ensures sound { IfOk result (λ found. IsBoundIn (parts_of s.now) (box_of root.now)
        found.bound) }
{
    let mut boxes = root.copy(alloc)?;
    boxes.tighten(s);
    let Searched { draft, pool } = search_tight(alloc, s, boxes, budget)?;
    Ok(found_in(draft, pool))
}
