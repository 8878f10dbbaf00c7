//! The lines of a tree: splits, leaves and their rows.
ghost use Rattle.std.specs.Prelude.{◌≡◌, ◌<◌, ◌^◌, ◌↔◌, ◌+◌, ◌++◌, ◌≤◌, ◌∷◌, ◌-◌, IfNone, IfOk, IfSome, IsTrue, None, OnOk, [], slice_get};
ghost use Rattle.flow_types.specs.Scenario.{parts_of};
ghost use Rattle.time_windows.specs.Held.{box_of};
ghost use Rattle.time_windows.specs.Splits.{IsBranching};
ghost use Rattle.bytime_model.specs.Rows.{is_node};
ghost use Rattle.branch_tree.specs.Leaves.{IsInRange};
ghost use Rattle.branch_tree.specs.Paths.{waiting_boxes};
ghost use Rattle.cut_rows.specs.Routes.{AreRoutesOf};
ghost use Rattle.cert_checker.specs.Checks.{AreRoomsFor, GoesTo, IfThere, IsFitDraft, IsGoodSplit, IsOnPath, IsOpenDraft, path_if};
ghost use Rattle.cert_checker.specs.Fronts.{GoesOn, front_of};
ghost use Rattle.cert_checker.specs.Steps.{IsBadSplit, IsLeafAt, IsLeafLineAt, IsRowLine, IsRowsAt, IsSplitAt, leaf_cause, leaf_of, may_name};

use crate::fault::{CertCause, StepError, StepFault, bad_kind, in_field};
use crate::progress::{LeafDraft, Progress, RowLeaf};
use crate::rooms::Rooms;
use branch_tree::{Branch, Leaf, Walk};
use bytime_model::{Multiplier, RowName};
use cut_rows::{Pool, Routes, is_row_with};
use dual_leaf::{LeafFault, is_priceable};
use flow_types::{OutOfMemory, Scenario};
use time_windows::{Access, Boxes};

// Whether both sides of a split there leave something out.
fn may_branch(access: Access, time: u16) -> bool
    ensures { IsTrue result ↔ IsBranching access time }
{
    match access.window {
        None => false,
        Some(window) => {
            window.lo <= time && time <= window.hi && (!access.must || time < window.hi)
        }
    }
}

// Whether the flight has the node.
fn has_node(s: &Scenario, flight: u32, node: u16) -> bool
    ensures { result ≡ is_node (slice_get (parts_of s.now).flights flight) node }
{
    match s.flights().get(flight as usize) {
        None => false,
        Some(flight) => usize::from(node) < flight.nodes.items().len(),
    }
}

// The field of a split's line that shows that the box can't be split so, if it can't.
fn bad_field(s: &Scenario, boxes: &Boxes, branch: Branch) -> Option<usize>
    ensures bad { IfSome result (λ field. IsBadSplit (parts_of s.now) (box_of boxes.now)
        branch.flight branch.node branch.time field) }
    ensures good { IfNone result (IsGoodSplit (parts_of s.now) (box_of boxes.now) branch) }
{
    let Branch { flight, node, time } = branch;
    if boxes.is_empty() {
        return Some(1);
    }
    if flight as usize >= s.flights().len() {
        return Some(2);
    }
    if !has_node(s, flight, node) {
        return Some(3);
    }
    if !may_branch(boxes.access(flight, node), time) {
        return Some(4);
    }
    None
}

/// A split of the present box: the next node is on its early side. Tells that it is to come.
pub fn split_line(
    s: &Scenario,
    walk: &mut Walk,
    leaf: &mut Option<LeafDraft>,
    progress: &mut Progress,
    branch: Branch,
) -> Result<bool, StepError>
    requires path { IsOnPath (parts_of s.now) walk.old }
    requires few { progress.old.nodes < 2 ^ 62 }
    ensures step { GoesTo result walk.new leaf.new progress.new (IsSplitAt (parts_of s.now)
        (box_of walk.old.present) (waiting_boxes walk.old.above walk.old.steps) progress.old
        branch.flight branch.node branch.time) }
    ensures path { IfOk result (λ more. IfThere (IsOnPath (parts_of s.now))
        (path_if more walk.new)) }
    ensures leaf { OnOk result (IfThere IsOpenDraft leaf.new) }
    ensures nodes { OnOk result (progress.new.nodes ≤ progress.old.nodes + 1) }
{
    if let Some(field) = bad_field(s, walk.boxes(), branch) {
        return Err(StepError::Fault(in_field(field, CertCause::BadSplit)));
    }
    walk.split(s, branch)?;
    progress.add_node();
    *leaf = None;
    Ok(true)
}

fn leaf_cause(fault: LeafFault) -> StepFault
    ensures { result ≡ leaf_cause fault }
{
    match fault {
        LeafFault::NotEmpty => in_field(1, CertCause::NotEmpty),
        LeafFault::NotUnit(..) => in_field(1, CertCause::NotUnit),
        LeafFault::Closed(..) => in_field(1, CertCause::Closed),
        LeafFault::UnknownRow(_) => in_field(2, CertCause::UnknownRow),
        LeafFault::Useless(value) => in_field(1, CertCause::Useless { value }),
    }
}

// After a leaf: goes on to the box that waits next, and tells whether one does.
fn go_on(s: &Scenario, walk: &mut Walk) -> Result<bool, OutOfMemory>
    requires { IsOnPath (parts_of s.now) walk.old }
    ensures goes_on { IfOk result (λ more. GoesOn (parts_of s.now)
        (waiting_boxes walk.old.above walk.old.steps) (front_of (path_if more walk.new) None)) }
    ensures path { IfOk result (λ more. IfThere (IsOnPath (parts_of s.now))
        (path_if more walk.new)) }
{
    walk.next(s)
}

// A leaf on the present box, with all of its rows. Tells whether a node is to come.
fn leaf_read(
    rooms: &mut Rooms,
    s: &Scenario,
    walk: &mut Walk,
    progress: &mut Progress,
    leaf: &Leaf,
) -> Result<bool, StepError>
    requires rooms { AreRoomsFor (parts_of s.now) rooms.old }
    requires path { IsOnPath (parts_of s.now) walk.old }
    requires range { IsInRange leaf.now }
    requires few { progress.old.nodes < 2 ^ 62 }
    ensures step { GoesTo result walk.new None progress.new (IsLeafAt (parts_of s.now)
        (box_of walk.old.present) (waiting_boxes walk.old.above walk.old.steps) progress.old
        leaf.now) }
    ensures path { IfOk result (λ more. IfThere (IsOnPath (parts_of s.now))
        (path_if more walk.new)) }
    ensures nodes { OnOk result (progress.new.nodes ≤ progress.old.nodes + 1) }
    ensures rooms { AreRoomsFor (parts_of s.now) rooms.new }
{
    match rooms
        .leaves
        .leaf_bound(s, &progress.pool, walk.boxes(), leaf)
    {
        Err(fault) => Err(StepError::Fault(leaf_cause(fault))),
        Ok(bound) => {
            progress.add_bound(bound);
            Ok(go_on(s, walk)?)
        }
    }
}

/// The line of a leaf that has no rows. Tells whether a node is to come.
pub fn leaf_line(
    rooms: &mut Rooms,
    s: &Scenario,
    walk: &mut Walk,
    draft: &mut Option<LeafDraft>,
    progress: &mut Progress,
    leaf: &Leaf,
) -> Result<bool, StepError>
    requires rooms { AreRoomsFor (parts_of s.now) rooms.old }
    requires path { IsOnPath (parts_of s.now) walk.old }
    requires range { IsInRange leaf.now }
    requires few { progress.old.nodes < 2 ^ 62 }
    ensures step { GoesTo result walk.new draft.new progress.new (IsLeafAt (parts_of s.now)
        (box_of walk.old.present) (waiting_boxes walk.old.above walk.old.steps) progress.old
        leaf.now) }
    ensures path { IfOk result (λ more. IfThere (IsOnPath (parts_of s.now))
        (path_if more walk.new)) }
    ensures leaf { OnOk result (IfThere IsOpenDraft draft.new) }
    ensures nodes { OnOk result (progress.new.nodes ≤ progress.old.nodes + 1) }
    ensures rooms { AreRoomsFor (parts_of s.now) rooms.new }
{
    *draft = None;
    leaf_read(rooms, s, walk, progress, leaf)
}

// The leaf that was drafted.
fn leaf_of(draft: LeafDraft) -> Leaf
    ensures { result ≡ leaf_of draft.kind draft.weight draft.rows }
{
    let LeafDraft {
        kind,
        weight,
        rows,
        ..
    } = draft;
    match kind {
        RowLeaf::Dual => Leaf::Dual { weight, rows },
        RowLeaf::Lag => Leaf::Lag { weight, rows },
    }
}

// A leaf of which so many rows were read. Tells whether a node is to come, which is this leaf as
// long as rows are left.
fn rows_read(
    rooms: &mut Rooms,
    s: &Scenario,
    walk: &mut Walk,
    leaf: &mut Option<LeafDraft>,
    progress: &mut Progress,
    draft: LeafDraft,
) -> Result<bool, StepError>
    requires rooms { AreRoomsFor (parts_of s.now) rooms.old }
    requires path { IsOnPath (parts_of s.now) walk.old }
    requires draft { IsFitDraft draft }
    requires few { progress.old.nodes < 2 ^ 62 }
    ensures step { GoesTo result walk.new leaf.new progress.new (IsRowsAt (parts_of s.now)
        (box_of walk.old.present) (waiting_boxes walk.old.above walk.old.steps) progress.old
        draft.kind draft.weight draft.left draft.rows) }
    ensures path { IfOk result (λ more. IfThere (IsOnPath (parts_of s.now))
        (path_if more walk.new)) }
    ensures leaf { OnOk result (IfThere IsOpenDraft leaf.new) }
    ensures nodes { OnOk result (progress.new.nodes ≤ progress.old.nodes + 1) }
    ensures rooms { AreRoomsFor (parts_of s.now) rooms.new }
{
    if draft.left == 0 {
        return leaf_line(rooms, s, walk, leaf, progress, &leaf_of(draft));
    }
    *leaf = Some(draft);
    Ok(true)
}

/// The line of a leaf whose rows follow. Tells whether a node is to come.
pub fn rows_line(
    rooms: &mut Rooms,
    s: &Scenario,
    walk: &mut Walk,
    leaf: &mut Option<LeafDraft>,
    progress: &mut Progress,
    draft: LeafDraft,
) -> Result<bool, StepError>
    requires rooms { AreRoomsFor (parts_of s.now) rooms.old }
    requires path { IsOnPath (parts_of s.now) walk.old }
    requires draft { IsFitDraft draft }
    requires none { draft.rows ≡ [] }
    requires few { progress.old.nodes < 2 ^ 62 }
    ensures step { GoesTo result walk.new leaf.new progress.new (IsLeafLineAt (parts_of s.now)
        (box_of walk.old.present) (waiting_boxes walk.old.above walk.old.steps) progress.old
        draft.kind draft.weight draft.left) }
    ensures path { IfOk result (λ more. IfThere (IsOnPath (parts_of s.now))
        (path_if more walk.new)) }
    ensures leaf { OnOk result (IfThere IsOpenDraft leaf.new) }
    ensures nodes { OnOk result (progress.new.nodes ≤ progress.old.nodes + 1) }
    ensures rooms { AreRoomsFor (parts_of s.now) rooms.new }
{
    if walk.boxes().is_empty() {
        return Err(StepError::Fault(in_field(1, CertCause::Closed)));
    }
    rows_read(rooms, s, walk, leaf, progress, draft)
}

// Whether a leaf of this kind may name the row.
fn may_name(s: &Scenario, routes: &Routes, pool: &Pool, kind: RowLeaf, row: RowName) -> bool
    requires { AreRoutesOf (parts_of s.now) routes.now }
    ensures { result ≡ may_name (parts_of s.now) pool.now kind row }
{
    match kind {
        RowLeaf::Dual => is_row_with(s, routes, pool, row),
        RowLeaf::Lag => is_priceable(s, row),
    }
}

// The draft with a row more.
fn with_row(draft: LeafDraft, multiplier: Multiplier) -> Result<LeafDraft, OutOfMemory>
    ensures { IfOk result (λ next. next ≡ record {
      kind = draft.kind;
      weight = draft.weight;
      left = draft.left - 1;
      rows = draft.rows ++ multiplier ∷ [];
    }) }
{
    let LeafDraft {
        kind,
        weight,
        left,
        mut rows,
    } = draft;
    rows.add(multiplier)?;
    Ok(LeafDraft {
        kind,
        weight,
        left: left.saturating_sub(1),
        rows,
    })
}

/// A row of the leaf. Tells whether a node is to come, which is this leaf as long as rows are left.
pub fn row_line(
    rooms: &mut Rooms,
    s: &Scenario,
    walk: &mut Walk,
    leaf: &mut Option<LeafDraft>,
    progress: &mut Progress,
    multiplier: Multiplier,
) -> Result<bool, StepError>
    requires rooms { AreRoomsFor (parts_of s.now) rooms.old }
    requires path { IsOnPath (parts_of s.now) walk.old }
    requires leaf { IfThere IsOpenDraft leaf.old }
    requires value { multiplier.value < 2 ^ 62 }
    requires few { progress.old.nodes < 2 ^ 62 }
    ensures step { GoesTo result walk.new leaf.new progress.new (IsRowLine (parts_of s.now)
        (box_of walk.old.present) (waiting_boxes walk.old.above walk.old.steps) progress.old
        leaf.old multiplier) }
    ensures path { IfOk result (λ more. IfThere (IsOnPath (parts_of s.now))
        (path_if more walk.new)) }
    ensures leaf { OnOk result (IfThere IsOpenDraft leaf.new) }
    ensures nodes { OnOk result (progress.new.nodes ≤ progress.old.nodes + 1) }
    ensures rooms { AreRoomsFor (parts_of s.now) rooms.new }
{
    let Some(draft) = leaf.take() else {
        return Err(StepError::Fault(bad_kind()));
    };
    let routes = &rooms.leaves.table().routes;
    if !may_name(s, routes, &progress.pool, draft.kind, multiplier.row) {
        return Err(StepError::Fault(in_field(2, CertCause::UnknownRow)));
    }
    rows_read(rooms, s, walk, leaf, progress, with_row(draft, multiplier)?)
}
