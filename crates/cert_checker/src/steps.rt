//! What the line of an item does.
ghost use Rattle.std.specs.Prelude.{◌≡◌, ◌+◌, ◌<◌, ◌≤◌, ◌^◌, IfOk, OnOk, Some, []};
ghost use Rattle.flow_types.specs.Scenario.{parts_of};
ghost use Rattle.time_windows.specs.Held.{box_of};
ghost use Rattle.cert_checker.specs.Checks.{AreRoomsFor, GoesTo, IfThere, IsFitItem, IsOnPath, IsOpenDraft, IsStanding, StepsTo, TellsNow, path_if, step_of};
ghost use Rattle.cert_checker.specs.Fronts.{front_of};
ghost use Rattle.cert_checker.specs.Steps.{IsNodeStep, IsStep, later_told};

use crate::cut_lines::cut_line;
use crate::fault::{StepError, StepFault, bad_kind};
use crate::given::Given;
use crate::plan_lines::{check_bound, check_count, check_digest, plan_line, trip_line};
use crate::progress::{LeafDraft, Progress, RowLeaf};
use crate::rooms::Rooms;
use crate::standing::Standing;
use crate::tree_lines::{leaf_line, row_line, rows_line, split_line};
use branch_tree::{Branch, Leaf, Walk};
use bytime_model::Multipliers;
use certificate::CertItem;
use flow_types::Scenario;
use std::alloc::Global;

// A leaf of so many rows, of which none was read.
fn begin_leaf(alloc: Global, kind: RowLeaf, weight: u64, rows: u32) -> LeafDraft
    ensures { result ≡ record { kind = kind; weight = weight; left = rows; rows = [] } }
{
    LeafDraft {
        kind,
        weight,
        left: rows,
        rows: Multipliers::empty(alloc),
    }
}

// A line that changes nothing, if it has no fault.
fn or_fault(checked: Result<(), StepFault>) -> Result<(), StepError>
    ensures { result ≡ step_of checked }
{
    match checked {
        Ok(()) => Ok(()),
        Err(fault) => Err(StepError::Fault(fault)),
    }
}

// A line of the tree. Tells whether a node of it is still to come.
fn node_line(
    rooms: &mut Rooms,
    s: &Scenario,
    walk: &mut Walk,
    leaf: &mut Option<LeafDraft>,
    progress: &mut Progress,
    item: &CertItem,
) -> Result<bool, StepError>
    requires rooms { AreRoomsFor (parts_of s.now) rooms.old }
    requires path { IsOnPath (parts_of s.now) walk.old }
    requires leaf { IfThere IsOpenDraft leaf.old }
    requires few { progress.old.nodes < 2 ^ 62 }
    requires item { IsFitItem item.now }
    ensures step { GoesTo result walk.new leaf.new progress.new (IsNodeStep (parts_of s.now)
        (front_of (Some walk.old) leaf.old) (box_of walk.old.present) progress.old item.now) }
    ensures path { IfOk result (λ more. IfThere (IsOnPath (parts_of s.now))
        (path_if more walk.new)) }
    ensures leaf { OnOk result (IfThere IsOpenDraft leaf.new) }
    ensures nodes { OnOk result (progress.new.nodes ≤ progress.old.nodes + 1) }
    ensures rooms { AreRoomsFor (parts_of s.now) rooms.new }
{
    match *item {
        CertItem::Split {
            flight,
            node,
            time,
            ..
        } => split_line(s, walk, leaf, progress, Branch { flight, node, time }),
        CertItem::Empty => leaf_line(rooms, s, walk, leaf, progress, &Leaf::Empty),
        CertItem::Unit => leaf_line(rooms, s, walk, leaf, progress, &Leaf::Unit),
        CertItem::Dual { weight, rows } => {
            let draft = begin_leaf(rooms.alloc, RowLeaf::Dual, weight, rows);
            rows_line(rooms, s, walk, leaf, progress, draft)
        }
        CertItem::Lag { weight, rows } => {
            let draft = begin_leaf(rooms.alloc, RowLeaf::Lag, weight, rows);
            rows_line(rooms, s, walk, leaf, progress, draft)
        }
        CertItem::Row(multiplier) => row_line(rooms, s, walk, leaf, progress, multiplier),
        _ => Err(StepError::Fault(bad_kind())),
    }
}

// A line where a node of the tree is to come. Tells whether one still is.
fn tree_line(
    rooms: &mut Rooms,
    given: Given,
    walk: &mut Walk,
    leaf: &mut Option<LeafDraft>,
    progress: &mut Progress,
    item: CertItem,
) -> Result<bool, StepError>
    requires rooms { AreRoomsFor (parts_of given.s.now) rooms.old }
    requires path { IsOnPath (parts_of given.s.now) walk.old }
    requires leaf { IfThere IsOpenDraft leaf.old }
    requires few { progress.old.nodes < 2 ^ 62 }
    requires item { IsFitItem item }
    ensures step { GoesTo result walk.new leaf.new progress.new (IsStep
        (parts_of given.entry.s.now) (box_of given.entry.root.now) given.entry.digest.now
        (front_of (Some walk.old) leaf.old) progress.old item) }
    ensures path { IfOk result (λ more. IfThere (IsOnPath (parts_of given.entry.s.now))
        (path_if more walk.new)) }
    ensures leaf { OnOk result (IfThere IsOpenDraft leaf.new) }
    ensures nodes { OnOk result (progress.new.nodes ≤ progress.old.nodes + 1) }
    ensures rooms { AreRoomsFor (parts_of given.entry.s.now) rooms.new }
{
    match item {
        CertItem::Head(stated) => {
            or_fault(check_digest(given.digest, stated))?;
            Ok(true)
        }
        CertItem::Cut(cut) => {
            cut_line(rooms, given.s, progress, cut)?;
            Ok(true)
        }
        item => node_line(rooms, given.s, walk, leaf, progress, &item),
    }
}

// A line after the tree.
fn later_line(
    rooms: &mut Rooms,
    given: Given,
    progress: &mut Progress,
    item: CertItem,
) -> Result<(), StepError>
    requires rooms { AreRoomsFor (parts_of given.s.now) rooms.old }
    ensures told { TellsNow result progress.new (later_told (parts_of given.entry.s.now)
        (box_of given.entry.root.now) given.entry.digest.now progress.old item) }
    ensures rooms { AreRoomsFor (parts_of given.entry.s.now) rooms.new }
{
    match item {
        CertItem::Head(stated) => or_fault(check_digest(given.digest, stated)),
        CertItem::Plan(cost) => plan_line(rooms, given.s, given.root, progress, cost),
        CertItem::Trip(trip) => trip_line(rooms, given.s, given.root, progress, trip),
        CertItem::Bound(stated) => or_fault(check_bound(progress, stated)),
        CertItem::End(stated) => or_fault(check_count(progress, stated)),
        _ => Err(StepError::Fault(bad_kind())),
    }
}

/// Takes the item of the next line. After an error nothing is said of where the check stands.
pub fn step(
    rooms: &mut Rooms,
    given: Given,
    now: &mut Standing,
    item: CertItem,
) -> Result<(), StepError>
    requires rooms { AreRoomsFor (parts_of given.s.now) rooms.old }
    requires standing { IsStanding (parts_of given.s.now) now.old }
    requires few { now.old.progress.nodes < 2 ^ 62 }
    requires item { IsFitItem item }
    ensures step { StepsTo result now.new (IsStep (parts_of given.entry.s.now)
        (box_of given.entry.root.now) given.entry.digest.now
        (front_of now.old.walk now.old.leaf) now.old.progress item) }
    ensures standing { OnOk result (IsStanding (parts_of given.entry.s.now) now.new) }
    ensures nodes { OnOk result (now.new.progress.nodes ≤ now.old.progress.nodes + 1) }
    ensures rooms { AreRoomsFor (parts_of given.entry.s.now) rooms.new }
{
    let Some(walk) = &mut now.walk else {
        return later_line(rooms, given, &mut now.progress, item);
    };
    if !tree_line(rooms, given, walk, &mut now.leaf, &mut now.progress, item)? {
        now.walk = None;
    }
    Ok(())
}
