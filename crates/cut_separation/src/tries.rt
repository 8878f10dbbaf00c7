//! Trying whole cuts one after the other.
ghost use Rattle.std.specs.Prelude.{◌≡◌, ◌≤◌, ◌∷◌, [], IfOk, OnOk, length, slice_get};
ghost use Rattle.std.specs.List.{filter, range_with_len};
ghost use Rattle.flow_types.specs.Limits.{most_nodes};
ghost use Rattle.flow_types.specs.Scenario.{parts_of};
ghost use Rattle.bytime_model.specs.Rows.{node_count};
ghost use Rattle.cut_rows.specs.declared.names.CutName.TheVariants.{Departed, Heads};
ghost use Rattle.cut_rows.specs.Cuts.{is_head};
ghost use Rattle.route_distances.specs.Walks.{legs_of};
ghost use Rattle.cut_separation.specs.declared.whole.WholeKind.TheVariants as whole;
ghost use Rattle.cut_separation.specs.Exceeding.{AddsFirst, most_cuts};
ghost use Rattle.cut_separation.specs.Framed.{IsFramed, is_taken, parts_in};
ghost use Rattle.cut_separation.specs.Whole.{flight_cuts, heads_of, kind_cuts, node_cuts, over_day};

use crate::frame::{Draft, Frame};
use crate::values::is_exceeded;
use crate::whole::WholeKind;
use cut_rows::{CutName, Heads, hold_departed, hold_heads, is_head};
use flow_types::{Leg, OutOfMemory, Scenario, Sequence};
use std::alloc::Global;

/// How many cuts are taken at the most.
pub const MOST_CUTS: usize = 10_000;

// So many nodes.
fn node_count(s: &Scenario, flight: u32) -> u16
    ensures { result ≡ node_count (slice_get (parts_of s.now).flights flight) }
{
    match s.flights().get(flight as usize) {
        None => 0,
        Some(flight) => flight.nodes.items().len() as u16,
    }
}

// The legs of the flight, none where there is no such flight.
fn legs_at(s: &Scenario, flight: u32) -> &[Leg]
    ensures { result.now ≡ legs_of (slice_get (parts_of s.now).flights flight) }
{
    match s.flights().get(flight as usize) {
        None => &[],
        Some(flight) => flight.legs.items(),
    }
}

// The first so many nodes, those of them that are heads of the node.
fn heads_among(alloc: Global, legs: &[Leg], node: u16, count: u16) -> Result<Heads, OutOfMemory>
    ensures { IfOk result (λ heads. heads
        ≡ filter (is_head legs.now node) (range_with_len 0 count)) }
{
    let mut heads = Sequence::empty(alloc);
    for head in 0..count {
        if is_head(legs, node, head) {
            heads.add(head)?;
        }
    }
    Ok(heads)
}

// All heads of the node.
fn heads_of(alloc: Global, s: &Scenario, flight: u32, node: u16) -> Result<Heads, OutOfMemory>
    ensures { IfOk result (λ heads. heads
        ≡ heads_of (slice_get (parts_of s.now).flights flight) node) }
{
    heads_among(alloc, legs_at(s, flight), node, node_count(s, flight))
}

// The nodes in a list of their own.
fn copy_of(alloc: Global, heads: &[u16]) -> Result<Heads, OutOfMemory>
    ensures { IfOk result (λ copy. copy ≡ heads.now) }
{
    Ok(Heads::from_vec(Vec::from_slice(alloc, heads)?))
}

// Takes the cut of these heads, if there is room and the point exceeds it.
#[tactic(auto, using(crate::proofs::CutSizeFacts::heads_small))]
fn try_heads(
    draft: &mut Draft,
    frame: &Frame<'_>,
    flight: u32,
    node: u16,
    time: u16,
    heads: &[u16],
) -> Result<(), OutOfMemory>
    requires framed { IsFramed frame.now }
    requires heads { length heads.now ≤ most_nodes }
    requires few { length draft.old.cuts ≤ most_cuts }
    ensures { OnOk result (AddsFirst most_cuts (is_taken frame.now)
        (Heads flight node time heads.now ∷ []) draft.old.cuts draft.new.cuts) }
{
    if draft.cuts.items().len() == MOST_CUTS {
        return Ok(());
    }
    hold_heads(&mut draft.buffer, frame.s, flight, node, time, heads);
    if is_exceeded(frame, &draft.buffer) {
        draft.cuts.add(CutName::Heads {
            flight,
            node,
            time,
            heads: copy_of(draft.alloc, heads)?,
        })?;
    }
    Ok(())
}

// Takes the cut of having departed, if there is room and the point exceeds it.
#[tactic(auto, using(crate::proofs::CutSizeFacts::departed_small))]
fn try_departed(
    draft: &mut Draft,
    frame: &Frame<'_>,
    flight: u32,
    node: u16,
    time: u16,
) -> Result<(), OutOfMemory>
    requires framed { IsFramed frame.now }
    requires few { length draft.old.cuts ≤ most_cuts }
    ensures { OnOk result (AddsFirst most_cuts (is_taken frame.now) (Departed flight node time ∷ [])
        draft.old.cuts draft.new.cuts) }
{
    if draft.cuts.items().len() == MOST_CUTS {
        return Ok(());
    }
    hold_departed(&mut draft.buffer, frame.s, frame.routes, flight, node, time);
    if is_exceeded(frame, &draft.buffer) {
        draft.cuts.add(CutName::Departed { flight, node, time })?;
    }
    Ok(())
}

// Takes those of these heads, period by period.
fn add_heads(
    draft: &mut Draft,
    frame: &Frame<'_>,
    flight: u32,
    node: u16,
    heads: &[u16],
) -> Result<(), OutOfMemory>
    requires framed { IsFramed frame.now }
    requires heads { length heads.now ≤ most_nodes }
    requires few { length draft.old.cuts ≤ most_cuts }
    ensures { OnOk result (AddsFirst most_cuts (is_taken frame.now)
        (over_day (parts_in frame.now) (λ t. Heads flight node t heads.now)) draft.old.cuts
        draft.new.cuts) }
{
    for time in 0..frame.s.day().periods {
        try_heads(draft, frame, flight, node, time, heads)?;
    }
    Ok(())
}

// Takes those of having departed in time for the node, period by period.
fn add_departed(
    draft: &mut Draft,
    frame: &Frame<'_>,
    flight: u32,
    node: u16,
) -> Result<(), OutOfMemory>
    requires framed { IsFramed frame.now }
    requires few { length draft.old.cuts ≤ most_cuts }
    ensures { OnOk result (AddsFirst most_cuts (is_taken frame.now)
        (over_day (parts_in frame.now) (Departed flight node)) draft.old.cuts draft.new.cuts) }
{
    for time in 0..frame.s.day().periods {
        try_departed(draft, frame, flight, node, time)?;
    }
    Ok(())
}

// Takes those of all heads of a node, if it has some.
fn add_node_heads(
    draft: &mut Draft,
    frame: &Frame<'_>,
    flight: u32,
    node: u16,
) -> Result<(), OutOfMemory>
    requires framed { IsFramed frame.now }
    requires few { length draft.old.cuts ≤ most_cuts }
    ensures { OnOk result (AddsFirst most_cuts (is_taken frame.now)
        (node_cuts whole.Heads (parts_in frame.now) flight node) draft.old.cuts draft.new.cuts) }
{
    let heads = heads_of(draft.alloc, frame.s, flight, node)?;
    if 0 < heads.items().len() {
        add_heads(draft, frame, flight, node, heads.items())?;
    }
    Ok(())
}

// Takes those of having departed, unless it is node 0.
fn add_node_departed(
    draft: &mut Draft,
    frame: &Frame<'_>,
    flight: u32,
    node: u16,
) -> Result<(), OutOfMemory>
    requires framed { IsFramed frame.now }
    requires few { length draft.old.cuts ≤ most_cuts }
    ensures { OnOk result (AddsFirst most_cuts (is_taken frame.now)
        (node_cuts whole.Departed (parts_in frame.now) flight node) draft.old.cuts
        draft.new.cuts) }
{
    if 0 < node {
        add_departed(draft, frame, flight, node)?;
    }
    Ok(())
}

// Takes those of a node.
fn add_node(
    draft: &mut Draft,
    frame: &Frame<'_>,
    kind: WholeKind,
    flight: u32,
    node: u16,
) -> Result<(), OutOfMemory>
    requires framed { IsFramed frame.now }
    requires few { length draft.old.cuts ≤ most_cuts }
    ensures { OnOk result (AddsFirst most_cuts (is_taken frame.now)
        (node_cuts kind (parts_in frame.now) flight node) draft.old.cuts draft.new.cuts) }
{
    match kind {
        WholeKind::Heads => add_node_heads(draft, frame, flight, node),
        WholeKind::Departed => add_node_departed(draft, frame, flight, node),
    }
}

// Takes those of a flight, node by node.
fn add_flight(
    draft: &mut Draft,
    frame: &Frame<'_>,
    kind: WholeKind,
    flight: u32,
) -> Result<(), OutOfMemory>
    requires framed { IsFramed frame.now }
    requires few { length draft.old.cuts ≤ most_cuts }
    ensures { OnOk result (AddsFirst most_cuts (is_taken frame.now)
        (flight_cuts kind (parts_in frame.now) flight) draft.old.cuts draft.new.cuts) }
{
    for node in 0..node_count(frame.s, flight) {
        add_node(draft, frame, kind, flight, node)?;
    }
    Ok(())
}

/// Takes those of a kind that the point exceeds, flight by flight, as long as there is room.
pub fn add_kind(draft: &mut Draft, frame: &Frame<'_>, kind: WholeKind) -> Result<(), OutOfMemory>
    requires framed { IsFramed frame.now }
    requires few { length draft.old.cuts ≤ most_cuts }
    ensures { OnOk result (AddsFirst most_cuts (is_taken frame.now)
        (kind_cuts (parts_in frame.now) kind) draft.old.cuts draft.new.cuts) }
{
    for flight in 0..frame.s.flights().len() {
        add_flight(draft, frame, kind, flight as u32)?;
    }
    Ok(())
}
