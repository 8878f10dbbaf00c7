//! What the fields of lines tell.
ghost use Rattle.std.specs.Prelude.{◌≡◌, ◌==◌, ◌≤◌, ◌<◌, ◌^◌, length, position, slice_get};
ghost use Rattle.std.specs.Option.{option_copied};
ghost use Rattle.flow_types.specs.Limits.{most_nodes};
ghost use Rattle.flow_types.specs.Scenario.{parts_of};
ghost use Rattle.plan_text.specs.Lines.{place_name};
ghost use Rattle.certificate.specs.Fields.{whole_from};
ghost use Rattle.certificate.specs.Found.{Finds, Gives};
ghost use Rattle.certificate.specs.Items.{bare_line, bound_line, cut_of, digest_or_bad, dual_of, end_line, head_of, is_trip, item_of, lag_of, leaf_of, name_at, node_called, node_or_bad, plain_item, plan_of, row_of, same_name, split_of, stop_from, stops_from, trip_for, trip_of};
ghost use Rattle.certificate.specs.Limits.{most_cost};
ghost use Rattle.certificate.specs.Stages.{is_cut};
ghost use Rattle.certificate.specs.declared.item.CertItem.TheVariants as item;

use crate::cut_names::cut_name_from;
use crate::digest::{Digest, digest_of_word};
use crate::fault::{LineError, LineFault, bad};
use crate::fields::LineFields;
use crate::item::CertItem;
use crate::kind::LineKind;
use crate::limits::{
    MOST_BOUND, MOST_COST, MOST_NODE, MOST_PERIOD, MOST_POSITION, MOST_ROWS, MOST_TREE_NODES,
    MOST_WEIGHT,
};
use crate::row_names::name_from;
use crate::stage::is_cut;
use bytime_model::Multiplier;
use flow_types::{Bound, Flight, MOST_NODES, Place, Scenario, Stop, Trip};
use std::alloc::Global;

// The digest, if the field of this number is the word of one.
fn digest_or_bad(field: usize, digest: Option<Digest>) -> Result<Digest, LineFault>
    ensures { Finds (λ d. d) result (digest_or_bad field digest) }
{
    digest.ok_or(bad(field))
}

#[tactic(auto, unfolding(crate::specs::Items::head_of))]
fn head_of(fields: &mut LineFields<'_>) -> Result<CertItem, LineFault>
    ensures { Finds (λ item. item) result (head_of fields.old) }
{
    fields.number(1, 1)?;
    let field = fields.next_number();
    let word = fields.field()?;
    let digest = digest_or_bad(field, digest_of_word(word))?;
    fields.end()?;
    Ok(CertItem::Head(digest))
}

// A cut, whose nodes take memory.
#[tactic(auto, unfolding(crate::specs::Items::cut_of))]
fn cut_of(alloc: Global, fields: &mut LineFields<'_>) -> Result<CertItem, LineError>
    ensures { Gives (λ item. item) result (cut_of fields.old) }
{
    let family = fields.field()?;
    let name = cut_name_from(alloc, family, fields)?;
    fields.end()?;
    Ok(CertItem::Cut(name))
}

#[tactic(auto, unfolding(crate::specs::Items::split_of))]
fn split_of(fields: &mut LineFields<'_>) -> Result<CertItem, LineFault>
    ensures { Finds (λ item. item) result (split_of fields.old) }
{
    let flight = fields.number(0, MOST_POSITION)? as u32;
    let node = fields.number(0, MOST_NODE)? as u16;
    let time = fields.number(0, MOST_PERIOD)? as u16;
    let cutoff = cost_of(fields)?;
    fields.end()?;
    Ok(CertItem::Split {
        flight,
        node,
        time,
        cutoff,
    })
}

// A cost or a cutoff, or none.
fn cost_of(fields: &mut LineFields<'_>) -> Result<Option<i64>, LineFault>
    ensures { Finds (λ cost. (cost, fields.new)) result (whole_from most_cost fields.old) }
{
    match fields.whole(MOST_COST)? {
        None => Ok(None),
        Some(cost) => Ok(Some(cost as i64)),
    }
}

// The weight of a leaf, and how many rows follow.
#[tactic(auto, unfolding(crate::specs::Items::leaf_of))]
fn leaf_of(fields: &mut LineFields<'_>) -> Result<(u64, u32), LineFault>
    ensures { Finds (λ leaf. (leaf.0, leaf.1)) result (leaf_of fields.old) }
{
    let weight = fields.number(0, MOST_WEIGHT)?;
    let rows = fields.number(0, MOST_ROWS)? as u32;
    fields.end()?;
    Ok((weight, rows))
}

#[tactic(auto, unfolding(crate::specs::Items::dual_of))]
fn dual_of(fields: &mut LineFields<'_>) -> Result<CertItem, LineFault>
    ensures { Finds (λ item. item) result (dual_of fields.old) }
{
    let (weight, rows) = leaf_of(fields)?;
    Ok(CertItem::Dual { weight, rows })
}

#[tactic(auto, unfolding(crate::specs::Items::lag_of))]
fn lag_of(fields: &mut LineFields<'_>) -> Result<CertItem, LineFault>
    ensures { Finds (λ item. item) result (lag_of fields.old) }
{
    let (weight, rows) = leaf_of(fields)?;
    Ok(CertItem::Lag { weight, rows })
}

#[tactic(auto, unfolding(crate::specs::Items::row_of))]
fn row_of(fields: &mut LineFields<'_>) -> Result<CertItem, LineFault>
    ensures { Finds (λ item. item) result (row_of fields.old) }
{
    let word = fields.field()?;
    let row = name_from(word, fields)?;
    let value = fields.number(1, MOST_WEIGHT)?;
    fields.end()?;
    Ok(CertItem::Row(Multiplier { row, value }))
}

#[tactic(auto, unfolding(crate::specs::Items::plan_of))]
fn plan_of(fields: &mut LineFields<'_>) -> Result<CertItem, LineFault>
    ensures { Finds (λ item. item) result (plan_of fields.old) }
{
    let cost = cost_of(fields)?;
    fields.end()?;
    Ok(CertItem::Plan(cost))
}

#[tactic(auto, unfolding(crate::specs::Items::bound_line))]
fn bound_line(fields: &mut LineFields<'_>) -> Result<CertItem, LineFault>
    ensures { Finds (λ item. item) result (bound_line fields.old) }
{
    let bound = fields.whole(MOST_BOUND)?;
    fields.end()?;
    Ok(CertItem::Bound(Bound::of(bound)))
}

#[tactic(auto, unfolding(crate::specs::Items::end_line))]
fn end_line(fields: &mut LineFields<'_>) -> Result<CertItem, LineFault>
    ensures { Finds (λ item. item) result (end_line fields.old) }
{
    let nodes = fields.number(1, MOST_TREE_NODES)?;
    fields.end()?;
    Ok(CertItem::End(nodes))
}

#[tactic(auto, unfolding(crate::specs::Items::bare_line))]
fn bare_line(is: CertItem, fields: &mut LineFields<'_>) -> Result<CertItem, LineFault>
    ensures { Finds (λ item. item) result (bare_line is fields.old) }
{
    fields.end()?;
    Ok(is)
}

/// The name of the place at this position, empty where there is none.
pub fn name_at(places: &[Place], at: u32) -> &[u8]
    ensures { result.now ≡ name_at places.now at }
{
    match places.get(at as usize) {
        None => b"",
        Some(place) => place.name.items(),
    }
}

// The first of these nodes whose place has the name.
fn node_called(places: &[Place], nodes: &[u32], name: &[u8]) -> Option<u16>
    requires { length nodes.now ≤ most_nodes }
    ensures { result ≡ node_called places.now nodes.now name.now }
{
    let node = nodes.iter().position(|at| name_at(places, *at) == name)?;
    Some(node as u16)
}

// The node, if the name in the field of this number is that of one.
fn node_or_bad(field: usize, node: Option<u16>) -> Result<u16, LineFault>
    ensures { Finds (λ node. node) result (node_or_bad field node) }
{
    node.ok_or(bad(field))
}

#[tactic(auto, unfolding(crate::specs::Items::stop_from))]
fn stop_from(
    places: &[Place],
    nodes: &[u32],
    fields: &mut LineFields<'_>,
) -> Result<Stop, LineFault>
    requires { length nodes.now ≤ most_nodes }
    ensures { Finds (λ stop. (stop, fields.new)) result
        (stop_from places.now nodes.now fields.old) }
{
    let field = fields.next_number();
    let name = fields.field()?;
    let node = node_or_bad(field, node_called(places, nodes, name))?;
    let time = fields.number(0, MOST_PERIOD)? as u16;
    Ok(Stop { node, time })
}

// The stops that the fields tell, of which there are at most 32.
fn stops_from(
    alloc: Global,
    places: &[Place],
    nodes: &[u32],
    fields: &mut LineFields<'_>,
) -> Result<Trip, LineError>
    requires { length nodes.now ≤ most_nodes }
    ensures { Gives (λ trip. trip) result
        (stops_from places.now nodes.now most_nodes fields.old) }
{
    let mut stops = Trip::empty(alloc);
    let mut left = MOST_NODES;
    'stops: while fields.has_more(left) {
        stops.add(stop_from(places, nodes, fields)?)?;
        left -= 1;
    }
    fields.end()?;
    Ok(stops)
}

// That the field has the name of the flight.
fn same_name(name: &[u8], word: &[u8]) -> Result<(), LineFault>
    ensures { Finds (λ done. done) result (same_name name.now word.now) }
{
    if word == name { Ok(()) } else { Err(bad(2)) }
}

#[tactic(auto, unfolding(crate::specs::Items::trip_for))]
fn trip_for(
    alloc: Global,
    places: &[Place],
    flight: &Flight,
    fields: &mut LineFields<'_>,
) -> Result<CertItem, LineError>
    requires { length flight.now.nodes ≤ most_nodes }
    ensures { Gives (λ item. item) result (trip_for places.now flight.now fields.old) }
{
    let name = fields.field()?;
    same_name(flight.name.items(), name)?;
    let stops = stops_from(alloc, places, flight.nodes.items(), fields)?;
    Ok(CertItem::Trip(stops))
}

// The trip of the flight of this number, if there is one.
fn trip_of(
    alloc: Global,
    s: &Scenario,
    flight: u32,
    fields: &mut LineFields<'_>,
) -> Result<CertItem, LineError>
    ensures { Gives (λ item. item) result
        (trip_of (parts_of s.now).places (slice_get (parts_of s.now).flights flight) fields.old) }
{
    match s.flights().get(flight as usize) {
        None => Err(LineError::Fault(bad(2))),
        Some(flight) => trip_for(alloc, s.places(), flight, fields),
    }
}

// What a line of this kind tells that is neither a trip's nor a cut's.
fn plain_item(kind: LineKind, fields: &mut LineFields<'_>) -> Result<CertItem, LineFault>
    ensures { Finds (λ item. item) result (plain_item kind fields.old) }
{
    match kind {
        LineKind::Head => head_of(fields),
        LineKind::Cut => Err(bad(1)),
        LineKind::Split => split_of(fields),
        LineKind::Empty => bare_line(CertItem::Empty, fields),
        LineKind::Unit => bare_line(CertItem::Unit, fields),
        LineKind::Dual => dual_of(fields),
        LineKind::Lag => lag_of(fields),
        LineKind::Row => row_of(fields),
        LineKind::Plan => plan_of(fields),
        LineKind::Trip => Err(bad(1)),
        LineKind::Bound => bound_line(fields),
        LineKind::End => end_line(fields),
    }
}

fn is_trip(kind: LineKind) -> bool
    ensures { result ≡ is_trip kind }
{
    matches!(kind, LineKind::Trip)
}

/// What a line of this kind tells. A trip is of the flight of this number; it takes memory for its
/// stops, a cut for its nodes, and any other line none.
pub fn item_of(
    alloc: Global,
    s: &Scenario,
    next: u32,
    kind: LineKind,
    fields: &mut LineFields<'_>,
) -> Result<CertItem, LineError>
    ensures { Gives (λ item. item) result (item_of (parts_of s.now) next kind fields.old) }
{
    if is_trip(kind) {
        return trip_of(alloc, s, next, fields);
    }
    if is_cut(kind) {
        return cut_of(alloc, fields);
    }
    Ok(plain_item(kind, fields)?)
}
