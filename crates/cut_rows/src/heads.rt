//! Cuts of heads: next nodes that have the node as their one predecessor.
ghost use Rattle.std.specs.Prelude.{◌≡◌, ◌≤◌, ◌<◌, ◌+◌, ◌∷◌, [], length, slice_get};
ghost use Rattle.std.specs.List.{find, list_all, list_any};
ghost use Rattle.flow_types.specs.Limits.{most_nodes};
ghost use Rattle.flow_types.specs.Scenario.{parts_of};
ghost use Rattle.bytime_model.specs.Filling.{Adds};
ghost use Rattle.bytime_model.specs.Rows.{most_terms, no_row};
ghost use Rattle.route_distances.specs.Walks.{legs_of};
ghost use Rattle.cut_rows.specs.declared.names.CutName.TheVariants.{Heads};
ghost use Rattle.cut_rows.specs.Cuts.{FillsCut, are_heads, cut_row, head_term, head_time, heads_terms, is_cut, is_from, is_head, joins, least_between};

use crate::nodes::{ascends, legs_at};
use bytime_model::{RowBuffer, Var};
use flow_types::{Leg, Scenario};

// Whether a leg leads from the node to the head.
fn leads_to(legs: &[Leg], node: u16, head: u16) -> bool
    ensures { result ≡ list_any (joins node head) legs.now }
{
    legs.iter().any(|leg| leg.from == node && leg.to == head)
}

// Whether no leg leads to the head but from the node.
fn leads_alone(legs: &[Leg], node: u16, head: u16) -> bool
    ensures { result ≡ list_all (is_from node head) legs.now }
{
    legs.iter().all(|leg| leg.to != head || leg.from == node)
}

/// Whether the node leads to the head, and no other node does.
pub fn is_head(legs: &[Leg], node: u16, head: u16) -> bool
    ensures { result ≡ is_head legs.now node head }
{
    leads_to(legs, node, head) && leads_alone(legs, node, head)
}

// Whether all of these are heads of the node.
fn are_all_heads(legs: &[Leg], node: u16, heads: &[u16]) -> bool
    ensures { result ≡ list_all (is_head legs.now node) heads.now }
{
    heads.iter().all(|head| is_head(legs, node, *head))
}

// Whether there are some, in ascending order.
fn are_heads(legs: &[Leg], node: u16, heads: &[u16]) -> bool
    ensures { result ≡ are_heads legs.now node heads.now }
{
    0 < heads.len() && ascends(heads) && are_all_heads(legs, node, heads)
}

/// Whether there is such a cut.
pub fn is_heads_cut(s: &Scenario, flight: u32, node: u16, time: u16, heads: &[u16]) -> bool
    ensures { result ≡ is_cut (parts_of s.now) (Heads flight node time heads.now) }
{
    time < s.day().periods && are_heads(legs_at(s, flight), node, heads)
}

// The leg between the nodes, if there is one.
fn leg_between(legs: &[Leg], from: u16, to: u16) -> Option<Leg>
    ensures { result ≡ find (joins from to) legs.now }
{
    legs.iter()
        .copied()
        .find(|leg| leg.from == from && leg.to == to)
}

// How long it takes, 0 where there is none.
fn least_between(legs: &[Leg], from: u16, to: u16) -> u16
    ensures { result ≡ least_between from to legs.now }
{
    match leg_between(legs, from, to) {
        None => 0,
        Some(leg) => leg.least,
    }
}

// The period as long after this one as the leg from the node to the head takes, or the last one of
// the day.
fn head_time(s: &Scenario, flight: u32, node: u16, time: u16, head: u16) -> u16
    ensures { result ≡ head_time (parts_of s.now).day.periods
        (legs_of (slice_get (parts_of s.now).flights flight)) node time head }
{
    let last = s.day().periods - 1;
    time.saturating_add(least_between(legs_at(s, flight), node, head))
        .min(last)
}

// Having entered the head by then.
fn put_head(buffer: &mut RowBuffer, s: &Scenario, flight: u32, node: u16, time: u16, head: u16)
    requires { length buffer.old.terms < most_terms }
    ensures { Adds (head_term (parts_of s.now).day.periods
        (legs_of (slice_get (parts_of s.now).flights flight)) flight node time head ∷ [])
        buffer.old buffer.new }
{
    let time = head_time(s, flight, node, time, head);
    buffer.put(
        Var::By {
            flight,
            node: head,
            time,
        },
        1,
    );
}

// Having entered one of the heads by then, and not the node.
#[tactic(auto, using(bytime_model::proofs::FillFacts::filled_none, bytime_model::proofs::FillFacts::filled_more, bytime_model::proofs::FillFacts::filled_mapped, exact_sums::proofs::LoopFacts::next_item))]
fn put_heads(buffer: &mut RowBuffer, s: &Scenario, flight: u32, node: u16, time: u16, heads: &[u16])
    requires none { buffer.old ≡ no_row }
    requires few { length heads.now ≤ most_nodes }
    ensures { Adds (heads_terms (parts_of s.now).day.periods
        (legs_of (slice_get (parts_of s.now).flights flight)) flight node time heads.now)
        buffer.old buffer.new }
{
    for head in heads {
        put_head(buffer, s, flight, node, time, *head);
    }
    buffer.put(Var::By { flight, node, time }, -1);
}

/// Holds the row of a cut that is known to be there: it has at most as many heads as a flight may
/// have nodes. It takes no memory.
pub fn hold_heads(
    buffer: &mut RowBuffer,
    s: &Scenario,
    flight: u32,
    node: u16,
    time: u16,
    heads: &[u16],
)
    requires { length heads.now ≤ most_nodes }
    ensures { buffer.new ≡ cut_row (parts_of s.now) (Heads flight node time heads.now) }
{
    buffer.clear();
    put_heads(buffer, s, flight, node, time, heads);
}

/// Fills its row, if there is such a cut.
#[tactic(auto, using(crate::proofs::NodeFacts::heads_few))]
pub fn fill_heads(
    buffer: &mut RowBuffer,
    s: &Scenario,
    flight: u32,
    node: u16,
    time: u16,
    heads: &[u16],
) -> bool
    requires { buffer.old ≡ no_row }
    ensures { FillsCut (parts_of s.now) (Heads flight node time heads.now) result buffer.new }
{
    if !is_heads_cut(s, flight, node, time, heads) {
        return false;
    }
    hold_heads(buffer, s, flight, node, time, heads);
    true
}
