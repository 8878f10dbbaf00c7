//! Which nodes lead to which.
ghost use Rattle.std.specs.Prelude.{◌≡◌, IfOk, false, slice_index_or};
ghost use Rattle.route_distances.specs.Walks.{leads_into};
ghost use Rattle.route_distances.specs.Ways.{AreAllReached, AreReached};

use flow_types::{Leg, OutOfMemory, Sequence};
use std::alloc::Global;

/// For each of so many nodes marks of those that it leads to.
#[tactic(auto, using(exact_sums::proofs::EachFacts::each_none))]
pub fn all_reached(
    alloc: Global,
    legs: &[Leg],
    nodes: u16,
) -> Result<Sequence<Sequence<bool>>, OutOfMemory>
    ensures { IfOk result (AreAllReached legs.now nodes nodes) }
{
    let mut reached = Sequence::empty(alloc);
    for from in 0..nodes {
        reached.add(reached_from(alloc, legs, from, nodes)?)?;
    }
    Ok(reached)
}

// Marks of the nodes that the one leads to.
#[tactic(auto, using(exact_sums::proofs::EachFacts::each_none))]
fn reached_from(
    alloc: Global,
    legs: &[Leg],
    from: u16,
    nodes: u16,
) -> Result<Sequence<bool>, OutOfMemory>
    ensures { IfOk result (AreReached legs.now from nodes) }
{
    let mut marks = Sequence::empty(alloc);
    for node in 0..nodes {
        marks.add(is_led_to(marks.items(), legs, from, node))?;
    }
    Ok(marks)
}

// Whether a leg to the node is from where walks start, or from a node that is marked.
fn is_led_to(marks: &[bool], legs: &[Leg], from: u16, node: u16) -> bool
    ensures { result ≡ leads_into (λ n. slice_index_or marks.now n false) from node legs.now }
{
    legs.iter().any(|leg| leg.to == node && (leg.from == from || is_marked(marks, leg.from)))
}

// Whether the node has a mark.
fn is_marked(marks: &[bool], node: u16) -> bool
    ensures { result ≡ slice_index_or marks.now node false }
{
    marks.get(usize::from(node)).copied().unwrap_or(false)
}
