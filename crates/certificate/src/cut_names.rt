//! The names of cuts, as fields tell them.
ghost use Rattle.std.specs.Prelude.{◌≡◌};
ghost use Rattle.certificate.specs.Cuts.{apart_from, cut_name_from, departed_from, enough_or_bad, heads_from, nodes_from};
ghost use Rattle.certificate.specs.Found.{Finds, Gives};

use crate::fault::{LineError, LineFault, bad};
use crate::fields::LineFields;
use crate::limits::{MOST_HEADS, MOST_NODE, MOST_PERIOD, MOST_POSITION};
use cut_rows::{CutName, Heads};
use flow_types::MOST_NODES;
use std::alloc::Global;

// The nodes that the fields tell, at most so many.
fn nodes_from(alloc: Global, most: usize, fields: &mut LineFields<'_>) -> Result<Heads, LineError>
    ensures { Gives (λ nodes. (nodes, fields.new)) result (nodes_from most fields.old) }
{
    let mut nodes = Heads::empty(alloc);
    let mut left = most;
    'nodes: while fields.has_more(left) {
        nodes.add(fields.number(0, MOST_NODE)? as u16)?;
        left -= 1;
    }
    Ok(nodes)
}

// That there are so many nodes at least; else the field of this number is bad.
fn enough_or_bad(field: usize, least: usize, nodes: &[u16]) -> Result<(), LineFault>
    ensures { Finds (λ done. done) result (enough_or_bad field least nodes.now) }
{
    if least <= nodes.len() {
        Ok(())
    } else {
        Err(bad(field))
    }
}

// A cut of heads: its flight, node and period, and one head or more.
#[tactic(auto, unfolding(crate::specs::Cuts::heads_from))]
fn heads_from(alloc: Global, fields: &mut LineFields<'_>) -> Result<CutName, LineError>
    ensures { Gives (λ cut. (cut, fields.new)) result (heads_from fields.old) }
{
    let flight = fields.number(0, MOST_POSITION)? as u32;
    let node = fields.number(0, MOST_NODE)? as u16;
    let time = fields.number(0, MOST_PERIOD)? as u16;
    let heads = nodes_from(alloc, MOST_HEADS, fields)?;
    enough_or_bad(fields.next_number(), 1, heads.items())?;
    Ok(CutName::Heads {
        flight,
        node,
        time,
        heads,
    })
}

// A cut of nodes that are apart: its flight and period, and two nodes or more.
#[tactic(auto, unfolding(crate::specs::Cuts::apart_from))]
fn apart_from(alloc: Global, fields: &mut LineFields<'_>) -> Result<CutName, LineError>
    ensures { Gives (λ cut. (cut, fields.new)) result (apart_from fields.old) }
{
    let flight = fields.number(0, MOST_POSITION)? as u32;
    let time = fields.number(0, MOST_PERIOD)? as u16;
    let heads = nodes_from(alloc, MOST_NODES, fields)?;
    enough_or_bad(fields.next_number(), 2, heads.items())?;
    Ok(CutName::Apart {
        flight,
        time,
        heads,
    })
}

// A cut of having departed: its flight, node and period.
#[tactic(auto, unfolding(crate::specs::Cuts::departed_from))]
fn departed_from(fields: &mut LineFields<'_>) -> Result<CutName, LineFault>
    ensures { Finds (λ cut. (cut, fields.new)) result (departed_from fields.old) }
{
    let flight = fields.number(0, MOST_POSITION)? as u32;
    let node = fields.number(0, MOST_NODE)? as u16;
    let time = fields.number(0, MOST_PERIOD)? as u16;
    Ok(CutName::Departed { flight, node, time })
}

/// The name that the word of a family and the fields after it tell. It takes memory for the nodes
/// of its list.
pub fn cut_name_from(
    alloc: Global,
    word: &[u8],
    fields: &mut LineFields<'_>,
) -> Result<CutName, LineError>
    ensures { Gives (λ cut. (cut, fields.new)) result (cut_name_from word.now fields.old) }
{
    if word == b"v1".as_slice() {
        heads_from(alloc, fields)
    } else if word == b"v2".as_slice() {
        apart_from(alloc, fields)
    } else if word == b"v3".as_slice() {
        Ok(departed_from(fields)?)
    } else {
        Err(LineError::Fault(bad(2)))
    }
}
