//! The names of rows, as fields tell them.
ghost use Rattle.std.specs.Prelude.{◌≡◌, ◌≤◌};
ghost use Rattle.bytime_model.specs.Kinds.{name_at};
ghost use Rattle.certificate.specs.Fields.{bad};
ghost use Rattle.certificate.specs.Found.{Finds};
ghost use Rattle.certificate.specs.Limits.{most_node};
ghost use Rattle.certificate.specs.Rows.{cut_from, has_third, kind_from, later_row_kind, most_second, name_from, numbers_from, row_kind, third_from};

use crate::fault::{LineFault, bad};
use crate::fields::LineFields;
use crate::limits::{MOST_NODE, MOST_PERIOD, MOST_POSITION};
use bytime_model::{NodeKind, RowKind, RowName, name_at};
use flow_types::CapKind;

// The kind of rows that the word is of, of the last ones in their order.
fn later_row_kind(word: &[u8]) -> Option<RowKind>
    ensures { result ≡ later_row_kind word.now }
{
    if word == b"occupy".as_slice() {
        Some(RowKind::Nodes(NodeKind::Occupy))
    } else if word == b"enter".as_slice() {
        Some(RowKind::Nodes(NodeKind::Enter))
    } else if word == b"leave".as_slice() {
        Some(RowKind::Nodes(NodeKind::Leave))
    } else if word == b"connect".as_slice() {
        Some(RowKind::Connections)
    } else {
        None
    }
}

// The kind of rows that the word is of.
fn row_kind(word: &[u8]) -> Option<RowKind>
    ensures { result ≡ row_kind word.now }
{
    if word == b"mono".as_slice() {
        Some(RowKind::Nodes(NodeKind::Mono))
    } else if word == b"top".as_slice() {
        Some(RowKind::Nodes(NodeKind::Top))
    } else if word == b"dep".as_slice() {
        Some(RowKind::Places(CapKind::Dep))
    } else if word == b"arr".as_slice() {
        Some(RowKind::Places(CapKind::Arr))
    } else if word == b"sector".as_slice() {
        Some(RowKind::Places(CapKind::Sector))
    } else {
        later_row_kind(word)
    }
}

// How large the second number of a name may be: a node, or a period.
fn most_second(kind: RowKind) -> u64
    ensures value { result ≡ most_second kind }
    ensures small { result ≤ most_node }
{
    match kind {
        RowKind::Nodes(_) => MOST_NODE,
        RowKind::Places(_) | RowKind::Connections => MOST_PERIOD,
    }
}

// Whether a name has a third number.
fn has_third(kind: RowKind) -> bool
    ensures { result ≡ has_third kind }
{
    match kind {
        RowKind::Nodes(NodeKind::Mono | NodeKind::Occupy | NodeKind::Enter) => true,
        RowKind::Nodes(NodeKind::Top | NodeKind::Leave) => false,
        RowKind::Places(_) | RowKind::Connections => false,
    }
}

// The third number of a name, 0 where it has two alone.
fn third_from(kind: RowKind, fields: &mut LineFields<'_>) -> Result<u16, LineFault>
    ensures { Finds (λ n. (n, fields.new)) result (third_from kind fields.old) }
{
    if has_third(kind) {
        Ok(fields.number(0, MOST_PERIOD)? as u16)
    } else {
        Ok(0)
    }
}

// The name of this kind that the next fields tell.
#[tactic(auto, unfolding(crate::specs::Rows::numbers_from))]
fn numbers_from(kind: RowKind, fields: &mut LineFields<'_>) -> Result<RowName, LineFault>
    ensures { Finds (λ name. (name, fields.new)) result (numbers_from kind fields.old) }
{
    let first = fields.number(0, MOST_POSITION)? as u32;
    let second = fields.number(0, most_second(kind))? as u16;
    let third = third_from(kind, fields)?;
    Ok(name_at(kind, first, second, third))
}

// The name of a cut, by its position.
#[tactic(auto, unfolding(crate::specs::Rows::cut_from))]
fn cut_from(fields: &mut LineFields<'_>) -> Result<RowName, LineFault>
    ensures { Finds (λ name. (name, fields.new)) result (cut_from fields.old) }
{
    let index = fields.number(0, MOST_POSITION)? as u32;
    Ok(RowName::Cut { index })
}

/// The name that a word and the fields after it tell.
pub fn name_from(word: &[u8], fields: &mut LineFields<'_>) -> Result<RowName, LineFault>
    ensures { Finds (λ name. (name, fields.new)) result (name_from word.now fields.old) }
{
    if word == b"cut".as_slice() {
        return cut_from(fields);
    }
    match row_kind(word) {
        None => Err(bad(2)),
        Some(kind) => numbers_from(kind, fields),
    }
}
