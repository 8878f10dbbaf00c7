//! A row in a list of its own.
ghost use Rattle.std.specs.Prelude.{◌≡◌, IfOk, IfSome, IsSome, ◌↔◌, true};
ghost use Rattle.flow_types.specs.Scenario.{parts_of};
ghost use Rattle.bytime_model.specs.Rows.{AreCollected, IsValid, is_row, row_of};

use crate::buffer::RowBuffer;
use crate::names::RowName;
use crate::variables::Terms;
use flow_types::{OutOfMemory, Scenario};
use std::alloc::Global;
use std::marker::Model;

/// Terms that are to be at most a limit.
#[derive(Debug, Drop)]
pub struct Row {
    pub terms: Terms,
    pub limit: i64,
}

impl Model for Row {
    ghost use Rattle.bytime_model.specs.Rows.{AtMost};

    ghost Value = { AtMost };

    ghost view = { λ r. record { terms = r.terms; limit = r.limit } };
}

/// The row of the name, nothing where there is none; as `RowBuffer::fill` holds it. It takes 24
/// bytes for each term, or up to twice that, and while it runs the memory of a `RowBuffer`.
pub fn row_of(alloc: Global, s: &Scenario, name: RowName) -> Result<Option<Row>, OutOfMemory>
    ensures some { IfOk result (λ row. IsSome row ↔ is_row (parts_of s.now) name ≡ true) }
    ensures row { IfOk result (λ row. IfSome row (λ row. row ≡ row_of (parts_of s.now) name)) }
    ensures valid { IfOk result (λ row. IfSome row (IsValid (parts_of s.now))) }
    ensures collected { IfOk result (λ row. IfSome row (λ row. AreCollected row.terms)) }
{
    let mut buffer = RowBuffer::new(alloc)?;
    if !buffer.fill(s, name) {
        return Ok(None);
    }
    Ok(Some(Row {
        terms: Terms::from_vec(Vec::from_slice(alloc, buffer.terms())?),
        limit: buffer.limit(),
    }))
}
