//! One row at a time, in room that is made once.
ghost use Rattle.std.specs.Prelude.{◌≡◌, ◌≤◌};

use crate::variables::{Term, Var};
use flow_types::OutOfMemory;
use std::alloc::Global;
use std::marker::Model;

/// The most terms that a row has.
pub const MOST_TERMS: usize = 8192;

/// Room for one row. Contracts see it as the row: terms that are to be at most a limit.
#[derive(Debug, Drop)]
pub struct RowBuffer {
    terms: Vec<Term>,
    limit: i64,
}

impl Model for RowBuffer {
    ghost use Rattle.std.specs.Prelude.{◌≤◌, length, vec_capacity};
    ghost use Rattle.bytime_model.specs.Rows.{AtMost, most_terms};

    ghost Value = { AtMost };

    ghost view = { λ b. record { terms = b.terms.items; limit = b.limit } };

    ghost invariant = { λ b. most_terms ≤ vec_capacity b.terms };
}

impl RowBuffer {
    ghost use Rattle.std.specs.Prelude.{◌≡◌, ◌++◌, ◌∷◌, ◌<◌, [], IfOk, length, pos};
    ghost use Rattle.bytime_model.specs.Rows.{most_terms, term_of};

    /// Room for a row, with none in it: no terms, and the limit 0.
    pub fn new(alloc: Global) -> Result<RowBuffer, OutOfMemory>
        ensures { IfOk result (λ buffer. buffer ≡ record { terms = []; limit = pos 0 }) }
    {
        Ok(RowBuffer {
            terms: Vec::with_capacity(alloc, MOST_TERMS)?,
            limit: 0,
        })
    }

    /// The terms of the row.
    pub fn terms(&self) -> &[Term]
        ensures { result.now ≡ self.now.terms }
    {
        &self.terms
    }

    /// What they are to be at most.
    pub fn limit(&self) -> i64
        ensures { result ≡ self.now.limit }
    {
        self.limit
    }

    /// Leaves no terms, and the limit 0.
    pub fn clear(&mut self)
        ensures { self.new ≡ record { terms = []; limit = pos 0 } }
    {
        self.terms.clear();
        self.limit = 0;
    }

    /// Adds a term at the end, where there is room.
    pub fn put(&mut self, variable: Var, factor: i64)
        requires { length self.old.terms < most_terms }
        ensures terms { self.new.terms ≡ self.old.terms ++ term_of factor variable ∷ [] }
        ensures limit { self.new.limit ≡ self.old.limit }
    {
        let _ = self.terms.push(Term { variable, factor });
    }

    /// Sets what the terms are to be at most.
    pub fn set_limit(&mut self, limit: i64)
        ensures terms { self.new.terms ≡ self.old.terms }
        ensures limit { self.new.limit ≡ limit }
    {
        self.limit = limit;
    }
}
