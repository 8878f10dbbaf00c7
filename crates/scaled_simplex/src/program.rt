//! Programs of columns and constraints.
ghost use Rattle.std.specs.Prelude.{◌≡◌};

use flow_types::{OutOfMemory, Sequence};
use row_arena::Entry;
use std::alloc::Global;
use std::marker::Model;

/// Terms over the columns, by ascending column, that are to be at most a limit.
#[derive(Debug, Drop)]
pub struct Constraint {
    terms: Sequence<Entry>,
    limit: i64,
}

impl Model for Constraint {
    ghost use Rattle.scaled_simplex.specs.Program as specs;

    ghost Value = { specs.Constraint };

    ghost view = { λ c. record { terms = c.terms; limit = c.limit } };
}

impl Constraint {
    ghost use Rattle.std.specs.Prelude.{◌≡◌, IfOk};

    fn new(alloc: Global, terms: &[Entry], limit: i64) -> Result<Constraint, OutOfMemory>
        ensures { IfOk result (λ constraint.
            constraint ≡ record { terms = terms.now; limit = limit }) }
    {
        Ok(Constraint {
            terms: Sequence::from_vec(Vec::from_slice(alloc, terms)?),
            limit,
        })
    }

    /// The terms.
    pub fn terms(&self) -> &[Entry]
        ensures { result.now ≡ self.now.terms }
    {
        self.terms.items()
    }

    /// What they are to be at most.
    pub fn limit(&self) -> i64
        ensures { result ≡ self.now.limit }
    {
        self.limit
    }
}

/// The least cost of columns that are 0 or more and keep every constraint. Contracts see it as the
/// costs, the constant and the constraints, and know that no number is out of its range.
#[derive(Debug)]
pub struct Program {
    costs: Sequence<i64>,
    constant: i64,
    constraints: Sequence<Constraint>,
}

impl Drop for Program {
    fn drop(self) {
        let Program {
            costs: _,
            constant: _,
            constraints: _,
        } = self;
    }
}

impl Model for Program {
    ghost use Rattle.scaled_simplex.specs.Program.{IsProblem, Problem};

    ghost Value = { Problem };

    ghost view = { λ p. record {
      costs = p.costs;
      constant = p.constant;
      constraints = p.constraints;
    } };

    ghost invariant = { λ p. IsProblem (record {
      costs = p.costs;
      constant = p.constant;
      constraints = p.constraints;
    }) };
}

impl Program {
    ghost use Rattle.std.specs.Prelude.{◌≡◌, ◌++◌, ◌∷◌, ◌+◌, ◌<◌, ◌≤◌, [], All, IfOk, OnErr, OnOk, length, nat_abs};
    ghost use Rattle.row_arena.specs.Rows.{IsRow, most_entry};
    ghost use Rattle.scaled_simplex.specs.Program.{IsConstraint, IsCost, IsProblem, columns, most_indices};
    ghost use Rattle.scaled_simplex.specs.Tableau.{right_side, weight_index};

    /// A program without constraints: what each column costs, and what is paid with all columns at
    /// 0. Costs are from 0 to `MOST_ENTRY`, the constant no further from 0 than that, and there are
    /// fewer than 2^32 - 2 columns. It takes 8 bytes a column.
    pub fn new(alloc: Global, costs: &[i64], constant: i64) -> Result<Program, OutOfMemory>
        requires costs { All IsCost costs.now }
        requires constant { nat_abs constant ≤ most_entry }
        requires few { length costs.now ≤ most_indices }
        ensures { IfOk result (λ program. program ≡ record {
          costs = costs.now;
          constant = constant;
          constraints = [];
        }) }
    {
        Ok(Program {
            costs: Sequence::from_vec(Vec::from_slice(alloc, costs)?),
            constant,
            constraints: Sequence::empty(alloc),
        })
    }

    /// Adds a constraint. The terms are by ascending column, over the program's columns, none with
    /// the factor 0; factors and limit are no further from 0 than `MOST_ENTRY`. Columns and
    /// constraints together stay below 2^32 - 2. It takes 16 bytes a term and some 40 more. After
    /// an error the program is as before.
    pub fn add_row(&mut self, alloc: Global, terms: &[Entry], limit: i64) -> Result<(), OutOfMemory>
        requires row { IsConstraint (columns self.old)
            (record { terms = terms.now; limit = limit }) }
        requires few { columns self.old + length self.old.constraints < most_indices }
        ensures ok { OnOk result (self.new ≡ record {
          costs = self.old.costs;
          constant = self.old.constant;
          constraints = self.old.constraints ++ record { terms = terms.now; limit = limit } ∷ [];
        }) }
        ensures err { OnErr result (self.new ≡ self.old) }
    {
        let constraint = Constraint::new(alloc, terms, limit)?;
        self.constraints.add(constraint)?;
        Ok(())
    }

    /// How many constraints there are.
    pub fn rows(&self) -> u32
        ensures count { result ≡ length self.now.constraints }
        ensures few { columns self.now + length self.now.constraints ≤ most_indices }
        ensures valid { IsProblem self.now }
    {
        self.constraints.items().len() as u32
    }

    /// How many columns there are.
    pub fn columns(&self) -> u32
        ensures { result ≡ columns self.now }
    {
        self.costs.items().len() as u32
    }

    /// The index of the right side in a tableau of the program.
    pub fn right_side(&self) -> u32
        ensures right_side { result ≡ right_side self.now }
        ensures few { right_side self.now ≤ most_indices }
    {
        self.columns() + self.rows()
    }

    /// The index of the weight of the cost.
    pub fn weight_index(&self) -> u32
        ensures { result ≡ weight_index self.now }
    {
        self.right_side() + 1
    }

    /// What each column costs.
    pub fn costs(&self) -> &[i64]
        ensures { result.now ≡ self.now.costs }
    {
        self.costs.items()
    }

    /// What is paid with all columns at 0.
    pub fn constant(&self) -> i64
        ensures constant { result ≡ self.now.constant }
        ensures near { nat_abs self.now.constant ≤ most_entry }
    {
        self.constant
    }

    /// The constraints, in the order in which they were added.
    pub fn constraints(&self) -> &[Constraint]
        ensures { result.now ≡ self.now.constraints }
    {
        self.constraints.items()
    }
}
