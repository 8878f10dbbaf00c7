//! How far a check has come.
ghost use Rattle.std.specs.Prelude.{◌≡◌};
ghost use Rattle.cert_checker.specs.Steps.{begun};

use bytime_model::Multipliers;
use cut_rows::Pool;
use flow_types::{Bound, Plan};
use std::alloc::Global;

/// The kinds of leaves that name rows.
#[derive(Clone, Copy, Debug, PartialEq, Eq)]
pub enum RowLeaf {
    Dual,
    Lag,
}

/// A leaf whose rows are being read.
#[derive(Debug, Drop)]
pub struct LeafDraft {
    pub kind: RowLeaf,
    pub weight: u64,
    /// How many rows are still to come.
    pub left: u32,
    pub rows: Multipliers,
}

/// What was told of a plan.
#[derive(Debug, Drop)]
pub enum Told {
    Nothing,
    /// That there is none.
    NoPlan,
    /// What it costs, and its first trips.
    Trips { cost: i64, trips: Plan },
    /// What it costs, and all trips: it keeps every rule, costs that, and is in the first box.
    Whole { cost: i64, plan: Plan },
}

/// What was told so far.
#[derive(Debug, Drop)]
pub struct Progress {
    /// The cuts, which come before the tree.
    pub pool: Pool,
    /// The least of the bounds of the leaves.
    pub bound: Bound,
    pub nodes: u64,
    pub told: Told,
}

impl Progress {
    ghost use Rattle.std.specs.Prelude.{◌≡◌, ◌<◌, ◌^◌};
    ghost use Rattle.cert_checker.specs.Steps.{begun, with_bound, with_node};

    /// Nothing was told.
    pub fn begun(alloc: Global) -> Progress
        ensures { result ≡ begun }
    {
        Progress {
            pool: Pool::empty(alloc),
            bound: Bound::NoPlan,
            nodes: 0,
            told: Told::Nothing,
        }
    }

    /// A split more.
    pub fn add_node(&mut self)
        requires { self.old.nodes < 2 ^ 63 }
        ensures { self.new ≡ with_node self.old }
    {
        self.nodes += 1;
    }

    /// A leaf more, of this bound.
    pub fn add_bound(&mut self, bound: Bound)
        requires { self.old.nodes < 2 ^ 63 }
        ensures { self.new ≡ with_bound self.old bound }
    {
        self.bound = self.bound.lesser(bound);
        self.nodes += 1;
    }
}
