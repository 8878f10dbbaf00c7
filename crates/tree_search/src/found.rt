//! What a search may spend, and what it finds.

use branch_tree::Tree;
use cut_rows::Pool;
use flow_types::{Bound, Plan, Sequence};
use relaxed_bound::Limits;

/// What a search may spend.
#[derive(Clone, Copy, Debug, PartialEq, Eq)]
pub struct Budget {
    /// How many nodes its tree may have, 1 or more.
    pub nodes: u64,
    /// How far the run of each box's relaxation may go.
    pub limits: Limits,
    /// How many rounds of prices each box has.
    pub rounds: u32,
}

/// A list of plans.
pub type Plans = Sequence<Plan>;

/// A list of counts of plans.
pub type Counts = Sequence<u64>;

/// A list of bounds.
pub type Bounds = Sequence<Bound>;

/// What a search has found.
#[derive(Debug)]
pub struct Found {
    /// The plans, each cheaper than the one before.
    pub plans: Plans,
    /// The tree that proves the bound.
    pub tree: Tree,
    /// For each node of the tree, how many plans were found before it.
    pub counts: Counts,
    /// For each node of the tree, the bound of a leaf; a split has `NoPlan`.
    pub bounds: Bounds,
    /// The cuts that leaves may name, by their positions.
    pub pool: Pool,
    /// The least of the bounds: no plan costs less.
    pub bound: Bound,
}

impl Drop for Found {
    fn drop(self) {
        let Found {
            plans: _,
            tree: _,
            counts: _,
            bounds: _,
            pool: _,
            bound: _,
        } = self;
    }
}
