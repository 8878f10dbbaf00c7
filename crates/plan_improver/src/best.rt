//! The best plan of a search so far.

use crate::draft::{Choice, is_complete, plan_of};
use flow_types::{Bound, OutOfMemory, Plan};
use std::alloc::Global;

/// Whether the plan that the choices make, which costs so much, has every flight, and no other one
/// can cost less.
pub fn are_enough(choices: &[Choice], cost: i64, enough: Bound) -> bool {
    costs_no_more(cost, enough) && is_complete(choices)
}

// Whether a cost is within the bound.
fn costs_no_more(cost: i64, enough: Bound) -> bool {
    match enough {
        Bound::AtLeast(least) => i128::from(cost) <= least,
        Bound::NoPlan => true,
    }
}

/// The cheapest plan in which no flight is left out, if there was one.
#[derive(Debug, Drop)]
pub struct Best {
    cost: i64,
    plan: Option<Plan>,
}

impl Best {
    /// None so far.
    pub fn none() -> Best {
        Best {
            cost: i64::MAX,
            plan: None,
        }
    }

    /// Keeps the plan that the choices make, if no flight is left out in it and it costs less.
    pub fn keep(
        &mut self,
        alloc: Global,
        cost: i64,
        choices: &[Choice],
    ) -> Result<(), OutOfMemory> {
        if cost < self.cost && is_complete(choices) {
            self.plan = Some(plan_of(alloc, choices)?);
            self.cost = cost;
        }
        Ok(())
    }

    /// Whether no plan can cost less.
    pub fn is_enough(&self, enough: Bound) -> bool {
        costs_no_more(self.cost, enough)
    }

    /// A copy of the plan, if there is one.
    pub fn copy(&self, alloc: Global) -> Result<Option<Plan>, OutOfMemory> {
        match &self.plan {
            None => Ok(None),
            Some(plan) => Ok(Some(plan.copy(alloc)?)),
        }
    }

    /// The plan, of no flights where there was none.
    pub fn plan(self, alloc: Global) -> Result<Plan, OutOfMemory> {
        Ok(self.plan.unwrap_or(Plan::empty(alloc)))
    }
}
