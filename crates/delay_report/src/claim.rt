//! What is claimed of a day that was planned.
ghost use Rattle.std.specs.Prelude.{◌≡◌, IfSome, option_map};
ghost use Rattle.std.specs.Option.{option_copied};
ghost use Rattle.flow_types.specs.Costs.{plan_cost};
ghost use Rattle.flow_types.specs.Feasible.{IsFeasible};
ghost use Rattle.flow_types.specs.Scenario.{parts_of};

use flow_types::{Bound, Plan, Scenario};
use plan_rules::cost;
use std::marker::Model;

/// How near a plan is to the least cost that is possible.
#[derive(Clone, Copy, Debug, PartialEq, Eq)]
pub enum Outcome {
    /// The plan costs the bound.
    Optimal,
    /// The bound is that there is no plan.
    Infeasible,
    /// There is a gap between the plan and the bound, or no plan was found.
    Open,
}

/// What is claimed of a day: a plan, if one was found, what it costs, and how much every plan costs
/// at the least. Only `Claim::of` makes one.
#[derive(Drop)]
pub struct Claim<'a> {
    plan: Option<&'a Plan>,
    // What the plan costs, where there is one.
    cost: Option<i64>,
    // What no plan is cheaper than.
    bound: Bound,
    // How many nodes the tree has that proves the bound.
    nodes: u64,
}

impl<'a> Model for Claim<'a> {
    ghost use Rattle.std.specs.Option.{option_copied};
    ghost use Rattle.delay_report.specs.Claims.{Claimed};

    ghost Value = { Claimed };

    ghost view = { λ c. record {
      plan = option_copied c.plan;
      cost = c.cost;
      bound = c.bound;
      nodes = c.nodes;
    } };
}

impl<'a> Claim<'a> {
    ghost use Rattle.std.specs.Prelude.{◌≡◌, IfSome, option_map};
    ghost use Rattle.std.specs.Option.{option_copied};
    ghost use Rattle.flow_types.specs.Costs.{plan_cost};
    ghost use Rattle.flow_types.specs.Feasible.{IsFeasible};
    ghost use Rattle.flow_types.specs.Scenario.{parts_of};
    ghost use Rattle.delay_report.specs.Claims.{outcome_of};

    /// The claim of a plan that keeps every rule, or of none, at what it costs. It takes no memory.
    pub fn of(s: &Scenario, plan: Option<&'a Plan>, bound: Bound, nodes: u64) -> Self
        requires { IfSome (option_copied plan) (IsFeasible (parts_of s.now)) }
        ensures plan { result.plan ≡ option_copied plan.entry }
        ensures cost { result.cost
            ≡ option_map (plan_cost (parts_of s.now).tables (parts_of s.now).flights)
            (option_copied plan.entry) }
        ensures bound { result.bound ≡ bound }
        ensures nodes { result.nodes ≡ nodes }
    {
        Claim {
            plan,
            cost: cost_of(s, plan),
            bound,
            nodes,
        }
    }

    /// The plan, if there is one.
    pub fn plan(&self) -> Option<&'a Plan>
        ensures { option_copied result ≡ self.now.plan }
    {
        self.plan
    }

    /// What the plan costs, where there is one.
    pub fn cost(&self) -> Option<i64>
        ensures { result ≡ self.now.cost }
    {
        self.cost
    }

    /// What no plan is cheaper than.
    pub fn bound(&self) -> Bound
        ensures { result ≡ self.now.bound }
    {
        self.bound
    }

    /// How many nodes the tree has that proves the bound.
    pub fn nodes(&self) -> u64
        ensures { result ≡ self.now.nodes }
    {
        self.nodes
    }

    /// How near the plan is to the least cost that is possible.
    pub fn outcome(&self) -> Outcome
        ensures { result ≡ outcome_of self.now.cost self.now.bound }
    {
        match self.bound {
            Bound::NoPlan => Outcome::Infeasible,
            Bound::AtLeast(least) => match self.cost {
                None => Outcome::Open,
                Some(cost) => {
                    if i128::from(cost) == least {
                        Outcome::Optimal
                    } else {
                        Outcome::Open
                    }
                }
            },
        }
    }
}

// What a plan costs, where there is one.
fn cost_of(s: &Scenario, plan: Option<&Plan>) -> Option<i64>
    requires { IfSome (option_copied plan) (IsFeasible (parts_of s.now)) }
    ensures { result ≡ option_map (plan_cost (parts_of s.now).tables (parts_of s.now).flights)
        (option_copied plan.entry) }
{
    match plan {
        None => None,
        Some(plan) => Some(cost(s, plan)),
    }
}
