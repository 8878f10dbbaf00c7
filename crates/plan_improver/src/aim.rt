//! What a search looks for, and what it goes by.
ghost use Rattle.std.specs.Prelude.{◌<◌, ◌^◌};
ghost use Rattle.std.proofs.Props.{props};
ghost use Rattle.flight_routes.specs.Prices.{ArePricesOf};
ghost use Rattle.flow_types.specs.Scenario.{parts_of};
ghost use Rattle.plan_improver.specs.Guides.{ArePriced};

use flight_routes::Prices;
use flow_types::Bound;
use time_windows::Subproblem;

/// A plan of the subproblem that costs no more than what is enough, by prices beside which costs
/// weigh so much.
#[derive(Clone, Copy)]
pub struct Aim<'a> {
    pub problem: Subproblem<'a>,
    pub prices: &'a Prices,
    pub weight: u64,
    pub enough: Bound,
    pub ghost priced: { ArePricesOf (parts_of problem.s.now) prices.now },
    pub ghost light: { weight < 2 ^ 61 },
}

/// How trips are found: by prices beside which costs weigh so much, if there are some.
#[derive(Clone, Copy)]
pub struct Guide<'a> {
    pub problem: Subproblem<'a>,
    pub prices: Option<&'a Prices>,
    pub weight: u64,
    pub ghost priced: { ArePriced problem.s.now prices } by { Prim.hlevel props },
    pub ghost light: { weight < 2 ^ 62 },
}
