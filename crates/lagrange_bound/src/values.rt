//! The value that prices have, and the bound that it tells.
ghost use Rattle.std.specs.Prelude.{◌≡◌, ◌≤◌, ◌^◌, IfSome};
ghost use Rattle.flow_types.specs.Scenario.{parts_of};
ghost use Rattle.flight_routes.specs.Prices.{ArePricesOf};
ghost use Rattle.exact_sums.specs.Near.{IsNear};
ghost use Rattle.priced_plans.specs.Values.{limit_price};
ghost use Rattle.lagrange_bound.specs.Sums.{less};

use flight_routes::Prices;
use flow_types::Scenario;
use priced_plans::limit_price;

// So much less.
fn less(sum: Option<i128>, paid: u128) -> Option<i128>
    requires sum { IfSome sum (IsNear (2 ^ 100)) }
    requires paid { paid ≤ 2 ^ 122 }
    ensures value { result ≡ less sum paid }
    ensures near { IfSome result (IsNear (2 ^ 123)) }
{
    match sum {
        None => None,
        Some(sum) => Some(sum - paid as i128),
    }
}

/// The value of prices, once the least trips under them are added up; nothing where one is missing.
pub fn value_of(s: &Scenario, prices: &Prices, sum: Option<i128>) -> Option<i128>
    requires prices { ArePricesOf (parts_of s.now) prices.now }
    requires sum { IfSome sum (IsNear (2 ^ 100)) }
    ensures value { result ≡ less sum (limit_price (parts_of s.now) prices.now) }
    ensures near { IfSome result (IsNear (2 ^ 123)) }
{
    less(sum, limit_price(s, prices))
}
