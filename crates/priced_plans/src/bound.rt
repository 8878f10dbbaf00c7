//! The bound that prices tell.
ghost use Rattle.std.specs.Prelude.{IfSome, ◌≡◌, ◌<◌, ◌+◌, ◌-◌, ◌/◌, ◌≤◌, ◌^◌, unsigned_abs, pos, neg_ℤ};
ghost use Rattle.flow_types.specs.Scenario.{parts_of};
ghost use Rattle.flight_routes.specs.Prices.{ArePricesOf};
ghost use Rattle.exact_sums.specs.Near.{IsNear};
ghost use Rattle.flight_routes.specs.Work.{IsWorkFor};
ghost use Rattle.time_windows.specs.Held.{IsMadeFor, box_of};
ghost use Rattle.priced_plans.specs.Valuing.{AreSmall};
ghost use Rattle.priced_plans.specs.PricedBound.{IsBoundOf, IsPricedBound, IsRoundedUp};
ghost use Rattle.flow_types.specs.Bounds.{IsNearBound};

use crate::value::priced_value;
use flight_routes::{Prices, Work};
use flow_types::{Bound, Scenario};
use time_windows::Boxes;

/// The bound that the prices tell of the plans in the box: their value divided by the weight and
/// rounded up; that no plan exists, where a flight has no trip in the box.
///
/// As for `priced_value`, with a weight above 0. With one of at least 2^10 the bound is nearer to 0
/// than 2^115.
pub fn priced_bound(
    work: &mut Work,
    s: &Scenario,
    boxes: &Boxes,
    weight: u64,
    prices: &Prices,
) -> Bound
    requires work { IsWorkFor (parts_of s.now) work.old }
    requires boxes { IsMadeFor (parts_of s.now) boxes.now }
    requires some { 0 < weight }
    requires weight { weight < 2 ^ 62 }
    requires prices { ArePricesOf (parts_of s.now) prices.now }
    requires small { AreSmall prices.now }
    ensures bound { IsPricedBound (parts_of s.now) (box_of boxes.now) weight prices.now result }
    ensures near { 2 ^ 10 ≤ weight → IsNearBound result }
    ensures work { IsWorkFor (parts_of s.now) work.new }
{
    told_by(priced_value(work, s, boxes, weight, prices), weight)
}

/// The bound that a value of prices tells: that, divided by the weight and rounded up; that no plan
/// exists, where there is none since a flight has no trip.
///
/// The value is no further from 0 than 2^123, and the weight is above 0. With one of at least 2^10
/// the bound is nearer to 0 than 2^115.
pub fn told_by(value: Option<i128>, weight: u64) -> Bound
    requires near { IfSome value (IsNear (2 ^ 123)) }
    requires weight { 0 < weight }
    ensures told { IsBoundOf weight value result }
    ensures near { 2 ^ 10 ≤ weight → IsNearBound result }
{
    match value {
        None => Bound::NoPlan,
        Some(value) => Bound::AtLeast(rounded_up(value, weight)),
    }
}

/// The least number that is no less than the value divided by the weight. The value is no further
/// from 0 than 2^123, and the weight is above 0. The number is no further from 0 than the value,
/// and with a weight of at least 2^10 it is nearer than 2^115.
#[tactic(auto, using(crate::proofs::RoundingFacts::rounded_above, crate::proofs::RoundingFacts::rounded_below, crate::proofs::RoundingFacts::rounded_near, crate::proofs::RoundingFacts::rounded_within))]
pub fn rounded_up(value: i128, weight: u64) -> i128
    requires near { IsNear (2 ^ 123) value }
    requires weight { 0 < weight }
    ensures rounded { IsRoundedUp value weight result }
    ensures smaller { unsigned_abs result ≤ unsigned_abs value }
    ensures near { unsigned_abs result < 2 ^ 124 }
    ensures closer { 2 ^ 10 ≤ weight → unsigned_abs result < 2 ^ 115 }
{
    if value > 0 {
        above(value.unsigned_abs(), weight)
    } else {
        below(value.unsigned_abs(), weight)
    }
}

// A value above 0, rounded up.
fn above(size: u128, weight: u64) -> i128
    requires size { size < 2 ^ 126 }
    requires weight { 0 < weight }
    ensures { result ≡ pos ((size + (weight - 1)) / weight) }
{
    ((size + (u128::from(weight) - 1)) / u128::from(weight)) as i128
}

// A value of 0 or less, rounded up.
fn below(size: u128, weight: u64) -> i128
    requires size { size < 2 ^ 126 }
    requires weight { 0 < weight }
    ensures { result ≡ neg_ℤ (pos (size / weight)) }
{
    -((size / u128::from(weight)) as i128)
}
