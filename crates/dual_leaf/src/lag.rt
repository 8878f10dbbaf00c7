//! What a Lag leaf comes to, and the bound that follows.
ghost use Rattle.std.specs.Prelude.{◌≡◌, ◌<◌, ◌^◌, All, IfOk, MatchOption, Some, length, true};
ghost use Rattle.flow_types.specs.Scenario.{parts_of};
ghost use Rattle.flight_routes.specs.Prices.{AreFree, ArePricesOf};
ghost use Rattle.flight_routes.specs.Work.{IsWorkFor};
ghost use Rattle.priced_plans.specs.Valuing.{AreSmall};
ghost use Rattle.time_windows.specs.Held.{IsMadeFor, box_of};
ghost use Rattle.bytime_model.specs.Multipliers.{HasRange};
ghost use Rattle.dual_leaf.specs.Lag.{ArePriceable, ArePricedBy, IsFirstUnpriceable, IsSetBy, is_priceable};
ghost use Rattle.time_windows.specs.Tight.{IsLive};
ghost use Rattle.dual_leaf.specs.Leaf.{IsLagAnswer, IsNearPriced, IsTableAnswer};
ghost use Rattle.time_windows.specs.Plans.{IsBoundIn};

use crate::bound::answer_of;
use crate::fault::LeafFault;
use crate::price_rows::{is_priceable, key_of};
use bytime_model::Multiplier;
use flight_routes::{Prices, Work};
use flow_types::{Bound, Scenario};
use priced_plans::priced_value;
use time_windows::Boxes;

// The position of the first multiplier whose row may have no price.
fn first_unpriceable(s: &Scenario, rows: &[Multiplier]) -> Option<u32>
    requires { length rows.now < 2 ^ 32 }
    ensures { MatchOption result (ArePriceable (parts_of s.now) rows.now)
        (IsFirstUnpriceable (parts_of s.now) rows.now) }
{
    for position in 0..rows.len() {
        if !is_priceable(s, rows[position].row) {
            return Some(position as u32);
        }
    }
    None
}

// Sets the price that the multiplier is.
fn set_price(s: &Scenario, prices: &mut Prices, multiplier: Multiplier)
    requires prices { ArePricesOf (parts_of s.now) prices.old }
    requires priceable { is_priceable (parts_of s.now) multiplier.row ≡ true }
    requires value { multiplier.value < 2 ^ 62 }
    ensures { IsSetBy (parts_of s.now) multiplier prices.old prices.new }
{
    if let Some(key) = key_of(multiplier.row) {
        prices.set(key, multiplier.value);
    }
}

// Sets the prices that the multipliers are, in turn.
fn set_prices(s: &Scenario, prices: &mut Prices, rows: &[Multiplier])
    requires prices { ArePricesOf (parts_of s.now) prices.old }
    requires free { AreFree prices.old }
    requires priceable { ArePriceable (parts_of s.now) rows.now }
    requires values { All (λ multiplier. multiplier.value < 2 ^ 62) rows.now }
    ensures { ArePricedBy (parts_of s.now) rows.now prices.new }
{
    for at in 0..rows.len() {
        set_price(s, prices, rows[at]);
    }
}

// What the prices say of the box.
fn table_answer(
    work: &mut Work,
    s: &Scenario,
    boxes: &Boxes,
    weight: u64,
    prices: &Prices,
) -> Result<Bound, LeafFault>
    requires work { IsWorkFor (parts_of s.now) work.old }
    requires boxes { IsMadeFor (parts_of s.now) boxes.now }
    requires weight { weight < 2 ^ 62 }
    requires prices { ArePricesOf (parts_of s.now) prices.now }
    requires small { AreSmall prices.now }
    ensures answered { IsTableAnswer (parts_of s.now) (box_of boxes.now) weight prices.now result }
    ensures near { IfOk result IsNearPriced }
    ensures work { IsWorkFor (parts_of s.now) work.new }
{
    match priced_value(work, s, boxes, weight, prices) {
        None => Ok(Bound::NoPlan),
        Some(value) => answer_of(value, weight),
    }
}

/// What a Lag leaf of these multipliers says of a box in which every node that must be entered is
/// open; or the position of the first whose row may have no price. The work, the prices and the box
/// are of the scenario. It takes no memory.
pub fn lag_answer(
    work: &mut Work,
    prices: &mut Prices,
    s: &Scenario,
    boxes: &Boxes,
    weight: u64,
    rows: &[Multiplier],
) -> Result<Bound, LeafFault>
    requires work { IsWorkFor (parts_of s.now) work.old }
    requires prices { ArePricesOf (parts_of s.now) prices.old }
    requires boxes { IsMadeFor (parts_of s.now) boxes.now }
    requires live { IsLive (box_of boxes.now) }
    requires range { HasRange weight rows.now }
    ensures bound { IsLagAnswer (parts_of s.now) (box_of boxes.now) weight rows.now result }
    ensures sound { IfOk result (IsBoundIn (parts_of s.now) (box_of boxes.now)) }
    ensures near { IfOk result IsNearPriced }
    ensures work { IsWorkFor (parts_of s.now) work.new }
    ensures prices { ArePricesOf (parts_of s.now) prices.new }
{
    if let Some(position) = first_unpriceable(s, rows) {
        return Err(LeafFault::UnknownRow(position));
    }
    prices.clear();
    set_prices(s, prices, rows);
    table_answer(work, s, boxes, weight, prices)
}
