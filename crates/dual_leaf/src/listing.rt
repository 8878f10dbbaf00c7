//! Prices, listed by their rows.
ghost use Rattle.std.specs.Prelude.{◌<◌, ◌+◌, ◌^◌, IfOk, OnOk};
ghost use Rattle.flow_types.specs.Scenario.{parts_of};
ghost use Rattle.flight_routes.specs.Prices.{ArePricesOf, kind_number, row_count};
ghost use Rattle.priced_plans.specs.Keys.{ArePlaced, IsKeyFor};
ghost use Rattle.branch_tree.specs.Leaves.{IsInRange};
ghost use Rattle.dual_leaf.specs.PriceLeaf.{Closes, IsLagOf, TellsAs};
ghost use Rattle.dual_leaf.specs.Listing.{IsListed};

use crate::price_rows::name_of;
use branch_tree::Leaf;
use bytime_model::{Multiplier, Multipliers};
use flight_routes::Prices;
use flow_types::{OutOfMemory, PriceKey, PriceKind, Scenario};
use priced_plans::{price_kinds, row_count};
use std::alloc::Global;

// Lists a price, unless it is 0.
fn list_price(
    s: &Scenario,
    prices: &Prices,
    key: PriceKey,
    rows: &mut Multipliers,
) -> Result<(), OutOfMemory>
    requires prices { ArePricesOf (parts_of s.now) prices.now }
    requires placed { ArePlaced (parts_of s.now) prices.now }
    requires key { IsKeyFor (parts_of s.now) key }
    requires listed { IsListed (parts_of s.now) prices.now (kind_number key.kind) key.row
        key.period rows.old }
    ensures { OnOk result (IsListed (parts_of s.now) prices.now (kind_number key.kind) key.row
        (key.period + 1) rows.new) }
{
    let value = prices.get(key);
    if value > 0 {
        let row = name_of(key);
        rows.add(Multiplier { row, value })?;
    }
    Ok(())
}

// Lists those of a row, period by period.
fn list_row(
    s: &Scenario,
    prices: &Prices,
    kind: PriceKind,
    row: u32,
    rows: &mut Multipliers,
) -> Result<(), OutOfMemory>
    requires prices { ArePricesOf (parts_of s.now) prices.now }
    requires placed { ArePlaced (parts_of s.now) prices.now }
    requires row { row < row_count (parts_of s.now) kind }
    requires listed { IsListed (parts_of s.now) prices.now (kind_number kind) row 0 rows.old }
    ensures { OnOk result
        (IsListed (parts_of s.now) prices.now (kind_number kind) (row + 1) 0 rows.new) }
{
    for period in 0..s.day().periods {
        list_price(s, prices, PriceKey { kind, row, period }, rows)?;
    }
    Ok(())
}

// Lists those of a kind.
fn list_kind(
    s: &Scenario,
    prices: &Prices,
    kind: PriceKind,
    rows: &mut Multipliers,
) -> Result<(), OutOfMemory>
    requires prices { ArePricesOf (parts_of s.now) prices.now }
    requires placed { ArePlaced (parts_of s.now) prices.now }
    requires listed { IsListed (parts_of s.now) prices.now (kind_number kind) 0 0 rows.old }
    ensures { OnOk result
        (IsListed (parts_of s.now) prices.now (kind_number kind + 1) 0 0 rows.new) }
{
    for row in 0..row_count(s, kind) {
        list_row(s, prices, kind, row as u32, rows)?;
    }
    Ok(())
}

// Lists them all.
fn list_prices(alloc: Global, s: &Scenario, prices: &Prices) -> Result<Multipliers, OutOfMemory>
    requires prices { ArePricesOf (parts_of s.now) prices.now }
    requires placed { ArePlaced (parts_of s.now) prices.now }
    ensures { IfOk result (IsListed (parts_of s.now) prices.now 4 0 0) }
{
    let mut rows = Multipliers::empty(alloc);
    let kinds = price_kinds();
    for at in 0..kinds.len() {
        list_kind(s, prices, kinds[at], &mut rows)?;
    }
    Ok(rows)
}

/// The Lag leaf of this weight whose multipliers are the prices, each by its row, in the order of
/// rows. In any box in which every node is open that must be entered, its bound is what the prices
/// tell at this weight.
///
/// The weight is above 0 and below 2^62. The prices are of the scenario, and 0 wherever a place has
/// no capacity of the kind. The leaf takes 24 bytes for each price that isn't 0, or up to twice
/// that. Time: for each price.
pub fn lag_leaf(
    alloc: Global,
    s: &Scenario,
    weight: u64,
    prices: &Prices,
) -> Result<Leaf, OutOfMemory>
    requires weight { 0 < weight }
    requires small { weight < 2 ^ 62 }
    requires prices { ArePricesOf (parts_of s.now) prices.now }
    requires placed { ArePlaced (parts_of s.now) prices.now }
    ensures prices { IfOk result (IsLagOf (parts_of s.now) weight prices.now) }
    ensures range { IfOk result IsInRange }
    ensures bound { IfOk result (TellsAs (parts_of s.now) weight prices.now) }
{
    let rows = list_prices(alloc, s, prices)?;
    Ok(Leaf::Lag { weight, rows })
}

/// The Lag leaf of weight 0 whose multipliers are the prices, each by its row, in the order of
/// rows. In any box in which every node is open that must be entered, and in which the value of the
/// prices at this weight is above 0, its bound is that there is no plan.
///
/// The prices are as `lag_leaf` wants them, and the leaf takes what that one takes.
pub fn closing_leaf(alloc: Global, s: &Scenario, prices: &Prices) -> Result<Leaf, OutOfMemory>
    requires prices { ArePricesOf (parts_of s.now) prices.now }
    requires placed { ArePlaced (parts_of s.now) prices.now }
    ensures prices { IfOk result (IsLagOf (parts_of s.now) 0 prices.now) }
    ensures range { IfOk result IsInRange }
    ensures closes { IfOk result (Closes (parts_of s.now) prices.now) }
{
    let rows = list_prices(alloc, s, prices)?;
    Ok(Leaf::Lag { weight: 0, rows })
}
