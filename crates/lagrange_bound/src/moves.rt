//! Prices moved by what loads count.
ghost use Rattle.std.specs.Prelude.{◌≡◌, ◌≤◌, ◌<◌, ◌+◌, ◌^◌, All, IsTrue, true};
ghost use Rattle.flow_types.specs.declared.bound.PriceKey.{PriceKey};
ghost use Rattle.flow_types.specs.Scenario.{parts_of};
ghost use Rattle.flight_routes.specs.Prices.{ArePricesOf, kind_number, price_at, row_count};
ghost use Rattle.plan_rules.specs.Loads.{IsMadeFor};
ghost use Rattle.priced_plans.specs.Keys.{IsKeyFor, is_at};
ghost use Rattle.priced_plans.specs.Usage.{traffic_in};
ghost use Rattle.lagrange_bound.specs.Moves.{AreMoved, HasRoomIn, HaveRoom, IsIdle, is_in_row, is_in_rows, most_rise};
ghost use Rattle.lagrange_bound.specs.Rounds.{moved, moved_price};

use flight_routes::Prices;
use flow_types::{PriceKey, PriceKind, Scenario};
use plan_rules::Loads;
use priced_plans::{has_limit, price_kinds, row_count, usage_of};

// A price and a step more for each by which the count exceeds the limit, or less; no less than 0.
fn moved(step: u64, count: u32, limit: u32, price: u64) -> u64
    requires step { step ≤ 1024 }
    requires price { price < 2 ^ 61 }
    ensures value { result ≡ moved step count limit price }
    ensures rise { result ≤ price + most_rise }
{
    (price + step * u64::from(count)).saturating_sub(step * u64::from(limit))
}

// What a price becomes.
fn moved_price(s: &Scenario, loads: &Loads, step: u64, key: PriceKey, price: u64) -> u64
    requires loads { IsMadeFor (parts_of s.now) loads.now }
    requires key { IsKeyFor (parts_of s.now) key }
    requires step { step ≤ 1024 }
    requires price { price < 2 ^ 61 }
    ensures value { result
        ≡ moved_price (parts_of s.now) (traffic_in loads.now) step key price }
    ensures rise { result ≤ price + most_rise }
{
    if has_limit(s, key) {
        let usage = usage_of(s, loads, key);
        moved(step, usage.used, usage.limit, price)
    } else {
        price
    }
}

// Moves one price.
fn move_price(s: &Scenario, loads: &Loads, step: u64, key: PriceKey, prices: &mut Prices)
    requires loads { IsMadeFor (parts_of s.now) loads.now }
    requires prices { ArePricesOf (parts_of s.now) prices.old }
    requires key { IsKeyFor (parts_of s.now) key }
    requires step { step ≤ 1024 }
    requires room { price_at prices.old key < 2 ^ 61 }
    ensures { AreMoved (parts_of s.now) (moved_price (parts_of s.now) (traffic_in loads.now) step)
        (is_at (kind_number key.kind) key.row key.period) prices.old prices.new }
{
    let price = prices.get(key);
    prices.set(key, moved_price(s, loads, step, key, price));
}

// Whether all prices are 0.
fn are_free(prices: &[u64]) -> bool
    ensures { IsTrue result → All (λ price. price ≡ 0) prices.now }
{
    prices.iter().all(|price| *price == 0)
}

// Whether nothing is counted.
fn are_none(counts: &[u32]) -> bool
    ensures { IsTrue result → All (λ count. count ≡ 0) counts.now }
{
    counts.iter().all(|count| *count == 0)
}

// Whether no flight uses the row of a place, and its prices are 0; of a connection it isn't asked.
fn is_idle(s: &Scenario, loads: &Loads, kind: PriceKind, row: u32, prices: &Prices) -> bool
    requires loads { IsMadeFor (parts_of s.now) loads.now }
    requires prices { ArePricesOf (parts_of s.now) prices.now }
    requires row { row < row_count (parts_of s.now) kind }
    ensures { IsTrue result
        → IsIdle (parts_of s.now) (traffic_in loads.now) kind prices.now row }
{
    match kind {
        PriceKind::Capacity(cap) => are_free(prices.row(kind, row))
            && are_none(loads.row(cap, row)),
        PriceKind::Connection => false,
    }
}

// Moves those of a row, in each period. Where no flight uses it, prices of 0 stay what they are.
#[tactic(auto, using(crate::proofs::MoveFacts::idle_row))]
fn move_row(s: &Scenario, loads: &Loads, step: u64, kind: PriceKind, row: u32, prices: &mut Prices)
    requires loads { IsMadeFor (parts_of s.now) loads.now }
    requires prices { ArePricesOf (parts_of s.now) prices.old }
    requires row { row < row_count (parts_of s.now) kind }
    requires step { step ≤ 1024 }
    requires room { HasRoomIn (parts_of s.now) kind prices.old row }
    ensures { AreMoved (parts_of s.now) (moved_price (parts_of s.now) (traffic_in loads.now) step)
        (is_in_row (kind_number kind) row (parts_of s.now).day.periods) prices.old prices.new }
{
    if is_idle(s, loads, kind, row, prices) {
        return;
    }
    for period in 0..s.day().periods {
        move_price(s, loads, step, PriceKey { kind, row, period }, prices);
    }
}

// Moves those of a kind.
fn move_rows(s: &Scenario, loads: &Loads, step: u64, kind: PriceKind, prices: &mut Prices)
    requires loads { IsMadeFor (parts_of s.now) loads.now }
    requires prices { ArePricesOf (parts_of s.now) prices.old }
    requires step { step ≤ 1024 }
    requires room { HaveRoom (parts_of s.now) kind prices.old }
    ensures { AreMoved (parts_of s.now) (moved_price (parts_of s.now) (traffic_in loads.now) step)
        (is_in_rows (kind_number kind) (row_count (parts_of s.now) kind)) prices.old prices.new }
{
    for row in 0..row_count(s, kind) {
        move_row(s, loads, step, kind, row as u32, prices);
    }
}

// Moves them all.
#[tactic(auto, using(crate::proofs::MoveFacts::kinds_start, crate::proofs::MoveFacts::all_kinds))]
pub fn move_prices(s: &Scenario, loads: &Loads, step: u64, prices: &mut Prices)
    requires loads { IsMadeFor (parts_of s.now) loads.now }
    requires prices { ArePricesOf (parts_of s.now) prices.old }
    requires step { step ≤ 1024 }
    requires room { (key : PriceKey) → IsKeyFor (parts_of s.now) key
        → price_at prices.old key < 2 ^ 61 }
    ensures { AreMoved (parts_of s.now) (moved_price (parts_of s.now) (traffic_in loads.now) step)
        (λ key. true) prices.old prices.new }
{
    let kinds = price_kinds();
    for at in 0..kinds.len() {
        move_rows(s, loads, step, kinds[at], prices);
    }
}
