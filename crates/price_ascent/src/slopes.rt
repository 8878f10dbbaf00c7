//! Prices that may rise, and the direction in which each one moves: a subgradient, with a share of
//! the direction before.
ghost use Rattle.std.specs.Prelude.{◌≡◌, ◌<◌, ◌≤◌, ◌^◌, IfOk, OnOk, length};
ghost use Rattle.flow_types.specs.Scenario.{parts_of};
ghost use Rattle.plan_rules.specs.Loads.{IsMadeFor};
ghost use Rattle.flight_routes.specs.Prices.{ArePricesOf, row_count};
ghost use Rattle.priced_plans.specs.Keys.{IsKeyFor};
ghost use Rattle.price_ascent.specs.Slopes.{AreSlopesFor, IsGood, IsSlopeKey};

use crate::users::Users;
use flight_routes::Prices;
use flow_types::{CapKind, OutOfMemory, PriceKey, PriceKind, Scenario, capacity_at};
use plan_rules::Loads;
use priced_plans::{has_limit, price_kinds, row_count, usage_of};
use std::alloc::Global;

/// A price that may rise.
#[derive(Clone, Copy, Debug, PartialEq, Eq)]
pub struct Slope {
    pub key: PriceKey,
    /// How it moved last, for each unit of the stride, in 1,024ths.
    pub direction: i64,
    /// How many flights pass no limit; of a connection none, as trips alone make room there.
    pub limit: u32,
    /// How many flights of a pass of bids had bid when the price was lowered last.
    pub settled: u32,
}

impl Slope {
    ghost use Rattle.std.specs.Prelude.{◌≡◌};

    /// Lowered when so many flights had bid.
    pub fn settled_at(self, now: u32) -> Slope
        ensures { result.key ≡ self.key }
    {
        Slope {
            settled: now,
            ..self
        }
    }
}

/// Some prices that may rise, one after the other, by their positions.
#[derive(Clone, Copy, Debug, PartialEq, Eq)]
pub struct Span {
    pub first: usize,
    pub end: usize,
}

/// The prices that may rise of a row of this kind, from one period on, up to another.
pub fn span_of(slopes: &[Slope], kind: PriceKind, row: u32, from: u16, until: u16) -> Span
    ensures { result.end ≤ length slopes.now }
{
    let from = PriceKey {
        kind,
        row,
        period: from,
    };
    let until = PriceKey {
        kind,
        row,
        period: until,
    };
    Span {
        first: position_of(slopes, from),
        end: position_of(slopes, until),
    }
}

// How many slopes stand before the key: they ascend by kind, row and period.
fn position_of(slopes: &[Slope], key: PriceKey) -> usize
    ensures { result ≤ length slopes.now }
{
    let mut first = 0;
    let mut end = slopes.len();
    while first < end {
        let middle = first + (end - first) / 2;
        if is_before(slopes[middle].key, key) {
            first = middle + 1;
        } else {
            end = middle;
        }
    }
    first
}

// Whether the key stands before the other one.
fn is_before(key: PriceKey, other: PriceKey) -> bool {
    let (kind, other_kind) = (kind_number(key.kind), kind_number(other.kind));
    if kind != other_kind {
        kind < other_kind
    } else if key.row != other.row {
        key.row < other.row
    } else {
        key.period < other.period
    }
}

// The place of a kind among the kinds.
fn kind_number(kind: PriceKind) -> u8 {
    match kind {
        PriceKind::Capacity(CapKind::Dep) => 0,
        PriceKind::Capacity(CapKind::Arr) => 1,
        PriceKind::Capacity(CapKind::Sector) => 2,
        PriceKind::Connection => 3,
    }
}

// How finely directions are counted.
const DIRECTION_UNIT: i64 = 1024;

const DIRECTION_UNIT_SQUARED: i128 = 1 << 20;

/// The highest that a price gets.
pub const MOST_PRICE: i64 = 1 << 60;

/// All prices that may rise, none of which has moved: those of limits that trips may pass.
pub fn all_slopes(alloc: Global, s: &Scenario) -> Result<Vec<Slope>, OutOfMemory>
    ensures { IfOk result (λ slopes. AreSlopesFor (parts_of s.now) slopes.items) }
{
    let users = Users::new(alloc, s)?;
    let mut slopes = Vec::new(alloc);
    for kind in price_kinds() {
        add_kind(s, &users, kind, &mut slopes)?;
    }
    Ok(slopes)
}

// Adds the prices of a kind that may rise.
fn add_kind(
    s: &Scenario,
    users: &Users,
    kind: PriceKind,
    slopes: &mut Vec<Slope>,
) -> Result<(), OutOfMemory>
    requires { AreSlopesFor (parts_of s.now) slopes.old.items }
    ensures { OnOk result (AreSlopesFor (parts_of s.now) slopes.new.items) }
{
    for row in 0..row_count(s, kind) {
        add_row(s, users, kind, row as u32, slopes)?;
    }
    Ok(())
}

// Adds the prices of a row that may rise.
fn add_row(
    s: &Scenario,
    users: &Users,
    kind: PriceKind,
    row: u32,
    slopes: &mut Vec<Slope>,
) -> Result<(), OutOfMemory>
    requires row { row < row_count (parts_of s.now) kind }
    requires slopes { AreSlopesFor (parts_of s.now) slopes.old.items }
    ensures { OnOk result (AreSlopesFor (parts_of s.now) slopes.new.items) }
{
    for period in 0..s.day().periods {
        add(s, users, PriceKey { kind, row, period }, slopes)?;
    }
    Ok(())
}

// Adds the price on the key, if it may rise.
fn add(
    s: &Scenario,
    users: &Users,
    key: PriceKey,
    slopes: &mut Vec<Slope>,
) -> Result<(), OutOfMemory>
    requires key { IsKeyFor (parts_of s.now) key }
    requires slopes { AreSlopesFor (parts_of s.now) slopes.old.items }
    ensures { OnOk result (AreSlopesFor (parts_of s.now) slopes.new.items) }
{
    if has_limit(s, key) && may_pass(s, users, key) {
        slopes.push(Slope {
            key,
            direction: 0,
            limit: limit_of(s, key),
            settled: 0,
        })?;
    }
    Ok(())
}

// Whether trips may pass the limit at all.
fn may_pass(s: &Scenario, users: &Users, key: PriceKey) -> bool
    requires { IsKeyFor (parts_of s.now) key }
{
    match key.kind {
        PriceKind::Capacity(kind) => may_fill(s, users, kind, key.row, key.period),
        PriceKind::Connection => may_leave(s, key.row, key.period),
    }
}

// Whether there are more flights than the capacity takes.
fn may_fill(s: &Scenario, users: &Users, kind: CapKind, place: u32, period: u16) -> bool {
    users.of(kind, place) > capacity_at(s.places(), kind, place, period)
}

// Whether the second flight of the connection may have left before the first is ready.
fn may_leave(s: &Scenario, connection: u32, period: u16) -> bool
    requires { connection < length (parts_of s.now).connections }
{
    let turn = &s.connections()[connection as usize];
    match (
        s.flights().get(turn.first as usize),
        s.flights().get(turn.second as usize),
    ) {
        (Some(first), Some(second)) => {
            let ready = u32::from(first.sa) + u32::from(first.md) + u32::from(turn.turnaround);
            second.sd <= period && u32::from(period) < ready
        }
        _ => true,
    }
}

/// How far the least trips are above the limits.
#[derive(Clone, Copy, Debug, PartialEq, Eq)]
pub struct Excess {
    /// The sum of the squares of how far limits are exceeded, over the prices that may follow.
    pub squares: i64,
    /// What is paid for that.
    pub paid: i128,
    /// Whether a limit is exceeded.
    pub exceeds: bool,
}

impl Excess {
    /// What the least trips cost, weighted, where they pass no limit and the prices have this
    /// value.
    pub fn plan_cost(&self, value: i128) -> Option<i128> {
        if self.exceeds {
            None
        } else {
            Some(value.saturating_sub(self.paid))
        }
    }
}

/// What the limits would pay under these prices.
pub fn paid_by_limits(slopes: &[Slope], s: &Scenario, prices: &Prices) -> i128
    requires slopes { AreSlopesFor (parts_of s.now) slopes.now }
    requires prices { IsGood (parts_of s.now) prices.now }
{
    let mut sum = 0i128;
    for slope in slopes {
        let price = prices.get(slope.key);
        if price > 0 {
            let paid = i128::from(price).saturating_mul(i128::from(slope.limit));
            sum = sum.saturating_add(paid);
        }
    }
    sum
}

// The capacity, if it is one.
fn limit_of(s: &Scenario, key: PriceKey) -> u32 {
    match key.kind {
        PriceKind::Capacity(kind) => capacity_at(s.places(), kind, key.row, key.period),
        PriceKind::Connection => 0,
    }
}

/// Gives each slope its next direction: how far the loads exceed the limit, and so many fifths of
/// the direction before. Answers the excess of all.
pub fn excess_by_slopes(
    slopes: &mut [Slope],
    s: &Scenario,
    loads: &Loads,
    prices: &Prices,
    fifths: i64,
) -> Excess
    requires slopes { AreSlopesFor (parts_of s.now) slopes.old }
    requires loads { IsMadeFor (parts_of s.now) loads.now }
    requires prices { IsGood (parts_of s.now) prices.now }
    ensures { AreSlopesFor (parts_of s.now) slopes.new }
{
    let mut sum = Excess {
        squares: 0,
        paid: 0,
        exceeds: false,
    };
    for at in 0..slopes.len() {
        let slope = slopes[at];
        let excess = excess_of(s, loads, slope.key, slope.limit);
        slopes[at] = Slope {
            direction: next_direction(slope.direction, fifths, excess),
            ..slope
        };
        sum = with_one(sum, excess, prices.get(slope.key));
    }
    sum
}

// The excess with that of one price more, whose limit is exceeded so far.
fn with_one(sum: Excess, excess: i64, price: u64) -> Excess
    requires { price < 2 ^ 62 }
{
    if excess <= 0 && price == 0 {
        return sum;
    }
    let paid = i128::from(price).saturating_mul(i128::from(excess));
    Excess {
        squares: sum.squares.saturating_add(excess.saturating_mul(excess)),
        paid: sum.paid.saturating_add(paid),
        exceeds: sum.exceeds || excess > 0,
    }
}

// The direction in which a price moves now: as far as the limit is exceeded, and so many fifths of
// the direction before.
fn next_direction(direction: i64, fifths: i64, excess: i64) -> i64 {
    excess
        .saturating_mul(DIRECTION_UNIT)
        .saturating_add((direction / 5).saturating_mul(fifths))
}

/// By how much the loads exceed the limit, which for a capacity is known.
pub fn excess_of(s: &Scenario, loads: &Loads, key: PriceKey, limit: u32) -> i64
    requires key { IsSlopeKey (parts_of s.now) key }
    requires loads { IsMadeFor (parts_of s.now) loads.now }
{
    match key.kind {
        PriceKind::Capacity(kind) => {
            i64::from(loads.load(kind, key.row, key.period)) - i64::from(limit)
        }
        PriceKind::Connection => {
            let usage = usage_of(s, loads, key);
            i64::from(usage.used) - i64::from(usage.limit)
        }
    }
}

/// Moves each price along its slope, by so many 1,024ths for a flight; no price falls below 0.
pub fn move_prices(slopes: &[Slope], s: &Scenario, stride: i64, prices: &mut Prices)
    requires slopes { AreSlopesFor (parts_of s.now) slopes.now }
    requires prices { IsGood (parts_of s.now) prices.old }
    ensures { IsGood (parts_of s.now) prices.new }
{
    for slope in slopes {
        let price = prices.get(slope.key);
        if price > 0 || slope.direction > 0 || stride < 0 {
            set_price(
                s,
                slope.key,
                price_after(price, slope.direction, stride),
                prices,
            );
        }
    }
}

/// Sets each price that may rise to so many times what it is among other prices.
pub fn take_over(slopes: &[Slope], s: &Scenario, other: &Prices, times: u64, prices: &mut Prices)
    requires slopes { AreSlopesFor (parts_of s.now) slopes.now }
    requires other { ArePricesOf (parts_of s.now) other.now }
    requires prices { IsGood (parts_of s.now) prices.old }
    ensures { IsGood (parts_of s.now) prices.new }
{
    for slope in slopes {
        let price = other.get(slope.key).saturating_mul(times);
        set_price(s, slope.key, price.min(1 << 60) as i64, prices);
    }
}

// The price, so many 1,024ths in the direction, as far as prices go.
fn price_after(price: u64, direction: i64, stride: i64) -> i64
    requires { price < 2 ^ 62 }
{
    let far = i128::from(direction).saturating_mul(i128::from(stride)) / DIRECTION_UNIT_SQUARED;
    let most = i128::from(MOST_PRICE);
    (price as i64).saturating_add(far.clamp(-most, most) as i64)
}

/// Sets a price that may rise; the number is brought into the range of prices.
pub fn set_price(s: &Scenario, key: PriceKey, price: i64, prices: &mut Prices)
    requires key { IsSlopeKey (parts_of s.now) key }
    requires prices { IsGood (parts_of s.now) prices.old }
    ensures { IsGood (parts_of s.now) prices.new }
{
    let value = in_range(price);
    prices.set(key, value);
}

// The nearest number that a price may be.
fn in_range(price: i64) -> u64
    ensures { result < 2 ^ 62 }
{
    price.clamp(0, MOST_PRICE) as u64
}
