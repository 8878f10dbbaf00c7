//! What a flight pays on its way, in lists that are made once.
ghost use Rattle.std.specs.Prelude.{◌≡◌, ◌*◌, ◌<◌, None, IfOk, pos, replicate, length};
ghost use Rattle.exact_sums.specs.Leasts.{raised};
ghost use Rattle.flow_types.specs.Limits.{most_nodes, most_periods};
ghost use Rattle.flight_routes.specs.RateLists.{part_of, place_of};
ghost use Rattle.exact_sums.specs.Near.{IsNear};

use crate::cost::Cost;
use flow_types::{MOST_PERIODS, OutOfMemory};
use std::alloc::Global;
use std::marker::Model;
use time_windows::{End, Window};

/// As many slots as a day may have periods.
pub const PERIODS: usize = 512;

/// As many cells as a flight may have nodes and a day periods.
pub const CELLS: usize = 16_384;

/// The rates of one flight on a day, made once and filled anew for each flight. Contracts see them
/// as `RateLists`, and read those as `Rates`.
#[derive(Debug)]
pub struct RateTable {
    // The periods that the lists are filled for.
    span: Window,
    leaves: Vec<Cost>,
    arrives: Vec<Cost>,
    paid: Vec<i128>,
    clear: Vec<u16>,
}

// Written out, so that proofs see one call where a room is let go of.
impl Drop for RateTable {
    fn drop(self) {
        let RateTable {
            span: _,
            leaves: _,
            arrives: _,
            paid: _,
            clear: _,
        } = self;
    }
}

impl Model for RateTable {
    ghost use Rattle.flight_routes.specs.RateLists.{HasRoom, RateLists};

    ghost Value = { RateLists };

    ghost view = { λ a. record {
      span = a.span;
      leaves = a.leaves.items;
      arrives = a.arrives.items;
      paid = a.paid.items;
      clear = a.clear.items;
    } };

    ghost invariant = { λ a. HasRoom (record {
      span = a.span;
      leaves = a.leaves.items;
      arrives = a.arrives.items;
      paid = a.paid.items;
      clear = a.clear.items;
    }) };
}

/// Where the node and the period stand in a list.
pub fn place_of(node: u16, time: u16) -> usize
    requires node { node < most_nodes }
    requires time { time < most_periods }
    ensures { result ≡ place_of node time }
{
    usize::from(node) * usize::from(MOST_PERIODS) + usize::from(time)
}

/// The part of a list that is of the node: a slot for each period.
pub fn part_of<T>(items: &[T], node: u16) -> &[T]
    requires items { length items.now ≡ most_nodes * most_periods }
    requires node { node < most_nodes }
    ensures part { result.now ≡ part_of node items.now }
    ensures length { length result.now ≡ most_periods }
{
    let first = usize::from(node) * usize::from(MOST_PERIODS);
    &items[first..first + usize::from(MOST_PERIODS)]
}

impl RateTable {
    ghost use Rattle.std.specs.Prelude.{◌≡◌, ◌<◌, ◌≤◌, ◌^◌, IfOk, IfSome, length};
    ghost use Rattle.exact_sums.specs.Leasts.{raised};
    ghost use Rattle.flow_types.specs.Limits.{most_nodes, most_periods};
    ghost use Rattle.flight_routes.specs.RateLists.{IsBlank, part_of, rates_of};
    ghost use Rattle.flight_routes.specs.Rates.{rate_at};
    ghost use Rattle.exact_sums.specs.Near.{IsNear};

    /// Rates of no flight: no period to leave or to arrive in, nothing paid, and every node clear.
    pub fn new(alloc: Global) -> Result<RateTable, OutOfMemory>
        ensures { IfOk result IsBlank }
    {
        Ok(RateTable {
            span: Window { lo: 0, hi: 0 },
            leaves: no_costs(alloc, PERIODS)?,
            arrives: no_costs(alloc, PERIODS)?,
            paid: nothing_paid(alloc, CELLS)?,
            clear: all_clear(alloc, CELLS)?,
        })
    }

    /// What leaving in the period costs, nothing where the flight may not.
    pub fn leaves_at(&self, time: u16) -> Cost
        requires { time < most_periods }
        ensures { result ≡ (rates_of self.now).leaves time }
    {
        self.leaves[usize::from(time)]
    }

    /// What arriving in the period costs, nothing where the flight may not.
    pub fn arrives_at(&self, time: u16) -> Cost
        requires { time < most_periods }
        ensures { result ≡ (rates_of self.now).arrives time }
    {
        self.arrives[usize::from(time)]
    }

    /// What an end of the trip costs in the period, nothing where the flight may not be there.
    pub fn end_at(&self, end: End, time: u16) -> Cost
        requires { time < most_periods }
        ensures { result ≡ rate_at end (rates_of self.now) time }
    {
        match end {
            End::Departure => self.leaves[usize::from(time)],
            End::Arrival => self.arrives[usize::from(time)],
        }
    }

    /// The periods that the table is filled for.
    pub fn span(&self) -> Window
        ensures span { result ≡ self.now.span }
        ensures few { result.hi < most_periods }
    {
        self.span
    }

    /// What being at the node has cost up to each period.
    pub fn paid_part(&self, node: u16) -> &[i128]
        requires { node < most_nodes }
        ensures part { result.now ≡ part_of node self.now.paid }
        ensures length { length result.now ≡ most_periods }
    {
        part_of(&self.paid, node)
    }

    /// From each period on, the first in which the flight may not be at the node.
    pub fn clear_part(&self, node: u16) -> &[u16]
        requires { node < most_nodes }
        ensures part { result.now ≡ part_of node self.now.clear }
        ensures length { length result.now ≡ most_periods }
    {
        part_of(&self.clear, node)
    }

    /// The first period from this one on in which the flight may not be at the node.
    pub fn clear_at(&self, node: u16, time: u16) -> u16
        requires node { node < most_nodes }
        requires time { time < most_periods }
        ensures { result ≡ (rates_of self.now).clear node time }
    {
        self.clear[place_of(node, time)]
    }

    /// The cost with what being at the node has cost up to the period.
    pub fn with_paid(&self, node: u16, time: u16, cost: Cost) -> Cost
        requires node { node < most_nodes }
        requires time { time < most_periods }
        requires paid { IsNear (2 ^ 100) ((rates_of self.now).paid node time) }
        requires cost { IfSome cost (IsNear (2 ^ 120)) }
        ensures { result ≡ raised ((rates_of self.now).paid node time) cost }
    {
        cost.plus(self.paid[place_of(node, time)])
    }
}

/// So many costs that aren't there.
pub fn no_costs(alloc: Global, count: usize) -> Result<Vec<Cost>, OutOfMemory>
    ensures { IfOk result (λ costs. costs.items ≡ replicate count None) }
{
    Ok(vec![in alloc; Cost::none(); count]?)
}

// So many zeros.
fn nothing_paid(alloc: Global, count: usize) -> Result<Vec<i128>, OutOfMemory>
    ensures { IfOk result (λ paid. paid.items ≡ replicate count (pos 0)) }
{
    Ok(vec![in alloc; 0; count]?)
}

// So many periods that nothing ends.
fn all_clear(alloc: Global, count: usize) -> Result<Vec<u16>, OutOfMemory>
    ensures { IfOk result (λ clear. clear.items ≡ replicate count most_periods) }
{
    Ok(vec![in alloc; MOST_PERIODS; count]?)
}

impl RateTable {
    ghost use Rattle.std.specs.Prelude.{◌≡◌, ◌≢◌, ◌<◌, ◌^◌, ℕ, pos};
    ghost use Rattle.flow_types.specs.Limits.{most_nodes, most_periods};
    ghost use Rattle.flight_routes.specs.Filling.{ArePaidSmall, IsFitTable, IsPriceTable, OnlyClear, OnlyEnd, OnlyPaid};
    ghost use Rattle.flight_routes.specs.PricedFitRates.{AreExchanged};
    ghost use Rattle.flight_routes.specs.RateLists.{rates_of};
    ghost use Rattle.flight_routes.specs.Rates.{rate_at};

    /// Begins anew, with rates for a span of periods.
    pub fn begin(&mut self, span: Window)
        requires { span.hi < most_periods }
        ensures span { self.new.span ≡ span }
        ensures price { IsPriceTable self.old → IsPriceTable self.new }
        ensures fit { IsFitTable self.old → IsFitTable self.new }
    {
        self.span = span;
    }

    /// Sets what this end of the trip costs in the period.
    pub fn set_end(&mut self, end: End, time: u16, cost: Cost)
        requires { time < most_periods }
        ensures here { rate_at end (rates_of self.new) time ≡ cost }
        ensures others { (t : ℕ) → t ≢ time
            → rate_at end (rates_of self.new) t ≡ rate_at end (rates_of self.old) t }
        ensures only { OnlyEnd end self.old self.new }
    {
        match end {
            End::Departure => self.leaves[usize::from(time)] = cost,
            End::Arrival => self.arrives[usize::from(time)] = cost,
        }
    }

    /// Sets what being at the node has cost up to the period.
    pub fn set_paid(&mut self, node: u16, time: u16, cost: u128)
        requires node { node < most_nodes }
        requires time { time < most_periods }
        requires cost { cost < 2 ^ 100 }
        ensures here { (rates_of self.new).paid node time ≡ pos cost }
        ensures others { (t : ℕ) → t ≢ time
            → (rates_of self.new).paid node t ≡ (rates_of self.old).paid node t }
        ensures only { OnlyPaid node self.old self.new }
        ensures small { ArePaidSmall self.old → ArePaidSmall self.new }
    {
        self.paid[place_of(node, time)] = cost as i128;
    }

    /// Sets the first period from this one on in which the flight may not be at the node.
    pub fn set_clear(&mut self, node: u16, time: u16, first: u16)
        requires node { node < most_nodes }
        requires time { time < most_periods }
        ensures here { (rates_of self.new).clear node time ≡ first }
        ensures others { (t : ℕ) → t ≢ time
            → (rates_of self.new).clear node t ≡ (rates_of self.old).clear node t }
        ensures only { OnlyClear node self.old self.new }
    {
        self.clear[place_of(node, time)] = first;
    }

    /// Exchanges what is clear in the two tables.
    pub fn exchange_clear(&mut self, other: &mut RateTable)
        ensures { AreExchanged self.old other.old self.new other.new }
    {
        std::mem::swap(&mut self.clear, &mut other.clear);
    }
}
