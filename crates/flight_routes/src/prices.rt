//! Prices on capacities and connections.
ghost use Rattle.std.specs.Prelude.{◌≡◌};

use crate::price_block::PriceBlock;
use flow_types::{CapKind, OutOfMemory, PriceKey, PriceKind, Scenario};
use std::alloc::Global;
use std::marker::Model;

/// The prices of a day: on the departures, the arrivals and the flights inside of each place in
/// each period, and on each connection from each period on. They take 24 bytes a place and period,
/// and eight a connection and period. Contracts see them as a `PriceTable`.
#[derive(Debug)]
pub struct Prices {
    departures: PriceBlock,
    arrivals: PriceBlock,
    inside: PriceBlock,
    turns: PriceBlock,
}

// Written out, so that proofs see one call where a room is let go of.
impl Drop for Prices {
    fn drop(self) {
        let Prices {
            departures: _,
            arrivals: _,
            inside: _,
            turns: _,
        } = self;
    }
}

impl Model for Prices {
    ghost use Rattle.flight_routes.specs.Prices.{PriceTable};

    ghost Value = { PriceTable };

    ghost view = { λ a. record {
      departures = a.departures;
      arrivals = a.arrivals;
      inside = a.inside;
      turns = a.turns;
    } };
}

impl Prices {
    ghost use Rattle.std.specs.Prelude.{◌≡◌, ◌^◌, ◌<◌, ◌≢◌, ℕ, All, IfOk, length, slice_index};
    ghost use Rattle.flow_types.specs.declared.bound.PriceKey.{PriceKey};
    ghost use Rattle.flow_types.specs.declared.parts.Parts.{Parts};
    ghost use Rattle.flow_types.specs.Scenario.{parts_of};
    ghost use Rattle.flight_routes.specs.Prices.{AreAlike, AreFree, ArePricesOf, IsKeyOf, Sets, block_of, price_at, price_in};

    /// The prices of the scenario, all 0.
    pub fn new(alloc: Global, s: &Scenario) -> Result<Prices, OutOfMemory>
        ensures size { IfOk result (ArePricesOf (parts_of s.now)) }
        ensures free { IfOk result AreFree }
    {
        let places = s.places().len();
        let periods = s.day().periods;
        Ok(Prices {
            departures: PriceBlock::new(alloc, places, periods)?,
            arrivals: PriceBlock::new(alloc, places, periods)?,
            inside: PriceBlock::new(alloc, places, periods)?,
            turns: PriceBlock::new(alloc, s.connections().len(), periods)?,
        })
    }

    // The prices of a kind.
    fn block(&self, kind: PriceKind) -> &PriceBlock
        ensures { result.now ≡ block_of kind self.now }
    {
        match kind {
            PriceKind::Capacity(CapKind::Dep) => &self.departures,
            PriceKind::Capacity(CapKind::Arr) => &self.arrivals,
            PriceKind::Capacity(CapKind::Sector) => &self.inside,
            PriceKind::Connection => &self.turns,
        }
    }

    // Sets one price in the block of its kind.
    fn put(&mut self, key: PriceKey, value: u64)
        requires key { IsKeyOf self.old key }
        requires value { value < 2 ^ 62 }
        ensures { Sets key value self.old self.new }
    {
        let PriceKey { kind, row, period } = key;
        match kind {
            PriceKind::Capacity(CapKind::Dep) => self.departures.set(row, period, value),
            PriceKind::Capacity(CapKind::Arr) => self.arrivals.set(row, period, value),
            PriceKind::Capacity(CapKind::Sector) => self.inside.set(row, period, value),
            PriceKind::Connection => self.turns.set(row, period, value),
        }
    }

    /// Sets one price, of a place or a connection and a period of the scenario that the prices were
    /// made for. A price is below 2^62.
    #[tactic(auto, using(crate::proofs::PriceFacts::set_others, crate::proofs::PriceFacts::set_size))]
    pub fn set(&mut self, key: PriceKey, value: u64)
        requires key { IsKeyOf self.old key }
        requires value { value < 2 ^ 62 }
        ensures size { (parts : Parts) → ArePricesOf parts self.old → ArePricesOf parts self.new }
        ensures here { price_at self.new key ≡ value }
        ensures others { (other : PriceKey) → IsKeyOf self.old other → other ≢ key
            → price_at self.new other ≡ price_at self.old other }
    {
        self.put(key, value);
    }

    /// Sets every price to 0.
    pub fn clear(&mut self)
        ensures size { (parts : Parts) → ArePricesOf parts self.old → ArePricesOf parts self.new }
        ensures free { AreFree self.new }
    {
        self.departures.clear();
        self.arrivals.clear();
        self.inside.clear();
        self.turns.clear();
    }

    /// Sets every price to that of other prices of the same scenario. It takes no memory.
    pub fn copy_from(&mut self, other: &Prices)
        requires { AreAlike self.old other.now }
        ensures { self.new ≡ other.now }
    {
        self.departures.copy_from(&other.departures);
        self.arrivals.copy_from(&other.arrivals);
        self.inside.copy_from(&other.inside);
        self.turns.copy_from(&other.turns);
    }

    /// The price that the key names.
    pub fn get(&self, key: PriceKey) -> u64
        requires { IsKeyOf self.now key }
        ensures price { result ≡ price_at self.now key }
        ensures small { result < 2 ^ 62 }
    {
        self.block(key.kind).get(key.row, key.period)
    }

    /// The prices of a place or a connection, by period.
    pub fn row(&self, kind: PriceKind, row: u32) -> &[u64]
        requires { row < (block_of kind self.now).rows }
        ensures length { length result.now ≡ (block_of kind self.now).periods }
        ensures prices { (t : ℕ) → t < (block_of kind self.now).periods
            → slice_index result.now t ≡ price_in (block_of kind self.now) row t }
        ensures small { All (λ price. price < 2 ^ 62) result.now }
    {
        self.block(kind).row(row)
    }
}
