//! Prices that are put by, and taken back in the reverse of their order.
ghost use Rattle.flow_types.specs.Scenario.{parts_of};
ghost use Rattle.price_ascent.specs.Slopes.{AreSlopesFor, IsGood};

use crate::slopes::{Slope, set_price};
use flight_routes::Prices;
use flow_types::{OutOfMemory, Scenario};
use std::alloc::Global;

/// Prices of several boxes, put by one after the other: 16 bytes for each price that isn't 0, and
/// eight for each box, or up to twice that.
#[derive(Debug)]
pub struct KeptPrices {
    prices: Vec<KeptPrice>,
    // Where the prices of each box begin.
    begins: Vec<usize>,
}

// A price, and the position of the slope on which it is.
#[derive(Clone, Copy, Debug, PartialEq, Eq)]
struct KeptPrice {
    slope: usize,
    price: u64,
}

impl Drop for KeptPrices {
    fn drop(self) {
        let KeptPrices {
            prices: _,
            begins: _,
        } = self;
    }
}

impl KeptPrices {
    /// None yet. It takes no memory.
    pub fn new(alloc: Global) -> KeptPrices {
        KeptPrices {
            prices: Vec::new(alloc),
            begins: Vec::new(alloc),
        }
    }

    /// Forgets the prices that were put by last.
    pub fn forget(&mut self) {
        if let Some(begin) = self.begins.pop() {
            self.prices.truncate(begin);
        }
    }
}

/// Puts the prices by that may rise and aren't 0.
pub fn put_by(
    slopes: &[Slope],
    s: &Scenario,
    prices: &Prices,
    kept: &mut KeptPrices,
) -> Result<(), OutOfMemory>
    requires slopes { AreSlopesFor (parts_of s.now) slopes.now }
    requires prices { IsGood (parts_of s.now) prices.now }
{
    let begin = kept.prices.len();
    kept.begins.push(begin)?;
    for slope in 0..slopes.len() {
        let price = prices.get(slopes[slope].key);
        if price > 0 {
            kept.prices.push(KeptPrice { slope, price })?;
        }
    }
    Ok(())
}

/// Sets the prices that were put by last.
pub fn restore(slopes: &[Slope], s: &Scenario, kept: &KeptPrices, prices: &mut Prices)
    requires slopes { AreSlopesFor (parts_of s.now) slopes.now }
    requires prices { IsGood (parts_of s.now) prices.old }
    ensures { IsGood (parts_of s.now) prices.new }
{
    let begin = kept.begins.last().copied().unwrap_or(kept.prices.len());
    for at in begin..kept.prices.len() {
        let KeptPrice { slope, price } = kept.prices[at];
        if slope < slopes.len() {
            set_price(s, slopes[slope].key, price.min(1 << 60) as i64, prices);
        }
    }
}
