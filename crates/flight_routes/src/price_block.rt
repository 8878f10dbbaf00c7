//! Prices by row and period.
ghost use Rattle.std.specs.Prelude.{◌≡◌, ℕ, length, slice_index};

use std::alloc::{AllocError, Global};
use std::marker::Model;

/// A price for each row and each period, in one block of eight bytes each.
#[derive(Debug, Drop)]
pub struct PriceBlock {
    rows: usize,
    periods: u16,
    prices: Vec<u64>,
}

impl Model for PriceBlock {
    ghost use Rattle.std.specs.Prelude.{◌≡◌, ◌*◌, ◌^◌, ◌<◌, All, length};
    ghost use Rattle.flight_routes.specs.Prices.{Block};

    ghost Value = { Block };

    ghost view = { λ a. record { rows = a.rows; periods = a.periods; prices = a.prices.items } };

    ghost invariant = { λ a. (length a.prices.items ≡ a.rows * a.periods)
        × All (λ price. price < 2 ^ 62) a.prices.items };
}

impl PriceBlock {
    ghost use Rattle.std.specs.Prelude.{◌≡◌, ◌*◌, ◌^◌, ◌<◌, ℕ, All, IfOk, length, slice_index};
    ghost use Rattle.flight_routes.specs.Prices.{IsPlaceIn, IsSized, SetsPrice, price_in};

    /// A block of zeros.
    pub fn new(alloc: Global, rows: usize, periods: u16) -> Result<PriceBlock, AllocError>
        requires { rows * periods < 2 ^ 64 }
        ensures size { IfOk result (IsSized rows periods) }
        ensures zeros { IfOk result (λ block. (k t : ℕ) → price_in block k t ≡ 0) }
    {
        Ok(PriceBlock {
            rows,
            periods,
            prices: vec![in alloc; 0; rows * usize::from(periods)]?,
        })
    }

    /// The price of the row in the period.
    pub fn get(&self, row: u32, period: u16) -> u64
        requires { IsPlaceIn self.now row period }
        ensures price { result ≡ price_in self.now row period }
        ensures small { result < 2 ^ 62 }
    {
        self.prices[row as usize * usize::from(self.periods) + usize::from(period)]
    }

    /// The prices of the row, period by period.
    pub fn row(&self, row: u32) -> &[u64]
        requires { row < self.now.rows }
        ensures length { length result.now ≡ self.now.periods }
        ensures prices { (t : ℕ) → t < self.now.periods
            → slice_index result.now t ≡ price_in self.now row t }
        ensures small { All (λ price. price < 2 ^ 62) result.now }
    {
        let start = row as usize * usize::from(self.periods);
        &self.prices[start..start + usize::from(self.periods)]
    }

    /// Sets the price of the row in the period.
    pub fn set(&mut self, row: u32, period: u16, price: u64)
        requires place { IsPlaceIn self.old row period }
        requires price { price < 2 ^ 62 }
        ensures { SetsPrice row period price self.old self.new }
    {
        self.prices[row as usize * usize::from(self.periods) + usize::from(period)] = price;
    }

    /// Sets every price to zero.
    pub fn clear(&mut self)
        ensures size { IsSized self.old.rows self.old.periods self.new }
        ensures zeros { (k t : ℕ) → price_in self.new k t ≡ 0 }
    {
        clear_all(&mut self.prices);
    }

    /// Sets every price to that of another block of the same size.
    pub fn copy_from(&mut self, other: &PriceBlock)
        requires { IsSized other.now.rows other.now.periods self.old }
        ensures { self.new ≡ other.now }
    {
        self.prices.copy_from_slice(&other.prices);
    }
}

// Sets each number to zero.
fn clear_all(prices: &mut [u64])
    ensures length { length prices.new ≡ length prices.old }
    ensures zeros { (k : ℕ) → slice_index prices.new k ≡ 0 }
{
    for price in prices.iter_mut() {
        *price = 0;
    }
}
