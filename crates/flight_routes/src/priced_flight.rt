//! A flight under prices.
ghost use Rattle.std.specs.Prelude.{◌<◌, ◌^◌, length};
ghost use Rattle.flow_types.specs.Scenario.{parts_of};
ghost use Rattle.time_windows.specs.Turns.{AreTurnsOf};
ghost use Rattle.flight_routes.specs.Prices.{ArePricesOf};

use crate::prices::Prices;
use flow_types::Scenario;
use time_windows::Turns;

/// A flight with its connections, under prices beside which its cost weighs so much.
#[derive(Clone, Copy)]
pub struct PricedFlight<'a> {
    pub s: &'a Scenario,
    pub flight: u32,
    pub turns: &'a Turns,
    pub prices: &'a Prices,
    pub weight: u64,
    pub ghost there: { flight < length (parts_of s.now).flights },
    pub ghost connected: { AreTurnsOf (parts_of s.now) turns.now },
    pub ghost priced: { ArePricesOf (parts_of s.now) prices.now },
    pub ghost light: { weight < 2 ^ 62 },
}
