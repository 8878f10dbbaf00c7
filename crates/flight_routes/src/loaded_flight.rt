//! A flight beside the trips of others.
ghost use Rattle.std.specs.Prelude.{◌<◌, length};
ghost use Rattle.flow_types.specs.Scenario.{parts_of};
ghost use Rattle.plan_rules.specs.Loads.{IsMadeFor};
ghost use Rattle.time_windows.specs.Turns.{AreTurnsOf};

use flow_types::Scenario;
use plan_rules::Loads;
use time_windows::Turns;

/// A flight with its connections, beside the trips that the loads count.
#[derive(Clone, Copy)]
pub struct LoadedFlight<'a> {
    pub s: &'a Scenario,
    pub flight: u32,
    pub turns: &'a Turns,
    pub loads: &'a Loads,
    pub ghost there: { flight < length (parts_of s.now).flights },
    pub ghost connected: { AreTurnsOf (parts_of s.now) turns.now },
    pub ghost loaded: { IsMadeFor (parts_of s.now) loads.now },
}
