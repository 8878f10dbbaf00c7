//! The legs of a day, to be gone over flight by flight.
ghost use Rattle.flow_types.specs.Scenario.{parts_of};
ghost use Rattle.time_windows.specs.Held.{AreLegGroupsOf};

use crate::groups::Groups;
use flow_types::{Leg, Scenario};

/// A scenario, and its legs by flight and start.
#[derive(Clone, Copy)]
pub struct Network<'a> {
    pub s: &'a Scenario,
    pub leg_groups: &'a Groups<Leg>,
    pub ghost legs: { AreLegGroupsOf (parts_of s.now) leg_groups.now },
}
