//! The legs of each flight by the node that they start from, 32 groups a flight.
ghost use Rattle.std.specs.Prelude.{◌≡◌, ◌+◌, ◌*◌, ◌++◌, ◌<◌, [], IfOk, OnOk, get_or};
ghost use Rattle.flow_types.specs.Limits.{most_nodes};
ghost use Rattle.flow_types.specs.Scenario.{parts_of};
ghost use Rattle.time_windows.specs.Held.{AreLegGroupsOf};
ghost use Rattle.time_windows.specs.Steps.{legs_of};

use crate::groups::Groups;
use flow_types::{Flight, Leg, MOST_NODES, OutOfMemory, Scenario};
use std::alloc::Global;

/// The legs of the scenario's flights.
pub fn leg_groups_of(alloc: Global, s: &Scenario) -> Result<Groups<Leg>, OutOfMemory>
    ensures { IfOk result (AreLegGroupsOf (parts_of s.now)) }
{
    let flights = s.flights();
    let mut leg_groups = Groups::new(alloc);
    for index in 0..flights.len() * MOST_NODES {
        let node = (index % MOST_NODES) as u16;
        add_legs(&mut leg_groups, &flights[index / MOST_NODES], node)?;
        leg_groups.close()?;
    }
    Ok(leg_groups)
}

// Adds the flight's legs from the node.
fn add_legs(leg_groups: &mut Groups<Leg>, flight: &Flight, node: u16) -> Result<(), OutOfMemory>
    ensures closed { leg_groups.new.closed ≡ leg_groups.old.closed }
    ensures added { OnOk result
        (leg_groups.new.pending ≡ leg_groups.old.pending ++ legs_of flight.now node) }
{
    for leg in flight.legs.items() {
        if leg.from == node {
            leg_groups.add(*leg)?;
        }
    }
    Ok(())
}

/// The legs from the flight's node, in the order of the text; none where there is no such node.
pub fn legs_from(leg_groups: &Groups<Leg>, flight: u32, node: u16) -> &[Leg]
    requires { node < most_nodes }
    ensures { result.now ≡ get_or leg_groups.now.closed (flight * most_nodes + node) [] }
{
    leg_groups.group(flight as usize * MOST_NODES + usize::from(node))
}
