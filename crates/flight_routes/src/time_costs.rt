//! What leaving and arriving in a period cost a flight, and its last node.
ghost use Rattle.std.specs.Prelude.{◌≡◌, ◌≤◌, ◌<◌, ◌+◌, IfSome, Some, length};
ghost use Rattle.flow_types.specs.Limits.{most_delay_cost, most_nodes};
ghost use Rattle.flow_types.specs.Scenario.{flight_at, parts_of};
ghost use Rattle.exact_sums.specs.Near.{IsNear};
ghost use Rattle.flight_routes.specs.TimeCosts.{credit_then, total_then};

use flow_types::{Flight, Scenario};

/// What the ground delay of a departure is credited: always something, as a rate that is there.
pub fn credit_then(s: &Scenario, flight: u32, time: u16) -> Option<i64>
    requires { flight < length (parts_of s.now).flights }
    ensures value { result
        ≡ Some (credit_then (parts_of s.now).tables (flight_at s.now flight) time) }
    ensures within { IfSome result (IsNear most_delay_cost) }
{
    let delay = time.saturating_sub(s.flights()[flight as usize].sd);
    Some(s.credit(flight, delay))
}

/// What the delay of an arrival costs: always something, as a rate that is there.
pub fn total_then(s: &Scenario, flight: u32, time: u16) -> Option<i64>
    requires { flight < length (parts_of s.now).flights }
    ensures value { result
        ≡ Some (total_then (parts_of s.now).tables (flight_at s.now flight) time) }
    ensures within { IfSome result (IsNear most_delay_cost) }
{
    let delay = time.saturating_sub(s.flights()[flight as usize].sa);
    Some(s.total(flight, delay))
}

/// The last node of the flight.
pub fn last_of(flight: &Flight) -> u16
    requires some { 2 ≤ length flight.now.nodes }
    requires few { length flight.now.nodes ≤ most_nodes }
    ensures { result + 1 ≡ length flight.now.nodes }
{
    (flight.nodes.items().len() - 1) as u16
}
