//! What a plan and a trip cost.
ghost use Rattle.std.specs.Prelude.{◌≡◌, ◌<◌, ◌≤ℤ◌, length, neg_ℤ, pos};
ghost use Rattle.flow_types.specs.Limits.{most_trip_cost};
ghost use Rattle.flow_types.specs.Costs.{plan_cost, trip_cost_at};
ghost use Rattle.flow_types.specs.Feasible.{AreTrips};
ghost use Rattle.flow_types.specs.Scenario.{flight_at, parts_of};

use crate::trip_counts::{arrival_of, departure_of};
use flow_types::{Plan, Scenario, Stop};

/// The cost of the plan, each of whose trips is one of its flight: for each flight the total of
/// its arrival delay less the credit of its ground delay. It takes no memory.
pub fn cost(s: &Scenario, plan: &Plan) -> i64
    requires { AreTrips (parts_of s.now).day.periods (parts_of s.now).flights plan.now }
    ensures { result ≡ plan_cost (parts_of s.now).tables (parts_of s.now).flights plan.now }
{
    let trips = plan.items();
    let mut cost = 0i64;
    for at in 0..trips.len() {
        cost += trip_cost(s, at as u32, trips[at].items());
    }
    cost
}

/// The cost of a trip of the flight, which is one of the scenario's: the total of its arrival delay
/// less the credit of its ground delay, nothing where it has no stops. It takes no memory.
pub fn trip_cost(s: &Scenario, flight: u32, stops: &[Stop]) -> i64
    requires { flight < length (parts_of s.now).flights }
    ensures value { result
        ≡ trip_cost_at (parts_of s.now).tables (flight_at s.now flight) stops.now }
    ensures low { neg_ℤ (pos most_trip_cost) ≤ℤ result }
    ensures high { result ≤ℤ pos most_trip_cost }
{
    let Some(departure) = departure_of(stops) else {
        return 0;
    };
    let Some(arrival) = arrival_of(stops) else {
        return 0;
    };
    let details = &s.flights()[flight as usize];
    let paid = s.total(flight, arrival.saturating_sub(details.sa));
    let saved = s.credit(flight, departure.saturating_sub(details.sd));
    paid - saved
}
