//! How often trips use what a price is put on.
ghost use Rattle.std.specs.Prelude.{◌≡◌, List, true};
ghost use Rattle.flow_types.specs.declared.plan.Stop.{Stop};
ghost use Rattle.flow_types.specs.Scenario.{parts_of};
ghost use Rattle.plan_rules.specs.Loads.{AreLoads, IsMadeFor};
ghost use Rattle.priced_plans.specs.Keys.{IsKeyFor, has_limit};
ghost use Rattle.priced_plans.specs.Usage.{is_by, limit, traffic_in, traffic_of, used};

use flow_types::{PriceKey, PriceKind, Scenario, capacity_at};
use plan_rules::Loads;

/// How often something is used that a price is put on, and how often it may be.
#[derive(Clone, Copy, Debug, PartialEq, Eq)]
pub struct Usage {
    pub used: u32,
    pub limit: u32,
}

/// How often the trips that are counted use it: of a capacity in a period, how many flights depart,
/// arrive or are inside, of so many that may; of a connection, 1 where its second flight has
/// departed by the period, of 1 where the first has arrived the turnaround before it.
///
/// The loads and the key are of the scenario, and the key is of a capacity that is there or of a
/// connection. It takes no memory.
pub fn usage_of(s: &Scenario, loads: &Loads, key: PriceKey) -> Usage
    requires loads { IsMadeFor (parts_of s.now) loads.now }
    requires key { IsKeyFor (parts_of s.now) key }
    requires limit { has_limit (parts_of s.now) key ≡ true }
    ensures used { result.used ≡ used (parts_of s.now) (traffic_in loads.now) key }
    ensures limit { result.limit ≡ limit (parts_of s.now) (traffic_in loads.now) key }
    ensures trips { (trips : List (List Stop)) → AreLoads (parts_of s.now) trips loads.now
        → (result.used ≡ used (parts_of s.now) (traffic_of (parts_of s.now) trips) key)
        × (result.limit ≡ limit (parts_of s.now) (traffic_of (parts_of s.now) trips) key) }
{
    loads_usage(s, loads, key)
}

// How often the loads say that it is used, and how often it may be.
fn loads_usage(s: &Scenario, loads: &Loads, key: PriceKey) -> Usage
    requires loads { IsMadeFor (parts_of s.now) loads.now }
    requires key { IsKeyFor (parts_of s.now) key }
    ensures used { result.used ≡ used (parts_of s.now) (traffic_in loads.now) key }
    ensures limit { result.limit ≡ limit (parts_of s.now) (traffic_in loads.now) key }
{
    let PriceKey { kind, row, period } = key;
    match kind {
        PriceKind::Capacity(kind) => Usage {
            used: loads.load(kind, row, period),
            limit: capacity_at(s.places(), kind, row, period),
        },
        PriceKind::Connection => {
            let connection = &s.connections()[row as usize];
            Usage {
                used: is_by(loads.departure(connection.second), 0, period),
                limit: is_by(
                    loads.arrival(connection.first),
                    connection.turnaround,
                    period,
                ),
            }
        }
    }
}

// 1 where a time, and so long after it, is no later than the period; 0 elsewhere, and where there
// is no time.
fn is_by(time: Option<u16>, after: u16, period: u16) -> u32
    ensures { result ≡ is_by time after period }
{
    match time {
        None => 0,
        Some(time) => u32::from(u32::from(time) + u32::from(after) <= u32::from(period)),
    }
}
