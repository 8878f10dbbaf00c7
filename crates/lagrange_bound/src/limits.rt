//! Whether loads pass a limit.
ghost use Rattle.std.specs.Prelude.{◌<◌, IsTrue};
ghost use Rattle.flow_types.specs.Scenario.{parts_of};
ghost use Rattle.flight_routes.specs.Prices.{row_count};
ghost use Rattle.plan_rules.specs.Loads.{IsMadeFor};
ghost use Rattle.priced_plans.specs.Keys.{IsKeyFor};
ghost use Rattle.priced_plans.specs.Usage.{traffic_in};
ghost use Rattle.lagrange_bound.specs.Limits.{AreWithin, IsKindWithin, IsRowWithin, IsWithin};

use flow_types::{CapKind, PriceKey, PriceKind, Scenario};
use plan_rules::Loads;
use priced_plans::{has_limit, row_count, usage_of};

/// Whether the trips that the loads count use nothing more often than it may be used: no capacity,
/// and no connection.
#[tactic(auto, using(crate::proofs::FreeFacts::all_within))]
pub fn are_within(s: &Scenario, loads: &Loads) -> bool
    requires loads { IsMadeFor (parts_of s.now) loads.now }
    ensures { IsTrue result → AreWithin (parts_of s.now) (traffic_in loads.now) }
{
    is_kind_within(s, loads, PriceKind::Capacity(CapKind::Dep))
        && is_kind_within(s, loads, PriceKind::Capacity(CapKind::Arr))
        && is_kind_within(s, loads, PriceKind::Capacity(CapKind::Sector))
        && is_kind_within(s, loads, PriceKind::Connection)
}

// Whether nothing of this kind.
fn is_kind_within(s: &Scenario, loads: &Loads, kind: PriceKind) -> bool
    requires loads { IsMadeFor (parts_of s.now) loads.now }
    ensures { IsTrue result → IsKindWithin (parts_of s.now) (traffic_in loads.now) kind }
{
    for row in 0..row_count(s, kind) {
        if !is_row_within(s, loads, kind, row as u32) {
            return false;
        }
    }
    true
}

// Whether nothing in this row.
fn is_row_within(s: &Scenario, loads: &Loads, kind: PriceKind, row: u32) -> bool
    requires loads { IsMadeFor (parts_of s.now) loads.now }
    requires row { row < row_count (parts_of s.now) kind }
    ensures { IsTrue result → IsRowWithin (parts_of s.now) (traffic_in loads.now) kind row }
{
    for period in 0..s.day().periods {
        if !is_within(s, loads, PriceKey { kind, row, period }) {
            return false;
        }
    }
    true
}

// Whether this isn't.
fn is_within(s: &Scenario, loads: &Loads, key: PriceKey) -> bool
    requires loads { IsMadeFor (parts_of s.now) loads.now }
    requires key { IsKeyFor (parts_of s.now) key }
    ensures { IsTrue result
        → IsWithin (parts_of s.now) (traffic_in loads.now) key.kind key.row key.period }
{
    if has_limit(s, key) {
        let usage = usage_of(s, loads, key);
        usage.used <= usage.limit
    } else {
        true
    }
}
