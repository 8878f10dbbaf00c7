//! What prices are put on, by kinds.
ghost use Rattle.std.specs.Prelude.{◌≡◌};
ghost use Rattle.flow_types.specs.Scenario.{parts_of};
ghost use Rattle.flight_routes.specs.Prices.{row_count};
ghost use Rattle.priced_plans.specs.Keys.{IsKeyFor, has_limit, price_kinds};

use flow_types::{CapKind, PriceKey, PriceKind, Scenario, has_kind};

/// The kinds of prices, in their order.
pub fn price_kinds() -> [PriceKind; 4]
    ensures { result ≡ price_kinds }
{
    [
        PriceKind::Capacity(CapKind::Dep),
        PriceKind::Capacity(CapKind::Arr),
        PriceKind::Capacity(CapKind::Sector),
        PriceKind::Connection,
    ]
}

/// How many rows of prices of a kind there are: places, or connections.
pub fn row_count(s: &Scenario, kind: PriceKind) -> usize
    ensures { result ≡ row_count (parts_of s.now) kind }
{
    match kind {
        PriceKind::Capacity(_) => s.places().len(),
        PriceKind::Connection => s.connections().len(),
    }
}

/// Whether a price may be put on it: on a capacity that is there, or a connection. The key is of
/// the scenario.
pub fn has_limit(s: &Scenario, key: PriceKey) -> bool
    requires { IsKeyFor (parts_of s.now) key }
    ensures { result ≡ has_limit (parts_of s.now) key }
{
    match key.kind {
        PriceKind::Capacity(kind) => has_kind(kind, s.places(), key.row),
        PriceKind::Connection => true,
    }
}
