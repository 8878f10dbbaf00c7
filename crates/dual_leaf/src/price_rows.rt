//! The rows that prices are put on.
ghost use Rattle.std.specs.Prelude.{◌≡◌};
ghost use Rattle.flow_types.specs.Scenario.{parts_of};
ghost use Rattle.dual_leaf.specs.Lag.{is_priceable};
ghost use Rattle.dual_leaf.specs.PriceRows.{key_of, name_of};

use bytime_model::{RowName, is_row};
use flow_types::{CapKind, PriceKey, PriceKind, Scenario};

/// The row that a price is put on.
pub fn name_of(key: PriceKey) -> RowName
    ensures { result ≡ name_of key }
{
    let PriceKey { kind, row, period } = key;
    match kind {
        PriceKind::Capacity(CapKind::Dep) => RowName::Dep { place: row, period },
        PriceKind::Capacity(CapKind::Arr) => RowName::Arr { place: row, period },
        PriceKind::Capacity(CapKind::Sector) => RowName::Sector { place: row, period },
        PriceKind::Connection => RowName::Connect {
            connection: row,
            period,
        },
    }
}

/// What a price of the row is put on, if it may have one.
pub fn key_of(name: RowName) -> Option<PriceKey>
    ensures { result ≡ key_of name }
{
    let (kind, row, period) = match name {
        RowName::Dep { place, period } => (PriceKind::Capacity(CapKind::Dep), place, period),
        RowName::Arr { place, period } => (PriceKind::Capacity(CapKind::Arr), place, period),
        RowName::Sector { place, period } => (PriceKind::Capacity(CapKind::Sector), place, period),
        RowName::Connect { connection, period } => (PriceKind::Connection, connection, period),
        _ => return None,
    };
    Some(PriceKey { kind, row, period })
}

/// Whether the row is there, and may have a price: it is of a capacity or a connection. It takes no
/// memory.
pub fn is_priceable(s: &Scenario, row: RowName) -> bool
    ensures { result ≡ is_priceable (parts_of s.now) row }
{
    key_of(row).is_some() && is_row(s, row)
}
