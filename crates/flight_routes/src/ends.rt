//! What a trip takes at its two ends.
ghost use Rattle.std.specs.Prelude.{◌≡◌};
ghost use Rattle.flight_routes.specs.Ends.{airport_at, kind_at};

use flow_types::{CapKind, Flight};
use time_windows::End;

/// The airport at this end of the flight.
pub fn airport_at(end: End, flight: &Flight) -> u32
    ensures { result ≡ airport_at end flight.now }
{
    match end {
        End::Departure => flight.from,
        End::Arrival => flight.to,
    }
}

/// The kind of capacity that it takes there.
pub fn kind_at(end: End) -> CapKind
    ensures { result ≡ kind_at end }
{
    match end {
        End::Departure => CapKind::Dep,
        End::Arrival => CapKind::Arr,
    }
}
