//! What the ways of a flight go by.
ghost use Rattle.std.specs.Prelude.{◌≡◌, length};
ghost use Rattle.flow_types.specs.Limits.{most_nodes};
ghost use Rattle.flight_routes.specs.OneProof.{AreReady, AreReady-prop};

use crate::rates::RateTable;
use flow_types::Flight;
use time_windows::Access;

/// A flight, what a box says of each of its nodes, and what it pays on its way.
#[derive(Clone, Copy)]
pub struct Ways<'a> {
    pub flight: &'a Flight,
    pub accesses: &'a [Access],
    pub rates: &'a RateTable,
    pub ghost nodes: { length accesses.now ≡ most_nodes },
    pub ghost ready: { AreReady flight.now accesses.now rates.now } by { AreReady-prop _ _ _ },
}
