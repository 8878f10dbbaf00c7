//! The records of flights, with those of their connections.
ghost use Rattle.std.specs.Prelude.{◌≡◌, ◌++◌, OnOk};
ghost use Rattle.flow_types.specs.Scenario.{parts_of};
ghost use Rattle.scenario_maker.specs.Writing.{rows_text, traffic_rows};

use crate::connections::put_standing;
use crate::flights::put_flight;
use flow_types::{Connection, CostTable, Flight, OutOfMemory, Place, Scenario};
use std::alloc::Global;

/// Adds the lines of each flight, and behind it those of the connections that can stand there. As
/// with `put`, nothing is said of the text after `OutOfMemory`.
pub fn put_traffic(alloc: Global, out: &mut Vec<u8>, s: &Scenario) -> Result<(), OutOfMemory>
    ensures { OnOk result (out.new.items ≡ out.old.items
        ++ rows_text (traffic_rows (parts_of s.now).places (parts_of s.now).tables
        (parts_of s.now).flights 0 (parts_of s.now).flights (parts_of s.now).connections)) }
{
    put_all(
        alloc,
        out,
        s.places(),
        s.tables(),
        s.flights(),
        s.connections(),
    )
}

// Adds the lines of these flights and connections.
fn put_all(
    alloc: Global,
    out: &mut Vec<u8>,
    places: &[Place],
    tables: &[CostTable],
    flights: &[Flight],
    connections: &[Connection],
) -> Result<(), OutOfMemory>
    ensures { OnOk result (out.new.items ≡ out.old.items
        ++ rows_text (traffic_rows places.now tables.now flights.now 0 flights.now
        connections.now)) }
{
    let mut waiting = connections;
    for k in 0..flights.len() {
        put_flight(alloc, out, places, tables, &flights[k])?;
        waiting = put_standing(alloc, out, flights, waiting, k + 1)?;
    }
    Ok(())
}
