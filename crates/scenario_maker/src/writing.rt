//! The text of a scenario.
ghost use Rattle.std.specs.Prelude.{◌≡◌, IfOk};
ghost use Rattle.flow_types.specs.Scenario.{parts_of};
ghost use Rattle.scenario_maker.specs.Writing.{scenario_text};

use crate::places::{put_changes, put_day, put_places};
use crate::tables::put_tables;
use crate::traffic::put_traffic;
use flow_types::{OutOfMemory, Scenario};
use std::alloc::Global;

/// The text of the scenario: what is read as this scenario where the legs of each flight stand in
/// an order in which they can be read, and refused elsewhere (`written_scenarios_are_read`). It has
/// a line for each capacity that isn't that of period 0, so it may be longer than a text may be. It
/// takes memory for the text and for the digits of a number.
pub fn scenario_text(alloc: Global, s: &Scenario) -> Result<Vec<u8>, OutOfMemory>
    ensures { IfOk result (λ text. text.items ≡ scenario_text (parts_of s.now)) }
{
    let mut out = Vec::new(alloc);
    put_day(alloc, &mut out, s.day())?;
    put_places(alloc, &mut out, s.places())?;
    put_changes(alloc, &mut out, s.places())?;
    put_tables(alloc, &mut out, s.tables())?;
    put_traffic(alloc, &mut out, s)?;
    Ok(out)
}
