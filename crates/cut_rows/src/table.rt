//! What is looked up of a scenario again and again.
ghost use Rattle.std.specs.Prelude.{IfOk};
ghost use Rattle.flow_types.specs.Scenario.{parts_of};
ghost use Rattle.cut_rows.specs.Table.{IsTableFor};

use crate::routes::Routes;
use bytime_model::{Columns, CostRow, Visits, linear_cost};
use flow_types::{OutOfMemory, Scenario};
use std::alloc::Global;

/// Positions of variables, the visits to the places, the distances of the flights, and the cost row
/// of a scenario: made once, and lent for each box.
#[derive(Debug)]
pub struct Table {
    pub columns: Columns,
    pub visits: Visits,
    pub routes: Routes,
    pub cost: CostRow,
}

// Written out, so that proofs see one call where a room is let go of.
impl Drop for Table {
    fn drop(self) {
        let Table {
            columns: _,
            visits: _,
            routes: _,
            cost: _,
        } = self;
    }
}

/// The table of the scenario. While it runs it takes the memory of a root box.
pub fn table_for(alloc: Global, s: &Scenario) -> Result<Table, OutOfMemory>
    ensures { IfOk result (IsTableFor (parts_of s.now)) }
{
    Ok(Table {
        columns: Columns::new(alloc, s)?,
        visits: Visits::new(alloc, s)?,
        routes: Routes::new(alloc, s)?,
        cost: linear_cost(alloc, s)?,
    })
}
