//! The least way of a flight, in room that is made once.
use crate::cost::Cost;
use crate::fill::fill_nodes;
use crate::rates::{CELLS, PERIODS, no_costs};
use crate::starts::least_cost;
use crate::trace::trace;
use crate::ways::Ways;
use flow_types::{OutOfMemory, Stop};
use std::alloc::Global;
use std::marker::Model;

/// The least cost of the ways on from each stop of one flight, in room that is made once. Contracts
/// see it as its cells.
#[derive(Debug)]
pub struct Table {
    cells: Vec<Cost>,
    row: Vec<Cost>,
}

impl Drop for Table {
    fn drop(self) {
        let Table { cells: _, row: _ } = self;
    }
}

impl Model for Table {
    ghost use Rattle.std.specs.Prelude.{◌≡◌, ◌*◌, List, Option, ℤ, length};
    ghost use Rattle.flow_types.specs.Limits.{most_nodes, most_periods};

    ghost Value = { List (Option ℤ) };

    ghost view = { λ a. a.cells.items };

    ghost invariant = { λ a. (length a.cells.items ≡ most_nodes * most_periods)
        × (length a.row.items ≡ most_periods) };
}

impl Table {
    ghost use Rattle.std.specs.Prelude.{◌≡◌, ◌≤◌, IsSome, length, vec_capacity};
    ghost use Rattle.exact_sums.specs.Leasts.{IsFirstLeast, IsLeast};
    ghost use Rattle.flow_types.specs.Limits.{most_nodes};
    ghost use Rattle.flight_routes.specs.TripOrder.{IsNoLater};
    ghost use Rattle.flight_routes.specs.WayParts.{AreCellsIn, IsWayIn, cost_in};

    /// A table of no flight. It is all the memory that the least ways take.
    pub fn new(alloc: Global) -> Result<Table, OutOfMemory> {
        Ok(Table {
            cells: no_costs(alloc, CELLS)?,
            row: no_costs(alloc, PERIODS)?,
        })
    }

    /// The least cost of the flight's ways through a row of accesses, nothing where there is no
    /// way. The table is then of the flight.
    pub fn least_way(&mut self, ways: Ways<'_>) -> Cost
        ensures least { IsLeast (IsWayIn ways.entry) (cost_in ways.entry) result }
        ensures cells { AreCellsIn ways.entry 0 self.new }
    {
        fill_nodes(ways, &mut self.row, &mut self.cells);
        least_cost(ways, &self.cells)
    }

    /// Puts the stops of the first of the least ways into a vector that has room for them, where
    /// there is one. The table is of the flight.
    pub fn trace(&self, ways: Ways<'_>, least: Cost, stops: &mut Vec<Stop>)
        requires cells { AreCellsIn ways 0 self.now }
        requires least { IsLeast (IsWayIn ways) (cost_in ways) least }
        requires some { IsSome least }
        requires room { most_nodes ≤ vec_capacity stops.old }
        ensures first { IsFirstLeast (IsWayIn ways.entry) (cost_in ways.entry) IsNoLater
            stops.new.items }
        ensures room { most_nodes ≤ vec_capacity stops.new }
    {
        trace(ways, &self.cells, least, stops);
    }
}
