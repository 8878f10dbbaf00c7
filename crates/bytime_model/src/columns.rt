//! A position for each variable that a tight box may leave free.
ghost use Rattle.std.specs.Prelude.{◌≡◌, ◌≤◌, ◌<◌, ◌+◌, ◌-◌, ◌*◌, ◌^◌, IfOk, OnOk, length, slice_get, if◌then◌else◌};
ghost use Rattle.flow_types.specs.Limits.{most_nodes};
ghost use Rattle.flow_types.specs.Scenario.{parts_of};
ghost use Rattle.time_windows.specs.Held.{IsMadeFor, box_of};
ghost use Rattle.bytime_model.specs.Columns.{AreColumnsOf, AreColumnsTo, column_at, end_of, latest_end, stays_from};

use crate::rows::has_inside;
use crate::variables::Var;
use flow_types::{Leg, MOST_NODES, OutOfMemory, Scenario};
use std::alloc::Global;
use std::marker::Model;
use time_windows::{Boxes, Window};

/// The positions of a node's variables, one after the other: those of entering the node from its
/// first open period on, then those of being inside.
#[derive(Clone, Copy, Debug, PartialEq, Eq)]
pub struct Column {
    /// The first of the positions.
    pub start: usize,
    /// The first open period.
    pub first: u16,
    /// How many periods of entering have a position, and of being inside.
    pub width: u32,
    pub stays: u32,
}

impl Column {
    ghost use Rattle.std.specs.Prelude.{◌≡◌, ◌<◌, ◌+◌, ◌-◌, ◌^◌};

    // The position of entering the node by the period.
    fn entering(&self, time: u16) -> usize
        requires { self.now.start + (time - self.now.first) < 2 ^ 64 }
        ensures { result ≡ self.now.start + (time - self.now.first) }
    {
        self.start + usize::from(time.saturating_sub(self.first))
    }

    // The position of being inside the node in the period.
    fn staying(&self, time: u16) -> usize
        requires { self.now.start + self.now.width + (time - self.now.first) < 2 ^ 64 }
        ensures { result ≡ self.now.start + self.now.width + (time - self.now.first) }
    {
        self.start + self.width as usize + usize::from(time.saturating_sub(self.first))
    }
}

// A column without positions.
const NO_COLUMN: Column = Column {
    start: 0,
    first: 0,
    width: 0,
    stays: 0,
};

/// The columns of all nodes, 32 a flight, of 24 bytes each.
#[derive(Debug, Drop)]
pub struct Columns {
    columns: Vec<Column>,
    // How many positions there are.
    count: usize,
}

impl Model for Columns {
    ghost use Rattle.bytime_model.specs.Columns.{Numbering};

    ghost Value = { Numbering };

    ghost view = { λ c. record { columns = c.columns.items; count = c.count } };
}

impl Columns {
    ghost use Rattle.std.specs.Prelude.{◌≡◌, ◌<◌, ◌≤◌, ◌+◌, ◌*◌, ◌^◌, IfOk, OnOk, length, slice_index_or};
    ghost use Rattle.flow_types.specs.Limits.{most_nodes};
    ghost use Rattle.flow_types.specs.Scenario.{parts_of};
    ghost use Rattle.time_windows.specs.Held.{IsMadeFor, box_of};
    ghost use Rattle.bytime_model.specs.Columns.{AreColumnsOf, AreColumnsTo, AreTaken, no_column, position_of};

    /// The columns of the scenario's flights: a position for what the tight root box leaves free.
    /// While it runs it takes the memory of a root box.
    #[tactic(auto, using(crate::proofs::NumberFacts::numbered, crate::proofs::DenseFacts::all_taken))]
    pub fn new(alloc: Global, s: &Scenario) -> Result<Columns, OutOfMemory>
        ensures numbered { IfOk result (AreColumnsOf (parts_of s.now)) }
        ensures taken { IfOk result (AreTaken (parts_of s.now)) }
    {
        let mut root = Boxes::root(alloc, s)?;
        root.tighten(s);
        let columns = columns_of(alloc, s, &root)?;
        Ok(columns)
    }

    /// How many positions there are.
    pub fn count(&self) -> usize
        ensures { result ≡ self.now.count }
    {
        self.count
    }

    /// The position of a variable that has one.
    pub fn position(&self, variable: Var) -> usize
        requires { position_of self.now.columns variable < 2 ^ 64 }
        ensures { result ≡ position_of self.now.columns variable }
    {
        match variable {
            Var::By { flight, node, time } => self.column(flight, node).entering(time),
            Var::Inside { flight, node, time } => self.column(flight, node).staying(time),
        }
    }

    // The column of the node: one without positions where it isn't there.
    fn column(&self, flight: u32, node: u16) -> Column
        ensures { result ≡ slice_index_or self.now.columns (flight * most_nodes + node) no_column }
    {
        let index = flight as usize * MOST_NODES + usize::from(node);
        match self.columns.get(index) {
            None => NO_COLUMN,
            Some(column) => *column,
        }
    }

    // Adds the column of the next node.
    #[tactic(auto, using(crate::proofs::ColumnFacts::one_more))]
    fn add(&mut self, s: &Scenario, boxes: &Boxes, index: usize) -> Result<(), OutOfMemory>
        requires made { IsMadeFor (parts_of s.now) boxes.now }
        requires index { index < 2 ^ 32 }
        requires before { AreColumnsTo (parts_of s.now).flights (box_of boxes.now) index self.old }
        ensures { OnOk result (AreColumnsTo (parts_of s.now).flights (box_of boxes.now)
            (index + 1) self.new) }
    {
        let flight = (index / MOST_NODES) as u32;
        let node = (index % MOST_NODES) as u16;
        let column = column_at(s, boxes, flight, node, self.count);
        self.columns.push(column)?;
        self.count += column.width as usize + column.stays as usize;
        Ok(())
    }
}

// The columns of all flights in the box.
#[tactic(auto, using(crate::proofs::ColumnFacts::none_yet))]
fn columns_of(alloc: Global, s: &Scenario, boxes: &Boxes) -> Result<Columns, OutOfMemory>
    requires { IsMadeFor (parts_of s.now) boxes.now }
    ensures { IfOk result (AreColumnsTo (parts_of s.now).flights (box_of boxes.now)
        (length (parts_of s.now).flights * most_nodes)) }
{
    let count = s.flights().len() * MOST_NODES;
    let mut columns = Columns {
        columns: Vec::with_capacity(alloc, count)?,
        count: 0,
    };
    for index in 0..count {
        columns.add(s, boxes, index)?;
    }
    Ok(columns)
}

// The column of a node, whose positions begin at this one.
fn column_at(s: &Scenario, boxes: &Boxes, flight: u32, node: u16, start: usize) -> Column
    requires made { IsMadeFor (parts_of s.now) boxes.now }
    requires node { node < most_nodes }
    ensures column { result ≡ column_at (parts_of s.now).flights (box_of boxes.now) flight node
        start }
    ensures few { result.width + result.stays ≤ 2 ^ 17 }
{
    let access = boxes.access(flight, node);
    match access.window {
        None => Column { start, ..NO_COLUMN },
        Some(window) => Column {
            start,
            first: window.lo,
            width: width_of(window, access.must),
            stays: stays_from(s, boxes, flight, node, window.lo),
        },
    }
}

// How many of the window's periods are open: the last one is known, where the node must be entered.
fn width_of(window: Window, must: bool) -> u32
    requires { window.lo ≤ window.hi }
    ensures width { result ≡ window.hi + 1 - window.lo - (if must then 1 else 0) }
    ensures few { result ≤ 2 ^ 16 }
{
    let periods = u32::from(window.hi) + 1 - u32::from(window.lo);
    if must { periods - 1 } else { periods }
}

// How many periods of being inside are open, from the first one on.
fn stays_from(s: &Scenario, boxes: &Boxes, flight: u32, node: u16, first: u16) -> u32
    requires made { IsMadeFor (parts_of s.now) boxes.now }
    requires node { node < most_nodes }
    ensures stays { result ≡ stays_from (slice_get (parts_of s.now).flights flight)
        (box_of boxes.now flight) node first }
    ensures few { result < 2 ^ 16 }
{
    if !has_inside(s, flight, node) {
        return 0;
    }
    u32::from(latest_end(boxes, flight, boxes.legs_from(flight, node)).saturating_sub(first))
}

// The latest end of the windows that the legs lead to.
fn latest_end(boxes: &Boxes, flight: u32, legs: &[Leg]) -> u16
    ensures { result ≡ latest_end (box_of boxes.now flight) legs.now 0 }
{
    let mut latest = 0;
    for leg in legs {
        latest = latest.max(end_of(boxes.window(flight, leg.to)));
    }
    latest
}

// The end of a window.
fn end_of(window: Option<Window>) -> u16
    ensures { result ≡ end_of window }
{
    match window {
        None => 0,
        Some(window) => window.hi,
    }
}
