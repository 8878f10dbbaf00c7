//! The bounds of leaves.
ghost use Rattle.std.specs.Prelude.{◌≡◌, IfOk, length};
ghost use Rattle.flow_types.specs.Scenario.{parts_of};
ghost use Rattle.flight_routes.specs.Prices.{ArePricesOf};
ghost use Rattle.flight_routes.specs.Work.{IsWorkFor};
ghost use Rattle.time_windows.specs.Held.{IsMadeFor, box_of};
ghost use Rattle.bytime_model.specs.Multipliers.{HasRange};
ghost use Rattle.cut_rows.specs.Relaxations.{box_under, parts_under};
ghost use Rattle.dual_leaf.specs.Leaf.{IsDualAnswer, IsLagAnswer, IsNearPriced};
ghost use Rattle.time_windows.specs.Plans.{IsBoundIn};
ghost use Rattle.flow_types.specs.Bounds.{IsNearBound};

use crate::bound::answer_of;
use crate::fault::LeafFault;
use crate::lag::lag_answer;
use crate::options::first_closed;
use crate::plain::{empty_bound, unit_bound};
use branch_tree::Leaf;
use bytime_model::{Multiplier, RowBuffer};
use cut_rows::{Pool, Relaxation, Table, table_for};
use dual_sums::{Sums, dual_value};
use flight_routes::{Prices, Work};
use flow_types::{Bound, OutOfMemory, Scenario};
use plan_rules::Loads;
use std::alloc::Global;
use std::marker::Model;
use time_windows::{Boxes, Subproblem};

/// The room in which leaves get their bounds, made once for a scenario.
#[derive(Debug)]
pub struct LeafWork {
    table: Table,
    sums: Sums,
    buffer: RowBuffer,
    // For least trips under prices, and for the plan of a unit box.
    work: Work,
    prices: Prices,
    loads: Loads,
}

// Written out, so that proofs see one call where a room is let go of.
impl Drop for LeafWork {
    fn drop(self) {
        let LeafWork {
            table: _,
            sums: _,
            buffer: _,
            work: _,
            prices: _,
            loads: _,
        } = self;
    }
}

impl Model for LeafWork {
    ghost use Rattle.dual_leaf.specs.Work.{Room};

    ghost Value = { Room };

    ghost view = { λ a. record {
      table = a.table;
      sums = a.sums;
      work = a.work;
      prices = a.prices;
      loads = a.loads;
    } };
}

impl LeafWork {
    ghost use Rattle.std.specs.Prelude.{◌≡◌, IfOk};
    ghost use Rattle.flow_types.specs.Scenario.{parts_of};
    ghost use Rattle.time_windows.specs.Held.{IsMadeFor, box_of};
    ghost use Rattle.time_windows.specs.Tight.{IsTight};
    ghost use Rattle.branch_tree.specs.Leaves.{IsInRange};
    ghost use Rattle.dual_leaf.specs.Leaf.{IsLeafBound, IsNearOf};
    ghost use Rattle.time_windows.specs.Plans.{IsBoundIn};
    ghost use Rattle.dual_leaf.specs.Work.{IsRoomFor};

    /// Room for the leaves of the scenario: 20 bytes for each variable that the tight root box
    /// leaves free, 24 for each of 32 nodes a flight and for each period that a flight may be late
    /// or wait, the visits to its places, the distances of its flights, loads, prices, and 1.1 MB.
    /// While it runs it takes the memory of a root box.
    pub fn new(alloc: Global, s: &Scenario) -> Result<LeafWork, OutOfMemory>
        ensures { IfOk result (IsRoomFor (parts_of s.now)) }
    {
        let table = table_for(alloc, s)?;
        let sums = Sums::new(alloc, table.columns.count())?;
        Ok(LeafWork {
            table,
            sums,
            buffer: RowBuffer::new(alloc)?,
            work: Work::new(alloc, s)?,
            prices: Prices::new(alloc, s)?,
            loads: Loads::new(alloc, s)?,
        })
    }

    /// The scenario's table, for whoever makes programs of boxes.
    pub fn table(&self) -> &Table
        ensures { result.now ≡ self.now.table }
    {
        &self.table
    }

    /// The bound of the leaf on the box: no plan in the box that keeps every rule costs less, and
    /// with `NoPlan` there is none. The box is a tight one of the scenario that the room was made
    /// for; the leaf's weight and multipliers are below 2^62, and it has fewer than 2^32 of these.
    /// A Dual leaf may name cuts of the pool by their positions.
    ///
    /// An Empty leaf has `NoPlan`, and a Unit leaf what the one plan costs that may be in the box,
    /// or `NoPlan` where that breaks a rule. A Dual leaf has its value divided by its weight and
    /// rounded up: the value is the least, over all values 0 or 1 that the box leaves the
    /// variables, of the weight times the cost plus each multiplier times what its row is above its
    /// limit (the Lagrangian dual). A Lag leaf has a value divided and rounded up so too, by whole
    /// trips: its multipliers are prices on capacities and connections, and the value is what the
    /// least trips of all flights cost, times the weight, and pay, less what all capacities would
    /// pay; where a flight has no trip in the box it has `NoPlan`. The last multiplier of a row
    /// counts. With the weight 0 a value above 0 gives `NoPlan`.
    ///
    /// The bound is nearer to 0 than 2^115, that of a Lag leaf than 2^124.
    ///
    /// The fault is the first of those that `LeafFault` lists. It takes no memory, and time for
    /// each node; for a Dual leaf also for each period by which a flight may be late or wait, and
    /// for the rows that the leaf names; for a Unit or a Lag leaf as a least trip for each flight,
    /// and for a Lag leaf for each price.
    pub fn leaf_bound(
        &mut self,
        s: &Scenario,
        pool: &Pool,
        boxes: &Boxes,
        leaf: &Leaf,
    ) -> Result<Bound, LeafFault>
        requires made { IsRoomFor (parts_of s.now) self.old }
        requires boxes { IsMadeFor (parts_of s.now) boxes.now }
        requires tight { IsTight (parts_of s.now) (box_of boxes.now) }
        requires range { IsInRange leaf.now }
        ensures bound { IsLeafBound (parts_of s.now) pool.now (box_of boxes.now) leaf.now result }
        ensures sound { IfOk result (IsBoundIn (parts_of s.now) (box_of boxes.now)) }
        ensures near { IfOk result (IsNearOf leaf.now) }
        ensures made { IsRoomFor (parts_of s.now) self.new }
    {
        match leaf {
            Leaf::Empty => empty_bound(s, boxes),
            Leaf::Unit => unit_bound(&mut self.work, &mut self.loads, s, boxes),
            Leaf::Dual { weight, rows } => {
                let relaxation = Relaxation::of(s, boxes, &self.table, pool);
                dual_bound(
                    &mut self.sums,
                    &mut self.buffer,
                    relaxation,
                    *weight,
                    rows.items(),
                )
            }
            Leaf::Lag { weight, rows } => lag_bound(
                &mut self.work,
                &mut self.prices,
                s,
                boxes,
                *weight,
                rows.items(),
            ),
        }
    }
}

// The bound of a Dual leaf.
#[tactic(auto, using(crate::proofs::RoundFacts::within_near))]
fn dual_bound(
    sums: &mut Sums,
    buffer: &mut RowBuffer,
    relaxation: Relaxation<'_>,
    weight: u64,
    rows: &[Multiplier],
) -> Result<Bound, LeafFault>
    requires positions { length sums.old.factors ≡ relaxation.table.now.columns.count }
    requires range { HasRange weight rows.now }
    ensures bound { IsDualAnswer (parts_under relaxation.entry) relaxation.entry.pool.now
        (box_under relaxation.entry) weight rows.now result }
    ensures sound { IfOk result (IsBoundIn (parts_under relaxation.entry)
        (box_under relaxation.entry)) }
    ensures near { IfOk result IsNearBound }
    ensures positions { length sums.new.factors ≡ relaxation.entry.table.now.columns.count }
{
    let Subproblem { s, boxes } = relaxation.problem;
    if let Some(closed) = first_closed(s, boxes) {
        return Err(LeafFault::Closed(closed.flight, closed.node));
    }
    match dual_value(sums, buffer, relaxation, weight, rows) {
        Err(position) => Err(LeafFault::UnknownRow(position)),
        Ok(value) => answer_of(value, weight),
    }
}

// The bound of a Lag leaf.
fn lag_bound(
    work: &mut Work,
    prices: &mut Prices,
    s: &Scenario,
    boxes: &Boxes,
    weight: u64,
    rows: &[Multiplier],
) -> Result<Bound, LeafFault>
    requires work { IsWorkFor (parts_of s.now) work.old }
    requires prices { ArePricesOf (parts_of s.now) prices.old }
    requires boxes { IsMadeFor (parts_of s.now) boxes.now }
    requires range { HasRange weight rows.now }
    ensures bound { IsLagAnswer (parts_of s.now) (box_of boxes.now) weight rows.now result }
    ensures sound { IfOk result (IsBoundIn (parts_of s.now) (box_of boxes.now)) }
    ensures near { IfOk result IsNearPriced }
    ensures work { IsWorkFor (parts_of s.now) work.new }
    ensures prices { ArePricesOf (parts_of s.now) prices.new }
{
    match first_closed(s, boxes) {
        Some(closed) => Err(LeafFault::Closed(closed.flight, closed.node)),
        None => lag_answer(work, prices, s, boxes, weight, rows),
    }
}
