//! The cuts that a point exceeds.
ghost use Rattle.std.specs.Prelude.{◌≡◌, IfOk};
ghost use Rattle.flow_types.specs.Scenario.{parts_of};
ghost use Rattle.time_windows.specs.Held.{box_of};
ghost use Rattle.bytime_model.specs.Landing.{IsReady};
ghost use Rattle.cut_rows.specs.Pools.{IsPoolOf};
ghost use Rattle.cut_rows.specs.Table.{IsTableFor};
ghost use Rattle.cut_separation.specs.Exceeding.{exceeded_cuts};
ghost use Rattle.cut_separation.specs.Framed.{IsFramed, parts_in};
ghost use Rattle.cut_separation.specs.Points.{AreByPosition, IsPointOf};

use crate::frame::{Draft, Frame};
use crate::point::FreePoint;
use crate::tries::add_kind;
use crate::values::{by_position, denominator_of};
use crate::whole::WholeKind;
use bytime_model::RowBuffer;
use cut_rows::{Cuts, Pool, Table};
use flow_types::{OutOfMemory, Scenario, Sequence};
use std::alloc::Global;
use time_windows::Boxes;

// The first of the whole cuts that the point exceeds, of which these are the numbers by position.
fn taken(alloc: Global, frame: &Frame<'_>, point: &FreePoint) -> Result<Cuts, OutOfMemory>
    requires framed { IsFramed frame.now }
    requires denominator { frame.now.denominator ≡ point.now.denominator }
    requires numbers { AreByPosition (parts_in frame.now) frame.now.columns.now
        (box_of frame.now.boxes.now) point.now frame.now.numerators.items }
    ensures { IfOk result (λ cuts. cuts ≡ exceeded_cuts (parts_in frame.now)
        (box_of frame.now.boxes.now) point.now) }
{
    let _denominator = point.denominator;
    let mut draft = Draft {
        alloc,
        buffer: RowBuffer::new(alloc)?,
        cuts: Sequence::empty(alloc),
    };
    add_kind(&mut draft, frame, WholeKind::Heads)?;
    add_kind(&mut draft, frame, WholeKind::Departed)?;
    Ok(draft.cuts)
}

/// The pool of the first 10,000 of the whole cuts that the point exceeds, in their order, or of all
/// of these where there are fewer. The box is tight and no node that must be entered is closed in
/// it, the table is that of the scenario, and the point gives fractions for variables that the box
/// leaves free; any other free variable counts as 0.
///
/// It takes 8 bytes for each position of the columns, room for a row, and what the cuts take.
#[tactic(auto, using(crate::proofs::PoolLaws::exceeded_ascend, crate::proofs::PoolLaws::exceeded_pool))]
pub fn separate(
    alloc: Global,
    s: &Scenario,
    table: &Table,
    boxes: &Boxes,
    point: &FreePoint,
) -> Result<Pool, OutOfMemory>
    requires ready { IsReady (parts_of s.now) table.now.columns boxes.now }
    requires table { IsTableFor (parts_of s.now) table.now }
    requires point { IsPointOf (parts_of s.now) (box_of boxes.now) point.now }
    ensures exactly { IfOk result (λ pool. pool
        ≡ exceeded_cuts (parts_of s.now) (box_of boxes.now) point.now) }
    ensures pool { IfOk result (IsPoolOf (parts_of s.now)) }
{
    let frame = Frame {
        s,
        boxes,
        routes: &table.routes,
        columns: &table.columns,
        numerators: by_position(alloc, s, &table.columns, boxes, point)?,
        denominator: denominator_of(s, boxes, point),
    };
    let cuts = taken(alloc, &frame, point)?;
    Ok(Pool::in_order(cuts))
}
