//! The row of a cut, and of a name with a pool.
ghost use Rattle.std.specs.Prelude.{◌≡◌, false, slice_get, true};
ghost use Rattle.flow_types.specs.Scenario.{parts_of};
ghost use Rattle.bytime_model.specs.Rows.{AreCollected, IsValid, no_row};
ghost use Rattle.cut_rows.specs.Cuts.{FillsCut, cut_row, is_cut};
ghost use Rattle.cut_rows.specs.Pools.{cut_row_at, is_cut_at, is_row_with, row_with};
ghost use Rattle.cut_rows.specs.Routes.{AreRoutesOf};
ghost use Rattle.cut_rows.specs.Table.{IsTableFor};

use crate::apart::{fill_apart, is_apart_cut};
use crate::departed::{fill_departed, is_departed_cut};
use crate::heads::{fill_heads, is_heads_cut};
use crate::names::CutName;
use crate::pool::Pool;
use crate::routes::Routes;
use crate::table::Table;
use bytime_model::{RowBuffer, RowName, is_row};
use flow_types::Scenario;

/// Whether there is such a cut: its flight and its period are there, and its nodes are as its kind
/// wants them. It takes no memory.
pub fn is_cut(s: &Scenario, routes: &Routes, cut: &CutName) -> bool
    requires routes { AreRoutesOf (parts_of s.now) routes.now }
    ensures { result ≡ is_cut (parts_of s.now) cut.now }
{
    match cut {
        CutName::Heads {
            flight,
            node,
            time,
            heads,
        } => is_heads_cut(s, *flight, *node, *time, heads.items()),
        CutName::Apart {
            flight,
            time,
            heads,
        } => is_apart_cut(s, routes, *flight, *time, heads.items()),
        CutName::Departed { flight, node, time } => is_departed_cut(s, *flight, *node, *time),
    }
}

// Fills a row that has no terms yet.
fn fill_by(buffer: &mut RowBuffer, s: &Scenario, routes: &Routes, cut: &CutName) -> bool
    requires none { buffer.old ≡ no_row }
    requires routes { AreRoutesOf (parts_of s.now) routes.now }
    ensures { FillsCut (parts_of s.now) cut.now result buffer.new }
{
    match cut {
        CutName::Heads {
            flight,
            node,
            time,
            heads,
        } => fill_heads(buffer, s, *flight, *node, *time, heads.items()),
        CutName::Apart {
            flight,
            time,
            heads,
        } => fill_apart(buffer, s, routes, *flight, *time, heads.items()),
        CutName::Departed { flight, node, time } => {
            fill_departed(buffer, s, routes, *flight, *node, *time)
        }
    }
}

/// Holds the row of the cut, if there is such a cut, and no terms else. Tells whether there is. No
/// plan that keeps every rule breaks the row, no two of its terms are of one variable, and no
/// factor is 0. It takes no memory.
pub fn fill_cut(buffer: &mut RowBuffer, s: &Scenario, routes: &Routes, cut: &CutName) -> bool
    requires routes { AreRoutesOf (parts_of s.now) routes.now }
    ensures told { result ≡ is_cut (parts_of s.now) cut.now }
    ensures row { result ≡ true → buffer.new ≡ cut_row (parts_of s.now) cut.now }
    ensures none { result ≡ false → buffer.new ≡ no_row }
    ensures valid { IsValid (parts_of s.now) buffer.new }
    ensures collected { AreCollected buffer.new.terms }
{
    buffer.clear();
    fill_by(buffer, s, routes, cut)
}

// Holds the row of the cut at a position of the pool, if there is one.
fn fill_at(buffer: &mut RowBuffer, s: &Scenario, routes: &Routes, pool: &Pool, index: u32) -> bool
    requires routes { AreRoutesOf (parts_of s.now) routes.now }
    ensures told { result ≡ is_cut_at (parts_of s.now) (slice_get pool.now index) }
    ensures row { result ≡ true → buffer.new
        ≡ cut_row_at (parts_of s.now) (slice_get pool.now index) }
    ensures none { result ≡ false → buffer.new ≡ no_row }
    ensures valid { IsValid (parts_of s.now) buffer.new }
    ensures collected { AreCollected buffer.new.terms }
{
    match pool.items().get(index as usize) {
        None => hold_none(buffer, s),
        Some(cut) => fill_cut(buffer, s, routes, cut),
    }
}

// Holds no row. The scenario is for the contract alone.
#[tactic(auto, using(crate::proofs::CutLaws::none_valid, crate::proofs::CutLaws::none_collected))]
fn hold_none(buffer: &mut RowBuffer, s: &Scenario) -> bool
    ensures told { result ≡ false }
    ensures none { buffer.new ≡ no_row }
    ensures valid { IsValid (parts_of s.now) buffer.new }
    ensures collected { AreCollected buffer.new.terms }
{
    buffer.clear();
    false
}

/// Does the same by the name of a row, with a pool: that of a cut is its position in the pool, and
/// any other row is as `RowBuffer::fill_with` holds it. It takes no memory.
pub fn fill_row(
    buffer: &mut RowBuffer,
    s: &Scenario,
    table: &Table,
    pool: &Pool,
    name: RowName,
) -> bool
    requires table { IsTableFor (parts_of s.now) table.now }
    ensures told { result ≡ is_row_with (parts_of s.now) pool.now name }
    ensures row { result ≡ true → buffer.new ≡ row_with (parts_of s.now) pool.now name }
    ensures none { result ≡ false → buffer.new ≡ no_row }
    ensures valid { IsValid (parts_of s.now) buffer.new }
    ensures collected { AreCollected buffer.new.terms }
{
    match name {
        RowName::Cut { index } => fill_at(buffer, s, &table.routes, pool, index),
        _ => buffer.fill_with(s, &table.visits, name),
    }
}

/// Whether there is a row of this name, with a pool: that of a cut is its position in the pool. It
/// takes no memory.
pub fn is_row_with(s: &Scenario, routes: &Routes, pool: &Pool, name: RowName) -> bool
    requires routes { AreRoutesOf (parts_of s.now) routes.now }
    ensures { result ≡ is_row_with (parts_of s.now) pool.now name }
{
    match name {
        RowName::Cut { index } => is_cut_at(s, routes, pool, index),
        _ => is_row(s, name),
    }
}

// Whether there is the cut at a position of the pool.
fn is_cut_at(s: &Scenario, routes: &Routes, pool: &Pool, index: u32) -> bool
    requires routes { AreRoutesOf (parts_of s.now) routes.now }
    ensures { result ≡ is_cut_at (parts_of s.now) (slice_get pool.now index) }
{
    let Some(cut) = pool.items().get(index as usize) else {
        return false;
    };
    is_cut(s, routes, cut)
}
