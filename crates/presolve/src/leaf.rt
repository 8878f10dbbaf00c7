//! The Dual leaf that multipliers of the program give.
ghost use Rattle.std.specs.Prelude.{◌≡◌, ◌++◌, IfOk, OnOk, unsigned_abs};
ghost use Rattle.presolve.specs.Leaf.{leaf_rows, unless_never};

use bytime_model::{Multiplier, Multipliers, RowName};
use flow_types::OutOfMemory;
use std::alloc::Global;

// How far the number is from 0.
fn size(multiplier: i64) -> u64
    ensures { result ≡ unsigned_abs multiplier }
{
    multiplier.unsigned_abs()
}

// Adds the row so often, unless that is never.
fn add_row(rows: &mut Multipliers, row: RowName, multiplier: i64) -> Result<(), OutOfMemory>
    ensures { OnOk result (rows.new ≡ rows.old ++ unless_never row multiplier) }
{
    if multiplier != 0 {
        let value = size(multiplier);
        rows.add(Multiplier { row, value })?;
    }
    Ok(())
}

/// The rows of the Dual leaf that the multipliers give: for each name the multiplier in its place,
/// where it isn't 0. Those past the names are left out, so these are the program's `kept` and one
/// multiplier for each of its rows. It takes 24 bytes a row.
#[tactic(auto, using(exact_sums::proofs::LoopFacts::items_none, crate::proofs::LeafFacts::leaf_all))]
pub fn leaf_of(
    alloc: Global,
    kept: &[RowName],
    multipliers: &[i64],
) -> Result<Multipliers, OutOfMemory>
    ensures { IfOk result (λ rows. rows ≡ leaf_rows kept.now multipliers.now) }
{
    let mut rows = Multipliers::empty(alloc);
    for k in 0..kept.len().min(multipliers.len()) {
        add_row(&mut rows, kept[k], multipliers[k])?;
    }
    Ok(rows)
}
