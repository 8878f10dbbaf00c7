//! What a list of rows comes to beside the cost.
ghost use Rattle.std.specs.Prelude.{◌≡◌, ◌<◌, ◌^◌, IfOk, length, unsigned_abs};
ghost use Rattle.bytime_model.specs.Multipliers.{HasRange};
ghost use Rattle.cut_rows.specs.Relaxations.{box_under, parts_under};
ghost use Rattle.dual_sums.specs.Dual.{IsValued};

use crate::costs::add_cost;
use crate::rows::add_rows;
use crate::sums::Sums;
use bytime_model::{Multiplier, RowBuffer};
use cut_rows::Relaxation;

/// The least, over all values 0 or 1 that the box leaves the variables, of so many times the cost
/// and so many times what each row is above its limit, cuts of the pool among them; or the position
/// of the first row that isn't there.
pub fn dual_value(
    sums: &mut Sums,
    buffer: &mut RowBuffer,
    relaxation: Relaxation<'_>,
    weight: u64,
    rows: &[Multiplier],
) -> Result<i128, u32>
    requires positions { length sums.old.factors ≡ relaxation.table.now.columns.count }
    requires range { HasRange weight rows.now }
    ensures value { IsValued (parts_under relaxation.entry) relaxation.entry.pool.now
        (box_under relaxation.entry) weight rows.now result }
    ensures near { IfOk result (λ value. unsigned_abs value < 2 ^ 115) }
    ensures positions { length sums.new.factors ≡ relaxation.entry.table.now.columns.count }
{
    sums.clear();
    add_cost(sums, relaxation, weight);
    match add_rows(sums, buffer, relaxation, rows) {
        Some(position) => Err(position),
        None => Ok(sums.least()),
    }
}
