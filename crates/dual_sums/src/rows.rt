//! Adding rows to the sums.
ghost use Rattle.std.specs.Prelude.{◌≡◌, ◌≤◌, ◌<◌, ◌+◌, ◌*◌, ◌^◌, All, MatchOption, false, true, length, pos, neg_ℤ, unsigned_abs, ◌*ℤ◌};
ghost use Rattle.flow_types.specs.Limits.{most_capacity};
ghost use Rattle.bytime_model.specs.Rows.{most_terms};
ghost use Rattle.cut_rows.specs.Pools.{is_row_with, row_with};
ghost use Rattle.cut_rows.specs.Relaxations.{parts_under};
ghost use Rattle.bytime_model.specs.Columns.{IsThere};
ghost use Rattle.dual_sums.specs.Dual.{IsFirstUnknown, excess};
ghost use Rattle.dual_sums.specs.Growing.{Grows, choice_under};
ghost use Rattle.dual_sums.specs.Rows.{AreAdded};
ghost use Rattle.dual_sums.specs.Sums.{mass};

use crate::sums::Sums;
use crate::terms::add_terms;
use bytime_model::{Landing, Multiplier, RowBuffer};
use cut_rows::{Relaxation, fill_row};

// So many times the limit, taken away.
fn charge(row: &RowBuffer, count: u64) -> i128
    requires count { count < 2 ^ 62 }
    requires limit { unsigned_abs row.now.limit ≤ most_capacity }
    ensures charge { result ≡ neg_ℤ (pos count *ℤ row.now.limit) }
    ensures small { unsigned_abs result ≤ most_capacity * 2 ^ 62 }
{
    -(i128::from(count) * i128::from(row.limit()))
}

// Adds so many times what the row is above its limit.
fn add_row(sums: &mut Sums, relaxation: Relaxation<'_>, row: &RowBuffer, count: u64)
    requires there { All (λ term. IsThere (parts_under relaxation).flights term.variable)
        row.now.terms }
    requires positions { length sums.old.factors ≡ relaxation.table.now.columns.count }
    requires count { count < 2 ^ 62 }
    requires small { All (λ term. unsigned_abs term.factor ≤ 1) row.now.terms }
    requires few { length row.now.terms ≤ most_terms }
    requires limit { unsigned_abs row.now.limit ≤ most_capacity }
    requires room { mass sums.old + 2 ^ 82 < 2 ^ 126 }
    ensures { Grows (choice_under relaxation.entry)
        (λ value. pos count *ℤ excess value row.now) (2 ^ 82) sums.old sums.new }
{
    add_terms(sums, relaxation, row.terms(), count);
    sums.land(Landing::Surely, charge(row, count));
}

// Adds what the multiplier says, and tells whether its row is there.
#[tactic(auto, using(crate::proofs::RowGrowFacts::row_small, cut_rows::proofs::PoolRows::limit_with, cut_rows::proofs::PoolRows::few_with, cut_rows::proofs::PoolRows::there_with))]
fn add_multiplier(
    sums: &mut Sums,
    buffer: &mut RowBuffer,
    relaxation: Relaxation<'_>,
    multiplier: Multiplier,
) -> bool
    requires positions { length sums.old.factors ≡ relaxation.table.now.columns.count }
    requires count { multiplier.value < 2 ^ 62 }
    requires room { mass sums.old + 2 ^ 82 < 2 ^ 126 }
    ensures told { result ≡ is_row_with (parts_under relaxation.entry) relaxation.entry.pool.now
        multiplier.row }
    ensures grows { result ≡ true → Grows (choice_under relaxation.entry)
        (λ value. pos multiplier.value *ℤ excess value (row_with
        (parts_under relaxation.entry) relaxation.entry.pool.now multiplier.row))
        (2 ^ 82) sums.old sums.new }
    ensures positions { length sums.new.factors ≡ length sums.old.factors }
{
    let Relaxation {
        problem,
        table,
        pool,
    } = relaxation;
    if !fill_row(buffer, problem.s, table, pool, multiplier.row) {
        return false;
    }
    add_row(sums, relaxation, buffer, multiplier.value);
    true
}

/// Adds what the multipliers say. Where the row of one isn't there, it stops and tells the position
/// of the first of these.
#[tactic(auto, using(crate::proofs::RowGrowFacts::rows_none))]
pub fn add_rows(
    sums: &mut Sums,
    buffer: &mut RowBuffer,
    relaxation: Relaxation<'_>,
    rows: &[Multiplier],
) -> Option<u32>
    requires positions { length sums.old.factors ≡ relaxation.table.now.columns.count }
    requires counts { All (λ multiplier. multiplier.value < 2 ^ 62) rows.now }
    requires few { length rows.now < 2 ^ 32 }
    requires room { mass sums.old + 2 ^ 114 < 2 ^ 126 }
    ensures rows { MatchOption result
        (AreAdded (parts_under relaxation.entry) relaxation.entry.pool.now
        (choice_under relaxation.entry)
        rows.now
        sums.old sums.new)
        (λ position. IsFirstUnknown (parts_under relaxation.entry) relaxation.entry.pool.now
        rows.now position) }
    ensures positions { length sums.new.factors ≡ length sums.old.factors }
{
    for position in 0..rows.len() {
        if !add_multiplier(sums, buffer, relaxation, rows[position]) {
            return Some(position as u32);
        }
    }
    None
}
