//! The values of variables at a point.
ghost use Rattle.std.specs.Prelude.{◌≡◌, ◌≤◌, ◌<◌, ◌*◌, ◌^◌, All, IfOk, length, neg_ℤ, pos, replicate, slice_index_or, slice_set, unsigned_abs, ◌*ℤ◌, ◌+ℤ◌};
ghost use Rattle.flow_types.specs.Scenario.{parts_of};
ghost use Rattle.time_windows.specs.Held.{box_of};
ghost use Rattle.bytime_model.specs.declared.variables.Var.TheVariants.{By};
ghost use Rattle.bytime_model.specs.Columns.{IsThere, position_of};
ghost use Rattle.bytime_model.specs.Landing.{IsReady};
ghost use Rattle.bytime_model.specs.Rows.{most_terms};
ghost use Rattle.cut_separation.specs.Exceeding.{form_at, is_exceeded};
ghost use Rattle.cut_separation.specs.Framed.{IsFramed, IsSmall, IsSmallRow, parts_in, value_in};
ghost use Rattle.cut_separation.specs.Points.{AreByPosition, IsPointOf};

use crate::frame::Frame;
use crate::point::FreePoint;
use bytime_model::{Columns, Landing, RowBuffer, Term, Var, landing_of};
use flow_types::{OutOfMemory, Scenario};
use std::alloc::Global;
use time_windows::Boxes;

// So many zeros.
fn zeros(alloc: Global, count: usize) -> Result<Vec<i64>, OutOfMemory>
    ensures { IfOk result (λ zeros. zeros.items ≡ replicate count (pos 0)) }
{
    Ok(vec![in alloc; 0; count]?)
}

// Sets the number at a position.
fn set_at(numbers: &mut Vec<i64>, position: usize, number: i64)
    requires { position < length numbers.old.items }
    ensures { numbers.new.items ≡ slice_set numbers.old.items position number }
{
    numbers[position] = number;
}

// A number of 128 bits that fits in 64.
fn narrow(number: i128) -> i64
    requires { unsigned_abs number < 2 ^ 62 }
    ensures { result ≡ number }
{
    number as i64
}

// The numerator of a column.
fn numerator_at(point: &FreePoint, column: usize) -> i64
    requires there { column < length point.now.numerators }
    requires small { unsigned_abs (slice_index_or point.now.numerators column (pos 0)) < 2 ^ 62 }
    ensures { result ≡ slice_index_or point.now.numerators column (pos 0) }
{
    narrow(point.numerators.items()[column])
}

// The position of a column's variable.
fn position_at(columns: &Columns, point: &FreePoint, column: usize) -> usize
    requires there { column < length point.now.columns }
    requires few { position_of columns.now.columns
        (slice_index_or point.now.columns column (By 0 0 0)) < 2 ^ 64 }
    ensures { result ≡ position_of columns.now.columns
        (slice_index_or point.now.columns column (By 0 0 0)) }
{
    columns.position(point.columns.items()[column])
}

// Sets the numerator of a column at the position of its variable.
fn set_column(numbers: &mut Vec<i64>, columns: &Columns, point: &FreePoint, column: usize)
    requires column { column < length point.now.columns }
    requires numerator { column < length point.now.numerators }
    requires small { unsigned_abs (slice_index_or point.now.numerators column (pos 0)) < 2 ^ 62 }
    requires few { position_of columns.now.columns
        (slice_index_or point.now.columns column (By 0 0 0)) < 2 ^ 64 }
    requires within { position_of columns.now.columns
        (slice_index_or point.now.columns column (By 0 0 0)) < length numbers.old.items }
    ensures { numbers.new.items ≡ slice_set numbers.old.items (position_of columns.now.columns
        (slice_index_or point.now.columns column (By 0 0 0)))
        (slice_index_or point.now.numerators column (pos 0)) }
{
    let position = position_at(columns, point, column);
    set_at(numbers, position, numerator_at(point, column));
}

/// The denominator of a point. The scenario and the boxes are for the contract alone.
pub fn denominator_of(s: &Scenario, boxes: &Boxes, point: &FreePoint) -> i64
    requires { IsPointOf (parts_of s.now) (box_of boxes.now) point.now }
    ensures { result ≡ point.now.denominator }
{
    narrow(point.denominator)
}

/// The numerators of a point by the positions of its variables, 0 at any other position. It takes 8
/// bytes for each position.
#[tactic(auto, using(crate::proofs::ValueFacts::none_set, crate::proofs::ValueFacts::all_set))]
pub fn by_position(
    alloc: Global,
    s: &Scenario,
    columns: &Columns,
    boxes: &Boxes,
    point: &FreePoint,
) -> Result<Vec<i64>, OutOfMemory>
    requires ready { IsReady (parts_of s.now) columns.now boxes.now }
    requires point { IsPointOf (parts_of s.now) (box_of boxes.now) point.now }
    ensures { IfOk result (λ numbers. AreByPosition (parts_of s.now) columns.now
        (box_of boxes.now) point.now numbers.items) }
{
    let mut numbers = zeros(alloc, columns.count())?;
    for column in 0..point.columns.items().len() {
        set_column(&mut numbers, columns, point, column);
    }
    Ok(numbers)
}

// The numerator of a variable.
fn numerator_of(frame: &Frame<'_>, variable: Var) -> i64
    requires framed { IsFramed frame.now }
    requires there { IsThere (parts_in frame.now).flights variable }
    ensures value { result ≡ value_in frame.now variable }
    ensures small { unsigned_abs result < 2 ^ 62 }
{
    match landing_of(frame.columns, frame.s, frame.boxes, variable) {
        Landing::Nowhere => 0,
        Landing::Surely => frame.denominator,
        Landing::At(position) => frame.numerators[position],
    }
}

// So many times the numerator.
fn times(factor: i64, numerator: i64) -> i128
    requires unit { unsigned_abs factor ≤ 1 }
    requires small { unsigned_abs numerator < 2 ^ 62 }
    ensures product { result ≡ factor *ℤ numerator }
    ensures small { unsigned_abs result < 2 ^ 62 }
{
    i128::from(factor) * i128::from(numerator)
}

// What a term comes to.
fn share(frame: &Frame<'_>, term: Term) -> i128
    requires framed { IsFramed frame.now }
    requires term { IsSmall (parts_in frame.now).flights term }
    ensures value { result ≡ term.factor *ℤ value_in frame.now term.variable }
    ensures small { unsigned_abs result < 2 ^ 62 }
{
    times(term.factor, numerator_of(frame, term.variable))
}

// The sum of two numbers that aren't far from 0.
fn plus(sum: i128, more: i128) -> i128
    requires sum { unsigned_abs sum < 2 ^ 100 }
    requires more { unsigned_abs more < 2 ^ 62 }
    ensures { result ≡ sum +ℤ more }
{
    sum + more
}

// What the terms come to.
fn form(frame: &Frame<'_>, terms: &[Term]) -> i128
    requires framed { IsFramed frame.now }
    requires few { length terms.now ≤ most_terms }
    requires terms { All (IsSmall (parts_in frame.now).flights) terms.now }
    ensures { result ≡ form_at (value_in frame.now) terms.now }
{
    let mut sum = 0;
    for term in terms {
        sum = plus(sum, share(frame, *term));
    }
    sum
}

// What the limit comes to.
fn bound(limit: i64, denominator: i64) -> i128
    requires limit { unsigned_abs limit ≤ 1 }
    requires denominator { unsigned_abs denominator < 2 ^ 62 }
    ensures { result ≡ limit *ℤ denominator }
{
    i128::from(limit) * i128::from(denominator)
}

/// Whether the point exceeds the row.
pub fn is_exceeded(frame: &Frame<'_>, row: &RowBuffer) -> bool
    requires framed { IsFramed frame.now }
    requires row { IsSmallRow (parts_in frame.now).flights row.now }
    ensures { result ≡ is_exceeded (value_in frame.now) frame.now.denominator row.now }
{
    bound(row.limit(), frame.denominator) < form(frame, row.terms())
}
