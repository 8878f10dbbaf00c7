//! A column cleared in a row.
ghost use Rattle.std.specs.Prelude.{◌≡◌, ◌<◌, ◌≤◌, ◌+◌, ◌*◌, ◌^◌, ◌++◌, ◌∷◌, [], ◌≢◌, ◌<ℤ◌, All, IfErr, IfOk, IfSome, None, OnOk, int_div, length, nat_abs, pos, take, vec_capacity};
ghost use Rattle.std.specs.Int.{IsGcd};
ghost use Rattle.std.specs.List.{find};
ghost use Rattle.row_arena.specs.Arena.{is_far};
ghost use Rattle.row_arena.specs.Combining.{cleared, difference, divided};
ghost use Rattle.row_arena.specs.Desks.{IsDesk, KeepsRoom};
ghost use Rattle.row_arena.specs.Products.{AreFilledBy, AreNear, AreScaled, AreWide, TellsFar, divided_by, entries_of};
ghost use Rattle.row_arena.specs.Rows.{IsRow, entry_at, most_entry};

use crate::desk::{Desk, lengthen};
use crate::dividing::{divide, divide_narrow, divisor_of, gcd_narrow, narrow_divisor};
use crate::entry::{Entry, MOST_ENTRY};
use crate::products::{Factors, WideEntry};
use crate::row::{entry_in, first_far, narrow};
use crate::walk::walk;
use crate::wide::Wide;

// The product of two numbers as far from 0 as this isn't too far, and nearly all are nearer.
const SMALL: i64 = (1 << 31) - 1;

// Writes the target with the column cleared to `desk.narrow`, where none of its entries is too far
// from 0, and the columns that only the pivot has to `desk.filled`. Says how many entries it has.
pub fn clear_column(
    desk: &mut Desk,
    target: &[Entry],
    pivot: &[Entry],
    column: u32,
) -> Result<usize, Wide>
    requires target { IsRow target.now }
    requires pivot { IsRow pivot.now }
    requires above { pos 0 <ℤ entry_at pivot.now column }
    requires desk { IsDesk (length target.now + length pivot.now) desk.old }
    ensures ok { IfOk result (λ count. take count desk.new.narrow.items
        ≡ cleared column target.now pivot.now) }
    ensures within { IfOk result (λ count. count ≤ length desk.new.narrow.items) }
    ensures near { OnOk result (find is_far (cleared column target.now pivot.now) ≡ None) }
    ensures far { IfErr result (TellsFar (find is_far (cleared column target.now pivot.now))) }
    ensures filled { AreFilledBy target.now pivot.now (length pivot.now) desk.new.filled.items }
    ensures room { KeepsRoom desk.old desk.new }
{
    write_divided(desk, lowest(factors(target, pivot, column)), target, pivot)
}

// How often the target is taken, which is what the pivot has in the column, and how often the pivot
// is taken away, which is what the target has there; with no reach yet.
fn factors(target: &[Entry], pivot: &[Entry], column: u32) -> Factors
    requires target { IsRow target.now }
    requires pivot { IsRow pivot.now }
    ensures target { result.target ≡ entry_at pivot.now column }
    ensures pivot { result.pivot ≡ entry_at target.now column }
    ensures near { AreNear result }
{
    Factors {
        target: entry_in(pivot, column),
        pivot: entry_in(target, column),
        reach: 0,
    }
}

// Both factors without what they have in common, which the division would take out of each value,
// and their reach.
fn lowest(by: Factors) -> Factors
    requires above { pos 0 <ℤ by.target }
    requires near { AreNear by }
    ensures scaled { AreScaled by result }
    ensures near { AreNear result }
{
    let divisor = common(by);
    let target = share_of(Share {
        of: by.target,
        divisor,
    });
    let pivot = share_of(Share {
        of: by.pivot,
        divisor,
    });
    Factors {
        target,
        pivot,
        reach: reach_of(target.unsigned_abs().max(pivot.unsigned_abs())),
    }
}

// How far from 0 a number may be for its product with one of such a size not to be too far.
#[tactic(auto, using(crate::proofs::ReachFacts::reaches))]
fn reach_of(size: u64) -> i64
    requires { size ≤ most_entry }
    ensures reach { size * nat_abs result ≤ most_entry }
    ensures near { nat_abs result ≤ most_entry }
{
    if size <= 1 {
        MOST_ENTRY
    } else if size <= SMALL as u64 {
        SMALL
    } else {
        (MOST_ENTRY as u64 / size) as i64
    }
}

// The greatest common divisor of both factors.
fn common(by: Factors) -> u64
    requires { AreNear by }
    ensures { IsGcd (nat_abs by.target) (nat_abs by.pivot) result }
{
    gcd_narrow(by.target.unsigned_abs(), by.pivot.unsigned_abs())
}

// A number, and what it is divided by.
#[derive(Clone, Copy)]
struct Share {
    of: i64,
    divisor: u64,
}

// The number, divided by its divisor.
#[tactic(auto, using(crate::proofs::DividedFacts::parts))]
fn share_of(share: Share) -> i64
    requires some { 0 < share.divisor }
    requires near { nat_abs share.of ≤ most_entry }
    ensures quotient { result ≡ int_div share.of (pos share.divisor) }
    ensures near { nat_abs result ≤ most_entry }
{
    let size = share.of.unsigned_abs() / share.divisor;
    if share.of < 0 {
        -(size as i64)
    } else {
        size as i64
    }
}

// Writes the difference of two rows, divided by its divisor, where none of it is too far from 0
// then: in 64 bits, where these are enough. Says how many entries that are.
fn write_divided(
    desk: &mut Desk,
    by: Factors,
    target: &[Entry],
    pivot: &[Entry],
) -> Result<usize, Wide>
    requires near { AreNear by }
    requires target { IsRow target.now }
    requires pivot { IsRow pivot.now }
    requires desk { IsDesk (length target.now + length pivot.now) desk.old }
    ensures ok { IfOk result (λ count. take count desk.new.narrow.items
        ≡ divided (difference by.target by.pivot target.now pivot.now)) }
    ensures within { IfOk result (λ count. count ≤ length desk.new.narrow.items) }
    ensures near { OnOk result (find is_far
        (divided (difference by.target by.pivot target.now pivot.now)) ≡ None) }
    ensures far { IfErr result (TellsFar (find is_far
        (divided (difference by.target by.pivot target.now pivot.now)))) }
    ensures filled { AreFilledBy target.now pivot.now (length pivot.now) desk.new.filled.items }
    ensures room { KeepsRoom desk.old desk.new }
{
    if let Some(count) = write_narrow(&mut desk.narrow, &mut desk.filled, by, target, pivot) {
        return Ok(count);
    }
    let count = write_wide(&mut desk.wides, &mut desk.filled, by, target, pivot);
    write_near(&mut desk.narrow, &desk.wides[..count])
}

// Writes the difference in 64 bits, divided by its divisor, where none of it is too far from 0
// before that. Else what is written tells nothing.
fn write_narrow(
    narrow: &mut Vec<Entry>,
    filled: &mut Vec<u32>,
    by: Factors,
    target: &[Entry],
    pivot: &[Entry],
) -> Option<usize>
    requires near { AreNear by }
    requires target { IsRow target.now }
    requires pivot { IsRow pivot.now }
    requires room { length target.now + length pivot.now ≤ vec_capacity narrow.old }
    requires filled_room { length pivot.now ≤ vec_capacity filled.old }
    ensures rows { IfSome result (λ count. take count narrow.new.items
        ≡ divided (difference by.target by.pivot target.now pivot.now)) }
    ensures within { IfSome result (λ count. count ≤ length narrow.new.items) }
    ensures near { IfSome result (λ _. find is_far
        (divided (difference by.target by.pivot target.now pivot.now)) ≡ None) }
    ensures filled { IfSome result (λ _.
        AreFilledBy target.now pivot.now (length pivot.now) filled.new.items) }
    ensures room { vec_capacity narrow.old ≤ vec_capacity narrow.new }
    ensures filled_room { vec_capacity filled.old ≤ vec_capacity filled.new }
{
    let zero = Entry {
        column: 0,
        value: 0,
    };
    lengthen(narrow, target.len() + pivot.len(), zero);
    fill_narrow(narrow, filled, by, target, pivot)
}

// Writes the difference in 64 bits into a list that is long enough, divided by its divisor, where
// none of it is too far from 0 before that. Else what is written tells nothing.
fn fill_narrow(
    out: &mut [Entry],
    filled: &mut Vec<u32>,
    by: Factors,
    target: &[Entry],
    pivot: &[Entry],
) -> Option<usize>
    requires near { AreNear by }
    requires target { IsRow target.now }
    requires pivot { IsRow pivot.now }
    requires room { length target.now + length pivot.now ≤ length out.old }
    requires filled_room { length pivot.now ≤ vec_capacity filled.old }
    ensures rows { IfSome result (λ count. take count out.new
        ≡ divided (difference by.target by.pivot target.now pivot.now)) }
    ensures within { IfSome result (λ count. count ≤ length out.new) }
    ensures near { IfSome result (λ _. find is_far
        (divided (difference by.target by.pivot target.now pivot.now)) ≡ None) }
    ensures filled { IfSome result (λ _.
        AreFilledBy target.now pivot.now (length pivot.now) filled.new.items) }
    ensures length { length out.new ≡ length out.old }
    ensures filled_room { vec_capacity filled.old ≤ vec_capacity filled.new }
{
    let Some(count) = walk(out, filled, by, target, pivot) else {
        return None;
    };
    reduce_narrow(&mut out[..count]);
    Some(count)
}

// Divides entries by the greatest common divisor of their values.
#[tactic(auto, using(crate::proofs::DividedFacts::divided_one))]
fn reduce_narrow(entries: &mut [Entry])
    requires near { All (λ entry. nat_abs entry.value ≤ most_entry) entries.old }
    requires no_zeros { All (λ entry. entry.value ≢ pos 0) entries.old }
    ensures rows { entries.new ≡ divided entries.old }
    ensures length { length entries.new ≡ length entries.old }
{
    let divisor = narrow_divisor(entries);
    if divisor != 1 {
        divide_narrow(entries, divisor);
    }
}

// Writes the difference in 128 bits, divided by its divisor, and says how many numbers that are.
fn write_wide(
    wides: &mut Vec<WideEntry>,
    filled: &mut Vec<u32>,
    by: Factors,
    target: &[Entry],
    pivot: &[Entry],
) -> usize
    requires near { AreNear by }
    requires target { IsRow target.now }
    requires pivot { IsRow pivot.now }
    requires room { length target.now + length pivot.now ≤ vec_capacity wides.old }
    requires filled_room { length pivot.now ≤ vec_capacity filled.old }
    ensures rows { entries_of (take result wides.new.items)
        ≡ divided (difference by.target by.pivot target.now pivot.now) }
    ensures within { result ≤ length wides.new.items }
    ensures count { result ≤ length target.now + length pivot.now }
    ensures filled { AreFilledBy target.now pivot.now (length pivot.now) filled.new.items }
    ensures room { vec_capacity wides.old ≤ vec_capacity wides.new }
    ensures filled_room { vec_capacity filled.old ≤ vec_capacity filled.new }
{
    let zero = WideEntry {
        column: 0,
        value: 0,
    };
    lengthen(wides, target.len() + pivot.len(), zero);
    fill_wide(wides, filled, by, target, pivot)
}

// Writes the difference in 128 bits into a list that is long enough, divided by its divisor, and
// says how many numbers that are.
fn fill_wide(
    out: &mut [WideEntry],
    filled: &mut Vec<u32>,
    by: Factors,
    target: &[Entry],
    pivot: &[Entry],
) -> usize
    requires near { AreNear by }
    requires target { IsRow target.now }
    requires pivot { IsRow pivot.now }
    requires room { length target.now + length pivot.now ≤ length out.old }
    requires filled_room { length pivot.now ≤ vec_capacity filled.old }
    ensures rows { entries_of (take result out.new)
        ≡ divided (difference by.target by.pivot target.now pivot.now) }
    ensures within { result ≤ length out.new }
    ensures count { result ≤ length target.now + length pivot.now }
    ensures filled { AreFilledBy target.now pivot.now (length pivot.now) filled.new.items }
    ensures length { length out.new ≡ length out.old }
    ensures filled_room { vec_capacity filled.old ≤ vec_capacity filled.new }
{
    // In 128 bits nothing is too far from 0.
    let Some(count) = walk(out, filled, by, target, pivot) else {
        return 0;
    };
    reduce(&mut out[..count]);
    count
}

// Divides numbers by their greatest common divisor.
#[tactic(auto, using(crate::proofs::ReduceFacts::divisor_near, crate::proofs::ReduceFacts::divided_by_divisor))]
fn reduce(wides: &mut [WideEntry])
    requires { AreWide wides.old }
    ensures rows { entries_of wides.new ≡ divided (entries_of wides.old) }
    ensures length { length wides.new ≡ length wides.old }
{
    let divisor = divisor_of(wides);
    divide_by(wides, divisor);
}

// Divides each value by the divisor, if that changes any.
#[tactic(auto, using(crate::proofs::DividedFacts::divided_one))]
fn divide_by(wides: &mut [WideEntry], divisor: u128)
    requires some { 0 < divisor }
    requires near { divisor < 2 ^ 127 }
    ensures rows { entries_of wides.new ≡ divided_by divisor (entries_of wides.old) }
    ensures count { length wides.new ≡ length wides.old }
{
    if divisor != 1 {
        divide(wides, divisor);
    }
}

// Writes the entries, where none is too far from 0, and says how many these are.
#[tactic(auto, using(crate::proofs::ReduceFacts::far_told))]
fn write_near(entries: &mut Vec<Entry>, wides: &[WideEntry]) -> Result<usize, Wide>
    requires room { length wides.now ≤ vec_capacity entries.old }
    ensures ok { IfOk result (λ count. take count entries.new.items ≡ entries_of wides.now) }
    ensures within { IfOk result (λ count. count ≤ length entries.new.items) }
    ensures near { OnOk result (find is_far (entries_of wides.now) ≡ None) }
    ensures far { IfErr result (TellsFar (find is_far (entries_of wides.now))) }
    ensures room { vec_capacity entries.old ≤ vec_capacity entries.new }
{
    if let Some(far) = first_far(wides) {
        return Err(Wide::Value {
            column: far.column,
            value: far.value,
        });
    }
    write_all(entries, wides);
    Ok(wides.len())
}

// Writes entries of which none is too far from 0, and nothing else.
#[tactic(auto, using(crate::proofs::ReduceFacts::near_wide))]
fn write_all(entries: &mut Vec<Entry>, wides: &[WideEntry])
    requires room { length wides.now ≤ vec_capacity entries.old }
    requires near { find is_far (entries_of wides.now) ≡ None }
    ensures rows { entries.new.items ≡ entries_of wides.now }
    ensures room { vec_capacity entries.old ≤ vec_capacity entries.new }
{
    entries.clear();
    for k in 0..wides.len() {
        add(entries, narrow(wides[k]));
    }
}

// Adds an entry.
fn add(entries: &mut Vec<Entry>, entry: Entry)
    requires room { length entries.old.items < vec_capacity entries.old }
    ensures rows { entries.new.items ≡ entries.old.items ++ entry ∷ [] }
    ensures room { vec_capacity entries.old ≤ vec_capacity entries.new }
{
    let _ = entries.push(entry);
}
