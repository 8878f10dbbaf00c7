//! Two rows side by side, by one walk over both.
ghost use Rattle.std.specs.Prelude.{◌≡◌, ◌<◌, ◌≤◌, ◌+◌, ◌++◌, ◌∷◌, [], All, IfSome, IsSome, IsTrue, length, nat_abs, pos, take, vec_capacity};
ghost use Rattle.row_arena.specs.Combining.{difference};
ghost use Rattle.row_arena.specs.Products.{AreFilledBy, AreNear, IsBeside, IsPast, IsWalked, difference_in, first_entries};
ghost use Rattle.row_arena.specs.Rows.{IsRow, most_entry};

use crate::entry::Entry;
use crate::pair::Pair;
use crate::products::Factors;
use crate::width::Width;

// How many entries of the target lie behind the walk, and how many numbers are written.
#[derive(Clone, Copy)]
struct Spot {
    target: usize,
    count: usize,
}

/// Writes what comes of two rows, and the columns that only the pivot has, in place of what was
/// there, and says how many numbers that are. There may be none where one of them is too far from
/// 0 for the width, and then what is written tells nothing.
pub fn walk<W: Width>(
    out: &mut [W],
    filled: &mut Vec<u32>,
    by: Factors,
    target: &[Entry],
    pivot: &[Entry],
) -> Option<usize>
    requires near { AreNear by }
    requires target { IsRow target.now }
    requires pivot { IsRow pivot.now }
    requires room { length target.now + length pivot.now ≤ length out.old }
    requires filled_room { length pivot.now ≤ vec_capacity filled.old }
    ensures rows { IfSome result (λ count. first_entries W.entry count out.new
        ≡ difference by.target by.pivot target.now pivot.now) }
    ensures kept { IfSome result (λ count. All W.IsKept (take count out.new)) }
    ensures within { IfSome result (λ count. count ≤ length target.now + length pivot.now) }
    ensures filled { IfSome result (λ _.
        AreFilledBy target.now pivot.now (length pivot.now) filled.new.items) }
    ensures all { IsTrue W.takes_all → IsSome result }
    ensures length { length out.new ≡ length out.old }
    ensures filled_room { vec_capacity filled.old ≤ vec_capacity filled.new }
{
    filled.clear();
    let mut at = Spot {
        target: 0,
        count: 0,
    };
    for k in 0..pivot.len() {
        let Some(here) = before(out, by, target, pivot, k, at) else {
            return None;
        };
        let Some(next) = beside(out, by, target, pivot, k, here) else {
            return None;
        };
        if next.target == here.target {
            fill(filled, pivot[k].column);
        }
        at = next;
    }
    rest(out, by, target, pivot, at)
}

// Writes what the target has before the pivot's next column.
#[inline(always)]
fn before<W: Width>(
    out: &mut [W],
    by: Factors,
    target: &[Entry],
    pivot: &[Entry],
    k: usize,
    at: Spot,
) -> Option<Spot>
    requires near { AreNear by }
    requires target { IsRow target.now }
    requires pivot { IsRow pivot.now }
    requires next { k < length pivot.now }
    requires room { length target.now + length pivot.now ≤ length out.old }
    requires walked { IsWalked by target.now pivot.now at.target k
        (first_entries W.entry at.count out.old) }
    requires kept { All W.IsKept (take at.count out.old) }
    requires within { at.count ≤ at.target + k }
    ensures walked { IfSome result (λ now. IsWalked by target.now pivot.now now.target k
        (first_entries W.entry now.count out.new)) }
    ensures kept { IfSome result (λ now. All W.IsKept (take now.count out.new)) }
    ensures within { IfSome result (λ now. now.count ≤ now.target + k) }
    ensures past { IfSome result (λ now. IsPast target.now pivot.now now.target k) }
    ensures all { IsTrue W.takes_all → IsSome result }
    ensures length { length out.new ≡ length out.old }
{
    let column = pivot[k].column;
    let mut i = at.target;
    let mut count = at.count;
    while i < target.len() && target[i].column < column {
        let Some(more) = put(out, count, by, of_target(target[i])) else {
            return None;
        };
        i += 1;
        count = more;
    }
    Some(Spot { target: i, count })
}

// Writes what the pivot has in its next column, with what the target has there.
#[inline(always)]
fn beside<W: Width>(
    out: &mut [W],
    by: Factors,
    target: &[Entry],
    pivot: &[Entry],
    k: usize,
    at: Spot,
) -> Option<Spot>
    requires near { AreNear by }
    requires target { IsRow target.now }
    requires pivot { IsRow pivot.now }
    requires next { k < length pivot.now }
    requires room { length target.now + length pivot.now ≤ length out.old }
    requires walked { IsWalked by target.now pivot.now at.target k
        (first_entries W.entry at.count out.old) }
    requires kept { All W.IsKept (take at.count out.old) }
    requires within { at.count ≤ at.target + k }
    requires past { IsPast target.now pivot.now at.target k }
    ensures walked { IfSome result (λ now. IsWalked by target.now pivot.now now.target (k + 1)
        (first_entries W.entry now.count out.new)) }
    ensures kept { IfSome result (λ now. All W.IsKept (take now.count out.new)) }
    ensures within { IfSome result (λ now. now.count ≤ now.target + (k + 1)) }
    ensures beside { IfSome result (λ now.
        IsBeside target.now pivot.now at.target k now.target) }
    ensures all { IsTrue W.takes_all → IsSome result }
    ensures length { length out.new ≡ length out.old }
{
    if at.target < target.len() && target[at.target].column == pivot[k].column {
        let Some(count) = put(out, at.count, by, of_both(target[at.target], pivot[k])) else {
            return None;
        };
        return Some(Spot {
            target: at.target + 1,
            count,
        });
    }
    let Some(count) = put(out, at.count, by, of_pivot(pivot[k])) else {
        return None;
    };
    Some(Spot {
        target: at.target,
        count,
    })
}

// Writes what the target has behind all of the pivot, and says how much is written in all.
fn rest<W: Width>(
    out: &mut [W],
    by: Factors,
    target: &[Entry],
    pivot: &[Entry],
    at: Spot,
) -> Option<usize>
    requires near { AreNear by }
    requires target { IsRow target.now }
    requires pivot { IsRow pivot.now }
    requires room { length target.now + length pivot.now ≤ length out.old }
    requires walked { IsWalked by target.now pivot.now at.target (length pivot.now)
        (first_entries W.entry at.count out.old) }
    requires kept { All W.IsKept (take at.count out.old) }
    requires within { at.count ≤ at.target + length pivot.now }
    ensures rows { IfSome result (λ count. first_entries W.entry count out.new
        ≡ difference by.target by.pivot target.now pivot.now) }
    ensures kept { IfSome result (λ count. All W.IsKept (take count out.new)) }
    ensures within { IfSome result (λ count. count ≤ length target.now + length pivot.now) }
    ensures all { IsTrue W.takes_all → IsSome result }
    ensures length { length out.new ≡ length out.old }
{
    let mut count = at.count;
    for i in at.target..target.len() {
        let Some(more) = put(out, count, by, of_target(target[i])) else {
            return None;
        };
        count = more;
    }
    Some(count)
}

// Writes what comes of a pair behind so many numbers, where it isn't 0, and says how many there
// are then.
#[inline(always)]
fn put<W: Width>(out: &mut [W], count: usize, by: Factors, pair: Pair) -> Option<usize>
    requires near { AreNear by }
    requires room { count < length out.old }
    requires kept { All W.IsKept (take count out.old) }
    ensures rows { IfSome result (λ now. first_entries W.entry now out.new
        ≡ first_entries W.entry count out.old ++ difference_in by.target by.pivot pair) }
    ensures kept { IfSome result (λ now. All W.IsKept (take now out.new)) }
    ensures within { IfSome result (λ now. now ≤ count + 1) }
    ensures all { IsTrue W.takes_all → IsSome result }
    ensures length { length out.new ≡ length out.old }
{
    let Some(item) = W::of_pair(by, pair) else {
        return None;
    };
    if item.is_zero() {
        return Some(count);
    }
    out[count] = item;
    Some(count + 1)
}

// What is of the target alone.
#[inline(always)]
fn of_target(entry: Entry) -> Pair
    requires { nat_abs entry.value ≤ most_entry }
    ensures column { result.column ≡ entry.column }
    ensures target { result.target ≡ entry.value }
    ensures pivot { result.pivot ≡ pos 0 }
{
    Pair {
        column: entry.column,
        target: entry.value,
        pivot: 0,
    }
}

// What is of the pivot alone.
#[inline(always)]
fn of_pivot(entry: Entry) -> Pair
    requires { nat_abs entry.value ≤ most_entry }
    ensures column { result.column ≡ entry.column }
    ensures target { result.target ≡ pos 0 }
    ensures pivot { result.pivot ≡ entry.value }
{
    Pair {
        column: entry.column,
        target: 0,
        pivot: entry.value,
    }
}

// What is of both, in one column.
#[inline(always)]
fn of_both(target: Entry, pivot: Entry) -> Pair
    requires target { nat_abs target.value ≤ most_entry }
    requires pivot { nat_abs pivot.value ≤ most_entry }
    ensures column { result.column ≡ target.column }
    ensures target { result.target ≡ target.value }
    ensures pivot { result.pivot ≡ pivot.value }
{
    Pair {
        column: target.column,
        target: target.value,
        pivot: pivot.value,
    }
}

// Adds a column.
#[inline(always)]
fn fill(filled: &mut Vec<u32>, column: u32)
    requires room { length filled.old.items < vec_capacity filled.old }
    ensures columns { filled.new.items ≡ filled.old.items ++ column ∷ [] }
    ensures count { length filled.new.items ≡ length filled.old.items + 1 }
    ensures room { vec_capacity filled.old ≤ vec_capacity filled.new }
{
    let _ = filled.push(column);
}
