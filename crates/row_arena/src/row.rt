//! What a row has in a column, and whether an entry of it is too far from 0.
ghost use Rattle.std.specs.Prelude.{◌≡◌, ◌≤◌, length, nat_abs};
ghost use Rattle.std.specs.List.{find};
ghost use Rattle.row_arena.specs.Arena.{is_far};
ghost use Rattle.row_arena.specs.Products.{IsPlaceOf, entries_of, entry_of, far_of};
ghost use Rattle.row_arena.specs.Rows.{IsRow, entry_at, most_entry, value_in};

use crate::entry::{Entry, MOST_ENTRY};
use crate::products::WideEntry;

// What the row has in the column.
#[tactic(auto, using(crate::proofs::PlaceFacts::none_at_end))]
pub fn entry_in(row: &[Entry], column: u32) -> i64
    requires { IsRow row.now }
    ensures { result ≡ entry_at row.now column }
{
    let position = place_of(row, column);
    if position < row.len() {
        value_in(column, row[position])
    } else {
        0
    }
}

// What the entry is, if it is in the column.
fn value_in(column: u32, entry: Entry) -> i64
    ensures { result ≡ value_in column entry }
{
    if entry.column == column {
        entry.value
    } else {
        0
    }
}

// The first position whose column isn't below this one, by bisection. How often it halves depends
// on the length alone, so that no guess of the processor goes wrong.
fn place_of(row: &[Entry], column: u32) -> usize
    requires { IsRow row.now }
    ensures within { result ≤ length row.now }
    ensures place { IsPlaceOf row.now column result }
{
    let mut low = 0;
    let mut count = row.len();
    while count > 1 {
        let half = count / 2;
        if row[low + half - 1].column < column {
            low += half;
        }
        count -= half;
    }
    if count == 1 && row[low].column < column {
        low + 1
    } else {
        low
    }
}

// The first entry that is too far from 0.
pub fn first_far(wides: &[WideEntry]) -> Option<WideEntry>
    ensures { far_of result ≡ find is_far (entries_of wides.now) }
{
    for k in 0..wides.len() {
        if is_far(wides[k]) {
            return Some(wides[k]);
        }
    }
    None
}

// Whether the entry is too far from 0.
#[inline(always)]
pub fn is_far(wide: WideEntry) -> bool
    ensures { result ≡ is_far (entry_of wide) }
{
    wide.value > MOST_ENTRY as i128 || wide.value < -(MOST_ENTRY as i128)
}

// The entry, if it isn't too far from 0.
#[inline(always)]
pub fn narrow(wide: WideEntry) -> Entry
    requires { nat_abs wide.value ≤ most_entry }
    ensures { result ≡ entry_of wide }
{
    Entry {
        column: wide.column,
        value: wide.value as i64,
    }
}
