//! Rows over columns of which some are flipped.
ghost use Rattle.std.specs.Prelude.{◌≡◌, ◌<◌, ◌+◌, ◌+ℤ◌, ◌^◌, All, length, map, pos, unsigned_abs};
ghost use Rattle.std.specs.Int.{int_max};
ghost use Rattle.presolve.specs.Gathering.{size_of};
ghost use Rattle.presolve.specs.Relaxed.{flipped_entry, flipped_part, flipped_sum, greatest};

use row_arena::Entry;

/// The sum of two numbers.
pub fn plus(a: i64, b: i64) -> i64
    requires { unsigned_abs a + unsigned_abs b < 2 ^ 62 }
    ensures { result ≡ a +ℤ b }
{
    a + b
}

// The factor, where it is positive.
fn above(entry: Entry) -> i64
    ensures { result ≡ int_max (pos 0) entry.value }
{
    entry.value.max(0)
}

/// The greatest value of the row, with each column from 0 to 1.
pub fn greatest(entries: &[Entry]) -> i64
    requires { size_of entries.now < 2 ^ 62 }
    ensures { result ≡ greatest entries.now }
{
    let mut total = 0;
    for entry in entries {
        total = plus(total, above(*entry));
    }
    total
}

// The factor, where the column is flipped.
fn if_flipped(flips: &[bool], entry: Entry) -> i64
    requires { entry.column < length flips.now }
    ensures { result ≡ flipped_part flips.now entry }
{
    if flips[entry.column as usize] {
        entry.value
    } else {
        0
    }
}

/// The sum of the factors of flipped columns.
pub fn flipped_sum(flips: &[bool], entries: &[Entry]) -> i64
    requires within { All (λ entry. entry.column < length flips.now) entries.now }
    requires small { size_of entries.now < 2 ^ 62 }
    ensures { result ≡ flipped_sum flips.now entries.now }
{
    let mut total = 0;
    for entry in entries {
        total = plus(total, if_flipped(flips, *entry));
    }
    total
}

// The entry, with the factor turned where the column is flipped.
fn flipped(flips: &[bool], entry: Entry) -> Entry
    requires within { entry.column < length flips.now }
    requires small { unsigned_abs entry.value < 2 ^ 62 }
    ensures { result ≡ flipped_entry flips.now entry }
{
    if flips[entry.column as usize] {
        Entry {
            column: entry.column,
            value: -entry.value,
        }
    } else {
        entry
    }
}

/// Negates the factors of flipped columns.
pub fn flip(flips: &[bool], entries: &mut [Entry])
    requires within { All (λ entry. entry.column < length flips.now) entries.old }
    requires small { All (λ entry. unsigned_abs entry.value < 2 ^ 62) entries.old }
    ensures { entries.new ≡ map (flipped_entry flips.now) entries.old }
{
    for k in 0..entries.len() {
        entries[k] = flipped(flips, entries[k]);
    }
}
