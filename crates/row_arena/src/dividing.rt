//! The greatest common divisor of a row, and the row divided by it.
ghost use Rattle.std.specs.Prelude.{◌≡◌, ◌≢◌, ◌/◌, ℕ, ◌<◌, ◌≤◌, ◌^◌, All, length, nat_abs, pos};
ghost use Rattle.std.specs.Int.{IsGcd};
ghost use Rattle.row_arena.specs.Combining.{divisor_of, entry_by};
ghost use Rattle.row_arena.specs.Products.{divided_by, entries_of, entry_of};
ghost use Rattle.row_arena.specs.Rows.{most_entry};

use crate::entry::Entry;
use crate::products::WideEntry;

// The greatest common divisor of the values: 1 where there are none.
pub fn divisor_of(entries: &[WideEntry]) -> u128
    requires { All (λ entry. entry.value ≢ pos 0) entries.now }
    ensures divisor { result ≡ divisor_of (entries_of entries.now) }
    ensures some { 0 < result }
{
    if entries.is_empty() {
        return 1;
    }
    common_divisor(entries)
}

// The greatest common divisor of values of which there are some.
fn common_divisor(entries: &[WideEntry]) -> u128
    requires some { 0 < length entries.now }
    requires no_zeros { All (λ entry. entry.value ≢ pos 0) entries.now }
    ensures divisor { result ≡ divisor_of (entries_of entries.now) }
    ensures some { 0 < result }
{
    let mut divisor = magnitude(entries[0]);
    for k in 1..entries.len() {
        if divisor == 1 {
            return 1;
        }
        divisor = gcd(magnitude(entries[k]), divisor);
    }
    divisor
}

// The greatest common divisor of entries in 64 bits: 1 where there are none.
#[tactic(auto, using(crate::proofs::DivisorFacts::common_none))]
pub fn narrow_divisor(entries: &[Entry]) -> u64
    requires { All (λ entry. entry.value ≢ pos 0) entries.now }
    ensures divisor { result ≡ divisor_of entries.now }
    ensures some { 0 < result }
{
    if entries.is_empty() {
        return 1;
    }
    let mut divisor = 0;
    for k in 0..entries.len() {
        divisor = gcd_narrow(size_of(entries[k]), divisor);
        if divisor == 1 {
            return 1;
        }
    }
    divisor
}

// Divides each of the entries.
#[tactic(auto, using(crate::proofs::ReduceFacts::near_at, crate::proofs::ReduceFacts::narrow_all))]
pub fn divide_narrow(entries: &mut [Entry], divisor: u64)
    requires some { 0 < divisor }
    requires near { All (λ entry. nat_abs entry.value ≤ most_entry) entries.old }
    ensures length { length entries.new ≡ length entries.old }
    ensures divided { entries.new ≡ divided_by divisor entries.old }
{
    for k in 0..entries.len() {
        entries[k] = narrow_quotient(entries[k], divisor);
    }
}

// An entry with its value divided.
#[inline(always)]
#[tactic(auto, using(crate::proofs::DividedFacts::parts))]
fn narrow_quotient(entry: Entry, divisor: u64) -> Entry
    requires some { 0 < divisor }
    requires near { nat_abs entry.value ≤ most_entry }
    ensures { result ≡ entry_by divisor entry }
{
    let size = size_of(entry) / divisor;
    if entry.value < 0 {
        Entry {
            column: entry.column,
            value: -(size as i64),
        }
    } else {
        Entry {
            column: entry.column,
            value: size as i64,
        }
    }
}

// How far an entry is from 0.
#[inline(always)]
fn size_of(entry: Entry) -> u64
    ensures { result ≡ nat_abs entry.value }
{
    entry.value.unsigned_abs()
}

// How far an entry is from 0, in 128 bits.
#[inline(always)]
fn magnitude(entry: WideEntry) -> u128
    ensures { result ≡ nat_abs entry.value }
{
    entry.value.unsigned_abs()
}

// The greatest common divisor: in 64 bits as soon as both fit.
fn gcd(a: u128, b: u128) -> u128
    ensures { IsGcd a b result }
{
    let mut x = a;
    let mut y = b;
    while y != 0 {
        if x <= u64::MAX as u128 && y <= u64::MAX as u128 {
            return gcd_narrow(x as u64, y as u64) as u128;
        }
        let rest = x % y;
        x = y;
        y = rest;
    }
    x
}

// The greatest common divisor of two numbers of 64 bits.
pub fn gcd_narrow(a: u64, b: u64) -> u64
    ensures { IsGcd a b result }
{
    let mut x = a;
    let mut y = b;
    while y != 0 {
        let rest = x % y;
        x = y;
        y = rest;
    }
    x
}

// Divides each value.
#[tactic(auto, using(crate::proofs::DivideFacts::divided_all))]
pub fn divide(entries: &mut [WideEntry], divisor: u128)
    requires some { 0 < divisor }
    requires near { divisor < 2 ^ 127 }
    ensures length { length entries.new ≡ length entries.old }
    ensures divided { entries_of entries.new ≡ divided_by divisor (entries_of entries.old) }
{
    for k in 0..entries.len() {
        entries[k] = quotient(entries[k], divisor);
    }
}

// An entry with its value divided: in 64 bits where both fit.
#[inline(always)]
fn quotient(entry: WideEntry, divisor: u128) -> WideEntry
    requires some { 0 < divisor }
    requires near { divisor < 2 ^ 127 }
    ensures { entry_of result ≡ entry_by divisor (entry_of entry) }
{
    let size = magnitude(entry);
    if size <= u64::MAX as u128 && divisor <= u64::MAX as u128 {
        with_size(entry, (size as u64 / divisor as u64) as u128)
    } else {
        WideEntry {
            column: entry.column,
            value: entry.value / divisor as i128,
        }
    }
}

// The entry with another size and its own sign.
#[inline(always)]
#[tactic(auto, using(crate::proofs::DividedFacts::parts))]
fn with_size(entry: WideEntry, size: u128) -> WideEntry
    requires { size < 2 ^ 64 }
    ensures { (divisor : ℕ) → size ≡ nat_abs entry.value / divisor
        → entry_of result ≡ entry_by divisor (entry_of entry) }
{
    if entry.value < 0 {
        WideEntry {
            column: entry.column,
            value: -(size as i128),
        }
    } else {
        WideEntry {
            column: entry.column,
            value: size as i128,
        }
    }
}
