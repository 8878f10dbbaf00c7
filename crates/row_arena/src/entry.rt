//! Entries of rows.

/// How far from 0 an entry may be, either way.
pub const MOST_ENTRY: i64 = (1 << 62) - 1;

/// A number in a column.
#[derive(Clone, Copy, Debug, PartialEq, Eq)]
pub struct Entry {
    pub column: u32,
    pub value: i64,
}
