//! An item of a list of rows.

/// A row, and the number of the link of the next one, counted from 1, or 0.
#[derive(Clone, Copy, Debug, PartialEq, Eq)]
pub struct Link {
    pub row: u32,
    pub next: u32,
}
