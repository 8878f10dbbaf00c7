//! Why a row can't be kept.

/// What there is no room for.
#[derive(Clone, Copy, Debug, PartialEq, Eq)]
pub enum Wide {
    /// The first entry of the row that is further from 0 than `MOST_ENTRY`.
    Value { column: u32, value: i128 },
    /// How many entries there are, and how many more there would be, which pass the cells.
    Cells { live: u64, more: u64 },
}
