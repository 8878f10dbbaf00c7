//! Rows, and how often each is counted.

use crate::names::RowName;
use flow_types::Sequence;

/// A row of the by-time program, and how often it is counted.
#[derive(Clone, Copy, Debug, PartialEq, Eq)]
pub struct Multiplier {
    pub row: RowName,
    /// Below 2^62.
    pub value: u64,
}

/// A list of multipliers.
pub type Multipliers = Sequence<Multiplier>;
