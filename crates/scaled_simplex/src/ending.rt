//! How a run ends, and which row tells why.

use crate::end::End;

/// How a run ended, and the row of its tableau that tells the multipliers.
#[derive(Clone, Copy, Debug, PartialEq, Eq)]
pub struct Ending {
    pub end: End,
    pub row: u32,
}
