//! What a run does next.

use crate::end::End;

/// The run ends, and a row tells why; or a row leaves, and an index enters.
#[derive(Clone, Copy, Debug, PartialEq, Eq)]
pub enum Iteration {
    Ends { end: End, row: u32 },
    Pivots { row: u32, index: u32 },
}
