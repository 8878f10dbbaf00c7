//! Where a row lies.

/// So many entries from a position of the block on, in room for no fewer.
#[derive(Clone, Copy, Debug, PartialEq, Eq)]
pub struct Place {
    pub from: usize,
    pub len: usize,
    pub room: usize,
}
