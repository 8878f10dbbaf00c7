//! The tableau of a run, and what finds its way in it.

use crate::basis::Basis;
use crate::lists::RowLists;
use row_arena::RowArena;

/// The rows of a tableau, the index that each stands for, and where entries may be; and the rows
/// that a pivot has to clear.
pub struct Board {
    pub arena: RowArena,
    pub basis: Basis,
    pub lists: RowLists,
    pub todo: Vec<u32>,
}

impl Drop for Board {
    fn drop(self) {
        let Board {
            arena: _,
            basis: _,
            lists: _,
            todo: _,
        } = self;
    }
}
