//! What the rows of a box's program are made by.

use crate::gather::Gathering;
use crate::numbers::Numbers;
use bytime_model::RowBuffer;
use cut_rows::Relaxation;
use flow_types::OutOfMemory;
use std::alloc::Global;

/// The numbers of the columns, the relaxation, and which columns are flipped.
#[derive(Drop)]
pub struct Frame<'a> {
    pub numbers: Numbers<'a>,
    pub relaxation: Relaxation<'a>,
    pub flips: Vec<bool>,
}

/// Room for a row, and for what lands of it.
#[derive(Debug)]
pub struct Room {
    pub buffer: RowBuffer,
    pub gathering: Gathering,
}

impl Drop for Room {
    fn drop(self) {
        let Room {
            buffer: _,
            gathering: _,
        } = self;
    }
}

impl Room {
    /// Room for any row: 0.2 MB.
    pub fn new(alloc: Global) -> Result<Room, OutOfMemory> {
        Ok(Room {
            buffer: RowBuffer::new(alloc)?,
            gathering: Gathering::empty(alloc),
        })
    }
}
