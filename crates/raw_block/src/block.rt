//! A block, and its places.
ghost use Rattle.std.specs.Prelude.{◌≡◌, ◌<◌, Some, None, map, length, take, drop, replicate, get_or, slice_set, IfOk};
ghost use Rattle.raw_block.specs.Places.{IsFilled, IsRun};

use crate::cells::{Base, Cells, Deed, allocate, deallocate};
use std::alloc::{AllocError, Global};
use std::marker::Model;
use std_alloc::room::may_hold;

/// So many places in one block of memory, each empty or holding a value. Contracts see the list of
/// places.
pub struct Block<T> {
    base: Base<T>,
    len: usize,
    cells: Cells<T>,
    deed: Deed<T, Global>,
    alloc: Global,
}

impl<T> Model for Block<T> {
    ghost use Rattle.std.specs.Prelude.{List, Option};

    ghost Value = { List (Option T) };

    ghost use Rattle.raw_block.specs.Parts.{IsBlock};

    ghost view = { λ b. b.cells.slots };

    ghost invariant = { λ b. IsBlock b };
}

impl<T: Copy> Block<T> {
    /// Empty places. Takes the size of a value for each.
    pub fn new(alloc: Global, len: usize) -> Result<Block<T>, AllocError>
        ensures { IfOk result (λ block. block ≡ replicate len None) }
    {
        if !may_hold::<T>(len) {
            return Err(AllocError);
        }
        let (base, cells, deed) = allocate(&alloc, len)?;
        Ok(Block {
            base,
            len,
            cells,
            deed,
            alloc,
        })
    }

    /// How many places there are.
    #[inline(always)]
    pub fn len(&self) -> usize
        ensures { result ≡ length self.now }
    {
        self.len
    }

    /// What a place holds.
    #[inline(always)]
    pub fn get(&self, index: usize) -> T
        requires { IsFilled self.now index }
        ensures { get_or self.now index None ≡ Some result }
    {
        *self.cells.get(self.base, index)
    }

    /// Puts a value in a place, whether or not it held one.
    #[inline(always)]
    pub fn put(&mut self, index: usize, item: T)
        requires { index < length self.old }
        ensures { self.new ≡ slice_set self.old index (Some item) }
    {
        self.cells.write(self.base, index, item);
    }

    /// The values of so many places from one on.
    #[inline(always)]
    pub fn run(&self, from: usize, len: usize) -> &[T]
        requires { IsRun self.now from len }
        ensures { take len (drop from self.now) ≡ map Some result.now }
    {
        self.cells.slice(self.base, from, len)
    }
}

impl<T> Drop for Block<T> {
    fn drop(self) {
        let Block {
            base,
            len,
            cells,
            deed,
            alloc,
        } = self;
        deallocate(&alloc, base, len, cells, deed);
    }
}
