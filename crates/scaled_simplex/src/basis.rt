//! Which index each row stands for.
ghost use Rattle.std.specs.Prelude.{◌≡◌, ◌<◌, ◌≤◌, ◌+◌, ◌-◌, ◌^◌, ℕ, IfOk, length, slice_index};
ghost use Rattle.std.specs.List.{range_with_len};

use flow_types::OutOfMemory;
use number_set::NumberSet;
use std::alloc::Global;

/// The index that each row stands for, the row of each such index, and those of them whose rows
/// have a negative right side.
#[derive(Debug)]
pub struct Basis {
    pub index_of: Vec<u32>,
    pub row_of: Vec<u32>,
    pub negative: NumberSet,
}

impl Drop for Basis {
    fn drop(self) {
        let Basis {
            index_of: _,
            row_of: _,
            negative: _,
        } = self;
    }
}

impl Basis {
    ghost use Rattle.std.specs.Prelude.{◌≡◌, ◌≢◌, ◌<◌, ◌≤◌, ◌+◌, ◌^◌, ℕ, IfOk, MatchOption, false, true, length, set, slice_index};
    ghost use Rattle.std.specs.List.{range_with_len};
    ghost use Rattle.number_set.specs.Numbers.{IsChanged, IsFirst, has};
    ghost use Rattle.scaled_simplex.specs.Board.{IsLeastIn};

    /// Each row stands for what it leaves of its limit, and none has a negative right side yet.
    pub fn new(alloc: Global, columns: u32, rows: u32) -> Result<Basis, OutOfMemory>
        requires { columns + rows < 2 ^ 32 }
        ensures index_of { IfOk result (λ basis.
            basis.index_of.items ≡ range_with_len columns rows) }
        ensures count { IfOk result (λ basis. length basis.row_of.items ≡ columns + rows) }
        ensures row_of { IfOk result (λ basis. (k : ℕ) → k < rows
            → slice_index basis.row_of.items (columns + k) ≡ k) }
        ensures bound { IfOk result (λ basis. basis.negative.bound ≡ columns + rows) }
        ensures none { IfOk result (λ basis. (k : ℕ) → has basis.negative k ≡ false) }
    {
        Ok(Basis {
            index_of: numbers_from(alloc, columns, rows)?,
            row_of: rows_of(alloc, columns, rows)?,
            negative: NumberSet::new(alloc, columns + rows)?,
        })
    }

    /// The row that stands for the least index of those with a negative right side.
    pub fn leaving(&self) -> Option<u32>
        requires { length self.now.row_of.items ≡ self.now.negative.bound }
        ensures { MatchOption result ((k : ℕ) → has self.now.negative k ≡ false)
            (λ row. IsLeastIn self.now.negative self.now.row_of.items row) }
    {
        match self.negative.first() {
            None => None,
            Some(index) => Some(self.row_of[index as usize]),
        }
    }

    /// Says whether the row has a negative right side.
    pub fn put_sign(&mut self, row: u32, negative: bool)
        requires row { row < length self.old.index_of.items }
        requires index { slice_index self.old.index_of.items row < self.old.negative.bound }
        ensures signs { IsChanged (slice_index self.old.index_of.items row) negative
            self.old.negative self.new.negative }
        ensures index_of { self.new.index_of ≡ self.old.index_of }
        ensures row_of { self.new.row_of ≡ self.old.row_of }
    {
        let index = self.index_of[row as usize];
        if negative {
            self.negative.insert(index);
        } else {
            self.negative.remove(index);
        }
    }

    /// The row stands for this index from now on.
    pub fn enter(&mut self, row: u32, index: u32)
        requires row { row < length self.old.index_of.items }
        requires index { index < length self.old.row_of.items }
        ensures index_of { self.new.index_of.items ≡ set self.old.index_of.items row index }
        ensures row_of { self.new.row_of.items ≡ set self.old.row_of.items index row }
        ensures negative { self.new.negative ≡ self.old.negative }
    {
        self.index_of[row as usize] = index;
        self.row_of[index as usize] = row;
    }
}

// So many numbers from one on.
#[tactic(auto, using(exact_sums::proofs::RangeFacts::range_more))]
fn numbers_from(alloc: Global, from: u32, count: u32) -> Result<Vec<u32>, OutOfMemory>
    requires { from + count < 2 ^ 32 }
    ensures { IfOk result (λ numbers. numbers.items ≡ range_with_len from count) }
{
    let mut numbers = Vec::with_capacity(alloc, count as usize)?;
    for k in 0..count {
        numbers.push(from + k)?;
    }
    Ok(numbers)
}

// For each index the row that stands for it, where one does.
fn rows_of(alloc: Global, columns: u32, rows: u32) -> Result<Vec<u32>, OutOfMemory>
    requires { columns + rows < 2 ^ 32 }
    ensures count { IfOk result (λ numbers. length numbers.items ≡ columns + rows) }
    ensures rows { IfOk result (λ numbers. (k : ℕ) → k < columns + rows
        → slice_index numbers.items k ≡ k - columns) }
{
    let mut numbers = Vec::with_capacity(alloc, (columns + rows) as usize)?;
    for index in 0..columns + rows {
        numbers.push(index.saturating_sub(columns))?;
    }
    Ok(numbers)
}
