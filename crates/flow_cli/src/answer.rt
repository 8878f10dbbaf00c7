//! What a run answers, and how a piece of its work ends early.
ghost use Rattle.std.specs.Prelude.{◌≡◌, [], ◌∷◌, IfOk};
ghost use Rattle.flow_cli.specs.declared.answer.EarlyEnd.TheVariants as early;
ghost use Rattle.flow_cli.specs.Outside.{printed_by};

use crate::status::Status;
use flow_types::{OutOfMemory, Sequence};
use std::alloc::Global;
use std::borrow::CowSlice;
use tree_search::Found;

/// A list of records of searches.
pub type FoundList = Sequence<Found>;

/// How a run ended, and the records of its searches.
#[derive(Debug)]
pub struct Ran {
    pub status: Status,
    /// The record whose plan, bound and nodes were printed, where a day was planned; else none.
    pub records: FoundList,
}

impl Drop for Ran {
    fn drop(self) {
        let Ran {
            status: _,
            records: _,
        } = self;
    }
}

impl Ran {
    /// The end of a run that has no record. It takes no memory.
    pub fn without_record(alloc: Global, status: Status) -> Self
        ensures status { result.status ≡ status }
        ensures records { result.records ≡ [] }
    {
        Ran {
            status,
            records: Sequence::empty(alloc),
        }
    }
}

/// What is printed, how the run ends, and the records of its searches.
#[derive(Drop)]
pub struct Answer {
    pub text: CowSlice<'static, u8>,
    pub status: Status,
    pub records: FoundList,
}

impl Answer {
    /// The answer of a text that was made.
    pub fn of(alloc: Global, text: Vec<u8>, status: Status) -> Self
        ensures { printed_by result ≡ record { text = text.items; status = status; records = [] } }
    {
        Answer {
            text: CowSlice::Owned(text),
            status,
            records: Sequence::empty(alloc),
        }
    }

    /// The answer of a text that was made of a record.
    pub fn of_record(
        alloc: Global,
        text: Vec<u8>,
        status: Status,
        found: Found,
    ) -> Result<Self, OutOfMemory>
        ensures { IfOk result (λ answer.
            printed_by answer
            ≡ record { text = text.items; status = status; records = found ∷ [] }) }
    {
        let mut records = Sequence::empty(alloc);
        records.add(found)?;
        Ok(Answer {
            text: CowSlice::Owned(text),
            status,
            records,
        })
    }

    /// The answer of a text that is always the same. It takes no memory, so a want of memory can't
    /// come in the place of a read fault.
    pub fn fixed(alloc: Global, text: &'static [u8], status: Status) -> Self
        ensures { printed_by result ≡ record { text = text.now; status = status; records = [] } }
    {
        Answer {
            text: CowSlice::Borrowed(text),
            status,
            records: Sequence::empty(alloc),
        }
    }
}

/// How a piece of work ends before its end.
#[derive(Drop)]
pub enum EarlyEnd {
    /// The answer is there already.
    Answered(Answer),
    OutOfMemory,
}

impl From<OutOfMemory> for EarlyEnd {
    ghost from_gives = { λ _ e. e ≡ early.OutOfMemory };

    fn from(_: OutOfMemory) -> Self {
        EarlyEnd::OutOfMemory
    }
}
