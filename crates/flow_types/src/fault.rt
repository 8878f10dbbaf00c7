//! Where a text has its first fault, and what it is.

/// What is wrong. The discriminants are the order in which causes at one field are reported.
#[derive(Clone, Copy, Debug, PartialEq, Eq)]
pub enum Cause {
    /// The text has no record, or its first isn't `day`.
    NoDay = 1,
    /// The first field is no kind of record, or a `cap` record names no kind of capacity.
    UnknownKind = 2,
    /// The record lacks this field.
    MissingField = 3,
    /// The record has this field past its last.
    ExtraField = 4,
    /// The field isn't a name.
    BadName = 5,
    /// The field isn't a number.
    BadNumber = 6,
    /// The field is no date and time of the calendar.
    BadDate = 7,
    /// What may stand once stands again.
    Repeated = 8,
    /// Nothing of this name stands in an earlier record.
    UnknownName = 9,
    /// The number is outside its limits.
    OutOfRange = 10,
    /// A period comes before the one that it has to follow.
    BackInTime = 11,
    /// The leg starts where no earlier leg of its flight leads.
    Unreached = 12,
    /// The leg leads back to where its flight has been.
    BackLeg = 13,
    /// The second flight doesn't depart where the first arrives.
    Apart = 14,
    /// There are as many as a scenario may have.
    Limit = 15,
    /// The table has too few values for the flight.
    ShortTable = 16,
    /// No leg leads to the flight's destination.
    NoRoute = 17,
    /// A leg leads to a sector that none leaves.
    DeadEnd = 18,
}

/// The first fault of a text.
#[derive(Clone, Copy, Debug, PartialEq, Eq)]
pub struct Fault {
    /// The number of the record, from 1.
    pub at: u32,
    /// The number of the field in it, from 1.
    pub field: usize,
    pub cause: Cause,
}
