//! Why a leaf has no bound on a box.

/// What is wrong with a leaf, the first of these that is so.
#[derive(Clone, Copy, Debug, PartialEq, Eq)]
pub enum LeafFault {
    /// An Empty leaf, where no node that must be entered is closed.
    NotEmpty,
    /// A Unit leaf, and the first node that must be entered and is closed, by its flight and its
    /// number; or else the first without exactly one choice.
    NotUnit(u32, u16),
    /// A Dual or a Lag leaf, and the first node that must be entered and is closed.
    Closed(u32, u16),
    /// The position of the first multiplier whose row isn't there; or, in a Lag leaf, may have no
    /// price, since it is of no capacity and no connection.
    UnknownRow(u32),
    /// The weight is 0 and the value this, which isn't above 0.
    Useless(i128),
}
