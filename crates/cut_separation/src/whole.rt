//! The kinds of whole cuts.

/// A kind of whole cuts, in their order.
#[derive(Clone, Copy, Debug, PartialEq, Eq)]
pub enum WholeKind {
    /// Of all heads of a node.
    Heads,
    /// Of having departed in time for a node.
    Departed,
}
