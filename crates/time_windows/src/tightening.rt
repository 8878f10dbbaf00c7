//! What is told of a tight box.

/// What is known of a tight box.
#[derive(Clone, Copy, Debug, PartialEq, Eq)]
pub enum Tight {
    /// No node that must be entered is closed.
    Live,
    /// The first node that must be entered and is closed, by its flight and its number: there is no
    /// plan in the box.
    Empty(u32, u16),
}
