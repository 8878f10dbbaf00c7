//! What a box says of one node.

/// The periods from `lo` to `hi`, both among them.
#[derive(Clone, Copy, Debug, PartialEq, Eq)]
pub struct Window {
    pub lo: u16,
    pub hi: u16,
}

/// When a flight may enter a node, and whether it must.
#[derive(Clone, Copy, Debug, PartialEq, Eq)]
pub struct Access {
    /// Its window, nothing where the node is closed.
    pub window: Option<Window>,
    /// Whether the flight must enter the node.
    pub must: bool,
}
