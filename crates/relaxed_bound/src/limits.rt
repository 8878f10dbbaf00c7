//! How far a run goes.

/// How far a run may go, at the most.
#[derive(Clone, Copy, Debug, PartialEq, Eq)]
pub struct Limits {
    /// How many pivots it makes.
    pub pivots: u64,
    /// How many entries its tableau has. Each takes 118 bytes,
    /// of which a run touches what its tableau needs.
    pub cells: u32,
}
