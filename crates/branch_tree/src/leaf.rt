//! Leaves.

use bytime_model::Multipliers;

/// Why no plan of a box costs less than its bound.
#[derive(Debug, Drop)]
pub enum Leaf {
    /// A node that must be entered is closed.
    Empty,
    /// Each node has one choice, so there is one plan at the most.
    Unit,
    /// So many times the cost, and so many times what each row is above its limit: what all of it
    /// comes to at the least, over the values 0 or 1 that the box leaves the variables. The weight
    /// is below 2^62.
    Dual { weight: u64, rows: Multipliers },
    /// Prices on capacities and connections, each the multiplier of its row: what the trips of each
    /// flight alone come to at the least, where costs count so many times and prices are paid, less
    /// what all capacities would pay. The weight is below 2^62.
    Lag { weight: u64, rows: Multipliers },
}
