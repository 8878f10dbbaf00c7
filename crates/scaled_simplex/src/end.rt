//! How a run ends.

/// How a run of the dual simplex ends. Each end tells a bound that is true.
#[derive(Clone, Copy, Debug, PartialEq, Eq)]
pub enum End {
    /// No right side is negative. No values of the columns that keep the constraints cost less than
    /// the tableau's value.
    Optimal,
    /// The value, rounded up, has reached the cutoff.
    Cut,
    /// No values of the columns keep the constraints.
    Infeasible,
    /// The given number of pivots was made.
    Limit,
    /// A number or the number of entries passed what there is room for.
    Wide,
}
