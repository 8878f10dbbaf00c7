//! How far the best plan is from the bound.
use flow_types::{Bound, Scenario};

// On a day of more flights than this, more prices are looked for only where the gap is wider than
// such a part of the bound.
const MANY_FLIGHTS: usize = 300;

const NARROW_GAP: i128 = 16;

/// What the best plan costs, if one is known, and a bound.
#[derive(Clone, Copy, Debug, PartialEq, Eq)]
pub struct Gap {
    pub cutoff: Option<i64>,
    pub bound: Bound,
}

impl Gap {
    /// Whether the bound reaches what the best plan costs.
    pub fn is_closed(self) -> bool {
        self.bound.is_reached(self.cutoff)
    }

    /// Whether it pays to look for more prices and plans: where the gap is open, and on a day of
    /// many flights only where it is wide.
    pub fn is_far(self, s: &Scenario) -> bool {
        if self.is_closed() {
            return false;
        }
        match (self.bound, self.cutoff) {
            (Bound::AtLeast(least), Some(cost)) => {
                let gap = i128::from(cost).saturating_sub(least);
                s.flights().len() <= MANY_FLIGHTS || gap > least.saturating_abs() / NARROW_GAP
            }
            _ => true,
        }
    }
}
