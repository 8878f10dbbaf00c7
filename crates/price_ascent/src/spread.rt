//! How much the times of trips differ from step to step.

/// The periods in which a flight entered a node in the steps of a climb, added up.
#[derive(Clone, Copy, Debug, PartialEq, Eq)]
pub struct Spread {
    count: u64,
    sum: u64,
    squares: u64,
}

impl Spread {
    /// Of no steps.
    pub fn none() -> Spread {
        Spread {
            count: 0,
            sum: 0,
            squares: 0,
        }
    }

    /// Adds a period.
    pub fn add(&mut self, time: u16) {
        let time = u64::from(time);
        self.count = self.count.saturating_add(1);
        self.sum = self.sum.saturating_add(time);
        self.squares = self.squares.saturating_add(time.saturating_mul(time));
    }

    /// The mean of the periods, rounded down; nothing where there are none.
    pub fn mean(&self) -> Option<u64> {
        self.sum.checked_div(self.count)
    }

    /// How far they are apart: the variance, times the square of their number.
    pub fn width(&self) -> u64 {
        self.count
            .saturating_mul(self.squares)
            .saturating_sub(self.sum.saturating_mul(self.sum))
    }
}
