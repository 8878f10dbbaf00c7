//! The day that is planned.

/// A civil date and time, and how the day from then on is cut into periods.
#[derive(Clone, Copy, Debug, PartialEq, Eq)]
pub struct Day {
    /// 1 to `LAST_YEAR`.
    pub year: u16,
    /// 1 to 12.
    pub month: u8,
    /// 1 to the length of the month.
    pub day: u8,
    /// 0 to 23.
    pub hour: u8,
    /// 0 to 59.
    pub minute: u8,
    /// The length of a period in minutes, 1 to `MOST_MINUTES`.
    pub minutes: u16,
    /// How many periods the day has, 1 to `MOST_PERIODS`.
    pub periods: u16,
}
