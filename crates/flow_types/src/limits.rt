//! How large a text, a scenario and the numbers in it may be.

/// The most bytes of a text: 64 MiB.
pub const MOST_TEXT_BYTES: u64 = 67_108_864;

/// The most bytes of a name.
pub const MOST_NAME_BYTES: usize = 32;

/// The most digits of a number in a text, so that each one fits in 64 bits.
pub const MOST_DIGITS: usize = 18;

/// The last year that a day may be in.
pub const LAST_YEAR: u16 = 9998;

/// The most minutes of a period.
pub const MOST_MINUTES: u16 = 120;

/// The most periods of a day.
pub const MOST_PERIODS: u16 = 512;

/// The most places.
pub const MOST_PLACES: usize = 1000;

/// The greatest capacity of a place in a period.
pub const MOST_CAPACITY: u32 = 1_000_000;

/// The most flights.
pub const MOST_FLIGHTS: usize = 2000;

/// The most nodes of a flight, both airports among them.
pub const MOST_NODES: usize = 32;

/// The most legs of a flight.
pub const MOST_LEGS: usize = 64;

/// The most nodes of all flights together.
pub const MOST_NODES_IN_ALL: usize = 20_000;

/// The greatest delay, least time of a leg and turnaround, in periods.
pub const MOST_DELAY: u16 = 511;

/// The greatest cost of a period of delay, on the ground or in the air.
pub const MOST_PERIOD_COST: u32 = 1_000_000;

/// The most tables.
pub const MOST_TABLES: usize = 1000;

/// The most values of a table: one for each delay from none to the greatest.
pub const MOST_VALUES: usize = 512;

/// The greatest value of a table, above and below zero.
pub const MOST_VALUE: i64 = 1_000_000_000;

/// The most connections.
pub const MOST_CONNECTIONS: usize = 4000;
