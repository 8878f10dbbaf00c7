//! How large the numbers of a certificate may be, and how long its lines.

/// The greatest number that a line may give a flight, a place, a connection or a cut.
pub const MOST_POSITION: u64 = 4_294_967_295;

/// The greatest number that a line may give a node, and a period.
pub const MOST_NODE: u64 = 65_535;

pub const MOST_PERIOD: u64 = 511;

/// The greatest weight of a leaf and multiplier of a row, and how many rows a leaf may name.
pub const MOST_WEIGHT: u64 = (1 << 62) - 1;

pub const MOST_ROWS: u64 = 100_000_000;

/// How many heads a cut may have.
pub const MOST_HEADS: usize = 31;

/// How far from 0 a cost or a cutoff may be.
pub const MOST_COST: u128 = 10_000_000_000_000;

/// How far from 0 a bound may be.
pub const MOST_BOUND: u128 = 1 << 126;

/// How many nodes a tree may have.
pub const MOST_TREE_NODES: u64 = 4_294_967_295;

/// How many bytes a line may have without its line feed.
pub const MOST_LINE_BYTES: usize = 4096;

/// How many bytes the text of a certificate may have: 1 GiB.
pub const MOST_CERT_BYTES: u64 = 1 << 30;

/// How many bytes are read at once.
pub const MOST_PIECE_BYTES: usize = 65_536;
