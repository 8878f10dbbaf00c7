//! What lines tell.

use crate::digest::Digest;
use bytime_model::Multiplier;
use cut_rows::CutName;
use flow_types::{Bound, Trip};

/// What a line of a certificate tells. Whether that is so isn't asked.
#[derive(Debug, Drop)]
pub enum CertItem {
    /// The digest of the text of the day that the certificate is of.
    Head(Digest),
    /// A cut of the pool.
    Cut(CutName),
    /// The box is split: on the early side the flight enters the node by the period, on the late
    /// side after it or not at all. The cutoff is what the best plan cost that was known then.
    Split {
        flight: u32,
        node: u16,
        time: u16,
        cutoff: Option<i64>,
    },
    /// An Empty leaf.
    Empty,
    /// A Unit leaf.
    Unit,
    /// The weight of a Dual leaf, and how many rows follow.
    Dual {
        weight: u64,
        rows: u32,
    },
    /// The weight of a Lag leaf, and how many rows follow.
    Lag {
        weight: u64,
        rows: u32,
    },
    /// A row of the leaf.
    Row(Multiplier),
    /// What the plan costs, whose trips follow; or that there is none.
    Plan(Option<i64>),
    /// The trip of the flight that comes next.
    Trip(Trip),
    /// The stated bound: what no plan is cheaper than.
    Bound(Bound),
    /// The stated count: how many nodes the tree has.
    End(u64),
}
