//! The names of cuts.

use flow_types::Sequence;

/// Nodes of a flight, in ascending order.
pub type Heads = Sequence<u16>;

/// A cut, by what it is for.
#[derive(Debug, Drop)]
pub enum CutName {
    /// Whoever has entered one of these next nodes had entered the node, as long before as the leg
    /// takes, and enters one of them at the most. Each has the node as its one predecessor.
    Heads {
        flight: u32,
        node: u16,
        time: u16,
        heads: Heads,
    },
    /// A flight has entered one of these nodes at the most by the period, since none of them leads
    /// to another.
    Apart {
        flight: u32,
        time: u16,
        heads: Heads,
    },
    /// Whoever has entered the node by the period has departed, as long ago as the shortest way
    /// takes.
    Departed {
        flight: u32,
        node: u16,
        time: u16,
    },
}
