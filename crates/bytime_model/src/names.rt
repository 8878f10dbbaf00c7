//! The names of the rows: their kinds, of which there is one list, their numbers, and their order.
ghost use Rattle.std.specs.Prelude.{◌≡◌, ◌≤◌, false, if◌then◌else◌};
ghost use Rattle.flow_types.specs.Scenario.{flight_at, parts_of};
ghost use Rattle.bytime_model.specs.declared.names.RowName.{RowName};
ghost use Rattle.bytime_model.specs.Kinds.{capacity_name, sort_key, name_at, node_name, node_thirds, part_count, row_kinds, second_count, thirds, up_to};
ghost use Rattle.bytime_model.specs.Order.{IsBefore, is_before, is_less, is_less_or};
ghost use Rattle.bytime_model.specs.Rows.{node_count};

use crate::rows::{goes_on, has_inside};
use flow_types::{CapKind, Scenario, Sequence, has_kind};

/// A row of the by-time program, by what it is for. Each says that its left side is at most its
/// limit.
#[derive(Clone, Copy, Debug, PartialEq, Eq)]
pub enum RowName {
    /// What is entered by a period is entered by the next one.
    Mono { flight: u32, node: u16, time: u16 },
    /// A node is entered once at the most.
    Top { flight: u32, node: u16 },
    /// The airport's departures in the period are within its capacity.
    Dep { place: u32, period: u16 },
    /// The airport's arrivals in the period are.
    Arr { place: u32, period: u16 },
    /// The flights inside the sector in the period are.
    Sector { place: u32, period: u16 },
    /// Whoever has entered a node by the period is inside, or has entered a next one.
    Occupy { flight: u32, node: u16, time: u16 },
    /// Whoever has entered a node has entered one before it, as long ago as the leg takes.
    Enter { flight: u32, node: u16, time: u16 },
    /// Whoever has entered a node enters a next one.
    Leave { flight: u32, node: u16 },
    /// The second flight of a connection departs after the first has arrived, and the turnaround.
    Connect { connection: u32, period: u16 },
    /// A cut, by its position in a pool of cuts.
    Cut { index: u32 },
}

/// A list of names.
pub type RowNames = Sequence<RowName>;

/// A kind of rows that are of a node of a flight, as in `RowName`.
#[derive(Clone, Copy, Debug, PartialEq, Eq)]
pub enum NodeKind {
    /// What is entered by a period is entered by the next one.
    Mono,
    /// The node is entered once at the most.
    Top,
    /// Whoever has entered the node is inside, or has entered a next one.
    Occupy,
    /// Whoever has entered the node has entered one before it.
    Enter,
    /// Whoever has entered the node enters a next one.
    Leave,
}

/// A kind of rows but cuts: of the nodes of flights, of places, or of connections.
#[derive(Clone, Copy, Debug)]
pub enum RowKind {
    Nodes(NodeKind),
    Places(CapKind),
    Connections,
}

/// The kinds of rows but cuts, in their order.
pub fn row_kinds() -> [RowKind; 9]
    ensures { result ≡ row_kinds }
{
    [
        RowKind::Nodes(NodeKind::Mono),
        RowKind::Nodes(NodeKind::Top),
        RowKind::Places(CapKind::Dep),
        RowKind::Places(CapKind::Arr),
        RowKind::Places(CapKind::Sector),
        RowKind::Nodes(NodeKind::Occupy),
        RowKind::Nodes(NodeKind::Enter),
        RowKind::Nodes(NodeKind::Leave),
        RowKind::Connections,
    ]
}

// The position of the kind in `row_kinds`, cuts last, and the numbers, 0 for one that the name
// hasn't.
type SortKey = (u8, u32, u32, u32);

fn sort_key(name: RowName) -> SortKey
    ensures { result ≡ sort_key name }
{
    match name {
        RowName::Mono { flight, node, time } => (0, flight, u32::from(node), u32::from(time)),
        RowName::Top { flight, node } => (1, flight, u32::from(node), 0),
        RowName::Dep { place, period } => (2, place, u32::from(period), 0),
        RowName::Arr { place, period } => (3, place, u32::from(period), 0),
        RowName::Sector { place, period } => (4, place, u32::from(period), 0),
        RowName::Occupy { flight, node, time } => (5, flight, u32::from(node), u32::from(time)),
        RowName::Enter { flight, node, time } => (6, flight, u32::from(node), u32::from(time)),
        RowName::Leave { flight, node } => (7, flight, u32::from(node), 0),
        RowName::Connect { connection, period } => (8, connection, u32::from(period), 0),
        RowName::Cut { index } => (row_kinds().len() as u8, index, 0, 0),
    }
}

// The name of a kind of rows of nodes that has these numbers.
fn node_name(kind: NodeKind, flight: u32, node: u16, time: u16) -> RowName
    ensures { result ≡ node_name kind flight node time }
{
    match kind {
        NodeKind::Mono => RowName::Mono { flight, node, time },
        NodeKind::Top => RowName::Top { flight, node },
        NodeKind::Occupy => RowName::Occupy { flight, node, time },
        NodeKind::Enter => RowName::Enter { flight, node, time },
        NodeKind::Leave => RowName::Leave { flight, node },
    }
}

// The name of the row of a capacity.
fn capacity_name(kind: CapKind, place: u32, period: u16) -> RowName
    ensures { result ≡ capacity_name kind place period }
{
    match kind {
        CapKind::Dep => RowName::Dep { place, period },
        CapKind::Arr => RowName::Arr { place, period },
        CapKind::Sector => RowName::Sector { place, period },
    }
}

/// The name of the kind that has these numbers: of a flight, a place or a connection, then of a
/// node or a period, then of a period, or 0 where it has two alone.
pub fn name_at(kind: RowKind, first: u32, second: u16, third: u16) -> RowName
    ensures { result ≡ name_at kind first second third }
{
    match kind {
        RowKind::Nodes(kind) => node_name(kind, first, second, third),
        RowKind::Places(kind) => capacity_name(kind, first, second),
        RowKind::Connections => RowName::Connect {
            connection: first,
            period: second,
        },
    }
}

/// How many flights, places or connections the rows of this kind are of.
pub fn part_count(s: &Scenario, kind: RowKind) -> u32
    ensures { result ≡ part_count (parts_of s.now) kind }
{
    match kind {
        RowKind::Nodes(_) => s.flights().len() as u32,
        RowKind::Places(_) => s.places().len() as u32,
        RowKind::Connections => s.connections().len() as u32,
    }
}

// How many nodes the flight has.
fn node_count(s: &Scenario, flight: u32) -> u16
    ensures { result ≡ node_count (flight_at s.now flight) }
{
    match s.flights().get(flight as usize) {
        None => 0,
        Some(flight) => flight.nodes.items().len() as u16,
    }
}

// So many where there are some.
fn count_if(some: bool, count: u16) -> u16
    ensures { result ≡ (if some then count else 0) }
{
    if some { count } else { 0 }
}

/// How many second numbers the names of the kind have beside the first one.
pub fn second_count(s: &Scenario, kind: RowKind, first: u32) -> u16
    ensures { result ≡ second_count (parts_of s.now) kind first }
{
    match kind {
        RowKind::Nodes(_) => node_count(s, first),
        RowKind::Places(kind) => count_if(has_kind(kind, s.places(), first), s.day().periods),
        RowKind::Connections => s.day().periods,
    }
}

/// Numbers from one on, up to another that isn't among them.
#[derive(Clone, Copy, Debug)]
pub struct Span {
    pub from: u16,
    pub to: u16,
}

// The first so many.
fn up_to(count: u16) -> Span
    ensures { result ≡ up_to count }
{
    Span { from: 0, to: count }
}

// The third numbers of a kind of rows of nodes.
fn node_thirds(s: &Scenario, kind: NodeKind, flight: u32, node: u16) -> Span
    ensures told { result ≡ node_thirds (parts_of s.now) kind flight node }
    ensures onward { result.from ≤ result.to }
{
    let periods = s.day().periods;
    match kind {
        NodeKind::Mono => Span {
            from: 1,
            to: periods,
        },
        NodeKind::Top => up_to(1),
        NodeKind::Occupy => up_to(count_if(has_inside(s, flight, node), periods)),
        NodeKind::Enter => up_to(count_if(0 < node, periods)),
        NodeKind::Leave => up_to(count_if(goes_on(s, flight, node), 1)),
    }
}

/// The third numbers that the names of the kind have beside the first two.
pub fn thirds(s: &Scenario, kind: RowKind, first: u32, second: u16) -> Span
    ensures told { result ≡ thirds (parts_of s.now) kind first second }
    ensures onward { result.from ≤ result.to }
{
    match kind {
        RowKind::Nodes(kind) => node_thirds(s, kind, first, second),
        RowKind::Places(_) | RowKind::Connections => up_to(1),
    }
}

impl RowName {
    ghost use Rattle.std.specs.Prelude.{◌≡◌};
    ghost use Rattle.bytime_model.specs.Order.{is_before};

    /// Whether the row comes before the other one: by kind in the order of `row_kinds`, with cuts
    /// last, then by the numbers from left to right.
    pub fn is_before(self, other: RowName) -> bool
        ensures { result ≡ is_before self other }
    {
        is_less(sort_key(self), sort_key(other))
    }
}

// Whether the first is less, by the first number in which they differ.
fn is_less(a: SortKey, b: SortKey) -> bool
    ensures { result ≡ is_less a b }
{
    if a.0 != b.0 {
        a.0 < b.0
    } else if a.1 != b.1 {
        a.1 < b.1
    } else if a.2 != b.2 {
        a.2 < b.2
    } else {
        a.3 < b.3
    }
}

/// No row is before itself, and one that is before another is before all that come after that. So
/// names of which each is before the next one are different.
pub fn rows_are_in_one_order()
    ensures itself { (a : RowName) → is_before a a ≡ false }
    ensures onward { (a b c : RowName) → IsBefore a b → IsBefore b c → IsBefore a c }
{}
