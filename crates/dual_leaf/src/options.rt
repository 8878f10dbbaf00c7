//! The first node that must be entered and is closed, and the first without exactly one option.
ghost use Rattle.std.specs.Prelude.{◌≤◌, ◌<◌, ◌↔◌, ℕ, IsTrue, MatchOption};
ghost use Rattle.flow_types.specs.Limits.{most_nodes};
ghost use Rattle.flow_types.specs.Scenario.{parts_of};
ghost use Rattle.time_windows.specs.Held.{IsMadeFor, box_of};
ghost use Rattle.time_windows.specs.Tight.{IsFirstClosed, IsLive};
ghost use Rattle.dual_leaf.specs.Leaf.{IsFirstOther, IsUnitBox};
ghost use Rattle.dual_leaf.specs.Options.{HasNone, HasNoneIn, IsFirstIn, IsFirstOf, IsOfKind};

use flow_types::Scenario;
use time_windows::Boxes;

/// A node of a flight.
#[derive(Clone, Copy, Debug, PartialEq, Eq)]
pub struct Node {
    pub flight: u32,
    pub node: u16,
}

// What is looked for.
#[derive(Clone, Copy, Debug, PartialEq, Eq)]
enum Kind {
    // A node that must be entered and is closed.
    ClosedMust,
    // A node with no option, or with several.
    NotOne,
}

/// The first node, by flight and then by node, that must be entered and is closed; none, where all
/// of these are open. It takes time for each node of the flights.
pub fn first_closed(s: &Scenario, boxes: &Boxes) -> Option<Node>
    requires { IsMadeFor (parts_of s.now) boxes.now }
    ensures { MatchOption result (IsLive (box_of boxes.now))
        (λ at. IsFirstClosed (box_of boxes.now) at.flight at.node) }
{
    first_of(Kind::ClosedMust, s, boxes)
}

/// The first node, by flight and then by node, without exactly one option; none, where each has
/// one. It takes time for each node of the flights.
pub fn first_other(s: &Scenario, boxes: &Boxes) -> Option<Node>
    requires { IsMadeFor (parts_of s.now) boxes.now }
    ensures { MatchOption result (IsUnitBox (box_of boxes.now))
        (λ at. IsFirstOther (box_of boxes.now) at.flight at.node) }
{
    first_of(Kind::NotOne, s, boxes)
}

// The first node of the kind.
fn first_of(kind: Kind, s: &Scenario, boxes: &Boxes) -> Option<Node>
    requires { IsMadeFor (parts_of s.now) boxes.now }
    ensures { MatchOption result (HasNone kind (box_of boxes.now))
        (λ at. IsFirstOf kind (box_of boxes.now) at.flight at.node) }
{
    for number in 0..s.flights().len() {
        let flight = number as u32;
        let count = s.flights()[number].nodes.items().len();
        if let Some(node) = first_in(kind, boxes, flight, count) {
            return Some(Node { flight, node });
        }
    }
    None
}

// The first of the flight, which has so many nodes.
fn first_in(kind: Kind, boxes: &Boxes, flight: u32, count: usize) -> Option<u16>
    requires count { count ≤ most_nodes }
    requires none { (n : ℕ) → count ≤ n → IsOfKind kind (box_of boxes.now flight n) → ⊥ }
    ensures { MatchOption result (HasNoneIn kind (box_of boxes.now flight))
        (IsFirstIn kind (box_of boxes.now flight)) }
{
    for place in 0..count {
        let node = place as u16;
        if is_of_kind(kind, boxes, flight, node) {
            return Some(node);
        }
    }
    None
}

// Whether the node is of the kind.
fn is_of_kind(kind: Kind, boxes: &Boxes, flight: u32, node: u16) -> bool
    ensures { IsTrue result ↔ IsOfKind kind (box_of boxes.now flight node) }
{
    match kind {
        Kind::ClosedMust => boxes.must(flight, node) && boxes.window(flight, node).is_none(),
        Kind::NotOne => boxes.options(flight, node) != 1,
    }
}
