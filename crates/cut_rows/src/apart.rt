//! Cuts of nodes of which none leads to another.
ghost use Rattle.std.specs.Prelude.{◌≡◌, ◌≤◌, ◌<◌, ◌∷◌, [], length, slice_get, not};
ghost use Rattle.std.specs.List.{list_all};
ghost use Rattle.flow_types.specs.Limits.{most_nodes};
ghost use Rattle.flow_types.specs.Scenario.{parts_of};
ghost use Rattle.bytime_model.specs.Filling.{Adds};
ghost use Rattle.bytime_model.specs.Rows.{most_terms, no_row};
ghost use Rattle.route_distances.specs.Walks.{legs_of, reaches_of};
ghost use Rattle.cut_rows.specs.declared.names.CutName.TheVariants.{Apart};
ghost use Rattle.cut_rows.specs.Cuts.{FillsCut, apart_term, apart_terms, are_apart, is_cut, leads_to_none};
ghost use Rattle.cut_rows.specs.Routes.{AreRoutesOf};

use crate::nodes::{are_nodes, ascends};
use crate::routes::Routes;
use bytime_model::{RowBuffer, Var};
use flow_types::Scenario;

// Whether a walk along the flight's legs leads from the one node to the other. The scenario is for
// the contract alone.
#[tactic(auto, using(crate::proofs::RouteFacts::reaches_told))]
fn reaches(s: &Scenario, routes: &Routes, flight: u32, from: u16, to: u16) -> bool
    requires { AreRoutesOf (parts_of s.now) routes.now }
    ensures { result ≡ reaches_of (legs_of (slice_get (parts_of s.now).flights flight)) from to }
{
    routes.reaches(flight, from, to)
}

// Whether the node leads to none of these.
fn leads_to_none(s: &Scenario, routes: &Routes, flight: u32, nodes: &[u16], from: u16) -> bool
    requires { AreRoutesOf (parts_of s.now) routes.now }
    ensures { result ≡ leads_to_none (legs_of (slice_get (parts_of s.now).flights flight)) nodes.now
        from }
{
    nodes
        .iter()
        .all(|to| !reaches(s, routes, flight, from, *to))
}

// Whether none of them does.
fn none_leads(s: &Scenario, routes: &Routes, flight: u32, nodes: &[u16]) -> bool
    requires { AreRoutesOf (parts_of s.now) routes.now }
    ensures { result ≡ list_all (leads_to_none
        (legs_of (slice_get (parts_of s.now).flights flight)) nodes.now) nodes.now }
{
    nodes
        .iter()
        .all(|from| leads_to_none(s, routes, flight, nodes, *from))
}

// Whether there are two nodes or more, in ascending order, and none leads to another.
fn are_apart(s: &Scenario, routes: &Routes, flight: u32, nodes: &[u16]) -> bool
    requires { AreRoutesOf (parts_of s.now) routes.now }
    ensures { result ≡ are_apart (slice_get (parts_of s.now).flights flight) nodes.now }
{
    1 < nodes.len()
        && ascends(nodes)
        && are_nodes(s, flight, nodes)
        && none_leads(s, routes, flight, nodes)
}

/// Whether there is such a cut.
pub fn is_apart_cut(s: &Scenario, routes: &Routes, flight: u32, time: u16, nodes: &[u16]) -> bool
    requires { AreRoutesOf (parts_of s.now) routes.now }
    ensures { result ≡ is_cut (parts_of s.now) (Apart flight time nodes.now) }
{
    time < s.day().periods && are_apart(s, routes, flight, nodes)
}

// Having entered one of the nodes by the period.
#[tactic(auto, using(bytime_model::proofs::FillFacts::filled_none, bytime_model::proofs::FillFacts::filled_more, bytime_model::proofs::FillFacts::filled_mapped, exact_sums::proofs::LoopFacts::next_item))]
fn put_apart(buffer: &mut RowBuffer, flight: u32, time: u16, nodes: &[u16])
    requires none { buffer.old ≡ no_row }
    requires few { length nodes.now ≤ most_nodes }
    ensures { Adds (apart_terms flight time nodes.now) buffer.old buffer.new }
{
    for node in nodes {
        put_node(buffer, flight, time, *node);
    }
}

// Having entered the node by the period.
fn put_node(buffer: &mut RowBuffer, flight: u32, time: u16, node: u16)
    requires { length buffer.old.terms < most_terms }
    ensures { Adds (apart_term flight time node ∷ []) buffer.old buffer.new }
{
    buffer.put(Var::By { flight, node, time }, 1);
}

/// Fills its row, if there is such a cut.
#[tactic(auto, using(crate::proofs::NodeFacts::nodes_few))]
pub fn fill_apart(
    buffer: &mut RowBuffer,
    s: &Scenario,
    routes: &Routes,
    flight: u32,
    time: u16,
    nodes: &[u16],
) -> bool
    requires none { buffer.old ≡ no_row }
    requires routes { AreRoutesOf (parts_of s.now) routes.now }
    ensures { FillsCut (parts_of s.now) (Apart flight time nodes.now) result buffer.new }
{
    if !is_apart_cut(s, routes, flight, time, nodes) {
        return false;
    }
    put_apart(buffer, flight, time, nodes);
    buffer.set_limit(1);
    true
}
