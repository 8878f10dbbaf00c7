//! Cuts of having departed in time for a node.
ghost use Rattle.std.specs.Prelude.{◌≡◌, ◌<◌, length, slice_get};
ghost use Rattle.flow_types.specs.Scenario.{parts_of};
ghost use Rattle.bytime_model.specs.Filling.{Adds};
ghost use Rattle.bytime_model.specs.Rows.{by_before, minus_one, most_terms, no_row};
ghost use Rattle.route_distances.specs.Walks.{legs_of, shortest_of};
ghost use Rattle.cut_rows.specs.declared.names.CutName.TheVariants.{Departed};
ghost use Rattle.cut_rows.specs.Cuts.{FillsCut, cut_row, is_cut};
ghost use Rattle.cut_rows.specs.Routes.{AreRoutesOf};

use crate::nodes::is_node;
use crate::routes::Routes;
use bytime_model::{RowBuffer, Var};
use flow_types::Scenario;

/// Whether there is such a cut.
pub fn is_departed_cut(s: &Scenario, flight: u32, node: u16, time: u16) -> bool
    ensures { result ≡ is_cut (parts_of s.now) (Departed flight node time) }
{
    time < s.day().periods && 0 < node && is_node(s, flight, node)
}

// How long it takes the flight at the least to get to the node. The scenario is for the contract
// alone.
#[tactic(auto, using(crate::proofs::RouteFacts::shortest_told))]
fn shortest(s: &Scenario, routes: &Routes, flight: u32, node: u16) -> u16
    requires { AreRoutesOf (parts_of s.now) routes.now }
    ensures { result ≡ shortest_of (legs_of (slice_get (parts_of s.now).flights flight)) node }
{
    routes.shortest(flight, node)
}

// Less having departed so long before, if that is in the day.
fn put_departure(buffer: &mut RowBuffer, flight: u32, time: u16, wait: u16)
    requires { length buffer.old.terms < most_terms }
    ensures { Adds (by_before minus_one flight 0 time wait) buffer.old buffer.new }
{
    if wait <= time {
        let time = time - wait;
        buffer.put(
            Var::By {
                flight,
                node: 0,
                time,
            },
            -1,
        );
    }
}

/// Holds the row of a cut that is known to be there. It takes no memory.
pub fn hold_departed(
    buffer: &mut RowBuffer,
    s: &Scenario,
    routes: &Routes,
    flight: u32,
    node: u16,
    time: u16,
)
    requires { AreRoutesOf (parts_of s.now) routes.now }
    ensures { buffer.new ≡ cut_row (parts_of s.now) (Departed flight node time) }
{
    buffer.clear();
    buffer.put(Var::By { flight, node, time }, 1);
    put_departure(buffer, flight, time, shortest(s, routes, flight, node));
}

/// Fills its row, if there is such a cut.
pub fn fill_departed(
    buffer: &mut RowBuffer,
    s: &Scenario,
    routes: &Routes,
    flight: u32,
    node: u16,
    time: u16,
) -> bool
    requires none { buffer.old ≡ no_row }
    requires routes { AreRoutesOf (parts_of s.now) routes.now }
    ensures { FillsCut (parts_of s.now) (Departed flight node time) result buffer.new }
{
    if !is_departed_cut(s, flight, node, time) {
        return false;
    }
    hold_departed(buffer, s, routes, flight, node, time);
    true
}
