//! The bounds of leaves that name no rows.
ghost use Rattle.std.specs.Prelude.{IfOk};
ghost use Rattle.flow_types.specs.Scenario.{parts_of};
ghost use Rattle.flight_routes.specs.Work.{IsWorkFor};
ghost use Rattle.plan_rules.specs.Loads.{IsMadeFor as AreLoadsFor};
ghost use Rattle.time_windows.specs.Held.{IsMadeFor, box_of};
ghost use Rattle.dual_leaf.specs.Leaf.{IsEmptyBound, IsUnitBound};
ghost use Rattle.time_windows.specs.Plans.{IsBoundIn};
ghost use Rattle.flow_types.specs.Bounds.{IsNearBound};

use crate::fault::LeafFault;
use crate::options::{first_closed, first_other};
use crate::unit::unit_cost;
use flight_routes::Work;
use flow_types::{Bound, Scenario};
use plan_rules::Loads;
use time_windows::Boxes;

/// The bound of an Empty leaf: no plan is in the box, since a node that must be entered is closed.
/// The box is one of the scenario.
pub fn empty_bound(s: &Scenario, boxes: &Boxes) -> Result<Bound, LeafFault>
    requires { IsMadeFor (parts_of s.now) boxes.now }
    ensures bound { IsEmptyBound (box_of boxes.now) result }
    ensures sound { IfOk result (IsBoundIn (parts_of s.now) (box_of boxes.now)) }
    ensures near { IfOk result IsNearBound }
{
    match first_closed(s, boxes) {
        None => Err(LeafFault::NotEmpty),
        Some(_) => Ok(Bound::NoPlan),
    }
}

/// The bound of a Unit leaf: what the one plan costs that may be in the box, or that it breaks a
/// rule. The box, the work and the loads are of the scenario. It takes no memory.
pub fn unit_bound(
    work: &mut Work,
    loads: &mut Loads,
    s: &Scenario,
    boxes: &Boxes,
) -> Result<Bound, LeafFault>
    requires boxes { IsMadeFor (parts_of s.now) boxes.now }
    requires work { IsWorkFor (parts_of s.now) work.old }
    requires loads { AreLoadsFor (parts_of s.now) loads.old }
    ensures bound { IsUnitBound (parts_of s.now) (box_of boxes.now) result }
    ensures sound { IfOk result (IsBoundIn (parts_of s.now) (box_of boxes.now)) }
    ensures near { IfOk result IsNearBound }
    ensures work { IsWorkFor (parts_of s.now) work.new }
    ensures loads { AreLoadsFor (parts_of s.now) loads.new }
{
    if let Some(closed) = first_closed(s, boxes) {
        return Err(LeafFault::NotUnit(closed.flight, closed.node));
    }
    if let Some(other) = first_other(s, boxes) {
        return Err(LeafFault::NotUnit(other.flight, other.node));
    }
    Ok(unit_cost(work, loads, s, boxes))
}
