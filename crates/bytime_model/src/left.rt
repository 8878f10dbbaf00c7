//! What a box leaves of a variable.
ghost use Rattle.std.specs.Prelude.{◌≡◌, ◌==◌, ◌&&◌, List, slice_get};
ghost use Rattle.std.specs.List.{list_any};
ghost use Rattle.flow_types.specs.declared.plan.Stop.{Stop};
ghost use Rattle.flow_types.specs.Feasible.{AreTrips};
ghost use Rattle.flow_types.specs.Scenario.{parts_of};
ghost use Rattle.time_windows.specs.Boxes.{IsInBox};
ghost use Rattle.time_windows.specs.Held.{IsMadeFor, box_of};
ghost use Rattle.bytime_model.specs.Left.{Agrees, by_left, inside_left, is_before_end, left_of, may_stay};
ghost use Rattle.bytime_model.specs.Values.{value_at};

use crate::variables::Var;
use flow_types::{Leg, Scenario};
use time_windows::{Access, Boxes, Window};

/// What is known of a variable in a box.
#[derive(Clone, Copy, Debug, PartialEq, Eq)]
pub enum Left {
    /// It is 0.
    Zero,
    /// It is 1.
    One,
    /// It is the same as another one.
    Same(Var),
    /// It may be either.
    Free,
}

/// What the box leaves of the variable. It is so at every plan in the box. It takes no memory, and
/// time for the legs of the flight where the variable is that of being inside a node.
pub fn left_of(boxes: &Boxes, s: &Scenario, variable: Var) -> Left
    requires made { IsMadeFor (parts_of s.now) boxes.now }
    ensures left { result ≡ left_of (parts_of s.now).flights (box_of boxes.now) variable }
    ensures agrees { (plan : List (List Stop))
        → AreTrips (parts_of s.now).day.periods (parts_of s.now).flights plan
        → IsInBox (box_of boxes.now) plan
        → Agrees (value_at (parts_of s.now).flights plan) variable result }
{
    left_at(boxes, s, variable)
}

// What the box leaves of the variable, by what it says of the nodes.
fn left_at(boxes: &Boxes, s: &Scenario, variable: Var) -> Left
    ensures { result ≡ left_of (parts_of s.now).flights (box_of boxes.now) variable }
{
    match variable {
        Var::By { flight, node, time } => by_left(boxes.access(flight, node), flight, node, time),
        Var::Inside { flight, node, time } => inside_left(
            boxes.window(flight, node),
            may_stay(boxes, s, flight, node, time),
            time,
        ),
    }
}

// 0 before the window; from its end on 1 where the node must be entered, and else as at the end.
fn by_left(access: Access, flight: u32, node: u16, time: u16) -> Left
    ensures { result ≡ by_left access.must access.window flight node time }
{
    let Some(window) = access.window else {
        return Left::Zero;
    };
    if time < window.lo {
        Left::Zero
    } else if access.must {
        if window.hi <= time {
            Left::One
        } else {
            Left::Free
        }
    } else if window.hi < time {
        let time = window.hi;
        Left::Same(Var::By { flight, node, time })
    } else {
        Left::Free
    }
}

// 0 before the window, and once every next node that is open has been entered at the latest.
fn inside_left(window: Option<Window>, stays: bool, time: u16) -> Left
    ensures { result ≡ inside_left window stays time }
{
    match window {
        None => Left::Zero,
        Some(window) => {
            if time < window.lo {
                Left::Zero
            } else if stays {
                Left::Free
            } else {
                Left::Zero
            }
        }
    }
}

// Whether the flight may still be on its way from the node to a next one.
fn may_stay(boxes: &Boxes, s: &Scenario, flight: u32, node: u16, time: u16) -> bool
    ensures { result ≡ may_stay (slice_get (parts_of s.now).flights flight)
        (box_of boxes.now flight) node time }
{
    match s.flights().get(flight as usize) {
        None => false,
        Some(found) => may_go_on(boxes, found.legs.items(), flight, node, time),
    }
}

// Whether one of the legs leads from the node to one that may be entered later than in the period.
fn may_go_on(boxes: &Boxes, legs: &[Leg], flight: u32, node: u16, time: u16) -> bool
    ensures { result ≡ list_any (λ leg. (leg.from == node)
        && is_before_end time (box_of boxes.now flight leg.to).window) legs.now }
{
    legs.iter().any(|leg| leg.from == node && is_before_end(time, boxes.window(flight, leg.to)))
}

// Whether the period is before the end of an open window.
fn is_before_end(time: u16, window: Option<Window>) -> bool
    ensures { result ≡ is_before_end time window }
{
    match window {
        None => false,
        Some(window) => time < window.hi,
    }
}
