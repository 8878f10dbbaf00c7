//! What one node of a search is about.
ghost use Rattle.flow_types.specs.Scenario.{parts_of};
ghost use Rattle.time_windows.specs.Held.{IsMadeFor};
ghost use Rattle.time_windows.specs.OneProof.{IsMadeFor-prop};

use crate::boxes::Boxes;
use flow_types::Scenario;

/// A scenario, and a box that is made for it.
#[derive(Clone, Copy)]
pub struct Subproblem<'a> {
    pub s: &'a Scenario,
    pub boxes: &'a Boxes,
    pub ghost made: { IsMadeFor (parts_of s.now) boxes.now } by { IsMadeFor-prop },
}
