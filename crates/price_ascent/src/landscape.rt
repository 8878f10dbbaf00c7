//! What prices climb over.
ghost use Rattle.flow_types.specs.Scenario.{parts_of};
ghost use Rattle.price_ascent.specs.OneProof.{slopes-prop};
ghost use Rattle.price_ascent.specs.Slopes.{AreSlopesFor};

use crate::slopes::Slope;
use time_windows::Subproblem;

/// A subproblem, and the prices that may rise.
#[derive(Clone, Copy)]
pub struct Landscape<'a> {
    pub problem: Subproblem<'a>,
    pub slopes: &'a [Slope],
    pub ghost keys: { AreSlopesFor (parts_of problem.s.now) slopes.now } by { slopes-prop _ _ },
}
