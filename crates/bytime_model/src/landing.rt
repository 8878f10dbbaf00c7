//! Where a variable counts in a sum over positions.
ghost use Rattle.flow_types.specs.Scenario.{parts_of};
ghost use Rattle.time_windows.specs.Held.{box_of};
ghost use Rattle.std.specs.Prelude.{◌≡◌};
ghost use Rattle.bytime_model.specs.Columns.{IsThere};
ghost use Rattle.bytime_model.specs.Landing.{IsLandingWithin, IsReady, landing_of};

use crate::columns::Columns;
use crate::left::{Left, left_of};
use crate::variables::Var;
use flow_types::Scenario;
use time_windows::Boxes;

/// Where a variable counts.
#[derive(Clone, Copy, Debug, PartialEq, Eq)]
pub enum Landing {
    /// The variable is 0.
    Nowhere,
    /// The variable is 1, so it counts in the constant.
    Surely,
    /// The variable is free, or the same as one that is, which has this position.
    At(usize),
}

/// Where the variable counts in the box.
#[tactic(auto, using(crate::proofs::LandFacts::within_free, crate::proofs::LandFacts::within_same, crate::proofs::LandFacts::small_free, crate::proofs::LandFacts::small_same))]
pub fn landing_of(columns: &Columns, s: &Scenario, boxes: &Boxes, variable: Var) -> Landing
    requires ready { IsReady (parts_of s.now) columns.now boxes.now }
    requires there { IsThere (parts_of s.now).flights variable }
    ensures landing { result ≡ landing_of columns.now.columns (parts_of s.now).flights
        (box_of boxes.now) variable }
    ensures within { IsLandingWithin columns.now.count result }
{
    match left_of(boxes, s, variable) {
        Left::Zero => Landing::Nowhere,
        Left::One => Landing::Surely,
        Left::Same(other) => Landing::At(columns.position(other)),
        Left::Free => Landing::At(columns.position(variable)),
    }
}
