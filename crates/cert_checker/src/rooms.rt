//! The room of a check.
ghost use Rattle.std.specs.Prelude.{IfOk};
ghost use Rattle.flow_types.specs.Scenario.{parts_of};
ghost use Rattle.cert_checker.specs.Checks.{AreRoomsFor};

use dual_leaf::LeafWork;
use flow_types::{OutOfMemory, Scenario};
use plan_rules::Loads;
use std::alloc::Global;

/// The room in which a check works: for the bounds of leaves, and for the loads of its plan; and
/// where rows and trips are kept.
pub struct Rooms {
    pub alloc: Global,
    pub leaves: LeafWork,
    pub loads: Loads,
}

// Written out, so that proofs see one call where a room is let go of.
impl Drop for Rooms {
    fn drop(self) {
        let Rooms {
            alloc: _,
            leaves: _,
            loads: _,
        } = self;
    }
}

/// Room for certificates of the scenario.
pub fn rooms_for(alloc: Global, s: &Scenario) -> Result<Rooms, OutOfMemory>
    ensures { IfOk result (AreRoomsFor (parts_of s.now)) }
{
    Ok(Rooms {
        alloc,
        leaves: LeafWork::new(alloc, s)?,
        loads: Loads::new(alloc, s)?,
    })
}
