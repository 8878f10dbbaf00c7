//! The rooms in which boxes are looked at.
ghost use Rattle.std.specs.Prelude.{IfOk};
ghost use Rattle.flow_types.specs.Scenario.{parts_of};
ghost use Rattle.tree_search.specs.Rooms.{ArePlanRoomsFor, ArePriceRoomsFor, AreRoomsFor};

use dual_leaf::LeafWork;
use flow_types::{OutOfMemory, Scenario};
use greedy_plan::PlanWork;
use lagrange_bound::Rounds;
use plan_improver::Improver;
use price_ascent::{Ascent, KeptPrices};
use std::alloc::Global;

/// Rooms for the boxes of a scenario, made once, and where memory comes from.
pub struct Rooms {
    pub alloc: Global,
    pub plans: PlanRooms,
    pub leaves: LeafWork,
    pub prices: PriceRooms,
}

// Written out, so that proofs see one call where a room is let go of.
impl Drop for Rooms {
    fn drop(self) {
        let Rooms {
            alloc: _,
            plans: _,
            leaves: _,
            prices: _,
        } = self;
    }
}

/// For greedy plans, and for cheaper ones.
pub struct PlanRooms {
    pub greedy: PlanWork,
    pub improver: Improver,
}

// Written out, so that proofs see one call where a room is let go of.
impl Drop for PlanRooms {
    fn drop(self) {
        let PlanRooms {
            greedy: _,
            improver: _,
        } = self;
    }
}

/// For rounds of prices, and for climbs; and prices that are put by: those to which the first steps
/// of the first climb led, and those with which the boxes that wait begin.
pub struct PriceRooms {
    pub rounds: Rounds,
    pub ascent: Ascent,
    pub outset: KeptPrices,
    pub kept: KeptPrices,
}

// Written out, so that proofs see one call where a room is let go of.
impl Drop for PriceRooms {
    fn drop(self) {
        let PriceRooms {
            rounds: _,
            ascent: _,
            outset: _,
            kept: _,
        } = self;
    }
}

/// The rooms for the scenario.
pub fn rooms_for(alloc: Global, s: &Scenario) -> Result<Rooms, OutOfMemory>
    ensures { IfOk result (AreRoomsFor (parts_of s.now)) }
{
    Ok(Rooms {
        alloc,
        plans: plan_rooms(alloc, s)?,
        leaves: LeafWork::new(alloc, s)?,
        prices: price_rooms(alloc, s)?,
    })
}

// The rooms for plans.
fn plan_rooms(alloc: Global, s: &Scenario) -> Result<PlanRooms, OutOfMemory>
    ensures { IfOk result (ArePlanRoomsFor (parts_of s.now)) }
{
    Ok(PlanRooms {
        greedy: PlanWork::new(alloc, s)?,
        improver: Improver::new(alloc, s)?,
    })
}

// The rooms for prices.
fn price_rooms(alloc: Global, s: &Scenario) -> Result<PriceRooms, OutOfMemory>
    ensures { IfOk result (ArePriceRoomsFor (parts_of s.now)) }
{
    Ok(PriceRooms {
        rounds: Rounds::new(alloc, s)?,
        ascent: Ascent::new(alloc, s)?,
        outset: KeptPrices::new(alloc),
        kept: KeptPrices::new(alloc),
    })
}
