//! Better prices: a climb towards those whose bound is the greatest.
//!
//! Rounds (`lagrange_bound`) move prices by fixed steps. A climb moves them by steps that are as
//! long as there seems to be to gain, in the direction in which the least trips exceed the limits,
//! with a share of the direction before. It leads to better prices from 0 than from those of
//! rounds:
//!
//!     let mut ascent = Ascent::new(alloc, &s)?;
//!     let bound = ascent.climb(&s, &boxes, Some(cost), 32, 600);
//!     let leaf = lag_leaf(alloc, &s, WEIGHT, ascent.prices())?;
//!
//! It is the subgradient method for Lagrangian relaxations (Held and Karp, "The traveling-salesman
//! problem and minimum spanning trees, part II", 1971), with a share of the direction before
//! (Camerini, Fratta and Maffioli, "On improving relaxation methods by modified gradient
//! techniques", 1975), and steps by levels (`pace.rt`). All is in whole numbers: a cost of 1 weighs
//! 2^20.
//!
//! Where many alike want few slots a climb stalls, since all of them move together. There flights
//! may bid in turn (`bid`, `bids.rt`), and a climb goes on from where that leads. And where a good
//! plan is known, prices may lean on it (`lean_on`, `leaning.rt`): they make its trips the least
//! ones, so that the prices of a whole queue, through which a climb works its way slot by slot, are
//! there at once. A search that goes into a part of a box and comes back for the other one puts the
//! prices by (`put_by`, `restore`), so that both begin with those of the box.
//!
//! Proved: the bound is exactly what the best prices tell (`told`), no plan in the box that keeps
//! every rule costs less (`sound`), and a price stands only where there is such a capacity
//! (`placed`). In a part of a box the same prices tell no less (`priced_plans`). `has_none` says
//! yes exactly where the value of the prices alone is above 0 (`none`), and then no plan is in the
//! box that keeps every rule. How great the bound is, no clause says.
//!
//! Memory: `Work`, `Loads`, three times `Prices`, 24 bytes for each price that may rise, or up to
//! twice that, and 24 for each of 32 nodes a flight; 16 for each price that is put by. A climb
//! takes none. Time: for each step a least trip for each flight, and a look at each price that may
//! rise: there must be more flights for a capacity than it takes; and for each pass over a plan up
//! to five least trips for each.
#![tactic(auto)]

mod ascent;
mod bids;
mod kept;
mod landscape;
mod leaning;
mod pace;
mod slopes;
mod spread;
mod users;

pub use ascent::{Ascent, WEIGHT};
pub use kept::KeptPrices;
pub use spread::Spread;
