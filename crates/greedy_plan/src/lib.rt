//! A first plan, flight by flight (the first incumbent of a search), and a lower bound that goes
//! with it.
//!
//! A caller has a box of plans, tight or not, and asks for both:
//!
//!     match first_plan(alloc, &s, &boxes)? {
//!         Greedy::Plan(plan) => println!("{} trips", plan.items().len()),
//!         Greedy::Stuck { kept, flight } => println!("flight {flight} finds no room"),
//!     }
//!     match first_bound(alloc, &s, &boxes)? {
//!         Bound::AtLeast(least) => println!("no plan costs less than {least}"),
//!         Bound::NoPlan => println!("no plan exists"),
//!     }
//!
//! In the greedy plan each flight, in the order of the scenario, takes the cheapest of its trips in
//! the box that fit beside those before it, and of several the first in the order of trips. The
//! bound is the sum of what each flight would cost if it were alone.
//!
//! Proved: the plan is the greedy one, or it is stuck at exactly that flight with the trips before
//! it (`greedy`), and it keeps every rule (`feasible`); the bound is exactly that sum, or a flight
//! has no trip, and it bounds every plan in the box (`first_bounds_are_bounds`).
//!
//! Whoever wants greedy plans of many boxes makes the room for them once: `PlanWork::new`, and then
//! `PlanWork::first_plan` for each box.
//!
//! Memory: the plan, loads, and the room for least trips, which `PlanWork` keeps and each call of
//! `first_plan` makes once; and for the bound prices of 0, 24 bytes a place and period and eight a
//! connection and period. Time: a least trip for each flight, once for the plan and once for the
//! bound.
#![tactic(auto)]

mod bound;
mod first;

pub use bound::{first_bound, first_bounds_are_bounds};
pub use first::{Greedy, PlanWork, first_plan};
