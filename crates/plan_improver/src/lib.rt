//! A search for plans that cost less: large neighbourhood search.
//!
//! A caller has a plan, or what the greedy plan kept where it is stuck, and asks for a better one:
//!
//!     let mut improver = Improver::new(alloc, &s)?;
//!     let start = match first_plan(alloc, &s, &boxes)? {
//!         Greedy::Plan(plan) => plan,
//!         Greedy::Stuck { kept, .. } => kept,
//!     };
//!     let problem = Subproblem { s: &s, boxes: &boxes };
//!     let aim = Aim { problem, prices: &prices, weight, enough: bound };
//!     match improver.cheaper_plan(alloc, aim, &start, Search::Long)? {
//!         Some(plan) => println!("it costs {}", cost(&s, &plan)),
//!         None => println!("none that costs less was found"),
//!     }
//!
//! The search begins with a plan in which the flights, in the order of their scheduled
//! departures, each take the least trip that fits, by its cost and its prices together; or with
//! the start, if that costs no more. Then it goes by trials. A trial takes out one flight that
//! costs more than it would alone, some of the flights that fill the capacities in its way, and
//! those that have connections with them, 24 at the most (Shaw, "Using constraint programming
//! and local search methods to solve vehicle routing problems", 1998); in one of four trials they
//! are those that fill one of these capacities for some periods. It puts them back in an order
//! that is drawn by lot, each by the least trip that fits, where costs weigh as much beside
//! prices, or more; in one of eight trials the prices are passed over. If they cost no more
//! together than before, they stay so, and else if they cost less more than a number that is
//! drawn by lot and falls to 0 as the trials go on (simulated annealing: Kirkpatrick, Gelatt and
//! Vecchi, 1983); or the trips before are restored. A flight for which none fits is left out, at
//! three times what its worst delay costs, half the average of that at the least, and once more
//! for each time that none was found for it; so where the greedy plan is stuck the same trials
//! complete it.
//!
//! In a long search three more begin with other plans, on days of up to 300 flights: the flights
//! with the earliest latest arrival come first, or those that may wait the least, or their order
//! is changed a little by lot. A last one goes on from the best plan so far. The best plan in
//! which no flight is left out is the one that counts. A search may be made again with other
//! lots, by turns from the start and from another plan.
//!
//! Proved: what is handed on keeps every rule and is in the box; and where the start keeps every
//! rule too, it costs less (`cheaper`). The search itself is free to do what it likes, since its
//! best plan is judged. That it finds one, and how much less it costs, no clause says. The lots
//! come from one generator with a fixed seed, so the same day, box, start, prices, weight, bound
//! and search give the same plan, and the number of trials is bounded by the flights, their legs
//! and the day.
//!
//! Memory: 0.9 MB, and twelve bytes a place and period, once; while a search runs, the stops of
//! four plans, of which two stay. Time: five least trips for each flight; and 18,000 trials, with
//! twelve more a flight, a sixth of them where the search is short and a third where it is made
//! again, fewer on long days with many legs, each with a least trip for each flight that it takes
//! out and a look at each flight. It ends before where the plan costs no more than a bound that is
//! enough.
#![tactic(auto)]

mod aim;
mod best;
mod choosing;
mod draft;
mod effort;
mod generator;
mod hotspots;
mod improver;
mod inside;

pub use aim::Aim;
pub use effort::{Search, delay_cost};
pub use improver::Improver;
