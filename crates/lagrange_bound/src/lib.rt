//! Prices on capacities and connections that are found in rounds, and the bound that a round tells.
//!
//! A round begins with prices. Each flight takes, of its trips in a box that cost the least with
//! these prices, the first. Then each price rises by a step for each departure, arrival or flight
//! inside a sector above the capacity, and falls by one for each below it, never under 0; so does
//! that of a connection, where its second flight has departed before the first was ready. The first
//! round begins with prices of 0, costs weigh 1,024, and the step of round j is 1,024 / j.
//!
//!     let mut rounds = Rounds::new(alloc, &s)?;
//!     match rounds.play(&s, &boxes, 100, None) {
//!         Bound::AtLeast(least) => println!("no plan in the box costs less than {least}"),
//!         Bound::NoPlan => println!("a flight has no trip in the box"),
//!     }
//!     let kind = PriceKind::Capacity(CapKind::Dep);
//!     let price = rounds.prices().get(PriceKey { kind, row: place, period });
//!
//! These are the subgradient steps of Lagrangian relaxation (Held, Wolfe and Crowder, "Validation
//! of subgradient optimization", 1974). Their bounds rise and fall, so the best prices are kept. No
//! round tells more than a plan in the box costs: where a caller knows one, the rounds end at the
//! first that tells so much. And where the least trips pass no limit at prices of 0, no round moves
//! a price, so that none is played.
//!
//! `specs/Rounds.antt` says what a round is, what the prices are after so many of them, and what
//! bound they tell: their value (`priced_plans`), divided by the weight and rounded up.
//! `specs/Best.antt` says what the best of so many rounds is. `Work` is what `Rounds` is seen as.
//! `Limits`, `Moves`, `Sums` and `Taking` serve the proof.
//!
//! Proved: `play` keeps prices that are exactly those after one of the rounds (`one`), each moved
//! by the first of the least trips of each flight. It answers exactly the bound that they tell, or
//! that a flight has no trip (`told`), and each round up to the last tells a bound, played or not,
//! none a greater one (`least`).
//! That is a bound on the feasible plans in the box (`sound`), and so is that of any round
//! (`round_bounds_are_bounds`). Where a place has no capacity of a kind its price is 0 (`placed`).
//! A round has one bound in a box (`round_bounds_are_the_same`). Nothing is said of how good it
//! is. `proofs/WorkedRounds.antt` has a round worked out.
//!
//! Memory: prices twice and loads, 60 bytes a place and period, sixteen a connection and period and
//! eight a flight, and the room for least trips, 0.9 MB, once. `play` takes none. Time: each round
//! finds a least trip for each flight, reads each price and each load, copies the prices where they
//! are kept, and moves those of connections and of places that a flight uses or that have a price.
#![tactic(auto)]

mod laws;
mod limits;
mod moves;
mod rounds;
mod taking;
mod values;

pub use laws::{round_bounds_are_bounds, round_bounds_are_the_same};
pub use rounds::Rounds;
pub use taking::COST_WEIGHT;
