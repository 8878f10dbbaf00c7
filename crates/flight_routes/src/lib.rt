//! The least trip of a flight in a box: under prices on capacities and connections, beside the
//! trips of other flights, or both. It is a shortest path through nodes and periods, found by
//! dynamic programming from the last node to the first.
//!
//! A caller makes `Work` once for a scenario, and asks for one flight at a time:
//!
//!     let mut work = Work::new(alloc, &s)?;
//!     let mut prices = Prices::new(alloc, &s)?;
//!     let kind = PriceKind::Capacity(CapKind::Dep);
//!     prices.set(PriceKey { kind, row, period }, 40);
//!     let problem = Subproblem { s: &s, boxes: &boxes };
//!     match work.least_trip(problem, flight, 1, &prices) {
//!         Some(least) => println!("{flight} pays {least}, over {} nodes", work.trip().len()),
//!         None => println!("{flight} has no trip in the box"),
//!     }
//!     if work.least_fit(problem, flight, &loads).is_some() {
//!         loads.add(&s, flight, work.trip());
//!     }
//!
//! The definitions stand in `specs/`: `Inside` (the trips of a flight in a box), `Fits` (those that
//! fit beside the trips of others), `Prices` (prices, and what a trip costs under them) and
//! `TripOrder` (the order of trips). `Work` is what the room for least trips is seen as. The others
//! serve the proof: `Rates` and `Ways` (what a flight pays on its way, and the least ways on from a
//! stop), `TripRates`, `FitRates` and `PricedFitRates` (the rates at which ways are trips, trips
//! that fit, and trips that fit under prices), `Entries` and `Firsts` (the next stop), `Early`
//! (ways that end early), `FlightParts`, `PassageParts` and `WayParts` (parts of what private
//! functions are lent as one), and `Costs`, `Ends`, `Filling`, `FitTimes`, `Later`, `OneProof`,
//! `PriceRates`, `RateLists`, `Ready`, `TimeCosts` and `TurnTimes`.
//!
//! Proved: `least_trip` answers the least over all trips of the flight in the box, `least_fit`
//! and `least_priced_fit` over all of those that fit, and nothing exactly where there is none
//! (`least`). `trip` is then the first, in the order of trips, of those that reach it, and has
//! no stops where there is none (`first`). A price is what it was set to last (`here`,
//! `others`), and 0 before (`free`); `copy_from` takes all those of another `Prices` over.
//!
//! The calls turn their question into rates of the flight: what leaving and arriving in a period
//! cost, what being at a node has cost up to a period, and how long the flight may stay there, for
//! the periods from the first to the last in which the box leaves one of its nodes open. A table
//! holds the least cost of going on from each node in each period, and is filled from the
//! destination back. Along each leg, from the last period to the first, the least of the later
//! entries into the next node is kept, so that a leg takes one step a period. The least start is
//! the answer. The trip is traced forward from there: at each stop, to the first next one that
//! keeps the cost.
//!
//! Only the ways that end early are looked at first. Whatever ends later costs at least what
//! leaving and arriving do, at the cheapest, as many periods apart as the legs take. While that may
//! be as little, the table is filled again for twice as many periods, up to all of them.
//!
//! Memory: `Work` takes about 0.9 MB once. `Prices` take 24 bytes a place and period, and eight a
//! connection and period. The calls take none. Time: `least_trip` looks at each sector of the
//! flight once a period of its windows, at each of its connections once a period of the day, and at
//! its legs once a node and once a period between the windows that they join, as far as these are
//! cut, all fillings together at most some twice; `least_fit` does the same, with its connections
//! once in all; and `least_priced_fit` fills the rates of both.
#![tactic(auto)]

mod accesses;
mod cost;
mod distances;
mod early;
mod ends;
mod fill;
mod fit_rates;
mod later;
mod loaded_flight;
mod passage;
mod price_block;
mod price_rates;
mod priced_fit_rates;
mod priced_flight;
mod prices;
mod rates;
mod relax;
mod starts;
mod table;
mod time_costs;
mod trace;
mod turn_times;
mod ways;
mod work;

pub use prices::Prices;
pub use work::Work;
