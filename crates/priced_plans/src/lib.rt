//! What plans pay where prices are put on capacities and connections, and the bound that prices
//! tell: the least trips under them, one for each flight alone, less what all capacities would pay.
//!
//! A price stands on the departures from a place in a period, on the arrivals at one, on the
//! flights inside a sector, and on a connection from a period on (`flight_routes`). A plan that
//! keeps every rule fills no place above its capacity, and no aircraft departs in it before its
//! turnaround: so its trips pay together no more than all capacities would. A caller that has set
//! some prices asks for the bound that they tell on the plans in a box:
//!
//!     let mut prices = Prices::new(alloc, &s)?;
//!     let mut work = Work::new(alloc, &s)?;
//!     let kind = PriceKind::Capacity(CapKind::Dep);
//!     prices.set(PriceKey { kind, row, period }, 1000);
//!     prices_are_small();
//!     match priced_bound(&mut work, &s, &boxes, 64, &prices) {
//!         Bound::NoPlan => println!("no plan is in the box"),
//!         Bound::AtLeast(least) => println!("no plan in the box costs less than {least}"),
//!     }
//!
//! `specs/Values.antt` says what the value is. It is that of Lagrangian relaxation, with the
//! capacities and the turnarounds relaxed (Held and Karp, "The traveling-salesman problem and
//! minimum spanning trees", 1970; Geoffrion, "Lagrangean relaxation for integer programming",
//! 1974).
//!
//! Proved: what the trips of a plan pay is exactly price times count, over places and periods, and
//! over connections and periods the price where the second flight has departed less the price where
//! the aircraft is ready (`plans_pay_by_counts`). In a feasible plan that is no more than what all
//! capacities would pay (`plans_pay_no_more_than_capacities`). The value of any prices, at any
//! weight and in any box, is no more than the weight times the cost of each feasible plan in the
//! box, and no such plan is there where a flight has no trip (`priced_values_are_bounds`). Whatever
//! the prices are, the value is a bound: nothing is said of how good they are. `priced_value` gives
//! exactly that value, or None, and then some flight has no trip in the box (`value`); the value is
//! no further from 0 than 2^123 (`within`). `priced_bound` gives that value divided by the weight
//! and rounded up, and then no feasible plan in the box costs less (`priced_bounds_are_bounds`).
//! In a part of the box the same prices tell no less (`prices_tell_no_less_in_parts`).
//! Both ask that every price is below 2^62: prices of 0 are, and stay so where such a price is set
//! (`prices_are_small`). What a price is put on, how often trips use it and how often they may, is
//! told in one place for all kinds: `price_kinds`, `row_count`, `has_limit`, and `usage_of`, which
//! tells exactly what loads count (`used`, `limit`).
//!
//! Memory: none. Time: a least trip for each flight, and a product for each place and period.
#![tactic(auto)]

mod bound;
mod kinds;
mod laws;
mod usage;
mod value;

pub use bound::{priced_bound, rounded_up, told_by};
pub use kinds::{has_limit, price_kinds, row_count};
pub use laws::{
    plans_pay_by_counts, plans_pay_no_more_than_capacities, priced_bounds_are_bounds,
    priced_values_are_bounds, prices_are_small, prices_tell_no_less_in_parts,
};
pub use usage::{Usage, usage_of};
pub use value::{limit_price, priced_value};
