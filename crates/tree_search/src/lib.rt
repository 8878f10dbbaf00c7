//! The search for the least plan in a box: gaps are closed by splits, and an open gap is a spent
//! budget. This is branch and bound (Land and Doig, "An automatic method of solving discrete
//! programming problems", 1960): the last plan is the incumbent, what it costs is the cutoff, and a
//! leaf whose lower bound reaches it is pruned.
//!
//! A caller says what it may spend, and gets a record, whatever it has come to:
//!
//!     let root = Boxes::root(alloc, &s)?;
//!     let limits = Limits { pivots: 20_000, cells: 2_000_000 };
//!     let found = search(alloc, &s, &root, Budget { nodes: 2001, limits, rounds: 64 })?;
//!     println!("{} plans, {} nodes", found.plans.items().len(), found.tree.nodes());
//!     match found.bound {
//!         Bound::AtLeast(least) => println!("no plan in the box costs less than {least}"),
//!         Bound::NoPlan => println!("no plan is in the box"),
//!     }
//!
//! Where prices of 0 tell what the greedy plan costs, that is the answer. Else a quarter of a climb
//! looks for good prices, and a short search by them for a plan that costs less than the greedy
//! one. As long as a gap is left between what both tell, the climb goes on, so do searches for
//! plans, and flights bid in turn before a climb goes on from there and a long search by its
//! prices. Before the first box is done with, its relaxation is run without cuts, and the whole
//! cuts that its point exceeds are the pool of the search: each run from then on has their rows.
//! Then it goes depth first, the early side of a split before the late one. For each box the greedy
//! plan is made, and kept where it is cheaper than the last; so is the plan that the least trips of
//! a climb are, where they keep the rules. An empty box is done with, and so is one in which there
//! is no choice. Else the run of the box's relaxation gives a leaf, and prices another one, those
//! of rounds or those of the climb: where the bound of one reaches what the best plan costs, or
//! where there is no room for two nodes more, the box is done with, by the one that tells more; and
//! else it is split. Both sides begin with the prices that told more of the box, so that by prices
//! they tell no less than it.
//!
//! The definitions stand in `specs/`: `Records` (what is handed back), `Nodes` (what is known of
//! each node), `Pools` (which cuts its leaves may name) and `Budgets` (a number of nodes that is
//! enough); what a reader of its tree needs is `Trees` of `dual_leaf`. `Drafts`, `Visits`, `Seen`,
//! `Rooms` and `Searching` serve the proofs.
//!
//! Proved: `search` hands back a record (`record`), and no plan in the box that keeps every rule
//! costs less than its bound (`sound`). Whoever made it, the bound of a record is one
//! (`search_records_are_bounds`) and that of a lawful tree (`search_trees_have_the_bound`), and a
//! record with enough nodes is closed (`enough_nodes_close`).
//!
//! Memory: two boxes and the log of what changed on the way, some 110 bytes for each node of the
//! tree and 24 for each row of a Dual leaf and each price of a Lag leaf, the plans, 16 for each
//! price of each box of which a side waits, some 50 bytes for each of at most 10,000 cuts, and what
//! one run takes, one leaf, rounds of prices, climbs, the search for cheaper plans, and a copy of
//! the box while a branch is chosen. Time: for each node a greedy plan, a run, the rounds, a climb
//! of as many steps, and where it is split by prices up to ten climbs of ten steps; at the begin a
//! climb of sixteen times as many steps as rounds, the search for a cheaper plan, bids, and up to
//! six climbs of half as many steps that lean on the best plan; and after every sixteen boxes, up
//! to 1,024, a third of the search for a plan once more. Once prices tell in the first box what the
//! best plan costs, no climb and no search for plans is made there; its run is made all the same.
#![tactic(auto)]

mod branching;
mod draft;
mod found;
mod gap;
mod improving;
mod laws;
mod pooling;
mod pricing;
mod probing;
mod rooms;
mod searching;
mod seeing;
mod setting;

pub use found::{Bounds, Budget, Counts, Found, Plans};
pub use laws::{enough_nodes_close, search_records_are_bounds, search_trees_have_the_bound};
pub use searching::search;
