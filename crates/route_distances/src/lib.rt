//! How far the nodes of a flight's network are from its origin, and which nodes lead to which.
//!
//! A caller asks for the distances of a flight once, and then for its nodes:
//!
//!     let distances = Distances::new(alloc, &s, flight)?;
//!     let periods = distances.shortest(node);
//!     println!("it takes {periods} periods at the least to get to {node}");
//!     if distances.reaches(node, other) {
//!         println!("and a way goes on from there to {other}");
//!     }
//!
//! The definitions stand in `specs/`: `Walks` (walks along legs, the least time of one, where they
//! lead; and both node by node) and `Ways` (what contracts see of the distances).
//!
//! Proved: `Distances::new` gives for each node the least time of all walks from the origin
//! (`least`), and for each two nodes whether a walk of one leg or more goes from the one to the
//! other (`leads`). Both are those of definitions by recursion over the nodes, which other crates
//! cite (`ways`); of a node that the flight hasn't they say 0 and no.
//!
//! Memory: for each node of the flight a mark for each node, and 34 bytes. Time: `new` goes over
//! the legs once for each two nodes, the others take the same for any flight.
#![tactic(auto)]

mod distances;
mod reached;
mod times;

pub use distances::Distances;
