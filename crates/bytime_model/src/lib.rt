//! The by-time program of a scenario (Bertsimas and Stock Patterson 1998, with the route networks
//! of Bertsimas, Lulli and Odoni 2011): its variables, its rows by name, what it costs, and what a
//! box makes of each variable.
//!
//! A variable is 1 where a flight has entered a node by a period, or is inside a node's sector in a
//! period. A row says that a sum of variables, each with its factor, is at most a limit. A caller
//! makes room for one row, and asks for it by its name:
//!
//!     let mut row = RowBuffer::new(alloc)?;
//!     for name in rows_of(alloc, &s)?.items() {
//!         if row.fill(&s, *name) {
//!             for term in row.terms() {
//!                 println!("{} times {:?}", term.factor, term.variable);
//!             }
//!             println!("is at most {}", row.limit());
//!         }
//!     }
//!
//! Whoever asks for many rows makes the visits of the scenario once, `Visits::new(alloc, &s)?`, and
//! calls `fill_with(&s, &visits, name)`: then a row of a capacity goes over the flights alone that
//! have a node at the place.
//!
//! Whoever has no room for the names of all rows at once takes them part by part: for each kind in
//! `row_kinds()` and each `position` below `part_count(&s, kind)`,
//! `part_rows(alloc, &s, kind, position)` gives those of one flight, place or connection.
//!
//! Whoever adds up what plans cost without a list of terms goes over the flights. For each `delay`
//! below `most_late(&s, flight)`, `late_step(&s, flight, delay)` is the factor of having entered
//! the last node so long after the scheduled arrival; `most_wait` and `wait_step` are the same for
//! the first node and the scheduled departure, and `constant_of(&s)` is the constant. `late_term`
//! and `wait_term` give such a factor with its variable.
//!
//! Whoever adds up over the variables that a tight box leaves free makes their positions once a
//! scenario, `Columns::new(alloc, &s)?`; `landing_of(&columns, &s, &boxes, variable)` tells where a
//! variable counts: nowhere, surely, or at a position. The positions are those of the tight root
//! box, node by node, so they are found with no search and serve every tight box within.
//!
//! The definitions stand in `specs/`: `Values` (the values of the variables at a plan), `Rows` (the
//! rows, by their names), `Kinds` (the one list of their kinds, and what names each has), `AllRows`
//! (the names of all rows, and its parts) and `Order` (their order), which go by it, `Visits` (who
//! has a node at a place), `CostRow` (what a plan costs, as a sum of terms), `Left` (what a box
//! leaves of a variable), `Columns` (a position for each variable that a tight box may leave free)
//! and `Landing` (where a variable counts). `Filling` serves the proofs alone; `Multipliers` says
//! how large the numbers of rows that are counted may be. `proofs/RowLaws.antt`,
//! `proofs/KindLaws.antt` and `proofs/SmallFacts.antt` are for the proofs of crates above: how
//! large factors, limits and steps are, how long a row is, of which names there are rows, and how
//! many; they stand on the other files of proofs too.
//!
//! A new kind of rows has its name, its place in the list and its numbers in `src/names.rt` and
//! `specs/Kinds.antt`, its row in `src/rows.rt` and `specs/Rows.antt`, and a clause in each lemma
//! on all kinds, in `proofs/KindLaws.antt` (its names) and `proofs/RowLaws.antt` (its row).
//!
//! Proved: `fill` and `fill_with` tell whether there is a row of that name (`told`) and hold
//! exactly it (`row`), which no plan that keeps every rule breaks (`valid`), or no terms (`none`);
//! `row_of` gives the same row in a list of its own (`some`, `row`), and `is_row` tells whether
//! there is one. Like terms are collected (`collected`): no two are of one variable, and no factor
//! is 0. `rows_of` gives the names of all rows (`names`): a name is among them exactly where there
//! is such a row (`each`), and each comes before all later ones (`order`), as `is_before` tells, so
//! that no name comes twice (`rows_are_in_one_order`). `row_kinds`, `part_count` and `part_rows`
//! give exactly the definition's list of kinds, and its parts of these names. `Visits::at` gives
//! the flights that have a node at the place, in their order. `linear_cost` gives the cost row
//! (`row`), whose value at a plan is the plan's cost (`cost`); the calls for one step or term, for
//! how many there are and for the constant give what the definition has for them, and so does
//! `has_inside`. `left_of` tells what the box leaves of a variable (`left`), and it is so at every
//! plan in the box (`agrees`). `Columns::new` gives each variable that a tight box leaves free a
//! position of its own (`numbered`), and no position that isn't one of the tight root box's
//! (`taken`), so there are as many as that leaves free; `landing_of` tells where a variable counts
//! (`landing`).
//!
//! Memory: `RowBuffer` takes 0.2 MB once, `Visits` 8 bytes for each node of a flight and for each
//! place, `linear_cost` 24 bytes for each period that a flight may be late or wait, `row_of` 24 for
//! each term, and `rows_of` and the calls for its parts 12 for each name; these take up to twice
//! that, since the lists grow. `Columns` takes 24 bytes for each of 32 nodes a flight. While they
//! run `row_of` takes a `RowBuffer` more, `Visits::new` up to 28 bytes for each node and 4 for each
//! place, and `Columns::new` a root box. The others take none. Time: for a row of a capacity,
//! `fill` goes over the flights of the day, and `fill_with` over those that have a node at the
//! place; for that of a sector, `fill` also goes over the nodes of each flight, and both over the
//! legs of each flight that has a node there. For any other row both go over the legs of its
//! flight. `Visits::new` goes over the nodes of all flights and over the places.
#![tactic(auto)]

mod all_rows;
mod buffer;
mod columns;
mod cost_row;
mod fill;
mod landing;
mod left;
mod multiplier;
mod names;
mod row;
mod rows;
mod variables;
mod visited;
mod visits;

pub use all_rows::{part_rows, rows_of};
pub use buffer::{MOST_TERMS, RowBuffer};
pub use columns::Columns;
pub use cost_row::{
    CostRow, constant_of, late_step, late_term, linear_cost, most_late, most_wait, wait_step,
    wait_term,
};
pub use landing::{Landing, landing_of};
pub use left::{Left, left_of};
pub use multiplier::{Multiplier, Multipliers};
pub use names::{
    NodeKind, RowKind, RowName, RowNames, name_at, part_count, row_kinds, rows_are_in_one_order,
};
pub use row::{Row, row_of};
pub use rows::{has_inside, is_row};
pub use variables::{Term, Terms, Var, Vars};
pub use visits::{Visit, Visits};
