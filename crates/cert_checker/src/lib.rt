//! Checks certificates: reads one line by line, whoever wrote it, and answers what it claims, or
//! its first fault.
//!
//! A caller has the day, the digest of its text, and the files in which the certificate is:
//!
//!     let digest = Digest::of(text_of_the_day);
//!     match check(alloc, &s, &digest, &mut files, "day.cert") {
//!         Ok(claim) => println!("no plan costs less than {:?}", claim.bound),
//!         Err(CheckFault::Refused(fault)) => {
//!             println!("line {}, field {}: {:?}", fault.line, fault.field, fault.cause);
//!         }
//!         Err(fault) => println!("it wasn't read: {fault:?}"),
//!     }
//!
//! `check_from` does the same for the plans of another first box. The check goes down the tree with
//! its lines: a split leads to the early side of the present box, a leaf to the late side that
//! waits next. The bound of each leaf is worked out (`dual_leaf`), and the least of them has to be
//! what is stated. The plan is judged (`plan_rules`).
//!
//! A cut is kept, at the position by which the rows of leaves name it: it has to come after those
//! before it, and to be one of the scenario.
//!
//! The definitions stand in `specs/`: `Fronts` (the boxes whose nodes are still to come), `Steps`
//! (what the line of an item does, or its fault), `Verdicts` (the verdict on a text), `Outside`
//! (where a plan is outside a box first), `Claims` (what it is for a claim to hold) and `Accepted`
//! (which certificates are accepted). `Checks` has what contracts say of a check on its way.
//!
//! Proved: what is answered is the verdict on a text, the claim or the first fault by line, field
//! and cause (`ok`, `refused`), on a text of at most 1 GiB; the name is there, as far as the files
//! tell, and where they tell what it holds, and that is what it was when the check began, it is the
//! verdict on that. A claim that is answered holds (`holds`), whatever cuts the text has: no plan
//! in the first box that keeps every rule costs less than the bound; a plan keeps every rule, is in
//! the first box, and costs what is claimed. So it is of any text whose verdict is a claim
//! (`accepted_claims_hold`). A text has one verdict at most (`verdicts_are_one`). A cut that isn't
//! one of the scenario is refused, and so is one that doesn't come after the one before it; a
//! certificate of cuts of the scenario, in order, and of a lawful tree whose leaves may name them
//! is accepted (`lawful_certificates_are_accepted`). A read fails only where the files' count of
//! faults rose or stands at its last value, or the name isn't there (`read`, `unfailed`,
//! `present`).
//!
//! Memory: the room of leaves (`LeafWork`), loads, the first box and the present one with the
//! changes on the way to it, a piece and a line of the text, the rows of one leaf, the plan, and
//! the cuts. All but the cuts are bounded by the day; these grow with the text: some 40 bytes a cut
//! and 2 for each node that it names, or up to twice that, since lists grow. Time: each line once,
//! a step on the path of boxes for each node, and each leaf's bound.
#![tactic(auto)]

mod checking;
mod claim;
mod cut_lines;
mod fault;
mod given;
mod laws;
mod outside;
mod plan_lines;
mod progress;
mod rooms;
mod standing;
mod steps;
mod tree_lines;

pub use checking::{check, check_from};
pub use claim::CertClaim;
pub use fault::{CertCause, CertFault, CheckFault};
pub use laws::{accepted_claims_hold, lawful_certificates_are_accepted, verdicts_are_one};
