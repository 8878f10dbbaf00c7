//! Worked cases of the rules of a plan, of boxes of plans, of least trips and of prices.
//!
//! It stands above the crates whose definitions these are, so that none is proved a second time
//! with them. `proofs/` has what the definitions say of the cases: which rule a plan breaks first
//! (`BrokenCases`), what a box, its tight box and its splits are (`WorkedBoxes`), what trips pay
//! under prices (`WorkedPrices`), and which of two trips that cost the same is taken
//! (`WorkedChoice`).
#![tactic(auto)]
