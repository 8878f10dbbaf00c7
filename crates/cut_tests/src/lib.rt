//! A test of `route_distances`, `cut_rows` and `cut_separation` on the day of two flights: that
//! their calls succeed with ample memory, and which cuts the point exceeds at which every free
//! variable is 0, by what an independent program says.
//!
//! It stands above these crates, so that none is proved a second time with it. In the tight root
//! box both flights have arrived by the last period, and nothing says yet when they entered the
//! sector: so the cuts that it was entered two periods before are exceeded in the last three
//! periods.
#![tactic(auto)]

#[cfg(test)]
mod cuts;
