//! What holds for all boxes of a search.

use crate::found::Budget;
use cut_rows::Pool;
use flow_types::Plan;
use time_windows::Subproblem;

/// What a search may spend, and the cuts that its leaves may name.
#[derive(Clone, Copy)]
pub struct Setting<'a> {
    pub budget: Budget,
    pub pool: &'a Pool,
}

/// Where a search starts: its first box, and the plan from which searches for cheaper ones begin,
/// the greedy one or as much of that as there is.
#[derive(Clone, Copy)]
pub struct Start<'a> {
    pub whole: Subproblem<'a>,
    pub plan: &'a Plan,
}
