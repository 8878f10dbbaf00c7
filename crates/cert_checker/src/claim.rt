//! What a certificate claims.

use flow_types::{Bound, Plan};

/// What an accepted certificate claims: a plan, if it has one, and what that costs; what no plan is
/// cheaper than; and how many nodes the tree has by which that was found.
#[derive(Debug, Drop)]
pub struct CertClaim {
    pub plan: Option<Plan>,
    pub cost: Option<i64>,
    pub bound: Bound,
    pub nodes: u64,
}
