//! Where a check stands.

use crate::progress::{LeafDraft, Progress};
use branch_tree::Walk;

/// Where a check stands: the path to the box of the next node, as long as one is to come; so much
/// of a leaf on that box whose rows are being read; and what was told.
#[derive(Drop)]
pub struct Standing {
    pub walk: Option<Walk>,
    pub leaf: Option<LeafDraft>,
    pub progress: Progress,
}
