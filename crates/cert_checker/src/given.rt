//! What a check is about.
use certificate::Digest;
use flow_types::Scenario;
use time_windows::Boxes;

/// The day, the first box, in which plans are, and the digest of the day's text.
#[derive(Clone, Copy)]
pub struct Given<'a> {
    pub s: &'a Scenario,
    pub root: &'a Boxes,
    pub digest: &'a Digest,
}
