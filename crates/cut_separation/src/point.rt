//! Points of a box.
use bytime_model::Vars;
use flow_types::Sequence;

/// A fraction for each variable that a box leaves free.
#[derive(Debug)]
pub struct FreePoint {
    /// The variables.
    pub columns: Vars,
    /// The numerators, one for each of these, from 0 to the denominator.
    pub numerators: Sequence<i128>,
    /// Their denominator, from 1 to 2^62 - 1.
    pub denominator: i128,
}

impl Drop for FreePoint {
    fn drop(self) {
        let FreePoint {
            columns: _,
            numerators: _,
            denominator: _,
        } = self;
    }
}
