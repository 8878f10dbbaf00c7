//! The variables of the by-time program, and terms over them.

use flow_types::Sequence;

/// A variable: 1 or 0 at a plan.
#[derive(Clone, Copy, Debug, PartialEq, Eq)]
pub enum Var {
    /// The flight has entered the node by the period.
    By { flight: u32, node: u16, time: u16 },
    /// The flight is inside the node's sector in the period.
    Inside { flight: u32, node: u16, time: u16 },
}

/// A variable with its factor.
#[derive(Clone, Copy, Debug, PartialEq, Eq)]
pub struct Term {
    pub variable: Var,
    pub factor: i64,
}

/// A list of terms.
pub type Terms = Sequence<Term>;

/// A list of variables.
pub type Vars = Sequence<Var>;
