//! Costs that may be missing.
ghost use Rattle.std.specs.Prelude.{◌≡◌, ◌^◌, ◌↔◌, true, None, IfSome, neg_ℤ};
ghost use Rattle.exact_sums.specs.Leasts.{lesser, raised};
ghost use Rattle.exact_sums.specs.Near.{IsNear};
ghost use Rattle.flight_routes.specs.Ways.{both_of};

use std::marker::Model;

/// A cost, or none, in one number: half of what an `Option` takes. Contracts see it as an `Option`.
#[derive(Clone, Copy, Debug)]
pub struct Cost {
    // The cost, or `NONE`.
    value: i128,
}

// More than any cost: 2^126.
const NONE: i128 = 85070591730234615865843651857942052864;

impl Model for Cost {
    ghost use Rattle.std.specs.Prelude.{Option, ℤ};
    ghost use Rattle.flight_routes.specs.Costs.{IsHeld, cost_in, number_of};

    ghost Value = { Option ℤ };

    ghost view = { λ a. cost_in a.value };

    ghost inverse = { λ cost. record { value = number_of cost } };

    ghost invariant = { λ a. IsHeld a.value };
}

impl Cost {
    ghost use Rattle.std.specs.Prelude.{◌≡◌, ◌^◌, ◌↔◌, IsSome, IsTrue, true, None, IfSome, neg_ℤ};
    ghost use Rattle.exact_sums.specs.Leasts.{lesser, raised};
    ghost use Rattle.flight_routes.specs.Early.{IsLess};
    ghost use Rattle.exact_sums.specs.Near.{IsNear};
    ghost use Rattle.flight_routes.specs.Ways.{both_of};

    /// No cost.
    pub fn none() -> Cost
        ensures { result ≡ None }
    {
        Cost { value: NONE }
    }

    /// The cost, if there is one.
    pub fn new(cost: Option<i128>) -> Cost
        requires { IfSome cost (IsNear (2 ^ 120)) }
        ensures { result ≡ cost }
    {
        match cost {
            None => Cost { value: NONE },
            Some(value) => Cost { value },
        }
    }

    /// The cost as an `Option`.
    pub fn get(self) -> Option<i128>
        ensures { result ≡ self }
    {
        if self.value < NONE {
            Some(self.value)
        } else {
            None
        }
    }

    /// The lesser of two, as far as they are there.
    pub fn lesser(self, other: Cost) -> Cost
        ensures { result ≡ lesser self other }
    {
        if other.value < self.value {
            other
        } else {
            self
        }
    }

    /// The cost and so much more.
    pub fn plus(self, more: i128) -> Cost
        requires cost { IfSome self (IsNear (2 ^ 120)) }
        requires more { IsNear (2 ^ 100) more }
        ensures { result ≡ raised more self }
    {
        if self.value < NONE {
            Cost {
                value: self.value + more,
            }
        } else {
            self
        }
    }

    /// The cost and so much less.
    pub fn minus(self, less: i128) -> Cost
        requires cost { IfSome self (IsNear (2 ^ 120)) }
        requires less { IsNear (2 ^ 100) less }
        ensures { result ≡ raised (neg_ℤ less) self }
    {
        if self.value < NONE {
            Cost {
                value: self.value - less,
            }
        } else {
            self
        }
    }

    /// The sum of two, where both are there.
    pub fn and(self, other: Cost) -> Cost
        requires cost { IfSome self (IsNear (2 ^ 120)) }
        requires other { IfSome other (IsNear (2 ^ 120)) }
        ensures { result ≡ both_of self other }
    {
        if self.value < NONE {
            if other.value < NONE {
                Cost {
                    value: self.value + other.value,
                }
            } else {
                other
            }
        } else {
            self
        }
    }

    /// Whether both are the same.
    pub fn is_same(self, other: Cost) -> bool
        ensures { (result ≡ true) ↔ (self ≡ other) }
    {
        self.value == other.value
    }

    /// Whether this one is there, and less than the other, if that is there.
    pub fn is_less(self, other: Cost) -> bool
        ensures { IsTrue result ↔ IsLess self other }
    {
        self.value < other.value
    }

    /// Whether there is a cost.
    pub fn is_some(self) -> bool
        ensures { IsTrue result ↔ IsSome self }
    {
        self.value < NONE
    }
}
