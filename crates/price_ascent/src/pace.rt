//! How far a climb moves prices in a step, and when it ends.
//!
//! The goal is a value above the best one. Where a step comes near it the lead over the best value
//! is doubled, where it gains less the lead grows by an eighth, and where nothing is gained for ten
//! steps it is halved (a level method without a bound from above, after Brännlund, "A generalized
//! subgradient method with relaxation step", 1995). Where no cost is known, a lead that is used up
//! is begun anew.
//!
//! So no cost needs to be known, and climbs that aimed at one stayed below those that don't. Where
//! one is known, the climb may end: where it is reached, or the lead is used up for the first time.

use crate::ascent::WEIGHT;

// After how many steps without a gain the lead is halved.
const MOST_IDLE: u32 = 10;

// The lead is used up where it is below this part of the first one, and a thousandth of a cost of
// 1.
const LEAST_PART: i128 = 1 << 14;

const LEAST_LEAD: i128 = 1 << 10;

// Where no plan is known, the climb ends above what any costs.
const MOST_COST: i64 = 10_000_000_000_000;

// The lead is doubled no further.
const MOST_LEAD: i128 = 1 << 62;

// A step goes half the way, in 1,024ths.
const STEP: i128 = 512;

// How many fifths of the direction before are kept.
const FIFTHS_KEPT: i64 = 4;

/// The best value that a climb has found, and the pace that follows from it.
#[derive(Clone, Copy, Debug, PartialEq, Eq)]
pub struct Pace {
    cost: Option<i64>,
    part: u32,
    best: Option<i128>,
    lead: i128,
    least_lead: i128,
    goal: i128,
    idle: u32,
    moved: bool,
    spent: bool,
}

impl Pace {
    /// At the begin of a climb that ends where the bound is this cost or more, if one is known, and
    /// leads at first by such a part of the value.
    pub fn new(cost: Option<i64>, part: u32) -> Pace {
        Pace {
            cost,
            part,
            best: None,
            lead: LEAST_LEAD,
            least_lead: LEAST_LEAD,
            goal: 0,
            idle: 0,
            moved: false,
            spent: false,
        }
    }

    /// Goes on where this cost is known.
    pub fn aim(&mut self, cost: Option<i64>) {
        self.cost = cost;
    }

    /// The best value so far.
    pub fn best(&self) -> Option<i128> {
        self.best
    }

    /// Notes the value of the present prices, and tells whether it is the best so far.
    pub fn note(&mut self, value: i128) -> bool {
        let Some(best) = self.best else {
            self.best = Some(value);
            self.lead = self.first_lead(value);
            self.least_lead = (self.lead / LEAST_PART).max(LEAST_LEAD);
            self.goal = value.saturating_add(self.lead);
            return true;
        };
        if value > best {
            self.gain(value);
            true
        } else {
            self.stay(best);
            false
        }
    }

    // By how much the climb leads where the best prices have this value: by a part of it, and a
    // cost of 1.
    fn first_lead(&self, value: i128) -> i128 {
        let lead = value
            .saturating_abs()
            .checked_div(i128::from(self.part))
            .unwrap_or(0);
        lead.saturating_add(weighted_cost(1)).min(MOST_LEAD)
    }

    // A better value.
    fn gain(&mut self, value: i128) {
        self.best = Some(value);
        self.idle = 0;
        if value >= self.goal.saturating_sub(self.lead / 2) {
            self.reach(value, self.lead);
        } else {
            self.reach(value, self.lead / 8);
        }
    }

    // Leads so much further from now on.
    fn reach(&mut self, value: i128, further: i128) {
        self.lead = self.lead.saturating_add(further).min(MOST_LEAD);
        self.goal = value.saturating_add(self.lead);
    }

    // No better one.
    fn stay(&mut self, best: i128) {
        self.idle = self.idle.saturating_add(1);
        if self.idle >= MOST_IDLE {
            self.idle = 0;
            self.lead = self.lead / 2;
            if self.lead < self.least_lead {
                self.spent = true;
                self.lead = self.first_lead(best);
            }
            self.goal = best.saturating_add(self.lead);
        }
    }

    /// Whether the climb is at its end: the bound is enough, or the lead was used up.
    pub fn is_over(&self) -> bool {
        let short = weighted_cost(self.cost.unwrap_or(MOST_COST).saturating_sub(1));
        self.best.is_some_and(|best| best > short) || (self.spent && self.cost.is_some())
    }

    /// How many fifths of the direction before are kept in the next step: four, but none in the
    /// first one.
    pub fn fifths_kept(&mut self) -> i64 {
        let fifths = if self.moved { FIFTHS_KEPT } else { 0 };
        self.moved = true;
        fifths
    }

    /// How far a price moves for each flight by which its limit is exceeded, where the squares of
    /// this add up so and the present prices have this value; in 1,024ths.
    pub fn stride(&self, value: i128, squares: i64) -> i64 {
        let far = self.goal.saturating_sub(value).saturating_mul(STEP);
        near_number(far.checked_div(i128::from(squares)).unwrap_or(0))
    }
}

/// A cost, weighted.
pub fn weighted_cost(cost: i64) -> i128 {
    i128::from(cost).saturating_mul(i128::from(WEIGHT))
}

// The nearest number of 64 bits.
fn near_number(number: i128) -> i64 {
    number.clamp(i128::from(i64::MIN), i128::from(i64::MAX)) as i64
}
