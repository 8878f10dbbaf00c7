//! How long a search goes on, and how much dearer a plan may get in it.
ghost use Rattle.std.specs.Prelude.{◌≤◌};

use flow_types::{Flight, Scenario};

// How many trials all searches make together, and how many more for each flight.
const TRIALS: usize = 18_000;

const TRIALS_A_FLIGHT: usize = 12;

// How many legs, times the periods of the day, the trials may look at, if each takes one flight
// out.
const MOST_STEPS: usize = 40_000_000;

// Each search makes one share of the trials, the last one two.
const SHARES: usize = 6;

const STARTS: usize = 4;

// How many shares the first search makes where a long one begins once.
const SHARES_OF_ONE: usize = 3;

// How many shares a search makes that is made again.
const SHARES_AGAIN: usize = 2;

// With more flights than so many a long search doesn't begin anew, since few trials lead nowhere
// then: the first one is longer.
const MANY_FLIGHTS: usize = 300;

// Up to so many flights a dearer plan is taken as easily, and from then on the seldomer the more
// there are.
const HOT_FLIGHTS: u64 = 64;

/// How long a search is.
#[derive(Clone, Copy, Debug, PartialEq, Eq)]
pub enum Search {
    /// A sixth of the trials, from one plan.
    Short,
    /// All of them, from one plan after the other, and at last from the best; from one plan alone
    /// on days of more than 300 flights.
    Long,
    /// A third of them, with other lots for each number: from the start where that is even and the
    /// start keeps every rule, and else from another plan.
    Again(u32),
}

impl Search {
    /// By which number its lots are drawn.
    pub fn lots(self) -> u32 {
        match self {
            Search::Short | Search::Long => 0,
            Search::Again(number) => number,
        }
    }

    /// Whether it may begin with the start that it is given.
    pub fn takes_start(self) -> bool {
        self.lots() % 2 == 0
    }
}

/// From how many plans a search begins.
pub fn starts_of(s: &Scenario, search: Search) -> usize
    ensures { result ≤ 4 }
{
    match search {
        Search::Short | Search::Again(_) => 1,
        Search::Long => {
            if s.flights().len() > MANY_FLIGHTS {
                1
            } else {
                STARTS
            }
        }
    }
}

/// How many trials a search makes, and by how much a plan may cost more in the first of them.
#[derive(Clone, Copy, Debug, PartialEq, Eq)]
pub struct Effort {
    pub trials: usize,
    // On average, in 1,024ths.
    first_heat: u64,
}

impl Effort {
    /// The effort of a search from the first plan.
    pub fn first(s: &Scenario, search: Search) -> Effort {
        let shares = match search {
            Search::Long if starts_of(s, search) == 1 => SHARES_OF_ONE,
            Search::Again(_) => SHARES_AGAIN,
            _ => 1,
        };
        Effort {
            trials: (trials_of(s) / SHARES).saturating_mul(shares),
            first_heat: first_heat(s),
        }
    }

    /// The effort of a search that goes on from the best plan: twice as long, and half as hot.
    pub fn last(s: &Scenario) -> Effort {
        Effort {
            trials: trials_of(s) / SHARES * 2,
            first_heat: first_heat(s) / 2,
        }
    }

    /// By how much a plan may cost more on average in the trial of this number, in 1,024ths: less
    /// from trial to trial.
    pub fn heat(&self, trial: usize) -> u64 {
        let left = self.trials.saturating_sub(trial) as u64;
        self.first_heat.saturating_mul(left) / (self.trials.max(1) as u64)
    }
}

/// What a period of delay costs on average in the scenario, 1 at least.
pub fn delay_cost(s: &Scenario) -> u64 {
    let mut sum = 0i64;
    let mut count = 0i64;
    for flight in 0..s.flights().len() {
        if s.flights()[flight].md > 0 {
            let number = flight as u32;
            sum = sum.saturating_add(s.total(number, 1).saturating_sub(s.total(number, 0)));
            count = count.saturating_add(1);
        }
    }
    (sum / count.max(1)).max(1) as u64
}

// As much as a period of delay costs, and less on a day of many flights.
fn first_heat(s: &Scenario) -> u64 {
    let flights = (s.flights().len() as u64).max(HOT_FLIGHTS);
    delay_cost(s).saturating_mul(1024 * HOT_FLIGHTS) / flights
}

// How many trials all searches make: so many for each flight, and fewer where least trips take
// long.
fn trials_of(s: &Scenario) -> usize {
    let flights = s.flights().len();
    let steps = legs_of(s.flights()).saturating_mul(usize::from(s.day().periods));
    let most = MOST_STEPS.saturating_mul(flights) / steps.max(1);
    most.min(
        TRIALS_A_FLIGHT
            .saturating_mul(flights)
            .saturating_add(TRIALS),
    )
}

// How many legs the flights have.
fn legs_of(flights: &[Flight]) -> usize {
    let mut legs = 0usize;
    for flight in flights {
        legs = legs.saturating_add(flight.legs.items().len());
    }
    legs
}
