//! The search for a plan that costs less.
ghost use Rattle.std.specs.Prelude.{◌≡◌, ◌<◌, ◌^◌, ◌↔◌, ⊤, IfSome, IsSome, IsTrue, length};
ghost use Rattle.flow_types.specs.Scenario.{parts_of};
ghost use Rattle.flow_types.specs.Costs.{plan_cost};
ghost use Rattle.flow_types.specs.Feasible.{IsFeasible};
ghost use Rattle.flight_routes.specs.Work.{IsWorkFor};
ghost use Rattle.plan_rules.specs.Judge.{MatchVerdict};
ghost use Rattle.plan_rules.specs.Loads.{IsMadeFor as AreLoadsFor};
ghost use Rattle.time_windows.specs.Held.{box_of};
ghost use Rattle.time_windows.specs.Subproblems.{box_in, parts_in};
ghost use Rattle.plan_improver.specs.Cheaper.{IsCheaper, IsLess};
ghost use Rattle.time_windows.specs.Plans.{IsPlanIn};

use crate::aim::{Aim, Guide};
use crate::best::{Best, are_enough};
use crate::choosing::{Chosen, StartOrder};
use crate::draft::{Choice, choices_of, extra_of, is_complete};
use crate::effort::{Effort, Search, starts_of};
use crate::inside::is_in_box;
use flight_routes::Work;
use flow_types::{Flight, OutOfMemory, Plan, Scenario, Trip};
use plan_rules::{Loads, Verdict, judge};
use std::alloc::Global;
use std::marker::Model;
use time_windows::{Boxes, Subproblem};

// In which orders a long search begins.
const START_ORDERS: [StartOrder; 4] = [
    StartOrder::Departure,
    StartOrder::LatestArrival,
    StartOrder::Slack,
    StartOrder::Mixed,
];

// The number of the last of them.
const LAST_START: usize = 3;

// By which factor costs weigh more beside prices, start by start and trial by trial; 0 where prices
// are passed over.
const START_FACTORS: [u64; 4] = [1, 1, 1, 2];

const FACTORS: [u64; 8] = [1, 1, 1, 2, 2, 4, 64, 0];

// The most that costs may weigh.
const MOST_WEIGHT: u64 = 1 << 61;

// A trip that a flight is given in a trial, and how much more than the least it costs.
#[derive(Debug, Drop)]
struct Offer {
    flight: u32,
    trip: Trip,
    extra: i64,
}

/// The room of searches, made once for a scenario: twelve bytes a place and period, eight a flight,
/// and 0.9 MB. It keeps the plan of the last search. Contracts see it as a `SearchRoom`.
#[derive(Debug)]
pub struct Improver {
    work: Work,
    loads: Loads,
    choices: Vec<Choice>,
    chosen: Chosen,
    offers: Vec<Offer>,
}

// Written out, so that proofs see one call where a room is let go of.
impl Drop for Improver {
    fn drop(self) {
        let Improver {
            work: _,
            loads: _,
            choices: _,
            chosen: _,
            offers: _,
        } = self;
    }
}

impl Model for Improver {
    ghost use Rattle.plan_improver.specs.Work.{SearchRoom};
    ghost use Rattle.std.specs.Prelude.{vec_len};

    ghost Value = { SearchRoom };

    ghost view = { λ a. record {
      work = a.work;
      loads = a.loads;
      flights = vec_len a.choices;
    } };
}

impl Improver {
    ghost use Rattle.std.specs.Prelude.{◌≡◌, ◌<◌, ◌^◌, IfOk, IfSome, IsSome, IsTrue, length};
    ghost use Rattle.flow_types.specs.Scenario.{parts_of};
    ghost use Rattle.time_windows.specs.Held.{box_of};
    ghost use Rattle.time_windows.specs.Subproblems.{box_in, parts_in};
    ghost use Rattle.plan_improver.specs.Cheaper.{IsCheaper};
    ghost use Rattle.time_windows.specs.Plans.{IsPlanIn};
    ghost use Rattle.plan_improver.specs.Work.{IsFilledFor, IsSearchRoomFor};

    /// Room for the plans of the scenario.
    pub fn new(alloc: Global, s: &Scenario) -> Result<Improver, OutOfMemory>
        ensures { IfOk result (IsSearchRoomFor (parts_of s.now)) }
    {
        Ok(Improver {
            work: Work::new(alloc, s)?,
            loads: Loads::new(alloc, s)?,
            choices: Vec::new(alloc),
            chosen: Chosen::new(alloc),
            offers: Vec::new(alloc),
        })
    }

    /// A plan in the box that keeps every rule, and costs less than the start if that keeps them
    /// too; nothing where the search finds none. The start may be any list of trips, as of the
    /// first flights alone: the search begins with it only where it keeps every rule and costs no
    /// more than a plan of its own, and one that is made again only at even numbers.
    ///
    /// Flights are put back by prices too, beside which costs weigh so much, less than 2^61: the
    /// better the prices, the better the plan. It ends where a plan costs no more than a bound that
    /// is enough.
    ///
    /// The box and the prices are of the scenario that the room was made for. What it is given
    /// tells the plan, whatever was searched before. It takes memory for the stops of four plans
    /// while it runs, and for the plan; time for 18,000 trials and twelve more a flight, a sixth of
    /// them where it is short and a third where it is made again, fewer on long days with many
    /// legs, each as 24 least trips at the most and a look at each flight. The room keeps nothing
    /// that a caller sees, so it is as good as before also after want of memory.
    ///
    /// Large neighbourhood search (Shaw, "Using constraint programming and local search methods to
    /// solve vehicle routing problems", 1998), where dearer plans are taken too, the seldomer the
    /// later (simulated annealing).
    pub fn cheaper_plan(
        &mut self,
        alloc: Global,
        aim: Aim<'_>,
        start: &Plan,
        search: Search,
    ) -> Result<Option<Plan>, OutOfMemory>
        requires made { IsSearchRoomFor (parts_in aim.problem) self.old }
        ensures cheaper { IfOk result (λ found. IfSome found
            (IsCheaper (parts_in aim.entry.problem) (box_in aim.entry.problem) start.now)) }
        ensures made { IsSearchRoomFor (parts_in aim.entry.problem) self.new }
    {
        let problem = aim.problem;
        self.chosen.restart(search.lots());
        let before = judge(&mut self.loads, problem.s, start);
        if !self.fill(alloc, problem)? {
            return Ok(None);
        }
        let mut best = Best::none();
        self.begin_first(alloc, aim, search)?;
        if search.takes_start() && costs_no_more(before, cost_of(&self.choices)) {
            self.take_over(alloc, problem.s, start)?;
        }
        let effort = Effort::first(problem.s, search);
        self.search(alloc, aim, &mut best, effort)?;
        if let Search::Long = search {
            self.begin_anew(alloc, aim, &mut best)?;
        }
        let plan = best.plan(alloc)?;
        Ok(if_cheaper(&mut self.loads, problem, start, before, plan))
    }

    /// The plan, if it keeps every rule and is in the box, which is of the scenario that the room
    /// was made for.
    pub fn if_kept(&mut self, s: &Scenario, boxes: &Boxes, plan: Plan) -> Option<Plan>
        requires made { IsSearchRoomFor (parts_of s.now) self.old }
        ensures kept { IfSome result (IsPlanIn (parts_of s.now) (box_of boxes.now)) }
        ensures same { IfSome result (λ kept. kept ≡ plan) }
        ensures every { IsPlanIn (parts_of s.now) (box_of boxes.now) plan → IsSome result }
        ensures made { IsSearchRoomFor (parts_of s.now) self.new }
    {
        if_kept(&mut self.loads, s, boxes, plan)
    }

    // Leaves all flights out, and tells whether each has a trip at all.
    fn fill(&mut self, alloc: Global, problem: Subproblem<'_>) -> Result<bool, OutOfMemory>
        requires made { IsSearchRoomFor (parts_in problem) self.old }
        ensures filled { IfOk result
            (λ filled. IsTrue filled → IsFilledFor (parts_in problem.entry) self.new) }
        ensures made { IsSearchRoomFor (parts_in problem.entry) self.new }
    {
        self.loads.clear();
        match choices_of(alloc, problem, &mut self.work, &self.loads)? {
            None => Ok(false),
            Some(choices) => {
                self.choices = choices;
                Ok(true)
            }
        }
    }

    // Begins the search: as the first start does; where it is the only one and leaves a flight out,
    // as the second one; and a search that is made again as the last one.
    fn begin_first(
        &mut self,
        alloc: Global,
        aim: Aim<'_>,
        search: Search,
    ) -> Result<(), OutOfMemory>
        requires filled { IsFilledFor (parts_in aim.problem) self.old }
        ensures filled { IsFilledFor (parts_in aim.entry.problem) self.new }
    {
        if let Search::Again(_) = search {
            return self.begin(alloc, aim, LAST_START);
        }
        self.begin(alloc, aim, 0)?;
        if starts_of(aim.problem.s, search) == 1 && !is_complete(&self.choices) {
            self.begin(alloc, aim, 1)?;
        }
        Ok(())
    }

    // Leaves all flights out. Then gives each its least trip by the prices that fits, if there is
    // one, in the order of the start of this number.
    fn begin(&mut self, alloc: Global, aim: Aim<'_>, number: usize) -> Result<(), OutOfMemory>
        requires filled { IsFilledFor (parts_in aim.problem) self.old }
        ensures filled { IsFilledFor (parts_in aim.entry.problem) self.new }
    {
        self.loads.clear();
        leave_all_out(alloc, &mut self.choices);
        let order = START_ORDERS[number % 4];
        let guide = Guide {
            problem: aim.problem,
            prices: Some(aim.prices),
            weight: weighted(aim.weight, START_FACTORS[number % 4]),
        };
        for (_, flight) in self.chosen.all_in_order(alloc, aim.problem.s, order)? {
            self.chosen.choose_one(flight)?;
            if self.try_others(alloc, guide, 0)?.is_some() {
                accept(&mut self.choices, &mut self.offers);
            }
        }
        Ok(())
    }

    // Takes the trips of the plan for the present ones.
    fn take_over(&mut self, alloc: Global, s: &Scenario, plan: &Plan) -> Result<(), OutOfMemory>
        requires filled { IsFilledFor (parts_of s.now) self.old }
        ensures filled { IsFilledFor (parts_of s.now) self.new }
    {
        self.loads.clear();
        take_over(alloc, s, &mut self.loads, &mut self.choices, plan)
    }

    // Searches from the other starts, as long as no plan is enough, and goes on from the best.
    fn begin_anew(
        &mut self,
        alloc: Global,
        aim: Aim<'_>,
        best: &mut Best,
    ) -> Result<(), OutOfMemory>
        requires filled { IsFilledFor (parts_in aim.problem) self.old }
        ensures filled { IsFilledFor (parts_in aim.entry.problem) self.new }
    {
        let s = aim.problem.s;
        for number in 1..starts_of(s, Search::Long) {
            if !best.is_enough(aim.enough) {
                self.begin(alloc, aim, number)?;
                let effort = Effort::first(s, Search::Short);
                self.search(alloc, aim, best, effort)?;
            }
        }
        self.go_on(alloc, aim, best)
    }

    // Goes on from the best plan, if there is one; it ends at once where that is enough.
    fn go_on(&mut self, alloc: Global, aim: Aim<'_>, best: &mut Best) -> Result<(), OutOfMemory>
        requires filled { IsFilledFor (parts_in aim.problem) self.old }
        ensures filled { IsFilledFor (parts_in aim.entry.problem) self.new }
    {
        let s = aim.problem.s;
        if let Some(plan) = best.copy(alloc)? {
            self.take_over(alloc, s, &plan)?;
        }
        self.search(alloc, aim, best, Effort::last(s))
    }

    // Makes trials, while a flight is delayed and the plan costs more than what is enough: seven of
    // eight by the prices. A plan that costs more is taken too, the seldomer the more it costs and
    // the more trials were made; the best is kept.
    fn search(
        &mut self,
        alloc: Global,
        aim: Aim<'_>,
        best: &mut Best,
        effort: Effort,
    ) -> Result<(), OutOfMemory>
        requires filled { IsFilledFor (parts_in aim.problem) self.old }
        ensures filled { IsFilledFor (parts_in aim.entry.problem) self.new }
    {
        let problem = aim.problem;
        let mut cost = cost_of(&self.choices);
        for trial in 0..effort.trials {
            if are_enough(&self.choices, cost, aim.enough)
                || !self.chosen.choose(problem, &self.loads, &self.choices)?
            {
                return best.keep(alloc, cost, &self.choices);
            }
            let more = self.chosen.rare(effort.heat(trial));
            let guide = guide_of(aim, FACTORS[trial % 8]);
            cost = self.make_trial(alloc, guide, best, cost, more)?;
            cost = cost.saturating_add(self.note_failure(problem.s));
        }
        best.keep(alloc, cost, &self.choices)
    }

    // Makes one trial with the chosen flights from a plan of this cost, and tells what the plan
    // costs then. A plan that is left for one that costs more is kept, if it is the best.
    fn make_trial(
        &mut self,
        alloc: Global,
        guide: Guide<'_>,
        best: &mut Best,
        cost: i64,
        more: i64,
    ) -> Result<i64, OutOfMemory>
        requires filled { IsFilledFor (parts_in guide.problem) self.old }
        ensures filled { IsFilledFor (parts_in guide.entry.problem) self.new }
    {
        match self.try_others(alloc, guide, more)? {
            None => Ok(cost),
            Some(gain) => {
                if gain < 0 || is_one_left_out(&self.offers) {
                    best.keep(alloc, cost, &self.choices)?;
                }
                accept(&mut self.choices, &mut self.offers);
                Ok(cost.saturating_sub(gain))
            }
        }
    }

    // Where the flight that was chosen first is still left out, that costs more from now on: tells
    // how much. Where none is left out any more, it will cost less.
    fn note_failure(&mut self, _s: &Scenario) -> i64
        requires filled { IsFilledFor (parts_of _s.now) self.old }
        ensures filled { IsFilledFor (parts_of _s.now) self.new }
    {
        if self.chosen.is_some_left_out() {
            note_failure(&mut self.choices, self.chosen.seed())
        } else {
            0
        }
    }

    // Offers the chosen flights other trips, and tells how much less these cost together; nothing
    // where they cost over so much more, and then the present ones stay in the loads.
    fn try_others(
        &mut self,
        alloc: Global,
        guide: Guide<'_>,
        more: i64,
    ) -> Result<Option<i64>, OutOfMemory>
        requires filled { IsFilledFor (parts_in guide.problem) self.old }
        ensures filled { IsFilledFor (parts_in guide.entry.problem) self.new }
    {
        let s = guide.problem.s;
        let extra = take_out(&mut self.loads, s, &self.choices, self.chosen.flights());
        self.offers.clear();
        let most = extra.saturating_add(more);
        match self.put_back(alloc, guide, most)? {
            Some(left) => Ok(Some(left.saturating_sub(more))),
            None => {
                refuse(&mut self.loads, s, &self.offers);
                put_in(&mut self.loads, s, &self.choices, self.chosen.flights());
                Ok(None)
            }
        }
    }

    // Offers each chosen flight the least trip that fits, in their order. Tells how much is left of
    // what they may cost more than their least ones; nothing where they cost more than that.
    fn put_back(
        &mut self,
        alloc: Global,
        guide: Guide<'_>,
        most: i64,
    ) -> Result<Option<i64>, OutOfMemory>
        requires filled { IsFilledFor (parts_in guide.problem) self.old }
        ensures filled { IsFilledFor (parts_in guide.entry.problem) self.new }
    {
        let mut left = most;
        for at in 0..self.chosen.flights().len() {
            if let Some(flight) = self.chosen.flight_at(at) {
                left = left.saturating_sub(self.offer(alloc, guide, flight)?);
            }
            if left < 0 {
                return Ok(None);
            }
        }
        Ok(Some(left))
    }

    // Offers the flight the least trip that fits, by the prices if there are some; and tells how
    // much more than its least it costs.
    fn offer(&mut self, alloc: Global, guide: Guide<'_>, flight: u32) -> Result<i64, OutOfMemory>
        requires filled { IsFilledFor (parts_in guide.problem) self.old }
        ensures filled { IsFilledFor (parts_in guide.entry.problem) self.new }
    {
        let Some(choice) = self.choices.get(flight as usize) else {
            return Ok(0);
        };
        let least = choice.least;
        let left_out = choice.left_out();
        let s = guide.problem.s;
        find_fit(&mut self.work, &self.loads, guide, flight);
        let trip = Trip::from_stops(alloc, self.work.trip())?;
        let extra = extra_of(s, flight, trip.items(), least, left_out);
        self.loads.add(s, flight, trip.items());
        self.offers.push(Offer {
            flight,
            trip,
            extra,
        })?;
        Ok(extra)
    }
}

// Takes the trips of the plan for the present ones. The loads have none yet.
fn take_over(
    alloc: Global,
    s: &Scenario,
    loads: &mut Loads,
    choices: &mut [Choice],
    plan: &Plan,
) -> Result<(), OutOfMemory>
    requires loads { AreLoadsFor (parts_of s.now) loads.old }
    requires count { length choices.old ≡ length (parts_of s.now).flights }
    ensures loads { AreLoadsFor (parts_of s.now) loads.new }
    ensures count { length choices.new ≡ length choices.old }
{
    for number in 0..choices.len() {
        if let Some(trip) = plan.items().get(number) {
            let flight = number as u32;
            let Choice { least, .. } = choices[number];
            let left_out = choices[number].left_out();
            choices[number].extra = extra_of(s, flight, trip.items(), least, left_out);
            choices[number].trip = Trip::from_stops(alloc, trip.items())?;
            loads.add(s, flight, trip.items());
        }
    }
    Ok(())
}

// By prices beside which costs weigh more by the factor, or by none where it is 0.
fn guide_of(aim: Aim<'_>, factor: u64) -> Guide<'_>
    ensures { result.problem ≡ aim.entry.problem }
{
    Guide {
        problem: aim.problem,
        prices: if factor == 0 { None } else { Some(aim.prices) },
        weight: weighted(aim.weight, factor),
    }
}

// Finds the flight's least trip that fits, by the prices if there are some.
fn find_fit(work: &mut Work, loads: &Loads, guide: Guide<'_>, flight: u32)
    requires work { IsWorkFor (parts_in guide.problem) work.old }
    requires loads { AreLoadsFor (parts_in guide.problem) loads.now }
    requires flight { flight < length (parts_in guide.problem).flights }
    ensures { IsWorkFor (parts_in guide.entry.problem) work.new }
{
    let Guide {
        problem,
        prices,
        weight,
    } = guide;
    let _least = match prices {
        None => work.least_fit(problem, flight, loads),
        Some(prices) => work.least_priced_fit(problem, flight, weight, prices, loads),
    };
}

// Leaves all flights out, as often as it failed before or not.
fn leave_all_out(alloc: Global, choices: &mut [Choice])
    ensures { length choices.new ≡ length choices.old }
{
    for at in 0..choices.len() {
        choices[at].failures = 0;
        choices[at].trip = Trip::empty(alloc);
        choices[at].extra = choices[at].left_out();
    }
}

// Counts a failure for the flight, if it is left out, and tells how much more it costs. Where none
// is left out, halves the failures of all.
fn note_failure(choices: &mut [Choice], flight: u32) -> i64
    ensures { length choices.new ≡ length choices.old }
{
    if let Some(choice) = choices.get_mut(flight as usize) {
        if choice.is_left_out() {
            choice.failures = choice.failures.saturating_add(1);
            let before = choice.extra;
            choice.extra = choice.left_out();
            return choice.extra.saturating_sub(before);
        }
    }
    if is_complete(choices) {
        forgive(choices);
    }
    0
}

// Halves the failures of all flights.
fn forgive(choices: &mut [Choice])
    ensures { length choices.new ≡ length choices.old }
{
    for at in 0..choices.len() {
        choices[at].failures = choices[at].failures / 2;
    }
}

// So many times the weight, if that is a weight.
fn weighted(weight: u64, factor: u64) -> u64
    ensures { result < 2 ^ 62 }
{
    weight.saturating_mul(factor).min(MOST_WEIGHT)
}

// Whether the plan of the verdict keeps every rule, and costs no more than so much.
fn costs_no_more(verdict: Verdict, most: i64) -> bool {
    match verdict {
        Verdict::Keeps { cost } => cost <= most,
        Verdict::Breaks(_) => false,
    }
}

// The plan, if it keeps every rule, is in the box, and costs less than the start if that keeps them
// too, of which this is the verdict.
fn if_cheaper(
    loads: &mut Loads,
    problem: Subproblem<'_>,
    _start: &Plan,
    before: Verdict,
    plan: Plan,
) -> Option<Plan>
    requires loads { AreLoadsFor (parts_in problem) loads.old }
    requires keeps { MatchVerdict before (λ cost. IsFeasible (parts_in problem) _start.now)
        (λ broken. IsFeasible (parts_in problem) _start.now → ⊥) }
    requires cost { MatchVerdict before (λ cost. cost
        ≡ plan_cost (parts_in problem).tables (parts_in problem).flights _start.now) (λ broken. ⊤) }
    ensures cheaper { IfSome result
        (IsCheaper (parts_in problem.entry) (box_in problem.entry) _start.now) }
    ensures made { AreLoadsFor (parts_in problem.entry) loads.new }
{
    let after = judge(loads, problem.s, &plan);
    if is_cheaper(before, after) && is_in_box(problem.boxes, &plan) {
        Some(plan)
    } else {
        None
    }
}

// The plan, if it keeps every rule and is in the box.
fn if_kept(loads: &mut Loads, s: &Scenario, boxes: &Boxes, plan: Plan) -> Option<Plan>
    requires { AreLoadsFor (parts_of s.now) loads.old }
    ensures kept { IfSome result (IsPlanIn (parts_of s.now) (box_of boxes.now)) }
    ensures same { IfSome result (λ kept. kept ≡ plan) }
    ensures every { IsPlanIn (parts_of s.now) (box_of boxes.now) plan → IsSome result }
    ensures made { AreLoadsFor (parts_of s.now) loads.new }
{
    match judge(loads, s, &plan) {
        Verdict::Breaks(_) => None,
        Verdict::Keeps { .. } => {
            if is_in_box(boxes, &plan) {
                Some(plan)
            } else {
                None
            }
        }
    }
}

// What the plan of the choices costs; flights that are left out count for what that costs.
fn cost_of(choices: &[Choice]) -> i64 {
    let mut cost = 0i64;
    for choice in choices {
        cost = cost
            .saturating_add(choice.least)
            .saturating_add(choice.extra);
    }
    cost
}

// Takes the flights' trips out of the loads, and tells how much more than their least they cost.
fn take_out(loads: &mut Loads, s: &Scenario, choices: &[Choice], flights: &[u32]) -> i64
    requires loads { AreLoadsFor (parts_of s.now) loads.old }
    requires count { length choices.now ≡ length (parts_of s.now).flights }
    ensures { AreLoadsFor (parts_of s.now) loads.new }
{
    let mut extra = 0i64;
    for flight in flights {
        if let Some(choice) = choices.get(*flight as usize) {
            loads.remove(s, *flight, choice.trip.items());
            extra = extra.saturating_add(choice.extra);
        }
    }
    extra
}

// Puts them in again.
fn put_in(loads: &mut Loads, s: &Scenario, choices: &[Choice], flights: &[u32])
    requires loads { AreLoadsFor (parts_of s.now) loads.old }
    requires count { length choices.now ≡ length (parts_of s.now).flights }
    ensures { AreLoadsFor (parts_of s.now) loads.new }
{
    for flight in flights {
        if let Some(choice) = choices.get(*flight as usize) {
            loads.add(s, *flight, choice.trip.items());
        }
    }
}

// Takes the trips that were offered out of the loads.
fn refuse(loads: &mut Loads, s: &Scenario, offers: &[Offer])
    requires loads { AreLoadsFor (parts_of s.now) loads.old }
    ensures { AreLoadsFor (parts_of s.now) loads.new }
{
    for offer in offers {
        if (offer.flight as usize) < s.flights().len() {
            loads.remove(s, offer.flight, offer.trip.items());
        }
    }
}

// Whether a flight is offered no trip.
fn is_one_left_out(offers: &[Offer]) -> bool {
    offers.iter().any(|offer| offer.trip.items().is_empty())
}

// Gives the flights the trips that were offered.
fn accept(choices: &mut [Choice], offers: &mut Vec<Offer>)
    ensures { length choices.new ≡ length choices.old }
{
    while let Some(
        Offer {
            flight,
            trip,
            extra,
        },
    ) = offers.pop()
    {
        if let Some(choice) = choices.get_mut(flight as usize) {
            choice.trip = trip;
            choice.extra = extra;
        }
    }
}

// Whether the plan after keeps every rule, and costs less if the one before keeps them too.
fn is_cheaper(before: Verdict, after: Verdict) -> bool
    ensures { IsTrue result ↔ IsLess before after }
{
    match after {
        Verdict::Breaks(_) => false,
        Verdict::Keeps { cost: now } => match before {
            Verdict::Breaks(_) => true,
            Verdict::Keeps { cost } => now < cost,
        },
    }
}
