//! Which flights are taken out together.
ghost use Rattle.std.specs.Prelude.{◌≡◌, ◌<◌, ◌^◌, length};
ghost use Rattle.flow_types.specs.Scenario.{parts_of};
ghost use Rattle.plan_rules.specs.Loads.{IsMadeFor};
ghost use Rattle.time_windows.specs.Subproblems.{parts_in};

use crate::draft::Choice;
use crate::generator::Generator;
use crate::hotspots::{Hotspot, Times, add_hotspots, meets, span_of, times_of, widen};
use flow_types::{Flight, OutOfMemory, Scenario, Stop};
use plan_rules::Loads;
use std::alloc::Global;
use time_windows::{Boxes, End, Subproblem, Turn};

// How many full capacities a choice looks at.
const MOST_HOTSPOTS: usize = 4;

// With how many flights beside the delayed one it begins.
const MOST_OTHERS: usize = 8;

// How many flights it comes to, with those that they have connections with.
const MOST_CHOSEN: usize = 24;

// How much later than it is scheduled a flight may stand in a mixed order, in half periods.
const LATER: u16 = 12;

// In how many of eight trials all flights are chosen among that fill one capacity for some periods.
const ZONES: usize = 2;

// How many periods there are before and after the one in which it is full, at the most.
const MOST_WIDTH: usize = 4;

// How many flights are chosen then, beside the delayed one and its partners: some, and so many more
// at the most.
const LEAST_IN_ZONE: usize = 2;

const MOST_IN_ZONE: usize = 14;

/// In which order the flights take their trips in a plan that a search begins with.
#[derive(Clone, Copy, Debug, PartialEq, Eq)]
pub enum StartOrder {
    /// By scheduled departure.
    Departure,
    /// By the latest arrival.
    LatestArrival,
    /// By how long the flight may wait.
    Slack,
    /// By scheduled departure, some a little later.
    Mixed,
}

/// The flights that are taken out together, in the order in which they are put back, with the lists
/// that serve their choice.
#[derive(Debug)]
pub struct Chosen {
    generator: Generator,
    delayed: Vec<u32>,
    hotspots: Vec<Hotspot>,
    others: Vec<u32>,
    flights: Vec<u32>,
    seed: u32,
    is_some_left_out: bool,
    ranks: Vec<Rank>,
}

// Written out, so that proofs see one call where a room is let go of.
impl Drop for Chosen {
    fn drop(self) {
        let Chosen {
            generator: _,
            delayed: _,
            hotspots: _,
            others: _,
            flights: _,
            seed: _,
            is_some_left_out: _,
            ranks: _,
        } = self;
    }
}

impl Chosen {
    /// None yet.
    pub fn new(alloc: Global) -> Chosen {
        Chosen {
            generator: Generator::new(0),
            delayed: Vec::new(alloc),
            hotspots: Vec::new(alloc),
            others: Vec::new(alloc),
            flights: Vec::new(alloc),
            seed: 0,
            is_some_left_out: false,
            ranks: Vec::new(alloc),
        }
    }

    /// Begins the numbers that choices are drawn by anew, with those of this number.
    pub fn restart(&mut self, number: u32) {
        self.generator = Generator::new(number);
    }

    /// The flights, in the order in which they are put back.
    pub fn flights(&self) -> &[u32] {
        &self.flights
    }

    /// The flight at this position in that order, if there is one.
    pub fn flight_at(&self, position: usize) -> Option<u32> {
        self.flights.get(position).copied()
    }

    /// A number that is drawn by lot, the seldomer the greater it is, and so great on average; the
    /// average is told in 1,024ths.
    pub fn rare(&mut self, mean: u64) -> i64 {
        self.generator.rare(mean)
    }

    /// All flights in this order, each behind what it is ordered by.
    pub fn all_in_order(
        &mut self,
        alloc: Global,
        s: &Scenario,
        order: StartOrder,
    ) -> Result<Vec<(u32, u32)>, OutOfMemory> {
        let mut flights = Vec::new(alloc);
        for flight in 0..s.flights().len() {
            let key = self.start_key(&s.flights()[flight], order);
            flights.push((key, flight as u32))?;
        }
        flights.sort_unstable();
        Ok(flights)
    }

    // What a flight is ordered by at a start.
    fn start_key(&mut self, flight: &Flight, order: StartOrder) -> u32 {
        let departs = u32::from(flight.sd) * 2;
        match order {
            StartOrder::Departure => departs,
            StartOrder::LatestArrival => u32::from(flight.sa) + u32::from(flight.md),
            StartOrder::Slack => u32::from(flight.mg.min(flight.md)),
            StartOrder::Mixed => departs + u32::from(self.generator.up_to(LATER)),
        }
    }

    /// Chooses this flight alone.
    pub fn choose_one(&mut self, flight: u32) -> Result<(), OutOfMemory> {
        self.seed = flight;
        self.flights.clear();
        self.flights.push(flight)?;
        Ok(())
    }

    /// The flight that was chosen first: the others are in its way.
    pub fn seed(&self) -> u32 {
        self.seed
    }

    /// Whether a flight was left out when these were chosen.
    pub fn is_some_left_out(&self) -> bool {
        self.is_some_left_out
    }

    /// Chooses a delayed flight with some that are in its way, and tells whether one is delayed. In
    /// seven of eight choices it is one that is left out, if there is such a flight.
    pub fn choose(
        &mut self,
        problem: Subproblem<'_>,
        loads: &Loads,
        choices: &[Choice],
    ) -> Result<bool, OutOfMemory>
        requires loads { IsMadeFor (parts_in problem) loads.now }
        requires count { length choices.now ≡ length (parts_in problem).flights }
    {
        list_left_out(&mut self.delayed, choices)?;
        self.is_some_left_out = !self.delayed.is_empty();
        if self.delayed.is_empty() || self.generator.below(8) == 0 {
            list_delayed(&mut self.delayed, choices)?;
        }
        if self.delayed.is_empty() {
            return Ok(false);
        }
        let flight = self.delayed[self.generator.below(self.delayed.len())];
        self.list_hotspots(problem.s, loads, choices, flight)?;
        let most = self.draw_most(problem.s)?;
        self.list_others(problem, loads, choices, flight, most)?;
        self.choose_one(flight)?;
        add_with_partners(&mut self.flights, problem.boxes, &self.others)?;
        self.put_in_order(problem.s, choices)?;
        Ok(true)
    }

    // Puts the chosen flights into an order that is drawn by lot: any one, that of scheduled or of
    // latest departures, or the first one before the others. Flights for which no trip was found
    // more often of late come first, and so do those that are left out.
    fn put_in_order(&mut self, s: &Scenario, choices: &[Choice]) -> Result<(), OutOfMemory>
        requires count { length choices.now ≡ length (parts_of s.now).flights }
    {
        self.generator.mix(&mut self.flights);
        let order = order_of(self.generator.below(4));
        rank_all(&mut self.ranks, s, choices, order, self.seed, &self.flights)?;
        self.ranks.sort_unstable();
        take_order(&mut self.flights, &self.ranks)
    }

    // Lists some full capacities that the flight would have to pass to be earlier.
    fn list_hotspots(
        &mut self,
        s: &Scenario,
        loads: &Loads,
        choices: &[Choice],
        flight: u32,
    ) -> Result<(), OutOfMemory>
        requires loads { IsMadeFor (parts_of s.now) loads.now }
        requires count { length choices.now ≡ length (parts_of s.now).flights }
    {
        self.hotspots.clear();
        let Some(choice) = choices.get(flight as usize) else {
            return Ok(());
        };
        let Some(early) = times_of(choice.alone.items()) else {
            return Ok(());
        };
        let details = &s.flights()[flight as usize];
        let late = late_times(details, choice.trip.items());
        add_hotspots(&mut self.hotspots, s, loads, details, early, late)?;
        self.generator.mix(&mut self.hotspots);
        Ok(())
    }

    // Draws by which of them flights are chosen, and how many at the most: by some of them; or by
    // one alone, for some periods before and after it.
    fn draw_most(&mut self, s: &Scenario) -> Result<usize, OutOfMemory> {
        if self.generator.below(8) < ZONES {
            let width = 1 + self.generator.below(MOST_WIDTH);
            widen(&mut self.hotspots, s, width as u16)?;
            Ok(LEAST_IN_ZONE + 1 + self.generator.below(MOST_IN_ZONE))
        } else {
            self.hotspots.truncate(MOST_HOTSPOTS);
            Ok(1 + self.generator.below(MOST_OTHERS))
        }
    }

    // Lists some of its partners and of the flights that fill these capacities.
    fn list_others(
        &mut self,
        problem: Subproblem<'_>,
        loads: &Loads,
        choices: &[Choice],
        flight: u32,
        most: usize,
    ) -> Result<(), OutOfMemory>
        requires loads { IsMadeFor (parts_in problem) loads.now }
        requires count { length choices.now ≡ length (parts_in problem).flights }
    {
        self.others.clear();
        add_partners(
            &mut self.others,
            problem.boxes.turns().of_flight(flight, End::Arrival),
        )?;
        add_partners(
            &mut self.others,
            problem.boxes.turns().of_flight(flight, End::Departure),
        )?;
        add_meeting(
            &mut self.others,
            problem.s,
            loads,
            choices,
            &self.hotspots,
            flight,
        )?;
        self.generator.mix(&mut self.others);
        self.others.truncate(most);
        Ok(())
    }
}

// In which order flights are put back.
#[derive(Clone, Copy, Debug, PartialEq, Eq)]
enum Order {
    Any,
    SeedFirst,
    Departure,
    LatestDeparture,
}

// The order of this number.
fn order_of(number: usize) -> Order {
    match number {
        0 => Order::Departure,
        1 => Order::SeedFirst,
        2 => Order::LatestDeparture,
        _ => Order::Any,
    }
}

// What flights are ordered by.
#[derive(Clone, Copy, Debug, PartialEq, Eq, PartialOrd, Ord)]
struct Rank {
    // How often no trip was found for it of late, and once more where it is left out; below 0.
    missed: i64,
    later: u32,
    drawn: usize,
    flight: u32,
}

// Ranks the flights, which stand as they are drawn.
fn rank_all(
    ranks: &mut Vec<Rank>,
    s: &Scenario,
    choices: &[Choice],
    order: Order,
    seed: u32,
    flights: &[u32],
) -> Result<(), OutOfMemory>
    requires count { length choices.now ≡ length (parts_of s.now).flights }
{
    ranks.clear();
    for flight in flights {
        let mut rank = rank_of(s, choices, order, seed, *flight);
        rank.drawn = ranks.len();
        ranks.push(rank)?;
    }
    Ok(())
}

// Lists the flights as they are ranked.
fn take_order(flights: &mut Vec<u32>, ranks: &[Rank]) -> Result<(), OutOfMemory> {
    flights.clear();
    for rank in ranks {
        flights.push(rank.flight)?;
    }
    Ok(())
}

// The rank of a flight in the order, where nothing is drawn.
fn rank_of(s: &Scenario, choices: &[Choice], order: Order, seed: u32, flight: u32) -> Rank
    requires count { length choices.now ≡ length (parts_of s.now).flights }
{
    let mut rank = Rank {
        missed: 0,
        later: 0,
        drawn: 0,
        flight,
    };
    if let Some(choice) = choices.get(flight as usize) {
        let left_out = if choice.is_left_out() { -1i64 } else { 0 };
        rank.missed = left_out.saturating_sub(choice.failures);
        rank.later = later_in(order, &s.flights()[flight as usize], flight == seed);
    }
    rank
}

// How late a flight comes in the order, by its schedule or as the seed.
fn later_in(order: Order, flight: &Flight, is_seed: bool) -> u32 {
    match order {
        Order::Any => 0,
        Order::SeedFirst => { if is_seed { 0 } else { 1 } }
        Order::Departure => u32::from(flight.sd),
        Order::LatestDeparture => u32::from(flight.sd) + u32::from(flight.mg),
    }
}

// Lists the flights without a trip.
fn list_left_out(flights: &mut Vec<u32>, choices: &[Choice]) -> Result<(), OutOfMemory>
    requires { length choices.now < 2 ^ 32 }
{
    flights.clear();
    for flight in 0..choices.len() {
        if choices[flight].trip.items().is_empty() {
            flights.push(flight as u32)?;
        }
    }
    Ok(())
}

// Lists the flights that cost more than their least.
fn list_delayed(delayed: &mut Vec<u32>, choices: &[Choice]) -> Result<(), OutOfMemory>
    requires { length choices.now < 2 ^ 32 }
{
    delayed.clear();
    for flight in 0..choices.len() {
        if choices[flight].extra > 0 {
            delayed.push(flight as u32)?;
        }
    }
    Ok(())
}

// The times of a trip; where it has no stops, the latest that the flight may have.
fn late_times(flight: &Flight, stops: &[Stop]) -> Times {
    match times_of(stops) {
        Some(times) => times,
        None => Times {
            leaves: flight.sd.saturating_add(flight.mg),
            arrives: flight.sa.saturating_add(flight.md),
        },
    }
}

// Adds the flights, other than this one, that fill one of the capacities.
fn add_meeting(
    flights: &mut Vec<u32>,
    s: &Scenario,
    loads: &Loads,
    choices: &[Choice],
    hotspots: &[Hotspot],
    flight: u32,
) -> Result<(), OutOfMemory>
    requires loads { IsMadeFor (parts_of s.now) loads.now }
    requires count { length choices.now ≡ length (parts_of s.now).flights }
{
    let Some(span) = span_of(hotspots) else {
        return Ok(());
    };
    for number in 0..choices.len() {
        let other = number as u32;
        if other != flight
            && is_under_way(loads, other, span)
            && meets_any(&s.flights()[number], choices[number].trip.items(), hotspots)
        {
            add_once(flights, other)?;
        }
    }
    Ok(())
}

// Whether the flight is under way in one of these periods.
fn is_under_way(loads: &Loads, flight: u32, span: Times) -> bool
    requires leaves { flight < length loads.now.leaves }
    requires arrives { flight < length loads.now.arrives }
{
    match (loads.departure(flight), loads.arrival(flight)) {
        (Some(leaves), Some(arrives)) => leaves <= span.arrives && span.leaves <= arrives,
        _ => false,
    }
}

// Whether the trip of the flight counts for one of the capacities.
fn meets_any(flight: &Flight, stops: &[Stop], hotspots: &[Hotspot]) -> bool {
    hotspots
        .iter()
        .any(|hotspot| meets(flight, stops, *hotspot))
}

// Adds each of these flights, and those that it has connections with.
fn add_with_partners(
    flights: &mut Vec<u32>,
    boxes: &Boxes,
    others: &[u32],
) -> Result<(), OutOfMemory> {
    for other in others {
        if flights.len() < MOST_CHOSEN {
            add_once(flights, *other)?;
            add_partners(flights, boxes.turns().of_flight(*other, End::Arrival))?;
            add_partners(flights, boxes.turns().of_flight(*other, End::Departure))?;
        }
    }
    Ok(())
}

// Adds the other flights of the connections.
fn add_partners(flights: &mut Vec<u32>, turns: &[Turn]) -> Result<(), OutOfMemory> {
    for turn in turns {
        if flights.len() < MOST_CHOSEN {
            add_once(flights, turn.other)?;
        }
    }
    Ok(())
}

// Adds the flight, unless it is there.
fn add_once(flights: &mut Vec<u32>, flight: u32) -> Result<(), OutOfMemory> {
    if !flights.contains(&flight) {
        flights.push(flight)?;
    }
    Ok(())
}
