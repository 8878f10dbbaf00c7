//! Prices that flights bid up in turn.
//!
//! One flight after the other takes its least trip under the prices so far, and at once raises each
//! price that it pays by a bid; meanwhile each capacity lowers its prices, so much that they stand
//! where as many flights use it as it takes. So where many alike want few slots, each next one
//! finds the slots before it dearer, as in a queue, and prices part that a climb, which sees all of
//! them take the same slot at once, moves together. An auction, in which bids get smaller from pass
//! to pass (after Bertsekas, "The auction algorithm: a distributed relaxation method for the
//! assignment problem", 1988).
ghost use Rattle.std.specs.Prelude.{◌≡◌, ◌<◌, ◌≤◌, length, IfSome};
ghost use Rattle.flow_types.specs.declared.parts.Parts.{Parts};
ghost use Rattle.flow_types.specs.Scenario.{parts_of};
ghost use Rattle.flight_routes.specs.Work.{IsWorkFor};
ghost use Rattle.time_windows.specs.Subproblems.{parts_in};
ghost use Rattle.price_ascent.specs.Slopes.{AreSlopesFor, IsGood, IsSlopeKey};

use crate::ascent::WEIGHT;
use crate::landscape::Landscape;
use crate::slopes::{Slope, Span, set_price, span_of};
use flight_routes::{Prices, Work};
use flow_types::{CapKind, Flight, PriceKind, Scenario, Stop, place_at};
use time_windows::{End, Subproblem};

// The first bid, in costs of a period of delay.
const FIRST_BID: u64 = 8;

// What is left of a bid from pass to pass, in hundredths.
const LEFT_OF_BID: u64 = 98;

/// How far the bids of a pass have come.
#[derive(Clone, Copy, Debug, PartialEq, Eq)]
pub struct Bids {
    /// By how much a flight raises what it pays.
    pub bid: u64,
    // How many flights bid in a pass.
    flights: u32,
    // How many flights have bid in the pass.
    now: u32,
    // Whether they bid in the reverse of their order.
    back: bool,
}

impl Bids {
    /// At the begin, where a period of delay costs so much.
    pub fn new(s: &Scenario, delay_cost: u64) -> Bids {
        Bids {
            bid: delay_cost.saturating_mul(FIRST_BID).saturating_mul(WEIGHT),
            flights: s.flights().len() as u32,
            now: 0,
            back: false,
        }
    }

    /// Before the next pass: bids are less, and flights bid in the other order.
    pub fn turn(&mut self) {
        self.bid = (self.bid / 100).saturating_mul(LEFT_OF_BID);
        self.now = 0;
        self.back = !self.back;
    }

    // How much a capacity of so many lowers its price while so many flights bid.
    fn fall(&self, limit: u32, flights: u32) -> u64 {
        let fall = u128::from(self.bid)
            .saturating_mul(u128::from(limit))
            .saturating_mul(u128::from(flights));
        u64::try_from(fall / u128::from(self.flights.max(1))).unwrap_or(u64::MAX)
    }
}

/// One pass, in which each flight bids. Whether each has a trip in the box.
pub fn pass(
    work: &mut Work,
    slopes: &mut [Slope],
    problem: Subproblem<'_>,
    prices: &mut Prices,
    bids: &mut Bids,
) -> bool
    requires work { IsWorkFor (parts_in problem) work.old }
    requires slopes { AreSlopesFor (parts_in problem) slopes.old }
    requires prices { IsGood (parts_in problem) prices.old }
    ensures work { IsWorkFor (parts_in problem.entry) work.new }
    ensures slopes { AreSlopesFor (parts_in problem.entry) slopes.new }
    ensures prices { IsGood (parts_in problem.entry) prices.new }
{
    let count = problem.s.flights().len();
    for turn in 0..count {
        let number = if bids.back { count - 1 - turn } else { turn };
        if !bid_for(work, slopes, problem, prices, *bids, number as u32) {
            return false;
        }
        bids.now = bids.now.saturating_add(1);
    }
    let all = Span {
        first: 0,
        end: slopes.len(),
    };
    settle(slopes, problem.s, prices, *bids, all);
    for at in 0..slopes.len() {
        set_settled(slopes, at, 0);
    }
    true
}

// The flight bids: what it may use is settled, it takes its least trip, and raises what it pays.
// Whether it has a trip.
fn bid_for(
    work: &mut Work,
    slopes: &mut [Slope],
    problem: Subproblem<'_>,
    prices: &mut Prices,
    bids: Bids,
    flight: u32,
) -> bool
    requires work { IsWorkFor (parts_in problem) work.old }
    requires slopes { AreSlopesFor (parts_in problem) slopes.old }
    requires prices { IsGood (parts_in problem) prices.old }
    requires flight { flight < length (parts_in problem).flights }
    ensures work { IsWorkFor (parts_in problem.entry) work.new }
    ensures slopes { AreSlopesFor (parts_in problem.entry) slopes.new }
    ensures prices { IsGood (parts_in problem.entry) prices.new }
{
    settle_flight(slopes, problem, prices, bids, flight);
    if work.least_trip(problem, flight, WEIGHT, prices).is_none() {
        return false;
    }
    let land = Landscape { problem, slopes };
    raise_trip(land, prices, bids, flight, work.trip());
    true
}

// Settles all that the flight may use in the box.
fn settle_flight(
    slopes: &mut [Slope],
    problem: Subproblem<'_>,
    prices: &mut Prices,
    bids: Bids,
    flight: u32,
)
    requires slopes { AreSlopesFor (parts_in problem) slopes.old }
    requires prices { IsGood (parts_in problem) prices.old }
    requires flight { flight < length (parts_in problem).flights }
    ensures slopes { AreSlopesFor (parts_in problem.entry) slopes.new }
    ensures prices { IsGood (parts_in problem.entry) prices.new }
{
    let details = &problem.s.flights()[flight as usize];
    let nodes = details.nodes.items().len();
    let latest = match problem.boxes.window(flight, (nodes - 1) as u16) {
        None => 0,
        Some(window) => window.hi,
    };
    for at in 0..nodes {
        let node = at as u16;
        if let Some(window) = problem.boxes.window(flight, node) {
            let kind = kind_at(details, node);
            let until = if at == 0 { window.hi } else { latest };
            let row = place_at(details, node);
            let span = span_of(slopes, kind, row, window.lo, until.saturating_add(1));
            settle(slopes, problem.s, prices, bids, span);
        }
    }
}

// The kind of capacity that a flight uses at a node.
fn kind_at(flight: &Flight, node: u16) -> PriceKind {
    let kind = if node == 0 {
        CapKind::Dep
    } else if usize::from(node) + 1 == flight.nodes.items().len() {
        CapKind::Arr
    } else {
        CapKind::Sector
    };
    PriceKind::Capacity(kind)
}

/// The prices of capacities that a trip pays from its stop at the position on, before the next one.
pub fn span_of_stop(slopes: &[Slope], flight: &Flight, stops: &[Stop], at: usize) -> Span
    requires at { at < length stops.now }
    ensures { result.end ≤ length slopes.now }
{
    let Stop { node, time } = stops[at];
    let leaves = match stops.get(at + 1) {
        Some(next) if node > 0 => next.time,
        _ => time.saturating_add(1),
    };
    let kind = kind_at(flight, node);
    span_of(slopes, kind, place_at(flight, node), time, leaves)
}

// Raises what the trip of the flight pays by the bid, and lowers what it is paid.
fn raise_trip(land: Landscape<'_>, prices: &mut Prices, bids: Bids, flight: u32, stops: &[Stop])
    requires prices { IsGood (parts_in land.problem) prices.old }
    requires flight { flight < length (parts_in land.problem).flights }
    ensures prices { IsGood (parts_in land.entry.problem) prices.new }
{
    let details = &land.problem.s.flights()[flight as usize];
    for at in 0..stops.len() {
        let span = span_of_stop(land.slopes, details, stops, at);
        raise(land, prices, span, bids.bid);
    }
    raise_turns(land, prices, bids, flight, stops);
}

// Raises what the flight pays for its connections from its departure on, and lowers what it is paid
// from its arrival on.
fn raise_turns(land: Landscape<'_>, prices: &mut Prices, bids: Bids, flight: u32, stops: &[Stop])
    requires prices { IsGood (parts_in land.problem) prices.old }
    requires flight { flight < length (parts_in land.problem).flights }
    ensures prices { IsGood (parts_in land.entry.problem) prices.new }
{
    let end = land.problem.s.day().periods;
    let turns = land.problem.boxes.turns();
    if let Some(departure) = stops.first() {
        for turn in turns.of_flight(flight, End::Departure) {
            let kind = PriceKind::Connection;
            let span = span_of(land.slopes, kind, turn.connection, departure.time, end);
            raise(land, prices, span, bids.bid);
        }
    }
    if let Some(arrival) = stops.last() {
        for turn in turns.of_flight(flight, End::Arrival) {
            let ready = arrival.time.saturating_add(turn.turnaround);
            let kind = PriceKind::Connection;
            let span = span_of(land.slopes, kind, turn.connection, ready, end);
            lower(land, prices, span, bids.bid);
        }
    }
}

// Lowers each price of the span by what its capacity has taken off since it was settled last.
fn settle(slopes: &mut [Slope], s: &Scenario, prices: &mut Prices, bids: Bids, span: Span)
    requires slopes { AreSlopesFor (parts_of s.now) slopes.old }
    requires prices { IsGood (parts_of s.now) prices.old }
    requires span { span.end ≤ length slopes.old }
    ensures slopes { AreSlopesFor (parts_of s.now) slopes.new }
    ensures prices { IsGood (parts_of s.now) prices.new }
    ensures count { length slopes.new ≡ length slopes.old }
{
    for at in span.first..span.end {
        settle_one(s, slopes[at], prices, bids);
        set_settled(slopes, at, bids.now);
    }
}

// Lowers one price by what its capacity has taken off since it was settled last.
fn settle_one(s: &Scenario, slope: Slope, prices: &mut Prices, bids: Bids)
    requires slope { IsSlopeKey (parts_of s.now) slope.key }
    requires prices { IsGood (parts_of s.now) prices.old }
    ensures prices { IsGood (parts_of s.now) prices.new }
{
    let price = prices.get(slope.key);
    if price > 0 {
        let fall = bids.fall(slope.limit, bids.now.saturating_sub(slope.settled));
        set_price(s, slope.key, price.saturating_sub(fall) as i64, prices);
    }
}

// Notes that the price at the position was lowered when so many flights had bid.
#[tactic(auto, using(crate::proofs::SlopeFacts::slopes_set))]
fn set_settled(slopes: &mut [Slope], at: usize, now: u32)
    requires { at < length slopes.old }
    ensures slopes { (parts : Parts) → AreSlopesFor parts slopes.old
        → AreSlopesFor parts slopes.new }
    ensures count { length slopes.new ≡ length slopes.old }
{
    slopes[at] = slopes[at].settled_at(now);
}

// Raises each price of the span.
fn raise(land: Landscape<'_>, prices: &mut Prices, span: Span, by: u64)
    requires prices { IsGood (parts_in land.problem) prices.old }
    requires span { span.end ≤ length land.slopes.now }
    ensures prices { IsGood (parts_in land.entry.problem) prices.new }
{
    for at in span.first..span.end {
        let key = land.slopes[at].key;
        let price = prices.get(key).saturating_add(by).min(1 << 60);
        set_price(land.problem.s, key, price as i64, prices);
    }
}

// Lowers each price of the span.
fn lower(land: Landscape<'_>, prices: &mut Prices, span: Span, by: u64)
    requires prices { IsGood (parts_in land.problem) prices.old }
    requires span { span.end ≤ length land.slopes.now }
    ensures prices { IsGood (parts_in land.entry.problem) prices.new }
{
    for at in span.first..span.end {
        let key = land.slopes[at].key;
        set_price(
            land.problem.s,
            key,
            prices.get(key).saturating_sub(by) as i64,
            prices,
        );
    }
}
