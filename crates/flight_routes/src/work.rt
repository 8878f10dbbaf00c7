//! The least trip of a flight: under prices, or beside the trips of others.
ghost use Rattle.std.specs.Prelude.{◌≡◌, ◌≤◌, ◌<◌, ℕ, IfOk, MatchOption, [], length, vec_capacity, vec_len};
ghost use Rattle.exact_sums.specs.Leasts.{IsFirstLeast, IsLeast};
ghost use Rattle.flow_types.specs.Limits.{most_nodes, most_periods};
ghost use Rattle.time_windows.specs.Boxes.{IsProper};
ghost use Rattle.time_windows.specs.Held.{box_of};
ghost use Rattle.time_windows.specs.Subproblems.{box_in, parts_in};
ghost use Rattle.flight_routes.specs.Ready.{IsTaken, row_of};
ghost use Rattle.flight_routes.specs.TripOrder.{IsNoLater};
ghost use Rattle.flight_routes.specs.WayParts.{AreRisingIn, IsWayIn, cost_in};

use crate::accesses::span_of;
use crate::cost::Cost;
use crate::distances::distances_of;
use crate::early::{about_first_end, early_way, last_end};
use crate::fit_rates::set_fit_rates;
use crate::loaded_flight::LoadedFlight;
use crate::price_rates::set_price_rates;
use crate::priced_fit_rates::close_end_in;
use crate::priced_flight::PricedFlight;
use crate::prices::Prices;
use crate::rates::RateTable;
use crate::table::Table;
use crate::time_costs::last_of;
use crate::ways::Ways;
use flow_types::{MOST_NODES, OutOfMemory, Scenario, Stop};
use plan_rules::Loads;
use std::alloc::Global;
use std::marker::Model;
use time_windows::{Access, Boxes, End, Subproblem, Window};

/// The room in which least trips are found, made once for a scenario: 0.9 MB. Contracts see it as
/// the stops of the last least trip and the periods of the scenario.
#[derive(Debug)]
pub struct Work {
    periods: u16,
    // The rates of one flight, under prices and beside loads.
    priced: RateTable,
    fitting: RateTable,
    table: Table,
    // What the box says of each node of the flight, and the same with windows that are cut.
    accesses: Vec<Access>,
    cut: Vec<Access>,
    // What connections cost from each period on.
    sums: Vec<u128>,
    stops: Vec<Stop>,
}

// Written out, so that proofs see one call where a room is let go of.
impl Drop for Work {
    fn drop(self) {
        let Work {
            periods: _,
            priced: _,
            fitting: _,
            table: _,
            accesses: _,
            cut: _,
            sums: _,
            stops: _,
        } = self;
    }
}

impl Model for Work {
    ghost use Rattle.std.specs.Prelude.{◌≡◌, ◌≤◌, vec_capacity, vec_len};
    ghost use Rattle.flow_types.specs.Limits.{most_nodes, most_periods};
    ghost use Rattle.flight_routes.specs.Filling.{IsFitTable, IsPriceTable};
    ghost use Rattle.flight_routes.specs.Work.{Worked};

    ghost Value = { Worked };

    ghost view = { λ a. record { trip = a.stops.items; periods = a.periods } };

    ghost invariant = { λ a. IsPriceTable a.priced × IsFitTable a.fitting
        × (vec_len a.accesses ≡ most_nodes) × (vec_len a.cut ≡ most_nodes)
        × (vec_len a.sums ≡ a.periods)
        × (most_nodes ≤ vec_capacity a.stops) };
}

impl Work {
    ghost use Rattle.std.specs.Prelude.{ℕ, ◌≡◌, ◌<◌, ◌^◌, IfOk, List, MatchOption, Some, [], length};
    ghost use Rattle.exact_sums.specs.Leasts.{IsFirstLeast, IsLeast};
    ghost use Rattle.flow_types.specs.declared.plan.Stop.{Stop};
    ghost use Rattle.flow_types.specs.Costs.{trip_cost_at};
    ghost use Rattle.flow_types.specs.Scenario.{flight_at, parts_of};
    ghost use Rattle.plan_rules.specs.Loads.{AreLoads, IsMadeFor as AreLoadsFor};
    ghost use Rattle.time_windows.specs.Boxes.{IsProper};
    ghost use Rattle.time_windows.specs.Subproblems.{box_in, parts_in};
    ghost use Rattle.flight_routes.specs.Fits.{IsTripThatFits};
    ghost use Rattle.flight_routes.specs.Inside.{IsTripIn};
    ghost use Rattle.flight_routes.specs.Prices.{ArePricesOf, priced_cost};
    ghost use Rattle.flight_routes.specs.TripOrder.{IsNoLater};
    ghost use Rattle.flight_routes.specs.Work.{IsWorkFor};

    /// Room for the flights of the scenario, with no trip in it yet.
    pub fn new(alloc: Global, s: &Scenario) -> Result<Work, OutOfMemory>
        ensures made { IfOk result (IsWorkFor (parts_of s.now)) }
        ensures none { IfOk result (λ work. work.trip ≡ []) }
    {
        let periods = s.day().periods;
        Ok(Work {
            periods,
            priced: RateTable::new(alloc)?,
            fitting: RateTable::new(alloc)?,
            table: Table::new(alloc)?,
            accesses: no_accesses(alloc)?,
            cut: no_accesses(alloc)?,
            sums: no_sums(alloc, periods)?,
            stops: Vec::with_capacity(alloc, MOST_NODES)?,
        })
    }

    /// The least of weight times cost plus prices over the trips of the flight in the box, nothing
    /// where there is no trip. The flight, the box and the prices are of the scenario that the work
    /// was made for, and the weight is below 2^62. It takes no memory, and time for each leg and
    /// each period between the windows that it joins.
    ///
    /// A dynamic program from the destination back over nodes and periods, with the least of the
    /// later entries kept along each leg (the least path in a network of nodes and times).
    pub fn least_trip(
        &mut self,
        problem: Subproblem<'_>,
        flight: u32,
        weight: u64,
        prices: &Prices,
    ) -> Option<i128>
        requires made { IsWorkFor (parts_in problem) self.old }
        requires flight { flight < length (parts_in problem).flights }
        requires weight { weight < 2 ^ 62 }
        requires prices { ArePricesOf (parts_in problem) prices.now }
        ensures least { IsLeast (IsTripIn (parts_in problem.entry) (box_in problem.entry) flight)
            (priced_cost weight prices.now (parts_in problem.entry) flight) result }
        ensures first { MatchOption result (self.new.trip ≡ []) (λ least.
            IsFirstLeast (IsTripIn (parts_in problem.entry) (box_in problem.entry) flight)
            (priced_cost weight prices.now (parts_in problem.entry) flight) IsNoLater
            self.new.trip) }
        ensures made { IsWorkFor (parts_in problem.entry) self.new }
    {
        let Subproblem { s, boxes } = problem;
        let span = take_row(&mut self.accesses, problem, flight);
        let row: &[Access] = &self.accesses;
        self.priced.begin(span);
        let priced = PricedFlight {
            s,
            flight,
            turns: boxes.turns(),
            prices,
            weight,
        };
        set_price_rates(&mut self.priced, &mut self.sums, priced, row);
        let ways = Ways {
            flight: &s.flights()[flight as usize],
            accesses: row,
            rates: &self.priced,
        };
        least_way(&mut self.table, ways, &mut self.cut, &mut self.stops).get()
    }

    /// The least cost of the trips of the flight in the box that fit beside the trips that the
    /// loads count: they take no count above a capacity and break no connection. Nothing where
    /// there is no such trip. A trip of its own that the loads count takes room like any other. The
    /// flight, the box and the loads are of the scenario that the work was made for. It takes no
    /// memory, and time as `least_trip`.
    pub fn least_fit(&mut self, problem: Subproblem<'_>, flight: u32, loads: &Loads) -> Option<i128>
        requires made { IsWorkFor (parts_in problem) self.old }
        requires flight { flight < length (parts_in problem).flights }
        requires loads { AreLoadsFor (parts_in problem) loads.now }
        ensures least { (trips : List (List Stop))
            → AreLoads (parts_in problem.entry) trips loads.now
            → IsLeast (IsTripThatFits (parts_in problem.entry) (box_in problem.entry) trips flight)
            (trip_cost_at (parts_in problem.entry).tables (flight_at problem.entry.s.now flight))
            result }
        ensures first { (trips : List (List Stop))
            → AreLoads (parts_in problem.entry) trips loads.now
            → MatchOption result (self.new.trip ≡ []) (λ least. IsFirstLeast
            (IsTripThatFits (parts_in problem.entry) (box_in problem.entry) trips flight)
            (trip_cost_at (parts_in problem.entry).tables (flight_at problem.entry.s.now flight))
            IsNoLater self.new.trip) }
        ensures made { IsWorkFor (parts_in problem.entry) self.new }
    {
        let Subproblem { s, boxes } = problem;
        let span = take_row(&mut self.accesses, problem, flight);
        let row: &[Access] = &self.accesses;
        self.fitting.begin(span);
        let loaded = LoadedFlight {
            s,
            flight,
            turns: boxes.turns(),
            loads,
        };
        set_fit_rates(&mut self.fitting, loaded, row);
        let ways = Ways {
            flight: &s.flights()[flight as usize],
            accesses: row,
            rates: &self.fitting,
        };
        least_way(&mut self.table, ways, &mut self.cut, &mut self.stops).get()
    }

    /// The least of weight times cost plus prices over the trips of the flight in the box that fit
    /// beside the trips that the loads count, as for `least_fit`. Nothing where there is no such
    /// trip. The flight, the box, the prices and the loads are of the scenario that the work was
    /// made for, and the weight is below 2^62. It takes no memory, and the time in which both other
    /// calls set their rates and one of them finds its least.
    pub fn least_priced_fit(
        &mut self,
        problem: Subproblem<'_>,
        flight: u32,
        weight: u64,
        prices: &Prices,
        loads: &Loads,
    ) -> Option<i128>
        requires made { IsWorkFor (parts_in problem) self.old }
        requires flight { flight < length (parts_in problem).flights }
        requires weight { weight < 2 ^ 62 }
        requires prices { ArePricesOf (parts_in problem) prices.now }
        requires loads { AreLoadsFor (parts_in problem) loads.now }
        ensures least { (trips : List (List Stop))
            → AreLoads (parts_in problem.entry) trips loads.now
            → IsLeast (IsTripThatFits (parts_in problem.entry) (box_in problem.entry) trips flight)
            (priced_cost weight prices.now (parts_in problem.entry) flight) result }
        ensures first { (trips : List (List Stop))
            → AreLoads (parts_in problem.entry) trips loads.now
            → MatchOption result (self.new.trip ≡ []) (λ least. IsFirstLeast
            (IsTripThatFits (parts_in problem.entry) (box_in problem.entry) trips flight)
            (priced_cost weight prices.now (parts_in problem.entry) flight) IsNoLater
            self.new.trip) }
        ensures made { IsWorkFor (parts_in problem.entry) self.new }
    {
        let Subproblem { s, boxes } = problem;
        let span = take_row(&mut self.accesses, problem, flight);
        let row: &[Access] = &self.accesses;
        self.priced.begin(span);
        self.fitting.begin(span);
        let turns = boxes.turns();
        let priced = PricedFlight {
            s,
            flight,
            turns,
            prices,
            weight,
        };
        set_price_rates(&mut self.priced, &mut self.sums, priced, row);
        let loaded = LoadedFlight {
            s,
            flight,
            turns,
            loads,
        };
        set_fit_rates(&mut self.fitting, loaded, row);
        let details = &s.flights()[flight as usize];
        let last = last_of(details);
        close_end_in(&mut self.priced, &self.fitting, End::Departure, row, 0);
        close_end_in(&mut self.priced, &self.fitting, End::Arrival, row, last);
        // A stay is as long as it fits while the least is looked for.
        self.priced.exchange_clear(&mut self.fitting);
        let ways = Ways {
            flight: details,
            accesses: row,
            rates: &self.priced,
        };
        let least = least_way(&mut self.table, ways, &mut self.cut, &mut self.stops);
        self.priced.exchange_clear(&mut self.fitting);
        least.get()
    }

    /// The stops of the first, in the order of trips, of those that reached the least that was
    /// found last; no stops where there was no trip, and before the first call.
    pub fn trip(&self) -> &[Stop]
        ensures { result.now ≡ self.now.trip }
    {
        &self.stops
    }
}

// So many closed nodes as a flight may have.
fn no_accesses(alloc: Global) -> Result<Vec<Access>, OutOfMemory>
    ensures { IfOk result (λ accesses. vec_len accesses ≡ most_nodes) }
{
    let closed = Access {
        window: None,
        must: false,
    };
    Ok(vec![in alloc; closed; 32]?)
}

// A sum of nothing for each period of the day.
fn no_sums(alloc: Global, periods: u16) -> Result<Vec<u128>, OutOfMemory>
    ensures { IfOk result (λ sums. vec_len sums ≡ periods) }
{
    Ok(vec![in alloc; 0; usize::from(periods)]?)
}

// Puts what the box says of each node of the flight into a row.
fn copy_row(accesses: &mut [Access], boxes: &Boxes, flight: u32)
    requires { length accesses.old ≡ most_nodes }
    ensures length { length accesses.new ≡ most_nodes }
    ensures row { (n : ℕ) → row_of accesses.new n ≡ box_of boxes.now flight n }
    ensures proper { (n : ℕ) → IsProper (row_of accesses.new n).window }
{
    for node in 0..MOST_NODES {
        accesses[node] = boxes.access(flight, node as u16);
    }
}

// Puts what the box says of each node of the flight into a row, and tells the periods from the
// first to the last in which one is open.
fn take_row(accesses: &mut [Access], problem: Subproblem<'_>, flight: u32) -> Window
    requires accesses { length accesses.old ≡ most_nodes }
    requires flight { flight < length (parts_in problem).flights }
    ensures { IsTaken (parts_in problem.entry) (box_in problem.entry) flight result accesses.new }
{
    copy_row(accesses, problem.boxes, flight);
    span_of(accesses, problem.s.day().periods)
}

// The least of all ways of the flight, and the first of those that reach it: no stops where there
// is none.
fn whole_way(table: &mut Table, ways: Ways<'_>, stops: &mut Vec<Stop>) -> Cost
    requires room { most_nodes ≤ vec_capacity stops.old }
    ensures least { IsLeast (IsWayIn ways.entry) (cost_in ways.entry) result }
    ensures first { MatchOption result (stops.new.items ≡ []) (λ least.
        IsFirstLeast (IsWayIn ways.entry) (cost_in ways.entry) IsNoLater stops.new.items) }
    ensures room { most_nodes ≤ vec_capacity stops.new }
{
    let least = table.least_way(ways);
    if least.is_some() {
        table.trace(ways, least, stops);
    } else {
        stops.clear();
    }
    least
}

// The least way, and its stops. Where ways may end late, it looks among those that end early first:
// while a later one may cost as little, among those that have twice as many periods.
fn least_way(table: &mut Table, ways: Ways<'_>, cut: &mut [Access], stops: &mut Vec<Stop>) -> Cost
    requires cut { length cut.old ≡ most_nodes }
    requires rising { AreRisingIn ways }
    requires room { most_nodes ≤ vec_capacity stops.old }
    ensures least { IsLeast (IsWayIn ways.entry) (cost_in ways.entry) result }
    ensures first { MatchOption result (stops.new.items ≡ []) (λ least.
        IsFirstLeast (IsWayIn ways.entry) (cost_in ways.entry) IsNoLater stops.new.items) }
    ensures room { most_nodes ≤ vec_capacity stops.new }
    ensures length { length cut.new ≡ most_nodes }
{
    let distances = distances_of(ways.flight);
    let first = about_first_end(ways);
    let end = last_end(ways);
    let mut width = 32u32;
    while first + width < end {
        let cap = (first + width) as u16;
        let early = early_way(table, ways, cut, &distances, cap, stops);
        if early.is_some() {
            return early;
        }
        width *= 2;
    }
    whole_way(table, ways, stops)
}
