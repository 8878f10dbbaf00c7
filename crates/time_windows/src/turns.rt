//! The connections of each flight.
ghost use Rattle.std.specs.Prelude.{◌≡◌, ◌++◌, ◌^◌, ◌<◌, ℕ, [], All, IfOk, OnOk, get_or, length, slice_index};
ghost use Rattle.flow_types.specs.Scenario.{parts_of};
ghost use Rattle.time_windows.specs.Ends.{flight_at};
ghost use Rattle.time_windows.specs.Turns.{AreLinks, AreTurnsAt, AreTurnsOf, turns_in, turns_of};

use crate::ends::{End, flight_at, other_at};
use crate::groups::Groups;
use flow_types::{Connection, OutOfMemory, Scenario};
use std::alloc::Global;
use std::marker::Model;

/// A connection as one of its flights sees it.
#[derive(Clone, Copy, Debug, PartialEq, Eq)]
pub struct Turn {
    /// Its position in the list of connections.
    pub connection: u32,
    /// The other flight.
    pub other: u32,
    pub turnaround: u16,
}

/// The connections of all flights, by flight: 24 bytes a connection, and 16 a flight.
#[derive(Debug)]
pub struct Turns {
    departures: Groups<Turn>,
    arrivals: Groups<Turn>,
}

impl Drop for Turns {
    fn drop(self) {
        let Turns {
            departures: _,
            arrivals: _,
        } = self;
    }
}

impl Model for Turns {
    ghost use Rattle.time_windows.specs.Turns.{TurnLists};

    ghost Value = { TurnLists };

    ghost view = { λ a. record { departures = a.departures; arrivals = a.arrivals } };
}

impl Turns {
    /// The connections of the scenario's flights. While it runs it takes 4 bytes more a connection
    /// and a flight.
    pub fn new(alloc: Global, s: &Scenario) -> Result<Turns, OutOfMemory>
        ensures { IfOk result (AreTurnsOf (parts_of s.now)) }
    {
        Ok(Turns {
            departures: turns_at(alloc, s, End::Departure)?,
            arrivals: turns_at(alloc, s, End::Arrival)?,
        })
    }

    /// A second block with the same connections.
    pub fn copy(&self, alloc: Global) -> Result<Turns, OutOfMemory>
        ensures { IfOk result (λ turns. turns ≡ self.now) }
    {
        Ok(Turns {
            departures: self.departures.copy(alloc)?,
            arrivals: self.arrivals.copy(alloc)?,
        })
    }

    /// The connections that the flight has at this end of its trip.
    pub fn of_flight(&self, flight: u32, end: End) -> &[Turn]
        ensures { result.now ≡ get_or (turns_of end self.now).closed flight [] }
    {
        match end {
            End::Departure => self.departures.group(flight as usize),
            End::Arrival => self.arrivals.group(flight as usize),
        }
    }
}

// The connections with each flight at this end.
fn turns_at(alloc: Global, s: &Scenario, end: End) -> Result<Groups<Turn>, OutOfMemory>
    ensures { IfOk result (AreTurnsAt end (parts_of s.now)) }
{
    let connections = s.connections();
    let none = connections.len() as u32;
    let mut firsts = vec![in alloc; none; s.flights().len()]?;
    let mut nexts = vec![in alloc; none; connections.len()]?;
    link(connections, end, &mut firsts, &mut nexts);
    turns_by(alloc, connections, end, &firsts, &nexts)
}

// Sets for each flight its first connection, and for each connection the next one of its flight,
// where there is one.
fn link(connections: &[Connection], end: End, firsts: &mut [u32], nexts: &mut [u32])
    requires few { length connections.now < 2 ^ 32 }
    requires flights { All (λ connection. flight_at end connection < length firsts.old)
        connections.now }
    requires firsts { (number : ℕ) → number < length firsts.old
        → slice_index firsts.old number ≡ length connections.now }
    requires nexts { length nexts.old ≡ length connections.now }
    ensures links { AreLinks end connections.now 0 firsts.new nexts.new }
    ensures firsts { length firsts.new ≡ length firsts.old }
    ensures nexts { length nexts.new ≡ length nexts.old }
{
    for k in (0..connections.len()).rev() {
        let flight = flight_at(end, connections[k]) as usize;
        nexts[k] = firsts[flight];
        firsts[flight] = k as u32;
    }
}

// The connections of each flight, one after the other.
fn turns_by(
    alloc: Global,
    connections: &[Connection],
    end: End,
    firsts: &[u32],
    nexts: &[u32],
) -> Result<Groups<Turn>, OutOfMemory>
    requires few { length connections.now < 2 ^ 32 }
    requires nexts { length nexts.now ≡ length connections.now }
    requires links { AreLinks end connections.now 0 firsts.now nexts.now }
    ensures { IfOk result (λ turns. (number : ℕ) → number < length firsts.now
        → get_or turns.closed number [] ≡ turns_in end number 0 connections.now) }
{
    let mut groups = Groups::new(alloc);
    for flight in 0..firsts.len() {
        add_turns(&mut groups, connections, end, flight, firsts, nexts)?;
        groups.close()?;
    }
    Ok(groups)
}

// Adds the connections of a flight, from its first one on.
fn add_turns(
    groups: &mut Groups<Turn>,
    connections: &[Connection],
    end: End,
    flight: usize,
    firsts: &[u32],
    nexts: &[u32],
) -> Result<(), OutOfMemory>
    requires few { length connections.now < 2 ^ 32 }
    requires nexts { length nexts.now ≡ length connections.now }
    requires links { AreLinks end connections.now 0 firsts.now nexts.now }
    requires flight { flight < length firsts.now }
    ensures closed { groups.new.closed ≡ groups.old.closed }
    ensures added { OnOk result
        (groups.new.pending ≡ groups.old.pending ++ turns_in end flight 0 connections.now) }
{
    let mut at = firsts[flight];
    while (at as usize) < connections.len() {
        let connection = connections[at as usize];
        groups.add(Turn {
            connection: at,
            other: other_at(end, connection),
            turnaround: connection.turnaround,
        })?;
        at = nexts[at as usize];
    }
    Ok(())
}
