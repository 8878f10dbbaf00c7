//! Tightening the ends of connections.
ghost use Rattle.std.specs.Prelude.{◌≡◌, ◌⊎◌, ◌<◌, ℕ, length, slice_get, All};
ghost use Rattle.flow_types.specs.Limits.{most_nodes};
ghost use Rattle.flow_types.specs.Scenario.{parts_of};
ghost use Rattle.std.specs.List.{Contains};
ghost use Rattle.time_windows.specs.Boxes.{IsWindowWithin};
ghost use Rattle.time_windows.specs.Ends.{flight_at};
ghost use Rattle.time_windows.specs.Held.{AreLegGroupsOf, access_at};
ghost use Rattle.time_windows.specs.Narrowing.{AreSound, AreTightRows, IsDone, IsLowered, IsRaised, IsSound, IsStep, KeepsAt, Narrows};
ghost use Rattle.time_windows.specs.Tight.{IsTight, IsTightened, last_of};
ghost use Rattle.time_windows.specs.Turns.{AreTurnsOf, connection_at};
ghost use Rattle.number_set.specs.Few.{IsIn};

use crate::access::{Access, Window};
use crate::accesses::{set_window, window_at};
use crate::ends::End;
use crate::groups::Groups;
use crate::network::Network;
use crate::rows::{settle, settle_flights};
use crate::turns::{Turn, Turns};
use crate::windows::{below_limit, entry_of, from_entry, limit_of, width_of};
use flow_types::{Connection, Leg, Scenario};
use number_set::FewNumbers;

/// Narrows the windows to the widest ones that are tight: those of each flight once, and then the
/// ends of connections until none moves any more.
pub fn tighten_all(accesses: &mut [Access], leg_groups: &Groups<Leg>, turns: &Turns, s: &Scenario)
    requires leg_groups { AreLegGroupsOf (parts_of s.now) leg_groups.now }
    requires turns { AreTurnsOf (parts_of s.now) turns.now }
    requires sound { AreSound accesses.old }
    ensures sound { AreSound accesses.new }
    ensures tight { IsTightened (parts_of s.now) (access_at accesses.old)
        (access_at accesses.new) }
{
    settle_flights(accesses, leg_groups, s);
    settle_connections(accesses, Network { s, leg_groups }, turns);
}

// Looks at the connections of each flight, and again at those of each one whose windows a
// connection has moved.
fn settle_connections(accesses: &mut [Access], network: Network<'_>, turns: &Turns)
    requires turns { AreTurnsOf (parts_of network.s.now) turns.now }
    requires sound { AreSound accesses.old }
    requires rows { AreTightRows (parts_of network.s.now) accesses.old }
    ensures narrows { Narrows (IsTight (parts_of network.entry.s.now)) accesses.old accesses.new }
    ensures tight { IsTight (parts_of network.entry.s.now) (access_at accesses.new) }
{
    let mut waiting = FewNumbers::below(network.s.flights().len() as u32);
    while let Some(flight) = waiting.pop_first() {
        settle_flight(accesses, &mut waiting, network, turns, flight);
    }
}

/// Narrows the windows at the connections of the flight. Each flight whose windows that moves waits
/// then.
pub fn settle_flight(
    accesses: &mut [Access],
    waiting: &mut FewNumbers,
    network: Network<'_>,
    turns: &Turns,
    flight: u32,
)
    requires flight { flight < length (parts_of network.s.now).flights }
    requires turns { AreTurnsOf (parts_of network.s.now) turns.now }
    requires sound { AreSound accesses.old }
    ensures step { IsStep (parts_of network.entry.s.now) accesses.old accesses.new waiting.old
        waiting.new }
    ensures departures { All (λ connection. connection.second ≡ flight
        → IsDone (parts_of network.entry.s.now) accesses.new waiting.new connection)
        (parts_of network.entry.s.now).connections }
    ensures arrivals { All (λ connection. connection.first ≡ flight
        → IsDone (parts_of network.entry.s.now) accesses.new waiting.new connection)
        (parts_of network.entry.s.now).connections }
{
    let departures = turns.of_flight(flight, End::Departure);
    settle_turns(
        accesses,
        waiting,
        network,
        departures,
        flight,
        End::Departure,
    );
    let arrivals = turns.of_flight(flight, End::Arrival);
    settle_turns(accesses, waiting, network, arrivals, flight, End::Arrival);
}

// Narrows the windows at the connections that the flight has at this end.
fn settle_turns(
    accesses: &mut [Access],
    waiting: &mut FewNumbers,
    network: Network<'_>,
    turns: &[Turn],
    flight: u32,
    end: End,
)
    requires turns { All (λ turn. Contains (parts_of network.s.now).connections
        (connection_at end flight turn)) turns.now }
    requires sound { AreSound accesses.old }
    ensures step { IsStep (parts_of network.entry.s.now) accesses.old accesses.new waiting.old
        waiting.new }
    ensures done { All (λ turn. IsDone (parts_of network.entry.s.now) accesses.new waiting.new
        (connection_at end flight turn)) turns.now }
{
    for turn in turns {
        settle_turn(
            accesses,
            waiting,
            network,
            connection_at(end, flight, *turn),
        );
    }
}

// The connection of the flight at this end.
fn connection_at(end: End, flight: u32, turn: Turn) -> Connection
    ensures { result ≡ connection_at end flight turn }
{
    match end {
        End::Departure => Connection {
            first: turn.other,
            second: flight,
            turnaround: turn.turnaround,
        },
        End::Arrival => Connection {
            first: flight,
            second: turn.other,
            turnaround: turn.turnaround,
        },
    }
}

// Narrows the windows at both ends of the connection.
#[tactic(auto, using(crate::proofs::ConnectionFacts::turn_done))]
fn settle_turn(
    accesses: &mut [Access],
    waiting: &mut FewNumbers,
    network: Network<'_>,
    turn: Connection,
)
    requires turn { Contains (parts_of network.s.now).connections turn }
    requires sound { AreSound accesses.old }
    ensures step { IsStep (parts_of network.entry.s.now) accesses.old accesses.new waiting.old
        waiting.new }
    ensures done { IsDone (parts_of network.entry.s.now) accesses.new waiting.new turn }
{
    raise_turn(accesses, waiting, network, turn);
    lower_turn(accesses, waiting, network, turn);
}

// Raises the window in which the second flight leaves.
#[tactic(auto, using(crate::proofs::ConnectionFacts::raise_kept))]
fn raise_turn(
    accesses: &mut [Access],
    waiting: &mut FewNumbers,
    network: Network<'_>,
    turn: Connection,
)
    requires turn { Contains (parts_of network.s.now).connections turn }
    requires sound { AreSound accesses.old }
    ensures step { IsStep (parts_of network.entry.s.now) accesses.old accesses.new waiting.old
        waiting.new }
    ensures raised { IsRaised (parts_of network.entry.s.now) (access_at accesses.new) turn
        ⊎ IsIn waiting.new turn.second }
{
    let arrives = window_at(accesses, turn.first, last_of(network.s, turn.first));
    let leaves = window_at(accesses, turn.second, 0);
    let window = from_entry(leaves, entry_of(arrives, turn.turnaround));
    move_to(accesses, waiting, network, turn.second, 0, window);
}

// Lowers the window in which the first flight arrives.
#[tactic(auto, using(crate::proofs::ConnectionFacts::lower_kept))]
fn lower_turn(
    accesses: &mut [Access],
    waiting: &mut FewNumbers,
    network: Network<'_>,
    turn: Connection,
)
    requires turn { Contains (parts_of network.s.now).connections turn }
    requires sound { AreSound accesses.old }
    ensures step { IsStep (parts_of network.entry.s.now) accesses.old accesses.new waiting.old
        waiting.new }
    ensures lowered { IsLowered (parts_of network.entry.s.now) (access_at accesses.new) turn
        ⊎ IsIn waiting.new turn.first }
{
    let last = last_of(network.s, turn.first);
    let arrives = window_at(accesses, turn.first, last);
    let leaves = window_at(accesses, turn.second, 0);
    let window = below_limit(arrives, limit_of(leaves, turn.turnaround));
    move_to(accesses, waiting, network, turn.first, last, window);
}

// The last node of the flight.
fn last_of(s: &Scenario, flight: u32) -> u16
    requires { flight < length (parts_of s.now).flights }
    ensures last { result ≡ last_of (slice_get (parts_of s.now).flights flight) }
    ensures node { result < most_nodes }
{
    (s.flights()[flight as usize].nodes.items().len() - 1) as u16
}

// Narrows the window of the flight's node; where it is another window then, settles the flight and
// lets it wait.
fn move_to(
    accesses: &mut [Access],
    waiting: &mut FewNumbers,
    network: Network<'_>,
    flight: u32,
    node: u16,
    window: Option<Window>,
)
    requires flight { flight < length (parts_of network.s.now).flights }
    requires node { node < most_nodes }
    requires sound { AreSound accesses.old }
    requires within { IsWindowWithin window (access_at accesses.old flight node).window }
    requires proper { IsSound window }
    requires kept { KeepsAt (parts_of network.s.now) flight node window accesses.old }
    ensures step { IsStep (parts_of network.entry.s.now) accesses.old accesses.new waiting.old
        waiting.new }
    ensures still { (accesses.new ≡ accesses.old)
        × (window ≡ (access_at accesses.old flight node).window) ⊎ IsIn waiting.new flight }
{
    if width_of(window) == width_of(window_at(accesses, flight, node)) {
        return;
    }
    set_window(accesses, flight, node, window);
    settle(accesses, network.leg_groups, network.s, flight);
    waiting.insert(flight);
}
