//! Tightening the windows of one flight.
ghost use Rattle.std.specs.Prelude.{◌≡◌, ◌+◌, ◌<◌, All, length};
ghost use Rattle.flow_types.specs.Scenario.{parts_of};
ghost use Rattle.time_windows.specs.Held.{AreLegGroupsOf, access_at};
ghost use Rattle.time_windows.specs.Narrowing.{AreEntered, AreSound, AreTightRows, AreLegGroupsAt, IsLoweredTo, IsRaisedTo, IsSettled, Narrows, NarrowsRow};
ghost use Rattle.time_windows.specs.Tight.{IsTight};
ghost use Rattle.time_windows.specs.Steps.{latest_limit, with_entries};

use crate::access::{Access, Window};
use crate::accesses::{set_window, window_at};
use crate::groups::Groups;
use crate::leg_groups::legs_from;
use crate::windows::{NEVER, below_limit, entry_of, from_entry, limit_of};
use flow_types::{Flight, Leg, MOST_NODES, Scenario};

/// Settles each flight.
pub fn settle_flights(accesses: &mut [Access], leg_groups: &Groups<Leg>, s: &Scenario)
    requires leg_groups { AreLegGroupsOf (parts_of s.now) leg_groups.now }
    requires sound { AreSound accesses.old }
    ensures narrows { Narrows (IsTight (parts_of s.now)) accesses.old accesses.new }
    ensures rows { AreTightRows (parts_of s.now) accesses.new }
{
    for number in 0..s.flights().len() {
        settle(accesses, leg_groups, s, number as u32);
    }
}

/// Narrows the windows of the flight until each has a leg in and a leg out: once over its legs
/// forward, once back.
pub fn settle(accesses: &mut [Access], leg_groups: &Groups<Leg>, s: &Scenario, number: u32)
    requires flight { number < length (parts_of s.now).flights }
    requires leg_groups { AreLegGroupsOf (parts_of s.now) leg_groups.now }
    requires sound { AreSound accesses.old }
    ensures { IsSettled (parts_of s.now) number accesses.old accesses.new }
{
    let flight = &s.flights()[number as usize];
    raise_starts(accesses, leg_groups, flight, number);
    lower_ends(accesses, leg_groups, flight, number);
}

// Raises each window to the first entry by a leg from an open node.
fn raise_starts(accesses: &mut [Access], leg_groups: &Groups<Leg>, flight: &Flight, number: u32)
    requires leg_groups { AreLegGroupsAt leg_groups.now number flight.now }
    requires sound { AreSound accesses.old }
    ensures narrows { NarrowsRow flight.now number accesses.old accesses.new }
    ensures entered { AreEntered flight.now (access_at accesses.new number)
        (length flight.now.nodes) }
{
    let mut entries = [NEVER; MOST_NODES];
    entries[0] = 0;
    for node in 0..flight.nodes.items().len() {
        raise_start(
            accesses,
            &mut entries,
            leg_groups,
            flight,
            number,
            node as u16,
        );
    }
}

// Raises the window of the node, and takes the entries by the legs from there.
fn raise_start(
    accesses: &mut [Access],
    entries: &mut [u32],
    leg_groups: &Groups<Leg>,
    flight: &Flight,
    number: u32,
    node: u16,
)
    requires leg_groups { AreLegGroupsAt leg_groups.now number flight.now }
    requires sound { AreSound accesses.old }
    requires node { node < length flight.now.nodes }
    requires raised { IsRaisedTo flight.now (access_at accesses.old number) entries.old node }
    ensures narrows { NarrowsRow flight.now number accesses.old accesses.new }
    ensures raised { IsRaisedTo flight.now (access_at accesses.new number) entries.new
        (node + 1) }
{
    let window = from_entry(
        window_at(accesses, number, node),
        entries[usize::from(node)],
    );
    set_window(accesses, number, node, window);
    take_entries(entries, window, legs_from(leg_groups, number, node));
}

// Takes the entries by legs from a node with this window.
fn take_entries(entries: &mut [u32], window: Option<Window>, legs: &[Leg])
    requires { All (λ leg. leg.to < length entries.old) legs.now }
    ensures { entries.new ≡ with_entries window legs.now entries.old }
{
    for leg in legs {
        let to = usize::from(leg.to);
        entries[to] = entries[to].min(entry_of(window, leg.least));
    }
}

// Lowers each window to the last period from which a leg leads on to an open node.
fn lower_ends(accesses: &mut [Access], leg_groups: &Groups<Leg>, flight: &Flight, number: u32)
    requires leg_groups { AreLegGroupsAt leg_groups.now number flight.now }
    requires sound { AreSound accesses.old }
    requires entered { AreEntered flight.now (access_at accesses.old number)
        (length flight.now.nodes) }
    ensures narrows { NarrowsRow flight.now number accesses.old accesses.new }
    ensures lowered { IsLoweredTo flight.now (access_at accesses.new number) 0 }
{
    for node in (0..flight.nodes.items().len() - 1).rev() {
        lower_end(accesses, leg_groups, flight, number, node as u16);
    }
}

// Lowers the window of the node.
fn lower_end(
    accesses: &mut [Access],
    leg_groups: &Groups<Leg>,
    flight: &Flight,
    number: u32,
    node: u16,
)
    requires leg_groups { AreLegGroupsAt leg_groups.now number flight.now }
    requires sound { AreSound accesses.old }
    requires node { node + 1 < length flight.now.nodes }
    requires lowered { IsLoweredTo flight.now (access_at accesses.old number) (node + 1) }
    ensures narrows { NarrowsRow flight.now number accesses.old accesses.new }
    ensures lowered { IsLoweredTo flight.now (access_at accesses.new number) node }
{
    let limit = latest_limit(accesses, number, legs_from(leg_groups, number, node));
    let window = below_limit(window_at(accesses, number, node), limit);
    set_window(accesses, number, node, window);
}

// The latest limit of the legs.
fn latest_limit(accesses: &[Access], number: u32, legs: &[Leg]) -> u32
    ensures { result ≡ latest_limit (access_at accesses.now number) legs.now 0 }
{
    let mut limit = 0;
    for leg in legs {
        limit = limit.max(limit_of(window_at(accesses, number, leg.to), leg.least));
    }
    limit
}
