//! Filling a row by its name.
ghost use Rattle.std.specs.Prelude.{◌≡◌, ◌+◌, ◌-◌, ◌*◌, ◌≤◌, ◌<◌, ◌∷◌, [], length, None, Some, slice_get};
ghost use Rattle.flow_types.specs.Limits.{most_legs, most_nodes};
ghost use Rattle.flow_types.specs.Scenario.{flight_at, parts_of};
ghost use Rattle.bytime_model.specs.Filling.{Adds};
ghost use Rattle.bytime_model.specs.Rows.{back_term, back_terms, by_before, capacity_terms, enters_in, is_capacity, is_node, minus_one, connect_terms, enter_terms, leave_terms, turn_terms, most_terms, node_from, occupy_terms, on_term, on_terms, stay_terms, stay_terms_at, use_terms};
ghost use Rattle.bytime_model.specs.Values.{has_inside, is_plain};

use crate::buffer::RowBuffer;
use crate::variables::Var;
use flow_types::{CapKind, Connection, Flight, Leg, Scenario};

// Less having entered the node so many periods before, if that is in the day.
fn put_before(buffer: &mut RowBuffer, flight: u32, node: u16, time: u16, wait: u16)
    requires { length buffer.old.terms < most_terms }
    ensures { Adds (by_before minus_one flight node time wait) buffer.old buffer.new }
{
    if wait <= time {
        let time = time - wait;
        buffer.put(Var::By { flight, node, time }, -1);
    }
}

/// Entering the node in this period.
pub fn put_entry(buffer: &mut RowBuffer, flight: u32, node: u16, time: u16)
    requires { length buffer.old.terms + 2 ≤ most_terms }
    ensures { Adds (enters_in flight node time) buffer.old buffer.new }
{
    buffer.put(Var::By { flight, node, time }, 1);
    put_before(buffer, flight, node, time, 1);
}

// Less having entered what the leg leads to, if it is from the node.
fn put_on(buffer: &mut RowBuffer, flight: u32, node: u16, time: u16, leg: Leg)
    requires { length buffer.old.terms < most_terms }
    ensures { Adds (on_term flight node time leg) buffer.old buffer.new }
{
    if leg.from == node {
        let node = leg.to;
        buffer.put(Var::By { flight, node, time }, -1);
    }
}

// Less having entered what each leg from the node leads to.
#[tactic(auto, using(crate::proofs::FillFacts::on_few, crate::proofs::FillFacts::filled_none, crate::proofs::FillFacts::filled_more, crate::proofs::FillFacts::filled_all, exact_sums::proofs::LoopFacts::next_item))]
fn put_all_on(buffer: &mut RowBuffer, number: u32, flight: &Flight, node: u16, time: u16)
    requires { length buffer.old.terms + length flight.now.legs ≤ most_terms }
    ensures { Adds (on_terms number flight.now node time) buffer.old buffer.new }
{
    let legs = flight.legs.items();
    for leg in legs {
        put_on(buffer, number, node, time, *leg);
    }
}

// Less having left where the leg comes from in time for it, if it is to the node.
fn put_back(buffer: &mut RowBuffer, flight: u32, node: u16, time: u16, leg: Leg)
    requires { length buffer.old.terms < most_terms }
    ensures { Adds (back_term flight node time leg) buffer.old buffer.new }
{
    if leg.to == node {
        put_before(buffer, flight, leg.from, time, leg.least);
    }
}

// Less having left where each leg to the node comes from in time for it.
#[tactic(auto, using(crate::proofs::FillFacts::back_few, crate::proofs::FillFacts::filled_none, crate::proofs::FillFacts::filled_more, crate::proofs::FillFacts::filled_all, exact_sums::proofs::LoopFacts::next_item))]
fn put_all_back(buffer: &mut RowBuffer, number: u32, flight: &Flight, node: u16, time: u16)
    requires { length buffer.old.terms + length flight.now.legs ≤ most_terms }
    ensures { Adds (back_terms number flight.now node time) buffer.old buffer.new }
{
    let legs = flight.legs.items();
    for leg in legs {
        put_back(buffer, number, node, time, *leg);
    }
}

/// Being inside the node in the period.
pub fn put_stay(buffer: &mut RowBuffer, number: u32, flight: &Flight, time: u16, node: u16)
    requires { length buffer.old.terms + length flight.now.legs + 1 ≤ most_terms }
    ensures { Adds (stay_terms number flight.now time node) buffer.old buffer.new }
{
    if is_plain(flight, node) {
        let flight_number = number;
        buffer.put(
            Var::By {
                flight: flight_number,
                node,
                time,
            },
            1,
        );
        put_all_on(buffer, number, flight, node, time);
    } else {
        buffer.put(
            Var::Inside {
                flight: number,
                node,
                time,
            },
            1,
        );
    }
}

/// Whether the node is a plain one, by its tests.
pub fn is_plain(flight: &Flight, node: u16) -> bool
    ensures { result ≡ is_plain flight.now node }
{
    flow_types::is_plain(flight, node)
}

// The node at the place, if there is one.
fn node_at(nodes: &[u32], place: u32) -> Option<u16>
    requires { length nodes.now ≤ most_nodes }
    ensures { result ≡ node_from place 0 nodes.now }
{
    for node in 0..nodes.len() {
        if nodes[node] == place {
            return Some(node as u16);
        }
    }
    None
}

// Being inside the place in the period, at whichever node it is.
fn put_stay_at(buffer: &mut RowBuffer, number: u32, flight: &Flight, place: u32, time: u16)
    requires room { length buffer.old.terms + most_legs + 1 ≤ most_terms }
    requires nodes { length flight.now.nodes ≤ most_nodes }
    requires legs { length flight.now.legs ≤ most_legs }
    ensures { Adds (stay_terms_at number flight.now time (node_from place 0 flight.now.nodes))
        buffer.old buffer.new }
{
    if let Some(node) = node_at(flight.nodes.items(), place) {
        put_stay(buffer, number, flight, time, node);
    }
}

/// The last node of the flight.
pub fn last_node(flight: &Flight) -> u16
    requires some { 1 ≤ length flight.now.nodes }
    requires few { length flight.now.nodes ≤ most_nodes }
    ensures { result ≡ length flight.now.nodes - 1 }
{
    (flight.nodes.items().len() - 1) as u16
}

// What the flight takes of the place's capacity of this kind in the period.
fn put_use(
    buffer: &mut RowBuffer,
    kind: CapKind,
    place: u32,
    time: u16,
    number: u32,
    flight: &Flight,
)
    requires room { length buffer.old.terms + most_legs + 2 ≤ most_terms }
    requires some { 1 ≤ length flight.now.nodes }
    requires nodes { length flight.now.nodes ≤ most_nodes }
    requires legs { length flight.now.legs ≤ most_legs }
    ensures { Adds (use_terms kind place time number flight.now) buffer.old buffer.new }
{
    match kind {
        CapKind::Dep => {
            if flight.from == place {
                put_entry(buffer, number, 0, time);
            }
        }
        CapKind::Arr => {
            if flight.to == place {
                put_entry(buffer, number, last_node(flight), time);
            }
        }
        CapKind::Sector => put_stay_at(buffer, number, flight, place, time),
    }
}

/// What all flights take of it.
#[tactic(auto, using(crate::proofs::FillFacts::filled_none, crate::proofs::FillFacts::filled_all))]
pub fn put_uses(buffer: &mut RowBuffer, s: &Scenario, kind: CapKind, place: u32, time: u16)
    requires { buffer.old.terms ≡ [] }
    ensures { Adds (capacity_terms (parts_of s.now) kind place time) buffer.old buffer.new }
{
    let flights = s.flights();
    for number in 0..flights.len() {
        put_use(buffer, kind, place, time, number as u32, &flights[number]);
    }
}

/// Entered by the period, and neither further on nor inside.
pub fn put_occupy(buffer: &mut RowBuffer, number: u32, flight: &Flight, node: u16, time: u16)
    requires room { length buffer.old.terms ≡ 0 }
    requires legs { length flight.now.legs ≤ most_legs }
    ensures { Adds (occupy_terms number flight.now node time) buffer.old buffer.new }
{
    buffer.put(
        Var::By {
            flight: number,
            node,
            time,
        },
        1,
    );
    put_all_on(buffer, number, flight, node, time);
    buffer.put(
        Var::Inside {
            flight: number,
            node,
            time,
        },
        -1,
    );
}

/// Entered by the period, and none before it in time.
pub fn put_enter(buffer: &mut RowBuffer, number: u32, flight: &Flight, node: u16, time: u16)
    requires room { length buffer.old.terms ≡ 0 }
    requires legs { length flight.now.legs ≤ most_legs }
    ensures { Adds (enter_terms number flight.now node time) buffer.old buffer.new }
{
    buffer.put(
        Var::By {
            flight: number,
            node,
            time,
        },
        1,
    );
    put_all_back(buffer, number, flight, node, time);
}

/// Entered by the period, and not further on.
pub fn put_leave(buffer: &mut RowBuffer, number: u32, flight: &Flight, node: u16, time: u16)
    requires room { length buffer.old.terms ≡ 0 }
    requires legs { length flight.now.legs ≤ most_legs }
    ensures { Adds (leave_terms number flight.now node time) buffer.old buffer.new }
{
    buffer.put(
        Var::By {
            flight: number,
            node,
            time,
        },
        1,
    );
    put_all_on(buffer, number, flight, node, time);
}

// The second flight has departed, and the first hadn't entered this node in time for it.
fn put_turn(buffer: &mut RowBuffer, connection: Connection, last: u16, time: u16)
    requires { length buffer.old.terms ≡ 0 }
    ensures { Adds (turn_terms connection last time) buffer.old buffer.new }
{
    let Connection {
        first,
        second,
        turnaround,
    } = connection;
    buffer.put(
        Var::By {
            flight: second,
            node: 0,
            time,
        },
        1,
    );
    put_before(buffer, first, last, time, turnaround);
}

/// The second flight has departed, and the first hadn't arrived in time for it.
pub fn put_connect(buffer: &mut RowBuffer, s: &Scenario, connection: Connection, time: u16)
    requires room { length buffer.old.terms ≡ 0 }
    requires first { connection.first < length (parts_of s.now).flights }
    ensures { Adds (connect_terms (parts_of s.now).flights connection time) buffer.old buffer.new }
{
    let last = last_node(&s.flights()[connection.first as usize]);
    put_turn(buffer, connection, last, time);
}
