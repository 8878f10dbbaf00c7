//! The row of a name.
ghost use Rattle.std.specs.Prelude.{◌≡◌, ◌<◌, ◌&&◌, Some, IfSome, Bool, false, true, nat_lt, length, slice_get};
ghost use Rattle.flow_types.specs.Capacities.{has_kind};
ghost use Rattle.flow_types.specs.Scenario.{parts_of};
ghost use Rattle.bytime_model.specs.declared.names.RowName.TheVariants.{Connect, Enter, Leave, Mono, Occupy, Top};
ghost use Rattle.bytime_model.specs.Filling.{Fills, FillsCapacity};
ghost use Rattle.bytime_model.specs.Rows.{goes_on, is_capacity, is_node, is_row, no_row};
ghost use Rattle.bytime_model.specs.Values.{has_inside};
ghost use Rattle.bytime_model.specs.Visits.{AreVisitsOf};

use crate::buffer::RowBuffer;
use crate::fill::{is_plain, put_connect, put_enter, put_leave, put_occupy};
use crate::names::RowName;
use crate::variables::Var;
use crate::visited::put_taken;
use crate::visits::Visits;
use flow_types::{CapKind, Scenario, capacity_at};

impl RowBuffer {
    ghost use Rattle.std.specs.Prelude.{◌≡◌, false, true};
    ghost use Rattle.flow_types.specs.Scenario.{parts_of};
    ghost use Rattle.bytime_model.specs.Rows.{AreCollected, IsValid, is_row, no_row, row_of};
    ghost use Rattle.bytime_model.specs.Visits.{AreVisitsOf};

    /// Holds the row of the name, if there is one, and no terms else. Tells whether there is. A cut
    /// has no row here. No plan that keeps every rule breaks the row, no two of its terms are of
    /// one variable, and no factor is 0. It takes no memory. A row of departures or arrivals takes
    /// time for each flight of the day, that of a sector for each node of each flight and each leg
    /// of those that have a node there, and any other for each leg of its flight.
    pub fn fill(&mut self, s: &Scenario, name: RowName) -> bool
        ensures told { result ≡ is_row (parts_of s.now) name }
        ensures row { result ≡ true → self.new ≡ row_of (parts_of s.now) name }
        ensures none { result ≡ false → self.new ≡ no_row }
        ensures valid { IsValid (parts_of s.now) self.new }
        ensures collected { AreCollected self.new.terms }
    {
        self.clear();
        fill_by(self, s, None, name)
    }

    /// Does the same as `fill`, by the visits of the scenario. So a row of a capacity takes time
    /// for each flight that has a node at the place, and that of a sector for each leg of these. It
    /// takes no memory.
    pub fn fill_with(&mut self, s: &Scenario, visits: &Visits, name: RowName) -> bool
        requires visits { AreVisitsOf (parts_of s.now) visits.now }
        ensures told { result ≡ is_row (parts_of s.now) name }
        ensures row { result ≡ true → self.new ≡ row_of (parts_of s.now) name }
        ensures none { result ≡ false → self.new ≡ no_row }
        ensures valid { IsValid (parts_of s.now) self.new }
        ensures collected { AreCollected self.new.terms }
    {
        self.clear();
        fill_by(self, s, Some(visits), name)
    }
}

// Fills a row that has no terms yet, by the visits where they are known.
fn fill_by(buffer: &mut RowBuffer, s: &Scenario, visits: Option<&Visits>, name: RowName) -> bool
    requires visits { IfSome visits (λ visits. AreVisitsOf (parts_of s.now) visits.now) }
    requires none { buffer.old ≡ no_row }
    ensures { Fills (parts_of s.now) name result buffer.new }
{
    match name {
        RowName::Mono { flight, node, time } => fill_mono(buffer, s, flight, node, time),
        RowName::Top { flight, node } => fill_top(buffer, s, flight, node),
        RowName::Dep { place, period } => {
            fill_capacity(buffer, s, visits, CapKind::Dep, place, period)
        }
        RowName::Arr { place, period } => {
            fill_capacity(buffer, s, visits, CapKind::Arr, place, period)
        }
        RowName::Sector { place, period } => {
            fill_capacity(buffer, s, visits, CapKind::Sector, place, period)
        }
        RowName::Occupy { flight, node, time } => fill_occupy(buffer, s, flight, node, time),
        RowName::Enter { flight, node, time } => fill_enter(buffer, s, flight, node, time),
        RowName::Leave { flight, node } => fill_leave(buffer, s, flight, node),
        RowName::Connect { connection, period } => fill_connect(buffer, s, connection, period),
        RowName::Cut { .. } => false,
    }
}

// Whether the flight has the node.
fn is_node(s: &Scenario, flight: u32, node: u16) -> bool
    ensures { result ≡ is_node (slice_get (parts_of s.now).flights flight) node }
{
    match s.flights().get(flight as usize) {
        None => false,
        Some(flight) => usize::from(node) < flight.nodes.items().len(),
    }
}

/// Whether the flight goes on from the node.
pub fn goes_on(s: &Scenario, flight: u32, node: u16) -> bool
    ensures { result ≡ goes_on (slice_get (parts_of s.now).flights flight) node }
{
    match s.flights().get(flight as usize) {
        None => false,
        Some(flight) => usize::from(node) + 1 < flight.nodes.items().len(),
    }
}

/// Whether the flight has a variable for being inside the node: it is between the ends, and not a
/// plain one. It takes time for each leg of the flight.
pub fn has_inside(s: &Scenario, flight: u32, node: u16) -> bool
    ensures { result ≡ has_inside (slice_get (parts_of s.now).flights flight) node }
{
    match s.flights().get(flight as usize) {
        None => false,
        Some(flight) => {
            0 < node
                && usize::from(node) + 1 < flight.nodes.items().len()
                && !is_plain(flight, node)
        }
    }
}

// Whether the place has capacities of this kind, and the day the period.
fn is_capacity(s: &Scenario, kind: CapKind, place: u32, period: u16) -> bool
    ensures { result ≡ is_capacity (parts_of s.now) kind place period }
{
    flow_types::has_kind(kind, s.places(), place) && period < s.day().periods
}

// Whether the flight has the node, and the day a period before this one.
fn is_step(s: &Scenario, flight: u32, node: u16, time: u16) -> bool
    ensures { result ≡ is_row (parts_of s.now) (Mono flight node time) }
{
    is_node(s, flight, node) && 0 < time && time < s.day().periods
}

/// Whether there is a row of the name; a cut has none here. It takes no memory, and time for each
/// leg of the flight at the most.
pub fn is_row(s: &Scenario, name: RowName) -> bool
    ensures { result ≡ is_row (parts_of s.now) name }
{
    match name {
        RowName::Mono { flight, node, time } => is_step(s, flight, node, time),
        RowName::Top { flight, node } => is_node(s, flight, node),
        RowName::Dep { place, period } => is_capacity(s, CapKind::Dep, place, period),
        RowName::Arr { place, period } => is_capacity(s, CapKind::Arr, place, period),
        RowName::Sector { place, period } => is_capacity(s, CapKind::Sector, place, period),
        RowName::Occupy { flight, node, time } => is_occupied(s, flight, node, time),
        RowName::Enter { flight, node, time } => is_entry(s, flight, node, time),
        RowName::Leave { flight, node } => goes_on(s, flight, node),
        RowName::Connect { connection, period } => is_connected(s, connection, period),
        RowName::Cut { .. } => false,
    }
}

// What is entered by a period is entered by the next one.
fn fill_mono(buffer: &mut RowBuffer, s: &Scenario, flight: u32, node: u16, time: u16) -> bool
    requires { buffer.old ≡ no_row }
    ensures { Fills (parts_of s.now) (Mono flight node time) result buffer.new }
{
    if !is_node(s, flight, node) || time == 0 || s.day().periods <= time {
        return false;
    }
    let before = time - 1;
    buffer.put(
        Var::By {
            flight,
            node,
            time: before,
        },
        1,
    );
    buffer.put(Var::By { flight, node, time }, -1);
    true
}

// A node is entered once at the most.
fn fill_top(buffer: &mut RowBuffer, s: &Scenario, flight: u32, node: u16) -> bool
    requires { buffer.old ≡ no_row }
    ensures { Fills (parts_of s.now) (Top flight node) result buffer.new }
{
    if !is_node(s, flight, node) {
        return false;
    }
    let time = s.day().periods - 1;
    buffer.put(Var::By { flight, node, time }, 1);
    buffer.set_limit(1);
    true
}

// What all flights take of a capacity is within it.
fn fill_capacity(
    buffer: &mut RowBuffer,
    s: &Scenario,
    visits: Option<&Visits>,
    kind: CapKind,
    place: u32,
    period: u16,
) -> bool
    requires visits { IfSome visits (λ visits. AreVisitsOf (parts_of s.now) visits.now) }
    requires none { buffer.old ≡ no_row }
    ensures { FillsCapacity (parts_of s.now) kind place period result buffer.new }
{
    if !is_capacity(s, kind, place, period) {
        return false;
    }
    put_taken(buffer, s, visits, kind, place, period);
    buffer.set_limit(i64::from(capacity_at(s.places(), kind, place, period)));
    true
}

// Whether there is a row of having entered the node by the period.
fn is_entry(s: &Scenario, flight: u32, node: u16, time: u16) -> bool
    ensures { result ≡ is_row (parts_of s.now) (Enter flight node time) }
{
    is_node(s, flight, node) && 0 < node && time < s.day().periods
}

// Whether there is one of being inside the node in the period.
fn is_occupied(s: &Scenario, flight: u32, node: u16, time: u16) -> bool
    ensures { result ≡ is_row (parts_of s.now) (Occupy flight node time) }
{
    has_inside(s, flight, node) && time < s.day().periods
}

// Whether there is one of the connection in the period.
fn is_connected(s: &Scenario, connection: u32, period: u16) -> bool
    ensures { result ≡ is_row (parts_of s.now) (Connect connection period) }
{
    (connection as usize) < s.connections().len() && period < s.day().periods
}

// Whoever has entered a node by the period is inside, or has entered a next one.
#[tactic(auto, using(crate::proofs::RowFacts::occupy_fills))]
fn fill_occupy(buffer: &mut RowBuffer, s: &Scenario, flight: u32, node: u16, time: u16) -> bool
    requires { buffer.old ≡ no_row }
    ensures { Fills (parts_of s.now) (Occupy flight node time) result buffer.new }
{
    let Some(found) = s.flights().get(flight as usize) else {
        return false;
    };
    if !is_occupied(s, flight, node, time) {
        return false;
    }
    put_occupy(buffer, flight, found, node, time);
    true
}

// Whoever has entered a node has entered one before it, as long ago as the leg takes.
#[tactic(auto, using(crate::proofs::RowFacts::enter_fills))]
fn fill_enter(buffer: &mut RowBuffer, s: &Scenario, flight: u32, node: u16, time: u16) -> bool
    requires { buffer.old ≡ no_row }
    ensures { Fills (parts_of s.now) (Enter flight node time) result buffer.new }
{
    let Some(found) = s.flights().get(flight as usize) else {
        return false;
    };
    if !is_entry(s, flight, node, time) {
        return false;
    }
    put_enter(buffer, flight, found, node, time);
    true
}

// Whoever has entered a node enters a next one.
fn fill_leave(buffer: &mut RowBuffer, s: &Scenario, flight: u32, node: u16) -> bool
    requires { buffer.old ≡ no_row }
    ensures { Fills (parts_of s.now) (Leave flight node) result buffer.new }
{
    let Some(found) = s.flights().get(flight as usize) else {
        return false;
    };
    if usize::from(node) + 1 >= found.nodes.items().len() {
        return false;
    }
    put_leave(buffer, flight, found, node, s.day().periods - 1);
    true
}

// The second flight of a connection departs after the first has arrived, and the turnaround.
#[tactic(auto, using(crate::proofs::RowFacts::connect_fills))]
fn fill_connect(buffer: &mut RowBuffer, s: &Scenario, connection: u32, period: u16) -> bool
    requires { buffer.old ≡ no_row }
    ensures { Fills (parts_of s.now) (Connect connection period) result buffer.new }
{
    let Some(found) = s.connections().get(connection as usize) else {
        return false;
    };
    if !is_connected(s, connection, period) {
        return false;
    }
    put_connect(buffer, s, *found, period);
    true
}
