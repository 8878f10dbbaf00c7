//! Flights whose legs are being read.
ghost use Rattle.std.specs.Prelude.{◌≡◌, ◌<◌, Some, OnOk, OnErr, length, slice_get};
ghost use Rattle.scenario_reader.specs.Legs.{HasRoom, is_among, with_leg_at};
ghost use Rattle.scenario_reader.specs.Tables.{with_cost_at};
ghost use Rattle.scenario_reader.specs.declared.flight_draft.FlightDraft.{FlightDraft as TheFlightDraft};

use crate::named_list::NamedList;
use crate::sectors::Sectors;
use flow_types::{Cost, Name, OutOfMemory, Sequence};

/// A leg between two places, named by their positions.
#[derive(Clone, Copy, Debug, PartialEq, Eq)]
pub struct PlaceLeg {
    pub from: u32,
    pub to: u32,
    /// The least number of periods that it takes.
    pub least: u16,
}

/// A flight's scheduled times and greatest delays, in periods.
#[derive(Clone, Copy, Debug, PartialEq, Eq)]
pub struct Hours {
    pub sd: u16,
    pub sa: u16,
    pub mg: u16,
    pub md: u16,
}

/// A flight, with the legs that have been read so far.
pub struct FlightDraft {
    /// The number of its record.
    pub at: u32,
    pub name: Name,
    pub from: u32,
    pub to: u32,
    pub hours: Hours,
    pub cost: Cost,
    pub legs: Sequence<PlaceLeg>,
    /// The sectors that a leg starts from, in the order of their first use.
    pub passed: Sectors,
    /// The sectors that a leg leads to, in the order of their first use.
    pub reached: Sectors,
}

impl Drop for FlightDraft {
    fn drop(self) {
        let FlightDraft {
            at: _,
            name: _,
            from: _,
            to: _,
            hours: _,
            cost: _,
            legs: _,
            passed: _,
            reached: _,
        } = self;
    }
}

/// Whether the place is among these.
pub fn is_among(places: &[u32], place: u32) -> bool
    ensures { result ≡ is_among places.now place }
{
    places.contains(&place)
}

impl FlightDraft {
    ghost use Rattle.std.specs.Prelude.{◌≡◌, OnOk, OnErr};
    ghost use Rattle.scenario_reader.specs.Legs.{HasRoom, adds_node, is_back, is_joined, passes_new, with_leg};

    /// Whether a leg joins these places.
    pub fn is_joined(&self, from: u32, to: u32) -> bool
        ensures { result ≡ is_joined self.now.legs from to }
    {
        self.legs
            .items()
            .iter()
            .any(|leg| leg.from == from && leg.to == to)
    }

    /// Whether a leg from one place to the other leads back to where the flight has been.
    pub fn is_back(&self, from: u32, to: u32) -> bool
        ensures { result ≡ is_back self.now from to }
    {
        to == self.from || to == from || is_among(self.passed.items(), to)
    }

    /// Whether a leg to the place makes a new node.
    pub fn adds_node(&self, to: u32) -> bool
        ensures { result ≡ adds_node self.now to }
    {
        to != self.to && !is_among(self.reached.items(), to)
    }

    /// Whether a leg from the place is the first one from that sector.
    pub fn passes_new(&self, from: u32) -> bool
        ensures { result ≡ passes_new self.now from }
    {
        from != self.from && !is_among(self.passed.items(), from)
    }

    /// Adds a leg.
    pub fn add_leg(&mut self, leg: PlaceLeg) -> Result<(), OutOfMemory>
        requires { HasRoom self.old leg }
        ensures ok { OnOk result (self.new ≡ with_leg self.old leg) }
        ensures err { OnErr result (self.new ≡ self.old) }
    {
        self.legs.add(leg)?;
        if self.passes_new(leg.from) {
            self.passed.add(leg.from);
        }
        if self.adds_node(leg.to) {
            self.reached.add(leg.to);
        }
        Ok(())
    }
}

impl NamedList<FlightDraft> {
    /// Puts another cost of a flight. It takes no memory.
    pub fn set_cost(&mut self, flight: u32, cost: Cost)
        requires { flight < length self.old }
        ensures { self.new ≡ with_cost_at self.old flight cost }
    {
        self.items[flight as usize].cost = cost;
    }

    /// Adds a leg of a flight, for which there is room in its network.
    pub fn add_leg(&mut self, flight: u32, leg: PlaceLeg) -> Result<(), OutOfMemory>
        requires here { flight < length self.old }
        requires room { (draft : TheFlightDraft) → slice_get self.old flight ≡ Some draft
            → HasRoom draft leg }
        ensures ok { OnOk result (self.new ≡ with_leg_at self.old flight leg) }
        ensures err { OnErr result (self.new ≡ self.old) }
    {
        self.items[flight as usize].add_leg(leg)?;
        Ok(())
    }
}
