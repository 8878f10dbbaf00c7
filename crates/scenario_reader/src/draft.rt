//! The scenario as far as it is read, which keeps the rules of one at every record.
use crate::capacities::CapChange;
use crate::flight_draft::{FlightDraft, PlaceLeg};
use crate::named_list::NamedList;
use crate::tables::Pricing;
use flow_types::{Connection, Connections, Cost, CostTable, Day, OutOfMemory, Place, Sequence};
use std::alloc::Global;
use std::marker::Model;

/// The scenario as far as it is read. Contracts see its parts.
#[derive(Drop)]
pub struct ScenarioDraft {
    pub(crate) day: Day,
    pub(crate) places: NamedList<Place>,
    pub(crate) flights: NamedList<FlightDraft>,
    pub(crate) tables: NamedList<CostTable>,
    pub(crate) connections: Connections,
    // How many nodes the flights have in all.
    pub(crate) nodes: u32,
}

impl Model for ScenarioDraft {
    ghost use Rattle.scenario_reader.specs.DraftParts.{DraftParts};
    ghost use Rattle.scenario_reader.specs.Drafts.{IsDraft};

    ghost Value = { DraftParts };

    ghost view = { λ d. record {
      day = d.day;
      places = d.places;
      flights = d.flights;
      tables = d.tables;
      connections = d.connections;
    } };

    ghost invariant = { λ d. IsDraft d.day d.places d.flights d.tables d.connections d.nodes };
}

impl ScenarioDraft {
    ghost use Rattle.std.specs.Prelude.{◌≡◌, ◌<◌, ◌≤◌, ◌+◌, [], None, Some, OnOk, OnErr, false, length, slice_get};
    ghost use Rattle.flow_types.specs.Limits.{most_connections, most_flights, most_nodes_in_all, most_places, most_tables};
    ghost use Rattle.flow_types.specs.Valid.{IsDay, IsPlace, IsTable};
    ghost use Rattle.scenario_reader.specs.Connections.{are_connected};
    ghost use Rattle.scenario_reader.specs.DraftParts.{flight_names, node_total, place_names, table_names};
    ghost use Rattle.scenario_reader.specs.Reading.{no_parts, with_cap_change, with_connection, with_flight, with_flight_leg, with_place, with_pricing, with_table};
    ghost use Rattle.scenario_reader.specs.Validity.{IsCapChange, IsFlightDraft, IsMeeting, IsNewLeg, IsPricing};
    ghost use Rattle.scenario_reader.specs.declared.flight_draft.FlightDraft.{FlightDraft as TheFlightDraft};
    ghost use Rattle.text_records.specs.Names.{position_of};

    /// The draft of a day alone. It takes no memory.
    pub fn of_day(alloc: Global, day: Day) -> Self
        requires { IsDay day }
        ensures { result ≡ no_parts day }
    {
        ScenarioDraft {
            day,
            places: NamedList::empty(alloc),
            flights: NamedList::empty(alloc),
            tables: NamedList::empty(alloc),
            connections: Sequence::empty(alloc),
            nodes: 0,
        }
    }

    /// The day.
    pub fn day(&self) -> Day
        ensures day { result ≡ self.now.day }
        ensures some { 1 ≤ result.periods }
    {
        self.day
    }

    /// The places.
    pub fn places(&self) -> &NamedList<Place>
        ensures { result.now ≡ self.now.places }
    {
        &self.places
    }

    /// The flights.
    pub fn flights(&self) -> &NamedList<FlightDraft>
        ensures { result.now ≡ self.now.flights }
    {
        &self.flights
    }

    /// The tables.
    pub fn tables(&self) -> &NamedList<CostTable>
        ensures { result.now ≡ self.now.tables }
    {
        &self.tables
    }

    /// The connections.
    pub fn connections(&self) -> &[Connection]
        ensures { result.now ≡ self.now.connections }
    {
        self.connections.items()
    }

    /// How many nodes the flights have in all.
    pub fn node_total(&self) -> u32
        ensures total { result ≡ node_total self.now.flights }
        ensures few { result ≤ most_nodes_in_all }
    {
        self.nodes
    }

    /// Adds a place, of a new name.
    pub fn add_place(&mut self, alloc: Global, place: Place) -> Result<(), OutOfMemory>
        requires valid { IsPlace self.old.day.periods place }
        requires fresh { position_of place.name (place_names self.old.places) ≡ None }
        requires room { length self.old.places < most_places }
        ensures ok { OnOk result (self.new ≡ with_place self.old place) }
        ensures err { OnErr result (self.new ≡ self.old) }
    {
        self.places.add(alloc, place)?;
        Ok(())
    }

    /// Adds a flight, of a new name and with no legs yet.
    pub fn add_flight(&mut self, alloc: Global, flight: FlightDraft) -> Result<(), OutOfMemory>
        requires valid { IsFlightDraft self.old.day.periods self.old.places self.old.tables flight }
        requires fresh { position_of flight.name (flight_names self.old.flights) ≡ None }
        requires empty { flight.reached ≡ [] }
        requires room { length self.old.flights < most_flights }
        requires few { node_total self.old.flights + 2 ≤ most_nodes_in_all }
        ensures ok { OnOk result (self.new ≡ with_flight self.old flight) }
        ensures err { OnErr result (self.new ≡ self.old) }
    {
        self.flights.add(alloc, flight)?;
        self.nodes += 2;
        Ok(())
    }

    /// Adds a leg of a flight, which is named by its position.
    pub fn add_leg(&mut self, flight: u32, leg: PlaceLeg) -> Result<(), OutOfMemory>
        requires here { flight < length self.old.flights }
        requires valid { (draft : TheFlightDraft) → slice_get self.old.flights flight ≡ Some draft
            → IsNewLeg self.old.places (node_total self.old.flights) draft leg }
        ensures ok { OnOk result (self.new ≡ with_flight_leg self.old (flight, leg)) }
        ensures err { OnErr result (self.new ≡ self.old) }
    {
        let adds = self.flights.items()[flight as usize].adds_node(leg.to);
        self.flights.add_leg(flight, leg)?;
        if adds {
            self.nodes += 1;
        }
        Ok(())
    }

    /// Adds a table, of a new name.
    pub fn add_table(&mut self, alloc: Global, table: CostTable) -> Result<(), OutOfMemory>
        requires valid { IsTable table }
        requires fresh { position_of table.name (table_names self.old.tables) ≡ None }
        requires room { length self.old.tables < most_tables }
        ensures ok { OnOk result (self.new ≡ with_table self.old table) }
        ensures err { OnErr result (self.new ≡ self.old) }
    {
        self.tables.add(alloc, table)?;
        Ok(())
    }

    /// Adds a connection, of a new pair of flights.
    pub fn add_connection(&mut self, connection: Connection) -> Result<(), OutOfMemory>
        requires valid { IsMeeting self.old.flights connection }
        requires once { are_connected self.old.connections connection.first connection.second
            ≡ false }
        requires room { length self.old.connections < most_connections }
        ensures ok { OnOk result (self.new ≡ with_connection self.old connection) }
        ensures err { OnErr result (self.new ≡ self.old) }
    {
        self.connections.add(connection)?;
        Ok(())
    }

    /// Puts the tables of a flight. It takes no memory.
    pub fn set_pricing(&mut self, pricing: Pricing)
        requires { IsPricing self.old.flights self.old.tables pricing }
        ensures { self.new ≡ with_pricing self.old pricing }
    {
        let cost = Cost::Tables {
            total: pricing.total,
            credit: pricing.credit,
        };
        self.flights.set_cost(pricing.flight, cost);
    }

    /// Changes a place's capacities. It takes no memory.
    pub fn change_capacities(&mut self, change: CapChange)
        requires { IsCapChange self.old.day.periods self.old.places change }
        ensures { self.new ≡ with_cap_change self.old change }
    {
        self.places.change(change);
    }
}
