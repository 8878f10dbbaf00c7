//! The names of flights and of places, by their positions.
ghost use Rattle.std.specs.Prelude.{◌≡◌, ◌≢◌, ◌≤◌, AllPairs, IfOk, length};
ghost use Rattle.plan_text.specs.Names.{flight_names, place_names};
ghost use Rattle.flow_types.specs.Limits.{most_flights, most_places};

use flow_types::{Flight, OutOfMemory, Place};
use std::alloc::Global;
use text_records::NameIndex;

/// The names of these flights.
pub fn names_of_flights(alloc: Global, flights: &[Flight]) -> Result<NameIndex, OutOfMemory>
    requires different { AllPairs (λ a b. a.name ≢ b.name) flights.now }
    requires few { length flights.now ≤ most_flights }
    ensures { IfOk result (λ index. index ≡ flight_names flights.now) }
{
    let mut index = NameIndex::empty(alloc);
    for flight in flights {
        index.add(alloc, flight.name.items())?;
    }
    Ok(index)
}

/// The names of these places.
pub fn names_of_places(alloc: Global, places: &[Place]) -> Result<NameIndex, OutOfMemory>
    requires different { AllPairs (λ a b. a.name ≢ b.name) places.now }
    requires few { length places.now ≤ most_places }
    ensures { IfOk result (λ index. index ≡ place_names places.now) }
{
    let mut index = NameIndex::empty(alloc);
    for place in places {
        index.add(alloc, place.name.items())?;
    }
    Ok(index)
}
