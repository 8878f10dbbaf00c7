//! The flights that have a node at each place.
ghost use Rattle.std.specs.Prelude.{◌≡◌, ◌++◌, ◌^◌, ◌<◌, ◌≤◌, ℕ, [], All, IfOk, OnOk, get_or, length, slice_index};
ghost use Rattle.flow_types.specs.Limits.{most_nodes};
ghost use Rattle.flow_types.specs.Scenario.{parts_of};
ghost use Rattle.bytime_model.specs.Visits.{AreLinks, all_stands, stands_from, visits_in};

use flow_types::{OutOfMemory, Scenario, Sequence};
use std::alloc::Global;
use std::marker::Model;
use time_windows::Groups;

/// A flight that has a node at a place.
#[derive(Clone, Copy, Debug, PartialEq, Eq)]
pub struct Visit {
    /// The flight's position in the list of flights.
    pub flight: u32,
    /// The node that it has there.
    pub node: u16,
}

/// For each place the flights that have a node there, in their order: 8 bytes for each node of a
/// flight and 8 for each place, or up to twice that, since both lists grow.
#[derive(Debug, Drop)]
pub struct Visits {
    groups: Groups<Visit>,
}

impl Model for Visits {
    ghost use Rattle.std.specs.Prelude.{List};
    ghost use Rattle.bytime_model.specs.declared.visits.Visit.{Visit};

    ghost Value = { List (List Visit) };

    ghost view = { λ v. v.groups.closed };
}

impl Visits {
    ghost use Rattle.std.specs.Prelude.{◌≡◌, [], IfOk, get_or};
    ghost use Rattle.flow_types.specs.Scenario.{parts_of};
    ghost use Rattle.bytime_model.specs.Visits.{AreVisitsOf};

    /// The visits of the scenario's flights to its places. It takes time for each place and each
    /// node of a flight. While it runs it takes 16 bytes more for each node, or up to 28, and 4 for
    /// each place.
    pub fn new(alloc: Global, s: &Scenario) -> Result<Visits, OutOfMemory>
        ensures { IfOk result (AreVisitsOf (parts_of s.now)) }
    {
        let stands = all_stands(alloc, s)?;
        Ok(Visits {
            groups: visits_by_place(alloc, stands.items(), s.places().len())?,
        })
    }

    /// The flights that have a node at the place, each with it: none where there is no such place.
    pub fn at(&self, place: u32) -> &[Visit]
        ensures { result.now ≡ get_or self.now place [] }
    {
        self.groups.group(place as usize)
    }
}

/// A node of a flight, with its place.
#[derive(Clone, Copy)]
pub struct Stand {
    pub place: u32,
    pub visit: Visit,
}

// The nodes of all flights, each with its place.
#[tactic(auto, using(exact_sums::proofs::LoopFacts::numbered_none, exact_sums::proofs::LoopFacts::numbered_all))]
fn all_stands(alloc: Global, s: &Scenario) -> Result<Sequence<Stand>, OutOfMemory>
    ensures { IfOk result (λ stands. stands ≡ all_stands (parts_of s.now).flights) }
{
    let flights = s.flights();
    let mut stands = Sequence::empty(alloc);
    for number in 0..flights.len() {
        add_stands(&mut stands, number as u32, flights[number].nodes.items())?;
    }
    Ok(stands)
}

// Adds those of a flight.
#[tactic(auto, using(exact_sums::proofs::LoopFacts::numbered_none, exact_sums::proofs::LoopFacts::numbered_all))]
fn add_stands(stands: &mut Sequence<Stand>, flight: u32, nodes: &[u32]) -> Result<(), OutOfMemory>
    requires { length nodes.now ≤ most_nodes }
    ensures { OnOk result (stands.new ≡ stands.old ++ stands_from flight 0 nodes.now) }
{
    for node in 0..nodes.len() {
        stands.add(Stand {
            place: nodes[node],
            visit: Visit {
                flight,
                node: node as u16,
            },
        })?;
    }
    Ok(())
}

// The visits of so many places.
fn visits_by_place(
    alloc: Global,
    stands: &[Stand],
    places: usize,
) -> Result<Groups<Visit>, OutOfMemory>
    requires few { length stands.now < 2 ^ 32 }
    requires places { All (λ stand. stand.place < places) stands.now }
    ensures count { IfOk result (λ visits. length visits.closed ≡ places) }
    ensures visits { IfOk result (λ visits. (place : ℕ) → place < places
        → get_or visits.closed place [] ≡ visits_in place stands.now) }
{
    let none = stands.len() as u32;
    let mut firsts = vec![in alloc; none; places]?;
    let mut nexts = vec![in alloc; none; stands.len()]?;
    link(stands, &mut firsts, &mut nexts);
    visits_by(alloc, stands, &firsts, &nexts)
}

// Sets for each place its first visit, and for each visit the next one of its place, where there is
// one.
fn link(stands: &[Stand], firsts: &mut [u32], nexts: &mut [u32])
    requires few { length stands.now < 2 ^ 32 }
    requires places { All (λ stand. stand.place < length firsts.old) stands.now }
    requires firsts { (place : ℕ) → place < length firsts.old
        → slice_index firsts.old place ≡ length stands.now }
    requires nexts { length nexts.old ≡ length stands.now }
    ensures links { AreLinks stands.now 0 firsts.new nexts.new }
    ensures firsts { length firsts.new ≡ length firsts.old }
    ensures nexts { length nexts.new ≡ length nexts.old }
{
    for k in (0..stands.len()).rev() {
        let place = stands[k].place as usize;
        nexts[k] = firsts[place];
        firsts[place] = k as u32;
    }
}

// The visits of each place, one after the other.
fn visits_by(
    alloc: Global,
    stands: &[Stand],
    firsts: &[u32],
    nexts: &[u32],
) -> Result<Groups<Visit>, OutOfMemory>
    requires few { length stands.now < 2 ^ 32 }
    requires nexts { length nexts.now ≡ length stands.now }
    requires links { AreLinks stands.now 0 firsts.now nexts.now }
    ensures count { IfOk result (λ visits. length visits.closed ≡ length firsts.now) }
    ensures visits { IfOk result (λ visits. (place : ℕ) → place < length firsts.now
        → get_or visits.closed place [] ≡ visits_in place stands.now) }
{
    let mut groups = Groups::new(alloc);
    for place in 0..firsts.len() {
        add_visits(&mut groups, stands, place, firsts, nexts)?;
        groups.close()?;
    }
    Ok(groups)
}

// Adds the visits of a place, from its first one on.
fn add_visits(
    groups: &mut Groups<Visit>,
    stands: &[Stand],
    place: usize,
    firsts: &[u32],
    nexts: &[u32],
) -> Result<(), OutOfMemory>
    requires few { length stands.now < 2 ^ 32 }
    requires nexts { length nexts.now ≡ length stands.now }
    requires links { AreLinks stands.now 0 firsts.now nexts.now }
    requires place { place < length firsts.now }
    ensures closed { groups.new.closed ≡ groups.old.closed }
    ensures added { OnOk result
        (groups.new.pending ≡ groups.old.pending ++ visits_in place stands.now) }
{
    let mut at = firsts[place];
    while (at as usize) < stands.len() {
        groups.add(stands[at as usize].visit)?;
        at = nexts[at as usize];
    }
    Ok(())
}
