//! Boxes of plans, and the two sides of a split.
ghost use Rattle.std.specs.Prelude.{◌≡◌};

use crate::access::{Access, Window};
use crate::accesses::access_at;
use crate::connections::{settle_flight, tighten_all};
use crate::groups::Groups;
use crate::leg_groups::{leg_groups_of, legs_from};
use crate::marks::{first_closed, has_closed_must, have_one_option, options_of};
use crate::network::Network;
use crate::root::root_access;
use crate::rows::settle;
use crate::tightening::Tight;
use crate::turns::Turns;
use crate::windows::{after, until};
use flow_types::{Leg, MOST_NODES, OutOfMemory, Scenario};
use number_set::FewNumbers;
use std::alloc::Global;
use std::marker::Model;

/// A box of plans of the scenario that it was made for. Contracts see it as a `Box`: what each node
/// of each flight may do. It takes 16 bytes for each of 32 nodes a flight, and a copy of the
/// flights' legs and connections.
#[derive(Debug)]
pub struct Boxes {
    // 32 a flight, and as many groups.
    accesses: Vec<Access>,
    leg_groups: Groups<Leg>,
    turns: Turns,
}

// Written out, so that proofs see one call where a room is let go of.
impl Drop for Boxes {
    fn drop(self) {
        let Boxes {
            accesses: _,
            leg_groups: _,
            turns: _,
        } = self;
    }
}

impl Model for Boxes {
    ghost use Rattle.time_windows.specs.Held.{Held};

    ghost Value = { Held };

    ghost use Rattle.time_windows.specs.Narrowing.{AreAccesses};

    ghost view = { λ b. record {
      accesses = b.accesses.items;
      leg_groups = b.leg_groups;
      turns = b.turns;
    } };

    ghost invariant = { λ b. AreAccesses b.accesses.items };
}

impl Boxes {
    ghost use Rattle.std.specs.Prelude.{◌≡◌, ℕ, ◌+◌, ◌*◌, ◌<◌, ◌↔◌, IsTrue, IfOk, List, [], All, get_or, length, set};
    ghost use Rattle.flow_types.specs.declared.parts.Parts.{Parts};
    ghost use Rattle.flow_types.specs.declared.plan.Stop.{Stop};
    ghost use Rattle.flow_types.specs.Feasible.{AreTrips, KeepsTurn};
    ghost use Rattle.flow_types.specs.Limits.{most_nodes};
    ghost use Rattle.flow_types.specs.Scenario.{parts_of};
    ghost use Rattle.time_windows.specs.Boxes.{IsClosedMust, IsInBox, IsProper, options_of, root_box};
    ghost use Rattle.time_windows.specs.Held.{IsMadeFor, box_of};
    ghost use Rattle.time_windows.specs.Narrowing.{AreAccesses, IsDone, IsSettled, IsSound, IsStep};
    ghost use Rattle.time_windows.specs.Path.{with_accesses};
    ghost use Rattle.time_windows.specs.Splits.{IsBranching, early_branch, late_branch};
    ghost use Rattle.time_windows.specs.Tight.{IsTightened, IsTightAnswer};

    /// The root box: every plan of the scenario is in it. It isn't tight yet.
    pub fn root(alloc: Global, s: &Scenario) -> Result<Boxes, OutOfMemory>
        ensures root { IfOk result
            (λ boxes. (f n : ℕ) → box_of boxes f n ≡ root_box (parts_of s.now) f n) }
        ensures made { IfOk result (IsMadeFor (parts_of s.now)) }
    {
        let flights = s.flights();
        let periods = s.day().periods;
        let mut accesses = Vec::with_capacity(alloc, flights.len() * MOST_NODES)?;
        for index in 0..flights.len() * MOST_NODES {
            let node = (index % MOST_NODES) as u16;
            accesses.push(root_access(periods, &flights[index / MOST_NODES], node))?;
        }
        Ok(Boxes {
            accesses,
            leg_groups: leg_groups_of(alloc, s)?,
            turns: Turns::new(alloc, s)?,
        })
    }

    /// A second box like this one, in blocks of its own.
    pub fn copy(&self, alloc: Global) -> Result<Boxes, OutOfMemory>
        ensures { IfOk result (λ boxes. boxes ≡ self.now) }
    {
        Ok(Boxes {
            accesses: Vec::from_slice(alloc, &self.accesses)?,
            leg_groups: self.leg_groups.copy(alloc)?,
            turns: self.turns.copy(alloc)?,
        })
    }

    /// When the flight may enter the node: its window, nothing where the node is closed or isn't
    /// there.
    pub fn window(&self, flight: u32, node: u16) -> Option<Window>
        ensures window { result ≡ (box_of self.now flight node).window }
        ensures proper { IsProper result }
    {
        self.access(flight, node).window
    }

    /// Whether the flight must enter the node.
    pub fn must(&self, flight: u32, node: u16) -> bool
        ensures { result ≡ (box_of self.now flight node).must }
    {
        self.access(flight, node).must
    }

    /// How many choices the node has: the periods of its window, and one more where the flight
    /// needn't enter it.
    pub fn options(&self, flight: u32, node: u16) -> u32
        ensures { result ≡ options_of (box_of self.now flight node) }
    {
        options_of(self.access(flight, node))
    }

    /// What the box says of the node; that it is closed, where it isn't there.
    pub fn access(&self, flight: u32, node: u16) -> Access
        ensures access { result ≡ box_of self.now flight node }
        ensures proper { IsProper result.window }
    {
        access_at(&self.accesses, flight, node)
    }

    /// Whether every node has one choice, so that the box has one list of stops at the most.
    pub fn is_unit(&self) -> bool
        ensures { IsTrue result ↔ ((f n : ℕ) → options_of (box_of self.now f n) ≡ 1) }
    {
        have_one_option(&self.accesses)
    }

    /// Whether a node that must be entered is closed, so that no plan is in the box.
    pub fn is_empty(&self) -> bool
        ensures { IsTrue result ↔ ((f : ℕ) × (n : ℕ) × IsClosedMust (box_of self.now f n)) }
    {
        has_closed_must(&self.accesses)
    }

    /// The legs from the node of the flight, in the order of the text.
    pub fn legs_from(&self, flight: u32, node: u16) -> &[Leg]
        requires { node < most_nodes }
        ensures { result.now ≡ get_or self.now.leg_groups.closed (flight * most_nodes + node) [] }
    {
        legs_from(&self.leg_groups, flight, node)
    }

    /// The connections of each flight of the scenario.
    pub fn turns(&self) -> &Turns
        ensures { result.now ≡ self.now.turns }
    {
        &self.turns
    }

    /// Leaves the early side of a split: the flight enters the node, by the period.
    pub fn narrow_by(&mut self, flight: u32, node: u16, time: u16)
        requires { IsBranching (box_of self.old flight node) time }
        ensures branch { (f n : ℕ) → box_of self.new f n
            ≡ early_branch flight node time (box_of self.old) f n }
        ensures made { (parts : Parts) → IsMadeFor parts self.old → IsMadeFor parts self.new }
        ensures rest { self.old ≡ with_accesses self.new self.old.accesses }
        ensures count { length self.new.accesses ≡ length self.old.accesses }
    {
        let index = flight as usize * MOST_NODES + usize::from(node);
        self.accesses[index] = Access {
            window: until(self.accesses[index].window, time),
            must: true,
        };
    }

    /// Leaves the late side of a split: the flight enters the node after the period, or never where
    /// it needn't.
    pub fn narrow_after(&mut self, flight: u32, node: u16, time: u16)
        requires { IsBranching (box_of self.old flight node) time }
        ensures branch { (f n : ℕ) → box_of self.new f n
            ≡ late_branch flight node time (box_of self.old) f n }
        ensures made { (parts : Parts) → IsMadeFor parts self.old → IsMadeFor parts self.new }
        ensures rest { self.old ≡ with_accesses self.new self.old.accesses }
        ensures count { length self.new.accesses ≡ length self.old.accesses }
    {
        let index = flight as usize * MOST_NODES + usize::from(node);
        self.accesses[index].window = after(self.accesses[index].window, time);
    }

    /// Leaves the tight box: the widest one within this one, with the same marks, in which each
    /// entry can be led up to and on from along the legs, and the ends of each connection leave
    /// time for the turnaround. No plan that keeps the turnarounds is lost. Tells whether a node
    /// that must be entered is closed then.
    ///
    /// It goes over the legs of each flight once forward and once back, then over the connections
    /// of each flight, and again over those of the flights whose ends one of them has moved.
    #[tactic(auto, using(crate::proofs::MadeFacts::tight_made))]
    pub fn tighten(&mut self, s: &Scenario) -> Tight
        requires { IsMadeFor (parts_of s.now) self.old }
        ensures tight { IsTightened (parts_of s.now) (box_of self.old) (box_of self.new) }
        ensures told { IsTightAnswer (box_of self.new) result }
        ensures made { IsMadeFor (parts_of s.now) self.new }
        ensures rest { self.old ≡ with_accesses self.new self.old.accesses }
        ensures count { length self.new.accesses ≡ length self.old.accesses }
        ensures kept { (plan : List (List Stop))
            → AreTrips (parts_of s.now).day.periods (parts_of s.now).flights plan
            → All (KeepsTurn plan) (parts_of s.now).connections
            → IsInBox (box_of self.old) plan → IsInBox (box_of self.new) plan }
    {
        tighten_all(&mut self.accesses, &self.leg_groups, &self.turns, s);
        self.told()
    }

    /// Whether a node that must be entered is closed.
    pub(crate) fn told(&self) -> Tight
        ensures { IsTightAnswer (box_of self.now) result }
    {
        first_closed(&self.accesses)
    }

    /// Narrows the windows of the flight until each has a leg in and a leg out.
    #[tactic(auto, using(crate::proofs::MadeFacts::narrow_made))]
    pub(crate) fn settle(&mut self, s: &Scenario, flight: u32)
        requires made { IsMadeFor (parts_of s.now) self.old }
        requires flight { flight < length (parts_of s.now).flights }
        ensures settled { IsSettled (parts_of s.now) flight self.old.accesses self.new.accesses }
        ensures made { IsMadeFor (parts_of s.now) self.new }
        ensures rest { self.old ≡ with_accesses self.new self.old.accesses }
        ensures count { length self.new.accesses ≡ length self.old.accesses }
    {
        settle(&mut self.accesses, &self.leg_groups, s, flight);
    }

    /// Narrows the windows at the connections of the flight. Each flight whose windows that moves
    /// waits then.
    #[tactic(auto, using(crate::proofs::MadeFacts::narrow_made))]
    pub(crate) fn settle_turns(&mut self, s: &Scenario, waiting: &mut FewNumbers, flight: u32)
        requires made { IsMadeFor (parts_of s.now) self.old }
        requires flight { flight < length (parts_of s.now).flights }
        ensures step { IsStep (parts_of s.now) self.old.accesses self.new.accesses waiting.old
            waiting.new }
        ensures departures { All (λ connection. connection.second ≡ flight
            → IsDone (parts_of s.now) self.new.accesses waiting.new connection)
            (parts_of s.now).connections }
        ensures arrivals { All (λ connection. connection.first ≡ flight
            → IsDone (parts_of s.now) self.new.accesses waiting.new connection)
            (parts_of s.now).connections }
        ensures made { IsMadeFor (parts_of s.now) self.new }
        ensures rest { self.old ≡ with_accesses self.new self.old.accesses }
        ensures count { length self.new.accesses ≡ length self.old.accesses }
    {
        let network = Network {
            s,
            leg_groups: &self.leg_groups,
        };
        settle_flight(&mut self.accesses, waiting, network, &self.turns, flight);
    }

    /// What the box says of each of 32 nodes a flight.
    pub(crate) fn accesses(&self) -> &[Access]
        ensures accesses { result.now ≡ self.now.accesses }
        ensures sound { AreAccesses self.now.accesses }
    {
        &self.accesses
    }

    /// Puts another access in the place of one.
    pub(crate) fn put_access(&mut self, index: usize, access: Access)
        requires index { index < length self.old.accesses }
        requires sound { IsSound access.window }
        ensures { self.new ≡ with_accesses self.old (set self.old.accesses index access) }
    {
        self.accesses[index] = access;
    }

    /// Puts other accesses in their place.
    pub(crate) fn put_back(&mut self, accesses: &[Access])
        requires count { length accesses.now ≡ length self.old.accesses }
        requires sound { AreAccesses accesses.now }
        ensures { self.new ≡ with_accesses self.old accesses.now }
    {
        self.accesses.copy_from_slice(accesses);
    }
}
