//! Paths of boxes: down the sides of splits, and up again.
ghost use Rattle.std.specs.Prelude.{◌≡◌, ◌≢◌, ◌∷◌, ◌<◌, ◌^◌, ◌↔◌, ℕ, IsTrue, List, OnErr, OnOk, All, get_or, length, reverse, set};
ghost use Rattle.flow_types.specs.declared.parts.Parts.{Parts};
ghost use Rattle.flow_types.specs.Scenario.{parts_of};
ghost use Rattle.time_windows.specs.Held.{Held, IsMadeFor, access_at, box_of};
ghost use Rattle.time_windows.specs.Narrowing.{IsTightApart};
ghost use Rattle.time_windows.specs.Path.{above_of, branch_of, with_accesses};
ghost use Rattle.time_windows.specs.Splits.{IsBranching};
ghost use Rattle.time_windows.specs.Tight.{IsTightened, IsTightAnswer};
ghost use Rattle.time_windows.specs.Trail.{IsChange, IsSoundAccess};

use crate::access::{Access, Window};
use crate::boxes::Boxes;
use crate::tightening::Tight;
use flow_types::{MOST_NODES, OutOfMemory, Scenario};
use number_set::FewNumbers;
use std::alloc::Global;
use std::marker::Model;

/// A side of a split at a node and a period.
#[derive(Clone, Copy, Debug, PartialEq, Eq)]
pub enum Side {
    /// The flight enters the node, by the period.
    Early,
    /// It enters the node after the period, or never where it needn't.
    Late,
}

// A step of the log.
#[derive(Clone, Copy, Debug)]
enum Change {
    // To a side of a split: the changes after it lead from the box above.
    Descent,
    // What the access at the index was.
    Was { index: u32, access: Access },
}

/// A path of boxes, from a first one down to the present one, each the tight box of a side of a
/// split of the one above it. Contracts see it as a `Path`: the present box, and those above it,
/// the nearest first. It keeps one box and a log of its changes: beside the box, 8 bytes for each
/// of 32 nodes a flight, and 16 for each change of a node on the way and each step down.
#[derive(Debug)]
pub struct Trail {
    boxes: Boxes,
    // What the box's accesses are when no step is under way.
    accesses: Vec<Access>,
    log: Vec<Change>,
    depth: usize,
}

impl Drop for Trail {
    fn drop(self) {
        let Trail {
            boxes: _,
            accesses: _,
            log: _,
            depth: _,
        } = self;
    }
}

impl Model for Trail {
    ghost use Rattle.std.specs.Prelude.{reverse};
    ghost use Rattle.time_windows.specs.Path.{Path, above_of};
    ghost use Rattle.time_windows.specs.Trail.{IsTrail};

    ghost Value = { Path };

    ghost view = { λ t. record {
      present = t.boxes;
      above = above_of t.boxes (reverse t.log.items);
    } };

    ghost invariant = { λ t. IsTrail t.boxes t.accesses.items t.log.items t.depth };
}

impl Trail {
    ghost use Rattle.std.specs.Prelude.{◌≡◌, ◌≢◌, ◌∷◌, ◌<◌, ℕ, IfOk, List, OnErr, OnOk, [], length};
    ghost use Rattle.flow_types.specs.declared.parts.Parts.{Parts};
    ghost use Rattle.flow_types.specs.Scenario.{parts_of};
    ghost use Rattle.time_windows.specs.Held.{Held, IsMadeFor, box_of};
    ghost use Rattle.time_windows.specs.Path.{branch_of};
    ghost use Rattle.time_windows.specs.Splits.{IsBranching};
    ghost use Rattle.time_windows.specs.Tight.{IsTight, IsTightened, IsTightAnswer};

    /// The path of this box alone. It takes the box in any case.
    pub fn new(alloc: Global, boxes: Boxes) -> Result<Trail, OutOfMemory>
        ensures present { IfOk result (λ trail. trail.present ≡ boxes) }
        ensures above { IfOk result (λ trail. trail.above ≡ []) }
    {
        let accesses = Vec::from_slice(alloc, boxes.accesses())?;
        Ok(Trail {
            boxes,
            accesses,
            log: Vec::new(alloc),
            depth: 0,
        })
    }

    /// The present box.
    pub fn boxes(&self) -> &Boxes
        ensures { result.now ≡ self.now.present }
    {
        &self.boxes
    }

    /// How many boxes are above it.
    pub fn depth(&self) -> usize
        ensures { result ≡ length self.now.above }
    {
        self.depth
    }

    /// Goes down to the tight box of a side of a split of the present one, which is tight itself,
    /// and tells whether a node that must be entered is closed there, as `Boxes::tighten` does.
    /// Without the memory for it, the path stays as it was.
    ///
    /// It goes over the legs of the flight, and then, as `Boxes::tighten`, over those of the
    /// flights whose ends a connection moves.
    pub fn down(
        &mut self,
        s: &Scenario,
        flight: u32,
        node: u16,
        time: u16,
        side: Side,
    ) -> Result<Tight, OutOfMemory>
        requires made { IsMadeFor (parts_of s.now) self.old.present }
        requires tight { IsTight (parts_of s.now) (box_of self.old.present) }
        requires flight { flight < length (parts_of s.now).flights }
        requires branching { IsBranching (box_of self.old.present flight node) time }
        ensures above { OnOk result (self.new.above ≡ self.old.present ∷ self.old.above) }
        ensures tight { OnOk result (IsTightened (parts_of s.now)
            (branch_of side flight node time (box_of self.old.present))
            (box_of self.new.present)) }
        ensures told { IfOk result (IsTightAnswer (box_of self.new.present)) }
        ensures made { IsMadeFor (parts_of s.now) self.new.present }
        ensures err { OnErr result (self.new ≡ self.old) }
    {
        self.log.push(Change::Descent)?;
        narrow(&mut self.boxes, flight, node, time, side);
        match tighten_noted(
            &mut self.boxes,
            s,
            flight,
            &mut self.accesses,
            &mut self.log,
        ) {
            Ok(()) => {
                self.depth += 1;
                Ok(self.boxes.told())
            }
            Err(error) => {
                self.boxes.put_back(&self.accesses);
                take_back(&mut self.boxes, &mut self.accesses, &mut self.log);
                Err(error)
            }
        }
    }

    /// Goes up again, to the box above. It takes no memory.
    pub fn up(&mut self)
        requires below { self.old.above ≢ [] }
        ensures { self.old.above ≡ self.new.present ∷ self.new.above }
    {
        take_back(&mut self.boxes, &mut self.accesses, &mut self.log);
        self.depth -= 1;
    }
}

// Narrows the window of the node to that of the side.
fn narrow(boxes: &mut Boxes, flight: u32, node: u16, time: u16, side: Side)
    requires branching { IsBranching (box_of boxes.old flight node) time }
    ensures branch { (f n : ℕ) → box_of boxes.new f n
        ≡ branch_of side flight node time (box_of boxes.old) f n }
    ensures made { (parts : Parts) → IsMadeFor parts boxes.old → IsMadeFor parts boxes.new }
    ensures rest { boxes.old ≡ with_accesses boxes.new boxes.old.accesses }
    ensures count { length boxes.new.accesses ≡ length boxes.old.accesses }
{
    match side {
        Side::Early => boxes.narrow_by(flight, node, time),
        Side::Late => boxes.narrow_after(flight, node, time),
    }
}

// Leaves the tight box, where no windows but those of this flight were narrowed since a tight one,
// and notes what has changed since. Where the memory for that runs out, what was noted is.
fn tighten_noted(
    boxes: &mut Boxes,
    s: &Scenario,
    flight: u32,
    accesses: &mut Vec<Access>,
    log: &mut Vec<Change>,
) -> Result<(), OutOfMemory>
    requires made { IsMadeFor (parts_of s.now) boxes.old }
    requires flight { flight < length (parts_of s.now).flights }
    requires apart { IsTightApart (parts_of s.now) flight (box_of boxes.old) }
    requires others { (f n : ℕ) → f ≢ flight
        → access_at accesses.old.items f n ≡ box_of boxes.old f n }
    requires count { length boxes.old.accesses ≡ length accesses.old.items }
    requires few { length accesses.old.items < 2 ^ 32 }
    requires sound { All IsSoundAccess accesses.old.items }
    requires changes { All (IsChange (length accesses.old.items)) log.old.items }
    ensures noted { OnOk result (accesses.new.items ≡ boxes.new.accesses) }
    ensures tight { OnOk result (IsTightened (parts_of s.now) (box_of boxes.old)
        (box_of boxes.new)) }
    ensures made { IsMadeFor (parts_of s.now) boxes.new }
    ensures rest { boxes.old ≡ with_accesses boxes.new boxes.old.accesses }
    ensures path { (held : Held)
        → above_of (with_accesses held accesses.new.items) (reverse log.new.items)
        ≡ above_of (with_accesses held accesses.old.items) (reverse log.old.items) }
    ensures count { length accesses.new.items ≡ length accesses.old.items }
    ensures boxes_count { length boxes.new.accesses ≡ length boxes.old.accesses }
    ensures sound { All IsSoundAccess accesses.new.items }
    ensures changes { All (IsChange (length accesses.new.items)) log.new.items }
{
    boxes.settle(s, flight);
    let mut waiting = FewNumbers::below(0);
    waiting.insert(flight);
    while let Some(moved) = waiting.pop_first() {
        note_changes(boxes.accesses(), accesses, log, moved)?;
        boxes.settle_turns(s, &mut waiting, moved);
    }
    Ok(())
}

// Notes each access of the flight that is another one now, and what it was. Where the memory for it
// runs out, those that were noted are.
fn note_changes(
    now: &[Access],
    accesses: &mut Vec<Access>,
    log: &mut Vec<Change>,
    flight: u32,
) -> Result<(), OutOfMemory>
    requires count { length now.now ≡ length accesses.old.items }
    requires few { length accesses.old.items < 2 ^ 32 }
    requires known { All IsSoundAccess now.now }
    requires sound { All IsSoundAccess accesses.old.items }
    requires changes { All (IsChange (length accesses.old.items)) log.old.items }
    ensures here { OnOk result ((n : ℕ)
        → access_at accesses.new.items flight n ≡ access_at now.now flight n) }
    ensures others { OnOk result ((f n : ℕ) → f ≢ flight
        → access_at accesses.new.items f n ≡ access_at accesses.old.items f n) }
    ensures path { (held : Held)
        → above_of (with_accesses held accesses.new.items) (reverse log.new.items)
        ≡ above_of (with_accesses held accesses.old.items) (reverse log.old.items) }
    ensures count { length accesses.new.items ≡ length accesses.old.items }
    ensures sound { All IsSoundAccess accesses.new.items }
    ensures changes { All (IsChange (length accesses.new.items)) log.new.items }
{
    let start = (flight as usize * MOST_NODES).min(now.len());
    let end = (start + MOST_NODES).min(now.len());
    for index in start..end {
        note_change(accesses, log, index, now[index])?;
    }
    Ok(())
}

// Notes the access at the index, and what it was where that differs.
fn note_change(
    accesses: &mut Vec<Access>,
    log: &mut Vec<Change>,
    index: usize,
    now: Access,
) -> Result<(), OutOfMemory>
    requires index { index < length accesses.old.items }
    requires few { length accesses.old.items < 2 ^ 32 }
    requires known { IsSoundAccess now }
    requires sound { All IsSoundAccess accesses.old.items }
    requires changes { All (IsChange (length accesses.old.items)) log.old.items }
    ensures noted { OnOk result (accesses.new.items ≡ set accesses.old.items index now) }
    ensures path { (held : Held)
        → above_of (with_accesses held accesses.new.items) (reverse log.new.items)
        ≡ above_of (with_accesses held accesses.old.items) (reverse log.old.items) }
    ensures count { length accesses.new.items ≡ length accesses.old.items }
    ensures sound { All IsSoundAccess accesses.new.items }
    ensures changes { All (IsChange (length accesses.new.items)) log.new.items }
{
    let before = accesses[index];
    if is_same(before, now) {
        return Ok(());
    }
    log.push(Change::Was {
        index: index as u32,
        access: before,
    })?;
    accesses[index] = now;
    Ok(())
}

// Whether two accesses say the same.
fn is_same(a: Access, b: Access) -> bool
    ensures { IsTrue result ↔ a ≡ b }
{
    a.must == b.must && is_same_window(a.window, b.window)
}

fn is_same_window(a: Option<Window>, b: Option<Window>) -> bool
    ensures { IsTrue result ↔ a ≡ b }
{
    match (a, b) {
        (None, None) => true,
        (Some(a), Some(b)) => a.lo == b.lo && a.hi == b.hi,
        _ => false,
    }
}

// Takes back the changes since the last step down, and the step.
fn take_back(boxes: &mut Boxes, accesses: &mut Vec<Access>, log: &mut Vec<Change>)
    requires same { boxes.old.accesses ≡ accesses.old.items }
    requires few { length accesses.old.items < 2 ^ 32 }
    requires sound { All IsSoundAccess accesses.old.items }
    requires changes { All (IsChange (length accesses.old.items)) log.old.items }
    ensures back { (held next : Held) (above : List Held)
        → above_of (with_accesses held accesses.old.items) (reverse log.old.items) ≡ next ∷ above
        → (with_accesses held accesses.new.items ≡ next)
        × (above_of next (reverse log.new.items) ≡ above) }
    ensures put { boxes.new ≡ with_accesses boxes.old accesses.new.items }
    ensures count { length accesses.new.items ≡ length accesses.old.items }
    ensures sound { All IsSoundAccess accesses.new.items }
    ensures changes { All (IsChange (length accesses.new.items)) log.new.items }
{
    while let Some(change) = log.pop() {
        match change {
            Change::Descent => return,
            Change::Was { index, access } => {
                accesses[index as usize] = access;
                boxes.put_access(index as usize, access);
            }
        }
    }
}
