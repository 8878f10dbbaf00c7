//! The path down a tree, box by box.
ghost use Rattle.std.specs.Prelude.{◌≡◌, ◌∷◌, ◌<◌, ℕ, IfOk, List, MatchOption, OnOk, [], length, reverse};
ghost use Rattle.flow_types.specs.Scenario.{parts_of};
ghost use Rattle.time_windows.specs.Boxes.{Box};
ghost use Rattle.time_windows.specs.Held.{IsMadeFor, box_of};
ghost use Rattle.time_windows.specs.Splits.{late_branch};
ghost use Rattle.time_windows.specs.Tight.{IsTightened};
ghost use Rattle.branch_tree.specs.Paths.{AreSteps, IsFork, IsNextOr, waiting_in};
ghost use Rattle.branch_tree.specs.declared.walk.Step.TheVariants.{Early, Late};

use flow_types::{OutOfMemory, Scenario};
use std::alloc::Global;
use std::marker::Model;
use time_windows::{Boxes, Side, Trail};

/// Where a box is split: the flight enters the node by the period, or later or never.
#[derive(Clone, Copy, Debug, PartialEq, Eq)]
pub struct Branch {
    pub flight: u32,
    pub node: u16,
    pub time: u16,
}

/// A step down.
#[derive(Clone, Copy, Debug)]
pub enum Step {
    /// To the early side; the late one waits.
    Early(Branch),
    /// To the late side, after the early one.
    Late,
}

/// The path from the first box down to the present one: a trail, and the steps that led down.
/// Whoever goes down a tree in preorder stands at the box of the next node. It takes what the trail
/// takes, and 16 bytes a step.
pub struct Walk {
    trail: Trail,
    steps: Vec<Step>,
    // How many of the steps are to early sides.
    waiting: u64,
}

impl Drop for Walk {
    fn drop(self) {
        let Walk {
            trail: _,
            steps: _,
            waiting: _,
        } = self;
    }
}

impl Model for Walk {
    ghost use Rattle.std.specs.Prelude.{◌≡◌, reverse};
    ghost use Rattle.branch_tree.specs.Paths.{Path, waiting_in};

    ghost Value = { Path };

    ghost view = { λ w. record {
      present = w.trail.present;
      above = w.trail.above;
      steps = reverse w.steps.items;
    } };

    ghost invariant = { λ w. w.waiting ≡ waiting_in (reverse w.steps.items) };
}

impl Walk {
    ghost use Rattle.std.specs.Prelude.{◌≡◌, ◌∷◌, IfOk, OnOk, []};
    ghost use Rattle.flow_types.specs.Scenario.{parts_of};
    ghost use Rattle.time_windows.specs.Held.{IsMadeFor, box_of};
    ghost use Rattle.time_windows.specs.Splits.{early_branch};
    ghost use Rattle.time_windows.specs.Tight.{IsTightened};
    ghost use Rattle.branch_tree.specs.Paths.{AreSteps, IsFork, IsNextOr, waiting_in};
    ghost use Rattle.branch_tree.specs.declared.walk.Step.TheVariants.{Early};

    /// The path of the first box alone.
    pub fn new(alloc: Global, boxes: Boxes) -> Result<Walk, OutOfMemory>
        ensures present { IfOk result (λ walk. walk.present ≡ boxes) }
        ensures above { IfOk result (λ walk. walk.above ≡ []) }
        ensures steps { IfOk result (λ walk. walk.steps ≡ []) }
    {
        Ok(Walk {
            trail: Trail::new(alloc, boxes)?,
            steps: Vec::new(alloc),
            waiting: 0,
        })
    }

    /// The present box.
    pub fn boxes(&self) -> &Boxes
        ensures { result.now ≡ self.now.present }
    {
        self.trail.boxes()
    }

    /// How many boxes wait.
    pub fn waiting(&self) -> u64
        ensures { result ≡ waiting_in self.now.steps }
    {
        self.waiting
    }

    /// Splits the present box, and goes down to its early side; the late one waits. After
    /// `OutOfMemory` nothing is said of the path.
    pub fn split(&mut self, s: &Scenario, branch: Branch) -> Result<(), OutOfMemory>
        requires { IsFork (parts_of s.now) self.old.present branch }
        ensures above { OnOk result (self.new.above ≡ self.old.present ∷ self.old.above) }
        ensures steps { OnOk result (self.new.steps ≡ Early branch ∷ self.old.steps) }
        ensures tight { OnOk result (IsTightened (parts_of s.now)
            (early_branch branch.flight branch.node branch.time (box_of self.old.present))
            (box_of self.new.present)) }
        ensures made { OnOk result (IsMadeFor (parts_of s.now) self.new.present) }
    {
        self.steps.push(Step::Early(branch))?;
        self.waiting += 1;
        let Branch { flight, node, time } = branch;
        self.trail.down(s, flight, node, time, Side::Early)?;
        Ok(())
    }

    /// Goes up and down again, to the next box that waits. Tells whether there was one. After
    /// `OutOfMemory` nothing is said of the path.
    pub fn next(&mut self, s: &Scenario) -> Result<bool, OutOfMemory>
        requires { AreSteps (parts_of s.now) self.old.above self.old.steps }
        ensures { IfOk result (IsNextOr (parts_of s.now) self.old self.new) }
    {
        go_to_next(&mut self.trail, &mut self.steps, &mut self.waiting, s)
    }
}

// Goes up until a step has a late side that waits, and down to that.
fn go_to_next(
    trail: &mut Trail,
    steps: &mut Vec<Step>,
    waiting: &mut u64,
    s: &Scenario,
) -> Result<bool, OutOfMemory>
    requires steps { AreSteps (parts_of s.now) trail.old.above (reverse steps.old.items) }
    requires count { waiting.old ≡ waiting_in (reverse steps.old.items) }
    ensures count { waiting.new ≡ waiting_in (reverse steps.new.items) }
    ensures next { IfOk result (IsNextOr (parts_of s.now)
        (record {
          present = trail.old.present;
          above = trail.old.above;
          steps = reverse steps.old.items;
        })
        (record {
          present = trail.new.present;
          above = trail.new.above;
          steps = reverse steps.new.items;
        })) }
{
    while let Some(step) = steps.pop() {
        trail.up();
        match step {
            Step::Late => {}
            Step::Early(branch) => {
                *waiting -= 1;
                go_late(trail, steps, s, branch)?;
                return Ok(true);
            }
        }
    }
    Ok(false)
}

// Goes down to the late side of the present box.
fn go_late(
    trail: &mut Trail,
    steps: &mut Vec<Step>,
    s: &Scenario,
    branch: Branch,
) -> Result<(), OutOfMemory>
    requires { IsFork (parts_of s.now) trail.old.present branch }
    ensures above { OnOk result (trail.new.above ≡ trail.old.present ∷ trail.old.above) }
    ensures steps { OnOk result (reverse steps.new.items ≡ Late ∷ reverse steps.old.items) }
    ensures count { waiting_in (reverse steps.new.items)
        ≡ waiting_in (reverse steps.old.items) }
    ensures tight { OnOk result (IsTightened (parts_of s.now)
        (late_branch branch.flight branch.node branch.time (box_of trail.old.present))
        (box_of trail.new.present)) }
    ensures made { OnOk result (IsMadeFor (parts_of s.now) trail.new.present) }
{
    steps.push(Step::Late)?;
    let Branch { flight, node, time } = branch;
    trail.down(s, flight, node, time, Side::Late)?;
    Ok(())
}
