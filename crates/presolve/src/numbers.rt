//! The numbers of the columns: where a variable lands.
ghost use Rattle.std.specs.Prelude.{◌≡◌, ◌<◌, ◌^◌, IfOk, length, replicate};
ghost use Rattle.presolve.specs.Gathering.{AreNumbers, AreOwn};

use bytime_model::{Columns, Landing, Var, landing_of};
use cut_rows::Relaxation;
use flow_types::{OutOfMemory, Scenario};
use std::alloc::Global;
use std::marker::Model;
use time_windows::Boxes;

/// Where a variable lands.
#[derive(Clone, Copy, Debug, PartialEq, Eq)]
pub enum Spot {
    /// It is 0.
    Nowhere,
    /// It is 1.
    Surely,
    /// It is free, or the same as one that is, whose column has this number.
    On(u32),
}

/// The numbers of the columns of a box, by the positions that their variables have.
#[derive(Drop)]
pub struct Numbers<'a> {
    positions: &'a Columns,
    numbers: Vec<u32>,
}

impl<'a> Model for Numbers<'a> {
    ghost use Rattle.presolve.specs.Gathering.{Numbered};

    ghost Value = { Numbered };

    ghost view = { λ n. record { positions = n.positions.now; numbers = n.numbers.items } };
}

impl<'a> Numbers<'a> {
    ghost use Rattle.std.specs.Prelude.{◌≡◌, ◌<◌, IfOk, length, slice_index};
    ghost use Rattle.bytime_model.specs.declared.variables.Var.{Var};
    ghost use Rattle.bytime_model.specs.Columns.{IsThere};
    ghost use Rattle.cut_rows.specs.Relaxations.{box_under, parts_under};
    ghost use Rattle.bytime_model.specs.Landing.{IsLandingWithin, landing_of};
    ghost use Rattle.flow_types.specs.Scenario.{parts_of};
    ghost use Rattle.presolve.specs.Gathering.{IsNumberedFor, IsSpot, IsSpotWithin};
    ghost use Rattle.presolve.specs.Variables.{columns_of};
    ghost use Rattle.time_windows.specs.Held.{box_of};

    /// The numbers of the box's columns, by the positions of the table: 4 bytes for each of these.
    #[tactic(auto, using(crate::proofs::NumberFacts::few_numbers))]
    pub fn new(
        alloc: Global,
        relaxation: Relaxation<'a>,
        columns: &[Var],
    ) -> Result<Numbers<'a>, OutOfMemory>
        requires { columns.now ≡ columns_of (parts_under relaxation) (box_under relaxation) }
        ensures { IfOk result (IsNumberedFor (parts_under relaxation.entry)
            relaxation.entry.problem.boxes.now) }
    {
        let positions = &relaxation.table.columns;
        let numbers = numbers_of(alloc, positions, columns)?;
        Ok(Numbers { positions, numbers })
    }

    // The number at the position.
    fn number_at(&self, position: usize) -> u32
        requires { position < length self.now.numbers }
        ensures { result ≡ slice_index self.now.numbers position }
    {
        self.numbers[position]
    }

    // Where the variable lands, by positions.
    #[tactic(auto, using(crate::proofs::NumberFacts::landing_within))]
    fn landing_in(&self, s: &Scenario, boxes: &Boxes, variable: Var) -> Landing
        requires numbered { IsNumberedFor (parts_of s.now) boxes.now self.now }
        requires there { IsThere (parts_of s.now).flights variable }
        ensures landing { result ≡ landing_of self.now.positions.columns (parts_of s.now).flights
            (box_of boxes.now) variable }
        ensures within { IsLandingWithin (length self.now.numbers) result }
    {
        landing_of(self.positions, s, boxes, variable)
    }

    /// Where the variable lands in the box.
    #[tactic(auto, using(crate::proofs::NumberFacts::spot_nowhere, crate::proofs::NumberFacts::spot_surely, crate::proofs::NumberFacts::spot_on, crate::proofs::NumberFacts::spot_within))]
    pub fn spot_of(&self, s: &Scenario, boxes: &Boxes, variable: Var) -> Spot
        requires numbered { IsNumberedFor (parts_of s.now) boxes.now self.now }
        requires there { IsThere (parts_of s.now).flights variable }
        ensures spot { IsSpot (parts_of s.now) (box_of boxes.now) variable result }
        ensures within { IsSpotWithin
            (length (columns_of (parts_of s.now) (box_of boxes.now))) result }
    {
        match self.landing_in(s, boxes, variable) {
            Landing::Nowhere => Spot::Nowhere,
            Landing::Surely => Spot::Surely,
            Landing::At(position) => Spot::On(self.number_at(position)),
        }
    }
}

// So many zeros.
fn zeros(alloc: Global, positions: usize) -> Result<Vec<u32>, OutOfMemory>
    ensures { IfOk result (λ numbers. numbers.items ≡ replicate positions 0) }
{
    Ok(vec![in alloc; 0; positions]?)
}

// The number of each column, at the position of its variable.
#[tactic(auto, using(crate::proofs::NumberFacts::own_within, crate::proofs::NumberFacts::own_small, crate::proofs::NumberFacts::none_numbered))]
fn numbers_of(alloc: Global, positions: &Columns, columns: &[Var]) -> Result<Vec<u32>, OutOfMemory>
    requires own { AreOwn positions.now columns.now }
    requires few { length columns.now < 2 ^ 32 }
    ensures { IfOk result (λ numbers. AreNumbers positions.now columns.now (length columns.now)
        numbers.items) }
{
    let mut numbers = zeros(alloc, positions.count())?;
    for k in 0..columns.len() {
        numbers[positions.position(columns[k])] = k as u32;
    }
    Ok(numbers)
}
