//! Solvers and their runs.
ghost use Rattle.std.specs.Prelude.{◌≡◌, ◌≤◌, IfOk, if◌then◌else◌, nat_abs, neg_ℤ};
ghost use Rattle.row_arena.specs.Rows.{entry_at, most_entry};
ghost use Rattle.scaled_simplex.specs.Run.{is_infeasible};
ghost use Rattle.scaled_simplex.specs.Tableau.{bare_row};

use crate::board::Board;
use crate::end::End;
use crate::ending::Ending;
use crate::first::first_board;
use crate::fractions::{Fractions, fractions_of};
use crate::program::Program;
use crate::refused::Refused;
use crate::steps::run_from;
use flow_types::{OutOfMemory, Sequence};
use std::alloc::Global;
use std::marker::Model;

/// The dual simplex of a program, in room for so many entries of its tableau.
#[derive(Drop)]
pub struct Solver<'a> {
    program: &'a Program,
    cells: u32,
    // The first tableau, unless it has no room.
    board: Option<Board>,
}

impl<'a> Model for Solver<'a> {
    ghost use Rattle.scaled_simplex.specs.Solving.{IsSolver, Solving};

    ghost Value = { Solving };

    ghost view = { λ s. record { problem = s.program.now; cells = s.cells } };

    ghost invariant = { λ s. IsSolver s.program.now s.cells s.board };
}

/// A run that has ended.
#[derive(Drop)]
pub struct Run<'a> {
    program: &'a Program,
    board: Option<Board>,
    ending: Ending,
}

impl<'a> Model for Run<'a> {
    ghost use Rattle.scaled_simplex.specs.Solving.{IsRan, Ran, outcome_in};

    ghost Value = { Ran };

    ghost view = { λ r. record {
      problem = r.program.now;
      outcome = outcome_in r.program.now r.board r.ending;
    } };

    ghost invariant = { λ r. IsRan r.program.now r.board r.ending };
}

impl<'a> Solver<'a> {
    ghost use Rattle.std.specs.Prelude.{◌≡◌, IfOk};
    ghost use Rattle.scaled_simplex.specs.LastPoint.{IsBelow};
    ghost use Rattle.scaled_simplex.specs.Run.{simplex_run};
    ghost use Rattle.scaled_simplex.specs.declared.end.End.TheVariants.{Optimal};

    /// The first tableau of the program. It takes 118 bytes for each of the cells, of which it
    /// touches some 24 for each of its entries, and 24 for each index.
    pub fn new(alloc: Global, program: &'a Program, cells: u32) -> Result<Solver<'a>, OutOfMemory>
        ensures { IfOk result (λ solver. solver
            ≡ record { problem = program.now; cells = cells }) }
    {
        let board = match first_board(alloc, program, cells) {
            Ok(board) => Some(board),
            Err(Refused::Wide(_)) => None,
            Err(Refused::OutOfMemory) => return Err(OutOfMemory),
        };
        Ok(Solver {
            program,
            cells,
            board,
        })
    }

    /// Runs with so many pivots at the most, until the value, rounded up, is at least the cutoff.
    /// So after Optimal it is less. It takes no memory.
    pub fn run(self, pivots: u64, cutoff: Option<i64>) -> Run<'a>
        ensures run { result ≡ record {
          problem = self.entry.problem;
          outcome = simplex_run self.entry.problem pivots self.entry.cells cutoff;
        } }
        ensures uncut { result.outcome.end ≡ Optimal
            → IsBelow result.problem cutoff result.outcome }
    {
        let Solver { program, board, .. } = self;
        let Some(mut board) = board else {
            return Run {
                program,
                board: None,
                ending: Ending {
                    end: End::Wide,
                    row: 0,
                },
            };
        };
        let ending = run_from(&mut board, program, pivots, cutoff);
        Run {
            program,
            board: Some(board),
            ending,
        }
    }
}

/// What a run tells: how often the cost counts, and how often each constraint.
#[derive(Debug, Drop)]
pub struct Weights {
    pub weight: i64,
    pub rows: Factors,
}

/// A list of numbers.
pub type Factors = Sequence<i64>;

/// A value as a fraction.
#[derive(Clone, Copy, Debug, PartialEq, Eq)]
pub struct Value {
    pub numerator: i64,
    pub denominator: i64,
}

impl<'a> Run<'a> {
    ghost use Rattle.std.specs.Prelude.{◌≡◌, ◌<◌, ◌≤◌, ◌<ℤ◌, ◌++◌, ◌∷◌, [], All, IfOk, OnOk, false, length, nat_abs, pos};
    ghost use Rattle.row_arena.specs.Rows.{entry_at, most_entry};
    ghost use Rattle.scaled_simplex.specs.Fractions.{AreLast, AreWorth, HasPoint};
    ghost use Rattle.scaled_simplex.specs.Multipliers.{IsJustified, multipliers_of};
    ghost use Rattle.scaled_simplex.specs.Program.{IsProblem};
    ghost use Rattle.scaled_simplex.specs.declared.end.End.TheVariants.{Optimal};
    ghost use Rattle.scaled_simplex.specs.Run.{is_infeasible, multiplier_in, value_in, weight_in};

    /// How it ended. Whatever the end is, its row tells what is true of all values of the columns;
    /// and after Optimal the point of the last tableau keeps the program and costs the value.
    #[tactic(auto, using(crate::proofs::LastPoints::ran_point))]
    pub fn end(&self) -> End
        ensures end { result ≡ self.now.outcome.end }
        ensures justified { IsJustified self.now.problem self.now.outcome }
        ensures point { result ≡ Optimal → HasPoint self.now.problem self.now.outcome }
    {
        self.ending.end
    }

    /// What it tells of every constraint. With the weight above 0, no values of the columns that
    /// keep the constraints cost less than the value; after Infeasible the weight is 0, and there
    /// are no such values. No number is further from 0 than `MOST_ENTRY`. It takes 8 bytes a
    /// constraint, or up to twice that.
    pub fn multipliers(&self, alloc: Global) -> Result<Weights, OutOfMemory>
        ensures weight { IfOk result (λ weights.
            weights.weight ≡ weight_in self.now.problem self.now.outcome) }
        ensures rows { IfOk result (λ weights.
            weights.rows ≡ multipliers_of self.now.problem self.now.outcome) }
        ensures near { IfOk result (λ weights. nat_abs weights.weight ≤ most_entry) }
        ensures rows_near { IfOk result (λ weights.
            All (λ multiplier. nat_abs multiplier ≤ most_entry) weights.rows) }
        ensures valid { IsProblem self.now.problem }
        ensures justified { IsJustified self.now.problem self.now.outcome }
    {
        Ok(Weights {
            weight: self.entry(self.program.weight_index()),
            rows: self.factors(alloc)?,
        })
    }

    // The multipliers of the constraints.
    #[tactic(auto, using(exact_sums::proofs::LoopFacts::numbers_none))]
    fn factors(&self, alloc: Global) -> Result<Factors, OutOfMemory>
        ensures rows { IfOk result (λ rows.
            rows ≡ multipliers_of self.now.problem self.now.outcome) }
        ensures near { IfOk result (All (λ multiplier. nat_abs multiplier ≤ most_entry)) }
    {
        let mut rows = Sequence::empty(alloc);
        for row in 0..self.program.rows() {
            self.add_multiplier(&mut rows, row)?;
        }
        Ok(rows)
    }

    // Adds that of a constraint.
    fn add_multiplier(&self, rows: &mut Factors, row: u32) -> Result<(), OutOfMemory>
        requires { row < length self.now.problem.constraints }
        ensures rows { OnOk result (rows.new
            ≡ rows.old ++ multiplier_in self.now.problem self.now.outcome row ∷ []) }
        ensures near { nat_abs (multiplier_in self.now.problem self.now.outcome row)
            ≤ most_entry }
    {
        let multiplier = self.multiplier(row);
        rows.add(multiplier)
    }

    /// The value of the last tableau, after a run that didn't end Infeasible.
    #[tactic(auto, using(crate::proofs::SolverFacts::weight_above))]
    pub fn value(&self) -> Value
        requires { is_infeasible self.now.outcome.end ≡ false }
        ensures numerator { result.numerator ≡ value_in self.now.problem self.now.outcome }
        ensures denominator { result.denominator ≡ weight_in self.now.problem self.now.outcome }
        ensures positive { pos 0 <ℤ weight_in self.now.problem self.now.outcome }
    {
        Value {
            numerator: self.entry(self.program.right_side()),
            denominator: self.entry(self.program.weight_index()),
        }
    }

    /// The point of the last tableau, which keeps the program and costs the value. A column that a
    /// row stands for has that row's right side divided by its entry there, every other column 0.
    /// It is given over the least common multiple of the columns' denominators in lowest terms; or,
    /// where that passes `MOST_ENTRY`, it is told for how many first columns it does. It takes 16
    /// bytes for each column, and for each the time of a greatest common divisor.
    #[tactic(auto, using(crate::proofs::LastPoints::ran_worth))]
    pub fn point(&self, alloc: Global) -> Result<Fractions, OutOfMemory>
        requires { self.now.outcome.end ≡ Optimal }
        ensures fractions { IfOk result (AreLast self.now.problem self.now.outcome) }
        ensures worth { IfOk result (AreWorth self.now.problem self.now.outcome) }
    {
        match &self.board {
            None => unreachable!(),
            Some(board) => fractions_of(alloc, board, self.program),
        }
    }

    // What the telling row has at an index.
    fn entry(&self, index: u32) -> i64
        ensures entry { result ≡ entry_at self.now.outcome.row index }
        ensures near { nat_abs result ≤ most_entry }
    {
        match &self.board {
            None => bare_entry(self.program, index),
            Some(board) => board.arena.entry(self.ending.row, index),
        }
    }

    // The multiplier of a constraint.
    fn multiplier(&self, row: u32) -> i64
        requires { row < length self.now.problem.constraints }
        ensures multiplier { result ≡ multiplier_in self.now.problem self.now.outcome row }
        ensures near { nat_abs result ≤ most_entry }
    {
        let entry = self.entry(self.program.columns() + row);
        signed(self.ending.end, entry)
    }
}

// A multiplier by the telling row's entry, after this end.
fn signed(end: End, entry: i64) -> i64
    requires { nat_abs entry ≤ most_entry }
    ensures signed { result ≡ if is_infeasible end then entry else neg_ℤ entry }
    ensures near { nat_abs result ≤ most_entry }
{
    if end == End::Infeasible {
        entry
    } else {
        -entry
    }
}

// What the row of all columns at 0 has at an index.
fn bare_entry(program: &Program, index: u32) -> i64
    ensures entry { result ≡ entry_at (bare_row program.now) index }
    ensures near { nat_abs result ≤ most_entry }
{
    if index == program.right_side() {
        program.constant()
    } else if index == program.weight_index() {
        1
    } else {
        0
    }
}
