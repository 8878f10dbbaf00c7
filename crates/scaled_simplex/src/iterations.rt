//! Finds the next iteration of a run.
ghost use Rattle.std.specs.Prelude.{◌≡◌, ◌≤◌, ◌<◌, ◌^◌, ◌-ℤ◌, ◌*ℤ◌, int_lt, pos, nat_abs};
ghost use Rattle.row_arena.specs.Rows.{most_entry};
ghost use Rattle.scaled_simplex.specs.BoardOf.{IsBoard, tableau_of};
ghost use Rattle.scaled_simplex.specs.Run.{is_cut, leaving, iteration_entering, iteration_leaving, iteration_of};

use crate::board::Board;
use crate::end::End;
use crate::iteration::Iteration;
use crate::program::Program;
use crate::ratio::entering;

/// The run ends, and a row tells why; or a row leaves, and an index enters.
pub fn iteration_of(board: &Board, program: &Program, cutoff: Option<i64>) -> Iteration
    requires { IsBoard program.now board.now }
    ensures { result ≡ iteration_of program.now cutoff (tableau_of board.now) }
{
    if is_cut(board, program, cutoff) {
        return Iteration::Ends {
            end: End::Cut,
            row: program.rows(),
        };
    }
    iteration_leaving(board, program, leaving(board, program))
}

// How the run goes on where the value hasn't reached the cutoff.
fn iteration_leaving(board: &Board, program: &Program, leaves: Option<u32>) -> Iteration
    requires board { IsBoard program.now board.now }
    requires leaves { leaves ≡ leaving program.now (tableau_of board.now) }
    ensures { result ≡ iteration_leaving program.now (tableau_of board.now) leaves }
{
    match leaves {
        None => Iteration::Ends {
            end: End::Optimal,
            row: program.rows(),
        },
        Some(row) => iteration_entering(row, entering(&board.arena, program, row)),
    }
}

// How the run goes on where a row leaves.
fn iteration_entering(row: u32, enters: Option<u32>) -> Iteration
    ensures { result ≡ iteration_entering row enters }
{
    match enters {
        None => Iteration::Ends {
            end: End::Infeasible,
            row,
        },
        Some(index) => Iteration::Pivots { row, index },
    }
}

// Of the rows with a negative right side, the one that stands for the least index.
#[tactic(auto, using(crate::proofs::LeavingFacts::told))]
fn leaving(board: &Board, program: &Program) -> Option<u32>
    requires { IsBoard program.now board.now }
    ensures { result ≡ leaving program.now (tableau_of board.now) }
{
    board.basis.leaving()
}

// Whether the value, rounded up, has reached the cutoff.
fn is_cut(board: &Board, program: &Program, cutoff: Option<i64>) -> bool
    requires { IsBoard program.now board.now }
    ensures { result ≡ is_cut program.now cutoff (tableau_of board.now) }
{
    match cutoff {
        None => false,
        Some(cutoff) => has_reached(Reach {
            cutoff,
            value: board.arena.entry(program.rows(), program.right_side()),
            weight: board.arena.entry(program.rows(), program.weight_index()),
        }),
    }
}

// A value as a fraction over a weight, and what it has to reach.
#[derive(Clone, Copy)]
struct Reach {
    cutoff: i64,
    value: i64,
    weight: i64,
}

// Whether the value, rounded up, has reached it.
fn has_reached(reach: Reach) -> bool
    requires { nat_abs reach.weight ≤ most_entry }
    ensures { result ≡ int_lt ((reach.cutoff -ℤ pos 1) *ℤ reach.weight) reach.value }
{
    below(reach) < wide_reach(reach)
}

// The cutoff less 1, times the weight.
fn below(reach: Reach) -> i128
    requires { nat_abs reach.weight ≤ most_entry }
    ensures { result ≡ (reach.cutoff -ℤ pos 1) *ℤ reach.weight }
{
    product(Factors {
        left: one_less(reach),
        right: reach.weight,
    })
}

fn one_less(reach: Reach) -> i128
    ensures less { result ≡ reach.cutoff -ℤ pos 1 }
    ensures near { nat_abs result ≤ 2 ^ 64 }
{
    reach.cutoff as i128 - 1
}

// Two numbers whose product is wanted.
#[derive(Clone, Copy)]
struct Factors {
    left: i128,
    right: i64,
}

#[tactic(auto, using(crate::proofs::LeavingFacts::product_near))]
fn product(of: Factors) -> i128
    requires left { nat_abs of.left ≤ 2 ^ 64 }
    requires right { nat_abs of.right ≤ most_entry }
    ensures { result ≡ of.left *ℤ of.right }
{
    of.left * of.right as i128
}

fn wide_reach(reach: Reach) -> i128
    ensures { result ≡ reach.value }
{
    reach.value as i128
}
