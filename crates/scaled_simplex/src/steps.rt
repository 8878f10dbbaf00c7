//! A run, iteration by iteration.
ghost use Rattle.std.specs.Prelude.{◌≡◌, ◌<◌, Some, length};
ghost use Rattle.scaled_simplex.specs.Board.{IsBasic};
ghost use Rattle.scaled_simplex.specs.BoardOf.{IsBoard, IsChosen, tableau_of};
ghost use Rattle.scaled_simplex.specs.Derived.{IsDerived};
ghost use Rattle.scaled_simplex.specs.Run.{iteration_of};
ghost use Rattle.scaled_simplex.specs.Steps.{IsStep, IsTelling};
ghost use Rattle.scaled_simplex.specs.declared.iteration.Iteration.TheVariants.{Pivots};

use crate::board::Board;
use crate::end::End;
use crate::ending::Ending;
use crate::iteration::Iteration;
use crate::iterations::iteration_of;
use crate::pivots::{pivot, renew_lists};
use crate::program::Program;

/// Runs from the tableau on, with so many pivots at the most. It takes no memory.
pub fn run_from(board: &mut Board, program: &Program, pivots: u64, cutoff: Option<i64>) -> Ending
    requires board { IsBoard program.now board.old }
    requires basic { IsBasic program.now (tableau_of board.old) }
    requires derived { IsDerived program.now board.old.arena.cells (tableau_of board.old) }
    ensures { IsTelling program.now board.old.arena.cells cutoff pivots (tableau_of board.old)
        board.new result }
{
    let mut left = pivots;
    loop {
        if let Some(ending) = step(board, program, left, cutoff) {
            return ending;
        }
        left -= 1;
    }
}

// One iteration: the run ends, or a pivot is made.
fn step(board: &mut Board, program: &Program, left: u64, cutoff: Option<i64>) -> Option<Ending>
    requires board { IsBoard program.now board.old }
    requires basic { IsBasic program.now (tableau_of board.old) }
    requires derived { IsDerived program.now board.old.arena.cells (tableau_of board.old) }
    ensures { IsStep program.now cutoff left board.old board.new result }
{
    match iteration_of(board, program, cutoff) {
        Iteration::Ends { end, row } => Some(Ending { end, row }),
        Iteration::Pivots { row, index } => {
            if left == 0 {
                Some(Ending {
                    end: End::Limit,
                    row: program.rows(),
                })
            } else {
                renew_lists(board, program);
                go_on(board, program, left, cutoff, row, index)
            }
        }
    }
}

// The pivot is made, or there is no room for it.
fn go_on(
    board: &mut Board,
    program: &Program,
    left: u64,
    cutoff: Option<i64>,
    row: u32,
    index: u32,
) -> Option<Ending>
    requires board { IsBoard program.now board.old }
    requires basic { IsBasic program.now (tableau_of board.old) }
    requires derived { IsDerived program.now board.old.arena.cells (tableau_of board.old) }
    requires iteration { iteration_of program.now cutoff (tableau_of board.old) ≡ Pivots row index }
    requires left { 0 < left }
    ensures { IsStep program.now cutoff left board.old board.new result }
{
    match pivot(board, program, row, index) {
        Ok(()) => None,
        Err(_) => Some(Ending {
            end: End::Wide,
            row: program.rows(),
        }),
    }
}
