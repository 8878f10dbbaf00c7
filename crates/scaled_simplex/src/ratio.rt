//! Which index enters.
ghost use Rattle.std.specs.Prelude.{◌≡◌, ◌<◌, ◌≤◌, [], IfSome, None, Some, length, nat_abs, neg_ℤ, ◌*ℤ◌};
ghost use Rattle.row_arena.specs.Arena.{row_at};
ghost use Rattle.row_arena.specs.Rows.{IsRow, most_entry};
ghost use Rattle.scaled_simplex.specs.Ratios.{IsNear, best_from, candidate_of, cheaper, considered, index_of, is_cheaper};
ghost use Rattle.scaled_simplex.specs.Run.{entering};
ghost use Rattle.scaled_simplex.specs.Tableau.{right_side};

use crate::program::Program;
use row_arena::{Entry, RowArena};

/// An index that may enter: what it costs, and how much it repairs of the leaving row.
#[derive(Clone, Copy, Debug, PartialEq, Eq)]
pub struct Candidate {
    pub index: u32,
    pub cost: i64,
    pub repair: i64,
}

/// Of the indices at which the row is negative, the first of those that cost least for what they
/// repair.
#[tactic(auto, using(crate::proofs::RatioFacts::index_told))]
pub fn entering(arena: &RowArena, program: &Program, row: u32) -> Option<u32>
    requires row { row < length arena.now.rows }
    requires last { length program.now.constraints < length arena.now.rows }
    ensures { result ≡ entering program.now (record { rows = arena.now.rows; basis = [] })
        (row_at arena.now.rows row) }
{
    index_of(best_of(arena, program, arena.row(row)))
}

// The candidate's index.
fn index_of(best: Option<Candidate>) -> Option<u32>
    ensures { result ≡ index_of best }
{
    match best {
        None => None,
        Some(candidate) => Some(candidate.index),
    }
}

// The best candidate of the row.
#[tactic(auto, using(crate::proofs::RatioFacts::best_more, crate::proofs::RatioFacts::best_all, crate::proofs::RatioFacts::entry_of_row))]
fn best_of(arena: &RowArena, program: &Program, row: &[Entry]) -> Option<Candidate>
    requires last { length program.now.constraints < length arena.now.rows }
    requires row { IsRow row.now }
    ensures { result ≡ best_from (row_at arena.now.rows (length program.now.constraints))
        (right_side program.now) None row.now }
{
    let mut best = None;
    for k in 0..row.len() {
        best = considered(arena, program, best, row[k]);
    }
    best
}

// The better one of the best so far and what the entry stands for, where it may enter.
fn considered(
    arena: &RowArena,
    program: &Program,
    best: Option<Candidate>,
    entry: Entry,
) -> Option<Candidate>
    requires last { length program.now.constraints < length arena.now.rows }
    requires near { nat_abs entry.value ≤ most_entry }
    requires best { IfSome best IsNear }
    ensures better { result ≡ considered (row_at arena.now.rows (length program.now.constraints))
        (right_side program.now) best entry }
    ensures near { IfSome result IsNear }
{
    if entry.value < 0 && entry.column < program.right_side() {
        Some(cheaper(best, candidate_of(arena, program, entry)))
    } else {
        best
    }
}

// What the entry stands for.
fn candidate_of(arena: &RowArena, program: &Program, entry: Entry) -> Candidate
    requires last { length program.now.constraints < length arena.now.rows }
    requires near { nat_abs entry.value ≤ most_entry }
    ensures candidate { result
        ≡ candidate_of (row_at arena.now.rows (length program.now.constraints)) entry }
    ensures near { IsNear result }
{
    Candidate {
        index: entry.column,
        cost: turned(Number {
            value: arena.entry(program.rows(), entry.column),
        }),
        repair: turned(Number { value: entry.value }),
    }
}

// The cheaper one.
fn cheaper(best: Option<Candidate>, next: Candidate) -> Candidate
    requires best { IfSome best IsNear }
    requires next { IsNear next }
    ensures cheaper { Some result ≡ cheaper best next }
    ensures near { IsNear result }
{
    match best {
        None => next,
        Some(best) => { if is_cheaper(next, best) { next } else { best } }
    }
}

// Whether the first candidate costs less for what it repairs than the second.
fn is_cheaper(a: Candidate, b: Candidate) -> bool
    requires a { IsNear a }
    requires b { IsNear b }
    ensures { result ≡ is_cheaper a b }
{
    cost_by_repair(a, b) < cost_by_repair(b, a)
}

// What the one costs, as often as the other one repairs.
#[tactic(auto, using(crate::proofs::RatioFacts::product_near))]
fn cost_by_repair(a: Candidate, b: Candidate) -> i128
    requires a { IsNear a }
    requires b { IsNear b }
    ensures { result ≡ a.cost *ℤ b.repair }
{
    a.cost as i128 * b.repair as i128
}

// A number on its own.
#[derive(Clone, Copy)]
struct Number {
    value: i64,
}

// The number with its sign turned.
fn turned(number: Number) -> i64
    requires { nat_abs number.value ≤ most_entry }
    ensures turned { result ≡ neg_ℤ number.value }
    ensures near { nat_abs result ≤ most_entry }
{
    -number.value
}
