//! The leaf that a run tells.
ghost use Rattle.std.specs.Prelude.{◌≡◌, [], IfOk, IfSome};
ghost use Rattle.branch_tree.specs.declared.leaf.Leaf.TheVariants.{Dual};
ghost use Rattle.branch_tree.specs.Leaves.{IsInRange};
ghost use Rattle.cut_rows.specs.Pools.{IsPoolOf};
ghost use Rattle.cut_rows.specs.Relaxations.{box_under, parts_under};
ghost use Rattle.relaxed_bound.specs.Licence.{IsLicensed, IsUnreached, end_of};
ghost use Rattle.relaxed_bound.specs.Relaxed.{HasBound, relaxed_leaf, told_leaf};
ghost use Rattle.relaxed_bound.specs.Telling.{AreWeights, IsRunLeaf};
ghost use Rattle.relaxed_bound.specs.Point.{AreToldFractions, IsPointIn, IsToldPoint, point_of};
ghost use Rattle.scaled_simplex.specs.Run.{simplex_run};

use crate::limits::Limits;
use branch_tree::Leaf;
use bytime_model::{Multipliers, RowNames, Vars};
use cut_rows::Relaxation;
use flow_types::OutOfMemory;
use presolve::{Flags, Presolved, Refused, leaf_of, program_within};
use scaled_simplex::{End, Fractions, Numerators, Program, Run, Solver, Weights};
use std::alloc::Global;

/// What the relaxation of a box tells.
#[derive(Debug, Drop)]
pub struct Relaxed {
    /// The Dual leaf whose weight and multipliers the run tells.
    pub leaf: Leaf,
    /// How the run ended.
    pub end: End,
    /// The run's point, where it ended Optimal and the point's denominator isn't too far from 0.
    pub point: Option<Point>,
}

/// A point of the relaxation, which keeps every row: a fraction for each variable that the box
/// leaves free.
#[derive(Debug)]
pub struct Point {
    /// The variables.
    pub columns: Vars,
    /// Whether the number is that of 1 less the variable.
    pub flipped: Flags,
    /// The numerators, one for each of these.
    pub numerators: Numerators,
    /// Their denominator, above 0.
    pub denominator: i128,
}

impl Drop for Point {
    fn drop(self) {
        let Point {
            columns: _,
            flipped: _,
            numerators: _,
            denominator: _,
        } = self;
    }
}

// How a run ended, and what it tells.
#[derive(Drop)]
struct Ended {
    end: End,
    weights: Weights,
    fractions: Option<Fractions>,
}

// What a run comes to.
#[derive(Drop)]
struct Ran {
    leaf: Leaf,
    end: End,
    fractions: Option<Fractions>,
}

// The run's point, where it ended Optimal.
fn fractions_of(alloc: Global, run: &Run<'_>) -> Result<Option<Fractions>, OutOfMemory>
    ensures { IfOk result (AreToldFractions run.now.problem run.now.outcome) }
{
    if run.end() != End::Optimal {
        return Ok(None);
    }
    let fractions = run.point(alloc)?;
    Ok(Some(fractions))
}

// What a run of the program tells. Its tableau is dropped then.
#[tactic(auto, using(crate::proofs::PointFacts::ran_told))]
fn run_program(
    alloc: Global,
    program: &Program,
    limits: Limits,
    cutoff: Option<i64>,
) -> Result<Ended, OutOfMemory>
    ensures end { IfOk result (λ ended. ended.end
        ≡ (simplex_run program.now limits.pivots limits.cells cutoff).end) }
    ensures weights { IfOk result (λ ended. AreWeights program.now cutoff
        (simplex_run program.now limits.pivots limits.cells cutoff) ended.weights) }
    ensures fractions { IfOk result (λ ended. AreToldFractions program.now
        (simplex_run program.now limits.pivots limits.cells cutoff) ended.fractions) }
{
    let solver = Solver::new(alloc, program, limits.cells)?;
    let run = solver.run(limits.pivots, cutoff);
    let end = run.end();
    let fractions = fractions_of(alloc, &run)?;
    let weights = run.multipliers(alloc)?;
    Ok(Ended {
        end,
        weights,
        fractions,
    })
}

// The leaf with this weight, and these multipliers of the rows with these names.
fn told_leaf(alloc: Global, kept: &RowNames, weights: &Weights) -> Result<Leaf, OutOfMemory>
    ensures { IfOk result (λ leaf. leaf ≡ told_leaf kept.now weights.now.weight weights.now.rows) }
{
    let rows = leaf_of(alloc, kept.items(), weights.rows.items())?;
    Ok(Leaf::Dual {
        weight: weights.weight.unsigned_abs(),
        rows,
    })
}

// What a run of this program tells.
fn run_relaxed(
    alloc: Global,
    presolved: &Presolved,
    limits: Limits,
    cutoff: Option<i64>,
) -> Result<Ran, OutOfMemory>
    ensures end { IfOk result (λ ran. ran.end
        ≡ (simplex_run presolved.now.program limits.pivots limits.cells cutoff).end) }
    ensures leaf { IfOk result (λ ran. IsRunLeaf presolved.now.program presolved.now.kept cutoff
        (simplex_run presolved.now.program limits.pivots limits.cells cutoff) ran.leaf) }
    ensures fractions { IfOk result (λ ran. AreToldFractions presolved.now.program
        (simplex_run presolved.now.program limits.pivots limits.cells cutoff) ran.fractions) }
{
    let Ended {
        end,
        weights,
        fractions,
    } = run_program(alloc, &presolved.program, limits, cutoff)?;
    let leaf = told_leaf(alloc, &presolved.kept, &weights)?;
    Ok(Ran {
        leaf,
        end,
        fractions,
    })
}

// The point of these fractions, if they are one.
fn point_of(presolved: Presolved, fractions: Option<Fractions>) -> Option<Point>
    ensures { result ≡ point_of presolved fractions }
{
    match fractions {
        Some(
            Fractions::Point {
                numerators,
                denominator,
            },
        ) => {
            let Presolved {
                program: _,
                columns,
                kept: _,
                flipped,
            } = presolved;
            Some(Point {
                columns,
                flipped,
                numerators,
                denominator,
            })
        }
        _ => None,
    }
}

// The leaf of one unit of the cost, in which no row counts.
fn bare_leaf(alloc: Global) -> Leaf
    ensures { result ≡ Dual 1 [] }
{
    Leaf::Dual {
        weight: 1,
        rows: Multipliers::empty(alloc),
    }
}

/// What the relaxation of the box tells, by a run of the box's program within the limits and up to
/// the cutoff: a Dual leaf, whose value by its weight, rounded up, reaches the cutoff, or the box
/// may be split; and the point of a run that ended Optimal. The program isn't made whole where
/// there is no room for its first tableau; the leaf is then that of one unit of the cost and no
/// rows.
///
/// It takes what `program_within` and `Solver::new` take. Time: for each pivot the rows that have
/// an entry in its column.
#[tactic(auto, using(crate::proofs::BareFacts::bare_is, crate::proofs::BareFacts::bare_range, crate::proofs::BareFacts::bare_has, crate::proofs::BareFacts::bare_end, crate::proofs::BareFacts::bare_licensed, crate::proofs::ToldFacts::run_is, crate::proofs::ToldFacts::run_end, crate::proofs::PointFacts::bare_point, crate::proofs::PointFacts::point_told))]
pub fn relax(
    alloc: Global,
    relaxation: Relaxation<'_>,
    limits: Limits,
    cutoff: Option<i64>,
) -> Result<Relaxed, OutOfMemory>
    requires pool { IsPoolOf (parts_under relaxation) relaxation.pool.now }
    ensures leaf { IfOk result (λ relaxed. relaxed.leaf
        ≡ relaxed_leaf (parts_under relaxation.entry) relaxation.entry.pool.now
        (box_under relaxation.entry) limits cutoff) }
    ensures end { IfOk result (λ relaxed. relaxed.end
        ≡ end_of (parts_under relaxation.entry) relaxation.entry.pool.now
        (box_under relaxation.entry) limits cutoff) }
    ensures range { IfOk result (λ relaxed. IsInRange relaxed.leaf) }
    ensures some { IfOk result (λ relaxed. HasBound (parts_under relaxation.entry)
        relaxation.entry.pool.now (box_under relaxation.entry) relaxed.leaf) }
    ensures point { IfOk result (λ relaxed. IfSome relaxed.point
        (IsPointIn (parts_under relaxation.entry) relaxation.entry.pool.now
        (box_under relaxation.entry))) }
    ensures told { IfOk result (λ relaxed. IsToldPoint (parts_under relaxation.entry)
        relaxation.entry.pool.now (box_under relaxation.entry) limits cutoff relaxed.point) }
    ensures licensed { IfOk result (λ relaxed. IsUnreached (parts_under relaxation.entry)
        relaxation.entry.pool.now (box_under relaxation.entry) relaxed.leaf cutoff
        → IsLicensed (parts_under relaxation.entry) relaxation.entry.pool.now
        (box_under relaxation.entry) limits cutoff) }
{
    match program_within(alloc, relaxation, limits.cells) {
        Ok(presolved) => {
            let Ran {
                leaf,
                end,
                fractions,
            } = run_relaxed(alloc, &presolved, limits, cutoff)?;
            let point = point_of(presolved, fractions);
            Ok(Relaxed { leaf, end, point })
        }
        Err(Refused::Wide) => Ok(Relaxed {
            leaf: bare_leaf(alloc),
            end: End::Wide,
            point: None,
        }),
        Err(Refused::OutOfMemory) => Err(OutOfMemory),
    }
}
