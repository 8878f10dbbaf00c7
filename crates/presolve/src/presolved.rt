//! The program of a box.
ghost use Rattle.std.specs.Prelude.{◌≡◌, ◌<◌, ◌+◌, [], IfErr, IfOk, OnOk, length, map, pos, sum_by, unsigned_abs};
ghost use Rattle.cut_rows.specs.Pools.{IsPoolOf, rows_with};
ghost use Rattle.cut_rows.specs.Relaxations.{box_under, parts_under};
ghost use Rattle.flow_types.specs.Scenario.{parts_of};
ghost use Rattle.presolve.specs.Counting.{IfWide, IsPast, row_entries};
ghost use Rattle.presolve.specs.Frames.{IsFramed, box_in, parts_in, pool_in};
ghost use Rattle.presolve.specs.Gathering.{IsNumberedFor};
ghost use Rattle.presolve.specs.Listing.{HaveCosts, with_rows};
ghost use Rattle.presolve.specs.Presolved.{IsPresolved, entries_of};
ghost use Rattle.presolve.specs.Relaxed.{flipped_of, kept_of, program_of};
ghost use Rattle.presolve.specs.Variables.{columns_of};
ghost use Rattle.scaled_simplex.specs.Program.{columns};
ghost use Rattle.time_windows.specs.Held.{box_of};

use crate::columns::columns_of;
use crate::costs::{Costs, costs_of, negatives_of, sizes_of};
use crate::frame::Frame;
use crate::kinds::add_all_names;
use crate::numbers::Numbers;
use crate::rows::{ProgramDraft, add_ones};
use crate::tally::{Refused, Tally};
use bytime_model::{RowNames, Var, Vars};
use cut_rows::Relaxation;
use flow_types::{OutOfMemory, Scenario, Sequence};
use scaled_simplex::Program;
use std::alloc::Global;
use time_windows::{Boxes, Subproblem};

/// A list of marks.
pub type Flags = Sequence<bool>;

/// The linear program of a box.
#[derive(Debug, Drop)]
pub struct Presolved {
    /// What the columns cost, and the rows over them.
    pub program: Program,
    /// The variables that the columns stand for.
    pub columns: Vars,
    /// The names of the program's first rows. After them come those that say that a column is at
    /// most 1, column by column.
    pub kept: RowNames,
    /// Which columns stand for 1 less their variable.
    pub flipped: Flags,
}

// The numbers of the box's columns, what these cost, and which of them are flipped.
#[derive(Drop)]
struct Base<'a> {
    numbers: Numbers<'a>,
    costs: Costs,
    flips: Vec<bool>,
}

// The base of a program of these columns.
fn base_of<'a>(
    alloc: Global,
    relaxation: Relaxation<'a>,
    columns: &[Var],
) -> Result<Base<'a>, OutOfMemory>
    requires { columns.now ≡ columns_of (parts_under relaxation) (box_under relaxation) }
    ensures numbers { IfOk result (λ base. IsNumberedFor (parts_under relaxation.entry)
        relaxation.entry.problem.boxes.now base.numbers) }
    ensures costs { IfOk result (λ base. HaveCosts (parts_under relaxation.entry)
        (box_under relaxation.entry) base.costs.values.items base.costs.constant) }
    ensures flips { IfOk result (λ base. base.flips.items
        ≡ flipped_of (parts_under relaxation.entry) (box_under relaxation.entry)) }
{
    let numbers = Numbers::new(alloc, relaxation, columns)?;
    let Subproblem { s, boxes } = relaxation.problem;
    let cost = &relaxation.table.cost;
    let costs = costs_of(alloc, s, boxes, &numbers, cost, columns.len())?;
    let flips = negatives_of(alloc, &costs.values)?;
    Ok(Base {
        numbers,
        costs,
        flips,
    })
}

// A program of these costs, without rows.
fn begun(alloc: Global, s: &Scenario, boxes: &Boxes, costs: &Costs) -> Result<Program, OutOfMemory>
    requires { HaveCosts (parts_of s.now) (box_of boxes.now) costs.now.values.items
        costs.now.constant }
    ensures { IfOk result (λ program. program ≡ record {
      costs = map (λ value. pos (unsigned_abs value)) costs.now.values.items;
      constant = costs.now.constant;
      constraints = [];
    }) }
{
    let sizes = sizes_of(alloc, &costs.values)?;
    let program = Program::new(alloc, &sizes, costs.constant)?;
    Ok(program)
}

// Adds all rows to a program without any.
fn add_all(
    draft: &mut ProgramDraft,
    alloc: Global,
    frame: &Frame<'_>,
    count: usize,
) -> Result<(), Refused>
    requires framed { IsFramed frame.now }
    requires none { draft.old.kept ≡ [] }
    requires rows { draft.old.program.constraints ≡ [] }
    requires columns { columns draft.old.program ≡ count }
    requires count { count ≡ length (columns_of (parts_in frame.now)
        (box_in frame.now)) }
    ensures program { OnOk result (draft.new.program ≡ with_rows draft.old.program
        (program_of (parts_in frame.now) (pool_in frame.now)
        (box_in frame.now)).constraints) }
    ensures kept { OnOk result (draft.new.kept ≡ kept_of (parts_in frame.now)
        (pool_in frame.now) (box_in frame.now)) }
    ensures wide { IfErr result (λ refused. IfWide refused (IsPast draft.old.tally.cells
        (draft.old.tally.entries + sum_by (row_entries (parts_in frame.now)
        (pool_in frame.now) (box_in frame.now))
        (rows_with (parts_in frame.now) (pool_in frame.now))))) }
{
    add_all_names(draft, alloc, frame)?;
    add_ones(&mut draft.program, alloc, count)?;
    Ok(())
}

// The program of the box, unless the tally says that its tableau has too many entries.
fn tallied(
    alloc: Global,
    relaxation: Relaxation<'_>,
    cells: Option<u32>,
) -> Result<Presolved, Refused>
    requires pool { IsPoolOf (parts_under relaxation) relaxation.pool.now }
    ensures presolved { IfOk result (IsPresolved (parts_under relaxation.entry)
        relaxation.entry.pool.now (box_under relaxation.entry)) }
    ensures wide { IfErr result (λ refused. IfWide refused (IsPast cells
        (entries_of (parts_under relaxation.entry) relaxation.entry.pool.now
        (box_under relaxation.entry)))) }
{
    let Subproblem { s, boxes } = relaxation.problem;
    let mut tally = Tally::new(cells);
    let columns = columns_of(alloc, s, boxes, &mut tally)?;
    let Base {
        numbers,
        costs,
        flips,
    } = base_of(alloc, relaxation, columns.items())?;
    let frame = Frame {
        numbers,
        relaxation,
        flips,
    };
    let mut draft = ProgramDraft {
        program: begun(alloc, s, boxes, &costs)?,
        kept: RowNames::empty(alloc),
        tally,
    };
    add_all(&mut draft, alloc, &frame, columns.items().len())?;
    let ProgramDraft {
        program,
        kept,
        tally: _,
    } = draft;
    let Frame {
        numbers: _,
        relaxation: _,
        flips,
    } = frame;
    Ok(Presolved {
        program,
        columns,
        kept,
        flipped: Sequence::from_vec(flips),
    })
}

/// The program of the relaxation's box. The rows of its cuts, which are cuts of the scenario, stand
/// after those of the day.
///
/// Its multipliers, with any weight, are bounds: where each is 0 or more, and for each column the
/// weight times its cost plus each multiplier times the row's factor is 0 or more, the weight times
/// the constant less each multiplier times the row's limit is no more than the value of the Dual
/// leaf with that weight and the rows that `leaf_of` gives.
///
/// While it runs it takes 4 bytes for each variable that the tight root box leaves free, room for
/// one row, and the names of the rows of one flight and kind, one place or one connection at a
/// time, and then those of all cuts of the pool: 12 bytes each, or up to twice that.
pub fn program(alloc: Global, relaxation: Relaxation<'_>) -> Result<Presolved, OutOfMemory>
    requires pool { IsPoolOf (parts_under relaxation) relaxation.pool.now }
    ensures presolved { IfOk result (IsPresolved (parts_under relaxation.entry)
        relaxation.entry.pool.now (box_under relaxation.entry)) }
{
    match tallied(alloc, relaxation, None) {
        Ok(presolved) => Ok(presolved),
        Err(Refused::OutOfMemory) => Err(OutOfMemory),
        Err(Refused::Wide) => unreachable!(),
    }
}

/// The program of a box, as `program` gives it, for a run that has room for so many entries.
/// `Refused::Wide` comes only where the first tableau has more. It comes as soon as that is seen,
/// so the program takes no more than one that has just room.
pub fn program_within(
    alloc: Global,
    relaxation: Relaxation<'_>,
    cells: u32,
) -> Result<Presolved, Refused>
    requires pool { IsPoolOf (parts_under relaxation) relaxation.pool.now }
    ensures presolved { IfOk result (IsPresolved (parts_under relaxation.entry)
        relaxation.entry.pool.now (box_under relaxation.entry)) }
    ensures wide { IfErr result (λ refused. IfWide refused (cells
        < entries_of (parts_under relaxation.entry) relaxation.entry.pool.now
        (box_under relaxation.entry))) }
{
    tallied(alloc, relaxation, Some(cells))
}
