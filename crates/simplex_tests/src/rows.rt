//! Rows that are combined in little room, and rows that are laid closely before each step.
ghost use Rattle.std.specs.Prelude.{◌≡◌, IfOk};
ghost use Rattle.row_arena.specs.Rows.{IsRow};

use crate::programs::{numbers_of, sides_of, terms_of};
use row_arena::{Entry, RowArena, Wide};
use std::alloc::Global;
use std::process::Abort;
use std::test::Fail;

// Rows by their factors, column by column, in room for so many entries; and how row 1 is when its
// column 0 is cleared by row 0, or why it can't be.
const COMBINED: &str = "\
2 3, 4 5; 5: 1:-1, live 3
2 3, 4 5; 4: 1 more than 4
1 4611686018427387903, -1 1 1; 100: 4611686018427387904 in column 1
6 0 9, 4 0 6; 100: live 2
3 1, 0 2; 100: 1:1, live 3";

const MOST_ROWS: u32 = 8;

// Adds the row, if there is a place for it.
fn push(arena: &mut RowArena, row: &[Entry]) -> Result<(), Fail>
    requires places { arena.old.most_rows ≡ 8 }
    requires row { IsRow row.now }
    ensures places { arena.new.most_rows ≡ 8 }
{
    if arena.len() >= MOST_ROWS {
        return Err(Fail::from("no place"));
    }
    match arena.push_row(row) {
        Ok(()) => Ok(()),
        Err(_) => Err(Fail::from("no room")),
    }
}

// Rows such as `2 3, 4 5`.
fn arena_of(alloc: Global, cells: u32, text: &str) -> Result<RowArena, Fail>
    ensures { IfOk result (λ arena. arena.most_rows ≡ 8) }
{
    let mut arena = RowArena::new(alloc, MOST_ROWS, cells)?;
    for row in text.split(", ") {
        let factors = numbers_of(alloc, row)?;
        push(
            &mut arena,
            &terms_of(alloc, u32::try_from(factors.len())?, &factors)?,
        )?;
    }
    Ok(arena)
}

// Combines two rows, if they may be.
fn combine(
    arena: &mut RowArena,
    target: u32,
    pivot: u32,
    column: u32,
) -> Result<Result<(), Wide>, Fail> {
    let rows = arena.len();
    if target < rows && pivot < rows && target != pivot && arena.entry(pivot, column) > 0 {
        Ok(arena.combine(target, pivot, column))
    } else {
        Err(Fail::from("no step"))
    }
}

// The entries of a row, if it is there.
fn put_row(text: &mut String, arena: &RowArena, row: u32) -> Result<(), Fail> {
    if row < arena.len() {
        for entry in arena.row(row) {
            write!(text, "{}:{}, ", entry.column, entry.value)?;
        }
    }
    Ok(())
}

// What is said of row 1 after it.
fn said_of(alloc: Global, rows: &str, cells: u32) -> Result<String, Fail> {
    let mut arena = arena_of(alloc, cells, rows)?;
    let mut text = String::new(alloc);
    match combine(&mut arena, 1, 0, 0)? {
        Ok(()) => {
            put_row(&mut text, &arena, 1)?;
            write!(text, "live {}", arena.live())?;
        }
        Err(Wide::Value { column, value }) => write!(text, "{value} in column {column}")?,
        Err(Wide::Cells { live, more }) => write!(text, "{more} more than {live}")?,
    }
    Ok(text)
}

#[test]
fn rows_are_combined_as_told(rt: HostRuntime) -> Result<(), Fail> {
    for line in COMBINED.lines() {
        let (case, answer) = sides_of(line, ": ")?;
        let (rows, cells) = sides_of(case, "; ")?;
        let said = said_of(rt.alloc(), rows, cells.parse::<u32>()?)?;
        assert_eq!(&rt; said.as_str(), answer, "{case}");
    }
    Ok(())
}

// All rows.
fn text_of(alloc: Global, arena: &RowArena) -> Result<String, Fail> {
    let mut text = String::new(alloc);
    for row in 0..arena.len() {
        put_row(&mut text, arena, row)?;
        text.push('/')?;
    }
    Ok(text)
}

#[test]
fn rows_stay_where_all_are_laid_closely(rt: HostRuntime) -> Result<(), Fail> {
    let rows = "1 2 0 3 0 1, -2 1 1 0 1 0, 1 0 3 1 0 -1, 0 -1 2 0 1 1";
    let mut one = arena_of(rt.alloc(), 40, rows)?;
    let mut other = arena_of(rt.alloc(), 40, rows)?;
    for (target, pivot, column) in [
        (1, 0, 0),
        (2, 0, 0),
        (3, 1, 2),
        (0, 1, 3),
        (2, 1, 5),
        (3, 1, 4),
        (2, 0, 0),
    ] {
        other.compact();
        let said = combine(&mut one, target, pivot, column)?;
        assert!(&rt; said == combine(&mut other, target, pivot, column)?);
        let (left, right) = (text_of(rt.alloc(), &one)?, text_of(rt.alloc(), &other)?);
        assert_eq!(&rt; left.as_str(), right.as_str());
    }
    Ok(())
}
