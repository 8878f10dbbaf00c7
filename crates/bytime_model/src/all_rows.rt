//! The names of all rows of a day, together or part by part.
ghost use Rattle.std.specs.Prelude.{◌≡◌, ◌<◌, ◌++◌, ◌↔◌, true, AllPairs, IfOk, OnOk};
ghost use Rattle.std.specs.List.{Any};
ghost use Rattle.flow_types.specs.Scenario.{parts_of};
ghost use Rattle.bytime_model.specs.declared.names.RowName.{RowName};
ghost use Rattle.bytime_model.specs.AllRows.{kind_rows, kinds_rows, part_rows, rows_of, third_rows};
ghost use Rattle.bytime_model.specs.Kinds.{part_count};
ghost use Rattle.bytime_model.specs.Order.{IsBefore};
ghost use Rattle.bytime_model.specs.Rows.{is_row};

use crate::names::{RowKind, RowNames, name_at, part_count, row_kinds, second_count, thirds};
use flow_types::{OutOfMemory, Scenario};
use std::alloc::Global;

/// The names of all rows of the day but cuts, each once: by kind in the order of `row_kinds`, then
/// by their numbers from left to right. It takes 12 bytes for each name, or up to twice that, since
/// the list grows, and time for each name and for each leg of each node. A day at the limits may
/// have 33 million names.
#[tactic(auto, using(crate::proofs::KindLaws::told_each, crate::proofs::KindLaws::told_order))]
pub fn rows_of(alloc: Global, s: &Scenario) -> Result<RowNames, OutOfMemory>
    ensures names { IfOk result (λ names. names ≡ rows_of (parts_of s.now)) }
    ensures each { IfOk result (λ names. (name : RowName) → Any (λ other. other ≡ name) names
        ↔ is_row (parts_of s.now) name ≡ true) }
    ensures order { IfOk result (λ names. AllPairs IsBefore names) }
{
    let mut names = RowNames::empty(alloc);
    add_all(&mut names, s)?;
    Ok(names)
}

/// The names of this kind that are of the flight, place or connection at the position, of which
/// there are `part_count`. Those of all, one after the other, kind by kind, are `rows_of`. It takes
/// 12 bytes for each name, or up to twice that, since the list grows. A flight has at the most
/// 16,384 of a kind: 32 nodes, 512 periods.
pub fn part_rows(
    alloc: Global,
    s: &Scenario,
    kind: RowKind,
    position: u32,
) -> Result<RowNames, OutOfMemory>
    requires { position < part_count (parts_of s.now) kind }
    ensures { IfOk result (λ names. names ≡ part_rows (parts_of s.now) kind position) }
{
    let mut names = RowNames::empty(alloc);
    add_part(&mut names, s, kind, position)?;
    Ok(names)
}

// Adds the names of all kinds.
fn add_all(names: &mut RowNames, s: &Scenario) -> Result<(), OutOfMemory>
    ensures { OnOk result (names.new ≡ names.old ++ rows_of (parts_of s.now)) }
{
    let kinds = row_kinds();
    add_kinds(names, s, &kinds)
}

// Adds those of these kinds, one after the other.
#[tactic(auto, using(exact_sums::proofs::LoopFacts::items_none, exact_sums::proofs::LoopFacts::items_more, exact_sums::proofs::LoopFacts::items_all))]
fn add_kinds(names: &mut RowNames, s: &Scenario, kinds: &[RowKind]) -> Result<(), OutOfMemory>
    ensures { OnOk result (names.new ≡ names.old ++ kinds_rows (parts_of s.now) kinds.now) }
{
    for kind in kinds {
        add_kind(names, s, *kind)?;
    }
    Ok(())
}

// Adds those of this kind.
#[tactic(auto, using(exact_sums::proofs::LoopFacts::numbers_none, exact_sums::proofs::LoopFacts::numbers_all))]
fn add_kind(names: &mut RowNames, s: &Scenario, kind: RowKind) -> Result<(), OutOfMemory>
    ensures { OnOk result (names.new ≡ names.old ++ kind_rows (parts_of s.now) kind) }
{
    for position in 0..part_count(s, kind) {
        add_part(names, s, kind, position)?;
    }
    Ok(())
}

// Adds those of this kind that are of the flight, place or connection at the position.
#[tactic(auto, using(exact_sums::proofs::LoopFacts::numbers_none, exact_sums::proofs::LoopFacts::numbers_all))]
fn add_part(
    names: &mut RowNames,
    s: &Scenario,
    kind: RowKind,
    position: u32,
) -> Result<(), OutOfMemory>
    ensures { OnOk result (names.new ≡ names.old ++ part_rows (parts_of s.now) kind position) }
{
    for second in 0..second_count(s, kind, position) {
        add_thirds(names, s, kind, position, second)?;
    }
    Ok(())
}

// Adds those of them that have this second number.
#[tactic(auto, using(exact_sums::proofs::LoopFacts::numbers_none, exact_sums::proofs::LoopFacts::numbers_mapped))]
fn add_thirds(
    names: &mut RowNames,
    s: &Scenario,
    kind: RowKind,
    first: u32,
    second: u16,
) -> Result<(), OutOfMemory>
    ensures { OnOk result (names.new ≡ names.old
        ++ third_rows (parts_of s.now) kind first second) }
{
    let span = thirds(s, kind, first, second);
    for third in span.from..span.to {
        names.add(name_at(kind, first, second, third))?;
    }
    Ok(())
}
