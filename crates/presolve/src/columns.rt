//! The columns of a box.
ghost use Rattle.std.specs.Prelude.{◌≡◌, ◌+◌, ◌++◌, IfErr, IfOk, OnOk, true};
ghost use Rattle.std.specs.List.{flat_map, range_with_len};
ghost use Rattle.bytime_model.specs.Rows.{node_count};
ghost use Rattle.bytime_model.specs.declared.variables.Var.TheVariants.{By, Inside};
ghost use Rattle.flow_types.specs.Scenario.{flight_at, parts_of};
ghost use Rattle.presolve.specs.Counting.{IfWide, IsCounted, IsPast, column_entries, flight_entries};
ghost use Rattle.presolve.specs.Variables.{by_columns, columns_of, flight_columns, if_free, inside_columns, is_free, node_columns, periods_of};
ghost use Rattle.time_windows.specs.Held.{IsMadeFor, box_of};
ghost use Rattle.time_windows.specs.Subproblems.{box_in, parts_in};

use crate::tally::{Refused, Tally};
use bytime_model::{Left, Var, Vars, has_inside, left_of};
use flow_types::{OutOfMemory, Scenario};
use std::alloc::Global;
use time_windows::{Boxes, Subproblem};

/// The variables that the box leaves free. The entries of the rows that say that they are at most 1
/// are counted, flight by flight.
pub fn columns_of(
    alloc: Global,
    s: &Scenario,
    boxes: &Boxes,
    tally: &mut Tally,
) -> Result<Vars, Refused>
    requires { IsMadeFor (parts_of s.now) boxes.now }
    ensures columns { IfOk result (λ columns. columns
        ≡ columns_of (parts_of s.now) (box_of boxes.now)) }
    ensures counted { OnOk result (IsCounted
        (column_entries (parts_of s.now) (box_of boxes.now)) tally.old tally.new) }
    ensures wide { IfErr result (λ refused. IfWide refused (IsPast tally.old.cells
        (tally.old.entries + column_entries (parts_of s.now) (box_of boxes.now)))) }
{
    let mut columns = Vars::empty(alloc);
    add_all(&mut columns, tally, Subproblem { s, boxes })?;
    Ok(columns)
}

fn is_free(left: Left) -> bool
    ensures { result ≡ is_free left }
{
    match left {
        Left::Zero => false,
        Left::One => false,
        Left::Same(_) => false,
        Left::Free => true,
    }
}

// Adds the variable, where the box leaves it free.
fn add_if_free(
    columns: &mut Vars,
    problem: Subproblem<'_>,
    variable: Var,
) -> Result<(), OutOfMemory>
    ensures { OnOk result (columns.new ≡ columns.old
        ++ if_free (parts_in problem.entry) (box_in problem.entry) variable) }
{
    if is_free(left_of(problem.boxes, problem.s, variable)) {
        columns.add(variable)?;
    }
    Ok(())
}

// Adds those of entering the node.
#[tactic(auto, using(exact_sums::proofs::LoopFacts::numbers_none, exact_sums::proofs::LoopFacts::numbers_all))]
fn add_entering(
    columns: &mut Vars,
    problem: Subproblem<'_>,
    flight: u32,
    node: u16,
) -> Result<(), OutOfMemory>
    ensures { OnOk result (columns.new ≡ columns.old
        ++ by_columns (parts_in problem.entry) (box_in problem.entry) flight node) }
{
    for time in 0..problem.s.day().periods {
        add_if_free(columns, problem, Var::By { flight, node, time })?;
    }
    Ok(())
}

// Adds those of being inside the node.
#[tactic(auto, using(exact_sums::proofs::LoopFacts::numbers_none, exact_sums::proofs::LoopFacts::numbers_all))]
fn add_staying(
    columns: &mut Vars,
    problem: Subproblem<'_>,
    flight: u32,
    node: u16,
) -> Result<(), OutOfMemory>
    ensures { OnOk result (columns.new ≡ columns.old
        ++ flat_map (λ time. if_free (parts_in problem.entry) (box_in problem.entry)
        (Inside flight node time)) (periods_of (parts_in problem.entry))) }
{
    for time in 0..problem.s.day().periods {
        add_if_free(columns, problem, Var::Inside { flight, node, time })?;
    }
    Ok(())
}

// Adds the variables of being inside the node, if there are such ones.
fn add_inside(
    columns: &mut Vars,
    problem: Subproblem<'_>,
    flight: u32,
    node: u16,
) -> Result<(), OutOfMemory>
    ensures { OnOk result (columns.new ≡ columns.old
        ++ inside_columns (parts_in problem.entry) (box_in problem.entry) flight node) }
{
    if has_inside(problem.s, flight, node) {
        add_staying(columns, problem, flight, node)?;
    }
    Ok(())
}

// Adds those of the node.
fn add_node(
    columns: &mut Vars,
    problem: Subproblem<'_>,
    flight: u32,
    node: u16,
) -> Result<(), OutOfMemory>
    ensures { OnOk result (columns.new ≡ columns.old
        ++ node_columns (parts_in problem.entry) (box_in problem.entry) flight node) }
{
    add_entering(columns, problem, flight, node)?;
    add_inside(columns, problem, flight, node)?;
    Ok(())
}

// How many nodes the flight has.
fn node_count(s: &Scenario, flight: u32) -> u16
    ensures { result ≡ node_count (flight_at s.now flight) }
{
    match s.flights().get(flight as usize) {
        None => 0,
        Some(flight) => flight.nodes.items().len() as u16,
    }
}

// Adds those of the flight.
#[tactic(auto, using(exact_sums::proofs::LoopFacts::numbers_none, exact_sums::proofs::LoopFacts::numbers_all))]
fn add_flight(columns: &mut Vars, problem: Subproblem<'_>, flight: u32) -> Result<(), OutOfMemory>
    ensures { OnOk result (columns.new ≡ columns.old
        ++ flight_columns (parts_in problem.entry) (box_in problem.entry) flight) }
{
    for node in 0..node_count(problem.s, flight) {
        add_node(columns, problem, flight, node)?;
    }
    Ok(())
}

// Adds those of the flight, and counts what they have.
fn add_counted(
    columns: &mut Vars,
    tally: &mut Tally,
    problem: Subproblem<'_>,
    flight: u32,
) -> Result<(), Refused>
    ensures columns { OnOk result (columns.new ≡ columns.old
        ++ flight_columns (parts_in problem.entry) (box_in problem.entry) flight) }
    ensures counted { OnOk result (IsCounted
        (flight_entries (parts_in problem.entry) (box_in problem.entry) flight)
        tally.old tally.new) }
    ensures wide { IfErr result (λ refused. IfWide refused (IsPast tally.old.cells
        (tally.old.entries
        + flight_entries (parts_in problem.entry) (box_in problem.entry) flight))) }
{
    let before = columns.items().len();
    add_flight(columns, problem, flight)?;
    tally.add(columns.items().len() - before, 3)
}

// Adds those of all flights.
fn add_all(columns: &mut Vars, tally: &mut Tally, problem: Subproblem<'_>) -> Result<(), Refused>
    ensures columns { OnOk result (columns.new ≡ columns.old
        ++ columns_of (parts_in problem.entry) (box_in problem.entry)) }
    ensures counted { OnOk result (IsCounted
        (column_entries (parts_in problem.entry) (box_in problem.entry)) tally.old tally.new) }
    ensures wide { IfErr result (λ refused. IfWide refused (IsPast tally.old.cells
        (tally.old.entries + column_entries (parts_in problem.entry) (box_in problem.entry)))) }
{
    for flight in 0..problem.s.flights().len() {
        add_counted(columns, tally, problem, flight as u32)?;
    }
    Ok(())
}
