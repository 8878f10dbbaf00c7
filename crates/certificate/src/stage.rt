//! The grammar of a certificate: which line may stand next.
ghost use Rattle.std.specs.Prelude.{◌≡◌, IfOk};
ghost use Rattle.cut_rows.specs.Order.{follows_last};
ghost use Rattle.cut_rows.specs.Routes.{AreRoutesOf};
ghost use Rattle.flow_types.specs.Scenario.{parts_of};
ghost use Rattle.certificate.specs.declared.fault.LineError.TheVariants as error;
ghost use Rattle.certificate.specs.Found.{Finds, Gives};
ghost use Rattle.certificate.specs.Stages.{IsSmall, after_cost, after_row, bad_kind, cut_at, is_above, is_cut, is_ended, is_node, may_stand, next_at, row_at, rows_left, stage_after, trees_left, trips_left, waiting_at};

use crate::fault::{LineError, LineFault, TextCause};
use crate::item::CertItem;
use crate::kind::LineKind;
use bytime_model::RowName;
use cut_rows::{CutName, Heads, Routes, is_before, is_cut as is_cut_of};
use flow_types::{OutOfMemory, Scenario};
use std::alloc::Global;

/// How far a text has come: what may stand next.
#[derive(Debug, Drop)]
pub enum Stage {
    /// The head.
    Head,
    /// A cut, above the last one, or the first node of the tree.
    Pool {
        last: Option<CutName>,
    },
    /// The next node, where so many trees wait.
    Tree {
        waiting: u64,
    },
    /// One of so many rows of a leaf, above the last one; so many trees wait after it.
    Rows {
        left: u32,
        last: Option<RowName>,
        waiting: u64,
    },
    /// The cost of the plan, or that there is none.
    Plan,
    /// The trip of this flight.
    Trips {
        next: u32,
    },
    /// The bound.
    Bound,
    /// The end.
    End,
    /// Nothing.
    Ended,
}

/// That a line's first field is no word that may stand there.
pub fn bad_kind() -> LineFault
    ensures { result ≡ bad_kind }
{
    LineFault {
        field: 1,
        cause: TextCause::BadKind,
    }
}

// Whether a tree is made of such lines.
fn is_node(kind: LineKind) -> bool
    ensures { result ≡ is_node kind }
{
    matches!(
        kind,
        LineKind::Split | LineKind::Empty | LineKind::Unit | LineKind::Dual | LineKind::Lag
    )
}

/// Whether a line tells a cut.
pub fn is_cut(kind: LineKind) -> bool
    ensures { result ≡ is_cut kind }
{
    matches!(kind, LineKind::Cut)
}

/// Whether a line of this kind may stand here.
pub fn may_stand(stage: &Stage, kind: LineKind) -> bool
    ensures { result ≡ may_stand stage.now kind }
{
    match stage {
        Stage::Head => matches!(kind, LineKind::Head),
        Stage::Pool { .. } => is_cut(kind) || is_node(kind),
        Stage::Tree { .. } => is_node(kind),
        Stage::Rows { .. } => matches!(kind, LineKind::Row),
        Stage::Plan => matches!(kind, LineKind::Plan),
        Stage::Trips { .. } => matches!(kind, LineKind::Trip),
        Stage::Bound => matches!(kind, LineKind::Bound),
        Stage::End => matches!(kind, LineKind::End),
        Stage::Ended => false,
    }
}

/// Whether nothing may stand here.
pub fn is_ended(stage: &Stage) -> bool
    ensures { result ≡ is_ended stage.now }
{
    matches!(stage, Stage::Ended)
}

// How many trees wait: the first one, or those of splits too, and while rows are read those after
// their leaf.
fn waiting_at(stage: &Stage) -> u64
    ensures { result ≡ waiting_at stage.now }
{
    match stage {
        Stage::Pool { .. } => 1,
        Stage::Tree { waiting } | Stage::Rows { waiting, .. } => *waiting,
        _ => 0,
    }
}

/// The flight whose trip comes next.
pub fn next_at(stage: &Stage) -> u32
    ensures { result ≡ next_at stage.now }
{
    match stage {
        Stage::Trips { next } => *next,
        _ => 0,
    }
}

// What may stand where so many trees wait still.
fn trees_left(waiting: u64) -> Stage
    ensures { result ≡ trees_left waiting }
{
    if waiting == 0 {
        Stage::Plan
    } else {
        Stage::Tree { waiting }
    }
}

// What may stand where so many rows of a leaf are left.
fn rows_left(left: u32, last: Option<RowName>, waiting: u64) -> Stage
    ensures { result ≡ rows_left left last waiting }
{
    if left == 0 {
        trees_left(waiting)
    } else {
        Stage::Rows {
            left,
            last,
            waiting,
        }
    }
}

// What may stand where the trips of the flights from this one on are left.
fn trips_left(s: &Scenario, next: u32) -> Stage
    ensures { result ≡ trips_left (parts_of s.now) next }
{
    if (next as usize) < s.flights().len() {
        Stage::Trips { next }
    } else {
        Stage::Bound
    }
}

// What may stand after the cost of a plan, or after the word that there is none.
fn after_cost(s: &Scenario, cost: Option<i64>) -> Stage
    ensures { result ≡ after_cost (parts_of s.now) cost }
{
    match cost {
        None => Stage::Bound,
        Some(_) => trips_left(s, 0),
    }
}

// Whether a row comes after the last one, if there is one.
fn is_above(last: Option<RowName>, name: RowName) -> bool
    ensures { result ≡ is_above last name }
{
    match last {
        None => true,
        Some(last) => last.is_before(name),
    }
}

// What may stand after a row of a leaf, which has to come after the last one.
fn row_at(stage: &Stage, name: RowName) -> Result<Stage, LineFault>
    ensures { Finds (λ stage. stage) result (row_at stage.now name) }
{
    let Stage::Rows {
        left,
        last,
        waiting,
    } = stage
    else {
        return Err(bad_kind());
    };
    if is_above(*last, name) {
        Ok(rows_left(left.saturating_sub(1), Some(name), *waiting))
    } else {
        Err(LineFault {
            field: 2,
            cause: TextCause::Order,
        })
    }
}

// Whether the cut comes after the last one, if there is one.
fn follows_last(last: &Option<CutName>, cut: &CutName) -> bool
    ensures { result ≡ follows_last last.now cut.now }
{
    match last {
        None => true,
        Some(last) => is_before(last, cut),
    }
}

// The cut's name in memory of its own.
fn copy_of(alloc: Global, cut: &CutName) -> Result<CutName, OutOfMemory>
    ensures { IfOk result (λ copy. copy ≡ cut.now) }
{
    match cut {
        CutName::Heads {
            flight,
            node,
            time,
            heads,
        } => Ok(CutName::Heads {
            flight: *flight,
            node: *node,
            time: *time,
            heads: list_of(alloc, heads)?,
        }),
        CutName::Apart {
            flight,
            time,
            heads,
        } => Ok(CutName::Apart {
            flight: *flight,
            time: *time,
            heads: list_of(alloc, heads)?,
        }),
        CutName::Departed { flight, node, time } => Ok(CutName::Departed {
            flight: *flight,
            node: *node,
            time: *time,
        }),
    }
}

// The nodes in memory of their own.
fn list_of(alloc: Global, nodes: &Heads) -> Result<Heads, OutOfMemory>
    ensures { IfOk result (λ copy. copy ≡ nodes.now) }
{
    Ok(Heads::from_vec(Vec::from_slice(alloc, nodes.items())?))
}

// What is wrong with a cut, whose kind is its second field.
fn cut_fault(cause: TextCause) -> LineError
    ensures { result ≡ error.Fault (record { field = 2; cause = cause }) }
{
    LineError::Fault(LineFault { field: 2, cause })
}

// What may stand after a cut, which has to come after the last one, and to be one of the scenario.
fn cut_at(
    alloc: Global,
    s: &Scenario,
    routes: &Routes,
    stage: &Stage,
    cut: &CutName,
) -> Result<Stage, LineError>
    requires { AreRoutesOf (parts_of s.now) routes.now }
    ensures { Gives (λ stage. stage) result (cut_at (parts_of s.now) stage.now cut.now) }
{
    let Stage::Pool { last } = stage else {
        return Err(LineError::Fault(bad_kind()));
    };
    if !follows_last(last, cut) {
        return Err(cut_fault(TextCause::Order));
    }
    if !is_cut_of(s, routes, cut) {
        return Err(cut_fault(TextCause::BadCut));
    }
    let last = Some(copy_of(alloc, cut)?);
    Ok(Stage::Pool { last })
}

/// What may stand after the line of an item. A cut takes memory for its nodes.
pub fn stage_after(
    alloc: Global,
    s: &Scenario,
    routes: &Routes,
    stage: &Stage,
    item: &CertItem,
) -> Result<Stage, LineError>
    requires small { IsSmall stage.now }
    requires routes { AreRoutesOf (parts_of s.now) routes.now }
    ensures { Gives (λ stage. stage) result (stage_after (parts_of s.now) stage.now item.now) }
{
    match item {
        CertItem::Head(_) => Ok(Stage::Pool { last: None }),
        CertItem::Cut(cut) => cut_at(alloc, s, routes, stage, cut),
        CertItem::Split { .. } => Ok(Stage::Tree {
            waiting: waiting_at(stage) + 1,
        }),
        CertItem::Empty | CertItem::Unit => Ok(trees_left(waiting_at(stage).saturating_sub(1))),
        CertItem::Dual { rows, .. } | CertItem::Lag { rows, .. } => Ok(rows_left(
            *rows,
            None,
            waiting_at(stage).saturating_sub(1),
        )),
        CertItem::Row(multiplier) => Ok(row_at(stage, multiplier.row)?),
        CertItem::Plan(cost) => Ok(after_cost(s, *cost)),
        CertItem::Trip(_) => Ok(trips_left(s, next_at(stage) + 1)),
        CertItem::Bound(_) => Ok(Stage::End),
        CertItem::End(_) => Ok(Stage::Ended),
    }
}
