//! What the relaxation of a box is made of.
ghost use Rattle.flow_types.specs.Scenario.{parts_of};
ghost use Rattle.time_windows.specs.Held.{box_of};
ghost use Rattle.time_windows.specs.Tight.{IsTight};
ghost use Rattle.cut_rows.specs.Table.{IsTableFor};
ghost use Rattle.cut_rows.specs.OneProof.{IsTableFor-prop};

use crate::pool::Pool;
use crate::table::Table;
use flow_types::Scenario;
use time_windows::{Boxes, Subproblem};

/// The relaxation of a tight box: the subproblem, what is looked up of its scenario, and the cuts
/// whose rows it has.
#[derive(Clone, Copy)]
pub struct Relaxation<'a> {
    pub problem: Subproblem<'a>,
    pub table: &'a Table,
    pub pool: &'a Pool,
    pub ghost suits: { IsTableFor (parts_of problem.s.now) table.now } by { IsTableFor-prop _ _ },
    // That some leg leads to a window is kept, and not which one.
    pub ghost tight: { ∥ IsTight (parts_of problem.s.now) (box_of problem.boxes.now) ∥₁ },
}

impl<'a> Relaxation<'a> {
    ghost use Rattle.std.specs.Prelude.{◌≡◌};
    ghost use Rattle.flow_types.specs.Scenario.{parts_of};
    ghost use Rattle.time_windows.specs.Held.{IsMadeFor, box_of};
    ghost use Rattle.time_windows.specs.Tight.{IsTight};
    ghost use Rattle.cut_rows.specs.Relaxations.{box_under, parts_under};
    ghost use Rattle.cut_rows.specs.Table.{IsTableFor};

    /// The relaxation of the tight box, as long as all of these are lent.
    pub fn of(s: &'a Scenario, boxes: &'a Boxes, table: &'a Table, pool: &'a Pool) -> Relaxation<'a>
        requires made { IsMadeFor (parts_of s.now) boxes.now }
        requires tight { IsTight (parts_of s.now) (box_of boxes.now) }
        requires table { IsTableFor (parts_of s.now) table.now }
        ensures scenario { parts_under result ≡ parts_of s.now }
        ensures boxes { box_under result ≡ box_of boxes.now }
        ensures table { result.table.now ≡ table.now }
        ensures pool { result.pool.now ≡ pool.now }
    {
        let problem = Subproblem { s, boxes };
        Relaxation {
            problem,
            table,
            pool,
        }
    }
}
