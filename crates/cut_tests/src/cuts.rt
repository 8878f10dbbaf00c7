//! The cuts that are exceeded where every free variable is 0.
ghost use Rattle.std.specs.Prelude.{IfOk};
ghost use Rattle.flow_types.specs.Scenario.{parts_of};
ghost use Rattle.time_windows.specs.Held.{IsMadeFor, box_of};
ghost use Rattle.time_windows.specs.Tight.{IsTight};

use bytime_model::{RowBuffer, Vars};
use cut_rows::{CutName, Pool, Routes, fill_cut, table_for};
use cut_separation::{FreePoint, separate};
use flow_types::{OutOfMemory, Scenario, Sequence};
use std::alloc::Global;
use std::test::Fail;
use time_windows::Boxes;
use worked_days::two_flights;

// The flights and periods of the cuts, each of the one head of node 1.
const EXPECTED: [(u32, u16); 6] = [(0, 5), (0, 6), (0, 7), (1, 5), (1, 6), (1, 7)];

// The tight root box.
fn tight_root(alloc: Global, s: &Scenario) -> Result<Boxes, OutOfMemory>
    ensures made { IfOk result (IsMadeFor (parts_of s.now)) }
    ensures tight { IfOk result (λ boxes. IsTight (parts_of s.now) (box_of boxes)) }
{
    let mut boxes = Boxes::root(alloc, s)?;
    boxes.tighten(s);
    Ok(boxes)
}

// The cuts that the point without columns exceeds.
fn exceeded(alloc: Global, s: &Scenario) -> Result<Pool, OutOfMemory> {
    let table = table_for(alloc, s)?;
    let boxes = tight_root(alloc, s)?;
    let point = FreePoint {
        columns: Vars::empty(alloc),
        numerators: Sequence::empty(alloc),
        denominator: 1,
    };
    separate(alloc, s, &table, &boxes, &point)
}

// Whether it is the cut of the flight's second node and its one head, in this period.
fn is_expected(cut: &CutName, expected: (u32, u16)) -> bool {
    match cut {
        CutName::Heads {
            flight,
            node,
            time,
            heads,
        } => (*flight, *time) == expected && *node == 1 && heads.items() == [2].as_slice(),
        _ => false,
    }
}

#[test]
fn cuts_of_arrivals_are_exceeded(rt: HostRuntime) -> Result<(), Fail> {
    let alloc = rt.alloc();
    let s = two_flights(alloc, 1, 9, 9)?;
    let pool = exceeded(alloc, &s)?;
    assert_eq!(rt; pool.items().len(), EXPECTED.len());
    for (cut, expected) in pool.items().iter().zip(EXPECTED) {
        assert!(rt; is_expected(cut, expected));
    }
    Ok(())
}

#[test]
fn rows_of_cuts_are_filled(rt: HostRuntime) -> Result<(), Fail> {
    let alloc = rt.alloc();
    let s = two_flights(alloc, 1, 9, 9)?;
    let routes = Routes::new(alloc, &s)?;
    let mut row = RowBuffer::new(alloc)?;
    let cut = CutName::Departed {
        flight: 0,
        node: 2,
        time: 4,
    };
    assert!(rt; fill_cut(&mut row, &s, &routes, &cut));
    assert_eq!(rt; row.terms().len(), 2);
    assert_eq!(rt; routes.shortest(0, 2), 2);
    assert!(rt; routes.reaches(0, 0, 2));
    assert!(rt; !routes.reaches(0, 2, 0));
    Ok(())
}
