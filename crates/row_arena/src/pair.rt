//! What two rows have in a column.
ghost use Rattle.std.specs.Prelude.{◌≤◌, nat_abs};
ghost use Rattle.row_arena.specs.Rows.{most_entry};

/// What two rows have in a column: 0 where one of them has nothing there.
#[derive(Clone, Copy, Debug)]
pub struct Pair {
    pub column: u32,
    pub target: i64,
    pub pivot: i64,
    pub ghost target_near: { nat_abs target ≤ most_entry },
    pub ghost pivot_near: { nat_abs pivot ≤ most_entry },
}
