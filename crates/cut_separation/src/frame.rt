//! What is looked up while cuts are tried, and what is found.
use bytime_model::{Columns, RowBuffer};
use cut_rows::{Cuts, Routes};
use flow_types::Scenario;
use std::alloc::Global;
use time_windows::Boxes;

/// A day, a box of its plans, and a point of it by positions.
pub struct Frame<'a> {
    pub s: &'a Scenario,
    pub boxes: &'a Boxes,
    pub routes: &'a Routes,
    pub columns: &'a Columns,
    // Of each position.
    pub numerators: Vec<i64>,
    pub denominator: i64,
}

impl<'a> Drop for Frame<'a> {
    fn drop(self) {
        let Frame {
            s: _,
            boxes: _,
            routes: _,
            columns: _,
            numerators: _,
            denominator: _,
        } = self;
    }
}

/// The cuts so far, and room for the row of one.
#[derive(Drop)]
pub struct Draft {
    pub alloc: Global,
    pub buffer: RowBuffer,
    pub cuts: Cuts,
}
