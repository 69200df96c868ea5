//! What the labels of a leaf are looked at by, borrowed as one, so that each test takes it whole and copies nothing.

use crate::label::Label;
use crate::means::Means;
use branch_marks::Marks;
use tail_book::Book;

/// The labels of a leaf for one aircraft, under marks and duals. The labels of an activity begin at its start.
#[derive(Clone, Copy)]
pub struct Leaf<'a> {
    pub book: &'a Book,
    pub means: &'a Means,
    pub marks: &'a Marks,
    /// In thousandths of a cost unit.
    pub duals: &'a [i64],
    pub family: &'a [Label],
    pub starts: &'a [usize],
    pub k: u32,
}
