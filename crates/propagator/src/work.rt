//! Room for the work on one aircraft: which floors are due, which activities are to be asked whether they are dead, and the
//! values of three floors; and for all aircraft, which links are to be asked whether they are dead. It is made once.

ghost use Rattle.std.specs.Prelude.{IfOk};
ghost use Rattle.propagator.specs.inside.Work.{IsWorkOf};

use floor_rows::FloorRow;
use std::alloc::Global;
use tail_book::{Book, Memory};

/// Room for the work on one aircraft, and for the links of all.
#[derive(Debug, Drop)]
pub struct Work {
    /// A flag for each activity: whether its floor may have changed, and whether it may be dead.
    pub due: Vec<bool>,
    pub ask: Vec<bool>,
    /// A flag for each activity: whether links from it, and links to it, may be dead.
    pub leave: Vec<bool>,
    pub arrive: Vec<bool>,
    /// For each activity the least Must behind it over which links from it may be dead.
    pub pass: Vec<u32>,
    /// The values that a place brings, the least of those so far, and what the floor was before.
    pub values: Vec<i64>,
    pub least: Vec<i64>,
    pub before: Vec<i64>,
    /// The least of all floors at each activity, where it was asked.
    pub lowest: FloorRow,
}

impl Work {
    /// Room for the work on the aircraft of a book.
    pub fn new(alloc: Global, book: &Book) -> Result<Work, Memory>
        ensures { IfOk result (IsWorkOf book.now) }
    {
        let (n, width) = (book.activities.len(), book.rules.counters.len());
        Ok(Work {
            due: vec![in alloc; false; n]?,
            ask: vec![in alloc; false; n]?,
            leave: vec![in alloc; false; n]?,
            arrive: vec![in alloc; false; n]?,
            pass: vec![in alloc; 0; n]?,
            values: vec![in alloc; 0; width]?,
            least: vec![in alloc; 0; width]?,
            before: vec![in alloc; 0; width]?,
            lowest: FloorRow::new(alloc, n, width)?,
        })
    }
}
