//! Warm starts: duals from elsewhere that the root of a search begins with in place of first duals, and how its first ascent begins
//! there.
//!
//! They only suggest. The duals are brought into the box and priced like others, so whatever they are, the outcome is true.

ghost use Rattle.std.specs.Prelude.{◌<◌, length};
ghost use Rattle.branch_marks.specs.Settled.{AreDuals};

use tail_book::{Book, CostTable, Duals};

/// What the root of a search begins with: duals, one for each activity, and how its first ascent begins there. All of it is in
/// thousandths of a cost unit. Where the duals are not as many as the activities, it counts for nothing.
#[derive(Drop)]
pub struct WarmStart {
    pub duals: Vec<i64>,
    /// How hot the ascent begins.
    pub temperature: i64,
    /// How far from these duals it goes at first.
    pub radius: i64,
    /// Whether the root dives for a plan once its ascent is over, where it has none.
    pub dives: bool,
}

/// A warm start, if it has a dual for each activity.
pub fn fitting(book: &Book, warm: Option<WarmStart>) -> Option<WarmStart> {
    match warm {
        Some(warm) if warm.duals.len() == book.activities.len() => Some(warm),
        _ => None,
    }
}

// Puts a dual, within the box.
fn put_dual(book: &Book, table: &CostTable, duals: &mut Duals, a: usize, value: i64)
    requires duals { AreDuals table.now book.now duals.old.values }
    requires place { a < length duals.old.values }
    ensures duals { AreDuals table.now book.now duals.new.values }
{
    duals.values[a] = table.boxed(value);
}

/// Puts the duals of a warm start, each within the box.
pub fn put_duals(book: &Book, table: &CostTable, warm: &WarmStart, duals: &mut Duals)
    requires duals { AreDuals table.now book.now duals.old.values }
    ensures duals { AreDuals table.now book.now duals.new.values }
{
    let n = duals.values.len();
    for a in 0..n {
        if let Some(value) = warm.duals.get(a) {
            put_dual(book, table, duals, a, *value);
        }
    }
}
