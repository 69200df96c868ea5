//! The least of all floors at each activity: whoever comes there has no lower values.
//!
//! A step keeps the order of values. So where it passes a limit from the least of all floors, it does so for everybody, and a
//! dead connection is told by one step in the place of one for each aircraft. To take the least costs a read for each floor.
//! That is repaid where nothing was seen yet and all links are suspect. After few new facts it is not, as an activity then
//! has a dead connection or two: so none is kept there.

ghost use Rattle.std.specs.Prelude.{◌≡◌, ◌<◌, ℕ, ℤ, List, Some, None, true, length, slice_index_or};
ghost use Rattle.tail_book.specs.Lookup.{activities, aircraft};
ghost use Rattle.maint_counters.specs.inside.StepTable.{IsStepTableOf};
ghost use Rattle.branch_marks.specs.Following.{CannotGoBy};
ghost use Rattle.branch_marks.specs.Floors.{lesser_floor};
ghost use Rattle.floor_rows.specs.inside.FloorRow.{floor_in, IsRowOf, IsSetAt};
ghost use Rattle.propagator.specs.inside.Lowest.{AreWide, IsLowestOf, StaysLow};
ghost use Rattle.propagator.specs.inside.Rising.{IsLowFor};
ghost use Rattle.propagator.specs.inside.Rows.{AreRowsOf, floors_in};

use floor_rows::{FloorRow, goes_on_over};
use maint_counters::StepTable;
use tail_book::Book;
use tail_book::laws::{
    each_at_most_chains, each_at_most_itself, limits_decide, lower_stays_within, steps_keep_order,
};

// Takes all floors away.
fn clear_all(book: &Book, lowest: &mut FloorRow)
    requires row { IsRowOf book.now lowest.old }
    ensures row { IsRowOf book.now lowest.new }
    ensures none { (a : ℕ) → a < activities book.now → floor_in lowest.new a ≡ None }
{
    for a in 0..book.activities.len() {
        lowest.clear(a);
    }
}

// Lowers the least floor at an activity to that of one aircraft.
fn lower_at(book: &Book, a: usize, row: &FloorRow, lowest: &mut FloorRow, values: &mut [i64])
    requires activity { a < activities book.now }
    requires row { IsRowOf book.now row.now }
    requires lowest { IsRowOf book.now lowest.old }
    requires width { length values.old ≡ length book.now.rules.counters }
    ensures set { IsSetAt a (lesser_floor (floor_in lowest.old a) (floor_in row.now a)) lowest.old lowest.new }
    ensures wide { (low : List ℤ) → floor_in row.now a ≡ Some low → length low ≡ length book.now.rules.counters }
{
    if row.read(a, values) {
        lowest.lower(a, values);
    }
}

// Lowers the least floors to those of one aircraft.
fn lower_all(book: &Book, row: &FloorRow, lowest: &mut FloorRow, values: &mut [i64])
    requires row { IsRowOf book.now row.now }
    requires lowest { IsRowOf book.now lowest.old }
    requires wide { AreWide book.now lowest.old }
    requires width { length values.old ≡ length book.now.rules.counters }
    ensures lowest { IsRowOf book.now lowest.new }
    ensures wide { AreWide book.now lowest.new }
    ensures under { (a : ℕ) → a < activities book.now → (low : List ℤ) → floor_in row.now a ≡ Some low → IsLowFor (floor_in lowest.new a) low }
    ensures stays { StaysLow lowest.old lowest.new }
{
    each_at_most_itself();
    each_at_most_chains();
    for a in 0..book.activities.len() {
        lower_at(book, a, row, lowest, values);
    }
}

/// Writes the least of all floors where nothing was seen yet, and else none.
pub fn note_lowest(
    book: &Book,
    seen: Option<usize>,
    rows: &[FloorRow],
    lowest: &mut FloorRow,
    values: &mut [i64],
)
    requires rows { AreRowsOf book.now rows.now }
    requires lowest { IsRowOf book.now lowest.old }
    requires width { length values.old ≡ length book.now.rules.counters }
    ensures lowest { IsRowOf book.now lowest.new }
    ensures least { IsLowestOf book.now rows.now lowest.new }
{
    clear_all(book, lowest);
    if seen.is_some() {
        return;
    }
    for k in 0..rows.len() {
        lower_all(book, &rows[k], lowest, values);
    }
}

/// Whether nobody goes on over a link, as the least of all floors is known and does not.
pub fn none_goes_over(
    book: &Book,
    steps: &StepTable,
    a: u32,
    b: u32,
    rows: &[FloorRow],
    lowest: &FloorRow,
    values: &mut [i64],
) -> bool
    requires steps { IsStepTableOf book.now steps.now }
    requires from { a < activities book.now }
    requires to { b < activities book.now }
    requires lowest { IsRowOf book.now lowest.now }
    requires least { IsLowestOf book.now rows.now lowest.now }
    requires width { length values.old ≡ length book.now.rules.counters }
    ensures { result ≡ true → (k : ℕ) → k < aircraft book.now → CannotGoBy book.now k a b (slice_index_or (floors_in rows.now k) a None) }
{
    steps_keep_order();
    lower_stays_within();
    limits_decide();
    if book.tails.is_empty() || !lowest.has(a as usize) {
        return false;
    }
    !goes_on_over(book, steps, 0, a, b, lowest, values)
}
