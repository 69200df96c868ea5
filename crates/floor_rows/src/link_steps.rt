//! Steps of an aircraft along links under marks: whether it can go on from where it stands.
//!
//! Whether the link is usable is asked before a step is taken. The counters behind the step are written into a row that
//! the caller lends, so nothing is allocated. Whether the aircraft goes on at all takes a step for each of its usable
//! links at most, and is known with the first that stays within the limits.

ghost use Rattle.std.specs.Prelude.{◌≡◌, ◌<◌, ◌&&◌, ℤ, List, false, IsTrue, None, Some, if◌then◌else◌, length};
ghost use Rattle.tail_book.specs.Lookup.{activities, aircraft};
ghost use Rattle.tail_book.specs.Place.{IsPlaceOf};
ghost use Rattle.tail_book.specs.declared.place.Place.TheVariants.{After as PlaceAfter};
ghost use Rattle.tail_book.specs.Counters.{step};
ghost use Rattle.tail_book.specs.LegalTests.{within_limits};
ghost use Rattle.branch_marks.specs.MarkTests.{is_usable};
ghost use Rattle.maint_counters.specs.inside.Counts.{AreCounts};
ghost use Rattle.maint_counters.specs.inside.StepTable.{IsStepTableOf};
ghost use Rattle.connection_net.specs.Net.{net_of};
ghost use Rattle.branch_marks.specs.inside.MarkTables.{AreMarksOf};
ghost use Rattle.branch_marks.specs.Floors.{stepped_floor};
ghost use Rattle.floor_rows.specs.inside.FloorRow.{floor_in, IsRowOf};
ghost use Rattle.floor_rows.specs.inside.Neighbours.{goes_on_from, goes_on_to};

use crate::floor_row::FloorRow;
use crate::laws::successors_are_of_book;
use branch_marks::Marks;
use connection_net::Net;
use connection_net::laws::rows_for_each;
use maint_counters::{StepTable, step_by};
use tail_book::laws::every_book_is_sound;
use tail_book::{Book, Place};
use turn_rules::laws::links_leave_time;

/// Writes the counters after an activity, and answers whether the link to it is usable and all stay within their limits.
pub fn goes_to(
    book: &Book,
    steps: &StepTable,
    marks: &Marks,
    k: u32,
    from: Place,
    b: u32,
    values: &mut [i64],
) -> bool
    requires steps { IsStepTableOf book.now steps.now }
    requires marks { AreMarksOf book.now marks.now }
    requires aircraft { k < aircraft book.now }
    requires place { IsPlaceOf book.now from }
    requires activity { b < activities book.now }
    requires width { length values.old ≡ length book.now.rules.counters }
    requires range { AreCounts values.old }
    ensures tests { result ≡ (is_usable book.now marks.now.facts k from b && within_limits book.now.rules.counters (step book.now k from b values.old)) }
    ensures brings { stepped_floor book.now marks.now.facts k from b (Some values.old) ≡ (if result then Some values.new else None) }
    ensures range { IsTrue result → AreCounts values.new }
{
    every_book_is_sound(book);
    links_leave_time();
    marks.usable(book, k, from, b) && step_by(book, steps, k, from, b, values)
}

/// Whether an aircraft can go on from an activity to another one, by its floor there.
pub fn goes_on_to(
    book: &Book,
    steps: &StepTable,
    marks: &Marks,
    k: u32,
    a: u32,
    b: u32,
    row: &FloorRow,
    values: &mut [i64],
) -> bool
    requires steps { IsStepTableOf book.now steps.now }
    requires marks { AreMarksOf book.now marks.now }
    requires aircraft { k < aircraft book.now }
    requires place { a < activities book.now }
    requires activity { b < activities book.now }
    requires row { IsRowOf book.now row.now }
    requires width { length values.old ≡ length book.now.rules.counters }
    ensures some { (low : List ℤ) → floor_in row.now a ≡ Some low → result ≡ goes_on_to book.now marks.now.facts k a low b }
    ensures none { floor_in row.now a ≡ None → result ≡ false }
{
    row.read(a as usize, values) && goes_to(book, steps, marks, k, Place::After(a), b, values)
}

/// Whether an aircraft can go on over a link that it may use, by its floor at the first activity.
pub fn goes_on_over(
    book: &Book,
    steps: &StepTable,
    k: u32,
    a: u32,
    b: u32,
    row: &FloorRow,
    values: &mut [i64],
) -> bool
    requires steps { IsStepTableOf book.now steps.now }
    requires aircraft { k < aircraft book.now }
    requires place { a < activities book.now }
    requires activity { b < activities book.now }
    requires row { IsRowOf book.now row.now }
    requires width { length values.old ≡ length book.now.rules.counters }
    ensures some { (low : List ℤ) → floor_in row.now a ≡ Some low → result ≡ within_limits book.now.rules.counters (step book.now k (PlaceAfter a) b low) }
    ensures none { floor_in row.now a ≡ None → result ≡ false }
{
    row.read(a as usize, values) && step_by(book, steps, k, Place::After(a), b, values)
}

/// Whether an aircraft can go on from an activity, by its floor there.
pub fn goes_on(
    book: &Book,
    net: &Net,
    steps: &StepTable,
    marks: &Marks,
    k: u32,
    a: u32,
    row: &FloorRow,
    values: &mut [i64],
) -> bool
    requires net { net.now ≡ net_of book.now }
    requires steps { IsStepTableOf book.now steps.now }
    requires marks { AreMarksOf book.now marks.now }
    requires aircraft { k < aircraft book.now }
    requires activity { a < activities book.now }
    requires row { IsRowOf book.now row.now }
    requires width { length values.old ≡ length book.now.rules.counters }
    ensures { (low : List ℤ) → floor_in row.now a ≡ Some low → result ≡ goes_on_from book.now marks.now.facts k a low }
{
    rows_for_each();
    successors_are_of_book();
    for b in net.successors(a) {
        if goes_on_to(book, steps, marks, k, a, *b, row, values) {
            return true;
        }
    }
    false
}
