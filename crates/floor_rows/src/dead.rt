//! What floors show of an aircraft: whether an activity is dead for it, and whether it goes on over a link. Both read the
//! floor at one activity alone, so a row that has this floor will do.

ghost use Rattle.std.specs.Prelude.{◌≡◌, ◌<◌, ◌↔◌, IsTrue, false, length, true};
ghost use Rattle.tail_book.specs.Lookup.{activities, aircraft};
ghost use Rattle.tail_book.specs.declared.place.Place.TheVariants.{After as PlaceAfter};
ghost use Rattle.maint_counters.specs.inside.StepTable.{IsStepTableOf};
ghost use Rattle.connection_net.specs.Net.{net_of};
ghost use Rattle.branch_marks.specs.Following.{CannotGoBy, IsDead, IsDeadConnection};
ghost use Rattle.branch_marks.specs.Marks.{IsUsable};
ghost use Rattle.branch_marks.specs.inside.MarkTables.{AreMarksOf};
ghost use Rattle.floor_rows.specs.inside.FloorRow.{floor_in, IsRowOf};
ghost use Rattle.floor_rows.specs.inside.LeastOver.{floor_of};

use crate::floor_row::FloorRow;
use crate::laws::successors_tell;
use crate::link_steps::{goes_on, goes_on_over};
use branch_marks::Marks;
use branch_marks::laws::usable_decides;
use connection_net::Net;
use maint_counters::StepTable;
use tail_book::laws::limits_decide;
use tail_book::{Book, Place};

/// Whether an activity is dead for an aircraft, by its floor there.
// Where the aircraft may end is asked before where it may go on, since it takes no step.
pub fn is_dead(
    book: &Book,
    net: &Net,
    steps: &StepTable,
    marks: &Marks,
    k: u32,
    a: u32,
    row: &FloorRow,
    values: &mut [i64],
) -> bool
    requires net { net.now ≡ net_of book.now }
    requires steps { IsStepTableOf book.now steps.now }
    requires marks { AreMarksOf book.now marks.now }
    requires aircraft { k < aircraft book.now }
    requires activity { a < activities book.now }
    requires row { IsRowOf book.now row.now }
    requires floor { floor_in row.now a ≡ floor_of book.now marks.now.facts k a }
    requires width { length values.old ≡ length book.now.rules.counters }
    ensures { IsTrue result ↔ IsDead book.now marks.now.facts k a }
{
    successors_tell();
    if !marks.alive(book, k, a) {
        return false;
    }
    if !row.has(a as usize) {
        return true;
    }
    if marks.may_end(book, k, Place::After(a)) {
        return false;
    }
    !goes_on(book, net, steps, marks, k, a, row, values)
}

/// Whether an aircraft may use a link and goes on over it, by its floor at the first activity. While one does, the link is
/// no dead connection.
// The step comes before the marks: it is a few reads, and decides more often.
pub fn may_go_over(
    book: &Book,
    steps: &StepTable,
    marks: &Marks,
    k: u32,
    a: u32,
    b: u32,
    row: &FloorRow,
    values: &mut [i64],
) -> bool
    requires steps { IsStepTableOf book.now steps.now }
    requires marks { AreMarksOf book.now marks.now }
    requires aircraft { k < aircraft book.now }
    requires from { a < activities book.now }
    requires to { b < activities book.now }
    requires row { IsRowOf book.now row.now }
    requires floor { floor_in row.now a ≡ floor_of book.now marks.now.facts k a }
    requires width { length values.old ≡ length book.now.rules.counters }
    ensures goes { result ≡ true → ¬ IsDeadConnection book.now marks.now.facts a b }
    ensures cannot { result ≡ false → IsUsable book.now marks.now.facts k (PlaceAfter a) b → CannotGoBy book.now k a b (floor_of book.now marks.now.facts k a) }
{
    usable_decides();
    limits_decide();
    goes_on_over(book, steps, k, a, b, row, values) && marks.usable(book, k, Place::After(a), b)
}
