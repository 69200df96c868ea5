//! The floors of an aircraft under marks, in one pass over the activities.
//!
//! Links lead to larger numbers, so the floors before an activity are known when its turn comes, and only its
//! predecessors in the network can bring anything to it. An activity that is not alive takes no step at all, and one
//! that is takes a step for each predecessor with a floor.

ghost use Rattle.std.specs.Prelude.{◌≡◌, ◌<◌, ◌≤◌, ℕ, length};
ghost use Rattle.tail_book.specs.Lookup.{activities, aircraft};
ghost use Rattle.maint_counters.specs.inside.StepTable.{IsStepTableOf};
ghost use Rattle.connection_net.specs.Net.{net_of};
ghost use Rattle.branch_marks.specs.inside.MarkTables.{AreMarksOf};
ghost use Rattle.branch_marks.specs.Floors.{lesser_floor};
ghost use Rattle.floor_rows.specs.inside.FloorRow.{floor_in, IsSetAt, IsRowOf};
ghost use Rattle.floor_rows.specs.inside.LeastOver.{floor_of, brought_first, brought};

use crate::floor_row::FloorRow;
use crate::laws::{
    floors_are_least, no_floor_without, predecessors_bring_all, predecessors_come_before,
};
use crate::link_steps::goes_to;
use branch_marks::Marks;
use branch_marks::laws::lesser_in_any_order;
use connection_net::Net;
use connection_net::laws::rows_for_each;
use maint_counters::{StepTable, start};
use tail_book::laws::every_book_is_sound;
use tail_book::{Book, Place};

// Lowers the floor at an activity to what the carry-in brings there.
fn come_first(
    book: &Book,
    steps: &StepTable,
    marks: &Marks,
    k: u32,
    b: u32,
    row: &mut FloorRow,
    values: &mut [i64],
)
    requires steps { IsStepTableOf book.now steps.now }
    requires marks { AreMarksOf book.now marks.now }
    requires aircraft { k < aircraft book.now }
    requires activity { b < activities book.now }
    requires row { IsRowOf book.now row.old }
    requires width { length values.old ≡ length book.now.rules.counters }
    ensures { IsSetAt b (lesser_floor (floor_in row.old b) (brought_first book.now marks.now.facts k b)) row.old row.new }
{
    start(book, k, values);
    if goes_to(book, steps, marks, k, Place::Carry, b, values) {
        row.lower(b as usize, values);
    }
}

// Lowers the floor at an activity to what another one brings there by its own floor.
fn come_from(
    book: &Book,
    steps: &StepTable,
    marks: &Marks,
    k: u32,
    x: u32,
    b: u32,
    row: &mut FloorRow,
    values: &mut [i64],
)
    requires steps { IsStepTableOf book.now steps.now }
    requires marks { AreMarksOf book.now marks.now }
    requires aircraft { k < aircraft book.now }
    requires place { x < activities book.now }
    requires activity { b < activities book.now }
    requires row { IsRowOf book.now row.old }
    requires width { length values.old ≡ length book.now.rules.counters }
    ensures { IsSetAt b (lesser_floor (floor_in row.old b) (brought book.now marks.now.facts k b (floor_in row.old) x)) row.old row.new }
{
    if row.read(x as usize, values) && goes_to(book, steps, marks, k, Place::After(x), b, values) {
        row.lower(b as usize, values);
    }
}

// Lowers the floor at an activity, which is none yet, to what its predecessors bring there.
fn come_on(
    book: &Book,
    net: &Net,
    steps: &StepTable,
    marks: &Marks,
    k: u32,
    b: u32,
    row: &mut FloorRow,
    values: &mut [i64],
)
    requires net { net.now ≡ net_of book.now }
    requires steps { IsStepTableOf book.now steps.now }
    requires marks { AreMarksOf book.now marks.now }
    requires aircraft { k < aircraft book.now }
    requires activity { b < activities book.now }
    requires row { IsRowOf book.now row.old }
    requires width { length values.old ≡ length book.now.rules.counters }
    requires before { (a : ℕ) → a < b → floor_in row.old a ≡ floor_of book.now marks.now.facts k a }
    requires first { floor_in row.old b ≡ brought_first book.now marks.now.facts k b }
    ensures { IsSetAt b (floor_of book.now marks.now.facts k b) row.old row.new }
{
    every_book_is_sound(book);
    floors_are_least();
    predecessors_come_before();
    predecessors_bring_all();
    rows_for_each();
    lesser_in_any_order();
    for x in net.predecessors(b) {
        come_from(book, steps, marks, k, *x, b, row, values);
    }
}

/// Writes the floor at an activity, where those before it are written.
pub fn put_floor(
    book: &Book,
    net: &Net,
    steps: &StepTable,
    marks: &Marks,
    k: u32,
    b: u32,
    row: &mut FloorRow,
    values: &mut [i64],
)
    requires net { net.now ≡ net_of book.now }
    requires steps { IsStepTableOf book.now steps.now }
    requires marks { AreMarksOf book.now marks.now }
    requires aircraft { k < aircraft book.now }
    requires activity { b < activities book.now }
    requires row { IsRowOf book.now row.old }
    requires width { length values.old ≡ length book.now.rules.counters }
    requires before { (a : ℕ) → a < b → floor_in row.old a ≡ floor_of book.now marks.now.facts k a }
    ensures { IsSetAt b (floor_of book.now marks.now.facts k b) row.old row.new }
{
    no_floor_without();
    row.clear(b as usize);
    if marks.alive(book, k, b) {
        come_first(book, steps, marks, k, b, row, values);
        come_on(book, net, steps, marks, k, b, row, values);
    }
}

/// Writes the floors of an aircraft at the activities below a number.
pub fn put_floors(
    book: &Book,
    net: &Net,
    steps: &StepTable,
    marks: &Marks,
    k: u32,
    n: u32,
    row: &mut FloorRow,
    values: &mut [i64],
)
    requires net { net.now ≡ net_of book.now }
    requires steps { IsStepTableOf book.now steps.now }
    requires marks { AreMarksOf book.now marks.now }
    requires aircraft { k < aircraft book.now }
    requires activities { n ≤ activities book.now }
    requires row { IsRowOf book.now row.old }
    requires width { length values.old ≡ length book.now.rules.counters }
    ensures row { IsRowOf book.now row.new }
    ensures floors { (a : ℕ) → a < n → floor_in row.new a ≡ floor_of book.now marks.now.facts k a }
{
    for b in 0..n {
        put_floor(book, net, steps, marks, k, b, row, values);
    }
}
