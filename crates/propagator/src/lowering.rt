//! The floor of an aircraft at an activity, made anew from what the places before it bring.
//!
//! Of all that is brought little lowers the floor: 2 to 6 of 100 steps on made tables of 4,000 activities. So the step is
//! taken first, which is a few reads and sums, and only where it lowers the floor is it asked whether the aircraft may use
//! the link. What lies before the aircraft's last Must is passed over. The latest predecessors come first. A floor never
//! falls while marks grow: once it is again what it was, nothing that is left can lower it, which for most floors
//! shows after a few predecessors.

ghost use Rattle.std.specs.Prelude.{◌≡◌, ◌<◌, ℕ, ℤ, List, true, false, IsTrue, None, Some, length};
ghost use Rattle.tail_book.specs.Lookup.{activities, aircraft};
ghost use Rattle.turn_rules.specs.inside.FreeBefore.{IsFreeBefore};
ghost use Rattle.tail_book.specs.declared.place.Place.TheVariants.{After as PlaceAfter};
ghost use Rattle.tail_book.specs.CounterOrder.{EachAtMost};
ghost use Rattle.branch_marks.specs.declared.fact.Fact.{Fact as MarkFact};
ghost use Rattle.branch_marks.specs.Floors.{lesser, lesser_floor};
ghost use Rattle.branch_marks.specs.inside.MarkTables.{AreMarksOf};
ghost use Rattle.branch_marks.specs.MarkTests.{is_usable};
ghost use Rattle.connection_net.specs.Net.{net_of};
ghost use Rattle.floor_rows.specs.inside.FloorRow.{floor_in, IsRowOf, IsSetAt};
ghost use Rattle.floor_rows.specs.inside.LeastOver.{brought, brought_first, floor_of};
ghost use Rattle.maint_counters.specs.inside.Counts.{AreCounts};
ghost use Rattle.maint_counters.specs.inside.StepTable.{IsStepTableOf};
ghost use Rattle.propagator.specs.inside.CutOff.{IsCutOff};
ghost use Rattle.propagator.specs.inside.Rising.{BringsWhereUsable, IsCopied};

use branch_marks::Marks;
use branch_marks::laws::{lesser_in_any_order, usable_decides};
use connection_net::Net;
use connection_net::laws::rows_for_each;
use floor_rows::laws::{
    brought_tells, floors_are_least, no_floor_without, predecessors_bring_all,
    predecessors_come_before,
};
use floor_rows::{FloorRow, goes_to};
use maint_counters::{StepTable, start, step_by};
use tail_book::laws::{every_book_is_sound, limits_decide};
use tail_book::{Book, Place};
use turn_rules::laws::links_leave_time;

// Whether one of the values is less than the one at its place.
fn is_less(values: &[i64], least: &[i64]) -> bool
    requires { length values.now ≡ length least.now }
    ensures { result ≡ false → lesser least.now values.now ≡ least.now }
{
    for c in 0..values.len() {
        if values[c] < least[c] {
            return true;
        }
    }
    false
}

// Lowers the floor at an activity to these values, and copies it.
fn lower_to(b: u32, row: &mut FloorRow, values: &[i64], least: &mut [i64])
    requires place { b < length row.old.floors }
    requires width { length values.now ≡ row.old.width }
    requires least { length least.old ≡ row.old.width }
    requires range { AreCounts values.now }
    ensures set { IsSetAt b (lesser_floor (floor_in row.old b) (Some values.now)) row.old row.new }
    ensures copied { IsCopied row.new b least.new }
{
    row.lower(b as usize, values);
    row.read(b as usize, least);
}

// Lowers the floor at an activity, which is none yet, to what the carry-in brings there.
fn lower_first(
    book: &Book,
    steps: &StepTable,
    marks: &Marks,
    k: u32,
    b: u32,
    row: &mut FloorRow,
    values: &mut [i64],
    least: &mut [i64],
)
    requires steps { IsStepTableOf book.now steps.now }
    requires marks { AreMarksOf book.now marks.now }
    requires aircraft { k < aircraft book.now }
    requires activity { b < activities book.now }
    requires row { IsRowOf book.now row.old }
    requires none { floor_in row.old b ≡ None }
    requires width { length values.old ≡ length book.now.rules.counters }
    requires least { length least.old ≡ length book.now.rules.counters }
    ensures set { IsSetAt b (brought_first book.now marks.now.facts k b) row.old row.new }
    ensures copied { IsCopied row.new b least.new }
{
    start(book, k, values);
    if goes_to(book, steps, marks, k, Place::Carry, b, values) {
        lower_to(b, row, values, least);
    }
}

// Writes what the floor at one activity is after another one, and answers whether there is one and all stay within their
// limits.
fn steps_to(
    book: &Book,
    steps: &StepTable,
    k: u32,
    x: u32,
    b: u32,
    row: &FloorRow,
    values: &mut [i64],
) -> bool
    requires steps { IsStepTableOf book.now steps.now }
    requires aircraft { k < aircraft book.now }
    requires place { x < activities book.now }
    requires activity { b < activities book.now }
    requires row { IsRowOf book.now row.now }
    requires width { length values.old ≡ length book.now.rules.counters }
    ensures none { result ≡ false → (marks : List MarkFact) → brought book.now marks k b (floor_in row.now) x ≡ None }
    ensures some { result ≡ true → BringsWhereUsable book.now k x b row.now values.new }
    ensures range { IsFreeBefore book.now k (PlaceAfter x) b → IsTrue result → AreCounts values.new }
{
    row.read(x as usize, values) && step_by(book, steps, k, Place::After(x), b, values)
}

// Lowers the floor at an activity to what another one brings there by its own floor, and answers whether it became another.
fn lower_from(
    book: &Book,
    steps: &StepTable,
    marks: &Marks,
    k: u32,
    x: u32,
    b: u32,
    after: u32,
    row: &mut FloorRow,
    values: &mut [i64],
    least: &mut [i64],
) -> bool
    requires steps { IsStepTableOf book.now steps.now }
    requires marks { AreMarksOf book.now marks.now }
    requires aircraft { k < aircraft book.now }
    requires place { x < activities book.now }
    requires activity { b < activities book.now }
    requires row { IsRowOf book.now row.old }
    requires width { length values.old ≡ length book.now.rules.counters }
    requires least { length least.old ≡ length book.now.rules.counters }
    requires copied { IsCopied row.old b least.old }
    requires after { x < after → is_usable book.now marks.now.facts k (PlaceAfter x) b ≡ false }
    ensures set { IsSetAt b (lesser_floor (floor_in row.old b) (brought book.now marks.now.facts k b (floor_in row.old) x)) row.old row.new }
    ensures copied { IsCopied row.new b least.new }
{
    every_book_is_sound(book);
    brought_tells();
    usable_decides();
    links_leave_time();
    if x < after {
        return false;
    }
    if !steps_to(book, steps, k, x, b, row, values) {
        return false;
    }
    if row.has(b as usize) && !is_less(values, least) {
        return false;
    }
    if !marks.usable(book, k, Place::After(x), b) {
        return false;
    }
    lower_to(b, row, values, least);
    true
}

// Lowers the floor at an activity, which the carry-in has brought, to what its predecessors bring there.
fn lower_from_all(
    book: &Book,
    net: &Net,
    steps: &StepTable,
    marks: &Marks,
    k: u32,
    b: u32,
    after: u32,
    row: &mut FloorRow,
    values: &mut [i64],
    least: &mut [i64],
    had: bool,
    before: &[i64],
)
    requires net { net.now ≡ net_of book.now }
    requires steps { IsStepTableOf book.now steps.now }
    requires marks { AreMarksOf book.now marks.now }
    requires aircraft { k < aircraft book.now }
    requires activity { b < activities book.now }
    requires row { IsRowOf book.now row.old }
    requires width { length values.old ≡ length book.now.rules.counters }
    requires least { length least.old ≡ length book.now.rules.counters }
    requires before { length before.now ≡ length book.now.rules.counters }
    requires copied { IsCopied row.old b least.old }
    requires below { (a : ℕ) → a < b → floor_in row.old a ≡ floor_of book.now marks.now.facts k a }
    requires first { floor_in row.old b ≡ brought_first book.now marks.now.facts k b }
    requires after { IsCutOff book.now marks.now.facts k b after }
    requires low { had ≡ true → (high : List ℤ) → floor_of book.now marks.now.facts k b ≡ Some high → EachAtMost before.now high }
    ensures { IsSetAt b (floor_of book.now marks.now.facts k b) row.old row.new }
{
    every_book_is_sound(book);
    floors_are_least();
    predecessors_come_before();
    predecessors_bring_all();
    rows_for_each();
    lesser_in_any_order();
    if had && row.is(b as usize, before) {
        return;
    }
    let places = net.predecessors(b);
    for i in (0..places.len()).rev() {
        let lowered = lower_from(
            book, steps, marks, k, places[i], b, after, row, values, least,
        );
        if lowered && had && row.is(b as usize, before) {
            return;
        }
    }
}

/// Writes the floor at an activity, where those before it are written. If there was one before, it has not fallen.
pub fn put_floor_again(
    book: &Book,
    net: &Net,
    steps: &StepTable,
    marks: &Marks,
    k: u32,
    b: u32,
    after: u32,
    row: &mut FloorRow,
    values: &mut [i64],
    least: &mut [i64],
    had: bool,
    before: &[i64],
)
    requires net { net.now ≡ net_of book.now }
    requires steps { IsStepTableOf book.now steps.now }
    requires marks { AreMarksOf book.now marks.now }
    requires aircraft { k < aircraft book.now }
    requires activity { b < activities book.now }
    requires row { IsRowOf book.now row.old }
    requires width { length values.old ≡ length book.now.rules.counters }
    requires least { length least.old ≡ length book.now.rules.counters }
    requires before { length before.now ≡ length book.now.rules.counters }
    requires below { (a : ℕ) → a < b → floor_in row.old a ≡ floor_of book.now marks.now.facts k a }
    requires after { IsCutOff book.now marks.now.facts k b after }
    requires low { had ≡ true → (high : List ℤ) → floor_of book.now marks.now.facts k b ≡ Some high → EachAtMost before.now high }
    ensures { IsSetAt b (floor_of book.now marks.now.facts k b) row.old row.new }
{
    no_floor_without();
    row.clear(b as usize);
    if marks.alive(book, k, b) {
        lower_first(book, steps, marks, k, b, row, values, least);
        lower_from_all(
            book, net, steps, marks, k, b, after, row, values, least, had, before,
        );
    }
}
