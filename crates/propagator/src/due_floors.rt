//! Renewing the floors of an aircraft that are due, in order of the activities.
//!
//! A floor that comes out as it was leaves all behind it alone. Where one is another, those of its successors are due: they
//! have larger numbers, so their turn is still to come. And it is to be asked whether the aircraft can still go on from it.

ghost use Rattle.std.specs.Prelude.{◌≡◌, ◌<◌, ◌+◌, ℕ, false, length};
ghost use Rattle.tail_book.specs.Lookup.{activities, aircraft};
ghost use Rattle.maint_counters.specs.inside.StepTable.{IsStepTableOf};
ghost use Rattle.connection_net.specs.Net.{net_of};
ghost use Rattle.branch_marks.specs.inside.MarkTables.{AreMarksOf};
ghost use Rattle.branch_marks.specs.Floors.{floors};
ghost use Rattle.floor_rows.specs.inside.FloorRow.{floor_in, IsSetAt, IsRowOf};
ghost use Rattle.floor_rows.specs.inside.LeastOver.{floor_of};
ghost use Rattle.propagator.specs.inside.Moves.{MovesFloors};
ghost use Rattle.propagator.specs.inside.CutOff.{IsCutOff};
ghost use Rattle.propagator.specs.inside.Rising.{IsLowRow};
ghost use Rattle.propagator.specs.inside.Touching.{IsAskedBelow, IsRenewing, IsTouched};

use crate::flags::{set, set_all};
use crate::laws::musts_cut_off;
use crate::lowering::put_floor_again;
use branch_marks::Marks;
use branch_marks::laws::{alive_decides, floors_count, may_end_decides, usable_decides};
use connection_net::Net;
use connection_net::laws::{predecessors_are_links, rows_for_each, successors_are_links};
use floor_rows::FloorRow;
use floor_rows::laws::{brought_tells, floors_are_least, successors_are_of_book};
use maint_counters::StepTable;
use tail_book::Book;
use tail_book::laws::each_at_most_itself;

// The last Must of an aircraft before an activity, looked for from one on; that one where there is none.
fn last_must(book: &Book, marks: &Marks, k: u32, b: u32, from: u32) -> u32
    requires marks { AreMarksOf book.now marks.now }
    requires aircraft { k < aircraft book.now }
    requires activity { b < activities book.now }
    requires from { IsCutOff book.now marks.now.facts k b from }
    ensures { IsCutOff book.now marks.now.facts k b result }
{
    musts_cut_off();
    let mut last = from;
    let mut c = marks.next_must(k, from);
    while c < b {
        last = c;
        c = marks.next_must(k, c + 1);
    }
    last
}

// Writes the floor at an activity, and answers whether it may be another than before.
fn rewrite(
    book: &Book,
    net: &Net,
    steps: &StepTable,
    marks: &Marks,
    k: u32,
    b: u32,
    after: u32,
    row: &mut FloorRow,
    values: &mut [i64],
    least: &mut [i64],
    before: &mut [i64],
) -> bool
    requires net { net.now ≡ net_of book.now }
    requires steps { IsStepTableOf book.now steps.now }
    requires marks { AreMarksOf book.now marks.now }
    requires aircraft { k < aircraft book.now }
    requires activity { b < activities book.now }
    requires row { IsRowOf book.now row.old }
    requires below { (a : ℕ) → a < b → floor_in row.old a ≡ floor_of book.now marks.now.facts k a }
    requires after { IsCutOff book.now marks.now.facts k b after }
    requires low { IsLowRow book.now marks.now.facts k row.old }
    requires width { length values.old ≡ length book.now.rules.counters }
    requires least { length least.old ≡ length book.now.rules.counters }
    requires before { length before.old ≡ length book.now.rules.counters }
    ensures set { IsSetAt b (floor_of book.now marks.now.facts k b) row.old row.new }
    ensures same { result ≡ false → floor_in row.new b ≡ floor_in row.old b }
{
    let had = row.read(b as usize, before);
    put_floor_again(
        book, net, steps, marks, k, b, after, row, values, least, had, before,
    );
    if had {
        !row.is(b as usize, before)
    } else {
        row.has(b as usize)
    }
}

// Renews the floor at an activity where it is due, and flags what this touches.
fn renew_floor(
    book: &Book,
    net: &Net,
    steps: &StepTable,
    marks: &Marks,
    k: u32,
    b: u32,
    after: &mut u32,
    row: &mut FloorRow,
    due: &mut [bool],
    ask: &mut [bool],
    moved: &mut [bool],
    values: &mut [i64],
    least: &mut [i64],
    before: &mut [i64],
)
    requires net { net.now ≡ net_of book.now }
    requires steps { IsStepTableOf book.now steps.now }
    requires marks { AreMarksOf book.now marks.now }
    requires aircraft { k < aircraft book.now }
    requires activity { b < activities book.now }
    requires due { length due.old ≡ activities book.now }
    requires ask { length ask.old ≡ activities book.now }
    requires moved { length moved.old ≡ activities book.now }
    requires renewing { IsRenewing book.now marks.now.facts k b row.old due.old ask.old }
    requires after { IsCutOff book.now marks.now.facts k b after.old }
    requires low { IsLowRow book.now marks.now.facts k row.old }
    requires width { length values.old ≡ length book.now.rules.counters }
    requires least { length least.old ≡ length book.now.rules.counters }
    requires before { length before.old ≡ length book.now.rules.counters }
    ensures renewing { IsRenewing book.now marks.now.facts k (b + 1) row.new due.new ask.new }
    ensures after { IsCutOff book.now marks.now.facts k (b + 1) after.new }
    ensures low { IsLowRow book.now marks.now.facts k row.new }
    ensures moves { MovesFloors moved.old moved.new row.old row.new }
{
    rows_for_each();
    successors_are_of_book();
    successors_are_links();
    predecessors_are_links();
    usable_decides();
    may_end_decides();
    floors_are_least();
    brought_tells();
    each_at_most_itself();
    if !due[b as usize] {
        return;
    }
    *after = last_must(book, marks, k, b, *after);
    if !rewrite(
        book, net, steps, marks, k, b, *after, row, values, least, before,
    ) {
        return;
    }
    set_all(net.successors(b), due);
    set(b, ask);
    set(b, moved);
}

/// Renews the floors of an aircraft that are due, and flags what may be dead by them, and which are others now.
pub fn renew_floors(
    book: &Book,
    net: &Net,
    steps: &StepTable,
    marks: &Marks,
    k: u32,
    row: &mut FloorRow,
    due: &mut [bool],
    ask: &mut [bool],
    moved: &mut [bool],
    values: &mut [i64],
    least: &mut [i64],
    before: &mut [i64],
)
    requires net { net.now ≡ net_of book.now }
    requires steps { IsStepTableOf book.now steps.now }
    requires marks { AreMarksOf book.now marks.now }
    requires aircraft { k < aircraft book.now }
    requires row { IsRowOf book.now row.old }
    requires due { length due.old ≡ activities book.now }
    requires ask { length ask.old ≡ activities book.now }
    requires moved { length moved.old ≡ activities book.now }
    requires touched { IsTouched book.now marks.now.facts k row.old due.old ask.old }
    requires low { IsLowRow book.now marks.now.facts k row.old }
    requires width { length values.old ≡ length book.now.rules.counters }
    requires least { length least.old ≡ length book.now.rules.counters }
    requires before { length before.old ≡ length book.now.rules.counters }
    ensures row { IsRowOf book.now row.new }
    ensures moves { MovesFloors moved.old moved.new row.old row.new }
    ensures floors { row.new.floors ≡ floors book.now marks.now.facts k }
    ensures asked { IsAskedBelow book.now marks.now.facts k (activities book.now) ask.new }
{
    floors_count();
    alive_decides();
    let mut after = 0;
    for b in 0..book.activities.len() as u32 {
        renew_floor(
            book, net, steps, marks, k, b, &mut after, row, due, ask, moved, values, least, before,
        );
    }
}
