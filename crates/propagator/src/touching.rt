//! What facts touch of one aircraft: only there may a floor have changed, or an activity be dead that was not.
//!
//! An activity that the aircraft loses brings nothing any more to its successors, and does not take on what comes from its
//! predecessors. A Must of its own takes all links over it, and the ends before it. A Cut and a Tie take the links that
//! they part. Nothing else changes for it.

ghost use Rattle.std.specs.Prelude.{◌≡◌, ◌<◌, ◌≤◌, ℕ, None, All, length, take};
ghost use Rattle.tail_book.specs.Lookup.{activities, aircraft};
ghost use Rattle.connection_net.specs.Net.{net_of};
ghost use Rattle.branch_marks.specs.declared.fact.Fact.TheVariants.{Bar as FactBar, Must as FactMust, Cut as FactCut, Tie as FactTie};
ghost use Rattle.branch_marks.specs.Facts.{IsFactOf};
ghost use Rattle.branch_marks.specs.inside.MarkTables.{AreMarksOf};
ghost use Rattle.floor_rows.specs.inside.FloorRow.{floor_in, IsRowOf};
ghost use Rattle.propagator.specs.inside.Moves.{LosesFloors};
ghost use Rattle.propagator.specs.inside.Rising.{IsLowRow};
ghost use Rattle.propagator.specs.inside.Touching.{IsTouched, IsReadyFor, Touches, TouchesLost};

use crate::flags::{clear, set, set_all, set_each, set_from};
use crate::laws::{bars_leave_others, floors_rise};
use branch_marks::laws::{alive_decides, may_end_decides, usable_decides};
use branch_marks::{Fact, Marks};
use connection_net::Net;
use connection_net::laws::{predecessors_are_links, rows_for_each, successors_are_links};
use floor_rows::FloorRow;
use floor_rows::laws::{
    brought_tells, floors_are_least, predecessors_are_of_book, successors_are_of_book,
};
use tail_book::Book;
use tail_book::laws::every_book_is_sound;

// An aircraft loses an activity. Where it could not come there, and nothing was to be asked, it did not have it.
fn lose(
    book: &Book,
    net: &Net,
    k: u32,
    c: u32,
    row: &mut FloorRow,
    due: &mut [bool],
    ask: &mut [bool],
)
    requires net { net.now ≡ net_of book.now }
    requires aircraft { k < aircraft book.now }
    requires activity { c < activities book.now }
    requires row { IsRowOf book.now row.old }
    requires due { length due.old ≡ activities book.now }
    requires ask { length ask.old ≡ activities book.now }
    ensures row { IsRowOf book.now row.new }
    ensures loses { LosesFloors row.old row.new }
    ensures touches { TouchesLost book.now k c row.old due.old ask.old row.new due.new ask.new }
{
    rows_for_each();
    successors_are_of_book();
    predecessors_are_of_book();
    successors_are_links();
    predecessors_are_links();
    usable_decides();
    may_end_decides();
    brought_tells();
    if !row.has(c as usize) && !ask[c as usize] {
        return;
    }
    row.clear(c as usize);
    set_all(net.successors(c), due);
    set_all(net.predecessors(c), ask);
}

// A Bar touches its aircraft.
fn touch_bar(
    book: &Book,
    net: &Net,
    k: u32,
    j: u32,
    c: u32,
    row: &mut FloorRow,
    due: &mut [bool],
    ask: &mut [bool],
)
    requires net { net.now ≡ net_of book.now }
    requires aircraft { k < aircraft book.now }
    requires activity { c < activities book.now }
    requires row { IsRowOf book.now row.old }
    requires due { length due.old ≡ activities book.now }
    requires ask { length ask.old ≡ activities book.now }
    ensures row { IsRowOf book.now row.new }
    ensures loses { LosesFloors row.old row.new }
    ensures touches { Touches book.now k (FactBar j c) row.old due.old ask.old row.new due.new ask.new }
{
    bars_leave_others();
    usable_decides();
    may_end_decides();
    brought_tells();
    if j == k {
        lose(book, net, k, c, row, due, ask);
    }
}

// A Must touches its aircraft, and all who lose the activity.
fn touch_must(
    book: &Book,
    net: &Net,
    k: u32,
    j: u32,
    c: u32,
    row: &mut FloorRow,
    due: &mut [bool],
    ask: &mut [bool],
)
    requires net { net.now ≡ net_of book.now }
    requires aircraft { k < aircraft book.now }
    requires activity { c < activities book.now }
    requires row { IsRowOf book.now row.old }
    requires due { length due.old ≡ activities book.now }
    requires ask { length ask.old ≡ activities book.now }
    ensures row { IsRowOf book.now row.new }
    ensures loses { LosesFloors row.old row.new }
    ensures touches { Touches book.now k (FactMust j c) row.old due.old ask.old row.new due.new ask.new }
{
    usable_decides();
    may_end_decides();
    brought_tells();
    if j == k {
        set_from(c as usize + 1, due);
        set_each(ask);
    } else {
        lose(book, net, k, c, row, due, ask);
    }
}

// A Cut touches whoever comes to its first activity.
fn touch_cut(
    book: &Book,
    k: u32,
    c: u32,
    d: u32,
    row: &FloorRow,
    due: &mut [bool],
    ask: &mut [bool],
)
    requires first { c < activities book.now }
    requires second { d < activities book.now }
    requires due { length due.old ≡ activities book.now }
    requires ask { length ask.old ≡ activities book.now }
    ensures { Touches book.now k (FactCut c d) row.now due.old ask.old row.now due.new ask.new }
{
    usable_decides();
    may_end_decides();
    brought_tells();
    set(d, due);
    set(c, ask);
}

// A Tie touches whoever comes to one of its activities.
fn touch_tie(
    book: &Book,
    net: &Net,
    k: u32,
    c: u32,
    d: u32,
    row: &FloorRow,
    due: &mut [bool],
    ask: &mut [bool],
)
    requires net { net.now ≡ net_of book.now }
    requires first { c < activities book.now }
    requires second { d < activities book.now }
    requires due { length due.old ≡ activities book.now }
    requires ask { length ask.old ≡ activities book.now }
    ensures { Touches book.now k (FactTie c d) row.now due.old ask.old row.now due.new ask.new }
{
    rows_for_each();
    successors_are_of_book();
    predecessors_are_of_book();
    successors_are_links();
    predecessors_are_links();
    usable_decides();
    may_end_decides();
    brought_tells();
    set_all(net.successors(c), due);
    set(d, due);
    set_all(net.predecessors(d), ask);
    set(c, ask);
}

// Flags what a fact touches of an aircraft.
fn touch(
    book: &Book,
    net: &Net,
    k: u32,
    fact: Fact,
    row: &mut FloorRow,
    due: &mut [bool],
    ask: &mut [bool],
)
    requires net { net.now ≡ net_of book.now }
    requires aircraft { k < aircraft book.now }
    requires fact { IsFactOf book.now fact }
    requires row { IsRowOf book.now row.old }
    requires due { length due.old ≡ activities book.now }
    requires ask { length ask.old ≡ activities book.now }
    ensures row { IsRowOf book.now row.new }
    ensures loses { LosesFloors row.old row.new }
    ensures touches { Touches book.now k fact row.old due.old ask.old row.new due.new ask.new }
{
    match fact {
        Fact::Bar(j, c) => touch_bar(book, net, k, j, c, row, due, ask),
        Fact::Must(j, c) => touch_must(book, net, k, j, c, row, due, ask),
        Fact::Cut(c, d) => touch_cut(book, k, c, d, row, due, ask),
        Fact::Tie(c, d) => touch_tie(book, net, k, c, d, row, due, ask),
    }
}

// Flags what the facts from a number on touch of an aircraft.
fn touch_each(
    book: &Book,
    net: &Net,
    marks: &Marks,
    from: usize,
    k: u32,
    row: &mut FloorRow,
    due: &mut [bool],
    ask: &mut [bool],
)
    requires net { net.now ≡ net_of book.now }
    requires facts { All (IsFactOf book.now) marks.now.facts }
    requires from { from ≤ length marks.now.facts }
    requires aircraft { k < aircraft book.now }
    requires row { IsRowOf book.now row.old }
    requires due { length due.old ≡ activities book.now }
    requires ask { length ask.old ≡ activities book.now }
    requires touched { IsTouched book.now (take from marks.now.facts) k row.old due.old ask.old }
    ensures row { IsRowOf book.now row.new }
    ensures loses { LosesFloors row.old row.new }
    ensures touched { IsTouched book.now marks.now.facts k row.new due.new ask.new }
{
    for i in from..marks.mark() {
        touch(book, net, k, marks.fact_at(i), row, due, ask);
    }
}

// Takes all floors away: they are of other marks.
fn lose_floors(book: &Book, row: &mut FloorRow)
    requires row { IsRowOf book.now row.old }
    ensures row { IsRowOf book.now row.new }
    ensures loses { LosesFloors row.old row.new }
    ensures none { (a : ℕ) → a < activities book.now → floor_in row.new a ≡ None }
{
    for a in 0..book.activities.len() {
        row.clear(a);
    }
}

/// Flags what the facts that were not seen yet touch of an aircraft: all, where none was seen.
pub fn touch_since(
    book: &Book,
    net: &Net,
    marks: &Marks,
    seen: Option<usize>,
    k: u32,
    row: &mut FloorRow,
    due: &mut [bool],
    ask: &mut [bool],
)
    requires net { net.now ≡ net_of book.now }
    requires marks { AreMarksOf book.now marks.now }
    requires aircraft { k < aircraft book.now }
    requires row { IsRowOf book.now row.old }
    requires due { length due.old ≡ activities book.now }
    requires ask { length ask.old ≡ activities book.now }
    requires ready { IsReadyFor book.now marks.now.facts k row.old.floors seen }
    ensures row { IsRowOf book.now row.new }
    ensures loses { LosesFloors row.old row.new }
    ensures touched { IsTouched book.now marks.now.facts k row.new due.new ask.new }
    ensures low { IsLowRow book.now marks.now.facts k row.new }
{
    every_book_is_sound(book);
    alive_decides();
    floors_are_least();
    floors_rise();
    brought_tells();
    marks.facts_are_of_book(book);
    match seen {
        None => {
            lose_floors(book, row);
            set_each(due);
            set_each(ask);
        }
        Some(from) => {
            clear(due);
            clear(ask);
            touch_each(book, net, marks, from, k, row, due, ask);
        }
    }
}
