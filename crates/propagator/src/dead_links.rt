//! Dead connections: links that some aircraft may use, and over which none can go on.
//!
//! A Cut of such a link leaves all floors, and nothing follows from it that did not follow before. So one pass over the
//! links of the network finds them all. Each that is suspect is judged, once. Only aircraft that are alive at its first
//! activity are asked, and the one first that went on over the link before. For most links that one goes on too, and the
//! question is answered by one step. Where the least of all floors is known, one step answers it for most dead ones too.

ghost use Rattle.std.specs.Prelude.{◌≡◌, ◌<◌, ◌↔◌, ℕ, true, false, IsTrue, OnOk, length};
ghost use Rattle.tail_book.specs.Lookup.{activities, aircraft};
ghost use Rattle.maint_counters.specs.inside.StepTable.{IsStepTableOf};
ghost use Rattle.connection_net.specs.Net.{net_of};
ghost use Rattle.branch_marks.specs.inside.MarkTables.{AreMarksOf};
ghost use Rattle.tail_book.specs.declared.place.Place.TheVariants.{After as PlaceAfter};
ghost use Rattle.branch_marks.specs.Following.{CannotGoBy, IsDeadConnection, IsShutForFloors};
ghost use Rattle.branch_marks.specs.Marks.{IsUsable};
ghost use Rattle.floor_rows.specs.inside.FloorRow.{IsRowOf};
ghost use Rattle.floor_rows.specs.inside.LeastOver.{floor_of};
ghost use Rattle.propagator.specs.inside.Rows.{AreRowsOf};
ghost use Rattle.propagator.specs.InTurn.{GrowInTurn};
ghost use Rattle.propagator.specs.inside.Lowest.{IsLowestOf, SomebodyUses};
ghost use Rattle.propagator.specs.inside.Suspects.{is_suspect};
ghost use Rattle.propagator.specs.inside.Cutting.{AreFloorsOf, NothingNewFollows};

use crate::added_facts::add_next;
use crate::laws::{cuts_make_nothing_follow, cuts_take_no_floor};
use crate::lowest::none_goes_over;
use crate::suspects::is_suspect;
use branch_marks::laws::{alive_decides, floors_count, usable_decides};
use branch_marks::{Fact, Marks};
use connection_net::Net;
use connection_net::laws::{rows_are_their_places, rows_for_each, successors_are_links};
use floor_rows::laws::{asking_passes_over, successors_are_of_book};
use floor_rows::{FloorRow, may_go_over};
use maint_counters::StepTable;
use tail_book::{Book, Memory, Place};

// Whether an aircraft may use a link and goes on over it.
fn goes_over(
    book: &Book,
    steps: &StepTable,
    marks: &Marks,
    k: u32,
    a: u32,
    b: u32,
    rows: &[FloorRow],
    values: &mut [i64],
) -> bool
    requires steps { IsStepTableOf book.now steps.now }
    requires marks { AreMarksOf book.now marks.now }
    requires aircraft { k < aircraft book.now }
    requires from { a < activities book.now }
    requires to { b < activities book.now }
    requires rows { AreRowsOf book.now rows.now }
    requires floors { AreFloorsOf book.now marks.now.facts rows.now }
    requires width { length values.old ≡ length book.now.rules.counters }
    ensures goes { result ≡ true → ¬ IsDeadConnection book.now marks.now.facts a b }
    ensures cannot { result ≡ false → IsUsable book.now marks.now.facts k (PlaceAfter a) b → CannotGoBy book.now k a b (floor_of book.now marks.now.facts k a) }
{
    marks.alive(book, k, b) && may_go_over(book, steps, marks, k, a, b, &rows[k as usize], values)
}

// Whether the aircraft that went on last, if there is one, goes on over a link too.
fn last_goes_over(
    book: &Book,
    steps: &StepTable,
    marks: &Marks,
    last: u32,
    a: u32,
    b: u32,
    rows: &[FloorRow],
    values: &mut [i64],
) -> bool
    requires steps { IsStepTableOf book.now steps.now }
    requires marks { AreMarksOf book.now marks.now }
    requires from { a < activities book.now }
    requires to { b < activities book.now }
    requires rows { AreRowsOf book.now rows.now }
    requires floors { AreFloorsOf book.now marks.now.facts rows.now }
    requires width { length values.old ≡ length book.now.rules.counters }
    ensures { result ≡ true → ¬ IsDeadConnection book.now marks.now.facts a b }
{
    (last as usize) < book.tails.len() && goes_over(book, steps, marks, last, a, b, rows, values)
}

// Whether some aircraft may use a link.
fn somebody_uses(book: &Book, marks: &Marks, a: u32, b: u32) -> bool
    requires marks { AreMarksOf book.now marks.now }
    requires from { a < activities book.now }
    requires to { b < activities book.now }
    ensures { IsTrue result ↔ SomebodyUses book.now marks.now.facts a b }
{
    alive_decides();
    usable_decides();
    let mut k = marks.next_alive(book, a, 0);
    while (k as usize) < book.tails.len() {
        if marks.usable(book, k, Place::After(a), b) {
            return true;
        }
        k = marks.next_alive(book, a, k + 1);
    }
    false
}

// Whether a link is a dead connection. Who goes on over it is noted, and asked first at the next link.
fn is_dead_link(
    book: &Book,
    steps: &StepTable,
    marks: &Marks,
    a: u32,
    b: u32,
    rows: &[FloorRow],
    lowest: &FloorRow,
    values: &mut [i64],
    last: &mut u32,
) -> bool
    requires steps { IsStepTableOf book.now steps.now }
    requires marks { AreMarksOf book.now marks.now }
    requires from { a < activities book.now }
    requires to { b < activities book.now }
    requires rows { AreRowsOf book.now rows.now }
    requires lowest { IsRowOf book.now lowest.now }
    requires least { IsLowestOf book.now rows.now lowest.now }
    requires floors { AreFloorsOf book.now marks.now.facts rows.now }
    requires width { length values.old ≡ length book.now.rules.counters }
    ensures { IsTrue result ↔ IsDeadConnection book.now marks.now.facts a b }
{
    asking_passes_over();
    usable_decides();
    marks.facts_are_of_book(book);
    if last_goes_over(book, steps, marks, *last, a, b, rows, values) {
        return false;
    }
    if marks.has(Fact::Cut(a, b)) {
        return false;
    }
    if none_goes_over(book, steps, a, b, rows, lowest, values) {
        return somebody_uses(book, marks, a, b);
    }
    let mut used = false;
    let mut k = marks.next_alive(book, a, 0);
    while (k as usize) < book.tails.len() {
        if goes_over(book, steps, marks, k, a, b, rows, values) {
            *last = k;
            return false;
        }
        used = used || marks.usable(book, k, Place::After(a), b);
        k = marks.next_alive(book, a, k + 1);
    }
    used
}

// Cuts a link where it is a dead connection.
fn cut_link(
    book: &Book,
    steps: &StepTable,
    marks: &mut Marks,
    facts: &mut Vec<Fact>,
    a: u32,
    b: u32,
    rows: &[FloorRow],
    lowest: &FloorRow,
    values: &mut [i64],
    last: &mut u32,
) -> Result<(), Memory>
    requires steps { IsStepTableOf book.now steps.now }
    requires marks { AreMarksOf book.now marks.old }
    requires from { a < activities book.now }
    requires to { b < activities book.now }
    requires rows { AreRowsOf book.now rows.now }
    requires lowest { IsRowOf book.now lowest.now }
    requires least { IsLowestOf book.now rows.now lowest.now }
    requires floors { AreFloorsOf book.now marks.old.facts rows.now }
    requires shut { IsShutForFloors book.now marks.old.facts }
    requires width { length values.old ≡ length book.now.rules.counters }
    ensures marks { AreMarksOf book.now marks.new }
    ensures grows { GrowInTurn book.now marks.old.facts marks.new.facts facts.old.items facts.new.items }
    ensures floors { AreFloorsOf book.now marks.new.facts rows.now }
    ensures nothing { NothingNewFollows book.now marks.old.facts marks.new.facts }
    ensures cut { OnOk result (¬ IsDeadConnection book.now marks.new.facts a b) }
{
    floors_count();
    cuts_take_no_floor();
    cuts_make_nothing_follow();
    if !is_dead_link(book, steps, marks, a, b, rows, lowest, values, last) {
        return Ok(());
    }
    add_next(book, marks, facts, Fact::Cut(a, b))
}

// Cuts a link where it is suspect, and a dead connection.
fn cut_suspect(
    book: &Book,
    steps: &StepTable,
    marks: &mut Marks,
    facts: &mut Vec<Fact>,
    a: u32,
    b: u32,
    leave: &[bool],
    arrive: &[bool],
    pass: &[u32],
    rows: &[FloorRow],
    lowest: &FloorRow,
    values: &mut [i64],
    last: &mut u32,
) -> Result<(), Memory>
    requires steps { IsStepTableOf book.now steps.now }
    requires marks { AreMarksOf book.now marks.old }
    requires from { a < activities book.now }
    requires to { b < activities book.now }
    requires rows { AreRowsOf book.now rows.now }
    requires lowest { IsRowOf book.now lowest.now }
    requires least { IsLowestOf book.now rows.now lowest.now }
    requires floors { AreFloorsOf book.now marks.old.facts rows.now }
    requires shut { IsShutForFloors book.now marks.old.facts }
    requires leave { length leave.now ≡ activities book.now }
    requires arrive { length arrive.now ≡ activities book.now }
    requires pass { length pass.now ≡ activities book.now }
    requires others { is_suspect leave.now arrive.now pass.now a b ≡ false → ¬ IsDeadConnection book.now marks.old.facts a b }
    requires width { length values.old ≡ length book.now.rules.counters }
    ensures marks { AreMarksOf book.now marks.new }
    ensures grows { GrowInTurn book.now marks.old.facts marks.new.facts facts.old.items facts.new.items }
    ensures floors { AreFloorsOf book.now marks.new.facts rows.now }
    ensures nothing { NothingNewFollows book.now marks.old.facts marks.new.facts }
    ensures cut { OnOk result (¬ IsDeadConnection book.now marks.new.facts a b) }
{
    if !is_suspect(a, b, leave, arrive, pass) {
        return Ok(());
    }
    cut_link(book, steps, marks, facts, a, b, rows, lowest, values, last)
}

// Cuts each dead connection from an activity.
fn cut_links_of(
    book: &Book,
    net: &Net,
    steps: &StepTable,
    marks: &mut Marks,
    facts: &mut Vec<Fact>,
    a: u32,
    leave: &[bool],
    arrive: &[bool],
    pass: &[u32],
    rows: &[FloorRow],
    lowest: &FloorRow,
    values: &mut [i64],
) -> Result<(), Memory>
    requires net { net.now ≡ net_of book.now }
    requires steps { IsStepTableOf book.now steps.now }
    requires marks { AreMarksOf book.now marks.old }
    requires activity { a < activities book.now }
    requires rows { AreRowsOf book.now rows.now }
    requires lowest { IsRowOf book.now lowest.now }
    requires least { IsLowestOf book.now rows.now lowest.now }
    requires floors { AreFloorsOf book.now marks.old.facts rows.now }
    requires shut { IsShutForFloors book.now marks.old.facts }
    requires leave { length leave.now ≡ activities book.now }
    requires arrive { length arrive.now ≡ activities book.now }
    requires pass { length pass.now ≡ activities book.now }
    requires others { (b : ℕ) → is_suspect leave.now arrive.now pass.now a b ≡ false → ¬ IsDeadConnection book.now marks.old.facts a b }
    requires width { length values.old ≡ length book.now.rules.counters }
    ensures marks { AreMarksOf book.now marks.new }
    ensures grows { GrowInTurn book.now marks.old.facts marks.new.facts facts.old.items facts.new.items }
    ensures floors { AreFloorsOf book.now marks.new.facts rows.now }
    ensures nothing { NothingNewFollows book.now marks.old.facts marks.new.facts }
    ensures cut { OnOk result ((b : ℕ) → ¬ IsDeadConnection book.now marks.new.facts a b) }
{
    rows_for_each();
    successors_are_of_book();
    successors_are_links();
    rows_are_their_places();
    let mut last = u32::MAX;
    for b in net.successors(a) {
        cut_suspect(
            book, steps, marks, facts, a, *b, leave, arrive, pass, rows, lowest, values, &mut last,
        )?;
    }
    Ok(())
}

/// Cuts each dead connection, where none is that is not suspect.
pub fn cut_links(
    book: &Book,
    net: &Net,
    steps: &StepTable,
    marks: &mut Marks,
    facts: &mut Vec<Fact>,
    leave: &[bool],
    arrive: &[bool],
    pass: &[u32],
    rows: &[FloorRow],
    lowest: &FloorRow,
    values: &mut [i64],
) -> Result<(), Memory>
    requires net { net.now ≡ net_of book.now }
    requires steps { IsStepTableOf book.now steps.now }
    requires marks { AreMarksOf book.now marks.old }
    requires rows { AreRowsOf book.now rows.now }
    requires lowest { IsRowOf book.now lowest.now }
    requires least { IsLowestOf book.now rows.now lowest.now }
    requires floors { AreFloorsOf book.now marks.old.facts rows.now }
    requires shut { IsShutForFloors book.now marks.old.facts }
    requires leave { length leave.now ≡ activities book.now }
    requires arrive { length arrive.now ≡ activities book.now }
    requires pass { length pass.now ≡ activities book.now }
    requires others { (a b : ℕ) → is_suspect leave.now arrive.now pass.now a b ≡ false → ¬ IsDeadConnection book.now marks.old.facts a b }
    requires width { length values.old ≡ length book.now.rules.counters }
    ensures marks { AreMarksOf book.now marks.new }
    ensures grows { GrowInTurn book.now marks.old.facts marks.new.facts facts.old.items facts.new.items }
    ensures floors { AreFloorsOf book.now marks.new.facts rows.now }
    ensures nothing { NothingNewFollows book.now marks.old.facts marks.new.facts }
    ensures cut { OnOk result ((a b : ℕ) → ¬ IsDeadConnection book.now marks.new.facts a b) }
{
    for a in 0..book.activities.len() as u32 {
        cut_links_of(
            book, net, steps, marks, facts, a, leave, arrive, pass, rows, lowest, values,
        )?;
    }
    Ok(())
}
