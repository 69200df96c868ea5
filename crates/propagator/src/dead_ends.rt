//! What is dead for an aircraft: activities that are alive for it, where it never comes, or can neither end its route nor
//! go on.
//!
//! What goes on from an activity leads to larger numbers, so one pass from the last activity to the first finds them all:
//! with a Bar at most what led there is dead too, and that comes later in the pass. Only what is to be asked is looked at,
//! and takes a step for each of its successors until one goes on.

ghost use Rattle.std.specs.Prelude.{◌≡◌, ◌<◌, ◌+◌, OnOk, length};
ghost use Rattle.tail_book.specs.Lookup.{activities, aircraft};
ghost use Rattle.maint_counters.specs.inside.StepTable.{IsStepTableOf};
ghost use Rattle.connection_net.specs.Net.{net_of};
ghost use Rattle.branch_marks.specs.inside.MarkTables.{AreMarksOf};
ghost use Rattle.branch_marks.specs.Floors.{floors};
ghost use Rattle.floor_rows.specs.inside.FloorRow.{IsRowOf};
ghost use Rattle.propagator.specs.InTurn.{GrowInTurn};
ghost use Rattle.propagator.specs.inside.Settling.{ActsOn, IsSettledFor};
ghost use Rattle.propagator.specs.inside.Moves.{LosesFloors};
ghost use Rattle.propagator.specs.inside.Touching.{IsAskedBelow};

use crate::added_facts::add_bar;
use crate::flags::set_all;
use crate::laws::{bars_kill_nothing_later, bars_kill_predecessors, bars_take_one_floor};
use branch_marks::laws::{alive_decides, floors_count};
use branch_marks::{Fact, Marks};
use connection_net::Net;
use connection_net::laws::rows_for_each;
use floor_rows::laws::predecessors_are_of_book;
use floor_rows::{FloorRow, is_dead};
use maint_counters::StepTable;
use tail_book::laws::every_book_is_sound;
use tail_book::{Book, Memory};

// Bars an aircraft from an activity that is dead, and takes its floor.
fn bar_if_dead(
    book: &Book,
    net: &Net,
    steps: &StepTable,
    marks: &mut Marks,
    facts: &mut Vec<Fact>,
    k: u32,
    a: u32,
    row: &mut FloorRow,
    ask: &mut [bool],
    values: &mut [i64],
) -> Result<(), Memory>
    requires net { net.now ≡ net_of book.now }
    requires steps { IsStepTableOf book.now steps.now }
    requires marks { AreMarksOf book.now marks.old }
    requires aircraft { k < aircraft book.now }
    requires activity { a < activities book.now }
    requires row { IsRowOf book.now row.old }
    requires floors { row.old.floors ≡ floors book.now marks.old.facts k }
    requires ask { length ask.old ≡ activities book.now }
    requires asked { IsAskedBelow book.now marks.old.facts k (a + 1) ask.old }
    requires width { length values.old ≡ length book.now.rules.counters }
    ensures marks { AreMarksOf book.now marks.new }
    ensures grows { GrowInTurn book.now marks.old.facts marks.new.facts facts.old.items facts.new.items }
    ensures acts { ActsOn book.now k marks.old.facts marks.new.facts }
    ensures width { row.new.width ≡ row.old.width }
    ensures loses { LosesFloors row.old row.new }
    ensures floors { row.new.floors ≡ floors book.now marks.new.facts k }
    ensures asked { OnOk result (IsAskedBelow book.now marks.new.facts k a ask.new) }
{
    every_book_is_sound(book);
    floors_count();
    alive_decides();
    rows_for_each();
    predecessors_are_of_book();
    bars_take_one_floor();
    bars_kill_nothing_later();
    bars_kill_predecessors();
    if !ask[a as usize] {
        return Ok(());
    }
    if !is_dead(book, net, steps, marks, k, a, row, values) {
        return Ok(());
    }
    add_bar(book, marks, facts, k, a)?;
    row.clear(a as usize);
    set_all(net.predecessors(a), ask);
    Ok(())
}

/// Bars an aircraft from each activity that is dead for it, and takes their floors.
pub fn bar_dead(
    book: &Book,
    net: &Net,
    steps: &StepTable,
    marks: &mut Marks,
    facts: &mut Vec<Fact>,
    k: u32,
    row: &mut FloorRow,
    ask: &mut [bool],
    values: &mut [i64],
) -> Result<(), Memory>
    requires net { net.now ≡ net_of book.now }
    requires steps { IsStepTableOf book.now steps.now }
    requires marks { AreMarksOf book.now marks.old }
    requires aircraft { k < aircraft book.now }
    requires row { IsRowOf book.now row.old }
    requires floors { row.old.floors ≡ floors book.now marks.old.facts k }
    requires ask { length ask.old ≡ activities book.now }
    requires asked { IsAskedBelow book.now marks.old.facts k (activities book.now) ask.old }
    requires width { length values.old ≡ length book.now.rules.counters }
    ensures marks { AreMarksOf book.now marks.new }
    ensures grows { GrowInTurn book.now marks.old.facts marks.new.facts facts.old.items facts.new.items }
    ensures acts { ActsOn book.now k marks.old.facts marks.new.facts }
    ensures width { row.new.width ≡ row.old.width }
    ensures loses { LosesFloors row.old row.new }
    ensures floors { row.new.floors ≡ floors book.now marks.new.facts k }
    ensures settled { OnOk result (IsSettledFor book.now marks.new.facts k) }
{
    floors_count();
    for a in (0..book.activities.len() as u32).rev() {
        bar_if_dead(book, net, steps, marks, facts, k, a, row, ask, values)?;
    }
    Ok(())
}
