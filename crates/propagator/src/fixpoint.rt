//! Propagation: all facts that follow from marks are added to them.
//!
//! What follows for an aircraft from its floors comes first, for each aircraft by itself. Then an only carrier is given its
//! activity, and that aircraft alone is settled again, until no activity has an only carrier that no Must names. The dead
//! connections come last: from a Cut of one nothing follows that did not follow before. So the marks are then shut.
//! A pass over an aircraft takes a step for each of its usable links at most, and the last pass one or a few for each link
//! that may be dead since marks were shut.

ghost use Rattle.std.specs.Prelude.{◌≡◌, IfOk, OnOk};
ghost use Rattle.maint_counters.specs.inside.StepTable.{IsStepTableOf};
ghost use Rattle.connection_net.specs.Net.{net_of};
ghost use Rattle.branch_marks.specs.inside.MarkTables.{AreMarksOf};
ghost use Rattle.branch_marks.specs.Following.{IsShut};
ghost use Rattle.propagator.specs.inside.Rows.{AreRowsOf};
ghost use Rattle.propagator.specs.InTurn.{GrowInTurn};
ghost use Rattle.propagator.specs.Keeping.{KeepsSeen};
ghost use Rattle.propagator.specs.inside.Cutting.{AreFloorsOf};
ghost use Rattle.propagator.specs.inside.Work.{IsWorkOf};

use crate::carriers::carry_all;
use crate::dead_links::cut_links;
use crate::flags::clear;
use crate::lowest::note_lowest;
use crate::settled_aircraft::settle_all;
use crate::suspects::suspect_links;
use crate::work::Work;
use branch_marks::laws::{alive_decides, usable_decides};
use branch_marks::{Fact, Marks};
use connection_net::Net;
use floor_rows::FloorRow;
use maint_counters::StepTable;
use std::alloc::Global;
use tail_book::laws::{every_book_is_sound, limits_decide};
use tail_book::{Book, Memory};

/// Rows for the floors of all aircraft.
pub fn all_rows(alloc: Global, book: &Book) -> Result<Vec<FloorRow>, Memory>
    ensures { IfOk result (λ rows. AreRowsOf book.now rows.items) }
{
    every_book_is_sound(book);
    let mut rows = Vec::new(alloc);
    for _k in 0..book.tails.len() {
        let row = FloorRow::new(alloc, book.activities.len(), book.rules.counters.len())?;
        rows.push(row)?;
    }
    Ok(rows)
}

/// Adds all that follows, where rows have the floors that so many of the facts leave, or nothing was seen yet.
pub fn close_with(
    book: &Book,
    net: &Net,
    steps: &StepTable,
    marks: &mut Marks,
    facts: &mut Vec<Fact>,
    seen: Option<usize>,
    rows: &mut [FloorRow],
    work: &mut Work,
) -> Result<(), Memory>
    requires net { net.now ≡ net_of book.now }
    requires steps { IsStepTableOf book.now steps.now }
    requires marks { AreMarksOf book.now marks.old }
    requires rows { AreRowsOf book.now rows.old }
    requires seen { KeepsSeen book.now marks.old.facts rows.old seen }
    requires work { IsWorkOf book.now work.old }
    ensures marks { AreMarksOf book.now marks.new }
    ensures grows { GrowInTurn book.now marks.old.facts marks.new.facts facts.old.items facts.new.items }
    ensures shut { OnOk result (IsShut book.now marks.new.facts) }
    ensures rows { AreRowsOf book.now rows.new }
    ensures work { IsWorkOf book.now work.new }
    ensures floors { OnOk result (AreFloorsOf book.now marks.new.facts rows.new) }
{
    alive_decides();
    usable_decides();
    limits_decide();
    clear(&mut work.leave);
    settle_all(book, net, steps, marks, facts, seen, rows, work)?;
    carry_all(book, net, steps, marks, facts, rows, work)?;
    suspect_links(book, marks, seen, work);
    note_lowest(book, seen, rows, &mut work.lowest, &mut work.values);
    cut_links(
        book,
        net,
        steps,
        marks,
        facts,
        &work.leave,
        &work.arrive,
        &work.pass,
        rows,
        &work.lowest,
        &mut work.values,
    )
}
