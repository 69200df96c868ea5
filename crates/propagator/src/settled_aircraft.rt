//! Settling an aircraft: all is added that follows for it from its floors.
//!
//! The facts that it has not seen tell what is to be looked at. Its floors come first, as far as they are due, and then
//! what is dead by them, from the last activity to the first. After that nothing is dead for the aircraft. Bars of one
//! aircraft change nothing for another, so one round over all aircraft settles them all.

ghost use Rattle.std.specs.Prelude.{◌≡◌, ◌<◌, OnOk, length};
ghost use Rattle.tail_book.specs.Lookup.{activities, aircraft};
ghost use Rattle.maint_counters.specs.inside.StepTable.{IsStepTableOf};
ghost use Rattle.connection_net.specs.Net.{net_of};
ghost use Rattle.branch_marks.specs.inside.MarkTables.{AreMarksOf};
ghost use Rattle.branch_marks.specs.Floors.{floors};
ghost use Rattle.floor_rows.specs.inside.FloorRow.{IsRowOf};
ghost use Rattle.propagator.specs.inside.Rows.{AreRowsOf, ChangesOnly, floors_in};
ghost use Rattle.propagator.specs.InTurn.{GrowInTurn};
ghost use Rattle.propagator.specs.Keeping.{KeepsSeen};
ghost use Rattle.propagator.specs.inside.Settling.{ActsOn, IsSettledFor, StandsFor, StandBelow};
ghost use Rattle.propagator.specs.inside.Moves.{MovesAll, MovesFloors};
ghost use Rattle.propagator.specs.inside.Touching.{IsReadyFor};
ghost use Rattle.propagator.specs.inside.Work.{IsWorkOf};

use crate::dead_ends::bar_dead;
use crate::due_floors::renew_floors;
use crate::laws::{same_dead, same_floors};
use crate::touching::touch_since;
use crate::work::Work;
use branch_marks::laws::floors_count;
use branch_marks::{Fact, Marks};
use connection_net::Net;
use floor_rows::FloorRow;
use maint_counters::StepTable;
use tail_book::{Book, Memory};

// Adds all that follows for an aircraft from its floors, and brings these up to date.
fn settle(
    book: &Book,
    net: &Net,
    steps: &StepTable,
    marks: &mut Marks,
    facts: &mut Vec<Fact>,
    seen: Option<usize>,
    k: u32,
    row: &mut FloorRow,
    due: &mut [bool],
    ask: &mut [bool],
    moved: &mut [bool],
    values: &mut [i64],
    least: &mut [i64],
    before: &mut [i64],
) -> Result<(), Memory>
    requires net { net.now ≡ net_of book.now }
    requires steps { IsStepTableOf book.now steps.now }
    requires marks { AreMarksOf book.now marks.old }
    requires aircraft { k < aircraft book.now }
    requires row { IsRowOf book.now row.old }
    requires ready { IsReadyFor book.now marks.old.facts k row.old.floors seen }
    requires due { length due.old ≡ activities book.now }
    requires ask { length ask.old ≡ activities book.now }
    requires moved { length moved.old ≡ activities book.now }
    requires width { length values.old ≡ length book.now.rules.counters }
    requires least { length least.old ≡ length book.now.rules.counters }
    requires before { length before.old ≡ length book.now.rules.counters }
    ensures marks { AreMarksOf book.now marks.new }
    ensures grows { GrowInTurn book.now marks.old.facts marks.new.facts facts.old.items facts.new.items }
    ensures acts { ActsOn book.now k marks.old.facts marks.new.facts }
    ensures row { IsRowOf book.now row.new }
    ensures moves { MovesFloors moved.old moved.new row.old row.new }
    ensures floors { row.new.floors ≡ floors book.now marks.new.facts k }
    ensures settled { OnOk result (IsSettledFor book.now marks.new.facts k) }
{
    floors_count();
    touch_since(book, net, marks, seen, k, row, due, ask);
    renew_floors(
        book, net, steps, marks, k, row, due, ask, moved, values, least, before,
    );
    bar_dead(book, net, steps, marks, facts, k, row, ask, values)
}

/// Settles an aircraft among the rows of all.
pub fn settle_at(
    book: &Book,
    net: &Net,
    steps: &StepTable,
    marks: &mut Marks,
    facts: &mut Vec<Fact>,
    seen: Option<usize>,
    k: u32,
    rows: &mut [FloorRow],
    work: &mut Work,
) -> Result<(), Memory>
    requires net { net.now ≡ net_of book.now }
    requires steps { IsStepTableOf book.now steps.now }
    requires marks { AreMarksOf book.now marks.old }
    requires aircraft { k < aircraft book.now }
    requires rows { AreRowsOf book.now rows.old }
    requires ready { IsReadyFor book.now marks.old.facts k (floors_in rows.old k) seen }
    requires work { IsWorkOf book.now work.old }
    ensures marks { AreMarksOf book.now marks.new }
    ensures grows { GrowInTurn book.now marks.old.facts marks.new.facts facts.old.items facts.new.items }
    ensures acts { ActsOn book.now k marks.old.facts marks.new.facts }
    ensures rows { AreRowsOf book.now rows.new }
    ensures others { ChangesOnly k rows.old rows.new }
    ensures stands { OnOk result (StandsFor book.now marks.new.facts rows.new k) }
    ensures work { IsWorkOf book.now work.new }
    ensures moves { MovesAll work.old.leave.items work.new.leave.items rows.old rows.new }
{
    let row = &mut rows[k as usize];
    settle(
        book,
        net,
        steps,
        marks,
        facts,
        seen,
        k,
        row,
        &mut work.due,
        &mut work.ask,
        &mut work.leave,
        &mut work.values,
        &mut work.least,
        &mut work.before,
    )
}

/// Settles all aircraft.
pub fn settle_all(
    book: &Book,
    net: &Net,
    steps: &StepTable,
    marks: &mut Marks,
    facts: &mut Vec<Fact>,
    seen: Option<usize>,
    rows: &mut [FloorRow],
    work: &mut Work,
) -> Result<(), Memory>
    requires net { net.now ≡ net_of book.now }
    requires steps { IsStepTableOf book.now steps.now }
    requires marks { AreMarksOf book.now marks.old }
    requires rows { AreRowsOf book.now rows.old }
    requires seen { KeepsSeen book.now marks.old.facts rows.old seen }
    requires work { IsWorkOf book.now work.old }
    ensures marks { AreMarksOf book.now marks.new }
    ensures grows { GrowInTurn book.now marks.old.facts marks.new.facts facts.old.items facts.new.items }
    ensures rows { AreRowsOf book.now rows.new }
    ensures stand { OnOk result (StandBelow book.now marks.new.facts rows.new (aircraft book.now)) }
    ensures work { IsWorkOf book.now work.new }
    ensures moves { MovesAll work.old.leave.items work.new.leave.items rows.old rows.new }
{
    same_floors();
    same_dead();
    for k in 0..book.tails.len() as u32 {
        settle_at(book, net, steps, marks, facts, seen, k, rows, work)?;
    }
    Ok(())
}
