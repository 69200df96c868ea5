//! Only carriers: an activity that is alive for one aircraft alone is given to it.
//!
//! A Must of an only carrier changes nothing for any other aircraft: the activity was not alive for them. So its own
//! floors alone are made anew, and it is settled before the next Must is looked for, from the next activity on. The
//! activities are gone over until one round finds none; each round but the last names an activity that no Must named. To
//! look at an activity costs the words of its bit row.

ghost use Rattle.std.specs.Prelude.{◌≡◌, ◌<◌, ℕ, true, false, IfOk, OnOk};
ghost use Rattle.tail_book.specs.Lookup.{activities, aircraft};
ghost use Rattle.maint_counters.specs.inside.StepTable.{IsStepTableOf};
ghost use Rattle.connection_net.specs.Net.{net_of};
ghost use Rattle.branch_marks.specs.inside.MarkTables.{AreMarksOf};
ghost use Rattle.branch_marks.specs.Following.{IsOnlyCarrier};
ghost use Rattle.propagator.specs.inside.Rows.{AreRowsOf};
ghost use Rattle.propagator.specs.InTurn.{GrowInTurn};
ghost use Rattle.propagator.specs.inside.Moves.{MovesAll};
ghost use Rattle.propagator.specs.inside.Settling.{StandBelow};
ghost use Rattle.propagator.specs.inside.Unnamed.{unnamed};
ghost use Rattle.propagator.specs.inside.Work.{IsWorkOf};

use crate::added_facts::add_next;
use crate::laws::{musts_leave_others, same_dead, same_floors};
use crate::settled_aircraft::settle_at;
use crate::work::Work;
use branch_marks::laws::{alive_decides, has_fact_decides};
use branch_marks::{Fact, Marks};
use connection_net::Net;
use floor_rows::FloorRow;
use maint_counters::StepTable;
use tail_book::{Book, Memory};

// Gives an activity to its only carrier, and settles that aircraft.
fn carry(
    book: &Book,
    net: &Net,
    steps: &StepTable,
    marks: &mut Marks,
    facts: &mut Vec<Fact>,
    k: u32,
    a: u32,
    rows: &mut [FloorRow],
    work: &mut Work,
) -> Result<(), Memory>
    requires net { net.now ≡ net_of book.now }
    requires steps { IsStepTableOf book.now steps.now }
    requires marks { AreMarksOf book.now marks.old }
    requires carrier { IsOnlyCarrier book.now marks.old.facts k a }
    requires rows { AreRowsOf book.now rows.old }
    requires stand { StandBelow book.now marks.old.facts rows.old (aircraft book.now) }
    requires work { IsWorkOf book.now work.old }
    ensures marks { AreMarksOf book.now marks.new }
    ensures grows { GrowInTurn book.now marks.old.facts marks.new.facts facts.old.items facts.new.items }
    ensures rows { AreRowsOf book.now rows.new }
    ensures work { IsWorkOf book.now work.new }
    ensures moves { MovesAll work.old.leave.items work.new.leave.items rows.old rows.new }
    ensures stand { OnOk result (StandBelow book.now marks.new.facts rows.new (aircraft book.now)) }
    ensures fewer { OnOk result (unnamed book.now marks.new.facts < unnamed book.now marks.old.facts) }
{
    alive_decides();
    has_fact_decides();
    musts_leave_others();
    same_floors();
    same_dead();
    let seen = marks.mark();
    add_next(book, marks, facts, Fact::Must(k, a))?;
    settle_at(book, net, steps, marks, facts, Some(seen), k, rows, work)
}

// Goes over the activities once and gives each to its only carrier; answers whether there was one.
fn carry_each(
    book: &Book,
    net: &Net,
    steps: &StepTable,
    marks: &mut Marks,
    facts: &mut Vec<Fact>,
    rows: &mut [FloorRow],
    work: &mut Work,
) -> Result<bool, Memory>
    requires net { net.now ≡ net_of book.now }
    requires steps { IsStepTableOf book.now steps.now }
    requires marks { AreMarksOf book.now marks.old }
    requires rows { AreRowsOf book.now rows.old }
    requires stand { StandBelow book.now marks.old.facts rows.old (aircraft book.now) }
    requires work { IsWorkOf book.now work.old }
    ensures marks { AreMarksOf book.now marks.new }
    ensures grows { GrowInTurn book.now marks.old.facts marks.new.facts facts.old.items facts.new.items }
    ensures rows { AreRowsOf book.now rows.new }
    ensures work { IsWorkOf book.now work.new }
    ensures moves { MovesAll work.old.leave.items work.new.leave.items rows.old rows.new }
    ensures stand { OnOk result (StandBelow book.now marks.new.facts rows.new (aircraft book.now)) }
    ensures some { IfOk result (λ some. some ≡ true → unnamed book.now marks.new.facts < unnamed book.now marks.old.facts) }
    ensures none { IfOk result (λ some. some ≡ false → (k a : ℕ) → ¬ IsOnlyCarrier book.now marks.new.facts k a) }
{
    let mut some = false;
    for a in 0..book.activities.len() as u32 {
        if let Some(k) = marks.only_carrier(book, a) {
            carry(book, net, steps, marks, facts, k, a, rows, work)?;
            some = true;
        }
    }
    Ok(some)
}

/// Gives each activity to its only carrier, and settles the aircraft, until there is none left.
pub fn carry_all(
    book: &Book,
    net: &Net,
    steps: &StepTable,
    marks: &mut Marks,
    facts: &mut Vec<Fact>,
    rows: &mut [FloorRow],
    work: &mut Work,
) -> Result<(), Memory>
    requires net { net.now ≡ net_of book.now }
    requires steps { IsStepTableOf book.now steps.now }
    requires marks { AreMarksOf book.now marks.old }
    requires rows { AreRowsOf book.now rows.old }
    requires stand { StandBelow book.now marks.old.facts rows.old (aircraft book.now) }
    requires work { IsWorkOf book.now work.old }
    ensures marks { AreMarksOf book.now marks.new }
    ensures grows { GrowInTurn book.now marks.old.facts marks.new.facts facts.old.items facts.new.items }
    ensures rows { AreRowsOf book.now rows.new }
    ensures work { IsWorkOf book.now work.new }
    ensures moves { MovesAll work.old.leave.items work.new.leave.items rows.old rows.new }
    ensures stand { OnOk result (StandBelow book.now marks.new.facts rows.new (aircraft book.now)) }
    ensures none { OnOk result ((k a : ℕ) → ¬ IsOnlyCarrier book.now marks.new.facts k a) }
{
    while carry_each(book, net, steps, marks, facts, rows, work)? {}
    Ok(())
}
