//! First duals that show at once that no plan is there, where counting shows it: more activities are under way at a moment than
//! there are aircraft, or more have left an airport by a moment, or are under way there, than came there before.
//!
//! A route has at most one of the activities of a moment. Up to a moment it leaves an airport, and is busy there at the moment, at
//! most once more often than it came there, and that only where its aircraft comes in. So where what is asked for has the end of
//! the box for a dual, and what brings aircraft the other end, the Lagrangian sum is no less than the box's end for each activity
//! too many, which is as much as a target can be. It is priced like any other.

ghost use Rattle.std.specs.Prelude.{IfOk, IfSome};
ghost use Rattle.tail_book.specs.CostTable.{IsInBox, IsTableFor};
ghost use Rattle.branch_marks.specs.Settled.{AreDuals};

use crate::root_duals::push_dual;
use std::alloc::Global;
use tail_book::laws::every_book_is_sound;
use tail_book::{Activity, Book, CostTable, Duals, Memory};

// Where aircraft may be short: at a moment everywhere, or at an airport up to a moment.
#[derive(Clone, Copy, Debug)]
enum Shortage {
    Everywhere(i64),
    At(u32, i64),
}

// Whether an activity asks for an aircraft.
fn asks(activity: &Activity, shortage: Shortage) -> bool {
    match shortage {
        Shortage::Everywhere(moment) => activity.start <= moment && moment < activity.end,
        Shortage::At(port, moment) => {
            activity.from == port
                && activity.start <= moment
                && (activity.to != port || moment < activity.end)
        }
    }
}

// Whether an activity brings an aircraft to where it is asked for.
fn brings(activity: &Activity, shortage: Shortage) -> bool {
    match shortage {
        Shortage::Everywhere(_) => false,
        Shortage::At(port, moment) => {
            activity.to == port && activity.from != port && activity.end <= moment
        }
    }
}

// How many activities ask for an aircraft, and how many bring one.
fn count(book: &Book, shortage: Shortage) -> (usize, usize) {
    let (mut asking, mut bringing) = (0usize, 0usize);
    for activity in book.activities.iter() {
        if asks(activity, shortage) {
            asking = asking.saturating_add(1);
        } else if brings(activity, shortage) {
            bringing = bringing.saturating_add(1);
        }
    }
    (asking, bringing)
}

// How many aircraft are there from the beginning.
fn there(book: &Book, shortage: Shortage) -> usize {
    let mut there = 0usize;
    for tail in book.tails.iter() {
        let is_there = match shortage {
            Shortage::Everywhere(_) => true,
            Shortage::At(port, _) => tail.at == port,
        };
        if is_there {
            there = there.saturating_add(1);
        }
    }
    there
}

// Whether aircraft are short.
fn is_short(book: &Book, shortage: Shortage) -> bool {
    let (asking, bringing) = count(book, shortage);
    asking > bringing.saturating_add(there(book, shortage))
}

// Where aircraft are short, if counting shows it at the start of an activity.
fn find(book: &Book) -> Option<Shortage> {
    for activity in book.activities.iter() {
        let everywhere = Shortage::Everywhere(activity.start);
        if is_short(book, everywhere) {
            return Some(everywhere);
        }
        let here = Shortage::At(activity.from, activity.start);
        if is_short(book, here) {
            return Some(here);
        }
    }
    None
}

// The dual of an activity: an end of the box, or 0.
fn dual_of(table: &CostTable, activity: &Activity, shortage: Shortage) -> i64
    ensures { IsInBox table.now result }
{
    let end = table.box_end();
    if asks(activity, shortage) {
        end
    } else if brings(activity, shortage) {
        -end
    } else {
        0
    }
}

// The duals of all activities.
fn duals_of(
    alloc: Global,
    book: &Book,
    table: &CostTable,
    shortage: Shortage,
) -> Result<Duals, Memory>
    requires table { IsTableFor book.now table.now }
    ensures { IfOk result (λ duals. AreDuals table.now book.now duals.values) }
{
    every_book_is_sound(book);
    let mut values = Vec::new(alloc);
    for a in 0..book.activities.len() {
        let dual = dual_of(table, &book.activities[a], shortage);
        push_dual(&mut values, &dual)?;
    }
    Ok(Duals { values })
}

/// Duals that show that no plan is there, if counting shows that aircraft are short.
pub fn shortage_duals(
    alloc: Global,
    book: &Book,
    table: &CostTable,
) -> Result<Option<Duals>, Memory>
    requires table { IsTableFor book.now table.now }
    ensures { IfOk result (λ found. IfSome found (λ duals. AreDuals table.now book.now duals.values)) }
{
    match find(book) {
        Some(shortage) => Ok(Some(duals_of(alloc, book, table, shortage)?)),
        None => Ok(None),
    }
}
