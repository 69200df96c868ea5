//! A plan's names as they are met, line by line.
//!
//! Each name is looked up once, and marks tell at once whether its number was met before.

ghost use Rattle.std.specs.Prelude.{◌≡◌, ◌<◌, ◌++◌, ◌∷◌, [], length, set, true, IfOk};
ghost use Rattle.plan_audit.specs.inside.BookNames.{AreBookNames};
ghost use Rattle.plan_audit.specs.inside.MetNames.{AreMetNamesOf};
ghost use Rattle.tail_book.specs.Lookup.{activities, aircraft};
ghost use Rattle.plan_audit.specs.inside.Met.{IsMetOf, IsDropped};
ghost use Rattle.plan_audit.specs.Met.{as_tail, as_activity, activity_named, tail_named, with_id, with_ids, with_line, with_lines, names_met};

use crate::book_names::{BookNames, names_of, number_of};
use crate::met::Met;
use std::alloc::Global;
use tail_book::{Book, Memory, Name, RawLine, RawPlan};

/// The names met so far, and marks at the aircraft and at the activities among them.
#[derive(Drop)]
pub struct MetNames {
    pub met: Vec<Met>,
    pub tails: Vec<bool>,
    pub activities: Vec<bool>,
}

/// Nothing read.
fn begin(alloc: Global, book: &Book) -> Result<MetNames, Memory>
    ensures none { IfOk result (λ met_names. met_names.met.items ≡ []) }
    ensures sound { IfOk result (AreMetNamesOf book.now) }
{
    let tails = vec![in alloc; false; book.tails.len()]?;
    let activities = vec![in alloc; false; book.activities.len()]?;
    Ok(MetNames {
        met: Vec::new(alloc),
        tails,
        activities,
    })
}

/// Sets the mark of a number.
fn mark(marks: &mut Vec<bool>, number: u32)
    requires { number < length marks.old.items }
    ensures { marks.new.items ≡ set marks.old.items number true }
{
    marks[number as usize] = true;
}

/// Adds an aircraft that is met for the first time.
fn add_tail(book: &Book, k: u32, met_names: &mut MetNames) -> Result<(), Memory>
    requires tail { k < aircraft book.now }
    requires met_names { AreMetNamesOf book.now met_names.old }
    ensures adds { IfOk result (λ _. met_names.new.met.items ≡ met_names.old.met.items ++ Met.Tail k ∷ []) }
    ensures met_names { IfOk result (λ _. AreMetNamesOf book.now met_names.new) }
{
    mark(&mut met_names.tails, k);
    met_names.met.push(Met::Tail(k))?;
    Ok(())
}

/// Adds an activity that is met for the first time.
fn add_activity(book: &Book, a: u32, met_names: &mut MetNames) -> Result<(), Memory>
    requires activity { a < activities book.now }
    requires met_names { AreMetNamesOf book.now met_names.old }
    ensures adds { IfOk result (λ _. met_names.new.met.items ≡ met_names.old.met.items ++ Met.Activity a ∷ []) }
    ensures met_names { IfOk result (λ _. AreMetNamesOf book.now met_names.new) }
{
    mark(&mut met_names.activities, a);
    met_names.met.push(Met::Activity(a))?;
    Ok(())
}

/// Adds a name that is unknown or was met before.
fn add_dropped(book: &Book, met: Met, met_names: &mut MetNames) -> Result<(), Memory>
    requires dropped { IsDropped met }
    requires met_names { AreMetNamesOf book.now met_names.old }
    ensures adds { IfOk result (λ _. met_names.new.met.items ≡ met_names.old.met.items ++ met ∷ []) }
    ensures met_names { IfOk result (λ _. AreMetNamesOf book.now met_names.new) }
{
    met_names.met.push(met)?;
    Ok(())
}

/// How the name of a line's aircraft is met.
fn meet_tail(names: &BookNames, name: Name, met_names: &MetNames) -> Met
    requires names { AreBookNames names.now }
    requires met_names { AreMetNamesOf names.now.book.now met_names.now }
    ensures value { result ≡ as_tail met_names.now.met.items name (tail_named names.now.book.now name) }
    ensures within { IsMetOf names.now.book.now result }
{
    match number_of(&names.tails, name) {
        None => Met::Unknown(name),
        Some(k) => {
            if met_names.tails[k as usize] {
                Met::Twice(name)
            } else {
                Met::Tail(k)
            }
        }
    }
}

/// How an id is met.
fn meet_activity(names: &BookNames, id: Name, met_names: &MetNames) -> Met
    requires names { AreBookNames names.now }
    requires met_names { AreMetNamesOf names.now.book.now met_names.now }
    ensures value { result ≡ as_activity met_names.now.met.items id (activity_named names.now.book.now id) }
    ensures within { IsMetOf names.now.book.now result }
{
    match number_of(&names.activities, id) {
        None => Met::Unknown(id),
        Some(a) => {
            if met_names.activities[a as usize] {
                Met::Twice(id)
            } else {
                Met::Activity(a)
            }
        }
    }
}

/// Reads an id.
fn read_id(names: &BookNames, id: Name, met_names: &mut MetNames) -> Result<(), Memory>
    requires names { AreBookNames names.now }
    requires met_names { AreMetNamesOf names.now.book.now met_names.old }
    ensures reads { IfOk result (λ _. met_names.new.met.items ≡ with_id names.now.book.now met_names.old.met.items id) }
    ensures met_names { IfOk result (λ _. AreMetNamesOf names.now.book.now met_names.new) }
{
    match meet_activity(names, id, met_names) {
        Met::Activity(a) => add_activity(names.book, a, met_names),
        met => add_dropped(names.book, met, met_names),
    }
}

/// Reads the ids of a line.
fn read_ids(names: &BookNames, ids: &[Name], met_names: &mut MetNames) -> Result<(), Memory>
    requires names { AreBookNames names.now }
    requires met_names { AreMetNamesOf names.now.book.now met_names.old }
    ensures reads { IfOk result (λ _. met_names.new.met.items ≡ with_ids names.now.book.now met_names.old.met.items ids.now) }
    ensures met_names { IfOk result (λ _. AreMetNamesOf names.now.book.now met_names.new) }
{
    for id in ids {
        read_id(names, *id, met_names)?;
    }
    Ok(())
}

/// Reads a line: its aircraft, and its ids where that is met for the first time.
fn read_line(names: &BookNames, line: &RawLine, met_names: &mut MetNames) -> Result<(), Memory>
    requires names { AreBookNames names.now }
    requires met_names { AreMetNamesOf names.now.book.now met_names.old }
    ensures reads { IfOk result (λ _. met_names.new.met.items ≡ with_line names.now.book.now met_names.old.met.items line.now) }
    ensures met_names { IfOk result (λ _. AreMetNamesOf names.now.book.now met_names.new) }
{
    match meet_tail(names, line.tail, met_names) {
        Met::Tail(k) => {
            add_tail(names.book, k, met_names)?;
            read_ids(names, &line.ids, met_names)
        }
        dropped => add_dropped(names.book, dropped, met_names),
    }
}

/// Reads lines in their order.
fn read_lines(names: &BookNames, lines: &[RawLine], met_names: &mut MetNames) -> Result<(), Memory>
    requires names { AreBookNames names.now }
    requires met_names { AreMetNamesOf names.now.book.now met_names.old }
    ensures reads { IfOk result (λ _. met_names.new.met.items ≡ with_lines names.now.book.now met_names.old.met.items lines.now) }
    ensures met_names { IfOk result (λ _. AreMetNamesOf names.now.book.now met_names.new) }
{
    for line in lines {
        read_line(names, line, met_names)?;
    }
    Ok(())
}

/// Reads a plan.
pub fn read_names(alloc: Global, book: &Book, raw: &RawPlan) -> Result<MetNames, Memory>
    ensures reads { IfOk result (λ met_names. met_names.met.items ≡ names_met book.now raw.now) }
    ensures met_names { IfOk result (AreMetNamesOf book.now) }
{
    let names = names_of(alloc, book)?;
    let mut met_names = begin(alloc, book)?;
    read_lines(&names, &raw.lines, &mut met_names)?;
    Ok(met_names)
}
