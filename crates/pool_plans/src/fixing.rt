//! Marks that hold parts of a plan: whole routes, or what lies before and behind a stretch of activities.
//!
//! Only facts are added, to a copy of the marks: none of them copies a table.

ghost use Rattle.std.specs.Prelude.{IfOk};
ghost use Rattle.branch_marks.specs.inside.MarkTables.{AreMarksOf};

use crate::slice::{ALL, Slice};
use branch_marks::{Fact, Marks};
use restricted_master::number_of;
use tail_book::{Book, Memory, Route};

// Adds a fact, if its numbers are of the book.
fn add(book: &Book, marks: &mut Marks, fact: Fact) -> Result<(), Memory>
    requires { AreMarksOf book.now marks.old }
    ensures { AreMarksOf book.now marks.new }
{
    if fact.is_of(book) {
        let _ = marks.add(book, fact)?;
    }
    Ok(())
}

/// Holds what an aircraft's route has in a slice of activities: it flies this there and nothing else, and nobody else flies any of it.
pub fn fix(
    book: &Book,
    marks: &mut Marks,
    k: u32,
    route: &[u32],
    slice: Slice,
) -> Result<(), Memory>
    requires { AreMarksOf book.now marks.old }
    ensures { AreMarksOf book.now marks.new }
{
    for a in slice.from..slice.to.min(book.activities.len() as u32) {
        if route.contains(&a) {
            add(book, marks, Fact::Must(k, a))?;
        } else {
            add(book, marks, Fact::Bar(k, a))?;
        }
    }
    Ok(())
}

// Holds an activity of an aircraft's route, where it lies outside a stretch, and how it comes after the one before, where both lie behind it.
fn fix_one(
    book: &Book,
    marks: &mut Marks,
    k: u32,
    before: Option<u32>,
    a: u32,
    from: u32,
    to: u32,
) -> Result<(), Memory>
    requires { AreMarksOf book.now marks.old }
    ensures { AreMarksOf book.now marks.new }
{
    if a < from {
        add(book, marks, Fact::Must(k, a))?;
    }
    match before {
        Some(before) if before >= to => add(book, marks, Fact::Tie(before, a)),
        _ => Ok(()),
    }
}

/// Holds of an aircraft's route what lies before a stretch of activities, and behind it what comes directly after what, whoever
/// flies that.
pub fn fix_outside(
    book: &Book,
    marks: &mut Marks,
    k: u32,
    route: &[u32],
    from: u32,
    to: u32,
) -> Result<(), Memory>
    requires { AreMarksOf book.now marks.old }
    ensures { AreMarksOf book.now marks.new }
{
    let mut before = None;
    for a in route {
        let a = *a;
        fix_one(book, marks, k, before, a, from, to)?;
        before = Some(a);
    }
    Ok(())
}

// Holds the routes of a plan outside a stretch of activities.
fn hold_outside(
    book: &Book,
    marks: &mut Marks,
    routes: &[Route],
    from: u32,
    to: u32,
) -> Result<(), Memory>
    requires { AreMarksOf book.now marks.old }
    ensures { AreMarksOf book.now marks.new }
{
    for k in 0..routes.len() {
        let (number, route) = (number_of(k), &routes[k]);
        fix_outside(book, marks, number, &route.0, from, to)?;
    }
    Ok(())
}

/// The marks that hold a plan outside a stretch of activities.
pub fn marks_outside(
    book: &Book,
    marks: &Marks,
    routes: &[Route],
    from: u32,
    to: u32,
) -> Result<Marks, Memory>
    requires { AreMarksOf book.now marks.now }
    ensures { IfOk result (AreMarksOf book.now) }
{
    let mut held = marks.copy()?;
    hold_outside(book, &mut held, routes, from, to)?;
    Ok(held)
}

// Holds the routes of the aircraft that keep theirs.
fn hold_kept(book: &Book, marks: &mut Marks, routes: &[Route], kept: &[bool]) -> Result<(), Memory>
    requires { AreMarksOf book.now marks.old }
    ensures { AreMarksOf book.now marks.new }
{
    for k in 0..routes.len().min(kept.len()) {
        if kept[k] {
            let (number, route) = (number_of(k), &routes[k]);
            fix(book, marks, number, &route.0, ALL)?;
        }
    }
    Ok(())
}

/// The marks that hold the routes of the aircraft that keep theirs.
pub fn marks_beside(
    book: &Book,
    marks: &Marks,
    routes: &[Route],
    kept: &[bool],
) -> Result<Marks, Memory>
    requires { AreMarksOf book.now marks.now }
    ensures { IfOk result (AreMarksOf book.now) }
{
    let mut held = marks.copy()?;
    hold_kept(book, &mut held, routes, kept)?;
    Ok(held)
}
