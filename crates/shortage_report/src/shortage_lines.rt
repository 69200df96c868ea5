//! The lines of a shortage: what the asked activities are short of, which they are, which are brought, and how many of them the
//! aircraft can fly.

ghost use Rattle.std.specs.Prelude.{◌≡◌, ◌<◌, ◌++◌, All, IfOk, OnOk, codes, length};
ghost use Rattle.tail_book.specs.Lookup.{activities, activity_of};
ghost use Rattle.plan_report.specs.AuditText.{counter_name};
ghost use Rattle.plan_report.specs.Lines.{newline};
ghost use Rattle.plan_report.specs.Report.{ids_of};
ghost use Rattle.shortage_finder.specs.Causes.{IsCauseIn};
ghost use Rattle.shortage_finder.specs.declared.found.Cause.TheVariants.{Airport, Crowd};
ghost use Rattle.shortage_report.specs.ShortageText.{asked_line, because_line, brought_lines, cause_text, first_airport, first_id, shortage_lines};
ghost use Rattle.shortage_report.specs.inside.Told.{HasNames};

use crate::shares::at_most_line;
use crate::spans::{earliest_start, latest_end, latest_start};
use calendar_text::add_moment;
use shortage_finder::{Cause, FoundShortage};
use std::alloc::Global;
use tail_book::{Book, Memory};
use tail_text::Line;

/// Adds the lines of a shortage.
pub fn add_shortage(
    alloc: Global,
    book: &Book,
    found: &FoundShortage,
    lines: &mut Vec<Line>,
) -> Result<(), Memory>
    requires { HasNames book.now found.now.cause found.now.asked.items found.now.brought.items found.now.mosts.items }
    ensures { OnOk result (lines.new.items ≡ lines.old.items
        ++ shortage_lines book.now found.now.cause found.now.asked.items found.now.brought.items found.now.mosts.items) }
{
    lines.push(because_line(alloc, book, found.cause, &found.asked)?)?;
    lines.push(ids_line(alloc, b"asked", book, &found.asked)?)?;
    add_brought(alloc, book, &found.brought, lines)?;
    lines.push(at_most_line(alloc, book, &found.mosts)?)?;
    Ok(())
}

// The brought activities, where there are some.
fn add_brought(
    alloc: Global,
    book: &Book,
    brought: &[u32],
    lines: &mut Vec<Line>,
) -> Result<(), Memory>
    requires { All (λ a. a < activities book.now) brought.now }
    ensures { OnOk result (lines.new.items ≡ lines.old.items ++ brought_lines book.now brought.now) }
{
    if brought.is_empty() {
        return Ok(());
    }
    lines.push(ids_line(alloc, b"brought", book, brought)?)?;
    Ok(())
}

// What the asked activities are short of.
fn because_line(alloc: Global, book: &Book, cause: Cause, asked: &[u32]) -> Result<Line, Memory>
    requires cause { IsCauseIn book.now cause }
    requires asked { All (λ a. a < activities book.now) asked.now }
    ensures { IfOk result (λ line. line ≡ because_line book.now cause asked.now) }
{
    let mut line = Line::new(alloc)?;
    line.text(b"because ")?;
    add_cause(book, cause, asked, &mut line)?;
    line.text(b"\n")?;
    Ok(line)
}

fn add_cause(book: &Book, cause: Cause, asked: &[u32], line: &mut Line) -> Result<(), Memory>
    requires cause { IsCauseIn book.now cause }
    requires asked { All (λ a. a < activities book.now) asked.now }
    ensures { OnOk result (line.new ≡ line.old ++ cause_text book.now cause asked.now) }
{
    match cause {
        Cause::Alone => add_alone(book, asked, line),
        Cause::Airport => add_airport(book, asked, line),
        Cause::Crowd => add_crowd(book, asked, line),
        Cause::Counter(c) => add_counter(book, c, line),
    }
}

fn add_alone(book: &Book, asked: &[u32], line: &mut Line) -> Result<(), Memory>
    requires { All (λ a. a < activities book.now) asked.now }
    ensures { OnOk result (line.new ≡ line.old ++ (codes "alone " ++ first_id book.now asked.now)) }
{
    line.text(b"alone ")?;
    line.text(first_id(book, asked))
}

fn add_airport(book: &Book, asked: &[u32], line: &mut Line) -> Result<(), Memory>
    requires { All (λ a. a < activities book.now) asked.now }
    ensures { OnOk result (line.new ≡ line.old ++ cause_text book.now Airport asked.now) }
{
    line.text(b"airport ")?;
    line.text(first_airport(book, asked))?;
    line.text(b" until ")?;
    add_moment(latest_start(book, asked), line)
}

fn add_crowd(book: &Book, asked: &[u32], line: &mut Line) -> Result<(), Memory>
    requires { All (λ a. a < activities book.now) asked.now }
    ensures { OnOk result (line.new ≡ line.old ++ cause_text book.now Crowd asked.now) }
{
    line.text(b"crowd ")?;
    add_moment(earliest_start(book, asked), line)?;
    line.text(b" ")?;
    add_moment(latest_end(book, asked), line)
}

fn add_counter(book: &Book, c: u32, line: &mut Line) -> Result<(), Memory>
    requires { c < length book.now.rules.counters }
    ensures { OnOk result (line.new ≡ line.old ++ (codes "counter " ++ counter_name book.now c)) }
{
    line.text(b"counter ")?;
    line.text(book.rules.counters[c as usize].name.as_bytes())
}

// The id of the first activity, or nothing where there is none.
fn first_id<'a>(book: &'a Book, asked: &[u32]) -> &'a [u8]
    requires { All (λ a. a < activities book.now) asked.now }
    ensures { result.now ≡ first_id book.now asked.now }
{
    match asked.first() {
        Some(a) => book.activities[*a as usize].id.as_bytes(),
        None => b"",
    }
}

// The name of the airport that the first activity leaves, or nothing where there is none.
fn first_airport<'a>(book: &'a Book, asked: &[u32]) -> &'a [u8]
    requires { All (λ a. a < activities book.now) asked.now }
    ensures { result.now ≡ first_airport book.now asked.now }
{
    match asked.first() {
        Some(a) => {
            let port = book.activities[*a as usize].from;
            book.rules.airports[port as usize].name.as_bytes()
        }
        None => b"",
    }
}

/// A word and the ids of these activities.
pub fn ids_line(alloc: Global, word: &[u8], book: &Book, list: &[u32]) -> Result<Line, Memory>
    requires { All (λ a. a < activities book.now) list.now }
    ensures { IfOk result (λ line. line ≡ word.now ++ (ids_of book.now list.now ++ newline)) }
{
    let mut line = Line::new(alloc)?;
    line.text(word)?;
    add_ids(book, list, &mut line)?;
    line.text(b"\n")?;
    Ok(line)
}

fn add_ids(book: &Book, list: &[u32], line: &mut Line) -> Result<(), Memory>
    requires { All (λ a. a < activities book.now) list.now }
    ensures { OnOk result (line.new ≡ line.old ++ ids_of book.now list.now) }
{
    for a in list {
        add_id(book, *a, line)?;
    }
    Ok(())
}

fn add_id(book: &Book, a: u32, line: &mut Line) -> Result<(), Memory>
    requires { a < activities book.now }
    ensures { OnOk result (line.new ≡ line.old ++ codes " " ++ (activity_of book.now a).id) }
{
    line.text(b" ")?;
    line.text(book.activities[a as usize].id.as_bytes())
}
