//! What is marked between two bars: the turn that is asked for, and a stop that clears counters.
//!
//! Both begin where the aircraft is free from the place before. The turn goes on to the earliest start that it allows,
//! and the stop up to the next activity, with the names of the counters that it clears.

ghost use Rattle.std.specs.Prelude.{◌≡◌, ◌<◌, ◌++◌, IfOk, OnOk};
ghost use Rattle.tail_book.specs.Lookup.{activities, aircraft};
ghost use Rattle.tail_book.specs.Place.{IsPlaceOf};
ghost use Rattle.plan_picture.specs.inside.Drawable.{IsNear};
ghost use Rattle.plan_picture.specs.Stops.{cleared_names, stop_line, stop_lines, stops, turn_line};

use crate::layout::{add_span, y_of};
use maint_counters::cleared;
use std::alloc::Global;
use tail_book::{Book, Memory, Place, start_of};
use tail_text::Line;
use turn_rules::{earliest_start, free_from, turn};

// Appends the names of the counters that the stop before `b` clears.
fn add_cleared(book: &Book, k: u32, from: Place, b: u32, line: &mut Line) -> Result<(), Memory>
    requires aircraft { k < aircraft book.now }
    requires place { IsPlaceOf book.now from }
    requires activity { b < activities book.now }
    ensures { OnOk result (line.new ≡ line.old ++ cleared_names book.now k from b book.now.rules.counters) }
{
    for counter in &book.rules.counters {
        if cleared(book, k, from, b, counter) {
            line.text(b" ")?;
            line.text(counter.name.as_bytes())?;
        }
    }
    Ok(())
}

fn stop_line(
    alloc: Global,
    book: &Book,
    first: i64,
    row: u64,
    k: u32,
    from: Place,
    b: u32,
    names: &[u8],
) -> Result<Line, Memory>
    requires aircraft { k < aircraft book.now }
    requires place { IsPlaceOf book.now from }
    requires activity { b < activities book.now }
    requires first { IsNear first }
    requires row { row < 1000 }
    ensures { IfOk result (λ line. line ≡ stop_line book.now first row k from b names.now) }
{
    let mut line = Line::new(alloc)?;
    line.text(b"<svg class='stop'")?;
    let free = free_from(book, k, from);
    add_span(first, y_of(row) + 30, free, start_of(book, b), &mut line)?;
    line.text(b" height='20'><title>clears")?;
    line.text(names)?;
    line.text(
        b"</title><rect width='100%' height='100%'/><text class='port' x='50%' y='15' text-anchor='middle'>",
    )?;
    line.text(names)?;
    line.text(b"</text></svg>\n")?;
    Ok(line)
}

fn turn_line(
    alloc: Global,
    book: &Book,
    first: i64,
    row: u64,
    k: u32,
    from: Place,
    b: u32,
) -> Result<Line, Memory>
    requires aircraft { k < aircraft book.now }
    requires place { IsPlaceOf book.now from }
    requires activity { b < activities book.now }
    requires first { IsNear first }
    requires row { row < 1000 }
    ensures { IfOk result (λ line. line ≡ turn_line book.now first row k from b) }
{
    let mut line = Line::new(alloc)?;
    line.text(b"<rect class='turn'")?;
    let free = free_from(book, k, from);
    let end = earliest_start(book, k, from, b);
    add_span(first, y_of(row) + 37, free, end, &mut line)?;
    line.text(b" height='6'/>\n")?;
    Ok(line)
}

fn add_stop(
    alloc: Global,
    book: &Book,
    first: i64,
    row: u64,
    k: u32,
    from: Place,
    b: u32,
    lines: &mut Vec<Line>,
) -> Result<(), Memory>
    requires aircraft { k < aircraft book.now }
    requires place { IsPlaceOf book.now from }
    requires activity { b < activities book.now }
    requires first { IsNear first }
    requires row { row < 1000 }
    ensures { OnOk result (lines.new.items ≡ lines.old.items ++ stops book.now first row k from b) }
{
    let mut names = Line::new(alloc)?;
    add_cleared(book, k, from, b, &mut names)?;
    let names = names.bytes();
    if !names.is_empty() {
        lines.push(stop_line(alloc, book, first, row, k, from, b, names)?)?;
    }
    Ok(())
}

/// Adds what is marked before activity `b` of aircraft `k`: the stop where it clears a counter, and the turn where one
/// is asked for.
pub fn add_stops(
    alloc: Global,
    book: &Book,
    first: i64,
    row: u64,
    k: u32,
    from: Place,
    b: u32,
    lines: &mut Vec<Line>,
) -> Result<(), Memory>
    requires aircraft { k < aircraft book.now }
    requires place { IsPlaceOf book.now from }
    requires activity { b < activities book.now }
    requires first { IsNear first }
    requires row { row < 1000 }
    ensures { OnOk result (lines.new.items ≡ lines.old.items ++ stop_lines book.now first row k from b) }
{
    add_stop(alloc, book, first, row, k, from, b, lines)?;
    if turn(book, k, from, b) > 0 {
        lines.push(turn_line(alloc, book, first, row, k, from, b)?)?;
    }
    Ok(())
}
