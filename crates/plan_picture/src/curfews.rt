//! The curfews of an airport as bands over all days.
//!
//! While the airport's clocks do not change, a curfew is the same on every day, so its band is one piece of a day that
//! the picture repeats: one line for each stretch between two changes, however many days are shown. The local minutes
//! less the offset of the stretch, taken into a day, are those in UTC; a piece may go on past midnight.

ghost use Rattle.std.specs.Prelude.{◌≡◌, ◌<◌, ◌++◌, IfOk, OnOk, length, pos};
ghost use Rattle.tail_book.specs.Ranges.{IsWithin};
ghost use Rattle.tail_book.specs.inside.Sound.{IsOffset};
ghost use Rattle.plan_picture.specs.Curfews.{area, band_line, bands, bands_from, bands_in, begins, curfew_of, lasts, piece, piece_name};
ghost use Rattle.plan_picture.specs.Layout.{end_shown, first_moment};
ghost use Rattle.plan_picture.specs.Stretches.{stretches, stretches_from};
ghost use Rattle.plan_picture.specs.inside.Cuts.{bands_until, from_behind};
ghost use Rattle.plan_picture.specs.inside.Drawable.{IsNear, IsStretch};

use crate::bars::port_name;
use crate::layout::{LEFT, end_shown, first_moment, minutes_to, x_of};
use crate::stretches::{Stretch, stretch_from};
use std::alloc::Global;
use tail_book::limits::DAY;
use tail_book::{Book, Change, Memory};
use tail_text::Line;

fn begins(book: &Book, offset: i64, c: usize) -> u64
    requires offset { IsOffset offset }
    requires curfew { c < length book.now.rules.curfews }
    ensures { result ≡ begins offset (curfew_of book.now c) }
{
    (from_minute(book, c) - offset)
        .rem_euclid(DAY)
        .unsigned_abs()
}

fn from_minute(book: &Book, c: usize) -> i64
    requires { c < length book.now.rules.curfews }
    ensures value { result ≡ (curfew_of book.now c).from }
    ensures range { IsWithin (pos 0) DAY result }
{
    book.rules.curfews[c].from
}

fn lasts(book: &Book, c: usize) -> u64
    requires { c < length book.now.rules.curfews }
    ensures { result ≡ lasts (curfew_of book.now c) }
{
    let curfew = &book.rules.curfews[c];
    (curfew.to - curfew.from).rem_euclid(DAY).unsigned_abs()
}

fn port_of(book: &Book, c: usize) -> u32
    requires { c < length book.now.rules.curfews }
    ensures value { result ≡ (curfew_of book.now c).airport }
    ensures range { result < length book.now.rules.airports }
{
    book.rules.curfews[c].airport
}

// Appends the name of a curfew's piece in a stretch.
fn add_piece_name(stretch: Stretch, c: usize, line: &mut Line) -> Result<(), Memory>
    requires stretch { IsStretch stretch }
    ensures { OnOk result (line.new ≡ line.old ++ piece_name stretch c) }
{
    line.text(b"curfew")?;
    line.unsigned(c as u64)?;
    if stretch.first < stretch.from {
        line.text(b"-")?;
        line.unsigned(x_of(stretch.first, stretch.from))?;
    }
    Ok(())
}

// Appends a day's piece of a curfew's band.
fn add_piece(
    book: &Book,
    height: u64,
    stretch: Stretch,
    c: usize,
    line: &mut Line,
) -> Result<(), Memory>
    requires stretch { IsStretch stretch }
    requires curfew { c < length book.now.rules.curfews }
    ensures { OnOk result (line.new ≡ line.old ++ piece book.now height stretch c) }
{
    line.text(b"<pattern id='")?;
    add_piece_name(stretch, c, line)?;
    line.text(b"' patternUnits='userSpaceOnUse' x='")?;
    line.unsigned(LEFT + begins(book, stretch.offset, c))?;
    line.text(b"' width='1440' height='")?;
    line.unsigned(height)?;
    line.text(b"'><rect class='curfew' width='")?;
    line.unsigned(lasts(book, c))?;
    line.text(b"' height='")?;
    line.unsigned(height)?;
    line.text(b"'/></pattern>")
}

// Appends the area that a curfew's piece fills.
fn add_area(
    book: &Book,
    height: u64,
    stretch: Stretch,
    c: usize,
    line: &mut Line,
) -> Result<(), Memory>
    requires stretch { IsStretch stretch }
    requires curfew { c < length book.now.rules.curfews }
    ensures { OnOk result (line.new ≡ line.old ++ area book.now height stretch c) }
{
    line.text(b"<rect x='")?;
    line.unsigned(x_of(stretch.first, stretch.from))?;
    line.text(b"' y='120' width='")?;
    line.unsigned(minutes_to(stretch.from, stretch.to))?;
    line.text(b"' height='")?;
    line.unsigned(height)?;
    line.text(b"' fill='url(#")?;
    add_piece_name(stretch, c, line)?;
    line.text(b")'><title>")?;
    line.text(port_name(book, port_of(book, c)))?;
    line.text(b" curfew</title></rect>")
}

fn band_line(
    alloc: Global,
    book: &Book,
    height: u64,
    stretch: Stretch,
    c: usize,
) -> Result<Line, Memory>
    requires stretch { IsStretch stretch }
    requires curfew { c < length book.now.rules.curfews }
    ensures { IfOk result (λ line. line ≡ band_line book.now height stretch c) }
{
    let mut line = Line::new(alloc)?;
    add_piece(book, height, stretch, c, &mut line)?;
    add_area(book, height, stretch, c, &mut line)?;
    line.text(b"\n")?;
    Ok(line)
}

/// Adds the bands of the curfews of an airport of the book, where one is asked for.
pub fn add_bands(
    alloc: Global,
    book: &Book,
    airport: Option<u32>,
    height: u64,
    lines: &mut Vec<Line>,
) -> Result<(), Memory>
    ensures { OnOk result (lines.new.items ≡ lines.old.items ++ bands book.now airport height) }
{
    match airport {
        Some(port) if (port as usize) < book.rules.airports.len() => {
            add_bands_of(alloc, book, port, height, lines)
        }
        _ => Ok(()),
    }
}

// Adds the bands of an airport, stretch by stretch between its changes.
fn add_bands_of(
    alloc: Global,
    book: &Book,
    port: u32,
    height: u64,
    lines: &mut Vec<Line>,
) -> Result<(), Memory>
    requires { port < length book.now.rules.airports }
    ensures { OnOk result (lines.new.items ≡ lines.old.items ++ bands_in book.now port height (stretches book.now port)) }
{
    let changes = &book.rules.airports[port as usize].changes;
    add_bands_between(alloc, book, port, height, changes, lines)
}

// Adds the bands of an airport, stretch by stretch between these changes.
fn add_bands_between(
    alloc: Global,
    book: &Book,
    port: u32,
    height: u64,
    changes: &[Change],
    lines: &mut Vec<Line>,
) -> Result<(), Memory>
    requires { port < length book.now.rules.airports }
    ensures { OnOk result (lines.new.items ≡ lines.old.items
        ++ bands_in book.now port height (stretches_from book.now port (first_moment book.now) (end_shown book.now) changes.now)) }
{
    let end = end_shown(book);
    let mut from = first_moment(book);
    for change in changes {
        from = add_until(alloc, book, port, height, from, end, *change, lines)?;
    }
    let last = stretch_from(book, port, from, end);
    add_stretch(alloc, book, port, height, last, lines)
}

// Adds the bands of the stretch that a change ends, where it cuts, and answers from when the next stretch lasts.
fn add_until(
    alloc: Global,
    book: &Book,
    port: u32,
    height: u64,
    from: i64,
    to: i64,
    change: Change,
    lines: &mut Vec<Line>,
) -> Result<i64, Memory>
    requires port { port < length book.now.rules.airports }
    requires from { IsNear from }
    requires to { IsNear to }
    ensures bands { OnOk result (lines.new.items ≡ lines.old.items ++ bands_until book.now port height from to change) }
    ensures next { IfOk result (λ next. next ≡ from_behind from to change) }
    ensures near { IfOk result IsNear }
{
    if from >= change.at || change.at >= to {
        return Ok(from);
    }
    let stretch = stretch_from(book, port, from, change.at);
    add_stretch(alloc, book, port, height, stretch, lines)?;
    Ok(change.at)
}

fn add_stretch(
    alloc: Global,
    book: &Book,
    port: u32,
    height: u64,
    stretch: Stretch,
    lines: &mut Vec<Line>,
) -> Result<(), Memory>
    requires stretch { IsStretch stretch }
    ensures { OnOk result (lines.new.items ≡ lines.old.items ++ bands_from book.now port height stretch 0 book.now.rules.curfews) }
{
    for c in 0..book.rules.curfews.len() {
        if book.rules.curfews[c].airport == port {
            lines.push(band_line(alloc, book, height, stretch, c)?)?;
        }
    }
    Ok(())
}
