//! The rows of a picture: one for each aircraft in the book's order, and below them what no route has.
//!
//! A row is its head and then its route, activity by activity, each with what is marked before it. What no route has is
//! dealt out to eight rows in turn, so the picture grows by eight rows at most.

ghost use Rattle.std.specs.Prelude.{◌≡◌, ◌<◌, ◌++◌, IfOk, OnOk, All};
ghost use Rattle.tail_book.specs.Lookup.{activities, aircraft, kind_of, tail_of, type_of};
ghost use Rattle.tail_book.specs.Place.{IsPlaceOf};
ghost use Rattle.plan_report.specs.inside.AuditText.{IsOfBook};
ghost use Rattle.tail_book.specs.declared.place.Place.TheVariants.{Carry};
ghost use Rattle.plan_picture.specs.inside.Drawable.{IsDrawable, IsNear};
ghost use Rattle.plan_picture.specs.Rows.{again, aircraft_line, frame, head_line, leg_lines, route_lines, row_lines, rows_from, uncovered_bar, uncovered_block, uncovered_in, uncovered_lines, uncovered_rows};

use crate::bars::{add_bar, add_rules_at};
use crate::layout::y_of;
use crate::moved::moved_from;
use crate::shares::{add_shares, greatest};
use crate::stops::add_stops;
use plan_audit::Broken;
use std::alloc::Global;
use tail_book::{Book, Memory, Place, Route};
use tail_text::Line;

/// The head of a row: its name in bold, what stands beside that, and more below.
pub fn head_line(
    alloc: Global,
    row: u64,
    width: u64,
    name: &[u8],
    beside: &[u8],
    below: &[u8],
) -> Result<Line, Memory>
    requires { row < 1000 }
    ensures { IfOk result (λ line. line ≡ head_line row width name.now beside.now below.now) }
{
    let mut line = Line::new(alloc)?;
    add_again(row, width, name, &mut line)?;
    add_frame(row, width, &mut line)?;
    line.text(b"<text class='name' x='10' y='34'>")?;
    line.text(name)?;
    line.text(b" <tspan class='type'>")?;
    line.text(beside)?;
    line.text(b"</tspan></text><text class='share'>")?;
    line.text(below)?;
    line.text(b"</text></svg>\n")?;
    Ok(line)
}

// Appends the line above a row, and its name again for the start of each day.
fn add_again(row: u64, width: u64, name: &[u8], line: &mut Line) -> Result<(), Memory>
    requires { row < 1000 }
    ensures { OnOk result (line.new ≡ line.old ++ again row width name.now) }
{
    line.text(b"<path class='line' d='M0 ")?;
    line.unsigned(y_of(row))?;
    line.text(b"H")?;
    line.unsigned(width)?;
    line.text(b"'/><pattern id='row")?;
    line.unsigned(row)?;
    line.text(b"' patternUnits='userSpaceOnUse' x='340' y='")?;
    line.unsigned(y_of(row))?;
    line.text(b"' width='1440' height='100'><text class='again' x='8' y='18'>")?;
    line.text(name)?;
    line.text(b"</text></pattern>")
}

// Appends where the name is shown again, and the frame of the row's head.
fn add_frame(row: u64, width: u64, line: &mut Line) -> Result<(), Memory>
    requires { row < 1000 }
    ensures { OnOk result (line.new ≡ line.old ++ frame row width) }
{
    line.text(b"<rect x='1780' y='")?;
    line.unsigned(y_of(row))?;
    line.text(b"' width='")?;
    line.unsigned(width)?;
    line.text(b"' height='100' fill='url(#row")?;
    line.unsigned(row)?;
    line.text(b")'/><svg y='")?;
    line.unsigned(y_of(row))?;
    line.text(b"' width='336' height='100'>")
}

fn type_name(book: &Book, k: u32) -> &[u8]
    requires { k < aircraft book.now }
    ensures { result.now ≡ (type_of book.now (kind_of book.now k)).name }
{
    book.rules.kinds[book.tails[k as usize].kind as usize]
        .name
        .as_bytes()
}

fn tail_name(book: &Book, k: u32) -> &[u8]
    requires { k < aircraft book.now }
    ensures { result.now ≡ (tail_of book.now k).name }
{
    book.tails[k as usize].name.as_bytes()
}

fn aircraft_line(
    alloc: Global,
    book: &Book,
    width: u64,
    k: u32,
    route: &[u32],
) -> Result<Line, Memory>
    requires aircraft { k < aircraft book.now }
    requires few { k < 1000 }
    requires activities { All (λ a. a < activities book.now) route.now }
    ensures { IfOk result (λ line. line ≡ aircraft_line book.now width k route.now) }
{
    let most = greatest(alloc, book, k, route)?;
    let mut shares = Line::new(alloc)?;
    add_shares(&book.rules.counters, &most, &mut shares)?;
    let (name, kind) = (tail_name(book, k), type_name(book, k));
    head_line(alloc, k as u64, width, name, kind, shares.bytes())
}

// Adds what is marked before activity `b` of aircraft `k`, and its bar.
fn add_leg(
    alloc: Global,
    book: &Book,
    homes: &[Option<u32>],
    first: i64,
    rules: &[Broken],
    k: u32,
    i: u64,
    from: Place,
    b: u32,
    lines: &mut Vec<Line>,
) -> Result<(), Memory>
    requires aircraft { k < aircraft book.now }
    requires few { k < 1000 }
    requires place { IsPlaceOf book.now from }
    requires activity { b < activities book.now }
    requires first { IsNear first }
    requires rules { All (IsOfBook book.now) rules.now }
    ensures { OnOk result (lines.new.items ≡ lines.old.items ++ leg_lines book.now homes.now first rules.now k i from b) }
{
    add_stops(alloc, book, first, k as u64, k, from, b, lines)?;
    let mut names = Line::new(alloc)?;
    add_rules_at(book, k, b, rules, &mut names)?;
    let before = moved_from(homes, k, b);
    add_bar(
        alloc,
        book,
        first,
        k as u64,
        i,
        b,
        names.bytes(),
        before,
        lines,
    )
}

fn add_route(
    alloc: Global,
    book: &Book,
    homes: &[Option<u32>],
    first: i64,
    rules: &[Broken],
    k: u32,
    route: &[u32],
    lines: &mut Vec<Line>,
) -> Result<(), Memory>
    requires aircraft { k < aircraft book.now }
    requires few { k < 1000 }
    requires first { IsNear first }
    requires rules { All (IsOfBook book.now) rules.now }
    requires activities { All (λ a. a < activities book.now) route.now }
    ensures { OnOk result (lines.new.items ≡ lines.old.items ++ route_lines book.now homes.now first rules.now k 0 Carry route.now) }
{
    let mut from = Place::Carry;
    for i in 0..route.len() {
        add_leg(
            alloc, book, homes, first, rules, k, i as u64, from, route[i], lines,
        )?;
        from = Place::After(route[i]);
    }
    Ok(())
}

fn add_row(
    alloc: Global,
    book: &Book,
    homes: &[Option<u32>],
    first: i64,
    width: u64,
    rules: &[Broken],
    k: u32,
    route: &[u32],
    lines: &mut Vec<Line>,
) -> Result<(), Memory>
    requires aircraft { k < aircraft book.now }
    requires few { k < 1000 }
    requires first { IsNear first }
    requires rules { All (IsOfBook book.now) rules.now }
    requires activities { All (λ a. a < activities book.now) route.now }
    ensures { OnOk result (lines.new.items ≡ lines.old.items ++ row_lines book.now homes.now first width rules.now k route.now) }
{
    lines.push(aircraft_line(alloc, book, width, k, route)?)?;
    add_route(alloc, book, homes, first, rules, k, route, lines)
}

/// Adds the rows of the aircraft, with what has left its home among these marked.
pub fn add_rows(
    alloc: Global,
    book: &Book,
    homes: &[Option<u32>],
    first: i64,
    width: u64,
    rules: &[Broken],
    routes: &[Route],
    lines: &mut Vec<Line>,
) -> Result<(), Memory>
    requires few { aircraft book.now < 1000 }
    requires first { IsNear first }
    requires drawable { IsDrawable book.now routes.now rules.now }
    ensures { OnOk result (lines.new.items ≡ lines.old.items ++ rows_from book.now homes.now first width rules.now 0 routes.now) }
{
    for k in 0..routes.len() {
        let route = &routes[k];
        add_row(
            alloc, book, homes, first, width, rules, k as u32, &route.0, lines,
        )?;
    }
    Ok(())
}

/// The activities that no route has.
pub fn uncovered_in(alloc: Global, book: &Book, rules: &[Broken]) -> Result<Vec<u32>, Memory>
    requires { All (IsOfBook book.now) rules.now }
    ensures value { IfOk result (λ list. list.items ≡ uncovered_in rules.now) }
    ensures range { IfOk result (λ list. All (λ a. a < activities book.now) list.items) }
{
    let mut list = Vec::new(alloc);
    for rule in rules {
        if let Broken::Uncovered(a) = rule {
            list.push(*a)?;
        }
    }
    Ok(list)
}

fn add_uncovered_lines(
    alloc: Global,
    book: &Book,
    first: i64,
    row: u64,
    list: &[u32],
    lines: &mut Vec<Line>,
) -> Result<(), Memory>
    requires first { IsNear first }
    requires row { row < 900 }
    requires activities { All (λ a. a < activities book.now) list.now }
    ensures { OnOk result (lines.new.items ≡ lines.old.items ++ uncovered_lines book.now first row 0 list.now) }
{
    for i in 0..list.len() {
        add_uncovered_bar(alloc, book, first, row, i as u64, list[i], lines)?;
    }
    Ok(())
}

fn add_uncovered_bar(
    alloc: Global,
    book: &Book,
    first: i64,
    row: u64,
    i: u64,
    a: u32,
    lines: &mut Vec<Line>,
) -> Result<(), Memory>
    requires first { IsNear first }
    requires row { row < 900 }
    requires activity { a < activities book.now }
    ensures { OnOk result (lines.new.items ≡ lines.old.items ++ uncovered_bar book.now first row i a) }
{
    let names = b" uncovered";
    add_bar(alloc, book, first, row + i % 8, i, a, names, None, lines)
}

/// Adds the rows of what no route has, under a head of their own.
pub fn add_uncovered(
    alloc: Global,
    book: &Book,
    first: i64,
    width: u64,
    list: &[u32],
    lines: &mut Vec<Line>,
) -> Result<(), Memory>
    requires few { aircraft book.now < 900 }
    requires first { IsNear first }
    requires activities { All (λ a. a < activities book.now) list.now }
    ensures { OnOk result (lines.new.items ≡ lines.old.items ++ uncovered_rows book.now first width list.now) }
{
    if list.is_empty() {
        return Ok(());
    }
    let row = book.tails.len() as u64;
    add_uncovered_block(alloc, book, first, width, row, list, lines)
}

fn add_uncovered_block(
    alloc: Global,
    book: &Book,
    first: i64,
    width: u64,
    row: u64,
    list: &[u32],
    lines: &mut Vec<Line>,
) -> Result<(), Memory>
    requires first { IsNear first }
    requires row { row < 900 }
    requires activities { All (λ a. a < activities book.now) list.now }
    ensures { OnOk result (lines.new.items ≡ lines.old.items ++ uncovered_block book.now first width row list.now) }
{
    lines.push(head_line(alloc, row, width, b"uncovered", b"", b"")?)?;
    add_uncovered_lines(alloc, book, first, row, list, lines)
}
