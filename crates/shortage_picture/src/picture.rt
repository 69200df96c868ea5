//! The picture of a shortage, line by line. All lines are made before the first is put.

ghost use Rattle.std.specs.Prelude.{◌≡◌, ◌<◌, ◌≤◌, ◌++◌, false, IfOk, OnErr, OnOk, IsErrOf};
ghost use Rattle.tail_outside.specs.Outside.{PieceHasFailed, Takes, TakesFront};
ghost use Rattle.plan_report.specs.Lines.{text_of};
ghost use Rattle.shortage_reader.specs.inside.OfBook.{IsToldOf};
ghost use Rattle.shortage_picture.specs.Picture.{body_lines, front_lines, height_of, page_lines, svg_lines, title_line};

use crate::fixed::brought_style;
use crate::lanes::{add_brought, add_lanes, lanes_of};
use crate::sides::Side;
use crate::span::{days_of, first_day};
use crate::strips::add_strip_lines;
use plan_picture::pieces::{
    DAY_WIDTH, LEFT, add_bands, add_days, add_whole_front, close, days_shown, first_moment,
    fixed_line, grid_patterns, html_close, html_open, open_line, strip_top, style, width_of, y_of,
};
use plan_report::{ReportFail, write_lines};
use shortage_reader::ToldShortage;
use std::alloc::Global;
use tail_book::{Book, Memory};
use tail_outside::Sink;
use tail_text::Line;

/// What a picture shows beside the shortage.
#[derive(Clone, Copy, PartialEq, Eq, Debug)]
pub struct View {
    /// The airport whose curfews are drawn, by number.
    pub airport: Option<u32>,
    /// Whether the picture stands on a page of its own.
    pub html: bool,
}

/// Writes the picture of a shortage, one put a line.
pub fn write_shortage<S: Sink>(
    alloc: Global,
    view: View,
    book: &Book,
    told: &ToldShortage,
    out: &mut S,
) -> Result<(), ReportFail>
    requires { IsToldOf book.now told.now }
    ensures taken { OnOk result (Takes (S.shows out.old) (S.shows out.new) (text_of (page_lines view book.now told.now))) }
    ensures front { OnErr result (TakesFront (S.shows out.old) (S.shows out.new) (text_of (page_lines view book.now told.now))) }
    ensures beside { S.beside out.old out.new }
    ensures ceases { (S.shows out.new).ceased ≡ false → (S.shows out.old).ceased ≡ false }
    ensures counts { (S.shows out.old).faults ≤ (S.shows out.new).faults }
    ensures cause { IsErrOf result ReportFail.Write → PieceHasFailed (S.shows out.old) (S.shows out.new) }
{
    let Ok(lines) = page_lines(alloc, view, book, told) else {
        return Err(ReportFail::Memory);
    };
    write_lines(&lines, out)
}

fn page_lines(
    alloc: Global,
    view: View,
    book: &Book,
    told: &ToldShortage,
) -> Result<Vec<Line>, Memory>
    requires { IsToldOf book.now told.now }
    ensures { IfOk result (λ lines. lines.items ≡ page_lines view book.now told.now) }
{
    let mut lines = Vec::new(alloc);
    if view.html {
        lines.push(fixed_line(alloc, html_open())?)?;
    }
    add_svg(alloc, view.airport, book, told, &mut lines)?;
    if view.html {
        lines.push(fixed_line(alloc, html_close())?)?;
    }
    Ok(lines)
}

fn add_svg(
    alloc: Global,
    airport: Option<u32>,
    book: &Book,
    told: &ToldShortage,
    lines: &mut Vec<Line>,
) -> Result<(), Memory>
    requires { IsToldOf book.now told.now }
    ensures { OnOk result (lines.new.items ≡ lines.old.items ++ svg_lines airport book.now told.now) }
{
    let (height, from, days) = (height_of(told), first_day(book, told), days_of(book, told));
    add_front(alloc, height, days, told, lines)?;
    add_whole_front(alloc, width_of(book), height, lines)?;
    add_body(alloc, airport, book, told, lines)?;
    add_strip_lines(alloc, height, from, days, lines)?;
    lines.push(fixed_line(alloc, close())?)?;
    Ok(())
}

fn height_of(told: &ToldShortage) -> u64
    ensures value { result ≡ height_of told.now }
    ensures range { result < 10_000_000 }
{
    y_of(lanes_of(&told.asked) + lanes_of(&told.brought)) + 20
}

// Adds what stands before what the strips show parts of.
fn add_front(
    alloc: Global,
    height: u64,
    days: u64,
    told: &ToldShortage,
    lines: &mut Vec<Line>,
) -> Result<(), Memory>
    requires height { height < 10_000_000 }
    requires few { days < 100_000 }
    ensures { OnOk result (lines.new.items ≡ lines.old.items ++ front_lines height days told.now) }
{
    lines.push(open_line(alloc, LEFT + DAY_WIDTH, strip_top(height, days))?)?;
    lines.push(fixed_line(alloc, style())?)?;
    lines.push(fixed_line(alloc, brought_style())?)?;
    lines.push(fixed_line(alloc, grid_patterns())?)?;
    lines.push(title_line(alloc, told)?)?;
    Ok(())
}

// The title: what is wanting, how many activities are asked for and brought, and how many of them the aircraft can fly.
fn title_line(alloc: Global, told: &ToldShortage) -> Result<Line, Memory>
    ensures { IfOk result (λ line. line ≡ title_line told.now) }
{
    let mut line = Line::new(alloc)?;
    line.text(b"<text class='title' x='10' y='40'>")?;
    line.text(told.because.bytes())?;
    line.text(b": asked ")?;
    line.unsigned(told.asked.len() as u64)?;
    line.text(b", brought ")?;
    line.unsigned(told.brought.len() as u64)?;
    line.text(b", ")?;
    line.text(told.at_most.bytes())?;
    line.text(b"</text>\n")?;
    Ok(line)
}

// Adds what stands at its minutes: the curfews, the dates, and the rows of both sides.
fn add_body(
    alloc: Global,
    airport: Option<u32>,
    book: &Book,
    told: &ToldShortage,
    lines: &mut Vec<Line>,
) -> Result<(), Memory>
    requires { IsToldOf book.now told.now }
    ensures { OnOk result (lines.new.items ≡ lines.old.items ++ body_lines airport book.now told.now) }
{
    let (first, width) = (first_moment(book), width_of(book));
    add_bands(alloc, book, airport, height_of(told), lines)?;
    add_days(alloc, first, days_shown(book), lines)?;
    add_lanes(
        alloc,
        book,
        Side::Asked,
        first,
        width,
        0,
        &told.asked,
        lines,
    )?;
    add_brought(
        alloc,
        book,
        first,
        width,
        lanes_of(&told.asked),
        &told.brought,
        lines,
    )?;
    Ok(())
}
