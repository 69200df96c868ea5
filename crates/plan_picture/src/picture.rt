//! The picture of a plan, line by line.
//!
//! All lines are made before the first is put. The kept plan and the broken rules are handed in, as an audit found them:
//! so a picture is drawn of what was judged, and nothing is judged twice.

ghost use Rattle.std.specs.Prelude.{◌≡◌, ◌<◌, ◌≤◌, ◌++◌, false, All, IfOk, OnErr, OnOk, IsErrOf};
ghost use Rattle.tail_book.specs.Lookup.{activities, aircraft};
ghost use Rattle.tail_outside.specs.Outside.{PieceHasFailed, Takes, TakesFront};
ghost use Rattle.plan_report.specs.Lines.{text_of};
ghost use Rattle.plan_picture.specs.Picture.{body_lines, by_day, colour, day_line, day_lines, front_lines, grid_line, height_of, in_one, name_rule, name_rules, open_line, page_lines, strips_front, svg_lines, title, title_line, whole_front, width_of};
ghost use Rattle.plan_picture.specs.inside.Drawable.{IsDrawable, IsNear};

use crate::calendar::add_date;
use crate::curfews::add_bands;
use crate::fixed::{
    clock, close, fixed_line, grid_patterns, html_close, html_open, style, whole_open,
};
use crate::layout::{DAY_WIDTH, LEFT, days_shown, first_moment, y_of};
use crate::moved::{add_moves, marked_by};
use crate::rows::{add_rows, add_uncovered, uncovered_in};
use crate::strips::{add_strip_lines, strip_top};
use crate::view::View;
use plan_audit::Broken;
use plan_report::{ReportFail, write_lines};
use std::alloc::Global;
use tail_book::laws::every_book_is_sound;
use tail_book::{Book, Memory, Plan};
use tail_outside::Sink;
use tail_text::Line;

/// Writes the picture of a plan, one put a line: its routes, and its cost, in cost units, or the rules that it breaks.
pub fn write_picture<S: Sink>(
    alloc: Global,
    view: &View,
    book: &Book,
    plan: &Plan,
    cost: u64,
    rules: &[Broken],
    out: &mut S,
) -> Result<(), ReportFail>
    requires { IsDrawable book.now plan.now rules.now }
    ensures taken { OnOk result (Takes (S.shows out.old) (S.shows out.new) (text_of (page_lines view.now book.now plan.now cost rules.now))) }
    ensures front { OnErr result (TakesFront (S.shows out.old) (S.shows out.new) (text_of (page_lines view.now book.now plan.now cost rules.now))) }
    ensures beside { S.beside out.old out.new }
    ensures ceases { (S.shows out.new).ceased ≡ false → (S.shows out.old).ceased ≡ false }
    ensures counts { (S.shows out.old).faults ≤ (S.shows out.new).faults }
    ensures cause { IsErrOf result ReportFail.Write → PieceHasFailed (S.shows out.old) (S.shows out.new) }
{
    let Ok(lines) = page_lines(alloc, view, book, plan, cost, rules) else {
        return Err(ReportFail::Memory);
    };
    write_lines(&lines, out)
}

fn page_lines(
    alloc: Global,
    view: &View,
    book: &Book,
    plan: &Plan,
    cost: u64,
    rules: &[Broken],
) -> Result<Vec<Line>, Memory>
    requires { IsDrawable book.now plan.now rules.now }
    ensures { IfOk result (λ lines. lines.items ≡ page_lines view.now book.now plan.now cost rules.now) }
{
    let mut lines = Vec::new(alloc);
    if view.html {
        lines.push(fixed_line(alloc, html_open())?)?;
    }
    add_svg(alloc, view, book, plan, cost, rules, &mut lines)?;
    if view.html {
        lines.push(fixed_line(alloc, html_close())?)?;
    }
    Ok(lines)
}

fn add_svg(
    alloc: Global,
    view: &View,
    book: &Book,
    plan: &Plan,
    cost: u64,
    rules: &[Broken],
    lines: &mut Vec<Line>,
) -> Result<(), Memory>
    requires { IsDrawable book.now plan.now rules.now }
    ensures { OnOk result (lines.new.items ≡ lines.old.items ++ svg_lines view.now book.now plan.now cost rules.now) }
{
    every_book_is_sound(book);
    let uncovered = uncovered_in(alloc, book, rules)?;
    if view.by_day {
        add_by_day(alloc, view, book, plan, cost, rules, &uncovered, lines)
    } else {
        add_in_one(alloc, view, book, plan, cost, rules, &uncovered, lines)
    }
}

// Adds the picture as one strip of all days.
fn add_in_one(
    alloc: Global,
    view: &View,
    book: &Book,
    plan: &Plan,
    cost: u64,
    rules: &[Broken],
    uncovered: &[u32],
    lines: &mut Vec<Line>,
) -> Result<(), Memory>
    requires few { aircraft book.now < 900 }
    requires drawable { IsDrawable book.now plan.now rules.now }
    requires activities { All (λ a. a < activities book.now) uncovered.now }
    ensures { OnOk result (lines.new.items ≡ lines.old.items ++ in_one view.now book.now plan.now cost rules.now uncovered.now) }
{
    let (width, height) = (width_of(book), height_of(book, uncovered));
    add_front(alloc, width, height, cost, rules, lines)?;
    add_moves(alloc, view, &plan.0, lines)?;
    add_body(alloc, view, book, plan, rules, uncovered, lines)?;
    lines.push(fixed_line(alloc, close())?)?;
    Ok(())
}

// Adds the picture as a strip for each day.
fn add_by_day(
    alloc: Global,
    view: &View,
    book: &Book,
    plan: &Plan,
    cost: u64,
    rules: &[Broken],
    uncovered: &[u32],
    lines: &mut Vec<Line>,
) -> Result<(), Memory>
    requires few { aircraft book.now < 900 }
    requires drawable { IsDrawable book.now plan.now rules.now }
    requires activities { All (λ a. a < activities book.now) uncovered.now }
    ensures { OnOk result (lines.new.items ≡ lines.old.items ++ by_day view.now book.now plan.now cost rules.now uncovered.now) }
{
    let (height, days) = (height_of(book, uncovered), days_shown(book));
    add_strips_front(alloc, height, days, cost, rules, lines)?;
    add_moves(alloc, view, &plan.0, lines)?;
    add_whole_front(alloc, width_of(book), height, lines)?;
    add_body(alloc, view, book, plan, rules, uncovered, lines)?;
    add_strip_lines(alloc, height, days, lines)?;
    lines.push(fixed_line(alloc, close())?)?;
    Ok(())
}

// Adds what stands at its minutes: the curfews, the dates, the rows, and what no route has.
fn add_body(
    alloc: Global,
    view: &View,
    book: &Book,
    plan: &Plan,
    rules: &[Broken],
    uncovered: &[u32],
    lines: &mut Vec<Line>,
) -> Result<(), Memory>
    requires few { aircraft book.now < 900 }
    requires drawable { IsDrawable book.now plan.now rules.now }
    requires activities { All (λ a. a < activities book.now) uncovered.now }
    ensures { OnOk result (lines.new.items ≡ lines.old.items ++ body_lines view.now book.now plan.now rules.now uncovered.now) }
{
    let (first, width) = (first_moment(book), width_of(book));
    add_bands(alloc, book, view.airport, height_of(book, uncovered), lines)?;
    add_days(alloc, first, days_shown(book), lines)?;
    let homes = marked_by(view);
    add_rows(alloc, book, homes, first, width, rules, &plan.0, lines)?;
    add_uncovered(alloc, book, first, width, uncovered, lines)?;
    Ok(())
}

/// The width of a picture, in units.
pub fn width_of(book: &Book) -> u64
    ensures value { result ≡ width_of book.now }
    ensures range { result < 10_000_000_000 }
{
    LEFT + days_shown(book) * DAY_WIDTH
}

fn height_of(book: &Book, uncovered: &[u32]) -> u64
    requires { aircraft book.now < 900 }
    ensures value { result ≡ height_of book.now uncovered.now }
    ensures range { result < 10_000_000 }
{
    let more = uncovered.len().min(8);
    y_of(book.tails.len() as u64 + more as u64) + 20
}

// Adds what stands before the rows: the head of the text, what is always the same, the title and the grid.
fn add_front(
    alloc: Global,
    width: u64,
    height: u64,
    cost: u64,
    rules: &[Broken],
    lines: &mut Vec<Line>,
) -> Result<(), Memory>
    requires width { width < 10_000_000_000 }
    requires height { height < 10_000_000 }
    ensures { OnOk result (lines.new.items ≡ lines.old.items ++ front_lines width height cost rules.now) }
{
    lines.push(open_line(alloc, width, height)?)?;
    lines.push(fixed_line(alloc, style())?)?;
    lines.push(fixed_line(alloc, grid_patterns())?)?;
    lines.push(fixed_line(alloc, clock())?)?;
    lines.push(title_line(alloc, cost, rules)?)?;
    lines.push(grid_line(alloc, width, height)?)?;
    Ok(())
}

// Adds what stands before what the strips show parts of.
fn add_strips_front(
    alloc: Global,
    height: u64,
    days: u64,
    cost: u64,
    rules: &[Broken],
    lines: &mut Vec<Line>,
) -> Result<(), Memory>
    requires height { height < 10_000_000 }
    requires few { days < 100_000 }
    ensures { OnOk result (lines.new.items ≡ lines.old.items ++ strips_front height days cost rules.now) }
{
    lines.push(open_line(alloc, LEFT + DAY_WIDTH, strip_top(height, days))?)?;
    lines.push(fixed_line(alloc, style())?)?;
    lines.push(fixed_line(alloc, grid_patterns())?)?;
    lines.push(title_line(alloc, cost, rules)?)?;
    Ok(())
}

/// Adds what stands before the rows in what the strips show parts of.
pub fn add_whole_front(
    alloc: Global,
    width: u64,
    height: u64,
    lines: &mut Vec<Line>,
) -> Result<(), Memory>
    ensures { OnOk result (lines.new.items ≡ lines.old.items ++ whole_front width height) }
{
    lines.push(fixed_line(alloc, whole_open())?)?;
    lines.push(fixed_line(alloc, clock())?)?;
    lines.push(grid_line(alloc, width, height)?)?;
    Ok(())
}

/// The head of a picture of this size.
pub fn open_line(alloc: Global, width: u64, height: u64) -> Result<Line, Memory>
    requires width { width < 10_000_000_000 }
    requires height { height < 10_000_000_000_000 }
    ensures { IfOk result (λ line. line ≡ open_line width height) }
{
    let mut line = Line::new(alloc)?;
    line.text(b"<svg xmlns='http://www.w3.org/2000/svg' viewBox='0 0 ")?;
    line.unsigned(width)?;
    line.text(b" ")?;
    line.unsigned(height)?;
    line.text(b"' width='")?;
    line.unsigned(width * 2 / 3)?;
    line.text(b"' height='")?;
    line.unsigned(height * 2 / 3)?;
    line.text(b"'>\n")?;
    Ok(line)
}

fn grid_line(alloc: Global, width: u64, height: u64) -> Result<Line, Memory>
    ensures { IfOk result (λ line. line ≡ grid_line width height) }
{
    let mut line = Line::new(alloc)?;
    line.text(b"<svg x='340' y='120' width='")?;
    line.unsigned(width)?;
    line.text(b"' height='")?;
    line.unsigned(height)?;
    line.text(
        b"'><rect width='100%' height='100%' fill='url(#hours)'/><rect width='100%' height='100%' fill='url(#sixes)'/><rect width='100%' height='100%' fill='url(#days)'/></svg><rect x='340' y='90' width='",
    )?;
    line.unsigned(width)?;
    line.text(b"' height='30' fill='url(#clock)'/>\n")?;
    Ok(line)
}

/// Adds the dates of so many days.
pub fn add_days(alloc: Global, first: i64, days: u64, lines: &mut Vec<Line>) -> Result<(), Memory>
    requires first { IsNear first }
    requires few { days < 700_000 }
    ensures { OnOk result (lines.new.items ≡ lines.old.items ++ day_lines first days) }
{
    for d in 0..days {
        lines.push(day_line(alloc, first, d)?)?;
    }
    Ok(())
}

fn day_line(alloc: Global, first: i64, d: u64) -> Result<Line, Memory>
    requires first { IsNear first }
    requires few { d < 700_000 }
    ensures { IfOk result (λ line. line ≡ day_line first d) }
{
    let mut line = Line::new(alloc)?;
    line.text(b"<text class='date' x='")?;
    line.unsigned(LEFT + d * DAY_WIDTH + 4)?;
    line.text(b"' y='82'>")?;
    add_date(first.unsigned_abs() / DAY_WIDTH + d, &mut line)?;
    line.text(b"</text>\n")?;
    Ok(line)
}

fn title_line(alloc: Global, cost: u64, rules: &[Broken]) -> Result<Line, Memory>
    ensures { IfOk result (λ line. line ≡ title_line cost rules.now) }
{
    let mut line = Line::new(alloc)?;
    line.text(b"<text class='title")?;
    add_colour(rules, &mut line)?;
    line.text(b"' x='10' y='40'>")?;
    add_title(cost, rules, &mut line)?;
    line.text(b"</text>\n")?;
    Ok(line)
}

// Appends the class that makes the title red, where rules are broken.
fn add_colour(rules: &[Broken], line: &mut Line) -> Result<(), Memory>
    ensures { OnOk result (line.new ≡ line.old ++ colour rules.now) }
{
    if rules.len() == 0 {
        return Ok(());
    }
    line.text(b" broken")
}

fn add_title(cost: u64, rules: &[Broken], line: &mut Line) -> Result<(), Memory>
    ensures { OnOk result (line.new ≡ line.old ++ title cost rules.now) }
{
    if rules.len() == 0 {
        line.text(b"cost ")?;
        return line.unsigned(cost);
    }
    line.text(b"broken rules ")?;
    line.unsigned(rules.len() as u64)?;
    add_name_rules(rules, line)
}

fn add_name_rules(rules: &[Broken], line: &mut Line) -> Result<(), Memory>
    ensures { OnOk result (line.new ≡ line.old ++ name_rules rules.now) }
{
    for rule in rules {
        add_name_rule(rule, line)?;
    }
    Ok(())
}

fn add_name_rule(rule: &Broken, line: &mut Line) -> Result<(), Memory>
    ensures { OnOk result (line.new ≡ line.old ++ name_rule rule.now) }
{
    match rule {
        Broken::Unknown(name) => {
            line.text(b", unknown ")?;
            line.text(name.as_bytes())
        }
        Broken::Twice(name) => {
            line.text(b", twice ")?;
            line.text(name.as_bytes())
        }
        _ => Ok(()),
    }
}
