//! The bars of activities, and the rules that their aircraft break with them.
//!
//! A bar stands at the minutes of its activity, and is red where a rule is named with it, and outlined where
//! another aircraft flew it before. For each bar in an aircraft's
//! row all broken rules are looked through, so naming them costs as many looks as there are bars times broken rules,
//! and nothing where the plan is legal.

ghost use Rattle.std.specs.Prelude.{◌≡◌, ◌<◌, ◌++◌, IfOk, OnOk, All, length};
ghost use Rattle.tail_book.specs.Lookup.{activities, activity_of, airport_of, from_port, tail_of, to_port};
ghost use Rattle.tail_book.specs.inside.Sound.{IsMoment};
ghost use Rattle.plan_report.specs.AuditText.{counter_name};
ghost use Rattle.plan_report.specs.inside.AuditText.{IsOfBook};
ghost use Rattle.plan_picture.specs.inside.Drawable.{IsNear};
ghost use Rattle.plan_picture.specs.Bars.{at_port, bar_class, bar_front, bar_line, bar_lines, details, if_same, kind_class, moved_class, moved_text, red_class, rule_at, rule_line, rules_at};

use crate::calendar::add_moment;
use crate::layout::{add_span, x_of, y_of};
use plan_audit::Broken;
use std::alloc::Global;
use tail_book::{Book, Memory, end_of, start_of};
use tail_text::Line;

/// The id of an activity.
fn id_of(book: &Book, a: u32) -> &[u8]
    requires { a < activities book.now }
    ensures { result.now ≡ (activity_of book.now a).id }
{
    book.activities[a as usize].id.as_bytes()
}

/// The name of an airport.
pub fn port_name(book: &Book, port: u32) -> &[u8]
    requires { port < length book.now.rules.airports }
    ensures { result.now ≡ (airport_of book.now port).name }
{
    book.rules.airports[port as usize].name.as_bytes()
}

// Appends a text where the numbers are those of this aircraft and this activity.
fn add_if_same(k: u32, a: u32, j: u32, b: u32, text: &[u8], line: &mut Line) -> Result<(), Memory>
    ensures { OnOk result (line.new ≡ line.old ++ if_same k a j b text.now) }
{
    if j == k && b == a {
        line.text(text)?;
    }
    Ok(())
}

fn add_counter(book: &Book, c: u32, line: &mut Line) -> Result<(), Memory>
    requires { c < length book.now.rules.counters }
    ensures { OnOk result (line.new ≡ line.old ++ counter_name book.now c) }
{
    line.text(book.rules.counters[c as usize].name.as_bytes())
}

// Appends the name of a broken rule, where aircraft `k` breaks it with activity `a`.
fn add_rule_at(book: &Book, k: u32, a: u32, rule: &Broken, line: &mut Line) -> Result<(), Memory>
    requires { IsOfBook book.now rule.now }
    ensures { OnOk result (line.new ≡ line.old ++ rule_at book.now k a rule.now) }
{
    match rule {
        Broken::Unknown(_) | Broken::Twice(_) | Broken::Uncovered(_) => Ok(()),
        Broken::NotAllowed(j, b) => add_if_same(k, a, *j, *b, b" notallowed", line),
        Broken::Curfew(j, b) => add_if_same(k, a, *j, *b, b" curfew", line),
        Broken::NoLink(j, b) => add_if_same(k, a, *j, *b, b" nolink", line),
        Broken::Counter(j, b, c) => {
            if *j == k && *b == a {
                line.text(b" counter ")?;
                add_counter(book, *c, line)?;
            }
            Ok(())
        }
    }
}

/// Appends the names of all rules that aircraft `k` breaks with activity `a`.
pub fn add_rules_at(
    book: &Book,
    k: u32,
    a: u32,
    rules: &[Broken],
    line: &mut Line,
) -> Result<(), Memory>
    requires { All (IsOfBook book.now) rules.now }
    ensures { OnOk result (line.new ≡ line.old ++ rules_at book.now k a rules.now) }
{
    for rule in rules {
        add_rule_at(book, k, a, rule, line)?;
    }
    Ok(())
}

// Appends whether an activity is a flight or ground time.
fn add_kind_class(book: &Book, a: u32, line: &mut Line) -> Result<(), Memory>
    requires { a < activities book.now }
    ensures { OnOk result (line.new ≡ line.old ++ kind_class book.now a) }
{
    if book.activities[a as usize].flight {
        line.text(b"flight")
    } else {
        line.text(b"ground")
    }
}

// Appends the class that makes a bar red, where a rule is named.
fn add_red_class(names: &[u8], line: &mut Line) -> Result<(), Memory>
    ensures { OnOk result (line.new ≡ line.old ++ red_class names.now) }
{
    if names.is_empty() {
        return Ok(());
    }
    line.text(b" red")
}

// Appends the class of an outline, where another aircraft flew the activity before.
fn add_moved_class(before: Option<u32>, line: &mut Line) -> Result<(), Memory>
    ensures { OnOk result (line.new ≡ line.old ++ moved_class before) }
{
    match before {
        Some(_) => line.text(b" moved"),
        None => Ok(()),
    }
}

fn tail_name(book: &Book, j: u32) -> &[u8]
    ensures { result.now ≡ (tail_of book.now j).name }
{
    match book.tails.get(j as usize) {
        Some(tail) => tail.name.as_bytes(),
        None => &[],
    }
}

// Appends which aircraft that was.
fn add_moved_text(book: &Book, before: Option<u32>, line: &mut Line) -> Result<(), Memory>
    ensures { OnOk result (line.new ≡ line.old ++ moved_text book.now before) }
{
    match before {
        Some(j) => {
            line.text(b", moved from ")?;
            line.text(tail_name(book, j))
        }
        None => Ok(()),
    }
}

fn add_class(
    book: &Book,
    a: u32,
    names: &[u8],
    before: Option<u32>,
    line: &mut Line,
) -> Result<(), Memory>
    requires { a < activities book.now }
    ensures { OnOk result (line.new ≡ line.old ++ bar_class book.now a names.now before) }
{
    add_kind_class(book, a, line)?;
    add_red_class(names, line)?;
    add_moved_class(before, line)
}

fn add_at_port(book: &Book, port: u32, moment: i64, line: &mut Line) -> Result<(), Memory>
    requires port { port < length book.now.rules.airports }
    requires moment { IsMoment moment }
    ensures { OnOk result (line.new ≡ line.old ++ at_port book.now port moment) }
{
    line.text(port_name(book, port))?;
    line.text(b" ")?;
    add_moment(moment.unsigned_abs(), line)
}

fn add_details(
    book: &Book,
    a: u32,
    names: &[u8],
    before: Option<u32>,
    line: &mut Line,
) -> Result<(), Memory>
    requires { a < activities book.now }
    ensures { OnOk result (line.new ≡ line.old ++ details book.now a names.now before) }
{
    line.text(id_of(book, a))?;
    line.text(b", ")?;
    add_at_port(book, from_port(book, a), start_of(book, a), line)?;
    line.text(b", ")?;
    add_at_port(book, to_port(book, a), end_of(book, a), line)?;
    add_moved_text(book, before, line)?;
    line.text(names)
}

fn from_port(book: &Book, a: u32) -> u32
    requires { a < activities book.now }
    ensures value { result ≡ from_port book.now a }
    ensures range { result < length book.now.rules.airports }
{
    book.activities[a as usize].from
}

fn to_port(book: &Book, a: u32) -> u32
    requires { a < activities book.now }
    ensures value { result ≡ to_port book.now a }
    ensures range { result < length book.now.rules.airports }
{
    book.activities[a as usize].to
}

// Appends the front of a bar: its class, its place, and what is told of it.
fn add_front(
    book: &Book,
    first: i64,
    row: u64,
    a: u32,
    names: &[u8],
    before: Option<u32>,
    line: &mut Line,
) -> Result<(), Memory>
    requires activity { a < activities book.now }
    requires first { IsNear first }
    requires row { row < 1000 }
    ensures { OnOk result (line.new ≡ line.old ++ bar_front book.now first row a names.now before) }
{
    line.text(b"<svg class='")?;
    add_class(book, a, names, before, line)?;
    line.text(b"'")?;
    add_span(
        first,
        y_of(row) + 24,
        start_of(book, a),
        end_of(book, a),
        line,
    )?;
    line.text(b" height='60'><title>")?;
    add_details(book, a, names, before, line)?;
    line.text(b"</title><rect width='100%' height='32'/>")
}

fn bar_line(
    alloc: Global,
    book: &Book,
    first: i64,
    row: u64,
    a: u32,
    names: &[u8],
    before: Option<u32>,
) -> Result<Line, Memory>
    requires activity { a < activities book.now }
    requires first { IsNear first }
    requires row { row < 1000 }
    ensures { IfOk result (λ line. line ≡ bar_line book.now first row a names.now before) }
{
    let mut line = Line::new(alloc)?;
    add_front(book, first, row, a, names, before, &mut line)?;
    line.text(b"<text class='id' x='50%' y='22'>")?;
    line.text(id_of(book, a))?;
    line.text(b"</text><text class='port' x='2' y='44'>")?;
    line.text(port_name(book, from_port(book, a)))?;
    line.text(b"</text><text class='port to' x='100%' y='56'>")?;
    line.text(port_name(book, to_port(book, a)))?;
    line.text(b"</text></svg>\n")?;
    Ok(line)
}

fn rule_line(
    alloc: Global,
    book: &Book,
    first: i64,
    row: u64,
    i: u64,
    a: u32,
    names: &[u8],
) -> Result<Line, Memory>
    requires activity { a < activities book.now }
    requires first { IsNear first }
    requires row { row < 1000 }
    ensures { IfOk result (λ line. line ≡ rule_line book.now first row i a names.now) }
{
    let mut line = Line::new(alloc)?;
    line.text(b"<text class='rule' x='")?;
    line.unsigned(x_of(first, start_of(book, a)))?;
    line.text(b"' y='")?;
    line.unsigned(y_of(row) + 18 + (i % 2) * 78)?;
    line.text(b"'>")?;
    line.text(names)?;
    line.text(b"</text>\n")?;
    Ok(line)
}

/// Adds the bar of an activity, with the aircraft that flew it before where that was another one, and the names of the rules
/// that are broken with it where there are any.
pub fn add_bar(
    alloc: Global,
    book: &Book,
    first: i64,
    row: u64,
    i: u64,
    a: u32,
    names: &[u8],
    before: Option<u32>,
    lines: &mut Vec<Line>,
) -> Result<(), Memory>
    requires activity { a < activities book.now }
    requires first { IsNear first }
    requires row { row < 1000 }
    ensures { OnOk result (lines.new.items ≡ lines.old.items ++ bar_lines book.now first row i a names.now before) }
{
    lines.push(bar_line(alloc, book, first, row, a, names, before)?)?;
    if !names.is_empty() {
        lines.push(rule_line(alloc, book, first, row, i, a, names)?)?;
    }
    Ok(())
}
