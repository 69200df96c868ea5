//! The text of an audit: what was found, and a line for each broken rule.
//!
//! Numbers are printed as the book's names, so they have to be of the book, as those of every audit are: a law says it.
//! All lines are made before the first is put.

ghost use Rattle.std.specs.Prelude.{◌≡◌, ◌++◌, ◌<◌, ◌≤◌, false, map, All, IfOk, OnOk, OnErr, IsErrOf, decimal};
ghost use Rattle.tail_book.specs.Lookup.{activities, activity_of, aircraft};
ghost use Rattle.tail_outside.specs.Outside.{PieceHasFailed, Takes, TakesFront};
ghost use Rattle.plan_report.specs.Lines.{newline};
ghost use Rattle.plan_report.specs.inside.AuditText.{AreOfBook, IsOfBook, audit_text};
ghost use Rattle.plan_report.specs.AuditText.{audit_lines, broken_line, broken_text, pair_names};

use crate::writing::{ReportFail, write_lines};
use plan_audit::{Audit, Broken};
use std::alloc::Global;
use tail_book::{Book, Memory};
use tail_outside::Sink;
use tail_text::Line;

/// Writes what an audit found, one put a line: what a legal plan costs, or how many rules a plan breaks and which.
pub fn write_audit<S: Sink>(
    alloc: Global,
    book: &Book,
    audit: &Audit,
    out: &mut S,
) -> Result<(), ReportFail>
    requires { AreOfBook book.now audit.now }
    ensures taken { OnOk result (Takes (S.shows out.old) (S.shows out.new) (audit_text book.now audit.now)) }
    ensures front { OnErr result (TakesFront (S.shows out.old) (S.shows out.new) (audit_text book.now audit.now)) }
    ensures beside { S.beside out.old out.new }
    ensures ceases { (S.shows out.new).ceased ≡ false → (S.shows out.old).ceased ≡ false }
    ensures counts { (S.shows out.old).faults ≤ (S.shows out.new).faults }
    ensures cause { IsErrOf result ReportFail.Write → PieceHasFailed (S.shows out.old) (S.shows out.new) }
{
    let Ok(lines) = audit_lines(alloc, book, audit) else {
        return Err(ReportFail::Memory);
    };
    write_lines(&lines, out)
}

fn audit_lines(alloc: Global, book: &Book, audit: &Audit) -> Result<Vec<Line>, Memory>
    requires { AreOfBook book.now audit.now }
    ensures { IfOk result (λ lines. lines.items ≡ audit_lines book.now audit.now) }
{
    let mut lines = Vec::new(alloc);
    match audit {
        Audit::Legal(cost) => lines.push(counted_line(alloc, b"legal ", *cost)?)?,
        Audit::Broken(rules) => {
            lines.push(counted_line(alloc, b"broken ", rules.len() as u64)?)?;
            add_broken(alloc, book, rules, &mut lines)?;
        }
    }
    Ok(lines)
}

fn counted_line(alloc: Global, front: &[u8], count: u64) -> Result<Line, Memory>
    ensures { IfOk result (λ line. line ≡ front.now ++ decimal count ++ newline) }
{
    let mut line = Line::new(alloc)?;
    line.text(front)?;
    line.unsigned(count)?;
    line.text(b"\n")?;
    Ok(line)
}

fn add_broken(
    alloc: Global,
    book: &Book,
    rules: &[Broken],
    lines: &mut Vec<Line>,
) -> Result<(), Memory>
    requires { All (IsOfBook book.now) rules.now }
    ensures { OnOk result (lines.new.items ≡ lines.old.items ++ map (broken_line book.now) rules.now) }
{
    for rule in rules {
        lines.push(broken_line(alloc, book, rule)?)?;
    }
    Ok(())
}

fn broken_line(alloc: Global, book: &Book, rule: &Broken) -> Result<Line, Memory>
    requires { IsOfBook book.now rule.now }
    ensures { IfOk result (λ line. line ≡ broken_line book.now rule.now) }
{
    let mut line = Line::new(alloc)?;
    add_rule(book, rule, &mut line)?;
    line.text(b"\n")?;
    Ok(line)
}

fn add_rule(book: &Book, rule: &Broken, line: &mut Line) -> Result<(), Memory>
    requires { IsOfBook book.now rule.now }
    ensures { OnOk result (line.new ≡ line.old ++ broken_text book.now rule.now) }
{
    match rule {
        Broken::Unknown(name) => add_text(b"unknown ", name.as_bytes(), line),
        Broken::Twice(name) => add_text(b"twice ", name.as_bytes(), line),
        Broken::Uncovered(a) => add_text(b"uncovered ", id_of(book, *a), line),
        Broken::NotAllowed(k, a) => add_pair(b"notallowed ", book, *k, *a, line),
        Broken::Curfew(k, a) => add_pair(b"curfew ", book, *k, *a, line),
        Broken::NoLink(k, a) => add_pair(b"nolink ", book, *k, *a, line),
        Broken::Counter(k, a, c) => {
            add_pair(b"counter ", book, *k, *a, line)?;
            add_text(b" ", book.rules.counters[*c as usize].name.as_bytes(), line)
        }
    }
}

fn id_of(book: &Book, a: u32) -> &[u8]
    requires { a < activities book.now }
    ensures { result.now ≡ (activity_of book.now a).id }
{
    book.activities[a as usize].id.as_bytes()
}

fn add_text(front: &[u8], name: &[u8], line: &mut Line) -> Result<(), Memory>
    ensures { OnOk result (line.new ≡ line.old ++ front.now ++ name.now) }
{
    line.text(front)?;
    line.text(name)
}

// Adds an aircraft and an activity behind a front.
fn add_pair(front: &[u8], book: &Book, k: u32, a: u32, line: &mut Line) -> Result<(), Memory>
    requires aircraft { k < aircraft book.now }
    requires activity { a < activities book.now }
    ensures { OnOk result (line.new ≡ line.old ++ front.now ++ pair_names book.now k a) }
{
    add_text(front, book.tails[k as usize].name.as_bytes(), line)?;
    add_text(b" ", id_of(book, a), line)
}
