//! The plan in a file, up to the file's first refusal.
//!
//! The file is what the planner prints with a plan: a first line, and a line for each aircraft. It is read in one pass.
//! Names are kept as they stand, since no book is at hand to look them up.

ghost use Rattle.std.specs.Prelude.{◌≡◌, ◌≤◌, length, IfOk};
ghost use Rattle.tail_book.specs.declared.limits.TheConstants.{ACTIVITY_LIMIT, TAIL_LIMIT};
ghost use Rattle.tail_text.specs.inside.Reading.{Answers};
ghost use Rattle.tail_text.specs.declared.refusal.Stopped.TheVariants.{Refused};
ghost use Rattle.plan_report.specs.inside.PlanText.{IsSmallPlan};
ghost use Rattle.plan_report.specs.PlanText.{ids_in, is_cost, is_first_line, is_heading, line_in, line_of, lines_from, plan_in, plan_of, refused, tail_in, takes_two, without_mark};

use crate::text_lines::{TextLine, TextLines};
use std::alloc::Global;
use tail_book::limits::{ACTIVITY_LIMIT, TAIL_LIMIT};
use tail_book::{Name, RawLine, RawPlan};
use tail_text::{Parts, Refusal, SIZE_LIMIT, Stopped, Table, codes, name, number};

/// The plan in a file, with the names as they stand there, or the file's first refusal. A refusal's place is the number
/// of its line, counted from 1, or 0 where the whole file is meant.
pub fn read_plan(alloc: Global, bytes: &[u8]) -> Result<RawPlan, Stopped>
    ensures plan { Answers (λ plan. plan) (plan_in bytes.now) result }
    ensures small { IfOk result IsSmallPlan }
{
    if bytes.len() > SIZE_LIMIT {
        return Err(refused(codes::TOO_BIG, 0));
    }
    let mut lines = TextLines::new(without_mark(bytes));
    plan_of(alloc, &mut lines)
}

fn refused(code: u8, place: u64) -> Stopped
    ensures { result ≡ Refused (refused code place) }
{
    Stopped::Refused(Refusal {
        code,
        table: Table::Plan,
        place,
    })
}

fn without_mark(bytes: &[u8]) -> &[u8]
    ensures { result.now ≡ without_mark bytes.now }
{
    match bytes.strip_prefix(b"\xEF\xBB\xBF".as_slice()) {
        Some(text) => text,
        None => bytes,
    }
}

fn plan_of(alloc: Global, lines: &mut TextLines<'_>) -> Result<RawPlan, Stopped>
    ensures plan { Answers (λ plan. plan) (plan_of lines.old) result }
    ensures small { IfOk result IsSmallPlan }
{
    let Some(first) = lines.take() else {
        return Err(refused(codes::HEADER, 1));
    };
    if !is_first_line(&first) {
        return Err(refused(codes::HEADER, 1));
    }
    lines_from(alloc, lines)
}

fn is_first_line(line: &TextLine<'_>) -> bool
    ensures { result ≡ is_first_line line.now }
{
    line.ends && is_heading(&mut Parts::new(line.text, b' '))
}

fn is_heading(parts: &mut Parts<'_>) -> bool
    ensures { result ≡ is_heading parts.old }
{
    let (first, low, high, more) = (parts.take(), parts.take(), parts.take(), parts.take());
    match (first, low, high, more) {
        (Some(first), Some(cost), None, _) => first == b"optimal".as_slice() && is_cost(cost),
        (Some(first), Some(low), Some(high), None) => {
            takes_two(first) && is_cost(low) && is_cost(high)
        }
        _ => false,
    }
}

// Whether two numbers follow the word: those of a limit, or of a repair.
fn takes_two(first: &[u8]) -> bool
    ensures { result ≡ takes_two first.now }
{
    first == b"limit".as_slice() || first == b"repaired".as_slice()
}

fn is_cost(part: &[u8]) -> bool
    ensures { result ≡ is_cost part.now }
{
    number(part, u64::MAX).is_ok()
}

// The lines under the first one.
fn lines_from(alloc: Global, left: &mut TextLines<'_>) -> Result<RawPlan, Stopped>
    ensures lines { Answers (λ plan. plan.lines) (lines_from 2 TAIL_LIMIT left.old) result }
    ensures small { IfOk result IsSmallPlan }
{
    let mut lines = Vec::new(alloc);
    while let Some(line) = left.take() {
        let place = lines.len() as u64 + 2;
        if lines.len() >= TAIL_LIMIT {
            return Err(refused(codes::TOO_MANY, place));
        }
        match line_in(alloc, place, &line) {
            Ok(line) => {
                if lines.push(line).is_err() {
                    return Err(Stopped::Memory);
                }
            }
            Err(stopped) => return Err(stopped),
        }
    }
    Ok(RawPlan { lines })
}

fn line_in(alloc: Global, place: u64, line: &TextLine<'_>) -> Result<RawLine, Stopped>
    ensures line { Answers (λ line. line) (line_in place line.now) result }
    ensures few { IfOk result (λ line. length line.ids ≤ ACTIVITY_LIMIT) }
{
    if !line.ends {
        return Err(refused(codes::SHAPE, place));
    }
    line_of(alloc, place, &mut Parts::new(line.text, b' '))
}

fn line_of(alloc: Global, place: u64, parts: &mut Parts<'_>) -> Result<RawLine, Stopped>
    ensures line { Answers (λ line. line) (line_of place parts.old) result }
    ensures few { IfOk result (λ line. length line.ids ≤ ACTIVITY_LIMIT) }
{
    let Some(part) = parts.take() else {
        return Err(refused(codes::SHAPE, place));
    };
    let tail = match tail_in(place, part) {
        Ok(tail) => tail,
        Err(stopped) => return Err(stopped),
    };
    match ids_in(alloc, place, parts) {
        Ok(ids) => Ok(RawLine { tail, ids }),
        Err(stopped) => Err(stopped),
    }
}

fn tail_in(place: u64, part: &[u8]) -> Result<Name, Stopped>
    ensures { Answers (λ tail. tail) (tail_in place part.now) result }
{
    let Some((last, front)) = part.split_last() else {
        return Err(refused(codes::SHAPE, place));
    };
    if *last != b':' {
        return Err(refused(codes::SHAPE, place));
    }
    match name(front) {
        Ok(tail) => Ok(tail),
        Err(_) => Err(refused(codes::SHAPE, place)),
    }
}

// The parts that are left, as ids. An id too many is kept back, since a bad one may follow it.
fn ids_in(alloc: Global, place: u64, parts: &mut Parts<'_>) -> Result<Vec<Name>, Stopped>
    ensures ids { Answers (λ ids. ids.items) (ids_in place parts.old) result }
    ensures few { IfOk result (λ ids. length ids.items ≤ ACTIVITY_LIMIT) }
{
    let mut ids = Vec::new(alloc);
    let mut too_many = false;
    while let Some(part) = parts.take() {
        let Ok(id) = name(part) else {
            return Err(refused(codes::SHAPE, place));
        };
        if ids.len() >= ACTIVITY_LIMIT {
            too_many = true;
        } else if ids.push(id).is_err() {
            return Err(Stopped::Memory);
        }
    }
    if too_many {
        return Err(refused(codes::TOO_MANY, place));
    }
    Ok(ids)
}
