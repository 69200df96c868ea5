//! Books with names of their own, a counter and a curfew, and plans as texts.

use crate::tests::books::{Leg, activity, book, plain, put_counter, put_night};
pub use crate::tests::books::{ARN, CHEAP, DEAR, OSL, Q, TailRow, Task};
use std::alloc::Global;
use std::test::Fail;
use tail_book::*;

// The name of two letters or digits, and else X9.
pub fn name(id: &[u8; 2]) -> Name {
    if id[0].is_ascii_alphanumeric() && id[1].is_ascii_alphanumeric() {
        return Name::new(id.as_slice());
    }
    Name::new(b"X9".as_slice())
}

// What an activity is called, and its row.
pub type Called = (&'static [u8; 2], Leg);

// What the one counter counts, two aircraft, and activities.
pub type Made = (CounterKind, &'static [TailRow], &'static [Called]);

// An aircraft of each type at ARN.
pub const BOTH: &[TailRow] = &[CHEAP, DEAR];

pub const THERE: Called = (b"F1", (Task::Flight, (ARN, OSL), (360, 420)));

pub const BACK: Called = (b"F2", (Task::Flight, (OSL, ARN), (450, 510)));

pub const CHECK: Called = (b"C1", (Task::Check, (ARN, ARN), (4940, 5000)));

fn activities(alloc: Global, called: &[Called]) -> Result<Vec<Activity>, Memory> {
    let mut activities = Vec::new(alloc);
    for (id, leg) in called {
        activities.push(activity(alloc, name(id), leg)?)?;
    }
    Ok(activities)
}

// Two hours of flying between stops, or a day.
fn limit(kind: CounterKind) -> i64 {
    match kind {
        CounterKind::Days => 1440,
        _ => 120,
    }
}

// One counter, which an hour at ARN clears; ARN is closed for landings at night.
fn rules(alloc: Global, kind: CounterKind) -> Result<Rules, Memory> {
    let mut rules = plain(alloc, 30)?;
    put_rules(alloc, &mut rules, kind)?;
    Ok(rules)
}

fn put_rules(alloc: Global, rules: &mut Rules, kind: CounterKind) -> Result<(), Memory> {
    put_night(rules, false, Vec::new(alloc))?;
    put_counter(alloc, rules, kind, limit(kind))
}

// A book with the aircraft A1 and A2.
pub fn book_of(alloc: Global, made: Made) -> Result<Book, Fail> {
    let (kind, rows, called) = made;
    let activities = activities(alloc, called)?;
    book(alloc, activities, rows, rules(alloc, kind)?)
}

// Adds a name to a plan: an aircraft begins a line, and an id goes to the last one.
fn add(alloc: Global, begins: bool, name: Name, lines: &mut Vec<RawLine>) -> Result<(), Memory> {
    if begins {
        lines.push(RawLine {
            tail: name,
            ids: Vec::new(alloc),
        })?;
    } else if let Some(line) = lines.last_mut() {
        line.ids.push(name)?;
    }
    Ok(())
}

// The plan of a text like `A1:F1 F2 A2:`, in which each name has two letters and `:` or a space behind it.
pub fn plan(alloc: Global, text: &[u8]) -> Result<RawPlan, Memory> {
    let mut lines = Vec::new(alloc);
    for i in 0..text.len() / 3 {
        let (first, second, mark) = (text[i * 3], text[i * 3 + 1], text[i * 3 + 2]);
        add(alloc, mark == b':', name(&[first, second]), &mut lines)?;
    }
    Ok(RawPlan { lines })
}

// A plan of numbers.
pub fn routes(alloc: Global, listed: &[&[u32]]) -> Result<Plan, Memory> {
    let mut routes = Vec::new(alloc);
    for route in listed {
        routes.push(Route(Vec::from_slice(alloc, route)?))?;
    }
    Ok(Plan(routes))
}
