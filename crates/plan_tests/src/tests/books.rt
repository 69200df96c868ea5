//! Small books, made through the checked constructor: a test that breaks a limit has no book, and fails when it runs.

use small_books::{named_flight, named_tail, names_in_order};
use std::alloc::Global;
use std::test::Fail;
use tail_book::*;

pub const ARN: u32 = 0;

pub const OSL: u32 = 1;

pub const CPH: u32 = 2;

// A minute flown costs 1 by type P, and 2 by type Q.
pub const P: u32 = 0;

pub const Q: u32 = 1;

// What an activity is.
#[derive(Clone, Copy)]
pub enum Task {
    // A flight for every aircraft, for a type, for those with a tag, or for one aircraft.
    Flight,
    FlightOfType(u32),
    FlightOfTag(u32),
    FlightOf(u32),
    // Ground time for every aircraft.
    Ground,
    // Ground time that sets the counter to 0 at its end, for every aircraft or for one.
    Check,
    CheckOf(u32),
}

// An activity: what it is, its airports, and its start and its end in minutes of 1970-01-01 UTC.
pub type Leg = (Task, (u32, u32), (i64, i64));

// An aircraft, and the minute at which it is ready.
#[derive(Clone, Copy)]
pub struct TailRow {
    pub kind: u32,
    pub at: u32,
    pub ready: i64,
    pub fixed: u64,
    pub tags: &'static [u32],
    pub avoid: &'static [u32],
    pub carry: i64,
}

// An aircraft of each type that comes in at ARN at midnight.
pub const CHEAP: TailRow = TailRow {
    kind: P,
    at: ARN,
    ready: 0,
    fixed: 0,
    tags: &[],
    avoid: &[],
    carry: 0,
};

pub const DEAR: TailRow = TailRow { kind: Q, ..CHEAP };

fn put_check(activity: &mut Activity) -> Result<(), Memory> {
    activity.flight = false;
    activity.resets.push(0)?;
    Ok(())
}

fn put_task(activity: &mut Activity, task: Task) -> Result<(), Memory> {
    match task {
        Task::Flight => {}
        Task::FlightOfType(kind) => activity.types.push(kind)?,
        Task::FlightOfTag(tag) => activity.tags.push(tag)?,
        Task::FlightOf(k) => activity.tail = Some(k),
        Task::Ground => activity.flight = false,
        Task::Check => put_check(activity)?,
        Task::CheckOf(k) => {
            activity.tail = Some(k);
            put_check(activity)?;
        }
    }
    Ok(())
}

// The activity of a row, of this name.
pub fn activity(alloc: Global, id: Name, leg: &Leg) -> Result<Activity, Memory> {
    let &(task, ports, time) = leg;
    let mut activity = named_flight(alloc, id, ports, time);
    put_task(&mut activity, task)?;
    Ok(activity)
}

// The activities of these rows, of which at most ten count.
pub fn activities(alloc: Global, legs: &[Leg]) -> Result<Vec<Activity>, Memory> {
    let mut activities = Vec::new(alloc);
    for (name, leg) in names_in_order().iter().zip(legs) {
        activities.push(activity(alloc, *name, leg)?)?;
    }
    Ok(activities)
}

fn put_lists(tail: &mut Tail, row: &TailRow, counters: usize) -> Result<(), Memory> {
    tail.fixed = row.fixed;
    tail.tags.extend_from_slice(row.tags)?;
    tail.avoid.extend_from_slice(row.avoid)?;
    for _ in 0..counters {
        tail.carry.push(row.carry)?;
    }
    Ok(())
}

fn tail(alloc: Global, name: Name, row: &TailRow, counters: usize) -> Result<Tail, Memory> {
    let mut tail = named_tail(alloc, name, row.kind, row.at, row.ready);
    put_lists(&mut tail, row, counters)?;
    Ok(tail)
}

// The aircraft are called A1 to A4 in their order.
fn tail_names() -> [Name; 4] {
    [
        Name::new(b"A1".as_slice()),
        Name::new(b"A2".as_slice()),
        Name::new(b"A3".as_slice()),
        Name::new(b"A4".as_slice()),
    ]
}

fn tails(alloc: Global, rows: &[TailRow], counters: usize) -> Result<Vec<Tail>, Memory> {
    let mut tails = Vec::new(alloc);
    for (name, row) in tail_names().iter().zip(rows) {
        tails.push(tail(alloc, *name, row, counters)?)?;
    }
    Ok(tails)
}

// The types, of which P has this turn.
fn kinds(alloc: Global, turn: i64) -> Result<Vec<AircraftType>, Memory> {
    let (p, q) = (Name::new(b"P".as_slice()), Name::new(b"Q".as_slice()));
    let mut kinds = Vec::new(alloc);
    for &(name, rate, turn) in &[(p, 1, turn), (q, 2, 30)] {
        kinds.push(AircraftType { name, rate, turn })?;
    }
    Ok(kinds)
}

// The airports, an hour ahead of UTC; the turn at CPH is 50 minutes.
fn airports(alloc: Global) -> Result<Vec<Airport>, Memory> {
    let mut airports = Vec::new(alloc);
    for &(name, turn) in &[
        (Name::new(b"ARN".as_slice()), 20),
        (Name::new(b"OSL".as_slice()), 20),
        (Name::new(b"CPH".as_slice()), 50),
    ] {
        airports.push(Airport::fixed(alloc, name, 60, turn))?;
    }
    Ok(airports)
}

// No curfew, no counter and no band; type P has this turn.
pub fn plain(alloc: Global, turn: i64) -> Result<Rules, Memory> {
    let (kinds, airports) = (kinds(alloc, turn)?, airports(alloc)?);
    Ok(Rules {
        kinds,
        airports,
        curfews: Vec::new(alloc),
        counters: Vec::new(alloc),
        bands: Vec::new(alloc),
    })
}

// Closes ARN from 23:00 to 06:00 there, for starts or else for landings of these types.
pub fn put_night(rules: &mut Rules, starts: bool, types: Vec<u32>) -> Result<(), Memory> {
    rules.curfews.push(Curfew {
        airport: ARN,
        from: 1380,
        to: 360,
        types,
        starts,
        landings: !starts,
    })?;
    Ok(())
}

// Adds a counter with this limit, of days in minutes, which an hour at ARN clears.
pub fn put_counter(
    alloc: Global,
    rules: &mut Rules,
    kind: CounterKind,
    limit: i64,
) -> Result<(), Memory> {
    let bases = vec![in alloc; ARN]?;
    rules.counters.push(Counter {
        name: Name::new(b"c".as_slice()),
        kind,
        limit,
        bases,
        stop: 60,
    })?;
    Ok(())
}

// The book of these parts, or a failure.
fn made(activities: Vec<Activity>, tails: Vec<Tail>, rules: Rules) -> Result<Book, Fail> {
    match Book::new(activities, tails, rules) {
        Some(book) => Ok(book),
        None => Err(Fail::new("no book")),
    }
}

// A book of these activities and rules, with these aircraft.
pub fn book(
    alloc: Global,
    activities: Vec<Activity>,
    rows: &[TailRow],
    rules: Rules,
) -> Result<Book, Fail> {
    let tails = tails(alloc, rows, rules.counters.len())?;
    made(activities, tails, rules)
}

pub fn has_routes(plan: &Plan, routes: &[&[u32]]) -> bool {
    if plan.0.len() != routes.len() {
        return false;
    }
    for k in 0..routes.len() {
        if plan.0[k].0.as_slice() != routes[k] {
            return false;
        }
    }
    true
}
