//! Books of rows, made through the checked constructor: a test that breaks a limit has no book, and fails when it runs.

use small_books::{named_flight, named_tail, names_in_order, rules};
use std::alloc::Global;
use std::test::Fail;
use tail_book::*;

pub const ARN: u32 = 0;

pub const OSL: u32 = 1;

// A flight: its airports, its start and its end, and the counters that it sets to 0.
pub type Leg = ((u32, u32), (i64, i64), &'static [u32]);

// An aircraft: where it comes in, and its values.
pub type Carried = (u32, &'static [i64]);

// A counter: its kind, its limit, its bases, and the stop there that clears it.
pub type Count = (CounterKind, i64, &'static [u32], i64);

fn flight(alloc: Global, id: Name, leg: &Leg) -> Result<Activity, Memory> {
    let &(ports, time, resets) = leg;
    let mut flight = named_flight(alloc, id, ports, time);
    flight.resets.extend_from_slice(resets)?;
    Ok(flight)
}

// Flights of these rows, of which at most ten count.
pub fn flights(alloc: Global, legs: &[Leg]) -> Result<Vec<Activity>, Memory> {
    let mut flights = Vec::new(alloc);
    for (name, leg) in names_in_order().iter().zip(legs) {
        flights.push(flight(alloc, *name, leg)?)?;
    }
    Ok(flights)
}

fn aircraft(alloc: Global, name: Name, row: &Carried) -> Result<Tail, Memory> {
    let &(at, carry) = row;
    let mut tail = named_tail(alloc, name, 0, at, 0);
    tail.carry.extend_from_slice(carry)?;
    Ok(tail)
}

fn fleet(alloc: Global, rows: &[Carried]) -> Result<Vec<Tail>, Memory> {
    let mut fleet = Vec::new(alloc);
    for (name, row) in names_in_order().iter().zip(rows) {
        fleet.push(aircraft(alloc, *name, row)?)?;
    }
    Ok(fleet)
}

fn counter(alloc: Global, name: Name, row: &Count) -> Result<Counter, Memory> {
    let &(kind, limit, bases, stop) = row;
    Ok(Counter {
        name,
        kind,
        limit,
        bases: Vec::from_slice(alloc, bases)?,
        stop,
    })
}

// Counters of these rows, of which at most ten count.
pub fn counters(alloc: Global, rows: &[Count]) -> Result<Vec<Counter>, Memory> {
    let mut counters = Vec::new(alloc);
    for (name, row) in names_in_order().iter().zip(rows) {
        counters.push(counter(alloc, *name, row)?)?;
    }
    Ok(counters)
}

// The book of these parts, or a failure.
pub fn made(activities: Vec<Activity>, fleet: Vec<Tail>, rules: Rules) -> Result<Book, Fail> {
    match Book::new(activities, fleet, rules) {
        Some(book) => Ok(book),
        None => Err(Fail::new("no book")),
    }
}

// A book of these flights, aircraft and counters, with this turn.
pub fn book(
    alloc: Global,
    legs: &[Leg],
    rows: &[Carried],
    turn: i64,
    counts: &[Count],
) -> Result<Book, Fail> {
    let rules = rules(alloc, turn, counters(alloc, counts)?, Vec::new(alloc))?;
    let fleet = fleet(alloc, rows)?;
    made(flights(alloc, legs)?, fleet, rules)
}
