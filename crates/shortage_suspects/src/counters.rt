//! Counters that are used up: flights that a group of aircraft alone may fly, and more of them than what it has left of a counter
//! allows.
//!
//! Where nothing clears the counter, counting shows it: each landing counts once, and an aircraft flies no more flights of so many
//! minutes or more than that goes into what it has left. Where something clears it, all such flights are looked at.

ghost use Rattle.std.specs.Prelude.{◌<◌, length, IfSome};

use crate::bit_rows::BitRows;
use crate::groups::Groups;
use crate::suspects::{Suspect, smaller};
use std::alloc::Global;
use tail_book::laws::every_book_is_sound;
use tail_book::{Activity, Book, CounterKind, Memory, Tail};

// So many lengths of flights are tried.
const LENGTHS: usize = 32;

// The minutes that an activity flies.
fn minutes_of(activity: &Activity) -> i64 {
    if activity.flight {
        activity.end.saturating_sub(activity.start)
    } else {
        0
    }
}

// Whether an activity sets a counter to 0.
fn resets(activity: &Activity, c: usize) -> bool {
    for reset in activity.resets.iter() {
        if *reset as usize == c {
            return true;
        }
    }
    false
}

// Whether something clears a counter: a stop at a base, or an activity.
fn is_cleared(book: &Book, c: usize) -> bool
    requires counter { c < length book.now.rules.counters }
{
    if !book.rules.counters[c].bases.is_empty() {
        return true;
    }
    for activity in book.activities.iter() {
        if resets(activity, c) {
            return true;
        }
    }
    false
}

// What an aircraft has left of a counter with such a limit.
fn left_to(tail: &Tail, c: usize, limit: i64) -> i64 {
    match tail.carry.get(c) {
        Some(carry) => limit.saturating_sub(*carry).max(0),
        None => 0,
    }
}

// How many uses of so much the aircraft of a group have left of a counter.
fn uses_left(book: &Book, groups: &Groups, g: usize, c: usize, each: i64) -> usize
    requires counter { c < length book.now.rules.counters }
{
    let limit = book.rules.counters[c].limit;
    let mut left = 0i64;
    for k in 0..book.tails.len() {
        if groups.has(g, k) {
            left = left.saturating_add(left_to(&book.tails[k], c, limit) / each.max(1));
        }
    }
    left.max(0) as usize
}

// The flights of so many minutes or more, and of one at least, that a group alone may fly.
fn flights(
    alloc: Global,
    book: &Book,
    carriers: &BitRows,
    groups: &Groups,
    g: usize,
    least: i64,
) -> Result<Vec<u32>, Memory> {
    every_book_is_sound(book);
    let mut list = Vec::new(alloc);
    for a in 0..book.activities.len() as u32 {
        let activity = &book.activities[a as usize];
        if minutes_of(activity) >= least.max(1) && groups.alone_fly(g, carriers, a as usize) {
            list.push(a)?;
        }
    }
    Ok(list)
}

// One flight more than a group has left, where there are as many: nothing less is needed.
fn one_more(alloc: Global, flights: Vec<u32>, left: usize) -> Option<Suspect> {
    if flights.len() <= left {
        return None;
    }
    let mut asked = flights;
    asked.truncate(left.saturating_add(1));
    Some(Suspect {
        asked,
        brought: Vec::new(alloc),
    })
}

// The minutes of one flight of a list, in so many steps from its first to its last.
fn length_at(book: &Book, list: &[u32], step: usize) -> i64 {
    let place = list.len().saturating_mul(step) / LENGTHS;
    match list.get(place) {
        Some(a) => match book.activities.get(*a as usize) {
            Some(activity) => minutes_of(activity),
            None => 0,
        },
        None => 0,
    }
}

// More flights of some minutes or more than go into what a group has left, if there are: the fewest that were found.
fn long_flights(
    alloc: Global,
    book: &Book,
    carriers: &BitRows,
    groups: &Groups,
    g: usize,
    c: usize,
) -> Result<Option<Suspect>, Memory>
    requires counter { c < length book.now.rules.counters }
{
    let all = flights(alloc, book, carriers, groups, g, 1)?;
    let mut fewest = None;
    for step in 0..LENGTHS {
        let each = length_at(book, &all, step);
        let left = uses_left(book, groups, g, c, each);
        if let Some(suspect) = one_more(
            alloc,
            flights(alloc, book, carriers, groups, g, each)?,
            left,
        ) {
            fewest = smaller(fewest, suspect);
        }
    }
    Ok(fewest)
}

// Flights that a group alone may fly and that use up what it has left of a counter that nothing clears, if counting shows any.
fn used_up(
    alloc: Global,
    book: &Book,
    carriers: &BitRows,
    groups: &Groups,
    g: usize,
    c: usize,
) -> Result<Option<Suspect>, Memory>
    requires counter { c < length book.now.rules.counters }
{
    match book.rules.counters[c].kind {
        CounterKind::Landings => {
            let left = uses_left(book, groups, g, c, 1);
            Ok(one_more(alloc, flights(alloc, book, carriers, groups, g, 1)?, left))
        }
        CounterKind::Minutes => long_flights(alloc, book, carriers, groups, g, c),
        CounterKind::Days => Ok(None),
    }
}

/// The fewest such flights of a group before the first pair that counting shows; none where something clears the counter.
pub fn fewest_used_up(
    alloc: Global,
    book: &Book,
    carriers: &BitRows,
    groups: &Groups,
    c: usize,
) -> Result<Option<Suspect>, Memory>
    requires counter { c < length book.now.rules.counters }
{
    let mut fewest = None;
    if is_cleared(book, c) {
        return Ok(None);
    }
    for g in 0..groups.single() {
        if let Some(suspect) = used_up(alloc, book, carriers, groups, g, c)? {
            fewest = smaller(fewest, suspect);
        }
    }
    Ok(fewest)
}

/// All flights that a group alone may fly.
pub fn all_flights(
    alloc: Global,
    book: &Book,
    carriers: &BitRows,
    groups: &Groups,
    g: usize,
) -> Result<Suspect, Memory> {
    Ok(Suspect {
        asked: flights(alloc, book, carriers, groups, g, 1)?,
        brought: Vec::new(alloc),
    })
}

// The minutes that a flight takes on average, and at least 1.
fn mean_length(book: &Book) -> i64 {
    let (mut sum, mut count) = (0i64, 0i64);
    for activity in book.activities.iter() {
        sum = sum.saturating_add(minutes_of(activity));
        count = count.saturating_add(i64::from(activity.flight));
    }
    (sum / count.max(1)).max(1)
}

// How many flights go into the limit of a counter that something clears. Days are not used by flights.
fn flights_between(book: &Book, c: usize, mean: i64) -> i64
    requires counter { c < length book.now.rules.counters }
{
    let counter = &book.rules.counters[c];
    match counter.kind {
        CounterKind::Landings => counter.limit,
        CounterKind::Minutes => counter.limit / mean.max(1),
        CounterKind::Days => i64::MAX,
    }
}

/// Of the counters that something clears the one into whose limit the fewest flights go.
pub fn tightest_cleared(book: &Book) -> Option<u32>
    ensures { IfSome result (λ c. c < length book.now.rules.counters) }
{
    every_book_is_sound(book);
    let mean = mean_length(book);
    let (mut tightest, mut fewest) = (None, i64::MAX);
    for c in 0..book.rules.counters.len() as u32 {
        let flights = flights_between(book, c as usize, mean);
        if flights < fewest && is_cleared(book, c as usize) {
            tightest = Some(c);
            fewest = flights;
        }
    }
    tightest
}
