//! First duals that show at once that no plan is there, where activities ask for more than types of aircraft or counters allow.
//!
//! A plan has each activity of a set. So where each of them has the end of the box for a dual, and the routes of least weight
//! together have one fewer, the Lagrangian sum is as much as a target can be. Where minutes are short there are second duals,
//! in which flights have shares of that end by their minutes. Counting only finds the sets: pricing tells whether one is short.

ghost use Rattle.std.specs.Prelude.{◌<◌, All, length, IfOk};
ghost use Rattle.tail_book.specs.Lookup.{activities};
ghost use Rattle.tail_book.specs.CostTable.{IsInBox, IsTableFor};
ghost use Rattle.branch_marks.specs.Settled.{AreDuals};
ghost use Rattle.branch_marks.specs.inside.MarkTables.{AreMarksOf};

use crate::root_duals::push_dual;
use branch_marks::Marks;
use std::alloc::Global;
use tail_book::laws::every_book_is_sound;
use tail_book::{Activity, Book, CostTable, CounterKind, Duals, Memory, Tail};

// A set of activities, and what is asked for each of them.
#[derive(Clone, Copy, Debug)]
enum Demand {
    // Those under way at a moment that this type alone may fly: an aircraft for each.
    AtOnce { kind: u32, moment: i64 },
    // The flights that this type alone may fly, or all flights: each of them counts once.
    Flights { kind: Option<u32> },
    // The same flights: each counts by its minutes, in whole parts of so many.
    Minutes { kind: Option<u32>, part: i64 },
}

// The type of all aircraft that may fly an activity, if they are of one.
fn lone_kind(book: &Book, marks: &Marks, a: u32) -> Option<u32>
    requires marks { AreMarksOf book.now marks.now }
    requires activity { a < activities book.now }
{
    every_book_is_sound(book);
    let mut lone = None;
    for k in 0..book.tails.len() as u32 {
        if marks.alive(book, k, a) {
            let kind = book.tails[k as usize].kind;
            match lone {
                Some(other) if other != kind => return None,
                _ => lone = Some(kind),
            }
        }
    }
    lone
}

// For each activity the type that alone may fly it, if one does.
fn lone_kinds(alloc: Global, book: &Book, marks: &Marks) -> Result<Vec<Option<u32>>, Memory>
    requires marks { AreMarksOf book.now marks.now }
{
    every_book_is_sound(book);
    let mut kinds = Vec::new(alloc);
    for a in 0..book.activities.len() as u32 {
        kinds.push(lone_kind(book, marks, a))?;
    }
    Ok(kinds)
}

// How many aircraft are of a type.
fn fleet_of(book: &Book, kind: u32) -> i64 {
    let mut fleet = 0i64;
    for tail in book.tails.iter() {
        if tail.kind == kind {
            fleet = fleet.saturating_add(1);
        }
    }
    fleet
}

// The minutes that an activity flies.
fn minutes_of(activity: &Activity) -> i64 {
    if activity.flight {
        activity.end.saturating_sub(activity.start)
    } else {
        0
    }
}

// Whether a demand asks for an activity, given the type that alone may fly it.
fn asks_for(activity: &Activity, lone: Option<u32>, demand: Demand) -> bool {
    match demand {
        Demand::AtOnce { kind, moment } => {
            lone == Some(kind) && activity.start <= moment && moment < activity.end
        }
        Demand::Flights { kind } | Demand::Minutes { kind, .. } => {
            activity.flight && (kind.is_none() || lone == kind)
        }
    }
}

// Whether a demand asks for activity a.
fn asks(book: &Book, lone: &[Option<u32>], a: usize, demand: Demand) -> bool
    requires activity { a < activities book.now }
{
    match lone.get(a) {
        Some(kind) => asks_for(&book.activities[a], *kind, demand),
        None => false,
    }
}

// How many activities a demand asks for.
fn count(book: &Book, lone: &[Option<u32>], demand: Demand) -> i64 {
    let mut count = 0i64;
    for a in 0..book.activities.len() {
        if asks(book, lone, a, demand) {
            count = count.saturating_add(1);
        }
    }
    count
}

// The minutes of the longest activity that a demand asks for, and at least 1.
fn longest(book: &Book, lone: &[Option<u32>], demand: Demand) -> i64 {
    let mut longest = 1i64;
    for a in 0..book.activities.len() {
        if asks(book, lone, a, demand) {
            longest = longest.max(minutes_of(&book.activities[a]));
        }
    }
    longest
}

// What a type is asked for at the start of an activity, where that is more than it has aircraft.
fn at_once(book: &Book, lone: &[Option<u32>], kind: u32) -> Option<Demand> {
    let fleet = fleet_of(book, kind);
    for a in 0..book.activities.len() {
        let demand = Demand::AtOnce {
            kind,
            moment: book.activities[a].start,
        };
        if asks(book, lone, a, demand) && count(book, lone, demand) > fleet {
            return Some(demand);
        }
    }
    None
}

// Whether an activity sets a counter to 0.
fn resets(activity: &Activity, c: usize) -> bool {
    for reset in activity.resets.iter() {
        if *reset as usize == c {
            return true;
        }
    }
    false
}

// Whether something clears a counter: a stop at a base, or an activity.
fn is_cleared(book: &Book, c: usize) -> bool
    requires counter { c < length book.now.rules.counters }
{
    if !book.rules.counters[c].bases.is_empty() {
        return true;
    }
    for activity in book.activities.iter() {
        if resets(activity, c) {
            return true;
        }
    }
    false
}

// What an aircraft has left of a counter with such a limit.
fn left_to(tail: &Tail, c: usize, limit: i64) -> i64 {
    match tail.carry.get(c) {
        Some(carry) => limit.saturating_sub(*carry).max(0),
        None => 0,
    }
}

// What the aircraft of a type, or all, have left of a counter.
fn left(book: &Book, c: usize, kind: Option<u32>) -> i64
    requires counter { c < length book.now.rules.counters }
{
    let limit = book.rules.counters[c].limit;
    let mut left = 0i64;
    for tail in book.tails.iter() {
        if kind.is_none() || kind == Some(tail.kind) {
            left = left.saturating_add(left_to(tail, c, limit));
        }
    }
    left
}

// What an activity uses of a counter of a kind.
fn use_of(activity: &Activity, counted: CounterKind) -> i64 {
    match counted {
        CounterKind::Minutes => minutes_of(activity),
        CounterKind::Landings => 1,
        CounterKind::Days => 0,
    }
}

// How much more of a counter is used by the flights that a type alone may fly, or by all flights, than is left of it.
fn short_of(book: &Book, lone: &[Option<u32>], c: usize, kind: Option<u32>) -> i64
    requires counter { c < length book.now.rules.counters }
{
    let (counted, demand) = (book.rules.counters[c].kind, Demand::Flights { kind });
    let mut used = 0i64;
    for a in 0..book.activities.len() {
        if asks(book, lone, a, demand) {
            used = used.saturating_add(use_of(&book.activities[a], counted));
        }
    }
    used.saturating_sub(left(book, c, kind))
}

// Whether a counter is short for flights, or may be, since something clears it.
fn may_be_short(book: &Book, lone: &[Option<u32>], kind: Option<u32>) -> bool {
    for c in 0..book.rules.counters.len() {
        if is_cleared(book, c) || short_of(book, lone, c, kind) > 0 {
            return true;
        }
    }
    false
}

// The most minutes by which a counter of minutes that nothing clears is short for flights.
fn minutes_short(book: &Book, lone: &[Option<u32>], kind: Option<u32>) -> i64 {
    let mut most = 0i64;
    for c in 0..book.rules.counters.len() {
        if book.rules.counters[c].kind == CounterKind::Minutes && !is_cleared(book, c) {
            most = most.max(short_of(book, lone, c, kind));
        }
    }
    most
}

// The minutes of a part: flights that are rounded down lose half a part on average, and the longest is to stay short.
fn part_of(short: i64, longest: i64, flights: i64) -> i64 {
    let spare = short.saturating_sub(longest).max(0);
    (spare.saturating_mul(2) / flights.max(1)).saturating_add(1)
}

// Adds the flights that a type alone may fly, or all flights, where counters may be short for them.
fn push_flights(
    book: &Book,
    lone: &[Option<u32>],
    kind: Option<u32>,
    demands: &mut Vec<Demand>,
) -> Result<(), Memory> {
    let flights = Demand::Flights { kind };
    let count = count(book, lone, flights);
    if count == 0 {
        return Ok(());
    }
    if may_be_short(book, lone, kind) {
        demands.push(flights)?;
    }
    let short = minutes_short(book, lone, kind);
    let longest = longest(book, lone, flights);
    if short >= longest {
        let part = part_of(short, longest, count);
        demands.push(Demand::Minutes { kind, part })?;
    }
    Ok(())
}

// What is worth being priced.
fn demands_of(alloc: Global, book: &Book, lone: &[Option<u32>]) -> Result<Vec<Demand>, Memory> {
    every_book_is_sound(book);
    let mut demands = Vec::new(alloc);
    let kinds = book.rules.kinds.len() as u32;
    for kind in 0..kinds {
        if let Some(demand) = at_once(book, lone, kind) {
            demands.push(demand)?;
        }
    }
    push_flights(book, lone, None, &mut demands)?;
    for kind in 0..kinds {
        push_flights(book, lone, Some(kind), &mut demands)?;
    }
    Ok(demands)
}

// Minutes in whole parts.
fn rounded_down(minutes: i64, part: i64) -> i64 {
    let part = part.max(1);
    (minutes / part).saturating_mul(part)
}

// A number that is within the box, from 0 on.
fn within_box(table: &CostTable, dual: i64) -> i64
    ensures { IsInBox table.now result }
{
    let end = table.box_end();
    if dual < 0 {
        0
    } else if dual < end {
        dual
    } else {
        end
    }
}

// The dual of an activity.
fn dual_of(
    book: &Book,
    table: &CostTable,
    lone: &[Option<u32>],
    a: usize,
    demand: Demand,
    longest: i64,
) -> i64
    requires activity { a < activities book.now }
    ensures { IsInBox table.now result }
{
    if !asks(book, lone, a, demand) {
        return 0;
    }
    let end = table.box_end();
    match demand {
        Demand::AtOnce { .. } | Demand::Flights { .. } => end,
        Demand::Minutes { part, .. } => {
            let share = end / rounded_down(longest, part).max(1);
            let minutes = rounded_down(minutes_of(&book.activities[a]), part);
            within_box(table, share.saturating_mul(minutes))
        }
    }
}

// The duals of a demand.
fn duals_of(
    alloc: Global,
    book: &Book,
    table: &CostTable,
    lone: &[Option<u32>],
    demand: Demand,
) -> Result<Duals, Memory>
    requires table { IsTableFor book.now table.now }
    ensures { IfOk result (λ duals. AreDuals table.now book.now duals.values) }
{
    every_book_is_sound(book);
    let longest = longest(book, lone, demand);
    let mut values = Vec::new(alloc);
    for a in 0..book.activities.len() {
        let dual = dual_of(book, table, lone, a, demand, longest);
        push_dual(&mut values, &dual)?;
    }
    Ok(Duals { values })
}

/// Duals for each set of activities of which there may be too many. They show nothing until they are priced.
pub fn demand_duals(
    alloc: Global,
    book: &Book,
    table: &CostTable,
    marks: &Marks,
) -> Result<Vec<Duals>, Memory>
    requires table { IsTableFor book.now table.now }
    requires marks { AreMarksOf book.now marks.now }
    ensures { IfOk result (λ all. All (λ duals. AreDuals table.now book.now duals.values) all.items) }
{
    let lone = lone_kinds(alloc, book, marks)?;
    let demands = demands_of(alloc, book, &lone)?;
    let mut all = Vec::new(alloc);
    for demand in demands.iter() {
        all.push(duals_of(alloc, book, table, &lone, *demand)?)?;
    }
    Ok(all)
}
