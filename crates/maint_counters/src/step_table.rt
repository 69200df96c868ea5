//! The step of the counters, prepared once for a book.
//!
//! A step of the rules searches lists: a counter's bases and an activity's resets. The table has both as sets of
//! counters in the activity's row, beside its minutes and what it adds, so that a step reads three rows and searches nothing.
//! Only the carry-in depends on the aircraft. Making it searches the bases of each counter for each activity, 4,800,000
//! comparisons at most. A step allocates nothing.

ghost use Rattle.std.specs.Prelude.{◌≡◌, ◌<◌, ◌&&◌, ◌||◌, nat_eq, ◌≤◌, ◌≤ℤ◌, ◌+ℤ◌, ◌-ℤ◌, ◌^◌, ◌↔◌, ℕ, IfOk, IsTrue, pos, length, slice_index_or};
ghost use Rattle.tail_book.specs.declared.limits.TheConstants.{LAST_MOMENT};
ghost use Rattle.tail_book.specs.Lookup.{activities, aircraft, from_port, resets_of, tail_of};
ghost use Rattle.tail_book.specs.Link.{free_from};
ghost use Rattle.tail_book.specs.Numbers.{contains, int_le};
ghost use Rattle.tail_book.specs.Counters.{step, WithinLimits};
ghost use Rattle.tail_book.specs.Ranges.{IsWithin};
ghost use Rattle.tail_book.specs.inside.Sound.{IsMoment};
ghost use Rattle.tail_book.specs.LegalTests.{within_limits};
ghost use Rattle.tail_book.specs.Place.{IsPlaceOf};
ghost use Rattle.turn_rules.specs.inside.FreeBefore.{IsFreeBefore};
ghost use Rattle.turn_rules.specs.inside.NumberSet.{has};
ghost use Rattle.maint_counters.specs.inside.Counts.{AreCounts, AreCountable, GrowByAStep};
ghost use Rattle.maint_counters.specs.inside.StepTable.{AreActivityRows, AreCounterRows, IsActivityRow, IsCounterRow, IsInRange, IsStepTableOf, added_in, clears_in, counter_of, no_counter, stepped_in};

use crate::counting::{flown, landed};
use std::alloc::Global;
use tail_book::laws::{every_book_is_sound, limits_decide};
use tail_book::{Book, Counter, CounterKind, Memory, Place, end_of, start_of};
use turn_rules::{NumberSet, free_from};

/// What a step reads of an activity.
#[derive(Clone, Copy, Debug)]
pub struct ActivityRow {
    /// When it starts, and when it ends: minutes since 1970-01-01T00:00 UTC.
    pub start: i64,
    pub end: i64,
    /// The minutes that it flies, and its landings: both 0 on the ground.
    pub flown: i64,
    pub landings: i64,
    /// The counters that have a base where it starts, and those that it sets to 0.
    pub based: NumberSet,
    pub resets: NumberSet,
}

/// What a step reads of a counter.
#[derive(Clone, Copy, Debug)]
pub struct CounterRow {
    pub kind: CounterKind,
    /// Its greatest legal value: minutes or landings, minutes of the calendar for days.
    pub limit: i64,
    /// The least minutes of a stop that clears it.
    pub stop: i64,
}

/// What steps read of a book.
#[derive(Debug, Drop)]
pub struct StepTable {
    /// A row for each activity, and one for each counter.
    pub activities: Vec<ActivityRow>,
    pub counters: Vec<CounterRow>,
    /// When each aircraft is ready at its carry-in: minutes since 1970-01-01T00:00 UTC.
    pub ready: Vec<i64>,
}

// The set of counters, with one more where that one has a base at an airport.
fn with_based(based: NumberSet, c: u32, counter: &Counter, port: u32) -> NumberSet
    requires { c < 32 }
    ensures { (i : ℕ) → has result i ≡ (has based i || (nat_eq i c && contains counter.now.bases port)) }
{
    if counter.bases.contains(&port) {
        based.with(c)
    } else {
        based
    }
}

// The counters with a base at an airport.
fn based_at(counters: &[Counter], port: u32) -> NumberSet
    requires { length counters.now ≤ 6 }
    ensures { (c : ℕ) → c < length counters.now → has result c ≡ contains (slice_index_or counters.now c no_counter).bases port }
{
    let mut based = NumberSet::none();
    for c in 0..counters.len() {
        based = with_based(based, c as u32, &counters[c], port);
    }
    based
}

// The counters with a base where an activity starts.
fn based(book: &Book, a: u32) -> NumberSet
    requires { a < activities book.now }
    ensures { (c : ℕ) → c < length book.now.rules.counters → has result c ≡ contains (counter_of book.now c).bases (from_port book.now a) }
{
    every_book_is_sound(book);
    based_at(&book.rules.counters, book.activities[a as usize].from)
}

// The counters that an activity sets to 0.
fn resets(book: &Book, a: u32) -> NumberSet
    requires { a < activities book.now }
    ensures { (c : ℕ) → has result c ≡ contains (resets_of book.now a) c }
{
    every_book_is_sound(book);
    NumberSet::of(&book.activities[a as usize].resets)
}

// The row of an activity.
fn activity_row(book: &Book, a: u32) -> ActivityRow
    requires { a < activities book.now }
    ensures { IsActivityRow book.now a result }
{
    ActivityRow {
        start: start_of(book, a),
        end: end_of(book, a),
        flown: flown(book, a),
        landings: landed(book, a),
        based: based(book, a),
        resets: resets(book, a),
    }
}

// The row of a counter.
fn counter_row(counter: &Counter) -> CounterRow
    ensures { IsCounterRow counter.now result }
{
    CounterRow {
        kind: counter.kind,
        limit: counter.limit,
        stop: counter.stop,
    }
}

impl StepTable {
    /// What steps read of a book.
    pub fn of(alloc: Global, book: &Book) -> Result<StepTable, Memory>
        ensures { IfOk result (IsStepTableOf book.now) }
    {
        let activities = activity_rows(alloc, book)?;
        let counters = counter_rows(alloc, book)?;
        let ready = ready_minutes(alloc, book)?;
        Ok(StepTable {
            activities,
            counters,
            ready,
        })
    }
}

// The rows of all activities.
fn activity_rows(alloc: Global, book: &Book) -> Result<Vec<ActivityRow>, Memory>
    ensures count { IfOk result (λ rows. length rows.items ≡ activities book.now) }
    ensures each { IfOk result (λ rows. AreActivityRows book.now rows.items) }
{
    let mut rows = Vec::with_capacity(alloc, book.activities.len())?;
    for a in 0..book.activities.len() as u32 {
        rows.push(activity_row(book, a))?;
    }
    Ok(rows)
}

// The row of the counter of a number.
fn row_of_counter(book: &Book, c: usize) -> CounterRow
    requires { c < length book.now.rules.counters }
    ensures { IsCounterRow (counter_of book.now c) result }
{
    counter_row(&book.rules.counters[c])
}

// The rows of all counters.
fn counter_rows(alloc: Global, book: &Book) -> Result<Vec<CounterRow>, Memory>
    ensures count { IfOk result (λ rows. length rows.items ≡ length book.now.rules.counters) }
    ensures each { IfOk result (λ rows. AreCounterRows book.now rows.items) }
{
    let mut rows = Vec::with_capacity(alloc, book.rules.counters.len())?;
    for c in 0..book.rules.counters.len() {
        rows.push(row_of_counter(book, c))?;
    }
    Ok(rows)
}

// The minute from which each aircraft is ready.
fn ready_minutes(alloc: Global, book: &Book) -> Result<Vec<i64>, Memory>
    ensures count { IfOk result (λ minutes. length minutes.items ≡ aircraft book.now) }
    ensures each { IfOk result (λ minutes. (k : ℕ) → k < aircraft book.now → slice_index_or minutes.items k (pos 0) ≡ (tail_of book.now k).ready) }
{
    let mut minutes = Vec::with_capacity(alloc, book.tails.len())?;
    for k in 0..book.tails.len() as u32 {
        minutes.push(free_from(book, k, Place::Carry))?;
    }
    Ok(minutes)
}

// The row of an activity in a book's table.
fn activity_at(book: &Book, table: &StepTable, b: u32) -> ActivityRow
    requires table { IsStepTableOf book.now table.now }
    requires activity { b < activities book.now }
    ensures { IsActivityRow book.now b result }
{
    table.activities[b as usize]
}

// The row of a counter in a book's table.
fn counter_at(book: &Book, table: &StepTable, c: usize) -> CounterRow
    requires table { IsStepTableOf book.now table.now }
    requires counter { c < length book.now.rules.counters }
    ensures { IsCounterRow (counter_of book.now c) result }
{
    table.counters[c]
}

// The minute from which an aircraft is free at its place.
fn free_at(book: &Book, table: &StepTable, k: u32, from: Place) -> i64
    requires table { IsStepTableOf book.now table.now }
    requires aircraft { k < aircraft book.now }
    requires place { IsPlaceOf book.now from }
    ensures value { result ≡ free_from book.now k from }
    ensures range { IsMoment result }
{
    every_book_is_sound(book);
    match from {
        Place::Carry => table.ready[k as usize],
        Place::After(x) => table.activities[x as usize].end,
    }
}

// Whether the stop before an activity clears a counter.
fn clears(row: &ActivityRow, counter: &CounterRow, c: u32, free: i64) -> bool
    requires number { c < 32 }
    requires row { IsInRange row.now }
    requires free { IsMoment free }
    ensures { result ≡ clears_in row.now counter.now c free }
{
    row.based.has(c) && counter.stop <= row.start - free
}

// Minutes of the calendar to an activity's end, from its start where the stop cleared the counter.
fn passed(row: &ActivityRow, free: i64, cleared: bool) -> i64
    requires row { IsInRange row.now }
    requires free { IsMoment free }
    ensures value { result ≡ added_in row.now free cleared CounterKind.Days }
    ensures range { IsWithin (pos 0 -ℤ LAST_MOMENT) LAST_MOMENT result }
    ensures forward { free ≤ℤ row.now.start → pos 0 ≤ℤ result }
{
    if cleared {
        row.end - row.start
    } else {
        row.end - free
    }
}

// What an activity adds to a counter of a kind.
fn added(row: &ActivityRow, free: i64, cleared: bool, kind: CounterKind) -> i64
    requires row { IsInRange row.now }
    requires free { IsMoment free }
    ensures value { result ≡ added_in row.now free cleared kind }
    ensures range { IsWithin (pos 0 -ℤ LAST_MOMENT) LAST_MOMENT result }
    ensures forward { free ≤ℤ row.now.start → pos 0 ≤ℤ result }
{
    match kind {
        CounterKind::Minutes => row.flown,
        CounterKind::Landings => row.landings,
        CounterKind::Days => passed(row, free, cleared),
    }
}

// A counter, of number `c`, after an activity.
fn stepped(row: &ActivityRow, counter: &CounterRow, c: u32, free: i64, value: i64) -> i64
    requires number { c < 32 }
    requires row { IsInRange row.now }
    requires free { IsMoment free }
    requires range { IsWithin (pos 0) (pos (2 ^ 61)) value }
    ensures value { result ≡ stepped_in row.now counter.now c free value }
    ensures forward { free ≤ℤ row.now.start → pos 0 ≤ℤ result }
    ensures grows { result ≤ℤ (value +ℤ LAST_MOMENT) }
{
    let cleared = clears(row, counter, c, free);
    let added = added(row, free, cleared, counter.kind);
    if row.resets.has(c) {
        return 0;
    }
    if cleared { added } else { value + added }
}

// Whether a value is within its counter's limit.
fn is_within(counter: &CounterRow, value: i64) -> bool
    ensures { result ≡ int_le value counter.now.limit }
{
    value <= counter.limit
}

// Steps each counter by the rows, and answers whether all are within their limits.
fn step_rows(
    book: &Book,
    table: &StepTable,
    k: u32,
    from: Place,
    b: u32,
    values: &mut [i64],
) -> bool
    requires table { IsStepTableOf book.now table.now }
    requires aircraft { k < aircraft book.now }
    requires place { IsPlaceOf book.now from }
    requires activity { b < activities book.now }
    requires width { length values.old ≡ length book.now.rules.counters }
    requires range { AreCountable values.old }
    ensures steps { values.new ≡ step book.now k from b values.old }
    ensures limits { result ≡ within_limits book.now.rules.counters values.new }
    ensures grows { IsFreeBefore book.now k from b → GrowByAStep values.old values.new }
{
    every_book_is_sound(book);
    let row = activity_at(book, table, b);
    let free = free_at(book, table, k, from);
    let mut within = true;
    for c in 0..values.len() {
        let counter = counter_at(book, table, c);
        let next = stepped(&row, &counter, c as u32, free, values[c]);
        values[c] = next;
        within &= is_within(&counter, next);
    }
    within
}

/// Writes the counters after an activity, and answers whether all are within their limits, by the book's table.
pub fn step_by(
    book: &Book,
    table: &StepTable,
    k: u32,
    from: Place,
    b: u32,
    values: &mut [i64],
) -> bool
    requires table { IsStepTableOf book.now table.now }
    requires aircraft { k < aircraft book.now }
    requires place { IsPlaceOf book.now from }
    requires activity { b < activities book.now }
    requires width { length values.old ≡ length book.now.rules.counters }
    requires range { AreCountable values.old }
    ensures steps { values.new ≡ step book.now k from b values.old }
    ensures limits { IsTrue result ↔ WithinLimits book.now.rules.counters values.new }
    ensures tests { result ≡ within_limits book.now.rules.counters values.new }
    ensures range { IsFreeBefore book.now k from b → IsTrue result → AreCounts values.new }
    ensures grows { IsFreeBefore book.now k from b → GrowByAStep values.old values.new }
{
    every_book_is_sound(book);
    limits_decide();
    step_rows(book, table, k, from, b, values)
}
