//! Books by chance, with every kind of counter: the table steps as the rules do.

ghost use Rattle.std.specs.Prelude.{◌≡◌, ◌<◌, length};
ghost use Rattle.tail_book.specs.Lookup.{activities, aircraft};
ghost use Rattle.tail_book.specs.Place.{IsPlaceOf};
ghost use Rattle.maint_counters.specs.inside.StepTable.{IsStepTableOf};

use crate::tests::rows::{AIRCRAFT, ActivityRow, BookRows, CounterRow, FLIGHT, TailRow, book, few};
use dice::Dice;
use maint_counters::*;
use std::alloc::Global;
use std::process::Abort;
use std::test::Fail;
use tail_book::*;

// A counter of a kind.
fn a_counter(dice: &mut Dice, kind: CounterKind, limit: i64) -> CounterRow<'static> {
    CounterRow {
        stop: 1 + dice.below(900) as i64,
        bases: few(dice),
        kind,
        limit,
    }
}

// When an aircraft is ready, what stands on its counters, and where it comes in.
fn a_tail(dice: &mut Dice) -> (i64, [i64; 3], u32) {
    (
        dice.below(1000) as i64,
        [
            dice.below(900) as i64,
            dice.below(4) as i64,
            dice.below(1440) as i64,
        ],
        dice.below(3),
    )
}

// What an activity resets: nothing where it is a flight.
fn resets(dice: &mut Dice, flight: bool) -> &'static [u32] {
    if flight { &[] } else { few(dice) }
}

fn an_activity(dice: &mut Dice, id: u32, start: i64) -> ActivityRow<'static> {
    let (from, to, minutes) = (dice.below(3), dice.below(3), 1 + dice.below(600) as i64);
    let flight = dice.below(2) == 0;
    ActivityRow {
        id,
        flight,
        leg: (from, if flight { to } else { from }),
        time: (start, start.saturating_add(minutes)),
        resets: resets(dice, flight),
        ..FLIGHT
    }
}

fn six_activities(dice: &mut Dice) -> [ActivityRow<'static>; 6] {
    let (mut rows, mut start) = ([FLIGHT; 6], 1000i64);
    for id in 0..6u32 {
        rows[id as usize] = an_activity(dice, id, start);
        start = start.saturating_add(1 + dice.below(600) as i64);
    }
    rows
}

// A book of three counters and airports, two aircraft and six activities.
fn book_by_chance(alloc: Global, seed: u64) -> Result<Book, Fail> {
    let mut chance = Dice::new(seed);
    let dice = &mut chance;
    let counters = [
        a_counter(dice, CounterKind::Minutes, 900),
        a_counter(dice, CounterKind::Landings, 4),
        a_counter(dice, CounterKind::Days, 1440),
    ];
    let ((ready, carry, at), (later, carried, there)) = (a_tail(dice), a_tail(dice));
    let rows = BookRows {
        kinds: &[(10, 30)],
        airports: &[(0, 0), (0, 0), (0, 0)],
        curfews: &[],
        counters: &counters,
        bands: &[],
        tails: &[
            TailRow {
                id: 0,
                at,
                ready,
                carry: &carry,
                ..AIRCRAFT
            },
            TailRow {
                id: 1,
                at: there,
                ready: later,
                carry: &carried,
                ..AIRCRAFT
            },
        ],
        activities: &six_activities(dice),
    };
    book(alloc, &rows)
}

// What stands on the counters after a step from the carry values by the rules, and whether that is within the limits.
fn stepped(book: &Book, k: u32, from: Place, b: u32) -> ([i64; 3], bool)
    requires aircraft { k < aircraft book.now }
    requires place { IsPlaceOf book.now from }
    requires activity { b < activities book.now }
    requires counters { length book.now.rules.counters ≡ 3 }
{
    let mut values = [0; 3];
    start(book, k, &mut values);
    let within = step(book, k, from, b, &mut values);
    (values, within)
}

// The same by the table.
fn stepped_by(book: &Book, table: &StepTable, k: u32, from: Place, b: u32) -> ([i64; 3], bool)
    requires table { IsStepTableOf book.now table.now }
    requires aircraft { k < aircraft book.now }
    requires place { IsPlaceOf book.now from }
    requires activity { b < activities book.now }
    requires counters { length book.now.rules.counters ≡ 3 }
{
    let mut values = [0; 3];
    start(book, k, &mut values);
    let within = step_by(book, table, k, from, b, &mut values);
    (values, within)
}

// How many counters are lower than the carry values.
fn fallen(values: &[i64], carry: &[i64]) -> u32 {
    let mut low = 0u32;
    for (value, carried) in values.iter().zip(carry) {
        low = low.saturating_add((*value < *carried) as u32);
    }
    low
}

// How many counters were cleared or set to 0, how often all were within their limits, and how many steps were compared.
type Counts = (u32, u32, u32);

fn sum(one: Counts, other: Counts) -> Counts {
    (
        one.0.saturating_add(other.0),
        one.1.saturating_add(other.1),
        one.2.saturating_add(other.2),
    )
}

// Both steps write the same and answer the same.
fn compare(rt: &impl Abort, book: &Book, table: &StepTable, k: u32, from: Place, b: u32) -> Counts
    requires table { IsStepTableOf book.now table.now }
    requires aircraft { k < aircraft book.now }
    requires place { IsPlaceOf book.now from }
    requires activity { b < activities book.now }
    requires counters { length book.now.rules.counters ≡ 3 }
{
    let (plain, quick) = (
        stepped(book, k, from, b),
        stepped_by(book, table, k, from, b),
    );
    assert!(rt; quick == plain, "{:?}", (k, from, b));
    let (values, within) = plain;
    (
        fallen(&values, &book.tails[k as usize].carry),
        within as u32,
        1,
    )
}

// Each aircraft of a book, from its carry-in and after each activity, backwards in time too, goes on with each activity.
fn compare_all(rt: &impl Abort, book: &Book, table: &StepTable) -> Counts
    requires table { IsStepTableOf book.now table.now }
    requires counters { length book.now.rules.counters ≡ 3 }
{
    let mut counts = (0, 0, 0);
    for k in 0..book.tails.len() as u32 {
        for x in 0..book.activities.len() as u32 {
            for b in 0..book.activities.len() as u32 {
                let from = if x == b {
                    Place::Carry
                } else {
                    Place::After(x)
                };
                counts = sum(counts, compare(rt, book, table, k, from, b));
            }
        }
    }
    counts
}

fn compare_steps(rt: &impl Abort, alloc: Global, book: &Book) -> Result<Counts, Fail> {
    let table = StepTable::of(alloc, book)?;
    assert!(rt; book.rules.counters.len() == 3);
    Ok(compare_all(rt, book, &table))
}

fn compare_one(rt: &impl Abort, alloc: Global, seed: u64) -> Result<Counts, Fail> {
    let book = book_by_chance(alloc, seed)?;
    compare_steps(rt, alloc, &book)
}

fn are_varied((low, within, steps): Counts) -> bool {
    steps == 2160 && low > 100 && within > 100 && within < 2060
}

// Of 2,160 steps some clear a counter, some pass a limit, and some do not.
#[test]
fn the_table_steps_as_the_rules_do(rt: HostRuntime) -> Result<(), Fail> {
    let mut counts = (0, 0, 0);
    for seed in 0..30u64 {
        counts = sum(counts, compare_one(&rt, rt.alloc(), seed)?);
    }
    assert!(rt; are_varied(counts), "{counts:?}");
    Ok(())
}
