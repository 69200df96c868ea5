//! Books by chance, with every kind of rule of flying: the tables say what the rules say.

ghost use Rattle.std.specs.Prelude.{◌<◌};
ghost use Rattle.tail_book.specs.Lookup.{activities, aircraft};
ghost use Rattle.turn_rules.specs.inside.CurfewTable.{AreCurfewsOf};
ghost use Rattle.turn_rules.specs.inside.PermissionTable.{ArePermissionsOf};

use crate::tests::rows::{AIRCRAFT, ActivityRow, BookRows, CurfewRow, FLIGHT, TailRow, book, few};
use dice::Dice;
use std::alloc::Global;
use std::process::Abort;
use std::test::Fail;
use tail_book::*;
use turn_rules::*;

// How far an airport is ahead of UTC, and its turn.
fn an_airport(dice: &mut Dice) -> (i64, i64) {
    let (east, turn) = (dice.below(1681) as i64, dice.below(60) as i64);
    (east - 840, turn)
}

fn a_curfew(dice: &mut Dice) -> CurfewRow<'static> {
    CurfewRow {
        airport: dice.below(3),
        hours: (dice.below(1440) as i64, dice.below(1440) as i64),
        types: few(dice),
        starts: dice.below(2) == 0,
        landings: dice.below(2) == 0,
    }
}

// Up to two numbers below 3 in one of so many cases, and none in the others.
fn seldom(dice: &mut Dice, cases: u32) -> &'static [u32]
    requires { 0 < cases }
{
    if dice.below(cases) == 0 {
        few(dice)
    } else {
        &[]
    }
}

fn a_tail(dice: &mut Dice, id: u32) -> TailRow<'static> {
    TailRow {
        id,
        at: dice.below(3),
        tags: few(dice),
        avoid: seldom(dice, 3),
        kind: dice.below(3),
        ..AIRCRAFT
    }
}

// Some aircraft in one of four cases.
fn some_aircraft(dice: &mut Dice) -> Option<u32> {
    if dice.below(4) == 0 {
        Some(dice.below(3))
    } else {
        None
    }
}

fn an_activity(dice: &mut Dice, id: u32, start: i64) -> ActivityRow<'static> {
    let (from, to, minutes) = (dice.below(3), dice.below(3), 1 + dice.below(600) as i64);
    let flight = dice.below(4) > 0;
    ActivityRow {
        id,
        flight,
        leg: (from, if flight { to } else { from }),
        time: (start, start.saturating_add(minutes)),
        types: seldom(dice, 2),
        tags: seldom(dice, 4),
        tail: some_aircraft(dice),
        resets: &[],
    }
}

fn eight_activities(dice: &mut Dice) -> [ActivityRow<'static>; 8] {
    let (mut rows, mut start) = ([FLIGHT; 8], 1000i64);
    for id in 0..8u32 {
        rows[id as usize] = an_activity(dice, id, start);
        start = start.saturating_add(1 + dice.below(600) as i64);
    }
    rows
}

// A book of three types, airports and aircraft, five curfews and eight activities.
fn book_by_chance(alloc: Global, seed: u64) -> Result<Book, Fail> {
    let mut chance = Dice::new(seed);
    let dice = &mut chance;
    let airports = [an_airport(dice), an_airport(dice), an_airport(dice)];
    let curfews = [
        a_curfew(dice),
        a_curfew(dice),
        a_curfew(dice),
        a_curfew(dice),
        a_curfew(dice),
    ];
    let tails = [a_tail(dice, 0), a_tail(dice, 1), a_tail(dice, 2)];
    let rows = BookRows {
        kinds: &[(10, 20), (10, 40), (10, 60)],
        airports: &airports,
        curfews: &curfews,
        counters: &[],
        bands: &[],
        tails: &tails,
        activities: &eight_activities(dice),
    };
    book(alloc, &rows)
}

// What the tables answer: whether a curfew stops an activity, and twice whether it is allowed.
fn answers(
    book: &Book,
    curfews: &CurfewTable,
    permissions: &PermissionTable,
    k: u32,
    a: u32,
) -> (bool, bool, bool)
    requires curfews { AreCurfewsOf book.now curfews.now }
    requires permissions { ArePermissionsOf book.now permissions.now }
    requires aircraft { k < aircraft book.now }
    requires activity { a < activities book.now }
{
    (
        curfewed_by(book, curfews, k, a),
        allowed_by(book, curfews, k, a),
        permits(book, permissions, k, a),
    )
}

// Each question of the tables is answered as the rules answer it. Counts what is allowed, and what a curfew stops.
fn compare(
    rt: &impl Abort,
    book: &Book,
    curfews: &CurfewTable,
    permissions: &PermissionTable,
) -> (u32, u32)
    requires curfews { AreCurfewsOf book.now curfews.now }
    requires permissions { ArePermissionsOf book.now permissions.now }
{
    let (mut may, mut stopped) = (0u32, 0u32);
    for k in 0..book.tails.len() as u32 {
        for a in 0..book.activities.len() as u32 {
            let (want, closed) = (allowed(book, k, a), curfewed(book, k, a));
            let found = answers(book, curfews, permissions, k, a);
            assert!(rt; found == (closed, want, want), "{:?}", (k, a, found));
            may = may.saturating_add(want as u32);
            stopped = stopped.saturating_add(closed as u32);
        }
    }
    (may, stopped)
}

// Each link of a book is one by its table, and no other is. Counts them.
fn compare_links(rt: &impl Abort, book: &Book, permissions: &PermissionTable) -> u32
    requires { ArePermissionsOf book.now permissions.now }
{
    let mut linked = 0u32;
    for k in 0..book.tails.len() as u32 {
        for x in 0..book.activities.len() as u32 {
            for b in 0..book.activities.len() as u32 {
                let from = if x == b {
                    Place::Carry
                } else {
                    Place::After(x)
                };
                let want = link(book, k, from, b);
                let found = link_by(book, permissions, k, from, b);
                assert!(rt; found == want, "{:?}", (k, from, b));
                linked = linked.saturating_add(want as u32);
            }
        }
    }
    linked
}

// How many are allowed, stopped and linked.
type Counts = (u32, u32, u32);

fn compare_all(rt: &impl Abort, alloc: Global, book: &Book) -> Result<Counts, Fail> {
    let curfews = CurfewTable::of(alloc, book)?;
    let permissions = PermissionTable::of(alloc, book)?;
    let (may, stopped) = compare(rt, book, &curfews, &permissions);
    Ok((may, stopped, compare_links(rt, book, &permissions)))
}

fn compare_one(rt: &impl Abort, alloc: Global, seed: u64) -> Result<Counts, Fail> {
    let book = book_by_chance(alloc, seed)?;
    compare_all(rt, alloc, &book)
}

fn sum(one: Counts, other: Counts) -> Counts {
    (
        one.0.saturating_add(other.0),
        one.1.saturating_add(other.1),
        one.2.saturating_add(other.2),
    )
}

fn are_varied((may, stopped, linked): Counts) -> bool {
    may > 100 && may < 860 && stopped > 100 && stopped < 860 && linked > 10
}

// Of 40 books with 960 questions, some are answered yes and some no, and curfews stop some.
#[test]
fn tables_say_what_the_rules_say(rt: HostRuntime) -> Result<(), Fail> {
    let mut counts = (0, 0, 0);
    for seed in 0..40u64 {
        counts = sum(counts, compare_one(&rt, rt.alloc(), seed)?);
    }
    assert!(rt; are_varied(counts), "{counts:?}");
    Ok(())
}
