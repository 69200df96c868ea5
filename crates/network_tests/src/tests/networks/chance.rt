//! Books by chance, with every kind of rule of flying: the rows say of every pair what the rules say of each aircraft.

ghost use Rattle.std.specs.Prelude.{◌≡◌, ◌<◌};
ghost use Rattle.tail_book.specs.Lookup.{activities, aircraft};
ghost use Rattle.connection_net.specs.Net.{net_of};

use super::rules;
use crate::tests::books::made;
use connection_net::Net;
use connection_net::laws::rows_for_each;
use dice::Dice;
use small_books::{named_tail, names_in_order};
use std::alloc::Global;
use std::process::Abort;
use std::test::Fail;
use tail_book::*;
use turn_rules::link;

// Up to two numbers below 3, and none in half of the cases.
fn few(dice: &mut Dice, alloc: Global) -> Result<Vec<u32>, Memory> {
    let mut numbers = Vec::new(alloc);
    if dice.below(2) == 0 {
        return Ok(numbers);
    }
    for _ in 0..dice.below(3) {
        numbers.push(dice.below(3))?;
    }
    Ok(numbers)
}

// Two curfews, each for starts or landings of some types.
fn two_curfews(alloc: Global, dice: &mut Dice) -> Result<Vec<Curfew>, Memory> {
    let mut curfews = Vec::new(alloc);
    for _ in 0..2 {
        curfews.push(Curfew {
            airport: dice.below(3),
            from: dice.below(1440) as i64,
            to: dice.below(1440) as i64,
            types: few(dice, alloc)?,
            starts: dice.below(2) == 0,
            landings: dice.below(2) == 0,
        })?;
    }
    Ok(curfews)
}

// Types with turns that differ, and three airports.
fn three_types(alloc: Global, dice: &mut Dice) -> Result<Rules, Memory> {
    let turns = [
        dice.below(60) as i64,
        dice.below(300) as i64,
        dice.below(1441) as i64,
    ];
    let mut made = rules(alloc, &turns, 3)?;
    made.curfews = two_curfews(alloc, dice)?;
    Ok(made)
}

fn four_tails(alloc: Global, dice: &mut Dice) -> Result<Vec<Tail>, Memory> {
    let mut tails = Vec::new(alloc);
    for name in names_in_order().iter().take(4) {
        let (kind, at, ready) = (dice.below(3), dice.below(3), 1000 + dice.below(1500) as i64);
        let mut tail = named_tail(alloc, *name, kind, at, ready);
        tail.tags = few(dice, alloc)?;
        if dice.below(4) == 0 {
            tail.avoid = few(dice, alloc)?;
        }
        tails.push(tail)?;
    }
    Ok(tails)
}

fn an_activity(alloc: Global, dice: &mut Dice, id: Name, start: i64) -> Result<Activity, Memory> {
    let (from, to, minutes) = (dice.below(3), dice.below(3), 1 + dice.below(300) as i64);
    let flight = dice.below(4) > 0;
    Ok(Activity {
        id,
        flight,
        from,
        to: if flight { to } else { from },
        start,
        end: start.saturating_add(minutes),
        types: few(dice, alloc)?,
        tags: if dice.below(4) == 0 {
            few(dice, alloc)?
        } else {
            Vec::new(alloc)
        },
        tail: if dice.below(6) == 0 {
            Some(dice.below(4))
        } else {
            None
        },
        resets: Vec::new(alloc),
    })
}

fn ten_activities(alloc: Global, dice: &mut Dice) -> Result<Vec<Activity>, Memory> {
    let (mut activities, mut start) = (Vec::new(alloc), 1000i64);
    for name in names_in_order().iter() {
        activities.push(an_activity(alloc, dice, *name, start)?)?;
        start = start.saturating_add(1 + dice.below(400) as i64);
    }
    Ok(activities)
}

// A book of three types and airports, four aircraft and ten activities, over up to three days.
fn book_by_chance(alloc: Global, seed: u64) -> Result<Book, Fail> {
    let mut dice = Dice::new(seed);
    let rules = three_types(alloc, &mut dice)?;
    let tails = four_tails(alloc, &mut dice)?;
    made(ten_activities(alloc, &mut dice)?, tails, rules)
}

// Whether some aircraft has a link, by the rules.
fn some_link(book: &Book, a: u32, b: u32) -> bool
    requires before { a < activities book.now }
    requires after { b < activities book.now }
{
    let mut some = false;
    for k in 0..book.tails.len() as u32 {
        some |= link(book, k, Place::After(a), b);
    }
    some
}

// Whether a row has just the activities to which some aircraft has a link from one, by the rules.
fn are_after(book: &Book, a: u32, row: &[u32]) -> bool
    requires { a < activities book.now }
{
    let mut found = 0usize;
    for b in 0..book.activities.len() as u32 {
        if some_link(book, a, b) {
            if row.get(found) != Some(&b) {
                return false;
            }
            found = found.saturating_add(1);
        }
    }
    found == row.len()
}

// The same of the activities from which some aircraft has a link to one.
fn are_before(book: &Book, b: u32, row: &[u32]) -> bool
    requires { b < activities book.now }
{
    let mut found = 0usize;
    for a in 0..book.activities.len() as u32 {
        if some_link(book, a, b) {
            if row.get(found) != Some(&a) {
                return false;
            }
            found = found.saturating_add(1);
        }
    }
    found == row.len()
}

// The same of what an aircraft may fly first.
fn are_first(book: &Book, k: u32, row: &[u32]) -> bool
    requires { k < aircraft book.now }
{
    let mut found = 0usize;
    for b in 0..book.activities.len() as u32 {
        if link(book, k, Place::Carry, b) {
            if row.get(found) != Some(&b) {
                return false;
            }
            found = found.saturating_add(1);
        }
    }
    found == row.len()
}

// Each row is what the rules say of every number. Counts the links.
fn compare(rt: &impl Abort, book: &Book, net: &Net) -> usize
    requires { net.now ≡ net_of book.now }
{
    rows_for_each();
    let mut linked = 0usize;
    for x in 0..book.activities.len() as u32 {
        let after = net.successors(x);
        assert!(rt; are_after(book, x, after), "after {x}");
        assert!(rt; are_before(book, x, net.predecessors(x)), "before {x}");
        linked = linked.saturating_add(after.len());
    }
    linked
}

// So are the rows of what each aircraft may fly first. Counts these.
fn compare_heads(rt: &impl Abort, book: &Book, net: &Net) -> usize
    requires { net.now ≡ net_of book.now }
{
    rows_for_each();
    let mut heads = 0usize;
    for k in 0..book.tails.len() as u32 {
        let first = net.heads(k);
        assert!(rt; are_first(book, k, first), "heads of {k}");
        heads = heads.saturating_add(first.len());
    }
    heads
}

// Both, over the network that is made of the book.
fn compare_both(rt: &impl Abort, alloc: Global, book: &Book) -> Result<(usize, usize), Memory> {
    let net = Net::new(alloc, book)?;
    Ok((compare(rt, book, &net), compare_heads(rt, book, &net)))
}

fn compare_one(rt: &impl Abort, alloc: Global, seed: u64) -> Result<(usize, usize), Fail> {
    let book = book_by_chance(alloc, seed)?;
    Ok(compare_both(rt, alloc, &book)?)
}

// Of 40 books with 1,800 pairs that could be linked, and 1,600 first flights.
#[test]
fn rows_say_what_the_rules_say(rt: HostRuntime) -> Result<(), Fail> {
    let (mut linked, mut first) = (0usize, 0usize);
    for seed in 0..40u64 {
        let (links, heads) = compare_one(&rt, rt.alloc(), seed)?;
        linked = linked.saturating_add(links);
        first = first.saturating_add(heads);
    }
    assert!(rt; linked > 100 && linked < 1700, "{linked} linked");
    assert!(rt; first > 100 && first < 1500, "{first} first");
    Ok(())
}
