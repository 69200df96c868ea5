//! A book of two flights, whose nodes are worked by hand: what pricing them as leaves comes to, what a log is told, and what it
//! was told where it fails. Bounds and open places, each beside its ends.

ghost use Rattle.std.specs.Prelude.{◌≡◌, true};
ghost use Rattle.branch_marks.specs.Branches.{IsUndecided};
ghost use Rattle.branch_marks.specs.declared.fact.Pair.TheVariants.{Fly};
ghost use Rattle.branch_tree.specs.inside.OpenPlaces.{AreOpenPlaces};

mod answers;
mod memory;
mod splits;
mod steps;

use super::{Failing, label};
use answers::{Answer, Asked, Ended, ask, ask_of, two_flights};
use branch_marks::{Event, Fact, Marks, MemTree, Pair};
use branch_tree::{Best, OpenPlaces, Stop, bound_below, passes};
use std::alloc::Global;
use std::test::Fail;
use tail_book::*;

// What a node of these facts answers under duals of this value, and whether exactly these events were told.
fn told_of(
    alloc: Global,
    book: &Book,
    facts: &[Fact],
    dual: i64,
    asked: Asked,
    due: &[Event],
) -> Result<(Answer, bool), Fail> {
    let mut log = MemTree::new(alloc)?;
    let answer = ask_of(alloc, book, facts, dual, asked, &mut log)?;
    Ok((answer, log.events() == due))
}

// The same of the book of two flights.
fn told(
    alloc: Global,
    facts: &[Fact],
    dual: i64,
    asked: Asked,
    due: &[Event],
) -> Result<(Answer, bool), Fail> {
    let book = two_flights(alloc)?;
    told_of(alloc, &book, facts, dual, asked, due)
}

// Whether a log that fails behind so many of these events stops it there, and was told those before.
fn stops_behind(
    alloc: Global,
    facts: &[Fact],
    dual: i64,
    asked: Asked,
    due: &[Event],
    room: usize,
) -> Result<bool, Fail> {
    let mut log = Failing::new(alloc, room);
    let answer = ask(alloc, facts, dual, asked, &mut log)?;
    Ok(matches!(answer.first, Ended::Stopped(Stop::Log)) && log.has_front(due, room))
}

// At which of these events a log that fails does not stop it as it has to, if there is one.
fn first_passed(
    alloc: Global,
    facts: &[Fact],
    dual: i64,
    asked: Asked,
    due: &[Event],
) -> Result<Option<usize>, Fail> {
    for room in 0..due.len() {
        if !stops_behind(alloc, facts, dual, asked, due, room)? {
            return Ok(Some(room));
        }
    }
    Ok(None)
}

// With duals of 70 each, what the first aircraft flies for 60 an hour weighs 10 less than nothing, and then 20; what the
// second flies for 120 weighs 50 and then 100, so that it stays. All duals and weights together are what both flights cost.
fn bound() -> [Event; 9] {
    [
        Event::Bound,
        Event::Dual(0, 70_000),
        Event::Dual(1, 70_000),
        Event::Cover(0, -20_000),
        label(0, -10_000),
        label(1, -20_000),
        Event::Cover(1, 0),
        label(0, 50_000),
        label(1, 100_000),
    ]
}

#[test]
fn bound_is_told(rt: HostRuntime) -> Result<(), Fail> {
    let (answer, is_told) = told(rt.alloc(), &[], 70_000, Asked::Leaf, &bound())?;
    assert!(rt; matches!(answer.first, Ended::Bounded(120_000)));
    assert!(rt; is_told);
    Ok(())
}

// The first aircraft has to fly back, and may not come there from the first flight: its label there is told, under duals of 0.
#[test]
fn stuck_is_told(rt: HostRuntime) -> Result<(), Fail> {
    let facts = [Fact::Must(0, 1), Fact::Cut(0, 1)];
    let due = [Event::Stuck(0), label(0, 60_000)];
    let (answer, is_told) = told(rt.alloc(), &facts, 70_000, Asked::Leaf, &due)?;
    assert!(rt; matches!(answer.first, Ended::Stuck));
    assert!(rt; is_told);
    Ok(())
}

// A log that fails at an event was told those before it.
#[test]
fn failing_logs_have_a_front(rt: HostRuntime) -> Result<(), Fail> {
    let passed = first_passed(rt.alloc(), &[], 70_000, Asked::Leaf, &bound())?;
    assert!(rt; passed.is_none(), "at event {passed:?}");
    Ok(())
}

// A sum, a target, and the bound that leaves a plan below it, if there is one.
const TARGETS: [(i128, u64, Option<u64>); 7] = [
    (119_001, 120, None),
    (119_000, 120, Some(119)),
    (118_500, 120, Some(119)),
    (118_000, 120, Some(118)),
    (-5, 1, Some(0)),
    (-5, 0, None),
    (1, 1, None),
];

fn reaches_so(sum: i128, target: u64, below: Option<u64>) -> bool {
    bound_below(sum, target) == below && passes(sum, target) == below.is_none()
}

// A bound reaches a target where it passes what a plan of one unit less comes to, and every bound reaches 0.
#[test]
fn bounds_reach_targets(rt: HostRuntime) {
    for &(sum, target, below) in &TARGETS {
        assert!(rt; reaches_so(sum, target, below), "{sum} and {target}");
    }
}

// Whether no plan is known at first, and one more than any plan costs is to be undercut.
fn starts_above_all(table: &CostTable) -> bool {
    let best = Best::none(table);
    best.plan.is_none() && best.target == table.greatest_cost() + 1
}

fn first_target_is_so(alloc: Global, book: &Book) -> bool {
    match CostTable::of(alloc, book) {
        Ok(table) => starts_above_all(&table),
        Err(_) => false,
    }
}

#[test]
fn first_target_is_above_all(rt: HostRuntime) -> Result<(), Fail> {
    let book = two_flights(rt.alloc())?;
    assert!(rt; first_target_is_so(rt.alloc(), &book));
    Ok(())
}

// Whether the place that is here has no facts, and zeros for duals.
fn is_bare(places: &OpenPlaces) -> bool {
    places.branches.marks.mark() == 0 && places.duals.values.as_slice() == [0i64, 0].as_slice()
}

// Whether a pair of the place that is here is undecided: the aircraft may fly the activity, and need not.
fn may_split(book: &Book, places: &OpenPlaces, k: u32, a: u32) -> bool
    requires { AreOpenPlaces book.now places.now }
    ensures { result ≡ true → IsUndecided book.now places.now.branches.marks.facts (Fly k a) }
{
    let marks = &places.branches.marks;
    (k as usize) < book.tails.len()
        && (a as usize) < book.activities.len()
        && marks.alive(book, k, a)
        && !marks.has(Fact::Must(k, a))
}

// Splits the place that is here on whether an aircraft flies an activity.
fn split(alloc: Global, book: &Book, places: &mut OpenPlaces, k: u32, a: u32) -> bool
    requires { AreOpenPlaces book.now places.old }
    ensures { result ≡ true → AreOpenPlaces book.now places.new }
{
    let may = may_split(book, places, k, a);
    if !may || !places.branches.owes {
        return false;
    }
    places.split(alloc, book, Pair::Fly(k, a)).is_ok()
}

// Goes on to the next place. Whether it has these facts.
fn comes_next(book: &Book, places: &mut OpenPlaces, facts: &[Fact]) -> bool
    requires { AreOpenPlaces book.now places.old }
    ensures { result ≡ true → AreOpenPlaces book.now places.new }
{
    let Ok(found) = places.next(book) else {
        return false;
    };
    found && has_facts(&places.branches.marks, facts)
}

// Whether marks have exactly these facts, in this order.
fn has_facts(marks: &Marks, facts: &[Fact]) -> bool {
    if marks.mark() != facts.len() {
        return false;
    }
    for i in 0..facts.len() {
        if marks.fact_at(i) != facts[i] {
            return false;
        }
    }
    true
}

// Takes the next place away. Whether it has these facts.
fn is_left(book: &Book, places: &mut OpenPlaces, facts: &[Fact]) -> bool
    requires { AreOpenPlaces book.now places.old }
    ensures { result ≡ true → AreOpenPlaces book.now places.new }
{
    let comes = comes_next(book, places, facts);
    places.leave();
    comes
}

// Splits the root, and then its first branch. Whether both have the facts that are due.
fn split_twice(alloc: Global, book: &Book, places: &mut OpenPlaces) -> bool
    requires { AreOpenPlaces book.now places.old }
    ensures { result ≡ true → AreOpenPlaces book.now places.new }
{
    if !comes_next(book, places, &[]) || !split(alloc, book, places, 0, 1) {
        return false;
    }
    comes_next(book, places, &[Fact::Must(0, 1)]) && split(alloc, book, places, 1, 0)
}

// Whether the places that two splits leave come in order, each with its facts alone.
fn come_in_order(alloc: Global, book: &Book, places: &mut OpenPlaces) -> bool
    requires { AreOpenPlaces book.now places.old }
{
    split_twice(alloc, book, places)
        && is_left(book, places, &[Fact::Must(0, 1), Fact::Must(1, 0)])
        && is_left(book, places, &[Fact::Must(0, 1), Fact::Bar(1, 0)])
        && is_left(book, places, &[Fact::Bar(0, 1)])
}

// The first branch of a split comes before the second, and what was found below the first is forgotten before the second.
#[test]
fn places_come_first_branch_first(rt: HostRuntime) -> Result<(), Fail> {
    let alloc = rt.alloc();
    let book = two_flights(alloc)?;
    let mut places = OpenPlaces::with_root(alloc, &book)?;
    assert!(rt; is_bare(&places));
    assert!(rt; come_in_order(alloc, &book, &mut places));
    Ok(())
}
