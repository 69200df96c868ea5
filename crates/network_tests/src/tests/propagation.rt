//! Small books, and what follows on them: each rule alone, the rules in order, and the least hole.

ghost use Rattle.std.specs.Prelude.{◌≡◌};
ghost use Rattle.connection_net.specs.Net.{net_of};
ghost use Rattle.branch_marks.specs.inside.MarkTables.{AreMarksOf};

use super::books::{ARN, Carried, Count, Leg, OSL, book};
use branch_marks::{Fact, Marks};
use connection_net::Net;
use propagator::{Closed, close};
use small_books::marks;
use std::alloc::Global;
use std::test::Fail;
use tail_book::*;

mod chance;

// An hour's flight to OSL, and one back half an hour after it.
const THERE: Leg = ((ARN, OSL), (360, 420), &[]);

const BACK: Leg = ((OSL, ARN), (450, 510), &[]);

// A third flight, and the fourth an hour and more after it.
const LAST: Leg = ((OSL, ARN), (660, 720), &[]);

// To OSL an hour's flight and one of half an hour, and an hour back.
const WAYS_AND_BACK: &[Leg] = &[
    THERE,
    ((ARN, OSL), (370, 400), &[]),
    ((OSL, ARN), (480, 540), &[]),
];

// Flights, aircraft at ARN, a turn, and counters.
type Made = (&'static [Leg], &'static [Carried], i64, &'static [Count]);

fn book_of(alloc: Global, made: &Made) -> Result<Book, Fail> {
    let &(legs, rows, turn, counts) = made;
    book(alloc, legs, rows, turn, counts)
}

// Two flights, a turn that is a minute too long and one that fits.
const LATE: Made = (&[THERE, BACK], &[(ARN, &[])], 31, &[]);

const IN_TIME: Made = (&[THERE, BACK], &[(ARN, &[])], 30, &[]);

// Two hours to fly between stops of an hour at ARN, where the stop between the second flight and the third is a minute too
// short, or just long enough.
const TWO_HOURS: &[Count] = &[(CounterKind::Minutes, 120, &[ARN], 60)];

const SHORT_STOP: Made = (
    &[THERE, BACK, ((ARN, OSL), (569, 629), &[]), LAST],
    &[(ARN, &[0])],
    30,
    TWO_HOURS,
);

const LONG_STOP: Made = (
    &[THERE, BACK, ((ARN, OSL), (570, 630), &[]), LAST],
    &[(ARN, &[0])],
    30,
    TWO_HOURS,
);

// One aircraft at ARN, two flights to OSL at the same time, and no way back.
const SIDE_BY_SIDE: Made = (
    &[THERE, ((ARN, OSL), (370, 430), &[])],
    &[(ARN, &[])],
    30,
    &[],
);

// Two aircraft at ARN that may fly 100 minutes, with a long and a short way to OSL.
const TWO_WAYS: Made = (
    WAYS_AND_BACK,
    &[(ARN, &[0]), (ARN, &[0])],
    30,
    &[(CounterKind::Minutes, 100, &[ARN], 60)],
);

// The same ways for three that may fly 130 minutes, with no stop long enough: two of them have flown 25 before.
const TWO_WAYS_FOR_THREE: Made = (
    WAYS_AND_BACK,
    &[(ARN, &[0]), (ARN, &[25]), (ARN, &[25])],
    30,
    &[(CounterKind::Minutes, 130, &[ARN], 600)],
);

// Four flights, and a turn of 40 minutes, which is too long between the first two alone.
const LONG_TURN: Made = (
    &[
        THERE,
        BACK,
        ((ARN, OSL), (560, 620), &[]),
        ((OSL, ARN), (700, 760), &[]),
    ],
    &[(ARN, &[])],
    40,
    &[],
);

// Closes marks with these facts over a network, and tells the answer.
fn closed_over(
    alloc: Global,
    book: &Book,
    net: &Net,
    facts: &[Fact],
    list: &mut Vec<Fact>,
) -> Result<Closed, Memory>
    requires { net.now ≡ net_of book.now }
{
    let mut marks = marks(alloc, book, facts)?;
    close(alloc, book, net, &mut marks, list)
}

// The same over the book's network.
fn closed(
    alloc: Global,
    book: &Book,
    facts: &[Fact],
    list: &mut Vec<Fact>,
) -> Result<Closed, Memory> {
    let net = Net::new(alloc, book)?;
    closed_over(alloc, book, &net, facts, list)
}

// What is added to marks: just these facts, in this order; this fact first; or anything.
#[derive(Clone, Copy)]
enum Added {
    Just(&'static [Fact]),
    First(Fact),
    Anything,
}

fn is_added(list: &[Fact], added: Added) -> bool {
    match added {
        Added::Just(facts) => list == facts,
        Added::First(fact) => list.first().copied() == Some(fact),
        Added::Anything => true,
    }
}

// What a row is about, a book, facts, what is added to marks of the book with them, and the answer.
type Follow = (&'static str, Made, &'static [Fact], Added, Closed);

fn follows_in(alloc: Global, book: &Book, row: &Follow) -> Result<bool, Memory> {
    let &(_, _, facts, added, told) = row;
    let mut list = Vec::new(alloc);
    let answer = closed(alloc, book, facts, &mut list)?;
    Ok(is_added(&list, added) && answer == told)
}

fn follows(alloc: Global, row: &Follow) -> Result<bool, Fail> {
    let book = book_of(alloc, &row.1)?;
    Ok(follows_in(alloc, &book, row)?)
}

const FOLLOWS: &[Follow] = &[
    // The second of two flights leaves a minute before the turn ends: it is dead on arrival, and that is found before the
    // only carrier is given the first; so the second has nobody.
    (
        "floors come before carriers",
        LATE,
        &[],
        Added::Just(&[Fact::Bar(0, 1), Fact::Must(0, 0)]),
        Closed::Hole(1),
    ),
    // A minute later nothing is dead.
    (
        "turns that fit leave both",
        IN_TIME,
        &[],
        Added::Just(&[Fact::Must(0, 0), Fact::Must(0, 1)]),
        Closed::Fixed,
    ),
    // With the first flight a Must, the third comes after three hours in the air: dead on arrival, where the stop at the base
    // is a minute too short to clear the counter.
    (
        "short stops clear no floors",
        SHORT_STOP,
        &[Fact::Must(0, 0)],
        Added::First(Fact::Bar(0, 2)),
        Closed::Hole(2),
    ),
    // And not where it is long enough.
    (
        "stops at bases clear floors",
        LONG_STOP,
        &[Fact::Must(0, 0)],
        Added::Just(&[Fact::Must(0, 1), Fact::Must(0, 2), Fact::Must(0, 3)]),
        Closed::Fixed,
    ),
    // Of two flights at the same time the second is a Must: the first is a dead end.
    (
        "ends are dead where more must come",
        SIDE_BY_SIDE,
        &[Fact::Must(0, 1)],
        Added::First(Fact::Bar(0, 0)),
        Closed::Hole(0),
    ),
    // Where the first is a Must, the second cannot be reached.
    (
        "nothing comes beside a must",
        SIDE_BY_SIDE,
        &[Fact::Must(0, 0)],
        Added::First(Fact::Bar(0, 1)),
        Closed::Hole(1),
    ),
    // Without a Must neither is a dead end, since the aircraft may end there.
    (
        "ends are free without a must",
        SIDE_BY_SIDE,
        &[],
        Added::First(Fact::Must(0, 0)),
        Closed::Hole(1),
    ),
    // Back after the hour's flight passes the limit, and after that of half an hour it does not: so the one connection is cut,
    // for both aircraft.
    (
        "connections that nobody can use are cut",
        TWO_WAYS,
        &[],
        Added::Just(&[Fact::Cut(0, 2)]),
        Closed::Fixed,
    ),
    // After the long way only the first aircraft comes back. Where it may not, its floor is still the least of all, but the
    // connection is dead.
    (
        "one comes back",
        TWO_WAYS_FOR_THREE,
        &[],
        Added::Just(&[]),
        Closed::Fixed,
    ),
    (
        "the least floor may be of one that stays",
        TWO_WAYS_FOR_THREE,
        &[Fact::Bar(0, 2)],
        Added::Just(&[Fact::Cut(0, 2)]),
        Closed::Fixed,
    ),
    // It is cut once.
    (
        "connections are cut once",
        TWO_WAYS,
        &[Fact::Cut(0, 2)],
        Added::Just(&[]),
        Closed::Fixed,
    ),
    // Where one aircraft must fly the long one, it cannot come back: the way back is dead for it before the other flight is,
    // since the last come first.
    (
        "the last dead come first",
        TWO_WAYS,
        &[Fact::Must(0, 0)],
        Added::Just(&[
            Fact::Bar(0, 2),
            Fact::Bar(0, 1),
            Fact::Must(1, 1),
            Fact::Must(1, 2),
        ]),
        Closed::Fixed,
    ),
    // Two flights of four have nobody: the least is told.
    (
        "the least hole is told",
        LONG_TURN,
        &[],
        Added::Anything,
        Closed::Hole(1),
    ),
    // Also where it is the first.
    (
        "the first hole is told",
        LONG_TURN,
        &[Fact::Bar(0, 0)],
        Added::Anything,
        Closed::Hole(0),
    ),
    // And where others were barred before.
    (
        "holes of later bars are not told",
        LONG_TURN,
        &[Fact::Bar(0, 3), Fact::Bar(0, 2)],
        Added::Anything,
        Closed::Hole(1),
    ),
];

fn rows() -> &'static [Follow] {
    FOLLOWS
}

#[test]
fn rules_are_followed_in_order(rt: HostRuntime) -> Result<(), Fail> {
    for row in rows() {
        assert!(rt; follows(rt.alloc(), row)?, "{}", row.0);
    }
    Ok(())
}

// Closes marks once, or twice, and tells the last answer.
fn close_again(
    alloc: Global,
    book: &Book,
    net: &Net,
    marks: &mut Marks,
    again: bool,
    list: &mut Vec<Fact>,
) -> Result<Closed, Memory>
    requires net { net.now ≡ net_of book.now }
    requires marks { AreMarksOf book.now marks.old }
{
    let answer = close(alloc, book, net, marks, list)?;
    if !again {
        return Ok(answer);
    }
    close(alloc, book, net, marks, list)
}

// What follows, and what a list then has that had a fact before.
const FOLLOWING: &[Fact] = &[Fact::Bar(0, 1), Fact::Must(0, 0)];

const GROWN: &[Fact] = &[Fact::Tie(5, 6), Fact::Bar(0, 1), Fact::Must(0, 0)];

// Whether marks then have what follows, and the list has it behind what it had.
fn is_grown(list: &[Fact], facts: &[Fact], answer: Closed) -> bool {
    list == GROWN && facts == FOLLOWING && answer == Closed::Hole(1)
}

fn grows_over(alloc: Global, book: &Book, net: &Net, again: bool) -> Result<bool, Memory>
    requires { net.now ≡ net_of book.now }
{
    let mut marks = Marks::new(alloc, book)?;
    let mut list = vec![in alloc; Fact::Tie(5, 6)]?;
    let answer = close_again(alloc, book, net, &mut marks, again, &mut list)?;
    let facts = marks.copy_of_facts(alloc)?;
    Ok(is_grown(&list, &facts, answer))
}

fn grows_in(alloc: Global, book: &Book, again: bool) -> Result<bool, Memory> {
    let net = Net::new(alloc, book)?;
    grows_over(alloc, book, &net, again)
}

fn grows_at_end(alloc: Global, again: bool) -> Result<bool, Fail> {
    let book = book_of(alloc, &LATE)?;
    Ok(grows_in(alloc, &book, again)?)
}

// What a list has already stays at its front. A second call adds nothing, and answers the same.
#[test]
fn lists_grow_at_their_end(rt: HostRuntime) -> Result<(), Fail> {
    assert!(rt; grows_at_end(rt.alloc(), false)?);
    assert!(rt; grows_at_end(rt.alloc(), true)?);
    Ok(())
}
