//! A small book whose floors are known from outside, under facts of each kind.

ghost use Rattle.std.specs.Prelude.{◌≡◌, ◌<◌, IfOk, length};
ghost use Rattle.tail_book.specs.Lookup.{activities, aircraft};
ghost use Rattle.connection_net.specs.Net.{net_of};
ghost use Rattle.maint_counters.specs.inside.StepTable.{IsStepTableOf};
ghost use Rattle.branch_marks.specs.inside.MarkTables.{AreMarksOf};
ghost use Rattle.floor_rows.specs.inside.FloorRow.{IsRowOf};

use super::books::{ARN, Carried, Count, Leg, OSL, book};
use branch_marks::{Fact, Marks};
use connection_net::Net;
use floor_rows::*;
use maint_counters::StepTable;
use small_books::marks;
use std::alloc::Global;
use std::test::Fail;
use tail_book::laws::every_book_is_sound;
use tail_book::*;

// The activities: an hour to OSL, which clears the landings; half an hour to OSL at the same time; an hour back; 40
// minutes to OSL again, an hour after that.
const LONG: u32 = 0;

const SHORT: u32 = 1;

const BACK: u32 = 2;

const AGAIN: u32 = 3;

const LEGS: &[Leg] = &[
    ((ARN, OSL), (360, 420), &[1]),
    ((ARN, OSL), (370, 400), &[]),
    ((OSL, ARN), (480, 540), &[]),
    ((ARN, OSL), (600, 640), &[]),
];

// One aircraft at ARN that has flown nothing, and one at OSL with 50 minutes and 3 landings.
const FLEET: &[Carried] = &[(ARN, &[0, 0]), (OSL, &[50, 3])];

// The book with this limit of minutes, between stops of so long at ARN, and landings, which no stop clears.
fn floor_book(alloc: Global, limit: i64, stop: i64) -> Result<Book, Fail> {
    let counts: &[Count] = &[
        (CounterKind::Minutes, limit, &[ARN], stop),
        (CounterKind::Landings, 9, &[], 60),
    ];
    book(alloc, LEGS, FLEET, 30, counts)
}

// Room for the values of a floor.
fn room(alloc: Global, book: &Book) -> Result<Vec<i64>, Memory>
    ensures { IfOk result (λ values. length values.items ≡ length book.now.rules.counters) }
{
    Ok(vec![in alloc; 0; book.rules.counters.len()]?)
}

// The floors of an aircraft under marks.
fn floors(
    alloc: Global,
    book: &Book,
    net: &Net,
    steps: &StepTable,
    marks: &Marks,
    k: u32,
) -> Result<FloorRow, Memory>
    requires net { net.now ≡ net_of book.now }
    requires steps { IsStepTableOf book.now steps.now }
    requires marks { AreMarksOf book.now marks.now }
    requires aircraft { k < aircraft book.now }
    ensures { IfOk result (IsRowOf book.now) }
{
    every_book_is_sound(book);
    let (n, width) = (book.activities.len(), book.rules.counters.len());
    let mut row = FloorRow::new(alloc, n, width)?;
    let mut values = room(alloc, book)?;
    put_floors(book, net, steps, marks, k, n as u32, &mut row, &mut values);
    Ok(row)
}

// Whether a floor has these values; no values stand for no floor.
fn has_floor(
    alloc: Global,
    book: &Book,
    row: &FloorRow,
    a: usize,
    want: &[i64],
) -> Result<bool, Memory>
    requires row { IsRowOf book.now row.now }
    requires activity { a < activities book.now }
{
    let mut values = room(alloc, book)?;
    if row.read(a, &mut values) {
        Ok(values.as_slice() == want)
    } else {
        Ok(want.is_empty())
    }
}

// Whether these are the floors of a row.
fn has_floors(alloc: Global, book: &Book, row: &FloorRow, want: &[&[i64]]) -> Result<bool, Memory>
    requires row { IsRowOf book.now row.now }
{
    if want.len() != book.activities.len() {
        return Ok(false);
    }
    for a in 0..want.len() {
        if !has_floor(alloc, book, row, a, want[a])? {
            return Ok(false);
        }
    }
    Ok(true)
}

// Whether the first aircraft can go on from an activity at all, and to another one; and whether it can over a link
// between them that it may use.
type Goings = (bool, bool, bool);

fn goings(
    alloc: Global,
    book: &Book,
    net: &Net,
    steps: &StepTable,
    marks: &Marks,
    row: &FloorRow,
    a: u32,
    b: u32,
) -> Result<Goings, Memory>
    requires net { net.now ≡ net_of book.now }
    requires steps { IsStepTableOf book.now steps.now }
    requires marks { AreMarksOf book.now marks.now }
    requires row { IsRowOf book.now row.now }
    requires aircraft { 0 < aircraft book.now }
    requires from { a < activities book.now }
    requires to { b < activities book.now }
{
    let mut values = room(alloc, book)?;
    let all = goes_on(book, net, steps, marks, 0, a, row, &mut values);
    let one = goes_on_to(book, steps, marks, 0, a, b, row, &mut values);
    let over = goes_on_over(book, steps, 0, a, b, row, &mut values);
    Ok((all, one, over))
}

// What is asked under a fact.
#[derive(Clone, Copy)]
enum Question {
    // Whether these are the floors of an aircraft; no values stand for no floor.
    Floors(u32, &'static [&'static [i64]]),
    // Whether the first aircraft goes on so from an activity, and to another one.
    Goings(u32, u32, Goings),
}

fn are_floors(
    alloc: Global,
    book: &Book,
    net: &Net,
    steps: &StepTable,
    marks: &Marks,
    k: u32,
    want: &[&[i64]],
) -> Result<bool, Memory>
    requires net { net.now ≡ net_of book.now }
    requires steps { IsStepTableOf book.now steps.now }
    requires marks { AreMarksOf book.now marks.now }
{
    if k as usize >= book.tails.len() {
        return Ok(false);
    }
    let row = floors(alloc, book, net, steps, marks, k)?;
    has_floors(alloc, book, &row, want)
}

fn goes_so(
    alloc: Global,
    book: &Book,
    net: &Net,
    steps: &StepTable,
    marks: &Marks,
    a: u32,
    b: u32,
    want: Goings,
) -> Result<bool, Memory>
    requires net { net.now ≡ net_of book.now }
    requires steps { IsStepTableOf book.now steps.now }
    requires marks { AreMarksOf book.now marks.now }
{
    let n = book.activities.len() as u32;
    if book.tails.is_empty() || a >= n || b >= n {
        return Ok(false);
    }
    let row = floors(alloc, book, net, steps, marks, 0)?;
    Ok(goings(alloc, book, net, steps, marks, &row, a, b)? == want)
}

fn answer(
    alloc: Global,
    book: &Book,
    net: &Net,
    steps: &StepTable,
    marks: &Marks,
    question: Question,
) -> Result<bool, Memory>
    requires net { net.now ≡ net_of book.now }
    requires steps { IsStepTableOf book.now steps.now }
    requires marks { AreMarksOf book.now marks.now }
{
    match question {
        Question::Floors(k, want) => are_floors(alloc, book, net, steps, marks, k, want),
        Question::Goings(a, b, want) => goes_so(alloc, book, net, steps, marks, a, b, want),
    }
}

// The same by the steps over a network.
fn answer_by_steps(
    alloc: Global,
    book: &Book,
    net: &Net,
    marks: &Marks,
    question: Question,
) -> Result<bool, Memory>
    requires net { net.now ≡ net_of book.now }
    requires marks { AreMarksOf book.now marks.now }
{
    let steps = StepTable::of(alloc, book)?;
    answer(alloc, book, net, &steps, marks, question)
}

// The same over the book's network.
fn answer_by_net(
    alloc: Global,
    book: &Book,
    marks: &Marks,
    question: Question,
) -> Result<bool, Memory>
    requires marks { AreMarksOf book.now marks.now }
{
    let net = Net::new(alloc, book)?;
    answer_by_steps(alloc, book, &net, marks, question)
}

// The same of marks with these facts.
fn answer_under(
    alloc: Global,
    book: &Book,
    facts: &[Fact],
    question: Question,
) -> Result<bool, Memory> {
    let marks = marks(alloc, book, facts)?;
    answer_by_net(alloc, book, &marks, question)
}

// A limit of minutes, the stop that clears them, facts, and what is asked.
type Row = (i64, i64, &'static [Fact], Question);

fn is_right(alloc: Global, row: &Row) -> Result<bool, Fail> {
    let &(limit, stop, facts, question) = row;
    let book = floor_book(alloc, limit, stop)?;
    Ok(answer_under(alloc, &book, facts, question)?)
}

// The floors where the short flight counts, and where it does not.
const ALL: &[&[i64]] = &[&[60, 0], &[30, 1], &[90, 1], &[40, 1]];

const FEWER: &[&[i64]] = &[&[60, 0], &[30, 1], &[120, 1], &[40, 1]];

const ROWS: &[Row] = &[
    // Back comes who flew the long flight with 120 minutes, and who flew the short one with two landings: the floor has
    // the lesser of both. Without the short flight, or the link from it, or where the long one must be flown, 120 are
    // left. With a Tie from the long one only that comes back; the other aircraft then comes nowhere.
    (120, 60, &[], Question::Floors(0, ALL)),
    (
        120,
        60,
        &[],
        Question::Floors(1, &[&[], &[], &[110, 4], &[40, 5]]),
    ),
    (
        120,
        60,
        &[Fact::Bar(0, SHORT)],
        Question::Floors(0, &[&[60, 0], &[], &[120, 1], &[40, 1]]),
    ),
    (
        120,
        60,
        &[Fact::Bar(0, SHORT)],
        Question::Floors(1, &[&[], &[], &[110, 4], &[40, 5]]),
    ),
    (
        120,
        60,
        &[Fact::Bar(0, BACK)],
        Question::Floors(0, &[&[60, 0], &[30, 1], &[], &[40, 1]]),
    ),
    (
        120,
        60,
        &[Fact::Cut(SHORT, BACK)],
        Question::Floors(0, FEWER),
    ),
    (
        120,
        60,
        &[Fact::Must(0, LONG)],
        Question::Floors(0, &[&[60, 0], &[], &[120, 1], &[40, 2]]),
    ),
    (120, 60, &[Fact::Must(0, AGAIN)], Question::Floors(0, ALL)),
    (
        120,
        60,
        &[Fact::Must(0, AGAIN)],
        Question::Floors(1, &[&[], &[], &[110, 4], &[]]),
    ),
    (
        120,
        60,
        &[Fact::Tie(LONG, BACK)],
        Question::Floors(0, FEWER),
    ),
    (
        120,
        60,
        &[Fact::Tie(LONG, BACK)],
        Question::Floors(1, &[&[], &[], &[], &[]]),
    ),
    // The stop before the last flight is an hour: just long enough, as in the second row, or a minute too short.
    (
        120,
        61,
        &[],
        Question::Floors(1, &[&[], &[], &[110, 4], &[]]),
    ),
    (
        120,
        60,
        &[Fact::Must(0, BACK)],
        Question::Floors(0, &[&[60, 0], &[30, 1], &[90, 1], &[40, 2]]),
    ),
    (
        120,
        61,
        &[Fact::Must(0, BACK)],
        Question::Floors(0, &[&[60, 0], &[30, 1], &[90, 1], &[]]),
    ),
    // With 100 minutes the aircraft cannot come back from the long flight; a Cut leaves nothing behind the short one, though
    // the step would stay within the limits; behind a Bar there is no floor.
    (
        120,
        60,
        &[],
        Question::Goings(LONG, BACK, (true, true, true)),
    ),
    (
        120,
        60,
        &[],
        Question::Goings(LONG, SHORT, (true, false, true)),
    ),
    (
        100,
        60,
        &[],
        Question::Goings(LONG, BACK, (false, false, false)),
    ),
    (
        100,
        60,
        &[],
        Question::Goings(SHORT, BACK, (true, true, true)),
    ),
    (
        120,
        60,
        &[Fact::Cut(SHORT, BACK)],
        Question::Goings(SHORT, BACK, (false, false, true)),
    ),
    (
        120,
        60,
        &[Fact::Bar(0, SHORT)],
        Question::Goings(SHORT, BACK, (false, false, false)),
    ),
    (
        120,
        60,
        &[],
        Question::Goings(AGAIN, BACK, (false, false, true)),
    ),
];

fn rows() -> &'static [Row] {
    ROWS
}

#[test]
fn floors_under_facts(rt: HostRuntime) -> Result<(), Fail> {
    for (number, row) in rows().iter().enumerate() {
        assert!(rt; is_right(rt.alloc(), row)?, "row {number}");
    }
    Ok(())
}

// A row of its own: a floor is made, lowered value by value, compared, and taken away.
#[test]
fn rows_keep_floors(rt: HostRuntime) -> Result<(), Fail> {
    let mut row = FloorRow::new(rt.alloc(), 3, 2)?;
    assert!(rt; !row.has(1));
    row.lower(1, &[7, 4]);
    row.lower(1, &[9, 2]);
    let mut values = [0, 0];
    assert!(rt; row.read(1, &mut values) && values == [7, 2]);
    assert!(rt; row.is(1, &[7, 2]) && !row.is(1, &[7, 4]));
    assert!(rt; !row.has(0) && !row.has(2));
    row.clear(1);
    assert!(rt; !row.read(1, &mut values));
    Ok(())
}
