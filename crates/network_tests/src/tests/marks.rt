//! Two aircraft, and what each kind of fact leaves open to them; marks by chance, beside a walk over their facts; and marks
//! that are rewound.

ghost use Rattle.std.specs.Prelude.{IsTrue};
ghost use Rattle.tail_book.specs.Place.{IsPlaceOf};
ghost use Rattle.branch_marks.specs.inside.MarkTables.{AreMarksOf};

use branch_marks::{Added, Fact, Marks, Named};
use small_books::{flight, marks, plain_book};
use std::alloc::Global;
use std::test::Fail;
use tail_book::*;

mod chance;
mod rewinding;

// Five flights to and fro, two hours apart, and two aircraft that may fly them all and stand where the first starts.
fn book(alloc: Global) -> Result<Book, Fail> {
    let rows = [
        flight((0, 1), (60, 120)),
        flight((1, 0), (180, 240)),
        flight((0, 1), (300, 360)),
        flight((1, 0), (420, 480)),
        flight((0, 1), (540, 600)),
    ];
    plain_book(alloc, &rows, &[0, 0], 30)
}

// Whether a place is of the book.
fn is_place_of(book: &Book, from: Place) -> bool
    ensures { IsTrue result → IsPlaceOf book.now from }
{
    match from {
        Place::Carry => true,
        Place::After(x) => (x as usize) < book.activities.len(),
    }
}

// What marks may be asked.
#[derive(Clone, Copy)]
enum Question {
    // Whether an aircraft may fly an activity.
    Alive(u32, u32),
    // Whether an aircraft may go from a place to an activity.
    Usable(u32, Place, u32),
    // Whether an aircraft's route may end at a place.
    End(u32, Place),
    // Whether a route fits.
    Fits(u32, &'static [u32]),
    // Whether a fact is there.
    Has(Fact),
    // Whether these are named for an activity: behind it, before it, and as its carrier.
    Named(u32, [Named; 3]),
    // From a number on, whether these are the next aircraft at an activity, and the next activity that is cut from it.
    Next(u32, u32, (u32, u32)),
    // From an activity on, whether this is the next Must of an aircraft.
    NextMust(u32, u32, u32),
}

// What marks say; nothing where the book does not have what the question is about.
fn alive(book: &Book, marks: &Marks, k: u32, a: u32) -> Option<bool>
    requires { AreMarksOf book.now marks.now }
{
    if k as usize >= book.tails.len() || a as usize >= book.activities.len() {
        return None;
    }
    Some(marks.alive(book, k, a))
}

fn usable(book: &Book, marks: &Marks, k: u32, from: Place, b: u32) -> Option<bool>
    requires { AreMarksOf book.now marks.now }
{
    if k as usize >= book.tails.len() || b as usize >= book.activities.len() {
        return None;
    }
    if !is_place_of(book, from) {
        return None;
    }
    Some(marks.usable(book, k, from, b))
}

fn may_end(book: &Book, marks: &Marks, k: u32, from: Place) -> Option<bool>
    requires { AreMarksOf book.now marks.now }
{
    if k as usize >= book.tails.len() || !is_place_of(book, from) {
        return None;
    }
    Some(marks.may_end(book, k, from))
}

fn fits(book: &Book, marks: &Marks, k: u32, route: &[u32]) -> Option<bool>
    requires { AreMarksOf book.now marks.now }
{
    if k as usize >= book.tails.len() {
        return None;
    }
    Some(marks.fits(book, k, route))
}

fn has(book: &Book, marks: &Marks, fact: Fact) -> Option<bool>
    requires { AreMarksOf book.now marks.now }
{
    if !fact.is_of(book) {
        return None;
    }
    marks.facts_are_of_book(book);
    Some(marks.has(fact))
}

fn named(book: &Book, marks: &Marks, a: u32, want: [Named; 3]) -> Option<bool>
    requires { AreMarksOf book.now marks.now }
{
    if a as usize >= book.activities.len() {
        return None;
    }
    Some([marks.tied_after(a), marks.tied_before(a), marks.carrier(a)] == want)
}

fn next(book: &Book, marks: &Marks, a: u32, from: u32, want: (u32, u32)) -> Option<bool>
    requires { AreMarksOf book.now marks.now }
{
    if a as usize >= book.activities.len() || from as usize > book.tails.len() {
        return None;
    }
    if from as usize > book.activities.len() {
        return None;
    }
    Some((marks.next_alive(book, a, from), marks.next_cut(a, from)) == want)
}

fn next_must(book: &Book, marks: &Marks, k: u32, from: u32, want: u32) -> Option<bool>
    requires { AreMarksOf book.now marks.now }
{
    if k as usize >= book.tails.len() || from as usize > book.activities.len() {
        return None;
    }
    Some(marks.next_must(k, from) == want)
}

fn answer(book: &Book, marks: &Marks, question: Question) -> Option<bool>
    requires { AreMarksOf book.now marks.now }
{
    match question {
        Question::Alive(k, a) => alive(book, marks, k, a),
        Question::Usable(k, from, b) => usable(book, marks, k, from, b),
        Question::End(k, from) => may_end(book, marks, k, from),
        Question::Fits(k, route) => fits(book, marks, k, route),
        Question::Has(fact) => has(book, marks, fact),
        Question::Named(a, want) => named(book, marks, a, want),
        Question::Next(a, from, want) => next(book, marks, a, from, want),
        Question::NextMust(k, from, want) => next_must(book, marks, k, from, want),
    }
}

// Facts, and what marks with these facts answer.
type Row = (&'static [Fact], Question, bool);

fn is_right(alloc: Global, book: &Book, row: &Row) -> Result<bool, Memory> {
    let &(facts, question, want) = row;
    let marks = marks(alloc, book, facts)?;
    Ok(answer(book, &marks, question) == Some(want))
}

// The number of the first row that is answered otherwise.
fn first_wrong_in(alloc: Global, book: &Book, rows: &[Row]) -> Result<Option<usize>, Memory> {
    for (number, row) in rows.iter().enumerate() {
        if !is_right(alloc, book, row)? {
            return Ok(Some(number));
        }
    }
    Ok(None)
}

fn first_wrong(alloc: Global, rows: &[Row]) -> Result<Option<usize>, Fail> {
    let book = book(alloc)?;
    Ok(first_wrong_in(alloc, &book, rows)?)
}

// Who may fly an activity, after each kind of fact.
const ALIVE: &[Row] = &[
    (&[Fact::Bar(0, 1)], Question::Alive(0, 1), false),
    (&[Fact::Bar(0, 1)], Question::Alive(1, 1), true),
    (&[Fact::Bar(0, 1)], Question::Alive(0, 2), true),
    (&[Fact::Must(0, 1)], Question::Alive(0, 1), true),
    (&[Fact::Must(0, 1)], Question::Alive(1, 1), false),
    (&[Fact::Must(0, 1)], Question::Alive(1, 0), true),
    (&[Fact::Must(1, 1)], Question::Alive(0, 1), false),
    (&[Fact::Cut(0, 1)], Question::Alive(0, 1), true),
    (&[Fact::Tie(0, 1)], Question::Alive(1, 1), true),
];

// Links after each kind of fact: a Must strictly between, a Must of the first activity before the carry-in's link, a
// Cut of this link and of another, and a Tie looked at from both ends.
const USABLE: &[Row] = &[
    (
        &[Fact::Bar(0, 1)],
        Question::Usable(0, Place::After(0), 1),
        false,
    ),
    (
        &[Fact::Bar(0, 1)],
        Question::Usable(0, Place::After(1), 2),
        false,
    ),
    (
        &[Fact::Bar(0, 1)],
        Question::Usable(1, Place::After(0), 1),
        true,
    ),
    (
        &[Fact::Bar(0, 1)],
        Question::Usable(0, Place::After(0), 3),
        true,
    ),
    (
        &[Fact::Must(0, 1)],
        Question::Usable(0, Place::After(0), 1),
        true,
    ),
    (
        &[Fact::Must(0, 1)],
        Question::Usable(0, Place::After(1), 2),
        true,
    ),
    (
        &[Fact::Must(0, 1)],
        Question::Usable(0, Place::After(0), 3),
        false,
    ),
    (
        &[Fact::Must(0, 1)],
        Question::Usable(0, Place::Carry, 2),
        false,
    ),
    (
        &[Fact::Must(0, 1)],
        Question::Usable(1, Place::After(0), 3),
        true,
    ),
    (
        &[Fact::Must(0, 1)],
        Question::Usable(1, Place::After(0), 1),
        false,
    ),
    (
        &[Fact::Must(0, 0)],
        Question::Usable(0, Place::Carry, 0),
        true,
    ),
    (
        &[Fact::Must(0, 0)],
        Question::Usable(0, Place::Carry, 2),
        false,
    ),
    (
        &[Fact::Must(0, 0)],
        Question::Usable(0, Place::After(0), 1),
        true,
    ),
    (
        &[Fact::Cut(0, 1)],
        Question::Usable(0, Place::After(0), 1),
        false,
    ),
    (
        &[Fact::Cut(0, 1)],
        Question::Usable(1, Place::After(0), 1),
        false,
    ),
    (
        &[Fact::Cut(0, 1)],
        Question::Usable(0, Place::After(0), 3),
        true,
    ),
    (
        &[Fact::Cut(1, 0)],
        Question::Usable(0, Place::After(0), 1),
        true,
    ),
    (
        &[Fact::Cut(0, 1)],
        Question::Usable(0, Place::Carry, 0),
        true,
    ),
    (
        &[Fact::Tie(0, 3)],
        Question::Usable(0, Place::After(0), 3),
        true,
    ),
    (
        &[Fact::Tie(0, 3)],
        Question::Usable(0, Place::After(0), 1),
        false,
    ),
    (
        &[Fact::Tie(0, 3)],
        Question::Usable(0, Place::After(2), 3),
        false,
    ),
    (
        &[Fact::Tie(0, 3)],
        Question::Usable(0, Place::After(1), 2),
        true,
    ),
    (
        &[Fact::Tie(1, 2)],
        Question::Usable(0, Place::Carry, 2),
        false,
    ),
    (
        &[Fact::Tie(1, 2)],
        Question::Usable(0, Place::Carry, 0),
        true,
    ),
    (
        &[Fact::Tie(1, 2)],
        Question::Usable(1, Place::After(1), 4),
        false,
    ),
    (
        &[Fact::Cut(4, 4)],
        Question::Usable(0, Place::After(1), 0),
        false,
    ),
];

// Ends after each kind of fact: behind a Must or at it, of this aircraft or another, and where a Tie begins or ends.
const ENDS: &[Row] = &[
    (
        &[Fact::Must(0, 3)],
        Question::End(0, Place::After(1)),
        false,
    ),
    (&[Fact::Must(0, 3)], Question::End(0, Place::After(3)), true),
    (&[Fact::Must(0, 3)], Question::End(0, Place::After(4)), true),
    (&[Fact::Must(0, 3)], Question::End(0, Place::Carry), false),
    (&[Fact::Must(0, 3)], Question::End(1, Place::Carry), true),
    (&[Fact::Must(0, 0)], Question::End(0, Place::Carry), false),
    (&[Fact::Must(0, 0)], Question::End(0, Place::After(0)), true),
    (&[Fact::Tie(1, 2)], Question::End(0, Place::After(1)), false),
    (&[Fact::Tie(1, 2)], Question::End(1, Place::After(1)), false),
    (&[Fact::Tie(1, 2)], Question::End(0, Place::After(2)), true),
    (&[Fact::Tie(0, 1)], Question::End(0, Place::Carry), true),
    (&[Fact::Bar(0, 1)], Question::End(0, Place::After(0)), true),
    (&[Fact::Cut(1, 2)], Question::End(0, Place::After(1)), true),
];

// Routes beside one fact: whole ones, one that is broken in its middle, one that ends too early, none at all, and numbers
// that are no activity's.
const ROUTES: &[Row] = &[
    (&[Fact::Bar(1, 0)], Question::Fits(0, &[0, 1, 2]), true),
    (&[Fact::Bar(0, 1)], Question::Fits(0, &[0, 1, 2]), false),
    (&[Fact::Bar(0, 1)], Question::Fits(0, &[0, 3]), true),
    (&[Fact::Must(0, 1)], Question::Fits(0, &[0, 1, 2]), true),
    (&[Fact::Must(0, 1)], Question::Fits(0, &[0, 3]), false),
    (&[Fact::Must(0, 3)], Question::Fits(0, &[0, 1]), false),
    (&[Fact::Must(0, 3)], Question::Fits(1, &[0, 1]), true),
    (&[Fact::Must(0, 3)], Question::Fits(0, &[]), false),
    (&[Fact::Must(0, 3)], Question::Fits(1, &[]), true),
    (&[Fact::Cut(1, 2)], Question::Fits(0, &[0, 1, 2]), false),
    (&[Fact::Tie(1, 2)], Question::Fits(0, &[0, 1]), false),
    (&[Fact::Tie(1, 2)], Question::Fits(0, &[0, 1, 2]), true),
    (&[Fact::Cut(1, 2)], Question::Fits(0, &[0, 2]), false),
    (&[Fact::Cut(1, 2)], Question::Fits(0, &[0, 1, 5]), false),
    (
        &[Fact::Cut(1, 2)],
        Question::Fits(0, &[4_294_967_295]),
        false,
    ),
];

// What adding a fact twice answers; nothing where it is none of the book.
fn add_twice(book: &Book, marks: &mut Marks, fact: Fact) -> Result<Option<(Added, Added)>, Memory>
    requires { AreMarksOf book.now marks.old }
{
    if !fact.is_of(book) {
        return Ok(None);
    }
    let first = marks.add(book, fact)?;
    Ok(Some((first, marks.add(book, fact)?)))
}

fn last_fact(marks: &Marks) -> Option<Fact> {
    match marks.mark() {
        0 => None,
        n => Some(marks.fact_at(n - 1)),
    }
}

// What adding a fact twice to marks with some answers, and which fact then stands last.
fn added(
    alloc: Global,
    book: &Book,
    facts: &[Fact],
    fact: Fact,
) -> Result<(Option<(Added, Added)>, Option<Fact>), Memory> {
    let mut marks = marks(alloc, book, facts)?;
    let answers = add_twice(book, &mut marks, fact)?;
    Ok((answers, last_fact(&marks)))
}

const LAST: Fact = Fact::Tie(0, 3);

const BEFORE: &[Fact] = &[
    Fact::Bar(0, 1),
    Fact::Must(0, 2),
    Fact::Cut(0, 1),
    Fact::Tie(0, 1),
    LAST,
];

// Whether adding a fact twice first answers this, then that it is known, and this fact stands last.
fn is_added(alloc: Global, fact: Fact, first: Added, end: Fact) -> Result<bool, Fail> {
    let book = book(alloc)?;
    let answer = added(alloc, &book, BEFORE, fact)?;
    Ok(answer == (Some((first, Added::Known)), Some(end)))
}

// A fact is new once, stands last, and is known from then on; facts that were there before are known at once.
#[test]
fn each_fact_once(rt: HostRuntime) -> Result<(), Fail> {
    for &(fact, first, end) in &[
        (Fact::Bar(0, 1), Added::Known, LAST),
        (Fact::Must(0, 2), Added::Known, LAST),
        (Fact::Cut(0, 1), Added::Known, LAST),
        (Fact::Tie(0, 1), Added::Known, LAST),
        (LAST, Added::Known, LAST),
        (Fact::Bar(1, 1), Added::New, Fact::Bar(1, 1)),
        (Fact::Must(0, 1), Added::New, Fact::Must(0, 1)),
        (Fact::Cut(1, 0), Added::New, Fact::Cut(1, 0)),
        (Fact::Tie(0, 4), Added::New, Fact::Tie(0, 4)),
        (Fact::Tie(1, 0), Added::New, Fact::Tie(1, 0)),
    ] {
        assert!(rt; is_added(rt.alloc(), fact, first, end)?, "{fact:?}");
    }
    Ok(())
}

const FACTS: &[Fact] = &[
    Fact::Bar(0, 1),
    Fact::Must(1, 2),
    Fact::Cut(0, 1),
    Fact::Tie(0, 1),
    Fact::Tie(0, 3),
];

// Each fact is there that was added, and no other of its kind is.
const THERE: &[Row] = &[
    (FACTS, Question::Has(Fact::Bar(0, 1)), true),
    (FACTS, Question::Has(Fact::Bar(1, 0)), false),
    (FACTS, Question::Has(Fact::Must(1, 2)), true),
    (FACTS, Question::Has(Fact::Must(0, 1)), false),
    (FACTS, Question::Has(Fact::Cut(0, 1)), true),
    (FACTS, Question::Has(Fact::Cut(1, 0)), false),
    (FACTS, Question::Has(Fact::Tie(0, 1)), true),
    (FACTS, Question::Has(Fact::Tie(0, 3)), true),
    (FACTS, Question::Has(Fact::Tie(0, 2)), false),
    (FACTS, Question::Has(Fact::Tie(1, 2)), false),
];

// Whether a copy of marks has a fact alone.
fn is_copied(marks: &Marks, fact: Fact) -> Result<bool, Memory> {
    let copy = marks.copy()?;
    Ok(copy.mark() == 1 && last_fact(&copy) == Some(fact))
}

// Whether a fact that is added twice to marks without facts is new, then known, and a copy that is made then has it alone.
fn copies(alloc: Global, book: &Book, fact: Fact) -> Result<bool, Memory> {
    let mut marks = Marks::new(alloc, book)?;
    let answers = add_twice(book, &mut marks, fact)?;
    Ok(answers == Some((Added::New, Added::Known)) && is_copied(&marks, fact)?)
}

fn copies_in_book(alloc: Global, fact: Fact) -> Result<bool, Fail> {
    let book = book(alloc)?;
    Ok(copies(alloc, &book, fact)?)
}

// New, then known; and a copy has it, once.
#[test]
fn copy_has_what_was_added(rt: HostRuntime) -> Result<(), Fail> {
    for &fact in &[
        Fact::Bar(0, 1),
        Fact::Must(1, 4),
        Fact::Cut(0, 1),
        Fact::Tie(0, 3),
    ] {
        assert!(rt; copies_in_book(rt.alloc(), fact)?, "{fact:?}");
    }
    Ok(())
}

// Adds a fact to marks, if it is of the book.
fn add_fact(book: &Book, marks: &mut Marks, fact: Fact) -> Result<(), Memory>
    requires { AreMarksOf book.now marks.old }
{
    if fact.is_of(book) {
        marks.add(book, fact)?;
    }
    Ok(())
}

// The last fact of marks that got one.
fn last_with(book: &Book, mut marks: Marks, fact: Fact) -> Result<Option<Fact>, Memory>
    requires { AreMarksOf book.now marks }
{
    add_fact(book, &mut marks, fact)?;
    Ok(last_fact(&marks))
}

// The last facts of marks and of a copy of them, each of which got a fact that the other did not.
fn parted(
    book: &Book,
    marks: &mut Marks,
    here: Fact,
    there: Fact,
) -> Result<(Option<Fact>, Option<Fact>), Memory>
    requires { AreMarksOf book.now marks.old }
{
    let copy = marks.copy()?;
    add_fact(book, marks, here)?;
    let last = last_with(book, copy, there)?;
    Ok((last_fact(marks), last))
}

const HERE: Fact = Fact::Bar(0, 2);

const ELSEWHERE: Fact = Fact::Must(0, 1);

fn is_parted(alloc: Global, book: &Book) -> Result<bool, Memory> {
    let mut marks = marks(alloc, book, &[])?;
    let last = parted(book, &mut marks, HERE, ELSEWHERE)?;
    Ok(last == (Some(HERE), Some(ELSEWHERE)))
}

fn is_parted_in_book(alloc: Global) -> Result<bool, Fail> {
    let book = book(alloc)?;
    Ok(is_parted(alloc, &book)?)
}

// What a copy adds the marks do not have, and the other way round.
#[test]
fn copy_goes_its_own_way(rt: HostRuntime) -> Result<(), Fail> {
    assert!(rt; is_parted_in_book(rt.alloc())?);
    Ok(())
}

const TIED: &[Fact] = &[
    Fact::Tie(0, 1),
    Fact::Tie(0, 3),
    Fact::Must(1, 4),
    Fact::Cut(3, 1),
];

const NOTHING: Named = Named::Nothing;

// One is named, several or nothing; and what comes next, or the end where nothing does.
const NAMED: &[Row] = &[
    (
        TIED,
        Question::Named(0, [Named::Several, NOTHING, NOTHING]),
        true,
    ),
    (
        TIED,
        Question::Named(1, [NOTHING, Named::One(0), NOTHING]),
        true,
    ),
    (
        TIED,
        Question::Named(3, [NOTHING, Named::One(0), NOTHING]),
        true,
    ),
    (
        TIED,
        Question::Named(4, [NOTHING, NOTHING, Named::One(1)]),
        true,
    ),
    (TIED, Question::Next(3, 0, (0, 1)), true),
    (TIED, Question::Next(3, 1, (1, 1)), true),
    (TIED, Question::Next(4, 0, (1, 5)), true),
    (TIED, Question::Next(3, 2, (2, 5)), true),
    (TIED, Question::NextMust(1, 0, 4), true),
    (TIED, Question::NextMust(1, 4, 4), true),
    (TIED, Question::NextMust(1, 5, 5), true),
    (TIED, Question::NextMust(0, 0, 5), true),
];

const CONTRARY: &[Fact] = &[Fact::Tie(0, 1), Fact::Tie(0, 3)];

// Ties that no plan keeps let nothing through.
const CONTRARY_TIES: &[Row] = &[
    (CONTRARY, Question::Usable(0, Place::After(0), 1), false),
    (CONTRARY, Question::Usable(0, Place::After(0), 3), false),
    (CONTRARY, Question::End(0, Place::After(0)), false),
];

// All these rows, and what they are about.
const TABLES: &[(&str, &[Row])] = &[
    ("alive", ALIVE),
    ("usable", USABLE),
    ("ends", ENDS),
    ("routes", ROUTES),
    ("there", THERE),
    ("named and next", NAMED),
    ("contrary ties", CONTRARY_TIES),
];

#[test]
fn marks_answer_by_their_facts(rt: HostRuntime) -> Result<(), Fail> {
    for &(about, rows) in TABLES {
        let wrong = first_wrong(rt.alloc(), rows)?;
        assert!(rt; wrong.is_none(), "{about}, row {wrong:?}");
    }
    Ok(())
}
