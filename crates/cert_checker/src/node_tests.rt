//! Whether a fact follows from marks, a pair is undecided, and nobody is alive at an activity.
//!
//! A fact is tested for the aircraft and the activities that it names, and for nothing else: a Bar asks for the floors of its
//! aircraft up to its activity, a Cut for those of each aircraft that may use the link, up to one that goes on over it. Floors
//! that are kept from the last test are not made again.

ghost use Rattle.std.specs.Prelude.{◌≡◌, ◌<◌, ◌≤◌, ◌↔◌, IsTrue, true, false, length};
ghost use Rattle.tail_book.specs.Lookup.{activities, aircraft};
ghost use Rattle.tail_book.specs.declared.place.Place.TheVariants.{After as PlaceAfter};
ghost use Rattle.branch_marks.specs.Branches.{IsPairOf};
ghost use Rattle.branch_marks.specs.Facts.{IsFactOf};
ghost use Rattle.branch_marks.specs.Following.{CannotGoBy, IsDead, IsDeadConnection, IsOnlyCarrier};
ghost use Rattle.branch_marks.specs.Marks.{IsUsable};
ghost use Rattle.branch_marks.specs.Below.{some_below};
ghost use Rattle.branch_marks.specs.Undecided.{is_undecided};
ghost use Rattle.branch_marks.specs.FollowingTests.{follows};
ghost use Rattle.branch_marks.specs.inside.MarkTables.{AreMarksOf};
ghost use Rattle.branch_marks.specs.MarkTests.{is_usable};
ghost use Rattle.branch_marks.specs.TreeTests.{is_hole};
ghost use Rattle.floor_rows.specs.inside.LeastOver.{floor_of};
ghost use Rattle.cert_checker.specs.inside.KeptFloors.{AreAllUnder};
ghost use Rattle.cert_checker.specs.inside.Means.{AreMeansOf};

use crate::kept_floors::KeptRows;
use crate::means::Means;
use branch_marks::laws::follows_decides;
use branch_marks::{Fact, Marks, Pair};
use floor_rows::laws::asking_passes_over;
use floor_rows::may_go_over;
use tail_book::laws::every_book_is_sound;
use tail_book::{Book, Place};

// Whether an activity is dead for an aircraft. The floors are made for one that is alive alone.
fn is_dead(
    book: &Book,
    means: &Means,
    marks: &Marks,
    k: u32,
    a: u32,
    kept: &mut KeptRows,
    values: &mut [i64],
) -> bool
    requires means { AreMeansOf book.now means.now }
    requires marks { AreMarksOf book.now marks.now }
    requires aircraft { k < aircraft book.now }
    requires activity { a < activities book.now }
    requires kept { AreAllUnder book.now marks.now.facts kept.old.rows.items }
    requires width { length values.old ≡ length book.now.rules.counters }
    ensures means { IsTrue result ↔ IsDead book.now marks.now.facts k a }
    ensures kept { AreAllUnder book.now marks.now.facts kept.new.rows.items }
{
    every_book_is_sound(book);
    if !marks.alive(book, k, a) {
        return false;
    }
    let i = kept.row_of(k);
    let floors = &mut kept.rows[i];
    floors.put(book, means, marks, k, a + 1, values);
    floor_rows::is_dead(
        book,
        &means.net,
        &means.steps,
        marks,
        k,
        a,
        &floors.row,
        values,
    )
}

// Whether an aircraft is the only carrier of an activity.
fn is_only_carrier(book: &Book, marks: &Marks, k: u32, a: u32) -> bool
    requires marks { AreMarksOf book.now marks.now }
    requires activity { a < activities book.now }
    ensures { IsTrue result ↔ IsOnlyCarrier book.now marks.now.facts k a }
{
    match marks.only_carrier(book, a) {
        Some(carrier) => carrier == k,
        None => false,
    }
}

// Whether an aircraft may use a link and goes on over it, by its floors.
fn goes_over(
    book: &Book,
    means: &Means,
    marks: &Marks,
    k: u32,
    a: u32,
    b: u32,
    kept: &mut KeptRows,
    values: &mut [i64],
) -> bool
    requires means { AreMeansOf book.now means.now }
    requires marks { AreMarksOf book.now marks.now }
    requires aircraft { k < aircraft book.now }
    requires from { a < activities book.now }
    requires to { b < activities book.now }
    requires kept { AreAllUnder book.now marks.now.facts kept.old.rows.items }
    requires width { length values.old ≡ length book.now.rules.counters }
    ensures goes { result ≡ true → ¬ IsDeadConnection book.now marks.now.facts a b }
    ensures cannot { result ≡ false → IsUsable book.now marks.now.facts k (PlaceAfter a) b → CannotGoBy book.now k a b (floor_of book.now marks.now.facts k a) }
    ensures kept { AreAllUnder book.now marks.now.facts kept.new.rows.items }
{
    every_book_is_sound(book);
    let i = kept.row_of(k);
    let floors = &mut kept.rows[i];
    floors.put(book, means, marks, k, a + 1, values);
    may_go_over(book, &means.steps, marks, k, a, b, &floors.row, values)
}

// Whether a link is a dead connection.
fn is_dead_connection(
    book: &Book,
    means: &Means,
    marks: &Marks,
    a: u32,
    b: u32,
    kept: &mut KeptRows,
    values: &mut [i64],
) -> bool
    requires means { AreMeansOf book.now means.now }
    requires marks { AreMarksOf book.now marks.now }
    requires from { a < activities book.now }
    requires to { b < activities book.now }
    requires kept { AreAllUnder book.now marks.now.facts kept.old.rows.items }
    requires width { length values.old ≡ length book.now.rules.counters }
    ensures means { IsTrue result ↔ IsDeadConnection book.now marks.now.facts a b }
    ensures kept { AreAllUnder book.now marks.now.facts kept.new.rows.items }
{
    asking_passes_over();
    marks.facts_are_of_book(book);
    if marks.has(Fact::Cut(a, b)) {
        return false;
    }
    let mut used = false;
    let mut k = marks.next_alive(book, a, 0);
    while (k as usize) < book.tails.len() {
        if marks.usable(book, k, Place::After(a), b) {
            if goes_over(book, means, marks, k, a, b, kept, values) {
                return false;
            }
            used = true;
        }
        k = marks.next_alive(book, a, k + 1);
    }
    used
}

/// Whether a fact of the book follows from the marks.
pub fn follows(
    book: &Book,
    means: &Means,
    marks: &Marks,
    fact: Fact,
    kept: &mut KeptRows,
    values: &mut [i64],
) -> bool
    requires means { AreMeansOf book.now means.now }
    requires marks { AreMarksOf book.now marks.now }
    requires fact { IsFactOf book.now fact }
    requires kept { AreAllUnder book.now marks.now.facts kept.old.rows.items }
    requires width { length values.old ≡ length book.now.rules.counters }
    ensures tests { result ≡ follows book.now marks.now.facts fact }
    ensures kept { AreAllUnder book.now marks.now.facts kept.new.rows.items }
{
    follows_decides();
    match fact {
        Fact::Bar(k, a) => is_dead(book, means, marks, k, a, kept, values),
        Fact::Must(k, a) => is_only_carrier(book, marks, k, a),
        Fact::Cut(a, b) => is_dead_connection(book, means, marks, a, b, kept, values),
        Fact::Tie(_, _) => false,
    }
}

// Whether one of the aircraft below a number may use a link.
fn some_use(book: &Book, marks: &Marks, m: u32, a: u32, b: u32) -> bool
    requires marks { AreMarksOf book.now marks.now }
    requires fleet { m ≤ aircraft book.now }
    requires from { a < activities book.now }
    requires to { b < activities book.now }
    ensures { result ≡ some_below (λ k. is_usable book.now marks.now.facts k (PlaceAfter a) b) m }
{
    for k in (0..m).rev() {
        if marks.usable(book, k, Place::After(a), b) {
            return true;
        }
    }
    false
}

/// Whether the marks leave a pair of the book undecided.
pub fn undecided(book: &Book, marks: &Marks, pair: Pair) -> bool
    requires marks { AreMarksOf book.now marks.now }
    requires pair { IsPairOf book.now pair }
    ensures { result ≡ is_undecided book.now marks.now.facts pair }
{
    marks.facts_are_of_book(book);
    match pair {
        Pair::Fly(k, a) => marks.alive(book, k, a) && !marks.has(Fact::Must(k, a)),
        Pair::Link(a, b) => {
            some_use(book, marks, book.tails.len() as u32, a, b)
                && !marks.has(Fact::Cut(a, b))
                && !marks.has(Fact::Tie(a, b))
        }
    }
}

/// Whether an activity of the book is alive for nobody.
pub fn hole(book: &Book, marks: &Marks, a: u32) -> bool
    requires marks { AreMarksOf book.now marks.now }
    requires activity { a < activities book.now }
    ensures { result ≡ is_hole book.now marks.now.facts a }
{
    let m = book.tails.len() as u32;
    marks.next_alive(book, a, 0) == m
}
