//! Marks that are rewound: what came behind the mark is gone and can come again, and what stood before it is still there. By
//! chance they answer as marks that are made anew from the facts that are kept.

ghost use Rattle.branch_marks.specs.inside.MarkTables.{AreMarksOf};

use super::chance::facts;
use super::{Question, answer, book, has};
use branch_marks::{Added, Fact, Marks};
use dice::Dice;
use small_books::marks;
use std::alloc::Global;
use std::test::Fail;
use tail_book::*;

// Adds a fact that is of the book; nothing where it is none.
fn add(book: &Book, marks: &mut Marks, fact: Fact) -> Result<Option<Added>, Memory>
    requires { AreMarksOf book.now marks.old }
    ensures { AreMarksOf book.now marks.new }
{
    if !fact.is_of(book) {
        return Ok(None);
    }
    Ok(Some(marks.add(book, fact)?))
}

fn add_all(book: &Book, marks: &mut Marks, facts: &[Fact]) -> Result<(), Memory>
    requires { AreMarksOf book.now marks.old }
    ensures { AreMarksOf book.now marks.new }
{
    for fact in facts {
        add(book, marks, *fact)?;
    }
    Ok(())
}

// Rewinds marks, if they have as many facts.
fn rewind(book: &Book, marks: &mut Marks, mark: usize)
    requires { AreMarksOf book.now marks.old }
    ensures { AreMarksOf book.now marks.new }
{
    if mark <= marks.mark() {
        marks.rewind(mark);
    }
}

const FIRST: Fact = Fact::Bar(0, 1);

const SECOND: Fact = Fact::Cut(0, 1);

// What of two facts marks have, and what adding the second one again answers.
fn end(
    book: &Book,
    marks: &mut Marks,
) -> Result<(Option<bool>, Option<bool>, Option<Added>), Memory>
    requires { AreMarksOf book.now marks.old }
{
    let (first, second) = (has(book, marks, FIRST), has(book, marks, SECOND));
    Ok((first, second, add(book, marks, SECOND)?))
}

// A fact, a mark, another fact, and back to the mark.
fn end_of_row(alloc: Global, book: &Book) -> Result<bool, Memory> {
    let mut marks = Marks::new(alloc, book)?;
    add(book, &mut marks, FIRST)?;
    let mark = marks.mark();
    add(book, &mut marks, SECOND)?;
    rewind(book, &mut marks, mark);
    let end = end(book, &mut marks)?;
    Ok(mark == 1 && end == (Some(true), Some(false), Some(Added::New)))
}

fn end_of_row_in_book(alloc: Global) -> Result<bool, Fail> {
    let book = book(alloc)?;
    Ok(end_of_row(alloc, &book)?)
}

// The fact behind the mark is gone, and new again; the one before it is there.
#[test]
fn what_came_behind_a_mark_is_gone(rt: HostRuntime) -> Result<(), Fail> {
    assert!(rt; end_of_row_in_book(rt.alloc())?);
    Ok(())
}

// Whether two marks answer the same.
fn same(book: &Book, one: &Marks, other: &Marks, question: Question) -> bool
    requires one { AreMarksOf book.now one.now }
    requires other { AreMarksOf book.now other.now }
{
    answer(book, one, question) == answer(book, other, question)
}

// The same of an aircraft at an activity.
fn same_at(book: &Book, one: &Marks, other: &Marks, k: u32, a: u32) -> bool
    requires one { AreMarksOf book.now one.now }
    requires other { AreMarksOf book.now other.now }
{
    same(book, one, other, Question::Alive(k, a))
        && same(book, one, other, Question::End(k, Place::After(a)))
        && same(book, one, other, Question::Has(Fact::Bar(k, a)))
        && same(book, one, other, Question::Has(Fact::Must(k, a)))
}

// The same of an activity behind another one.
fn same_behind(book: &Book, one: &Marks, other: &Marks, a: u32, b: u32) -> bool
    requires one { AreMarksOf book.now one.now }
    requires other { AreMarksOf book.now other.now }
{
    same(book, one, other, Question::Usable(0, Place::After(a), b))
        && same(book, one, other, Question::Usable(1, Place::After(a), b))
        && same(book, one, other, Question::Has(Fact::Cut(a, b)))
        && same(book, one, other, Question::Has(Fact::Tie(a, b)))
}

// The same of an aircraft at its carry-in.
fn same_first(book: &Book, one: &Marks, other: &Marks, k: u32, b: u32) -> bool
    requires one { AreMarksOf book.now one.now }
    requires other { AreMarksOf book.now other.now }
{
    same(book, one, other, Question::End(k, Place::Carry))
        && same(book, one, other, Question::Usable(k, Place::Carry, b))
}

// The same of an activity, with each aircraft and behind each activity.
fn same_of(book: &Book, one: &Marks, other: &Marks, a: u32) -> bool
    requires one { AreMarksOf book.now one.now }
    requires other { AreMarksOf book.now other.now }
{
    for k in 0..2 {
        if !same_at(book, one, other, k, a) || !same_first(book, one, other, k, a) {
            return false;
        }
    }
    for b in 0..5 {
        if !same_behind(book, one, other, a, b) {
            return false;
        }
    }
    true
}

// Whether two marks answer the same to every question.
fn same_all(book: &Book, one: &Marks, other: &Marks) -> bool
    requires one { AreMarksOf book.now one.now }
    requires other { AreMarksOf book.now other.now }
{
    for a in 0..5 {
        if !same_of(book, one, other, a) {
            return false;
        }
    }
    true
}

// Adds facts by chance to marks, and rewinds them to a mark by chance; lists the facts that are kept.
fn wander(
    alloc: Global,
    book: &Book,
    marks: &mut Marks,
    dice: &mut Dice,
) -> Result<Vec<Fact>, Memory>
    requires { AreMarksOf book.now marks.old }
    ensures { AreMarksOf book.now marks.new }
{
    add_all(book, marks, &facts(dice, alloc)?)?;
    let mut kept = marks.copy_of_facts(alloc)?;
    let mark = dice.below(kept.len().min(31) as u32 + 1) as usize;
    kept.truncate(mark);
    rewind(book, marks, mark);
    Ok(kept)
}

// The same some times over, and whether marks that are made anew from the facts that are kept answer the same each time.
// Counts the facts that were kept.
fn wanders(alloc: Global, book: &Book, dice: &mut Dice, kept: &mut u32) -> Result<bool, Memory> {
    let mut one = Marks::new(alloc, book)?;
    for _turn in 0..4 {
        let facts = wander(alloc, book, &mut one, dice)?;
        let other = marks(alloc, book, &facts)?;
        if one.mark() != facts.len() || !same_all(book, &one, &other) {
            return Ok(false);
        }
        *kept = kept.saturating_add(facts.len().min(31) as u32);
    }
    Ok(true)
}

// The number of the first of 100 marks by chance that answer another than marks that are made anew. Counts the facts.
fn first_other(alloc: Global, book: &Book, kept: &mut u32) -> Result<Option<u32>, Memory> {
    let mut dice = Dice::new(1);
    for number in 0..100 {
        if !wanders(alloc, book, &mut dice, kept)? {
            return Ok(Some(number));
        }
    }
    Ok(None)
}

fn first_other_in_book(alloc: Global, kept: &mut u32) -> Result<Option<u32>, Fail> {
    let book = book(alloc)?;
    Ok(first_other(alloc, &book, kept)?)
}

// Of 400 marks that are rewound, most keep some facts.
#[test]
fn rewound_marks_answer_as_new_ones(rt: HostRuntime) -> Result<(), Fail> {
    let mut kept = 0u32;
    let other = first_other_in_book(rt.alloc(), &mut kept)?;
    assert!(rt; other.is_none(), "marks {other:?}");
    assert!(rt; kept > 400 && kept < 4000, "{kept} kept");
    Ok(())
}
