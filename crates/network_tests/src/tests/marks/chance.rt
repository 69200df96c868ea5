//! Marks by chance: the tables say what a walk over the facts says.

ghost use Rattle.branch_marks.specs.inside.MarkTables.{AreMarksOf};

use super::{book, is_place_of};
use crate::tests::plain_facts::{let_end, let_fly, let_go};
use branch_marks::{Fact, Marks};
use dice::Dice;
use small_books::marks;
use std::alloc::Global;
use std::test::Fail;
use tail_book::*;
use turn_rules::{allowed, link};

fn fact(dice: &mut Dice) -> Fact {
    match dice.below(4) {
        0 => Fact::Bar(dice.below(2), dice.below(5)),
        1 => Fact::Must(dice.below(2), dice.below(5)),
        2 => Fact::Cut(dice.below(5), dice.below(5)),
        _ => Fact::Tie(dice.below(5), dice.below(5)),
    }
}

pub fn facts(dice: &mut Dice, alloc: Global) -> Result<Vec<Fact>, Memory> {
    let mut facts = Vec::new(alloc);
    for _ in 0..dice.below(7) {
        facts.push(fact(dice))?;
    }
    Ok(facts)
}

fn let_fly_at(facts: &[Fact], k: u32, from: Place) -> bool {
    match from {
        Place::Carry => true,
        Place::After(x) => let_fly(facts, k, x),
    }
}

// Whether the tables say of a link what the walk says, and whether it is usable; nothing where it is none of the book.
fn link_as_walked(
    book: &Book,
    marks: &Marks,
    facts: &[Fact],
    link_of: (u32, Place, u32),
) -> Option<(bool, bool)>
    requires { AreMarksOf book.now marks.now }
{
    let (k, from, b) = link_of;
    if k as usize >= book.tails.len() || b as usize >= book.activities.len() {
        return None;
    }
    if !is_place_of(book, from) {
        return None;
    }
    let want = link(book, k, from, b)
        && let_go(facts, k, from, b)
        && let_fly_at(facts, k, from)
        && let_fly(facts, k, b);
    Some((marks.usable(book, k, from, b) == want, want))
}

// The same of an activity and of a route's end there.
fn end_as_walked(book: &Book, marks: &Marks, facts: &[Fact], k: u32, a: u32) -> Option<(bool, bool)>
    requires { AreMarksOf book.now marks.now }
{
    if k as usize >= book.tails.len() || a as usize >= book.activities.len() {
        return None;
    }
    let place = Place::After(a);
    let alive = allowed(book, k, a) && let_fly(facts, k, a);
    let ends = let_end(facts, k, place);
    Some((
        marks.alive(book, k, a) == alive,
        marks.may_end(book, k, place) == ends,
    ))
}

// The same of a route's end at the carry-in.
fn carry_as_walked(book: &Book, marks: &Marks, facts: &[Fact], k: u32) -> Option<bool>
    requires { AreMarksOf book.now marks.now }
{
    if k as usize >= book.tails.len() {
        return None;
    }
    Some(marks.may_end(book, k, Place::Carry) == let_end(facts, k, Place::Carry))
}

// Marks with these facts, for an aircraft: whether all answers are as walked, and how many links are usable.
fn compare_with(book: &Book, marks: &Marks, facts: &[Fact], k: u32) -> (bool, u32)
    requires { AreMarksOf book.now marks.now }
{
    let (mut same, mut usable) = (carry_as_walked(book, marks, facts, k) == Some(true), 0u32);
    for b in 0..book.activities.len() as u32 {
        same &= end_as_walked(book, marks, facts, k, b) == Some((true, true));
        for x in 0..book.activities.len() as u32 {
            let from = if x == b {
                Place::Carry
            } else {
                Place::After(x)
            };
            let answer = link_as_walked(book, marks, facts, (k, from, b));
            same &= answer == Some((true, true)) || answer == Some((true, false));
            usable = usable.saturating_add((answer == Some((true, true))) as u32);
        }
    }
    (same, usable)
}

// The same of marks with these facts.
fn compare(alloc: Global, book: &Book, facts: &[Fact], k: u32) -> Result<(bool, u32), Memory> {
    let marks = marks(alloc, book, facts)?;
    Ok(compare_with(book, &marks, facts, k))
}

// The same of the next facts, for both aircraft.
fn compare_next(alloc: Global, book: &Book, dice: &mut Dice) -> Result<(bool, u32), Memory> {
    let facts = facts(dice, alloc)?;
    let (first, usable) = compare(alloc, book, &facts, 0)?;
    let (second, more) = compare(alloc, book, &facts, 1)?;
    Ok((first && second, usable.saturating_add(more)))
}

// The number of the first of 200 lists of facts for which an answer is another than walked. Counts the links.
fn first_other(alloc: Global, book: &Book, usable: &mut u32) -> Result<Option<u32>, Memory> {
    let mut dice = Dice::new(1);
    for number in 0..200 {
        let (same, found) = compare_next(alloc, book, &mut dice)?;
        *usable = usable.saturating_add(found);
        if !same {
            return Ok(Some(number));
        }
    }
    Ok(None)
}

fn first_other_in_book(alloc: Global, usable: &mut u32) -> Result<Option<u32>, Fail> {
    let book = book(alloc)?;
    Ok(first_other(alloc, &book, usable)?)
}

// Of 200 lists of up to six facts, some questions are answered yes and some no.
#[test]
fn tables_say_what_the_facts_say(rt: HostRuntime) -> Result<(), Fail> {
    let mut usable = 0u32;
    let other = first_other_in_book(rt.alloc(), &mut usable)?;
    assert!(rt; other.is_none(), "list {other:?}");
    assert!(rt; usable > 500 && usable < 5000, "{usable} usable");
    Ok(())
}
