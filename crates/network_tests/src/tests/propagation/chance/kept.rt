//! Books and facts by chance that come one at a time: what follows by a propagator that is kept is what follows anew.

ghost use Rattle.std.specs.Prelude.{◌≡◌, List};
ghost use Rattle.connection_net.specs.Net.{net_of};
ghost use Rattle.branch_marks.specs.inside.MarkTables.{AreMarksOf};
ghost use Rattle.branch_marks.specs.declared.fact.Fact.{Fact as MarkFact};
ghost use Rattle.propagator.specs.Keeping.{IsKeptFor, IsMadeFor};

use super::{book_by_chance, fact_by, is_closed};
use branch_marks::{Fact, Marks};
use connection_net::Net;
use dice::Dice;
use propagator::laws::kept_for_more;
use propagator::{Closed, Propagator, close};
use std::alloc::Global;
use std::test::Fail;
use tail_book::*;

// Adds a fact to marks, if it is of the book.
fn add(book: &Book, marks: &mut Marks, kept: &Propagator, fact: Fact) -> Result<(), Memory>
    requires marks { AreMarksOf book.now marks.old }
    requires kept { IsKeptFor book.now marks.old.facts kept.now }
    ensures marks { AreMarksOf book.now marks.new }
    ensures kept { IsKeptFor book.now marks.new.facts kept.now }
{
    kept_for_more();
    if fact.is_of(book) {
        marks.add(book, fact)?;
    }
    Ok(())
}

// Whether just these facts follow from marks anew, with this answer.
fn follow_anew(
    alloc: Global,
    book: &Book,
    net: &Net,
    marks: &mut Marks,
    list: &[Fact],
    answer: Closed,
) -> Result<bool, Memory>
    requires net { net.now ≡ net_of book.now }
    requires marks { AreMarksOf book.now marks.old }
{
    let mut anew = Vec::new(alloc);
    let told = close(alloc, book, net, marks, &mut anew)?;
    Ok(answer == told && are_same(list, &anew))
}

// The same, and as the rules say.
fn follow_by_rules(
    alloc: Global,
    book: &Book,
    net: &Net,
    marks: &mut Marks,
    list: &[Fact],
    answer: Closed,
) -> Result<bool, Memory>
    requires net { net.now ≡ net_of book.now }
    requires marks { AreMarksOf book.now marks.old }
{
    let before = marks.copy_of_facts(alloc)?;
    let same = follow_anew(alloc, book, net, marks, list, answer)?;
    Ok(same && is_closed(alloc, book, &before, list)?)
}

fn are_same(facts: &[Fact], others: &[Fact]) -> bool {
    facts.len() == others.len() && facts.iter().all(|fact| others.contains(fact))
}

// How many facts follow by a propagator that is kept, and whether the same follow anew from marks as they were, and as the
// rules say.
fn follow_beside(
    alloc: Global,
    book: &Book,
    net: &Net,
    marks: &mut Marks,
    kept: &mut Propagator,
    before: &mut Marks,
) -> Result<(usize, bool), Memory>
    requires net { net.now ≡ net_of book.now }
    requires marks { AreMarksOf book.now marks.old }
    requires kept { IsKeptFor book.now marks.old.facts kept.old }
    requires before { AreMarksOf book.now before.old }
    ensures marks { AreMarksOf book.now marks.new }
    ensures kept { IsKeptFor book.now marks.new.facts kept.new }
{
    let mut list = Vec::new(alloc);
    let answer = kept.close(book, net, marks, &mut list)?;
    let same = follow_by_rules(alloc, book, net, before, &list, answer)?;
    Ok((list.len(), same))
}

// The same from these marks.
fn follow(
    alloc: Global,
    book: &Book,
    net: &Net,
    marks: &mut Marks,
    kept: &mut Propagator,
) -> Result<(usize, bool), Memory>
    requires net { net.now ≡ net_of book.now }
    requires marks { AreMarksOf book.now marks.old }
    requires kept { IsKeptFor book.now marks.old.facts kept.old }
    ensures marks { AreMarksOf book.now marks.new }
    ensures kept { IsKeptFor book.now marks.new.facts kept.new }
{
    let mut before = marks.copy()?;
    follow_beside(alloc, book, net, marks, kept, &mut before)
}

// The same for one fact more.
fn follow_next(
    alloc: Global,
    book: &Book,
    net: &Net,
    marks: &mut Marks,
    kept: &mut Propagator,
    fact: Fact,
) -> Result<(usize, bool), Memory>
    requires net { net.now ≡ net_of book.now }
    requires marks { AreMarksOf book.now marks.old }
    requires kept { IsKeptFor book.now marks.old.facts kept.old }
    ensures marks { AreMarksOf book.now marks.new }
    ensures kept { IsKeptFor book.now marks.new.facts kept.new }
{
    add(book, marks, kept, fact)?;
    follow(alloc, book, net, marks, kept)
}

// Facts that come one at a time: how many follow by a propagator that is kept, and whether always the same follow anew,
// and as the rules say.
fn follow_all(
    alloc: Global,
    book: &Book,
    net: &Net,
    marks: &mut Marks,
    kept: &mut Propagator,
    dice: &mut Dice,
) -> Result<(usize, bool), Memory>
    requires net { net.now ≡ net_of book.now }
    requires marks { AreMarksOf book.now marks.old }
    requires kept { IsKeptFor book.now marks.old.facts kept.old }
{
    let (mut many, mut same) = (0usize, true);
    for _turn in 0..6 {
        let (more, right) = follow_next(alloc, book, net, marks, kept, fact_by(dice))?;
        many = many.saturating_add(more);
        same &= right;
    }
    Ok((many, same))
}

// The same by a propagator that keeps nothing yet.
fn follow_first(
    alloc: Global,
    book: &Book,
    net: &Net,
    marks: &mut Marks,
    dice: &mut Dice,
) -> Result<(usize, bool), Memory>
    requires net { net.now ≡ net_of book.now }
    requires marks { AreMarksOf book.now marks.old }
{
    let mut kept = Propagator::new(alloc, book)?;
    follow_all(alloc, book, net, marks, &mut kept, dice)
}

// The same of marks that have no facts yet.
fn follow_over(
    alloc: Global,
    book: &Book,
    net: &Net,
    dice: &mut Dice,
) -> Result<(usize, bool), Memory>
    requires { net.now ≡ net_of book.now }
{
    let mut marks = Marks::new(alloc, book)?;
    follow_first(alloc, book, net, &mut marks, dice)
}

fn follow_each(alloc: Global, book: &Book, dice: &mut Dice) -> Result<(usize, bool), Memory> {
    let net = Net::new(alloc, book)?;
    follow_over(alloc, book, &net, dice)
}

fn follow_each_of_next(alloc: Global, dice: &mut Dice) -> Result<(usize, bool), Fail> {
    let book = book_by_chance(alloc, dice)?;
    Ok(follow_each(alloc, &book, dice)?)
}

// 200 books, with up to six facts that come one at a time: what follows is what follows anew, and what the rules say.
#[test]
fn kept_is_as_made_anew(rt: HostRuntime) -> Result<(), Fail> {
    let (mut dice, mut many) = (Dice::new(11), 0usize);
    for round in 0..200 {
        let (more, same) = follow_each_of_next(rt.alloc(), &mut dice)?;
        assert!(rt; same, "{round}");
        many = many.saturating_add(more);
    }
    assert!(rt; many > 1000, "{many}");
    Ok(())
}

// What follows from marks with one fact, by a propagator that forgets those before.
fn follow_one(
    alloc: Global,
    book: &Book,
    net: &Net,
    kept: &mut Propagator,
    fact: Fact,
) -> Result<(usize, bool), Memory>
    requires net { net.now ≡ net_of book.now }
    requires made { IsMadeFor book.now kept.old }
    ensures made { IsMadeFor book.now kept.new }
{
    let mut marks = Marks::new(alloc, book)?;
    kept.forget();
    follow_next(alloc, book, net, &mut marks, kept, fact)
}

// How many facts follow from marks with one fact each, and whether always the same follow anew, and as the rules say.
fn follow_three(
    alloc: Global,
    book: &Book,
    net: &Net,
    kept: &mut Propagator,
    dice: &mut Dice,
) -> Result<(usize, bool), Memory>
    requires net { net.now ≡ net_of book.now }
    requires kept { (facts : List MarkFact) → IsKeptFor book.now facts kept.old }
{
    let (mut many, mut same) = (0usize, true);
    for _turn in 0..3 {
        let (more, right) = follow_one(alloc, book, net, kept, fact_by(dice))?;
        many = many.saturating_add(more);
        same &= right;
    }
    Ok((many, same))
}

fn follow_apart_over(
    alloc: Global,
    book: &Book,
    net: &Net,
    dice: &mut Dice,
) -> Result<(usize, bool), Memory>
    requires { net.now ≡ net_of book.now }
{
    let mut kept = Propagator::new(alloc, book)?;
    follow_three(alloc, book, net, &mut kept, dice)
}

fn follow_apart(alloc: Global, book: &Book, dice: &mut Dice) -> Result<(usize, bool), Memory> {
    let net = Net::new(alloc, book)?;
    follow_apart_over(alloc, book, &net, dice)
}

fn follow_apart_in_next(alloc: Global, dice: &mut Dice) -> Result<(usize, bool), Fail> {
    let book = book_by_chance(alloc, dice)?;
    Ok(follow_apart(alloc, &book, dice)?)
}

// 100 books, three times marks of their own for each, by a propagator that forgets those before.
#[test]
fn forgotten_is_as_made_anew(rt: HostRuntime) -> Result<(), Fail> {
    let (mut dice, mut many) = (Dice::new(17), 0usize);
    for round in 0..100 {
        let (more, same) = follow_apart_in_next(rt.alloc(), &mut dice)?;
        assert!(rt; same, "{round}");
        many = many.saturating_add(more);
    }
    assert!(rt; many > 300, "{many}");
    Ok(())
}
