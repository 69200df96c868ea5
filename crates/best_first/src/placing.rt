//! Marks that go from place to place: all facts are taken back, and those of the new place are added.

ghost use Rattle.std.specs.Prelude.{◌≡◌, ◌++◌, ◌∷◌, [], false, All, IfOk, OnOk};
ghost use Rattle.tail_book.specs.TableSeen.{CostTableSeen};
ghost use Rattle.branch_marks.specs.Facts.{IsFactOf};
ghost use Rattle.branch_marks.specs.FactTests.{has_fact};
ghost use Rattle.branch_marks.specs.inside.MarkTables.{AreMarksOf};
ghost use Rattle.best_first.specs.inside.Links.{AreLinks, facts_at};
ghost use Rattle.best_first.specs.inside.Slots.{HaveNoneTwice, IsSlot};

use crate::links::{Link, facts_to};
use crate::slots::Slot;
use branch_marks::laws::has_fact_decides;
use branch_marks::{Fact, Marks};
use std::alloc::Global;
use tail_book::{Book, Memory};

// Adds a fact that is not among the marks.
fn add_new(book: &Book, marks: &mut Marks, fact: Fact) -> Result<(), Memory>
    requires marks { AreMarksOf book.now marks.old }
    requires fact { IsFactOf book.now fact }
    requires new { has_fact marks.old.facts fact ≡ false }
    ensures facts { IfOk result (λ _. marks.new.facts ≡ marks.old.facts ++ fact ∷ []) }
    ensures marks { AreMarksOf book.now marks.new }
{
    has_fact_decides();
    let _added = marks.add(book, fact)?;
    Ok(())
}

/// Makes these facts the marks.
pub fn go_to(book: &Book, marks: &mut Marks, facts: &[Fact]) -> Result<(), Memory>
    requires marks { AreMarksOf book.now marks.old }
    requires once { HaveNoneTwice facts.now }
    requires of_book { All (IsFactOf book.now) facts.now }
    ensures facts { OnOk result (marks.new.facts ≡ facts.now) }
    ensures marks { AreMarksOf book.now marks.new }
{
    marks.rewind(0);
    for i in 0..facts.len() {
        add_new(book, marks, facts[i])?;
    }
    Ok(())
}

/// Makes the facts of a slot's place the marks.
pub fn go_to_slot(
    alloc: Global,
    book: &Book,
    links: &[Link],
    slot: &Slot,
    marks: &mut Marks,
) -> Result<(), Memory>
    requires marks { AreMarksOf book.now marks.old }
    requires links { AreLinks links.now }
    requires slot { (table : CostTableSeen) × IsSlot table book.now links.now slot.now }
    ensures facts { OnOk result (marks.new.facts ≡ facts_at links.now slot.now.end) }
    ensures marks { AreMarksOf book.now marks.new }
{
    let facts = facts_to(alloc, links, slot.end)?;
    go_to(book, marks, &facts)
}
