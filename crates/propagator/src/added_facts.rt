//! Adding a fact that follows, to the marks and to the list of what was added.
//!
//! The list grows first, and gives the fact back where the marks have no memory for it: so both always have the same.

ghost use Rattle.std.specs.Prelude.{◌≡◌, ◌++◌, ◌∷◌, [], OnErr, OnOk};
ghost use Rattle.branch_marks.specs.Following.{Follows, IsDead};
ghost use Rattle.branch_marks.specs.inside.MarkTables.{AreMarksOf};
ghost use Rattle.propagator.specs.InTurn.{WaitsForFloors, GrowInTurn};
ghost use Rattle.propagator.specs.inside.Settling.{ActsOn};
ghost use Rattle.branch_marks.specs.declared.fact.Fact.TheVariants.{Bar as FactBar};

use crate::laws::bars_leave_others;
use branch_marks::laws::{following_facts_are_new, following_facts_are_of_book};
use branch_marks::{Fact, Marks};
use tail_book::{Book, Memory};

/// Adds a fact that follows.
pub fn add_next(
    book: &Book,
    marks: &mut Marks,
    facts: &mut Vec<Fact>,
    fact: Fact,
) -> Result<(), Memory>
    requires marks { AreMarksOf book.now marks.old }
    requires follows { Follows book.now marks.old.facts fact }
    requires waits { WaitsForFloors book.now marks.old.facts fact }
    ensures marks { AreMarksOf book.now marks.new }
    ensures added { OnOk result (marks.new.facts ≡ marks.old.facts ++ fact ∷ []) }
    ensures memory { OnErr result (marks.new.facts ≡ marks.old.facts) }
    ensures grows { GrowInTurn book.now marks.old.facts marks.new.facts facts.old.items facts.new.items }
{
    following_facts_are_new();
    following_facts_are_of_book();
    facts.push(fact)?;
    if let Err(memory) = marks.add(book, fact) {
        facts.pop();
        return Err(memory);
    }
    Ok(())
}

/// Adds a Bar that follows.
pub fn add_bar(
    book: &Book,
    marks: &mut Marks,
    facts: &mut Vec<Fact>,
    k: u32,
    a: u32,
) -> Result<(), Memory>
    requires marks { AreMarksOf book.now marks.old }
    requires dead { IsDead book.now marks.old.facts k a }
    ensures marks { AreMarksOf book.now marks.new }
    ensures added { OnOk result (marks.new.facts ≡ marks.old.facts ++ FactBar k a ∷ []) }
    ensures memory { OnErr result (marks.new.facts ≡ marks.old.facts) }
    ensures grows { GrowInTurn book.now marks.old.facts marks.new.facts facts.old.items facts.new.items }
    ensures acts { ActsOn book.now k marks.old.facts marks.new.facts }
{
    bars_leave_others();
    add_next(book, marks, facts, Fact::Bar(k, a))
}
