//! The aircraft that Musts name for each activity: none, one, or several that differ. Only a Must names one, and it is
//! noted at its own activity alone, so a fact changes one entry at most.

ghost use Rattle.std.specs.Prelude.{◌≡◌, length};
ghost use Rattle.tail_book.specs.Lookup.{activities};
ghost use Rattle.branch_marks.specs.Facts.{IsFactOf};
ghost use Rattle.branch_marks.specs.inside.Named.{AreNoted};
ghost use Rattle.branch_marks.specs.inside.MarkTables.{given_to};

use crate::Fact;
use crate::named::{Named, note_at};
use tail_book::Book;

/// Notes a fact among the carriers.
pub fn note_carrier(book: &Book, carriers: &mut Vec<Named>, fact: Fact)
    requires fact { IsFactOf book.now fact }
    requires count { length carriers.old.items ≡ activities book.now }
    ensures { AreNoted (λ a. given_to a fact) carriers.old.items carriers.new.items }
{
    match fact {
        Fact::Must(k, a) => note_at(carriers, a, k),
        Fact::Bar(_, _) | Fact::Cut(_, _) | Fact::Tie(_, _) => (),
    }
}
