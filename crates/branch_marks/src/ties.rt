//! What Ties name behind each activity, and before it: nothing, one activity, or several that differ. A Tie from a to b
//! is noted behind a and before b, so that whether Ties let a link through is a read at each of its ends.

ghost use Rattle.std.specs.Prelude.{◌≡◌, length};
ghost use Rattle.tail_book.specs.Lookup.{activities};
ghost use Rattle.branch_marks.specs.Facts.{IsFactOf};
ghost use Rattle.branch_marks.specs.inside.Named.{AreNoted};
ghost use Rattle.branch_marks.specs.inside.MarkTables.{tied_after, tied_before};

use crate::Fact;
use crate::named::{Named, note_at};
use tail_book::Book;

/// Notes a fact among what is tied behind each activity.
pub fn note_next(book: &Book, next: &mut Vec<Named>, fact: Fact)
    requires fact { IsFactOf book.now fact }
    requires count { length next.old.items ≡ activities book.now }
    ensures { AreNoted (λ a. tied_after a fact) next.old.items next.new.items }
{
    match fact {
        Fact::Tie(a, b) => note_at(next, a, b),
        Fact::Bar(_, _) | Fact::Must(_, _) | Fact::Cut(_, _) => (),
    }
}

/// Notes a fact among what is tied before each activity.
pub fn note_previous(book: &Book, previous: &mut Vec<Named>, fact: Fact)
    requires fact { IsFactOf book.now fact }
    requires count { length previous.old.items ≡ activities book.now }
    ensures { AreNoted (λ b. tied_before b fact) previous.old.items previous.new.items }
{
    match fact {
        Fact::Tie(a, b) => note_at(previous, b, a),
        Fact::Bar(_, _) | Fact::Must(_, _) | Fact::Cut(_, _) => (),
    }
}
