//! What branching decides, and what is still to be decided, in numbers of aircraft and activities.
//!
//! Who flies what, and what directly follows what: the branching of Ryan and Foster, carried over to aircraft.

ghost use Rattle.std.specs.Prelude.{◌≡◌, ◌↔◌, IsTrue};
ghost use Rattle.branch_marks.specs.Facts.{IsFactOf};
ghost use Rattle.branch_marks.specs.MarkTests.{is_fact_of};

use crate::laws::fact_of_decides;
use tail_book::Book;

/// A branching fact. Marks are a list of these.
#[derive(Clone, Copy, PartialEq, Eq, Debug)]
pub enum Fact {
    /// This aircraft does not fly this activity.
    Bar(u32, u32),
    /// This aircraft flies this activity.
    Must(u32, u32),
    /// The second activity never comes directly after the first.
    Cut(u32, u32),
    /// The second activity comes directly after the first, in one route.
    Tie(u32, u32),
}

impl Fact {
    /// Whether the numbers in the fact are of the book.
    pub fn is_of(self, book: &Book) -> bool
        ensures means { IsTrue result ↔ IsFactOf book.now self }
        ensures tests { result ≡ is_fact_of book.now self }
    {
        fact_of_decides();
        self.has_numbers_of(book)
    }

    // Compares both numbers with what the book has.
    fn has_numbers_of(self, book: &Book) -> bool
        ensures { result ≡ is_fact_of book.now self }
    {
        let (n, m) = (book.activities.len(), book.tails.len());
        match self {
            Fact::Bar(k, a) | Fact::Must(k, a) => (k as usize) < m && (a as usize) < n,
            Fact::Cut(a, b) | Fact::Tie(a, b) => (a as usize) < n && (b as usize) < n,
        }
    }
}

/// What a split decides: whether an aircraft flies an activity, or whether an activity comes directly after another.
#[derive(Clone, Copy, PartialEq, Eq, Debug)]
pub enum Pair {
    /// An aircraft and an activity.
    Fly(u32, u32),
    /// An activity, and one that may come directly after it.
    Link(u32, u32),
}
