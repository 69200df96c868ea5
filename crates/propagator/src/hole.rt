//! Whether marks leave somebody for each activity, and the least one that they leave nobody for. No legal plan keeps
//! marks with such a hole. It costs one look at the bit row of each activity, and takes no memory.

ghost use Rattle.std.specs.Prelude.{◌<◌, ◌↔◌, IsTrue};
ghost use Rattle.tail_book.specs.Lookup.{activities};
ghost use Rattle.branch_marks.specs.inside.MarkTables.{AreMarksOf};
ghost use Rattle.propagator.specs.Closed.{IsClosedAt, SomebodyFlies};

use branch_marks::Marks;
use branch_marks::laws::alive_decides;
use tail_book::Book;

/// What is told of marks once all that follows from them is added.
#[derive(Clone, Copy, PartialEq, Eq)]
pub enum Closed {
    /// Each activity is alive for somebody.
    Fixed,
    /// The least activity that is alive for nobody.
    Hole(u32),
}

// Whether an activity is alive for somebody.
fn somebody_flies(book: &Book, marks: &Marks, a: u32) -> bool
    requires marks { AreMarksOf book.now marks.now }
    requires activity { a < activities book.now }
    ensures { IsTrue result ↔ SomebodyFlies book.now marks.now.facts a }
{
    alive_decides();
    let m = book.tails.len() as u32;
    marks.next_alive(book, a, 0) < m
}

/// The least activity that is alive for nobody, if there is one.
pub fn hole(book: &Book, marks: &Marks) -> Closed
    requires { AreMarksOf book.now marks.now }
    ensures { IsClosedAt book.now marks.now.facts result }
{
    for a in 0..book.activities.len() as u32 {
        if !somebody_flies(book, marks, a) {
            return Closed::Hole(a);
        }
    }
    Closed::Fixed
}
