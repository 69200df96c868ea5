//! Whether a route fits marks: each of its links is usable, and the aircraft may end where it ends. One question for each
//! activity and one for the end, so a few reads each, and no memory.

ghost use Rattle.std.specs.Prelude.{◌≡◌, ◌<◌, ◌&&◌, ◌↔◌, IsTrue};
ghost use Rattle.tail_book.specs.Lookup.{activities, aircraft};
ghost use Rattle.tail_book.specs.Place.{IsPlaceOf};
ghost use Rattle.branch_marks.specs.Marks.{Fits};
ghost use Rattle.branch_marks.specs.MarkTests.{fits, is_usable};
ghost use Rattle.branch_marks.specs.inside.MarkTables.{AreMarksOf};

use super::Marks;
use crate::laws::{fits_decides, usable_decides};
use tail_book::{Book, Place};

impl Marks {
    // Whether an aircraft may go from a place to a number, which need not be an activity's.
    fn leads_to(&self, book: &Book, k: u32, from: Place, b: u32) -> bool
        requires marks { AreMarksOf book.now self.now }
        requires aircraft { k < aircraft book.now }
        requires place { IsPlaceOf book.now from }
        ensures usable { result ≡ is_usable book.now self.now.facts k from b }
        ensures place { IsTrue result → b < activities book.now }
    {
        usable_decides();
        (b as usize) < book.activities.len() && self.usable(book, k, from, b)
    }

    // Walks the route from the carry-in on, up to the first link that is not usable.
    fn walk(&self, book: &Book, k: u32, route: &[u32]) -> bool
        requires marks { AreMarksOf book.now self.now }
        requires aircraft { k < aircraft book.now }
        ensures { result ≡ fits book.now self.now.facts k route.now }
    {
        let mut from = Place::Carry;
        for b in route {
            let b = *b;
            if !self.leads_to(book, k, from, b) {
                return false;
            }
            from = Place::After(b);
        }
        self.may_end(book, k, from)
    }

    /// Whether a route of an aircraft fits the marks. Its numbers need not be of the book.
    pub fn fits(&self, book: &Book, k: u32, route: &[u32]) -> bool
        requires marks { AreMarksOf book.now self.now }
        requires aircraft { k < aircraft book.now }
        ensures means { IsTrue result ↔ Fits book.now self.now.facts k route.now }
        ensures tests { result ≡ fits book.now self.now.facts k route.now }
    {
        fits_decides();
        self.walk(book, k, route)
    }
}
