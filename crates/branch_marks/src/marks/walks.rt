//! What marks hand to those who walk them: who is alive at an activity in order, the Musts of an aircraft in order, the
//! Cuts behind an activity in order, each found a word of bits at a time; who alone is alive at an activity; and that their
//! facts are of the book.

ghost use Rattle.std.specs.Prelude.{◌≡◌, ◌<◌, ◌≤◌, ℕ, true, false, All, IfSome, IfNone};
ghost use Rattle.tail_book.specs.Lookup.{activities, aircraft};
ghost use Rattle.branch_marks.specs.Facts.{IsFactOf};
ghost use Rattle.branch_marks.specs.Following.{IsOnlyCarrier};
ghost use Rattle.branch_marks.specs.FactTests.{has_fact};
ghost use Rattle.branch_marks.specs.MarkTests.{is_alive};
ghost use Rattle.branch_marks.specs.inside.MarkTables.{AreMarksOf, IsFactWithin};
ghost use Rattle.branch_marks.specs.declared.fact.Fact.{Fact as MarkFact};
ghost use Rattle.branch_marks.specs.declared.fact.Fact.TheVariants.{Cut as FactCut, Must as FactMust};

use super::Marks;
use crate::Fact;
use crate::laws::alive_decides;
use tail_book::Book;

impl Marks {
    /// The least aircraft from a number on that is alive at an activity, or the number of aircraft where none is.
    pub fn next_alive(&self, book: &Book, a: u32, from: u32) -> u32
        requires marks { AreMarksOf book.now self.now }
        requires activity { a < activities book.now }
        requires from { from ≤ aircraft book.now }
        ensures end { result ≤ aircraft book.now }
        ensures none { (k : ℕ) → from ≤ k → k < result → is_alive book.now self.now.facts k a ≡ false }
        ensures found { result < aircraft book.now → is_alive book.now self.now.facts result a ≡ true }
        ensures from { result < aircraft book.now → from ≤ result }
    {
        self.alive.next(a as usize, from as usize, self.aircraft) as u32
    }

    /// The only carrier of an activity, if there is one that no Must names yet: it is the first that is alive there, and
    /// there is no next one.
    pub fn only_carrier(&self, book: &Book, a: u32) -> Option<u32>
        requires marks { AreMarksOf book.now self.now }
        requires activity { a < activities book.now }
        ensures some { IfSome result (λ k. IsOnlyCarrier book.now self.now.facts k a) }
        ensures none { IfNone result ((k : ℕ) → ¬ IsOnlyCarrier book.now self.now.facts k a) }
    {
        alive_decides();
        self.facts_are_of_book(book);
        let m = book.tails.len() as u32;
        let k = self.next_alive(book, a, 0);
        if k == m {
            return None;
        }
        if self.next_alive(book, a, k + 1) < m {
            return None;
        }
        if self.has(Fact::Must(k, a)) {
            return None;
        }
        Some(k)
    }

    /// The least activity from a number on that a Must gives to an aircraft, or the number of activities.
    pub fn next_must(&self, k: u32, from: u32) -> u32
        requires aircraft { k < self.now.aircraft }
        requires from { from ≤ self.now.activities }
        ensures end { result ≤ self.now.activities }
        ensures none { (a : ℕ) → from ≤ a → a < result → has_fact self.now.facts (FactMust k a) ≡ false }
        ensures found { result < self.now.activities → has_fact self.now.facts (FactMust k result) ≡ true }
        ensures from { result < self.now.activities → from ≤ result }
    {
        self.musts.next(k as usize, from as usize, self.activities) as u32
    }

    /// The least activity from a number on that is cut from an activity, or the number of activities where none is.
    pub fn next_cut(&self, a: u32, from: u32) -> u32
        requires activity { a < self.now.activities }
        requires from { from ≤ self.now.activities }
        ensures end { result ≤ self.now.activities }
        ensures none { (b : ℕ) → from ≤ b → b < result → has_fact self.now.facts (FactCut a b) ≡ false }
        ensures found { result < self.now.activities → has_fact self.now.facts (FactCut a result) ≡ true }
        ensures from { result < self.now.activities → from ≤ result }
    {
        self.cuts.next(a as usize, from as usize, self.activities) as u32
    }

    /// Facts of a book are within its marks, and all facts of its marks are of the book.
    pub fn facts_are_of_book(&self, book: &Book)
        requires { AreMarksOf book.now self.now }
        ensures within { (fact : MarkFact) → IsFactOf book.now fact → IsFactWithin self.now.aircraft self.now.activities fact }
        ensures known { All (IsFactOf book.now) self.now.facts }
    {
        // A look at a field brings out what all marks keep.
        let _ = &self.facts;
    }
}
