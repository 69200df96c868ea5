//! What marks leave open to an aircraft. No question takes memory, or goes over the facts.

ghost use Rattle.std.specs.Prelude.{◌≡◌, ◌<◌, ◌≤◌, ◌+◌, ◌↔◌, ◌&&◌, ℕ, true, false, IsTrue};
ghost use Rattle.std.specs.List.{list_all, list_any};
ghost use Rattle.tail_book.specs.Lookup.{activities, aircraft};
ghost use Rattle.tail_book.specs.Place.{IsPlaceOf};
ghost use Rattle.branch_marks.specs.Marks.{IsAlive, IsUsable, MayEnd};
ghost use Rattle.branch_marks.specs.MarkTests.{is_alive, is_alive_at, is_usable, lets_go, may_end};
ghost use Rattle.branch_marks.specs.inside.Named.{named_by};
ghost use Rattle.branch_marks.specs.inside.MarkTables.{AreMarksOf, given_to, is_must, tied_after, tied_before};
ghost use Rattle.branch_marks.specs.inside.MarkParts.{first_after, is_no_must_in, is_open, leaves_link, ties_nothing, ties_only};

use super::Marks;
use crate::laws::{alive_decides, may_end_decides, usable_decides};
use crate::named::{Named, named_at};
use tail_book::laws::every_book_is_sound;
use tail_book::{Book, Place};
use turn_rules::connected;

impl Marks {
    /// Whether an aircraft may fly an activity, by the rules and by each fact.
    pub fn alive(&self, book: &Book, k: u32, a: u32) -> bool
        requires marks { AreMarksOf book.now self.now }
        requires aircraft { k < aircraft book.now }
        requires activity { a < activities book.now }
        ensures means { IsTrue result ↔ IsAlive book.now self.now.facts k a }
        ensures tests { result ≡ is_alive book.now self.now.facts k a }
    {
        alive_decides();
        self.alive.has(a as usize, k as usize)
    }

    // Whether what an aircraft comes from is alive for it; the carry-in always is.
    fn alive_at(&self, book: &Book, k: u32, from: Place) -> bool
        requires marks { AreMarksOf book.now self.now }
        requires aircraft { k < aircraft book.now }
        requires place { IsPlaceOf book.now from }
        ensures { result ≡ is_alive_at book.now self.now.facts k from }
    {
        match from {
            Place::Carry => true,
            Place::After(x) => self.alive(book, k, x),
        }
    }

    // The least activity in a range that is a Must of an aircraft, and the range's end where there is none.
    fn least_must(&self, k: u32, low: usize, high: usize) -> usize
        requires aircraft { k < self.now.aircraft }
        requires low { low ≤ self.now.activities }
        requires high { high ≤ self.now.activities }
        ensures end { result ≤ high }
        ensures none { (c : ℕ) → low ≤ c → c < result → list_any (is_must k c) self.now.facts ≡ false }
        ensures found { result < high → list_any (is_must k result) self.now.facts ≡ true }
        ensures from { result < high → low ≤ result }
    {
        self.musts.next(k as usize, low, high)
    }

    // Whether no Must of an aircraft lies in a range of activities.
    fn has_no_must(&self, k: u32, low: usize, high: usize) -> bool
        requires aircraft { k < self.now.aircraft }
        requires low { low ≤ self.now.activities }
        requires high { high ≤ self.now.activities }
        ensures { result ≡ list_all (is_no_must_in k low high) self.now.facts }
    {
        self.least_must(k, low, high) == high
    }

    // Whether no Cut parts an activity from a place.
    fn leaves_link(&self, from: Place, b: u32) -> bool
        requires place { first_after from ≤ self.now.activities }
        requires activity { b < self.now.activities }
        ensures { result ≡ list_all (leaves_link from b) self.now.facts }
    {
        match from {
            Place::Carry => true,
            Place::After(x) => !self.cuts.has(x as usize, b as usize),
        }
    }

    /// What Ties name behind an activity.
    pub fn tied_after(&self, a: u32) -> Named
        requires { a < self.now.activities }
        ensures { result ≡ named_by (tied_after a) self.now.facts }
    {
        named_at(&self.next, a)
    }

    /// What Ties name before an activity.
    pub fn tied_before(&self, b: u32) -> Named
        requires { b < self.now.activities }
        ensures { result ≡ named_by (tied_before b) self.now.facts }
    {
        named_at(&self.previous, b)
    }

    /// The aircraft that Musts name for an activity.
    pub fn carrier(&self, a: u32) -> Named
        requires { a < self.now.activities }
        ensures { result ≡ named_by (given_to a) self.now.facts }
    {
        named_at(&self.carriers, a)
    }

    // Whether each Tie that begins at a place or ends at an activity has both ends there.
    fn ties_only(&self, from: Place, b: u32) -> bool
        requires place { first_after from ≤ self.now.activities }
        requires activity { b < self.now.activities }
        ensures { result ≡ list_all (ties_only from b) self.now.facts }
    {
        match from {
            Place::Carry => self.tied_before(b).is_nothing(),
            Place::After(x) => self.tied_after(x).lets(b) && self.tied_before(b).lets(x),
        }
    }

    // Whether no Tie begins at a place.
    fn ties_nothing(&self, from: Place) -> bool
        requires { first_after from ≤ self.now.activities }
        ensures { result ≡ list_all (ties_nothing from) self.now.facts }
    {
        match from {
            Place::Carry => true,
            Place::After(x) => self.tied_after(x).is_nothing(),
        }
    }

    // Whether neither Cuts nor Ties part an activity from a place.
    fn lets_link(&self, from: Place, b: u32) -> bool
        requires place { first_after from ≤ self.now.activities }
        requires activity { b < self.now.activities }
        ensures { result ≡ (list_all (leaves_link from b) self.now.facts && list_all (ties_only from b) self.now.facts) }
    {
        self.leaves_link(from, b) && self.ties_only(from, b)
    }

    // Whether each fact lets an aircraft go from a place to an activity.
    fn lets_go(&self, k: u32, from: Place, b: u32) -> bool
        requires aircraft { k < self.now.aircraft }
        requires place { first_after from ≤ self.now.activities }
        requires activity { b < self.now.activities }
        ensures { result ≡ list_all (lets_go k from b) self.now.facts }
    {
        self.has_no_must(k, first_after(from), b as usize) && self.lets_link(from, b)
    }

    // Whether an activity and what an aircraft comes from are alive for it.
    fn both_alive(&self, book: &Book, k: u32, from: Place, b: u32) -> bool
        requires marks { AreMarksOf book.now self.now }
        requires aircraft { k < aircraft book.now }
        requires place { IsPlaceOf book.now from }
        requires activity { b < activities book.now }
        ensures { result ≡ (is_alive book.now self.now.facts k b && is_alive_at book.now self.now.facts k from) }
    {
        self.alive(book, k, b) && self.alive_at(book, k, from)
    }

    // Whether all that is left to ask is whether place and time fit.
    fn is_open(&self, book: &Book, k: u32, from: Place, b: u32) -> bool
        requires marks { AreMarksOf book.now self.now }
        requires aircraft { k < aircraft book.now }
        requires place { IsPlaceOf book.now from }
        requires activity { b < activities book.now }
        ensures { result ≡ is_open book.now self.now.facts k from b }
    {
        self.both_alive(book, k, from, b) && self.lets_go(k, from, b)
    }

    // The tables come first, then the few reads of the book that place and time take.
    fn is_usable(&self, book: &Book, k: u32, from: Place, b: u32) -> bool
        requires marks { AreMarksOf book.now self.now }
        requires aircraft { k < aircraft book.now }
        requires place { IsPlaceOf book.now from }
        requires activity { b < activities book.now }
        ensures { result ≡ is_usable book.now self.now.facts k from b }
    {
        self.is_open(book, k, from, b) && connected(book, k, from, b)
    }

    /// Whether an aircraft may go from a place to an activity, by the rules and by each fact.
    pub fn usable(&self, book: &Book, k: u32, from: Place, b: u32) -> bool
        requires marks { AreMarksOf book.now self.now }
        requires aircraft { k < aircraft book.now }
        requires place { IsPlaceOf book.now from }
        requires activity { b < activities book.now }
        ensures means { IsTrue result ↔ IsUsable book.now self.now.facts k from b }
        ensures tests { result ≡ is_usable book.now self.now.facts k from b }
    {
        usable_decides();
        self.is_usable(book, k, from, b)
    }

    /// Whether an aircraft may end its route at a place.
    pub fn may_end(&self, book: &Book, k: u32, from: Place) -> bool
        requires marks { AreMarksOf book.now self.now }
        requires aircraft { k < aircraft book.now }
        requires place { IsPlaceOf book.now from }
        ensures means { IsTrue result ↔ MayEnd self.now.facts k from }
        ensures tests { result ≡ may_end self.now.facts k from }
    {
        may_end_decides();
        self.ends_at(k, from)
    }

    // Whether neither a Must of an aircraft lies behind a place, nor a Tie begins there.
    fn ends_at(&self, k: u32, from: Place) -> bool
        requires aircraft { k < self.now.aircraft }
        requires place { first_after from ≤ self.now.activities }
        ensures { result ≡ may_end self.now.facts k from }
    {
        self.has_no_must(k, first_after(from), self.activities) && self.ties_nothing(from)
    }
}

// The least number of an activity behind a place.
fn first_after(from: Place) -> usize
    ensures { result ≡ first_after from }
{
    match from {
        Place::Carry => 0,
        Place::After(x) => x as usize + 1,
    }
}
