//! Marks: branching facts, in the order in which they came, and what they leave open to each aircraft.
//!
//! Beside the list of facts stand tables, so that no question goes over the facts: who is alive at each activity, as a
//! bit row with permission, Bars and Musts in one; the Bars and Musts of each aircraft and the Cuts of each activity as
//! bits; what Ties name behind and before each activity; whom Musts name for it. A fact changes a few entries of them, and
//! changes them back when it is taken away. For 4,000 activities and 200 aircraft the tables take 2.5 MB, most of it for
//! Cuts.

ghost use Rattle.std.specs.Prelude.{◌≡◌, ◌<◌, ◌≤◌, ◌+◌, ◌↔◌, ◌++◌, ◌∷◌, [], IfOk, OnErr, IsTrue, Contains, length, slice_index_or, take};
ghost use Rattle.std.specs.List.{list_any};
ghost use Rattle.branch_marks.specs.Facts.{IsFactOf};
ghost use Rattle.branch_marks.specs.FactTests.{has_fact};
ghost use Rattle.branch_marks.specs.inside.MarkTables.{AreMarksOf, IsFactWithin, is_tie};
ghost use Rattle.branch_marks.specs.MarkCalls.{AddsOnce};
ghost use Rattle.tail_book.specs.Seen.{BookSeen};

mod questions;
mod route_fit;
mod walks;

use crate::Fact;
use crate::alive_rows::{allowed_rows, note_alive, undo_alive};
use crate::bit_rows::BitRows;
use crate::carriers::note_carrier;
use crate::fact_rows::{note_bar, note_cut, note_must, undo_bar, undo_cut, undo_must};
use crate::laws::has_fact_decides;
use crate::named::{Named, nothing_named};
use crate::naming::{Naming, undo_named};
use crate::ties::{note_next, note_previous};
use crate::trail::Trail;
use std::alloc::Global;
use std::marker::Model;
use tail_book::laws::every_book_is_sound;
use tail_book::{Book, Memory};

/// Branching facts of a book, and the tables that answer for them.
#[derive(Drop)]
pub struct Marks {
    aircraft: usize,
    activities: usize,
    facts: Trail,
    allowed: BitRows,
    alive: BitRows,
    bars: BitRows,
    musts: BitRows,
    cuts: BitRows,
    next: Vec<Named>,
    previous: Vec<Named>,
    carriers: Vec<Named>,
}

impl Model for Marks {
    ghost use Rattle.branch_marks.specs.MarksSeen.{MarksSeen, marks_seen};

    ghost Value = { MarksSeen };

    ghost use Rattle.branch_marks.specs.inside.MarkTables.{IsMarks};

    ghost view = { marks_seen };

    ghost invariant = { λ t. IsMarks (marks_seen t) };
}

/// Whether a fact was new, or known before.
#[derive(Clone, Copy, PartialEq, Eq)]
pub enum Added {
    New,
    Known,
}

impl Marks {
    /// Marks of a book that hold no fact.
    pub fn new(alloc: Global, book: &Book) -> Result<Marks, Memory>
        ensures none { IfOk result (λ marks. marks.facts ≡ []) }
        ensures marks { IfOk result (AreMarksOf book.now) }
    {
        every_book_is_sound(book);
        let (n, m) = (book.activities.len(), book.tails.len());
        let allowed = allowed_rows(alloc, book)?;
        let alive = allowed.copy()?;
        let facts = Trail::new(alloc)?;
        Ok(Marks {
            aircraft: m,
            activities: n,
            facts,
            allowed,
            alive,
            bars: BitRows::new(alloc, m, n)?,
            musts: BitRows::new(alloc, m, n)?,
            cuts: BitRows::new(alloc, n, n)?,
            next: nothing_named(alloc, n)?,
            previous: nothing_named(alloc, n)?,
            carriers: nothing_named(alloc, n)?,
        })
    }

    /// The same marks, which then go their own way.
    pub fn copy(&self) -> Result<Marks, Memory>
        ensures { IfOk result (λ marks. marks ≡ self.now) }
    {
        let alloc = *self.next.allocator();
        Ok(Marks {
            aircraft: self.aircraft,
            activities: self.activities,
            facts: self.facts.copy()?,
            allowed: self.allowed.copy()?,
            alive: self.alive.copy()?,
            bars: self.bars.copy()?,
            musts: self.musts.copy()?,
            cuts: self.cuts.copy()?,
            next: Vec::from_slice(alloc, &self.next)?,
            previous: Vec::from_slice(alloc, &self.previous)?,
            carriers: Vec::from_slice(alloc, &self.carriers)?,
        })
    }

    /// How many facts there are: a mark, to which the marks can be rewound.
    pub fn mark(&self) -> usize
        ensures { result ≡ length self.now.facts }
    {
        self.facts.len()
    }

    /// The fact at a place, in the order in which they came.
    pub fn fact_at(&self, i: usize) -> Fact
        requires { i < length self.now.facts }
        ensures value { result ≡ slice_index_or self.now.facts i result }
        ensures range { IsFactWithin self.now.aircraft self.now.activities result }
    {
        self.facts.at(i)
    }

    /// A list of the facts, in the order in which they came.
    pub fn copy_of_facts(&self, alloc: Global) -> Result<Vec<Fact>, Memory>
        ensures { IfOk result (λ facts. facts.items ≡ self.now.facts) }
    {
        let mut facts = Vec::new(alloc);
        for i in 0..self.mark() {
            facts.push(self.fact_at(i))?;
        }
        Ok(facts)
    }

    /// Whether the marks have a fact.
    pub fn has(&self, fact: Fact) -> bool
        requires { IsFactWithin self.now.aircraft self.now.activities fact }
        ensures means { IsTrue result ↔ Contains self.now.facts fact }
        ensures tests { result ≡ has_fact self.now.facts fact }
    {
        has_fact_decides();
        self.looks_up(fact)
    }

    // Looks a fact up in the table of its kind.
    fn looks_up(&self, fact: Fact) -> bool
        requires { IsFactWithin self.now.aircraft self.now.activities fact }
        ensures { result ≡ has_fact self.now.facts fact }
    {
        match fact {
            Fact::Bar(k, a) => self.bars.has(k as usize, a as usize),
            Fact::Must(k, a) => self.musts.has(k as usize, a as usize),
            Fact::Cut(a, b) => self.cuts.has(a as usize, b as usize),
            Fact::Tie(a, b) => self.has_tie(a, b),
        }
    }

    // Whether a Tie is there. Only where several are tied behind one activity are the facts gone over.
    fn has_tie(&self, a: u32, b: u32) -> bool
        requires { a < self.now.activities }
        ensures { result ≡ list_any (is_tie a b) self.now.facts }
    {
        match self.tied_after(a) {
            Named::Nothing => false,
            Named::One(known) => known == b,
            Named::Several => ties(&self.facts, a, b),
        }
    }

    /// Adds a fact at the end, unless it is there.
    pub fn add(&mut self, book: &Book, fact: Fact) -> Result<Added, Memory>
        requires marks { AreMarksOf book.now self.old }
        requires fact { IsFactOf book.now fact }
        ensures added { IfOk result (AddsOnce self.old self.new fact) }
        ensures marks { AreMarksOf book.now self.new }
        ensures memory { OnErr result (self.new ≡ self.old) }
    {
        if self.has(fact) {
            return Ok(Added::Known);
        }
        self.facts.push(fact)?;
        note_alive(book, &mut self.alive, fact);
        note_bar(book, &mut self.bars, fact);
        note_must(book, &mut self.musts, fact);
        note_cut(book, &mut self.cuts, fact);
        note_next(book, &mut self.next, fact);
        note_previous(book, &mut self.previous, fact);
        note_carrier(book, &mut self.carriers, fact);
        Ok(Added::New)
    }

    /// Takes back all facts that came since a mark: they are as they were then. It takes no memory.
    pub fn rewind(&mut self, mark: usize)
        requires { mark ≤ length self.old.facts }
        ensures facts { self.new.facts ≡ take mark self.old.facts }
        ensures marks { (book : BookSeen) → AreMarksOf book self.old → AreMarksOf book self.new }
        ensures aircraft { self.new.aircraft ≡ self.old.aircraft }
        ensures activities { self.new.activities ≡ self.old.activities }
    {
        for i in (mark..self.mark()).rev() {
            self.undo_last(i);
        }
    }

    // Takes back the last fact, behind so many others: first from the tables of its kind, and then who is alive by these.
    fn undo_last(&mut self, left: usize)
        requires { left + 1 ≡ length self.old.facts }
        ensures facts { self.new.facts ≡ take left self.old.facts }
        ensures marks { (book : BookSeen) → AreMarksOf book self.old → AreMarksOf book self.new }
        ensures aircraft { self.new.aircraft ≡ self.old.aircraft }
        ensures activities { self.new.activities ≡ self.old.activities }
    {
        let fact = self.facts.at(left);
        self.facts.cut(left);
        undo_bar(&mut self.bars, fact);
        undo_must(&mut self.musts, fact);
        undo_cut(&mut self.cuts, fact);
        undo_named(&mut self.next, Naming::Next, &self.facts, fact);
        undo_named(&mut self.previous, Naming::Previous, &self.facts, fact);
        undo_named(&mut self.carriers, Naming::Carrier, &self.facts, fact);
        undo_alive(
            &mut self.alive,
            &self.allowed,
            &self.bars,
            &self.carriers,
            self.aircraft,
            fact,
        );
    }
}

// Whether one of the facts ties an activity to another one.
fn ties(facts: &Trail, a: u32, b: u32) -> bool
    ensures { result ≡ list_any (is_tie a b) facts.now }
{
    for i in 0..facts.len() {
        if is_tie(facts.at(i), a, b) {
            return true;
        }
    }
    false
}

// Whether a fact ties an activity to another one.
fn is_tie(fact: Fact, a: u32, b: u32) -> bool
    ensures { result ≡ is_tie a b fact }
{
    match fact {
        Fact::Tie(c, d) => a == c && b == d,
        Fact::Bar(_, _) | Fact::Must(_, _) | Fact::Cut(_, _) => false,
    }
}
