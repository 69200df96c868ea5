//! A propagator: what stays known of marks that were shut, so that new facts are followed without beginning anew.
//!
//! It keeps the floors of each aircraft, with the number of the marks' facts that they belong to. Marks only grow, so these
//! facts stand in front of all that came since.

ghost use Rattle.std.specs.Prelude.{◌≡◌, IfOk, OnOk, List, None};
ghost use Rattle.connection_net.specs.Net.{net_of};
ghost use Rattle.branch_marks.specs.declared.fact.Fact.{Fact as MarkFact};
ghost use Rattle.branch_marks.specs.inside.MarkTables.{AreMarksOf};
ghost use Rattle.branch_marks.specs.Following.{IsShut};
ghost use Rattle.propagator.specs.Closed.{IsClosedAt};
ghost use Rattle.propagator.specs.InTurn.{GrowInTurn};
ghost use Rattle.tail_book.specs.Seen.{BookSeen};
ghost use Rattle.propagator.specs.Keeping.{IsKeptFor, IsMadeFor};

use crate::fixpoint::{all_rows, close_with};
use crate::hole::{Closed, hole};
use crate::work::Work;
use branch_marks::{Fact, Marks};
use connection_net::Net;
use floor_rows::FloorRow;
use maint_counters::StepTable;
use std::alloc::Global;
use std::marker::Model;
use tail_book::{Book, Memory};

/// What is kept between two calls on growing marks of a book.
#[derive(Debug, Drop)]
pub struct Propagator {
    steps: StepTable,
    rows: Vec<FloorRow>,
    work: Work,
    seen: Option<usize>,
}

impl Model for Propagator {
    ghost use Rattle.propagator.specs.KeptSeen.{PropagatorSeen};

    ghost Value = { PropagatorSeen };

    ghost view = { λ p. record { steps = p.steps; rows = p.rows.items; work = p.work; seen = p.seen } };
}

impl Propagator {
    /// A propagator that keeps nothing yet: it can be used for any marks of the book.
    pub fn new(alloc: Global, book: &Book) -> Result<Propagator, Memory>
        ensures { IfOk result (λ kept. (facts : List MarkFact) → IsKeptFor book.now facts kept) }
    {
        let steps = StepTable::of(alloc, book)?;
        let rows = all_rows(alloc, book)?;
        let work = Work::new(alloc, book)?;
        Ok(Propagator {
            steps,
            rows,
            work,
            seen: None,
        })
    }

    /// Forgets the marks that were shut, so that it can be used for any marks of its book again.
    pub fn forget(&mut self)
        ensures { (book : BookSeen) → IsMadeFor book self.old → (facts : List MarkFact) → IsKeptFor book facts self.new }
    {
        self.seen = None;
    }

    /// Adds all facts that follow from marks, to the marks and at the end of a list, and tells whether then each activity
    /// is alive for somebody. What was found for the facts at the front of the marks is used again.
    pub fn close(
        &mut self,
        book: &Book,
        net: &Net,
        marks: &mut Marks,
        facts: &mut Vec<Fact>,
    ) -> Result<Closed, Memory>
        requires net { net.now ≡ net_of book.now }
        requires marks { AreMarksOf book.now marks.old }
        requires kept { IsKeptFor book.now marks.old.facts self.old }
        ensures marks { AreMarksOf book.now marks.new }
        ensures grows { GrowInTurn book.now marks.old.facts marks.new.facts facts.old.items facts.new.items }
        ensures shut { OnOk result (IsShut book.now marks.new.facts) }
        ensures answer { IfOk result (IsClosedAt book.now marks.new.facts) }
        ensures kept { IsKeptFor book.now marks.new.facts self.new }
    {
        let seen = self.seen.take();
        close_with(
            book,
            net,
            &self.steps,
            marks,
            facts,
            seen,
            &mut self.rows,
            &mut self.work,
        )?;
        self.seen = Some(marks.mark());
        Ok(hole(book, marks))
    }
}

/// Adds all facts that follow from marks, to the marks and at the end of a list, and tells whether then each activity is
/// alive for somebody.
pub fn close(
    alloc: Global,
    book: &Book,
    net: &Net,
    marks: &mut Marks,
    facts: &mut Vec<Fact>,
) -> Result<Closed, Memory>
    requires net { net.now ≡ net_of book.now }
    requires marks { AreMarksOf book.now marks.old }
    ensures marks { AreMarksOf book.now marks.new }
    ensures grows { GrowInTurn book.now marks.old.facts marks.new.facts facts.old.items facts.new.items }
    ensures shut { OnOk result (IsShut book.now marks.new.facts) }
    ensures answer { IfOk result (IsClosedAt book.now marks.new.facts) }
{
    let mut propagator = Propagator::new(alloc, book)?;
    propagator.close(book, net, marks, facts)
}
