//! The steps of a dive: all that follows is added, and then a choice. Marks and steps grow together.
//!
//! A fact is tried only where none follows any more. So a fact is called chosen only where it could have been otherwise
//! as far as the marks tell, and all the others need no choice.

ghost use Rattle.std.specs.Prelude.{◌≡◌, ◌++◌, ◌∷◌, [], map, IfOk, IfSome, IfNone, OnErr, OnOk};
ghost use Rattle.connection_net.specs.Net.{net_of};
ghost use Rattle.branch_marks.specs.declared.fact.Fact.TheVariants.{Must as FactMust};
ghost use Rattle.branch_marks.specs.declared.fact.Pair.TheVariants.{Fly as PairFly};
ghost use Rattle.branch_marks.specs.Branches.{IsUndecided};
ghost use Rattle.branch_marks.specs.Following.{IsShut};
ghost use Rattle.branch_marks.specs.inside.MarkTables.{AreMarksOf};
ghost use Rattle.propagator.specs.Keeping.{IsKeptFor};
ghost use Rattle.dive_heuristic.specs.declared.answer.DiveStep.TheVariants.{Chosen as StepChosen, Forced as StepForced};
ghost use Rattle.dive_heuristic.specs.Dive.{HasNoHole, IsDeadEnd};
ghost use Rattle.dive_heuristic.specs.inside.DiveSteps.{AreForced};

use crate::answer::{DeadEnd, DiveStep};
use branch_marks::laws::undecided_pairs_are_of_book;
use branch_marks::{Fact, Marks};
use connection_net::Net;
use propagator::{Closed, Propagator};
use std::alloc::Global;
use tail_book::{Book, Memory};

// Adds a forced step for each fact.
fn note_forced(steps: &mut Vec<DiveStep>, facts: &[Fact]) -> Result<(), Memory>
    ensures { IfOk result (λ _. steps.new.items ≡ steps.old.items ++ map StepForced facts.now) }
{
    for fact in facts {
        steps.push(DiveStep::Forced(*fact))?;
    }
    Ok(())
}

/// Adds all that follows from the marks, a forced step each; a dead end where then an activity is alive for nobody.
pub fn propagate(
    alloc: Global,
    book: &Book,
    net: &Net,
    marks: &mut Marks,
    steps: &mut Vec<DiveStep>,
    propagator: &mut Propagator,
) -> Result<Option<DeadEnd>, Memory>
    requires net { net.now ≡ net_of book.now }
    requires marks { AreMarksOf book.now marks.old }
    requires kept { IsKeptFor book.now marks.old.facts propagator.old }
    ensures marks { AreMarksOf book.now marks.new }
    ensures kept { IsKeptFor book.now marks.new.facts propagator.new }
    ensures forced { IfOk result (λ _. AreForced book.now marks.old.facts marks.new.facts steps.old.items steps.new.items) }
    ensures shut { IfOk result (λ _. IsShut book.now marks.new.facts) }
    ensures somebody { IfOk result (λ end. IfNone end (HasNoHole book.now marks.new.facts)) }
    ensures dead { IfOk result (λ end. IfSome end (IsDeadEnd book.now marks.new.facts)) }
{
    let mut facts = Vec::new(alloc);
    let closed = propagator.close(book, net, marks, &mut facts)?;
    note_forced(steps, &facts)?;
    match closed {
        Closed::Fixed => Ok(None),
        Closed::Hole(a) => Ok(Some(DeadEnd::Hole(a))),
    }
}

/// Has an aircraft fly an activity, by a chosen step.
pub fn choose(
    book: &Book,
    marks: &mut Marks,
    steps: &mut Vec<DiveStep>,
    k: u32,
    a: u32,
) -> Result<(), Memory>
    requires marks { AreMarksOf book.now marks.old }
    requires undecided { IsUndecided book.now marks.old.facts (PairFly k a) }
    ensures marks { AreMarksOf book.now marks.new }
    ensures added { OnOk result (marks.new.facts ≡ marks.old.facts ++ FactMust k a ∷ []) }
    ensures memory { OnErr result (marks.new ≡ marks.old) }
    ensures noted { OnOk result (steps.new.items ≡ steps.old.items ++ StepChosen (FactMust k a) ∷ []) }
{
    undecided_pairs_are_of_book();
    let fact = Fact::Must(k, a);
    steps.push(DiveStep::Chosen(fact))?;
    marks.add(book, fact)?;
    Ok(())
}
