//! Lean leaves: the line that begins one, and its pricing, which comes before the first line behind its duals.

ghost use Rattle.std.specs.Prelude.{◌≡◌, IfOk, IfSome};
ghost use Rattle.tail_book.specs.CostTable.{costs_of};
ghost use Rattle.branch_marks.specs.Settled.{AreDuals};
ghost use Rattle.branch_marks.specs.TreeTests.{are_duals};
ghost use Rattle.cert_checker.specs.LeastWeight.{lean_bound};
ghost use Rattle.cert_checker.specs.Step.{lower_by, priced, take_lean};
ghost use Rattle.cert_checker.specs.Verdict.{is_dual, ready_for};
ghost use Rattle.cert_checker.specs.declared.state.Part.TheVariants.{InLean};
ghost use Rattle.cert_checker.specs.inside.Kept.{Gives, IsJudging, state_of};
ghost use Rattle.cert_checker.specs.inside.LeafPricer.{IsLeafPricerOf};
ghost use Rattle.cert_checker.specs.inside.Means.{AreMeansOf};

use crate::bound::lower;
use crate::leaf_pricer::LeafPricer;
use crate::means::Means;
use crate::nodes::clear;
use crate::state::{Judging, Part};
use crate::verdict::Reason;
use branch_marks::Event;
use cert_lines::CertLine;
use std::alloc::Global;
use tail_book::{Book, Duals, Memory};

// Whether a line is a dual.
fn is_dual(line: &CertLine) -> bool
    ensures { result ≡ is_dual line.now }
{
    match line {
        CertLine::Event(Event::Dual(_, _)) => true,
        _ => false,
    }
}

// The lesser of two bounds in cost units, either of which may be absent.
fn lower_by(low: Option<u128>, bound: Option<u128>) -> Option<u128>
    ensures { result ≡ lower_by low bound }
{
    match bound {
        None => low,
        Some(bound) => lower(low, bound),
    }
}

// The pricer that is kept, or a new one where none is.
fn pricer_of(
    alloc: Global,
    book: &Book,
    means: &Means,
    kept: Option<LeafPricer>,
) -> Result<LeafPricer, Memory>
    requires means { AreMeansOf book.now means.now }
    requires kept { IfSome kept (IsLeafPricerOf book.now) }
    ensures { IfOk result (IsLeafPricerOf book.now) }
{
    match kept {
        Some(pricer) => Ok(pricer),
        None => LeafPricer::new(alloc, book, means),
    }
}

// A copy of duals.
fn duals_of(duals: &Vec<i64>) -> Result<Duals, Memory>
    ensures { IfOk result (λ copy. copy.values ≡ duals.now.items) }
{
    Ok(Duals {
        values: duals.clone()?,
    })
}

impl Judging {
    /// Takes the first line of a lean leaf, or says why not.
    pub fn take_lean(&mut self, book: &Book) -> Result<Option<Reason>, Memory>
        requires { IsJudging book.now self.old }
        ensures judging { IfOk result (λ _. IsJudging book.now self.new) }
        ensures step { IfOk result (Gives (take_lean book.now (state_of self.old)) self.new) }
    {
        let found = self.go_to_node(book)?;
        if !found {
            return Ok(Some(Reason::OutOfPlace));
        }
        clear(&mut self.duals);
        self.next = 0;
        self.branches.owes = false;
        self.part = Part::InLean;
        Ok(None)
    }

    // What the lean leaf that is here bounds by, in cost units, unless some aircraft is stuck there.
    fn lean_bound(
        &mut self,
        alloc: Global,
        book: &Book,
        means: &Means,
    ) -> Result<Option<u128>, Memory>
        requires judging { IsJudging book.now self.old }
        requires means { AreMeansOf book.now means.now }
        requires duals { AreDuals (costs_of book.now) book.now self.old.duals.items }
        ensures judging { IfOk result (λ _. IsJudging book.now self.new) }
        ensures state { IfOk result (λ _. state_of self.new ≡ state_of self.old) }
        ensures part { self.new.part ≡ self.old.part }
        ensures bound { IfOk result (λ bound. bound ≡ lean_bound book.now self.old.branches.marks.facts self.old.duals.items) }
    {
        let duals = duals_of(&self.duals)?;
        let mut pricer = pricer_of(alloc, book, means, self.pricer.take())?;
        let bound = pricer.bound(alloc, book, means, &self.branches.marks, &duals)?;
        self.pricer = Some(pricer);
        Ok(bound)
    }

    // Prices the lean leaf that is here, of which then nothing is kept but its bound.
    fn price_lean(&mut self, alloc: Global, book: &Book, means: &Means) -> Result<(), Memory>
        requires judging { IsJudging book.now self.old }
        requires means { AreMeansOf book.now means.now }
        requires here { self.old.part ≡ InLean }
        ensures judging { IfOk result (λ _. IsJudging book.now self.new) }
        ensures state { IfOk result (λ _. state_of self.new ≡ priced book.now (state_of self.old)) }
    {
        let bound = self.lean_bound(alloc, book, means)?;
        self.low = lower_by(self.low, bound);
        self.part = Part::InTree;
        Ok(())
    }

    // Prices the lean leaf that is here, if one is.
    fn price(&mut self, alloc: Global, book: &Book, means: &Means) -> Result<(), Memory>
        requires judging { IsJudging book.now self.old }
        requires means { AreMeansOf book.now means.now }
        ensures judging { IfOk result (λ _. IsJudging book.now self.new) }
        ensures state { IfOk result (λ _. state_of self.new ≡ priced book.now (state_of self.old)) }
    {
        let Part::InLean = self.part else {
            return Ok(());
        };
        self.price_lean(alloc, book, means)
    }

    /// Prices the lean leaf that stands before a line, unless the line is a dual of it.
    pub fn get_ready_for(
        &mut self,
        alloc: Global,
        book: &Book,
        means: &Means,
        line: &CertLine,
    ) -> Result<(), Memory>
        requires judging { IsJudging book.now self.old }
        requires means { AreMeansOf book.now means.now }
        ensures judging { IfOk result (λ _. IsJudging book.now self.new) }
        ensures state { IfOk result (λ _. state_of self.new ≡ ready_for book.now (state_of self.old) line.now) }
    {
        if is_dual(line) {
            return Ok(());
        }
        self.price(alloc, book, means)
    }
}
