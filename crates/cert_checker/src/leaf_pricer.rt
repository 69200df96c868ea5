//! What lean leaves bound by: the checker prices each aircraft itself, under the marks and the duals of the leaf.
//!
//! A lean leaf shows nothing, so nothing of it has to be believed but its duals, which may be any in the box. Where an
//! aircraft is stuck no plan is left, and nothing is bounded. What pricing reads of a book is made at the first such leaf
//! and kept from leaf to leaf.

ghost use Rattle.std.specs.Prelude.{◌≡◌, ◌<◌, ◌+◌, IfOk, IfSome, length, option_map};
ghost use Rattle.tail_book.specs.Lookup.{activities, aircraft};
ghost use Rattle.tail_book.specs.CostTable.{costs_of};
ghost use Rattle.branch_marks.specs.Settled.{AreDuals};
ghost use Rattle.branch_marks.specs.inside.MarkTables.{AreMarksOf};
ghost use Rattle.cert_checker.specs.LeastWeight.{lean_bound, least_weight, least_weights};
ghost use Rattle.cert_checker.specs.inside.LeafPricer.{IsLeafPricerOf};
ghost use Rattle.cert_checker.specs.inside.Means.{AreMeansOf};

use crate::bound::bound_by;
use crate::laws::least_weights_are_found;
use crate::means::Means;
use branch_marks::Marks;
use branch_marks::laws::least_weights_are_one;
use label_store::Store;
use pricing::{Priced, Pricer};
use std::alloc::Global;
use tail_book::laws::{every_book_is_sound, own_costs_are_for_book};
use tail_book::{Book, Duals, Memory};

// A store with room for the labels of a book.
fn store_of(alloc: Global, book: &Book) -> Result<Store, Memory>
    ensures nodes { IfOk result (λ store. length store.buckets ≡ activities book.now) }
    ensures width { IfOk result (λ store. store.width ≡ 1 + length book.now.rules.counters) }
{
    Store::new(alloc, book.activities.len(), 1 + book.rules.counters.len())
}

/// What prices the lean leaves of a book, and the room for it.
#[derive(Drop)]
pub struct LeafPricer {
    pub pricer: Pricer,
    pub store: Store,
}

impl LeafPricer {
    /// A pricer of the leaves of a book's certificates.
    pub fn new(alloc: Global, book: &Book, means: &Means) -> Result<LeafPricer, Memory>
        requires { AreMeansOf book.now means.now }
        ensures { IfOk result (IsLeafPricerOf book.now) }
    {
        own_costs_are_for_book();
        let pricer = Pricer::new(alloc, book, &means.costs)?;
        let store = store_of(alloc, book)?;
        Ok(LeafPricer { pricer, store })
    }

    // The least weight of an aircraft, unless it is stuck.
    fn weight(
        &mut self,
        book: &Book,
        means: &Means,
        marks: &Marks,
        duals: &Duals,
        k: u32,
    ) -> Result<Option<i64>, Memory>
        requires pricer { IsLeafPricerOf book.now self.old }
        requires means { AreMeansOf book.now means.now }
        requires marks { AreMarksOf book.now marks.now }
        requires duals { AreDuals (costs_of book.now) book.now duals.now.values }
        requires aircraft { k < aircraft book.now }
        ensures weight { IfOk result (λ weight. weight ≡ least_weight book.now marks.now.facts k duals.now.values) }
        ensures pricer { IfOk result (λ _. IsLeafPricerOf book.now self.new) }
    {
        every_book_is_sound(book);
        own_costs_are_for_book();
        least_weights_are_found();
        least_weights_are_one();
        let priced = self.pricer.price(
            book,
            &means.costs,
            &means.net,
            marks,
            duals,
            k,
            &mut self.store,
        )?;
        match priced {
            Priced::Best { value, .. } => Ok(Some(value)),
            Priced::Stuck => Ok(None),
        }
    }

    // The least weight of each aircraft, unless one of them is stuck.
    fn weights(
        &mut self,
        alloc: Global,
        book: &Book,
        means: &Means,
        marks: &Marks,
        duals: &Duals,
    ) -> Result<Option<Vec<i64>>, Memory>
        requires pricer { IsLeafPricerOf book.now self.old }
        requires means { AreMeansOf book.now means.now }
        requires marks { AreMarksOf book.now marks.now }
        requires duals { AreDuals (costs_of book.now) book.now duals.now.values }
        ensures weights { IfOk result (λ weights. option_map (λ values. values.items) weights
            ≡ least_weights book.now marks.now.facts duals.now.values (aircraft book.now)) }
        ensures few { IfOk result (λ weights. IfSome weights (λ values. length values.items ≡ aircraft book.now)) }
        ensures pricer { IfOk result (λ _. IsLeafPricerOf book.now self.new) }
    {
        every_book_is_sound(book);
        let mut values = Vec::new(alloc);
        for k in 0..book.tails.len() as u32 {
            let weight = self.weight(book, means, marks, duals, k)?;
            let Some(value) = weight else {
                return Ok(None);
            };
            values.push(value)?;
        }
        Ok(Some(values))
    }

    /// What a lean leaf bounds by, in cost units, unless some aircraft is stuck there.
    pub fn bound(
        &mut self,
        alloc: Global,
        book: &Book,
        means: &Means,
        marks: &Marks,
        duals: &Duals,
    ) -> Result<Option<u128>, Memory>
        requires pricer { IsLeafPricerOf book.now self.old }
        requires means { AreMeansOf book.now means.now }
        requires marks { AreMarksOf book.now marks.now }
        requires duals { AreDuals (costs_of book.now) book.now duals.now.values }
        ensures bound { IfOk result (λ bound. bound ≡ lean_bound book.now marks.now.facts duals.now.values) }
        ensures pricer { IfOk result (λ _. IsLeafPricerOf book.now self.new) }
    {
        every_book_is_sound(book);
        match self.weights(alloc, book, means, marks, duals)? {
            Some(values) => Ok(Some(bound_by(&duals.values, &values))),
            None => Ok(None),
        }
    }
}
