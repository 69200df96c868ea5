//! Pricing with fees: the least weight of an aircraft's legal routes that fit the marks, where each connection also pays the
//! fees of the quotas that it belongs to, and a route of that weight.
//!
//! Labels are made in order of activity, and of two at one activity the one that is no larger in weight and counters stands for
//! the other: what a link adds, fees and all, depends on its two activities alone, so whatever goes on from the other goes on
//! from it. So the buckets are a closed family, and its lightest end is the least weight. A row's parents spell a route, of
//! which the row is the weight and the counters: so the route of the lightest end is found by going back.
//!
//! Labels do not wait in lines here: a fee may set apart two connections that cost the same, so each usable link is looked at by
//! itself. What is read of a book is made once and kept from one aircraft to the next.

ghost use Rattle.std.specs.Prelude.{◌≡◌, ◌<◌, ◌≤◌, ◌+◌, length, IfOk};
ghost use Rattle.tail_book.specs.Lookup.{activities, aircraft};
ghost use Rattle.tail_book.specs.CostTable.{costs_of};
ghost use Rattle.connection_net.specs.Net.{net_of};
ghost use Rattle.branch_marks.specs.inside.MarkTables.{AreMarksOf};
ghost use Rattle.branch_marks.specs.Settled.{AreDuals};
ghost use Rattle.label_store.specs.inside.Growth.{IsAsWide};
ghost use Rattle.quota_rows.specs.declared.quota.TheConstants.{QUOTA_LIMIT};
ghost use Rattle.quota_rows.specs.Fees.{AreFees};
ghost use Rattle.fee_pricing.specs.Price.{IsFeePriceOf, AreClosedWithFees, AreSpelledWithFees};
ghost use Rattle.fee_pricing.specs.inside.Asked.{IsAsked, IsUnderWay};
ghost use Rattle.fee_pricing.specs.inside.ForAsked.{AreSpelledFor, AreTrueFor, IsClosedFor, IsPriceFor};
ghost use Rattle.fee_pricing.specs.inside.Prepared.{IsFeePricerOf};

use crate::asked::Asked;
use crate::end::least_end;
use crate::fill::fill_all;
use crate::laws;
use branch_marks::Marks;
use connection_net::Net;
use label_store::Store;
use label_store::laws::every_store_is_sound;
use maint_counters::StepTable;
use pricing::{Priced, spelled};
use quota_rows::{Fees, Quota};
use std::alloc::Global;
use tail_book::laws::every_book_is_sound;
use tail_book::{Book, CostTable, Duals, Memory};

/// What pricing with fees keeps from one aircraft to the next.
#[derive(Drop)]
pub struct FeePricer {
    steps: StepTable,
    row: Vec<i64>,
}

impl FeePricer {
    /// A pricer with fees for a book.
    pub fn new(alloc: Global, book: &Book) -> Result<FeePricer, Memory>
        ensures { IfOk result (IsFeePricerOf book.now) }
    {
        every_book_is_sound(book);
        let steps = StepTable::of(alloc, book)?;
        let row = vec![in alloc; 0i64; 1 + book.rules.counters.len()]?;
        Ok(FeePricer { steps, row })
    }

    /// Prices an aircraft. The store's rows go first; its buckets then hold the labels that no other one there covers.
    pub fn price(
        &mut self,
        book: &Book,
        table: &CostTable,
        net: &Net,
        marks: &Marks,
        duals: &Duals,
        fees: &Fees,
        quotas: &[Quota],
        k: u32,
        store: &mut Store,
    ) -> Result<Priced, Memory>
        requires pricer { IsFeePricerOf book.now self.old }
        requires table { table.now ≡ costs_of book.now }
        requires net { net.now ≡ net_of book.now }
        requires marks { AreMarksOf book.now marks.now }
        requires duals { AreDuals table.now book.now duals.now.values }
        requires few { length quotas.now ≤ QUOTA_LIMIT }
        requires fees { AreFees table.now quotas.now fees.now.values }
        requires aircraft { k < aircraft book.now }
        requires nodes { length store.old.buckets ≡ activities book.now }
        requires width { store.old.width ≡ 1 + length book.now.rules.counters }
        ensures price { IfOk result (IsFeePriceOf table.now book.now quotas.now marks.now.facts k duals.now.values fees.now.values) }
        ensures closed { IfOk result (λ _. AreClosedWithFees table.now book.now quotas.now marks.now.facts k duals.now.values fees.now.values store.new) }
        ensures spelled { IfOk result (λ _. AreSpelledWithFees table.now book.now quotas.now marks.now.facts k duals.now.values fees.now.values store.new) }
        ensures wide { IsAsWide store.old store.new }
        ensures pricer { IsFeePricerOf book.now self.new }
    {
        let alloc = *self.row.allocator();
        let asked = Asked {
            book,
            table,
            net,
            marks,
            duals,
            fees,
            quotas,
            steps: &self.steps,
            k,
        };
        fill_from_empty(&asked, &mut self.row, store)?;
        priced(alloc, &asked, store)
    }
}

/// Prices an aircraft with fees. The store's rows go first; its buckets then hold the labels that no other one there covers.
pub fn price_fees(
    alloc: Global,
    book: &Book,
    table: &CostTable,
    net: &Net,
    marks: &Marks,
    duals: &Duals,
    fees: &Fees,
    quotas: &[Quota],
    k: u32,
    store: &mut Store,
) -> Result<Priced, Memory>
    requires table { table.now ≡ costs_of book.now }
    requires net { net.now ≡ net_of book.now }
    requires marks { AreMarksOf book.now marks.now }
    requires duals { AreDuals table.now book.now duals.now.values }
    requires few { length quotas.now ≤ QUOTA_LIMIT }
    requires fees { AreFees table.now quotas.now fees.now.values }
    requires aircraft { k < aircraft book.now }
    requires nodes { length store.old.buckets ≡ activities book.now }
    requires width { store.old.width ≡ 1 + length book.now.rules.counters }
    ensures price { IfOk result (IsFeePriceOf table.now book.now quotas.now marks.now.facts k duals.now.values fees.now.values) }
    ensures closed { IfOk result (λ _. AreClosedWithFees table.now book.now quotas.now marks.now.facts k duals.now.values fees.now.values store.new) }
    ensures spelled { IfOk result (λ _. AreSpelledWithFees table.now book.now quotas.now marks.now.facts k duals.now.values fees.now.values store.new) }
    ensures wide { IsAsWide store.old store.new }
{
    let mut pricer = FeePricer::new(alloc, book)?;
    pricer.price(book, table, net, marks, duals, fees, quotas, k, store)
}

// Lets the store's rows go, and fills all its buckets.
fn fill_from_empty(asked: &Asked, row: &mut [i64], store: &mut Store) -> Result<(), Memory>
    requires asked { IsAsked asked.now }
    requires nodes { length store.old.buckets ≡ activities asked.now.book.now }
    requires width { store.old.width ≡ 1 + length asked.now.book.now.rules.counters }
    requires row { length row.old ≡ 1 + length asked.now.book.now.rules.counters }
    ensures truths { IfOk result (λ _. AreTrueFor asked.now store.new) }
    ensures closed { IfOk result (λ _. IsClosedFor asked.now store.new) }
    ensures spelled { IfOk result (λ _. AreSpelledFor asked.now store.new) }
    ensures wide { IsAsWide store.old store.new }
    ensures row { length row.new ≡ length row.old }
{
    every_book_is_sound(asked.book);
    laws::filled_stores_are_closed();
    laws::fee_weight_is_by_arcs();
    store.clear();
    fill_all(asked, row, store)?;
    every_store_is_sound(store);
    Ok(())
}

// The answer, from buckets that are a closed family.
fn priced(alloc: Global, asked: &Asked, store: &Store) -> Result<Priced, Memory>
    requires asked { IsAsked asked.now }
    requires nodes { length store.now.buckets ≡ activities asked.now.book.now }
    requires truths { AreTrueFor asked.now store.now }
    requires closed { IsClosedFor asked.now store.now }
    ensures { IfOk result (IsPriceFor asked.now) }
{
    every_book_is_sound(asked.book);
    every_store_is_sound(store);
    laws::least_ends_are_least();
    laws::endless_stores_stick();
    laws::fee_weight_is_by_arcs();
    let Some(end) = least_end(asked.book, asked.marks, asked.k, store) else {
        return Ok(Priced::Stuck);
    };
    let route = spelled(alloc, store, end.row)?;
    Ok(Priced::Best {
        value: end.value,
        route,
    })
}
