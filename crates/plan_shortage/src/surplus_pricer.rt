//! The most of each aircraft, by exact pricing: where nothing costs anything, a route weighs a cost unit less for each
//! asked activity and one more for each brought one, so a route of least weight has the most.
//!
//! What pricing reads of a book is made once and kept, so that many lists can be asked for one after the other.

ghost use Rattle.std.specs.Prelude.{◌≡◌, ◌<◌, ◌+◌, IfOk, length};
ghost use Rattle.tail_book.specs.Lookup.{activities, aircraft};
ghost use Rattle.plan_shortage.specs.Shortage.{AreMosts, IsMost};
ghost use Rattle.plan_shortage.specs.inside.Pricing.{IsSurplusPricerOf, unit_duals};

use crate::costless::costless;
use crate::surpluses::surplus;
use crate::unit_duals::unit_duals;
use branch_marks::Marks;
use connection_net::Net;
use label_store::Store;
use pricing::{Priced, Pricer};
use std::alloc::Global;
use tail_book::laws::every_book_is_sound;
use tail_book::{Book, CostTable, Duals, Memory};

// A store with room for the labels of a book.
fn store_of(alloc: Global, book: &Book) -> Result<Store, Memory>
    ensures nodes { IfOk result (λ store. length store.buckets ≡ activities book.now) }
    ensures width { IfOk result (λ store. store.width ≡ 1 + length book.now.rules.counters) }
{
    Store::new(alloc, book.activities.len(), 1 + book.rules.counters.len())
}

/// What finds the mosts of a book's aircraft.
#[derive(Drop)]
pub struct SurplusPricer {
    table: CostTable,
    net: Net,
    marks: Marks,
    pricer: Pricer,
    store: Store,
}

impl SurplusPricer {
    /// A pricer of a book's surpluses.
    pub fn new(alloc: Global, book: &Book) -> Result<SurplusPricer, Memory>
        ensures { IfOk result (IsSurplusPricerOf book.now) }
    {
        let table = costless(alloc, book)?;
        let net = Net::new(alloc, book)?;
        let marks = Marks::new(alloc, book)?;
        let pricer = Pricer::new(alloc, book, &table)?;
        let store = store_of(alloc, book)?;
        Ok(SurplusPricer {
            table,
            net,
            marks,
            pricer,
            store,
        })
    }

    // The most of an aircraft, by the duals of what is asked and brought.
    fn most(
        &mut self,
        book: &Book,
        asked: &[u32],
        brought: &[u32],
        duals: &Duals,
        k: u32,
    ) -> Result<i64, Memory>
        requires kept { IsSurplusPricerOf book.now self.old }
        requires duals { duals.now.values ≡ unit_duals asked.now brought.now (activities book.now) }
        requires aircraft { k < aircraft book.now }
        ensures most { IfOk result (IsMost book.now k asked.now brought.now) }
        ensures kept { IsSurplusPricerOf book.now self.new }
    {
        every_book_is_sound(book);
        let priced = self.pricer.price(
            book,
            &self.table,
            &self.net,
            &self.marks,
            duals,
            k,
            &mut self.store,
        )?;
        match priced {
            Priced::Best { route, .. } => Ok(surplus(asked, brought, &route)),
            // Never so, since the empty route is legal.
            Priced::Stuck => Ok(0),
        }
    }

    /// The most of each aircraft.
    pub fn mosts(
        &mut self,
        alloc: Global,
        book: &Book,
        asked: &[u32],
        brought: &[u32],
    ) -> Result<Vec<i64>, Memory>
        requires { IsSurplusPricerOf book.now self.old }
        ensures mosts { IfOk result (λ mosts. AreMosts book.now asked.now brought.now mosts.items) }
        ensures kept { IsSurplusPricerOf book.now self.new }
    {
        let duals = unit_duals(alloc, book, asked, brought)?;
        let mut mosts = Vec::with_capacity(alloc, book.tails.len())?;
        for k in 0..book.tails.len() as u32 {
            let most = self.most(book, asked, brought, &duals, k)?;
            mosts.push(most)?;
        }
        Ok(mosts)
    }
}
