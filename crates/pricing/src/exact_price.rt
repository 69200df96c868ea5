//! Pricing: the least weight of an aircraft's legal routes that fit the marks, and a route of that weight.
//!
//! Labels are made in order of activity, and of two at one activity the one that is no larger in weight and counters stands
//! for the other, since whatever goes on from the other goes on from it. So the buckets are a closed family, and its
//! lightest end is the least weight. A row's parents spell a route, of which the row is the weight and the counters: so
//! the route of the lightest end is found by going back.
//! Each usable link is asked for once, and each row at its beginning is tried over it against the rows at its end. How
//! many rows there are depends on the counters, and has no good bound.

ghost use Rattle.std.specs.Prelude.{◌≡◌, ◌<◌, ◌+◌, length, IfOk};
ghost use Rattle.tail_book.specs.Lookup.{activities, aircraft};
ghost use Rattle.tail_book.specs.CostTable.{IsTableFor};
ghost use Rattle.connection_net.specs.Net.{net_of};
ghost use Rattle.branch_marks.specs.Families.{IsClosedFamily};
ghost use Rattle.branch_marks.specs.inside.MarkTables.{AreMarksOf};
ghost use Rattle.branch_marks.specs.Settled.{AreDuals};
ghost use Rattle.pricing.specs.Price.{IsPriceOf};
ghost use Rattle.pricing.specs.Rows.{labels_of, AreSpelled};
ghost use Rattle.label_store.specs.inside.Growth.{IsAsWide};
ghost use Rattle.pricing.specs.inside.Asked.{IsAsked};
ghost use Rattle.pricing.specs.inside.ForAsked.{AreTrueFor, IsClosedFor, IsPriceFor};

use crate::asked::Asked;
use crate::end::{least_end, spelled};
use crate::{Priced, Pricer, laws};
use branch_marks::Marks;
use connection_net::Net;
use label_store::Store;
use label_store::laws::every_store_is_sound;
use std::alloc::Global;
use tail_book::laws::every_book_is_sound;
use tail_book::{Book, CostTable, Duals, Memory};

/// Prices an aircraft. The store's rows go first; its buckets then hold the labels that no other one there covers.
pub fn price(
    alloc: Global,
    book: &Book,
    table: &CostTable,
    net: &Net,
    marks: &Marks,
    duals: &Duals,
    k: u32,
    store: &mut Store,
) -> Result<Priced, Memory>
    requires table { IsTableFor book.now table.now }
    requires net { net.now ≡ net_of book.now }
    requires marks { AreMarksOf book.now marks.now }
    requires duals { AreDuals table.now book.now duals.now.values }
    requires aircraft { k < aircraft book.now }
    requires nodes { length store.old.buckets ≡ activities book.now }
    requires width { store.old.width ≡ 1 + length book.now.rules.counters }
    ensures price { IfOk result (IsPriceOf table.now book.now marks.now.facts k duals.now.values) }
    ensures closed { IfOk result (λ _. IsClosedFamily table.now book.now marks.now.facts k duals.now.values (labels_of store.new)) }
    ensures spelled { IfOk result (λ _. AreSpelled table.now book.now marks.now.facts k duals.now.values store.new) }
    ensures wide { IsAsWide store.old store.new }
{
    let mut pricer = Pricer::new(alloc, book, table)?;
    pricer.price(book, table, net, marks, duals, k, store)
}

/// The answer, from buckets that are a closed family.
pub fn priced(alloc: Global, asked: &Asked, store: &Store) -> Result<Priced, Memory>
    requires asked { IsAsked asked.now }
    requires nodes { length store.now.buckets ≡ activities asked.now.book.now }
    requires truths { AreTrueFor asked.now store.now }
    requires closed { IsClosedFor asked.now store.now }
    ensures { IfOk result (IsPriceFor asked.now) }
{
    every_book_is_sound(asked.book);
    every_store_is_sound(store);
    laws::least_ends_are_least();
    laws::endless_stores_stick();
    let Some(end) = least_end(asked.book, asked.marks, asked.k, store) else {
        return Ok(Priced::Stuck);
    };
    let route = spelled(alloc, store, end.row)?;
    Ok(Priced::Best {
        value: end.value,
        route,
    })
}
