//! Closing an open slot, once the tree has grown: its place is priced under the duals of the node that opened it, without
//! propagation, and told as a leaf. Where its bound does not reach the target, that is left, and the least of those that are left
//! bounds every plan.
//!
//! More facts let no bound fall: so where the bound under which the place was opened reaches the target, nothing is left, and where
//! nobody is told either, nothing is priced.

ghost use Rattle.std.specs.Prelude.{◌≡◌, ◌∷◌, [], true, List, None, IfOk, OnErr, IsErrOf};
ghost use Rattle.branch_marks.specs.Bound.{bound_of, Passes};
ghost use Rattle.branch_marks.specs.TreeLog.{IsLater, TellsNothing, WriteHasFailed};
ghost use Rattle.node_leaves.specs.Stops.{StopsIn};
ghost use Rattle.node_leaves.specs.inside.Leaf.{IsReady};
ghost use Rattle.best_first.specs.BestTree.{Owed};
ghost use Rattle.best_first.specs.inside.Links.{AreLinks};
ghost use Rattle.best_first.specs.inside.Slots.{IsSlot, IsSlotAt};
ghost use Rattle.best_first.specs.inside.Tellings.{IsSlotTold};

use crate::links::Link;
use crate::placing::go_to_slot;
use crate::slots::Slot;
use branch_marks::laws::{least_weights_exist, low_bounds_are_shown, stuck_is_shown, sums_exist};
use branch_marks::{Marks, TreeLog};
use branch_tree::{NodePricer, Stop, lower, passes, price_leaf};
use connection_net::Net;
use std::alloc::Global;
use tail_book::laws::every_book_is_sound;
use tail_book::{Book, CostTable};

// Whether a slot need not be priced: nobody is told of it, and it was opened under a bound that reaches the target.
fn need_not_price<L: TreeLog>(slot: &Slot, target: u64, log: &L) -> bool
    ensures nothing { result ≡ true → TellsNothing (L.shows log.now) }
    ensures passes { result ≡ true → Passes (bound_of slot.now.rank.bound) target }
{
    if log.wants_events() {
        return false;
    }
    passes(slot.rank.bound, target)
}

// Prices an open slot, and tells it as a leaf. The answer is the least bound that is left with it.
fn price_slot<L: TreeLog>(
    alloc: Global,
    book: &Book,
    table: &CostTable,
    net: &Net,
    links: &[Link],
    slot: &Slot,
    target: u64,
    low: Option<u64>,
    marks: &mut Marks,
    prices: &mut NodePricer,
    log: &mut L,
) -> Result<Option<u64>, Stop>
    requires ready { IsReady table.now book.now net.now marks.old prices.old }
    requires links { AreLinks links.now }
    requires slot { IsSlot table.now book.now links.now slot.now }
    requires none { slot.now.kept ≡ None }
    ensures told { IfOk result (λ least. IsSlotTold table.now book.now target links.now slot.now low least (L.shows log.old) (L.shows log.new)) }
    ensures stopped { OnErr result ((here : Owed) (opened : List Owed) → IsSlotAt table.now book.now links.now here slot.now opened
        → StopsIn (L.shows log.old) (L.shows log.new) table.now book.now (here.place ∷ [])) }
    ensures later { IsLater (L.shows log.old) (L.shows log.new) }
    ensures beside { L.beside log.old log.new }
    ensures cause { IsErrOf result Stop.Log → WriteHasFailed (L.shows log.old) (L.shows log.new) }
    ensures ready { IsReady table.now book.now net.now marks.new prices.new }
{
    if go_to_slot(alloc, book, links, slot, marks).is_err() {
        return Err(Stop::Memory);
    }
    let priced = match price_leaf(alloc, book, table, net, marks, &slot.duals, prices, log) {
        Ok(priced) => priced,
        Err(stop) => return Err(stop),
    };
    Ok(lower(low, priced, target))
}

/// Closes an open slot. The answer is the least bound that is left with it.
pub fn close_slot<L: TreeLog>(
    alloc: Global,
    book: &Book,
    table: &CostTable,
    net: &Net,
    links: &[Link],
    slot: &Slot,
    target: u64,
    low: Option<u64>,
    marks: &mut Marks,
    prices: &mut NodePricer,
    log: &mut L,
) -> Result<Option<u64>, Stop>
    requires ready { IsReady table.now book.now net.now marks.old prices.old }
    requires links { AreLinks links.now }
    requires slot { IsSlot table.now book.now links.now slot.now }
    requires none { slot.now.kept ≡ None }
    ensures told { IfOk result (λ least. IsSlotTold table.now book.now target links.now slot.now low least (L.shows log.old) (L.shows log.new)) }
    ensures stopped { OnErr result ((here : Owed) (opened : List Owed) → IsSlotAt table.now book.now links.now here slot.now opened
        → StopsIn (L.shows log.old) (L.shows log.new) table.now book.now (here.place ∷ [])) }
    ensures later { IsLater (L.shows log.old) (L.shows log.new) }
    ensures beside { L.beside log.old log.new }
    ensures cause { IsErrOf result Stop.Log → WriteHasFailed (L.shows log.old) (L.shows log.new) }
    ensures ready { IsReady table.now book.now net.now marks.new prices.new }
{
    if !need_not_price(slot, target, log) {
        return price_slot(
            alloc, book, table, net, links, slot, target, low, marks, prices, log,
        );
    }
    every_book_is_sound(book);
    least_weights_exist();
    sums_exist();
    low_bounds_are_shown();
    stuck_is_shown();
    Ok(low)
}
