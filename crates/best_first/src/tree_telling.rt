//! Telling the whole tree, once it has grown, in depth-first order: slot by slot, its counted nodes as they were kept, and its open
//! places as they are closed.

ghost use Rattle.std.specs.Prelude.{◌≡◌, ◌∷◌, [], List, IfOk, OnErr, IsErrOf};
ghost use Rattle.branch_marks.specs.TreeLog.{IsLater, WriteHasFailed};
ghost use Rattle.node_leaves.specs.Place.{root};
ghost use Rattle.node_leaves.specs.Stops.{StopsIn};
ghost use Rattle.node_leaves.specs.inside.Leaf.{IsReady};
ghost use Rattle.best_first.specs.BestTree.{Owed, owed_root, Laid};
ghost use Rattle.best_first.specs.inside.Links.{AreLinks};
ghost use Rattle.best_first.specs.inside.Slots.{IsSlot, IsSlotAt};
ghost use Rattle.best_first.specs.inside.Tellings.{AreTold, IsSlotTold};

use crate::closing::close_slot;
use crate::links::Link;
use crate::node_telling::tell_node;
use crate::slots::Slot;
use branch_marks::{Marks, TreeLog};
use branch_tree::{NodePricer, Stop};
use connection_net::Net;
use std::alloc::Global;
use tail_book::{Book, CostTable};

// Tells a slot. The answer is the least bound that is left with it.
fn tell_slot<L: TreeLog>(
    alloc: Global,
    book: &Book,
    table: &CostTable,
    net: &Net,
    links: &[Link],
    slot: &Slot,
    target: u64,
    low: Option<u64>,
    marks: &mut Marks,
    prices: &mut NodePricer,
    log: &mut L,
) -> Result<Option<u64>, Stop>
    requires ready { IsReady table.now book.now net.now marks.old prices.old }
    requires links { AreLinks links.now }
    requires slot { IsSlot table.now book.now links.now slot.now }
    ensures told { IfOk result (λ least. IsSlotTold table.now book.now target links.now slot.now low least (L.shows log.old) (L.shows log.new)) }
    ensures stopped { OnErr result ((here : Owed) (opened : List Owed) → IsSlotAt table.now book.now links.now here slot.now opened
        → StopsIn (L.shows log.old) (L.shows log.new) table.now book.now (here.place ∷ [])) }
    ensures later { IsLater (L.shows log.old) (L.shows log.new) }
    ensures beside { L.beside log.old log.new }
    ensures cause { IsErrOf result Stop.Log → WriteHasFailed (L.shows log.old) (L.shows log.new) }
    ensures ready { IsReady table.now book.now net.now marks.new prices.new }
{
    let Some(kept) = slot.kept else {
        return close_slot(
            alloc, book, table, net, links, slot, target, low, marks, prices, log,
        );
    };
    if let Err(stop) = tell_node(
        alloc, book, table, net, links, slot, &kept, marks, prices, log,
    ) {
        return Err(stop);
    }
    Ok(low)
}

/// Tells all slots. The answer is the least bound that does not reach the target, if one is left.
pub fn tell_tree<L: TreeLog>(
    alloc: Global,
    book: &Book,
    table: &CostTable,
    net: &Net,
    links: &[Link],
    slots: &[Slot],
    target: u64,
    marks: &mut Marks,
    prices: &mut NodePricer,
    log: &mut L,
) -> Result<Option<u64>, Stop>
    requires ready { IsReady table.now book.now net.now marks.old prices.old }
    requires links { AreLinks links.now }
    requires laid { Laid (IsSlotAt table.now book.now links.now) (owed_root book.now ∷ []) slots.now [] }
    ensures told { IfOk result (λ low. AreTold table.now book.now target slots.now low (L.shows log.old) (L.shows log.new)) }
    ensures stopped { OnErr result (StopsIn (L.shows log.old) (L.shows log.new) table.now book.now (root book.now ∷ [])) }
    ensures later { IsLater (L.shows log.old) (L.shows log.new) }
    ensures beside { L.beside log.old log.new }
    ensures cause { IsErrOf result Stop.Log → WriteHasFailed (L.shows log.old) (L.shows log.new) }
{
    let mut low = None;
    for p in 0..slots.len() {
        match tell_slot(
            alloc, book, table, net, links, &slots[p], target, low, marks, prices, log,
        ) {
            Ok(least) => low = least,
            Err(stop) => return Err(stop),
        }
    }
    Ok(low)
}
