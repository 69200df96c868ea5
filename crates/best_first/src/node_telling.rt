//! Telling a node that was counted: its steps, and its end with what shows it, which is priced again. Where the log wants no events
//! nothing is priced, and nothing is read of the node.

ghost use Rattle.std.specs.Prelude.{◌≡◌, ◌++◌, ◌∷◌, [], ℕ, List, Option, Some, IfOk, OnOk, OnErr, IsErrOf};
ghost use Rattle.tail_book.specs.TableSeen.{CostTableSeen};
ghost use Rattle.branch_marks.specs.Following.{FollowInTurn};
ghost use Rattle.branch_marks.specs.Settled.{AreDuals};
ghost use Rattle.branch_marks.specs.TreeLog.{IsLater, WriteHasFailed};
ghost use Rattle.branch_marks.specs.inside.MarkTables.{AreMarksOf};
ghost use Rattle.node_leaves.specs.Stops.{StopsIn};
ghost use Rattle.node_leaves.specs.inside.Leaf.{IsCutAtLeaf, IsReady};
ghost use Rattle.best_first.specs.declared.slots.KeptEnd.TheVariants.{Bounded};
ghost use Rattle.best_first.specs.BestTree.{Owed};
ghost use Rattle.best_first.specs.inside.Links.{AreLinks, facts_at};
ghost use Rattle.best_first.specs.inside.Slots.{IsKeptEnd, IsSlot, IsSlotAt};
ghost use Rattle.best_first.specs.inside.Tellings.{IsEndTold, IsSlotTold};

use crate::links::{Link, facts_to};
use crate::placing::go_to;
use crate::slots::{Kept, KeptEnd, Slot};
use branch_marks::laws::{
    following_facts_are_new, following_facts_are_of_book, has_fact_decides, low_bounds_are_shown,
    stuck_is_shown, sums_never_fall, undecided_pairs_are_of_book,
};
use branch_marks::{Event, Fact, Marks, TreeLog};
use branch_tree::{NodePricer, PricedAll, Stop, note_one, note_steps};
use connection_net::Net;
use node_leaves::{note_bounded, note_stuck};
use std::alloc::Global;
use tail_book::laws::every_book_is_sound;
use tail_book::{Book, CostTable, Duals, Memory};

// Tells a bound that reaches this target, whose duals are priced again.
fn tell_bounded<L: TreeLog>(
    alloc: Global,
    book: &Book,
    table: &CostTable,
    net: &Net,
    marks: &Marks,
    duals: &Duals,
    prices: &mut NodePricer,
    log: &mut L,
) -> Result<(), Stop>
    requires ready { IsReady table.now book.now net.now marks.now prices.old }
    requires duals { AreDuals table.now book.now duals.now.values }
    ensures told { OnOk result ((target : ℕ) → IsKeptEnd table.now book.now marks.now.facts duals.now.values target Bounded
        → IsEndTold table.now book.now marks.now.facts duals.now.values target Bounded (L.shows log.old) (L.shows log.new)) }
    ensures cut { OnErr result (IsCutAtLeaf table.now book.now marks.now.facts (L.shows log.old) (L.shows log.new)) }
    ensures later { IsLater (L.shows log.old) (L.shows log.new) }
    ensures beside { L.beside log.old log.new }
    ensures cause { IsErrOf result Stop.Log → WriteHasFailed (L.shows log.old) (L.shows log.new) }
    ensures ready { IsReady table.now book.now net.now marks.now prices.new }
{
    sums_never_fall();
    let priced = match prices.price_all(alloc, book, table, net, marks, duals, &[], 0) {
        Ok(priced) => priced,
        Err(_) => return Err(Stop::Memory),
    };
    match &priced {
        PricedAll::Stuck(k) => {
            if let Err(stop) = note_stuck(alloc, book, table, net, marks, *k, prices, log) {
                return Err(stop);
            }
            Ok(())
        }
        PricedAll::Least { values, .. } => {
            if let Err(stop) = note_bounded(
                alloc, book, table, net, marks, duals, values, prices, log,
            ) {
                return Err(stop);
            }
            Ok(())
        }
    }
}

// Tells how a node ended, under its marks and its duals.
fn tell_end<L: TreeLog>(
    alloc: Global,
    book: &Book,
    table: &CostTable,
    net: &Net,
    marks: &Marks,
    duals: &Duals,
    kept: &Kept,
    prices: &mut NodePricer,
    log: &mut L,
) -> Result<(), Stop>
    requires ready { IsReady table.now book.now net.now marks.now prices.old }
    requires duals { AreDuals table.now book.now duals.now.values }
    requires ended { IsKeptEnd table.now book.now marks.now.facts duals.now.values kept.now.target kept.now.end }
    ensures told { OnOk result (IsEndTold table.now book.now marks.now.facts duals.now.values kept.now.target kept.now.end
        (L.shows log.old) (L.shows log.new)) }
    ensures cut { OnErr result (IsCutAtLeaf table.now book.now marks.now.facts (L.shows log.old) (L.shows log.new)) }
    ensures later { IsLater (L.shows log.old) (L.shows log.new) }
    ensures beside { L.beside log.old log.new }
    ensures cause { IsErrOf result Stop.Log → WriteHasFailed (L.shows log.old) (L.shows log.new) }
    ensures ready { IsReady table.now book.now net.now marks.now prices.new }
{
    every_book_is_sound(book);
    undecided_pairs_are_of_book();
    match kept.end {
        KeptEnd::Hole(a) => {
            if let Err(stop) = note_one(log, &Event::Hole(a)) {
                return Err(stop);
            }
            Ok(())
        }
        KeptEnd::Stuck(k) => {
            if let Err(stop) = note_stuck(alloc, book, table, net, marks, k, prices, log) {
                return Err(stop);
            }
            Ok(())
        }
        KeptEnd::Bounded => {
            if let Err(stop) = tell_bounded(alloc, book, table, net, marks, duals, prices, log) {
                return Err(stop);
            }
            Ok(())
        }
        KeptEnd::Split { pair, .. } => {
            if let Err(stop) = note_one(log, &Event::Split(pair)) {
                return Err(stop);
            }
            Ok(())
        }
    }
}

// Makes the facts of a node the marks. The answer is its steps, which lie behind the facts of its place.
fn go_to_node(
    alloc: Global,
    book: &Book,
    links: &[Link],
    slot: &Slot,
    kept: &Kept,
    marks: &mut Marks,
) -> Result<Vec<Fact>, Memory>
    requires marks { AreMarksOf book.now marks.old }
    requires links { AreLinks links.now }
    requires slot { (table : CostTableSeen) × IsSlot table book.now links.now slot.now }
    requires kept { slot.now.kept ≡ Some kept.now }
    ensures facts { OnOk result (marks.new.facts ≡ facts_at links.now kept.now.last) }
    ensures steps { IfOk result (λ steps. facts_at links.now kept.now.last ≡ facts_at links.now slot.now.end ++ steps.items) }
    ensures follow { IfOk result (λ steps. FollowInTurn book.now (facts_at links.now slot.now.end) steps.items) }
    ensures marks { AreMarksOf book.now marks.new }
{
    has_fact_decides();
    following_facts_are_new();
    following_facts_are_of_book();
    let facts = facts_to(alloc, links, kept.last)?;
    let known = facts_to(alloc, links, slot.end)?.len();
    go_to(book, marks, &facts)?;
    let steps = Vec::from_slice(alloc, &facts[known..])?;
    Ok(steps)
}

// Tells a node to a log that wants events.
fn tell_events<L: TreeLog>(
    alloc: Global,
    book: &Book,
    table: &CostTable,
    net: &Net,
    links: &[Link],
    slot: &Slot,
    kept: &Kept,
    marks: &mut Marks,
    prices: &mut NodePricer,
    log: &mut L,
) -> Result<(), Stop>
    requires ready { IsReady table.now book.now net.now marks.old prices.old }
    requires links { AreLinks links.now }
    requires slot { IsSlot table.now book.now links.now slot.now }
    requires kept { slot.now.kept ≡ Some kept.now }
    ensures told { OnOk result ((final : ℕ) (low : Option ℕ) → IsSlotTold table.now book.now final links.now slot.now low low
        (L.shows log.old) (L.shows log.new)) }
    ensures stopped { OnErr result ((here : Owed) (opened : List Owed) → IsSlotAt table.now book.now links.now here slot.now opened
        → StopsIn (L.shows log.old) (L.shows log.new) table.now book.now (here.place ∷ [])) }
    ensures later { IsLater (L.shows log.old) (L.shows log.new) }
    ensures beside { L.beside log.old log.new }
    ensures cause { IsErrOf result Stop.Log → WriteHasFailed (L.shows log.old) (L.shows log.new) }
    ensures ready { IsReady table.now book.now net.now marks.new prices.new }
{
    every_book_is_sound(book);
    following_facts_are_of_book();
    let steps = match go_to_node(alloc, book, links, slot, kept, marks) {
        Ok(steps) => steps,
        Err(_) => return Err(Stop::Memory),
    };
    if let Err(stop) = note_steps(alloc, &steps, log) {
        return Err(stop);
    }
    if let Err(stop) = tell_end(
        alloc,
        book,
        table,
        net,
        marks,
        &slot.duals,
        kept,
        prices,
        log,
    ) {
        return Err(stop);
    }
    Ok(())
}

/// Tells a counted node of a slot.
pub fn tell_node<L: TreeLog>(
    alloc: Global,
    book: &Book,
    table: &CostTable,
    net: &Net,
    links: &[Link],
    slot: &Slot,
    kept: &Kept,
    marks: &mut Marks,
    prices: &mut NodePricer,
    log: &mut L,
) -> Result<(), Stop>
    requires ready { IsReady table.now book.now net.now marks.old prices.old }
    requires links { AreLinks links.now }
    requires slot { IsSlot table.now book.now links.now slot.now }
    requires kept { slot.now.kept ≡ Some kept.now }
    ensures told { OnOk result ((final : ℕ) (low : Option ℕ) → IsSlotTold table.now book.now final links.now slot.now low low
        (L.shows log.old) (L.shows log.new)) }
    ensures stopped { OnErr result ((here : Owed) (opened : List Owed) → IsSlotAt table.now book.now links.now here slot.now opened
        → StopsIn (L.shows log.old) (L.shows log.new) table.now book.now (here.place ∷ [])) }
    ensures later { IsLater (L.shows log.old) (L.shows log.new) }
    ensures beside { L.beside log.old log.new }
    ensures cause { IsErrOf result Stop.Log → WriteHasFailed (L.shows log.old) (L.shows log.new) }
    ensures ready { IsReady table.now book.now net.now marks.new prices.new }
{
    if log.wants_events() {
        return tell_events(
            alloc, book, table, net, links, slot, kept, marks, prices, log,
        );
    }
    every_book_is_sound(book);
    low_bounds_are_shown();
    stuck_is_shown();
    sums_never_fall();
    Ok(())
}
