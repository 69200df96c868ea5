//! A visit, one turn of a search: a step on the open place that comes first. Its node takes the place's slot, with its branches behind
//! it. Nothing is told: what shows the node is priced again once the tree is whole.

ghost use Rattle.std.specs.Prelude.{◌≡◌, ◌<◌, ◌≤◌, ◌+◌, ◌^◌, ◌∷◌, ◌++◌, ℕ, List, None, Some, length, IfOk, OnOk};
ghost use Rattle.tail_book.specs.Seen.{BookSeen};
ghost use Rattle.tail_book.specs.TableSeen.{CostTableSeen};
ghost use Rattle.tail_book.specs.CostTable.{IsTableFor};
ghost use Rattle.branch_marks.specs.Branches.{first_branch, second_branch};
ghost use Rattle.branch_marks.specs.Settled.{AreDuals};
ghost use Rattle.branch_tree.specs.Step.{IsTrueStep};
ghost use Rattle.best_first.specs.inside.BestParts.{HasSlots, IsBestState, IsNext, IsOneMore, IsShutAt};
ghost use Rattle.best_first.specs.inside.Links.{AreLinks, facts_at};
ghost use Rattle.best_first.specs.inside.Slots.{AreSlots, slot_at};
ghost use Rattle.best_first.specs.inside.Visits.{OpensBranches};

use crate::Rank;
use crate::best_state::BestState;
use crate::links::{Link, add_link, add_links};
use crate::placing::go_to_slot;
use crate::slots::{Kept, KeptEnd, Slot, kept_end, open_slot, put, put_behind};
use branch_marks::laws::{
    among_more, branches_leave_fewer, facts_leave_no_more, following_facts_are_new,
    following_facts_are_of_book, has_fact_decides, sums_never_fall, undecided_decides,
    undecided_pairs_are_of_book,
};
use branch_marks::{Fact, Marks, NoLog, Pair};
use branch_tree::{Step, node_step_with};
use std::alloc::Global;
use tail_book::{Book, CostTable, Duals, Memory};

// Both branches of a split.
fn branches_of(pair: Pair) -> (Fact, Fact)
    ensures { result ≡ (first_branch pair, second_branch pair) }
{
    match pair {
        Pair::Fly(k, a) => (Fact::Must(k, a), Fact::Bar(k, a)),
        Pair::Link(a, b) => (Fact::Tie(a, b), Fact::Cut(a, b)),
    }
}

// Puts both branches of a split behind a slot, whose facts end here.
fn open_branches(
    alloc: Global,
    links: &mut Vec<Link>,
    slots: &mut Vec<Slot>,
    p: usize,
    last: usize,
    duals: &Duals,
    pair: Pair,
    bound: &i128,
    since: usize,
) -> Result<(), Memory>
    requires links { AreLinks links.old.items }
    requires last { last ≤ length links.old.items }
    requires slot { p < length slots.old.items }
    ensures { OnOk result (OpensBranches links.old.items links.new.items slots.old.items slots.new.items p last duals.now pair bound.now since) }
{
    let (one, other) = branches_of(pair);
    let first_end = add_link(links, last, one)?;
    let second_end = add_link(links, last, other)?;
    let first = Rank {
        bound: *bound,
        since,
        second: false,
    };
    let second = Rank {
        bound: *bound,
        since,
        second: true,
    };
    let first = open_slot(alloc, first, first_end, duals)?;
    let second = open_slot(alloc, second, second_end, duals)?;
    put_behind(slots, p, first, second)?;
    Ok(())
}

// Puts a node in the place of an open slot.
fn put_node(slots: &mut Vec<Slot>, p: usize, rank: Rank, end: usize, duals: Duals, kept: Kept)
    requires { p < length slots.old.items }
    ensures { (before : List Slot) (old : Slot) (behind : List Slot) → slots.old.items ≡ before ++ old ∷ behind → length before ≡ p
        → slots.new.items ≡ before ++ record { rank = rank; end = end; duals = duals; kept = Some kept } ∷ behind }
{
    let slot = Slot {
        rank,
        end,
        duals,
        kept: Some(kept),
    };
    put(slots, p, slot);
}

// Puts a node in the place of the open slot, after so many others. Its facts are the marks; those of its place come first.
fn keep_node(
    alloc: Global,
    links: &mut Vec<Link>,
    slots: &mut Vec<Slot>,
    p: usize,
    marks: &Marks,
    known: usize,
    duals: Duals,
    target: u64,
    step: &Step,
    count: usize,
) -> Result<(), Memory>
    requires links { AreLinks links.old.items }
    requires slot { p < length slots.old.items }
    requires end { (slot_at slots.old.items p).end ≤ length links.old.items }
    requires known { known ≡ length (facts_at links.old.items (slot_at slots.old.items p).end) }
    requires within { known ≤ length marks.now.facts }
    requires few { count + 1 < 2 ^ 64 }
    ensures { OnOk result ((table : CostTableSeen) (book : BookSeen) (before : ℕ) → AreSlots table book links.old.items slots.old.items count before
        → IsNext slots.old.items count before p → target ≤ before → AreDuals table book duals.values
        → IsShutAt table book (facts_at links.old.items (slot_at slots.old.items p).end) marks.now.facts target
        → IsTrueStep table book marks.now.facts duals.values target step.now
        → IsOneMore table book links.old.items slots.old.items links.new.items slots.new.items count target) }
{
    among_more();
    sums_never_fall();
    has_fact_decides();
    undecided_decides();
    undecided_pairs_are_of_book();
    following_facts_are_new();
    following_facts_are_of_book();
    facts_leave_no_more();
    branches_leave_fewer();
    let rank = slots[p].rank;
    let end = slots[p].end;
    let facts = marks.copy_of_facts(alloc)?;
    let last = add_links(links, end, &facts[known..])?;
    let ended = kept_end(step);
    let kept = Kept {
        number: count,
        target,
        last,
        end: ended,
    };
    if let KeptEnd::Split { pair, bound } = ended {
        open_branches(
            alloc,
            links,
            slots,
            p,
            last,
            &duals,
            pair,
            &bound,
            count + 1,
        )?;
        put_node(slots, p, rank, end, duals, kept);
        return Ok(());
    }
    put_node(slots, p, rank, end, duals, kept);
    Ok(())
}

/// Visits an open place.
pub fn visit(
    alloc: Global,
    book: &Book,
    table: &CostTable,
    p: usize,
    state: &mut BestState,
) -> Result<(), Memory>
    requires table { IsTableFor book.now table.now }
    requires state { IsBestState table.now book.now state.old }
    requires slots { HasSlots table.now book.now state.old }
    requires next { IsNext state.old.slots.items state.old.count state.old.best.target p }
    ensures state { OnOk result (IsBestState table.now book.now state.new) }
    ensures more { OnOk result (IsOneMore table.now book.now state.old.links.items state.old.slots.items state.new.links.items state.new.slots.items
        state.old.count state.new.best.target) }
    ensures count { OnOk result (state.new.count ≡ state.old.count + 1) }
{
    let slot = &state.slots[p];
    go_to_slot(alloc, book, &state.links, slot, &mut state.marks)?;
    let known = state.marks.mark();
    let is_branch = slot.rank.since == state.count;
    let values = Vec::from_slice(alloc, &slot.duals.values)?;
    let mut duals = Duals { values };
    state
        .routes
        .fit_to(alloc, book, table, &state.marks, is_branch)?;
    let Some(count) = state.count.checked_add(1) else {
        return Err(Memory);
    };
    state.tools.diver.forget();
    let stepped = node_step_with(
        alloc,
        book,
        table,
        &state.net,
        &mut state.marks,
        &mut state.routes.fit,
        &mut duals,
        &mut state.best,
        &mut state.tools,
        &mut NoLog,
    );
    let Ok(step) = stepped else {
        return Err(Memory);
    };
    state.routes.keep(alloc, book, table)?;
    let target = state.best.target;
    keep_node(
        alloc,
        &mut state.links,
        &mut state.slots,
        p,
        &state.marks,
        known,
        duals,
        target,
        &step,
        state.count,
    )?;
    state.count = count;
    Ok(())
}
