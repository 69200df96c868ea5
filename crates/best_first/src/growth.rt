//! The growth of a tree: the open place that comes first is visited, until none is open, the least bound of all reaches the target, or the
//! limit is reached. Then no open place can hold a cheaper plan, or the limit forbids to look.
//!
//! It ends without a limit as well, since a branch leaves less open than its parent did.

ghost use Rattle.std.specs.Prelude.{◌≡◌, ◌↔◌, true, false, IsTrue, OnOk};
ghost use Rattle.tail_book.specs.CostTable.{IsTableFor};
ghost use Rattle.branch_marks.specs.Bound.{bound_of, Passes};
ghost use Rattle.branch_tree.specs.SearchTree.{IsWithin};
ghost use Rattle.branch_tree.specs.inside.SearchParts.{Allows, HasStopped};
ghost use Rattle.best_first.specs.inside.BestParts.{HasSlots, IsBestState, IsCountedOut, IsNext};

use crate::best_state::BestState;
use crate::slots::{Slot, first_open};
use crate::visit::visit;
use branch_marks::passes;
use branch_tree::Limit;
use std::alloc::Global;
use tail_book::{Book, CostTable, Memory};

// Whether the limit allows one node more.
fn allows(limit: Limit, count: usize) -> bool
    ensures more { result ≡ true → Allows limit count }
    ensures none { result ≡ false → HasStopped limit count }
{
    match limit {
        Limit::Free => true,
        Limit::Nodes(most) => (count as u64) < most,
    }
}

// Whether the bound under which a slot's place was opened reaches the target.
fn reaches(slot: &Slot, target: u64) -> bool
    ensures { IsTrue result ↔ Passes (bound_of slot.now.rank.bound) target }
{
    passes(slot.rank.bound, target)
}

/// Grows the tree from its root.
pub fn grow(
    alloc: Global,
    book: &Book,
    table: &CostTable,
    limit: Limit,
    state: &mut BestState,
) -> Result<(), Memory>
    requires table { IsTableFor book.now table.now }
    requires state { IsBestState table.now book.now state.old }
    requires slots { HasSlots table.now book.now state.old }
    requires next { IsNext state.old.slots.items 0 state.old.best.target 0 }
    requires none { state.old.count ≡ 0 }
    ensures state { OnOk result (IsBestState table.now book.now state.new) }
    ensures slots { OnOk result (HasSlots table.now book.now state.new) }
    ensures out { OnOk result (IsCountedOut limit state.new.slots.items state.new.count state.new.best.target) }
    ensures within { OnOk result (IsWithin limit state.new.count) }
{
    if !allows(limit, 0) {
        return Ok(());
    }
    visit(alloc, book, table, 0, state)?;
    'nodes: while allows(limit, state.count) {
        let Some(p) = first_open(&state.slots) else {
            return Ok(());
        };
        if reaches(&state.slots[p], state.best.target) {
            return Ok(());
        }
        visit(alloc, book, table, p, state)?;
    }
    Ok(())
}
