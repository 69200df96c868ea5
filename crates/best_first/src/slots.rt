//! The tree of a search while it grows: one list of slots in depth-first order, each an open place or a counted node. A node takes the
//! place of an open slot, and its branches come directly behind it; so the list is the tree, whatever the order of counting.
//!
//! A slot costs a dual for each activity. What shows a node is not kept: it is priced again when the tree is told.

ghost use Rattle.std.specs.Prelude.{◌≡◌, ◌<◌, ◌+◌, ◌++◌, ◌∷◌, ℕ, ℤ, List, None, Some, length, OnOk, IfOk, IfSome};
ghost use Rattle.tail_book.specs.Seen.{BookSeen};
ghost use Rattle.tail_book.specs.TableSeen.{CostTableSeen};
ghost use Rattle.branch_marks.specs.declared.fact.Fact.{Fact};
ghost use Rattle.branch_tree.specs.Step.{IsTrueStep};
ghost use Rattle.best_first.specs.inside.Slots.{IsKeptEnd, IsFirstBelow};

use crate::Rank;
use branch_marks::Pair;
use branch_tree::Step;
use std::alloc::Global;
use tail_book::{Duals, Memory};

/// How a counted node ended, in the form that is needed to tell it again.
#[derive(Clone, Copy, Debug)]
pub enum KeptEnd {
    /// This activity is alive for nobody.
    Hole(u32),
    /// No legal route of this aircraft fits.
    Stuck(u32),
    /// The bound of the node's duals leaves no plan that is cheaper than its target.
    Bounded,
    /// A split on a pair, with the Lagrangian bound of the node's duals, in thousandths of a cost unit.
    Split { pair: Pair, bound: i128 },
}

/// A counted node: how many were counted before it, the cost to undercut as it was left, in cost units, the end of its facts, and how
/// it ended.
#[derive(Clone, Copy, Debug)]
pub struct Kept {
    pub number: usize,
    pub target: u64,
    pub last: usize,
    pub end: KeptEnd,
}

/// A place of the tree: its rank, the end of its facts, and its duals, or those of the node that was counted there.
#[derive(Debug, Drop)]
pub struct Slot {
    pub rank: Rank,
    pub end: usize,
    pub duals: Duals,
    pub kept: Option<Kept>,
}

/// What is kept of the end that a step answers.
pub fn kept_end(step: &Step) -> KeptEnd
    ensures { (table : CostTableSeen) (book : BookSeen) (marks : List Fact) (duals : List ℤ) (target : ℕ)
        → IsTrueStep table book marks duals target step.now → IsKeptEnd table book marks duals target result }
{
    match step {
        Step::Hole(a) => KeptEnd::Hole(*a),
        Step::Stuck(k) => KeptEnd::Stuck(*k),
        Step::Bounded(_) => KeptEnd::Bounded,
        Step::Split { pair, bound, .. } => KeptEnd::Split {
            pair: *pair,
            bound: *bound,
        },
    }
}

/// An open place of this rank, with a copy of these duals.
pub fn open_slot(alloc: Global, rank: Rank, end: usize, duals: &Duals) -> Result<Slot, Memory>
    ensures { IfOk result (λ slot. slot ≡ record { rank = rank; end = end; duals = duals.now; kept = None }) }
{
    let values = Vec::from_slice(alloc, &duals.values)?;
    Ok(Slot {
        rank,
        end,
        duals: Duals { values },
        kept: None,
    })
}

/// Puts a slot in the place of another one.
pub fn put(slots: &mut Vec<Slot>, p: usize, slot: Slot)
    requires { p < length slots.old.items }
    ensures { (before : List Slot) (old : Slot) (behind : List Slot) → slots.old.items ≡ before ++ old ∷ behind → length before ≡ p
        → slots.new.items ≡ before ++ slot ∷ behind }
{
    slots[p] = slot;
}

/// Puts two slots behind another one.
pub fn put_behind(slots: &mut Vec<Slot>, p: usize, first: Slot, second: Slot) -> Result<(), Memory>
    requires { p < length slots.old.items }
    ensures { OnOk result ((before : List Slot) (here : Slot) (behind : List Slot) → slots.old.items ≡ before ++ here ∷ behind → length before ≡ p
        → slots.new.items ≡ before ++ here ∷ first ∷ second ∷ behind) }
{
    slots.insert(p + 1, second)?;
    slots.insert(p + 1, first)?;
    Ok(())
}

// The one of an open slot and the first before it that comes first.
fn first_of(slots: &[Slot], first: Option<usize>, p: usize) -> Option<usize>
    requires slot { p < length slots.now }
    requires first { IfSome first (λ q. q < length slots.now) }
    ensures first { IsFirstBelow slots.now p first → IsFirstBelow slots.now (p + 1) result }
    ensures slot { IfSome result (λ q. q < length slots.now) }
{
    if slots[p].kept.is_some() {
        return first;
    }
    let Some(q) = first else {
        return Some(p);
    };
    if slots[p].rank.is_before(&slots[q].rank) {
        Some(p)
    } else {
        Some(q)
    }
}

/// The open slot that comes first, if there is one.
pub fn first_open(slots: &[Slot]) -> Option<usize>
    ensures { IsFirstBelow slots.now (length slots.now) result }
{
    let mut first = None;
    for p in 0..slots.len() {
        first = first_of(slots, first, p);
    }
    first
}
