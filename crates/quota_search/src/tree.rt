//! The tree of a search under quotas. Where nothing is owed any more, the best plan is a least one among those that keep the quotas, and
//! where there is none, no legal plan keeps them.

ghost use Rattle.std.specs.Prelude.{◌≡◌, ◌≤◌, [], ◌∷◌, length, IfOk};
ghost use Rattle.tail_book.specs.CostTable.{costs_of};
ghost use Rattle.node_leaves.specs.Target.{IsBest};
ghost use Rattle.open_branches.specs.Branches.{owed_of};
ghost use Rattle.quota_node.specs.QuotaNode.{KeepsWherePlanned};
ghost use Rattle.quota_rows.specs.FeeBound.{MarkedKeptPlansCostAtLeast};
ghost use Rattle.quota_rows.specs.declared.quota.TheConstants.{QUOTA_LIMIT};
ghost use Rattle.quota_search.specs.QuotaOutcome.{IsTrueQuotaOutcome};
ghost use Rattle.quota_search.specs.inside.State.{IsStateFor};

use crate::QuotaOutcome;
use crate::demands::leave_no_plan;
use crate::first_plans::seek_plans;
use crate::laws::own_costs_keep_least_kept;
use crate::state::QuotaState;
use crate::visit::visit;
use connection_net::Net;
use node_leaves::Best;
use quota_rows::Quota;
use quota_split::laws::{empty_roots_end, roots_end};
use std::alloc::Global;
use tail_book::laws::{every_book_is_sound, every_cost_table_is_sound, own_costs_are_for_book};
use tail_book::{Book, CostTable, Memory};

// Visits nodes from the root on, until nothing is owed.
fn grow(
    alloc: Global,
    book: &Book,
    table: &CostTable,
    quotas: &[Quota],
    state: &mut QuotaState,
) -> Result<(), Memory>
    requires table { table.now ≡ costs_of book.now }
    requires few { length quotas.now ≤ QUOTA_LIMIT }
    requires state { IsStateFor table.now book.now quotas.now state.old }
    requires root { owed_of state.old.branches ≡ [] ∷ [] }
    ensures state { IfOk result (λ _. IsStateFor table.now book.now quotas.now state.new) }
    ensures closed { IfOk result (λ _. MarkedKeptPlansCostAtLeast table.now book.now quotas.now [] state.new.best.target) }
{
    'nodes: loop {
        let Ok(found) = state.branches.next(book) else {
            return Err(Memory);
        };
        if !found {
            return Ok(());
        }
        let Ok(()) = visit(alloc, book, table, quotas, state) else {
            return Err(Memory);
        };
    }
}

// What the best plan answers where nothing is owed.
fn outcome_of(book: &Book, table: &CostTable, quotas: &[Quota], best: Best) -> QuotaOutcome
    requires table { table.now ≡ costs_of book.now }
    requires best { IsBest table.now book.now best.plan best.target }
    requires kept { KeepsWherePlanned book.now quotas.now best.plan }
    requires closed { MarkedKeptPlansCostAtLeast table.now book.now quotas.now [] best.target }
    ensures truth { IsTrueQuotaOutcome book.now quotas.now result }
{
    every_book_is_sound(book);
    every_cost_table_is_sound(table);
    own_costs_are_for_book();
    own_costs_keep_least_kept();
    roots_end();
    empty_roots_end();
    let (plan, target) = (best.plan, best.target);
    match plan {
        Some(plan) => QuotaOutcome::Optimal(plan, target),
        None => QuotaOutcome::Infeasible,
    }
}

/// Searches a tree for a least plan among those that keep the quotas.
pub fn search_tree(
    alloc: Global,
    book: &Book,
    table: &CostTable,
    quotas: &[Quota],
) -> Result<QuotaOutcome, Memory>
    requires table { table.now ≡ costs_of book.now }
    requires few { length quotas.now ≤ QUOTA_LIMIT }
    ensures truth { IfOk result (IsTrueQuotaOutcome book.now quotas.now) }
{
    let net = Net::new(alloc, book)?;
    if leave_no_plan(alloc, book, &net, quotas)? {
        return Ok(QuotaOutcome::Infeasible);
    }
    let mut state = QuotaState::new(alloc, book, table, net, quotas)?;
    seek_plans(alloc, book, table, quotas, &mut state)?;
    grow(alloc, book, table, quotas, &mut state)?;
    Ok(outcome_of(book, table, quotas, state.best))
}
