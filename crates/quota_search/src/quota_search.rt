//! The search under quotas. First a least plan is sought as if there were none: where no plan is legal none keeps them, and a least plan
//! that keeps them is the answer. Only where it breaks one, nodes are searched with fees.

ghost use Rattle.std.specs.Prelude.{◌≡◌, ◌≤◌, length, IfOk};
ghost use Rattle.tail_book.specs.CostTable.{costs_of};
ghost use Rattle.tail_book.specs.Truth.{CostsAtLeastIn, IsPlanIn};
ghost use Rattle.quota_rows.specs.declared.quota.TheConstants.{QUOTA_LIMIT};
ghost use Rattle.quota_search.specs.QuotaOutcome.{IsTrueQuotaOutcome};

use crate::QuotaOutcome;
use crate::laws::{least_plans_are_least_kept, no_plans_keep_none, own_costs_keep_least_kept};
use crate::tree::search_tree;
use branch_marks::NoLog;
use branch_tree::{Limit, search};
use quota_rows::{Quota, keeps};
use std::alloc::Global;
use tail_book::laws::{
    every_book_is_sound, legal_plans_fly_all, legal_plans_fly_the_book, own_costs_are_for_book,
};
use tail_book::{Book, CostTable, Memory, Outcome, Plan};

// Goes on from a least plan: it is the answer where it keeps the quotas.
fn search_from_least(
    alloc: Global,
    book: &Book,
    table: &CostTable,
    quotas: &[Quota],
    plan: Plan,
    cost: u64,
) -> Result<QuotaOutcome, Memory>
    requires table { table.now ≡ costs_of book.now }
    requires few { length quotas.now ≤ QUOTA_LIMIT }
    requires plan { IsPlanIn table.now book.now cost plan }
    requires least { CostsAtLeastIn table.now book.now cost }
    ensures truth { IfOk result (IsTrueQuotaOutcome book.now quotas.now) }
{
    every_book_is_sound(book);
    legal_plans_fly_all();
    legal_plans_fly_the_book();
    least_plans_are_least_kept();
    own_costs_keep_least_kept();
    if keeps(book, quotas, &plan) {
        return Ok(QuotaOutcome::Optimal(plan, cost));
    }
    search_tree(alloc, book, table, quotas)
}

/// A plan of the book that is legal, keeps the quotas, and costs no more than any other such plan, or that there is none.
pub fn search_quotas(
    alloc: Global,
    book: &Book,
    table: &CostTable,
    quotas: &[Quota],
) -> Result<QuotaOutcome, Memory>
    requires table { table.now ≡ costs_of book.now }
    requires few { length quotas.now ≤ QUOTA_LIMIT }
    ensures truth { IfOk result (IsTrueQuotaOutcome book.now quotas.now) }
{
    own_costs_are_for_book();
    no_plans_keep_none();
    let outcome = match search(alloc, book, table, Limit::Free, &mut NoLog) {
        Ok(outcome) => outcome,
        Err(_) => return Err(Memory),
    };
    match outcome {
        Outcome::Optimal(plan, cost) => search_from_least(alloc, book, table, quotas, plan, cost),
        Outcome::Infeasible | Outcome::Between { .. } | Outcome::Above { .. } => {
            Ok(QuotaOutcome::Infeasible)
        }
    }
}
