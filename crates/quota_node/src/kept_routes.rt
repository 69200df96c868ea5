//! Which quota a plan breaks first.

ghost use Rattle.std.specs.Prelude.{◌<◌, ◌≤◌, IfNone, IfSome, length};
ghost use Rattle.tail_book.specs.Plan.{IsLegalPlan};
ghost use Rattle.node_leaves.specs.Target.{IsBest};
ghost use Rattle.quota_rows.specs.KeptPlans.{KeepsQuotas};
ghost use Rattle.quota_node.specs.QuotaNode.{KeepsWherePlanned};

use node_leaves::Best;
use quota_rows::{Quota, uses};
use tail_book::laws::{every_book_is_sound, legal_plans_fly_all, legal_plans_fly_the_book};
use tail_book::{Book, CostTable, Plan};

// The first quota that a legal plan breaks.
fn first_broken(book: &Book, quotas: &[Quota], plan: &Plan) -> Option<usize>
    requires { IsLegalPlan book.now plan.now }
    ensures none { IfNone result (KeepsQuotas book.now quotas.now plan.now) }
    ensures some { IfSome result (λ q. q < length quotas.now) }
{
    every_book_is_sound(book);
    legal_plans_fly_the_book();
    legal_plans_fly_all();
    for q in 0..quotas.len() {
        let quota = &quotas[q];
        if uses(book, quota, plan) > quota.most {
            return Some(q);
        }
    }
    None
}

/// The first quota that the plan breaks, where there is a plan.
pub fn first_broken_by(
    book: &Book,
    table: &CostTable,
    quotas: &[Quota],
    best: &Best,
) -> Option<usize>
    requires { IsBest table.now book.now best.now.plan best.now.target }
    ensures none { IfNone result (KeepsWherePlanned book.now quotas.now best.now.plan) }
    ensures some { IfSome result (λ q. q < length quotas.now) }
{
    match &best.plan {
        None => None,
        Some(plan) => first_broken(book, quotas, plan),
    }
}

/// Takes a plan that was looked for elsewhere, where it keeps the quotas and is cheaper than the best so far.
pub fn take_kept(book: &Book, table: &CostTable, quotas: &[Quota], tried: Best, best: &mut Best)
    requires tried { IsBest table.now book.now tried.plan tried.target }
    requires best { IsBest table.now book.now best.old.plan best.old.target }
    requires kept { KeepsWherePlanned book.now quotas.now best.old.plan }
    ensures best { IsBest table.now book.now best.new.plan best.new.target }
    ensures kept { KeepsWherePlanned book.now quotas.now best.new.plan }
    ensures falls { best.new.target ≤ best.old.target }
{
    if first_broken_by(book, table, quotas, &tried).is_none() && tried.target < best.target {
        *best = tried;
    }
}
