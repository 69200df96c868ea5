//! A plan of least cost by any table, and so the fewest moves: those are the least cost where each move costs 1 and
//! nothing else anything.

ghost use Rattle.std.specs.Prelude.{◌≡◌, ◌≤◌, IfOk, IfSome};
ghost use Rattle.tail_book.specs.Lookup.{activities};
ghost use Rattle.tail_book.specs.Plan.{IsLegalPlan};
ghost use Rattle.tail_book.specs.CostTable.{IsTableFor};
ghost use Rattle.plan_homes.specs.Moves.{moves};
ghost use Rattle.plan_repair.specs.declared.raised.TheConstants.{REPAIR_LIMIT};
ghost use Rattle.plan_repair.specs.inside.Found.{IsFewest, IsLeastOrNone};

use crate::laws::raised_plans_cost;
use crate::raised::{no_costs, raised};
use crate::warm_duals::warm_for_moves;
use branch_marks::NoLog;
use branch_tree::{Limit, WarmStart, search_from};
use std::alloc::Global;
use tail_book::laws::{
    every_book_is_sound, every_cost_table_is_sound, legal_plans_cost_at_most_in,
};
use tail_book::{Book, CostTable, Memory, Outcome, Plan};

/// A plan of least cost by a table, and that cost.
#[derive(Drop)]
pub struct LeastPlan {
    pub plan: Plan,
    pub cost: u64,
}

/// A plan of least cost by a table, searched from a legal plan and a warm start on, or nothing where no plan is legal.
pub fn least_plan_in(
    alloc: Global,
    book: &Book,
    table: &CostTable,
    start: Option<&Plan>,
    warm: WarmStart,
) -> Result<Option<LeastPlan>, Memory>
    requires table { IsTableFor book.now table.now }
    requires legal { IfSome start (λ plan. IsLegalPlan book.now plan.now) }
    ensures { IfOk result (IsLeastOrNone table.now book.now) }
{
    match search_from(
        alloc,
        book,
        table,
        Limit::Free,
        start,
        Some(warm),
        &mut NoLog,
    ) {
        Ok(Outcome::Optimal(plan, cost)) => Ok(Some(LeastPlan { plan, cost })),
        Ok(Outcome::Infeasible) => Ok(None),
        Ok(Outcome::Between { .. } | Outcome::Above { .. }) => unreachable!(),
        Err(_) => Err(Memory),
    }
}

/// A plan with the fewest moves, searched from a legal plan on, where these activities can be kept at home. Its cost is the number of
/// its moves.
pub fn fewest_moves(
    alloc: Global,
    book: &Book,
    homes: &[Option<u32>],
    kept: &[bool],
    start: &Plan,
) -> Result<LeastPlan, Memory>
    requires few { activities book.now ≤ REPAIR_LIMIT }
    requires legal { IsLegalPlan book.now start.now }
    ensures { IfOk result (IsFewest book.now homes.now) }
{
    every_book_is_sound(book);
    legal_plans_cost_at_most_in();
    raised_plans_cost();
    let none = no_costs(alloc, book)?;
    every_cost_table_is_sound(&none);
    let table = raised(alloc, book, &none, homes, 1)?;
    let warm = warm_for_moves(alloc, book, homes, kept)?;
    match least_plan_in(alloc, book, &table, Some(start), warm)? {
        Some(found) => Ok(found),
        None => unreachable!(),
    }
}
