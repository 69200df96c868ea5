//! A visit, one turn of a search under quotas: a node on the marks that are here. Its first branch comes next, before all that is owed
//! behind it, so the search is depth first. Both branches begin with its duals and fees.

ghost use Rattle.std.specs.Prelude.{◌≡◌, ◌<◌, ◌≤◌, ◌++◌, true, length, All, IfOk};
ghost use Rattle.tail_book.specs.CostTable.{costs_of};
ghost use Rattle.branch_marks.specs.Settled.{AreDuals};
ghost use Rattle.open_branches.specs.Branches.{AreBranchesOf, behind_of, owed_of};
ghost use Rattle.quota_rows.specs.declared.quota.TheConstants.{QUOTA_LIMIT};
ghost use Rattle.quota_rows.specs.Fees.{AreFees};
ghost use Rattle.quota_search.specs.inside.Owing.{AreAllOnce, ComesDownTo, MayGoOn, owed_by, owed_room};
ghost use Rattle.quota_search.specs.inside.State.{ArePrices, IsStateFor};

use crate::state::{Prices, QuotaState};
use branch_marks::laws::{branches_leave_fewer, facts_leave_no_more, undecided_decides};
use open_branches::Branches;
use quota_node::{QuotaStep, quota_node_with};
use quota_rows::{Fees, Quota};
use quota_split::laws::{
    bounds_end, branches_end, branches_stay_once, holes_end, overs_end, steps_end, steps_stay_once,
    stuck_ends,
};
use std::alloc::Global;
use tail_book::laws::{every_book_is_sound, own_costs_are_for_book};
use tail_book::{Book, CostTable, Duals, Memory};

// Keeps the duals and fees of a node that was split for its second branch, or takes those of the branch that is owed next.
fn keep_or_take(
    alloc: Global,
    book: &Book,
    table: &CostTable,
    quotas: &[Quota],
    step: &QuotaStep,
    duals: &mut Duals,
    fees: &mut Fees,
    behind: &mut Vec<Prices>,
) -> Result<(), Memory>
    requires duals { AreDuals table.now book.now duals.old.values }
    requires fees { AreFees table.now quotas.now fees.old.values }
    requires behind { All (ArePrices table.now book.now quotas.now) behind.old.items }
    ensures duals { AreDuals table.now book.now duals.new.values }
    ensures fees { AreFees table.now quotas.now fees.new.values }
    ensures behind { All (ArePrices table.now book.now quotas.now) behind.new.items }
{
    if let QuotaStep::Split { .. } = step {
        let kept = Prices {
            duals: Duals {
                values: Vec::from_slice(alloc, &duals.values)?,
            },
            fees: Fees {
                values: Vec::from_slice(alloc, &fees.values)?,
            },
        };
        behind.push(kept)?;
        return Ok(());
    }
    if let Some(prices) = behind.pop() {
        *duals = prices.duals;
        *fees = prices.fees;
    }
    Ok(())
}

// Goes on from a node that has ended: to its first branch where it was split, and else to what is owed behind it.
fn go_on(book: &Book, step: &QuotaStep, branches: &mut Branches) -> Result<(), Memory>
    requires branches { AreBranchesOf book.now branches.old }
    requires owes { branches.old.owes ≡ true }
    requires pair { MayGoOn book.now branches.old.marks.facts step.now }
    ensures branches { IfOk result (λ _. AreBranchesOf book.now branches.new) }
    ensures owed { IfOk result (λ _. owed_of branches.new ≡ owed_by branches.old.marks.facts step.now ++ behind_of branches.old) }
{
    undecided_decides();
    match step {
        QuotaStep::Split { pair, .. } => branches.split(book, *pair),
        QuotaStep::Over(_) | QuotaStep::Hole(_) | QuotaStep::Stuck(_) | QuotaStep::Bounded(_) => {
            branches.owes = false;
            Ok(())
        }
    }
}

/// Visits the node that is here, which is owed.
pub fn visit(
    alloc: Global,
    book: &Book,
    table: &CostTable,
    quotas: &[Quota],
    state: &mut QuotaState,
) -> Result<(), Memory>
    requires table { table.now ≡ costs_of book.now }
    requires few { length quotas.now ≤ QUOTA_LIMIT }
    requires state { IsStateFor table.now book.now quotas.now state.old }
    requires owes { state.old.branches.owes ≡ true }
    requires once { AreAllOnce (owed_of state.old.branches) }
    ensures state { IfOk result (λ _. IsStateFor table.now book.now quotas.now state.new) }
    ensures once { IfOk result (λ _. AreAllOnce (owed_of state.new.branches)) }
    ensures visited { IfOk result (λ _. ComesDownTo table.now book.now quotas.now state.new.best.target (owed_of state.old.branches)
        (owed_of state.new.branches)) }
    ensures fewer { IfOk result (λ _. owed_room book.now (owed_of state.new.branches) < owed_room book.now (owed_of state.old.branches)) }
    ensures falls { IfOk result (λ _. state.new.best.target ≤ state.old.best.target) }
{
    every_book_is_sound(book);
    own_costs_are_for_book();
    overs_end();
    holes_end();
    stuck_ends();
    bounds_end();
    branches_end();
    steps_end();
    steps_stay_once();
    branches_stay_once();
    facts_leave_no_more();
    branches_leave_fewer();
    let marks = &state.branches.marks;
    state.routes.fit_to(alloc, book, table, marks, false)?;
    let step = match quota_node_with(
        alloc,
        book,
        table,
        &state.net,
        quotas,
        &mut state.branches.marks,
        &mut state.routes.fit,
        &mut state.duals,
        &mut state.fees,
        &mut state.best,
        &mut state.tools,
    ) {
        Ok(step) => step,
        Err(_) => return Err(Memory),
    };
    state.routes.keep(alloc, book, table)?;
    keep_or_take(
        alloc,
        book,
        table,
        quotas,
        &step,
        &mut state.duals,
        &mut state.fees,
        &mut state.behind,
    )?;
    match go_on(book, &step, &mut state.branches) {
        Ok(()) => Ok(()),
        Err(_) => Err(Memory),
    }
}
