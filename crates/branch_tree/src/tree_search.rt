//! The search of a book: depth first, the first branch before the second, over a list of open places and without recursion.
//!
//! Places are visited until none is open, or the limit of nodes is reached; what is open then is only priced. The tree is
//! told to the log as it grows, and is not kept. A search may begin with a legal plan, of which nothing but its cost is used:
//! it is audited again, and cheaper ones alone take its place.

ghost use Rattle.std.specs.Prelude.{◌≡◌, [], ◌∷◌, IfOk, IfSome, OnErr, IsErrOf};
ghost use Rattle.tail_book.specs.Plan.{IsLegalPlan};
ghost use Rattle.tail_book.specs.CostTable.{IsTableFor, plan_cost_in};
ghost use Rattle.tail_book.specs.Truth.{IsTrueOutcomeIn};
ghost use Rattle.branch_marks.specs.TreeLog.{IsLater, WriteHasFailed};
ghost use Rattle.node_leaves.specs.Place.{root};
ghost use Rattle.branch_tree.specs.Search.{IsSearched, EndsUnder, HasPlanWithin};
ghost use Rattle.node_leaves.specs.Stops.{StopsIn};
ghost use Rattle.branch_tree.specs.inside.SearchParts.{outcome_for};

use crate::first_pass::grow;
use crate::laws::search_trees_are_true;
use crate::search_state::SearchState;
use crate::second_pass::close;
use crate::{Best, Limit, Stop, WarmStart};
use branch_marks::TreeLog;
use std::alloc::Global;
use tail_book::laws::{
    every_book_is_sound, every_cost_table_is_sound, legal_plans_cost_at_most_in,
};
use tail_book::{Book, CostTable, Outcome, Plan};

// The outcome of the best plan, the least bound that is left, and the counter.
fn outcome_of(best: Best, low: Option<u64>, counter: u64) -> Outcome
    ensures { result ≡ outcome_for best.plan best.target low counter }
{
    match (best.plan, low) {
        (Some(plan), None) => Outcome::Optimal(plan, best.target),
        (None, None) => Outcome::Infeasible,
        (Some(plan), Some(low)) => Outcome::Between {
            plan,
            low,
            high: best.target,
            nodes: counter,
        },
        (None, Some(low)) => Outcome::Above {
            low,
            nodes: counter,
        },
    }
}

/// Searches a book from a legal plan on, where one is given: what it costs is to be undercut from the first node on.
pub fn search_from<L: TreeLog>(
    alloc: Global,
    book: &Book,
    table: &CostTable,
    limit: Limit,
    start: Option<&Plan>,
    warm: Option<WarmStart>,
    log: &mut L,
) -> Result<Outcome, Stop>
    requires table { IsTableFor book.now table.now }
    requires legal { IfSome start (λ plan. IsLegalPlan book.now plan.now) }
    ensures truth { IfOk result (IsTrueOutcomeIn table.now book.now) }
    ensures within { IfOk result (λ outcome. IfSome start.entry (λ plan. HasPlanWithin (plan_cost_in table.now book.now plan.now) outcome)) }
    ensures tree { IfOk result (IsSearched table.now book.now limit (L.shows log.old) (L.shows log.new)) }
    ensures ends { IfOk result (EndsUnder limit) }
    ensures stopped { OnErr result (StopsIn (L.shows log.old) (L.shows log.new) table.now book.now (root book.now ∷ [])) }
    ensures later { IsLater (L.shows log.old) (L.shows log.new) }
    ensures beside { L.beside log.old log.new }
    ensures cause { IsErrOf result Stop.Log → WriteHasFailed (L.shows log.old) (L.shows log.new) }
{
    every_book_is_sound(book);
    every_cost_table_is_sound(table);
    legal_plans_cost_at_most_in();
    search_trees_are_true();
    let mut state = match SearchState::new(alloc, book, table, start, warm) {
        Ok(state) => state,
        Err(_) => return Err(Stop::Memory),
    };
    let counter = match grow(alloc, book, table, limit, &mut state, log) {
        Ok(counter) => counter,
        Err(stop) => return Err(stop),
    };
    let target = state.best.target;
    match close(alloc, book, table, target, &mut state, log) {
        Ok(low) => Ok(outcome_of(state.best, low, counter)),
        Err(stop) => Err(stop),
    }
}

/// Searches a book, and notes each node of its tree.
pub fn search<L: TreeLog>(
    alloc: Global,
    book: &Book,
    table: &CostTable,
    limit: Limit,
    log: &mut L,
) -> Result<Outcome, Stop>
    requires table { IsTableFor book.now table.now }
    ensures truth { IfOk result (IsTrueOutcomeIn table.now book.now) }
    ensures tree { IfOk result (IsSearched table.now book.now limit (L.shows log.old) (L.shows log.new)) }
    ensures ends { IfOk result (EndsUnder limit) }
    ensures stopped { OnErr result (StopsIn (L.shows log.old) (L.shows log.new) table.now book.now (root book.now ∷ [])) }
    ensures later { IsLater (L.shows log.old) (L.shows log.new) }
    ensures beside { L.beside log.old log.new }
    ensures cause { IsErrOf result Stop.Log → WriteHasFailed (L.shows log.old) (L.shows log.new) }
{
    search_from(alloc, book, table, limit, None, None, log)
}
