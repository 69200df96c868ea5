//! The search of a book by least bound: of all open places the one whose parent's bound is least comes next, among equals the one
//! that was opened first, and of a node's two branches the first before the second.
//!
//! The tree grows to its end before anything is told of it. Then it is told in depth-first order, and its open places are priced as
//! their turn comes; so a log hears a proof tree as from a search depth first.

ghost use Rattle.std.specs.Prelude.{◌≡◌, ◌∷◌, [], IfOk, OnErr, IsErrOf};
ghost use Rattle.tail_book.specs.CostTable.{IsTableFor};
ghost use Rattle.tail_book.specs.Truth.{IsTrueOutcomeIn};
ghost use Rattle.branch_marks.specs.TreeLog.{IsLater, WriteHasFailed};
ghost use Rattle.node_leaves.specs.Place.{root};
ghost use Rattle.node_leaves.specs.Stops.{StopsIn};
ghost use Rattle.branch_tree.specs.Search.{EndsUnder};
ghost use Rattle.branch_tree.specs.inside.SearchParts.{outcome_for};
ghost use Rattle.best_first.specs.BestSearch.{IsBestSearched};

use crate::best_state::BestState;
use crate::growth::grow;
use crate::laws::best_trees_are_true;
use crate::tree_telling::tell_tree;
use branch_marks::TreeLog;
use branch_tree::{Best, Limit, Stop};
use std::alloc::Global;
use tail_book::laws::{every_book_is_sound, every_cost_table_is_sound};
use tail_book::{Book, CostTable, Outcome};

// The outcome of the best plan, the least bound that is left, and how many nodes were counted.
fn outcome_of(best: Best, low: Option<u64>, count: usize) -> Outcome
    ensures { result ≡ outcome_for best.plan best.target low count }
{
    match (best.plan, low) {
        (Some(plan), None) => Outcome::Optimal(plan, best.target),
        (None, None) => Outcome::Infeasible,
        (Some(plan), Some(low)) => Outcome::Between {
            plan,
            low,
            high: best.target,
            nodes: count as u64,
        },
        (None, Some(low)) => Outcome::Above {
            low,
            nodes: count as u64,
        },
    }
}

/// Searches a book by least bound, and tells each node of the tree once it is whole.
pub fn search_best<L: TreeLog>(
    alloc: Global,
    book: &Book,
    table: &CostTable,
    limit: Limit,
    log: &mut L,
) -> Result<Outcome, Stop>
    requires table { IsTableFor book.now table.now }
    ensures truth { IfOk result (IsTrueOutcomeIn table.now book.now) }
    ensures tree { IfOk result (IsBestSearched table.now book.now limit (L.shows log.old) (L.shows log.new)) }
    ensures ends { IfOk result (EndsUnder limit) }
    ensures stopped { OnErr result (StopsIn (L.shows log.old) (L.shows log.new) table.now book.now (root book.now ∷ [])) }
    ensures later { IsLater (L.shows log.old) (L.shows log.new) }
    ensures beside { L.beside log.old log.new }
    ensures cause { IsErrOf result Stop.Log → WriteHasFailed (L.shows log.old) (L.shows log.new) }
{
    every_book_is_sound(book);
    every_cost_table_is_sound(table);
    best_trees_are_true();
    let mut state = match BestState::new(alloc, book, table) {
        Ok(state) => state,
        Err(_) => return Err(Stop::Memory),
    };
    let Ok(()) = grow(alloc, book, table, limit, &mut state) else {
        return Err(Stop::Memory);
    };
    let target = state.best.target;
    let told = tell_tree(
        alloc,
        book,
        table,
        &state.net,
        &state.links,
        &state.slots,
        target,
        &mut state.marks,
        &mut state.tools.prices,
        log,
    );
    match told {
        Ok(low) => Ok(outcome_of(state.best, low, state.count)),
        Err(stop) => Err(stop),
    }
}
