//! The search of a book in either order. Both leave a proof tree, and tell its nodes depth first.

ghost use Rattle.std.specs.Prelude.{◌≡◌, [], ◌∷◌, IfOk, OnErr, IsErrOf};
ghost use Rattle.tail_book.specs.CostTable.{IsTableFor};
ghost use Rattle.tail_book.specs.Truth.{IsTrueOutcomeIn};
ghost use Rattle.branch_marks.specs.TreeLog.{IsLater, WriteHasFailed};
ghost use Rattle.node_leaves.specs.Place.{root};
ghost use Rattle.node_leaves.specs.Stops.{StopsIn};
ghost use Rattle.branch_tree.specs.Search.{EndsUnder};
ghost use Rattle.certified_search.specs.OrderedTree.{IsSearchedIn};

use crate::order::Order;
use best_first::search_best;
use branch_marks::TreeLog;
use branch_tree::{Limit, Stop, search};
use std::alloc::Global;
use tail_book::{Book, CostTable, Outcome};

/// Searches a book in this order, and notes each node of its tree.
pub fn search_in_order<L: TreeLog>(
    alloc: Global,
    book: &Book,
    table: &CostTable,
    limit: Limit,
    order: Order,
    log: &mut L,
) -> Result<Outcome, Stop>
    requires table { IsTableFor book.now table.now }
    ensures truth { IfOk result (IsTrueOutcomeIn table.now book.now) }
    ensures tree { IfOk result (IsSearchedIn order table.now book.now limit (L.shows log.old) (L.shows log.new)) }
    ensures ends { IfOk result (EndsUnder limit) }
    ensures stopped { OnErr result (StopsIn (L.shows log.old) (L.shows log.new) table.now book.now (root book.now ∷ [])) }
    ensures later { IsLater (L.shows log.old) (L.shows log.new) }
    ensures beside { L.beside log.old log.new }
    ensures cause { IsErrOf result Stop.Log → WriteHasFailed (L.shows log.old) (L.shows log.new) }
{
    match order {
        Order::DepthFirst => search(alloc, book, table, limit, log),
        Order::LeastBound => search_best(alloc, book, table, limit, log),
    }
}
