//! The first pass of a search: open places are visited, the first one first, until none is open or the limit is
//! reached.
//!
//! It ends without a limit as well, since a branch leaves less open than its parent did, and a visit puts two in its
//! place at most.

ghost use Rattle.std.specs.Prelude.{◌≡◌, ◌≤◌, ◌+◌, [], ◌∷◌, ℕ, true, false, IfOk, OnOk, OnErr, IsErrOf};
ghost use Rattle.tail_book.specs.CostTable.{IsTableFor};
ghost use Rattle.branch_marks.specs.TreeLog.{IsLater, WriteHasFailed};
ghost use Rattle.node_leaves.specs.Place.{root};
ghost use Rattle.node_leaves.specs.Stops.{StopsIn};
ghost use Rattle.node_leaves.specs.Target.{no_target};
ghost use Rattle.branch_tree.specs.inside.OpenPlaces.{places_of};
ghost use Rattle.branch_tree.specs.inside.SearchParts.{Allows, ArePlaces, Counts, HasStopped, IsGrownOut, IsStateFor};

use crate::search_state::SearchState;
use crate::visit::visit;
use crate::{Limit, Stop};
use branch_marks::TreeLog;
use branch_marks::laws::{branches_leave_fewer, facts_leave_no_more};
use node_leaves::laws::zeros_are_duals;
use std::alloc::Global;
use tail_book::{Book, CostTable};

// Whether the limit allows one node more.
fn allows(limit: Limit, counter: u64) -> bool
    ensures more { result ≡ true → Allows limit counter }
    ensures none { result ≡ false → HasStopped limit counter }
{
    match limit {
        Limit::Free => true,
        Limit::Nodes(most) => counter < most,
    }
}

// The counter after one node more. Without a limit it stays at its end once it is there.
fn count_one(limit: Limit, counter: u64) -> u64
    requires { Allows limit counter }
    ensures { (count : ℕ) → Counts limit counter count → Counts limit result (count + 1) }
{
    match limit {
        Limit::Free => counter.saturating_add(1),
        Limit::Nodes(_) => counter + 1,
    }
}

/// Visits open places from the root on. The answer is the counter.
pub fn grow<L: TreeLog>(
    alloc: Global,
    book: &Book,
    table: &CostTable,
    limit: Limit,
    state: &mut SearchState,
    log: &mut L,
) -> Result<u64, Stop>
    requires table { IsTableFor book.now table.now }
    requires state { IsStateFor table.now book.now state.old }
    requires root { places_of state.old.places ≡ root book.now ∷ [] }
    requires first { state.old.best.target ≤ no_target table.now }
    ensures grown { IfOk result (λ counter. IsGrownOut table.now book.now limit (places_of state.new.places) state.new.best.target counter
        (L.shows log.old) (L.shows log.new)) }
    ensures places { IfOk result (λ _. ArePlaces table.now book.now (places_of state.new.places)) }
    ensures stopped { OnErr result (StopsIn (L.shows log.old) (L.shows log.new) table.now book.now (root book.now ∷ [])) }
    ensures state { OnOk result (IsStateFor table.now book.now state.new) }
    ensures falls { state.new.best.target ≤ state.old.best.target }
    ensures later { IsLater (L.shows log.old) (L.shows log.new) }
    ensures beside { L.beside log.old log.new }
    ensures cause { IsErrOf result Stop.Log → WriteHasFailed (L.shows log.old) (L.shows log.new) }
{
    zeros_are_duals();
    facts_leave_no_more();
    branches_leave_fewer();
    let mut counter = 0u64;
    'nodes: while allows(limit, counter) {
        let Ok(found) = state.places.next(book) else {
            return Err(Stop::Memory);
        };
        if !found {
            return Ok(counter);
        }
        if let Err(stop) = visit(alloc, book, table, state, log) {
            return Err(stop);
        }
        counter = count_one(limit, counter);
    }
    Ok(counter)
}
