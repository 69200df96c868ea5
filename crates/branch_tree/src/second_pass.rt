//! The second pass of a search: each place that is still open at the limit is priced once, under the duals of its parent and
//! without propagation, and told as a leaf. Bounds below the target are left, and the least of them bounds every plan.

ghost use Rattle.std.specs.Prelude.{◌≡◌, ◌++◌, [], ◌∷◌, List, IfOk, OnOk, OnErr, IsErrOf};
ghost use Rattle.branch_marks.specs.TreeLog.{IsLater, WriteHasFailed};
ghost use Rattle.branch_tree.specs.Closing.{IsLowest};
ghost use Rattle.node_leaves.specs.Node.{Node};
ghost use Rattle.node_leaves.specs.Stops.{StopsIn};
ghost use Rattle.node_leaves.specs.inside.Leaf.{AnswersLeaf};
ghost use Rattle.branch_tree.specs.inside.OpenPlaces.{place_here, places_behind, places_of};
ghost use Rattle.branch_tree.specs.inside.SearchParts.{AreClosed, ArePlaces, IsOneClosed, IsPlace, IsStateFor};

use crate::search_state::SearchState;
use crate::{PricedLeaf, Stop, bound_below, price_leaf};
use branch_marks::TreeLog;
use std::alloc::Global;
use tail_book::{Book, CostTable};

/// The least bound that is left below the target, with one leaf more.
pub fn lower(low: Option<u64>, priced: PricedLeaf, target: u64) -> Option<u64>
    ensures { (nodes : List Node) (node : Node) → IsLowest target nodes low → AnswersLeaf node.ending priced → IsLowest target (nodes ++ node ∷ []) result }
{
    let PricedLeaf::Bounded(sum) = priced else {
        return low;
    };
    let Some(units) = bound_below(sum, target) else {
        return low;
    };
    match low {
        None => Some(units),
        Some(least) => { if least <= units { low } else { Some(units) } }
    }
}

// Prices the open place that is here, and leaves it. The answer is the least bound that is left with it.
fn close_one<L: TreeLog>(
    alloc: Global,
    book: &Book,
    table: &CostTable,
    target: u64,
    low: Option<u64>,
    state: &mut SearchState,
    log: &mut L,
) -> Result<Option<u64>, Stop>
    requires state { IsStateFor table.now book.now state.old }
    requires place { IsPlace table.now book.now (place_here state.old.places) }
    ensures closed { IfOk result (λ least. IsOneClosed table.now book.now target (place_here state.old.places) low least (L.shows log.old) (L.shows log.new)) }
    ensures stopped { OnErr result (StopsIn (L.shows log.old) (L.shows log.new) table.now book.now (place_here state.old.places ∷ [])) }
    ensures left { OnOk result (places_of state.new.places ≡ places_behind state.old.places) }
    ensures state { IsStateFor table.now book.now state.new }
    ensures best { state.new.best ≡ state.old.best }
    ensures later { IsLater (L.shows log.old) (L.shows log.new) }
    ensures beside { L.beside log.old log.new }
    ensures cause { IsErrOf result Stop.Log → WriteHasFailed (L.shows log.old) (L.shows log.new) }
{
    let priced = match price_leaf(
        alloc,
        book,
        table,
        &state.net,
        &state.places.branches.marks,
        &state.places.duals,
        &mut state.tools.prices,
        log,
    ) {
        Ok(priced) => priced,
        Err(stop) => return Err(stop),
    };
    state.places.leave();
    Ok(lower(low, priced, target))
}

/// Prices the open places in order. The answer is the least bound that does not reach the target, if one is left.
pub fn close<L: TreeLog>(
    alloc: Global,
    book: &Book,
    table: &CostTable,
    target: u64,
    state: &mut SearchState,
    log: &mut L,
) -> Result<Option<u64>, Stop>
    requires state { IsStateFor table.now book.now state.old }
    requires places { ArePlaces table.now book.now (places_of state.old.places) }
    ensures closed { IfOk result (λ low. AreClosed table.now book.now target (places_of state.old.places) [] low (L.shows log.old) (L.shows log.new)) }
    ensures stopped { OnErr result (StopsIn (L.shows log.old) (L.shows log.new) table.now book.now (places_of state.old.places)) }
    ensures best { state.new.best ≡ state.old.best }
    ensures later { IsLater (L.shows log.old) (L.shows log.new) }
    ensures beside { L.beside log.old log.new }
    ensures cause { IsErrOf result Stop.Log → WriteHasFailed (L.shows log.old) (L.shows log.new) }
{
    let mut low = None;
    'nodes: loop {
        let Ok(found) = state.places.next(book) else {
            return Err(Stop::Memory);
        };
        if !found {
            return Ok(low);
        }
        match close_one(alloc, book, table, target, low, state, log) {
            Ok(least) => low = least,
            Err(stop) => return Err(stop),
        }
    }
}
