//! A visit, one turn of a search: a step on an open place, whose branches come before all other places. So the search is depth
//! first, and beside the place that is taken at most one is open for each split above it.

ghost use Rattle.std.specs.Prelude.{◌≡◌, ◌≤◌, ◌++◌, [], ◌∷◌, ℕ, true, OnOk, OnErr, IsErrOf};
ghost use Rattle.tail_book.specs.CostTable.{IsTableFor};
ghost use Rattle.branch_marks.specs.TreeLog.{IsLater, WriteHasFailed};
ghost use Rattle.node_leaves.specs.Node.{Ending, branches};
ghost use Rattle.branch_tree.specs.Step.{AnswersNode, IsTrueStep};
ghost use Rattle.node_leaves.specs.Stops.{StopsIn};
ghost use Rattle.branch_tree.specs.inside.OpenPlaces.{AreOpenPlaces, place_here, places_behind, places_of};
ghost use Rattle.branch_tree.specs.inside.SearchParts.{IsPlace, IsStateFor, IsVisited};

use crate::search_state::SearchState;
use crate::{OpenPlaces, Step, Stop, node_step_with};
use branch_marks::TreeLog;
use std::alloc::Global;
use tail_book::{Book, CostTable, Memory};

// Goes on from the node of a step: to the first branch where it was split, and else to the places behind it.
fn go_on(
    alloc: Global,
    book: &Book,
    table: &CostTable,
    target: u64,
    step: &Step,
    places: &mut OpenPlaces,
) -> Result<(), Memory>
    requires open_places { AreOpenPlaces book.now places.old }
    requires owes { places.old.branches.owes ≡ true }
    requires truth { IsTrueStep table.now book.now places.old.branches.marks.facts places.old.duals.values target step.now }
    ensures places { OnOk result ((ending : Ending) → AnswersNode places.old.duals.values ending step.now
        → places_of places.new ≡ branches places.old.branches.marks.facts ending ++ places_behind places.old) }
    ensures open_places { OnOk result (AreOpenPlaces book.now places.new) }
{
    match step {
        Step::Split { pair, .. } => places.split(alloc, book, *pair),
        Step::Hole(_) | Step::Stuck(_) | Step::Bounded(_) => {
            places.leave();
            Ok(())
        }
    }
}

/// Visits the open place that is here.
// Whatever the propagator found for the marks of another place is wrong here, so it is forgotten.
pub fn visit<L: TreeLog>(
    alloc: Global,
    book: &Book,
    table: &CostTable,
    state: &mut SearchState,
    log: &mut L,
) -> Result<(), Stop>
    requires table { IsTableFor book.now table.now }
    requires state { IsStateFor table.now book.now state.old }
    requires owes { state.old.places.branches.owes ≡ true }
    requires place { IsPlace table.now book.now (place_here state.old.places) }
    ensures visited { OnOk result (IsVisited table.now book.now (place_here state.old.places) (places_behind state.old.places) (places_of state.new.places)
        state.new.best.target (L.shows log.old) (L.shows log.new)) }
    ensures stopped { OnErr result (StopsIn (L.shows log.old) (L.shows log.new) table.now book.now (place_here state.old.places ∷ [])) }
    ensures state { OnOk result (IsStateFor table.now book.now state.new) }
    ensures falls { state.new.best.target ≤ state.old.best.target }
    ensures later { IsLater (L.shows log.old) (L.shows log.new) }
    ensures beside { L.beside log.old log.new }
    ensures cause { IsErrOf result Stop.Log → WriteHasFailed (L.shows log.old) (L.shows log.new) }
{
    state.tools.diver.forget();
    let step = match node_step_with(
        alloc,
        book,
        table,
        &state.net,
        &mut state.places.branches.marks,
        &mut state.pool,
        &mut state.places.duals,
        &mut state.best,
        &mut state.tools,
        log,
    ) {
        Ok(step) => step,
        Err(stop) => return Err(stop),
    };
    let target = state.best.target;
    match go_on(alloc, book, table, target, &step, &mut state.places) {
        Ok(()) => Ok(()),
        Err(_) => Err(Stop::Memory),
    }
}
