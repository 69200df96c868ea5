//! What a search keeps between two nodes. All of it is made once for a book.
//! The pool and the best plan carry what one node found over to those behind it.

ghost use Rattle.std.specs.Prelude.{◌≡◌, ◌≤◌, [], ◌∷◌, IfOk, IfSome};
ghost use Rattle.tail_book.specs.Plan.{IsLegalPlan};
ghost use Rattle.tail_book.specs.CostTable.{IsTableFor, plan_cost_in};
ghost use Rattle.node_leaves.specs.Place.{root};
ghost use Rattle.node_leaves.specs.Target.{no_target};
ghost use Rattle.branch_tree.specs.inside.OpenPlaces.{places_of};
ghost use Rattle.branch_tree.specs.inside.SearchParts.{IsStateFor};

use crate::warm_start::fitting;
use crate::{Best, NodeTools, OpenPlaces, WarmStart};
use connection_net::Net;
use restricted_master::Pool;
use std::alloc::Global;
use tail_book::{Book, CostTable, Memory, Plan};

/// The network, the open places, the routes that were found, the best plan so far, and the tools of a step.
#[derive(Drop)]
pub struct SearchState {
    pub net: Net,
    pub places: OpenPlaces,
    pub pool: Pool,
    pub best: Best,
    pub tools: NodeTools,
}

impl SearchState {
    /// A search that has not begun: the root alone is open, and there is no plan but the start. A warm start is for the root.
    pub fn new(
        alloc: Global,
        book: &Book,
        table: &CostTable,
        start: Option<&Plan>,
        warm: Option<WarmStart>,
    ) -> Result<SearchState, Memory>
        requires table { IsTableFor book.now table.now }
        requires legal { IfSome start (λ plan. IsLegalPlan book.now plan.now) }
        ensures state { IfOk result (IsStateFor table.now book.now) }
        ensures root { IfOk result (λ state. places_of state.places ≡ root book.now ∷ []) }
        ensures first { IfOk result (λ state. state.best.target ≤ no_target table.now) }
        ensures within { IfOk result (λ state. IfSome start.entry (λ plan. state.best.target ≤ plan_cost_in table.now book.now plan.now)) }
    {
        let mut tools = NodeTools::new(alloc, book, table)?;
        tools.warm = fitting(book, warm);
        Ok(SearchState {
            net: Net::new(alloc, book)?,
            places: OpenPlaces::with_root(alloc, book)?,
            pool: Pool::new(alloc)?,
            best: Best::from_start(alloc, book, table, start)?,
            tools,
        })
    }
}
