//! What a search by least bound keeps between two nodes. All of it is made once for a book.

ghost use Rattle.std.specs.Prelude.{◌≡◌, ◌∷◌, [], None, false, pos, IfOk};
ghost use Rattle.tail_book.specs.CostTable.{IsTableFor};
ghost use Rattle.branch_marks.specs.ProofTree.{zero_duals};
ghost use Rattle.node_leaves.specs.Target.{no_target};
ghost use Rattle.best_first.specs.inside.BestParts.{HasSlots, IsBestState, IsNext};

use crate::Rank;
use crate::links::Link;
use crate::slots::Slot;
use branch_marks::Marks;
use branch_tree::{Best, NodeTools};
use connection_net::Net;
use node_leaves::SearchRoutes;
use node_leaves::laws::zeros_are_duals;
use std::alloc::Global;
use tail_book::{Book, CostTable, Duals, Memory};

/// The network; the marks of the last node; the facts and the slots of the tree, and how many nodes were counted; the routes that were
/// found, the best plan so far, and the tools of a step.
#[derive(Drop)]
pub struct BestState {
    pub net: Net,
    pub marks: Marks,
    pub links: Vec<Link>,
    pub slots: Vec<Slot>,
    pub count: usize,
    pub routes: SearchRoutes,
    pub best: Best,
    pub tools: NodeTools,
}

// The slot of the root, under duals that are all 0.
fn root_slot(alloc: Global, book: &Book) -> Result<Slot, Memory>
    ensures { IfOk result (λ slot. slot ≡ record {
      rank = record { bound = pos 0; since = 0; second = false };
      end = 0;
      duals = record { values = zero_duals book.now };
      kept = None;
    }) }
{
    let values = vec![in alloc; 0i64; book.activities.len()]?;
    Ok(Slot {
        rank: Rank {
            bound: 0,
            since: 0,
            second: false,
        },
        end: 0,
        duals: Duals { values },
        kept: None,
    })
}

// The root alone.
fn root_alone(alloc: Global, book: &Book) -> Result<Vec<Slot>, Memory>
    ensures { IfOk result (λ slots. slots.items ≡ record {
      rank = record { bound = pos 0; since = 0; second = false };
      end = 0;
      duals = record { values = zero_duals book.now };
      kept = None;
    } ∷ []) }
{
    let mut slots = Vec::new(alloc);
    slots.push(root_slot(alloc, book)?)?;
    Ok(slots)
}

impl BestState {
    /// A search that has not begun: the root alone is open, and there is no plan.
    pub fn new(alloc: Global, book: &Book, table: &CostTable) -> Result<BestState, Memory>
        requires table { IsTableFor book.now table.now }
        ensures state { IfOk result (IsBestState table.now book.now) }
        ensures slots { IfOk result (HasSlots table.now book.now) }
        ensures next { IfOk result (λ state. IsNext state.slots.items 0 state.best.target 0) }
        ensures none { IfOk result (λ state. state.count ≡ 0) }
        ensures first { IfOk result (λ state. state.best.target ≡ no_target table.now) }
    {
        zeros_are_duals();
        let net = Net::new(alloc, book)?;
        let marks = Marks::new(alloc, book)?;
        let links = Vec::new(alloc);
        let slots = root_alone(alloc, book)?;
        let routes = SearchRoutes::new(alloc)?;
        let best = Best::none(table);
        let mut tools = NodeTools::new(alloc, book, table)?;
        tools.raises = true;
        Ok(BestState {
            net,
            marks,
            links,
            slots,
            count: 0,
            routes,
            best,
            tools,
        })
    }
}
