//! The tools of a step on a node. They are made once for a book and kept from node to node. What the diver's propagator found
//! holds for the marks of one place, so it is forgotten before the next.

ghost use Rattle.std.specs.Prelude.{IfOk};
ghost use Rattle.tail_book.specs.CostTable.{IsTableFor};
ghost use Rattle.dive_heuristic.specs.Divers.{IsFreeFor};
ghost use Rattle.node_leaves.specs.inside.Leaf.{IsNodePricerOf};

use crate::{NodePricer, WarmStart};
use dive_heuristic::Diver;
use std::alloc::Global;
use tail_book::{Book, CostTable, Memory};

/// A pricer for the rounds of a node and for what is told of it, and a diver, whose propagator shuts its marks; and how its rounds
/// begin and end.
#[derive(Drop)]
pub struct NodeTools {
    pub prices: NodePricer,
    pub diver: Diver,
    /// What the root begins with in place of first duals.
    pub warm: Option<WarmStart>,
    /// Whether ascents below the root go further from the duals of their place, so that bounds rise.
    pub raises: bool,
}

impl NodeTools {
    /// Tools for a book and a table of its costs, from whatever marks.
    pub fn new(alloc: Global, book: &Book, table: &CostTable) -> Result<NodeTools, Memory>
        requires { IsTableFor book.now table.now }
        ensures prices { IfOk result (λ tools. IsNodePricerOf table.now book.now tools.prices) }
        ensures diver { IfOk result (λ tools. IsFreeFor book.now table.now tools.diver) }
    {
        let prices = NodePricer::new(alloc, book, table)?;
        let diver = Diver::new(alloc, book, table)?;
        Ok(NodeTools {
            prices,
            diver,
            warm: None,
            raises: false,
        })
    }
}
