//! The bound of a node under duals: all aircraft are priced, and the node may end by that.
//!
//! Where the least routes fly each activity once they are a plan that costs the Lagrangian sum. It lowers the target, and the
//! bound reaches that: so no case of its own is needed.

ghost use Rattle.std.specs.Prelude.{◌≤◌, IfOk};
ghost use Rattle.branch_marks.specs.Settled.{AreDuals};
ghost use Rattle.node_leaves.specs.Target.{IsBest};
ghost use Rattle.node_leaves.specs.inside.Leaf.{IsReady};
ghost use Rattle.branch_tree.specs.inside.NodeBound.{EndsInLeaf, IsWeighedNode};

use crate::step::NodeEnd;
use crate::{Best, NodePricer, PricedAll};
use branch_marks::{Marks, passes};
use connection_net::Net;
use node_leaves::{cuts_of, lagrangian_of};
use restricted_master::Pool;
use std::alloc::Global;
use tail_book::laws::every_book_is_sound;
use tail_book::{Book, CostTable, Duals, Memory, Route};

/// What a look at a node comes to.
#[derive(Debug, Drop)]
pub enum Weighed {
    /// The node ends so.
    Ended(NodeEnd),
    /// The Lagrangian sum leaves room below the target.
    Open(LeastRoutes),
}

/// The least weight of each aircraft, a route that has it, and the Lagrangian sum, in thousandths of a cost unit.
#[derive(Debug, Drop)]
pub struct LeastRoutes {
    pub values: Vec<i64>,
    pub routes: Vec<Route>,
    pub sum: i128,
}

/// Prices all aircraft, within what the pool's routes weigh where it has some, and by a slack further for suggestions. The target
/// falls where their routes are a cheaper plan.
pub fn weigh(
    alloc: Global,
    book: &Book,
    table: &CostTable,
    net: &Net,
    marks: &Marks,
    pool: &Pool,
    duals: &Duals,
    best: &mut Best,
    prices: &mut NodePricer,
    slack: u32,
) -> Result<Weighed, Memory>
    requires ready { IsReady table.now book.now net.now marks.now prices.old }
    requires duals { AreDuals table.now book.now duals.now.values }
    requires best { IsBest table.now book.now best.old.plan best.old.target }
    ensures weighed { IfOk result (IsWeighedNode table.now book.now marks.now.facts duals.now.values best.new.target) }
    ensures leaf { IfOk result EndsInLeaf }
    ensures ready { IsReady table.now book.now net.now marks.now prices.new }
    ensures best { IsBest table.now book.now best.new.plan best.new.target }
    ensures falls { best.new.target ≤ best.old.target }
{
    every_book_is_sound(book);
    let cuts = cuts_of(alloc, book, pool, duals)?;
    let priced = prices.price_all(alloc, book, table, net, marks, duals, &cuts, slack)?;
    let (values, routes) = match priced {
        PricedAll::Stuck(k) => return Ok(Weighed::Ended(NodeEnd::Stuck(k))),
        PricedAll::Least { values, routes } => (values, routes),
    };
    best.try_routes(alloc, book, table, &routes)?;
    let sum = lagrangian_of(duals, &values);
    if passes(sum, best.target) {
        return Ok(Weighed::Ended(NodeEnd::Bounded(values)));
    }
    Ok(Weighed::Open(LeastRoutes {
        values,
        routes,
        sum,
    }))
}
