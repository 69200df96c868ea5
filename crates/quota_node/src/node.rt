//! A node of a search under quotas.
//!
//! Its marks are shut, and the pool keeps the routes that still fit. It ends at once where a quota has more Ties than it may, or where
//! an activity is alive for nobody; otherwise duals and fees are settled until it ends.

ghost use Rattle.std.specs.Prelude.{◌≡◌, ◌≤◌, length, IfOk};
ghost use Rattle.tail_book.specs.CostTable.{costs_of};
ghost use Rattle.connection_net.specs.Net.{net_of};
ghost use Rattle.branch_marks.specs.Following.{IsFollowed};
ghost use Rattle.branch_marks.specs.Settled.{AreDuals};
ghost use Rattle.branch_marks.specs.inside.MarkTables.{AreMarksOf};
ghost use Rattle.node_leaves.specs.Target.{IsBest};
ghost use Rattle.node_leaves.specs.inside.FittingPool.{IsLegalPool};
ghost use Rattle.quota_rows.specs.declared.quota.TheConstants.{QUOTA_LIMIT};
ghost use Rattle.quota_rows.specs.Fees.{AreFees};
ghost use Rattle.quota_node.specs.QuotaNode.{IsTrueQuotaStep, KeepsWherePlanned};
ghost use Rattle.quota_node.specs.inside.Tools.{AreQuotaToolsFor};

use crate::raising::raise;
use crate::settled::settle_node;
use crate::shutting::shut;
use crate::{QuotaStep, QuotaTools};
use branch_marks::Marks;
use connection_net::Net;
use node_leaves::{Best, keep_fitting};
use propagator::Closed;
use quota_rows::{Fees, Quota};
use quota_split::first_over;
use restricted_master::Pool;
use std::alloc::Global;
use tail_book::{Book, CostTable, Duals, Memory};

/// A step on a node of a search under quotas, with tools and a pool that are kept from node to node.
pub fn quota_node_with(
    alloc: Global,
    book: &Book,
    table: &CostTable,
    net: &Net,
    quotas: &[Quota],
    marks: &mut Marks,
    pool: &mut Pool,
    duals: &mut Duals,
    fees: &mut Fees,
    best: &mut Best,
    tools: &mut QuotaTools,
) -> Result<QuotaStep, Memory>
    requires table { table.now ≡ costs_of book.now }
    requires net { net.now ≡ net_of book.now }
    requires few { length quotas.now ≤ QUOTA_LIMIT }
    requires marks { AreMarksOf book.now marks.old }
    requires pool { IsLegalPool table.now book.now pool.old }
    requires duals { AreDuals table.now book.now duals.old.values }
    requires fees { AreFees table.now quotas.now fees.old.values }
    requires best { IsBest table.now book.now best.old.plan best.old.target }
    requires tools { AreQuotaToolsFor book.now tools.old }
    requires kept { KeepsWherePlanned book.now quotas.now best.old.plan }
    ensures truth { IfOk result (IsTrueQuotaStep table.now book.now quotas.now marks.new.facts duals.new.values fees.new.values best.new.target) }
    ensures followed { IsFollowed book.now marks.old.facts marks.new.facts }
    ensures marks { AreMarksOf book.now marks.new }
    ensures pool { IsLegalPool table.now book.now pool.new }
    ensures duals { AreDuals table.now book.now duals.new.values }
    ensures fees { AreFees table.now quotas.now fees.new.values }
    ensures best { IsBest table.now book.now best.new.plan best.new.target }
    ensures kept { KeepsWherePlanned book.now quotas.now best.new.plan }
    ensures tools { AreQuotaToolsFor book.now tools.new }
    ensures falls { best.new.target ≤ best.old.target }
{
    let closed = shut(alloc, book, net, marks, tools)?;
    keep_fitting(book, marks, pool);
    if let Some(q) = first_over(book, quotas, marks) {
        return Ok(QuotaStep::Over(q));
    }
    if let Closed::Hole(a) = closed {
        return Ok(QuotaStep::Hole(a));
    }
    let target = best.target;
    let _ = raise(
        alloc, book, table, net, quotas, marks, pool, duals, fees, target, tools,
    )?;
    settle_node(
        alloc, book, table, net, quotas, marks, pool, duals, fees, best, tools,
    )
}

/// A step on a node of a search under quotas, with tools and a pool of its own.
pub fn quota_node(
    alloc: Global,
    book: &Book,
    table: &CostTable,
    net: &Net,
    quotas: &[Quota],
    marks: &mut Marks,
    duals: &mut Duals,
    fees: &mut Fees,
    best: &mut Best,
) -> Result<QuotaStep, Memory>
    requires table { table.now ≡ costs_of book.now }
    requires net { net.now ≡ net_of book.now }
    requires few { length quotas.now ≤ QUOTA_LIMIT }
    requires marks { AreMarksOf book.now marks.old }
    requires duals { AreDuals table.now book.now duals.old.values }
    requires fees { AreFees table.now quotas.now fees.old.values }
    requires best { IsBest table.now book.now best.old.plan best.old.target }
    requires kept { KeepsWherePlanned book.now quotas.now best.old.plan }
    ensures truth { IfOk result (IsTrueQuotaStep table.now book.now quotas.now marks.new.facts duals.new.values fees.new.values best.new.target) }
    ensures followed { IsFollowed book.now marks.old.facts marks.new.facts }
    ensures marks { AreMarksOf book.now marks.new }
    ensures duals { AreDuals table.now book.now duals.new.values }
    ensures fees { AreFees table.now quotas.now fees.new.values }
    ensures best { IsBest table.now book.now best.new.plan best.new.target }
    ensures kept { KeepsWherePlanned book.now quotas.now best.new.plan }
    ensures falls { best.new.target ≤ best.old.target }
{
    let mut tools = QuotaTools::new(alloc, book)?;
    let mut pool = Pool::new(alloc)?;
    quota_node_with(
        alloc, book, table, net, quotas, marks, &mut pool, duals, fees, best, &mut tools,
    )
}
