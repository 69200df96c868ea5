//! The bound of a node under duals and fees: all aircraft are priced, and the node may end by that.

ghost use Rattle.std.specs.Prelude.{◌≡◌, ◌≤◌, IfOk, IfNone, IfSome, length};
ghost use Rattle.tail_book.specs.CostTable.{costs_of};
ghost use Rattle.connection_net.specs.Net.{net_of};
ghost use Rattle.branch_marks.specs.Settled.{AreDuals};
ghost use Rattle.branch_marks.specs.inside.MarkTables.{AreMarksOf};
ghost use Rattle.restricted_master.specs.Pool.{HasRoutes};
ghost use Rattle.node_leaves.specs.inside.FittingPool.{IsFittingPool};
ghost use Rattle.quota_rows.specs.declared.quota.TheConstants.{QUOTA_LIMIT};
ghost use Rattle.quota_rows.specs.Fees.{AreFees};
ghost use Rattle.quota_split.specs.Ties.{HasNoneOver};
ghost use Rattle.quota_node.specs.QuotaNode.{IsTrueQuotaStep};
ghost use Rattle.quota_node.specs.inside.Tools.{AreQuotaToolsFor};
ghost use Rattle.quota_node.specs.inside.Turns.{IsWeighed};

use crate::fee_prices::{AllPriced, FeeRoutes, price_all};
use crate::{QuotaStep, QuotaTools};
use branch_marks::{Marks, passes};
use connection_net::Net;
use node_leaves::add_routes;
use quota_rows::{Fees, Quota};
use restricted_master::Pool;
use std::alloc::Global;
use tail_book::laws::{every_book_is_sound, legal_routes_rise, own_costs_are_for_book};
use tail_book::{Book, CostTable, Duals, Memory};

/// What a look at a node comes to.
#[derive(Debug, Drop)]
pub enum Weighed {
    /// The node ends so.
    Ended(QuotaStep),
    /// The sum leaves room below the target.
    Open(FeeRoutes),
}

/// Prices all aircraft.
pub fn weigh(
    alloc: Global,
    book: &Book,
    table: &CostTable,
    net: &Net,
    quotas: &[Quota],
    marks: &Marks,
    duals: &Duals,
    fees: &Fees,
    target: u64,
    tools: &mut QuotaTools,
) -> Result<Weighed, Memory>
    requires table { table.now ≡ costs_of book.now }
    requires net { net.now ≡ net_of book.now }
    requires few { length quotas.now ≤ QUOTA_LIMIT }
    requires marks { AreMarksOf book.now marks.now }
    requires none_over { HasNoneOver book.now marks.now.facts quotas.now }
    requires duals { AreDuals table.now book.now duals.now.values }
    requires fees { AreFees table.now quotas.now fees.now.values }
    requires tools { AreQuotaToolsFor book.now tools.old }
    ensures weighed { IfOk result (IsWeighed table.now book.now quotas.now marks.now.facts duals.now.values fees.now.values target) }
    ensures tools { AreQuotaToolsFor book.now tools.new }
{
    let priced = price_all(alloc, book, table, net, quotas, marks, duals, fees, tools)?;
    let found = match priced {
        AllPriced::Stuck(k) => return Ok(Weighed::Ended(QuotaStep::Stuck(k))),
        AllPriced::Open(found) => found,
    };
    if passes(found.sum, target) {
        return Ok(Weighed::Ended(QuotaStep::Bounded(found.sum)));
    }
    Ok(Weighed::Open(found))
}

/// Prices the node, and adds a route of each aircraft to the pool, if the node does not end by that.
pub fn look(
    alloc: Global,
    book: &Book,
    table: &CostTable,
    net: &Net,
    quotas: &[Quota],
    marks: &Marks,
    pool: &mut Pool,
    duals: &Duals,
    fees: &Fees,
    target: u64,
    tools: &mut QuotaTools,
) -> Result<Option<QuotaStep>, Memory>
    requires table { table.now ≡ costs_of book.now }
    requires net { net.now ≡ net_of book.now }
    requires few { length quotas.now ≤ QUOTA_LIMIT }
    requires marks { AreMarksOf book.now marks.now }
    requires none_over { HasNoneOver book.now marks.now.facts quotas.now }
    requires pool { IsFittingPool table.now book.now marks.now.facts pool.old }
    requires duals { AreDuals table.now book.now duals.now.values }
    requires fees { AreFees table.now quotas.now fees.now.values }
    requires tools { AreQuotaToolsFor book.now tools.old }
    ensures end { IfOk result (λ end. IfSome end (IsTrueQuotaStep table.now book.now quotas.now marks.now.facts
        duals.now.values fees.now.values target)) }
    ensures routes { IfOk result (λ end. IfNone end (HasRoutes book.now pool.new)) }
    ensures pool { IsFittingPool table.now book.now marks.now.facts pool.new }
    ensures tools { AreQuotaToolsFor book.now tools.new }
{
    every_book_is_sound(book);
    legal_routes_rise();
    own_costs_are_for_book();
    let weighed = weigh(
        alloc, book, table, net, quotas, marks, duals, fees, target, tools,
    )?;
    match weighed {
        Weighed::Ended(step) => Ok(Some(step)),
        Weighed::Open(found) => {
            let _ = add_routes(book, table, pool, &found.routes)?;
            Ok(None)
        }
    }
}
