//! Duals and fees that are settled over all legal routes that fit: over the pool first, then priced exactly, until pricing finds no
//! route that the pool lacks. Then the node is split.
//!
//! Each turn adds a route to the pool, or it is the last: then the least weights are the pool's, so what is settled over it is
//! settled. A pool has no more than 2^32 routes.

ghost use Rattle.std.specs.Prelude.{◌≡◌, ◌<◌, ◌≤◌, IfOk, IfNone, IfSome, length};
ghost use Rattle.tail_book.specs.CostTable.{costs_of};
ghost use Rattle.connection_net.specs.Net.{net_of};
ghost use Rattle.branch_marks.specs.Settled.{AreDuals};
ghost use Rattle.branch_marks.specs.inside.MarkTables.{AreMarksOf};
ghost use Rattle.dive_heuristic.specs.Dive.{HasNoHole};
ghost use Rattle.restricted_master.specs.Pool.{HasRoutes};
ghost use Rattle.node_leaves.specs.Target.{IsBest};
ghost use Rattle.node_leaves.specs.inside.FittingPool.{IsFittingPool};
ghost use Rattle.quota_rows.specs.declared.quota.TheConstants.{QUOTA_LIMIT};
ghost use Rattle.quota_rows.specs.Fees.{AreFees};
ghost use Rattle.quota_split.specs.Ties.{HasNoneOver};
ghost use Rattle.fee_master.specs.SettledFees.{IsSettledOverPool, IsSettledWithFees};
ghost use Rattle.quota_node.specs.QuotaNode.{IsTrueQuotaStep, KeepsWherePlanned};
ghost use Rattle.quota_node.specs.inside.Tools.{AreQuotaToolsFor};
ghost use Rattle.quota_node.specs.inside.Turns.{LeavesRoom};

use crate::bounding::{Weighed, look, weigh};
use crate::choice::{Chosen, choose};
use crate::fee_prices::FeeRoutes;
use crate::{QuotaStep, QuotaTools};
use branch_marks::Marks;
use connection_net::Net;
use fee_master::laws::settled_over_pool_is_settled;
use fee_master::settle;
use node_leaves::{Best, add_routes};
use quota_rows::{Fees, Quota};
use restricted_master::Pool;
use std::alloc::Global;
use tail_book::laws::{every_book_is_sound, legal_routes_rise, own_costs_are_for_book};
use tail_book::{Book, CostTable, Duals, Memory};

// Sets all fees to 0.
fn free_of_fees(table: &CostTable, quotas: &[Quota], fees: &mut Fees)
    requires { AreFees table.now quotas.now fees.old.values }
    ensures { AreFees table.now quotas.now fees.new.values }
{
    fees.values.fill(0);
}

// Ends a node in which each connection of its least routes has a Tie and each activity a Must. Without fees their sum is what their plan
// costs, which the target is at most: so the node is bounded.
// That the sum then leaves room does not happen, since no other routes fit; it is not proved, so there is an answer for it.
fn end_forced(
    alloc: Global,
    book: &Book,
    table: &CostTable,
    net: &Net,
    quotas: &[Quota],
    marks: &Marks,
    duals: &Duals,
    fees: &mut Fees,
    target: u64,
    tools: &mut QuotaTools,
) -> Result<QuotaStep, Memory>
    requires table { table.now ≡ costs_of book.now }
    requires net { net.now ≡ net_of book.now }
    requires few { length quotas.now ≤ QUOTA_LIMIT }
    requires marks { AreMarksOf book.now marks.now }
    requires none_over { HasNoneOver book.now marks.now.facts quotas.now }
    requires duals { AreDuals table.now book.now duals.now.values }
    requires fees { AreFees table.now quotas.now fees.old.values }
    requires tools { AreQuotaToolsFor book.now tools.old }
    ensures end { IfOk result (IsTrueQuotaStep table.now book.now quotas.now marks.now.facts duals.now.values fees.new.values target) }
    ensures fees { AreFees table.now quotas.now fees.new.values }
    ensures tools { AreQuotaToolsFor book.now tools.new }
{
    free_of_fees(table, quotas, fees);
    let weighed = weigh(
        alloc, book, table, net, quotas, marks, duals, fees, target, tools,
    )?;
    match weighed {
        Weighed::Ended(step) => Ok(step),
        Weighed::Open(_) => Err(Memory),
    }
}

// Splits a node under settled duals and fees, or ends it by the plan that its least routes are.
fn split(
    alloc: Global,
    book: &Book,
    table: &CostTable,
    net: &Net,
    quotas: &[Quota],
    marks: &Marks,
    duals: &Duals,
    fees: &mut Fees,
    best: &mut Best,
    found: &FeeRoutes,
    tools: &mut QuotaTools,
) -> Result<QuotaStep, Memory>
    requires table { table.now ≡ costs_of book.now }
    requires net { net.now ≡ net_of book.now }
    requires few { length quotas.now ≤ QUOTA_LIMIT }
    requires marks { AreMarksOf book.now marks.now }
    requires none_over { HasNoneOver book.now marks.now.facts quotas.now }
    requires somebody { HasNoHole book.now marks.now.facts }
    requires settled { IsSettledWithFees table.now book.now quotas.now marks.now.facts duals.now.values fees.old.values }
    requires found { LeavesRoom table.now book.now quotas.now marks.now.facts duals.now.values fees.old.values best.old.target found.now }
    requires best { IsBest table.now book.now best.old.plan best.old.target }
    requires kept { KeepsWherePlanned book.now quotas.now best.old.plan }
    requires tools { AreQuotaToolsFor book.now tools.old }
    ensures end { IfOk result (IsTrueQuotaStep table.now book.now quotas.now marks.now.facts duals.now.values fees.new.values best.new.target) }
    ensures fees { AreFees table.now quotas.now fees.new.values }
    ensures best { IsBest table.now book.now best.new.plan best.new.target }
    ensures kept { KeepsWherePlanned book.now quotas.now best.new.plan }
    ensures falls { best.new.target ≤ best.old.target }
    ensures tools { AreQuotaToolsFor book.now tools.new }
{
    own_costs_are_for_book();
    let sum = found.sum;
    let tally = &mut tools.tally;
    let chosen = choose(
        alloc,
        book,
        table,
        quotas,
        marks,
        &found.routes,
        sum,
        best,
        tally,
    )?;
    match chosen {
        Chosen::Pair(pair) => Ok(QuotaStep::Split { pair, bound: sum }),
        Chosen::Bounded => Ok(QuotaStep::Bounded(sum)),
        Chosen::Nothing => {
            let target = best.target;
            end_forced(
                alloc, book, table, net, quotas, marks, duals, fees, target, tools,
            )
        }
    }
}

// Prices duals and fees that are settled over the pool: the node ends, or the pool grows.
fn turn(
    alloc: Global,
    book: &Book,
    table: &CostTable,
    net: &Net,
    quotas: &[Quota],
    marks: &Marks,
    pool: &mut Pool,
    duals: &Duals,
    fees: &mut Fees,
    best: &mut Best,
    tools: &mut QuotaTools,
) -> Result<Option<QuotaStep>, Memory>
    requires table { table.now ≡ costs_of book.now }
    requires net { net.now ≡ net_of book.now }
    requires few { length quotas.now ≤ QUOTA_LIMIT }
    requires marks { AreMarksOf book.now marks.now }
    requires none_over { HasNoneOver book.now marks.now.facts quotas.now }
    requires somebody { HasNoHole book.now marks.now.facts }
    requires settled { IsSettledOverPool table.now book.now quotas.now pool.old duals.now.values fees.old.values }
    requires pool { IsFittingPool table.now book.now marks.now.facts pool.old }
    requires best { IsBest table.now book.now best.old.plan best.old.target }
    requires kept { KeepsWherePlanned book.now quotas.now best.old.plan }
    requires tools { AreQuotaToolsFor book.now tools.old }
    ensures end { IfOk result (λ end. IfSome end (IsTrueQuotaStep table.now book.now quotas.now marks.now.facts
        duals.now.values fees.new.values best.new.target)) }
    ensures grows { IfOk result (λ end. IfNone end (length pool.old.entries < length pool.new.entries)) }
    ensures routes { IfOk result (λ end. IfNone end (HasRoutes book.now pool.new)) }
    ensures fees { AreFees table.now quotas.now fees.new.values }
    ensures pool { IsFittingPool table.now book.now marks.now.facts pool.new }
    ensures best { IsBest table.now book.now best.new.plan best.new.target }
    ensures kept { KeepsWherePlanned book.now quotas.now best.new.plan }
    ensures falls { best.new.target ≤ best.old.target }
    ensures tools { AreQuotaToolsFor book.now tools.new }
{
    every_book_is_sound(book);
    legal_routes_rise();
    own_costs_are_for_book();
    settled_over_pool_is_settled();
    let target = best.target;
    let weighed = weigh(
        alloc, book, table, net, quotas, marks, duals, fees, target, tools,
    )?;
    let found = match weighed {
        Weighed::Ended(step) => return Ok(Some(step)),
        Weighed::Open(found) => found,
    };
    if add_routes(book, table, pool, &found.routes)? {
        return Ok(None);
    }
    let step = split(
        alloc, book, table, net, quotas, marks, duals, fees, best, &found, tools,
    )?;
    Ok(Some(step))
}

/// Settles duals and fees over all legal routes that fit, until the node ends.
pub fn settle_node(
    alloc: Global,
    book: &Book,
    table: &CostTable,
    net: &Net,
    quotas: &[Quota],
    marks: &Marks,
    pool: &mut Pool,
    duals: &mut Duals,
    fees: &mut Fees,
    best: &mut Best,
    tools: &mut QuotaTools,
) -> Result<QuotaStep, Memory>
    requires table { table.now ≡ costs_of book.now }
    requires net { net.now ≡ net_of book.now }
    requires few { length quotas.now ≤ QUOTA_LIMIT }
    requires marks { AreMarksOf book.now marks.now }
    requires none_over { HasNoneOver book.now marks.now.facts quotas.now }
    requires somebody { HasNoHole book.now marks.now.facts }
    requires pool { IsFittingPool table.now book.now marks.now.facts pool.old }
    requires duals { AreDuals table.now book.now duals.old.values }
    requires fees { AreFees table.now quotas.now fees.old.values }
    requires best { IsBest table.now book.now best.old.plan best.old.target }
    requires kept { KeepsWherePlanned book.now quotas.now best.old.plan }
    requires tools { AreQuotaToolsFor book.now tools.old }
    ensures truth { IfOk result (IsTrueQuotaStep table.now book.now quotas.now marks.now.facts duals.new.values fees.new.values best.new.target) }
    ensures pool { IsFittingPool table.now book.now marks.now.facts pool.new }
    ensures duals { AreDuals table.now book.now duals.new.values }
    ensures fees { AreFees table.now quotas.now fees.new.values }
    ensures best { IsBest table.now book.now best.new.plan best.new.target }
    ensures kept { KeepsWherePlanned book.now quotas.now best.new.plan }
    ensures falls { best.new.target ≤ best.old.target }
    ensures tools { AreQuotaToolsFor book.now tools.new }
{
    let target = best.target;
    let end = look(
        alloc, book, table, net, quotas, marks, pool, duals, fees, target, tools,
    )?;
    if let Some(step) = end {
        return Ok(step);
    }
    loop {
        let _ = settle(alloc, pool, book, table, quotas, duals, fees)?;
        let end = turn(
            alloc, book, table, net, quotas, marks, pool, duals, fees, best, tools,
        )?;
        pool.is_small();
        if let Some(step) = end {
            return Ok(step);
        }
    }
}
