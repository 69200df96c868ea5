//! Duals that are settled over all legal routes that fit: over the pool first, then priced exactly, until pricing finds no route
//! that the pool lacks.
//!
//! Each turn adds a route to the pool, or it is the last: then the least weights are the pool's, so what is settled over it is
//! settled. A pool has no more than 2^32 routes.
//!
//! At each turn the sum over the pool is at least that of the duals with which the step began, which are those of its place. So a
//! split bounds no lower than its place did.

ghost use Rattle.std.specs.Prelude.{◌≡◌, ◌<◌, ◌≤◌, ◌≤ℤ◌, ℤ, List, length, IfOk, IfNone, IfSome};
ghost use Rattle.tail_book.specs.CostTable.{IsTableFor};
ghost use Rattle.tail_book.specs.Lookup.{aircraft};
ghost use Rattle.branch_marks.specs.Pool.{sum_in, values_in};
ghost use Rattle.branch_marks.specs.Settled.{AreDuals, IsSettledOver};
ghost use Rattle.dive_heuristic.specs.Dive.{HasNoHole};
ghost use Rattle.dive_heuristic.specs.Divers.{IsDiverOf};
ghost use Rattle.restricted_master.specs.Pool.{HasRoutes, IsPoolFor};
ghost use Rattle.node_leaves.specs.Target.{IsBest};
ghost use Rattle.node_leaves.specs.inside.Leaf.{IsReady};
ghost use Rattle.branch_tree.specs.inside.StepParts.{AreToolsFor, EndRisesFrom, IsEndFound, IsLeaf};
ghost use Rattle.node_leaves.specs.inside.FittingPool.{IsFittingPool};

use crate::node_bound::{Weighed, weigh};
use crate::split::split;
use crate::step::NodeEnd;
use crate::{Best, NodePricer, NodeTools};
use branch_marks::Marks;
use branch_marks::laws::{least_in_is_least, settled_over_pool_is_settled};
use connection_net::Net;
use node_leaves::{add_routes, lagrangian_of};
use restricted_master::{Pool, settle};
use std::alloc::Global;
use tail_book::laws::{every_book_is_sound, legal_routes_rise};
use tail_book::{Book, CostTable, Duals, Memory};

// The least weights of all aircraft in the pool.
fn least_values(
    alloc: Global,
    book: &Book,
    table: &CostTable,
    pool: &Pool,
    duals: &Duals,
) -> Result<Vec<i64>, Memory>
    requires table { IsTableFor book.now table.now }
    requires pool { IsPoolFor table.now book.now pool.now }
    requires duals { AreDuals table.now book.now duals.now.values }
    ensures values { IfOk result (λ values. values.items ≡ values_in table.now book.now duals.now.values pool.now.entries) }
    ensures one_each { IfOk result (λ values. length values.items ≡ aircraft book.now) }
{
    every_book_is_sound(book);
    let mut values = Vec::with_capacity(alloc, book.tails.len())?;
    for k in 0..book.tails.len() {
        values.push(pool.least(book, table, duals, k as u32).unwrap_or(0))?;
    }
    Ok(values)
}

// The Lagrangian sum of duals over the pool, in thousandths of a cost unit.
fn sum_over(
    alloc: Global,
    book: &Book,
    table: &CostTable,
    pool: &Pool,
    duals: &Duals,
) -> Result<i128, Memory>
    requires table { IsTableFor book.now table.now }
    requires pool { IsPoolFor table.now book.now pool.now }
    requires duals { AreDuals table.now book.now duals.now.values }
    ensures { IfOk result (λ sum. sum ≡ sum_in table.now book.now duals.now.values pool.now.entries) }
{
    every_book_is_sound(book);
    let values = least_values(alloc, book, table, pool, duals)?;
    Ok(lagrangian_of(duals, &values))
}

// Settles duals over the pool: from where they are, or, where that comes to less than the duals of the place do, from these.
fn settle_above(
    alloc: Global,
    book: &Book,
    table: &CostTable,
    pool: &Pool,
    from: &Duals,
    duals: &mut Duals,
) -> Result<(), Memory>
    requires table { IsTableFor book.now table.now }
    requires pool { IsPoolFor table.now book.now pool.now }
    requires routes { HasRoutes book.now pool.now }
    requires from { AreDuals table.now book.now from.now.values }
    requires duals { AreDuals table.now book.now duals.old.values }
    ensures settled { IfOk result (λ _. IsSettledOver table.now book.now pool.now.entries duals.new.values) }
    ensures rises { IfOk result (λ _. sum_in table.now book.now from.now.values pool.now.entries
        ≤ℤ sum_in table.now book.now duals.new.values pool.now.entries) }
    ensures duals { AreDuals table.now book.now duals.new.values }
{
    let sum = settle(alloc, pool, book, table, duals)?;
    let begun = sum_over(alloc, book, table, pool, from)?;
    if sum < begun {
        duals.values = from.values.clone()?;
        let _ = settle(alloc, pool, book, table, duals)?;
    }
    Ok(())
}

// Prices the node, and adds a route of each aircraft to the pool, if the node does not end by that.
fn begin(
    alloc: Global,
    book: &Book,
    table: &CostTable,
    net: &Net,
    marks: &Marks,
    pool: &mut Pool,
    duals: &Duals,
    best: &mut Best,
    prices: &mut NodePricer,
) -> Result<Option<NodeEnd>, Memory>
    requires ready { IsReady table.now book.now net.now marks.now prices.old }
    requires duals { AreDuals table.now book.now duals.now.values }
    requires pool { IsFittingPool table.now book.now marks.now.facts pool.old }
    requires best { IsBest table.now book.now best.old.plan best.old.target }
    ensures end { IfOk result (λ end. IfSome end (IsEndFound table.now book.now marks.now.facts duals.now.values best.new.target)) }
    ensures leaf { IfOk result (λ end. IfSome end IsLeaf) }
    ensures routes { IfOk result (λ end. IfNone end (HasRoutes book.now pool.new)) }
    ensures ready { IsReady table.now book.now net.now marks.now prices.new }
    ensures pool { IsFittingPool table.now book.now marks.now.facts pool.new }
    ensures best { IsBest table.now book.now best.new.plan best.new.target }
    ensures falls { best.new.target ≤ best.old.target }
{
    every_book_is_sound(book);
    legal_routes_rise();
    match weigh(alloc, book, table, net, marks, pool, duals, best, prices, 0)? {
        Weighed::Ended(end) => Ok(Some(end)),
        Weighed::Open(found) => {
            let _ = add_routes(book, table, pool, &found.routes)?;
            Ok(None)
        }
    }
}

// Prices duals that are settled over the pool: the node ends, or the pool grows.
fn turn(
    alloc: Global,
    book: &Book,
    table: &CostTable,
    net: &Net,
    marks: &Marks,
    pool: &mut Pool,
    duals: &Duals,
    best: &mut Best,
    tools: &mut NodeTools,
) -> Result<Option<NodeEnd>, Memory>
    requires tools { AreToolsFor table.now book.now net.now marks.now tools.old }
    requires somebody { HasNoHole book.now marks.now.facts }
    requires settled { IsSettledOver table.now book.now pool.old.entries duals.now.values }
    requires pool { IsFittingPool table.now book.now marks.now.facts pool.old }
    requires best { IsBest table.now book.now best.old.plan best.old.target }
    ensures end { IfOk result (λ end. IfSome end (IsEndFound table.now book.now marks.now.facts duals.now.values best.new.target)) }
    ensures rises { (from : List ℤ) → sum_in table.now book.now from pool.old.entries ≤ℤ sum_in table.now book.now duals.now.values pool.old.entries
        → IfOk result (λ end. IfSome end (EndRisesFrom table.now book.now marks.now.facts from)) }
    ensures grows { IfOk result (λ end. IfNone end (length pool.old.entries < length pool.new.entries)) }
    ensures routes { IfOk result (λ end. IfNone end (HasRoutes book.now pool.new)) }
    ensures tools { IfOk result (λ end. IfNone end (AreToolsFor table.now book.now net.now marks.now tools.new)) }
    ensures ready { IsReady table.now book.now net.now marks.now tools.new.prices }
    ensures diver { IsDiverOf book.now table.now tools.new.diver }
    ensures pool { IsFittingPool table.now book.now marks.now.facts pool.new }
    ensures best { IsBest table.now book.now best.new.plan best.new.target }
    ensures falls { best.new.target ≤ best.old.target }
{
    every_book_is_sound(book);
    legal_routes_rise();
    least_in_is_least();
    settled_over_pool_is_settled();
    match weigh(
        alloc,
        book,
        table,
        net,
        marks,
        pool,
        duals,
        best,
        &mut tools.prices,
        0,
    )? {
        Weighed::Ended(end) => Ok(Some(end)),
        Weighed::Open(found) => {
            if add_routes(book, table, pool, &found.routes)? {
                return Ok(None);
            }
            let end = split(
                alloc,
                book,
                table,
                net,
                marks,
                duals,
                best,
                found,
                &mut tools.diver,
            )?;
            Ok(Some(end))
        }
    }
}

/// Settles duals over all legal routes that fit, until the node ends. The duals of its place are those with which its step began.
pub fn settle_node(
    alloc: Global,
    book: &Book,
    table: &CostTable,
    net: &Net,
    marks: &Marks,
    pool: &mut Pool,
    from: &Duals,
    duals: &mut Duals,
    best: &mut Best,
    tools: &mut NodeTools,
) -> Result<NodeEnd, Memory>
    requires tools { AreToolsFor table.now book.now net.now marks.now tools.old }
    requires somebody { HasNoHole book.now marks.now.facts }
    requires from { AreDuals table.now book.now from.now.values }
    requires duals { AreDuals table.now book.now duals.old.values }
    requires pool { IsFittingPool table.now book.now marks.now.facts pool.old }
    requires best { IsBest table.now book.now best.old.plan best.old.target }
    ensures end { IfOk result (IsEndFound table.now book.now marks.now.facts duals.new.values best.new.target) }
    ensures rises { IfOk result (EndRisesFrom table.now book.now marks.now.facts from.now.values) }
    ensures ready { IsReady table.now book.now net.now marks.now tools.new.prices }
    ensures diver { IsDiverOf book.now table.now tools.new.diver }
    ensures duals { AreDuals table.now book.now duals.new.values }
    ensures pool { IsFittingPool table.now book.now marks.now.facts pool.new }
    ensures best { IsBest table.now book.now best.new.plan best.new.target }
    ensures falls { best.new.target ≤ best.old.target }
{
    let begun = begin(
        alloc,
        book,
        table,
        net,
        marks,
        pool,
        duals,
        best,
        &mut tools.prices,
    )?;
    if let Some(end) = begun {
        return Ok(end);
    }
    loop {
        settle_above(alloc, book, table, pool, from, duals)?;
        let end = turn(alloc, book, table, net, marks, pool, duals, best, tools)?;
        pool.is_small();
        if let Some(end) = end {
            return Ok(end);
        }
    }
}
