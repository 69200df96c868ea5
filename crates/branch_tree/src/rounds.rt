//! The rounds of a node: price exactly, add the routes and what searches suggest to the pool, learn, and ascend over the pool,
//! until the node can end or the ascent is over.
//!
//! Most nodes end here, by a bound that reaches the target. Duals only suggest: what a round finds is judged by exact pricing.
//! A route of each aircraft would do, but several a round save most of the rounds.

ghost use Rattle.std.specs.Prelude.{◌≡◌, ◌≤◌, IfOk, IfSome};
ghost use Rattle.tail_book.specs.CostTable.{IsTableFor};
ghost use Rattle.branch_marks.specs.Settled.{AreDuals};
ghost use Rattle.node_leaves.specs.Target.{IsBest};
ghost use Rattle.node_leaves.specs.inside.Leaf.{IsReady};
ghost use Rattle.branch_tree.specs.inside.StepParts.{IsEndFound};
ghost use Rattle.node_leaves.specs.inside.FittingPool.{IsFittingPool};
ghost use Rattle.branch_tree.specs.inside.NodeBound.{IsWeighedNode};

use crate::node_bound::{Weighed, weigh};
use crate::step::NodeEnd;
use crate::{Best, NodePricer, WarmStart};
use branch_marks::{Marks, passes};
use connection_net::Net;
use dual_ascent::Ascent;
use node_leaves::{add_all_suggestions, add_routes, pass_duals};
use pool_plans::find_plan;
use restricted_master::Pool;
use std::alloc::Global;
use tail_book::laws::{every_book_is_sound, legal_routes_rise};
use tail_book::{Book, COST_UNIT, CostTable, Duals, Memory};

// The rounds of a node at most. An ascent from first duals is over before that.
const MOST_ROUNDS: u32 = 200;

const ROUNDS_BELOW: u32 = 30;

// Where bounds are to be raised: how warm an ascent below the root begins, and how far it goes, in thousandths of a cost unit.
const WARM: i64 = 1_000;

const FAR: i64 = 15_000;

// Plans are looked for in the pool from this temperature on, in thousandths of a cost unit, and for so many turns. While there is
// no plan, that is done again once the ascent has cooled to so many hundredths of where it was then, and always once it is cold.
const PLANS_BELOW: i64 = 12_000;

const PLAN_TURNS: u64 = 500;

const COOLED: i64 = 60;

const COLD: i64 = 20;

// The temperature of the first look at first duals is such a part of their mean, in thousandths of a cost unit, and no less than
// the other.
const LOOK_PART: u64 = 40;

const LOOK_MILDEST: u64 = 1000;

// Suggestions are looked for so many temperatures above the least weights.
const SUGGESTED: i64 = 4;

// The same while the pool is empty.
const SUGGESTED_FIRST: i64 = 27;

// Whether it is time to look in the pool again, which was done last at another temperature.
fn is_due(temperature: i64, tried: i64) -> bool {
    let cooled = (tried / 100).saturating_mul(COOLED);
    temperature <= cooled || temperature <= COLD
}

// Looks in the pool for a plan, once the ascent has cooled so far that light routes fit together.
fn try_pool(
    alloc: Global,
    book: &Book,
    table: &CostTable,
    pool: &Pool,
    duals: &Duals,
    best: &mut Best,
    temperature: i64,
    tried: &mut i64,
) -> Result<(), Memory>
    requires table { IsTableFor book.now table.now }
    requires best { IsBest table.now book.now best.old.plan best.old.target }
    ensures best { IsBest table.now book.now best.new.plan best.new.target }
    ensures falls { best.new.target ≤ best.old.target }
{
    if best.plan.is_none() && !is_due(temperature, *tried) {
        return Ok(());
    }
    *tried = temperature;
    if temperature > PLANS_BELOW {
        return Ok(());
    }
    let found = find_plan(alloc, book, table, pool, duals, best.target, PLAN_TURNS)?;
    if let Some(found) = found {
        best.take(book, table, found.plan, &found.cost);
    }
    Ok(())
}

// How far above the least weights suggestions are looked for, in thousandths of a cost unit.
fn slack_at(temperature: i64, is_first: bool) -> u32 {
    let times = if is_first { SUGGESTED_FIRST } else { SUGGESTED };
    temperature.saturating_mul(times).clamp(0, 1 << 31) as u32
}

// Prices the node, adds to the pool a route of each aircraft and what else is suggested, and looks there for a plan that lowers the
// target.
fn look(
    alloc: Global,
    book: &Book,
    table: &CostTable,
    net: &Net,
    marks: &Marks,
    pool: &mut Pool,
    duals: &Duals,
    best: &mut Best,
    prices: &mut NodePricer,
    temperature: i64,
    tried: &mut i64,
) -> Result<Weighed, Memory>
    requires ready { IsReady table.now book.now net.now marks.now prices.old }
    requires duals { AreDuals table.now book.now duals.now.values }
    requires pool { IsFittingPool table.now book.now marks.now.facts pool.old }
    requires best { IsBest table.now book.now best.old.plan best.old.target }
    ensures weighed { IfOk result (IsWeighedNode table.now book.now marks.now.facts duals.now.values best.new.target) }
    ensures ready { IsReady table.now book.now net.now marks.now prices.new }
    ensures pool { IsFittingPool table.now book.now marks.now.facts pool.new }
    ensures best { IsBest table.now book.now best.new.plan best.new.target }
    ensures falls { best.new.target ≤ best.old.target }
{
    every_book_is_sound(book);
    legal_routes_rise();
    let slack = slack_at(temperature, pool.count() == 0);
    let weighed = weigh(
        alloc, book, table, net, marks, pool, duals, best, prices, slack,
    )?;
    let found = match weighed {
        Weighed::Ended(end) => return Ok(Weighed::Ended(end)),
        Weighed::Open(found) => found,
    };
    let _ = add_routes(book, table, pool, &found.routes)?;
    add_all_suggestions(
        alloc,
        book,
        table,
        marks,
        pool,
        &prices.suggested,
        &mut prices.search,
    )?;
    try_pool(alloc, book, table, pool, duals, best, temperature, tried)?;
    if passes(found.sum, best.target) {
        return Ok(Weighed::Ended(NodeEnd::Bounded(found.values)));
    }
    Ok(Weighed::Open(found))
}

// One round. Without an end the duals are then those of the next round.
fn round(
    alloc: Global,
    book: &Book,
    table: &CostTable,
    net: &Net,
    marks: &Marks,
    pool: &mut Pool,
    duals: &mut Duals,
    best: &mut Best,
    prices: &mut NodePricer,
    ascent: &mut Ascent,
    tried: &mut i64,
) -> Result<Option<NodeEnd>, Memory>
    requires ready { IsReady table.now book.now net.now marks.now prices.old }
    requires duals { AreDuals table.now book.now duals.old.values }
    requires center { AreDuals table.now book.now ascent.old.best }
    requires pool { IsFittingPool table.now book.now marks.now.facts pool.old }
    requires best { IsBest table.now book.now best.old.plan best.old.target }
    ensures end { IfOk result (λ end. IfSome end (IsEndFound table.now book.now marks.now.facts duals.new.values best.new.target)) }
    ensures ready { IsReady table.now book.now net.now marks.now prices.new }
    ensures duals { AreDuals table.now book.now duals.new.values }
    ensures center { AreDuals table.now book.now ascent.new.best }
    ensures pool { IsFittingPool table.now book.now marks.now.facts pool.new }
    ensures best { IsBest table.now book.now best.new.plan best.new.target }
    ensures falls { best.new.target ≤ best.old.target }
{
    let temperature = ascent.temperature();
    let looked = look(
        alloc,
        book,
        table,
        net,
        marks,
        pool,
        duals,
        best,
        prices,
        temperature,
        tried,
    )?;
    match looked {
        Weighed::Ended(end) => Ok(Some(end)),
        Weighed::Open(found) => {
            ascent.learn(duals, found.sum);
            ascent.climb(book, table, pool, duals)?;
            Ok(None)
        }
    }
}

// An ascent for a node: from first duals where the pool is empty, as at the root, and else from duals that are good for the
// node above. A warm start says how it begins.
fn begin_ascent(
    alloc: Global,
    table: &CostTable,
    duals: &Duals,
    warm: Option<&WarmStart>,
    is_below: bool,
    raises: bool,
) -> Result<Ascent, Memory>
    ensures { IfOk result (λ ascent. ascent.best ≡ duals.now.values) }
{
    match warm {
        Some(warm) => Ascent::starting(alloc, table, duals, warm.temperature, warm.radius),
        None if is_below && raises => Ascent::starting(alloc, table, duals, WARM, FAR),
        None if is_below => Ascent::again(alloc, table, duals),
        None => Ascent::new(alloc, table, duals),
    }
}

// Whether no more rounds are worth their time. Below the root they are for a bound that reaches the target alone.
fn is_over(book: &Book, ascent: &Ascent, target: u64, is_below: bool) -> bool {
    let goal = i128::from(target)
        .saturating_sub(1)
        .saturating_mul(i128::from(COST_UNIT));
    ascent.is_over() || (is_below && ascent.falls_short(goal, book.tails.len()))
}

// The temperature of the first look at first duals.
fn look_temperature(first: &Duals) -> i64 {
    let mut sum = 0u64;
    for dual in first.values.iter() {
        sum = sum.saturating_add(dual.unsigned_abs());
    }
    let mean = sum / (first.values.len() as u64).max(1);
    (mean / LOOK_PART).clamp(LOOK_MILDEST, 1 << 31) as i64
}

// The beginning where the pool is empty, as at the root: first duals are priced, which may end the node, and gives the pool its
// first routes. Then passes make them better, and the next pricing looks further step by step, since the pool tells little of
// them.
fn first_look(
    alloc: Global,
    book: &Book,
    table: &CostTable,
    net: &Net,
    marks: &Marks,
    pool: &mut Pool,
    duals: &mut Duals,
    best: &mut Best,
    prices: &mut NodePricer,
) -> Result<Option<NodeEnd>, Memory>
    requires ready { IsReady table.now book.now net.now marks.now prices.old }
    requires duals { AreDuals table.now book.now duals.old.values }
    requires pool { IsFittingPool table.now book.now marks.now.facts pool.old }
    requires best { IsBest table.now book.now best.old.plan best.old.target }
    ensures end { IfOk result (λ end. IfSome end (IsEndFound table.now book.now marks.now.facts duals.new.values best.new.target)) }
    ensures ready { IsReady table.now book.now net.now marks.now prices.new }
    ensures duals { AreDuals table.now book.now duals.new.values }
    ensures pool { IsFittingPool table.now book.now marks.now.facts pool.new }
    ensures best { IsBest table.now book.now best.new.plan best.new.target }
    ensures falls { best.new.target ≤ best.old.target }
{
    let temperature = look_temperature(duals);
    let mut tried = i64::MAX;
    let looked = look(
        alloc,
        book,
        table,
        net,
        marks,
        pool,
        duals,
        best,
        prices,
        temperature,
        &mut tried,
    )?;
    match looked {
        Weighed::Ended(end) => Ok(Some(end)),
        Weighed::Open(_) => {
            pass_duals(alloc, book, table, net, marks, duals)?;
            prices.search.is_wary = true;
            Ok(None)
        }
    }
}

// What the rounds of a node begin with, unless its duals are known to be good. Only the root has something of its own.
fn begin(
    alloc: Global,
    book: &Book,
    table: &CostTable,
    net: &Net,
    marks: &Marks,
    pool: &mut Pool,
    duals: &mut Duals,
    best: &mut Best,
    prices: &mut NodePricer,
    is_known: bool,
) -> Result<Option<NodeEnd>, Memory>
    requires ready { IsReady table.now book.now net.now marks.now prices.old }
    requires duals { AreDuals table.now book.now duals.old.values }
    requires pool { IsFittingPool table.now book.now marks.now.facts pool.old }
    requires best { IsBest table.now book.now best.old.plan best.old.target }
    ensures end { IfOk result (λ end. IfSome end (IsEndFound table.now book.now marks.now.facts duals.new.values best.new.target)) }
    ensures ready { IsReady table.now book.now net.now marks.now prices.new }
    ensures duals { AreDuals table.now book.now duals.new.values }
    ensures pool { IsFittingPool table.now book.now marks.now.facts pool.new }
    ensures best { IsBest table.now book.now best.new.plan best.new.target }
    ensures falls { best.new.target ≤ best.old.target }
{
    if is_known {
        Ok(None)
    } else {
        first_look(alloc, book, table, net, marks, pool, duals, best, prices)
    }
}

/// Ascends from duals, round by round. Without an end the duals are then the best that were priced. Where bounds are to be raised it goes
/// further from the first duals below the root.
pub fn ascend(
    alloc: Global,
    book: &Book,
    table: &CostTable,
    net: &Net,
    marks: &Marks,
    pool: &mut Pool,
    duals: &mut Duals,
    best: &mut Best,
    prices: &mut NodePricer,
    warm: Option<&WarmStart>,
    raises: bool,
) -> Result<Option<NodeEnd>, Memory>
    requires ready { IsReady table.now book.now net.now marks.now prices.old }
    requires duals { AreDuals table.now book.now duals.old.values }
    requires pool { IsFittingPool table.now book.now marks.now.facts pool.old }
    requires best { IsBest table.now book.now best.old.plan best.old.target }
    ensures end { IfOk result (λ end. IfSome end (IsEndFound table.now book.now marks.now.facts duals.new.values best.new.target)) }
    ensures ready { IsReady table.now book.now net.now marks.now prices.new }
    ensures duals { AreDuals table.now book.now duals.new.values }
    ensures pool { IsFittingPool table.now book.now marks.now.facts pool.new }
    ensures best { IsBest table.now book.now best.new.plan best.new.target }
    ensures falls { best.new.target ≤ best.old.target }
{
    let is_below = pool.count() > 0;
    let is_known = is_below || warm.is_some();
    let begun = begin(
        alloc, book, table, net, marks, pool, duals, best, prices, is_known,
    )?;
    if begun.is_some() {
        return Ok(begun);
    }
    let mut ascent = begin_ascent(alloc, table, duals, warm, is_below, raises)?;
    let most = if is_below { ROUNDS_BELOW } else { MOST_ROUNDS };
    let mut tried = i64::MAX;
    for _round in 0..most {
        if is_over(book, &ascent, best.target, is_below) {
            break;
        }
        let end = round(
            alloc,
            book,
            table,
            net,
            marks,
            pool,
            duals,
            best,
            prices,
            &mut ascent,
            &mut tried,
        )?;
        prices.search.is_wary = false;
        if end.is_some() {
            return Ok(end);
        }
    }
    duals.values.copy_from_slice(ascent.best());
    Ok(None)
}
