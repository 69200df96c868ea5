//! Raising the bound of a node before duals and fees are settled: both ascend over the pool, round by round, as duals do without quotas. A
//! quota is one more coordinate of that ascent, and its fee the price. What is found is only where settling begins.

ghost use Rattle.std.specs.Prelude.{◌≡◌, ◌≤◌, length, IfOk};
ghost use Rattle.tail_book.specs.CostTable.{costs_of};
ghost use Rattle.connection_net.specs.Net.{net_of};
ghost use Rattle.branch_marks.specs.Settled.{AreDuals};
ghost use Rattle.branch_marks.specs.inside.MarkTables.{AreMarksOf};
ghost use Rattle.node_leaves.specs.inside.FittingPool.{IsFittingPool};
ghost use Rattle.quota_rows.specs.declared.quota.TheConstants.{QUOTA_LIMIT};
ghost use Rattle.quota_rows.specs.Fees.{AreFees};
ghost use Rattle.quota_split.specs.Ties.{HasNoneOver};
ghost use Rattle.quota_node.specs.inside.Tools.{AreQuotaToolsFor};

use crate::QuotaTools;
use crate::bounding::{Weighed, weigh};
use crate::counting::{count_from, sides_of, take_prices};
use crate::fee_prices::FeeRoutes;
use crate::shorts::{cut_shorts, lowered, short_comers};
use crate::suggesting::suggest;
use branch_marks::Marks;
use connection_net::Net;
use dual_ascent::{Ascent, Groups, Member};
use node_leaves::add_routes;
use quota_rows::{Fees, Quota};
use restricted_master::Pool;
use std::alloc::Global;
use tail_book::laws::{every_book_is_sound, legal_routes_rise, own_costs_are_for_book};
use tail_book::{Book, COST_UNIT, CostTable, Duals, Memory};

// The rounds of a node at most, and of one that has a pool already.
const MOST_ROUNDS: u32 = 200;

const ROUNDS_BELOW: u32 = 30;

// Suggestions are looked for so many temperatures above the least weights, and while the pool is small further up.
const SUGGESTED: i64 = 4;

const SUGGESTED_FIRST: i64 = 27;

const SMALL: usize = 100;

// What an ascent under quotas keeps between its rounds.
#[derive(Drop)]
struct Raising {
    ascent: Ascent,
    // the marks with all short connections cut, and the activities into which there are any, in the groups of the quotas
    cut: Marks,
    comers: Vec<Member>,
    // how often the routes of the pool use each quota, and how many of them are counted
    counted: Vec<Member>,
    known: usize,
}

// Prices the node, and adds a route of each aircraft to the pool. Answers what was found, unless the node ends by that.
fn look(
    alloc: Global,
    book: &Book,
    table: &CostTable,
    net: &Net,
    quotas: &[Quota],
    marks: &Marks,
    pool: &mut Pool,
    duals: &Duals,
    fees: &Fees,
    target: u64,
    tools: &mut QuotaTools,
) -> Result<Option<FeeRoutes>, Memory>
    requires table { table.now ≡ costs_of book.now }
    requires net { net.now ≡ net_of book.now }
    requires few { length quotas.now ≤ QUOTA_LIMIT }
    requires marks { AreMarksOf book.now marks.now }
    requires none_over { HasNoneOver book.now marks.now.facts quotas.now }
    requires pool { IsFittingPool table.now book.now marks.now.facts pool.old }
    requires duals { AreDuals table.now book.now duals.now.values }
    requires fees { AreFees table.now quotas.now fees.now.values }
    requires tools { AreQuotaToolsFor book.now tools.old }
    ensures pool { IsFittingPool table.now book.now marks.now.facts pool.new }
    ensures tools { AreQuotaToolsFor book.now tools.new }
{
    every_book_is_sound(book);
    legal_routes_rise();
    own_costs_are_for_book();
    let weighed = weigh(
        alloc, book, table, net, quotas, marks, duals, fees, target, tools,
    )?;
    match weighed {
        Weighed::Ended(_) => Ok(None),
        Weighed::Open(found) => {
            let _ = add_routes(book, table, pool, &found.routes)?;
            Ok(Some(found))
        }
    }
}

// How far above the least weights suggestions are looked for, in thousandths of a cost unit.
fn slack_at(temperature: i64, is_small: bool) -> u32 {
    let times = if is_small { SUGGESTED_FIRST } else { SUGGESTED };
    temperature.saturating_mul(times).clamp(0, 1 << 31) as u32
}

// Whether no fee is asked for.
fn are_free(fees: &Fees) -> bool {
    for fee in fees.values.iter() {
        if *fee != 0 {
            return false;
        }
    }
    true
}

// Adds to the pool what searches suggest.
fn suggest_all(
    alloc: Global,
    book: &Book,
    table: &CostTable,
    net: &Net,
    marks: &Marks,
    pool: &mut Pool,
    duals: &Duals,
    fees: &Fees,
    values: &[i64],
    tools: &mut QuotaTools,
    raising: &Raising,
) -> Result<(), Memory>
    requires table { table.now ≡ costs_of book.now }
    requires net { net.now ≡ net_of book.now }
    requires marks { AreMarksOf book.now marks.now }
    requires pool { IsFittingPool table.now book.now marks.now.facts pool.old }
    requires duals { AreDuals table.now book.now duals.now.values }
    requires tools { AreQuotaToolsFor book.now tools.old }
    requires cut { AreMarksOf book.now raising.now.cut }
    ensures pool { IsFittingPool table.now book.now marks.now.facts pool.new }
    ensures tools { AreQuotaToolsFor book.now tools.new }
{
    let slack = slack_at(raising.ascent.temperature(), pool.count() < SMALL);
    if are_free(fees) {
        return suggest(
            alloc, book, table, net, marks, marks, pool, duals, values, slack, tools,
        );
    }
    let low = lowered(book, table, duals, fees, &raising.comers)?;
    let cut = &raising.cut;
    suggest(
        alloc, book, table, net, cut, marks, pool, duals, values, slack, tools,
    )?;
    suggest(
        alloc, book, table, net, marks, marks, pool, &low, values, slack, tools,
    )
}

// Learns what pricing found, and moves duals and fees to where the pool promises more.
fn climb(
    book: &Book,
    table: &CostTable,
    quotas: &[Quota],
    pool: &Pool,
    duals: &mut Duals,
    fees: &mut Fees,
    sum: i128,
    raising: &mut Raising,
) -> Result<(), Memory>
    requires duals { AreDuals table.now book.now duals.old.values }
    requires center { AreDuals table.now book.now raising.old.ascent.best }
    requires cut { AreMarksOf book.now raising.old.cut }
    requires fees { AreFees table.now quotas.now fees.old.values }
    ensures duals { AreDuals table.now book.now duals.new.values }
    ensures center { AreDuals table.now book.now raising.new.ascent.best }
    ensures cut { AreMarksOf book.now raising.new.cut }
    ensures fees { AreFees table.now quotas.now fees.new.values }
{
    let first = raising.known;
    count_from(book, quotas, pool, first, &mut raising.counted)?;
    raising.known = pool.count();
    let ascent = &mut raising.ascent;
    ascent.count_sides(&raising.counted, pool.count())?;
    ascent.learn(duals, sum);
    ascent.climb(book, table, pool, duals)?;
    take_prices(table, quotas, ascent, false, fees);
    Ok(())
}

// One round, and whether another may follow: the duals and the fees are then those of the next one.
fn round(
    alloc: Global,
    book: &Book,
    table: &CostTable,
    net: &Net,
    quotas: &[Quota],
    marks: &Marks,
    pool: &mut Pool,
    duals: &mut Duals,
    fees: &mut Fees,
    target: u64,
    tools: &mut QuotaTools,
    raising: &mut Raising,
) -> Result<bool, Memory>
    requires table { table.now ≡ costs_of book.now }
    requires net { net.now ≡ net_of book.now }
    requires few { length quotas.now ≤ QUOTA_LIMIT }
    requires marks { AreMarksOf book.now marks.now }
    requires none_over { HasNoneOver book.now marks.now.facts quotas.now }
    requires pool { IsFittingPool table.now book.now marks.now.facts pool.old }
    requires duals { AreDuals table.now book.now duals.old.values }
    requires center { AreDuals table.now book.now raising.old.ascent.best }
    requires cut { AreMarksOf book.now raising.old.cut }
    requires fees { AreFees table.now quotas.now fees.old.values }
    requires tools { AreQuotaToolsFor book.now tools.old }
    ensures pool { IsFittingPool table.now book.now marks.now.facts pool.new }
    ensures duals { AreDuals table.now book.now duals.new.values }
    ensures center { AreDuals table.now book.now raising.new.ascent.best }
    ensures cut { AreMarksOf book.now raising.new.cut }
    ensures fees { AreFees table.now quotas.now fees.new.values }
    ensures tools { AreQuotaToolsFor book.now tools.new }
{
    let found = look(
        alloc, book, table, net, quotas, marks, pool, duals, fees, target, tools,
    )?;
    let found = match found {
        None => return Ok(false),
        Some(found) => found,
    };
    suggest_all(
        alloc,
        book,
        table,
        net,
        marks,
        pool,
        duals,
        fees,
        &found.values,
        tools,
        raising,
    )?;
    climb(book, table, quotas, pool, duals, fees, found.sum, raising)?;
    Ok(true)
}

// The ascent of a node: from first duals where the pool is empty, as at the root, and else from duals that are good for the node above.
fn ascent_from(
    alloc: Global,
    table: &CostTable,
    quotas: &[Quota],
    pool: &Pool,
    duals: &Duals,
    fees: &Fees,
) -> Result<Ascent, Memory>
    ensures { IfOk result (λ ascent. ascent.best ≡ duals.now.values) }
{
    let sides = sides_of(alloc, quotas, fees)?;
    let mut ascent = if pool.count() == 0 {
        Ascent::new(alloc, table, duals)?
    } else {
        Ascent::again(alloc, table, duals)?
    };
    ascent.take_sides(sides);
    Ok(ascent)
}

// What a node's ascent begins with.
fn begin(
    alloc: Global,
    book: &Book,
    table: &CostTable,
    net: &Net,
    quotas: &[Quota],
    marks: &Marks,
    pool: &Pool,
    duals: &Duals,
    fees: &Fees,
) -> Result<Raising, Memory>
    requires net { net.now ≡ net_of book.now }
    requires marks { AreMarksOf book.now marks.now }
    ensures best { IfOk result (λ raising. raising.ascent.best ≡ duals.now.values) }
    ensures cut { IfOk result (λ raising. AreMarksOf book.now raising.cut) }
{
    let ascent = ascent_from(alloc, table, quotas, pool, duals, fees)?;
    let cut = cut_shorts(book, net, quotas, marks, &Groups::new(alloc))?;
    let comers = short_comers(alloc, book, net, quotas)?;
    Ok(Raising {
        ascent,
        cut,
        comers,
        counted: Vec::new(alloc),
        known: 0,
    })
}

// Whether no round is worth its time any more.
fn is_over(book: &Book, ascent: &Ascent, target: u64, is_below: bool) -> bool {
    let goal = i128::from(target)
        .saturating_sub(1)
        .saturating_mul(i128::from(COST_UNIT));
    ascent.is_over() || (is_below && ascent.falls_short(goal, book.tails.len()))
}

/// Raises the sum of duals and fees, and adds routes to the pool on the way. Whatever it leaves is only where settling begins. It answers
/// the best sum, in thousandths of a cost unit, where one is known and the node does not end by it.
pub fn raise(
    alloc: Global,
    book: &Book,
    table: &CostTable,
    net: &Net,
    quotas: &[Quota],
    marks: &Marks,
    pool: &mut Pool,
    duals: &mut Duals,
    fees: &mut Fees,
    target: u64,
    tools: &mut QuotaTools,
) -> Result<Option<i128>, Memory>
    requires table { table.now ≡ costs_of book.now }
    requires net { net.now ≡ net_of book.now }
    requires few { length quotas.now ≤ QUOTA_LIMIT }
    requires marks { AreMarksOf book.now marks.now }
    requires none_over { HasNoneOver book.now marks.now.facts quotas.now }
    requires pool { IsFittingPool table.now book.now marks.now.facts pool.old }
    requires duals { AreDuals table.now book.now duals.old.values }
    requires fees { AreFees table.now quotas.now fees.old.values }
    requires tools { AreQuotaToolsFor book.now tools.old }
    ensures pool { IsFittingPool table.now book.now marks.now.facts pool.new }
    ensures duals { AreDuals table.now book.now duals.new.values }
    ensures fees { AreFees table.now quotas.now fees.new.values }
    ensures tools { AreQuotaToolsFor book.now tools.new }
{
    let is_below = pool.count() > 0;
    let mut raising = begin(alloc, book, table, net, quotas, marks, pool, duals, fees)?;
    let most = if is_below { ROUNDS_BELOW } else { MOST_ROUNDS };
    for _round in 0..most {
        if is_over(book, &raising.ascent, target, is_below) {
            break;
        }
        let goes_on = round(
            alloc,
            book,
            table,
            net,
            quotas,
            marks,
            pool,
            duals,
            fees,
            target,
            tools,
            &mut raising,
        )?;
        if !goes_on {
            return Ok(None);
        }
    }
    duals.values.copy_from_slice(raising.ascent.best());
    take_prices(table, quotas, &raising.ascent, true, fees);
    Ok(raising.ascent.sum())
}
