//! Pricing with fees at a node: each aircraft once, under the same marks, duals and fees, up to one that is stuck.

ghost use Rattle.std.specs.Prelude.{◌≡◌, ◌≤◌, ◌<◌, ◌^◌, ◌+ℤ◌, ◌-ℤ◌, pos, IfOk, length};
ghost use Rattle.tail_book.specs.CostTable.{costs_of};
ghost use Rattle.tail_book.specs.Lookup.{aircraft};
ghost use Rattle.tail_book.specs.Ranges.{IsWithin};
ghost use Rattle.connection_net.specs.Net.{net_of};
ghost use Rattle.branch_marks.specs.Settled.{AreDuals};
ghost use Rattle.branch_marks.specs.inside.MarkTables.{AreMarksOf};
ghost use Rattle.quota_rows.specs.declared.quota.TheConstants.{QUOTA_LIMIT};
ghost use Rattle.quota_rows.specs.FeeBound.{fee_lagrangian};
ghost use Rattle.quota_rows.specs.Fees.{AreFees};
ghost use Rattle.quota_node.specs.inside.FeePrices.{AreAllPriced, AreFirstPriced, PricesOneMore};
ghost use Rattle.quota_node.specs.inside.Tools.{AreQuotaToolsFor};

use crate::QuotaTools;
use branch_marks::Marks;
use connection_net::Net;
use fee_master::{fees_at_most, total};
use fee_pricing::laws::fees_are_fair;
use pricing::Priced;
use quota_rows::{Fees, Quota};
use std::alloc::Global;
use tail_book::laws::every_book_is_sound;
use tail_book::{Book, CostTable, Duals, Memory, Route};

/// The least weight of each aircraft with fees, a route that has it, and the Lagrangian sum with fees, in thousandths of a cost unit.
#[derive(Debug, Drop)]
pub struct FeeRoutes {
    pub values: Vec<i64>,
    pub routes: Vec<Route>,
    pub sum: i128,
}

/// What all aircraft weigh at least with fees.
#[derive(Debug, Drop)]
pub enum AllPriced {
    /// The least aircraft of which no legal route fits.
    Stuck(u32),
    /// Nobody is stuck.
    Open(FeeRoutes),
}

// Prices an aircraft, and puts its value and a route that has it behind those of the aircraft before it. Nothing is put where it is
// stuck.
fn price_one(
    book: &Book,
    table: &CostTable,
    net: &Net,
    quotas: &[Quota],
    marks: &Marks,
    duals: &Duals,
    fees: &Fees,
    k: u32,
    values: &mut Vec<i64>,
    routes: &mut Vec<Route>,
    tools: &mut QuotaTools,
) -> Result<bool, Memory>
    requires table { table.now ≡ costs_of book.now }
    requires net { net.now ≡ net_of book.now }
    requires few { length quotas.now ≤ QUOTA_LIMIT }
    requires marks { AreMarksOf book.now marks.now }
    requires duals { AreDuals table.now book.now duals.now.values }
    requires fees { AreFees table.now quotas.now fees.now.values }
    requires aircraft { k < aircraft book.now }
    requires before { AreFirstPriced table.now book.now quotas.now marks.now.facts duals.now.values fees.now.values k values.old.items routes.old.items }
    requires tools { AreQuotaToolsFor book.now tools.old }
    ensures more { IfOk result (PricesOneMore table.now book.now quotas.now marks.now.facts duals.now.values fees.now.values k
        values.new.items routes.new.items) }
    ensures tools { AreQuotaToolsFor book.now tools.new }
{
    let priced = tools.pricer.price(
        book,
        table,
        net,
        marks,
        duals,
        fees,
        quotas,
        k,
        &mut tools.store,
    )?;
    match priced {
        Priced::Stuck => Ok(false),
        Priced::Best { value, route } => {
            values.push(value)?;
            routes.push(route)?;
            Ok(true)
        }
    }
}

// Two sums together, less a third.
fn together(paid: &i128, least: &i128, fees: &i128) -> i128
    requires paid { IsWithin (pos 0 -ℤ pos (2 ^ 96)) (pos (2 ^ 96)) paid.now }
    requires least { IsWithin (pos 0 -ℤ pos (2 ^ 96)) (pos (2 ^ 96)) least.now }
    requires fees { IsWithin (pos 0 -ℤ pos (2 ^ 120)) (pos (2 ^ 120)) fees.now }
    ensures { result ≡ ((paid.now +ℤ least.now) -ℤ fees.now) }
{
    *paid + *least - *fees
}

// The Lagrangian sum of duals, fees and a value for each aircraft.
fn sum_of(
    book: &Book,
    table: &CostTable,
    quotas: &[Quota],
    duals: &Duals,
    fees: &Fees,
    values: &[i64],
) -> i128
    requires table { table.now ≡ costs_of book.now }
    requires few { length quotas.now ≤ QUOTA_LIMIT }
    requires duals { AreDuals table.now book.now duals.now.values }
    requires fees { AreFees table.now quotas.now fees.now.values }
    requires one_each { length values.now ≡ aircraft book.now }
    ensures { result ≡ fee_lagrangian quotas.now duals.now.values fees.now.values values.now }
{
    every_book_is_sound(book);
    fees_are_fair();
    let (paid, least) = (total(&duals.values), total(values));
    let at_most = fees_at_most(quotas, &fees.values);
    together(&paid, &least, &at_most)
}

/// Prices all aircraft, up to one that is stuck.
pub fn price_all(
    alloc: Global,
    book: &Book,
    table: &CostTable,
    net: &Net,
    quotas: &[Quota],
    marks: &Marks,
    duals: &Duals,
    fees: &Fees,
    tools: &mut QuotaTools,
) -> Result<AllPriced, Memory>
    requires table { table.now ≡ costs_of book.now }
    requires net { net.now ≡ net_of book.now }
    requires few { length quotas.now ≤ QUOTA_LIMIT }
    requires marks { AreMarksOf book.now marks.now }
    requires duals { AreDuals table.now book.now duals.now.values }
    requires fees { AreFees table.now quotas.now fees.now.values }
    requires tools { AreQuotaToolsFor book.now tools.old }
    ensures priced { IfOk result (AreAllPriced table.now book.now quotas.now marks.now.facts duals.now.values fees.now.values) }
    ensures tools { AreQuotaToolsFor book.now tools.new }
{
    let mut values = Vec::new(alloc);
    let mut routes = Vec::new(alloc);
    for k in 0..book.tails.len() as u32 {
        let found = price_one(
            book,
            table,
            net,
            quotas,
            marks,
            duals,
            fees,
            k,
            &mut values,
            &mut routes,
            tools,
        )?;
        if !found {
            return Ok(AllPriced::Stuck(k));
        }
    }
    let sum = sum_of(book, table, quotas, duals, fees, &values);
    Ok(AllPriced::Open(FeeRoutes {
        values,
        routes,
        sum,
    }))
}
