//! What a link adds to the weight of a row: what its activity and connection cost less the activity's dual, and a fee for each
//! quota that counts it.
//!
//! It depends on the two activities alone, so it is the same for all rows that take the link, and is asked for once a link. All
//! weights are in thousandths of a cost unit, and no sum of them leaves 64 bits: a table of the book's own costs, at most fifty
//! quotas, and boxes of duals and fees keep what one link adds small.

ghost use Rattle.std.specs.Prelude.{◌≡◌, ◌<◌, ◌≤◌, All, length, cond, pos};
ghost use Rattle.tail_book.specs.CostTable.{IsTableFor};
ghost use Rattle.tail_book.specs.Lookup.{activities, aircraft};
ghost use Rattle.tail_book.specs.Place.{IsPlaceOf};
ghost use Rattle.tail_book.specs.Link.{IsLink};
ghost use Rattle.turn_rules.specs.inside.FreeBefore.{IsFreeBefore};
ghost use Rattle.branch_marks.specs.Settled.{AreDuals};
ghost use Rattle.branch_marks.specs.Weights.{arc_weight};
ghost use Rattle.pricing.specs.inside.WeightRange.{IsBroad};
ghost use Rattle.quota_rows.specs.Belongs.{belongs};
ghost use Rattle.quota_rows.specs.declared.quota.TheConstants.{QUOTA_LIMIT};
ghost use Rattle.quota_rows.specs.Fees.{fee_at, fee_of};
ghost use Rattle.fee_pricing.specs.inside.Fair.{IsFairFee, IsFairSum};
ghost use Rattle.fee_pricing.specs.inside.Asked.{IsAsked, AreAskedLinksFair};
ghost use Rattle.fee_pricing.specs.inside.ForAsked.{arc_for};

use crate::asked::Asked;
use crate::laws::{fee_arcs_are_fair, fees_are_fair};
use quota_rows::{Quota, belongs};
use tail_book::laws::{
    costs_are_small, every_book_is_sound, every_cost_table_is_sound, own_costs_are_for_book,
};
use tail_book::{Book, COST_UNIT, CostTable, Duals, Place};
use turn_rules::arc_cost;
use turn_rules::laws::links_leave_time;

/// A link leaves an aircraft free before the activity starts: the law for one link.
pub fn links_leave_free(asked: &Asked, from: Place, b: u32)
    requires link { IsLink asked.now.book.now asked.now.k from b }
    ensures { IsFreeBefore asked.now.book.now asked.now.k from b }
{
    every_book_is_sound(asked.book);
    links_leave_time();
}

/// No link adds much to a weight: the law for what is asked.
pub fn links_are_fair(asked: &Asked)
    requires { IsAsked asked.now }
    ensures { AreAskedLinksFair asked.now }
{
    every_book_is_sound(asked.book);
    every_cost_table_is_sound(asked.table);
    fee_arcs_are_fair();
}

// The fee of one quota, where the connection belongs to it.
fn fee_by(book: &Book, quota: &Quota, fee: i64, a: u32, b: u32) -> i64
    requires before { a < activities book.now }
    requires after { b < activities book.now }
    ensures { result ≡ cond (belongs book.now quota.now a b) fee (pos 0) }
{
    if belongs(book, quota, a, b) { fee } else { 0 }
}

/// The fee of the connection from activity `a` to activity `b`: the fees of the quotas that it belongs to, all together, in
/// thousandths of a cost unit.
pub fn fee_of(book: &Book, quotas: &[Quota], fees: &[i64], a: u32, b: u32) -> i64
    requires before { a < activities book.now }
    requires after { b < activities book.now }
    requires few { length quotas.now ≤ QUOTA_LIMIT }
    requires one_each { length fees.now ≡ length quotas.now }
    requires fair { All IsFairFee fees.now }
    ensures value { result ≡ fee_of book.now quotas.now fees.now a b }
    ensures range { IsFairSum result }
{
    let mut sum = 0i64;
    for q in 0..quotas.len() {
        sum += fee_by(book, &quotas[q], fees[q], a, b);
    }
    sum
}

// The fee of the connection from a place; from the carry-in there is none.
fn fee_at(asked: &Asked, from: Place, b: u32) -> i64
    requires asked { IsAsked asked.now }
    requires place { IsPlaceOf asked.now.book.now from }
    requires activity { b < activities asked.now.book.now }
    ensures value { result ≡ fee_at asked.now.book.now asked.now.quotas.now asked.now.fees.now.values from b }
    ensures range { IsFairSum result }
{
    every_book_is_sound(asked.book);
    fees_are_fair();
    let fees = asked.fees;
    match from {
        Place::Carry => 0,
        Place::After(a) => fee_of(asked.book, asked.quotas, &fees.values, a, b),
    }
}

// What an activity after a place adds to a weight without fees.
fn weight_without_fees(
    book: &Book,
    table: &CostTable,
    duals: &Duals,
    k: u32,
    from: Place,
    b: u32,
) -> i64
    requires table { IsTableFor book.now table.now }
    requires duals { AreDuals table.now book.now duals.now.values }
    requires aircraft { k < aircraft book.now }
    requires place { IsPlaceOf book.now from }
    requires activity { b < activities book.now }
    ensures value { result ≡ arc_weight table.now book.now k duals.now.values from b }
    ensures range { IsBroad result }
{
    costs_are_small(table);
    (COST_UNIT * arc_cost(book, table, k, from, b)) as i64 - duals.values[b as usize]
}

/// What an activity after a place adds to a weight with fees, in thousandths of a cost unit.
pub fn arc_weight(asked: &Asked, from: Place, b: u32) -> i64
    requires asked { IsAsked asked.now }
    requires place { IsPlaceOf asked.now.book.now from }
    requires activity { b < activities asked.now.book.now }
    ensures value { result ≡ arc_for asked.now from b }
    ensures range { IsBroad result }
{
    links_are_fair(asked);
    own_costs_are_for_book();
    let weight = weight_without_fees(asked.book, asked.table, asked.duals, asked.k, from, b);
    let fee = fee_at(asked, from, b);
    weight + fee
}
