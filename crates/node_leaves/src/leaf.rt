//! A leaf that is priced once, without propagation, and told with what shows it: that some aircraft is stuck, or else a bound.
//!
//! That nobody is stuck has to be known before the first line of a bound is told. So all aircraft are priced first, and then,
//! for a log that wants the events, each once more for the labels of its cover.

ghost use Rattle.std.specs.Prelude.{◌≡◌, ◌≤◌, ◌^◌, ◌∷◌, ◌+ℤ◌, ◌-ℤ◌, [], pos, length, IfOk, OnErr, IsErrOf};
ghost use Rattle.tail_book.specs.Ranges.{IsWithin};
ghost use Rattle.tail_book.specs.Sums.{total};
ghost use Rattle.branch_marks.specs.Bound.{lagrangian};
ghost use Rattle.branch_marks.specs.Settled.{AreDuals};
ghost use Rattle.branch_marks.specs.TreeLog.{IsLater, WriteHasFailed};
ghost use Rattle.node_leaves.specs.Place.{open_place};
ghost use Rattle.node_leaves.specs.Stops.{StopsIn};
ghost use Rattle.node_leaves.specs.inside.Leaf.{IsReady, IsLeafPriced};

use crate::covers::{note_bounded, note_stuck};
use crate::{NodePricer, PricedAll, Stop};
use branch_marks::{Marks, TreeLog};
use connection_net::Net;
use std::alloc::Global;
use tail_book::laws::{every_book_is_sound, total_of_two_lists};
use tail_book::{Book, CostTable, Duals};

/// What pricing a leaf comes to.
#[derive(Clone, Copy, PartialEq, Eq, Debug)]
pub enum PricedLeaf {
    /// Some aircraft is stuck.
    Stuck,
    /// The Lagrangian sum, in thousandths of a cost unit.
    Bounded(i128),
}

/// Prices a leaf, and notes it with what shows it.
pub fn price_leaf<L: TreeLog>(
    alloc: Global,
    book: &Book,
    table: &CostTable,
    net: &Net,
    marks: &Marks,
    duals: &Duals,
    prices: &mut NodePricer,
    log: &mut L,
) -> Result<PricedLeaf, Stop>
    requires ready { IsReady table.now book.now net.now marks.now prices.old }
    requires duals { AreDuals table.now book.now duals.now.values }
    ensures priced { IfOk result (IsLeafPriced table.now book.now (open_place marks.now.facts duals.now.values)
        (L.shows log.old) (L.shows log.new)) }
    ensures stopped { OnErr result (StopsIn (L.shows log.old) (L.shows log.new) table.now book.now (open_place marks.now.facts duals.now.values ∷ [])) }
    ensures later { IsLater (L.shows log.old) (L.shows log.new) }
    ensures beside { L.beside log.old log.new }
    ensures cause { IsErrOf result Stop.Log → WriteHasFailed (L.shows log.old) (L.shows log.new) }
    ensures ready { IsReady table.now book.now net.now marks.now prices.new }
{
    every_book_is_sound(book);
    let priced = match prices.price_all(alloc, book, table, net, marks, duals, &[], 0) {
        Ok(priced) => priced,
        Err(_) => return Err(Stop::Memory),
    };
    match &priced {
        PricedAll::Stuck(k) => {
            if let Err(stop) = note_stuck(alloc, book, table, net, marks, *k, prices, log) {
                return Err(stop);
            }
            Ok(PricedLeaf::Stuck)
        }
        PricedAll::Least { values, .. } => {
            if let Err(stop) = note_bounded(
                alloc, book, table, net, marks, duals, values, prices, log,
            ) {
                return Err(stop);
            }
            Ok(PricedLeaf::Bounded(lagrangian_of(duals, values)))
        }
    }
}

/// The Lagrangian sum of duals and of a value for each aircraft, in thousandths of a cost unit.
pub fn lagrangian_of(duals: &Duals, values: &[i64]) -> i128
    requires duals { length duals.now.values ≤ 2 ^ 32 }
    requires values { length values.now ≤ 2 ^ 32 }
    ensures { result ≡ lagrangian duals.now.values values.now }
{
    let (paid, least) = (total_of(&duals.values), total_of(values));
    both(&paid, &least)
}

// Two sums together.
fn both(one: &i128, other: &i128) -> i128
    requires one { IsWithin (pos 0 -ℤ pos (2 ^ 96)) (pos (2 ^ 96)) one.now }
    requires other { IsWithin (pos 0 -ℤ pos (2 ^ 96)) (pos (2 ^ 96)) other.now }
    ensures { result ≡ one.now +ℤ other.now }
{
    *one + *other
}

// A sum with one value more.
fn added(sum: &i128, value: &i64) -> i128
    requires { IsWithin (pos 0 -ℤ pos (2 ^ 96)) (pos (2 ^ 96)) sum.now }
    ensures sum { result ≡ sum.now +ℤ value.now }
    ensures value { IsWithin (pos 0 -ℤ pos (2 ^ 63)) (pos (2 ^ 63)) value.now }
{
    *sum + *value as i128
}

// The sum of the values.
fn total_of(values: &[i64]) -> i128
    requires { length values.now ≤ 2 ^ 32 }
    ensures sum { result ≡ total values.now }
    ensures small { IsWithin (pos 0 -ℤ pos (2 ^ 96)) (pos (2 ^ 96)) result }
{
    total_of_two_lists();
    let mut sum = 0i128;
    for i in 0..values.len() {
        sum = added(&sum, &values[i]);
    }
    sum
}
