//! Leaps: where sweeps creep, duals go on along the way of the last one, twice as far each time, as long as their sum rises.
//! The way of one sweep can turn back at the next, so that no leap goes: after many sweeps a leap tries the way of all of them.
//!
//! Of some pools the sum rises by little more than a cost unit a sweep, up to the ends of the box, which are some hundred
//! million cost units away: always the same duals rise, and the same ones fall. A leap goes there in some thirty turns.
//! What it ends with is swept again, so a leap settles nothing by itself, and it can only raise the sum.
//! A turn costs a walk over all routes, which are weighed anew, and one over their weights, aircraft by aircraft. Room for
//! what is weighed there is made once: where the sum does not rise, nothing has moved.

ghost use Rattle.std.specs.Prelude.{◌≡◌, ◌↔◌, ℕ, ◌<◌, ◌<ℤ◌, ◌≤◌, ◌^◌, All, IfOk, IsTrue, length};
ghost use Rattle.tail_book.specs.Lookup.{activities, aircraft};
ghost use Rattle.tail_book.specs.CostTable.{IsInBox, IsTableFor};
ghost use Rattle.branch_marks.specs.Bound.{lagrangian, value_of};
ghost use Rattle.branch_marks.specs.Settled.{AreDuals};
ghost use Rattle.restricted_master.specs.Lists.{list_at, AreListsOf};
ghost use Rattle.restricted_master.specs.Pool.{HasRoutes, IsPoolFor};
ghost use Rattle.restricted_master.specs.inside.Least.{AreValues, AreWeights, IsWeighed};
ghost use Rattle.restricted_master.specs.inside.Leaps.{IsLeapRoom, IsLeastOf, IsThere, Leaps};

use crate::choice::lesser;
use crate::pool_weights::weight_of;
use crate::sums::lagrangian;
use crate::{Pool, RouteLists};
use branch_marks::laws::least_in_is_least;
use std::alloc::Global;
use tail_book::laws::every_book_is_sound;
use tail_book::{Book, CostTable, Memory};

// A leap has at most so many turns: then even a way of one thousandth is longer than the box.
const TURNS: u32 = 62;

/// After each so many sweeps a leap goes along the way of all of them.
pub const MANY: u64 = 64;

/// Where duals were before a sweep, and where they may go: with the weights of all routes there, and the least of each aircraft.
#[derive(Drop)]
pub struct Leap {
    // before the last sweep, and before the last many
    before: Vec<i64>,
    earlier: Vec<i64>,
    duals: Vec<i64>,
    weights: Vec<i64>,
    values: Vec<i64>,
}

// A dual that has come twice as far as from another to this one, within the box.
fn twice_as_far(table: &CostTable, before: i64, now: i64) -> i64
    ensures { IsInBox table.now result }
{
    let end = table.box_end();
    let way = now.saturating_sub(before);
    now.saturating_add(way).clamp(-end, end)
}

// The same for each dual.
fn go(table: &CostTable, before: &[i64], now: &[i64], there: &mut [i64])
    requires before { length before.now ≡ length there.old }
    requires now { length now.now ≡ length there.old }
    ensures { All (IsInBox table.now) there.new }
{
    for a in 0..there.len() {
        there[a] = twice_as_far(table, before[a], now[a]);
    }
}

// Writes the weights of all routes.
fn weigh(book: &Book, table: &CostTable, pool: &Pool, duals: &[i64], weights: &mut [i64])
    requires table { IsTableFor book.now table.now }
    requires pool { IsPoolFor table.now book.now pool.now }
    requires duals { AreDuals table.now book.now duals.now }
    requires each { length weights.old ≡ length pool.now.entries }
    ensures { AreWeights table.now book.now pool.now duals.now weights.new }
{
    for i in 0..pool.count() {
        weights[i] = weight_of(book, table, pool, duals, i);
    }
}

// The least weight of these routes, of which there is one.
fn least_of(numbers: &[u32], weights: &[i64]) -> i64
    requires some { 0 < length numbers.now }
    requires numbers { All (λ i. i < length weights.now) numbers.now }
    ensures { IsLeastOf numbers.now weights.now result }
{
    let mut least = weights[numbers[0] as usize];
    for q in 1..numbers.len() {
        least = lesser(least, weights[numbers[q] as usize]);
    }
    least
}

// Writes the least weight of each aircraft's routes.
fn value(lists: &RouteLists, weights: &[i64], values: &mut [i64])
    requires each { length lists.now.by_aircraft ≡ length values.old }
    requires some { (k : ℕ) → k < length values.old → 0 < length (list_at lists.now.by_aircraft k) }
    requires numbers { (k : ℕ) → k < length values.old → All (λ i. i < length weights.now) (list_at lists.now.by_aircraft k) }
    ensures { (k : ℕ) → k < length values.new → IsLeastOf (list_at lists.now.by_aircraft k) weights.now (value_of values.new k) }
{
    for k in 0..values.len() {
        values[k] = least_of(lists.of_aircraft(k), weights);
    }
}

// Writes the weights of all routes, and the least of each aircraft.
fn weigh_all(
    book: &Book,
    table: &CostTable,
    pool: &Pool,
    lists: &RouteLists,
    duals: &[i64],
    weights: &mut [i64],
    values: &mut [i64],
)
    requires table { IsTableFor book.now table.now }
    requires pool { IsPoolFor table.now book.now pool.now }
    requires routes { HasRoutes book.now pool.now }
    requires lists { AreListsOf pool.now (activities book.now) (aircraft book.now) lists.now }
    requires duals { AreDuals table.now book.now duals.now }
    requires each_weight { length weights.old ≡ length pool.now.entries }
    requires each_value { length values.old ≡ aircraft book.now }
    ensures weights { AreWeights table.now book.now pool.now duals.now weights.new }
    ensures values { AreValues table.now book.now pool.now duals.now values.new }
{
    least_in_is_least();
    weigh(book, table, pool, duals, weights);
    value(lists, weights, values);
}

impl Leap {
    /// Room for leaps over a pool of a book.
    pub fn new(alloc: Global, book: &Book, pool: &Pool) -> Result<Leap, Memory>
        ensures { IfOk result (IsLeapRoom book.now pool.now) }
    {
        let (n, m) = (book.activities.len(), book.tails.len());
        Ok(Leap {
            before: vec![in alloc; 0i64; n]?,
            earlier: vec![in alloc; 0i64; n]?,
            duals: vec![in alloc; 0i64; n]?,
            weights: vec![in alloc; 0i64; pool.count()]?,
            values: vec![in alloc; 0i64; m]?,
        })
    }

    /// Notes where the duals are before a sweep, by its number, which begins at 1.
    pub fn begin(&mut self, book: &Book, pool: &Pool, duals: &[i64], sweep: u64)
        requires room { IsLeapRoom book.now pool.now self.old }
        requires duals { length duals.now ≡ activities book.now }
        ensures room { IsLeapRoom book.now pool.now self.new }
    {
        self.before.copy_from_slice(duals);
        if sweep % MANY == 1 {
            self.earlier.copy_from_slice(duals);
        }
    }

    /// Lets leaps go along the way of the last many sweeps, until the next sweep begins.
    pub fn look_back(&mut self, book: &Book, pool: &Pool)
        requires room { IsLeapRoom book.now pool.now self.old }
        ensures room { IsLeapRoom book.now pool.now self.new }
    {
        self.before.copy_from_slice(&self.earlier);
    }

    // Goes twice as far, and weighs all routes there.
    fn look(
        &mut self,
        book: &Book,
        table: &CostTable,
        pool: &Pool,
        lists: &RouteLists,
        duals: &[i64],
    )
        requires table { IsTableFor book.now table.now }
        requires pool { IsPoolFor table.now book.now pool.now }
        requires routes { HasRoutes book.now pool.now }
        requires lists { AreListsOf pool.now (activities book.now) (aircraft book.now) lists.now }
        requires duals { length duals.now ≡ activities book.now }
        requires room { IsLeapRoom book.now pool.now self.old }
        ensures room { IsLeapRoom book.now pool.now self.new }
        ensures there { IsThere table.now book.now pool.now self.new }
    {
        go(table, &self.before, duals, &mut self.duals);
        weigh_all(
            book,
            table,
            pool,
            lists,
            &self.duals,
            &mut self.weights,
            &mut self.values,
        );
    }

    // Whether the sum is larger there.
    fn rises(&self, duals: &[i64], values: &[i64]) -> bool
        requires duals { length duals.now ≤ 2 ^ 32 }
        requires values { length values.now ≤ 2 ^ 32 }
        requires each_dual { length self.now.duals.items ≡ length duals.now }
        requires each_value { length self.now.values.items ≡ length values.now }
        ensures { IsTrue result ↔ (lagrangian duals.now values.now <ℤ lagrangian self.now.duals.items self.now.values.items) }
    {
        lagrangian(duals, values) < lagrangian(&self.duals, &self.values)
    }

    // Takes the duals there, with the weights and values.
    fn take(&self, duals: &mut [i64], weights: &mut [i64], values: &mut [i64])
        requires each_dual { length self.now.duals.items ≡ length duals.old }
        requires each_weight { length self.now.weights.items ≡ length weights.old }
        requires each_value { length self.now.values.items ≡ length values.old }
        ensures duals { duals.new ≡ self.now.duals.items }
        ensures weights { weights.new ≡ self.now.weights.items }
        ensures values { values.new ≡ self.now.values.items }
    {
        duals.copy_from_slice(&self.duals);
        weights.copy_from_slice(&self.weights);
        values.copy_from_slice(&self.values);
    }

    // One turn, and whether the sum rose. Where it does not, nothing moves.
    fn turn(
        &mut self,
        book: &Book,
        table: &CostTable,
        pool: &Pool,
        lists: &RouteLists,
        duals: &mut [i64],
        weights: &mut [i64],
        values: &mut [i64],
    ) -> bool
        requires weighed { IsWeighed table.now book.now pool.now lists.now duals.old weights.old values.old }
        requires routes { HasRoutes book.now pool.now }
        requires room { IsLeapRoom book.now pool.now self.old }
        ensures weighed { IsWeighed table.now book.now pool.now lists.now duals.new weights.new values.new }
        ensures room { IsLeapRoom book.now pool.now self.new }
        ensures leaps { Leaps table.now book.now pool.now.entries duals.old duals.new result }
    {
        every_book_is_sound(book);
        self.look(book, table, pool, lists, duals);
        if !self.rises(duals, values) {
            return false;
        }
        self.take(duals, weights, values);
        true
    }

    /// Goes on along the way from where the duals were before the sweep, as long as the sum rises. Answers whether it did.
    pub fn go_on(
        &mut self,
        book: &Book,
        table: &CostTable,
        pool: &Pool,
        lists: &RouteLists,
        duals: &mut [i64],
        weights: &mut [i64],
        values: &mut [i64],
    ) -> bool
        requires weighed { IsWeighed table.now book.now pool.now lists.now duals.old weights.old values.old }
        requires routes { HasRoutes book.now pool.now }
        requires room { IsLeapRoom book.now pool.now self.old }
        ensures weighed { IsWeighed table.now book.now pool.now lists.now duals.new weights.new values.new }
        ensures room { IsLeapRoom book.now pool.now self.new }
        ensures leaps { Leaps table.now book.now pool.now.entries duals.old duals.new result }
    {
        let mut went = false;
        for _turn in 0..TURNS {
            if !self.turn(book, table, pool, lists, duals, weights, values) {
                return went;
            }
            went = true;
        }
        went
    }
}
