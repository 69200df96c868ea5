//! Settling: one dual at a time is moved to its best number, until no move gains a cost unit.
//!
//! This is coordinate ascent of the Lagrangian sum over a pool. The sum is a concave function of each dual, and the best
//! number of one is found exactly (`switching`). Each move gains at least a cost unit, and the sum is bounded over the
//! box, so it ends. All memory is asked for before the first dual moves.
//! Where that takes many sweeps, leaps go on along the way of one or of many (`leaping`), and what they end with is swept again.
//! A look at an activity is a walk over its routes, and over those of the aircraft that take it now. It is looked at
//! again only where another dual has moved since.

ghost use Rattle.std.specs.Prelude.{◌≡◌, ℕ, ◌<◌, ◌≤ℤ◌, true, IfOk, OnErr, length};
ghost use Rattle.tail_book.specs.Lookup.{activities, aircraft};
ghost use Rattle.tail_book.specs.CostTable.{IsTableFor};
ghost use Rattle.branch_marks.specs.Pool.{sum_in, values_in};
ghost use Rattle.branch_marks.specs.Settled.{AreDuals, IsSettledOver};
ghost use Rattle.restricted_master.specs.Pool.{HasRoutes, IsPoolFor};
ghost use Rattle.restricted_master.specs.Lists.{AreListsOf};
ghost use Rattle.restricted_master.specs.inside.Least.{AreWeights, IsWeighed};
ghost use Rattle.restricted_master.specs.inside.Leaps.{IsLeapRoom};
ghost use Rattle.restricted_master.specs.inside.Moving.{is_due, IsWork, Settles, Sweeps, Visits};

use crate::choice::Choice;
use crate::leaping::{Leap, MANY};
use crate::moving::look_at;
use crate::pool_weights::weight_of;
use crate::sums::lagrangian;
use crate::{Pool, RouteLists, laws};
use branch_marks::laws::least_in_is_least;
use std::alloc::Global;
use tail_book::laws::{every_book_is_sound, every_cost_table_is_sound};
use tail_book::{Book, CostTable, Duals, Memory};

// From so many sweeps on duals creep, and leaps are worth their time.
const CREEPING: u64 = 4;

// The weights of all routes.
fn weigh(
    alloc: Global,
    book: &Book,
    table: &CostTable,
    pool: &Pool,
    duals: &[i64],
) -> Result<Vec<i64>, Memory>
    requires table { IsTableFor book.now table.now }
    requires pool { IsPoolFor table.now book.now pool.now }
    requires duals { AreDuals table.now book.now duals.now }
    ensures { IfOk result (λ weights. AreWeights table.now book.now pool.now duals.now weights.items) }
{
    let mut weights = Vec::with_capacity(alloc, pool.count())?;
    for i in 0..pool.count() {
        weights.push(weight_of(book, table, pool, duals, i))?;
    }
    Ok(weights)
}

// The least weights of all aircraft.
fn least_values(
    alloc: Global,
    book: &Book,
    table: &CostTable,
    pool: &Pool,
    duals: &Duals,
) -> Result<Vec<i64>, Memory>
    requires table { IsTableFor book.now table.now }
    requires pool { IsPoolFor table.now book.now pool.now }
    requires duals { AreDuals table.now book.now duals.now.values }
    ensures { IfOk result (λ values. values.items ≡ values_in table.now book.now duals.now.values pool.now.entries) }
{
    let mut values = Vec::with_capacity(alloc, book.tails.len())?;
    for k in 0..book.tails.len() {
        values.push(pool.least(book, table, duals, k as u32).unwrap_or(0))?;
    }
    Ok(values)
}

// Marks all activities to be looked at.
fn mark_all(due: &mut [bool])
    ensures { (a : ℕ) → a < length due.new → is_due due.new a ≡ true }
{
    for a in 0..due.len() {
        due[a] = true;
    }
}

// Looks at an activity that is marked.
fn visit(
    book: &Book,
    table: &CostTable,
    pool: &Pool,
    lists: &RouteLists,
    duals: &mut [i64],
    weights: &mut [i64],
    values: &mut [i64],
    choices: &mut [Choice],
    due: &mut [bool],
    a: u32,
) -> bool
    requires weighed { IsWeighed table.now book.now pool.now lists.now duals.old weights.old values.old }
    requires routes { HasRoutes book.now pool.now }
    requires activity { a < activities book.now }
    requires each { length choices.old ≡ aircraft book.now }
    requires work { IsWork table.now book.now pool.now.entries duals.old due.old }
    ensures weighed { IsWeighed table.now book.now pool.now lists.now duals.new weights.new values.new }
    ensures work { IsWork table.now book.now pool.now.entries duals.new due.new }
    ensures visited { Visits table.now book.now pool.now.entries a duals.old duals.new due.old due.new result }
{
    if !due[a as usize] {
        return false;
    }
    due[a as usize] = false;
    let moved = look_at(book, table, pool, lists, duals, weights, values, choices, a);
    if moved {
        mark_all(due);
    }
    moved
}

// Visits all activities in order, and answers whether a dual moved.
fn sweep(
    book: &Book,
    table: &CostTable,
    pool: &Pool,
    lists: &RouteLists,
    duals: &mut [i64],
    weights: &mut [i64],
    values: &mut [i64],
    choices: &mut [Choice],
    due: &mut [bool],
) -> bool
    requires weighed { IsWeighed table.now book.now pool.now lists.now duals.old weights.old values.old }
    requires routes { HasRoutes book.now pool.now }
    requires each { length choices.old ≡ aircraft book.now }
    requires work { IsWork table.now book.now pool.now.entries duals.old due.old }
    ensures weighed { IsWeighed table.now book.now pool.now lists.now duals.new weights.new values.new }
    ensures work { IsWork table.now book.now pool.now.entries duals.new due.new }
    ensures swept { Sweeps table.now book.now pool.now.entries (activities book.now) duals.old duals.new result }
{
    every_book_is_sound(book);
    let mut moved = false;
    for a in 0..book.activities.len() {
        if visit(
            book, table, pool, lists, duals, weights, values, choices, due, a as u32,
        ) {
            moved = true;
        }
    }
    moved
}

// Leaps, and marks all activities where that moves duals.
fn leap_on(
    book: &Book,
    table: &CostTable,
    pool: &Pool,
    lists: &RouteLists,
    duals: &mut [i64],
    weights: &mut [i64],
    values: &mut [i64],
    due: &mut [bool],
    leap: &mut Leap,
)
    requires weighed { IsWeighed table.now book.now pool.now lists.now duals.old weights.old values.old }
    requires routes { HasRoutes book.now pool.now }
    requires work { IsWork table.now book.now pool.now.entries duals.old due.old }
    requires room { IsLeapRoom book.now pool.now leap.old }
    ensures weighed { IsWeighed table.now book.now pool.now lists.now duals.new weights.new values.new }
    ensures work { IsWork table.now book.now pool.now.entries duals.new due.new }
    ensures room { IsLeapRoom book.now pool.now leap.new }
    ensures no_less { sum_in table.now book.now duals.old pool.now.entries ≤ℤ sum_in table.now book.now duals.new pool.now.entries }
{
    if leap.go_on(book, table, pool, lists, duals, weights, values) {
        mark_all(due);
    }
}

// Leaps after a sweep of this number, where duals creep, and after many sweeps along the way of all of them.
fn leap_after(
    book: &Book,
    table: &CostTable,
    pool: &Pool,
    lists: &RouteLists,
    duals: &mut [i64],
    weights: &mut [i64],
    values: &mut [i64],
    due: &mut [bool],
    leap: &mut Leap,
    sweeps: u64,
)
    requires weighed { IsWeighed table.now book.now pool.now lists.now duals.old weights.old values.old }
    requires routes { HasRoutes book.now pool.now }
    requires work { IsWork table.now book.now pool.now.entries duals.old due.old }
    requires room { IsLeapRoom book.now pool.now leap.old }
    ensures weighed { IsWeighed table.now book.now pool.now lists.now duals.new weights.new values.new }
    ensures work { IsWork table.now book.now pool.now.entries duals.new due.new }
    ensures room { IsLeapRoom book.now pool.now leap.new }
    ensures no_less { sum_in table.now book.now duals.old pool.now.entries ≤ℤ sum_in table.now book.now duals.new pool.now.entries }
{
    if sweeps >= CREEPING {
        leap_on(book, table, pool, lists, duals, weights, values, due, leap);
    }
    if sweeps % MANY == 0 {
        leap.look_back(book, pool);
        leap_on(book, table, pool, lists, duals, weights, values, due, leap);
    }
}

// A sweep, and leaps after one that moved a dual. Answers whether the sweep moved one.
fn round(
    book: &Book,
    table: &CostTable,
    pool: &Pool,
    lists: &RouteLists,
    duals: &mut [i64],
    weights: &mut [i64],
    values: &mut [i64],
    choices: &mut [Choice],
    due: &mut [bool],
    leap: &mut Leap,
    sweeps: u64,
) -> bool
    requires weighed { IsWeighed table.now book.now pool.now lists.now duals.old weights.old values.old }
    requires routes { HasRoutes book.now pool.now }
    requires each { length choices.old ≡ aircraft book.now }
    requires work { IsWork table.now book.now pool.now.entries duals.old due.old }
    requires room { IsLeapRoom book.now pool.now leap.old }
    ensures weighed { IsWeighed table.now book.now pool.now lists.now duals.new weights.new values.new }
    ensures work { IsWork table.now book.now pool.now.entries duals.new due.new }
    ensures room { IsLeapRoom book.now pool.now leap.new }
    ensures swept { Sweeps table.now book.now pool.now.entries (activities book.now) duals.old duals.new result }
{
    leap.begin(book, pool, duals, sweeps);
    if !sweep(
        book, table, pool, lists, duals, weights, values, choices, due,
    ) {
        return false;
    }
    leap_after(
        book, table, pool, lists, duals, weights, values, due, leap, sweeps,
    );
    true
}

// Sweeps until no dual moves, and answers the sum.
fn climb(
    book: &Book,
    table: &CostTable,
    pool: &Pool,
    lists: &RouteLists,
    duals: &mut [i64],
    weights: &mut [i64],
    values: &mut [i64],
    choices: &mut [Choice],
    due: &mut [bool],
    leap: &mut Leap,
) -> i128
    requires weighed { IsWeighed table.now book.now pool.now lists.now duals.old weights.old values.old }
    requires routes { HasRoutes book.now pool.now }
    requires each { length choices.old ≡ aircraft book.now }
    requires work { IsWork table.now book.now pool.now.entries duals.old due.old }
    requires room { IsLeapRoom book.now pool.now leap.old }
    ensures settled { IsSettledOver table.now book.now pool.now.entries duals.new }
    ensures sum { result ≡ sum_in table.now book.now duals.new pool.now.entries }
    ensures no_less { sum_in table.now book.now duals.old pool.now.entries ≤ℤ sum_in table.now book.now duals.new pool.now.entries }
{
    every_book_is_sound(book);
    every_cost_table_is_sound(table);
    laws::sums_are_bounded();
    let mut moved = true;
    let mut sweeps = 0u64;
    while moved {
        sweeps = sweeps.saturating_add(1);
        moved = round(
            book, table, pool, lists, duals, weights, values, choices, due, leap, sweeps,
        );
    }
    lagrangian(duals, values)
}

// Climbs with all activities to be looked at.
fn climb_all(
    alloc: Global,
    book: &Book,
    table: &CostTable,
    pool: &Pool,
    lists: &RouteLists,
    duals: &mut [i64],
    weights: &mut [i64],
    values: &mut [i64],
    choices: &mut [Choice],
) -> Result<i128, Memory>
    requires weighed { IsWeighed table.now book.now pool.now lists.now duals.old weights.old values.old }
    requires routes { HasRoutes book.now pool.now }
    requires each { length choices.old ≡ aircraft book.now }
    ensures settles { IfOk result (Settles table.now book.now pool.now.entries duals.old duals.new) }
    ensures memory { OnErr result (duals.new ≡ duals.old) }
{
    let mut due = vec![in alloc; true; book.activities.len()]?;
    let mut leap = Leap::new(alloc, book, pool)?;
    Ok(climb(
        book, table, pool, lists, duals, weights, values, choices, &mut due, &mut leap,
    ))
}

// Climbs with room for what each aircraft can choose.
fn climb_weighed(
    alloc: Global,
    book: &Book,
    table: &CostTable,
    pool: &Pool,
    lists: &RouteLists,
    duals: &mut [i64],
    weights: &mut [i64],
    values: &mut [i64],
) -> Result<i128, Memory>
    requires weighed { IsWeighed table.now book.now pool.now lists.now duals.old weights.old values.old }
    requires routes { HasRoutes book.now pool.now }
    ensures settles { IfOk result (Settles table.now book.now pool.now.entries duals.old duals.new) }
    ensures memory { OnErr result (duals.new ≡ duals.old) }
{
    let none = Choice {
        with: None,
        without: None,
    };
    let mut choices = vec![in alloc; none; book.tails.len()]?;
    climb_all(
        alloc,
        book,
        table,
        pool,
        lists,
        duals,
        weights,
        values,
        &mut choices,
    )
}

// Climbs with the weights of all routes.
fn climb_valued(
    alloc: Global,
    book: &Book,
    table: &CostTable,
    pool: &Pool,
    lists: &RouteLists,
    duals: &mut [i64],
    values: &mut [i64],
) -> Result<i128, Memory>
    requires table { IsTableFor book.now table.now }
    requires pool { IsPoolFor table.now book.now pool.now }
    requires routes { HasRoutes book.now pool.now }
    requires lists { AreListsOf pool.now (activities book.now) (aircraft book.now) lists.now }
    requires duals { AreDuals table.now book.now duals.old }
    requires values { values.old ≡ values_in table.now book.now duals.old pool.now.entries }
    ensures settles { IfOk result (Settles table.now book.now pool.now.entries duals.old duals.new) }
    ensures memory { OnErr result (duals.new ≡ duals.old) }
{
    least_in_is_least();
    let mut weights = weigh(alloc, book, table, pool, duals)?;
    climb_weighed(alloc, book, table, pool, lists, duals, &mut weights, values)
}

// Climbs with the least weights of all aircraft.
fn climb_listed(
    alloc: Global,
    book: &Book,
    table: &CostTable,
    pool: &Pool,
    lists: &RouteLists,
    duals: &mut Duals,
) -> Result<i128, Memory>
    requires table { IsTableFor book.now table.now }
    requires pool { IsPoolFor table.now book.now pool.now }
    requires routes { HasRoutes book.now pool.now }
    requires lists { AreListsOf pool.now (activities book.now) (aircraft book.now) lists.now }
    requires duals { AreDuals table.now book.now duals.old.values }
    ensures settles { IfOk result (Settles table.now book.now pool.now.entries duals.old.values duals.new.values) }
    ensures memory { OnErr result (duals.new ≡ duals.old) }
{
    let mut values = least_values(alloc, book, table, pool, duals)?;
    let values = &mut values;
    climb_valued(alloc, book, table, pool, lists, &mut duals.values, values)
}

/// Settles duals over a pool, and answers their Lagrangian sum, in thousandths of a cost unit.
pub fn settle(
    alloc: Global,
    pool: &Pool,
    book: &Book,
    table: &CostTable,
    duals: &mut Duals,
) -> Result<i128, Memory>
    requires table { IsTableFor book.now table.now }
    requires pool { IsPoolFor table.now book.now pool.now }
    requires routes { HasRoutes book.now pool.now }
    requires duals { AreDuals table.now book.now duals.old.values }
    ensures settled { IfOk result (λ _. IsSettledOver table.now book.now pool.now.entries duals.new.values) }
    ensures sum { IfOk result (λ sum. sum ≡ sum_in table.now book.now duals.new.values pool.now.entries) }
    ensures no_less { sum_in table.now book.now duals.old.values pool.now.entries ≤ℤ sum_in table.now book.now duals.new.values pool.now.entries }
    ensures duals { AreDuals table.now book.now duals.new.values }
    ensures memory { OnErr result (duals.new ≡ duals.old) }
{
    let lists = RouteLists::of(alloc, pool, book, table)?;
    climb_listed(alloc, book, table, pool, &lists, duals)
}
