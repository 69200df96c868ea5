//! A look at one activity: its dual moves to the best number where that gains a cost unit, and with it all weights.
//!
//! What each aircraft can choose gives the sum at any number for the dual, so nothing moves before the best one is
//! known. Then only the routes with the activity change, all by the same, and each aircraft's least weight is the
//! lesser of its two choices: no route is weighed anew, and nothing is allocated.

ghost use Rattle.std.specs.Prelude.{◌≡◌, ℕ, ◌<◌, ◌≤◌, ◌-ℤ◌, ◌^◌, All, length, pos};
ghost use Rattle.tail_book.specs.Lookup.{activities, aircraft};
ghost use Rattle.tail_book.specs.CostTable.{box_end, IsInBox};
ghost use Rattle.tail_book.specs.Ranges.{IsWithin};
ghost use Rattle.branch_marks.specs.Bound.{value_of};
ghost use Rattle.branch_marks.specs.Weights.{dual};
ghost use Rattle.branch_marks.specs.Settled.{with_dual};
ghost use Rattle.restricted_master.specs.Pool.{HasRoutes};
ghost use Rattle.restricted_master.specs.inside.Choices.{choice_at, taken_at, IsBetter, IsSmall, IsSmallChoice};
ghost use Rattle.restricted_master.specs.inside.Least.{IsChoiceOf, IsWeighed};
ghost use Rattle.restricted_master.specs.inside.Listing.{AreApart};
ghost use Rattle.restricted_master.specs.inside.Moving.{AreShifted, LooksAt};

use crate::aircraft_choices::choose;
use crate::choice::Choice;
use crate::switching::{best_dual, part_at};
use crate::{Pool, RouteLists, laws};
use branch_marks::laws::least_in_is_least;
use tail_book::laws::{every_book_is_sound, every_cost_table_is_sound};
use tail_book::{Book, COST_UNIT, CostTable};

// The best dual of the box, where it gains at least a cost unit over this one.
fn better_dual(table: &CostTable, choices: &[Choice], dual: i64) -> Option<i64>
    requires small { (k : ℕ) → k < length choices.now → IsSmallChoice (choice_at choices.now k) }
    requires few { length choices.now ≤ 2 ^ 32 }
    requires dual { IsInBox table.now dual }
    requires ends { box_end table.now ≤ 2 ^ 61 }
    ensures { IsBetter table.now choices.now dual result }
{
    let end = table.box_end();
    let best = best_dual(choices, -end, end, dual);
    if part_at(choices, best) - part_at(choices, dual) < COST_UNIT as i128 {
        None
    } else {
        Some(best)
    }
}

// Takes so much from the weights of these routes.
fn shift(weights: &mut [i64], numbers: &[u32], rise: i64)
    requires numbers { All (λ i. i < length weights.old) numbers.now }
    requires apart { AreApart numbers.now }
    requires small { All IsSmall weights.old }
    requires rise { IsWithin (pos 0 -ℤ pos (2 ^ 62)) (pos (2 ^ 62)) rise }
    ensures { AreShifted numbers.now rise weights.old weights.new }
{
    for q in 0..numbers.len() {
        weights[numbers[q] as usize] -= rise;
    }
}

// Writes what each aircraft takes at a dual.
fn take_all(choices: &[Choice], dual: i64, values: &mut [i64])
    requires each { length values.old ≡ length choices.now }
    requires small { (k : ℕ) → k < length choices.now → IsSmallChoice (choice_at choices.now k) }
    requires dual { IsSmall dual }
    ensures { (k : ℕ) → k < length values.new → value_of values.new k ≡ taken_at dual (choice_at choices.now k).with (choice_at choices.now k).without }
{
    for k in 0..values.len() {
        values[k] = choices[k].taken_at(dual);
    }
}

// Moves the dual of an activity, and all that hangs on it.
fn move_dual(
    book: &Book,
    table: &CostTable,
    pool: &Pool,
    lists: &RouteLists,
    duals: &mut [i64],
    weights: &mut [i64],
    values: &mut [i64],
    choices: &[Choice],
    a: u32,
    to: i64,
)
    requires weighed { IsWeighed table.now book.now pool.now lists.now duals.old weights.old values.old }
    requires routes { HasRoutes book.now pool.now }
    requires activity { a < activities book.now }
    requires each { length choices.now ≡ aircraft book.now }
    requires chosen { (k : ℕ) → k < aircraft book.now → IsChoiceOf pool.now weights.old a (dual duals.old a) k (choice_at choices.now k) }
    requires small { (k : ℕ) → k < aircraft book.now → IsSmallChoice (choice_at choices.now k) }
    requires to { IsInBox table.now to }
    ensures duals { duals.new ≡ with_dual duals.old a to }
    ensures weighed { IsWeighed table.now book.now pool.now lists.now duals.new weights.new values.new }
{
    least_in_is_least();
    laws::weights_are_small();
    every_cost_table_is_sound(table);
    let rise = to - duals[a as usize];
    shift(weights, lists.with(a as usize), rise);
    take_all(choices, to, values);
    duals[a as usize] = to;
}

/// Looks at an activity. Its dual moves where that gains at least a cost unit, and then to the best number of the box
/// that is nearest to it.
pub fn look_at(
    book: &Book,
    table: &CostTable,
    pool: &Pool,
    lists: &RouteLists,
    duals: &mut [i64],
    weights: &mut [i64],
    values: &mut [i64],
    choices: &mut [Choice],
    a: u32,
) -> bool
    requires weighed { IsWeighed table.now book.now pool.now lists.now duals.old weights.old values.old }
    requires routes { HasRoutes book.now pool.now }
    requires activity { a < activities book.now }
    requires each { length choices.old ≡ aircraft book.now }
    ensures weighed { IsWeighed table.now book.now pool.now lists.now duals.new weights.new values.new }
    ensures looked { LooksAt table.now book.now pool.now.entries a duals.old duals.new result }
{
    every_book_is_sound(book);
    least_in_is_least();
    laws::weights_are_small();
    every_cost_table_is_sound(table);
    choose(book, table, pool, lists, duals, weights, values, a, choices);
    let Some(best) = better_dual(table, choices, duals[a as usize]) else {
        return false;
    };
    move_dual(
        book, table, pool, lists, duals, weights, values, choices, a, best,
    );
    true
}
