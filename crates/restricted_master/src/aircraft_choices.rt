//! The choices of all aircraft for one activity.
//!
//! The hot part of settling. The routes with the activity are walked once. An aircraft whose least route is lighter than
//! all that have the activity is done with that; the routes of another one are walked too, and a route is looked into
//! only where it is lighter than what was found before it.

ghost use Rattle.std.specs.Prelude.{◌≡◌, ℕ, ◌<◌, ◌+ℤ◌, ◌^◌, ◌&&◌, if◌then◌else◌, false, None, Some, All, not, length};
ghost use Rattle.tail_book.specs.Lookup.{activities, aircraft};
ghost use Rattle.tail_book.specs.Numbers.{contains};
ghost use Rattle.branch_marks.specs.Bound.{value_of};
ghost use Rattle.branch_marks.specs.Weights.{dual};
ghost use Rattle.restricted_master.specs.Lists.{list_at};
ghost use Rattle.restricted_master.specs.Pool.{aircraft_at};
ghost use Rattle.restricted_master.specs.inside.Choices.{choice_at, IsSmall, IsSmallChoice, IsSmallWeight};
ghost use Rattle.restricted_master.specs.inside.Least.{is_lighter, lighter, AreFound, IsAbove, IsChoiceOf, IsFound, IsLeastWith, IsLeastWithout, IsWeighed};

use crate::choice::{Choice, lesser};
use crate::{Pool, RouteLists, laws};
use branch_marks::laws::least_in_is_least;
use tail_book::laws::every_cost_table_is_sound;
use tail_book::{Book, CostTable};

// The lighter of a weight and the least so far.
fn lighter(least: Option<i64>, weight: i64) -> Option<i64>
    ensures { result ≡ lighter least weight }
{
    match least {
        None => Some(weight),
        Some(least) => Some(lesser(least, weight)),
    }
}

// Each aircraft has no route with the activity yet, and its least weight without it.
fn start(values: &[i64], choices: &mut [Choice])
    requires { length values.now ≡ length choices.old }
    ensures with { (k : ℕ) → k < length choices.new → (choice_at choices.new k).with ≡ None }
    ensures without { (k : ℕ) → k < length choices.new → (choice_at choices.new k).without ≡ Some (value_of values.now k) }
{
    for k in 0..choices.len() {
        choices[k] = Choice {
            with: None,
            without: Some(values[k]),
        };
    }
}

// The least weight with the activity, for each aircraft.
fn add_with(pool: &Pool, numbers: &[u32], weights: &[i64], dual: i64, choices: &mut [Choice])
    requires numbers { All (λ i. i < length pool.now.entries) numbers.now }
    requires aircraft { (i : ℕ) → i < length pool.now.entries → aircraft_at pool.now i < length choices.old }
    requires weights { length weights.now ≡ length pool.now.entries }
    requires small { All IsSmall weights.now }
    requires dual { IsSmall dual }
    requires none { (k : ℕ) → k < length choices.old → (choice_at choices.old k).with ≡ None }
    ensures least { (k : ℕ) → k < length choices.new → IsLeastWith pool.now numbers.now weights.now dual k (choice_at choices.new k).with }
    ensures same { (k : ℕ) → k < length choices.new → (choice_at choices.new k).without ≡ (choice_at choices.old k).without }
{
    for q in 0..numbers.len() {
        let i = numbers[q] as usize;
        let k = pool.aircraft(i) as usize;
        let choice = choices[k];
        choices[k] = Choice {
            with: lighter(choice.with, weights[i] + dual),
            without: choice.without,
        };
    }
}

// Whether a weight is lighter than the least so far.
fn is_lighter(weight: i64, least: Option<i64>) -> bool
    ensures { result ≡ is_lighter weight least }
{
    match least {
        None => true,
        Some(least) => weight < least,
    }
}

// Whether a route has an activity.
fn has(route: &[u32], a: u32) -> bool
    ensures { result ≡ contains route.now a }
{
    route.iter().any(|b| a == *b)
}

// The least so far with one more route, which counts where it does not have the activity.
fn lighter_without(least: Option<i64>, weight: i64, route: &[u32], a: u32) -> Option<i64>
    ensures { result ≡ (if is_lighter weight least && not (contains route.now a) then Some weight else least) }
{
    if is_lighter(weight, least) && !has(route, a) {
        Some(weight)
    } else {
        least
    }
}

// The least weight of these routes without the activity.
fn least_without(pool: &Pool, numbers: &[u32], weights: &[i64], a: u32) -> Option<i64>
    requires numbers { All (λ i. i < length pool.now.entries) numbers.now }
    requires weights { length weights.now ≡ length pool.now.entries }
    ensures { IsLeastWithout pool.now numbers.now weights.now a result }
{
    let mut least = None;
    for q in 0..numbers.len() {
        let i = numbers[q] as usize;
        least = lighter_without(least, weights[i], pool.route(i), a);
    }
    least
}

// Whether an aircraft's least weight may be that of a route with the activity.
fn may_take(with: Option<i64>, dual: i64, value: i64) -> bool
    requires with { IsSmallWeight (2 ^ 62) with }
    requires dual { IsSmall dual }
    ensures { result ≡ false → IsAbove (value +ℤ dual) with }
{
    match with {
        None => false,
        Some(with) => with - dual <= value,
    }
}

// The choice of one aircraft, with the least weight without the activity looked for where it may take it now.
fn completed(
    pool: &Pool,
    numbers: &[u32],
    weights: &[i64],
    a: u32,
    dual: i64,
    value: i64,
    choice: &Choice,
) -> Choice
    requires numbers { All (λ i. i < length pool.now.entries) numbers.now }
    requires weights { length weights.now ≡ length pool.now.entries }
    requires with { IsSmallWeight (2 ^ 62) choice.now.with }
    requires dual { IsSmall dual }
    ensures { IsFound pool.now numbers.now weights.now a (value +ℤ dual) choice.now result }
{
    let without = if may_take(choice.with, dual, value) {
        least_without(pool, numbers, weights, a)
    } else {
        choice.without
    };
    Choice {
        with: choice.with,
        without,
    }
}

// The same for each aircraft.
fn complete(
    pool: &Pool,
    lists: &RouteLists,
    weights: &[i64],
    values: &[i64],
    a: u32,
    dual: i64,
    choices: &mut [Choice],
)
    requires numbers { (k : ℕ) → k < length choices.old → All (λ i. i < length pool.now.entries) (list_at lists.now.by_aircraft k) }
    requires each { length lists.now.by_aircraft ≡ length choices.old }
    requires weights { length weights.now ≡ length pool.now.entries }
    requires values { length values.now ≡ length choices.old }
    requires with { (k : ℕ) → k < length choices.old → IsSmallWeight (2 ^ 62) (choice_at choices.old k).with }
    requires dual { IsSmall dual }
    ensures { AreFound pool.now lists.now.by_aircraft weights.now values.now a dual choices.old choices.new }
{
    for k in 0..choices.len() {
        choices[k] = completed(
            pool,
            lists.of_aircraft(k),
            weights,
            a,
            dual,
            values[k],
            &choices[k],
        );
    }
}

/// The choices of all aircraft for an activity.
pub fn choose(
    book: &Book,
    table: &CostTable,
    pool: &Pool,
    lists: &RouteLists,
    duals: &[i64],
    weights: &[i64],
    values: &[i64],
    a: u32,
    choices: &mut [Choice],
)
    requires weighed { IsWeighed table.now book.now pool.now lists.now duals.now weights.now values.now }
    requires activity { a < activities book.now }
    requires choices { length choices.old ≡ aircraft book.now }
    ensures chosen { (k : ℕ) → k < aircraft book.now → IsChoiceOf pool.now weights.now a (dual duals.now a) k (choice_at choices.new k) }
    ensures small { (k : ℕ) → k < aircraft book.now → IsSmallChoice (choice_at choices.new k) }
{
    least_in_is_least();
    laws::weights_are_small();
    every_cost_table_is_sound(table);
    let dual = duals[a as usize];
    start(values, choices);
    add_with(pool, lists.with(a as usize), weights, dual, choices);
    complete(pool, lists, weights, values, a, dual, choices);
}
