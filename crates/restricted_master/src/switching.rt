//! The best dual of one activity: where exactly one aircraft takes it.
//!
//! Below the least switching price no aircraft takes the activity, so each unit that its dual rises is gained. Beyond the
//! second least one two aircraft do, and each unit is lost. In between nothing changes: the duals there are equally good,
//! and the one nearest to the present one is taken.

ghost use Rattle.std.specs.Prelude.{◌≡◌, ℕ, ◌<◌, ◌≤ℤ◌, ◌≤◌, ◌^◌, pos, ◌-ℤ◌, length};
ghost use Rattle.std.specs.Int.{int_max, int_min};
ghost use Rattle.tail_book.specs.Ranges.{IsWithin};
ghost use Rattle.restricted_master.specs.inside.Choices.{IsSmall, IsSmallChoice, IsTaken, IsTakenOnce, IsBest, choice_at, part_at};

use crate::choice::{Choice, greater, lesser};
use crate::laws;

/// The least and the second least switching price, within the box.
#[derive(Clone, Copy)]
struct Prices {
    least: i64,
    second: i64,
}

// The two least prices of all aircraft, the box's high end where there are none.
fn least_prices(choices: &[Choice], low: i64, high: i64) -> Prices
    requires small { (k : ℕ) → k < length choices.now → IsSmallChoice (choice_at choices.now k) }
    requires ends { low ≤ℤ high }
    ensures least { low ≤ℤ result.least }
    ensures order { result.least ≤ℤ result.second }
    ensures most { result.second ≤ℤ high }
    ensures taken { IsTaken low high choices.now (length choices.now) result.least }
    ensures once { IsTakenOnce low choices.now (length choices.now) result.second }
{
    let mut prices = Prices {
        least: high,
        second: high,
    };
    for k in 0..choices.len() {
        if let Some(price) = choices[k].price(low) {
            prices = with_price(prices, price);
        }
    }
    prices
}

// The two least prices with one more.
fn with_price(prices: Prices, price: i64) -> Prices
    ensures least { result.least ≡ int_min prices.least price }
    ensures second { result.second ≡ int_min prices.second (int_max prices.least price) }
{
    Prices {
        least: lesser(prices.least, price),
        second: lesser(prices.second, greater(prices.least, price)),
    }
}

/// The best dual that is nearest to the present one.
pub fn best_dual(choices: &[Choice], low: i64, high: i64, dual: i64) -> i64
    requires small { (k : ℕ) → k < length choices.now → IsSmallChoice (choice_at choices.now k) }
    requires dual { IsWithin low high dual }
    ensures within { IsWithin low high result }
    ensures best { IsBest low high choices.now result }
{
    laws::switching_prices_are_best();
    let prices = least_prices(choices, low, high);
    lesser(greater(dual, prices.least), prices.second)
}

/// What all aircraft take at a dual of the activity, with the dual itself, in thousandths of a cost unit.
pub fn part_at(choices: &[Choice], dual: i64) -> i128
    requires small { (k : ℕ) → k < length choices.now → IsSmallChoice (choice_at choices.now k) }
    requires dual { IsSmall dual }
    requires few { length choices.now ≤ 2 ^ 32 }
    ensures value { result ≡ part_at dual choices.now }
    ensures range { IsWithin (pos 0 -ℤ pos (2 ^ 96)) (pos (2 ^ 96)) result }
{
    let mut sum = dual as i128;
    for k in 0..choices.len() {
        sum += choices[k].taken_at(dual) as i128;
    }
    sum
}
