//! The sum over a pool at a rise of one dual or one fee: each route is a line in the rise, and each aircraft takes its lowest.
//!
//! A dual that falls is a fee of one activity that rises, which may be paid once: so both are one case. The lowest lines at one rise
//! are nowhere below what the aircraft take, so together they are a tangent of the sum: it says on which side nothing is better.
//! This is the inner loop of settling: one walk over the routes for each rise that is tried.

ghost use Rattle.std.specs.Prelude.{◌≡◌, ◌<◌, ◌≤ℤ◌, ◌-ℤ◌, ◌^◌, ◌⊎◌, pos, All, length};
ghost use Rattle.tail_book.specs.Lookup.{aircraft};
ghost use Rattle.tail_book.specs.Ranges.{IsWithin};
ghost use Rattle.fee_master.specs.inside.Lines.{AreFairLines, IsFairRise, IsLowest, IsTouching, line_at};
ghost use Rattle.fee_master.specs.inside.Settling.{IsFixed, IsTangentFor};
ghost use Rattle.fee_master.specs.inside.Uses.{times_at};

use crate::fixed::Fixed;
use crate::sums::product;
use tail_book::laws::every_book_is_sound;

/// The lowest line of an aircraft at a rise: its value there, in thousandths of a cost unit, and how steep it is.
#[derive(Clone, Copy)]
pub struct Touch {
    pub value: i64,
    pub times: u32,
}

/// What all aircraft take together at a rise, less what the rise may come to, and how often they pay it.
#[derive(Clone, Copy)]
pub struct Tangent {
    pub part: i128,
    pub count: u64,
}

// The line of one route at a rise.
fn touch_at(weights: &[i64], times: &[u32], rise: i64, i: usize) -> Touch
    requires weight { i < length weights.now }
    requires time { i < length times.now }
    requires fair { AreFairLines weights.now times.now }
    requires rise { IsFairRise rise }
    ensures value { result.value ≡ line_at weights.now times.now rise i }
    ensures times { result.times ≡ times_at times.now i }
{
    Touch {
        value: weights[i] + times[i] as i64 * rise,
        times: times[i],
    }
}

// The lower of two lines.
fn lower(one: Touch, other: Touch) -> Touch
    ensures first { result.value ≤ℤ one.value }
    ensures second { result.value ≤ℤ other.value }
    ensures either { (result ≡ one) ⊎ (result ≡ other) }
{
    if other.value < one.value { other } else { one }
}

// The lowest line of these routes at a rise.
fn lowest(numbers: &[u32], weights: &[i64], times: &[u32], rise: i64) -> Touch
    requires some { 0 < length numbers.now }
    requires numbers { All (λ i. i < length weights.now) numbers.now }
    requires each { length times.now ≡ length weights.now }
    requires fair { AreFairLines weights.now times.now }
    requires rise { IsFairRise rise }
    ensures { IsLowest numbers.now (length numbers.now) weights.now times.now rise result }
{
    let mut touch = touch_at(weights, times, rise, numbers[0] as usize);
    for q in 1..numbers.len() {
        touch = lower(touch, touch_at(weights, times, rise, numbers[q] as usize));
    }
    touch
}

/// What all aircraft take at a rise, and how often they pay it.
#[derive(Clone, Copy)]
pub struct Touching {
    pub sum: i128,
    pub count: u64,
}

// The lowest lines of all aircraft at a rise.
pub fn touch_all(fixed: &Fixed, weights: &[i64], times: &[u32], rise: i64) -> Touching
    requires fixed { IsFixed fixed.now }
    requires weights { length weights.now ≡ length fixed.now.pool.now.entries }
    requires times { length times.now ≡ length fixed.now.pool.now.entries }
    requires fair { AreFairLines weights.now times.now }
    requires rise { IsFairRise rise }
    ensures touching { IsTouching fixed.now.pool.now (aircraft fixed.now.book.now) weights.now times.now rise result.sum result.count }
    ensures range { IsWithin (pos 0 -ℤ pos (2 ^ 96)) (pos (2 ^ 96)) result.sum }
{
    let book = fixed.book;
    let lists = fixed.lists;
    every_book_is_sound(book);
    let mut touching = Touching { sum: 0, count: 0 };
    for k in 0..book.tails.len() {
        let touch = lowest(lists.of_aircraft(k), weights, times, rise);
        touching = Touching {
            sum: touching.sum + touch.value as i128,
            count: touching.count + touch.times as u64,
        };
    }
    touching
}

/// The tangent of the sum at a rise that may be paid so often at most.
pub fn tangent_at(fixed: &Fixed, weights: &[i64], times: &[u32], most: u64, rise: i64) -> Tangent
    requires fixed { IsFixed fixed.now }
    requires weights { length weights.now ≡ length fixed.now.pool.now.entries }
    requires times { length times.now ≡ length fixed.now.pool.now.entries }
    requires fair { AreFairLines weights.now times.now }
    requires rise { IsFairRise rise }
    ensures tangent { IsTangentFor fixed.now weights.now times.now most rise result }
    ensures range { IsWithin (pos 0 -ℤ pos (2 ^ 120)) (pos (2 ^ 120)) result.part }
{
    let touching = touch_all(fixed, weights, times, rise);
    Tangent {
        part: touching.sum - product(most, rise),
        count: touching.count,
    }
}
