//! A look at one dual or one fee: it moves to its best number where that gains a cost unit, and with it the weights of the routes.

ghost use Rattle.std.specs.Prelude.{◌≡◌, ℕ, ◌<◌, All, if◌then◌else◌, length};
ghost use Rattle.tail_book.specs.Lookup.{activities};
ghost use Rattle.tail_book.specs.Numbers.{contains};
ghost use Rattle.restricted_master.specs.inside.Least.{weight_at};
ghost use Rattle.fee_master.specs.inside.Lines.{AreFairLines, IsFairRise, line_at};
ghost use Rattle.fee_master.specs.inside.Settling.{AreTimesOf, IsClear, IsFixed, IsPriced, IsSettledDual, IsSettledFee, Looks};
ghost use Rattle.fee_master.specs.inside.Uses.{times_at};

use crate::best_rise::gain;
use crate::fixed::Fixed;
use crate::laws;
use crate::quota_uses::counts_at;
use tail_book::laws::{every_book_is_sound, every_cost_table_is_sound};

// Adds what rises to each weight, as often as the route pays it.
fn shift(weights: &mut [i64], times: &[u32], rise: i64)
    requires each { length times.now ≡ length weights.old }
    requires fair { AreFairLines weights.old times.now }
    requires rise { IsFairRise rise }
    ensures { (i : ℕ) → i < length weights.new → weight_at weights.new i ≡ line_at weights.old times.now rise i }
{
    for i in 0..weights.len() {
        weights[i] += times[i] as i64 * rise;
    }
}

// Writes a number at each of these places.
fn write_all(times: &mut [u32], numbers: &[u32], number: u32)
    requires { All (λ i. i < length times.old) numbers.now }
    ensures { (i : ℕ) → i < length times.new → times_at times.new i ≡ (if contains numbers.now i then number else times_at times.old i) }
{
    for q in 0..numbers.len() {
        times[numbers[q] as usize] = number;
    }
}

// Moves the dual of an activity to its best number, where that gains a cost unit: it falls as a fee rises that each route with the
// activity pays once.
fn move_dual(
    fixed: &Fixed,
    duals: &mut [i64],
    fees: &[i64],
    weights: &mut [i64],
    times: &[u32],
    a: u32,
) -> bool
    requires fixed { IsFixed fixed.now }
    requires priced { IsPriced fixed.now duals.old fees.now weights.old }
    requires times { AreTimesOf fixed.now a times.now }
    requires activity { a < activities fixed.now.book.now }
    ensures priced { IsPriced fixed.now duals.new fees.now weights.new }
    ensures looks { Looks fixed.now (IsSettledDual fixed.now duals.new fees.now a) duals.old fees.now duals.new fees.now result }
{
    let (book, table) = (fixed.book, fixed.table);
    every_book_is_sound(book);
    every_cost_table_is_sound(table);
    laws::prices_are_fair();
    let (end, dual) = (table.box_end(), duals[a as usize]);
    match gain(fixed, weights, times, 1, dual - end, dual + end) {
        None => false,
        Some(rise) => {
            shift(weights, times, rise);
            duals[a as usize] = dual - rise;
            true
        }
    }
}

/// Looks at the dual of an activity. The scratch is clear before and after.
pub fn look_at_dual(
    fixed: &Fixed,
    duals: &mut [i64],
    fees: &[i64],
    weights: &mut [i64],
    times: &mut [u32],
    a: u32,
) -> bool
    requires fixed { IsFixed fixed.now }
    requires priced { IsPriced fixed.now duals.old fees.now weights.old }
    requires clear { IsClear fixed.now times.old }
    requires activity { a < activities fixed.now.book.now }
    ensures priced { IsPriced fixed.now duals.new fees.now weights.new }
    ensures clear { IsClear fixed.now times.new }
    ensures looks { Looks fixed.now (IsSettledDual fixed.now duals.new fees.now a) duals.old fees.now duals.new fees.now result }
{
    let lists = fixed.lists;
    write_all(times, lists.with(a as usize), 1);
    let moved = move_dual(fixed, duals, fees, weights, times, a);
    write_all(times, lists.with(a as usize), 0);
    moved
}

/// Looks at the fee of a quota.
pub fn look_at_fee(
    fixed: &Fixed,
    duals: &[i64],
    fees: &mut [i64],
    weights: &mut [i64],
    q: usize,
) -> bool
    requires fixed { IsFixed fixed.now }
    requires priced { IsPriced fixed.now duals.now fees.old weights.old }
    requires quota { q < length fixed.now.quotas.now }
    ensures priced { IsPriced fixed.now duals.now fees.new weights.new }
    ensures looks { Looks fixed.now (IsSettledFee fixed.now duals.now fees.new q) duals.now fees.old duals.now fees.new result }
{
    let (book, table) = (fixed.book, fixed.table);
    every_book_is_sound(book);
    every_cost_table_is_sound(table);
    laws::prices_are_fair();
    let times = counts_at(fixed.uses, q);
    let (end, fee) = (table.box_end(), fees[q]);
    let quotas = fixed.quotas;
    match gain(fixed, weights, times, quotas[q].most, -fee, end - fee) {
        None => false,
        Some(rise) => {
            shift(weights, times, rise);
            fees[q] = fee + rise;
            true
        }
    }
}
