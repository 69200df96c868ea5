//! The Lagrangian sum with fees of what was settled.

ghost use Rattle.std.specs.Prelude.{◌≡◌, ◌≤◌, ◌-ℤ◌, ◌*ℤ◌, ◌^◌, pos, All, length};
ghost use Rattle.tail_book.specs.Ranges.{IsWithin};
ghost use Rattle.tail_book.specs.Sums.{total};
ghost use Rattle.quota_rows.specs.Fees.{fees_at_most};
ghost use Rattle.fee_master.specs.inside.Lines.{IsFairRise};
ghost use Rattle.fee_master.specs.inside.Settling.{IsClear, IsFixed, IsPriced, sum_for};

use crate::fixed::Fixed;
use crate::laws;
use crate::lines::touch_all;
use quota_rows::Quota;
use tail_book::laws::{every_book_is_sound, every_cost_table_is_sound};

/// So many times a price.
pub fn product(times: u64, price: i64) -> i128
    requires { IsFairRise price }
    ensures value { result ≡ (pos times *ℤ price) }
    ensures range { IsWithin (pos 0 -ℤ pos (2 ^ 109)) (pos (2 ^ 109)) result }
{
    times as i128 * price as i128
}

/// The sum of a list.
pub fn total(list: &[i64]) -> i128
    requires { length list.now ≤ 2 ^ 32 }
    ensures value { result ≡ total list.now }
    ensures range { IsWithin (pos 0 -ℤ pos (2 ^ 96)) (pos (2 ^ 96)) result }
{
    let mut sum = 0;
    for i in 0..list.len() {
        sum += list[i] as i128;
    }
    sum
}

/// What fees come to where each quota is used as often as it may be.
pub fn fees_at_most(quotas: &[Quota], fees: &[i64]) -> i128
    requires one_each { length fees.now ≡ length quotas.now }
    requires few { length quotas.now ≤ 50 }
    requires fair { All IsFairRise fees.now }
    ensures value { result ≡ fees_at_most quotas.now fees.now }
    ensures range { IsWithin (pos 0 -ℤ pos (2 ^ 120)) (pos (2 ^ 120)) result }
{
    let mut sum = 0;
    for q in 0..quotas.len() {
        sum += product(quotas[q].most, fees[q]);
    }
    sum
}

/// The sum over the pool, in thousandths of a cost unit.
pub fn sum_of(fixed: &Fixed, duals: &[i64], fees: &[i64], weights: &[i64], times: &[u32]) -> i128
    requires fixed { IsFixed fixed.now }
    requires priced { IsPriced fixed.now duals.now fees.now weights.now }
    requires clear { IsClear fixed.now times.now }
    ensures { result ≡ sum_for fixed.now duals.now fees.now }
{
    every_book_is_sound(fixed.book);
    every_cost_table_is_sound(fixed.table);
    laws::prices_are_fair();
    let values = touch_all(fixed, weights, times, 0).sum;
    total(duals) + values - fees_at_most(fixed.quotas, fees)
}
