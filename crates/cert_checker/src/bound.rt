//! What the duals of a leaf and the values of its covers bound.
//!
//! Sums are taken in 128 bits, where none of a book's numbers of duals and covers can pass the range.

ghost use Rattle.std.specs.Prelude.{◌≡◌, ◌≤◌, ◌*◌, ◌^◌, ◌+ℤ◌, ◌-ℤ◌, pos, length};
ghost use Rattle.tail_book.specs.Ranges.{IsWithin};
ghost use Rattle.tail_book.specs.Sums.{total};
ghost use Rattle.branch_marks.specs.Bound.{lagrangian, rounded_up};
ghost use Rattle.cert_checker.specs.Step.{lower};

use tail_book::COST_UNIT;

/// A sum with one value more.
pub fn added(sum: &i128, value: &i64) -> i128
    requires { IsWithin (pos 0 -ℤ pos (2 ^ 80)) (pos (2 ^ 80)) sum.now }
    ensures sum { result ≡ sum.now +ℤ value.now }
    ensures value { IsWithin (pos 0 -ℤ pos (2 ^ 63)) (pos (2 ^ 63)) value.now }
{
    *sum + *value as i128
}

// The sum of all duals.
fn total(duals: &[i64]) -> i128
    requires { length duals.now ≤ 4096 }
    ensures value { result ≡ total duals.now }
    ensures range { IsWithin (pos 0 -ℤ pos (2 ^ 80)) (pos (2 ^ 80)) result }
{
    let mut sum = 0i128;
    for i in 0..duals.len() {
        sum = added(&sum, &duals[i]);
    }
    sum
}

// Thousandths of cost units as cost units, rounded up, and 0 where they are negative.
fn rounded_up(thousandths: i128) -> u128
    requires { IsWithin (pos 0 -ℤ pos (2 ^ 90)) (pos (2 ^ 90)) thousandths }
    ensures { result ≡ rounded_up thousandths }
{
    if thousandths < 0 {
        return 0;
    }
    (thousandths as u128 + 999) / u128::from(COST_UNIT)
}

/// What duals and the sum of all values of covers bound, in cost units.
pub fn bound_of(duals: &[i64], values: &i128) -> u128
    requires duals { length duals.now ≤ 4096 }
    requires values { IsWithin (pos 0 -ℤ pos (2 ^ 80)) (pos (2 ^ 80)) values.now }
    ensures { result ≡ rounded_up (total duals.now +ℤ values.now) }
{
    rounded_up(total(duals) + *values)
}

/// What duals and the least weights of all aircraft bound, in cost units.
pub fn bound_by(duals: &[i64], values: &[i64]) -> u128
    requires duals { length duals.now ≤ 4096 }
    requires values { length values.now ≤ 4096 }
    ensures { result ≡ rounded_up (lagrangian duals.now values.now) }
{
    rounded_up(total(duals) + total(values))
}

/// The lesser of two bounds in cost units, where there is one before.
pub fn lower(low: Option<u128>, bound: u128) -> Option<u128>
    ensures { result ≡ lower low bound }
{
    match low {
        None => Some(bound),
        Some(least) => Some(least.min(bound)),
    }
}
