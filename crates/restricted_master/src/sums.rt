//! Sums of lists of numbers, and the Lagrangian sum of duals and values.

ghost use Rattle.std.specs.Prelude.{◌≡◌, ◌≤◌, ◌-ℤ◌, ◌^◌, pos, length};
ghost use Rattle.tail_book.specs.Ranges.{IsWithin};
ghost use Rattle.tail_book.specs.Sums.{total};
ghost use Rattle.branch_marks.specs.Bound.{lagrangian};

// The sum of a list.
fn total(list: &[i64]) -> i128
    requires { length list.now ≤ 2 ^ 32 }
    ensures value { result ≡ total list.now }
    ensures range { IsWithin (pos 0 -ℤ pos (2 ^ 96)) (pos (2 ^ 96)) result }
{
    let mut sum = 0;
    for i in 0..list.len() {
        sum += list[i] as i128;
    }
    sum
}

/// The sum of duals and values, in thousandths of a cost unit.
pub fn lagrangian(duals: &[i64], values: &[i64]) -> i128
    requires duals { length duals.now ≤ 2 ^ 32 }
    requires values { length values.now ≤ 2 ^ 32 }
    ensures { result ≡ lagrangian duals.now values.now }
{
    total(duals) + total(values)
}
