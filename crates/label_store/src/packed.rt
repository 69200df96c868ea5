//! The values of the rows of a bucket, one row after the other in one flat list.
//!
//! They stand in the order of the bucket's numbers, so that what looks at each row of a bucket walks through its list from
//! the front to the end. The rows themselves lie as far apart as they were kept, and a walk by their numbers jumps at each.
//! The price is that a row in a bucket has its values twice, and that they move with its number.

ghost use Rattle.std.specs.Prelude.{◌≡◌, ◌<◌, ◌≤◌, ◌*◌, length, take, slice_set, slice_index_or, vec_capacity};
ghost use Rattle.label_store.specs.inside.Packing.{part, HasMoved};

use crate::rows::place;
use std::marker::Model;

/// The values of the rows in a bucket, in the order of their numbers. Contracts see their list.
#[derive(Drop)]
pub struct Packed(pub Vec<i64>);

impl Model for Packed {
    ghost use Rattle.std.specs.Prelude.{ℤ, List};

    ghost Value = { List ℤ };

    ghost view = { λ p. p.0.items };
}

/// The values at a place, of so many rows.
pub fn part_of(values: &[i64], q: usize, count: usize, width: usize) -> &[i64]
    requires place { q < count }
    requires fill { length values.now ≡ count * width }
    ensures part { result.now ≡ part width q values.now }
    ensures width { length result.now ≡ width }
{
    let from = place(q, width, count, values);
    &values[from..from + width]
}

/// Moves the number of a row, and its values, to a place that is not behind its own.
pub fn move_row(bucket: &mut Vec<u32>, values: &mut Vec<i64>, from: usize, to: usize, width: usize)
    requires order { to ≤ from }
    requires place { from < length bucket.old.items }
    requires fill { length values.old.items ≡ length bucket.old.items * width }
    ensures number { bucket.new.items ≡ slice_set bucket.old.items to (slice_index_or bucket.old.items from 0) }
    ensures values { HasMoved width from to values.old.items values.new.items }
    ensures room { vec_capacity bucket.new ≡ vec_capacity bucket.old }
    ensures room_of_values { vec_capacity values.new ≡ vec_capacity values.old }
{
    if to < from {
        bucket[to] = bucket[from];
        let source = place(from, width, bucket.len(), values);
        let target = place(to, width, bucket.len(), values);
        values.copy_within(source..source + width, target);
    }
}

/// Lets the rows behind the first ones go.
pub fn cut(bucket: &mut Vec<u32>, values: &mut Vec<i64>, kept: usize, width: usize)
    requires few { kept ≤ length bucket.old.items }
    requires fill { length values.old.items ≡ length bucket.old.items * width }
    ensures numbers { bucket.new.items ≡ take kept bucket.old.items }
    ensures values { values.new.items ≡ take (kept * width) values.old.items }
    ensures room { vec_capacity bucket.new ≡ vec_capacity bucket.old }
    ensures room_of_values { vec_capacity values.new ≡ vec_capacity values.old }
{
    values.truncate(kept * width);
    bucket.truncate(kept);
}
