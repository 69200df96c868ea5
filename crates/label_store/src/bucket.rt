//! Dominance in a bucket: what covers a row, what it covers, and what it leaves.
//!
//! The innermost loops of pricing. A bucket keeps the values of its rows beside their numbers, one row after the other,
//! so an offer walks through one flat list and jumps to no row. The weight of a label is at place 0 of its row, where
//! most pairs are decided. A row's values move only with its number, when one before it has left, and nothing is asked
//! of memory but the growths of a row that enters.

ghost use Rattle.std.specs.Prelude.{◌≡◌, ◌<◌, ◌≤◌, ◌^◌, ℕ, All, length, IfOk, OnErr, MatchOption, vec_capacity, vec_len};
ghost use Rattle.std.specs.List.{filter};
ghost use Rattle.tail_book.specs.CounterOrder.{each_at_most};
ghost use Rattle.label_store.specs.Buckets.{IsCovered, IsCoveredBy, stays_beside, bucket_with};
ghost use Rattle.label_store.specs.inside.Packing.{IsPacked};
ghost use Rattle.label_store.specs.inside.RowsParts.{rows_with};

use crate::packed::{cut, move_row, part_of};
use crate::rows::{Rows, put, put_all};
use std::marker::Model;
use tail_book::Memory;
use tail_book::laws::each_at_most_decides;

/// The numbers of the rows in a bucket, in the order in which they entered. Contracts see their list.
#[derive(Drop)]
pub struct Bucket(pub Vec<u32>);

impl Model for Bucket {
    ghost use Rattle.std.specs.Prelude.{ℕ, List};

    ghost Value = { List ℕ };

    ghost view = { λ b. b.0.items };
}

// How many rows can be numbered.
const MOST_ROWS: usize = 1 << 32;

/// Whether one row covers another: none of its values is larger.
pub fn covers(one: &[i64], other: &[i64]) -> bool
    requires { length one.now ≡ length other.now }
    ensures { result ≡ each_at_most one.now other.now }
{
    for c in 0..one.len() {
        if one[c] > other[c] {
            return false;
        }
    }
    true
}

/// A row of the bucket that covers this one, if any does.
pub fn covering(rows: &Rows, bucket: &[u32], values: &[i64], row: &[i64]) -> Option<u32>
    requires width { length row.now ≡ rows.now.width }
    requires packed { IsPacked rows.now.width rows.now.rows bucket.now values.now }
    ensures { MatchOption result (¬ IsCovered rows.now.rows bucket.now row.now) (λ j. IsCoveredBy rows.now.rows bucket.now row.now j) }
{
    each_at_most_decides();
    let (count, width) = (bucket.len(), rows.width());
    for q in 0..count {
        if covers(part_of(values, q, count, width), row) {
            return Some(bucket[q]);
        }
    }
    None
}

// Lets the rows that this one covers leave the bucket. What stays keeps its order and moves to the front.
fn drop_covered(rows: &Rows, bucket: &mut Vec<u32>, values: &mut Vec<i64>, row: &[i64])
    requires width { length row.now ≡ rows.now.width }
    requires packed { IsPacked rows.now.width rows.now.rows bucket.old.items values.old.items }
    ensures stay { bucket.new.items ≡ filter (stays_beside rows.now.rows row.now) bucket.old.items }
    ensures packed { IsPacked rows.now.width rows.now.rows bucket.new.items values.new.items }
    ensures shorter { vec_len bucket.new ≤ vec_len bucket.old }
    ensures shorter_values { vec_len values.new ≤ vec_len values.old }
    ensures room { vec_capacity bucket.old ≤ vec_capacity bucket.new }
    ensures room_of_values { vec_capacity values.old ≤ vec_capacity values.new }
{
    let (count, width) = (bucket.len(), rows.width());
    let mut kept = 0;
    for q in 0..count {
        if !covers(row, part_of(values, q, count, width)) {
            move_row(bucket, values, q, kept, width);
            kept += 1;
        }
    }
    cut(bucket, values, kept, width);
}

/// Lets a row enter that nothing in its bucket covers, and gives its number.
pub fn enter(
    rows: &mut Rows,
    bucket: &mut Vec<u32>,
    values: &mut Vec<i64>,
    node: u32,
    parent: Option<u32>,
    row: &[i64],
) -> Result<usize, Memory>
    requires width { length row.now ≡ rows.old.width }
    requires numbers { All (λ j. j < length rows.old.rows) bucket.old.items }
    requires packed { IsPacked rows.old.width rows.old.rows bucket.old.items values.old.items }
    ensures number { IfOk result (λ i. (i ≡ length rows.old.rows) × (i < 2 ^ 32)) }
    ensures rows { IfOk result (λ _. rows.new ≡ rows_with rows.old node parent row.now) }
    ensures bucket { IfOk result (λ i. bucket.new.items ≡ bucket_with rows.old.rows bucket.old.items row.now i) }
    ensures packed { IsPacked rows.new.width rows.new.rows bucket.new.items values.new.items }
    ensures same_rows { OnErr result (rows.new ≡ rows.old) }
    ensures same_bucket { OnErr result (bucket.new.items ≡ bucket.old.items) }
{
    let number = rows.len();
    if number >= MOST_ROWS {
        return Err(Memory);
    }
    bucket.reserve(1)?;
    values.reserve(row.len())?;
    rows.push(node, parent, row)?;
    drop_covered(rows, bucket, values, row);
    put(bucket, number as u32);
    put_all(values, row);
    Ok(number)
}
