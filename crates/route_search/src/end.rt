//! Where an aircraft ends its route: at its carry-in or at a row of a bucket, where the marks let it, and the least such end.
//!
//! With each lighter end the limit falls to it and the slack, so that what comes later has less to do.

ghost use Rattle.std.specs.Prelude.{true, false, ◌≡◌, ◌<◌, ◌≤◌, ◌≤ℤ◌, ◌⊎◌, ℤ, length, Some, IfSome};
ghost use Rattle.tail_book.specs.declared.place.Place.TheVariants.{After};
ghost use Rattle.tail_book.specs.Lookup.{activities};
ghost use Rattle.branch_marks.specs.Marks.{MayEnd};
ghost use Rattle.label_store.specs.Buckets.{row_at};
ghost use Rattle.pricing.specs.Rows.{weight_of};
ghost use Rattle.pricing.specs.inside.Ends.{IsAtMost};
ghost use Rattle.pricing.specs.inside.WeightRange.{IsBroad, IsSmall};
ghost use Rattle.route_search.specs.inside.Ends.{IsEndLimit, AreNoHeavier};
ghost use Rattle.route_search.specs.inside.ForTask.{AreEndsFor, AreTrueFor, IsEndFor, IsLeastWithinLimitAtFor};
ghost use Rattle.route_search.specs.inside.Task.{IsTask};

use crate::task::{Task, every_task_is_sound};
use label_store::Store;
use label_store::laws::every_store_is_sound;
use pricing::laws::true_rows_are_small;
use pricing::{RouteEnd, weight_of};
use tail_book::Place;

/// The least end so far, and the weight beyond which nothing is looked for.
#[derive(Clone, Copy, Debug)]
pub struct Ends {
    pub best: Option<RouteEnd>,
    /// In thousandths of a cost unit.
    pub limit: i64,
}

// Whether an end is lighter than the least one so far.
fn is_lighter(best: Option<RouteEnd>, end: RouteEnd) -> bool
    ensures lighter { result ≡ true → IfSome best (λ known. end.value ≤ℤ known.value) }
    ensures not { result ≡ false → IsAtMost best end.value }
{
    match best {
        Some(known) => end.value < known.value,
        None => true,
    }
}

// The limit where an end comes that is within it.
fn lowered(ends: Ends, end: RouteEnd, slack: u32) -> i64
    requires small { IsSmall end.value }
    requires within { end.value ≤ℤ ends.limit }
    ensures least { end.value ≤ℤ result }
    ensures most { result ≤ℤ ends.limit }
{
    ends.limit.min(end.value + slack as i64)
}

// The ends with one more. The slack is how much heavier than the least route a route may be to be looked for.
fn with_end(ends: Ends, end: RouteEnd, slack: u32) -> Ends
    requires small { IsSmall end.value }
    ensures here { end.value ≤ℤ ends.limit → IsAtMost result.best end.value }
    ensures no_heavier { AreNoHeavier ends result }
    ensures one { (result.best ≡ ends.best) ⊎ (result.best ≡ Some end) }
    ensures limit { (cut : ℤ) → IsEndLimit cut ends.best ends.limit → IsEndLimit cut result.best result.limit }
    ensures broad { IsBroad ends.limit → IsBroad result.limit }
{
    if end.value > ends.limit || !is_lighter(ends.best, end) {
        return ends;
    }
    let limit = lowered(ends, end, slack);
    Ends {
        best: Some(end),
        limit,
    }
}

// The end at a row.
fn end_at(store: &Store, j: usize) -> RouteEnd
    requires { j < length store.now.rows }
    ensures { result ≡ record { value = weight_of (row_at store.now.rows j); row = Some j } }
{
    RouteEnd {
        value: weight_of(store, j),
        row: Some(j),
    }
}

// The ends with the rows of the bucket of an activity, behind which the aircraft may end.
fn with_rows(task: &Task, store: &Store, x: u32, ends: Ends, slack: u32) -> Ends
    requires task { IsTask task.now }
    requires activity { x < activities task.now.book.now }
    requires nodes { length store.now.buckets ≡ activities task.now.book.now }
    requires truths { AreTrueFor task.now store.now }
    requires may { MayEnd task.now.marks.now.facts task.now.k (After x) }
    requires one { IfSome ends.best (IsEndFor task.now store.now) }
    ensures one { IfSome result.best (IsEndFor task.now store.now) }
    ensures here { IsLeastWithinLimitAtFor task.now store.now result x }
    ensures no_heavier { AreNoHeavier ends result }
    ensures limit { (cut : ℤ) → IsEndLimit cut ends.best ends.limit → IsEndLimit cut result.best result.limit }
    ensures broad { IsBroad ends.limit → IsBroad result.limit }
{
    every_task_is_sound(task);
    every_store_is_sound(store);
    true_rows_are_small();
    let mut all = ends;
    for i in 0..store.count(x as usize) {
        let j = store.at(x as usize, i);
        let end = end_at(store, j);
        all = with_end(all, end, slack);
    }
    all
}

/// The ends with those behind an activity, if the aircraft may end there.
pub fn with_ends_at(task: &Task, store: &Store, x: u32, ends: Ends, slack: u32) -> Ends
    requires task { IsTask task.now }
    requires activity { x < activities task.now.book.now }
    requires nodes { length store.now.buckets ≡ activities task.now.book.now }
    requires truths { AreTrueFor task.now store.now }
    requires one { IfSome ends.best (IsEndFor task.now store.now) }
    ensures one { IfSome result.best (IsEndFor task.now store.now) }
    ensures here { IsLeastWithinLimitAtFor task.now store.now result x }
    ensures no_heavier { AreNoHeavier ends result }
    ensures limit { (cut : ℤ) → IsEndLimit cut ends.best ends.limit → IsEndLimit cut result.best result.limit }
    ensures broad { IsBroad ends.limit → IsBroad result.limit }
{
    if store.count(x as usize) == 0 || !task.marks.may_end(task.book, task.k, Place::After(x)) {
        return ends;
    }
    with_rows(task, store, x, ends, slack)
}

/// The end at the carry-in, if the aircraft may end there and the cut allows it.
pub fn first_ends(task: &Task, store: &Store, cut: i64, slack: u32) -> Ends
    requires { IsTask task.now }
    ensures ends { AreEndsFor task.now store.now cut 0 result }
    ensures broad { IsBroad cut → IsBroad result.limit }
{
    let ends = Ends {
        best: None,
        limit: cut,
    };
    if !task.marks.may_end(task.book, task.k, Place::Carry) {
        return ends;
    }
    let end = RouteEnd {
        value: 0,
        row: None,
    };
    with_end(ends, end, slack)
}
