//! Completions: the least weight of what can still come behind each activity, counters aside.
//!
//! A link leads to a larger number, so from the last activity back each is done when it is asked for. Since counters only
//! forbid, a legal rest of a route is among the rests that fit, and none of it weighs less than the completion. No link is
//! asked for twice, and an activity from which no end can be reached ends the question at once.

ghost use Rattle.std.specs.Prelude.{◌≡◌, ◌<◌, ◌+ℤ◌, ◌+◌, [], ℕ, List, IsTrue, length, None, Some, IfSome, slice_index_or};
ghost use Rattle.tail_book.specs.declared.place.Place.TheVariants.{After};
ghost use Rattle.tail_book.specs.Lookup.{activities};
ghost use Rattle.tail_book.specs.Place.{IsPlaceOf};
ghost use Rattle.pricing.specs.inside.WeightRange.{IsBroad, IsSmall};
ghost use Rattle.route_search.specs.inside.Task.{IsTask};
ghost use Rattle.route_search.specs.inside.Completion.{IsNoLess, least_of, lesser_weight};
ghost use Rattle.route_search.specs.inside.ForTask.{AreBehindFor, AreLaterBehindFor, IsBehindFor, IsCompletionFor, IsLeastAmongFor, IsUsableFor, IsWayFor, IsWayOrNoneFor};

use crate::followers::followers;
use crate::laws;
use crate::step::{added_by, arc_weight};
use crate::task::{Task, every_task_is_sound};
use connection_net::laws::{rows_are_their_places, rows_for_each, rows_rise};
use tail_book::Place;
use tail_book::laws::rising_routes_are_below;

/// The way through an activity: what it adds to a weight, and the least weight from there to an end with it, both in
/// thousandths of a cost unit.
#[derive(Clone, Copy, Debug)]
pub struct Way {
    pub arc: i64,
    pub least: i64,
}

// The lesser of two weights, of which either may be missing.
fn lesser(one: Option<i64>, other: Option<i64>) -> Option<i64>
    ensures { result ≡ lesser_weight one other }
{
    match (one, other) {
        (Some(low), Some(value)) => Some(low.min(value)),
        (Some(low), None) => Some(low),
        (None, _) => other,
    }
}

/// The way from a place through an activity, where the link is usable and an end can be reached.
pub fn way_through(task: &Task, behind: &[Option<i64>], from: Place, b: u32) -> Option<Way>
    requires task { IsTask task.now }
    requires place { IsPlaceOf task.now.book.now from }
    requires activity { b < activities task.now.book.now }
    requires one_each { length behind.now ≡ activities task.now.book.now }
    requires behind { IsBehindFor task.now b (slice_index_or behind.now b None) }
    ensures way { IsWayOrNoneFor task.now from b result }
    ensures small { IfSome result (λ way. IsSmall way.least) }
    ensures arc { IfSome result (λ way. IsBroad way.arc) }
{
    let rest = behind[b as usize]?;
    if !task.marks.usable(task.book, task.k, from, b) {
        return None;
    }
    Some(with_rest(task, from, b, rest))
}

// The way through an activity over a usable link, with the least weight behind it.
fn with_rest(task: &Task, from: Place, b: u32, rest: i64) -> Way
    requires task { IsTask task.now }
    requires place { IsPlaceOf task.now.book.now from }
    requires activity { b < activities task.now.book.now }
    requires usable { IsUsableFor task.now from b }
    requires rest { IsCompletionFor task.now (After b) (Some rest) }
    ensures way { IsWayFor task.now from b result }
    ensures small { IsSmall result.least }
    ensures arc { IsBroad result.arc }
{
    every_task_is_sound(task);
    laws::fitting_rests_are_small();
    let arc = arc_weight(task, from, b);
    let least = sum(arc, rest);
    Way { arc, least }
}

// What a link adds, with what comes behind it.
fn sum(arc: i64, rest: i64) -> i64
    requires { IsSmall (arc +ℤ rest) }
    ensures { result ≡ arc +ℤ rest }
{
    arc + rest
}

// Only the least weight of a way.
fn least_of(way: Option<Way>) -> Option<i64>
    ensures { result ≡ least_of way }
{
    match way {
        Some(way) => Some(way.least),
        None => None,
    }
}

// Whether what an activity adds and the least weight behind it are no less than the least so far.
fn is_no_less(added: i64, rest: Option<i64>, least: Option<i64>) -> bool
    ensures { IsTrue result → IsNoLess added rest least }
{
    match (rest, least) {
        (Some(rest), Some(low)) => low as i128 <= added as i128 + rest as i128,
        _ => false,
    }
}

// The least weight so far, or over a way through one activity more. A connection costs nothing or more, so the link is asked for
// only where that way may be lighter.
fn with_way(task: &Task, behind: &[Option<i64>], x: u32, b: u32, least: Option<i64>) -> Option<i64>
    requires task { IsTask task.now }
    requires place { x < activities task.now.book.now }
    requires activity { b < activities task.now.book.now }
    requires one_each { length behind.now ≡ activities task.now.book.now }
    requires behind { IsBehindFor task.now b (slice_index_or behind.now b None) }
    ensures { (firsts : List ℕ) (i : ℕ) → slice_index_or firsts i 0 ≡ b → IsLeastAmongFor task.now (After x) firsts i least
        → IsLeastAmongFor task.now (After x) firsts (i + 1) result }
{
    if is_no_less(added_by(task, b), behind[b as usize], least) {
        return least;
    }
    let way = way_through(task, behind, Place::After(x), b);
    lesser(least, least_of(way))
}

// What the aircraft has behind it where it ends its route at a place, if it may.
fn ended(task: &Task, from: Place) -> Option<i64>
    requires task { IsTask task.now }
    requires place { IsPlaceOf task.now.book.now from }
    ensures { IsLeastAmongFor task.now from [] 0 result }
{
    if task.marks.may_end(task.book, task.k, from) {
        Some(0)
    } else {
        None
    }
}

// The least weight behind an activity, where that of each later one is known.
fn least_behind(task: &Task, behind: &[Option<i64>], x: u32) -> Option<i64>
    requires task { IsTask task.now }
    requires activity { x < activities task.now.book.now }
    requires one_each { length behind.now ≡ activities task.now.book.now }
    requires behind { AreLaterBehindFor task.now (x + 1) behind.now }
    ensures { IsCompletionFor task.now (After x) result }
{
    let mut least = ended(task, Place::After(x));
    let next = followers(task, x);
    for i in 0..next.len() {
        least = with_way(task, behind, x, next[i], least);
    }
    least
}

// The least weight behind an activity, if it is alive.
fn behind_alive(task: &Task, behind: &[Option<i64>], x: u32) -> Option<i64>
    requires task { IsTask task.now }
    requires activity { x < activities task.now.book.now }
    requires one_each { length behind.now ≡ activities task.now.book.now }
    requires behind { AreLaterBehindFor task.now (x + 1) behind.now }
    ensures { IsBehindFor task.now x result }
{
    if !task.marks.alive(task.book, task.k, x) {
        return None;
    }
    least_behind(task, behind, x)
}

/// The least weight of any route, counters aside, in thousandths of a cost unit, if there is one.
pub fn relaxed(task: &Task, behind: &[Option<i64>]) -> Option<i64>
    requires task { IsTask task.now }
    requires behind { AreBehindFor task.now behind.now }
{
    every_task_is_sound(task);
    rows_rise();
    rows_for_each();
    rows_are_their_places();
    rising_routes_are_below();
    let mut least = ended(task, Place::Carry);
    let first = task.net.heads(task.k);
    for i in 0..first.len() {
        let way = way_through(task, behind, Place::Carry, first[i]);
        least = lesser(least, least_of(way));
    }
    least
}

/// Writes the least weight behind each activity, in thousandths of a cost unit.
pub fn complete(task: &Task, behind: &mut [Option<i64>])
    requires task { IsTask task.now }
    requires one_each { length behind.old ≡ activities task.now.book.now }
    ensures { AreBehindFor task.now behind.new }
{
    every_task_is_sound(task);
    let book = task.book;
    let n = book.activities.len();
    for done in 0..n {
        let x = n - 1 - done;
        behind[x] = behind_alive(task, behind, x as u32);
    }
}
