//! Rests of routes, from an activity on to an end: what they weigh, and with which counters they can be flown.
//!
//! They serve suggestions alone, so nothing is promised of them. A rest has for each counter a cap, the greatest value behind its
//! activity from which it stays within the limits. Going back over a link, a cap falls by what the link adds, and is lifted
//! where the link forgets what the counter stood at. What a link does to counters is told by two steps: from 0, and from 1.

ghost use Rattle.std.specs.Prelude.{◌<◌, ◌≤◌, length};
ghost use Rattle.tail_book.specs.Lookup.{activities};
ghost use Rattle.route_search.specs.inside.Task.{IsTask};

use crate::task::{Task, every_task_is_sound};
use maint_counters::step_by;
use tail_book::limits::COUNTER_LIMIT;
use tail_book::{Memory, Place};

/// How many rests are kept at an activity.
pub const MOST_RESTS: usize = 12;

/// The activity that comes next in a rest, and the rest from there on, by its number.
#[derive(Clone, Copy, Debug)]
pub struct Next {
    pub activity: u32,
    pub rest: usize,
}

/// What comes behind an activity to an end.
#[derive(Clone, Copy, Debug)]
pub struct Rest {
    /// In thousandths of a cost unit.
    pub weight: i64,
    /// The greatest value of each counter behind the activity with which the rest can be flown.
    pub caps: [i64; COUNTER_LIMIT],
    /// Nothing where the route ends at the activity.
    pub next: Option<Next>,
}

/// The rest of a route that ends here.
pub fn ended() -> Rest {
    Rest {
        weight: 0,
        caps: [i64::MAX; COUNTER_LIMIT],
        next: None,
    }
}

impl Rest {
    // Whether it is no heavier than another, and can be flown wherever that one can.
    fn covers(&self, other: &Rest) -> bool {
        if self.weight > other.weight {
            return false;
        }
        for c in 0..COUNTER_LIMIT {
            if self.caps[c] < other.caps[c] {
                return false;
            }
        }
        true
    }

    /// Whether it can be flown with these counters.
    pub fn takes(&self, counters: &[i64]) -> bool {
        for c in 0..counters.len().min(COUNTER_LIMIT) {
            if counters[c] > self.caps[c] {
                return false;
            }
        }
        true
    }
}

// Counters behind an activity, where each stood at a value before it.
fn counted(task: &Task, x: u32, b: u32, value: u32) -> [i64; COUNTER_LIMIT]
    requires task { IsTask task.now }
    requires before { x < activities task.now.book.now }
    requires activity { b < activities task.now.book.now }
{
    every_task_is_sound(task);
    let book = task.book;
    let mut values = [value as i64; COUNTER_LIMIT];
    step_by(
        task.book,
        task.steps,
        task.k,
        Place::After(x),
        b,
        &mut values[..book.rules.counters.len()],
    );
    values
}

/// What a link adds to counters that stand at 0, and to those that stand at 1.
#[derive(Clone, Copy, Debug)]
pub struct LinkCounts {
    from_zero: [i64; COUNTER_LIMIT],
    from_one: [i64; COUNTER_LIMIT],
}

/// What a link does to counters.
pub fn counts(task: &Task, x: u32, b: u32) -> LinkCounts
    requires task { IsTask task.now }
    requires before { x < activities task.now.book.now }
    requires activity { b < activities task.now.book.now }
{
    LinkCounts {
        from_zero: counted(task, x, b, 0),
        from_one: counted(task, x, b, 1),
    }
}

// The cap before a link of a counter that has this cap behind it, at most its limit; nothing where no value will do.
fn cap_before(counts: &LinkCounts, c: usize, most: i64) -> Option<i64>
    requires { c < 6 }
{
    let added = counts.from_zero[c];
    if added > most {
        return None;
    }
    if counts.from_one[c] == added {
        return Some(i64::MAX);
    }
    Some(most.saturating_sub(added))
}

/// A rest with a link before it that adds this weight; nothing where no counters will do.
pub fn behind_link(
    task: &Task,
    counts: &LinkCounts,
    arc: i64,
    activity: u32,
    number: usize,
    rest: &Rest,
) -> Option<Rest> {
    let mut caps = [i64::MAX; COUNTER_LIMIT];
    let book = task.book;
    for c in 0..book.rules.counters.len().min(COUNTER_LIMIT) {
        let limit = book.rules.counters[c].limit;
        caps[c] = cap_before(counts, c, rest.caps[c].min(limit))?;
    }
    Some(Rest {
        weight: rest.weight.saturating_add(arc),
        caps,
        next: Some(Next {
            activity,
            rest: number,
        }),
    })
}

// The place of the heaviest of some rests.
fn heaviest(rests: &[Rest]) -> usize
    requires { 1 ≤ length rests.now }
    ensures { result < length rests.now }
{
    let mut place = 0;
    for i in 1..rests.len() {
        if rests[i].weight > rests[place].weight {
            place = i;
        }
    }
    place
}

/// Puts a rest among those of an activity, unless one of them covers it. Those that it covers leave, and where there are too many the heaviest.
pub fn keep(rests: &mut Vec<Rest>, rest: Rest) -> Result<(), Memory> {
    for other in rests.as_slice() {
        if other.covers(&rest) {
            return Ok(());
        }
    }
    let mut kept = 0;
    for i in 0..rests.len() {
        let other = rests[i];
        if !rest.covers(&other) {
            rests[kept] = other;
            kept += 1;
        }
    }
    rests.truncate(kept);
    if rests.len() < MOST_RESTS {
        rests.push(rest)?;
        return Ok(());
    }
    let place = heaviest(rests);
    if rest.weight < rests[place].weight {
        rests[place] = rest;
    }
    Ok(())
}
