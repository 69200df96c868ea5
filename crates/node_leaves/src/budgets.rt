//! Budgets: the counters that nothing clears. How much of one an aircraft may still use is settled from the beginning, so use
//! of it has a price, which rises where the aircraft's route uses more than it has room for, and falls where it uses less.

use crate::lightest::{Lightest, at, put};
use std::alloc::Global;
use tail_book::{Book, CounterKind, Memory};

// A counter that nothing clears.
#[derive(Drop)]
pub struct Budget {
    counter: usize,
    // what each activity uses of it
    uses: Vec<i64>,
    // that for an aircraft, and for an activity in the middle
    by_aircraft: i64,
    by_activity: i64,
    // what each aircraft pays for a unit
    prices: Vec<i64>,
}

// Whether a list has a counter.
fn names(resets: &[u32], c: usize) -> bool {
    for reset in resets {
        if *reset as usize == c {
            return true;
        }
    }
    false
}

// Whether an activity clears a counter.
fn is_reset(book: &Book, c: usize) -> bool {
    for activity in book.activities.iter() {
        if names(&activity.resets, c) {
            return true;
        }
    }
    false
}

// Whether nothing clears a counter, and its use adds up.
fn is_budget(book: &Book, c: usize) -> bool {
    let Some(counter) = book.rules.counters.get(c) else {
        return false;
    };
    counter.kind != CounterKind::Days && counter.bases.is_empty() && !is_reset(book, c)
}

// What an activity uses of a counter.
fn use_of(book: &Book, c: usize, a: usize) -> i64 {
    let (Some(counter), Some(activity)) = (book.rules.counters.get(c), book.activities.get(a))
    else {
        return 0;
    };
    if !activity.flight {
        0
    } else if counter.kind == CounterKind::Minutes {
        activity.end.saturating_sub(activity.start)
    } else {
        1
    }
}

// What is left of a counter for an aircraft.
fn room(book: &Book, c: usize, k: u32) -> i64 {
    let (Some(counter), Some(tail)) = (book.rules.counters.get(c), book.tails.get(k as usize))
    else {
        return 0;
    };
    counter.limit.saturating_sub(at(&tail.carry, c)).max(0)
}

/// One of so many equal parts of a number; all of it where there is no part.
pub fn part_of(all: i64, parts: i64) -> i64 {
    all / parts.max(1)
}

impl Budget {
    // The budget of a counter, of which a unit costs nothing yet.
    fn new(alloc: Global, book: &Book, c: usize) -> Result<Budget, Memory> {
        let (n, m) = (book.activities.len(), book.tails.len());
        let mut uses = Vec::new(alloc);
        let mut all = 0i64;
        for a in 0..n {
            let used = use_of(book, c, a);
            all = all.saturating_add(used);
            uses.push(used)?;
        }
        Ok(Budget {
            counter: c,
            uses,
            by_aircraft: part_of(all, m as i64),
            by_activity: part_of(all, n as i64),
            prices: vec![in alloc; 0i64; m]?,
        })
    }

    /// Adds what an aircraft pays for each activity's use to what the activities add to a route.
    pub fn add_prices(&self, k: u32, lightest: &mut Lightest) {
        let price = at(&self.prices, k as usize);
        if price > 0 {
            for a in 0..self.uses.len() {
                lightest.raise_added(a, price.saturating_mul(at(&self.uses, a)));
            }
        }
    }

    // What a route uses.
    fn used(&self, lightest: &Lightest, head: Option<u32>) -> i64 {
        let (mut used, mut next) = (0i64, head);
        for _ in 0..self.uses.len() {
            let Some(a) = next else {
                break;
            };
            used = used.saturating_add(at(&self.uses, a as usize));
            next = lightest.after(a);
        }
        used
    }

    // By how much a price moves at a step, where a route uses so much above the room for it.
    fn moved(&self, step: i64, above: i64) -> i64 {
        part_of(
            part_of(step.saturating_mul(above), self.by_aircraft),
            self.by_activity,
        )
    }

    /// Moves the price of an aircraft by what its route uses above its room.
    pub fn charge(
        &mut self,
        book: &Book,
        lightest: &Lightest,
        k: u32,
        head: Option<u32>,
        step: i64,
    ) {
        let used = self.used(lightest, head);
        let above = used.saturating_sub(room(book, self.counter, k));
        let price = at(&self.prices, k as usize).saturating_add(self.moved(step, above));
        put(&mut self.prices, k as usize, price.max(0));
    }
}

/// The budgets of all counters that nothing clears.
pub fn budgets_of(alloc: Global, book: &Book) -> Result<Vec<Budget>, Memory> {
    let mut budgets = Vec::new(alloc);
    for c in 0..book.rules.counters.len() {
        if is_budget(book, c) {
            budgets.push(Budget::new(alloc, book, c)?)?;
        }
    }
    Ok(budgets)
}
