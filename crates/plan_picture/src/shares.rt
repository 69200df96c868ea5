//! The counters of an aircraft at their greatest share of the limit.
//!
//! They are stepped along the route as the rules count them, and the greatest value of each is kept. A route that runs
//! backwards in time could bring a value below 0 or far up, so values are held between 0 and a ceiling that no route of
//! a book reaches: so each step stays within 64 bits. Two lists with a number a counter are made for each activity.

ghost use Rattle.std.specs.Prelude.{◌≡◌, ◌<◌, ◌++◌, ◌^◌, IfOk, OnOk, All, length, map, pos};
ghost use Rattle.tail_book.specs.Counters.{step};
ghost use Rattle.tail_book.specs.Lookup.{activities, aircraft, carry_of};
ghost use Rattle.tail_book.specs.Place.{IsPlaceOf};
ghost use Rattle.tail_book.specs.Ranges.{IsWithin};
ghost use Rattle.plan_picture.specs.Shares.{followed, greater_of, greatest, named_share, place_of, share, share_text, share_texts};
ghost use Rattle.maint_counters.specs.inside.Counts.{AreCountable};

use maint_counters::step;
use std::alloc::Global;
use tail_book::{Book, Counter, Memory, Place};
use tail_text::Line;

/// The greatest value that is followed, in a counter's own unit: no route of a book counts as far.
pub const CEILING: i64 = 1_000_000_000_000;

/// The same, as a number without a sign.
pub const MOST: u64 = 1_000_000_000_000;

fn followed(value: i64) -> i64
    ensures value { result ≡ followed value }
    ensures range { IsWithin (pos 0) (pos (2 ^ 61)) result }
{
    value.max(0).min(CEILING)
}

// The values as they are followed.
fn all_followed(alloc: Global, values: &[i64]) -> Result<Vec<i64>, Memory>
    ensures value { IfOk result (λ all. all.items ≡ map followed values.now) }
    ensures range { IfOk result (λ all. AreCountable all.items) }
{
    let mut all = Vec::new(alloc);
    for value in values {
        all.push(followed(*value))?;
    }
    Ok(all)
}

// The greater of each two values.
fn greater_of(alloc: Global, some: &[i64], others: &[i64]) -> Result<Vec<i64>, Memory>
    requires { length some.now ≡ length others.now }
    ensures value { IfOk result (λ all. all.items ≡ greater_of some.now others.now) }
    ensures width { IfOk result (λ all. length all.items ≡ length some.now) }
{
    let mut all = Vec::new(alloc);
    for c in 0..some.len() {
        all.push(some[c].max(others[c]))?;
    }
    Ok(all)
}

// The values after activity `b`, as they are followed.
fn stepped(
    alloc: Global,
    book: &Book,
    k: u32,
    from: Place,
    b: u32,
    values: Vec<i64>,
) -> Result<Vec<i64>, Memory>
    requires aircraft { k < aircraft book.now }
    requires place { IsPlaceOf book.now from }
    requires activity { b < activities book.now }
    requires width { length values.items ≡ length book.now.rules.counters }
    requires range { AreCountable values.items }
    ensures value { IfOk result (λ all. all.items ≡ map followed (step book.now k from b values.items)) }
    ensures width { IfOk result (λ all. length all.items ≡ length book.now.rules.counters) }
    ensures range { IfOk result (λ all. AreCountable all.items) }
{
    let mut values = values;
    step(book, k, from, b, &mut values);
    all_followed(alloc, &values)
}

/// The greatest values along the route of aircraft `k`, from its carry-in on.
pub fn greatest(alloc: Global, book: &Book, k: u32, route: &[u32]) -> Result<Vec<i64>, Memory>
    requires aircraft { k < aircraft book.now }
    requires activities { All (λ a. a < activities book.now) route.now }
    ensures value { IfOk result (λ most. most.items ≡ greatest book.now k route.now) }
    ensures width { IfOk result (λ most. length most.items ≡ length book.now.rules.counters) }
{
    let (mut values, mut most) = (carry_of(alloc, book, k)?, carry_of(alloc, book, k)?);
    let mut from = Place::Carry;
    for b in route {
        values = stepped(alloc, book, k, from, *b, values)?;
        most = greater_of(alloc, &most, &values)?;
        from = Place::After(*b);
    }
    Ok(most)
}

fn carry_of(alloc: Global, book: &Book, k: u32) -> Result<Vec<i64>, Memory>
    requires { k < aircraft book.now }
    ensures value { IfOk result (λ all. all.items ≡ carry_of book.now k) }
    ensures width { IfOk result (λ all. length all.items ≡ length book.now.rules.counters) }
    ensures range { IfOk result (λ all. AreCountable all.items) }
{
    Ok(book.tails[k as usize].carry.to_vec(alloc)?)
}

// Hundredths of a limit, rounded down.
fn share(value: i64, limit: i64) -> u64
    ensures { result ≡ share value limit }
{
    let limit = limit.unsigned_abs();
    if 0 < limit {
        value.unsigned_abs().min(MOST) * 100 / limit
    } else {
        0
    }
}

fn add_share(c: u64, counter: &Counter, value: i64, line: &mut Line) -> Result<(), Memory>
    ensures { OnOk result (line.new ≡ line.old ++ share_text c counter.now value) }
{
    add_place(c, line)?;
    add_named_share(counter, value, line)
}

fn add_place(c: u64, line: &mut Line) -> Result<(), Memory>
    ensures { OnOk result (line.new ≡ line.old ++ place_of c) }
{
    line.text(b"<tspan x='")?;
    line.unsigned(10 + (c % 2) * 162)?;
    line.text(b"' y='")?;
    line.unsigned(56 + (c / 2 % 3) * 17)?;
    line.text(b"'>")
}

fn add_named_share(counter: &Counter, value: i64, line: &mut Line) -> Result<(), Memory>
    ensures { OnOk result (line.new ≡ line.old ++ named_share counter.now value) }
{
    line.text(counter.name.as_bytes())?;
    line.text(b" ")?;
    line.unsigned(share(value, counter.limit))?;
    line.text(b"%</tspan>")
}

/// Appends each counter's name and the share of its limit that a value is, two in a line.
pub fn add_shares(counters: &[Counter], values: &[i64], line: &mut Line) -> Result<(), Memory>
    requires { length values.now ≡ length counters.now }
    ensures { OnOk result (line.new ≡ line.old ++ share_texts 0 counters.now values.now) }
{
    for c in 0..counters.len() {
        add_share(c as u64, &counters[c], values[c], line)?;
    }
    Ok(())
}
