//! Counters past their limits, along the whole of each route.
//!
//! A counter that is past its limit is counted on, so it is told again after each leg until it is cleared or reset. A
//! route of a plan that is audited may run backwards in time, and then a counter may fall below 0. Each leg adds or
//! takes less than 2^27 minutes, so the values of fewer than 2^64 legs fit into 128 bits.

ghost use Rattle.std.specs.Prelude.{◌≡◌, ◌<◌, ◌≤◌, ◌+◌, ◌^◌, ◌++◌, ◌+ℤ◌, ◌-ℤ◌, ℕ, IfOk, All, length, replicate, pos};
ghost use Rattle.tail_book.specs.Numbers.{contains, int_le};
ghost use Rattle.tail_book.specs.Lookup.{activities, resets_of};
ghost use Rattle.tail_book.specs.Counters.{step_one, step_from};
ghost use Rattle.tail_book.specs.declared.limits.TheConstants.{COUNTER_LIMIT, LAST_MOMENT};
ghost use Rattle.tail_book.specs.Ranges.{IsWithin};
ghost use Rattle.plan_audit.specs.inside.Kept.{IsLegOf};
ghost use Rattle.plan_audit.specs.inside.PastLimits.{value_before, IsWithinLegs};
ghost use Rattle.plan_audit.specs.Rules.{values_before, values_after, past_limits_at, past_limits};

use crate::broken::Broken;
use crate::leg::Leg;
use maint_counters::{amount, cleared};
use std::alloc::Global;
use tail_book::laws::every_book_is_sound;
use tail_book::{Book, Counter, Memory, Place};

fn value_before(book: &Book, leg: Leg, c: u32, value: i128) -> i128
    requires leg { IsLegOf book.now leg }
    requires counter { c < length book.now.rules.counters }
    ensures value { result ≡ value_before book.now leg.tail leg.from c value }
    ensures far { (legs : ℕ) → IsWithinLegs legs value → IsWithinLegs legs result }
{
    match leg.from {
        Place::Carry => book.tails[leg.tail as usize].carry[c as usize] as i128,
        Place::After(_) => value,
    }
}

fn resets(book: &Book, b: u32, c: u32) -> bool
    requires { b < activities book.now }
    ensures { result ≡ contains (resets_of book.now b) c }
{
    book.activities[b as usize].resets.contains(&c)
}

fn count_on(value: i128, added: i64) -> i128
    requires range { IsWithinLegs (2 ^ 64) value }
    requires most { IsWithin (pos 0 -ℤ LAST_MOMENT) LAST_MOMENT added }
    ensures { result ≡ value +ℤ added }
{
    value + added as i128
}

fn value_after(book: &Book, leg: Leg, c: u32, counter: &Counter, value: i128) -> i128
    requires leg { IsLegOf book.now leg }
    requires range { IsWithinLegs (2 ^ 64) value }
    ensures value { result ≡ step_one book.now leg.tail leg.from leg.activity c counter.now value }
    ensures far { (legs : ℕ) → IsWithinLegs legs value → IsWithinLegs (legs + 1) result }
{
    let clears = cleared(book, leg.tail, leg.from, leg.activity, counter);
    let added = amount(book, leg.tail, leg.from, leg.activity, clears, counter.kind);
    if resets(book, leg.activity, c) {
        return 0;
    }
    count_on(if clears { 0 } else { value }, added)
}

// Counter `c` after a leg, from what the leg before left in it, which another aircraft may have flown.
fn counted(book: &Book, leg: Leg, c: u32, counter: &Counter, value: i128) -> i128
    requires leg { IsLegOf book.now leg }
    requires counter { c < length book.now.rules.counters }
    requires range { IsWithinLegs (2 ^ 64) value }
    ensures value { result ≡ step_one book.now leg.tail leg.from leg.activity c counter.now (value_before book.now leg.tail leg.from c value) }
    ensures far { (legs : ℕ) → IsWithinLegs legs value → IsWithinLegs (legs + 1) result }
{
    let before = value_before(book, leg, c, value);
    value_after(book, leg, c, counter, before)
}

fn count_leg(book: &Book, leg: Leg, counters: &[Counter], values: &mut [i128])
    requires leg { IsLegOf book.now leg }
    requires counters { length counters.now ≡ length book.now.rules.counters }
    requires width { length values.old ≡ length counters.now }
    requires few { length counters.now ≤ COUNTER_LIMIT }
    requires range { All (IsWithinLegs (2 ^ 64)) values.old }
    ensures width { length values.new ≡ length counters.now }
    ensures steps { values.new ≡ step_from book.now leg.tail leg.from leg.activity 0 counters.now (values_before book.now leg.tail leg.from values.old) }
    ensures far { (legs : ℕ) → All (IsWithinLegs legs) values.old → All (IsWithinLegs (legs + 1)) values.new }
{
    every_book_is_sound(book);
    for c in 0..values.len() {
        let counter = &counters[c];
        let next = counted(book, leg, c as u32, counter, values[c]);
        values[c] = next;
    }
}

fn is_within(counter: &Counter, value: i128) -> bool
    ensures { result ≡ int_le value counter.now.limit }
{
    value <= counter.limit as i128
}

fn add_past_limits_at(
    leg: Leg,
    counters: &[Counter],
    values: &[i128],
    list: &mut Vec<Broken>,
) -> Result<(), Memory>
    requires width { length values.now ≡ length counters.now }
    requires few { length counters.now ≤ COUNTER_LIMIT }
    ensures { IfOk result (λ _. list.new.items ≡ list.old.items ++ past_limits_at leg 0 counters.now values.now) }
{
    for c in 0..values.len() {
        let counter = &counters[c];
        if !is_within(counter, values[c]) {
            list.push(Broken::Counter(leg.tail, leg.activity, c as u32))?;
        }
    }
    Ok(())
}

fn add_leg(book: &Book, leg: Leg, values: &mut [i128], list: &mut Vec<Broken>) -> Result<(), Memory>
    requires leg { IsLegOf book.now leg }
    requires width { length values.old ≡ length book.now.rules.counters }
    requires range { All (IsWithinLegs (2 ^ 64)) values.old }
    ensures width { length values.new ≡ length book.now.rules.counters }
    ensures steps { values.new ≡ values_after book.now leg values.old }
    ensures far { (legs : ℕ) → All (IsWithinLegs legs) values.old → All (IsWithinLegs (legs + 1)) values.new }
    ensures adds { IfOk result (λ _. list.new.items ≡ list.old.items ++ past_limits_at leg 0 book.now.rules.counters (values_after book.now leg values.old)) }
{
    count_leg(book, leg, &book.rules.counters, values);
    add_past_limits_at(leg, &book.rules.counters, values, list)
}

fn add_past_limits_from(
    book: &Book,
    legs: &[Leg],
    values: &mut [i128],
    list: &mut Vec<Broken>,
) -> Result<(), Memory>
    requires legs { All (IsLegOf book.now) legs.now }
    requires width { length values.old ≡ length book.now.rules.counters }
    requires range { All (IsWithinLegs 0) values.old }
    ensures { IfOk result (λ _. list.new.items ≡ list.old.items ++ past_limits book.now values.old legs.now) }
{
    for leg in legs {
        add_leg(book, *leg, values, list)?;
    }
    Ok(())
}

/// Adds the counters that are past their limits along the legs.
pub fn add_past_limits(
    alloc: Global,
    book: &Book,
    legs: &[Leg],
    list: &mut Vec<Broken>,
) -> Result<(), Memory>
    requires { All (IsLegOf book.now) legs.now }
    ensures { IfOk result (λ _. list.new.items ≡ list.old.items ++ past_limits book.now (replicate (length book.now.rules.counters) (pos 0)) legs.now) }
{
    let mut values = vec![in alloc; 0; book.rules.counters.len()]?;
    add_past_limits_from(book, legs, &mut values, list)
}
