//! Whether the labels of an open leaf show what its line claims.
//!
//! Each label is taken over each link from its activity once: where the link is usable and the counters stay within their
//! limits, some label there has to be as good. Then the ends are looked at. Labels that are not alive, out of order, or without
//! a value for each counter were refused at their lines.

ghost use Rattle.std.specs.Prelude.{◌≡◌, ◌<◌, ◌+ℤ◌, ◌&&◌, ◌||◌, not, Some, None, length};
ghost use Rattle.tail_book.specs.Lookup.{activities, aircraft};
ghost use Rattle.tail_book.specs.Numbers.{int_le};
ghost use Rattle.tail_book.specs.CostTable.{IsTableFor};
ghost use Rattle.tail_book.specs.Place.{IsPlaceOf};
ghost use Rattle.maint_counters.specs.inside.Counts.{AreCountable};
ghost use Rattle.branch_marks.specs.Weights.{arc_weight};
ghost use Rattle.branch_marks.specs.FamilyTests.{ends_at_least, has_no_end};
ghost use Rattle.branch_marks.specs.MarkTests.{may_end};
ghost use Rattle.branch_marks.specs.ProofTree.{zero_duals};
ghost use Rattle.cert_checker.specs.inside.Leaf.{IsLeaf, covers_after, goes_on_from, goes_on_from_carry, goes_on_from_each, is_closed_in, is_met_in, shows_in};

use crate::buckets::is_covered;
use crate::leaf::Leaf;
use crate::ways::{ways, ways_are_all, ways_are_of_book};
use maint_counters::step_by;
use tail_book::laws::{every_book_is_sound, own_costs_are_for_book};
use tail_book::{Book, COST_UNIT, CostTable, Place};
use turn_rules::arc_cost;

// What a label weighs after an activity, from a place where it weighs so much.
fn weight_after(
    book: &Book,
    table: &CostTable,
    duals: &[i64],
    k: u32,
    from: Place,
    b: u32,
    weight: i64,
) -> i128
    requires table { IsTableFor book.now table.now }
    requires duals { length duals.now ≡ activities book.now }
    requires aircraft { k < aircraft book.now }
    requires place { IsPlaceOf book.now from }
    requires activity { b < activities book.now }
    ensures { result ≡ weight +ℤ arc_weight table.now book.now k duals.now from b }
{
    let cost = COST_UNIT * arc_cost(book, table, k, from, b);
    weight as i128 + (cost as i128 - duals[b as usize] as i128)
}

// Whether a label of a family covers what a label comes to over a link.
fn is_covered_after(leaf: &Leaf, from: Place, weight: i64, b: u32, values: &[i64]) -> bool
    requires leaf { IsLeaf leaf.now }
    requires place { IsPlaceOf leaf.now.book.now from }
    requires activity { b < activities leaf.now.book.now }
    requires width { length values.now ≡ length leaf.now.book.now.rules.counters }
    ensures { result ≡ covers_after leaf.now from weight b values.now }
{
    own_costs_are_for_book();
    let costs = &leaf.means.costs;
    let after = weight_after(leaf.book, costs, leaf.duals, leaf.k, from, b, weight);
    is_covered(leaf.book, leaf.family, leaf.starts, b, after, values)
}

// Whether a link is not to be gone over by a label, or a label of the family covers what it comes to.
fn is_met(
    leaf: &Leaf,
    from: Place,
    weight: i64,
    counters: &[i64],
    b: u32,
    values: &mut [i64],
) -> bool
    requires leaf { IsLeaf leaf.now }
    requires place { IsPlaceOf leaf.now.book.now from }
    requires count { length counters.now ≡ length leaf.now.book.now.rules.counters }
    requires counters { AreCountable counters.now }
    requires activity { b < activities leaf.now.book.now }
    requires width { length values.old ≡ length leaf.now.book.now.rules.counters }
    ensures { result ≡ is_met_in leaf.now from weight counters.now b }
{
    let (book, k) = (leaf.book, leaf.k);
    if !leaf.marks.usable(book, k, from, b) {
        return true;
    }
    values.copy_from_slice(counters);
    if !step_by(book, &leaf.means.steps, k, from, b, values) {
        return true;
    }
    is_covered_after(leaf, from, weight, b, values)
}

// Whether the family goes on from a place with this weight and these counters.
fn goes_on(leaf: &Leaf, from: Place, weight: i64, counters: &[i64], values: &mut [i64]) -> bool
    requires leaf { IsLeaf leaf.now }
    requires place { IsPlaceOf leaf.now.book.now from }
    requires count { length counters.now ≡ length leaf.now.book.now.rules.counters }
    requires counters { AreCountable counters.now }
    requires width { length values.old ≡ length leaf.now.book.now.rules.counters }
    ensures { result ≡ goes_on_from leaf.now from weight counters.now }
{
    ways_are_of_book();
    ways_are_all();
    for b in ways(leaf.book, leaf.means, leaf.k, from) {
        if !is_met(leaf, from, weight, counters, *b, values) {
            return false;
        }
    }
    true
}

// Whether the family goes on from each of its labels.
fn goes_on_from_each(leaf: &Leaf, values: &mut [i64]) -> bool
    requires leaf { IsLeaf leaf.now }
    requires width { length values.old ≡ length leaf.now.book.now.rules.counters }
    ensures { result ≡ goes_on_from_each leaf.now leaf.now.family.now }
{
    for i in 0..leaf.family.len() {
        let label = &leaf.family[i];
        let (from, counters) = (Place::After(label.at), label.counters.as_slice());
        if !goes_on(leaf, from, label.weight, counters, values) {
            return false;
        }
    }
    true
}

// Whether the family goes on from the carry-in.
fn goes_on_from_carry(leaf: &Leaf, values: &mut [i64]) -> bool
    requires leaf { IsLeaf leaf.now }
    requires width { length values.old ≡ length leaf.now.book.now.rules.counters }
    ensures { result ≡ goes_on_from_carry leaf.now }
{
    let book = leaf.book;
    every_book_is_sound(book);
    let carry = &book.tails[leaf.k as usize].carry;
    goes_on(leaf, Place::Carry, 0, carry, values)
}

// Whether the aircraft may not end at a place, or what it weighs there is at least a value.
fn ends_high(leaf: &Leaf, from: Place, weight: i64, low: i64) -> bool
    requires leaf { IsLeaf leaf.now }
    requires place { IsPlaceOf leaf.now.book.now from }
    ensures { result ≡ (not (may_end leaf.now.marks.now.facts leaf.now.k from) || int_le low weight) }
{
    !leaf.marks.may_end(leaf.book, leaf.k, from) || low <= weight
}

// Whether no end of the family is lighter than a value.
fn ends_at_least(leaf: &Leaf, low: i64) -> bool
    requires { IsLeaf leaf.now }
    ensures { result ≡ ends_at_least leaf.now.marks.now.facts leaf.now.k leaf.now.family.now low }
{
    if !ends_high(leaf, Place::Carry, 0, low) {
        return false;
    }
    for i in 0..leaf.family.len() {
        let label = &leaf.family[i];
        if !ends_high(leaf, Place::After(label.at), label.weight, low) {
            return false;
        }
    }
    true
}

// Whether the aircraft may end nowhere in the family.
fn has_no_end(leaf: &Leaf) -> bool
    requires { IsLeaf leaf.now }
    ensures { result ≡ has_no_end leaf.now.marks.now.facts leaf.now.k leaf.now.family.now }
{
    if leaf.marks.may_end(leaf.book, leaf.k, Place::Carry) {
        return false;
    }
    for i in 0..leaf.family.len() {
        let label = &leaf.family[i];
        if leaf
            .marks
            .may_end(leaf.book, leaf.k, Place::After(label.at))
        {
            return false;
        }
    }
    true
}

// Whether the family goes on from the carry-in and from each of its labels.
fn goes_on_from_all(leaf: &Leaf, values: &mut [i64]) -> bool
    requires leaf { IsLeaf leaf.now }
    requires width { length values.old ≡ length leaf.now.book.now.rules.counters }
    ensures { result ≡ (goes_on_from_carry leaf.now && goes_on_from_each leaf.now leaf.now.family.now) }
{
    goes_on_from_carry(leaf, values) && goes_on_from_each(leaf, values)
}

// Whether the family is closed, where each of its labels is alive.
fn is_closed(leaf: &Leaf, values: &mut [i64]) -> bool
    requires leaf { IsLeaf leaf.now }
    requires width { length values.old ≡ length leaf.now.book.now.rules.counters }
    ensures { result ≡ is_closed_in leaf.now }
{
    goes_on_from_all(leaf, values)
}

/// Whether the labels of a cover show its value.
pub fn is_shown_cover(leaf: &Leaf, value: i64, values: &mut [i64]) -> bool
    requires leaf { IsLeaf leaf.now }
    requires width { length values.old ≡ length leaf.now.book.now.rules.counters }
    ensures { result ≡ shows_in leaf.now (Some value) }
{
    is_closed(leaf, values) && ends_at_least(leaf, value)
}

/// Whether labels, under duals that are all 0, show that an aircraft is stuck.
pub fn is_shown_stuck(leaf: &Leaf, values: &mut [i64]) -> bool
    requires leaf { IsLeaf leaf.now }
    requires duals { leaf.now.duals.now ≡ zero_duals leaf.now.book.now }
    requires width { length values.old ≡ length leaf.now.book.now.rules.counters }
    ensures { result ≡ shows_in leaf.now None }
{
    is_closed(leaf, values) && has_no_end(leaf)
}
