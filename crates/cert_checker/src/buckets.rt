//! Whether some label of a family covers another one.
//!
//! The labels of a family come in order of activity, so those of one activity stand side by side. Where they begin is found
//! once for all activities, in one pass; a look then goes over the labels of one activity alone, and ends at the first that
//! covers. Nothing is allocated.

ghost use Rattle.std.specs.Prelude.{◌≡◌, ◌<◌, ◌≤◌, ◌&&◌, ℕ, All, length};
ghost use Rattle.tail_book.specs.Lookup.{activities};
ghost use Rattle.tail_book.specs.Numbers.{int_le};
ghost use Rattle.tail_book.specs.CounterOrder.{each_at_most};
ghost use Rattle.branch_marks.specs.FamilyTests.{is_covered_by};
ghost use Rattle.cert_checker.specs.inside.Buckets.{AreStarts, IsInOrder, IsLabelOf, IsStart, at_in};

use crate::label::Label;
use tail_book::Book;
use tail_book::laws::every_book_is_sound;

// Whether no value is more than the one at its place.
fn each_at_most(values: &[i64], others: &[i64]) -> bool
    requires { length values.now ≡ length others.now }
    ensures { result ≡ each_at_most values.now others.now }
{
    for c in 0..values.len() {
        if values[c] > others[c] {
            return false;
        }
    }
    true
}

// Whether a label is as light as this and has no larger counters.
fn is_as_good(label: &Label, weight: i128, counters: &[i64]) -> bool
    requires { length label.now.counters ≡ length counters.now }
    ensures { result ≡ (int_le label.now.weight weight && each_at_most label.now.counters counters.now) }
{
    label.weight as i128 <= weight && each_at_most(label.counters.as_slice(), counters)
}

// The number from which labels are not of earlier activities, found from another one on.
fn start_from(family: &[Label], from: usize, b: u32) -> usize
    requires within { from ≤ length family.now }
    requires before { (i : ℕ) → i < from → at_in family.now i < b }
    ensures { IsStart family.now b result }
{
    for i in from..family.len() {
        let label = &family[i];
        if label.at >= b {
            return i;
        }
    }
    family.len()
}

/// Writes for each activity of the book where its labels begin.
pub fn put_starts(book: &Book, family: &[Label], starts: &mut [usize])
    requires { length starts.old ≡ activities book.now }
    ensures { AreStarts book.now family.now starts.new }
{
    every_book_is_sound(book);
    let mut from = 0;
    for b in 0..starts.len() {
        from = start_from(family, from, b as u32);
        starts[b] = from;
    }
}

/// Whether some label of a family covers the one at an activity with this weight and these counters.
pub fn is_covered(
    book: &Book,
    family: &[Label],
    starts: &[usize],
    b: u32,
    weight: i128,
    counters: &[i64],
) -> bool
    requires order { IsInOrder family.now }
    requires labels { All (IsLabelOf book.now) family.now }
    requires starts { AreStarts book.now family.now starts.now }
    requires activity { b < activities book.now }
    requires width { length counters.now ≡ length book.now.rules.counters }
    ensures { result ≡ is_covered_by family.now (record { at = b; weight = weight; counters = counters.now }) }
{
    for i in starts[b as usize]..family.len() {
        let label = &family[i];
        if label.at != b {
            return false;
        }
        if is_as_good(label, weight, counters) {
            return true;
        }
    }
    false
}
