//! Where an aircraft ends its route: at its carry-in or at a row of a bucket, where the marks let it, and the least
//! such end. Each row is looked at once, in buckets at which the aircraft may end.

ghost use Rattle.std.specs.Prelude.{◌≡◌, ◌<◌, ◌⊎◌, ℤ, pos, length, Some, IfSome};
ghost use Rattle.tail_book.specs.declared.place.Place.TheVariants.{Carry, After};
ghost use Rattle.tail_book.specs.Lookup.{activities, aircraft};
ghost use Rattle.branch_marks.specs.inside.MarkTables.{AreMarksOf};
ghost use Rattle.branch_marks.specs.Marks.{MayEnd};
ghost use Rattle.pricing.specs.inside.Ends.{IsEnd, IsAtMost, IsLeastAt, IsLeastEnd};

use branch_marks::Marks;
use label_store::Store;
use label_store::laws::every_store_is_sound;
use pricing::{RouteEnd, weight_of};
use tail_book::laws::every_book_is_sound;
use tail_book::{Book, Place};

// The lighter of two ends, where there was one.
fn lighter(best: Option<RouteEnd>, end: RouteEnd) -> Option<RouteEnd>
    ensures here { IsAtMost result end.value }
    ensures stays { (most : ℤ) → IsAtMost best most → IsAtMost result most }
    ensures one { (result ≡ best) ⊎ (result ≡ Some end) }
{
    match best {
        None => Some(end),
        Some(known) => {
            if known.value <= end.value {
                best
            } else {
                Some(end)
            }
        }
    }
}

// The lightest of an end and the rows of the bucket of an activity, behind which the aircraft may end.
fn least_at(
    book: &Book,
    marks: &Marks,
    k: u32,
    store: &Store,
    b: u32,
    best: Option<RouteEnd>,
) -> Option<RouteEnd>
    requires activity { b < activities book.now }
    requires nodes { length store.now.buckets ≡ activities book.now }
    requires may { MayEnd marks.now.facts k (After b) }
    requires one { IfSome best (IsEnd book.now marks.now.facts k store.now) }
    ensures one { IfSome result (IsEnd book.now marks.now.facts k store.now) }
    ensures here { IsLeastAt marks.now.facts k store.now result b }
    ensures stays { (most : ℤ) → IsAtMost best most → IsAtMost result most }
{
    every_store_is_sound(store);
    let mut least = best;
    for i in 0..store.count(b as usize) {
        let j = store.at(b as usize, i);
        let value = weight_of(store, j);
        least = lighter(
            least,
            RouteEnd {
                value,
                row: Some(j),
            },
        );
    }
    least
}

// The lightest of an end and the rows of the bucket of an activity, if the aircraft may end behind it.
fn least_behind(
    book: &Book,
    marks: &Marks,
    k: u32,
    store: &Store,
    b: u32,
    best: Option<RouteEnd>,
) -> Option<RouteEnd>
    requires marks { AreMarksOf book.now marks.now }
    requires aircraft { k < aircraft book.now }
    requires activity { b < activities book.now }
    requires nodes { length store.now.buckets ≡ activities book.now }
    requires one { IfSome best (IsEnd book.now marks.now.facts k store.now) }
    ensures one { IfSome result (IsEnd book.now marks.now.facts k store.now) }
    ensures here { IsLeastAt marks.now.facts k store.now result b }
    ensures stays { (most : ℤ) → IsAtMost best most → IsAtMost result most }
{
    if !marks.may_end(book, k, Place::After(b)) {
        return best;
    }
    least_at(book, marks, k, store, b, best)
}

// The end at the carry-in, if the aircraft may end there.
fn first_end(book: &Book, marks: &Marks, k: u32, store: &Store) -> Option<RouteEnd>
    requires marks { AreMarksOf book.now marks.now }
    requires aircraft { k < aircraft book.now }
    ensures one { IfSome result (IsEnd book.now marks.now.facts k store.now) }
    ensures first { MayEnd marks.now.facts k Carry → IsAtMost result (pos 0) }
{
    if marks.may_end(book, k, Place::Carry) {
        Some(RouteEnd {
            value: 0,
            row: None,
        })
    } else {
        None
    }
}

/// The lightest end.
pub fn least_end(book: &Book, marks: &Marks, k: u32, store: &Store) -> Option<RouteEnd>
    requires marks { AreMarksOf book.now marks.now }
    requires aircraft { k < aircraft book.now }
    requires nodes { length store.now.buckets ≡ activities book.now }
    ensures { IsLeastEnd book.now marks.now.facts k store.now (activities book.now) result }
{
    every_book_is_sound(book);
    let mut best = first_end(book, marks, k, store);
    for b in 0..book.activities.len() as u32 {
        best = least_behind(book, marks, k, store, b, best);
    }
    best
}
