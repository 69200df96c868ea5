//! Buckets, filled in order of activity: each takes the rows that the places before its activity give over usable links.
//!
//! A link leads to a larger number, so when an activity's turn comes the buckets before it are done, and offers to its own
//! change none of them. Each link is asked for once, and its weight and fee taken once, however many rows wait there. A row
//! is copied once for each try, and nothing is allocated but what the store grows by.

ghost use Rattle.std.specs.Prelude.{ℕ, ◌≡◌, ◌<◌, ◌+◌, length, IfOk};
ghost use Rattle.tail_book.specs.declared.place.Place.TheVariants.{After};
ghost use Rattle.tail_book.specs.Lookup.{activities, aircraft, carry_of};
ghost use Rattle.tail_book.specs.Place.{IsPlaceOf};
ghost use Rattle.turn_rules.specs.inside.FreeBefore.{IsFreeBefore};
ghost use Rattle.maint_counters.specs.inside.Counts.{AreCounts};
ghost use Rattle.label_store.specs.inside.Growth.{IsAsWide};
ghost use Rattle.label_store.specs.inside.Laws.{IsCoveredAt};
ghost use Rattle.pricing.specs.inside.Growth.{Grows};
ghost use Rattle.pricing.specs.inside.Truth.{place_of, first_row, IsKept};
ghost use Rattle.pricing.specs.inside.WeightRange.{IsBroad};
ghost use Rattle.fee_pricing.specs.inside.Asked.{IsAsked, IsUnderWay};
ghost use Rattle.fee_pricing.specs.inside.ForAsked.{AreFilledFor, AreTrueFor, IsBegunFor, IsFilledFor, IsNextFor, IsReachedFor, IsTrueFor, IsUsableFor, TriedFor, arc_for, row_for};

use crate::arc::{arc_weight, links_are_fair, links_leave_free};
use crate::asked::Asked;
use crate::laws;
use connection_net::laws::{
    predecessors_are_links, rows_are_their_places, rows_for_each, rows_rise,
};
use label_store::Store;
use label_store::laws::{
    every_store_is_sound, offered_rows_are_covered, offers_keep_covered, offers_keep_rows,
    others_stay,
};
use maint_counters::start;
use pricing::stepped;
use tail_book::laws::{every_book_is_sound, links_rise, rising_routes_are_below};
use tail_book::{Book, Memory, Place};

// Offers the row after an activity.
fn put(
    asked: &Asked,
    b: u32,
    parent: Option<usize>,
    row: &[i64],
    store: &mut Store,
) -> Result<(), Memory>
    requires node { b < length store.old.buckets }
    requires width { length row.now ≡ store.old.width }
    requires truths { AreTrueFor asked.now store.old }
    requires kept { IsKept store.old parent }
    requires truth { IsTrueFor asked.now store.old parent }
    requires next { IsNextFor asked.now (place_of store.old parent) (row_for asked.now store.old parent) b row.now }
    ensures truths { IfOk result (λ _. AreTrueFor asked.now store.new) }
    ensures grows { IfOk result (λ _. Grows b store.old store.new) }
    ensures covered { IfOk result (λ _. IsCoveredAt store.new b row.now) }
    ensures wide { IsAsWide store.old store.new }
{
    laws::offers_keep_truth();
    offers_keep_rows();
    offers_keep_covered();
    offered_rows_are_covered();
    others_stay();
    every_store_is_sound(store);
    let _offered = store.offer(b as usize, parent, row)?;
    every_store_is_sound(store);
    Ok(())
}

// Tries a row on the way to an activity: what is within the limits is offered.
fn try_row(
    asked: &Asked,
    from: Place,
    arc: i64,
    b: u32,
    parent: Option<usize>,
    row: &mut [i64],
    store: &mut Store,
) -> Result<(), Memory>
    requires asked { IsAsked asked.now }
    requires state { IsUnderWay asked.now store.old (length row.old) }
    requires place { IsPlaceOf asked.now.book.now from }
    requires activity { b < activities asked.now.book.now }
    requires arc { arc ≡ arc_for asked.now from b }
    requires arc_range { IsBroad arc }
    requires kept { IsKept store.old parent }
    requires truth { IsTrueFor asked.now store.old parent }
    requires from { from ≡ place_of store.old parent }
    requires row { row.old ≡ row_for asked.now store.old parent }
    requires usable { IsUsableFor asked.now from b }
    requires free { IsFreeBefore asked.now.book.now asked.now.k from b }
    ensures state { IfOk result (λ _. IsUnderWay asked.now store.new (length row.new)) }
    ensures grows { IfOk result (λ _. Grows b store.old store.new) }
    ensures tried { IfOk result (λ _. TriedFor asked.now store.new arc from b row.old) }
    ensures wide { IsAsWide store.old store.new }
    ensures length { length row.new ≡ length row.old }
{
    every_book_is_sound(asked.book);
    links_are_fair(asked);
    laws::true_rows_are_small();
    if !stepped(asked.book, asked.steps, asked.k, arc, from, b, row) {
        return Ok(());
    }
    put(asked, b, parent, row, store)
}

// Tries each row of the bucket of an activity on the way to a later one.
fn try_bucket(
    asked: &Asked,
    x: u32,
    arc: i64,
    b: u32,
    row: &mut [i64],
    store: &mut Store,
) -> Result<(), Memory>
    requires asked { IsAsked asked.now }
    requires state { IsUnderWay asked.now store.old (length row.old) }
    requires place { x < activities asked.now.book.now }
    requires activity { b < activities asked.now.book.now }
    requires later { x < b }
    requires arc { arc ≡ arc_for asked.now (After x) b }
    requires arc_range { IsBroad arc }
    requires usable { IsUsableFor asked.now (After x) b }
    requires free { IsFreeBefore asked.now.book.now asked.now.k (After x) b }
    ensures state { IfOk result (λ _. IsUnderWay asked.now store.new (length row.new)) }
    ensures grows { IfOk result (λ _. Grows b store.old store.new) }
    ensures reached { IfOk result (λ _. IsReachedFor asked.now store.old x b store.new) }
    ensures wide { IsAsWide store.old store.new }
    ensures length { length row.new ≡ length row.old }
{
    every_store_is_sound(store);
    let from = Place::After(x);
    for i in 0..store.count(x as usize) {
        every_store_is_sound(store);
        let j = store.at(x as usize, i);
        row.copy_from_slice(store.row(j));
        try_row(asked, from, arc, b, Some(j), row, store)?;
    }
    Ok(())
}

// Tries the rows of an activity on the way to a later one, where the link is usable.
fn try_link(asked: &Asked, x: u32, b: u32, row: &mut [i64], store: &mut Store) -> Result<(), Memory>
    requires asked { IsAsked asked.now }
    requires state { IsUnderWay asked.now store.old (length row.old) }
    requires place { x < activities asked.now.book.now }
    requires activity { b < activities asked.now.book.now }
    requires later { x < b }
    ensures state { IfOk result (λ _. IsUnderWay asked.now store.new (length row.new)) }
    ensures grows { IfOk result (λ _. Grows b store.old store.new) }
    ensures reached { IfOk result (λ _. IsReachedFor asked.now store.old x b store.new) }
    ensures wide { IsAsWide store.old store.new }
    ensures length { length row.new ≡ length row.old }
{
    if store.count(x as usize) == 0 {
        return Ok(());
    }
    let from = Place::After(x);
    if !asked.marks.usable(asked.book, asked.k, from, b) {
        return Ok(());
    }
    links_leave_free(asked, from, b);
    let arc = arc_weight(asked, from, b);
    try_bucket(asked, x, arc, b, row, store)
}

// Tries the rows of each activity before an activity.
fn try_links(asked: &Asked, b: u32, row: &mut [i64], store: &mut Store) -> Result<(), Memory>
    requires asked { IsAsked asked.now }
    requires state { IsUnderWay asked.now store.old (length row.old) }
    requires activity { b < activities asked.now.book.now }
    ensures state { IfOk result (λ _. IsUnderWay asked.now store.new (length row.new)) }
    ensures grows { IfOk result (λ _. Grows b store.old store.new) }
    ensures reached { IfOk result (λ _. (x : ℕ) → x < b → IsReachedFor asked.now store.old x b store.new) }
    ensures wide { IsAsWide store.old store.new }
    ensures length { length row.new ≡ length row.old }
{
    predecessors_are_links();
    rows_rise();
    rows_for_each();
    rows_are_their_places();
    links_rise();
    rising_routes_are_below();
    every_book_is_sound(asked.book);
    every_store_is_sound(store);
    if !asked.marks.alive(asked.book, asked.k, b) {
        return Ok(());
    }
    let before = asked.net.predecessors(b);
    for i in 0..before.len() {
        try_link(asked, before[i], b, row, store)?;
    }
    Ok(())
}

// Tries the carry-in on the way to an activity, where the link is usable.
fn try_first(asked: &Asked, b: u32, row: &mut [i64], store: &mut Store) -> Result<(), Memory>
    requires asked { IsAsked asked.now }
    requires state { IsUnderWay asked.now store.old (length row.old) }
    requires activity { b < activities asked.now.book.now }
    ensures state { IfOk result (λ _. IsUnderWay asked.now store.new (length row.new)) }
    ensures grows { IfOk result (λ _. Grows b store.old store.new) }
    ensures begun { IfOk result (λ _. IsBegunFor asked.now b store.new) }
    ensures wide { IsAsWide store.old store.new }
    ensures length { length row.new ≡ length row.old }
{
    let from = Place::Carry;
    if !asked.marks.usable(asked.book, asked.k, Place::Carry, b) {
        return Ok(());
    }
    links_leave_free(asked, from, b);
    let arc = arc_weight(asked, from, b);
    write_first(asked.book, asked.k, row);
    try_row(asked, from, arc, b, None, row, store)
}

// Writes the row at the carry-in.
fn write_first(book: &Book, k: u32, row: &mut [i64])
    requires aircraft { k < aircraft book.now }
    requires width { length row.old ≡ 1 + length book.now.rules.counters }
    ensures first { row.new ≡ first_row book.now k }
    ensures counts { AreCounts (carry_of book.now k) }
{
    start(book, k, &mut row[1..]);
    row[0] = 0;
}

// Fills the bucket of an activity.
fn fill(asked: &Asked, b: u32, row: &mut [i64], store: &mut Store) -> Result<(), Memory>
    requires asked { IsAsked asked.now }
    requires state { IsUnderWay asked.now store.old (length row.old) }
    requires activity { b < activities asked.now.book.now }
    ensures state { IfOk result (λ _. IsUnderWay asked.now store.new (length row.new)) }
    ensures grows { IfOk result (λ _. Grows b store.old store.new) }
    ensures filled { IfOk result (λ _. IsFilledFor asked.now store.new b) }
    ensures wide { IsAsWide store.old store.new }
    ensures length { length row.new ≡ length row.old }
{
    try_first(asked, b, row, store)?;
    every_store_is_sound(store);
    try_links(asked, b, row, store)?;
    Ok(())
}

/// Fills all buckets, in order of activity.
pub fn fill_all(asked: &Asked, row: &mut [i64], store: &mut Store) -> Result<(), Memory>
    requires asked { IsAsked asked.now }
    requires state { IsUnderWay asked.now store.old (length row.old) }
    ensures state { IfOk result (λ _. IsUnderWay asked.now store.new (length row.new)) }
    ensures filled { IfOk result (λ _. AreFilledFor asked.now store.new (activities asked.now.book.now)) }
    ensures wide { IsAsWide store.old store.new }
{
    let book = asked.book;
    every_book_is_sound(book);
    for b in 0..book.activities.len() as u32 {
        every_store_is_sound(store);
        fill(asked, b, row, store)?;
    }
    Ok(())
}
