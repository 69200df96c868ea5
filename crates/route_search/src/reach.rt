//! The rows that can come about as far as a limit, each tried on the way to what may come next.
//!
//! From the carry-in, and then from each activity in order, each row is tried over each usable link. A link leads to a
//! larger number, so when an activity's turn comes its bucket is done. A row goes no further where its weight, with what the
//! link adds and the least that can come behind, is past the limit: no completion of it is within. That is one comparison,
//! before the counters are stepped, before anything is copied. Nothing is allocated but what the store grows by.

ghost use Rattle.std.specs.Prelude.{◌≡◌, ◌<◌, ◌≤◌, ◌+◌, ◌+ℤ◌, ◌-ℤ◌, ℤ, false, suc, length, IfOk};
ghost use Rattle.tail_book.specs.declared.place.Place.TheVariants.{Carry, After};
ghost use Rattle.tail_book.specs.Lookup.{activities, carry_of};
ghost use Rattle.tail_book.specs.Place.{IsPlaceOf};
ghost use Rattle.maint_counters.specs.inside.Counts.{AreCounts};
ghost use Rattle.label_store.specs.Buckets.{row_at};
ghost use Rattle.label_store.specs.Store.{IsRowOf};
ghost use Rattle.label_store.specs.inside.Laws.{IsCoveredAt};
ghost use Rattle.pricing.specs.inside.WeightRange.{IsBroad, IsSmall};
ghost use Rattle.pricing.specs.inside.Truth.{place_of, IsKept};
ghost use Rattle.label_store.specs.inside.Growth.{IsAsWide};
ghost use Rattle.route_search.specs.inside.Reach.{GrowsFrom, HasNoRoom, WeighNoLess, up_to};
ghost use Rattle.route_search.specs.inside.ForTask.{AreBehindFor, AreTriedFor, AreTrueFor, GoesOnWithinFor, IsDoneFor, IsNextFor, IsTriedFor, IsTrueFor, IsUsableFor, IsWayFor, arc_weight_for, first_row_for, row_for};
ghost use Rattle.route_search.specs.inside.Task.{IsTask};

use crate::completion::{Way, way_through};
use crate::followers::followers;
use crate::lightest::lightest;
use crate::step::{added_by, links_leave_free};
use crate::task::{Task, every_task_is_sound};
use connection_net::laws::{heads_are_links, rows_are_their_places, rows_for_each, rows_rise};
use label_store::Store;
use label_store::laws::{
    every_store_is_sound, offered_rows_are_covered, offers_keep_covered, offers_keep_rows,
    others_stay,
};
use maint_counters::start;
use pricing::laws::{offers_keep_truth, true_rows_are_small};
use pricing::{stepped, weight_of};
use tail_book::laws::rising_routes_are_below;
use tail_book::{Memory, Place};

// Offers the row after an activity.
fn put(
    task: &Task,
    b: u32,
    parent: Option<usize>,
    row: &[i64],
    store: &mut Store,
) -> Result<(), Memory>
    requires node { b < length store.old.buckets }
    requires later { up_to (place_of store.old parent) ≤ b }
    requires width { length row.now ≡ store.old.width }
    requires truths { AreTrueFor task.now store.old }
    requires kept { IsKept store.old parent }
    requires truth { IsTrueFor task.now store.old parent }
    requires next { IsNextFor task.now (place_of store.old parent) (row_for task.now store.old parent) b row.now }
    ensures truths { IfOk result (λ _. AreTrueFor task.now store.new) }
    ensures grows { IfOk result (λ _. GrowsFrom (up_to (place_of store.old parent)) store.old store.new) }
    ensures covered { IfOk result (λ _. IsCoveredAt store.new b row.now) }
    ensures wide { IsAsWide store.old store.new }
{
    offers_keep_truth();
    offers_keep_rows();
    offers_keep_covered();
    offered_rows_are_covered();
    others_stay();
    every_store_is_sound(store);
    let _offered = store.offer(b as usize, parent, row)?;
    every_store_is_sound(store);
    Ok(())
}

// Tries a row on the way to an activity: what is within the counters' limits is offered.
fn try_row(
    task: &Task,
    from: Place,
    b: u32,
    arc: i64,
    parent: Option<usize>,
    row: &mut [i64],
    store: &mut Store,
) -> Result<(), Memory>
    requires task { IsTask task.now }
    requires place { IsPlaceOf task.now.book.now from }
    requires activity { b < activities task.now.book.now }
    requires later { up_to from ≤ b }
    requires arc { arc ≡ arc_weight_for task.now from b }
    requires arc_range { IsBroad arc }
    requires nodes { length store.old.buckets ≡ activities task.now.book.now }
    requires width { length row.old ≡ 1 + length task.now.book.now.rules.counters }
    requires same_width { store.old.width ≡ length row.old }
    requires truths { AreTrueFor task.now store.old }
    requires kept { IsKept store.old parent }
    requires truth { IsTrueFor task.now store.old parent }
    requires from { from ≡ place_of store.old parent }
    requires row { row.old ≡ row_for task.now store.old parent }
    requires usable { IsUsableFor task.now from b }
    ensures truths { IfOk result (λ _. AreTrueFor task.now store.new) }
    ensures grows { IfOk result (λ _. GrowsFrom (up_to from) store.old store.new) }
    ensures tried { IfOk result (λ _. (limit : ℤ) → IsTriedFor task.now limit store.new from row.old b) }
    ensures wide { IsAsWide store.old store.new }
    ensures length { length row.new ≡ length row.old }
{
    every_task_is_sound(task);
    true_rows_are_small();
    links_leave_free(task, from, b);
    if !stepped(task.book, task.steps, task.k, arc, from, b, row) {
        return Ok(());
    }
    put(task, b, parent, row, store)
}

// The weight above which a row is past the limit on a way.
fn room(limit: i64, least: i64) -> i64
    requires limit { IsBroad limit }
    requires least { IsSmall least }
    ensures { result ≡ limit -ℤ least }
{
    limit - least
}

// Tries each row of the bucket of an activity on a way, but for those past the limit.
fn try_bucket(
    task: &Task,
    x: u32,
    b: u32,
    way: Way,
    limit: i64,
    row: &mut [i64],
    store: &mut Store,
) -> Result<(), Memory>
    requires task { IsTask task.now }
    requires place { x < activities task.now.book.now }
    requires activity { b < activities task.now.book.now }
    requires later { x < b }
    requires way { IsWayFor task.now (After x) b way }
    requires small { IsSmall way.least }
    requires arc { IsBroad way.arc }
    requires limit { IsBroad limit }
    requires nodes { length store.old.buckets ≡ activities task.now.book.now }
    requires width { length row.old ≡ 1 + length task.now.book.now.rules.counters }
    requires same_width { store.old.width ≡ length row.old }
    requires truths { AreTrueFor task.now store.old }
    ensures truths { IfOk result (λ _. AreTrueFor task.now store.new) }
    ensures grows { IfOk result (λ _. GrowsFrom (suc x) store.old store.new) }
    ensures tried { IfOk result (λ _. AreTriedFor task.now limit store.old x store.new b) }
    ensures wide { IsAsWide store.old store.new }
    ensures length { length row.new ≡ length row.old }
{
    every_store_is_sound(store);
    let room = room(limit, way.least);
    for i in 0..store.count(x as usize) {
        every_store_is_sound(store);
        let j = store.at(x as usize, i);
        try_kept(task, x, b, way, room, j, row, store)?;
    }
    Ok(())
}

// Tries a row of the store on a way, if it has room there.
fn try_kept(
    task: &Task,
    x: u32,
    b: u32,
    way: Way,
    room: i64,
    j: usize,
    row: &mut [i64],
    store: &mut Store,
) -> Result<(), Memory>
    requires task { IsTask task.now }
    requires place { x < activities task.now.book.now }
    requires activity { b < activities task.now.book.now }
    requires later { x < b }
    requires way { IsWayFor task.now (After x) b way }
    requires arc { IsBroad way.arc }
    requires nodes { length store.old.buckets ≡ activities task.now.book.now }
    requires width { length row.old ≡ 1 + length task.now.book.now.rules.counters }
    requires same_width { store.old.width ≡ length row.old }
    requires truths { AreTrueFor task.now store.old }
    requires kept { IsRowOf store.old x j }
    ensures truths { IfOk result (λ _. AreTrueFor task.now store.new) }
    ensures grows { IfOk result (λ _. GrowsFrom (suc x) store.old store.new) }
    ensures tried { IfOk result (λ _. (limit : ℤ) → room ≡ limit -ℤ way.least → IsTriedFor task.now limit store.new (After x) (row_at store.old.rows j) b) }
    ensures wide { IsAsWide store.old store.new }
    ensures length { length row.new ≡ length row.old }
{
    every_store_is_sound(store);
    if weight_of(store, j) > room {
        return Ok(());
    }
    row.copy_from_slice(store.row(j));
    try_row(task, Place::After(x), b, way.arc, Some(j), row, store)
}

// Two weights together.
fn both(one: i64, other: i64) -> i128
    ensures { result ≡ one +ℤ other }
{
    one as i128 + other as i128
}

// What a limit leaves beside a weight.
fn left(limit: i64, low: i64) -> i128
    ensures { result ≡ limit -ℤ low }
{
    limit as i128 - low as i128
}

// Whether a row of this weight may have room on a way through an activity that adds so much, with the least behind it. A
// connection costs nothing or more.
fn may_have_room(low: i64, added: i64, rest: Option<i64>, limit: i64) -> bool
    ensures { result ≡ false → HasNoRoom low added rest limit }
{
    match rest {
        Some(rest) => both(added, rest) <= left(limit, low),
        None => false,
    }
}

// Tries the rows of an activity on the way to a later one, where there is a way. The link is asked for only where the lightest
// row may have room.
fn try_link(
    task: &Task,
    behind: &[Option<i64>],
    x: u32,
    b: u32,
    low: i64,
    limit: i64,
    row: &mut [i64],
    store: &mut Store,
) -> Result<(), Memory>
    requires task { IsTask task.now }
    requires behind { AreBehindFor task.now behind.now }
    requires place { x < activities task.now.book.now }
    requires activity { b < activities task.now.book.now }
    requires later { x < b }
    requires low { WeighNoLess store.old x low }
    requires limit { IsBroad limit }
    requires nodes { length store.old.buckets ≡ activities task.now.book.now }
    requires width { length row.old ≡ 1 + length task.now.book.now.rules.counters }
    requires same_width { store.old.width ≡ length row.old }
    requires truths { AreTrueFor task.now store.old }
    ensures truths { IfOk result (λ _. AreTrueFor task.now store.new) }
    ensures grows { IfOk result (λ _. GrowsFrom (suc x) store.old store.new) }
    ensures tried { IfOk result (λ _. AreTriedFor task.now limit store.old x store.new b) }
    ensures wide { IsAsWide store.old store.new }
    ensures length { length row.new ≡ length row.old }
{
    if !may_have_room(low, added_by(task, b), behind[b as usize], limit) {
        return Ok(());
    }
    let Some(way) = way_through(task, behind, Place::After(x), b) else {
        return Ok(());
    };
    try_bucket(task, x, b, way, limit, row, store)
}

// Tries the rows of an activity on the way to each that may come next.
fn try_links(
    task: &Task,
    behind: &[Option<i64>],
    x: u32,
    limit: i64,
    row: &mut [i64],
    store: &mut Store,
) -> Result<(), Memory>
    requires task { IsTask task.now }
    requires behind { AreBehindFor task.now behind.now }
    requires place { x < activities task.now.book.now }
    requires limit { IsBroad limit }
    requires nodes { length store.old.buckets ≡ activities task.now.book.now }
    requires width { length row.old ≡ 1 + length task.now.book.now.rules.counters }
    requires same_width { store.old.width ≡ length row.old }
    requires truths { AreTrueFor task.now store.old }
    ensures truths { IfOk result (λ _. AreTrueFor task.now store.new) }
    ensures grows { IfOk result (λ _. GrowsFrom (suc x) store.old store.new) }
    ensures done { IfOk result (λ _. IsDoneFor task.now limit store.new x) }
    ensures wide { IsAsWide store.old store.new }
    ensures length { length row.new ≡ length row.old }
{
    every_store_is_sound(store);
    let low = lightest(store, x);
    let next = followers(task, x);
    for i in 0..next.len() {
        try_link(task, behind, x, next[i], low, limit, row, store)?;
    }
    Ok(())
}

/// Goes on from each row of the bucket of an activity.
pub fn go_on(
    task: &Task,
    behind: &[Option<i64>],
    x: u32,
    limit: i64,
    row: &mut [i64],
    store: &mut Store,
) -> Result<(), Memory>
    requires task { IsTask task.now }
    requires behind { AreBehindFor task.now behind.now }
    requires place { x < activities task.now.book.now }
    requires limit { IsBroad limit }
    requires nodes { length store.old.buckets ≡ activities task.now.book.now }
    requires width { length row.old ≡ 1 + length task.now.book.now.rules.counters }
    requires same_width { store.old.width ≡ length row.old }
    requires truths { AreTrueFor task.now store.old }
    ensures truths { IfOk result (λ _. AreTrueFor task.now store.new) }
    ensures grows { IfOk result (λ _. GrowsFrom (suc x) store.old store.new) }
    ensures done { IfOk result (λ _. IsDoneFor task.now limit store.new x) }
    ensures wide { IsAsWide store.old store.new }
    ensures length { length row.new ≡ length row.old }
{
    if store.count(x as usize) == 0 {
        return Ok(());
    }
    try_links(task, behind, x, limit, row, store)
}

// Writes the row at the carry-in.
fn write_first(task: &Task, row: &mut [i64])
    requires task { IsTask task.now }
    requires width { length row.old ≡ 1 + length task.now.book.now.rules.counters }
    ensures first { row.new ≡ first_row_for task.now }
    ensures counts { AreCounts (carry_of task.now.book.now task.now.k) }
{
    start(task.book, task.k, &mut row[1..]);
    row[0] = 0;
}

// Tries the carry-in on the way to an activity, where there is a way within the limit.
fn try_first(
    task: &Task,
    behind: &[Option<i64>],
    b: u32,
    limit: i64,
    row: &mut [i64],
    store: &mut Store,
) -> Result<(), Memory>
    requires task { IsTask task.now }
    requires behind { AreBehindFor task.now behind.now }
    requires activity { b < activities task.now.book.now }
    requires nodes { length store.old.buckets ≡ activities task.now.book.now }
    requires width { length row.old ≡ 1 + length task.now.book.now.rules.counters }
    requires same_width { store.old.width ≡ length row.old }
    requires truths { AreTrueFor task.now store.old }
    ensures truths { IfOk result (λ _. AreTrueFor task.now store.new) }
    ensures grows { IfOk result (λ _. GrowsFrom 0 store.old store.new) }
    ensures tried { IfOk result (λ _. IsUsableFor task.now Carry b → IsTriedFor task.now limit store.new Carry (first_row_for task.now) b) }
    ensures wide { IsAsWide store.old store.new }
    ensures length { length row.new ≡ length row.old }
{
    let Some(way) = way_through(task, behind, Place::Carry, b) else {
        return Ok(());
    };
    if way.least > limit {
        return Ok(());
    }
    write_first(task, row);
    try_row(task, Place::Carry, b, way.arc, None, row, store)
}

/// Goes on from the carry-in.
pub fn begin(
    task: &Task,
    behind: &[Option<i64>],
    limit: i64,
    row: &mut [i64],
    store: &mut Store,
) -> Result<(), Memory>
    requires task { IsTask task.now }
    requires behind { AreBehindFor task.now behind.now }
    requires nodes { length store.old.buckets ≡ activities task.now.book.now }
    requires width { length row.old ≡ 1 + length task.now.book.now.rules.counters }
    requires same_width { store.old.width ≡ length row.old }
    requires truths { AreTrueFor task.now store.old }
    ensures truths { IfOk result (λ _. AreTrueFor task.now store.new) }
    ensures begun { IfOk result (λ _. GoesOnWithinFor task.now limit store.new Carry (first_row_for task.now)) }
    ensures grows { IfOk result (λ _. GrowsFrom 0 store.old store.new) }
    ensures wide { IsAsWide store.old store.new }
    ensures length { length row.new ≡ length row.old }
{
    every_task_is_sound(task);
    heads_are_links();
    rows_rise();
    rows_for_each();
    rows_are_their_places();
    rising_routes_are_below();
    let first = task.net.heads(task.k);
    for i in 0..first.len() {
        try_first(task, behind, first[i], limit, row, store)?;
    }
    Ok(())
}
