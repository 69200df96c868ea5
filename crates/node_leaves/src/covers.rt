//! The covers of a bound, and what shows a stuck aircraft, told to a log.
//!
//! What weighs least is known before, and told first: an aircraft is priced again for its labels alone, so that no more
//! than one store of them is ever held. They are listed before the first of them is told.
//!
//! A log that wants no events is told none, and one that wants no labels of covers only their values. No aircraft is
//! priced again for either: that covers with these values are there is a law of `branch_marks`, and nobody reads them.

ghost use Rattle.std.specs.Prelude.{◌≡◌, ◌<◌, ◌∷◌, [], All, IfOk, OnOk, OnErr, IsErrOf};
ghost use Rattle.tail_book.specs.Lookup.{aircraft};
ghost use Rattle.tail_book.specs.CostTable.{IsTableFor};
ghost use Rattle.branch_marks.specs.Bound.{AreLeastWeights};
ghost use Rattle.branch_marks.specs.DeadEnds.{IsStuck};
ghost use Rattle.branch_marks.specs.Events.{IsLineValue, IsNotable};
ghost use Rattle.branch_marks.specs.ProofTree.{IsShownStuck, zero_duals};
ghost use Rattle.branch_marks.specs.Settled.{AreDuals};
ghost use Rattle.branch_marks.specs.TreeLog.{Notes, NotesFront, IsLater, WriteHasFailed};
ghost use Rattle.branch_marks.specs.Weights.{IsLeastWeight};
ghost use Rattle.pricing.specs.Rows.{labels_of};
ghost use Rattle.branch_marks.specs.TreeEvents.{dual_events, label_events, stuck_events};
ghost use Rattle.node_leaves.specs.inside.Leaf.{IsReady, IsCoverNoted, IsStuckNoted, IsCutAtCover, IsCutAtCovers, IsCutAtLeaf, AreCoversOf, IsBoundNoted};
ghost use Rattle.node_leaves.specs.inside.PricedStore.{ShowsLowValues};

use crate::node_events::{list_duals, list_labels, list_one};
use crate::notes::{note_all, note_one};
use crate::{NodePricer, Stop, laws};
use branch_marks::laws::{low_bounds_are_shown, low_weights_are_shown, stuck_is_shown};
use branch_marks::{Event, Marks, TreeLog};
use connection_net::Net;
use label_store::laws::every_store_is_sound;
use std::alloc::Global;
use tail_book::laws::{every_book_is_sound, every_cost_table_is_sound};
use tail_book::{Book, CostTable, Duals, Memory};

// The events of the labels of an aircraft's cover, which show each value that no route of it undercuts.
fn family_of(
    alloc: Global,
    book: &Book,
    table: &CostTable,
    net: &Net,
    marks: &Marks,
    duals: &Duals,
    k: u32,
    prices: &mut NodePricer,
) -> Result<Vec<Event>, Memory>
    requires ready { IsReady table.now book.now net.now marks.now prices.old }
    requires duals { AreDuals table.now book.now duals.now.values }
    requires aircraft { k < aircraft book.now }
    ensures shows { IfOk result (λ _. ShowsLowValues table.now book.now marks.now.facts k duals.now.values (labels_of prices.new.store)) }
    ensures events { IfOk result (λ events. events.items ≡ label_events (labels_of prices.new.store)) }
    ensures notable { IfOk result (λ events. All IsNotable events.items) }
    ensures ready { IsReady table.now book.now net.now marks.now prices.new }
{
    every_book_is_sound(book);
    every_cost_table_is_sound(table);
    laws::priced_families_are_shown();
    laws::priced_ends_are_low();
    laws::priced_labels_are_spelled();
    prices.fill(book, table, net, marks, duals, k)?;
    every_store_is_sound(&prices.store);
    let mut events = Vec::new(alloc);
    list_labels(&mut events, &prices.store, book.activities.len())?;
    Ok(events)
}

// The events of a stuck aircraft, with duals that are all 0.
fn stuck_of(
    alloc: Global,
    book: &Book,
    table: &CostTable,
    net: &Net,
    marks: &Marks,
    zeros: &Duals,
    k: u32,
    prices: &mut NodePricer,
) -> Result<Vec<Event>, Memory>
    requires ready { IsReady table.now book.now net.now marks.now prices.old }
    requires zeros { zeros.now.values ≡ zero_duals book.now }
    requires aircraft { k < aircraft book.now }
    requires stuck { IsStuck book.now marks.now.facts k }
    ensures shown { IfOk result (λ _. IsShownStuck table.now book.now marks.now.facts k (labels_of prices.new.store)) }
    ensures events { IfOk result (λ events. events.items ≡ stuck_events k (labels_of prices.new.store)) }
    ensures notable { IfOk result (λ events. All IsNotable events.items) }
    ensures ready { IsReady table.now book.now net.now marks.now prices.new }
{
    every_book_is_sound(book);
    every_cost_table_is_sound(table);
    laws::zeros_are_duals();
    laws::priced_families_are_shown();
    laws::stuck_have_no_end();
    laws::priced_labels_are_spelled();
    prices.fill(book, table, net, marks, zeros, k)?;
    every_store_is_sound(&prices.store);
    let mut events = Vec::new(alloc);
    list_one(&mut events, Event::Stuck(k))?;
    list_labels(&mut events, &prices.store, book.activities.len())?;
    Ok(events)
}

// Notes the value of an aircraft's cover.
fn note_value<L: TreeLog>(k: u32, value: &i64, log: &mut L) -> Result<(), Stop>
    requires value { IsLineValue value.now }
    ensures noted { OnOk result (Notes (L.shows log.old) (L.shows log.new) (Event.Cover k value.now ∷ [])) }
    ensures cut { OnErr result (NotesFront (L.shows log.old) (L.shows log.new) (Event.Cover k value.now ∷ [])) }
    ensures later { IsLater (L.shows log.old) (L.shows log.new) }
    ensures beside { L.beside log.old log.new }
    ensures cause { IsErrOf result Stop.Log → WriteHasFailed (L.shows log.old) (L.shows log.new) }
{
    let event = Event::Cover(k, *value);
    note_one(log, &event)
}

// Notes the cover of an aircraft with this value, which is its least weight. Where the log wants no labels of it the
// aircraft isn't priced.
fn note_cover<L: TreeLog>(
    alloc: Global,
    book: &Book,
    table: &CostTable,
    net: &Net,
    marks: &Marks,
    duals: &Duals,
    k: u32,
    value: &i64,
    prices: &mut NodePricer,
    log: &mut L,
) -> Result<(), Stop>
    requires ready { IsReady table.now book.now net.now marks.now prices.old }
    requires duals { AreDuals table.now book.now duals.now.values }
    requires aircraft { k < aircraft book.now }
    requires least { IsLeastWeight table.now book.now marks.now.facts k duals.now.values value.now }
    ensures noted { OnOk result (IsCoverNoted table.now book.now marks.now.facts k duals.now.values value.now (L.shows log.old) (L.shows log.new)) }
    ensures cut { OnErr result (IsCutAtCover table.now book.now marks.now.facts k duals.now.values (L.shows log.old) (L.shows log.new)) }
    ensures later { IsLater (L.shows log.old) (L.shows log.new) }
    ensures beside { L.beside log.old log.new }
    ensures cause { IsErrOf result Stop.Log → WriteHasFailed (L.shows log.old) (L.shows log.new) }
    ensures ready { IsReady table.now book.now net.now marks.now prices.new }
{
    every_book_is_sound(book);
    every_cost_table_is_sound(table);
    laws::least_weights_are_spelled();
    low_weights_are_shown();
    if let Err(stop) = note_value(k, value, log) {
        return Err(stop);
    }
    if !log.wants_labels() {
        return Ok(());
    }
    let labels = match family_of(alloc, book, table, net, marks, duals, k, prices) {
        Ok(labels) => labels,
        Err(_) => return Err(Stop::Memory),
    };
    if let Err(stop) = note_all(log, &labels) {
        return Err(stop);
    }
    Ok(())
}

// Notes the covers of all aircraft, with these values, which are their least weights.
fn note_covers<L: TreeLog>(
    alloc: Global,
    book: &Book,
    table: &CostTable,
    net: &Net,
    marks: &Marks,
    duals: &Duals,
    values: &[i64],
    prices: &mut NodePricer,
    log: &mut L,
) -> Result<(), Stop>
    requires ready { IsReady table.now book.now net.now marks.now prices.old }
    requires duals { AreDuals table.now book.now duals.now.values }
    requires least { AreLeastWeights table.now book.now marks.now.facts duals.now.values values.now }
    ensures covers { OnOk result (AreCoversOf table.now book.now marks.now.facts duals.now.values values.now (L.shows log.old) (L.shows log.new)) }
    ensures cut { OnErr result (IsCutAtCovers table.now book.now marks.now.facts duals.now.values (L.shows log.old) (L.shows log.new)) }
    ensures later { IsLater (L.shows log.old) (L.shows log.new) }
    ensures beside { L.beside log.old log.new }
    ensures cause { IsErrOf result Stop.Log → WriteHasFailed (L.shows log.old) (L.shows log.new) }
    ensures ready { IsReady table.now book.now net.now marks.now prices.new }
{
    every_book_is_sound(book);
    for k in 0..values.len() {
        if let Err(stop) = note_cover(
            alloc, book, table, net, marks, duals, k as u32, &values[k], prices, log,
        ) {
            return Err(stop);
        }
    }
    Ok(())
}

// A bound and its duals.
fn duals_of(
    alloc: Global,
    book: &Book,
    table: &CostTable,
    duals: &Duals,
) -> Result<Vec<Event>, Memory>
    requires table { IsTableFor book.now table.now }
    requires duals { AreDuals table.now book.now duals.now.values }
    ensures events { IfOk result (λ events. events.items ≡ Event.Bound ∷ dual_events 0 duals.now.values) }
    ensures notable { IfOk result (λ events. All IsNotable events.items) }
{
    every_book_is_sound(book);
    every_cost_table_is_sound(table);
    laws::duals_are_spelled();
    let mut events = Vec::new(alloc);
    list_one(&mut events, Event::Bound)?;
    list_duals(&mut events, &duals.values)?;
    Ok(events)
}

// Notes a bound as it is told: its duals, and then the covers, one after the other.
fn tell_bounded<L: TreeLog>(
    alloc: Global,
    book: &Book,
    table: &CostTable,
    net: &Net,
    marks: &Marks,
    duals: &Duals,
    values: &[i64],
    prices: &mut NodePricer,
    log: &mut L,
) -> Result<(), Stop>
    requires ready { IsReady table.now book.now net.now marks.now prices.old }
    requires duals { AreDuals table.now book.now duals.now.values }
    requires least { AreLeastWeights table.now book.now marks.now.facts duals.now.values values.now }
    ensures noted { OnOk result (IsBoundNoted table.now book.now marks.now.facts duals.now.values values.now (L.shows log.old) (L.shows log.new)) }
    ensures cut { OnErr result (IsCutAtLeaf table.now book.now marks.now.facts (L.shows log.old) (L.shows log.new)) }
    ensures later { IsLater (L.shows log.old) (L.shows log.new) }
    ensures beside { L.beside log.old log.new }
    ensures cause { IsErrOf result Stop.Log → WriteHasFailed (L.shows log.old) (L.shows log.new) }
    ensures ready { IsReady table.now book.now net.now marks.now prices.new }
{
    let events = match duals_of(alloc, book, table, duals) {
        Ok(events) => events,
        Err(_) => return Err(Stop::Memory),
    };
    if let Err(stop) = note_all(log, &events) {
        return Err(stop);
    }
    if let Err(stop) = note_covers(alloc, book, table, net, marks, duals, values, prices, log) {
        return Err(stop);
    }
    Ok(())
}

/// Notes a bound: its duals, and a cover of each aircraft, with these values, which are their least weights.
/// Where the log wants no events nothing is priced.
pub fn note_bounded<L: TreeLog>(
    alloc: Global,
    book: &Book,
    table: &CostTable,
    net: &Net,
    marks: &Marks,
    duals: &Duals,
    values: &[i64],
    prices: &mut NodePricer,
    log: &mut L,
) -> Result<(), Stop>
    requires ready { IsReady table.now book.now net.now marks.now prices.old }
    requires duals { AreDuals table.now book.now duals.now.values }
    requires least { AreLeastWeights table.now book.now marks.now.facts duals.now.values values.now }
    ensures noted { OnOk result (IsBoundNoted table.now book.now marks.now.facts duals.now.values values.now (L.shows log.old) (L.shows log.new)) }
    ensures cut { OnErr result (IsCutAtLeaf table.now book.now marks.now.facts (L.shows log.old) (L.shows log.new)) }
    ensures later { IsLater (L.shows log.old) (L.shows log.new) }
    ensures beside { L.beside log.old log.new }
    ensures cause { IsErrOf result Stop.Log → WriteHasFailed (L.shows log.old) (L.shows log.new) }
    ensures ready { IsReady table.now book.now net.now marks.now prices.new }
{
    if log.wants_events() {
        return tell_bounded(alloc, book, table, net, marks, duals, values, prices, log);
    }
    every_book_is_sound(book);
    low_bounds_are_shown();
    Ok(())
}

// Notes a stuck aircraft as it is told: with its labels.
fn tell_stuck<L: TreeLog>(
    alloc: Global,
    book: &Book,
    table: &CostTable,
    net: &Net,
    marks: &Marks,
    k: u32,
    prices: &mut NodePricer,
    log: &mut L,
) -> Result<(), Stop>
    requires ready { IsReady table.now book.now net.now marks.now prices.old }
    requires aircraft { k < aircraft book.now }
    requires stuck { IsStuck book.now marks.now.facts k }
    ensures noted { OnOk result (IsStuckNoted table.now book.now marks.now.facts k (L.shows log.old) (L.shows log.new)) }
    ensures cut { OnErr result (IsCutAtLeaf table.now book.now marks.now.facts (L.shows log.old) (L.shows log.new)) }
    ensures later { IsLater (L.shows log.old) (L.shows log.new) }
    ensures beside { L.beside log.old log.new }
    ensures cause { IsErrOf result Stop.Log → WriteHasFailed (L.shows log.old) (L.shows log.new) }
    ensures ready { IsReady table.now book.now net.now marks.now prices.new }
{
    let zeros = match zeros_of(alloc, book) {
        Ok(zeros) => zeros,
        Err(_) => return Err(Stop::Memory),
    };
    let events = match stuck_of(alloc, book, table, net, marks, &zeros, k, prices) {
        Ok(events) => events,
        Err(_) => return Err(Stop::Memory),
    };
    if let Err(stop) = note_all(log, &events) {
        return Err(stop);
    }
    Ok(())
}

/// Notes that an aircraft is stuck, with the labels that show it.
/// Where the log wants no events nothing is priced.
pub fn note_stuck<L: TreeLog>(
    alloc: Global,
    book: &Book,
    table: &CostTable,
    net: &Net,
    marks: &Marks,
    k: u32,
    prices: &mut NodePricer,
    log: &mut L,
) -> Result<(), Stop>
    requires ready { IsReady table.now book.now net.now marks.now prices.old }
    requires aircraft { k < aircraft book.now }
    requires stuck { IsStuck book.now marks.now.facts k }
    ensures noted { OnOk result (IsStuckNoted table.now book.now marks.now.facts k (L.shows log.old) (L.shows log.new)) }
    ensures cut { OnErr result (IsCutAtLeaf table.now book.now marks.now.facts (L.shows log.old) (L.shows log.new)) }
    ensures later { IsLater (L.shows log.old) (L.shows log.new) }
    ensures beside { L.beside log.old log.new }
    ensures cause { IsErrOf result Stop.Log → WriteHasFailed (L.shows log.old) (L.shows log.new) }
    ensures ready { IsReady table.now book.now net.now marks.now prices.new }
{
    if log.wants_events() {
        return tell_stuck(alloc, book, table, net, marks, k, prices, log);
    }
    every_book_is_sound(book);
    stuck_is_shown();
    Ok(())
}

// A dual of 0 for each activity.
fn zeros_of(alloc: Global, book: &Book) -> Result<Duals, Memory>
    ensures { IfOk result (λ zeros. zeros.values ≡ zero_duals book.now) }
{
    let values = vec![in alloc; 0i64; book.activities.len()]?;
    Ok(Duals { values })
}
