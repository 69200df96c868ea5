//! Labels that wait at an airport, each in the line of a window.
//!
//! A line has the labels that have waited long enough for its window, less those that another one there stands for: what
//! such a label gives at a departure, that other one covers. Nothing moves from line to line, and nothing leaves one
//! but by dominance. A line compares keys, which do not change while time goes by; what is tried at a departure is the
//! label itself, over its own link.

ghost use Rattle.std.specs.Prelude.{◌≡◌, ◌<◌, ◌+◌, ◌≤◌, ◌+ℤ◌, ◌≤ℤ◌, ◌<ℤ◌, ◌++◌, pos, false, length, IfOk, IsTrue, Contains, slice_index_or};
ghost use Rattle.tail_book.specs.Lookup.{activities, end_of};
ghost use Rattle.tail_book.specs.Ranges.{IsWithin};
ghost use Rattle.tail_book.specs.inside.Sound.{IsMoment};
ghost use Rattle.tail_book.specs.declared.limits.TheConstants.{COUNT_LIMIT};
ghost use Rattle.maint_counters.specs.inside.Counts.{AreCounts};
ghost use Rattle.label_store.specs.Store.{bucket_of};
ghost use Rattle.pricing.specs.Rows.{counters_of};
ghost use Rattle.label_store.specs.inside.Growth.{IsAsWide};
ghost use Rattle.pricing.specs.inside.Lines.{keys, key_row};
ghost use Rattle.pricing.specs.inside.Waiting.{AreCleared, HasWaited, IsReadable, Joins, enters_after};
ghost use Rattle.pricing.specs.inside.Asked.{IsAsked};
ghost use Rattle.pricing.specs.inside.ForLines.{AreFlightsFor, AreHeldFor, ArePendingFor, HasWaitedFor, HaveEnteredFor, IsArrivalFor, IsClearedFor, IsHeldFor, IsWaitingFor, MayWaitFor};

use crate::asked::Asked;
use crate::lines::Lines;
use crate::stand::Stand;
use crate::window::{Window, key_one, stamp};
use branch_marks::Named;
use label_store::laws::{
    every_store_is_sound, kept_rows_are_offered, offered_rows_are_covered, offers_keep_covered,
    offers_keep_rows, others_stay,
};
use label_store::{Offered, Store};
use tail_book::laws::every_book_is_sound;
use tail_book::{Book, Counter, Memory, end_of};

/// Labels in lines: the keys of each, with its window as the node, and beside them the label's row and its activity.
#[derive(Drop)]
pub struct Waiting {
    pub keys: Store,
    pub labels: Vec<usize>,
    pub places: Vec<u32>,
}

// A counter's value in a row.
fn value_at(row: &[i64], c: usize) -> i64
    requires counts { AreCounts (counters_of row.now) }
    requires counter { c + 1 < length row.now }
    ensures value { result ≡ slice_index_or (counters_of row.now) c (pos 0) }
    ensures range { IsWithin (pos 0) COUNT_LIMIT result }
{
    row[c + 1]
}

// Writes the counters of a row as they stand while it waits.
fn write_keys(
    port: u32,
    window: Window,
    arrival: i64,
    counters: &[Counter],
    row: &[i64],
    key: &mut Vec<i64>,
) -> Result<(), Memory>
    requires width { length row.now ≡ length counters.now + 1 }
    requires few { length counters.now ≤ 6 }
    requires counts { AreCounts (counters_of row.now) }
    requires cleared { AreCleared counters.now port window }
    requires arrival { IsMoment arrival }
    ensures { IfOk result (λ _. key.new.items ≡ key.old.items ++ keys port window.lo arrival counters.now (counters_of row.now)) }
{
    for c in 0..counters.len() {
        let counter = &counters[c];
        let one = key_one(
            counter.kind,
            window.cleared.has(c as u32),
            arrival,
            value_at(row, c),
        );
        key.push(one)?;
    }
    Ok(())
}

// The weight of a row.
fn weight_of(row: &[i64]) -> i64
    requires { 1 ≤ length row.now }
    ensures { result ≡ slice_index_or row.now 0 (pos 0) }
{
    row[0]
}

// Writes what a line compares of a row.
fn write_key(
    book: &Book,
    port: u32,
    window: Window,
    x: u32,
    row: &[i64],
    key: &mut Vec<i64>,
) -> Result<(), Memory>
    requires activity { x < activities book.now }
    requires width { length row.now ≡ length book.now.rules.counters + 1 }
    requires counts { AreCounts (counters_of row.now) }
    requires cleared { AreCleared book.now.rules.counters port window }
    ensures { IfOk result (λ _. key.new.items ≡ key_row book.now port window.lo window.lasting x row.now) }
{
    every_book_is_sound(book);
    let arrival = end_of(book, x);
    key.clear();
    key.push(weight_of(row))?;
    key.push(stamp(window.lasting, arrival))?;
    write_keys(port, window, arrival, &book.rules.counters, row, key)
}

/// Lets a label enter the line of a window, unless one that is there covers it.
pub fn enter(
    asked: &Asked,
    lines: &Lines,
    store: &Store,
    i: usize,
    x: u32,
    j: usize,
    waiting: &mut Waiting,
    key: &mut Vec<i64>,
) -> Result<(), Memory>
    requires may { MayWaitFor asked.now lines.now x }
    requires window { i < length lines.now.windows.now }
    requires cleared { IsClearedFor asked.now lines.now i }
    requires store { IsReadable asked.now.book.now store.now }
    requires kept { j < length store.now.rows }
    requires label { Contains (bucket_of store.now x) j }
    requires ready { HasWaitedFor asked.now lines.now i x }
    requires waiting { IsWaitingFor asked.now lines.now store.now waiting.old }
    ensures waiting { IfOk result (λ _. IsWaitingFor asked.now lines.now store.now waiting.new) }
    ensures joins { IfOk result (λ _. Joins i waiting.old waiting.new) }
    ensures held { IfOk result (λ _. IsHeldFor asked.now lines.now store.now waiting.new i x j) }
    ensures wide { IsAsWide waiting.old.keys waiting.new.keys }
{
    offers_keep_rows();
    offers_keep_covered();
    offered_rows_are_covered();
    kept_rows_are_offered();
    others_stay();
    every_store_is_sound(store);
    every_store_is_sound(&waiting.keys);
    let windows = lines.windows;
    write_key(
        asked.book,
        lines.stand.port,
        windows[i],
        x,
        store.row(j),
        key,
    )?;
    match waiting.keys.offer(i, None, key)? {
        Offered::Kept(_) => {
            waiting.labels.push(j)?;
            waiting.places.push(x)?;
            Ok(())
        }
        Offered::Covered(_) => Ok(()),
    }
}

/// Lets each label of a flight enter the line of a window.
fn enter_all(
    asked: &Asked,
    lines: &Lines,
    store: &Store,
    i: usize,
    x: u32,
    waiting: &mut Waiting,
    key: &mut Vec<i64>,
) -> Result<(), Memory>
    requires store { IsReadable asked.now.book.now store.now }
    requires may { MayWaitFor asked.now lines.now x }
    requires window { i < length lines.now.windows.now }
    requires cleared { IsClearedFor asked.now lines.now i }
    requires ready { HasWaitedFor asked.now lines.now i x }
    requires waiting { IsWaitingFor asked.now lines.now store.now waiting.old }
    ensures waiting { IfOk result (λ _. IsWaitingFor asked.now lines.now store.now waiting.new) }
    ensures joins { IfOk result (λ _. Joins i waiting.old waiting.new) }
    ensures held { IfOk result (λ _. AreHeldFor asked.now lines.now store.now waiting.new i x) }
    ensures wide { IsAsWide waiting.old.keys waiting.new.keys }
{
    every_store_is_sound(store);
    for q in 0..store.count(x as usize) {
        let j = store.at(x as usize, q);
        enter(asked, lines, store, i, x, j, waiting, key)?;
    }
    Ok(())
}

/// Lets each label of a flight enter the line of a window, if the flight may wait.
fn enter_flight(
    asked: &Asked,
    lines: &Lines,
    store: &Store,
    i: usize,
    x: u32,
    waiting: &mut Waiting,
    key: &mut Vec<i64>,
) -> Result<(), Memory>
    requires asked { IsAsked asked.now }
    requires store { IsReadable asked.now.book.now store.now }
    requires arrival { IsArrivalFor asked.now lines.now x }
    requires window { i < length lines.now.windows.now }
    requires cleared { IsClearedFor asked.now lines.now i }
    requires ready { HasWaitedFor asked.now lines.now i x }
    requires waiting { IsWaitingFor asked.now lines.now store.now waiting.old }
    ensures waiting { IfOk result (λ _. IsWaitingFor asked.now lines.now store.now waiting.new) }
    ensures joins { IfOk result (λ _. Joins i waiting.old waiting.new) }
    ensures held { IfOk result (λ _. MayWaitFor asked.now lines.now x → AreHeldFor asked.now lines.now store.now waiting.new i x) }
    ensures wide { IsAsWide waiting.old.keys waiting.new.keys }
{
    every_book_is_sound(asked.book);
    if x + 1 < lines.stand.floor {
        return Ok(());
    }
    match asked.marks.tied_after(x) {
        Named::Nothing => enter_all(asked, lines, store, i, x, waiting, key),
        Named::One(_) | Named::Several => Ok(()),
    }
}

// The minutes for which a flight has waited when it enters the line of a window.
fn enters_after(turn: i64, window: Window) -> i64
    ensures { result ≡ enters_after turn window }
{
    window.lo.max(turn)
}

// Whether a flight has waited long enough for a window.
fn is_ready(book: &Book, stand: Stand, window: Window, x: u32) -> bool
    requires activity { x < activities book.now }
    requires moment { IsMoment stand.moment }
    ensures ready { IsTrue result → HasWaited book.now stand window x }
    ensures early { result ≡ false → stand.moment <ℤ (end_of book.now x +ℤ enters_after stand.turn window) }
{
    enters_after(stand.turn, window) <= stand.moment - end_of(book, x)
}

/// Lets the flights that have waited long enough enter the line of a window, and gives how many have.
pub fn advance(
    asked: &Asked,
    lines: &Lines,
    store: &Store,
    i: usize,
    upto: usize,
    waiting: &mut Waiting,
    key: &mut Vec<i64>,
) -> Result<usize, Memory>
    requires asked { IsAsked asked.now }
    requires store { IsReadable asked.now.book.now store.now }
    requires flights { AreFlightsFor asked.now lines.now }
    requires moment { IsMoment lines.now.stand.moment }
    requires window { i < length lines.now.windows.now }
    requires cleared { IsClearedFor asked.now lines.now i }
    requires waiting { IsWaitingFor asked.now lines.now store.now waiting.old }
    requires entered { HaveEnteredFor asked.now lines.now store.now waiting.old i upto }
    ensures waiting { IfOk result (λ _. IsWaitingFor asked.now lines.now store.now waiting.new) }
    ensures joins { IfOk result (λ _. Joins i waiting.old waiting.new) }
    ensures entered { IfOk result (λ now. HaveEnteredFor asked.now lines.now store.now waiting.new i now) }
    ensures others { IfOk result (λ now. ArePendingFor asked.now lines.now i now) }
    ensures wide { IsAsWide waiting.old.keys waiting.new.keys }
{
    let (windows, flights) = (lines.windows, lines.flights);
    for q in upto..flights.len() {
        if !is_ready(asked.book, lines.stand, windows[i], flights[q]) {
            return Ok(q);
        }
        enter_flight(asked, lines, store, i, flights[q], waiting, key)?;
    }
    Ok(flights.len())
}
