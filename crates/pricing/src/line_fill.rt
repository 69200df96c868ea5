//! Buckets filled from the lines of an airport.
//!
//! What has become ready enters its lines, each line gives what it has, and ground time there is gone through link by
//! link. Nothing else can lead to a flight with no Tie and no Cut into it.

ghost use Rattle.std.specs.Prelude.{ℕ, ◌≡◌, ◌<◌, length, IfOk, Contains, slice_index_or};
ghost use Rattle.tail_book.specs.Lookup.{activities};
ghost use Rattle.tail_book.specs.inside.Sound.{IsMoment};
ghost use Rattle.label_store.specs.inside.Growth.{IsAsWide};
ghost use Rattle.pricing.specs.inside.Growth.{Grows};
ghost use Rattle.pricing.specs.inside.Waiting.{AreFlights, AreWindows, IsReadable};
ghost use Rattle.pricing.specs.inside.Airports.{AreGrounds};
ghost use Rattle.pricing.specs.inside.Asked.{IsAsked, IsUnderWay};
ghost use Rattle.pricing.specs.inside.ForAsked.{IsFilledFor, IsReachedFor};
ghost use Rattle.pricing.specs.inside.ForLines.{AreEnteredAt, AreEnteredFor, AreFlightsFor, ArePendingFor, AreTriedInFor, IsClearedFor, IsOpenAt, IsOpenFor, IsWaitingAt, IsWaitingFor};

use crate::asked::Asked;
use crate::departing::depart;
use crate::fill::{try_first, try_link};
use crate::lines::Lines;
use crate::stand::Stand;
use crate::waiting::{Waiting, advance};
use crate::window::Window;
use label_store::Store;
use label_store::laws::every_store_is_sound;
use tail_book::Memory;
use tail_book::laws::{each_at_most_chains, every_book_is_sound, lower_stays_within};

// Lets the flights that have waited long enough enter the line of each window.
fn advance_all(
    asked: &Asked,
    lines: &Lines,
    store: &Store,
    entered: &mut [usize],
    waiting: &mut Waiting,
    key: &mut Vec<i64>,
) -> Result<(), Memory>
    requires asked { IsAsked asked.now }
    requires store { IsReadable asked.now.book.now store.now }
    requires flights { AreFlightsFor asked.now lines.now }
    requires moment { IsMoment lines.now.stand.moment }
    requires cleared { (i : ℕ) → i < length lines.now.windows.now → IsClearedFor asked.now lines.now i }
    requires waiting { IsWaitingFor asked.now lines.now store.now waiting.old }
    requires entered { AreEnteredFor asked.now lines.now store.now waiting.old entered.old }
    ensures waiting { IfOk result (λ _. IsWaitingFor asked.now lines.now store.now waiting.new) }
    ensures entered { IfOk result (λ _. AreEnteredFor asked.now lines.now store.now waiting.new entered.new) }
    ensures pending { IfOk result (λ _. (i : ℕ) → i < length lines.now.windows.now → ArePendingFor asked.now lines.now i (slice_index_or entered.new i 0)) }
    ensures wide { IsAsWide waiting.old.keys waiting.new.keys }
    ensures length { length entered.new ≡ length entered.old }
{
    let windows = lines.windows;
    for i in 0..windows.len() {
        let upto = entered[i];
        entered[i] = advance(asked, lines, store, i, upto, waiting, key)?;
    }
    Ok(())
}

// Tries the entries of the line of each window.
fn depart_all(
    asked: &Asked,
    lines: &Lines,
    b: u32,
    waiting: &Waiting,
    row: &mut [i64],
    store: &mut Store,
) -> Result<(), Memory>
    requires asked { IsAsked asked.now }
    requires state { IsUnderWay asked.now store.old (length row.old) }
    requires activity { b < activities asked.now.book.now }
    requires leaves { IsOpenFor asked.now lines.now b }
    requires waiting { IsWaitingFor asked.now lines.now store.old waiting.now }
    ensures state { IfOk result (λ _. IsUnderWay asked.now store.new (length row.new)) }
    ensures grows { IfOk result (λ _. Grows b store.old store.new) }
    ensures tried { IfOk result (λ _. (i : ℕ) → i < length lines.now.windows.now → AreTriedInFor asked.now lines.now store.old store.new b waiting.now i) }
    ensures wide { IsAsWide store.old store.new }
    ensures length { length row.new ≡ length row.old }
{
    every_book_is_sound(asked.book);
    every_store_is_sound(store);
    every_store_is_sound(&waiting.keys);
    let windows = lines.windows;
    for i in 0..windows.len() {
        every_store_is_sound(store);
        depart(asked, lines, i, b, waiting, row, store)?;
    }
    Ok(())
}

// Tries the rows of an activity on the way to another one, if that is a later one.
fn try_earlier(
    asked: &Asked,
    x: u32,
    b: u32,
    row: &mut [i64],
    store: &mut Store,
) -> Result<(), Memory>
    requires asked { IsAsked asked.now }
    requires state { IsUnderWay asked.now store.old (length row.old) }
    requires place { x < activities asked.now.book.now }
    requires activity { b < activities asked.now.book.now }
    ensures state { IfOk result (λ _. IsUnderWay asked.now store.new (length row.new)) }
    ensures grows { IfOk result (λ _. Grows b store.old store.new) }
    ensures reached { IfOk result (λ _. x < b → IsReachedFor asked.now store.old x b store.new) }
    ensures wide { IsAsWide store.old store.new }
    ensures length { length row.new ≡ length row.old }
{
    if x >= b {
        return Ok(());
    }
    try_link(asked, x, b, row, store)?;
    Ok(())
}

// Tries the rows of each of some activities on the way to another one.
fn try_grounds(
    asked: &Asked,
    grounds: &[u32],
    b: u32,
    row: &mut [i64],
    store: &mut Store,
) -> Result<(), Memory>
    requires asked { IsAsked asked.now }
    requires state { IsUnderWay asked.now store.old (length row.old) }
    requires grounds { (q : ℕ) → q < length grounds.now → slice_index_or grounds.now q 0 < activities asked.now.book.now }
    requires activity { b < activities asked.now.book.now }
    ensures state { IfOk result (λ _. IsUnderWay asked.now store.new (length row.new)) }
    ensures grows { IfOk result (λ _. Grows b store.old store.new) }
    ensures reached { IfOk result (λ _. (x : ℕ) → Contains grounds.now x → x < b → IsReachedFor asked.now store.old x b store.new) }
    ensures wide { IsAsWide store.old store.new }
    ensures length { length row.new ≡ length row.old }
{
    every_store_is_sound(store);
    for q in 0..grounds.len() {
        try_earlier(asked, grounds[q], b, row, store)?;
    }
    Ok(())
}

/// Fills the bucket of an open departure.
pub fn fill_open(
    asked: &Asked,
    stand: Stand,
    windows: &[Window],
    flights: &[u32],
    grounds: &[u32],
    b: u32,
    entered: &mut [usize],
    waiting: &mut Waiting,
    key: &mut Vec<i64>,
    row: &mut [i64],
    store: &mut Store,
) -> Result<(), Memory>
    requires asked { IsAsked asked.now }
    requires state { IsUnderWay asked.now store.old (length row.old) }
    requires activity { b < activities asked.now.book.now }
    requires leaves { IsOpenAt asked.now stand b }
    requires windows { AreWindows asked.now.table.now.bands asked.now.book.now.rules.counters stand.port windows.now }
    requires flights { AreFlights asked.now.book.now stand.port flights.now }
    requires grounds { AreGrounds asked.now.book.now stand.port grounds.now }
    requires waiting { IsWaitingAt asked.now stand windows.now store.old waiting.old }
    requires entered { AreEnteredAt asked.now stand windows.now flights.now store.old waiting.old entered.old }
    ensures state { IfOk result (λ _. IsUnderWay asked.now store.new (length row.new)) }
    ensures grows { IfOk result (λ _. Grows b store.old store.new) }
    ensures filled { IfOk result (λ _. IsFilledFor asked.now store.new b) }
    ensures waiting { IfOk result (λ _. IsWaitingAt asked.now stand windows.now store.new waiting.new) }
    ensures entered { IfOk result (λ _. AreEnteredAt asked.now stand windows.now flights.now store.new waiting.new entered.new) }
    ensures wide { IsAsWide store.old store.new }
    ensures roomy { IsAsWide waiting.old.keys waiting.new.keys }
    ensures length { length row.new ≡ length row.old }
    ensures count { length entered.new ≡ length entered.old }
{
    each_at_most_chains();
    lower_stays_within();
    every_book_is_sound(asked.book);
    every_store_is_sound(store);
    let lines = Lines {
        stand,
        windows,
        flights,
    };
    try_first(asked, b, row, store)?;
    every_store_is_sound(store);
    advance_all(asked, &lines, store, entered, waiting, key)?;
    try_grounds(asked, grounds, b, row, store)?;
    every_store_is_sound(store);
    every_store_is_sound(&waiting.keys);
    depart_all(asked, &lines, b, waiting, row, store)?;
    Ok(())
}
