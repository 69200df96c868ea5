//! What a departure takes from the labels that wait.
//!
//! Of each line the entries that count are tried, but for those that have outlived its window: these wait in the line of a
//! later one too. Each try is the ordinary step over the link of the entry's own label. So what a line chooses is only
//! which rows are tried, and truth, limits and weights are those of single links.

ghost use Rattle.std.specs.Prelude.{◌≡◌, ◌<◌, ◌≤ℤ◌, length, IfOk, Contains};
ghost use Rattle.tail_book.specs.declared.place.Place.TheVariants.{After};
ghost use Rattle.tail_book.specs.Lookup.{activities};
ghost use Rattle.tail_book.specs.Link.{gap};
ghost use Rattle.label_store.specs.Store.{bucket_of};
ghost use Rattle.label_store.specs.inside.Growth.{IsAsWide};
ghost use Rattle.pricing.specs.inside.Growth.{Grows};
ghost use Rattle.pricing.specs.inside.Waiting.{label_at, place_at};
ghost use Rattle.pricing.specs.inside.Asked.{IsAsked, IsUnderWay};
ghost use Rattle.pricing.specs.inside.ForLines.{AreTriedInFor, IsOpenFor, IsTriedBelowFor, IsWaitingFor, MayWaitFor};

use crate::asked::Asked;
use crate::fill::try_row;
use crate::lines::Lines;
use crate::step::arc_weight;
use crate::waiting::Waiting;
use label_store::Store;
use label_store::laws::every_store_is_sound;
use tail_book::laws::every_book_is_sound;
use tail_book::{Memory, Place};
use turn_rules::gap;

// Tries a label that waits, unless its flight has outlived the window.
fn try_waiting(
    asked: &Asked,
    lines: &Lines,
    i: usize,
    x: u32,
    j: usize,
    b: u32,
    row: &mut [i64],
    store: &mut Store,
) -> Result<(), Memory>
    requires asked { IsAsked asked.now }
    requires state { IsUnderWay asked.now store.old (length row.old) }
    requires activity { b < activities asked.now.book.now }
    requires leaves { IsOpenFor asked.now lines.now b }
    requires may { MayWaitFor asked.now lines.now x }
    requires waited { lines.now.stand.turn ≤ℤ gap asked.now.book.now asked.now.k (After x) b }
    requires label { Contains (bucket_of store.old x) j }
    requires window { i < length lines.now.windows.now }
    ensures state { IfOk result (λ _. IsUnderWay asked.now store.new (length row.new)) }
    ensures grows { IfOk result (λ _. Grows b store.old store.new) }
    ensures tried { IfOk result (λ _. IsTriedBelowFor asked.now lines.now store.old store.new i b x j) }
    ensures wide { IsAsWide store.old store.new }
    ensures length { length row.new ≡ length row.old }
{
    every_book_is_sound(asked.book);
    every_store_is_sound(store);
    let from = Place::After(x);
    let windows = lines.windows;
    if gap(asked.book, asked.k, from, b) >= windows[i].hi {
        return Ok(());
    }
    let arc = arc_weight(asked, from, b);
    row.copy_from_slice(store.row(j));
    try_row(asked, from, arc, b, Some(j), row, store)?;
    Ok(())
}

// The activity of an entry.
fn place_at(waiting: &Waiting, e: usize) -> u32
    requires { e < length waiting.now.places.items }
    ensures { result ≡ place_at waiting.now e }
{
    waiting.places[e]
}

// The label of an entry.
fn label_at(waiting: &Waiting, e: usize) -> usize
    requires { e < length waiting.now.labels.items }
    ensures { result ≡ label_at waiting.now e }
{
    waiting.labels[e]
}

/// Tries the entries of the line of a window that have not outlived it.
pub fn depart(
    asked: &Asked,
    lines: &Lines,
    i: usize,
    b: u32,
    waiting: &Waiting,
    row: &mut [i64],
    store: &mut Store,
) -> Result<(), Memory>
    requires asked { IsAsked asked.now }
    requires state { IsUnderWay asked.now store.old (length row.old) }
    requires activity { b < activities asked.now.book.now }
    requires leaves { IsOpenFor asked.now lines.now b }
    requires window { i < length lines.now.windows.now }
    requires waiting { IsWaitingFor asked.now lines.now store.old waiting.now }
    ensures state { IfOk result (λ _. IsUnderWay asked.now store.new (length row.new)) }
    ensures grows { IfOk result (λ _. Grows b store.old store.new) }
    ensures tried { IfOk result (λ _. AreTriedInFor asked.now lines.now store.old store.new b waiting.now i) }
    ensures wide { IsAsWide store.old store.new }
    ensures length { length row.new ≡ length row.old }
{
    every_book_is_sound(asked.book);
    every_store_is_sound(store);
    every_store_is_sound(&waiting.keys);
    for q in 0..waiting.keys.count(i) {
        every_store_is_sound(store);
        let e = waiting.keys.at(i, q);
        let (x, j) = (place_at(waiting, e), label_at(waiting, e));
        try_waiting(asked, lines, i, x, j, b, row, store)?;
    }
    Ok(())
}
