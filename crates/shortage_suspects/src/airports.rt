//! Airports with too few arrivals: each activity comes directly after another one, or is the first of an aircraft that comes in
//! there.
//!
//! Activities that may only come after fewer others and aircraft than they are themselves are a shortage: a route has at most one
//! of them more than of those others, and that only where its aircraft is one of these. A matching finds them, with types, turns
//! and curfews in mind.

ghost use Rattle.std.specs.Prelude.{◌≡◌, ◌<◌};
ghost use Rattle.tail_book.specs.Lookup.{activities, aircraft};
ghost use Rattle.connection_net.specs.Net.{net_of};

use crate::bit_rows::BitRows;
use crate::matching::Matching;
use crate::suspects::{Suspect, all_bits, smaller};
use connection_net::Net;
use connection_net::laws::rows_for_each;
use std::alloc::Global;
use tail_book::laws::every_book_is_sound;
use tail_book::{Book, Memory, Place};
use turn_rules::connected;

// After so many activities without a giver no more are tried.
const TRIED: usize = 20;

// Whether an aircraft that comes to both activities may fly one directly after the other.
fn is_flown_on(book: &Book, carriers: &BitRows, a: u32, b: u32) -> bool
    requires before { a < activities book.now }
    requires after { b < activities book.now }
{
    every_book_is_sound(book);
    for k in 0..book.tails.len() as u32 {
        if carriers.has(a as usize, k as usize)
            && carriers.has(b as usize, k as usize)
            && connected(book, k, Place::After(a), b)
        {
            return true;
        }
    }
    false
}

// Notes the activities that may come directly before an activity.
fn note_before(book: &Book, net: &Net, carriers: &BitRows, links: &mut BitRows, b: u32)
    requires net { net.now ≡ net_of book.now }
    requires activity { b < activities book.now }
{
    rows_for_each();
    for before in net.predecessors(b) {
        let a = *before;
        if (a as usize) < book.activities.len() && is_flown_on(book, carriers, a, b) {
            links.put(b as usize, a as usize);
        }
    }
}

// Notes an aircraft at the activities that may be its first, behind all activities.
fn note_first(book: &Book, net: &Net, carriers: &BitRows, links: &mut BitRows, k: u32)
    requires net { net.now ≡ net_of book.now }
    requires aircraft { k < aircraft book.now }
{
    rows_for_each();
    let giver = book.activities.len().saturating_add(k as usize);
    for first in net.heads(k) {
        if carriers.has(*first as usize, k as usize) {
            links.put(*first as usize, giver);
        }
    }
}

// For each activity those that may come directly before it and, behind them, the aircraft whose first it may be.
fn links(alloc: Global, book: &Book, net: &Net, carriers: &BitRows) -> Result<BitRows, Memory>
    requires { net.now ≡ net_of book.now }
{
    every_book_is_sound(book);
    let (n, m) = (book.activities.len(), book.tails.len());
    let mut links = BitRows::new(alloc, n, n.saturating_add(m))?;
    for b in 0..n as u32 {
        note_before(book, net, carriers, &mut links, b);
    }
    note_all_first(book, net, carriers, &mut links);
    Ok(links)
}

// Notes each aircraft at the activities that may be its first.
fn note_all_first(book: &Book, net: &Net, carriers: &BitRows, links: &mut BitRows)
    requires { net.now ≡ net_of book.now }
{
    every_book_is_sound(book);
    for k in 0..book.tails.len() as u32 {
        note_first(book, net, carriers, links, k);
    }
}

// What the last search showed: the activities that it reached, less those that may come before them.
fn suspect_of(alloc: Global, matching: &Matching, n: u32) -> Result<Suspect, Memory> {
    let mut brought = Vec::new(alloc);
    for a in 0..n {
        if matching.has_seen(a) {
            brought.push(a)?;
        }
    }
    Ok(Suspect {
        asked: matching.reached()?,
        brought,
    })
}

/// Activities that may only come after fewer others and aircraft than they are, if there are any: the fewest that were found.
pub fn airport_suspect(
    alloc: Global,
    book: &Book,
    net: &Net,
    carriers: &BitRows,
) -> Result<Option<Suspect>, Memory>
    requires { net.now ≡ net_of book.now }
{
    every_book_is_sound(book);
    let (n, m) = (book.activities.len(), book.tails.len());
    let rows = links(alloc, book, net, carriers)?;
    let mut matching = Matching::new(alloc, n, n.saturating_add(m), &all_bits(alloc, &rows)?)?;
    let (mut least, mut tried) = (None, 0);
    for b in 0..n as u32 {
        if tried < TRIED && !matching.give(&rows, b)? {
            tried += 1;
            least = smaller(least, suspect_of(alloc, &matching, n as u32)?);
        }
    }
    Ok(least)
}
