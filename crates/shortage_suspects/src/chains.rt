//! Chains: which activities an aircraft may have flown before another one in the same route, counters aside.

ghost use Rattle.std.specs.Prelude.{◌≡◌, ◌<◌, IfSome};
ghost use Rattle.tail_book.specs.Lookup.{activities, aircraft};
ghost use Rattle.connection_net.specs.Net.{net_of};

use crate::bit_rows::BitRows;
use connection_net::Net;
use connection_net::laws::rows_for_each;
use std::alloc::Global;
use tail_book::laws::every_book_is_sound;
use tail_book::{Book, Memory, Place};
use turn_rules::connected;

// With more words to join than so many, all aircraft are taken for one that may change on the way: chains are then too many, and
// fewer crowds are found.
const MOST_WORDS: usize = 4_000_000_000;

// Whether an aircraft, or any, comes to an activity.
fn comes(carriers: &BitRows, one: Option<u32>, b: u32) -> bool {
    match one {
        Some(k) => carriers.has(b as usize, k as usize),
        None => !carriers.is_empty(b as usize),
    }
}

// Whether an aircraft, or any, that comes to both activities may fly one directly after the other.
fn goes_on(book: &Book, carriers: &BitRows, one: Option<u32>, a: u32, b: u32) -> bool
    requires one { IfSome one (λ k. k < aircraft book.now) }
    requires before { a < activities book.now }
    requires after { b < activities book.now }
{
    match one {
        Some(k) => {
            carriers.has(a as usize, k as usize) && connected(book, k, Place::After(a), b)
        }
        None => carriers.meet(a as usize, b as usize),
    }
}

// Notes what may have been flown before an activity.
fn note_before(
    book: &Book,
    net: &Net,
    carriers: &BitRows,
    one: Option<u32>,
    chain: &mut BitRows,
    b: u32,
)
    requires net { net.now ≡ net_of book.now }
    requires one { IfSome one (λ k. k < aircraft book.now) }
    requires activity { b < activities book.now }
{
    rows_for_each();
    for before in net.predecessors(b) {
        let a = *before;
        if (a as usize) < book.activities.len() && goes_on(book, carriers, one, a, b) {
            chain.put(b as usize, a as usize);
            chain.join(b as usize, a as usize);
        }
    }
}

// Adds the chains of an aircraft, or of any, to those of all.
fn add_chains(
    book: &Book,
    net: &Net,
    carriers: &BitRows,
    one: Option<u32>,
    chain: &mut BitRows,
    all: &mut BitRows,
)
    requires net { net.now ≡ net_of book.now }
    requires one { IfSome one (λ k. k < aircraft book.now) }
{
    every_book_is_sound(book);
    chain.clear();
    for b in 0..book.activities.len() as u32 {
        if comes(carriers, one, b) {
            note_before(book, net, carriers, one, chain, b);
            all.put_row(b as usize, chain, b as usize);
        }
    }
}

// Notes behind all activities the aircraft that come to an activity.
fn note_carriers(book: &Book, carriers: &BitRows, all: &mut BitRows, b: u32) {
    let n = book.activities.len();
    for k in 0..book.tails.len() {
        if carriers.has(b as usize, k) {
            all.put(b as usize, n.saturating_add(k));
        }
    }
}

// How many words are joined for an aircraft.
fn words_of(book: &Book, net: &Net, width: usize) -> usize
    requires { net.now ≡ net_of book.now }
{
    rows_for_each();
    every_book_is_sound(book);
    let mut links = 0usize;
    for b in 0..book.activities.len() as u32 {
        links = links.saturating_add(net.predecessors(b).len());
    }
    links.saturating_mul(width)
}

// Adds the chains of each aircraft.
fn add_each(book: &Book, net: &Net, carriers: &BitRows, chain: &mut BitRows, all: &mut BitRows)
    requires { net.now ≡ net_of book.now }
{
    every_book_is_sound(book);
    for k in 0..book.tails.len() as u32 {
        add_chains(book, net, carriers, Some(k), chain, all);
    }
}

/// For each activity those that may stand before it in a route and, behind all activities, the aircraft that come to it.
pub fn chains_of(
    alloc: Global,
    book: &Book,
    net: &Net,
    carriers: &BitRows,
) -> Result<BitRows, Memory>
    requires { net.now ≡ net_of book.now }
{
    every_book_is_sound(book);
    let (n, m) = (book.activities.len(), book.tails.len());
    let mut all = BitRows::new(alloc, n, n.saturating_add(m))?;
    let mut chain = BitRows::new(alloc, n, n.saturating_add(m))?;
    if words_of(book, net, all.width()).saturating_mul(m) <= MOST_WORDS {
        add_each(book, net, carriers, &mut chain, &mut all);
    } else {
        add_chains(book, net, carriers, None, &mut chain, &mut all);
    }
    for b in 0..n as u32 {
        note_carriers(book, carriers, &mut all, b);
    }
    Ok(all)
}
