//! Which aircraft come to which activities, counters aside: an aircraft may fly them, and comes in there or goes on to them from
//! others.

ghost use Rattle.std.specs.Prelude.{◌≡◌, ◌<◌};
ghost use Rattle.tail_book.specs.Lookup.{activities, aircraft};
ghost use Rattle.connection_net.specs.Net.{net_of};

use connection_net::Net;
use connection_net::laws::rows_for_each;
use shortage_suspects::{BitRows, Suspect};
use std::alloc::Global;
use tail_book::laws::every_book_is_sound;
use tail_book::{Book, Memory, Place};
use turn_rules::{allowed, connected};

// Whether an aircraft goes on to an activity from one to which it comes.
fn goes_on(book: &Book, net: &Net, rows: &BitRows, k: u32, b: u32) -> bool
    requires net { net.now ≡ net_of book.now }
    requires aircraft { k < aircraft book.now }
    requires activity { b < activities book.now }
{
    rows_for_each();
    for before in net.predecessors(b) {
        let a = *before;
        if (a as usize) < book.activities.len()
            && rows.has(a as usize, k as usize)
            && connected(book, k, Place::After(a), b)
        {
            return true;
        }
    }
    false
}

// Whether an aircraft comes to an activity.
fn comes(book: &Book, net: &Net, rows: &BitRows, k: u32, b: u32) -> bool
    requires net { net.now ≡ net_of book.now }
    requires aircraft { k < aircraft book.now }
    requires activity { b < activities book.now }
{
    allowed(book, k, b) && (connected(book, k, Place::Carry, b) || goes_on(book, net, rows, k, b))
}

// Notes the activities to which an aircraft comes, in their order.
fn note_reached(book: &Book, net: &Net, rows: &mut BitRows, k: u32)
    requires net { net.now ≡ net_of book.now }
    requires aircraft { k < aircraft book.now }
{
    every_book_is_sound(book);
    for b in 0..book.activities.len() as u32 {
        if comes(book, net, rows, k, b) {
            rows.put(b as usize, k as usize);
        }
    }
}

/// For each activity the aircraft that come to it, as bits.
pub fn carriers_of(alloc: Global, book: &Book, net: &Net) -> Result<BitRows, Memory>
    requires { net.now ≡ net_of book.now }
{
    every_book_is_sound(book);
    let (n, m) = (book.activities.len(), book.tails.len());
    let mut rows = BitRows::new(alloc, n, m)?;
    for k in 0..m as u32 {
        note_reached(book, net, &mut rows, k);
    }
    Ok(rows)
}

/// An activity to which no aircraft comes, if there is one: the first.
pub fn alone_suspect(
    alloc: Global,
    book: &Book,
    carriers: &BitRows,
) -> Result<Option<Suspect>, Memory> {
    every_book_is_sound(book);
    for a in 0..book.activities.len() as u32 {
        if carriers.is_empty(a as usize) {
            return Ok(Some(Suspect::of_one(alloc, a)?));
        }
    }
    Ok(None)
}
