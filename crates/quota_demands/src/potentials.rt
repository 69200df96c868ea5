//! Potentials of a quota, and whether numbers are such: each connection that some aircraft may fly is looked at once.

ghost use Rattle.std.specs.Prelude.{◌≡◌, ◌<◌, ◌≤◌, ◌≤ℤ◌, ◌^◌, ◌+ℤ◌, ◌-ℤ◌, ℕ, pos, All, IsTrue, length};
ghost use Rattle.tail_book.specs.Lookup.{activities, aircraft};
ghost use Rattle.tail_book.specs.Ranges.{IsWithin};
ghost use Rattle.tail_book.specs.Sums.{total};
ghost use Rattle.connection_net.specs.Net.{net_of};
ghost use Rattle.quota_demands.specs.Potentials.{ArePotentials, HoldAfter, HoldFirst, potential, use_of};

use connection_net::Net;
use connection_net::laws::{
    heads_are_links, predecessors_are_links, rows_are_their_places, rows_for_each, rows_rise,
};
use quota_rows::{Quota, belongs};
use tail_book::Book;
use tail_book::laws::every_book_is_sound;

/// Numbers for each activity, as what comes and as what is left behind, and for each aircraft as what its carry-in leaves.
#[derive(Drop)]
pub struct Potentials {
    pub coming: Vec<i64>,
    pub leaving: Vec<i64>,
    pub carried: Vec<i64>,
}

// Whether none of the numbers is more than 0.
fn are_low(values: &[i64]) -> bool
    ensures { IsTrue result → All (λ value. value ≤ℤ pos 0) values.now }
{
    for i in 0..values.len() {
        if values[i] > 0 {
            return false;
        }
    }
    true
}

// How often a connection uses a quota.
fn use_of(book: &Book, quota: &Quota, a: u32, b: u32) -> i128
    requires before { a < activities book.now }
    requires after { b < activities book.now }
    ensures value { result ≡ use_of book.now quota.now a b }
    ensures range { IsWithin (pos 0) (pos 1) result }
{
    if belongs(book, quota, a, b) { 1 } else { 0 }
}

// Whether a connection's numbers are no more than how often it uses the quota.
fn holds(book: &Book, quota: &Quota, coming: &[i64], leaving: &[i64], a: u32, b: u32) -> bool
    requires coming { length coming.now ≡ activities book.now }
    requires leaving { length leaving.now ≡ activities book.now }
    requires before { a < activities book.now }
    requires after { b < activities book.now }
    ensures { IsTrue result → (potential coming.now b +ℤ potential leaving.now a) ≤ℤ use_of book.now quota.now a b }
{
    let both = coming[b as usize] as i128 + leaving[a as usize] as i128;
    both <= use_of(book, quota, a, b)
}

// Whether that is so of each connection to an activity.
fn hold_after(
    book: &Book,
    net: &Net,
    quota: &Quota,
    coming: &[i64],
    leaving: &[i64],
    b: u32,
) -> bool
    requires net { net.now ≡ net_of book.now }
    requires coming { length coming.now ≡ activities book.now }
    requires leaving { length leaving.now ≡ activities book.now }
    requires after { b < activities book.now }
    ensures { IsTrue result → HoldAfter book.now quota.now coming.now leaving.now b }
{
    rows_for_each();
    rows_rise();
    rows_are_their_places();
    predecessors_are_links();
    let before = net.predecessors(b);
    for i in 0..before.len() {
        if !holds(book, quota, coming, leaving, before[i], b) {
            return false;
        }
    }
    true
}

// Whether what an aircraft's carry-in leaves is no more than what is missing of an activity.
fn holds_first(book: &Book, coming: &[i64], carried: &[i64], k: u32, b: u32) -> bool
    requires coming { length coming.now ≡ activities book.now }
    requires carried { length carried.now ≡ aircraft book.now }
    requires aircraft { k < aircraft book.now }
    requires after { b < activities book.now }
    ensures { IsTrue result → (potential coming.now b +ℤ potential carried.now k) ≤ℤ pos 0 }
{
    coming[b as usize] as i128 + carried[k as usize] as i128 <= 0
}

// Whether what an aircraft's carry-in leaves is no more than what is missing of each activity that it may fly first.
fn hold_first(book: &Book, net: &Net, coming: &[i64], carried: &[i64], k: u32) -> bool
    requires net { net.now ≡ net_of book.now }
    requires coming { length coming.now ≡ activities book.now }
    requires carried { length carried.now ≡ aircraft book.now }
    requires aircraft { k < aircraft book.now }
    ensures { IsTrue result → HoldFirst book.now coming.now carried.now k }
{
    rows_for_each();
    rows_rise();
    rows_are_their_places();
    heads_are_links();
    let heads = net.heads(k);
    for i in 0..heads.len() {
        if !holds_first(book, coming, carried, k, heads[i]) {
            return false;
        }
    }
    true
}

// Whether that is so of each activity.
fn all_hold_after(book: &Book, net: &Net, quota: &Quota, coming: &[i64], leaving: &[i64]) -> bool
    requires net { net.now ≡ net_of book.now }
    requires coming { length coming.now ≡ activities book.now }
    requires leaving { length leaving.now ≡ activities book.now }
    ensures { IsTrue result → (b : ℕ) → b < activities book.now → HoldAfter book.now quota.now coming.now leaving.now b }
{
    every_book_is_sound(book);
    for b in 0..coming.len() {
        if !hold_after(book, net, quota, coming, leaving, b as u32) {
            return false;
        }
    }
    true
}

// And of each aircraft.
fn all_hold_first(book: &Book, net: &Net, coming: &[i64], carried: &[i64]) -> bool
    requires net { net.now ≡ net_of book.now }
    requires coming { length coming.now ≡ activities book.now }
    requires carried { length carried.now ≡ aircraft book.now }
    ensures { IsTrue result → (k : ℕ) → k < aircraft book.now → HoldFirst book.now coming.now carried.now k }
{
    every_book_is_sound(book);
    for k in 0..carried.len() {
        if !hold_first(book, net, coming, carried, k as u32) {
            return false;
        }
    }
    true
}

/// Whether numbers are potentials of the quota.
pub fn are_potentials(book: &Book, net: &Net, quota: &Quota, found: &Potentials) -> bool
    requires net { net.now ≡ net_of book.now }
    ensures { IsTrue result → ArePotentials book.now quota.now found.now.coming.items found.now.leaving.items found.now.carried.items }
{
    let (n, m) = (book.activities.len(), book.tails.len());
    if found.coming.len() != n || found.leaving.len() != n || found.carried.len() != m {
        return false;
    }
    are_low(&found.leaving)
        && are_low(&found.carried)
        && all_hold_after(book, net, quota, &found.coming, &found.leaving)
        && all_hold_first(book, net, &found.coming, &found.carried)
}

/// The sum of a list.
pub fn total(list: &[i64]) -> i128
    requires { length list.now ≤ 2 ^ 32 }
    ensures value { result ≡ total list.now }
    ensures range { IsWithin (pos 0 -ℤ pos (2 ^ 96)) (pos (2 ^ 96)) result }
{
    let mut sum = 0;
    for i in 0..list.len() {
        sum += list[i] as i128;
    }
    sum
}
