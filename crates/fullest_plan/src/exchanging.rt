//! Who flies what in a fullest plan: aircraft after aircraft flies as much as it can, and then a few at a time fly again what they
//! have and what nobody has, so that one more activity is flown.
//!
//! Whichever is not flown is wanted in turn, by an aircraft that may fly it. The first of a few may take what the others of them have,
//! at little less than it is worth, and so on; where they leave out more than before, each flies again what it flew. What looks like
//! chance is the same at each run. Nothing here is promised: what comes of it is judged.

ghost use Rattle.std.specs.Prelude.{◌≡◌, ◌<◌, IfOk, length};
ghost use Rattle.tail_book.specs.Lookup.{activities, aircraft};
ghost use Rattle.fullest_plan.specs.inside.Seeker.{IsSeekerOf};

use crate::filling::{Crew, fill, left_at, left_count};
use crate::route_seeker::RouteSeeker;
use pool_plans::mixed;
use std::alloc::Global;
use tail_book::laws::every_book_is_sound;
use tail_book::{Book, Memory};
use turn_rules::allowed;

// So many rounds for each activity, and as many as this for all activities together, at most.
const ROUNDS_EACH: usize = 6;

const ROUNDS_OF_ALL: usize = 800_000;

// So many tries to find an aircraft that may fly an activity.
const TRIES: u64 = 50;

// A number below another that looks like chance, and 0 where the other is 0.
fn chance(seed: u64, number: u64, below: usize) -> usize {
    if below == 0 {
        return 0;
    }
    ((mixed(mixed(seed, number), number) >> 11) % below as u64) as usize
}

// An aircraft by chance, of a book that has one.
fn any_aircraft(book: &Book, seed: u64, number: u64) -> u32
    requires { 0 < aircraft book.now }
    ensures { result < aircraft book.now }
{
    every_book_is_sound(book);
    let k = chance(seed, number, book.tails.len());
    if k < book.tails.len() { k as u32 } else { 0 }
}

// An aircraft by chance that may fly an activity, as far as a few tries find one.
fn carrier(book: &Book, seed: u64, a: usize) -> u32
    requires { 0 < aircraft book.now }
    ensures { result < aircraft book.now }
{
    every_book_is_sound(book);
    let mut k = any_aircraft(book, seed, 0);
    for number in 1..TRIES {
        if a < book.activities.len() && allowed(book, k, a as u32) {
            return k;
        }
        k = any_aircraft(book, seed, number);
    }
    k
}

// Three aircraft fly again, the first of which wants an activity that nobody flies.
fn exchange(
    alloc: Global,
    book: &Book,
    seeker: &mut RouteSeeker,
    seed: u64,
    fliers: &mut [u32],
) -> Result<(), Memory>
    requires aircraft { 0 < aircraft book.now }
    requires seeker { IsSeekerOf book.now seeker.old }
    ensures seeker { IsSeekerOf book.now seeker.new }
{
    let nobody = book.tails.len() as u32;
    let wanted = left_at(fliers, nobody, chance(seed, 0, left_count(fliers, nobody)));
    let first = carrier(book, seed, wanted);
    let second = any_aircraft(book, seed, 2);
    let third = any_aircraft(book, seed, 3);
    let crew = Crew { second, third };
    fill(alloc, book, seeker, fliers, first, wanted, &crew)?;
    let crew = Crew {
        second: third,
        third,
    };
    fill(alloc, book, seeker, fliers, second, usize::MAX, &crew)?;
    let crew = Crew {
        second: third,
        third,
    };
    fill(alloc, book, seeker, fliers, third, usize::MAX, &crew)
}

// One round: what comes of it is kept where it leaves out no more.
fn round(
    alloc: Global,
    book: &Book,
    seeker: &mut RouteSeeker,
    seed: u64,
    fliers: Vec<u32>,
) -> Result<Vec<u32>, Memory>
    requires aircraft { 0 < aircraft book.now }
    requires seeker { IsSeekerOf book.now seeker.old }
    ensures seeker { IsSeekerOf book.now seeker.new }
{
    let nobody = book.tails.len() as u32;
    let mut other = Vec::from_slice(alloc, &fliers)?;
    exchange(alloc, book, seeker, seed, &mut other)?;
    if left_count(&other, nobody) <= left_count(&fliers, nobody) {
        return Ok(other);
    }
    Ok(fliers)
}

// How many rounds are gone.
fn rounds_for(n: usize) -> usize {
    if n == 0 {
        return 0;
    }
    n.saturating_mul(ROUNDS_EACH).min(ROUNDS_OF_ALL / n)
}

// Rounds of exchange, until one activity is left out: no plan is legal, so it is the fewest.
fn exchanged(
    alloc: Global,
    book: &Book,
    seeker: &mut RouteSeeker,
    fliers: Vec<u32>,
) -> Result<Vec<u32>, Memory>
    requires aircraft { 0 < aircraft book.now }
    requires seeker { IsSeekerOf book.now seeker.old }
{
    let nobody = book.tails.len() as u32;
    let mut fliers = fliers;
    for seed in 0..rounds_for(book.activities.len()) {
        if left_count(&fliers, nobody) <= 1 {
            return Ok(fliers);
        }
        fliers = round(alloc, book, seeker, seed as u64, fliers)?;
    }
    Ok(fliers)
}

// Aircraft after aircraft flies as much as it can.
fn filled(alloc: Global, book: &Book, seeker: &mut RouteSeeker) -> Result<Vec<u32>, Memory>
    requires { IsSeekerOf book.now seeker.old }
    ensures { IsSeekerOf book.now seeker.new }
{
    every_book_is_sound(book);
    let nobody = book.tails.len() as u32;
    let mut fliers = vec![in alloc; nobody; book.activities.len()]?;
    for k in 0..nobody {
        let crew = Crew {
            second: k,
            third: k,
        };
        fill(alloc, book, seeker, &mut fliers, k, usize::MAX, &crew)?;
    }
    Ok(fliers)
}

/// For each activity who flies it, or the number of aircraft where nobody does.
pub fn fullest_fliers(alloc: Global, book: &Book) -> Result<Vec<u32>, Memory> {
    let mut seeker = RouteSeeker::new(alloc, book)?;
    let fliers = filled(alloc, book, &mut seeker)?;
    if book.tails.is_empty() {
        return Ok(fliers);
    }
    exchanged(alloc, book, &mut seeker, fliers)
}
