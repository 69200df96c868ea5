//! A matching of the activities that start at a quota's airport, each to what comes directly before it: an activity, or the carry-in of
//! an aircraft. As few of these connections as can be use the quota, and the numbers by which that is seen are potentials.
//!
//! It is the Hungarian method: one activity after the other is matched along a shortest path of reduced uses. Where activities are very
//! many nothing is matched. It only suggests: what the numbers show is checked. With shares the same method assigns activities to what
//! comes before them at other prices.

ghost use Rattle.std.specs.Prelude.{◌≡◌, ◌<◌};
ghost use Rattle.tail_book.specs.Lookup.{activities};
ghost use Rattle.connection_net.specs.Net.{net_of};

use crate::Worth;
use crate::potentials::Potentials;
use connection_net::Net;
use connection_net::laws::rows_for_each;
use quota_rows::{Quota, belongs};
use std::alloc::Global;
use tail_book::laws::every_book_is_sound;
use tail_book::{Book, Memory};

// So many activities of an airport are matched at most.
const MOST: usize = 1200;

// No column, and no row.
const NONE: u32 = u32::MAX;

// Further than any path goes.
const FAR: i64 = 1 << 60;

// What is known while rows are matched: a row is an activity that comes, a column is what stands before it, an activity or, behind
// all of these, an aircraft.
#[derive(Drop)]
struct Rows {
    // the numbers of rows, and of columns
    coming: Vec<i64>,
    leaving: Vec<i64>,
    // the row that each column is matched to
    mates: Vec<u32>,
    // of the path under way: the least reduced uses to each column, the column before it, and what was reached
    least: Vec<i64>,
    way: Vec<u32>,
    is_reached: Vec<bool>,
    reached: Vec<u32>,
}

// A list of so many of a number.
fn list_of(alloc: Global, value: i64, count: usize) -> Result<Vec<i64>, Memory> {
    Ok(vec![in alloc; value; count]?)
}

impl Rows {
    // Nothing is matched yet.
    fn new(alloc: Global, activities: usize, aircraft: usize) -> Result<Rows, Memory> {
        let columns = activities.saturating_add(aircraft);
        Ok(Rows {
            coming: list_of(alloc, 0, activities)?,
            leaving: list_of(alloc, 0, columns)?,
            mates: vec![in alloc; NONE; columns]?,
            least: list_of(alloc, FAR, columns)?,
            way: vec![in alloc; NONE; columns]?,
            is_reached: vec![in alloc; false; columns]?,
            reached: Vec::new(alloc),
        })
    }

    // Lets a path begin.
    fn begin(&mut self) {
        self.least.fill(FAR);
        self.way.fill(NONE);
        self.is_reached.fill(false);
        self.reached.clear();
    }

    // Looks from a row at a column, over a connection at this cost.
    fn look(&mut self, b: u32, column: usize, cost: i64, from: u32) {
        if self.is_reached.get(column).copied().unwrap_or(true) {
            return;
        }
        let coming = self.coming.get(b as usize).copied().unwrap_or(0);
        let leaving = self.leaving.get(column).copied().unwrap_or(0);
        let reduced = cost.saturating_sub(coming).saturating_sub(leaving);
        if let (Some(least), Some(way)) = (self.least.get_mut(column), self.way.get_mut(column)) {
            if reduced < *least {
                *least = reduced;
                *way = from;
            }
        }
    }

    // The nearest column that is not reached yet.
    fn nearest(&self) -> Option<u32> {
        let mut found = None;
        let mut near = FAR;
        let mut column = 0u32;
        for least in self.least.iter() {
            let is_reached = self
                .is_reached
                .get(column as usize)
                .copied()
                .unwrap_or(true);
            if !is_reached && *least < near {
                near = *least;
                found = Some(column);
            }
            column = column.saturating_add(1);
        }
        found
    }

    // Lets the numbers go so far that a column is reached: those of the row that began and of all that were reached.
    fn move_by(&mut self, b: u32, far: i64) {
        add_to(&mut self.coming, b as usize, far);
        for column in self.reached.iter() {
            let column = *column as usize;
            add_to(&mut self.leaving, column, far.saturating_neg());
            let row = self.mates.get(column).copied().unwrap_or(NONE);
            add_to(&mut self.coming, row as usize, far);
        }
        for least in self.least.iter_mut() {
            if *least < FAR {
                *least = least.saturating_sub(far);
            }
        }
    }

    // Matches the columns of a path anew, from its last one back to the row that began.
    fn turn(&mut self, b: u32, last: usize) {
        let mut column = last;
        for _step in 0..self.mates.len() {
            let before = self.way.get(column).copied().unwrap_or(NONE);
            let row = self.mates.get(before as usize).copied().unwrap_or(b);
            if let Some(mate) = self.mates.get_mut(column) {
                *mate = row;
            }
            if before == NONE {
                return;
            }
            column = before as usize;
        }
    }

    // Reaches a column, and answers the row that is matched to it.
    fn reach(&mut self, column: u32) -> Result<u32, Memory> {
        if let Some(is_reached) = self.is_reached.get_mut(column as usize) {
            *is_reached = true;
        }
        self.reached.push(column)?;
        Ok(self.mates.get(column as usize).copied().unwrap_or(NONE))
    }
}

// Adds to the number at a place, where there is one.
fn add_to(list: &mut [i64], at: usize, more: i64) {
    if let Some(value) = list.get_mut(at) {
        *value = value.saturating_add(more);
    }
}

// What a connection costs: its price where it uses the quota, less its share.
fn cost(book: &Book, quota: &Quota, worth: &Worth, a: u32, b: u32) -> i64
    requires column { a < activities book.now }
    requires row { b < activities book.now }
{
    let price = if belongs(book, quota, a, b) {
        worth.price
    } else {
        0
    };
    price.saturating_sub(worth.of(b, a as usize))
}

// Whether an aircraft may fly an activity first.
fn is_head(heads: &[u32], b: u32) -> bool {
    let at = heads.partition_point(|head| *head < b);
    heads.get(at).copied() == Some(b)
}

// Looks from a row at all that may come directly before it.
fn look_around(
    book: &Book,
    net: &Net,
    quota: &Quota,
    worth: &Worth,
    rows: &mut Rows,
    b: u32,
    from: u32,
)
    requires net { net.now ≡ net_of book.now }
    requires row { b < activities book.now }
{
    every_book_is_sound(book);
    rows_for_each();
    let before = net.predecessors(b);
    for a in before {
        let a = *a;
        if (a as usize) < book.activities.len() {
            let cost = cost(book, quota, worth, a, b);
            rows.look(b, a as usize, cost, from);
        }
    }
    for k in 0..book.tails.len() {
        if is_head(net.heads(k as u32), b) {
            let column = book.activities.len() + k;
            let share = worth.of(b, column);
            rows.look(b, column, share.saturating_neg(), from);
        }
    }
}

// Matches an activity that comes.
fn match_one(
    book: &Book,
    net: &Net,
    quota: &Quota,
    worth: &Worth,
    rows: &mut Rows,
    b: u32,
) -> Result<(), Memory>
    requires net { net.now ≡ net_of book.now }
    requires row { b < activities book.now }
{
    rows.begin();
    look_around(book, net, quota, worth, rows, b, NONE);
    for _step in 0..book.activities.len() + book.tails.len() {
        let Some(column) = rows.nearest() else {
            return Ok(());
        };
        let far = rows.least.get(column as usize).copied().unwrap_or(0);
        rows.move_by(b, far);
        let row = rows.reach(column)?;
        if row as usize >= book.activities.len() {
            rows.turn(b, column as usize);
            return Ok(());
        }
        look_around(book, net, quota, worth, rows, row, column);
    }
    Ok(())
}

// How many activities start at an airport.
fn starts_at(book: &Book, airport: u32) -> usize {
    let mut count = 0usize;
    for activity in book.activities.iter() {
        if activity.from == airport {
            count = count.saturating_add(1);
        }
    }
    count
}

// Matches all activities of the quota's airport.
fn match_all(
    alloc: Global,
    book: &Book,
    net: &Net,
    quota: &Quota,
    worth: &Worth,
) -> Result<Rows, Memory>
    requires { net.now ≡ net_of book.now }
{
    every_book_is_sound(book);
    let (n, m) = (book.activities.len(), book.tails.len());
    let mut rows = Rows::new(alloc, n, m)?;
    if starts_at(book, quota.airport) <= MOST {
        for b in 0..n {
            if book.activities[b].from == quota.airport {
                match_one(book, net, quota, worth, &mut rows, b as u32)?;
            }
        }
    }
    Ok(rows)
}

/// The numbers that a matching of all activities of the quota's airport ends with.
pub fn matched(alloc: Global, book: &Book, net: &Net, quota: &Quota) -> Result<Potentials, Memory>
    requires { net.now ≡ net_of book.now }
{
    let worth = Worth::plain(alloc);
    let rows = match_all(alloc, book, net, quota, &worth)?;
    let first = book.activities.len().min(rows.leaving.len());
    Ok(Potentials {
        carried: Vec::from_slice(alloc, &rows.leaving[first..])?,
        leaving: Vec::from_slice(alloc, &rows.leaving[..first])?,
        coming: rows.coming,
    })
}

/// The activities that come over a connection of the quota where all activities of its airport are assigned to what comes directly
/// before them, each to another, at the least price less shares. It only suggests.
pub fn assigned(
    alloc: Global,
    book: &Book,
    net: &Net,
    quota: &Quota,
    worth: &Worth,
) -> Result<Vec<u32>, Memory>
    requires { net.now ≡ net_of book.now }
{
    every_book_is_sound(book);
    let rows = match_all(alloc, book, net, quota, worth)?;
    let n = book.activities.len();
    let mut short = Vec::new(alloc);
    for a in 0..n {
        let b = rows.mates.get(a).copied().unwrap_or(NONE);
        if (b as usize) < n && belongs(book, quota, a as u32, b) {
            short.push(b)?;
        }
    }
    Ok(short)
}
