//! Warm starts of the searches of a repair: what stays at home is worth what it costs there, and what has to find another place is
//! worth a move more.

ghost use Rattle.std.specs.Prelude.{◌<◌};
ghost use Rattle.tail_book.specs.Lookup.{activities};
ghost use Rattle.tail_book.specs.CostTable.{IsTableFor};
ghost use Rattle.plan_homes.specs.Moves.{AreHomesFor};

use branch_tree::WarmStart;
use plan_remains::{is_kept, worths_of_moves};
use std::alloc::Global;
use tail_book::laws::{every_book_is_sound, every_cost_table_is_sound};
use tail_book::{Book, COST_UNIT, CostTable, Memory};

// Where only moves cost anything: how hot the ascent begins, and how far it goes, in thousandths of a move.
const TEMPERATURE: i64 = 300;

const RADIUS: i64 = 1_000;

// Where moves are raised, the ascent begins at such a part of what an activity costs in the middle, and no less than the other, in
// thousandths of a cost unit.
const HEAT: u64 = 10;

const MILDEST: i64 = 5_000;

// No amount counts as more than this, in cost units.
const MOST: u64 = 1 << 50;

/// Where a search for the fewest moves begins.
pub fn warm_for_moves(
    alloc: Global,
    book: &Book,
    homes: &[Option<u32>],
    kept: &[bool],
) -> Result<WarmStart, Memory> {
    Ok(WarmStart {
        duals: worths_of_moves(alloc, book, homes, kept)?,
        temperature: TEMPERATURE,
        radius: RADIUS,
        dives: true,
    })
}

// A number of cost units in thousandths.
fn thousandths(cost: u64) -> i64 {
    (cost.min(MOST) * COST_UNIT) as i64
}

// The least that an activity costs anybody, in cost units.
fn least_cost(book: &Book, own: &CostTable, a: u32) -> u64
    requires own { IsTableFor book.now own.now }
    requires activity { a < activities book.now }
{
    every_book_is_sound(book);
    every_cost_table_is_sound(own);
    let mut least = MOST;
    for k in 0..book.tails.len() {
        least = least.min(own.activity_cost(k as u32, a));
    }
    least
}

// What an activity costs at home, or the least that it costs anybody where it has none, in cost units.
fn home_cost(book: &Book, own: &CostTable, homes: &[Option<u32>], a: u32) -> u64
    requires own { IsTableFor book.now own.now }
    requires homes { AreHomesFor book.now homes.now }
    requires activity { a < activities book.now }
{
    every_cost_table_is_sound(own);
    match homes[a as usize] {
        Some(home) => own.activity_cost(home, a),
        None => least_cost(book, own, a),
    }
}

// What each activity is worth where a move is raised by so much, in thousandths of a cost unit.
fn worths_at(
    alloc: Global,
    book: &Book,
    own: &CostTable,
    homes: &[Option<u32>],
    kept: &[bool],
    raise: u64,
) -> Result<Vec<i64>, Memory>
    requires own { IsTableFor book.now own.now }
    requires homes { AreHomesFor book.now homes.now }
{
    every_book_is_sound(book);
    let mut worths = Vec::with_capacity(alloc, book.activities.len())?;
    for a in 0..book.activities.len() {
        let cost = home_cost(book, own, homes, a as u32);
        let more = if is_kept(kept, a) { 0 } else { raise };
        worths.push(thousandths(cost.saturating_add(more)))?;
    }
    Ok(worths)
}

// How hot an ascent begins at these.
fn heat_at(worths: &[i64]) -> i64 {
    let mut sum = 0u64;
    for worth in worths {
        sum = sum.saturating_add(worth.unsigned_abs());
    }
    let mean = sum / (worths.len() as u64).max(1);
    ((mean / HEAT).min(MOST) as i64).max(MILDEST)
}

/// Where a search with each move raised by so much begins.
pub fn warm_at(
    alloc: Global,
    book: &Book,
    own: &CostTable,
    homes: &[Option<u32>],
    kept: &[bool],
    raise: u64,
) -> Result<WarmStart, Memory>
    requires own { IsTableFor book.now own.now }
    requires homes { AreHomesFor book.now homes.now }
{
    let duals = worths_at(alloc, book, own, homes, kept, raise)?;
    let temperature = heat_at(&duals);
    Ok(WarmStart {
        duals,
        temperature,
        radius: thousandths(raise) / 2,
        dives: true,
    })
}
