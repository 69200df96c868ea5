//! Sweeps: each dual in turn moves to where its activity is asked for once, as far as it is trusted to go.
//!
//! Sweeps go up and down the numbers in turn. They end where a sweep moves little, or after so many. While the mixtures are
//! hot few sweeps are worth their time, and activities rest whose duals hardly moved. Of very many activities few sweeps are
//! made at any temperature.

ghost use Rattle.std.specs.Prelude.{◌<◌, length};
ghost use Rattle.branch_marks.specs.Settled.{AreDuals};

use crate::mixture::{COOL, Mixture};
use crate::powers::Powers;
use crate::sides::Sides;
use tail_book::{Book, CostTable, Duals, Memory};

// Of so many activities sweeps are few while mixtures are cool, too: with a thousand, sixty of them hardly ever come to rest,
// so that an ascent does not cool and has no end.
const MANY: usize = 800;

/// How far duals may go.
#[derive(Clone, Copy)]
pub struct Limits<'a> {
    /// The duals that are trusted, and how far from them, in thousandths of a cost unit.
    pub center: &'a [i64],
    pub radius: i64,
    /// No dual is larger, with or without its sign, in the same unit.
    pub most: i64,
}

impl Limits<'_> {
    // The dual of an activity, gone twice as far from the trusted one, within the limits.
    fn further(&self, a: usize, value: i64) -> i64 {
        let center = self.center.get(a).copied().unwrap_or(0);
        let way = value.saturating_sub(center);
        self.within(a, value.saturating_add(way))
    }

    // The dual of an activity, moved to within the limits.
    fn within(&self, a: usize, value: i64) -> i64 {
        let center = self.center.get(a).copied().unwrap_or(0);
        let most = self.most.saturating_abs();
        let low = center.saturating_sub(self.radius).max(-most);
        let high = center.saturating_add(self.radius).min(most);
        value.min(high).max(low)
    }
}

// Writes a dual, within the box.
fn put(book: &Book, table: &CostTable, duals: &mut Duals, a: usize, value: i64)
    requires duals { AreDuals table.now book.now duals.old.values }
    requires place { a < length duals.old.values }
    ensures duals { AreDuals table.now book.now duals.new.values }
{
    duals.values[a] = table.boxed(value);
}

// Moves the dual of an activity, and answers how far.
fn step(
    book: &Book,
    table: &CostTable,
    powers: &Powers,
    mixture: &mut Mixture,
    limits: Limits<'_>,
    duals: &mut Duals,
    a: usize,
) -> Result<u64, Memory>
    requires duals { AreDuals table.now book.now duals.old.values }
    requires place { a < length duals.old.values }
    ensures duals { AreDuals table.now book.now duals.new.values }
{
    let rise = mixture.rise(powers, a)?;
    let from = duals.values[a];
    put(
        book,
        table,
        duals,
        a,
        limits.within(a, from.saturating_add(rise)),
    );
    let to = duals.values[a];
    mixture.shift(powers, a, to.saturating_sub(from));
    Ok(to.abs_diff(from))
}

// The activity whose turn comes after so many others, up or down their numbers.
fn place(n: usize, i: usize, upwards: bool) -> usize
    requires { i < n }
    ensures { result < n }
{
    if upwards { i } else { n - 1 - i }
}

// Moves each dual once, and answers how far in all.
fn sweep(
    book: &Book,
    table: &CostTable,
    powers: &Powers,
    mixture: &mut Mixture,
    limits: Limits<'_>,
    duals: &mut Duals,
    upwards: bool,
) -> Result<u64, Memory>
    requires duals { AreDuals table.now book.now duals.old.values }
    ensures duals { AreDuals table.now book.now duals.new.values }
{
    let n = duals.values.len();
    let mut moved = 0u64;
    for i in 0..n {
        let a = place(n, i, upwards);
        if !mixture.is_resting(a) {
            let far = step(book, table, powers, mixture, limits, duals, a)?;
            mixture.rest(a, far);
            moved = moved.saturating_add(far);
        }
    }
    Ok(moved)
}

/// Moves each dual twice as far from the trusted one, within the limits and the box.
pub fn go_on(book: &Book, table: &CostTable, limits: Limits<'_>, duals: &mut Duals)
    requires duals { AreDuals table.now book.now duals.old.values }
    ensures duals { AreDuals table.now book.now duals.new.values }
{
    let n = duals.values.len();
    for a in 0..n {
        let value = limits.further(a, duals.values[a]);
        put(book, table, duals, a, value);
    }
}

// Moves the price of each side once, and answers how far in all.
fn sweep_sides(powers: &Powers, mixture: &mut Mixture, sides: &mut Sides) -> u64 {
    let mut moved = 0u64;
    for side in 0..sides.all.len() {
        let most = sides.most(side);
        let rise = sides.raise(side, mixture.side_rise(side, most));
        mixture.shift_side(powers, side, rise);
        moved = moved.saturating_add(rise.unsigned_abs());
    }
    moved
}

/// Sweeps over mixtures of a temperature until little moves, and answers whether it came to that.
pub fn climb(
    book: &Book,
    table: &CostTable,
    powers: &Powers,
    mixture: &mut Mixture,
    limits: Limits<'_>,
    sides: &mut Sides,
    duals: &mut Duals,
    temperature: i64,
) -> Result<bool, Memory>
    requires duals { AreDuals table.now book.now duals.old.values }
    ensures duals { AreDuals table.now book.now duals.new.values }
{
    let is_worth_more = temperature < COOL && duals.values.len() < MANY;
    let (sweeps, share) = if is_worth_more { (60, 2000) } else { (20, 50) };
    let all = temperature
        .unsigned_abs()
        .saturating_mul(duals.values.len() as u64);
    for turn in 0..sweeps {
        let upwards = turn % 2 == 0;
        let moved = sweep(book, table, powers, mixture, limits, duals, upwards)?;
        let moved = moved.saturating_add(sweep_sides(powers, mixture, sides));
        if moved <= all / share {
            return Ok(true);
        }
    }
    Ok(false)
}
