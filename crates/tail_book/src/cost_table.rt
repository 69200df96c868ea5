//! What flying costs, as a table: an entry for each aircraft and activity, and the bands of connection costs.
//!
//! A search is asked for any such table, of which the book's own costs are one. The two maxima bound what a legal plan
//! costs, and so the box of duals; `IsCostTable` asks that sums of costs and duals in thousandths stay below 2^61, so that
//! they fit 64 bits wherever they are taken. A cost is one read, and a connection's a walk over the table's bands, of
//! which the book's own has at most eight.

ghost use Rattle.std.specs.Prelude.{◌≡◌, ◌↔◌, ◌<◌, ◌≤◌, ◌+◌, ◌*◌, ◌^◌, ◌++◌, ℕ, All, IfOk, IfSome, IsSome, length, pos, unsigned_abs, nat_le};
ghost use Rattle.std.specs.List.{list_all};
ghost use Rattle.tail_book.specs.Lookup.{activities, aircraft};
ghost use Rattle.tail_book.specs.Cost.{activity_cost, band_cost};
ghost use Rattle.tail_book.specs.Counters.{flown};
ghost use Rattle.tail_book.specs.CostTable.{activity_cost_in, activity_costs, box_end, costs_of, greatest_cost_in, IsCostTable, IsInBox};
ghost use Rattle.tail_book.specs.inside.SoundTests.{keeps_maxima, sums_fit};

use crate::limits::{BAND_COST_LIMIT, ENTRY_LIMIT};
use crate::{Band, Book, Memory, laws};
use std::alloc::Global;
use std::marker::Model;

/// What activities and connections cost. Every table keeps its maxima. Contracts see the record of its fields.
#[derive(Debug, Drop)]
pub struct CostTable {
    /// How many activities, and how many aircraft.
    pub n: usize,
    pub m: usize,
    /// What activity `a` costs aircraft `k`, in cost units, at `k * n + a`.
    pub fly: Vec<u64>,
    /// What a connection costs by its minutes on the ground: the first band that reaches counts.
    pub bands: Vec<Band>,
    /// The most that an entry, and a band, cost, in cost units.
    pub fly_max: u64,
    pub band_max: u64,
}

impl Model for CostTable {
    ghost use Rattle.tail_book.specs.TableSeen.{CostTableSeen};
    ghost use Rattle.tail_book.specs.CostTable.{IsCostTable};

    ghost Value = { CostTableSeen };

    ghost view = { λ t. record { n = t.n; m = t.m; fly = t.fly.items; bands = t.bands.items; fly_max = t.fly_max; band_max = t.band_max } };

    ghost invariant = { λ t. IsCostTable (record { n = t.n; m = t.m; fly = t.fly.items; bands = t.bands.items; fly_max = t.fly_max; band_max = t.band_max }) };
}

/// Thousandths in a cost unit: duals and reduced costs are counted in these.
pub const COST_UNIT: u64 = 1000;

// What sums of thousandths of costs and of duals reach at most.
const SUM_MAX: u128 = 1 << 61;

impl CostTable {
    /// The table of these costs, or nothing where an entry or a band passes its maximum, or the maxima are so large that
    /// sums of costs could pass 2^61 in thousandths.
    pub fn new(
        n: usize,
        m: usize,
        fly: Vec<u64>,
        bands: Vec<Band>,
        fly_max: u64,
        band_max: u64,
    ) -> Option<CostTable>
        ensures exactly { IsSome result ↔ IsCostTable (record { n = n; m = m; fly = fly.items; bands = bands.items; fly_max = fly_max; band_max = band_max }) }
        ensures value { IfSome result (λ table. table ≡ record { n = n; m = m; fly = fly.items; bands = bands.items; fly_max = fly_max; band_max = band_max }) }
    {
        if keeps_maxima(n, &fly, &bands, fly_max, band_max) {
            Some(CostTable {
                n,
                m,
                fly,
                bands,
                fly_max,
                band_max,
            })
        } else {
            None
        }
    }

    /// The book's own costs. The maxima are those of every book, `ENTRY_LIMIT` and `BAND_COST_LIMIT`.
    pub fn of(alloc: Global, book: &Book) -> Result<CostTable, Memory>
        ensures { IfOk result (λ table. table ≡ costs_of book.now) }
    {
        laws::every_book_is_sound(book);
        let (n, m) = (book.activities.len(), book.tails.len());
        let fly = costs_of_all(alloc, book)?;
        let mut bands = Vec::new(alloc);
        bands.extend_from_slice(&book.rules.bands)?;
        Ok(CostTable {
            n,
            m,
            fly,
            bands,
            fly_max: ENTRY_LIMIT,
            band_max: BAND_COST_LIMIT,
        })
    }
}

fn are_at_most(costs: &[u64], most: u64) -> bool
    ensures { result ≡ list_all (λ cost. nat_le cost most) costs.now }
{
    costs.iter().all(|cost| *cost <= most)
}

fn each_costs_at_most(bands: &[Band], most: u64) -> bool
    ensures { result ≡ list_all (λ band. nat_le band.cost most) bands.now }
{
    bands.iter().all(|band| band.cost <= most)
}

// Each step is taken only where what went before is small, so that no sum or product passes 2^128.
fn sums_fit(n: usize, fly_max: u64, band_max: u64) -> bool
    ensures { result ≡ sums_fit n (n * (fly_max + band_max)) }
{
    let (activities, unit) = (n as u128, COST_UNIT as u128);
    if activities * unit > SUM_MAX {
        return false;
    }
    let greatest = activities * (fly_max as u128 + band_max as u128);
    if greatest > SUM_MAX {
        return false;
    }
    activities * (unit * (greatest + 1)) + unit * greatest <= SUM_MAX
}

fn keeps_maxima(n: usize, fly: &[u64], bands: &[Band], fly_max: u64, band_max: u64) -> bool
    ensures { result ≡ keeps_maxima n fly.now bands.now fly_max band_max }
{
    are_at_most(fly, fly_max)
        && each_costs_at_most(bands, band_max)
        && sums_fit(n, fly_max, band_max)
}

impl CostTable {
    /// What an activity costs an aircraft, in cost units.
    pub fn activity_cost(&self, k: u32, a: u32) -> u64
        requires aircraft { k < self.now.m }
        requires activity { a < self.now.n }
        requires entries { length self.now.fly ≡ self.now.n * self.now.m }
        ensures value { result ≡ activity_cost_in self.now k a }
        ensures most { result ≤ self.now.fly_max }
    {
        self.fly[k as usize * self.n + a as usize]
    }

    /// What a connection of so many minutes on the ground costs, in cost units.
    pub fn connection_cost(&self, minutes: i64) -> u64
        ensures value { result ≡ band_cost self.now.bands minutes }
        ensures most { result ≤ self.now.band_max }
    {
        band_cost(&self.bands, minutes)
    }

    /// The number that bounds the cost of every legal plan, in cost units.
    pub fn greatest_cost(&self) -> u64
        ensures value { result ≡ greatest_cost_in self.now }
        ensures most { 1000 * result ≤ 2 ^ 61 }
    {
        if self.n == 0 {
            return 0;
        }
        self.n as u64 * (self.fly_max + self.band_max)
    }

    /// The ends of the box of duals, in thousandths of a cost unit.
    pub fn box_end(&self) -> i64
        ensures { result ≡ pos (box_end self.now) }
    {
        (COST_UNIT * (self.greatest_cost() + 1)) as i64
    }

    /// The nearest number in the box, in thousandths of a cost unit.
    pub fn boxed(&self, value: i64) -> i64
        ensures { IsInBox self.now result }
    {
        let end = self.box_end();
        value.clamp(-end, end)
    }
}

/// The cost of the first band in the table's order that reaches so many minutes, and 0 where none does; in cost units.
pub fn band_cost(bands: &[Band], minutes: i64) -> u64
    ensures value { result ≡ band_cost bands.now minutes }
    ensures most { (most : ℕ) → All (λ band. band.cost ≤ most) bands.now → result ≤ most }
{
    for band in bands {
        if minutes <= band.upto {
            return band.cost;
        }
    }
    0
}

// Minutes flown in an activity.
fn minutes_flown(book: &Book, a: usize) -> u64
    requires { a < activities book.now }
    ensures value { result ≡ unsigned_abs (flown book.now a) }
    ensures most { result ≤ 2880 }
{
    let activity = &book.activities[a];
    if activity.flight {
        (activity.end - activity.start).unsigned_abs()
    } else {
        0
    }
}

// What an activity costs an aircraft.
fn flying_cost(book: &Book, k: usize, a: usize) -> u64
    requires aircraft { k < aircraft book.now }
    requires activity { a < activities book.now }
    ensures { result ≡ activity_cost book.now k a }
{
    let tail = &book.tails[k];
    let kind = &book.rules.kinds[tail.kind as usize];
    kind.rate * minutes_flown(book, a) + tail.fixed
}

// Adds what each activity costs an aircraft.
fn add_costs(book: &Book, k: usize, fly: &mut Vec<u64>) -> Result<(), Memory>
    requires { k < aircraft book.now }
    ensures { IfOk result (λ _. fly.new.items ≡ fly.old.items ++ activity_costs book.now k) }
{
    for a in 0..book.activities.len() {
        fly.push(flying_cost(book, k, a))?;
    }
    Ok(())
}

// What each activity costs each aircraft, the first aircraft's costs first.
fn costs_of_all(alloc: Global, book: &Book) -> Result<Vec<u64>, Memory>
    ensures { IfOk result (λ fly. fly.items ≡ (costs_of book.now).fly) }
{
    let mut fly = Vec::with_capacity(alloc, book.activities.len() * book.tails.len())?;
    for k in 0..book.tails.len() {
        add_costs(book, k, &mut fly)?;
    }
    Ok(fly)
}
