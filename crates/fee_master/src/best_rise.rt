//! The best rise of one dual or one fee, within its box.
//!
//! The sum is a concave function of the rise. At each rise that is tried, its tangent says on which side nothing is better: so the rises
//! that are left become fewer with each, until none is left, and the best of those that were tried is the best of all. Where two
//! tangents cross nothing is better than they are there, so that is tried next; after many turns the middle is.

ghost use Rattle.std.specs.Prelude.{◌≡◌, ◌<◌, ◌≤◌, ◌+ℤ◌, ◌≤ℤ◌, ◌<ℤ◌, ◌-ℤ◌, pos, length};
ghost use Rattle.tail_book.specs.Ranges.{IsWithin};
ghost use Rattle.fee_master.specs.inside.Lines.{AreFairLines, IsFairRise, IsNarrowed};
ghost use Rattle.fee_master.specs.inside.Settling.{IsFixed, IsGainFor, IsSearchedFor, IsTangentFor};

use crate::fixed::Fixed;
use crate::lines::{Tangent, tangent_at};
use tail_book::COST_UNIT;

// So many times the next rise is where tangents cross.
const CROSSINGS: u32 = 24;

/// The rises that are left, and the best so far with the part of the sum there, in thousandths of a cost unit.
#[derive(Clone, Copy)]
pub struct Range {
    pub from: i64,
    pub to: i64,
    pub best: i64,
    pub part: i128,
}

// The middle of the rises that are left.
fn middle(from: i64, to: i64) -> i64
    requires order { from ≤ℤ to }
    requires from { IsFairRise from }
    requires to { IsFairRise to }
    ensures { IsWithin from to result }
{
    from + (to - from) / 2
}

/// The part at a rise that was tried, and how much each unit more gains or loses of it there.
#[derive(Clone, Copy)]
struct Edge {
    rise: i64,
    part: i128,
    slope: i128,
}

/// The edges of the rises that are left: the nearest ones below and beyond them that were tried.
#[derive(Clone, Copy)]
struct Edges {
    below: Option<Edge>,
    beyond: Option<Edge>,
}

// Where the tangents at two edges cross, within the rises that are left.
fn crossing(range: Range, below: Edge, beyond: Edge) -> i64
    requires order { range.from ≤ℤ range.to }
    ensures { IsWithin range.from range.to result }
{
    let steep = below.slope.wrapping_sub(beyond.slope);
    let way = (below.rise as i128).wrapping_sub(beyond.rise as i128);
    let gap = beyond
        .part
        .wrapping_sub(below.part)
        .wrapping_add(beyond.slope.wrapping_mul(way));
    let turn = gap.checked_div(steep).unwrap_or(0);
    let at = (below.rise as i128).wrapping_add(turn);
    at.clamp(range.from as i128, range.to as i128) as i64
}

// The rise to be tried next.
fn next_rise(range: Range, edges: Edges, turns: u32) -> i64
    requires order { range.from ≤ℤ range.to }
    requires from { IsFairRise range.from }
    requires to { IsFairRise range.to }
    ensures { IsWithin range.from range.to result }
{
    match (edges.below, edges.beyond) {
        (None, _) => range.from,
        (Some(_), None) => range.to,
        (Some(below), Some(beyond)) => {
            if turns < CROSSINGS {
                crossing(range, below, beyond)
            } else {
                middle(range.from, range.to)
            }
        }
    }
}

// The edges with a rise that was tried.
fn edges_with(edges: Edges, rise: i64, tangent: Tangent, most: u64) -> Edges {
    let edge = Edge {
        rise,
        part: tangent.part,
        slope: tangent.count as i128 - most as i128,
    };
    if most < tangent.count {
        Edges {
            below: Some(edge),
            beyond: edges.beyond,
        }
    } else {
        Edges {
            below: edges.below,
            beyond: Some(edge),
        }
    }
}

// From where rises are left behind a tangent: nothing below it is better where the sum does not fall there.
fn raised(from: i64, rise: i64, count: u64, most: u64) -> i64
    requires { IsFairRise rise }
    ensures up { most ≤ count → result ≡ (rise +ℤ pos 1) }
    ensures same { count < most → result ≡ from }
{
    if most <= count { rise + 1 } else { from }
}

// And up to where.
fn lowered(to: i64, rise: i64, count: u64, most: u64) -> i64
    requires { IsFairRise rise }
    ensures down { count ≤ most → result ≡ (rise -ℤ pos 1) }
    ensures same { most < count → result ≡ to }
{
    if count <= most { rise - 1 } else { to }
}

/// A rise, and the part there.
#[derive(Clone, Copy)]
struct Best {
    rise: i64,
    part: i128,
}

// The better of the best so far and a rise that was tried.
fn better_of(range: Range, rise: i64, tangent: Tangent) -> Best
    ensures better { range.part <ℤ tangent.part → (result.rise ≡ rise) × (result.part ≡ tangent.part) }
    ensures kept { tangent.part ≤ℤ range.part → (result.rise ≡ range.best) × (result.part ≡ range.part) }
{
    if range.part < tangent.part {
        Best {
            rise,
            part: tangent.part,
        }
    } else {
        Best {
            rise: range.best,
            part: range.part,
        }
    }
}

// The rises that are left behind a tangent at one of them, and the better rise.
fn narrowed(range: Range, rise: i64, tangent: Tangent, most: u64) -> Range
    requires { IsFairRise rise }
    ensures { IsNarrowed most range rise tangent result }
{
    let from = raised(range.from, rise, tangent.count, most);
    let to = lowered(range.to, rise, tangent.count, most);
    let best = better_of(range, rise, tangent);
    Range {
        from,
        to,
        best: best.rise,
        part: best.part,
    }
}

// Tries rises until none is left.
fn search(
    fixed: &Fixed,
    weights: &[i64],
    times: &[u32],
    most: u64,
    low: i64,
    high: i64,
    first: Tangent,
) -> Range
    requires fixed { IsFixed fixed.now }
    requires weights { length weights.now ≡ length fixed.now.pool.now.entries }
    requires times { length times.now ≡ length fixed.now.pool.now.entries }
    requires fair { AreFairLines weights.now times.now }
    requires low { IsFairRise low }
    requires high { IsFairRise high }
    requires here { IsWithin low high (pos 0) }
    requires first { IsTangentFor fixed.now weights.now times.now most (pos 0) first }
    ensures searched { IsSearchedFor fixed.now weights.now times.now most low high result }
    ensures done { result.to <ℤ result.from }
{
    let none = Edges {
        below: None,
        beyond: None,
    };
    let whole = Range {
        from: low,
        to: high,
        best: 0,
        part: first.part,
    };
    let mut range = narrowed(whole, 0, first, most);
    let mut edges = edges_with(none, 0, first, most);
    let mut turns = 0u32;
    while range.from <= range.to {
        let rise = next_rise(range, edges, turns);
        let tangent = tangent_at(fixed, weights, times, most, rise);
        range = narrowed(range, rise, tangent, most);
        edges = edges_with(edges, rise, tangent, most);
        turns = turns.saturating_add(1);
    }
    range
}

/// A rise from `low` to `high` at which the sum gains at least a cost unit, where there is one, and then the best.
pub fn gain(
    fixed: &Fixed,
    weights: &[i64],
    times: &[u32],
    most: u64,
    low: i64,
    high: i64,
) -> Option<i64>
    requires fixed { IsFixed fixed.now }
    requires weights { length weights.now ≡ length fixed.now.pool.now.entries }
    requires times { length times.now ≡ length fixed.now.pool.now.entries }
    requires fair { AreFairLines weights.now times.now }
    requires low { IsFairRise low }
    requires high { IsFairRise high }
    requires here { IsWithin low high (pos 0) }
    ensures { IsGainFor fixed.now weights.now times.now most low high result }
{
    let first = tangent_at(fixed, weights, times, most, 0);
    let range = search(fixed, weights, times, most, low, high, first);
    if range.part < first.part + COST_UNIT as i128 {
        None
    } else {
        Some(range.best)
    }
}
