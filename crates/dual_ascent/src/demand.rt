//! How much an activity is asked for, and by how much its dual has to move until it is asked for once.
//!
//! Each aircraft asks for an activity by the share of its mixture that has it. A dual that rises by the temperature
//! doubles the mass of these routes. The sum of the shares is to be 1. Newton's method on its logarithm finds the move in
//! a few turns, over one number an aircraft.

use crate::powers::{OCTAVE, Powers};

/// The share of an aircraft's mixture that has the activity.
#[derive(Clone, Copy)]
pub struct Share {
    /// As a part of `WHOLE`.
    pub part: u64,
}

/// The whole of a mixture.
pub const WHOLE: u64 = 1 << 26;

// One, in sums of shares.
const UNIT: u64 = 1 << 20;

const UNIT_BITS: i64 = 20;

// A demand within so many 1,024ths of an octave of 1 is 1.
const CLOSE: i64 = 24;

// A turn moves at most so many times the logarithm.
const STEEPEST: u64 = 6;

// No search goes further than so many octaves.
const FARTHEST: i64 = 16 * OCTAVE;

/// The share that a mass is of the mass of all.
pub fn part_of(mass: u64, all: u64) -> u64 {
    let all = (all >> 10).max(1);
    ((mass.min(1 << 47) << 16) / all).min(WHOLE)
}

// A share after its routes' masses were multiplied, in units of `UNIT`. The factor is too.
fn part_after(part: u64, factor: u64) -> u64 {
    let part = part.min(WHOLE);
    let grown = part.saturating_mul(factor.min(1 << 36));
    let all = (WHOLE - part).saturating_add(grown / UNIT);
    (grown / all.max(1)).min(UNIT)
}

// The sum of all shares after a move, and how steep it is.
fn demand_after(powers: &Powers, shares: &[Share], exponent: i64) -> (u64, u64) {
    let factor = powers.power(exponent) >> 10;
    let (mut demand, mut slope) = (0u64, 0u64);
    for share in shares {
        let part = part_after(share.part, factor).min(UNIT);
        demand = demand.saturating_add(part);
        slope = slope.saturating_add(part * (UNIT - part) / UNIT);
    }
    (demand, slope)
}

// How steeply a turn goes, in 16ths.
fn steepness(demand: u64, slope: u64) -> i64 {
    let ratio = demand.saturating_mul(16) / slope.max(1);
    ratio.min(16 * STEEPEST) as i64
}

/// By how many 1,024ths of the temperature the dual has to rise, so that the shares sum to about 1.
pub fn rise(powers: &Powers, shares: &[Share]) -> i64 {
    let mut exponent = 0i64;
    for _turn in 0..4 {
        let (demand, slope) = demand_after(powers, shares, exponent);
        let excess = powers
            .logarithm(demand.max(1))
            .saturating_sub(UNIT_BITS * OCTAVE);
        if excess.abs_diff(0) < CLOSE as u64 {
            return exponent;
        }
        let turn = excess.saturating_mul(steepness(demand, slope)) / 16;
        exponent = exponent.saturating_sub(turn).clamp(-FARTHEST, FARTHEST);
    }
    exponent
}
