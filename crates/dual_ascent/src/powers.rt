//! Powers of two and their logarithms in whole numbers, by 1,024ths of an octave.
//!
//! A table has the powers of one octave, each once more the ratio of its neighbours, and all others are shifts of
//! these. The table is right within a millionth. A power below 1 also loses the bits that are shifted out, so one 20
//! octaves down is right within a thousandth: that is enough for a suggestion.

use std::alloc::Global;
use tail_book::Memory;

/// So many parts make an octave: a power that doubles.
pub const OCTAVE: i64 = 1024;

/// The power of 0.
pub const ONE: u64 = 1 << ONE_BITS;

/// The power of 0 has so many bits behind its first.
pub const ONE_BITS: u64 = 30;

// Below this exponent a power counts as nothing, and above the other one it grows no more.
const LEAST: i64 = -30 * OCTAVE;

const MOST: i64 = 16 * OCTAVE;

// The ratio of neighbours, times 2^31.
const RATIO: u64 = 2_148_937_775;

/// The powers of one octave, from that of 0 to that of 1,024.
#[derive(Drop)]
pub struct Powers {
    octave: Vec<u64>,
}

impl Powers {
    /// The table.
    pub fn new(alloc: Global) -> Result<Powers, Memory> {
        let mut octave = Vec::with_capacity(alloc, 1025)?;
        let mut power = 2 * ONE;
        for _part in 0..1025 {
            octave.push(power / 2)?;
            power = (power % (1 << 32)) * RATIO / (1 << 31);
        }
        Ok(Powers { octave })
    }

    /// Two to so many 1,024ths, as a multiple of `ONE`.
    pub fn power(&self, exponent: i64) -> u64 {
        if exponent <= LEAST {
            return 0;
        }
        let parts = (exponent.min(MOST) - LEAST) as u64;
        let octaves = parts / 1024;
        let power = self
            .octave
            .get((parts % 1024) as usize)
            .copied()
            .unwrap_or(ONE);
        if octaves < ONE_BITS {
            power >> (ONE_BITS - octaves)
        } else {
            power << (octaves - ONE_BITS)
        }
    }

    /// To what exponent, in 1,024ths and rounded down, two gives a number; of 0 it is 0.
    pub fn logarithm(&self, number: u64) -> i64 {
        if number == 0 {
            return 0;
        }
        let octaves = number.ilog2() as u64;
        let mantissa = if octaves < ONE_BITS {
            number << (ONE_BITS - octaves)
        } else {
            number >> (octaves - ONE_BITS)
        };
        let above = self.octave.partition_point(|power| *power <= mantissa);
        octaves as i64 * OCTAVE + above.min(1025) as i64 - 1
    }
}
