//! Numbers mixed into one, for hashes and for choices that look like chance and are the same at each run. Nothing that
//! is promised rests on how well they mix.

// An odd factor that spreads small numbers: the golden ratio's part of 2^64.
const FACTOR: u64 = 11_400_714_819_323_198_485;

/// A hash with one number more.
pub fn mixed(hash: u64, number: u64) -> u64 {
    (hash ^ number).wrapping_mul(FACTOR).rotate_left(29)
}
