//! A hash of a route and its aircraft: a polynomial in an odd factor, modulo 2^32.
//!
//! It only says where to look: routes of one hash are compared whole.

ghost use Rattle.std.specs.Prelude.{◌≡◌};
ghost use Rattle.restricted_master.specs.inside.Hash.{hash_of, mixed};

// The golden ratio's part of 2^32, which is odd and spreads small numbers.
const FACTOR: u64 = 2_654_435_761;

// A hash with one number more.
fn mixed(hash: u32, number: u32) -> u32
    ensures { result ≡ mixed hash number }
{
    ((hash as u64 * FACTOR + number as u64 + 1) % (1 << 32)) as u32
}

/// The hash of an aircraft's route.
pub fn hash_of(k: u32, route: &[u32]) -> u32
    ensures { result ≡ hash_of k route.now }
{
    let mut hash = mixed(0, k);
    for q in 0..route.len() {
        hash = mixed(hash, route[q]);
    }
    hash
}
