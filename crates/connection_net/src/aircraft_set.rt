//! Sets of aircraft, a bit for each: a book has at most 200.
//!
//! Whether three sets have an aircraft in common is asked for each pair of activities that fit in place and time, so it
//! goes over no aircraft: two words of each set are joined.

ghost use Rattle.std.specs.Prelude.{◌≡◌, ◌<◌, ◌&&◌, ◌||◌, ◌↔◌, ℕ, false, nat_eq, IsTrue};
ghost use Rattle.connection_net.specs.inside.AircraftSet.{has};

/// A set of numbers below 256.
#[derive(Clone, Copy, Debug)]
pub struct AircraftSet {
    /// The bit of value 2^k says whether the set has `k`, for `k` below 128.
    pub low: u128,
    /// The same for `k + 128`.
    pub high: u128,
}

impl AircraftSet {
    /// The set with no aircraft.
    pub fn none() -> AircraftSet
        ensures { (i : ℕ) → has result i ≡ false }
    {
        AircraftSet { low: 0, high: 0 }
    }

    /// The set with one aircraft more.
    pub fn with(self, k: u32) -> AircraftSet
        requires { k < 256 }
        ensures { (i : ℕ) → has result i ≡ (has self i || nat_eq i k) }
    {
        if k < 128 {
            AircraftSet {
                low: self.low | 1 << k,
                high: self.high,
            }
        } else {
            AircraftSet {
                low: self.low,
                high: self.high | 1 << (k - 128),
            }
        }
    }

    /// The set with one aircraft more, where a test holds.
    pub fn with_where(self, holds: bool, k: u32) -> AircraftSet
        requires { k < 256 }
        ensures { (i : ℕ) → has result i ≡ (has self i || (holds && nat_eq i k)) }
    {
        if holds { self.with(k) } else { self }
    }

    /// Whether three sets have an aircraft in common.
    pub fn meets(self, other: AircraftSet, third: AircraftSet) -> bool
        ensures { IsTrue result ↔ ((k : ℕ) × IsTrue (has self k && (has other k && has third k))) }
    {
        self.low & other.low & third.low != 0 || self.high & other.high & third.high != 0
    }
}
