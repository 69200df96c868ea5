//! Dice for tests that ask many small questions: numbers that look like chance, the same ones for the same seed.
//!
//! A linear congruential generator with Knuth's multiplier for 64 bits. Its upper half is taken, since the low bits of
//! such a generator repeat soon.
#![tactic(auto)]

ghost use Rattle.std.specs.Prelude.{◌<◌};

/// Dice of a seed.
#[derive(Debug, Drop)]
pub struct Dice {
    state: u64,
}

impl Dice {
    /// Dice that have not been thrown.
    pub fn new(seed: u64) -> Dice {
        Dice { state: seed }
    }

    /// The next number, one below `n`.
    pub fn below(&mut self, n: u32) -> u32
        requires { 0 < n }
        ensures { result < n }
    {
        self.state = self
            .state
            .wrapping_mul(6_364_136_223_846_793_005)
            .wrapping_add(1_442_695_040_888_963_407);
        (self.state >> 32) as u32 % n
    }
}
