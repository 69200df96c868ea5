//! Sets of numbers below 32, a bit for each: a book has at most 20 types and 6 counters.
//!
//! Making one takes a pass over the numbers, and asking for one of them a shift.

ghost use Rattle.std.specs.Prelude.{◌≡◌, ◌<◌, ◌||◌, ℕ, true, false, All, nat_eq};
ghost use Rattle.tail_book.specs.Numbers.{contains};
ghost use Rattle.turn_rules.specs.inside.NumberSet.{has};

/// A set of numbers below 32.
#[derive(Clone, Copy, Debug)]
pub struct NumberSet {
    /// The bit of value 2^i says whether the set has `i`.
    pub bits: u32,
}

impl NumberSet {
    /// The set with no number.
    pub fn none() -> NumberSet
        ensures { (i : ℕ) → has result i ≡ false }
    {
        NumberSet { bits: 0 }
    }

    /// The set of all numbers below 32.
    pub fn every() -> NumberSet
        ensures { (i : ℕ) → i < 32 → has result i ≡ true }
    {
        NumberSet { bits: u32::MAX }
    }

    /// The set with one number more.
    pub fn with(self, number: u32) -> NumberSet
        requires { number < 32 }
        ensures { (i : ℕ) → has result i ≡ (has self i || nat_eq i number) }
    {
        NumberSet {
            bits: self.bits | 1 << number,
        }
    }

    /// The numbers of either set.
    pub fn or(self, other: NumberSet) -> NumberSet
        ensures { (i : ℕ) → has result i ≡ (has self i || has other i) }
    {
        NumberSet {
            bits: self.bits | other.bits,
        }
    }

    /// The numbers of a list.
    pub fn of(numbers: &[u32]) -> NumberSet
        requires { All (λ n. n < 32) numbers.now }
        ensures { (i : ℕ) → has result i ≡ contains numbers.now i }
    {
        let mut set = NumberSet::none();
        for number in numbers {
            set = set.with(*number);
        }
        set
    }

    /// Whether the set has a number.
    pub fn has(self, number: u32) -> bool
        requires { number < 32 }
        ensures { result ≡ has self number }
    {
        self.bits >> number & 1 == 1
    }
}
