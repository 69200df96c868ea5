//! Flags: activities that are to be looked at, each once.
//!
//! A byte for each activity, in one list. To go over them all costs less than to keep them in a queue.

ghost use Rattle.std.specs.Prelude.{◌≡◌, ◌<◌, ◌≤◌, ℕ, All, [], ◌∷◌, true, false, length};
ghost use Rattle.propagator.specs.inside.Touching.{is_set, AreSetToo, AreSetFrom};

use connection_net::laws::rows_are_their_places;

/// Sets the flags of these numbers.
pub fn set_all(numbers: &[u32], flags: &mut [bool])
    requires { All (λ i. i < length flags.old) numbers.now }
    ensures { AreSetToo numbers.now flags.old flags.new }
{
    rows_are_their_places();
    for i in numbers {
        flags[*i as usize] = true;
    }
}

/// Sets the flag of a number.
pub fn set(i: u32, flags: &mut [bool])
    requires { i < length flags.old }
    ensures { AreSetToo (i ∷ []) flags.old flags.new }
{
    flags[i as usize] = true;
}

/// Sets the flags from a number on.
pub fn set_from(n: usize, flags: &mut [bool])
    requires { n ≤ length flags.old }
    ensures { AreSetFrom n flags.old flags.new }
{
    for i in n..flags.len() {
        flags[i] = true;
    }
}

/// Sets all flags.
pub fn set_each(flags: &mut [bool])
    ensures { (i : ℕ) → i < length flags.old → is_set flags.new i ≡ true }
{
    for flag in flags.iter_mut() {
        *flag = true;
    }
}

/// Takes all flags back.
pub fn clear(flags: &mut [bool])
    ensures { (i : ℕ) → is_set flags.new i ≡ false }
{
    for flag in flags.iter_mut() {
        *flag = false;
    }
}
