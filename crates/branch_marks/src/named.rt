//! What facts name, for each activity: nothing, one number, or several that differ.
//!
//! The facts of a legal plan name at most one carrier, and one neighbour on each side. Marks that no plan keeps may
//! name several: then no number is let through, and which ones they are is not kept.

ghost use Rattle.std.specs.Prelude.{◌≡◌, ◌<◌, ℕ, length, IfOk, Some, slice_index_or};
ghost use Rattle.branch_marks.specs.inside.Named.{AreNoted, is_nothing, lets_number, with_named, one_at};
ghost use Rattle.branch_marks.specs.declared.named.Named.TheVariants.{Nothing as NamedNothing};

use std::alloc::Global;
use tail_book::Memory;

/// What facts name: nothing, one number, or several that differ.
#[derive(Clone, Copy, PartialEq, Eq, Debug)]
pub enum Named {
    Nothing,
    One(u32),
    Several,
}

impl Named {
    /// What is named once a number more is.
    pub fn with(self, number: u32) -> Named
        ensures { result ≡ with_named self (Some number) }
    {
        match self {
            Named::Nothing => Named::One(number),
            Named::One(known) if known == number => self,
            _ => Named::Several,
        }
    }

    /// Whether nothing else than a number is named.
    pub fn lets(self, number: u32) -> bool
        ensures { result ≡ lets_number self number }
    {
        match self {
            Named::Nothing => true,
            Named::One(known) => known == number,
            Named::Several => false,
        }
    }

    /// Whether nothing is named.
    pub fn is_nothing(self) -> bool
        ensures { result ≡ is_nothing self }
    {
        match self {
            Named::Nothing => true,
            _ => false,
        }
    }
}

/// For each of `n` activities, that nothing is named.
pub fn nothing_named(alloc: Global, n: usize) -> Result<Vec<Named>, Memory>
    ensures count { IfOk result (λ named. length named.items ≡ n) }
    ensures each { IfOk result (λ named. (i : ℕ) → slice_index_or named.items i NamedNothing ≡ NamedNothing) }
{
    Ok(vec![in alloc; Named::Nothing; n]?)
}

/// Notes that a number is named for an activity.
pub fn note_at(named: &mut Vec<Named>, a: u32, number: u32)
    requires { a < length named.old.items }
    ensures { AreNoted (λ i. one_at a number i) named.old.items named.new.items }
{
    named[a as usize] = named[a as usize].with(number);
}

/// What is named for an activity.
pub fn named_at(named: &[Named], a: u32) -> Named
    requires { a < length named.now }
    ensures { result ≡ slice_index_or named.now a NamedNothing }
{
    named[a as usize]
}
