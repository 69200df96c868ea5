//! The names that the tables declare, each kind by itself.
//!
//! The number of a name is its place in the set of its kind, which keeps the order in which names came. Kinds are
//! apart, so an airport and a type may have the same name.

use indexmap::IndexSet;
use std::marker::Model;
use tail_book::Name;

/// The names of each kind in order of their numbers. A set finds the number of a name at once.
/// Contracts see the lists of names.
#[derive(Drop)]
pub struct Known {
    pub kinds: IndexSet<Name>,
    pub airports: IndexSet<Name>,
    pub counters: IndexSet<Name>,
    pub tails: IndexSet<Name>,
    pub tags: IndexSet<Name>,
}

impl Model for Known {
    ghost use Rattle.book_maker.specs.inside.Known.{KnownNames, AreNumbered};

    ghost Value = { KnownNames };

    ghost use Rattle.book_maker.specs.inside.KnownParts.{names_in};

    ghost view = { names_in };

    ghost invariant = { λ k. AreNumbered (names_in k) };
}
