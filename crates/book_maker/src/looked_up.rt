//! Entries of the tables, one after the other: each first by its own name, and then by the names that it uses.
//!
//! What is common to all kinds stands here: that no two entries of one kind have the same name, code 11, and at which
//! place an entry is refused. Which names an entry uses is for its type to say. The names so far are a set, so each
//! name is looked up once, and nothing behind the first refusal is looked at.

ghost use Rattle.std.specs.Prelude.{ℕ, ◌≡◌, ◌+◌, ◌<◌, ◌^◌, [], List, length, All, Option, Result, IfOk, OnOk};
ghost use Rattle.tail_text.specs.Checks.{must};
ghost use Rattle.tail_text.specs.declared.codes.TheConstants.{TWICE};
ghost use Rattle.tail_text.specs.inside.Reading.{Answers};
ghost use Rattle.table_records.specs.inside.NoRow.{Judges};
ghost use Rattle.book_maker.specs.inside.Known.{KnownNames};
ghost use Rattle.book_maker.specs.LookedUp.{looked_up_in, is_new, with_own};
ghost use Rattle.book_maker.specs.inside.LookedUp.{names_after};

use crate::known::Known;
use indexmap::IndexSet;
use std::alloc::Global;
use table_records::NoRow;
use tail_book::Name;
use tail_text::{Refusal, Stopped, Table, codes};

/// An entry of a table, which may have a name of its own and use names that are known.
pub trait Entry: Drop {
    /// The entry with numbers in place of the names that it uses.
    type Found: Drop;

    ghost own_name: { Self → Option (List ℕ) };

    ghost uses: { KnownNames → Self → Result Self.Found ℕ };

    ghost is_sound: { Self → Type 0 };

    /// Its own name, if it has one.
    fn own_name(&self) -> Option<Name>
        ensures { result ≡ own_name self.now };

    /// The entry with its names looked up, from left to right.
    fn found(&self, alloc: Global, known: &Known) -> Result<Self::Found, NoRow>
        ensures value { Judges (λ f. f) (uses known.now self.now) result }
        ensures sound { OnOk result (is_sound self.now) };
}

/// The entries of one kind with their names looked up, and the names that they have.
#[derive(Drop)]
pub struct LookedUp<F> {
    pub entries: Vec<F>,
    pub names: IndexSet<Name>,
}

/// Looks up the names of entries, of which the first stands at that place of the table.
pub fn look_up<E: Entry>(
    alloc: Global,
    table: Table,
    first: u64,
    known: &Known,
    entries: &[E],
) -> Result<LookedUp<E::Found>, Stopped>
    requires { first + length entries.now < 2 ^ 64 }
    ensures found { Answers (λ l. l.entries.items) (looked_up_in table first E.own_name (E.uses known.now) entries.now) result }
    ensures names { IfOk result (λ l. l.names.keys ≡ names_after E.own_name [] entries.now) }
    ensures sound { OnOk result (All E.is_sound entries.now) }
{
    let mut found = Vec::new(alloc);
    let mut names = IndexSet::new(alloc);
    for i in 0..entries.len() {
        match entry_in(alloc, known, &entries[i], &mut names) {
            Ok(entry) => {
                if found.push(entry).is_err() {
                    return Err(Stopped::Memory);
                }
            }
            Err(NoRow::Code(code)) => {
                let place = first + i as u64;
                return Err(Stopped::Refused(Refusal { code, table, place }));
            }
            Err(NoRow::Memory) => return Err(Stopped::Memory),
        }
    }
    Ok(LookedUp {
        entries: found,
        names,
    })
}

fn entry_in<E: Entry>(
    alloc: Global,
    known: &Known,
    entry: &E,
    names: &mut IndexSet<Name>,
) -> Result<E::Found, NoRow>
    ensures value { Judges (λ f. f) (must (is_new names.old.keys (E.own_name entry.now)) TWICE (E.uses known.now entry.now)) result }
    ensures names { OnOk result (names.new.keys ≡ with_own names.old.keys (E.own_name entry.now)) }
    ensures sound { OnOk result (E.is_sound entry.now) }
{
    if let Some(name) = entry.own_name() {
        match names.insert_full(name) {
            Ok((_, true)) => {}
            Ok((_, false)) => return Err(NoRow::Code(codes::TWICE)),
            Err(_) => return Err(NoRow::Memory),
        }
    }
    entry.found(alloc, known)
}
