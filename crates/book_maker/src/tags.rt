//! The tags that the tables name. They are not declared, so they are numbered as they come.
//!
//! All tags of both tables are listed before an entry is looked up, so that none is unknown then: at most 84,000, since
//! there are 4,200 records of at most 20 tags. Each goes into a set once.

ghost use Rattle.std.specs.Prelude.{◌≡◌, ◌+◌, ◌*◌, ◌<◌, ◌≤◌, ◌^◌, ◌++◌, ℕ, List, length, IfOk, OnOk};
ghost use Rattle.std.specs.List.{flat_map};
ghost use Rattle.tail_book.specs.declared.limits.TheConstants.{ACTIVITY_LIMIT, ITEM_LIMIT, TAIL_LIMIT};
ghost use Rattle.book_maker.specs.Tags.{tags_of};

use crate::name_numbers::distinct_names;
use fleet_rules::RawTail;
use indexmap::IndexSet;
use std::alloc::Global;
use tail_book::{Memory, Name};
use timetable_reader::RawActivity;

/// The tags in order of first appearance, the fleet before the timetable.
pub fn tags_of(
    alloc: Global,
    tails: &[RawTail],
    activities: &[RawActivity],
) -> Result<IndexSet<Name>, Memory>
    requires few_tails { length tails.now ≤ TAIL_LIMIT }
    requires few_activities { length activities.now ≤ ACTIVITY_LIMIT }
    ensures tags { IfOk result (λ set. set.keys ≡ tags_of tails.now activities.now) }
    ensures few { IfOk result (λ set. length set.keys < 2 ^ 32) }
{
    let mut names = Vec::new(alloc);
    add_tags(&mut names, tails)?;
    add_tags(&mut names, activities)?;
    distinct_names(alloc, &names)
}

// A record that names tags.
trait Tagged {
    ghost named: { Self → List (List ℕ) };

    fn tags(&self) -> &[Name]
        ensures value { result.now ≡ named self.now }
        ensures few { length result.now ≤ ITEM_LIMIT };
}

impl Tagged for RawTail {
    ghost named = { λ t. t.tags };

    fn tags(&self) -> &[Name] {
        self.tags.as_slice()
    }
}

impl Tagged for RawActivity {
    ghost named = { λ a. a.tags };

    fn tags(&self) -> &[Name] {
        self.tags.as_slice()
    }
}

// Adds the tags of records, one record after the other.
fn add_tags<T: Tagged>(names: &mut Vec<Name>, rows: &[T]) -> Result<(), Memory>
    ensures tags { OnOk result (names.new.items ≡ names.old.items ++ flat_map T.named rows.now) }
    ensures few { OnOk result (length names.new.items ≤ length names.old.items + ITEM_LIMIT * length rows.now) }
{
    for i in 0..rows.len() {
        names.extend_from_slice(rows[i].tags())?;
    }
    Ok(())
}
