//! The book of the three tables: of their texts, and of their records.
//!
//! The rules are looked at first, then the fleet, and then the timetable, since each uses names of those before it.
//! Tags come before all of them, since nothing declares them. That a book keeps its order, ranges and limits is proved
//! and not tested again: each record is good by itself, each number is the place of a name, and no name stands twice.

ghost use Rattle.std.specs.Prelude.{◌≡◌, ◌≤◌, ◌<◌, length, IfOk, OnOk};
ghost use Rattle.tail_book.specs.declared.limits.TheConstants.{ACTIVITY_LIMIT, TAIL_LIMIT};
ghost use Rattle.tail_text.specs.inside.Reading.{Answers};
ghost use Rattle.fleet_rules.specs.inside.RawRules.{AreRawRules};
ghost use Rattle.book_maker.specs.inside.Known.{with_rules};
ghost use Rattle.book_maker.specs.Made.{book_of, made_of};
ghost use Rattle.book_maker.specs.Tags.{tags_of};
ghost use Rattle.book_maker.specs.RulesFound.{rules_in};

use crate::declare::{
    declare_airports, declare_counters, declare_kinds, declare_tails, find_activities, find_curfews,
};
use crate::known::Known;
use crate::order::put_in_order;
use crate::tags::tags_of;
use fleet_rules::{RawRules, RawTail, read_fleet, read_rules};
use indexmap::IndexSet;
use std::alloc::Global;
use tail_book::{Band, Book, Memory, Rules};
use tail_text::Stopped;
use timetable_reader::{RawActivity, read_timetable};

/// The book of a timetable, a fleet and rules, or their first refusal: that of each table by itself, in this order, and
/// then that of the names in all three.
#[tactic(auto, unfolding(crate::specs::Made::book_of))]
pub fn read_book(
    alloc: Global,
    timetable: &[u8],
    fleet: &[u8],
    rules: &[u8],
) -> Result<Book, Stopped>
    ensures { Answers (λ book. book) (book_of timetable.now fleet.now rules.now) result }
{
    let activities = read_timetable(alloc, timetable)?;
    let tails = read_fleet(alloc, fleet)?;
    let rules = read_rules(alloc, rules)?;
    make_book(alloc, activities, tails, rules)
}

/// The book of the records of a timetable, a fleet and rules, or their first refusal: code `TWICE` for a name that an earlier
/// entry of its kind has, and `UNKNOWN` for one that nothing has. The rules are looked at first, then the fleet, and then the
/// timetable.
pub fn make_book(
    alloc: Global,
    activities: Vec<RawActivity>,
    tails: Vec<RawTail>,
    rules: RawRules,
) -> Result<Book, Stopped>
    requires few_activities { length activities.items ≤ ACTIVITY_LIMIT }
    requires few_tails { length tails.items ≤ TAIL_LIMIT }
    ensures { Answers (λ book. book) (made_of activities.items tails.items rules) result }
{
    book_of_rows(alloc, &activities, &tails, &rules)
}

// The book of the records, which are lent. Tags are known before all other names.
fn book_of_rows(
    alloc: Global,
    activities: &[RawActivity],
    tails: &[RawTail],
    rules: &RawRules,
) -> Result<Book, Stopped>
    requires few_activities { length activities.now ≤ ACTIVITY_LIMIT }
    requires few_tails { length tails.now ≤ TAIL_LIMIT }
    ensures { Answers (λ book. book) (made_of activities.now tails.now rules.now) result }
{
    let tags = tags_of(alloc, tails, activities)?;
    let mut known = Known {
        kinds: IndexSet::new(alloc),
        airports: IndexSet::new(alloc),
        counters: IndexSet::new(alloc),
        tails: IndexSet::new(alloc),
        tags,
    };
    book_in(alloc, activities, tails, rules, &mut known)
}

// The book of the records, where no name is known yet but the tags.
fn book_in(
    alloc: Global,
    activities: &[RawActivity],
    tails: &[RawTail],
    rules: &RawRules,
    known: &mut Known,
) -> Result<Book, Stopped>
    requires few_activities { length activities.now ≤ ACTIVITY_LIMIT }
    requires few_tails { length tails.now ≤ TAIL_LIMIT }
    requires tags { known.old.tags ≡ tags_of tails.now activities.now }
    ensures { Answers (λ book. book) (made_of activities.now tails.now rules.now) result }
{
    let rules = rules_in(alloc, rules, known)?;
    let tails = declare_tails(alloc, tails, known)?;
    let mut activities = find_activities(alloc, activities, known)?;
    put_in_order(&mut activities)?;
    Ok(Book {
        activities,
        tails,
        rules,
    })
}

// The rules with their names looked up. Their entries are numbered through, types before airports, curfews and counters.
fn rules_in(alloc: Global, rules: &RawRules, known: &mut Known) -> Result<Rules, Stopped>
    ensures found { Answers (λ r. r) (rules_in rules.now) result }
    ensures known { OnOk result (known.new ≡ with_rules known.old rules.now) }
    ensures sound { OnOk result (AreRawRules rules.now) }
{
    let mut first = 1;
    let kinds = declare_kinds(alloc, &rules.kinds, known)?;
    first += rules.kinds.len() as u64;
    let airports = declare_airports(alloc, first, &rules.airports, known)?;
    first += rules.airports.len() as u64;
    let curfews = find_curfews(alloc, first, &rules.curfews, known)?;
    first += rules.curfews.len() as u64;
    let counters = declare_counters(alloc, first, &rules.counters, known)?;
    let bands = copies_of(alloc, &rules.bands)?;
    Ok(Rules {
        kinds,
        airports,
        curfews,
        counters,
        bands,
    })
}

fn copies_of(alloc: Global, bands: &[Band]) -> Result<Vec<Band>, Memory>
    ensures { IfOk result (λ copies. copies.items ≡ bands.now) }
{
    Ok(Vec::from_slice(alloc, bands)?)
}
