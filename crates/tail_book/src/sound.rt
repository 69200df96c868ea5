//! Whether the parts of a book keep its limits: each test here has the name of the definition that it computes.
//!
//! It is what lets a program make a book without a proof about its parts. All is one pass over the lists, but for the names
//! of one kind and the order of activities, which are compared pair by pair and need no memory.

ghost use Rattle.std.specs.Prelude.{◌≡◌, ℕ, List, pos, not, bytes_eq, length, IsTrue};
ghost use Rattle.std.specs.List.{list_all};
ghost use Rattle.tail_book.specs.declared.limits.TheConstants.{VALUE_LIMIT};
ghost use Rattle.tail_book.specs.inside.Sound.{is_none_or_below};
ghost use Rattle.tail_book.specs.ActivityOrder.{comes_before};
ghost use Rattle.tail_book.specs.Pairs.{each_pair};
ghost use Rattle.tail_book.specs.inside.SoundTests.{is_within, is_moment, are_below, lasts, is_timed, names_of_book, has_short_lists, is_activity, comes_in, has_short_marks, carries_each, is_tail, is_kind, is_offset, is_change, comes_sooner, is_airport, is_curfew, is_limit, is_counter, is_band, are_kinds, are_airports, are_counters, are_curfews, are_bands, are_rules, are_activities, are_tails, is_book};

use crate::limits::{
    ACTIVITY_LIMIT, AIRPORT_LIMIT, BAND_COST_LIMIT, BAND_LIMIT, BASE_LIMIT, COUNT_LIMIT,
    COUNTER_LIMIT, CURFEW_LIMIT, DAY, FIXED_LIMIT, ITEM_LIMIT, LAST_MOMENT, OFFSET_LIMIT,
    RATE_LIMIT, SPAN_LIMIT, STOP_LIMIT, TAIL_LIMIT, TYPE_LIMIT, VALUE_LIMIT,
};
use crate::{
    Activity, AircraftType, Airport, Band, Change, Counter, CounterKind, Curfew, Name, Rules, Tail,
};

fn is_within(low: i64, high: i64, z: i64) -> bool
    ensures { result ≡ is_within low high z }
{
    low <= z && z <= high
}

fn is_moment(z: i64) -> bool
    ensures { result ≡ is_moment z }
{
    is_within(0, LAST_MOMENT, z)
}

fn are_below(count: usize, numbers: &[u32]) -> bool
    ensures { result ≡ are_below count numbers.now }
{
    numbers.iter().all(|number| (*number as usize) < count)
}

fn is_none_or_below(tail: Option<u32>, count: usize) -> bool
    ensures { result ≡ is_none_or_below tail count }
{
    match tail {
        None => true,
        Some(k) => (k as usize) < count,
    }
}

fn lasts(start: i64, end: i64) -> bool
    requires { IsTrue (is_moment start) }
    ensures { result ≡ lasts start end }
{
    start + 1 <= end && end <= start + SPAN_LIMIT
}

fn is_timed(a: &Activity) -> bool
    ensures { result ≡ is_timed a.now }
{
    is_moment(a.start) && is_moment(a.end) && lasts(a.start, a.end)
}

fn names_of_book(rules: &Rules, aircraft: usize, a: &Activity) -> bool
    ensures { result ≡ names_of_book rules.now aircraft a.now }
{
    (a.from as usize) < rules.airports.len()
        && (a.to as usize) < rules.airports.len()
        && are_below(rules.kinds.len(), &a.types)
        && is_none_or_below(a.tail, aircraft)
        && are_below(rules.counters.len(), &a.resets)
}

fn has_short_lists(a: &Activity) -> bool
    ensures { result ≡ has_short_lists a.now }
{
    a.types.len() <= ITEM_LIMIT && a.tags.len() <= ITEM_LIMIT && a.resets.len() <= ITEM_LIMIT
}

fn is_activity(rules: &Rules, aircraft: usize, a: &Activity) -> bool
    ensures { result ≡ is_activity rules.now aircraft a.now }
{
    // A look at a name brings out what every name keeps.
    let _ = a.id.as_bytes();
    is_timed(a) && names_of_book(rules, aircraft, a) && has_short_lists(a)
}

fn comes_in(rules: &Rules, t: &Tail) -> bool
    ensures { result ≡ comes_in rules.now t.now }
{
    (t.kind as usize) < rules.kinds.len()
        && (t.at as usize) < rules.airports.len()
        && is_moment(t.ready)
        && t.fixed <= FIXED_LIMIT
}

fn has_short_marks(rules: &Rules, t: &Tail) -> bool
    ensures { result ≡ has_short_marks rules.now t.now }
{
    t.tags.len() <= ITEM_LIMIT
        && are_below(rules.airports.len(), &t.avoid)
        && t.avoid.len() <= ITEM_LIMIT
}

fn are_carried(values: &[i64]) -> bool
    ensures { result ≡ list_all (is_within (pos 0) VALUE_LIMIT) values.now }
{
    values.iter().all(|value| is_within(0, VALUE_LIMIT, *value))
}

fn carries_each(rules: &Rules, t: &Tail) -> bool
    ensures { result ≡ carries_each rules.now t.now }
{
    are_carried(&t.carry) && t.carry.len() == rules.counters.len()
}

fn is_tail(rules: &Rules, t: &Tail) -> bool
    ensures { result ≡ is_tail rules.now t.now }
{
    // A look at a name brings out what every name keeps.
    let _ = t.name.as_bytes();
    comes_in(rules, t) && has_short_marks(rules, t) && carries_each(rules, t)
}

fn is_kind(t: &AircraftType) -> bool
    ensures { result ≡ is_kind t.now }
{
    let _ = t.name.as_bytes();
    t.rate <= RATE_LIMIT && is_within(0, DAY, t.turn)
}

fn is_airport(p: &Airport) -> bool
    ensures { result ≡ is_airport p.now }
{
    let _ = p.name.as_bytes();
    is_offset(p.offset)
        && is_within(0, DAY, p.turn)
        && each_change(&p.changes)
        && changes_rise(&p.changes)
}

fn is_offset(z: i64) -> bool
    ensures { result ≡ is_offset z }
{
    is_within(-OFFSET_LIMIT, OFFSET_LIMIT, z)
}

fn is_change(change: &Change) -> bool
    ensures { result ≡ is_change change.now }
{
    is_offset(change.offset)
}

fn each_change(changes: &[Change]) -> bool
    ensures { result ≡ list_all is_change changes.now }
{
    changes.iter().all(|change| is_change(change))
}

fn comes_sooner(a: &Change, b: &Change) -> bool
    ensures { result ≡ comes_sooner a.now b.now }
{
    a.at < b.at
}

fn comes_soonest(first: &Change, others: &[Change]) -> bool
    ensures { result ≡ list_all (comes_sooner first.now) others.now }
{
    others.iter().all(|other| comes_sooner(first, other))
}

fn changes_rise(changes: &[Change]) -> bool
    ensures { result ≡ each_pair comes_sooner changes.now }
{
    let mut rest = changes;
    while let Some((first, others)) = rest.split_first() {
        if !comes_soonest(first, others) {
            return false;
        }
        rest = others;
    }
    true
}

fn is_curfew(rules: &Rules, c: &Curfew) -> bool
    ensures { result ≡ is_curfew rules.now c.now }
{
    (c.airport as usize) < rules.airports.len()
        && is_within(0, DAY - 1, c.from)
        && is_within(0, DAY - 1, c.to)
        && are_below(rules.kinds.len(), &c.types)
        && c.types.len() <= ITEM_LIMIT
}

fn is_limit(kind: CounterKind, limit: i64) -> bool
    ensures { result ≡ is_limit kind limit }
{
    match kind {
        CounterKind::Minutes => is_within(1, VALUE_LIMIT, limit),
        CounterKind::Landings => is_within(1, VALUE_LIMIT, limit),
        CounterKind::Days => {
            is_within(DAY, COUNT_LIMIT, limit) && limit.unsigned_abs() % 1440 == 0
        }
    }
}

fn is_counter(rules: &Rules, c: &Counter) -> bool
    ensures { result ≡ is_counter rules.now c.now }
{
    let _ = c.name.as_bytes();
    is_limit(c.kind, c.limit)
        && are_below(rules.airports.len(), &c.bases)
        && c.bases.len() <= BASE_LIMIT
        && is_within(1, STOP_LIMIT, c.stop)
}

fn is_band(b: &Band) -> bool
    ensures { result ≡ is_band b.now }
{
    is_within(0, VALUE_LIMIT, b.upto) && b.cost <= BAND_COST_LIMIT
}

// What has a name of its own.
trait Named {
    ghost name_of: { Self → List ℕ };

    fn name(&self) -> &Name
        ensures { result.now ≡ name_of self.now };
}

impl Named for AircraftType {
    ghost name_of = { λ t. t.name };

    fn name(&self) -> &Name {
        &self.name
    }
}

impl Named for Airport {
    ghost name_of = { λ p. p.name };

    fn name(&self) -> &Name {
        &self.name
    }
}

impl Named for Counter {
    ghost name_of = { λ c. c.name };

    fn name(&self) -> &Name {
        &self.name
    }
}

impl Named for Tail {
    ghost name_of = { λ t. t.name };

    fn name(&self) -> &Name {
        &self.name
    }
}

impl Named for Activity {
    ghost name_of = { λ a. a.id };

    fn name(&self) -> &Name {
        &self.id
    }
}

fn is_new<T: Named>(first: &T, others: &[T]) -> bool
    ensures { result ≡ list_all (λ b. not (bytes_eq (T.name_of first.now) (T.name_of b))) others.now }
{
    others.iter().all(|other| first.name() != other.name())
}

// Whether no two of them have the same name.
fn names_differ<T: Named>(items: &[T]) -> bool
    ensures { result ≡ each_pair (λ a b. not (bytes_eq (T.name_of a) (T.name_of b))) items.now }
{
    let mut rest = items;
    while let Some((first, others)) = rest.split_first() {
        if !is_new(first, others) {
            return false;
        }
        rest = others;
    }
    true
}

// Whether the first stands before each of the others.
fn comes_before(a: &Activity, b: &Activity) -> bool
    ensures { result ≡ comes_before a.now b.now }
{
    a.start < b.start || (a.start == b.start && a.id < b.id)
}

fn comes_first(first: &Activity, others: &[Activity]) -> bool
    ensures { result ≡ list_all (comes_before first.now) others.now }
{
    others.iter().all(|other| comes_before(first, other))
}

fn are_ordered(activities: &[Activity]) -> bool
    ensures { result ≡ each_pair comes_before activities.now }
{
    let mut rest = activities;
    while let Some((first, others)) = rest.split_first() {
        if !comes_first(first, others) {
            return false;
        }
        rest = others;
    }
    true
}

fn each_kind(kinds: &[AircraftType]) -> bool
    ensures { result ≡ list_all is_kind kinds.now }
{
    kinds.iter().all(|kind| is_kind(kind))
}

fn are_kinds(kinds: &[AircraftType]) -> bool
    ensures { result ≡ are_kinds kinds.now }
{
    kinds.len() <= TYPE_LIMIT && each_kind(kinds) && names_differ(kinds)
}

fn each_airport(airports: &[Airport]) -> bool
    ensures { result ≡ list_all is_airport airports.now }
{
    airports.iter().all(|airport| is_airport(airport))
}

fn are_airports(airports: &[Airport]) -> bool
    ensures { result ≡ are_airports airports.now }
{
    airports.len() <= AIRPORT_LIMIT && each_airport(airports) && names_differ(airports)
}

fn each_curfew(rules: &Rules, curfews: &[Curfew]) -> bool
    ensures { result ≡ list_all (is_curfew rules.now) curfews.now }
{
    curfews.iter().all(|curfew| is_curfew(rules, curfew))
}

fn are_curfews(rules: &Rules) -> bool
    ensures { result ≡ are_curfews rules.now }
{
    rules.curfews.len() <= CURFEW_LIMIT && each_curfew(rules, &rules.curfews)
}

fn each_counter(rules: &Rules, counters: &[Counter]) -> bool
    ensures { result ≡ list_all (is_counter rules.now) counters.now }
{
    counters.iter().all(|counter| is_counter(rules, counter))
}

fn are_counters(rules: &Rules) -> bool
    ensures { result ≡ are_counters rules.now }
{
    rules.counters.len() <= COUNTER_LIMIT
        && each_counter(rules, &rules.counters)
        && names_differ(&rules.counters)
}

fn each_band(bands: &[Band]) -> bool
    ensures { result ≡ list_all is_band bands.now }
{
    bands.iter().all(|band| is_band(band))
}

fn are_bands(bands: &[Band]) -> bool
    ensures { result ≡ are_bands bands.now }
{
    bands.len() <= BAND_LIMIT && each_band(bands)
}

fn are_rules(rules: &Rules) -> bool
    ensures { result ≡ are_rules rules.now }
{
    are_kinds(&rules.kinds)
        && are_airports(&rules.airports)
        && are_curfews(rules)
        && are_counters(rules)
        && are_bands(&rules.bands)
}

fn each_activity(rules: &Rules, aircraft: usize, activities: &[Activity]) -> bool
    ensures { result ≡ list_all (is_activity rules.now aircraft) activities.now }
{
    activities
        .iter()
        .all(|activity| is_activity(rules, aircraft, activity))
}

fn are_activities(rules: &Rules, aircraft: usize, activities: &[Activity]) -> bool
    ensures { result ≡ are_activities rules.now aircraft activities.now }
{
    activities.len() <= ACTIVITY_LIMIT
        && each_activity(rules, aircraft, activities)
        && are_ordered(activities)
        && names_differ(activities)
}

fn each_tail(rules: &Rules, tails: &[Tail]) -> bool
    ensures { result ≡ list_all (is_tail rules.now) tails.now }
{
    tails.iter().all(|tail| is_tail(rules, tail))
}

fn are_tails(rules: &Rules, tails: &[Tail]) -> bool
    ensures { result ≡ are_tails rules.now tails.now }
{
    tails.len() <= TAIL_LIMIT && each_tail(rules, tails) && names_differ(tails)
}

/// Whether these activities, aircraft and rules are a book.
pub(crate) fn is_book(activities: &[Activity], tails: &[Tail], rules: &Rules) -> bool
    ensures { result ≡ is_book (record { activities = activities.now; tails = tails.now; rules = rules.now }) }
{
    are_rules(rules) && are_tails(rules, tails) && are_activities(rules, tails.len(), activities)
}
