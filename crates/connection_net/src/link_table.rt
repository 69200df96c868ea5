//! Whether some aircraft may fly one activity directly after another, asked of the rules once.
//!
//! Only the type's turn depends on the aircraft. So for each stop of 0 to 1440 minutes the table has the set of the
//! aircraft whose type turns in it, and for each activity the set of those that may fly it. Two activities that fit in
//! place are linked where the stop is no shorter than the airport's turn, and those two sets and that of the stop have
//! an aircraft in common. No turn is longer than a day, so the set of 1440 minutes has every aircraft: it stands for
//! longer stops, and for stops beside ground time, which ask for no turn. A question is a few reads, whatever the number
//! of aircraft and types; making the table takes as many questions as there are activities times aircraft.

ghost use Rattle.std.specs.Prelude.{◌≡◌, ◌<◌, ◌↔◌, ◌-ℤ◌, ◌≤ℤ◌, ◌&&◌, ℕ, pos, negsuc, IfOk, IsTrue, length, if◌then◌else◌};
ghost use Rattle.std.specs.Int.{int_min};
ghost use Rattle.tail_book.specs.Lookup.{activities, aircraft, kind_of, type_turn};
ghost use Rattle.tail_book.specs.Numbers.{int_le};
ghost use Rattle.tail_book.specs.Ranges.{IsWithin};
ghost use Rattle.tail_book.specs.LegalTests.{is_allowed};
ghost use Rattle.turn_rules.specs.inside.PermissionTable.{ArePermissionsOf};
ghost use Rattle.connection_net.specs.inside.AircraftSet.{has};
ghost use Rattle.connection_net.specs.inside.LinkTable.{AreLegsOf, AreStopsOf, AreTurnedIn, IsAskedStop, IsFlownOn, IsInRange, IsLegOf, IsLinkTableOf};
ghost use Rattle.connection_net.specs.Net.{is_linked};

use crate::aircraft_set::AircraftSet;
use std::alloc::Global;
use tail_book::laws::every_book_is_sound;
use tail_book::{Book, Memory, type_turn};
use turn_rules::{PermissionTable, permits};

/// What is read of an activity: whether it is a flight, its airports, its minutes since 1970-01-01T00:00 UTC, the turn
/// in minutes of the airport where it ends, and the aircraft that may fly it.
#[derive(Clone, Copy, Debug)]
pub struct Leg {
    pub flight: bool,
    pub from: u32,
    pub to: u32,
    pub start: i64,
    pub end: i64,
    pub turn: i64,
    pub fliers: AircraftSet,
}

/// A row for each activity, and for each stop of 0 to 1440 minutes the aircraft whose type turns in it.
#[derive(Debug, Drop)]
pub struct LinkTable {
    pub legs: Vec<Leg>,
    pub turned: Vec<AircraftSet>,
}

impl LinkTable {
    /// The table of a book.
    pub fn of(
        alloc: Global,
        book: &Book,
        permissions: &PermissionTable,
    ) -> Result<LinkTable, Memory>
        requires { ArePermissionsOf book.now permissions.now }
        ensures { IfOk result (IsLinkTableOf book.now) }
    {
        let legs = all_legs(alloc, book, permissions)?;
        let turned = all_turned(alloc, book)?;
        Ok(LinkTable { legs, turned })
    }
}

// The aircraft that may fly an activity.
fn fliers(book: &Book, permissions: &PermissionTable, a: u32) -> AircraftSet
    requires permissions { ArePermissionsOf book.now permissions.now }
    requires activity { a < activities book.now }
    ensures { (k : ℕ) → has result k ≡ is_allowed book.now k a }
{
    every_book_is_sound(book);
    let mut set = AircraftSet::none();
    for k in 0..book.tails.len() as u32 {
        let flies = permits(book, permissions, k, a);
        set = set.with_where(flies, k);
    }
    set
}

// The row of an activity.
fn leg_of(book: &Book, permissions: &PermissionTable, a: u32) -> Leg
    requires permissions { ArePermissionsOf book.now permissions.now }
    requires activity { a < activities book.now }
    ensures { IsLegOf book.now a result }
{
    let activity = &book.activities[a as usize];
    Leg {
        flight: activity.flight,
        from: activity.from,
        to: activity.to,
        start: activity.start,
        end: activity.end,
        turn: book.rules.airports[activity.to as usize].turn,
        fliers: fliers(book, permissions, a),
    }
}

// The rows of all activities.
fn all_legs(alloc: Global, book: &Book, permissions: &PermissionTable) -> Result<Vec<Leg>, Memory>
    requires { ArePermissionsOf book.now permissions.now }
    ensures count { IfOk result (λ legs. length legs.items ≡ activities book.now) }
    ensures each { IfOk result (λ legs. AreLegsOf book.now legs.items) }
{
    let mut legs = Vec::with_capacity(alloc, book.activities.len())?;
    for a in 0..book.activities.len() as u32 {
        legs.push(leg_of(book, permissions, a))?;
    }
    Ok(legs)
}

// Whether an aircraft's type turns in so many minutes.
fn turns_in(book: &Book, k: u32, stop: u32) -> bool
    requires { k < aircraft book.now }
    ensures { result ≡ int_le (type_turn book.now (kind_of book.now k)) (pos stop) }
{
    type_turn(book, k) <= stop as i64
}

// The aircraft whose type turns in so many minutes.
fn turned_in(book: &Book, stop: u32) -> AircraftSet
    ensures { AreTurnedIn book.now stop result }
{
    every_book_is_sound(book);
    let mut set = AircraftSet::none();
    for k in 0..book.tails.len() as u32 {
        let turns = turns_in(book, k, stop);
        set = set.with_where(turns, k);
    }
    set
}

// The aircraft whose type turns in each stop of up to a day.
fn all_turned(alloc: Global, book: &Book) -> Result<Vec<AircraftSet>, Memory>
    ensures count { IfOk result (λ sets. length sets.items ≡ 1441) }
    ensures each { IfOk result (λ sets. AreStopsOf book.now sets.items) }
{
    let mut sets = Vec::with_capacity(alloc, 1441)?;
    for stop in 0..1441u32 {
        sets.push(turned_in(book, stop))?;
    }
    Ok(sets)
}

// Minutes on the ground between two activities.
fn time_between(before: &Leg, after: &Leg) -> i64
    requires before { IsInRange before.now }
    requires after { IsInRange after.now }
    ensures value { result ≡ after.now.start -ℤ before.now.end }
    ensures range { IsWithin (negsuc 120_968_638) (pos 120_968_639) result }
{
    after.start - before.end
}

// Whether both are flights, so that an aircraft has to turn between them.
fn are_flights(before: &Leg, after: &Leg) -> bool
    ensures { result ≡ (before.now.flight && after.now.flight) }
{
    before.flight && after.flight
}

// The minutes that every aircraft needs between two activities: the airport's turn, where there is one.
fn least_time(before: &Leg, after: &Leg) -> i64
    requires { IsInRange before.now }
    ensures value { result ≡ (if before.now.flight && after.now.flight then before.now.turn else pos 0) }
    ensures range { pos 0 ≤ℤ result }
{
    if are_flights(before, after) {
        before.turn
    } else {
        0
    }
}

// A number of minutes, or those of a day where it is larger.
fn up_to_a_day(stop: i64) -> usize
    requires { pos 0 ≤ℤ stop }
    ensures day { result < 1441 }
    ensures minutes { pos result ≡ int_min stop (pos 1440) }
{
    if stop < 1440 { stop as usize } else { 1440 }
}

// The stop whose set has those who turn between two activities: a day where no turn is asked for or the stop is longer,
// and nothing where the time is too short for everyone.
fn asked_stop(before: &Leg, after: &Leg) -> Option<usize>
    requires before { IsInRange before.now }
    requires after { IsInRange after.now }
    ensures { IsAskedStop before.now after.now result }
{
    let stop = time_between(before, after);
    if stop < least_time(before, after) {
        return None;
    }
    if are_flights(before, after) {
        return Some(up_to_a_day(stop));
    }
    Some(1440)
}

// The row of an activity in a book's table.
fn leg_at<'a>(book: &Book, table: &'a LinkTable, a: u32) -> &'a Leg
    requires table { IsLinkTableOf book.now table.now }
    requires activity { a < activities book.now }
    ensures { IsLegOf book.now a result.now }
{
    &table.legs[a as usize]
}

// The aircraft that turn in so many minutes, by a book's table.
fn turned_at(book: &Book, table: &LinkTable, stop: usize) -> AircraftSet
    requires table { IsLinkTableOf book.now table.now }
    requires stop { stop < 1441 }
    ensures { AreTurnedIn book.now stop result }
{
    table.turned[stop]
}

// Whether some aircraft may fly both activities, and turns between them.
fn is_flown_on(book: &Book, table: &LinkTable, before: &Leg, after: &Leg) -> bool
    requires table { IsLinkTableOf book.now table.now }
    requires before { IsInRange before.now }
    requires after { IsInRange after.now }
    ensures { IsTrue result ↔ IsFlownOn book.now before.now after.now }
{
    every_book_is_sound(book);
    match asked_stop(before, after) {
        None => false,
        Some(stop) => before
            .fliers
            .meets(after.fliers, turned_at(book, table, stop)),
    }
}

/// Whether some aircraft may fly one activity directly after the other.
pub fn linked(book: &Book, table: &LinkTable, a: u32, b: u32) -> bool
    requires table { IsLinkTableOf book.now table.now }
    requires before { a < activities book.now }
    requires after { b < activities book.now }
    ensures { result ≡ is_linked book.now a b }
{
    let (before, after) = (leg_at(book, table, a), leg_at(book, table, b));
    before.to == after.from && is_flown_on(book, table, before, after)
}
