//! Pairs that marks leave free in routes that fit: connections without a Tie, and activities without a Must.
//!
//! Routes rise, so in each route the first such connection or activity has the least number, and one walk over the routes finds the
//! least of all.

ghost use Rattle.std.specs.Prelude.{◌≡◌, ◌<◌, ◌⊎◌, All, IfSome, length};
ghost use Rattle.tail_book.specs.Lookup.{activities, aircraft};
ghost use Rattle.branch_marks.specs.Branches.{IsUndecided};
ghost use Rattle.branch_marks.specs.Marks.{Fits};
ghost use Rattle.branch_marks.specs.declared.fact.Pair.TheVariants.{Fly, Link};
ghost use Rattle.branch_marks.specs.inside.MarkTables.{AreMarksOf};
ghost use Rattle.dive_heuristic.specs.LeastRoutes.{AreRoutesOfFleet};

use branch_marks::{Fact, Marks};
use quota_rows::{Quota, belongs};
use tail_book::laws::{every_book_is_sound, legal_routes_rise, rising_routes_are_below};
use tail_book::{Book, Route};

// Whether a connection belongs to a quota. Without a quota each is asked for.
fn is_asked_for(book: &Book, quota: Option<&Quota>, a: u32, b: u32) -> bool
    requires before { a < activities book.now }
    requires after { b < activities book.now }
{
    match quota {
        None => true,
        Some(quota) => belongs(book, quota, a, b),
    }
}

// The first connection of an aircraft's route that is asked for and has no Tie.
fn free_link_in(
    book: &Book,
    quota: Option<&Quota>,
    marks: &Marks,
    route: &[u32],
    k: u32,
) -> Option<(u32, u32)>
    requires marks { AreMarksOf book.now marks.now }
    requires of_book { All (λ a. a < activities book.now) route.now }
    requires aircraft { k < aircraft book.now }
    requires fits { Fits book.now marks.now.facts k route.now }
    ensures { IfSome result (λ link. IsUndecided book.now marks.now.facts (Link link.0 link.1)) }
{
    marks.facts_are_of_book(book);
    for i in 1..route.len() {
        let (a, b) = (route[i - 1], route[i]);
        if is_asked_for(book, quota, a, b) && !marks.has(Fact::Tie(a, b)) {
            return Some((a, b));
        }
    }
    None
}

// The one of two connections with the lesser number: of its first activity where a quota asks for them, or else of its second.
fn lesser_link(
    by_first: bool,
    one: Option<(u32, u32)>,
    other: Option<(u32, u32)>,
) -> Option<(u32, u32)>
    ensures { (result ≡ one) ⊎ (result ≡ other) }
{
    let Some((a, b)) = one else {
        return other;
    };
    let Some((c, d)) = other else {
        return one;
    };
    let is_less = if by_first { c < a } else { d < b };
    if is_less { other } else { one }
}

// That of the route of an aircraft.
fn free_link_of(
    book: &Book,
    quota: Option<&Quota>,
    marks: &Marks,
    routes: &[Route],
    k: u32,
) -> Option<(u32, u32)>
    requires marks { AreMarksOf book.now marks.now }
    requires routes { AreRoutesOfFleet book.now marks.now.facts routes.now }
    requires aircraft { k < aircraft book.now }
    ensures { IfSome result (λ link. IsUndecided book.now marks.now.facts (Link link.0 link.1)) }
{
    every_book_is_sound(book);
    legal_routes_rise();
    rising_routes_are_below();
    let route = &routes[k as usize];
    free_link_in(book, quota, marks, &route.0, k)
}

/// The connection without a Tie that has the least number: of those of a quota the one with the least first activity, and without
/// a quota the one with the least second activity.
pub fn free_link(
    book: &Book,
    quota: Option<&Quota>,
    marks: &Marks,
    routes: &[Route],
) -> Option<(u32, u32)>
    requires marks { AreMarksOf book.now marks.now }
    requires routes { AreRoutesOfFleet book.now marks.now.facts routes.now }
    ensures { IfSome result (λ link. IsUndecided book.now marks.now.facts (Link link.0 link.1)) }
{
    every_book_is_sound(book);
    let by_first = quota.is_some();
    let mut least = None;
    for k in 0..book.tails.len() as u32 {
        least = lesser_link(by_first, least, free_link_of(book, quota, marks, routes, k));
    }
    least
}

// The first activity of a route of an aircraft that it need not fly.
fn free_flight_in(book: &Book, marks: &Marks, route: &[u32], k: u32) -> Option<u32>
    requires marks { AreMarksOf book.now marks.now }
    requires of_book { All (λ a. a < activities book.now) route.now }
    requires aircraft { k < aircraft book.now }
    requires fits { Fits book.now marks.now.facts k route.now }
    ensures { IfSome result (λ a. IsUndecided book.now marks.now.facts (Fly k a)) }
{
    marks.facts_are_of_book(book);
    for i in 0..route.len() {
        let a = route[i];
        if !marks.has(Fact::Must(k, a)) {
            return Some(a);
        }
    }
    None
}

// That of the route of an aircraft.
fn free_flight_of(book: &Book, marks: &Marks, routes: &[Route], k: u32) -> Option<u32>
    requires marks { AreMarksOf book.now marks.now }
    requires routes { AreRoutesOfFleet book.now marks.now.facts routes.now }
    requires aircraft { k < aircraft book.now }
    ensures { IfSome result (λ a. IsUndecided book.now marks.now.facts (Fly k a)) }
{
    every_book_is_sound(book);
    legal_routes_rise();
    rising_routes_are_below();
    let route = &routes[k as usize];
    free_flight_in(book, marks, &route.0, k)
}

// The lesser activity, with its aircraft: the one so far, or that of another aircraft.
fn lesser_flight(one: Option<(u32, u32)>, k: u32, other: Option<u32>) -> Option<(u32, u32)>
    ensures { (result ≡ one) ⊎ IfSome result (λ flight. (flight.0 ≡ k) × (other ≡ Some flight.1)) }
{
    let Some(b) = other else {
        return one;
    };
    match one {
        Some((_, a)) if a <= b => one,
        Some(_) | None => Some((k, b)),
    }
}

/// The least activity without a Must, behind the aircraft whose route has it.
pub fn free_flight(book: &Book, marks: &Marks, routes: &[Route]) -> Option<(u32, u32)>
    requires marks { AreMarksOf book.now marks.now }
    requires routes { AreRoutesOfFleet book.now marks.now.facts routes.now }
    ensures { IfSome result (λ flight. IsUndecided book.now marks.now.facts (Fly flight.0 flight.1)) }
{
    every_book_is_sound(book);
    let mut least = None;
    for k in 0..book.tails.len() as u32 {
        least = lesser_flight(least, k, free_flight_of(book, marks, routes, k));
    }
    least
}
