//! Whether activities are a shortage: what all aircraft can fly of them at most, beside what is due.

ghost use Rattle.std.specs.Prelude.{◌≡◌, ◌≤◌, ◌<ℤ◌, ◌-ℤ◌, ◌↔◌, ◌^◌, ℤ, pos, List, IfOk, IfSome, IfNone, IsTrue, length, not, nat_eq, nat_lt};
ghost use Rattle.std.specs.List.{list_all};
ghost use Rattle.tail_book.specs.Lookup.{activities};
ghost use Rattle.tail_book.specs.Pairs.{each_pair};
ghost use Rattle.tail_book.specs.Ranges.{IsWithin};
ghost use Rattle.tail_book.specs.Sums.{total};
ghost use Rattle.plan_shortage.specs.Shortage.{AreActivitiesOf, AreMosts, IsShortage, due};
ghost use Rattle.plan_shortage.specs.inside.Pricing.{IsSurplusPricerOf};

use crate::SurplusPricer;
use crate::laws::mosts_come_to_one;
use std::alloc::Global;
use tail_book::{Book, Memory};

// Whether each number is that of an activity of the book.
fn are_of_book(book: &Book, list: &[u32]) -> bool
    ensures { result ≡ list_all (λ a. nat_lt a (activities book.now)) list.now }
{
    list.iter().all(|a| (*a as usize) < book.activities.len())
}

// Whether a number is none of the others.
fn is_new(first: u32, others: &[u32]) -> bool
    ensures { result ≡ list_all (λ other. not (nat_eq first other)) others.now }
{
    others.iter().all(|other| first != *other)
}

// Whether no number stands twice.
fn none_twice(list: &[u32]) -> bool
    ensures { result ≡ each_pair (λ a b. not (nat_eq a b)) list.now }
{
    let mut rest = list;
    while let Some((first, others)) = rest.split_first() {
        if !is_new(*first, others) {
            return false;
        }
        rest = others;
    }
    true
}

// Whether these are activities of the book, and none stands twice.
fn are_activities_of(book: &Book, list: &[u32]) -> bool
    ensures { IsTrue result ↔ AreActivitiesOf book.now list.now }
{
    are_of_book(book, list) && none_twice(list)
}

// The sum of a list.
fn total(list: &[i64]) -> i128
    ensures value { result ≡ total list.now }
    ensures range { IsWithin (pos 0 -ℤ pos (2 ^ 126)) (pos (2 ^ 126)) result }
{
    let mut sum = 0;
    for i in 0..list.len() {
        sum += list[i] as i128;
    }
    sum
}

/// Whether so much is less than what is due.
pub fn is_short(asked: &[u32], brought: &[u32], mosts: &[i64]) -> bool
    ensures { IsTrue result ↔ (total mosts.now <ℤ due asked.now brought.now) }
{
    total(mosts) < asked.len() as i128 - brought.len() as i128
}

impl SurplusPricer {
    /// The mosts of all aircraft where they are a shortage, and nothing where these activities are none.
    pub fn shortage(
        &mut self,
        alloc: Global,
        book: &Book,
        asked: &[u32],
        brought: &[u32],
    ) -> Result<Option<Vec<i64>>, Memory>
        requires { IsSurplusPricerOf book.now self.old }
        ensures found { IfOk result (λ found. IfSome found (λ mosts. IsShortage book.now asked.now brought.now mosts.items)) }
        ensures none { IfOk result (λ found. IfNone found ((mosts : List ℤ) → ¬ IsShortage book.now asked.now brought.now mosts)) }
        ensures kept { IsSurplusPricerOf book.now self.new }
    {
        mosts_come_to_one();
        if !are_activities_of(book, asked) || !are_activities_of(book, brought) {
            return Ok(None);
        }
        let mosts = self.mosts(alloc, book, asked, brought)?;
        if is_short(asked, brought, &mosts) {
            Ok(Some(mosts))
        } else {
            Ok(None)
        }
    }
}

/// The most of each aircraft: what any of its legal routes has of the asked activities beyond the brought ones.
pub fn mosts(alloc: Global, book: &Book, asked: &[u32], brought: &[u32]) -> Result<Vec<i64>, Memory>
    ensures { IfOk result (λ mosts. AreMosts book.now asked.now brought.now mosts.items) }
{
    let mut pricer = SurplusPricer::new(alloc, book)?;
    pricer.mosts(alloc, book, asked, brought)
}

/// The mosts of all aircraft where they are a shortage, and nothing where these activities are none. Whoever asks often
/// keeps a `SurplusPricer`.
pub fn shortage(
    alloc: Global,
    book: &Book,
    asked: &[u32],
    brought: &[u32],
) -> Result<Option<Vec<i64>>, Memory>
    ensures found { IfOk result (λ found. IfSome found (λ mosts. IsShortage book.now asked.now brought.now mosts.items)) }
    ensures none { IfOk result (λ found. IfNone found ((mosts : List ℤ) → ¬ IsShortage book.now asked.now brought.now mosts)) }
{
    let mut pricer = SurplusPricer::new(alloc, book)?;
    pricer.shortage(alloc, book, asked, brought)
}
