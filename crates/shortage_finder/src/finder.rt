//! The ways to find a shortage, the cheapest first.

ghost use Rattle.std.specs.Prelude.{◌≡◌, ◌<◌, IfOk, IfSome, length};
ghost use Rattle.connection_net.specs.Net.{net_of};
ghost use Rattle.plan_shortage.specs.Shortage.{IsShortage};
ghost use Rattle.plan_shortage.specs.inside.Pricing.{IsSurplusPricerOf};
ghost use Rattle.shortage_finder.specs.Causes.{IsCauseIn};
ghost use Rattle.shortage_finder.specs.Found.{IsFoundIn};

use crate::carriers::{alone_suspect, carriers_of};
use crate::judging::judged;
use crate::shrinking::shrunk_if_short;
use crate::{Cause, FoundShortage};
use connection_net::Net;
use plan_shortage::SurplusPricer;
use shortage_suspects::{
    BitRows, Groups, Suspect, airport_suspect, all_flights, chains_of, crowd_suspect,
    fewest_used_up, tightest_cleared,
};
use std::alloc::Global;
use tail_book::laws::every_book_is_sound;
use tail_book::{Book, Memory};

// Of so many groups all flights are priced where something clears a counter.
const PRICED_GROUPS: usize = 4;

// Whether there is a first suspect that names fewer activities than the second.
fn is_smaller(one: &Option<Suspect>, other: &Option<Suspect>) -> bool {
    match (one, other) {
        (Some(one), Some(other)) => one.size() < other.size(),
        (Some(_), None) => true,
        (None, _) => false,
    }
}

// Too many activities for an airport or for a group of aircraft: of what is found the smaller first.
fn find_by_matching(
    alloc: Global,
    book: &Book,
    pricer: &mut SurplusPricer,
    net: &Net,
    carriers: &BitRows,
    groups: &Groups,
) -> Result<Option<FoundShortage>, Memory>
    requires net { net.now ≡ net_of book.now }
    requires pricer { IsSurplusPricerOf book.now pricer.old }
    ensures found { IfOk result (λ found. IfSome found (IsFoundIn book.now)) }
    ensures pricer { IsSurplusPricerOf book.now pricer.new }
{
    every_book_is_sound(book);
    let (n, m) = (book.activities.len() as u32, book.tails.len() as u32);
    let airport = airport_suspect(alloc, book, net, carriers)?;
    let chains = chains_of(alloc, book, net, carriers)?;
    let crowd = crowd_suspect(alloc, &chains, carriers, groups, n, m)?;
    if is_smaller(&airport, &crowd) {
        shrunk_if_short(alloc, book, pricer, Cause::Airport, airport)
    } else {
        shrunk_if_short(alloc, book, pricer, Cause::Crowd, crowd)
    }
}

// Too many flights for what is left of a counter that something clears, by pricing all flights of some groups.
fn find_cleared(
    alloc: Global,
    book: &Book,
    pricer: &mut SurplusPricer,
    carriers: &BitRows,
    groups: &Groups,
    c: u32,
) -> Result<Option<FoundShortage>, Memory>
    requires counter { c < length book.now.rules.counters }
    requires pricer { IsSurplusPricerOf book.now pricer.old }
    ensures found { IfOk result (λ found. IfSome found (IsFoundIn book.now)) }
    ensures pricer { IsSurplusPricerOf book.now pricer.new }
{
    for g in 0..groups.single().min(PRICED_GROUPS) {
        let suspect = Some(all_flights(alloc, book, carriers, groups, g)?);
        let found = shrunk_if_short(alloc, book, pricer, Cause::Counter(c), suspect)?;
        if found.is_some() {
            return Ok(found);
        }
    }
    Ok(None)
}

// Too many flights for what is left of one counter.
fn find_used_up(
    alloc: Global,
    book: &Book,
    pricer: &mut SurplusPricer,
    carriers: &BitRows,
    groups: &Groups,
    c: u32,
) -> Result<Option<FoundShortage>, Memory>
    requires counter { c < length book.now.rules.counters }
    requires pricer { IsSurplusPricerOf book.now pricer.old }
    ensures found { IfOk result (λ found. IfSome found (IsFoundIn book.now)) }
    ensures pricer { IsSurplusPricerOf book.now pricer.new }
{
    match fewest_used_up(alloc, book, carriers, groups, c as usize)? {
        Some(suspect) => judged(alloc, book, pricer, Cause::Counter(c), suspect),
        None => Ok(None),
    }
}

// Too many flights for what is left of a counter, for one counter after the other.
fn find_all_used_up(
    alloc: Global,
    book: &Book,
    pricer: &mut SurplusPricer,
    carriers: &BitRows,
    groups: &Groups,
) -> Result<Option<FoundShortage>, Memory>
    requires pricer { IsSurplusPricerOf book.now pricer.old }
    ensures found { IfOk result (λ found. IfSome found (IsFoundIn book.now)) }
    ensures pricer { IsSurplusPricerOf book.now pricer.new }
{
    every_book_is_sound(book);
    for c in 0..book.rules.counters.len() as u32 {
        let found = find_used_up(alloc, book, pricer, carriers, groups, c)?;
        if found.is_some() {
            return Ok(found);
        }
    }
    Ok(None)
}

// Too many flights for counters: by counting, and then by pricing.
fn find_by_counters(
    alloc: Global,
    book: &Book,
    pricer: &mut SurplusPricer,
    carriers: &BitRows,
    groups: &Groups,
) -> Result<Option<FoundShortage>, Memory>
    requires pricer { IsSurplusPricerOf book.now pricer.old }
    ensures found { IfOk result (λ found. IfSome found (IsFoundIn book.now)) }
    ensures pricer { IsSurplusPricerOf book.now pricer.new }
{
    if let Some(found) = find_all_used_up(alloc, book, pricer, carriers, groups)? {
        return Ok(Some(found));
    }
    match tightest_cleared(book) {
        Some(c) => find_cleared(alloc, book, pricer, carriers, groups, c),
        None => Ok(None),
    }
}

// The first shortage that one of the ways finds.
fn find_by_each(
    alloc: Global,
    book: &Book,
    pricer: &mut SurplusPricer,
    net: &Net,
    carriers: &BitRows,
    groups: &Groups,
) -> Result<Option<FoundShortage>, Memory>
    requires net { net.now ≡ net_of book.now }
    requires pricer { IsSurplusPricerOf book.now pricer.old }
    ensures found { IfOk result (λ found. IfSome found (IsFoundIn book.now)) }
    ensures pricer { IsSurplusPricerOf book.now pricer.new }
{
    let alone = alone_suspect(alloc, book, carriers)?;
    if let Some(found) = shrunk_if_short(alloc, book, pricer, Cause::Alone, alone)? {
        return Ok(Some(found));
    }
    if let Some(found) = find_by_matching(alloc, book, pricer, net, carriers, groups)? {
        return Ok(Some(found));
    }
    find_by_counters(alloc, book, pricer, carriers, groups)
}

// Makes what the ways look at, and goes them.
fn first_found(
    alloc: Global,
    book: &Book,
    pricer: &mut SurplusPricer,
) -> Result<Option<FoundShortage>, Memory>
    requires pricer { IsSurplusPricerOf book.now pricer.old }
    ensures found { IfOk result (λ found. IfSome found (IsFoundIn book.now)) }
{
    let net = Net::new(alloc, book)?;
    let carriers = carriers_of(alloc, book, &net)?;
    let groups = Groups::of(alloc, &carriers, book.activities.len(), book.tails.len())?;
    find_by_each(alloc, book, pricer, &net, &carriers, &groups)
}

/// A shortage that says why no plan is legal, where one is found: then none is. What is found is small, but not the least; where
/// nothing is found, there may still be no legal plan.
pub fn find_shortage(alloc: Global, book: &Book) -> Result<Option<FoundShortage>, Memory>
    ensures found { IfOk result (λ found. IfSome found (λ it. IsShortage book.now it.asked.items it.brought.items it.mosts.items)) }
    ensures cause { IfOk result (λ found. IfSome found (λ it. IsCauseIn book.now it.cause)) }
{
    let mut pricer = SurplusPricer::new(alloc, book)?;
    first_found(alloc, book, &mut pricer)
}
