//! Searches under quotas beside a plain enumeration of who flies what, on books by chance with quotas by chance. What a plan uses is
//! counted by a slow program of its own.

ghost use Rattle.std.specs.Prelude.{◌≡◌};
ghost use Rattle.tail_book.specs.CostTable.{IsTableFor, costs_of};

use super::book_by_chance;
use dice::Dice;
use plan_audit::audit_plan;
use quota_rows::{QUOTA_LIMIT, Quota};
use quota_search::{QuotaOutcome, search_quotas};
use std::alloc::Global;
use tail_book::laws::own_costs_are_for_book;
use tail_book::*;

// What no plan costs.
const NO_PLAN: u64 = u64::MAX;

// The most aircraft of a book by chance.
const AIRCRAFT: usize = 4;

// An activity as far as routes and quotas go: where it begins and ends, and when.
#[derive(Clone, Copy)]
struct Leg {
    from: u32,
    to: u32,
    start: i64,
    end: i64,
}

// What is no activity, and ends at no airport.
const NO_LEG: Leg = Leg {
    from: 99,
    to: 99,
    start: 0,
    end: 0,
};

// The activities of a book, and for each aircraft what ends where it is ready, when it is.
#[derive(Drop)]
struct Legs {
    ready: [Leg; AIRCRAFT],
    flown: Vec<Leg>,
}

fn legs_of(alloc: Global, book: &Book) -> Result<Legs, Memory> {
    let mut ready = [NO_LEG; AIRCRAFT];
    for (leg, tail) in ready.iter_mut().zip(&book.tails) {
        leg.to = tail.at;
        leg.end = tail.ready;
    }
    let mut flown = Vec::new(alloc);
    for activity in &book.activities {
        flown.push(Leg {
            from: activity.from,
            to: activity.to,
            start: activity.start,
            end: activity.end,
        })?;
    }
    Ok(Legs { ready, flown })
}

// Whether each activity starts where its flier is, and no sooner, as in each legal plan.
fn may_follow(legs: &Legs, fliers: &[u32]) -> bool {
    let mut last = legs.ready;
    for (leg, flier) in legs.flown.iter().zip(fliers) {
        let k = *flier as usize % AIRCRAFT;
        if last[k].to != leg.from || last[k].end > leg.start {
            return false;
        }
        last[k] = *leg;
    }
    true
}

// Whether an activity uses a quota that directly follows another one.
fn is_short(quota: &Quota, before: Leg, leg: Leg) -> bool {
    leg.from == quota.airport
        && leg.start.div_euclid(1440) == quota.day
        && before.end.saturating_add(quota.below) > leg.start
}

// How often these fliers use a quota. What each of them flies first follows nothing.
fn uses_of(legs: &Legs, fliers: &[u32], quota: &Quota) -> u64 {
    let (mut last, mut count) = ([None; AIRCRAFT], 0u64);
    for (leg, flier) in legs.flown.iter().zip(fliers) {
        let k = *flier as usize % AIRCRAFT;
        if let Some(before) = last[k] {
            count = count.saturating_add(is_short(quota, before, *leg) as u64);
        }
        last[k] = Some(*leg);
    }
    count
}

fn keep_all(legs: &Legs, fliers: &[u32], quotas: &[Quota]) -> bool {
    for quota in quotas {
        if uses_of(legs, fliers, quota) > quota.most {
            return false;
        }
    }
    true
}

// What these fliers' plan costs, if it is legal.
fn cost_of(alloc: Global, book: &Book, table: &CostTable, fliers: &[u32]) -> Result<u64, Memory>
    requires { IsTableFor book.now table.now }
{
    if fliers.len() > 100 {
        return Ok(NO_PLAN);
    }
    let plan = plan_by(alloc, fliers, book.tails.len() as u32)?;
    let cost = audit_plan(alloc, book, table, &plan)?;
    Ok(cost.unwrap_or(NO_PLAN))
}

// The fliers that come next in the order of all: a number one larger, in the base of the aircraft.
fn go_on(fliers: &mut [u32], aircraft: u32) {
    for flier in fliers.iter_mut() {
        *flier = flier.saturating_add(1);
        if *flier < aircraft {
            return;
        }
        *flier = 0;
    }
}

// What the least of all plans costs, and the least of those that keep the quotas.
#[derive(Clone, Copy, PartialEq, Eq, Debug)]
struct Least {
    free: u64,
    kept: u64,
}

// The least costs so far, and now with the plan of these fliers.
fn least_with(
    alloc: Global,
    book: &Book,
    table: &CostTable,
    legs: &Legs,
    quotas: &[Quota],
    fliers: &[u32],
    least: Least,
) -> Result<Least, Memory>
    requires { IsTableFor book.now table.now }
{
    if !may_follow(legs, fliers) {
        return Ok(least);
    }
    let cost = cost_of(alloc, book, table, fliers)?;
    let kept = if keep_all(legs, fliers, quotas) {
        cost
    } else {
        NO_PLAN
    };
    Ok(Least {
        free: least.free.min(cost),
        kept: least.kept.min(kept),
    })
}

// The same of all plans, one after the other.
fn listed(
    alloc: Global,
    book: &Book,
    table: &CostTable,
    legs: &Legs,
    quotas: &[Quota],
) -> Result<Least, Memory>
    requires { IsTableFor book.now table.now }
{
    let aircraft = book.tails.len() as u32;
    let mut fliers = vec![in alloc; 0u32; legs.flown.len()]?;
    let mut plans = 1u32;
    for _ in 0..fliers.len() {
        plans = plans.saturating_mul(aircraft);
    }
    let mut least = Least {
        free: NO_PLAN,
        kept: NO_PLAN,
    };
    for _plan in 0..plans {
        least = least_with(alloc, book, table, legs, quotas, &fliers, least)?;
        go_on(&mut fliers, aircraft);
    }
    Ok(least)
}

// Writes down who flies a route.
fn put_flier(fliers: &mut [u32], route: &Route, flier: u32) {
    for a in &route.0 {
        if let Some(place) = fliers.get_mut(*a as usize) {
            *place = flier;
        }
    }
}

// Who flies each of so many activities in a plan.
fn fliers_in(alloc: Global, plan: &Plan, count: usize) -> Result<Vec<u32>, Memory> {
    let mut fliers = vec![in alloc; 0u32; count]?;
    let mut flier = 0u32;
    for route in &plan.0 {
        put_flier(&mut fliers, route, flier);
        flier = flier.saturating_add(1);
    }
    Ok(fliers)
}

// What a plan costs that is said to cost so much, be legal and keep the quotas; and nothing where one of these is not so.
fn judged(
    alloc: Global,
    book: &Book,
    table: &CostTable,
    legs: &Legs,
    quotas: &[Quota],
    plan: &Plan,
    said: u64,
) -> Result<Option<u64>, Memory>
    requires { IsTableFor book.now table.now }
{
    let fliers = fliers_in(alloc, plan, legs.flown.len())?;
    let cost = audit_plan(alloc, book, table, plan)?;
    if cost == Some(said) && keep_all(legs, &fliers, quotas) {
        Ok(cost)
    } else {
        Ok(None)
    }
}

// What the plan costs that a search under quotas found, where that is as it says.
fn searched(
    alloc: Global,
    book: &Book,
    table: &CostTable,
    legs: &Legs,
    quotas: &[Quota],
) -> Result<Option<u64>, Memory>
    requires { table.now ≡ costs_of book.now }
{
    own_costs_are_for_book();
    if quotas.len() > QUOTA_LIMIT {
        return Err(Memory);
    }
    match search_quotas(alloc, book, table, quotas)? {
        QuotaOutcome::Optimal(plan, cost) => {
            judged(alloc, book, table, legs, quotas, &plan, cost)
        }
        QuotaOutcome::Infeasible => Ok(Some(NO_PLAN)),
    }
}

// A quota at the airport of some activity, on its day, which allows between `few` connections and so many more.
fn quota_by_chance(dice: &mut Dice, legs: &Legs, few: u32, more: u32) -> Quota {
    let place = dice.below(840) as usize % legs.flown.len().max(1);
    let leg = legs.flown.get(place).copied().unwrap_or(NO_LEG);
    let most = few.saturating_add(dice.below(more.max(1)));
    Quota {
        airport: leg.from,
        day: leg.start.div_euclid(1440),
        below: 20 + dice.below(80) as i64,
        most: most as u64,
    }
}

// One to three quotas, of which each third allows nothing.
fn some_quotas(alloc: Global, dice: &mut Dice, legs: &Legs) -> Result<Vec<Quota>, Memory> {
    let mut quotas = Vec::new(alloc);
    for _ in 0..1 + dice.below(3) {
        quotas.push(quota_by_chance(dice, legs, 0, 3))?;
    }
    Ok(quotas)
}

// Fifty quotas, of which most allow more than any plan of so few activities uses.
fn fifty_quotas(alloc: Global, dice: &mut Dice, legs: &Legs) -> Result<Vec<Quota>, Memory> {
    let mut quotas = Vec::new(alloc);
    for _ in 0..QUOTA_LIMIT {
        let few = if dice.below(12) == 0 { 0 } else { 8 };
        quotas.push(quota_by_chance(dice, legs, few, 3))?;
    }
    Ok(quotas)
}

// The least costs of a book with quotas, where the search agrees with the enumeration, and nothing else.
fn agreed(
    alloc: Global,
    dice: &mut Dice,
    book: &Book,
    fifty: bool,
) -> Result<Option<Least>, Memory> {
    own_costs_are_for_book();
    let table = CostTable::of(alloc, book)?;
    let legs = legs_of(alloc, book)?;
    let quotas = if fifty {
        fifty_quotas(alloc, dice, &legs)?
    } else {
        some_quotas(alloc, dice, &legs)?
    };
    let least = listed(alloc, book, &table, &legs, &quotas)?;
    if searched(alloc, book, &table, &legs, &quotas)? == Some(least.kept) {
        Ok(Some(least))
    } else {
        Ok(None)
    }
}

// The same of the next book.
fn next_agreed(alloc: Global, dice: &mut Dice, fifty: bool) -> Option<Least> {
    match book_by_chance(alloc, dice) {
        Some(book) => agreed(alloc, dice, &book, fifty).unwrap_or(None),
        None => None,
    }
}

// How many books have a plan that keeps their quotas and costs no more than without them, how many have a dearer one alone,
// and how many have legal plans but none that keeps them.
#[derive(Clone, Copy, PartialEq, Eq, Debug)]
struct Counts {
    free: u32,
    dearer: u32,
    refuted: u32,
}

const NONE_COUNTED: Counts = Counts {
    free: 0,
    dearer: 0,
    refuted: 0,
};

impl Counts {
    fn count(&mut self, least: Least) {
        if least.free == NO_PLAN {
            return;
        }
        if least.kept == NO_PLAN {
            self.refuted = self.refuted.saturating_add(1);
        } else if least.kept > least.free {
            self.dearer = self.dearer.saturating_add(1);
        } else {
            self.free = self.free.saturating_add(1);
        }
    }
}

// So many books that some three hundred have legal plans: with one to three quotas each; and others with fifty each.
#[test]
fn searches_under_quotas_agree_with_the_enumeration(rt: HostRuntime) {
    for (seed, books, fifty, least) in [(59, 750u32, false, 15), (60, 300, true, 4)] {
        let (mut counts, mut dice) = (NONE_COUNTED, Dice::new(seed));
        for turn in 0..books {
            let found = next_agreed(rt.alloc(), &mut dice, fifty);
            assert!(rt; found.is_some(), "seed {seed}, book {turn}");
            if let Some(costs) = found {
                counts.count(costs);
            }
        }
        assert!(rt;
            counts.free.min(counts.dearer).min(counts.refuted) >= least,
            "seed {seed}: {counts:?}"
        );
    }
}

// The day before all activities, or the one after them.
fn idle_day(dice: &mut Dice, legs: &Legs) -> i64 {
    let after = dice.below(2) == 0;
    let mut day = if after { i64::MIN } else { i64::MAX };
    for leg in &legs.flown {
        let start = leg.start.div_euclid(1440);
        day = if after {
            day.max(start)
        } else {
            day.min(start)
        };
    }
    if after {
        day.saturating_add(1)
    } else {
        day.saturating_sub(1)
    }
}

// What a least plan costs under a quota, and without any, where a quota of 0 for a day without activities changes neither.
fn unchanged(alloc: Global, dice: &mut Dice, book: &Book) -> Result<Option<Least>, Memory> {
    own_costs_are_for_book();
    let table = CostTable::of(alloc, book)?;
    let legs = legs_of(alloc, book)?;
    let quota = quota_by_chance(dice, &legs, 0, 2);
    let idle = Quota {
        day: idle_day(dice, &legs),
        below: 10_000_000,
        most: 0,
        ..quota
    };
    let free = searched(alloc, book, &table, &legs, &[])?;
    let kept = searched(alloc, book, &table, &legs, &[quota])?;
    let same = searched(alloc, book, &table, &legs, &[idle])? == free
        && searched(alloc, book, &table, &legs, &[idle, quota])? == kept;
    match (free, kept) {
        (Some(free), Some(kept)) if same => Ok(Some(Least { free, kept })),
        _ => Ok(None),
    }
}

// The same of the next book.
fn next_unchanged(alloc: Global, dice: &mut Dice) -> Option<Least> {
    match book_by_chance(alloc, dice) {
        Some(book) => unchanged(alloc, dice, &book).unwrap_or(None),
        None => None,
    }
}

// Two hundred books, beside which quotas of days without activities stand alone and before a quota that may bind.
#[test]
fn quotas_of_idle_days_change_nothing(rt: HostRuntime) {
    let (mut counts, mut dice) = (NONE_COUNTED, Dice::new(61));
    for turn in 0..200u32 {
        let found = next_unchanged(rt.alloc(), &mut dice);
        assert!(rt; found.is_some(), "book {turn}");
        if let Some(costs) = found {
            counts.count(costs);
        }
    }
    assert!(rt;
        counts.free.min(counts.dearer).min(counts.refuted) >= 4,
        "{counts:?}"
    );
}
