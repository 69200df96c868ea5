//! Plans by chance, and how often they use quotas, beside a slow program that looks up what each activity follows.

ghost use Rattle.std.specs.Prelude.{◌<◌, IfSome};

use connection_net::Net;
use dice::Dice;
use plan_audit::audit_plan;
use quota_demands::least_uses;
use quota_rows::{Quota, keeps, uses};
use small_books::{SmallActivity, costs, flight, plain_book};
use std::alloc::Global;
use std::test::Fail;
use tail_book::laws::{every_book_is_sound, legal_plans_fly_all, legal_plans_fly_the_book};
use tail_book::*;

// When eight flights start and end, one after the other.
type Times = [(i64, i64); 8];

fn times_by_chance(dice: &mut Dice) -> Times {
    let (mut times, mut free) = ([(0, 0); 8], 0i64);
    for time in &mut times {
        let start = free.saturating_add(dice.below(500) as i64);
        free = start.saturating_add(1 + dice.below(100) as i64);
        *time = (start, free);
    }
    times
}

fn fliers_by_chance(dice: &mut Dice) -> [u32; 8] {
    let mut fliers = [0; 8];
    for flier in &mut fliers {
        *flier = dice.below(3);
    }
    fliers
}

// Mostly at the airport of all flights, and on one of the days on which they start.
fn quota_by_chance(dice: &mut Dice) -> Quota {
    Quota {
        airport: dice.below(5) / 4,
        day: dice.below(3) as i64,
        below: 1 + dice.below(1500) as i64,
        most: dice.below(3) as u64,
    }
}

// From one airport to itself, so that they may follow one another in any routes.
fn flights(times: &Times) -> [SmallActivity; 8] {
    let mut rows = [flight((0, 0), (0, 0)); 8];
    for a in 0..8 {
        rows[a] = flight((0, 0), times[a]);
    }
    rows
}

// Whether a moment lies in a day: whether it is one of its minutes.
fn is_on_day(moment: i64, day: i64) -> bool {
    for minute in 0..1440i64 {
        if day.saturating_mul(1440).saturating_add(minute) == moment {
            return true;
        }
    }
    false
}

// The last flight before this one that has its flier.
fn followed(fliers: &[u32; 8], b: usize) -> Option<usize>
    requires { b < 8 }
    ensures { IfSome result (λ a. a < 8) }
{
    for back in 0..b {
        let a = b - 1 - back;
        if fliers[a] == fliers[b] {
            return Some(a);
        }
    }
    None
}

fn is_short_on_day(times: &Times, a: usize, b: usize, quota: &Quota) -> bool
    requires before { a < 8 }
    requires after { b < 8 }
{
    let ((_, end), (start, _)) = (times[a], times[b]);
    end.saturating_add(quota.below) > start && is_on_day(start, quota.day)
}

// How often the plan of these fliers uses a quota.
fn slow_uses(times: &Times, fliers: &[u32; 8], quota: &Quota) -> u64 {
    let mut count = 0u64;
    for b in 0..8 {
        if let Some(a) = followed(fliers, b) {
            let belongs = quota.airport == 0 && is_short_on_day(times, a, b, quota);
            count = count.saturating_add(belongs as u64);
        }
    }
    count
}

// How often a plan uses a quota, and whether it keeps it; nothing where it is not legal.
fn found(
    alloc: Global,
    book: &Book,
    quota: &Quota,
    plan: &Plan,
) -> Result<Option<(u64, bool)>, Memory> {
    every_book_is_sound(book);
    legal_plans_fly_the_book();
    legal_plans_fly_all();
    let table = costs(alloc, book)?;
    match audit_plan(alloc, book, &table, plan)? {
        Some(_) => Ok(Some((uses(book, quota, plan), keeps(book, &[*quota], plan)))),
        None => Ok(None),
    }
}

// What a plan by chance is, by the slow program; and whether it was found so.
fn is_found(alloc: Global, seed: u64) -> Result<(bool, u64, bool), Fail> {
    let mut chance = Dice::new(seed);
    let dice = &mut chance;
    let (times, fliers) = (times_by_chance(dice), fliers_by_chance(dice));
    let quota = quota_by_chance(dice);
    let book = plain_book(alloc, &flights(&times), &[0, 0, 0], 0)?;
    let plan = plan_by(alloc, &fliers, 3)?;
    let count = slow_uses(&times, &fliers, &quota);
    let keeps = count <= quota.most;
    let same = found(alloc, &book, &quota, &plan)? == Some((count, keeps));
    Ok((same, count, keeps))
}

// Of 300 plans many use their quota, and some more often than they may.
#[test]
fn plans_use_quotas_as_often_as_counted(rt: HostRuntime) -> Result<(), Fail> {
    let (mut used, mut broken) = (0u32, 0u32);
    for seed in 0..300u64 {
        let (same, count, keeps) = is_found(rt.alloc(), seed)?;
        assert!(rt; same, "plan {seed}");
        used = used.saturating_add((count > 0) as u32);
        broken = broken.saturating_add(!keeps as u32);
    }
    assert!(rt;
        used > 100 && broken > 50 && broken < used,
        "{used}, {broken}"
    );
    Ok(())
}

// How often the flights of some fliers use a quota, where it is known which of them start on its day.
fn short_uses(times: &Times, on_day: &[bool; 8], fliers: &[u32; 8], below: i64) -> u64 {
    let mut count = 0u64;
    for b in 0..8 {
        if let Some(a) = followed(fliers, b) {
            let is_short = times[a].1.saturating_add(below) > times[b].0;
            count = count.saturating_add((on_day[b] && is_short) as u64);
        }
    }
    count
}

// The fliers that come next in the order of all.
fn go_on(fliers: &mut [u32; 8]) {
    for flier in fliers.iter_mut() {
        if *flier < 2 {
            *flier = flier.saturating_add(1);
            return;
        }
        *flier = 0;
    }
}

// The fewest uses of all plans, one after the other.
fn fewest_uses(times: &Times, quota: &Quota) -> u64 {
    let mut on_day = [false; 8];
    for b in 0..8 {
        on_day[b] = quota.airport == 0 && is_on_day(times[b].0, quota.day);
    }
    let (mut fliers, mut fewest) = ([0u32; 8], u64::MAX);
    for _plan in 0..6561u32 {
        fewest = fewest.min(short_uses(times, &on_day, &fliers, quota.below));
        go_on(&mut fliers);
    }
    fewest
}

// How often every plan by chance uses its quota at least; and whether that was found.
fn is_least(alloc: Global, seed: u64) -> Result<(bool, u64), Fail> {
    let mut chance = Dice::new(seed);
    let dice = &mut chance;
    let times = times_by_chance(dice);
    let quota = quota_by_chance(dice);
    let book = plain_book(alloc, &flights(&times), &[0, 0, 0], 0)?;
    let net = Net::new(alloc, &book)?;
    let fewest = fewest_uses(&times, &quota);
    Ok((least_uses(alloc, &book, &net, &quota)? == fewest, fewest))
}

// Where all flights may follow one another a matching finds exactly the fewest.
#[test]
fn least_uses_are_the_fewest_of_all_plans(rt: HostRuntime) -> Result<(), Fail> {
    let mut used = 0u32;
    for seed in 0..100u64 {
        let (same, fewest) = is_least(rt.alloc(), seed)?;
        assert!(rt; same, "book {seed}: {fewest}");
        used = used.saturating_add((fewest > 0) as u32);
    }
    assert!(rt; used > 10, "{used}");
    Ok(())
}
