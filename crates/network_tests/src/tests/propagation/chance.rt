//! Books and marks by chance, beside a plain and slow program: each fact that is added follows in its turn, those about all
//! aircraft wait for the floors, nothing is left, and no legal plan that keeps the marks is lost.

ghost use Rattle.std.specs.Prelude.{◌<◌};

use super::closed;
use crate::tests::books::{Count, counters, made};
use crate::tests::plain_facts::{let_end, let_fly, let_go};
use branch_marks::Fact;
use dice::Dice;
use propagator::Closed;
use small_books::{SmallActivity, activities, flight, rules, tails};
use std::alloc::Global;
use std::test::Fail;
use tail_book::*;
use turn_rules::{allowed, link};

mod kept;

// A fact, of which some are not of the book.
fn fact_by(dice: &mut Dice) -> Fact {
    match dice.below(6) {
        0 => Fact::Bar(dice.below(3), dice.below(6)),
        1 | 2 => Fact::Must(dice.below(3), dice.below(6)),
        3 => Fact::Tie(dice.below(6), dice.below(6)),
        _ => Fact::Cut(dice.below(6), dice.below(6)),
    }
}

fn facts_by(alloc: Global, dice: &mut Dice) -> Result<Vec<Fact>, Memory> {
    let mut facts = Vec::new(alloc);
    for _ in 0..dice.below(4) {
        facts.push(fact_by(dice))?;
    }
    Ok(facts)
}

// Minutes flown and landings, cleared by stops at ARN, and at both airports.
fn two_counters(alloc: Global, dice: &mut Dice) -> Result<Vec<Counter>, Memory> {
    let stop = 30 + dice.below(120) as i64;
    let (limit, most) = (120 + dice.below(60) as i64, 1 + dice.below(3) as i64);
    let rows: &[Count] = &[
        (CounterKind::Minutes, limit, &[0], stop),
        (CounterKind::Landings, most, &[0, 1], 100),
    ];
    counters(alloc, rows)
}

// Puts an aircraft at one of two airports, with some minutes and maybe a landing.
fn place_tail(tail: &mut Tail, dice: &mut Dice) -> Result<(), Memory> {
    let (minutes, landings) = (dice.below(60) as i64, dice.below(2) as i64);
    tail.carry.clear();
    tail.carry.extend_from_slice(&[minutes, landings])?;
    tail.at = dice.below(2);
    Ok(())
}

// One to three aircraft.
fn few_tails(alloc: Global, dice: &mut Dice) -> Result<Vec<Tail>, Memory> {
    let (mut fleet, many) = (tails(alloc, &[0, 0, 0], 2)?, 1 + dice.below(3) as usize);
    for k in 0..3 {
        if let Some(tail) = fleet.get_mut(k) {
            place_tail(tail, dice)?;
        }
    }
    fleet.truncate(many);
    Ok(fleet)
}

// Six flights of up to an hour and a half, each a while after the one before.
fn six_flights(alloc: Global, dice: &mut Dice) -> Result<Vec<SmallActivity>, Memory> {
    let (mut rows, mut start) = (Vec::new(alloc), 1000i64);
    for _ in 0..6 {
        let (from, long) = (dice.below(2), 20 + dice.below(70) as i64);
        rows.push(flight((from, 1 - from), (start, start.saturating_add(long))))?;
        start = start.saturating_add(1 + dice.below(120) as i64);
    }
    Ok(rows)
}

fn book_by_chance(alloc: Global, dice: &mut Dice) -> Result<Book, Fail> {
    let rules = rules(alloc, 20, two_counters(alloc, dice)?, Vec::new(alloc))?;
    let fleet = few_tails(alloc, dice)?;
    made(activities(alloc, &six_flights(alloc, dice)?)?, fleet, rules)
}

// Two values, of the hours and of the landings.
type Pair = (i64, i64);

fn free(book: &Book, k: u32, from: Place) -> i64 {
    match from {
        Place::Carry => match book.tails.get(k as usize) {
            Some(tail) => tail.ready,
            None => 0,
        },
        Place::After(x) => match book.activities.get(x as usize) {
            Some(activity) => activity.end,
            None => 0,
        },
    }
}

fn carried(book: &Book, k: u32) -> Pair {
    match book.tails.get(k as usize) {
        Some(tail) => pair_of(&tail.carry),
        None => (0, 0),
    }
}

fn pair_of(values: &[i64]) -> Pair {
    if values.len() == 2 {
        (values[0], values[1])
    } else {
        (0, 0)
    }
}

// What a counter is after an activity, and whether that is within its limit.
fn counted(book: &Book, k: u32, from: Place, b: u32, c: usize, value: i64) -> (i64, bool) {
    let (Some(counter), Some(activity)) = (
        book.rules.counters.get(c),
        book.activities.get(b as usize),
    ) else {
        return (0, false);
    };
    let stop = activity.start.saturating_sub(free(book, k, from));
    let kept = if counter.bases.contains(&activity.from) && stop >= counter.stop {
        0
    } else {
        value
    };
    let more = if c == 0 {
        activity.end.saturating_sub(activity.start)
    } else {
        1
    };
    let value = kept.saturating_add(more);
    (value, value <= counter.limit)
}

fn stepped(book: &Book, k: u32, from: Place, b: u32, values: Pair) -> Option<Pair> {
    let (hours, fresh) = counted(book, k, from, b, 0, values.0);
    let (landings, few) = counted(book, k, from, b, 1, values.1);
    if fresh && few {
        Some((hours, landings))
    } else {
        None
    }
}

fn alive(book: &Book, facts: &[Fact], k: u32, a: u32) -> bool {
    if k as usize >= book.tails.len() || a as usize >= book.activities.len() {
        return false;
    }
    let_fly(facts, k, a) && allowed(book, k, a)
}

fn linked(book: &Book, k: u32, from: Place, b: u32) -> bool {
    if k as usize >= book.tails.len() || b as usize >= book.activities.len() {
        return false;
    }
    match from {
        Place::Carry => link(book, k, Place::Carry, b),
        Place::After(x) => (x as usize) < book.activities.len()
            && link(book, k, Place::After(x), b),
    }
}

fn usable(book: &Book, facts: &[Fact], k: u32, from: Place, b: u32) -> bool {
    let before = match from {
        Place::Carry => true,
        Place::After(x) => alive(book, facts, k, x),
    };
    before && let_go(facts, k, from, b) && alive(book, facts, k, b) && linked(book, k, from, b)
}

// What a place brings to an activity.
fn brought(
    book: &Book,
    facts: &[Fact],
    k: u32,
    from: Place,
    b: u32,
    floor: Option<Pair>,
) -> Option<Pair> {
    let values = floor?;
    if usable(book, facts, k, from, b) {
        stepped(book, k, from, b, values)
    } else {
        None
    }
}

fn least(one: Option<Pair>, other: Option<Pair>) -> Option<Pair> {
    match (one, other) {
        (Some(v), Some(w)) => Some((v.0.min(w.0), v.1.min(w.1))),
        (None, floor) => floor,
        (floor, None) => floor,
    }
}

// The floors of an aircraft at each activity.
type Floors = [Option<Pair>; 6];

fn floor_in(floors: &Floors, a: u32) -> Option<Pair> {
    floors.get(a as usize).copied().flatten()
}

// The floor at an activity, by those at the activities before it.
fn floor_at(book: &Book, facts: &[Fact], k: u32, b: u32, floors: &Floors) -> Option<Pair> {
    let mut floor = brought(book, facts, k, Place::Carry, b, Some(carried(book, k)));
    for x in 0..b {
        let one = brought(book, facts, k, Place::After(x), b, floor_in(floors, x));
        floor = least(floor, one);
    }
    floor
}

fn floor(book: &Book, facts: &[Fact], k: u32, a: u32) -> Option<Pair> {
    let mut floors = [None; 6];
    for b in 0..6 {
        floors[b] = floor_at(book, facts, k, b as u32, &floors);
    }
    floor_in(&floors, a)
}

fn goes_on(book: &Book, facts: &[Fact], k: u32, a: u32, floor: Option<Pair>) -> bool {
    for b in 0..6 {
        if brought(book, facts, k, Place::After(a), b, floor).is_some() {
            return true;
        }
    }
    false
}

// Dead on arrival, or a dead end.
fn is_dead(book: &Book, facts: &[Fact], k: u32, a: u32) -> bool {
    if !alive(book, facts, k, a) {
        return false;
    }
    let floor = floor(book, facts, k, a);
    floor.is_none() || (!let_end(facts, k, Place::After(a)) && !goes_on(book, facts, k, a, floor))
}

fn is_only_carrier(book: &Book, facts: &[Fact], k: u32, a: u32) -> bool {
    for j in 0..3 {
        if facts.contains(&Fact::Must(j, a)) || (j != k && alive(book, facts, j, a)) {
            return false;
        }
    }
    alive(book, facts, k, a)
}

fn is_dead_connection(book: &Book, facts: &[Fact], a: u32, b: u32) -> bool {
    let mut used = false;
    for k in 0..3 {
        if usable(book, facts, k, Place::After(a), b) {
            let floor = floor(book, facts, k, a);
            if brought(book, facts, k, Place::After(a), b, floor).is_some() {
                return false;
            }
            used = true;
        }
    }
    used && !facts.contains(&Fact::Cut(a, b))
}

fn follows(book: &Book, facts: &[Fact], fact: Fact) -> bool {
    match fact {
        Fact::Bar(k, a) => is_dead(book, facts, k, a),
        Fact::Must(k, a) => is_only_carrier(book, facts, k, a),
        Fact::Cut(a, b) => is_dead_connection(book, facts, a, b),
        Fact::Tie(_, _) => false,
    }
}

// Whether something is dead for some aircraft.
fn is_any_dead(book: &Book, facts: &[Fact]) -> bool {
    for k in 0..3 {
        for a in 0..6 {
            if is_dead(book, facts, k, a) {
                return true;
            }
        }
    }
    false
}

// Whether a carrier or a dead connection follows at an activity.
fn is_open_at(book: &Book, facts: &[Fact], a: u32) -> bool {
    for k in 0..3 {
        if is_only_carrier(book, facts, k, a) {
            return true;
        }
    }
    for b in 0..6 {
        if is_dead_connection(book, facts, a, b) {
            return true;
        }
    }
    false
}

// Whether anything follows at all.
fn is_open(book: &Book, facts: &[Fact]) -> bool {
    for a in 0..6 {
        if is_open_at(book, facts, a) {
            return true;
        }
    }
    is_any_dead(book, facts)
}

// Whether a fact follows in its turn: those about all aircraft only where nothing is dead, and none twice.
fn follows_now(book: &Book, facts: &[Fact], fact: Fact) -> bool {
    let waits = match fact {
        Fact::Bar(_, _) => false,
        _ => is_any_dead(book, facts),
    };
    !waits && !facts.contains(&fact) && follows(book, facts, fact)
}

// Whether the facts follow one after the other in their turns, and nothing is left.
fn is_closed(alloc: Global, book: &Book, facts: &[Fact], added: &[Fact]) -> Result<bool, Memory> {
    let mut so_far = Vec::from_slice(alloc, facts)?;
    for fact in added {
        if !follows_now(book, &so_far, *fact) {
            return Ok(false);
        }
        so_far.push(*fact)?;
    }
    Ok(!is_open(book, &so_far))
}

// The least activity that nobody may fly.
fn least_hole(book: &Book, facts: &[Fact]) -> Closed {
    for a in 0..6 {
        if !alive(book, facts, 0, a) && !alive(book, facts, 1, a) && !alive(book, facts, 2, a) {
            return Closed::Hole(a);
        }
    }
    Closed::Fixed
}

// A plan as the aircraft of each activity.
type Fliers = [u32; 6];

fn flier(fliers: &Fliers, a: u32) -> u32 {
    fliers.get(a as usize).copied().unwrap_or(9)
}

// How many plans there are for so many aircraft.
fn plans_of(many: u32) -> u32 {
    match many {
        1 => 1,
        2 => 64,
        _ => 729,
    }
}

// The plan of a number: its digits, of which there are as many as aircraft.
fn plan(number: u32, many: u32) -> Fliers
    requires { 0 < many }
{
    let (mut fliers, mut left) = ([0; 6], number);
    for a in 0..6 {
        fliers[a] = left % many;
        left = left / many;
    }
    fliers
}

fn joined(fliers: &Fliers, a: u32, b: u32) -> bool {
    for c in 0..6 {
        if a < c && c < b && flier(fliers, c) == flier(fliers, a) {
            return false;
        }
    }
    a < b && flier(fliers, a) == flier(fliers, b)
}

fn holds(fact: &Fact, fliers: &Fliers) -> bool {
    match *fact {
        Fact::Bar(k, a) => flier(fliers, a) != k,
        Fact::Must(k, a) => flier(fliers, a) == k,
        Fact::Cut(a, b) => !joined(fliers, a, b),
        Fact::Tie(a, b) => joined(fliers, a, b),
    }
}

fn hold_all(facts: &[Fact], fliers: &Fliers) -> bool {
    for fact in facts {
        if !holds(fact, fliers) {
            return false;
        }
    }
    true
}

fn is_legal_route(book: &Book, fliers: &Fliers, k: u32) -> bool {
    let (mut from, mut values) = (Place::Carry, carried(book, k));
    for a in 0..6 {
        if flier(fliers, a) == k {
            let Some(next) = stepped(book, k, from, a, values) else {
                return false;
            };
            if !linked(book, k, from, a) {
                return false;
            }
            (from, values) = (Place::After(a), next);
        }
    }
    true
}

// How many legal plans keep the marks, and whether one of them does not keep what was added.
fn plans(book: &Book, facts: &[Fact], added: &[Fact]) -> (u32, bool) {
    let (many, mut found, mut lost) = ((book.tails.len() as u32).max(1), 0u32, false);
    for number in 0..plans_of(many) {
        let fliers = plan(number, many);
        let legal = is_legal_route(book, &fliers, 0)
            && is_legal_route(book, &fliers, 1)
            && is_legal_route(book, &fliers, 2);
        if legal && hold_all(facts, &fliers) {
            found = found.saturating_add(1);
            lost |= !hold_all(added, &fliers);
        }
    }
    (found, lost)
}

// The facts of the list that are of the book.
fn of_book(alloc: Global, book: &Book, facts: &[Fact]) -> Result<Vec<Fact>, Memory> {
    let mut kept = Vec::new(alloc);
    for fact in facts {
        if fact.is_of(book) && !kept.contains(fact) {
            kept.push(*fact)?;
        }
    }
    Ok(kept)
}

// How many of each kind were added, how many plans there were, and how many times each activity had somebody.
#[derive(Debug, Drop)]
struct Seen {
    bars: u32,
    musts: u32,
    cuts: u32,
    plans: u32,
    fixed: u32,
}

impl Seen {
    fn new() -> Seen {
        Seen {
            bars: 0,
            musts: 0,
            cuts: 0,
            plans: 0,
            fixed: 0,
        }
    }

    fn count(&mut self, fact: &Fact) {
        match *fact {
            Fact::Bar(_, _) => self.bars = self.bars.saturating_add(1),
            Fact::Must(_, _) => self.musts = self.musts.saturating_add(1),
            _ => self.cuts = self.cuts.saturating_add(1),
        }
    }

    fn note(&mut self, added: &[Fact], plans: u32, answer: Closed) {
        for fact in added {
            self.count(fact);
        }
        self.plans = self.plans.saturating_add(plans);
        self.fixed = self.fixed.saturating_add((answer == Closed::Fixed) as u32);
    }

    fn is_often(&self) -> bool {
        self.bars > 1000 && self.musts > 100 && self.cuts > 20
    }

    fn is_varied(&self) -> bool {
        self.is_often() && self.plans > 20 && self.fixed > 20 && self.fixed < 280
    }
}

// What is found of a book: whether each fact that was added followed in its turn and none is left, whether each legal plan
// that keeps the marks keeps these facts, and whether the answer is right.
#[derive(PartialEq, Drop)]
struct Judged {
    follow: bool,
    keep: bool,
    told: bool,
}

const RIGHT: Judged = Judged {
    follow: true,
    keep: true,
    told: true,
};

// The facts of two lists.
fn both(alloc: Global, facts: &[Fact], added: &[Fact]) -> Result<Vec<Fact>, Memory> {
    let mut all = Vec::from_slice(alloc, facts)?;
    all.extend_from_slice(added)?;
    Ok(all)
}

// What is found of a book with some facts, to which these were added, and what there was to be found.
fn judge(
    alloc: Global,
    book: &Book,
    facts: &[Fact],
    added: &[Fact],
    answer: Closed,
    seen: &mut Seen,
) -> Result<Judged, Memory> {
    let (found, lost) = plans(book, facts, added);
    let all = both(alloc, facts, added)?;
    seen.note(added, found, answer);
    Ok(Judged {
        follow: is_closed(alloc, book, facts, added)?,
        keep: !lost,
        told: answer == least_hole(book, &all),
    })
}

// The same of what follows from the facts.
fn judge_closed(
    alloc: Global,
    book: &Book,
    facts: &[Fact],
    seen: &mut Seen,
) -> Result<Judged, Memory> {
    let mut added = Vec::new(alloc);
    let answer = closed(alloc, book, facts, &mut added)?;
    judge(alloc, book, facts, &added, answer, seen)
}

// The same of those of these facts that are of the book.
fn judge_facts(
    alloc: Global,
    book: &Book,
    facts: &[Fact],
    seen: &mut Seen,
) -> Result<Judged, Memory> {
    let facts = of_book(alloc, book, facts)?;
    judge_closed(alloc, book, &facts, seen)
}

fn judge_next(
    alloc: Global,
    book: &Book,
    dice: &mut Dice,
    seen: &mut Seen,
) -> Result<Judged, Memory> {
    let facts = facts_by(alloc, dice)?;
    judge_facts(alloc, book, &facts, seen)
}

fn judge_by_chance(alloc: Global, dice: &mut Dice, seen: &mut Seen) -> Result<Judged, Fail> {
    let book = book_by_chance(alloc, dice)?;
    Ok(judge_next(alloc, &book, dice, seen)?)
}

// 300 books with up to three facts. Each kind of fact is added often, there are plans to be lost, and both answers come.
#[test]
fn closed_as_the_rules_say(rt: HostRuntime) -> Result<(), Fail> {
    let (mut dice, mut seen) = (Dice::new(3), Seen::new());
    for round in 0..300 {
        let judged = judge_by_chance(rt.alloc(), &mut dice, &mut seen)?;
        assert!(rt; judged == RIGHT, "{round}");
    }
    assert!(rt; seen.is_varied(), "{seen:?}");
    Ok(())
}
