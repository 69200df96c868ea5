//! Questions by chance: a book, facts and duals.

use branch_marks::Fact;
use dice::Dice;
use small_books::{SmallActivity, bands, book, counters, flight};
use std::alloc::Global;
use std::test::Fail;
use tail_book::*;

fn row(dice: &mut Dice, start: i64) -> SmallActivity {
    let leg = (dice.below(2), dice.below(2));
    let row = flight(leg, (start, start.saturating_add(60)));
    SmallActivity {
        flight: leg.0 != leg.1 || dice.below(2) > 0,
        resets: dice.below(6) == 0,
        ..row
    }
}

// Six activities, in order of their starts.
fn rows(dice: &mut Dice, alloc: Global) -> Result<Vec<SmallActivity>, Memory> {
    let (mut rows, mut start) = (Vec::new(alloc), 100i64);
    for _ in 0..6 {
        rows.push(row(dice, start))?;
        start = start.saturating_add(40 + dice.below(80) as i64);
    }
    Ok(rows)
}

// Minutes or days, their limit and their stop.
fn counted(dice: &mut Dice) -> (CounterKind, i64, i64) {
    let (kind, limit) = if dice.below(2) > 0 {
        (CounterKind::Minutes, 60 + 60 * dice.below(3) as i64)
    } else {
        (CounterKind::Days, 1440)
    };
    (kind, limit, 30 + dice.below(100) as i64)
}

fn landings(dice: &mut Dice) -> (CounterKind, i64, i64) {
    let (limit, stop) = (1 + dice.below(4) as i64, 30 + dice.below(60) as i64);
    (CounterKind::Landings, limit, stop)
}

// What a gap of up to 45 minutes costs, and one of up to 200.
fn two_bands(dice: &mut Dice) -> [(i64, u64); 2] {
    [(45, dice.below(50) as u64), (200, dice.below(100) as u64)]
}

// Two counters, landings and minutes or days, and two bands.
fn chance_book(dice: &mut Dice, alloc: Global) -> Result<Book, Fail> {
    let rows = rows(dice, alloc)?;
    let counters = counters(alloc, 0, &[landings(dice), counted(dice)])?;
    let bands = bands(alloc, &two_bands(dice))?;
    book(alloc, &rows, &[0, 1], 30, counters, bands)
}

fn fact(dice: &mut Dice) -> Fact {
    let (k, a, b) = (dice.below(2), dice.below(6), dice.below(6));
    match dice.below(5) {
        0 => Fact::Bar(k, a),
        1 => Fact::Must(k, a),
        2 => Fact::Tie(a, b),
        _ => Fact::Cut(a, b),
    }
}

// At most three facts.
fn facts(dice: &mut Dice, alloc: Global) -> Result<Vec<Fact>, Memory> {
    let mut facts = Vec::new(alloc);
    for _ in 0..dice.below(4) {
        facts.push(fact(dice))?;
    }
    Ok(facts)
}

// Duals of both signs.
fn duals(dice: &mut Dice, alloc: Global) -> Result<Vec<i64>, Memory> {
    let mut duals = Vec::new(alloc);
    for _ in 0..6 {
        duals.push(dice.below(300_000) as i64 - 100_000)?;
    }
    Ok(duals)
}

/// A book with facts and duals to ask about, and some slack or none.
#[derive(Drop)]
pub struct Question {
    pub book: Book,
    pub facts: Vec<Fact>,
    pub duals: Vec<i64>,
    pub slack: u32,
}

/// The question of a seed.
pub fn make_question(alloc: Global, seed: u64) -> Result<Question, Fail> {
    let mut dice = Dice::new(seed);
    let book = chance_book(&mut dice, alloc)?;
    let (facts, duals) = (facts(&mut dice, alloc)?, duals(&mut dice, alloc)?);
    let slack = 50_000 * dice.below(2);
    Ok(Question {
        book,
        facts,
        duals,
        slack,
    })
}
