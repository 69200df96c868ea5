//! Repairs beside a plain enumeration of who flies what, on books by chance with published plans by chance: activities are
//! left out there, stand twice, or stand in the line of an aircraft that is gone.

ghost use Rattle.tail_book.specs.CostTable.{IsTableFor};

use super::book_by_chance;
use crate::moments::two;
use dice::Dice;
use plan_audit::audit_plan;
use plan_repair::{REPAIR_LIMIT, Repair, homes, repair};
use plan_report::read_plan;
use small_books::costs;
use std::alloc::Global;
use tail_book::*;

// The number of nobody among homes.
const NOBODY: u32 = 99;

// A published plan as its file, and who has each id at home in it.
#[derive(Drop)]
struct Published {
    text: String,
    homes: [u32; 10],
}

// Adds the line of an aircraft, with some of the ids F00 to F09.
fn push_line(
    published: &mut Published,
    dice: &mut Dice,
    number: u32,
    counts: bool,
) -> Result<(), Memory> {
    let [tens, ones] = two(number);
    for part in &["A", tens, ones, ":"] {
        published.text.push_str(part)?;
    }
    for id in 0..10u32 {
        if dice.below(3) == 0 {
            let [tens, ones] = two(id);
            for part in &[" F", tens, ones] {
                published.text.push_str(part)?;
            }
            if counts && published.homes[id as usize] == NOBODY {
                published.homes[id as usize] = number;
            }
        }
    }
    published.text.push_str("\n")?;
    Ok(())
}

// A plan for so many aircraft: one that is gone stands first in it, and the first of them stands twice.
fn published_for(alloc: Global, dice: &mut Dice, aircraft: u32) -> Result<Published, Memory> {
    let mut published = Published {
        text: String::from_str(alloc, "repaired 3 7\n")?,
        homes: [NOBODY; 10],
    };
    push_line(&mut published, dice, 50, false)?;
    for number in 0..aircraft {
        push_line(&mut published, dice, number, true)?;
    }
    push_line(&mut published, dice, 0, false)?;
    Ok(published)
}

// The number that the id of an activity bears.
fn id_number(book: &Book, a: usize) -> usize {
    if a >= book.activities.len() {
        return 0;
    }
    match book.activities[a].id.as_bytes() {
        [_, tens, ones] => {
            let number = tens.wrapping_sub(b'0').wrapping_mul(10);
            number.wrapping_add(ones.wrapping_sub(b'0')) as usize % 10
        }
        _ => 0,
    }
}

// How many activities these fliers move.
fn moves_of(book: &Book, published: &Published, fliers: &[u32]) -> u64 {
    let mut count = 0u64;
    for (a, flier) in fliers.iter().enumerate() {
        let home = published.homes[id_number(book, a).min(9)];
        if home != NOBODY && home != *flier {
            count = count.saturating_add(1);
        }
    }
    count
}

// The fliers of the plan of this number: its digits in the base of the aircraft.
fn fliers_of(alloc: Global, n: usize, m: u32, number: u32) -> Result<Vec<u32>, Memory> {
    let mut fliers = Vec::new(alloc);
    let (base, mut rest) = (m.max(1), number);
    for _ in 0..n {
        fliers.push(rest % base)?;
        rest /= base;
    }
    Ok(fliers)
}

// What these fliers' plan costs, if it is legal.
fn cost_of(
    alloc: Global,
    book: &Book,
    table: &CostTable,
    fliers: &[u32],
) -> Result<Option<u64>, Memory>
    requires { IsTableFor book.now table.now }
{
    if fliers.len() > 100 {
        return Ok(None);
    }
    let plan = plan_by(alloc, fliers, book.tails.len() as u32)?;
    audit_plan(alloc, book, table, &plan)
}

// What a plan comes to: how many activities it moves, and what it costs.
#[derive(Clone, Copy, PartialEq, Eq, Debug)]
struct Worth {
    moves: u64,
    cost: u64,
}

// What no plan comes to.
const NO_PLAN: Worth = Worth {
    moves: u64::MAX,
    cost: u64::MAX,
};

fn is_better(one: Worth, other: Worth) -> bool {
    one.moves < other.moves || (one.moves == other.moves && one.cost < other.cost)
}

// The better of the best so far and the plan of these fliers.
fn better_of(
    alloc: Global,
    book: &Book,
    table: &CostTable,
    published: &Published,
    fliers: &[u32],
    best: Worth,
) -> Result<Worth, Memory>
    requires { IsTableFor book.now table.now }
{
    let moves = moves_of(book, published, fliers);
    if moves > best.moves {
        return Ok(best);
    }
    match cost_of(alloc, book, table, fliers)? {
        Some(cost) if is_better(Worth { moves, cost }, best) => Ok(Worth { moves, cost }),
        _ => Ok(best),
    }
}

// The fewest moves of a legal plan, and the least cost with these, by trying all plans.
fn listed(
    alloc: Global,
    book: &Book,
    table: &CostTable,
    published: &Published,
) -> Result<Worth, Memory>
    requires { IsTableFor book.now table.now }
{
    let (n, m) = (book.activities.len(), book.tails.len() as u32);
    let mut plans = 1u32;
    for _ in 0..n {
        plans = plans.saturating_mul(m);
    }
    let mut best = NO_PLAN;
    for number in 0..plans {
        let fliers = fliers_of(alloc, n, m, number)?;
        best = better_of(alloc, book, table, published, &fliers, best)?;
    }
    Ok(best)
}

// What the repaired plan comes to, as it is counted again.
fn worth_of(
    alloc: Global,
    book: &Book,
    table: &CostTable,
    published: &Published,
    plan: &Plan,
) -> Result<Worth, Memory>
    requires { IsTableFor book.now table.now }
{
    let mut moves = 0u64;
    for k in 0..plan.0.len() {
        for a in &plan.0[k].0 {
            let home = published.homes[id_number(book, *a as usize).min(9)];
            if home != NOBODY && home as usize != k {
                moves = moves.saturating_add(1);
            }
        }
    }
    match audit_plan(alloc, book, table, plan)? {
        Some(cost) => Ok(Worth { moves, cost }),
        None => Ok(NO_PLAN),
    }
}

// What the repair of a published plan comes to, as it says itself and as it is counted again.
fn repaired(
    alloc: Global,
    book: &Book,
    table: &CostTable,
    published: &Published,
) -> Result<[Worth; 2], Memory>
    requires { IsTableFor book.now table.now }
{
    let Ok(raw) = read_plan(alloc, published.text.as_bytes()) else {
        return Err(Memory);
    };
    if book.activities.len() > REPAIR_LIMIT {
        return Err(Memory);
    }
    let at_home = homes(alloc, book, &raw)?;
    match repair(alloc, book, &at_home)? {
        Repair::Done { plan, moves, cost } => {
            let counted = worth_of(alloc, book, table, published, &plan)?;
            Ok([Worth { moves, cost }, counted])
        }
        Repair::Infeasible => Ok([NO_PLAN, NO_PLAN]),
    }
}

// What the least repair of a plan by chance comes to, where all agree, and nothing else.
fn agreed(alloc: Global, dice: &mut Dice, book: &Book) -> Result<Option<Worth>, Memory> {
    let table = costs(alloc, book)?;
    let published = published_for(alloc, dice, book.tails.len() as u32)?;
    let [said, counted] = repaired(alloc, book, &table, &published)?;
    let least = listed(alloc, book, &table, &published)?;
    if said == least && counted == least {
        Ok(Some(least))
    } else {
        Ok(None)
    }
}

// The same of the next book.
fn next_agreed(alloc: Global, dice: &mut Dice) -> Option<Worth> {
    match book_by_chance(alloc, dice) {
        Some(book) => agreed(alloc, dice, &book).unwrap_or(None),
        None => None,
    }
}

// Three hundred books with a plan each, of which many are repaired with moves, many without, and many not at all.
#[test]
fn repairs_agree_with_the_enumeration(rt: HostRuntime) {
    let (mut moved, mut stayed, mut dice) = (0u32, 0u32, Dice::new(54));
    for turn in 0..300u32 {
        let found = next_agreed(rt.alloc(), &mut dice);
        assert!(rt; found.is_some(), "book {turn}");
        if let Some(worth) = found {
            if worth.moves == 0 {
                stayed = stayed.saturating_add(1);
            } else if worth.moves < 20 {
                moved = moved.saturating_add(1);
            }
        }
    }
    assert!(rt;
        30 < moved && moved < 270,
        "{moved} with moves, {stayed} without"
    );
}
