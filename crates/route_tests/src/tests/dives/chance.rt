//! Dives by chance: the answer ends one of the dives of the definition. The judge walks all of them, over all least routes that
//! tie, with all routes by enumeration.

ghost use Rattle.std.specs.Prelude.{◌≡◌, ◌<◌, ◌*◌, length};
ghost use Rattle.tail_book.specs.Lookup.{activities, aircraft};
ghost use Rattle.branch_marks.specs.inside.MarkTables.{AreMarksOf};
ghost use Rattle.plan_finder.specs.Problem.{IsProblem};

use crate::tests::asks::{Ask, answer_to, has_aircraft};
use crate::tests::books::tight;
use crate::tests::questions::Question;
use crate::tests::weights::{bits, weigh_all};
use branch_marks::{Fact, Marks};
use dice::Dice;
use dive_heuristic::{DeadEnd, Dive, DiveStep, dive};
use plan_finder::Problem;
use propagator::{Closed, close};
use small_books::{SmallActivity, book, flight};
use std::alloc::Global;
use std::test::Fail;
use tail_book::*;

// Five flights of half an hour or an hour between three airports, in order of their starts. Two aircraft can fly them, as
// far as places and times go.
fn rows(dice: &mut Dice, alloc: Global) -> Result<Vec<SmallActivity>, Memory> {
    let (mut rows, mut start) = (Vec::new(alloc), 100i64);
    let (mut first, mut second) = ((0u32, 0i64), (0u32, 0i64));
    for _ in 0..5 {
        start = start.saturating_add(10 + dice.below(40) as i64);
        let (from, ready) = if dice.below(2) > 0 { first } else { second };
        start = start.max(ready.saturating_add(10));
        let to = (from % 3 + 1 + dice.below(2)) % 3;
        let end = start.saturating_add(30 + 30 * dice.below(2) as i64);
        rows.push(flight((from, to), (start, end)))?;
        if (from, ready) == first {
            first = (to, end);
        } else {
            second = (to, end);
        }
    }
    Ok(rows)
}

fn chance_book(dice: &mut Dice, alloc: Global) -> Result<Book, Fail> {
    let (minutes, landings) = (60 + 30 * dice.below(5) as i64, 1 + dice.below(5) as i64);
    let counters = tight(alloc, minutes, landings)?;
    let rows = rows(dice, alloc)?;
    let kinds = if dice.below(2) > 0 {
        [0, 1].as_slice()
    } else {
        [0, 1, 0].as_slice()
    };
    book(alloc, &rows, kinds, 10, counters, Vec::new(alloc))
}

// At most two facts.
fn facts(dice: &mut Dice, alloc: Global) -> Result<Vec<Fact>, Memory> {
    let mut facts = Vec::new(alloc);
    for _ in 0..dice.below(3) {
        let (k, a, b) = (dice.below(2), dice.below(5), dice.below(5));
        let fact = match dice.below(3) {
            0 => Fact::Bar(k, a),
            1 => Fact::Must(k, a),
            _ => Fact::Cut(a, b),
        };
        facts.push(fact)?;
    }
    Ok(facts)
}

// Duals of both signs, and zeros.
fn duals(dice: &mut Dice, alloc: Global) -> Result<Vec<i64>, Memory> {
    let (mut duals, kind) = (Vec::new(alloc), dice.below(3));
    for _ in 0..5 {
        let dual = match kind {
            0 => 0,
            1 => 60_000,
            _ => dice.below(200_000) as i64 - 50_000,
        };
        duals.push(dual)?;
    }
    Ok(duals)
}

// The question of a seed. Dives ask for no slack.
fn make_dive(alloc: Global, seed: u64) -> Result<Question, Fail> {
    let mut dice = Dice::new(seed);
    let book = chance_book(&mut dice, alloc)?;
    let (facts, duals) = (facts(&mut dice, alloc)?, duals(&mut dice, alloc)?);
    Ok(Question {
        book,
        facts,
        duals,
        slack: 0,
    })
}

// Whether a route has an activity. Routes are numbers here, with their activities as bits.
fn has(route: u32, a: u32) -> bool {
    route >> a.min(31) & 1 == 1
}

// In how many of these routes an activity is.
fn holders(routes: &[u32], a: u32) -> usize {
    routes.iter().filter(|route| has(**route, a)).count()
}

// The aircraft that is given an activity: the first whose route has it, or that may fly it where no route has it.
fn chosen(book: &Book, marks: &Marks, routes: &[u32], a: u32, free: bool) -> Option<Fact>
    requires marks { AreMarksOf book.now marks.now }
    requires activity { a < activities book.now }
{
    for (k, route) in (0..3u32).zip(routes) {
        if has_aircraft(book, k) && (has(*route, a) || free && marks.alive(book, k, a)) {
            return Some(Fact::Must(k, a));
        }
    }
    None
}

// The choice where these routes are taken: nothing where each activity is in exactly one.
fn choice(book: &Book, marks: &Marks, routes: &[u32]) -> Option<Fact>
    requires { AreMarksOf book.now marks.now }
{
    for a in 0..book.activities.len() as u32 {
        let count = holders(routes, a);
        if count != 1 {
            let fact = chosen(book, marks, routes, a, count == 0);
            if fact.is_some() {
                return fact;
            }
        }
    }
    None
}

// Adds the facts of these steps to the marks.
fn add_steps(book: &Book, marks: &mut Marks, steps: &[DiveStep]) -> Result<(), Memory>
    requires { AreMarksOf book.now marks.old }
    ensures { AreMarksOf book.now marks.new }
{
    for step in steps {
        let fact = match *step {
            DiveStep::Chosen(fact) => fact,
            DiveStep::Forced(fact) => fact,
        };
        if fact.is_of(book) {
            marks.add(book, fact)?;
        }
    }
    Ok(())
}

// The route that is picked for each aircraft, or nothing past the last pick. Each pick is a number, with the aircraft's
// choice among its ties as a digit.
fn picked(alloc: Global, ties: &[Vec<u32>], pick: usize) -> Result<Option<Vec<u32>>, Memory> {
    let (mut routes, mut rest) = (Vec::new(alloc), pick);
    for k in 0..ties.len() {
        let count = ties[k].len();
        if count == 0 {
            return Ok(None);
        }
        routes.push(ties[k][rest % count])?;
        rest /= count;
    }
    Ok(if rest == 0 { Some(routes) } else { None })
}

// What a route costs an aircraft by the table.
fn route_cost(table: &CostTable, k: u32, route: &[u32]) -> u64
    requires { length table.now.fly ≡ table.now.n * table.now.m }
{
    let mut sum = 0u64;
    for a in route {
        if (k as usize) < table.m && (*a as usize) < table.n {
            sum = sum.saturating_add(table.activity_cost(k, *a));
        }
    }
    sum
}

// Whether the answer is the plan of these routes, with what they cost by the table.
fn is_plan(answer: &Dive, table: &CostTable, routes: &[u32]) -> bool
    requires { length table.now.fly ≡ table.now.n * table.now.m }
{
    let Dive::Plan(plan, cost) = answer else {
        return false;
    };
    if plan.0.len() != routes.len() {
        return false;
    }
    let mut sum = 0u64;
    for ((k, route), number) in (0..3u32).zip(&plan.0).zip(routes) {
        if bits(&route.0) != Some(*number) {
            return false;
        }
        sum = sum.saturating_add(route_cost(table, k, &route.0));
    }
    sum == *cost
}

// Whether the answer is this dead end after these steps.
fn is_dead(answer: &Dive, want: &[DiveStep], dead: DeadEnd) -> bool {
    match answer {
        Dive::Dead { steps, end } => steps.as_slice() == want && *end == dead,
        Dive::Plan(_, _) => false,
    }
}

// Adds what follows from the marks, a step each; the hole, if there is one.
fn add_forced(
    alloc: Global,
    problem: &Problem,
    marks: &mut Marks,
    steps: &mut Vec<DiveStep>,
) -> Result<Option<u32>, Memory>
    requires problem { IsProblem problem.now }
    requires marks { AreMarksOf problem.now.book.now marks.old }
    ensures { AreMarksOf problem.now.book.now marks.new }
{
    let mut forced = Vec::new(alloc);
    let closed = close(alloc, problem.book, problem.net, marks, &mut forced)?;
    for fact in &forced {
        steps.push(DiveStep::Forced(*fact))?;
    }
    match closed {
        Closed::Hole(a) => Ok(Some(a)),
        Closed::Fixed => Ok(None),
    }
}

// The routes of least weight of an aircraft, as numbers.
fn ties_of(
    alloc: Global,
    book: &Book,
    marks: &Marks,
    duals: &[i64],
    k: u32,
) -> Result<Vec<u32>, Memory>
    requires marks { AreMarksOf book.now marks.now }
    requires aircraft { k < aircraft book.now }
{
    let weights = weigh_all(alloc, book, marks, duals, k)?;
    weights.ties(alloc)
}

// The same of each aircraft.
fn add_ties(
    alloc: Global,
    book: &Book,
    marks: &Marks,
    duals: &[i64],
    ties: &mut Vec<Vec<u32>>,
) -> Result<(), Memory>
    requires { AreMarksOf book.now marks.now }
{
    for k in 0..3u32 {
        if has_aircraft(book, k) {
            ties.push(ties_of(alloc, book, marks, duals, k)?)?;
        }
    }
    Ok(())
}

// An aircraft without a route whose dead end the answer is.
fn is_stuck(answer: &Dive, steps: &[DiveStep], ties: &[Vec<u32>]) -> bool {
    for k in 0..ties.len().min(3) {
        if ties[k].is_empty() && is_dead(answer, steps, DeadEnd::Stuck(k as u32)) {
            return true;
        }
    }
    false
}

// Adds what is chosen, over all picks of routes that tie. Whether the answer is the plan of one of them.
fn add_choices(
    alloc: Global,
    problem: &Problem,
    marks: &Marks,
    answer: &Dive,
    ties: &[Vec<u32>],
    facts: &mut Vec<Fact>,
) -> Result<bool, Memory>
    requires problem { IsProblem problem.now }
    requires marks { AreMarksOf problem.now.book.now marks.now }
{
    for pick in 0..64 {
        let Some(routes) = picked(alloc, ties, pick)? else {
            return Ok(false);
        };
        match choice(problem.book, marks, &routes) {
            Some(fact) => facts.push(fact)?,
            None => {
                if is_plan(answer, problem.table, &routes) {
                    return Ok(true);
                }
            }
        }
    }
    Ok(false)
}

// Whether the answer ends after these steps; what is chosen there, if not.
fn ends_here(
    alloc: Global,
    problem: &Problem,
    marks: &Marks,
    duals: &Duals,
    answer: &Dive,
    steps: &[DiveStep],
    facts: &mut Vec<Fact>,
) -> Result<bool, Memory>
    requires problem { IsProblem problem.now }
    requires marks { AreMarksOf problem.now.book.now marks.now }
{
    let mut ties = Vec::new(alloc);
    add_ties(alloc, problem.book, marks, &duals.values, &mut ties)?;
    if is_stuck(answer, steps, &ties) {
        return Ok(true);
    }
    add_choices(alloc, problem, marks, answer, &ties, facts)
}

// Whether the answer ends after these steps and what follows from them. The marks are those of the steps.
fn ends_after(
    alloc: Global,
    problem: &Problem,
    marks: &mut Marks,
    duals: &Duals,
    answer: &Dive,
    steps: &mut Vec<DiveStep>,
    facts: &mut Vec<Fact>,
) -> Result<bool, Memory>
    requires problem { IsProblem problem.now }
    requires marks { AreMarksOf problem.now.book.now marks.old }
{
    add_steps(problem.book, marks, steps)?;
    match add_forced(alloc, problem, marks, steps)? {
        Some(a) => Ok(is_dead(answer, steps, DeadEnd::Hole(a))),
        None => ends_here(alloc, problem, marks, duals, answer, steps, facts),
    }
}

// The steps with each of these chosen behind them.
fn push_lines(
    alloc: Global,
    steps: &[DiveStep],
    facts: &[Fact],
    next: &mut Vec<Vec<DiveStep>>,
) -> Result<(), Memory> {
    for fact in facts {
        let mut line = Vec::from_slice(alloc, steps)?;
        line.push(DiveStep::Chosen(*fact))?;
        next.push(line)?;
    }
    Ok(())
}

// Whether the answer ends after these steps; if not, they go on with what is chosen there.
fn ends_or_goes_on(
    alloc: Global,
    problem: &Problem,
    marks: &Marks,
    duals: &Duals,
    answer: &Dive,
    steps: &mut Vec<DiveStep>,
    next: &mut Vec<Vec<DiveStep>>,
) -> Result<bool, Memory>
    requires problem { IsProblem problem.now }
    requires marks { AreMarksOf problem.now.book.now marks.now }
{
    let mut marks = marks.copy()?;
    let mut facts = Vec::new(alloc);
    let ends = ends_after(alloc, problem, &mut marks, duals, answer, steps, &mut facts)?;
    if !ends {
        push_lines(alloc, steps, &facts, next)?;
    }
    Ok(ends)
}

// Whether the answer ends one of the dives.
fn ends_a_dive(
    alloc: Global,
    problem: &Problem,
    marks: &Marks,
    duals: &Duals,
    answer: &Dive,
) -> Result<bool, Memory>
    requires problem { IsProblem problem.now }
    requires marks { AreMarksOf problem.now.book.now marks.now }
{
    let mut next = Vec::new(alloc);
    next.push(Vec::new(alloc))?;
    for _ in 0..2000 {
        let Some(mut steps) = next.pop() else {
            return Ok(false);
        };
        if ends_or_goes_on(alloc, problem, marks, duals, answer, &mut steps, &mut next)? {
            return Ok(true);
        }
    }
    Ok(false)
}

// Where a dive ends: at a plan, at a hole, or at a stuck aircraft; or as none of the definition does.
#[derive(Clone, Copy)]
enum Ending {
    Wrong,
    Plan,
    Hole,
    Stuck,
}

fn end_of(answer: &Dive) -> Ending {
    match answer {
        Dive::Plan(_, _) => Ending::Plan,
        Dive::Dead {
            end: DeadEnd::Hole(_),
            ..
        } => Ending::Hole,
        Dive::Dead {
            end: DeadEnd::Stuck(_),
            ..
        } => Ending::Stuck,
    }
}

// Where a dive ends.
#[derive(Clone, Copy)]
struct EndsAt;

impl Ask for EndsAt {
    type Answer = Ending;

    fn answer(
        &self,
        alloc: Global,
        problem: &Problem,
        marks: &Marks,
        duals: &Duals,
    ) -> Result<Ending, Memory> {
        let Problem { book, table, net } = *problem;
        let answer = dive(alloc, book, table, net, marks, duals)?;
        match ends_a_dive(alloc, problem, marks, duals, &answer) {
            Ok(true) => Ok(end_of(&answer)),
            Ok(false) => Ok(Ending::Wrong),
            Err(error) => Err(error),
        }
    }
}

// Nothing where the duals are not in the box.
fn judge_dive(alloc: Global, seed: u64) -> Result<Option<Ending>, Fail> {
    let asked = make_dive(alloc, seed)?;
    Ok(answer_to(alloc, &asked, &EndsAt)?)
}

// Of 100 dives some end in a plan, some at a hole, and some at a stuck aircraft; some of the last after a choice.
#[test]
fn as_a_dive_of_the_definition(rt: HostRuntime) -> Result<(), Fail> {
    let (mut plans, mut holes, mut stuck) = (0u32, 0u32, 0u32);
    for seed in 0..100u64 {
        match judge_dive(rt.alloc(), seed)? {
            None | Some(Ending::Wrong) => assert!(rt; false, "seed {seed}"),
            Some(Ending::Plan) => plans = plans.saturating_add(1),
            Some(Ending::Hole) => holes = holes.saturating_add(1),
            Some(Ending::Stuck) => stuck = stuck.saturating_add(1),
        }
    }
    assert!(rt;
        plans > 9 && holes > 9,
        "{plans} plans, {holes} holes, {stuck} stuck"
    );
    Ok(())
}
