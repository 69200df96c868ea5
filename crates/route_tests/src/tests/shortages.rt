//! Why no plan is legal: what is found on books by hand, and on books by chance beside the enumeration, judged by all routes.

ghost use Rattle.std.specs.Prelude.{◌<◌};
ghost use Rattle.tail_book.specs.Lookup.{aircraft};

use super::asks::has_aircraft;
use super::questions::make_question;
use super::weights::{bits, weigh_all};
use branch_marks::Marks;
use plan_enumeration::least_plan;
use shortage_finder::{Cause, FoundShortage, find_shortage};
use small_books::{book, counters, flight, plain_book};
use std::alloc::Global;
use std::test::Fail;
use tail_book::*;

// Whether a number is the most of an aircraft, by all its routes of at most six activities.
fn is_most(
    alloc: Global,
    book: &Book,
    k: u32,
    asked: u32,
    brought: u32,
    most: i64,
) -> Result<bool, Memory> {
    if !has_aircraft(book, k) {
        return Ok(false);
    }
    let marks = Marks::new(alloc, book)?;
    let weights = weigh_all(alloc, book, &marks, &[0, 0, 0, 0, 0, 0], k)?;
    Ok(weights.most(asked, brought) == most)
}

// Whether these are the mosts of all aircraft, and short.
fn is_short(
    alloc: Global,
    book: &Book,
    asked: u32,
    brought: u32,
    mosts: &[i64],
) -> Result<bool, Memory> {
    let mut sum = 0i64;
    for (k, most) in (0..200u32).zip(mosts) {
        if !is_most(alloc, book, k, asked, brought, *most)? {
            return Ok(false);
        }
        sum = sum.saturating_add(*most);
    }
    let due = i64::from(asked.count_ones()).saturating_sub(i64::from(brought.count_ones()));
    Ok(mosts.len() == book.tails.len() && sum < due)
}

// Whether what is found is a shortage by all routes, and its numbers rise.
fn is_true(alloc: Global, book: &Book, found: &FoundShortage) -> Result<bool, Memory> {
    match (bits(&found.asked), bits(&found.brought)) {
        (Some(asked), Some(brought)) => is_short(alloc, book, asked, brought, &found.mosts),
        _ => Ok(false),
    }
}

// What was found of a book: a legal plan, why there is none, neither, or what is wrong.
#[derive(Clone, Copy, PartialEq, Eq, Debug)]
enum Told {
    Plan,
    Cause(Cause),
    Nothing,
    Wrong,
}

// What is told of what is found, where a plan is legal or none.
fn told_found(
    alloc: Global,
    book: &Book,
    found: &FoundShortage,
    has_plan: bool,
) -> Result<Told, Memory> {
    if has_plan || !is_true(alloc, book, found)? {
        return Ok(Told::Wrong);
    }
    Ok(Told::Cause(found.cause))
}

fn told_of(alloc: Global, book: &Book) -> Result<Told, Memory> {
    let has_plan = match least_plan(alloc, book)? {
        Outcome::Optimal(_, _) => true,
        Outcome::Infeasible => false,
        _ => return Ok(Told::Wrong),
    };
    match find_shortage(alloc, book)? {
        Some(found) => told_found(alloc, book, &found, has_plan),
        None if has_plan => Ok(Told::Plan),
        None => Ok(Told::Nothing),
    }
}

// Four books without a plan.
#[derive(Clone, Copy, Debug)]
enum Family {
    // A flight from an airport at which no aircraft is.
    Nobody,
    // Two flights back for one that went there.
    OneThere,
    // Two flights at once for one aircraft.
    AtOnce,
    // There and back twice for one aircraft with three landings, which stops at a base clear or nothing does.
    Landings(bool),
}

// Landings with a limit of three, with a base where nothing lands, or with none.
fn three_landings(alloc: Global, has_base: bool) -> Result<Vec<Counter>, Memory> {
    let mut landings = counters(alloc, 2, &[(CounterKind::Landings, 3, 60)])?;
    for counter in landings.iter_mut() {
        if !has_base {
            counter.bases.clear();
        }
    }
    Ok(landings)
}

fn book_of(alloc: Global, family: Family) -> Result<Book, Fail> {
    match family {
        Family::Nobody => plain_book(alloc, &[flight((3, 0), (360, 420))], &[0], 30),
        Family::OneThere => {
            let rows = [
                flight((0, 1), (360, 420)),
                flight((1, 0), (450, 510)),
                flight((1, 0), (500, 560)),
            ];
            plain_book(alloc, &rows, &[0, 1], 30)
        }
        Family::AtOnce => {
            let rows = [flight((0, 1), (360, 420)), flight((0, 1), (360, 480))];
            plain_book(alloc, &rows, &[1], 30)
        }
        Family::Landings(has_base) => {
            let rows = [
                flight((0, 1), (360, 420)),
                flight((1, 0), (450, 510)),
                flight((0, 1), (600, 660)),
                flight((1, 0), (690, 750)),
            ];
            let landings = three_landings(alloc, has_base)?;
            book(alloc, &rows, &[0], 30, landings, Vec::new(alloc))
        }
    }
}

// Whether this is found of a family, with these asked and brought activities as bits, and is a shortage by all routes.
fn is_found(
    alloc: Global,
    family: Family,
    cause: Cause,
    asked: u32,
    brought: u32,
) -> Result<bool, Fail> {
    let book = book_of(alloc, family)?;
    match find_shortage(alloc, &book)? {
        Some(it) => Ok(
            it.cause == cause
                && bits(&it.asked) == Some(asked)
                && bits(&it.brought) == Some(brought)
                && is_true(alloc, &book, &it)?,
        ),
        None => Ok(false),
    }
}

// Of the four flights there and back the two back are enough: whoever flies both has four landings. Where counting shows it, all four
// are told.
#[test]
fn each_family_has_its_cause(rt: HostRuntime) -> Result<(), Fail> {
    for (family, cause, asked, brought) in [
        (Family::Nobody, Cause::Alone, 1, 0),
        (Family::OneThere, Cause::Airport, 6, 1),
        (Family::AtOnce, Cause::Crowd, 3, 0),
        (Family::Landings(true), Cause::Counter(0), 10, 0),
        (Family::Landings(false), Cause::Counter(0), 15, 0),
    ] {
        assert!(rt;
            is_found(rt.alloc(), family, cause, asked, brought)?,
            "{family:?}"
        );
    }
    Ok(())
}

// How many books had which answer, and the last seed of a wrong one.
#[derive(Clone, Copy, Debug)]
struct Count {
    plans: u32,
    causes: u32,
    nothing: u32,
    wrong: Option<u64>,
}

impl Count {
    fn add(&mut self, seed: u64, told: Told) {
        match told {
            Told::Plan => self.plans = self.plans.saturating_add(1),
            Told::Cause(_) => self.causes = self.causes.saturating_add(1),
            Told::Nothing => self.nothing = self.nothing.saturating_add(1),
            Told::Wrong => self.wrong = Some(seed),
        }
    }
}

fn told_by_chance(alloc: Global, seed: u64) -> Result<Told, Fail> {
    let question = make_question(alloc, seed)?;
    Ok(told_of(alloc, &question.book)?)
}

// Of books by chance those with a plan have no cause, and of the nearly 300 others most have one, which all routes show.
#[test]
fn causes_are_of_books_without_plan(rt: HostRuntime) -> Result<(), Fail> {
    let mut count = Count {
        plans: 0,
        causes: 0,
        nothing: 0,
        wrong: None,
    };
    for seed in 0..300u64 {
        count.add(seed, told_by_chance(rt.alloc(), seed)?);
    }
    assert!(rt; count.wrong.is_none(), "{count:?}");
    assert!(rt; count.plans > 0, "{count:?}");
    assert!(rt; count.causes > 200, "{count:?}");
    Ok(())
}
