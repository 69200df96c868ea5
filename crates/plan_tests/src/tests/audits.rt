//! Small books, and plans that break their rules.

ghost use Rattle.tail_book.specs.CostTable.{IsTableFor};

use crate::tests::books::has_routes;
use books::*;
use plan_audit::*;
use std::alloc::Global;
use std::test::Fail;
use tail_book::laws::own_costs_are_for_book;
use tail_book::*;

mod books;

// A broken rule, with the names that are unknown or repeated as they are spelled.
#[derive(Clone, Copy)]
enum Told {
    Unknown(&'static [u8; 2]),
    Twice(&'static [u8; 2]),
    Uncovered(u32),
    NotAllowed(u32, u32),
    Curfew(u32, u32),
    NoLink(u32, u32),
    Counter(u32, u32, u32),
}

// What is told of a plan: what it costs, which rules it breaks, or which routes are left of it.
#[derive(Clone, Copy)]
enum Want {
    Cost(u64),
    Broken(&'static [Told]),
    Kept(&'static [&'static [u32]]),
}

// A book, the text of a plan, and what is told of it.
type Row = (Made, &'static str, Want);

fn rule_of(told: Told) -> Broken {
    match told {
        Told::Unknown(id) => Broken::Unknown(name(id)),
        Told::Twice(id) => Broken::Twice(name(id)),
        Told::Uncovered(a) => Broken::Uncovered(a),
        Told::NotAllowed(k, a) => Broken::NotAllowed(k, a),
        Told::Curfew(k, a) => Broken::Curfew(k, a),
        Told::NoLink(k, a) => Broken::NoLink(k, a),
        Told::Counter(k, a, c) => Broken::Counter(k, a, c),
    }
}

fn are_told(rules: &[Broken], told: &[Told]) -> bool {
    for (rule, want) in rules.iter().zip(told) {
        if *rule != rule_of(*want) {
            return false;
        }
    }
    rules.len() == told.len()
}

// Whether an audit tells this cost.
fn costs(alloc: Global, book: &Book, plan: &RawPlan, cost: u64) -> bool {
    match audit(alloc, book, plan) {
        Ok(Audit::Legal(told)) => told == cost,
        _ => false,
    }
}

// Whether an audit tells these broken rules.
fn is_broken(alloc: Global, book: &Book, plan: &RawPlan, told: &[Told]) -> bool {
    match audit(alloc, book, plan) {
        Ok(Audit::Broken(rules)) => are_told(&rules, told),
        _ => false,
    }
}

// Whether these routes are left of a plan.
fn is_kept(alloc: Global, book: &Book, plan: &RawPlan, routes: &[&[u32]]) -> bool {
    match kept(alloc, book, plan) {
        Ok(found) => has_routes(&found, routes),
        Err(_) => false,
    }
}

fn is_so(alloc: Global, book: &Book, plan: &RawPlan, want: Want) -> bool {
    match want {
        Want::Cost(cost) => costs(alloc, book, plan, cost),
        Want::Broken(told) => is_broken(alloc, book, plan, told),
        Want::Kept(routes) => is_kept(alloc, book, plan, routes),
    }
}

fn is_judged(alloc: Global, book: &Book, text: &[u8], want: Want) -> bool {
    match plan(alloc, text) {
        Ok(read) => is_so(alloc, book, &read, want),
        Err(_) => false,
    }
}

fn is_right(alloc: Global, row: &Row) -> Result<bool, Fail> {
    let &(made, text, want) = row;
    let book = book_of(alloc, made)?;
    Ok(is_judged(alloc, &book, text.as_bytes(), want))
}

// There and back, with the gap of exactly the turn.
const TWO_FLIGHTS: Made = (CounterKind::Minutes, BOTH, &[THERE, BACK]);

// Two flights at the same time, of an hour and of two.
const TWO_AT_ONCE: Made = (
    CounterKind::Minutes,
    BOTH,
    &[THERE, (b"F2", (Task::Flight, (ARN, OSL), (360, 480)))],
);

// FA is for A2 alone, and FB for A1.
const CROSSED: Made = (
    CounterKind::Minutes,
    BOTH,
    &[
        (b"FA", (Task::FlightOf(1), (ARN, OSL), (360, 420))),
        (b"FB", (Task::FlightOf(0), (ARN, OSL), (360, 420))),
    ],
);

// A type, a tag, and an airport avoided at either end keep the first aircraft from a flight that the second may fly.
const OF_A_TYPE: Made = (
    CounterKind::Minutes,
    BOTH,
    &[(b"F1", (Task::FlightOfType(Q), (ARN, OSL), (360, 420)))],
);

const OF_A_TAG: Made = (
    CounterKind::Minutes,
    &[CHEAP, TailRow { tags: &[7], ..DEAR }],
    &[(b"F1", (Task::FlightOfTag(7), (ARN, OSL), (360, 420)))],
);

const START_AVOIDED: Made = (
    CounterKind::Minutes,
    &[
        TailRow {
            avoid: &[ARN],
            ..CHEAP
        },
        DEAR,
    ],
    &[THERE],
);

const END_AVOIDED: Made = (
    CounterKind::Minutes,
    &[
        TailRow {
            avoid: &[OSL],
            ..CHEAP
        },
        DEAR,
    ],
    &[THERE],
);

// The stop at ARN is a minute too short to clear the counter.
const SHORT_STOP: Made = (
    CounterKind::Minutes,
    BOTH,
    &[
        THERE,
        BACK,
        (b"F3", (Task::Flight, (ARN, OSL), (569, 629))),
        (b"F4", (Task::Flight, (OSL, ARN), (660, 720))),
    ],
);

// A day between checks, of which one ends at 5,000, and the last flight ends a day later, or a minute more.
const A_DAY_LATER: Made = (
    CounterKind::Days,
    BOTH,
    &[
        THERE,
        CHECK,
        (b"F2", (Task::Flight, (OSL, ARN), (6380, 6440))),
    ],
);

const A_MINUTE_MORE: Made = (
    CounterKind::Days,
    BOTH,
    &[
        THERE,
        CHECK,
        (b"F2", (Task::Flight, (OSL, ARN), (6381, 6441))),
    ],
);

// A landing at ARN at the minute at which the curfew begins.
const LATE_LANDING: Made = (
    CounterKind::Minutes,
    &[TailRow { at: OSL, ..CHEAP }, TailRow { at: OSL, ..DEAR }],
    &[(b"F1", (Task::Flight, (OSL, ARN), (1260, 1320)))],
);

// FA is for A2 alone, FC leaves ten minutes behind FB, FD lands in the curfew, and FE goes on.
const EVERY_RULE: Made = (
    CounterKind::Minutes,
    BOTH,
    &[
        (b"FA", (Task::FlightOf(1), (ARN, OSL), (360, 420))),
        (b"FB", (Task::Flight, (OSL, ARN), (450, 510))),
        (b"FC", (Task::Flight, (ARN, OSL), (520, 580))),
        (b"FD", (Task::Flight, (OSL, ARN), (1260, 1320))),
        (b"FE", (Task::Flight, (ARN, OSL), (1380, 1439))),
    ],
);

const ROWS: &[Row] = &[
    // One aircraft flies both, the dearer one flies both and stands first, and two fly at once either way round.
    (TWO_FLIGHTS, "A1:F1 F2 ", Want::Cost(120)),
    (TWO_FLIGHTS, "A2:F1 F2 A1:", Want::Cost(240)),
    (TWO_AT_ONCE, "A1:F2 A2:F1 ", Want::Cost(240)),
    (TWO_AT_ONCE, "A2:F2 A1:F1 ", Want::Cost(300)),
    // A route backwards; an id that is unknown and one that is repeated; no line; an aircraft that is unknown and one that
    // is repeated, each with an id that is not met; an id unknown twice; an id known twice more.
    (
        TWO_FLIGHTS,
        "A1:F2 F1 ",
        Want::Broken(&[Told::NoLink(0, 1), Told::NoLink(0, 0)]),
    ),
    (
        TWO_FLIGHTS,
        "A1:F1 F9 F1 ",
        Want::Broken(&[Told::Unknown(b"F9"), Told::Twice(b"F1"), Told::Uncovered(1)]),
    ),
    (
        TWO_FLIGHTS,
        "",
        Want::Broken(&[Told::Uncovered(0), Told::Uncovered(1)]),
    ),
    (
        TWO_FLIGHTS,
        "B7:F9 A1:F1 A1:F2 ",
        Want::Broken(&[Told::Unknown(b"B7"), Told::Twice(b"A1"), Told::Uncovered(1)]),
    ),
    (
        TWO_FLIGHTS,
        "A1:F9 F1 F9 F2 ",
        Want::Broken(&[Told::Unknown(b"F9"), Told::Unknown(b"F9")]),
    ),
    (
        TWO_FLIGHTS,
        "A1:F1 F2 A2:F1 F1 ",
        Want::Broken(&[Told::Twice(b"F1"), Told::Twice(b"F1")]),
    ),
    // The routes that are left of the same kinds of plans, legal or not: each aircraft has one, in the book's order.
    (TWO_FLIGHTS, "A1:F1 F2 ", Want::Kept(&[&[0, 1], &[]])),
    (TWO_FLIGHTS, "A2:F2 F1 A1:", Want::Kept(&[&[], &[1, 0]])),
    (TWO_FLIGHTS, "A2:F1 A1:F2 ", Want::Kept(&[&[1], &[0]])),
    (TWO_FLIGHTS, "A1:F1 F9 F1 F2 ", Want::Kept(&[&[0, 1], &[]])),
    (TWO_FLIGHTS, "B7:F2 A1:F1 A1:F2 ", Want::Kept(&[&[0], &[]])),
    (TWO_FLIGHTS, "A1:F2 A2:F1 F2 ", Want::Kept(&[&[1], &[0]])),
    (TWO_FLIGHTS, "", Want::Kept(&[&[], &[]])),
    // The lines come in the order of the plan's.
    (
        CROSSED,
        "A1:FA A2:FB ",
        Want::Broken(&[Told::NotAllowed(0, 0), Told::NotAllowed(1, 1)]),
    ),
    (
        CROSSED,
        "A2:FB A1:FA ",
        Want::Broken(&[Told::NotAllowed(1, 1), Told::NotAllowed(0, 0)]),
    ),
    // The first aircraft may not, and the second may, for 120.
    (OF_A_TYPE, "A1:F1 ", Want::Broken(&[Told::NotAllowed(0, 0)])),
    (OF_A_TYPE, "A2:F1 ", Want::Cost(120)),
    (OF_A_TAG, "A1:F1 ", Want::Broken(&[Told::NotAllowed(0, 0)])),
    (OF_A_TAG, "A2:F1 ", Want::Cost(120)),
    (
        START_AVOIDED,
        "A1:F1 ",
        Want::Broken(&[Told::NotAllowed(0, 0)]),
    ),
    (START_AVOIDED, "A2:F1 ", Want::Cost(120)),
    (
        END_AVOIDED,
        "A1:F1 ",
        Want::Broken(&[Told::NotAllowed(0, 0)]),
    ),
    (END_AVOIDED, "A2:F1 ", Want::Cost(120)),
    // A counter that is past its limit twice.
    (
        SHORT_STOP,
        "A1:F1 F2 F3 F4 ",
        Want::Broken(&[Told::Counter(0, 2, 0), Told::Counter(0, 3, 0)]),
    ),
    // Days along a route that runs backwards: 0 at the check's end at 5,000, then less than 0 after a flight that ends at
    // 420, and from there the day is over a minute past 6,440.
    (
        A_DAY_LATER,
        "A1:C1 F1 F2 ",
        Want::Broken(&[Told::NoLink(0, 0)]),
    ),
    (
        A_MINUTE_MORE,
        "A1:C1 F1 F2 ",
        Want::Broken(&[Told::NoLink(0, 0), Told::Counter(0, 2, 0)]),
    ),
    (LATE_LANDING, "A1:F1 ", Want::Broken(&[Told::Curfew(0, 0)])),
    // Each kind of rule at once, in the order of the rules.
    (
        EVERY_RULE,
        "A1:FA X9 FB FC FA FD B7:FE A1:FE ",
        Want::Broken(&[
            Told::Unknown(b"X9"),
            Told::Unknown(b"B7"),
            Told::Twice(b"FA"),
            Told::Twice(b"A1"),
            Told::Uncovered(4),
            Told::NotAllowed(0, 0),
            Told::Curfew(0, 3),
            Told::NoLink(0, 2),
            Told::Counter(0, 2, 0),
            Told::Counter(0, 3, 0),
        ]),
    ),
];

fn rows() -> &'static [Row] {
    ROWS
}

#[test]
fn plans_are_audited(rt: HostRuntime) -> Result<(), Fail> {
    for (number, row) in rows().iter().enumerate() {
        assert!(rt; is_right(rt.alloc(), row)?, "row {number}");
    }
    Ok(())
}

// Whose prices the cost of a plan is by: the book's own, or others.
#[derive(Clone, Copy)]
enum Prices {
    Own,
    Other,
}

// What a plan costs in a table.
fn cost_in(
    alloc: Global,
    book: &Book,
    table: &CostTable,
    listed: &[&[u32]],
) -> Result<Option<u64>, Memory>
    requires { IsTableFor book.now table.now }
{
    let plan = routes(alloc, listed)?;
    audit_plan(alloc, book, table, &plan)
}

fn cost_by_own_prices(
    alloc: Global,
    book: &Book,
    listed: &[&[u32]],
) -> Result<Option<u64>, Memory> {
    own_costs_are_for_book();
    let table = CostTable::of(alloc, book)?;
    cost_in(alloc, book, &table, listed)
}

// What a plan of two flights costs by prices that are not the book's own, with one for half an hour on the ground.
fn cost_by_other_prices(
    alloc: Global,
    book: &Book,
    listed: &[&[u32]],
) -> Result<Option<u64>, Fail> {
    if book.activities.len() != 2 || book.tails.len() != 2 {
        return Err(Fail::new("another book"));
    }
    let fly = vec![in alloc; 5, 7, 11, 17]?;
    let bands = vec![in alloc; Band { upto: 30, cost: 3 }]?;
    match CostTable::new(2, 2, fly, bands, 100, 100) {
        Some(table) => Ok(cost_in(alloc, book, &table, listed)?),
        None => Err(Fail::new("no table")),
    }
}

// A book, whose prices, the routes of a plan, and what it costs.
type Priced = (Made, Prices, &'static [&'static [u32]], Option<u64>);

fn cost_by(
    alloc: Global,
    book: &Book,
    prices: Prices,
    listed: &[&[u32]],
) -> Result<Option<u64>, Fail> {
    match prices {
        Prices::Own => Ok(cost_by_own_prices(alloc, book, listed)?),
        Prices::Other => cost_by_other_prices(alloc, book, listed),
    }
}

fn is_priced(alloc: Global, row: &Priced) -> Result<bool, Fail> {
    let &(made, prices, listed, want) = row;
    let book = book_of(alloc, made)?;
    Ok(cost_by(alloc, &book, prices, listed)? == want)
}

const PRICED: &[Priced] = &[
    // The two legal plans of two flights at once, and plans with a route too few, an activity that is flown twice, not at
    // all, or behind another that is not over, and a number of no activity.
    (TWO_AT_ONCE, Prices::Own, &[&[1], &[0]], Some(240)),
    (TWO_AT_ONCE, Prices::Own, &[&[0], &[1]], Some(300)),
    (TWO_AT_ONCE, Prices::Own, &[&[0]], None),
    (TWO_AT_ONCE, Prices::Own, &[&[0], &[0]], None),
    (TWO_AT_ONCE, Prices::Own, &[&[0], &[]], None),
    (TWO_AT_ONCE, Prices::Own, &[&[0, 1], &[]], None),
    (TWO_AT_ONCE, Prices::Own, &[&[0], &[7]], None),
    // By another table: each aircraft flies both, and they are flown backwards.
    (TWO_FLIGHTS, Prices::Other, &[&[0, 1], &[]], Some(15)),
    (TWO_FLIGHTS, Prices::Other, &[&[], &[0, 1]], Some(31)),
    (TWO_FLIGHTS, Prices::Other, &[&[1, 0], &[]], None),
];

fn priced() -> &'static [Priced] {
    PRICED
}

#[test]
fn plans_by_number_are_priced(rt: HostRuntime) -> Result<(), Fail> {
    for (number, row) in priced().iter().enumerate() {
        assert!(rt; is_priced(rt.alloc(), row)?, "row {number}");
    }
    Ok(())
}
