//! Books whose least plans were worked out by hand. Times are minutes of the day in UTC.

use crate::tests::books::*;
use plan_enumeration::least_plan;
use std::alloc::Global;
use std::test::Fail;
use tail_book::*;

// The rules of a book.
#[derive(Clone, Copy)]
enum Ruled {
    // This turn of type P, and no curfew, counter or band.
    Plain(i64),
    // ARN is closed at night, for starts or else for landings of type P.
    Closed(bool),
    // One counter with this limit, and bands.
    Counted(CounterKind, i64, &'static [Band]),
}

// What is known of the least plan: that there is none, what it costs, or its routes as well.
#[derive(Clone, Copy)]
enum Want {
    NoPlan,
    Cost(u64),
    Plan(u64, &'static [&'static [u32]]),
}

// What a row is about, rules, aircraft and activities, and what is known of their least plan.
type Row = (
    &'static str,
    Ruled,
    &'static [TailRow],
    &'static [Leg],
    Want,
);

// The turn of type P.
fn turn(ruled: Ruled) -> i64 {
    match ruled {
        Ruled::Plain(turn) => turn,
        _ => 30,
    }
}

fn put_rules(alloc: Global, rules: &mut Rules, ruled: Ruled) -> Result<(), Memory> {
    match ruled {
        Ruled::Plain(_) => {}
        Ruled::Closed(starts) => put_night(rules, starts, vec![in alloc; P]?)?,
        Ruled::Counted(kind, limit, bands) => {
            put_counter(alloc, rules, kind, limit)?;
            rules.bands.extend_from_slice(bands)?;
        }
    }
    Ok(())
}

fn rules(alloc: Global, ruled: Ruled) -> Result<Rules, Memory> {
    let mut rules = plain(alloc, turn(ruled))?;
    put_rules(alloc, &mut rules, ruled)?;
    Ok(rules)
}

fn book_of(alloc: Global, row: &Row) -> Result<Book, Fail> {
    let &(_, ruled, tails, legs, _) = row;
    let activities = activities(alloc, legs)?;
    book(alloc, activities, tails, rules(alloc, ruled)?)
}

fn is_wanted(outcome: &Outcome, want: Want) -> bool {
    match outcome {
        Outcome::Infeasible => matches!(want, Want::NoPlan),
        Outcome::Optimal(plan, least) => match want {
            Want::NoPlan => false,
            Want::Cost(cost) => *least == cost,
            Want::Plan(cost, routes) => *least == cost && has_routes(plan, routes),
        },
        _ => false,
    }
}

fn has_least(alloc: Global, book: &Book, want: Want) -> bool {
    match least_plan(alloc, book) {
        Ok(outcome) => is_wanted(&outcome, want),
        Err(_) => false,
    }
}

// Whether the least plan of a row is what is known of it.
fn is_found(alloc: Global, row: &Row) -> Result<bool, Fail> {
    let book = book_of(alloc, row)?;
    Ok(has_least(alloc, &book, row.4))
}

const DEAR_AND_TAGGED: TailRow = TailRow { tags: &[7], ..DEAR };

const LEAVES_NOT: TailRow = TailRow {
    avoid: &[ARN],
    ..CHEAP
};

const LANDS_NOT: TailRow = TailRow {
    avoid: &[OSL],
    ..CHEAP
};

const AT_OSL: TailRow = TailRow { at: OSL, ..CHEAP };

// An aircraft that has used 130 minutes, at the counter's base or away from it.
const USED: TailRow = TailRow {
    carry: 130,
    ..CHEAP
};

const USED_AWAY: TailRow = TailRow {
    carry: 130,
    ..AT_OSL
};

// An aircraft at OSL that left its base 1,000 minutes before midnight.
const LONG_AWAY: TailRow = TailRow {
    fixed: 7,
    carry: 1000,
    ..AT_OSL
};

// Four of the cheaper type, which differ in their fixed amounts.
const FOUR: &[TailRow] = &[
    TailRow { fixed: 10, ..CHEAP },
    CHEAP,
    TailRow { fixed: 12, ..CHEAP },
    TailRow { fixed: 5, ..CHEAP },
];

// To OSL and back, with half an hour between.
const THERE: Leg = (Task::Flight, (ARN, OSL), (360, 420));

const BACK: Leg = (Task::Flight, (OSL, ARN), (450, 510));

const LAST_HOME: Leg = (Task::Flight, (OSL, ARN), (660, 720));

// Two hours or a minute less between stops of an hour at ARN, and a day.
const TWO_HOURS: Ruled = Ruled::Counted(CounterKind::Minutes, 120, &[]);

const A_MINUTE_LESS: Ruled = Ruled::Counted(CounterKind::Minutes, 119, &[]);

const A_DAY: Ruled = Ruled::Counted(CounterKind::Days, 1440, &[]);

// A connection of an hour and more costs 500.
const DEAR_STAYS: &[Band] = &[
    Band { upto: 59, cost: 0 },
    Band {
        upto: 10_000_000,
        cost: 500,
    },
];

// A shorter band stands behind longer ones.
const BANDED: Ruled = Ruled::Counted(
    CounterKind::Landings,
    10,
    &[
        Band { upto: 60, cost: 5 },
        Band { upto: 400, cost: 1 },
        Band { upto: 40, cost: 3 },
    ],
);

const ROWS: &[Row] = &[
    (
        "no activities",
        Ruled::Plain(30),
        &[CHEAP, CHEAP],
        &[],
        Want::Plan(0, &[&[], &[]]),
    ),
    (
        "no activities and no aircraft",
        Ruled::Plain(30),
        &[],
        &[],
        Want::Plan(0, &[]),
    ),
    ("no aircraft", Ruled::Plain(30), &[], &[THERE], Want::NoPlan),
    // A gap that is exactly the turn, and a turn that is a minute longer.
    (
        "a gap of exactly the turn",
        Ruled::Plain(30),
        &[CHEAP],
        &[THERE, BACK],
        Want::Plan(120, &[&[0, 1]]),
    ),
    (
        "a turn that is a minute longer",
        Ruled::Plain(31),
        &[CHEAP],
        &[THERE, BACK],
        Want::NoPlan,
    ),
    // The turn at CPH is 50 minutes, whatever the type's is; ground time needs none.
    (
        "the turn of the airport",
        Ruled::Plain(30),
        &[CHEAP],
        &[
            (Task::Flight, (ARN, CPH), (360, 420)),
            (Task::Flight, (CPH, ARN), (470, 530)),
        ],
        Want::Plan(120, &[&[0, 1]]),
    ),
    (
        "a minute less than the turn of the airport",
        Ruled::Plain(30),
        &[CHEAP],
        &[
            (Task::Flight, (ARN, CPH), (360, 420)),
            (Task::Flight, (CPH, ARN), (469, 529)),
        ],
        Want::NoPlan,
    ),
    (
        "ground time in place of a turn",
        Ruled::Plain(30),
        &[CHEAP],
        &[
            (Task::Flight, (ARN, CPH), (360, 420)),
            (Task::Ground, (CPH, CPH), (420, 430)),
            (Task::Flight, (CPH, ARN), (430, 490)),
        ],
        Want::Plan(120, &[&[0, 1, 2]]),
    ),
    // 120 and 2 * 60, and not 60 and 2 * 120.
    (
        "the longer flight goes to the cheaper type",
        Ruled::Plain(30),
        &[CHEAP, DEAR],
        &[THERE, (Task::Flight, (ARN, OSL), (360, 480))],
        Want::Plan(240, &[&[1], &[0]]),
    ),
    (
        "ground time costs the fixed amount and no minutes",
        Ruled::Plain(30),
        &[TailRow { fixed: 7, ..CHEAP }, TailRow { fixed: 5, ..DEAR }],
        &[(Task::Ground, (ARN, ARN), (360, 420))],
        Want::Plan(5, &[&[], &[0]]),
    ),
    // Each rule of who may fly what sends the flight to the type that costs more: its types, its tag, an airport that the
    // cheaper one avoids at either end, and its aircraft.
    (
        "of a type",
        Ruled::Plain(30),
        &[CHEAP, DEAR],
        &[(Task::FlightOfType(Q), (ARN, OSL), (360, 420))],
        Want::Plan(120, &[&[], &[0]]),
    ),
    (
        "of a tag",
        Ruled::Plain(30),
        &[CHEAP, DEAR_AND_TAGGED],
        &[(Task::FlightOfTag(7), (ARN, OSL), (360, 420))],
        Want::Plan(120, &[&[], &[0]]),
    ),
    (
        "one avoids the start",
        Ruled::Plain(30),
        &[LEAVES_NOT, DEAR],
        &[THERE],
        Want::Plan(120, &[&[], &[0]]),
    ),
    (
        "one avoids the end",
        Ruled::Plain(30),
        &[LANDS_NOT, DEAR],
        &[THERE],
        Want::Plan(120, &[&[], &[0]]),
    ),
    (
        "preassigned",
        Ruled::Plain(30),
        &[CHEAP, DEAR],
        &[(Task::FlightOf(1), (ARN, OSL), (360, 420))],
        Want::Plan(120, &[&[], &[0]]),
    ),
    (
        "two at once, each preassigned",
        Ruled::Plain(30),
        &[CHEAP, CHEAP],
        &[
            (Task::FlightOf(1), (ARN, OSL), (360, 420)),
            (Task::FlightOf(0), (ARN, OSL), (360, 420)),
        ],
        Want::Plan(120, &[&[1], &[0]]),
    ),
    // ARN, an hour ahead, is closed for landings of type P from 23:00 to 06:00 there: not a minute before or after.
    (
        "a landing a minute before it closes",
        Ruled::Closed(false),
        &[AT_OSL],
        &[(Task::Flight, (OSL, ARN), (1259, 1319))],
        Want::Cost(60),
    ),
    (
        "a landing as it closes",
        Ruled::Closed(false),
        &[AT_OSL],
        &[(Task::Flight, (OSL, ARN), (1260, 1320))],
        Want::NoPlan,
    ),
    (
        "a landing a minute before it opens",
        Ruled::Closed(false),
        &[AT_OSL],
        &[(Task::Flight, (OSL, ARN), (239, 299))],
        Want::NoPlan,
    ),
    (
        "a landing as it opens",
        Ruled::Closed(false),
        &[AT_OSL],
        &[(Task::Flight, (OSL, ARN), (240, 300))],
        Want::Cost(60),
    ),
    // The same hours for starts; type Q has none, and ground time neither.
    (
        "a start a minute before it opens",
        Ruled::Closed(true),
        &[CHEAP],
        &[(Task::Flight, (ARN, OSL), (299, 359))],
        Want::NoPlan,
    ),
    (
        "a start of the other type",
        Ruled::Closed(true),
        &[DEAR],
        &[(Task::Flight, (ARN, OSL), (299, 359))],
        Want::Cost(120),
    ),
    (
        "a start as it opens",
        Ruled::Closed(true),
        &[CHEAP],
        &[(Task::Flight, (ARN, OSL), (300, 360))],
        Want::Cost(60),
    ),
    (
        "ground time where it is closed",
        Ruled::Closed(true),
        &[CHEAP],
        &[(Task::Ground, (ARN, ARN), (0, 60))],
        Want::Cost(0),
    ),
    // There and back twice, the second time from an hour on the ground at the counter's base: a stop that is just long
    // enough, a minute shorter, and a limit that is a minute lower.
    (
        "a stop at the base clears minutes",
        TWO_HOURS,
        &[CHEAP],
        &[
            THERE,
            BACK,
            (Task::Flight, (ARN, OSL), (570, 630)),
            LAST_HOME,
        ],
        Want::Plan(240, &[&[0, 1, 2, 3]]),
    ),
    (
        "a stop that is a minute too short",
        TWO_HOURS,
        &[CHEAP],
        &[
            THERE,
            BACK,
            (Task::Flight, (ARN, OSL), (569, 629)),
            LAST_HOME,
        ],
        Want::NoPlan,
    ),
    (
        "a limit that is a minute lower",
        A_MINUTE_LESS,
        &[CHEAP],
        &[
            THERE,
            BACK,
            (Task::Flight, (ARN, OSL), (570, 630)),
            LAST_HOME,
        ],
        Want::NoPlan,
    ),
    // A check at OSL, which is no base, resets the days since midnight and 1,000 minutes before it.
    (
        "a check resets days",
        A_DAY,
        &[LONG_AWAY],
        &[
            (Task::CheckOf(0), (OSL, OSL), (600, 720)),
            (Task::Flight, (OSL, ARN), (750, 810)),
        ],
        Want::Plan(74, &[&[0, 1]]),
    ),
    (
        "ground time resets no days",
        A_DAY,
        &[LONG_AWAY],
        &[
            (Task::Ground, (OSL, OSL), (600, 720)),
            (Task::Flight, (OSL, ARN), (750, 810)),
        ],
        Want::NoPlan,
    ),
    // A day away from the base, to the minute.
    (
        "a day of 1,440 minutes",
        A_DAY,
        &[CHEAP],
        &[
            (Task::Flight, (ARN, OSL), (0, 60)),
            (Task::Flight, (OSL, ARN), (1400, 1440)),
        ],
        Want::Cost(100),
    ),
    (
        "a day of 1,441 minutes",
        A_DAY,
        &[CHEAP],
        &[
            (Task::Flight, (ARN, OSL), (0, 60)),
            (Task::Flight, (OSL, ARN), (1400, 1441)),
        ],
        Want::NoPlan,
    ),
    // A value above its limit is no fault of an aircraft that stays, and an hour at the base clears it.
    (
        "carried above the limit",
        TWO_HOURS,
        &[USED_AWAY],
        &[],
        Want::Plan(0, &[&[]]),
    ),
    (
        "carried above the limit, away from the base",
        TWO_HOURS,
        &[USED_AWAY],
        &[(Task::Flight, (OSL, ARN), (360, 420))],
        Want::NoPlan,
    ),
    (
        "carried above the limit, cleared at the base",
        TWO_HOURS,
        &[USED],
        &[THERE],
        Want::Cost(60),
    ),
    // Three landings at most. Through the ground time a stop of an hour is lost, and the fourth landing is one too many,
    // so the dear connection from the second flight to the third is in the least plan.
    (
        "a dear connection saves a landing",
        Ruled::Counted(CounterKind::Landings, 3, DEAR_STAYS),
        &[CHEAP, CHEAP],
        &[
            (Task::FlightOf(0), (ARN, OSL), (360, 420)),
            (Task::FlightOf(0), (OSL, ARN), (450, 510)),
            (Task::Ground, (ARN, ARN), (540, 585)),
            (Task::FlightOf(0), (ARN, OSL), (600, 660)),
            (Task::FlightOf(0), (OSL, ARN), (690, 750)),
        ],
        Want::Plan(740, &[&[0, 1, 3, 4], &[2]]),
    ),
    // The first band in the table's order that reaches counts, and where none does the connection is free. The connection
    // from the carry-in, six hours long, is free as well.
    (
        "half an hour in the first band",
        BANDED,
        &[CHEAP],
        &[THERE, (Task::Flight, (OSL, ARN), (450, 510))],
        Want::Cost(125),
    ),
    (
        "an hour in the first band",
        BANDED,
        &[CHEAP],
        &[THERE, (Task::Flight, (OSL, ARN), (480, 540))],
        Want::Cost(125),
    ),
    (
        "a minute more in the second band",
        BANDED,
        &[CHEAP],
        &[THERE, (Task::Flight, (OSL, ARN), (481, 541))],
        Want::Cost(121),
    ),
    (
        "400 minutes in the second band",
        BANDED,
        &[CHEAP],
        &[THERE, (Task::Flight, (OSL, ARN), (820, 880))],
        Want::Cost(121),
    ),
    (
        "401 minutes in no band",
        BANDED,
        &[CHEAP],
        &[THERE, (Task::Flight, (OSL, ARN), (821, 881))],
        Want::Cost(120),
    ),
    // Of ten flights, each overlaps the next. Two aircraft take them in turn, the second at 5 for each of its five. Where
    // the last five are at one time, four aircraft are too few.
    (
        "ten flights on four aircraft",
        Ruled::Plain(30),
        FOUR,
        &[
            (Task::Flight, (ARN, ARN), (360, 450)),
            (Task::Flight, (ARN, ARN), (420, 510)),
            (Task::Flight, (ARN, ARN), (480, 570)),
            (Task::Flight, (ARN, ARN), (540, 630)),
            (Task::Flight, (ARN, ARN), (600, 690)),
            (Task::Flight, (ARN, ARN), (660, 750)),
            (Task::Flight, (ARN, ARN), (720, 810)),
            (Task::Flight, (ARN, ARN), (780, 870)),
            (Task::Flight, (ARN, ARN), (840, 930)),
            (Task::Flight, (ARN, ARN), (900, 990)),
        ],
        Want::Cost(925),
    ),
    (
        "five flights at one time on four aircraft",
        Ruled::Plain(30),
        FOUR,
        &[
            (Task::Flight, (ARN, ARN), (360, 450)),
            (Task::Flight, (ARN, ARN), (420, 510)),
            (Task::Flight, (ARN, ARN), (480, 570)),
            (Task::Flight, (ARN, ARN), (540, 630)),
            (Task::Flight, (ARN, ARN), (600, 690)),
            (Task::Flight, (ARN, ARN), (900, 990)),
            (Task::Flight, (ARN, ARN), (900, 990)),
            (Task::Flight, (ARN, ARN), (900, 990)),
            (Task::Flight, (ARN, ARN), (900, 990)),
            (Task::Flight, (ARN, ARN), (900, 990)),
        ],
        Want::NoPlan,
    ),
];

fn rows() -> &'static [Row] {
    ROWS
}

#[test]
fn least_plans_are_found(rt: HostRuntime) -> Result<(), Fail> {
    for row in rows() {
        assert!(rt; is_found(rt.alloc(), row)?, "{}", row.0);
    }
    Ok(())
}
