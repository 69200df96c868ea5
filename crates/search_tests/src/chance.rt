//! Small books by chance. Flights follow the way of aircraft, so that many of the books have a legal plan; each rule of flying
//! and each kind of counter, curfew and band is in some of them, and makes others infeasible.

use crate::moments::{stamp, two};
use crate::tables::Tables;
use dice::Dice;
use std::alloc::Global;
use tail_book::Memory;

const PORTS: [&str; 4] = ["ARN", "OSL", "CPH", "ARN"];

const BASES: [&str; 4] = ["\"ARN\"", "", "\"OSL\", \"CPH\"", "\"ARN\", \"CPH\""];

// What a curfew holds back.
const HOLDS: [&str; 4] = [
    "start = true\nlanding = false\n",
    "start = false\nlanding = true\n",
    "start = true\nlanding = true\n",
    "start = false\nlanding = true\n",
];

const COUNTERS: [&str; 4] = ["fh", "ldg", "chk", "fh ldg"];

// Where an aircraft stands, and since when, as far as the flights that were made for it go.
#[derive(Clone, Copy)]
struct Walker {
    at: &'static str,
    free: u32,
}

fn pick(dice: &mut Dice, items: &[&'static str; 4]) -> &'static str {
    items[dice.below(4) as usize]
}

// One of these in so many cases, and otherwise an empty text.
fn seldom(dice: &mut Dice, cases: u32, items: &[&'static str; 4]) -> &'static str {
    if dice.below(cases.max(1)) == 0 {
        pick(dice, items)
    } else {
        ""
    }
}

// Adds these parts with nothing between them.
fn push_all(text: &mut String, parts: &[&str]) -> Result<(), Memory> {
    for part in parts {
        text.push_str(part)?;
    }
    Ok(())
}

// A flight, or time on the ground.
#[derive(Clone, Copy)]
struct Leg {
    on_ground: bool,
    to: &'static str,
    start: u32,
    end: u32,
}

fn next_leg(dice: &mut Dice, walker: Walker) -> Leg {
    let on_ground = dice.below(8) == 0;
    let to = if on_ground {
        walker.at
    } else {
        pick(dice, &PORTS)
    };
    let night = if dice.below(10) == 0 { 600 } else { 0 };
    let start = walker.free.saturating_add(night + 25 + dice.below(60));
    Leg {
        on_ground,
        to,
        start,
        end: start.saturating_add(20 + dice.below(100)),
    }
}

// Adds the fields of an activity up to its end.
fn push_leg(text: &mut String, number: u32, at: &'static str, leg: Leg) -> Result<(), Memory> {
    let kind = if leg.on_ground {
        ",ground,"
    } else {
        ",flight,"
    };
    let [tens, ones] = two(number);
    push_all(text, &["F", tens, ones, kind, at, ",", leg.to])?;
    push_all(text, &stamp(leg.start))?;
    push_all(text, &stamp(leg.end))
}

// Adds the fields behind its end.
fn push_marks(text: &mut String, dice: &mut Dice, on_ground: bool) -> Result<(), Memory> {
    let types = seldom(dice, 6, &["P", "Q", "P Q", "Q"]);
    let tags = seldom(dice, 10, &["x", "y", "x", "x y"]);
    let tail = seldom(dice, 14, &["A00", "A01", "A01", "A00"]);
    let resets = if on_ground {
        seldom(dice, 2, &COUNTERS)
    } else {
        ""
    };
    push_all(text, &[",", types, ",", tags, ",", tail, ",", resets, "\n"])
}

// Adds a flight, or time on the ground, from where an aircraft stands, and answers where it stands then.
fn push_activity(
    text: &mut String,
    dice: &mut Dice,
    number: u32,
    walker: Walker,
) -> Result<Walker, Memory> {
    let leg = next_leg(dice, walker);
    push_leg(text, number, walker.at, leg)?;
    push_marks(text, dice, leg.on_ground)?;
    Ok(Walker {
        at: leg.to,
        free: leg.end,
    })
}

fn push_timetable(
    text: &mut String,
    dice: &mut Dice,
    walkers: [Walker; 4],
    aircraft: u32,
) -> Result<(), Memory> {
    text.push_str("id,kind,from,to,start,end,types,tags,tail,resets\n")?;
    let mut walkers = walkers;
    for number in 0..4 + dice.below(5) {
        let k = (dice.below(aircraft.max(1)) as usize).min(3);
        walkers[k] = push_activity(text, dice, number, walkers[k])?;
    }
    Ok(())
}

// Adds the fields of an aircraft behind the moment at which it is ready.
fn push_worth(text: &mut String, dice: &mut Dice) -> Result<(), Memory> {
    let fixed = pick(dice, &["0", "0", "5", "40"]);
    let tags = pick(dice, &["x y", "x y", "x", ""]);
    let avoid = seldom(dice, 12, &PORTS);
    let carry = seldom(dice, 4, &["fh=60", "ldg=1", "chk=900", "fh=30 ldg=2"]);
    push_all(text, &[",", fixed, ",", tags, ",", avoid, ",", carry, "\n"])
}

// Adds an aircraft.
fn push_aircraft(
    text: &mut String,
    dice: &mut Dice,
    number: u32,
    walker: Walker,
) -> Result<(), Memory> {
    let kind = pick(dice, &[",P,", ",Q,", ",P,", ",Q,"]);
    let [tens, ones] = two(number);
    push_all(text, &["A", tens, ones, kind, walker.at])?;
    push_all(text, &stamp(walker.free))?;
    push_worth(text, dice)
}

fn push_type(text: &mut String, dice: &mut Dice, name: &'static str) -> Result<(), Memory> {
    let rate = pick(dice, &["1", "2", "3", "7"]);
    let turn = pick(dice, &["0", "15", "25", "35"]);
    let parts = [
        "[[type]]\nname = \"",
        name,
        "\"\nrate = ",
        rate,
        "\nturn = ",
        turn,
        "\n",
    ];
    push_all(text, &parts)
}

fn push_airport(text: &mut String, dice: &mut Dice, name: &'static str) -> Result<(), Memory> {
    let offset = pick(dice, &["0", "60", "-120", "60"]);
    let turn = pick(dice, &["0", "10", "20", "30"]);
    let parts = [
        "[[airport]]\nname = \"",
        name,
        "\"\noffset = ",
        offset,
        "\nturn = ",
        turn,
        "\n",
    ];
    push_all(text, &parts)
}

fn push_curfew(text: &mut String, dice: &mut Dice) -> Result<(), Memory> {
    let from = pick(dice, &["23:00", "06:00", "08:30", "12:00"]);
    let to = pick(dice, &["05:30", "07:00", "09:00", "08:30"]);
    let types = seldom(dice, 2, &["\"P\"", "\"Q\"", "\"P\"", "\"P\", \"Q\""]);
    let holds = pick(dice, &HOLDS);
    let parts = [
        "[[curfew]]\nairport = \"",
        pick(dice, &PORTS),
        "\"\nfrom = \"",
        from,
        "\"\nto = \"",
        to,
        "\"\ntypes = [",
        types,
        "]\n",
        holds,
    ];
    push_all(text, &parts)
}

fn push_counter(
    text: &mut String,
    dice: &mut Dice,
    names: &'static str,
    limits: &[&'static str; 4],
) -> Result<(), Memory> {
    let limit = pick(dice, limits);
    let bases = pick(dice, &BASES);
    let stop = pick(dice, &["30", "60", "200", "600"]);
    let parts = [
        "[[counter]]\n",
        names,
        "limit = ",
        limit,
        "\nbases = [",
        bases,
        "]\nstop = ",
        stop,
        "\n",
    ];
    push_all(text, &parts)
}

fn push_counters(text: &mut String, dice: &mut Dice) -> Result<(), Memory> {
    let hours = "name = \"fh\"\nkind = \"minutes\"\n";
    push_counter(text, dice, hours, &["150", "240", "400", "1000"])?;
    let landings = "name = \"ldg\"\nkind = \"landings\"\n";
    push_counter(text, dice, landings, &["3", "4", "6", "20"])?;
    let days = "name = \"chk\"\nkind = \"days\"\n";
    push_counter(text, dice, days, &["2", "3", "9", "9"])
}

fn push_band(text: &mut String, dice: &mut Dice, upto: &'static str) -> Result<(), Memory> {
    let cost = pick(dice, &["0", "5", "25", "90"]);
    push_all(text, &["[[band]]\nupto = ", upto, "\ncost = ", cost, "\n"])
}

// Adds two bands, in half of the cases.
fn push_bands(text: &mut String, dice: &mut Dice) -> Result<(), Memory> {
    if dice.below(2) != 0 {
        return Ok(());
    }
    push_band(text, dice, "45")?;
    push_band(text, dice, "300")
}

fn push_rules(text: &mut String, dice: &mut Dice) -> Result<(), Memory> {
    for &name in &["P", "Q"] {
        push_type(text, dice, name)?;
    }
    for &name in &["ARN", "OSL", "CPH"] {
        push_airport(text, dice, name)?;
    }
    if dice.below(4) == 0 {
        push_curfew(text, dice)?;
    }
    push_counters(text, dice)?;
    push_bands(text, dice)
}

fn push_fleet(
    text: &mut String,
    dice: &mut Dice,
    walkers: &[Walker; 4],
    aircraft: u32,
) -> Result<(), Memory> {
    text.push_str("tail,type,at,ready,fixed,tags,avoid,carry\n")?;
    for k in 0..aircraft {
        push_aircraft(text, dice, k, walkers[(k as usize).min(3)])?;
    }
    Ok(())
}

fn push_tables(tables: &mut Tables, dice: &mut Dice) -> Result<(), Memory> {
    let mut walkers = [Walker { at: "ARN", free: 0 }; 4];
    for k in 0..4usize {
        let at = pick(dice, &PORTS);
        walkers[k] = Walker {
            at,
            free: 300 + dice.below(120),
        };
    }
    let aircraft = 2 + dice.below(3);
    push_fleet(&mut tables.fleet, dice, &walkers, aircraft)?;
    push_timetable(&mut tables.timetable, dice, walkers, aircraft)?;
    push_rules(&mut tables.rules, dice)
}

/// The tables of a book of four to eight activities and two to four aircraft.
pub fn tables_by_chance(alloc: Global, dice: &mut Dice) -> Result<Tables, Memory> {
    let mut tables = Tables::new(alloc);
    push_tables(&mut tables, dice)?;
    Ok(tables)
}
