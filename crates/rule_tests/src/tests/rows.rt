//! Small books, written as rows of numbers. A name is a digit.

use dice::Dice;
use std::alloc::Global;
use std::test::Fail;
use tail_book::*;

/// The name that is a number's last digit.
fn name(number: usize) -> Name {
    Name::new(&[b'0' + (number % 10) as u8])
}

/// An activity: its name, whether it is a flight, its airports and its minutes; the types, the tags and the aircraft that it
/// asks for, and the counters that it resets.
#[derive(Clone, Copy)]
pub struct ActivityRow<'a> {
    pub id: u32,
    pub flight: bool,
    pub leg: (u32, u32),
    pub time: (i64, i64),
    pub types: &'a [u32],
    pub tags: &'a [u32],
    pub tail: Option<u32>,
    pub resets: &'a [u32],
}

/// A flight that asks for nothing.
pub const FLIGHT: ActivityRow<'static> = ActivityRow {
    id: 0,
    flight: true,
    leg: (0, 0),
    time: (0, 0),
    types: &[],
    tags: &[],
    tail: None,
    resets: &[],
};

/// An aircraft: its name and its type, where it comes in and when it is ready there, and what each activity costs it; its tags,
/// the airports that it avoids, and what stands on its counters.
#[derive(Clone, Copy)]
pub struct TailRow<'a> {
    pub id: u32,
    pub kind: u32,
    pub at: u32,
    pub ready: i64,
    pub fixed: u64,
    pub tags: &'a [u32],
    pub avoid: &'a [u32],
    pub carry: &'a [i64],
}

/// An aircraft that may fly everything.
pub const AIRCRAFT: TailRow<'static> = TailRow {
    id: 0,
    kind: 0,
    at: 0,
    ready: 0,
    fixed: 0,
    tags: &[],
    avoid: &[],
    carry: &[],
};

/// A curfew: its airport and its hours, the types that it is for, and whether it stops starts, and landings.
#[derive(Clone, Copy)]
pub struct CurfewRow<'a> {
    pub airport: u32,
    pub hours: (i64, i64),
    pub types: &'a [u32],
    pub starts: bool,
    pub landings: bool,
}

/// A counter: its kind and its limit, and its bases, at which a stop of so many minutes clears it.
#[derive(Clone, Copy)]
pub struct CounterRow<'a> {
    pub kind: CounterKind,
    pub limit: i64,
    pub bases: &'a [u32],
    pub stop: i64,
}

/// A book: types with their rates and turns, airports with their minutes ahead of UTC and their turns, and bands with their ends
/// and costs; and what else it has.
#[derive(Clone, Copy)]
pub struct BookRows<'a> {
    pub kinds: &'a [(u64, i64)],
    pub airports: &'a [(i64, i64)],
    pub curfews: &'a [CurfewRow<'a>],
    pub counters: &'a [CounterRow<'a>],
    pub bands: &'a [(i64, u64)],
    pub tails: &'a [TailRow<'a>],
    pub activities: &'a [ActivityRow<'a>],
}

fn activity(alloc: Global, row: &ActivityRow) -> Result<Activity, Memory> {
    let types = Vec::from_slice(alloc, row.types)?;
    let tags = Vec::from_slice(alloc, row.tags)?;
    let resets = Vec::from_slice(alloc, row.resets)?;
    let ((from, to), (start, end)) = (row.leg, row.time);
    Ok(Activity {
        id: name(row.id as usize),
        flight: row.flight,
        from,
        to,
        start,
        end,
        types,
        tags,
        tail: row.tail,
        resets,
    })
}

fn activities(alloc: Global, rows: &[ActivityRow]) -> Result<Vec<Activity>, Memory> {
    let mut activities = Vec::new(alloc);
    for row in rows {
        activities.push(activity(alloc, row)?)?;
    }
    Ok(activities)
}

fn tail(alloc: Global, row: &TailRow) -> Result<Tail, Memory> {
    let tags = Vec::from_slice(alloc, row.tags)?;
    let avoid = Vec::from_slice(alloc, row.avoid)?;
    let carry = Vec::from_slice(alloc, row.carry)?;
    Ok(Tail {
        name: name(row.id as usize),
        kind: row.kind,
        at: row.at,
        ready: row.ready,
        fixed: row.fixed,
        tags,
        avoid,
        carry,
    })
}

fn tails(alloc: Global, rows: &[TailRow]) -> Result<Vec<Tail>, Memory> {
    let mut tails = Vec::new(alloc);
    for row in rows {
        tails.push(tail(alloc, row)?)?;
    }
    Ok(tails)
}

fn add_kinds(kinds: &mut Vec<AircraftType>, rows: &[(u64, i64)]) -> Result<(), Memory> {
    for (number, &(rate, turn)) in rows.iter().enumerate() {
        let name = name(number);
        kinds.push(AircraftType { name, rate, turn })?;
    }
    Ok(())
}

fn add_airports(
    alloc: Global,
    airports: &mut Vec<Airport>,
    rows: &[(i64, i64)],
) -> Result<(), Memory> {
    for (number, &(offset, turn)) in rows.iter().enumerate() {
        let name = name(number);
        airports.push(Airport::fixed(alloc, name, offset, turn))?;
    }
    Ok(())
}

fn add_curfews(alloc: Global, curfews: &mut Vec<Curfew>, rows: &[CurfewRow]) -> Result<(), Memory> {
    for row in rows {
        curfews.push(Curfew {
            airport: row.airport,
            from: row.hours.0,
            to: row.hours.1,
            types: Vec::from_slice(alloc, row.types)?,
            starts: row.starts,
            landings: row.landings,
        })?;
    }
    Ok(())
}

fn add_counters(
    alloc: Global,
    counters: &mut Vec<Counter>,
    rows: &[CounterRow],
) -> Result<(), Memory> {
    for (number, row) in rows.iter().enumerate() {
        counters.push(Counter {
            name: name(number),
            kind: row.kind,
            limit: row.limit,
            bases: Vec::from_slice(alloc, row.bases)?,
            stop: row.stop,
        })?;
    }
    Ok(())
}

fn add_bands(bands: &mut Vec<Band>, rows: &[(i64, u64)]) -> Result<(), Memory> {
    for &(upto, cost) in rows {
        bands.push(Band { upto, cost })?;
    }
    Ok(())
}

fn add_rules(alloc: Global, rules: &mut Rules, rows: &BookRows) -> Result<(), Memory> {
    add_kinds(&mut rules.kinds, rows.kinds)?;
    add_airports(alloc, &mut rules.airports, rows.airports)?;
    add_curfews(alloc, &mut rules.curfews, rows.curfews)?;
    add_counters(alloc, &mut rules.counters, rows.counters)?;
    add_bands(&mut rules.bands, rows.bands)
}

fn rules(alloc: Global, rows: &BookRows) -> Result<Rules, Memory> {
    let mut rules = Rules {
        kinds: Vec::new(alloc),
        airports: Vec::new(alloc),
        curfews: Vec::new(alloc),
        counters: Vec::new(alloc),
        bands: Vec::new(alloc),
    };
    add_rules(alloc, &mut rules, rows)?;
    Ok(rules)
}

/// The book of these rows, if they keep the limits of one.
pub fn book_of(alloc: Global, rows: &BookRows) -> Result<Option<Book>, Memory> {
    let activities = activities(alloc, rows.activities)?;
    let tails = tails(alloc, rows.tails)?;
    Ok(Book::new(activities, tails, rules(alloc, rows)?))
}

/// The book of these rows, or a failure.
pub fn book(alloc: Global, rows: &BookRows) -> Result<Book, Fail> {
    match book_of(alloc, rows)? {
        Some(book) => Ok(book),
        None => Err(Fail::new("no book")),
    }
}

/// The number of the first question that is answered otherwise of a book than it says.
pub fn first_wrong<Q, F: Fn(&Book, &Q) -> bool>(
    alloc: Global,
    rows: &BookRows,
    questions: &[Q],
    is_right: F,
) -> Result<Option<usize>, Fail>
    requires { F.IsAlwaysCallable is_right }
{
    let book = book(alloc, rows)?;
    for (number, question) in questions.iter().enumerate() {
        if !is_right(&book, question) {
            return Ok(Some(number));
        }
    }
    Ok(None)
}

const PAIRS: [[u32; 2]; 9] = [
    [0, 0],
    [0, 1],
    [0, 2],
    [1, 0],
    [1, 1],
    [1, 2],
    [2, 0],
    [2, 1],
    [2, 2],
];

/// Up to two numbers below 3.
pub fn few(dice: &mut Dice) -> &'static [u32] {
    let many = dice.below(3) as usize;
    let first = if many > 0 { dice.below(3) } else { 0 };
    let second = if many > 1 { dice.below(3) } else { 0 };
    &PAIRS[(3 * first + second) as usize][..many]
}
