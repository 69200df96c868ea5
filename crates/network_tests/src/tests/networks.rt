//! Small networks, whose rows are known from outside; and books by chance, on which the rows say what the rules say.

ghost use Rattle.std.specs.Prelude.{◌≡◌};
ghost use Rattle.connection_net.specs.Net.{net_of};

use super::books::made;
use connection_net::Net;
use connection_net::laws::rows_for_each;
use small_books::{named_flight, named_tail, names_in_order};
use std::alloc::Global;
use std::test::Fail;
use tail_book::*;

mod chance;

const ARN: u32 = 0;

const OSL: u32 = 1;

// An activity: whether it is a flight, its airports, its minutes, and the only aircraft that may fly it.
type Leg = (bool, (u32, u32), (i64, i64), Option<u32>);

// An aircraft: its type, where it comes in, and when it is ready there.
type Carried = (u32, u32, i64);

fn activity(alloc: Global, id: Name, leg: &Leg) -> Activity {
    let (flight, ports, time, tail) = *leg;
    let mut activity = named_flight(alloc, id, ports, time);
    activity.flight = flight;
    activity.tail = tail;
    activity
}

fn kinds(alloc: Global, turns: &[i64]) -> Result<Vec<AircraftType>, Memory> {
    let mut kinds = Vec::new(alloc);
    for (name, turn) in names_in_order().iter().zip(turns) {
        kinds.push(AircraftType {
            name: *name,
            rate: 1,
            turn: *turn,
        })?;
    }
    Ok(kinds)
}

fn airports(alloc: Global, ports: usize) -> Result<Vec<Airport>, Memory> {
    let mut airports = Vec::new(alloc);
    for name in names_in_order().iter().take(ports) {
        airports.push(Airport::fixed(alloc, *name, 60, 20))?;
    }
    Ok(airports)
}

// Types with these turns, and airports that turn in 20 minutes.
fn rules(alloc: Global, turns: &[i64], ports: usize) -> Result<Rules, Memory> {
    let (kinds, airports) = (kinds(alloc, turns)?, airports(alloc, ports)?);
    Ok(Rules {
        kinds,
        airports,
        curfews: Vec::new(alloc),
        counters: Vec::new(alloc),
        bands: Vec::new(alloc),
    })
}

fn activities(alloc: Global, legs: &[Leg]) -> Result<Vec<Activity>, Memory> {
    let mut activities = Vec::new(alloc);
    for (name, leg) in names_in_order().iter().zip(legs) {
        activities.push(activity(alloc, *name, leg))?;
    }
    Ok(activities)
}

fn fleet(alloc: Global, tails: &[Carried]) -> Result<Vec<Tail>, Memory> {
    let mut fleet = Vec::new(alloc);
    for (name, carried) in names_in_order().iter().zip(tails) {
        let (kind, at, ready) = *carried;
        fleet.push(named_tail(alloc, *name, kind, at, ready))?;
    }
    Ok(fleet)
}

fn book(alloc: Global, legs: &[Leg], tails: &[Carried], turns: &[i64]) -> Result<Book, Fail> {
    let (activities, fleet) = (activities(alloc, legs)?, fleet(alloc, tails)?);
    made(activities, fleet, rules(alloc, turns, 2)?)
}

// Whether these activities follow each activity of a network, and these come before it.
fn are_linked(book: &Book, net: &Net, after: &[&[u32]], before: &[&[u32]]) -> bool
    requires { net.now ≡ net_of book.now }
{
    rows_for_each();
    let n = book.activities.len();
    if after.len() != n || before.len() != n {
        return false;
    }
    for a in 0..n {
        if net.successors(a as u32) != after[a] || net.predecessors(a as u32) != before[a] {
            return false;
        }
    }
    true
}

// Whether these are what each aircraft may fly first.
fn are_heads(book: &Book, net: &Net, heads: &[&[u32]]) -> bool
    requires { net.now ≡ net_of book.now }
{
    rows_for_each();
    if heads.len() != book.tails.len() {
        return false;
    }
    for k in 0..heads.len() {
        if net.heads(k as u32) != heads[k] {
            return false;
        }
    }
    true
}

// The rows of a network: what follows each activity, what comes before it, and what each aircraft may fly first.
type Links = (
    &'static [&'static [u32]],
    &'static [&'static [u32]],
    &'static [&'static [u32]],
);

// Whether these are the rows of the network that is made of a book.
fn has_links(alloc: Global, book: &Book, links: &Links) -> Result<bool, Memory> {
    let &(after, before, heads) = links;
    let net = Net::new(alloc, book)?;
    Ok(are_linked(book, &net, after, before) && are_heads(book, &net, heads))
}

// Activities, aircraft, the turns of the types, and the rows of the network.
type Row = (&'static [Leg], &'static [Carried], &'static [i64], Links);

fn is_right(alloc: Global, row: &Row) -> Result<bool, Fail> {
    let &(legs, tails, turns, links) = row;
    let book = book(alloc, legs, tails, turns)?;
    Ok(has_links(alloc, &book, &links)?)
}

// There and back with half an hour between, which ground time may fill; and each for one aircraft alone, with an hour between.
const THERE: Leg = (true, (ARN, OSL), (360, 420), None);

const BACK: Leg = (true, (OSL, ARN), (450, 510), None);

const CHECK: Leg = (false, (OSL, OSL), (420, 450), None);

const FIRST: Leg = (true, (ARN, OSL), (360, 420), Some(0));

const SECOND: Leg = (true, (OSL, ARN), (480, 540), Some(1));

// An aircraft that is ready an hour before the first flight; and two, of which one is ready a minute after it starts, and the
// other just then.
const EARLY: Carried = (0, ARN, 300);

const LATE: &[Carried] = &[(0, ARN, 361), (1, ARN, 360)];

// There and back: a turn that is met exactly and missed by a minute; one type of two whose turn fits; a check between,
// which asks for no turn; an aircraft that is ready a minute late; two of which neither may fly both; nothing to fly,
// and nobody.
const ROWS: &[Row] = &[
    (
        &[THERE, BACK],
        &[EARLY],
        &[30],
        (&[&[1], &[]], &[&[], &[0]], &[&[0]]),
    ),
    (
        &[THERE, BACK],
        &[EARLY],
        &[31],
        (&[&[], &[]], &[&[], &[]], &[&[0]]),
    ),
    (
        &[THERE, BACK],
        LATE,
        &[31, 30],
        (&[&[1], &[]], &[&[], &[0]], &[&[], &[0]]),
    ),
    (
        &[THERE, CHECK, BACK],
        &[EARLY],
        &[31],
        (&[&[1], &[2], &[]], &[&[], &[0], &[1]], &[&[0]]),
    ),
    (
        &[FIRST, SECOND],
        LATE,
        &[31, 30],
        (&[&[], &[]], &[&[], &[]], &[&[], &[]]),
    ),
    (&[], &[EARLY], &[30], (&[], &[], &[&[]])),
    (&[THERE, BACK], &[], &[30], (&[&[], &[]], &[&[], &[]], &[])),
];

fn rows() -> &'static [Row] {
    ROWS
}

#[test]
fn small_networks(rt: HostRuntime) -> Result<(), Fail> {
    for (number, row) in rows().iter().enumerate() {
        assert!(rt; is_right(rt.alloc(), row)?, "row {number}");
    }
    Ok(())
}
