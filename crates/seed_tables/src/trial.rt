//! The three texts of a trial.
//!
//! Flights are made for each aircraft in turn, each from where the one before it ends, and with stops that are long
//! enough for every turn and every limit. So some legal plan is known from the start, with its cost, and a search that
//! is given the texts alone has to find one as good.

ghost use Rattle.std.specs.Prelude.{◌≡◌, ◌++◌, ◌≤◌, ◌<◌, ◌+◌, map, IfOk, OnOk};
ghost use Rattle.seed_tables.specs.Draws.{after, next};
ghost use Rattle.seed_tables.specs.Flights.{airports_from, all_flights_from, behind, flights_from, flights_of};
ghost use Rattle.seed_tables.specs.Making.{HasBook};
ghost use Rattle.seed_tables.specs.Rows.{flight_fields, lines_of};
ghost use Rattle.seed_tables.specs.Trial.{fleet_rows, rules_text, trial_of};

use crate::draws::{drawn, next};
use crate::flight::flight_of;
use crate::laws::trials_are_books;
use crate::rows::{add_aircraft, add_flight};
use std::alloc::Global;
use std::marker::Model;
use tail_book::Memory;
use tail_text::Line;

/// The largest seed of a trial.
pub const SEED_LIMIT: u64 = 1_000_000;

const AIRCRAFT: u64 = 8;

const FLIGHTS: u64 = 15;

const TIMETABLE_HEADER: &[u8] = b"id,kind,from,to,start,end,types,tags,tail,resets\n";

const FLEET_HEADER: &[u8] = b"tail,type,at,ready,fixed,tags,avoid,carry\n";

/// The texts of a trial's tables. Contracts see the record of its texts.
#[derive(Debug, Drop)]
pub struct Trial {
    pub timetable: Vec<u8>,
    pub fleet: Vec<u8>,
    pub rules: Vec<u8>,
}

impl Model for Trial {
    ghost use Rattle.seed_tables.specs.Trial.{TrialSeen};

    ghost Value = { TrialSeen };

    ghost view = { λ t. record { timetable = t.timetable.items; fleet = t.fleet.items; rules = t.rules.items } };
}

// Adds the lines of the flights of aircraft k, and answers the state behind their draws.
fn add_flights(k: u64, first: u64, x: u64, timetable: &mut Line) -> Result<u64, Memory>
    requires { first < 5 }
    ensures state { IfOk result (λ y. y ≡ after 45 x) }
    ensures text { OnOk result (timetable.new ≡ timetable.old ++ lines_of (map flight_fields (flights_from 15 k 0 first 0 x))) }
{
    let mut at = first;
    let mut since = 0;
    let mut x = x;
    for j in 0..FLIGHTS {
        let flight = flight_of(k, j, at, since, x);
        add_flight(&flight, timetable)?;
        at = flight.to;
        since = flight.end;
        x = next(next(next(x)));
    }
    Ok(x)
}

// Adds the lines of aircraft k and of its flights, and answers the state behind its draws.
fn add_both(k: u64, x: u64, timetable: &mut Line, fleet: &mut Line) -> Result<u64, Memory>
    ensures state { IfOk result (λ y. y ≡ behind x) }
    ensures timetable { OnOk result (timetable.new ≡ timetable.old ++ lines_of (map flight_fields (flights_of k x))) }
    ensures fleet { OnOk result (fleet.new ≡ fleet.old ++ lines_of (fleet_rows k (airports_from 1 x))) }
{
    let x = next(x);
    let first = drawn(x, 5);
    add_aircraft(k, first, fleet)?;
    let behind = add_flights(k, first, x, timetable)?;
    Ok(behind)
}

fn add_all(seed: u64, timetable: &mut Line, fleet: &mut Line) -> Result<(), Memory>
    ensures timetable { OnOk result (timetable.new ≡ timetable.old ++ lines_of (map flight_fields (all_flights_from 8 0 seed))) }
    ensures fleet { OnOk result (fleet.new ≡ fleet.old ++ lines_of (fleet_rows 0 (airports_from 8 seed))) }
{
    let mut x = seed;
    for k in 0..AIRCRAFT {
        x = add_both(k, x, timetable, fleet)?;
    }
    Ok(())
}

fn rules_text(alloc: Global) -> Result<Vec<u8>, Memory>
    ensures { IfOk result (λ text. text.items ≡ rules_text) }
{
    let mut text = Line::new(alloc)?;
    text.text(
        b"[[type]]\nname = \"P\"\nrate = 1\nturn = 30\n[[type]]\nname = \"Q\"\nrate = 2\nturn = 30\n",
    )?;
    text.text(
        b"[[airport]]\nname = \"T0\"\noffset = 0\nturn = 20\n[[airport]]\nname = \"T1\"\noffset = 0\nturn = 20\n",
    )?;
    text.text(
        b"[[airport]]\nname = \"T2\"\noffset = 0\nturn = 20\n[[airport]]\nname = \"T3\"\noffset = 0\nturn = 20\n",
    )?;
    text.text(b"[[airport]]\nname = \"T4\"\noffset = 0\nturn = 20\n")?;
    text.text(
        b"[[counter]]\nname = \"fh\"\nkind = \"minutes\"\nlimit = 900\nbases = [\"T0\", \"T1\", \"T2\", \"T3\", \"T4\"]\nstop = 480\n",
    )?;
    text.text(
        b"[[counter]]\nname = \"ldg\"\nkind = \"landings\"\nlimit = 20\nbases = []\nstop = 1\n",
    )?;
    Ok(text.bytes().to_vec(alloc)?)
}

/// The three tables of a seed.
pub fn trial_tables(alloc: Global, seed: u64) -> Result<Trial, Memory>
    requires { seed ≤ SEED_LIMIT }
    ensures texts { IfOk result (λ trial. trial ≡ trial_of seed) }
    ensures book { IfOk result (λ trial. HasBook seed trial) }
{
    trials_are_books();
    let mut timetable = Line::new(alloc)?;
    let mut fleet = Line::new(alloc)?;
    timetable.text(TIMETABLE_HEADER)?;
    fleet.text(FLEET_HEADER)?;
    add_all(seed, &mut timetable, &mut fleet)?;
    Ok(Trial {
        timetable: timetable.bytes().to_vec(alloc)?,
        fleet: fleet.bytes().to_vec(alloc)?,
        rules: rules_text(alloc)?,
    })
}
