//! Searches of small books: beside the enumeration, at each number of nodes, and told to logs that fail; what the nodes of
//! a search come to; and what callers answer.

mod beside;
mod branching;
mod calls;
mod certificates;
mod limits;
mod logs;
mod lone_flight;
mod nodes;
mod quotas;
mod repairs;
mod starts;
mod worked;

use crate::chance::tables_by_chance;
use book_maker::read_book;
use branch_marks::{Event, LogFail, Row, TreeLog};
use dice::Dice;
use std::alloc::Global;
use tail_book::*;

// A log that keeps so many events, and whose writes fail then.
#[derive(Drop)]
struct Failing {
    room: usize,
    events: Vec<Event>,
    faults: u64,
}

impl Failing {
    fn new(alloc: Global, room: usize) -> Failing {
        Failing {
            room,
            events: Vec::new(alloc),
            faults: 0,
        }
    }

    // Whether it was told exactly so many of these events, the first ones, and failed once.
    fn has_front(&self, whole: &[Event], room: usize) -> bool {
        whole.starts_with(&self.events) && self.events.len() == room && self.faults == 1
    }
}

impl TreeLog for Failing {
    ghost use Rattle.std.specs.Prelude.{◌≡◌, ⊤, false};

    ghost shows = { λ log. record { tells = λ told. log.events.items ≡ told; torn = λ _ _. ⊥; ceased = false; faults = log.faults } };

    ghost beside = { λ _ _. ⊤ };

    fn wants_events(&self) -> bool {
        true
    }

    fn wants_labels(&self) -> bool {
        true
    }

    fn note(&mut self, event: &Event) -> Result<(), LogFail> {
        if self.room == 0 {
            self.faults = self.faults.saturating_add(1);
            return Err(LogFail::Write);
        }
        match self.events.push(*event) {
            Ok(()) => {
                self.room -= 1;
                Ok(())
            }
            Err(_) => Err(LogFail::Memory),
        }
    }

    ghost beside_same = { λ _. tt };

    ghost beside_chains = { λ _ _ _ _ _. tt };
}

// A label of a book without counters.
fn label(at: u32, weight: i64) -> Event {
    Event::Label {
        at,
        weight,
        counters: Row::new(&[]),
    }
}

// The book of the texts of a timetable, a fleet and rules.
fn book_of(alloc: Global, texts: &[&str; 3]) -> Option<Book> {
    let [timetable, fleet, rules] = texts;
    match read_book(
        alloc,
        timetable.as_bytes(),
        fleet.as_bytes(),
        rules.as_bytes(),
    ) {
        Ok(book) => Some(book),
        Err(_) => None,
    }
}

// The next book by chance.
fn book_by_chance(alloc: Global, dice: &mut Dice) -> Option<Book> {
    match tables_by_chance(alloc, dice) {
        Ok(tables) => book_of(alloc, &[&tables.timetable, &tables.fleet, &tables.rules]),
        Err(_) => None,
    }
}

// How many nodes these events tell.
fn nodes_in(events: &[Event]) -> u64 {
    let mut nodes = 0u64;
    for event in events {
        if matches!(
            event,
            Event::Split(_) | Event::Hole(_) | Event::Stuck(_) | Event::Bound
        ) {
            nodes = nodes.saturating_add(1);
        }
    }
    nodes
}

// Whether an outcome claims this, and counted no node at a limit.
fn claims(outcome: &Outcome, claim: Claim) -> bool {
    claim_of(outcome) == claim
        && matches!(
            outcome,
            Outcome::Infeasible | Outcome::Optimal(_, _) | Outcome::Above { nodes: 0, .. }
        )
}
