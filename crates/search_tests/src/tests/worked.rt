//! Searches of books that are known by hand, with all that they tell.

ghost use Rattle.tail_book.specs.CostTable.{IsTableFor};

use super::{book_of, claims, label};
use branch_marks::{Event, MemTree};
use branch_tree::{Limit, search};
use small_books::costs;
use std::alloc::Global;
use tail_book::*;

const ONE_FLIGHT: &str = "id,kind,from,to,start,end,types,tags,tail,resets\n\
F1,flight,ARN,OSL,2025-03-03T06:00,2025-03-03T07:00,,,,\n";

// Two flights at once, of an hour and of two.
pub const AT_ONCE: &str = "id,kind,from,to,start,end,types,tags,tail,resets\n\
F1,flight,ARN,OSL,2025-03-03T06:00,2025-03-03T07:00,,,,\n\
F2,flight,ARN,OSL,2025-03-03T06:00,2025-03-03T08:00,,,,\n";

const NOBODY: &str = "tail,type,at,ready,fixed,tags,avoid,carry\n";

pub const CHEAP_AND_DEAR: &str = "tail,type,at,ready,fixed,tags,avoid,carry\n\
A1,P,ARN,2025-03-03T05:00,0,,,\nA2,Q,ARN,2025-03-03T05:00,0,,,\n";

pub const RULES: &str = "[[type]]\nname = \"P\"\nrate = 1\nturn = 30\n\
[[type]]\nname = \"Q\"\nrate = 2\nturn = 30\n\
[[airport]]\nname = \"ARN\"\noffset = 60\nturn = 20\n\
[[airport]]\nname = \"OSL\"\noffset = 60\nturn = 20\n";

// Whether a search by this table claims this.
fn is_claimed_by(
    alloc: Global,
    book: &Book,
    table: &CostTable,
    limit: Limit,
    claim: Claim,
    log: &mut MemTree,
) -> bool
    requires { IsTableFor book.now table.now }
{
    match search(alloc, book, table, limit, log) {
        Ok(outcome) => claims(&outcome, claim),
        Err(_) => false,
    }
}

// The same by the book's own costs.
fn is_claimed(alloc: Global, book: &Book, limit: Limit, claim: Claim, log: &mut MemTree) -> bool {
    match costs(alloc, book) {
        Ok(table) => is_claimed_by(alloc, book, &table, limit, claim, log),
        Err(_) => false,
    }
}

// The same of these flights and aircraft.
fn is_claimed_of(
    alloc: Global,
    texts: &[&str; 3],
    limit: Limit,
    claim: Claim,
    log: &mut MemTree,
) -> bool {
    match book_of(alloc, texts) {
        Some(book) => is_claimed(alloc, &book, limit, claim, log),
        None => false,
    }
}

// Whether these events were told, if it is asked for them.
fn are_told(log: &MemTree, told: Option<&[Event]>) -> bool {
    match told {
        Some(events) => log.events() == events,
        None => true,
    }
}

// Whether a search claims this and tells this.
fn is_searched(
    alloc: Global,
    texts: &[&str; 3],
    limit: Limit,
    claim: Claim,
    told: Option<&[Event]>,
) -> bool {
    match MemTree::new(alloc) {
        Ok(mut log) => {
            is_claimed_of(alloc, texts, limit, claim, &mut log) && are_told(&log, told)
        }
        Err(_) => false,
    }
}

// The root is a hole, and nothing else is told.
#[test]
fn nobody_flies(rt: HostRuntime) {
    let texts = [ONE_FLIGHT, NOBODY, RULES];
    let told = [Event::Hole(0)];
    for limit in &[Limit::Free, Limit::Nodes(1), Limit::Nodes(u64::MAX)] {
        let is_so = is_searched(rt.alloc(), &texts, *limit, Claim::Infeasible, Some(&told));
        assert!(rt; is_so, "{limit:?}");
    }
}

// The root is priced with zeros, and each aircraft might fly either for what it costs.
#[test]
fn no_node_is_counted(rt: HostRuntime) {
    let told = [
        Event::Bound,
        Event::Cover(0, 0),
        label(0, 60_000),
        label(1, 120_000),
        Event::Cover(1, 0),
        label(0, 120_000),
        label(1, 240_000),
    ];
    let texts = [AT_ONCE, CHEAP_AND_DEAR, RULES];
    let claim = Claim::Limit { low: 0, high: None };
    assert!(rt; is_searched(rt.alloc(), &texts, Limit::Nodes(0), claim, Some(&told)));
}

// With four undecided pairs no tree has more than 31 nodes. The cheap aircraft has to fly the longer flight.
#[test]
fn cheap_aircraft_flies_longer(rt: HostRuntime) {
    let texts = [AT_ONCE, CHEAP_AND_DEAR, RULES];
    for limit in &[Limit::Free, Limit::Nodes(31), Limit::Nodes(u64::MAX)] {
        let is_so = is_searched(rt.alloc(), &texts, *limit, Claim::Optimal(240), None);
        assert!(rt; is_so, "{limit:?}");
    }
}
