//! Certificates in memory of a book of one flight, for which there is no aircraft: without a limit, at a limit of no nodes, and
//! where a write fails. Either order writes the same.

ghost use Rattle.std.specs.Prelude.{◌≡◌};
ghost use Rattle.tail_book.specs.CostTable.{costs_of};

use super::claims;
use branch_tree::{Limit, Stop};
use cert_lines::Version;
use certified_search::{Certified, Order, certified_search};
use small_books::{flight, plain_book};
use std::alloc::Global;
use std::test::Fail;
use tail_book::*;
use tail_outside::MemSink;

// A search of that book within a limit, with a sink whose calls of these numbers fail: what it claims, or why it stops, and
// what the sink took.
struct Case {
    name: &'static str,
    limit: Limit,
    failing: &'static [u64],
    found: Result<Claim, Stop>,
    taken: &'static [u8],
}

// Nobody may fly the flight. Where no node may be counted the root is only priced, and nobody's routes bound anything. The
// first write is the header, the second all the rest.
const CASES: [Case; 4] = [
    Case {
        name: "a hole is certified",
        limit: Limit::Free,
        failing: &[],
        found: Ok(Claim::Infeasible),
        taken: b"tailcert 1 1 0 0\nhole 0\nclaim infeasible\n",
    },
    Case {
        name: "a bound is certified",
        limit: Limit::Nodes(0),
        failing: &[],
        found: Ok(Claim::Limit { low: 0, high: None }),
        taken: b"tailcert 1 1 0 0\nbound\nclaim limit 0 -\n",
    },
    Case {
        name: "a failed header stops",
        limit: Limit::Free,
        failing: &[1],
        found: Err(Stop::Log),
        taken: b"",
    },
    Case {
        name: "a failed write stops",
        limit: Limit::Free,
        failing: &[2],
        found: Err(Stop::Log),
        taken: b"tailcert 1 1 0 0\n",
    },
];

fn is_found(found: &Result<Outcome, Stop>, want: Result<Claim, Stop>) -> bool {
    match (found, want) {
        (Ok(outcome), Ok(claim)) => claims(outcome, claim),
        (Err(stop), Err(due)) => *stop == due,
        _ => false,
    }
}

fn is_so(done: &Certified<MemSink>, case: &Case) -> bool {
    is_found(&done.found, case.found) && done.sink.bytes() == case.taken
}

fn sink_of(alloc: Global, failing: &[u64]) -> Result<MemSink, Memory> {
    MemSink::new(alloc, failing.to_vec(alloc)?)
}

fn writes_so(alloc: Global, book: &Book, table: &CostTable, case: &Case, order: Order) -> bool
    requires { table.now ≡ costs_of book.now }
{
    match sink_of(alloc, case.failing) {
        Ok(sink) => {
            let done = certified_search(alloc, book, table, case.limit, order, Version::Full, sink);
            is_so(&done, case)
        }
        Err(_) => false,
    }
}

// The same by the book's own costs.
fn is_written(alloc: Global, book: &Book, case: &Case, order: Order) -> bool {
    match CostTable::of(alloc, book) {
        Ok(table) => writes_so(alloc, book, &table, case, order),
        Err(_) => false,
    }
}

#[test]
fn a_lone_flight_is_certified(rt: HostRuntime) -> Result<(), Fail> {
    let book = plain_book(rt.alloc(), &[flight((0, 1), (360, 420))], &[], 30)?;
    for &order in &[Order::DepthFirst, Order::LeastBound] {
        for case in &CASES {
            assert!(rt; is_written(rt.alloc(), &book, case, order), "{}", case.name);
        }
    }
    Ok(())
}
