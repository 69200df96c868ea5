//! A search that writes its certificate as it tells its tree, and the plan and the claim at its end. Nothing of a node that
//! was told is kept for the certificate but lines that wait for the sink, one piece at a time.

ghost use Rattle.std.specs.Prelude.{◌≡◌, ◌≤◌, false, IfOk, OnErr, IsErrOf};
ghost use Rattle.tail_book.specs.Lookup.{activities, aircraft};
ghost use Rattle.tail_book.specs.Truth.{IsTrueOutcome};
ghost use Rattle.tail_book.specs.CostTable.{costs_of};
ghost use Rattle.tail_outside.specs.Outside.{PieceHasFailed};
ghost use Rattle.branch_tree.specs.Search.{EndsUnder};
ghost use Rattle.certified_search.specs.OrderedTree.{HasTreeIn};
ghost use Rattle.certified_search.specs.Written.{IsCertificateOf, IsFrontOfDue, LeavesText};
ghost use Rattle.certified_search.specs.inside.Header.{AreNumbersOf, IsStopOf};

use crate::laws::search_trees_are_accepted;
use crate::order::Order;
use crate::ordered::search_in_order;
use branch_marks::LogFail;
use branch_tree::{Limit, Stop};
use cert_lines::Version;
use cert_writer::CertLog;
use std::alloc::Global;
use tail_book::laws::{every_book_is_sound, own_costs_are_for_book, own_costs_keep_outcomes};
use tail_book::{Book, CostTable, Outcome};
use tail_outside::Sink;
use tail_text::Line;

/// How a search ended, and the sink of its certificate as it stands.
#[derive(Drop)]
pub struct Certified<S> {
    /// The outcome, or why the search or the writing stopped.
    pub found: Result<Outcome, Stop>,
    /// What took the certificate.
    pub sink: S,
}

/// Searches a book by its own costs in this order, and writes the certificate of its tree to the sink, in this version.
pub fn certified_search<S: Sink>(
    alloc: Global,
    book: &Book,
    table: &CostTable,
    limit: Limit,
    order: Order,
    version: Version,
    sink: S,
) -> Certified<S>
    requires own { table.now ≡ costs_of book.now }
    ensures truth { IfOk result.found (IsTrueOutcome book.now) }
    ensures tree { IfOk result.found (HasTreeIn order (costs_of book.now) book.now limit) }
    ensures ends { IfOk result.found (EndsUnder limit) }
    ensures written { IfOk result.found (λ outcome. LeavesText (S.shows sink) (S.shows result.sink) (IsCertificateOf book.now limit order version outcome)) }
    ensures stopped { OnErr result.found (LeavesText (S.shows sink) (S.shows result.sink) (IsFrontOfDue book.now limit order version)) }
    ensures beside { S.beside sink result.sink }
    ensures ceases { (S.shows result.sink).ceased ≡ false → (S.shows sink).ceased ≡ false }
    ensures counts { (S.shows sink).faults ≤ (S.shows result.sink).faults }
    ensures cause { IsErrOf result.found Stop.Log → PieceHasFailed (S.shows sink) (S.shows result.sink) }
{
    let line = match Line::new(alloc) {
        Ok(line) => line,
        Err(_) => {
            return Certified {
                found: Err(Stop::Memory),
                sink,
            };
        }
    };
    let mut log = CertLog::of(version, book, line, sink);
    let found = write(alloc, book, table, limit, order, &mut log);
    Certified {
        found,
        sink: log.into_sink(),
    }
}

// Why a search stopped whose log failed so.
fn stop_of(fail: LogFail) -> Stop
    ensures { IsStopOf fail result }
{
    match fail {
        LogFail::Write => Stop::Log,
        LogFail::Memory => Stop::Memory,
    }
}

// Writes the whole certificate to a log of which nothing is written yet.
fn write<S: Sink>(
    alloc: Global,
    book: &Book,
    table: &CostTable,
    limit: Limit,
    order: Order,
    log: &mut CertLog<S>,
) -> Result<Outcome, Stop>
    requires own { table.now ≡ costs_of book.now }
    requires numbers { AreNumbersOf book.now log.old.activities log.old.aircraft log.old.counters }
    ensures truth { IfOk result (IsTrueOutcome book.now) }
    ensures tree { IfOk result (HasTreeIn order (costs_of book.now) book.now limit) }
    ensures ends { IfOk result (EndsUnder limit) }
    ensures written { IfOk result (λ outcome.
        LeavesText (S.shows log.old.sink) (S.shows log.new.sink) (IsCertificateOf book.now limit order log.old.version outcome)) }
    ensures stopped { OnErr result (LeavesText (S.shows log.old.sink) (S.shows log.new.sink) (IsFrontOfDue book.now limit order log.old.version)) }
    ensures beside { S.beside log.old.sink log.new.sink }
    ensures ceases { (S.shows log.new.sink).ceased ≡ false → (S.shows log.old.sink).ceased ≡ false }
    ensures counts { (S.shows log.old.sink).faults ≤ (S.shows log.new.sink).faults }
    ensures cause { IsErrOf result Stop.Log → PieceHasFailed (S.shows log.old.sink) (S.shows log.new.sink) }
{
    every_book_is_sound(book);
    own_costs_are_for_book();
    own_costs_keep_outcomes();
    search_trees_are_accepted();
    if let Err(fail) = log.begin() {
        return Err(stop_of(fail));
    }
    let outcome = match search_in_order(alloc, book, table, limit, order, log) {
        Ok(outcome) => outcome,
        Err(stop) => return Err(stop),
    };
    match log.finish(alloc, &outcome) {
        Ok(()) => Ok(outcome),
        Err(fail) => Err(stop_of(fail)),
    }
}
