//! Certificates in memory: each kind of line, what a failed write leaves, and the end of each kind of outcome.

ghost use Rattle.std.specs.Prelude.{◌≡◌, All, IfOk, length};
ghost use Rattle.branch_marks.specs.Events.{IsNotable};
ghost use Rattle.cert_writer.specs.Trailer.{IsSpelled};

use branch_marks::{Event, Fact, LogFail, Pair, Row, TreeLog};
use cert_lines::Version;
use cert_writer::CertLog;
use std::alloc::Global;
use std::test::Fail;
use tail_book::{Book, Memory, Outcome, Plan, Route, Rules};
use tail_outside::MemSink;
use tail_text::Line;

// A book without activities and aircraft.
fn empty_book(alloc: Global) -> Result<Book, Fail> {
    let rules = Rules {
        kinds: Vec::new(alloc),
        airports: Vec::new(alloc),
        curfews: Vec::new(alloc),
        counters: Vec::new(alloc),
        bands: Vec::new(alloc),
    };
    match Book::new(Vec::new(alloc), Vec::new(alloc), rules) {
        Some(book) => Ok(book),
        None => Err(Fail::new("no book")),
    }
}

// A certificate of a book, over a sink of which these calls fail.
fn log_of(
    alloc: Global,
    version: Version,
    book: &Book,
    failing: Vec<u64>,
) -> Result<CertLog<MemSink>, Memory> {
    let sink = MemSink::new(alloc, failing)?;
    let Ok(line) = Line::new(alloc) else {
        return Err(Memory);
    };
    match version {
        Version::Full => Ok(CertLog::new(book, line, sink)),
        Version::Lean => Ok(CertLog::lean(book, line, sink)),
    }
}

// The same of the book without activities and aircraft, of which the call of one number fails.
fn log(alloc: Global, version: Version, failing: u64) -> Result<CertLog<MemSink>, Fail> {
    let book = empty_book(alloc)?;
    Ok(log_of(alloc, version, &book, vec![in alloc; failing]?)?)
}

// A bar, a split, each kind of leaf, a dual, a cover, and a label with two counters, of the cover and of a stuck leaf.
fn events() -> [Event; 9]
    ensures { All IsNotable result }
{
    [
        Event::Fact(Fact::Bar(0, 3)),
        Event::Split(Pair::Link(1, 2)),
        Event::Hole(4),
        Event::Bound,
        Event::Dual(1, -60_000),
        Event::Cover(0, 0),
        Event::Label {
            at: 0,
            weight: 60_000,
            counters: Row::new([5, 0].as_slice()),
        },
        Event::Stuck(1),
        Event::Label {
            at: 0,
            weight: 60_000,
            counters: Row::new([5, 0].as_slice()),
        },
    ]
}

// Whether the log notes the events.
fn notes(log: &mut CertLog<MemSink>, events: &[Event]) -> bool
    requires { All IsNotable events.now }
{
    for event in events {
        if log.note(event).is_err() {
            return false;
        }
    }
    true
}

// Whether the log takes its header, the events, and that no plan is legal.
fn takes_all(alloc: Global, log: &mut CertLog<MemSink>) -> bool {
    log.begin().is_ok() && notes(log, &events()) && log.finish(alloc, &Outcome::Infeasible).is_ok()
}

// Whether these bytes went to the sink.
fn wrote(log: CertLog<MemSink>, bytes: &[u8]) -> bool {
    log.into_sink().bytes() == bytes
}

const LINES: &[u8] = b"tailcert 1 0 0 0\nbar 0 3\nsplit link 1 2\nhole 4\nbound\n\
dual 1 -60000\ncover 0 0\nlabel 0 60000 5 0\nstuck 1\nlabel 0 60000 5 0\nclaim infeasible\n";

const LEAN_LINES: &[u8] = b"tailcert 2 0 0 0\nbar 0 3\nsplit link 1 2\nhole 4\nlean\n\
dual 1 -60000\nstuck 1\nlabel 0 60000 5 0\nclaim infeasible\n";

#[test]
fn each_event_has_its_line(rt: HostRuntime) -> Result<(), Fail> {
    let mut log = log(rt.alloc(), Version::Full, 0)?;
    assert!(rt; takes_all(rt.alloc(), &mut log));
    assert!(rt; wrote(log, LINES));
    Ok(())
}

// A lean certificate has no cover and none of its labels, but those of a stuck leaf.
#[test]
fn lean_leaves_have_no_covers(rt: HostRuntime) -> Result<(), Fail> {
    let mut log = log(rt.alloc(), Version::Lean, 0)?;
    assert!(rt; takes_all(rt.alloc(), &mut log));
    assert!(rt; wrote(log, LEAN_LINES));
    Ok(())
}

// Whether the log takes its header and an event, and the write of its end is told as failed.
fn fails_at_end(alloc: Global, log: &mut CertLog<MemSink>) -> bool {
    log.begin().is_ok()
        && log.note(&Event::Hole(1)).is_ok()
        && log.finish(alloc, &Outcome::Infeasible) == Err(LogFail::Write)
}

// A write that fails leaves what was written before, and is told as such.
#[test]
fn a_failed_write_is_told(rt: HostRuntime) -> Result<(), Fail> {
    let mut log = log(rt.alloc(), Version::Full, 2)?;
    assert!(rt; fails_at_end(rt.alloc(), &mut log));
    assert!(rt; log.sink.bytes() == b"tailcert 1 0 0 0\n".as_slice());
    Ok(())
}

// How many events are noted behind the header before a note fails.
fn count_noted(log: &mut CertLog<MemSink>) -> u32 {
    if log.begin().is_err() {
        return 0;
    }
    for n in 0..20_000 {
        if log.note(&Event::Hole(1)).is_err() {
            return n;
        }
    }
    20_000
}

// Lines of seven bytes wait until there are 65,536 of these, and are one piece then.
#[test]
fn many_lines_are_one_piece(rt: HostRuntime) -> Result<(), Fail> {
    let mut log = log(rt.alloc(), Version::Full, 3)?;
    assert!(rt; count_noted(&mut log) == 2 * 9_363 - 1);
    assert!(rt; log.sink.bytes().len() == 17 + 7 * 9_363);
    Ok(())
}

// The plan of two aircraft, of which each flies one of two activities.
fn crossed(alloc: Global) -> Result<Plan, Memory>
    ensures { IfOk result (λ plan. length plan ≡ 2) }
{
    let first = Route(vec![in alloc; 1]?);
    let second = Route(vec![in alloc; 0]?);
    Ok(Plan(vec![in alloc; first, second]?))
}

// A certificate of two activities and two aircraft, of which nothing is written.
fn log_of_two(alloc: Global) -> Result<CertLog<MemSink>, Memory>
    ensures { IfOk result (λ log. log.aircraft ≡ 2) }
{
    let sink = MemSink::new(alloc, Vec::new(alloc))?;
    match Line::new(alloc) {
        Ok(waiting) => Ok(CertLog {
            activities: 2,
            aircraft: 2,
            counters: 0,
            version: Version::Full,
            in_cover: false,
            waiting,
            sink,
        }),
        Err(_) => Err(Memory),
    }
}

// Whether an outcome for two aircraft ends their certificate so.
fn ends_so(alloc: Global, outcome: &Outcome, text: &[u8]) -> Result<bool, Memory>
    requires { IsSpelled 2 outcome.now }
{
    let mut log = log_of_two(alloc)?;
    Ok(log.finish(alloc, outcome).is_ok() && wrote(log, text))
}

const OPTIMAL: &[u8] = b"plan\nfly 0 1\nfly 1 0\nclaim optimal 240\n";

const BETWEEN: &[u8] = b"plan\nfly 0 1\nfly 1 0\nclaim limit 7 240\n";

fn least_ends_so(alloc: Global) -> Result<bool, Memory> {
    let least = Outcome::Optimal(crossed(alloc)?, 240);
    ends_so(alloc, &least, OPTIMAL)
}

fn bound_ends_so(alloc: Global) -> Result<bool, Memory> {
    let plan = crossed(alloc)?;
    let bound = Outcome::Between {
        plan,
        low: 7,
        high: 240,
        nodes: 1,
    };
    ends_so(alloc, &bound, BETWEEN)
}

// Who flies each activity, and the claim of each outcome.
#[test]
fn each_outcome_has_its_end(rt: HostRuntime) -> Result<(), Fail> {
    let above = Outcome::Above { low: 7, nodes: 1 };
    assert!(rt; least_ends_so(rt.alloc())?);
    assert!(rt; ends_so(rt.alloc(), &above, b"claim limit 7 -\n".as_slice())?);
    assert!(rt; bound_ends_so(rt.alloc())?);
    Ok(())
}
