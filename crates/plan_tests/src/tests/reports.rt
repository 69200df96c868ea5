//! Reports, audits and plan files, on a book of three flights and two aircraft.

ghost use Rattle.std.specs.Prelude.{◌≡◌, ◌<◌, IfOk, length, All};
ghost use Rattle.tail_book.specs.Lookup.{activities, aircraft};
ghost use Rattle.plan_report.specs.inside.AuditText.{AreOfBook};
ghost use Rattle.plan_report.specs.inside.Report.{HasPlanFor, IsPlanFor};

use plan_audit::{Audit, Broken};
use plan_report::*;
use small_books::{named_flight, named_tail};
use std::alloc::Global;
use std::process::Abort;
use std::test::Fail;
use tail_book::*;
use tail_outside::MemSink;
use tail_text::Stopped;

// The numbers of the flights F1, F2 and F3, and of the aircraft A1 and A2.
const F1: u32 = 0;

const F2: u32 = 1;

const F3: u32 = 2;

const A1: u32 = 0;

const A2: u32 = 1;

fn flight(alloc: Global, id: Name, start: i64, end: i64) -> Activity {
    named_flight(alloc, id, (0, 0), (start, end))
}

// One type, one airport, and a counter of minutes.
fn rules(alloc: Global) -> Result<Rules, Memory>
    ensures { IfOk result (λ r. length r.counters ≡ 1) }
{
    let kinds = vec![in alloc;
        AircraftType {
            name: Name::new(b"P".as_slice()),
            rate: 1,
            turn: 30
        },
    ]?;
    let airports = vec![in alloc; Airport::fixed(alloc, Name::new(b"ARN".as_slice()), 60, 30)]?;
    let counter = Counter {
        name: Name::new(b"fh".as_slice()),
        kind: CounterKind::Minutes,
        limit: 120,
        bases: Vec::new(alloc),
        stop: 60,
    };
    let counters = vec![in alloc; counter]?;
    Ok(Rules {
        kinds,
        airports,
        curfews: Vec::new(alloc),
        counters,
        bands: Vec::new(alloc),
    })
}

fn tail(alloc: Global, name: Name) -> Result<Tail, Memory> {
    let mut tail = named_tail(alloc, name, 0, 0, 0);
    tail.carry = vec![in alloc; 0]?;
    Ok(tail)
}

fn book(alloc: Global) -> Result<Book, Fail>
    ensures activities { IfOk result (λ b. activities b ≡ 3) }
    ensures aircraft { IfOk result (λ b. aircraft b ≡ 2) }
    ensures counters { IfOk result (λ b. length b.rules.counters ≡ 1) }
{
    let rules = rules(alloc)?;
    let first = tail(alloc, Name::new(b"A1".as_slice()))?;
    let second = tail(alloc, Name::new(b"A2".as_slice()))?;
    let tails = vec![in alloc; first, second]?;
    let activities = vec![in alloc;
        flight(alloc, Name::new(b"F1".as_slice()), 360, 420),
        flight(alloc, Name::new(b"F2".as_slice()), 450, 510),
        flight(alloc, Name::new(b"F3".as_slice()), 540, 600),
    ]?;
    match Book::new(activities, tails, rules) {
        Some(book) => Ok(book),
        None => Err(Fail::new("no book")),
    }
}

// The plan of these two routes.
fn plan(alloc: Global, book: &Book, first: &[u32], second: &[u32]) -> Result<Plan, Memory>
    requires aircraft { aircraft book.now ≡ 2 }
    requires first { All (λ a. a < activities book.now) first.now }
    requires second { All (λ a. a < activities book.now) second.now }
    ensures { IfOk result (IsPlanFor book.now) }
{
    let (first, second) = (Route(first.to_vec(alloc)?), Route(second.to_vec(alloc)?));
    let listed = vec![in alloc; first, second]?;
    Ok(Plan(listed))
}

fn add_name(text: &mut Vec<u8>, name: &Name, end: &[u8]) -> Result<(), Memory> {
    text.extend_from_slice(name.as_bytes())?;
    text.extend_from_slice(end)?;
    Ok(())
}

// The names of a plan that was read, each with a comma behind it, and a semicolon behind each line.
fn names_of(alloc: Global, plan: &RawPlan) -> Result<Vec<u8>, Memory> {
    let mut text = Vec::new(alloc);
    for line in plan.lines.iter() {
        add_name(&mut text, &line.tail, b",".as_slice())?;
        for id in line.ids.iter() {
            add_name(&mut text, id, b",".as_slice())?;
        }
        text.extend_from_slice(b";".as_slice())?;
    }
    Ok(text)
}

// What the reading of a plan file answers: the names of the plan, or the line of the refusal.
fn answered(alloc: Global, text: &[u8]) -> Result<Vec<u8>, Memory> {
    match read_plan(alloc, text) {
        Ok(plan) => names_of(alloc, &plan),
        Err(Stopped::Refused(refusal)) => {
            let line = refusal_line(alloc, refusal)?;
            Ok(line.bytes().to_vec(alloc)?)
        }
        Err(Stopped::Memory) => Ok(b"no memory".to_vec(alloc)?),
    }
}

// A text of a front, a piece so many times, and an end.
type Pieces = (&'static [u8], &'static [u8], u32, &'static [u8]);

fn text_of(alloc: Global, pieces: &Pieces) -> Result<Vec<u8>, Memory> {
    let &(front, piece, times, end) = pieces;
    let mut text = front.to_vec(alloc)?;
    for _ in 0..times {
        text.extend_from_slice(piece)?;
    }
    text.extend_from_slice(end)?;
    Ok(text)
}

// Whether the reading of a text answers this.
fn is_answered(alloc: Global, text: &[u8], want: &[u8]) -> bool {
    match answered(alloc, text) {
        Ok(told) => told.as_slice() == want,
        Err(_) => false,
    }
}

// The same of texts of pieces.
fn are_answered(alloc: Global, text: &Pieces, want: &Pieces) -> Result<bool, Memory> {
    let text = text_of(alloc, text)?;
    let want = text_of(alloc, want)?;
    Ok(is_answered(alloc, &text, &want))
}

// Whether what was taken is the front of a text, of so many bytes.
fn is_front(taken: &[u8], text: &str, length: usize) -> bool {
    taken.len() == length && text.as_bytes().starts_with(taken)
}

// The put that fails, how the writing ends, and how many bytes were taken.
type Failing = (u64, Result<(), ReportFail>, usize);

// A sink of which the put of this number fails.
fn sink(alloc: Global, failing: u64) -> Result<MemSink, Memory> {
    let puts = vec![in alloc; failing]?;
    MemSink::new(alloc, puts)
}

// Whether the report of an outcome ends so. What the sink took is the lines before the put that fails.
fn report_ends_so(
    alloc: Global,
    book: &Book,
    outcome: &Outcome,
    whole: &str,
    row: &Failing,
) -> Result<bool, Memory>
    requires { HasPlanFor book.now outcome.now }
{
    let &(failing, want, length) = row;
    let mut sink = sink(alloc, failing)?;
    let ended = write_report(alloc, book, outcome, &mut sink);
    Ok(ended == want && is_front(sink.bytes(), whole, length))
}

// Reports the outcome whole, and where each put fails in turn.
fn fails_in_turn(
    rt: &impl Abort,
    alloc: Global,
    book: &Book,
    outcome: &Outcome,
    whole: &str,
) -> Result<(), Fail>
    requires { HasPlanFor book.now outcome.now }
{
    for row in &[
        (0, Ok(()), 29),
        (1, Err(ReportFail::Write), 0),
        (2, Err(ReportFail::Write), 12),
        (3, Err(ReportFail::Write), 22),
        (4, Ok(()), 29),
    ] {
        assert!(rt;
            report_ends_so(alloc, book, outcome, whole, row)?,
            "at {}",
            row.0
        );
    }
    Ok(())
}

#[test]
fn a_plan_is_reported(rt: HostRuntime) -> Result<(), Fail> {
    let book = book(rt.alloc())?;
    let outcome = Outcome::Optimal(plan(rt.alloc(), &book, &[F1, F3], &[F2])?, 180);
    let whole = "optimal 180\nA1: F1 F3\nA2: F2\n";
    fails_in_turn(&rt, rt.alloc(), &book, &outcome, whole)
}

// Whether an outcome is reported so.
fn is_reported(alloc: Global, book: &Book, outcome: &Outcome, text: &str) -> Result<bool, Memory>
    requires { HasPlanFor book.now outcome.now }
{
    let mut sink = sink(alloc, 0)?;
    let ended = write_report(alloc, book, outcome, &mut sink);
    Ok(ended.is_ok() && sink.bytes() == text.as_bytes())
}

// Whether a bound with a plan that leaves an aircraft at home is reported so.
fn between_is_reported(alloc: Global, book: &Book, text: &str) -> Result<bool, Memory>
    requires activities { activities book.now ≡ 3 }
    requires aircraft { aircraft book.now ≡ 2 }
{
    let plan = plan(alloc, book, &[], &[F1, F2, F3])?;
    let between = Outcome::Between {
        plan,
        low: 0,
        high: 180,
        nodes: 3,
    };
    is_reported(alloc, book, &between, text)
}

// The other outcomes: no plan, a bound with a plan, and a bound alone.
#[test]
fn each_outcome_is_reported(rt: HostRuntime) -> Result<(), Fail> {
    let book = book(rt.alloc())?;
    let (low, nodes) = (u64::MAX, 3);
    let (none, above) = (Outcome::Infeasible, Outcome::Above { low, nodes });
    let text = "limit 0 180\nA1:\nA2: F1 F2 F3\n";
    assert!(rt; is_reported(rt.alloc(), &book, &none, "infeasible\n")?);
    assert!(rt; is_reported(rt.alloc(), &book, &above, "limit 18446744073709551615 -\n")?);
    assert!(rt; between_is_reported(rt.alloc(), &book, text)?);
    Ok(())
}

// Whether what is written of an outcome is read as these names.
fn is_read_back(alloc: Global, book: &Book, outcome: &Outcome, names: &[u8]) -> Result<bool, Memory>
    requires { HasPlanFor book.now outcome.now }
{
    let mut sink = sink(alloc, 0)?;
    let ended = write_report(alloc, book, outcome, &mut sink);
    Ok(ended.is_ok() && is_answered(alloc, sink.bytes(), names))
}

// What was written is read as the plan's names.
#[test]
fn a_report_is_read_back(rt: HostRuntime) -> Result<(), Fail> {
    let book = book(rt.alloc())?;
    let outcome = Outcome::Optimal(plan(rt.alloc(), &book, &[F2, F1], &[])?, u64::MAX);
    assert!(rt; is_read_back(rt.alloc(), &book, &outcome, b"A1,F2,F1,;A2,;".as_slice())?);
    Ok(())
}

// A text, and what its reading answers.
type Answered = (&'static [u8], &'static [u8]);

// First lines of each form, and near misses.
const FIRST_LINES: &[Answered] = &[
    (b"optimal 0\n", b""),
    (b"optimal 18446744073709551615\n", b""),
    (b"limit 0 18446744073709551615\n", b""),
    (b"limit 7 7\n", b""),
    (b"limit 8 7\n", b""),
    (b"\xEF\xBB\xBFoptimal 1\n", b""),
    (b"", b"refused 3 plan 1\n"),
    (b"\n", b"refused 3 plan 1\n"),
    (b"optimal 1", b"refused 3 plan 1\n"),
    (b"optimal 1\r\n", b"refused 3 plan 1\n"),
    (
        b"\xEF\xBB\xBF\xEF\xBB\xBFoptimal 1\n",
        b"refused 3 plan 1\n",
    ),
    (b"\xEF\xBBoptimal 1\n", b"refused 3 plan 1\n"),
    (b"optimal 01\n", b"refused 3 plan 1\n"),
    (b"optimal +1\n", b"refused 3 plan 1\n"),
    (b"optimal 18446744073709551616\n", b"refused 3 plan 1\n"),
    (b"optimal\n", b"refused 3 plan 1\n"),
    (b"optimal \n", b"refused 3 plan 1\n"),
    (b"optimal  1\n", b"refused 3 plan 1\n"),
    (b"optimal 1 \n", b"refused 3 plan 1\n"),
    (b"optimal 1 2\n", b"refused 3 plan 1\n"),
    (b" optimal 1\n", b"refused 3 plan 1\n"),
    (b"Optimal 1\n", b"refused 3 plan 1\n"),
    (b"limit 1\n", b"refused 3 plan 1\n"),
    (b"limit 1 -\n", b"refused 3 plan 1\n"),
    (b"limit 1 02\n", b"refused 3 plan 1\n"),
    (b"limit 01 2\n", b"refused 3 plan 1\n"),
    (b"limit 1 2 3\n", b"refused 3 plan 1\n"),
    (b"infeasible\n", b"refused 3 plan 1\n"),
    (b"legal 1\n", b"refused 3 plan 1\n"),
    (b"infeasible\nA1\n", b"refused 3 plan 1\n"),
];

// Later lines: names need not be of any book, and may be repeated. The first bad line decides.
const LATER_LINES: &[Answered] = &[
    (b"optimal 1\nA1: F1 F2\nA2:\n", b"A1,F1,F2,;A2,;"),
    (b"limit 2 1\nA1: F1 F1\nA1: F9\n", b"A1,F1,F1,;A1,F9,;"),
    (b"optimal 1\n7-b_C: 0\n", b"7-b_C,0,;"),
    (
        b"optimal 1\nabcdefghij012345: abcdefghij012345\n",
        b"abcdefghij012345,abcdefghij012345,;",
    ),
    (b"optimal 1\nA1:\nA2:", b"refused 4 plan 3\n"),
    (b"optimal 1\nA1: F1", b"refused 4 plan 2\n"),
    (b"optimal 1\n\n", b"refused 4 plan 2\n"),
    (b"optimal 1\nA1:\n\nA2:\n", b"refused 4 plan 3\n"),
    (b"optimal 1\nA1: F1\r\n", b"refused 4 plan 2\n"),
    (b"optimal 1\nA1:  F1\n", b"refused 4 plan 2\n"),
    (b"optimal 1\nA1: F1 \n", b"refused 4 plan 2\n"),
    (b"optimal 1\nA1: \n", b"refused 4 plan 2\n"),
    (b"optimal 1\nA1:F1\n", b"refused 4 plan 2\n"),
    (b"optimal 1\nA1 : F1\n", b"refused 4 plan 2\n"),
    (b"optimal 1\nA1 F1\n", b"refused 4 plan 2\n"),
    (b"optimal 1\nA1:: F1\n", b"refused 4 plan 2\n"),
    (b"optimal 1\n: F1\n", b"refused 4 plan 2\n"),
    (b"optimal 1\n A1: F1\n", b"refused 4 plan 2\n"),
    (b"optimal 1\nA1: F1 -F2\n", b"refused 4 plan 2\n"),
    (b"optimal 1\nA1: F1 F2:\n", b"refused 4 plan 2\n"),
    (b"optimal 1\nA1:\tF1\n", b"refused 4 plan 2\n"),
    (b"optimal 1\nA1: abcdefghij0123456\n", b"refused 4 plan 2\n"),
    (b"optimal 1\nA1: \xC3\x85\n", b"refused 4 plan 2\n"),
    (b"optimal 1\nA1: F\xFF\n", b"refused 4 plan 2\n"),
    (
        b"optimal 1\nA1: F1\n\xEF\xBB\xBFA2:\n",
        b"refused 4 plan 3\n",
    ),
    (b"optimal 1\noptimal 1\n", b"refused 4 plan 2\n"),
];

fn lines() -> [&'static [Answered]; 2] {
    [FIRST_LINES, LATER_LINES]
}

// The number of the first text that is answered otherwise.
fn first_wrong(alloc: Global, rows: &[Answered]) -> Option<usize> {
    for (number, (text, want)) in rows.iter().enumerate() {
        if !is_answered(alloc, text, want) {
            return Some(number);
        }
    }
    None
}

#[test]
fn plan_files_are_read(rt: HostRuntime) {
    let [first, later] = lines();
    let wrong = first_wrong(rt.alloc(), first);
    assert!(rt; wrong.is_none(), "first lines, row {wrong:?}");
    let wrong = first_wrong(rt.alloc(), later);
    assert!(rt; wrong.is_none(), "later lines, row {wrong:?}");
}

// Texts with many lines or ids, and what their reading answers.
type Many = (Pieces, Pieces);

const MANY: &[Many] = &[
    // 200 later lines are taken, and one more is too many before it is looked at, but not before the lines above it.
    (
        (b"optimal 1\n", b"A:\n", 199, b"B: F\n"),
        (b"", b"A,;", 199, b"B,F,;"),
    ),
    (
        (b"optimal 1\n", b"A:\n", 200, b"A:\n"),
        (b"refused 10 plan 202\n", b"", 0, b""),
    ),
    (
        (b"optimal 1\n", b"A:\n", 200, b"not a line"),
        (b"refused 10 plan 202\n", b"", 0, b""),
    ),
    (
        (b"optimal 1\n", b"A:\n", 201, b"A:\n"),
        (b"refused 10 plan 202\n", b"", 0, b""),
    ),
    (
        (b"optimal 1\n", b"A:\n", 199, b"A\nA:\n"),
        (b"refused 4 plan 201\n", b"", 0, b""),
    ),
    // 4,000 ids are taken, and one more is too many, but not before a bad one behind it.
    (
        (b"optimal 1\nA1:", b" F", 4000, b"\n"),
        (b"A1,", b"F,", 4000, b";"),
    ),
    (
        (b"optimal 1\nA1:", b" F", 4001, b"\n"),
        (b"refused 10 plan 2\n", b"", 0, b""),
    ),
    (
        (b"optimal 1\nA1:", b" F", 4001, b"\nA2\n"),
        (b"refused 10 plan 2\n", b"", 0, b""),
    ),
    (
        (b"optimal 1\nA1:", b" F", 4001, b" -\n"),
        (b"refused 4 plan 2\n", b"", 0, b""),
    ),
    (
        (b"optimal 1\nA1:", b" F", 4001, b""),
        (b"refused 4 plan 2\n", b"", 0, b""),
    ),
];

fn many() -> &'static [Many] {
    MANY
}

#[test]
fn lines_and_ids_too_many(rt: HostRuntime) -> Result<(), Fail> {
    for (number, (text, want)) in many().iter().enumerate() {
        assert!(rt; are_answered(rt.alloc(), text, want)?, "row {number}");
    }
    Ok(())
}

// Whether so many newlines are answered so.
fn are_newlines_answered(alloc: Global, size: usize, want: &[u8]) -> Result<bool, Memory> {
    let text = vec![in alloc; b'\n'; size]?;
    Ok(is_answered(alloc, &text, want))
}

// A file of the greatest size is looked at, and one of a byte more is not.
#[test]
fn files_too_big(rt: HostRuntime) -> Result<(), Fail> {
    let (looked_at, too_big) = (b"refused 3 plan 1\n", b"refused 1 plan 0\n");
    assert!(rt; are_newlines_answered(rt.alloc(), 16_777_216, looked_at)?);
    assert!(rt; are_newlines_answered(rt.alloc(), 16_777_217, too_big)?);
    Ok(())
}

// Whether the audit ends so where a put fails.
fn audit_ends_so(
    alloc: Global,
    book: &Book,
    audit: &Audit,
    whole: &str,
    row: &Failing,
) -> Result<bool, Memory>
    requires { AreOfBook book.now audit.now }
{
    let &(failing, want, length) = row;
    let mut sink = sink(alloc, failing)?;
    let ended = write_audit(alloc, book, audit, &mut sink);
    Ok(ended == want && is_front(sink.bytes(), whole, length))
}

// Writes the audit whole, and where one put or another fails.
fn audit_fails(
    rt: &impl Abort,
    alloc: Global,
    book: &Book,
    audit: &Audit,
    whole: &str,
) -> Result<(), Fail>
    requires { AreOfBook book.now audit.now }
{
    for row in &[
        (0, Ok(()), 102),
        (1, Err(ReportFail::Write), 0),
        (2, Err(ReportFail::Write), 9),
        (8, Err(ReportFail::Write), 85),
        (9, Ok(()), 102),
    ] {
        assert!(rt;
            audit_ends_so(alloc, book, audit, whole, row)?,
            "at {}",
            row.0
        );
    }
    Ok(())
}

// An audit with each kind of broken rule.
#[test]
fn broken_rules_are_written(rt: HostRuntime) -> Result<(), Fail> {
    let book = book(rt.alloc())?;
    let (f9, a7) = (Name::new(b"F9".as_slice()), Name::new(b"A7".as_slice()));
    let rules = vec![in rt.alloc();
        Broken::Unknown(f9),
        Broken::Twice(a7),
        Broken::Uncovered(F3),
        Broken::NotAllowed(A1, F1),
        Broken::Curfew(A2, F2),
        Broken::NoLink(A2, F1),
        Broken::Counter(A1, F3, 0),
    ]?;
    let whole = "broken 7\nunknown F9\ntwice A7\nuncovered F3\nnotallowed A1 F1\n\
curfew A2 F2\nnolink A2 F1\ncounter A1 F3 fh\n";
    audit_fails(&rt, rt.alloc(), &book, &Audit::Broken(rules), whole)
}

// Whether an audit is written so.
fn is_written(alloc: Global, book: &Book, audit: &Audit, text: &str) -> Result<bool, Memory>
    requires { AreOfBook book.now audit.now }
{
    let mut sink = sink(alloc, 0)?;
    let ended = write_audit(alloc, book, audit, &mut sink);
    Ok(ended.is_ok() && sink.bytes() == text.as_bytes())
}

// An audit of a legal plan, and one without broken rules.
#[test]
fn legal_plans_are_written(rt: HostRuntime) -> Result<(), Fail> {
    let book = book(rt.alloc())?;
    let legal = Audit::Legal(u64::MAX);
    assert!(rt; is_written(rt.alloc(), &book, &legal, "legal 18446744073709551615\n")?);
    let none = Audit::Broken(Vec::new(rt.alloc()));
    assert!(rt; is_written(rt.alloc(), &book, &none, "broken 0\n")?);
    Ok(())
}
