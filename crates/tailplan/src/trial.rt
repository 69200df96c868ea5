//! A trial: the tables that a seed makes are read, planned and certified in memory, the certificate is judged, and what was found is
//! told in three lines. Nothing outside is read, so a trial shows that the program works where it is installed.

ghost use Rattle.std.specs.Prelude.{◌≡◌, ◌≤◌, ℕ, false, true, List, ⊤, IfOk, OnErr, OnOk, IsErrOf};
ghost use Rattle.cert_checker.specs.Verdict.{verdict};
ghost use Rattle.plan_report.specs.Report.{first_line};
ghost use Rattle.tailplan.specs.Trials.{IsTrialAnswer, IsTriedOf, TrialPromise, check_line, lines_of_tried, size_line};
ghost use Rattle.tailplan.specs.inside.Outcomes.{outcome_status};
ghost use Rattle.tailplan.specs.inside.Trials.{IsYes};
ghost use Rattle.seed_tables.specs.Making.{IsBookOfTrial};
ghost use Rattle.seed_tables.specs.Trial.{trial_of};

use crate::answer::outcome_status;
use crate::usage::usage_line;
use book_maker::read_book;
use branch_tree::Limit;
use cert_checker::laws::accepted_is_yes;
use cert_checker::{Verdict, judge};
use cert_lines::Version;
use certified_search::{Certified, Order, certified_search};
use plan_report::{ReportFail, first_line, write_lines};
use run_frame::{Answer, Finding, Status, print};
use seed_tables::{SEED_LIMIT, trial_tables};
use std::alloc::Global;
use tail_book::{Book, CostTable, Memory, Outcome};
use tail_outside::{MemSink, Sink};
use tail_text::Line;

/// The most nodes that the search of a trial counts.
pub const TRIAL_NODES: u64 = 50;

/// Who judges the certificate of a trial: the checker, or in a test one that sees what is asked of it.
pub trait Judge {
    /// The verdict on a text as a certificate of the book.
    fn judge(&mut self, alloc: Global, book: &Book, text: &[u8]) -> Result<Verdict, Memory>
        ensures { IfOk result (λ answer. answer ≡ verdict book.now text.now) };
}

/// The checker.
#[derive(Clone, Copy, Debug)]
pub struct Checker;

impl Judge for Checker {
    fn judge(&mut self, alloc: Global, book: &Book, text: &[u8]) -> Result<Verdict, Memory> {
        judge(alloc, book, text)
    }
}

/// What a trial found, and whether its certificate was accepted.
#[derive(Debug, Drop)]
pub struct Tried {
    /// The seed of the tables.
    pub seed: u64,
    /// What was found in them.
    pub outcome: Outcome,
    /// Whether the certificate was accepted.
    pub accepted: bool,
}

impl Finding for Tried {
    ghost lines = { lines_of_tried };

    ghost code = { λ t. outcome_status t.outcome };

    ghost is_printable = { λ t. ⊤ };

    fn status(&self) -> Status {
        outcome_status(&self.outcome)
    }

    fn write<S: Sink>(&self, alloc: Global, out: &mut S) -> Result<(), ReportFail> {
        let Ok(lines) = self.lines(alloc) else {
            return Err(ReportFail::Memory);
        };
        write_lines(&lines, out)
    }
}

impl Tried {
    fn lines(&self, alloc: Global) -> Result<Vec<Line>, Memory>
        ensures { IfOk result (λ lines. lines.items ≡ lines_of_tried self.now) }
    {
        let mut lines = Vec::new(alloc);
        lines.push(size_line(alloc, self.seed)?)?;
        lines.push(first_line(alloc, &self.outcome)?)?;
        lines.push(check_line(alloc, self.accepted)?)?;
        Ok(lines)
    }
}

// The size of every trial, behind its seed.
fn size_line(alloc: Global, seed: u64) -> Result<Line, Memory>
    ensures { IfOk result (λ line. line ≡ size_line seed) }
{
    let mut line = Line::new(alloc)?;
    line.text(b"trial ")?;
    line.unsigned(seed)?;
    line.text(b" activities 120 aircraft 8\n")?;
    Ok(line)
}

// Whether the certificate was accepted.
fn check_line(alloc: Global, accepted: bool) -> Result<Line, Memory>
    ensures { IfOk result (λ line. line ≡ check_line accepted) }
{
    let mut line = Line::new(alloc)?;
    line.text(if accepted {
        b"check yes\n".as_slice()
    } else {
        b"check no\n".as_slice()
    })?;
    Ok(line)
}

/// Runs the trial of a seed, and prints what it found.
pub fn run_trial<J: Judge, S: Sink>(alloc: Global, seed: u64, judge: &mut J, out: &mut S) -> Status
    requires { seed ≤ SEED_LIMIT }
    ensures promised { TrialPromise seed (S.shows out.old) (S.shows out.new) result.0 }
    ensures beside { S.beside out.old out.new }
    ensures ceases { (S.shows out.new).ceased ≡ false → (S.shows out.old).ceased ≡ false }
    ensures counts { (S.shows out.old).faults ≤ (S.shows out.new).faults }
{
    let answer = trial_answer(alloc, seed, judge);
    print(alloc, usage_line(), &answer, out)
}

// The tables of a seed are made and read. They are always a book, so only memory may be wanting.
fn trial_answer<J: Judge>(alloc: Global, seed: u64, judge: &mut J) -> Answer<Tried>
    requires { seed ≤ SEED_LIMIT }
    ensures { IsTrialAnswer seed result }
{
    let trial = match trial_tables(alloc, seed) {
        Ok(trial) => trial,
        Err(_) => return Answer::Memory,
    };
    match read_book(alloc, &trial.timetable, &trial.fleet, &trial.rules) {
        Ok(book) => match search_trial(alloc, seed, &book, judge) {
            Ok(tried) => Answer::Found(tried),
            Err(_) => Answer::Memory,
        },
        Err(_) => Answer::Memory,
    }
}

// Plans the book of a seed, and has the certificate judged. No call of the sink in memory is set to fail, so it is memory that
// is wanting where the search stops.
fn search_trial<J: Judge>(
    alloc: Global,
    seed: u64,
    book: &Book,
    judge: &mut J,
) -> Result<Tried, Memory>
    requires { IsBookOfTrial seed (trial_of seed) book.now }
    ensures { IfOk result (λ tried. IsTriedOf seed tried) }
{
    accepted_is_yes();
    let table = CostTable::of(alloc, book)?;
    let sink = MemSink::new(alloc, Vec::new(alloc))?;
    let Certified { found, sink } = certified_search(
        alloc,
        book,
        &table,
        Limit::Nodes(TRIAL_NODES),
        Order::DepthFirst,
        Version::Full,
        sink,
    );
    match found {
        Ok(outcome) => {
            let accepted = is_accepted(alloc, book, sink.bytes(), judge)?;
            Ok(Tried {
                seed,
                outcome,
                accepted,
            })
        }
        Err(_) => Err(Memory),
    }
}

/// Whether the text is accepted as a certificate of the book.
pub fn is_accepted<J: Judge>(
    alloc: Global,
    book: &Book,
    text: &[u8],
    judge: &mut J,
) -> Result<bool, Memory>
    ensures { IfOk result (λ accepted. IsYes accepted (verdict book.now text.now)) }
{
    match judge.judge(alloc, book, text)? {
        Verdict::Yes(_) => Ok(true),
        Verdict::No { .. } => Ok(false),
    }
}
