//! The lines of a text, one after the other: each is read and taken, and the first failure is the verdict.
//!
//! A leaf is tested at the first line behind its labels, since only then all of them have come. Behind the last newline
//! nothing may stand.

ghost use Rattle.std.specs.Prelude.{◌≡◌, ◌<◌, ◌≤◌, ◌+◌, ◌^◌, IfOk, None, Some};
ghost use Rattle.branch_marks.specs.Events.{IsNotable};
ghost use Rattle.cert_lines.specs.Grammar.{IsLine};
ghost use Rattle.cert_checker.specs.Step.{take_event, take_line};
ghost use Rattle.cert_checker.specs.Verdict.{end_with, failed, is_label, is_of_version, judge_line, take_read, take_text};
ghost use Rattle.cert_checker.specs.inside.Kept.{Answers, Gives, IsJudging, state_of};
ghost use Rattle.cert_checker.specs.inside.Means.{AreMeansOf};

use crate::means::Means;
use crate::state::{Judging, Part};
use crate::verdict::{Reason, Verdict};
use branch_marks::Event;
use cert_lines::{CertLine, LENGTH_LIMIT, read_line};
use std::alloc::Global;
use tail_book::{Book, Memory};

/// A failure of a line.
pub fn failed(line: u64, reason: Reason) -> Verdict
    ensures { result ≡ failed line reason }
{
    Verdict::No {
        line,
        reason: reason.number(),
    }
}

// Whether a line is a label.
fn is_label(line: &CertLine) -> bool
    ensures { result ≡ is_label line.now }
{
    match line {
        CertLine::Event(Event::Label { .. }) => true,
        _ => false,
    }
}

// Whether a text whose header told this version, or none yet, may have a line.
fn is_of_version(version: u8, line: &CertLine) -> bool
    ensures { result ≡ is_of_version version line.now }
{
    match line {
        CertLine::Lean => version == 2,
        CertLine::Header { version: told, .. } => !(version == 1 && *told == 2),
        _ => true,
    }
}

impl Judging {
    // Takes an event, or says why not.
    fn take_event(
        &mut self,
        book: &Book,
        means: &Means,
        event: Event,
    ) -> Result<Option<Reason>, Memory>
        requires judging { IsJudging book.now self.old }
        requires means { AreMeansOf book.now means.now }
        requires lines { self.old.lines < 2 ^ 63 }
        requires event { IsNotable event }
        ensures judging { IfOk result (λ _. IsJudging book.now self.new) }
        ensures step { IfOk result (Gives (take_event book.now (state_of self.old) event) self.new) }
    {
        match event {
            Event::Fact(fact) => self.take_fact(book, means, fact),
            Event::Split(pair) => self.take_split(book, pair),
            Event::Hole(a) => self.take_hole(book, a),
            Event::Stuck(k) => self.take_stuck(book, k),
            Event::Bound => self.take_bound(book),
            Event::Dual(a, dual) => Ok(self.take_dual(book, means, a, dual)),
            Event::Cover(k, value) => Ok(self.take_cover(book, k, value)),
            Event::Label {
                at,
                weight,
                counters,
            } => self.take_label(book, at, weight, counters),
        }
    }

    // Takes a line by itself, or says why not.
    fn take_line(
        &mut self,
        alloc: Global,
        book: &Book,
        means: &Means,
        line: CertLine,
    ) -> Result<Option<Reason>, Memory>
        requires judging { IsJudging book.now self.old }
        requires means { AreMeansOf book.now means.now }
        requires lines { self.old.lines < 2 ^ 63 }
        requires line { IsLine line }
        ensures judging { IfOk result (λ _. IsJudging book.now self.new) }
        ensures step { IfOk result (Gives (take_line book.now (state_of self.old) line) self.new) }
    {
        match line {
            CertLine::Header { version, n, m, c } => Ok(self.take_header(book, version, n, m, c)),
            CertLine::Event(event) => self.take_event(book, means, event),
            CertLine::Lean => self.take_lean(book),
            CertLine::Plan => Ok(self.take_plan(book)),
            CertLine::Fly(a, k) => self.take_fly(book, a, k),
            CertLine::Claim(claim) => self.take_claim(alloc, book, means, claim),
        }
    }

    // Takes a line that was read: the leaf before it comes first, and then the line itself.
    fn take_known(
        &mut self,
        alloc: Global,
        book: &Book,
        means: &Means,
        line: CertLine,
    ) -> Result<Option<Verdict>, Memory>
        requires judging { IsJudging book.now self.old }
        requires means { AreMeansOf book.now means.now }
        requires lines { self.old.lines < 2 ^ 63 }
        requires line { IsLine line }
        ensures judging { IfOk result (λ _. IsJudging book.now self.new) }
        ensures step { IfOk result (Answers (judge_line book.now (state_of self.old) line None) self.new) }
        ensures lines { IfOk result (λ answer. answer ≡ None → self.new.lines ≡ self.old.lines + 1) }
    {
        let n = self.lines + 1;
        self.get_ready_for(alloc, book, means, &line)?;
        if let Some(reason) = self.take_line(alloc, book, means, line)? {
            return Ok(Some(failed(n, reason)));
        }
        self.lines = n;
        Ok(None)
    }

    // Takes a line that a text of this version may have.
    fn take_read(
        &mut self,
        alloc: Global,
        book: &Book,
        means: &Means,
        line: CertLine,
    ) -> Result<Option<Verdict>, Memory>
        requires judging { IsJudging book.now self.old }
        requires means { AreMeansOf book.now means.now }
        requires lines { self.old.lines < 2 ^ 63 }
        requires line { IsLine line }
        ensures judging { IfOk result (λ _. IsJudging book.now self.new) }
        ensures step { IfOk result (Answers (take_read book.now (state_of self.old) (Some line)) self.new) }
        ensures lines { IfOk result (λ answer. answer ≡ None → self.new.lines ≡ self.old.lines + 1) }
    {
        if !is_of_version(self.version, &line) {
            return Ok(Some(failed(self.lines + 1, Reason::BadLine)));
        }
        if !is_label(&line) {
            if let Some(opened) = self.failing_leaf(book, means) {
                return Ok(Some(failed(opened, Reason::OpenCover)));
            }
        }
        self.take_known(alloc, book, means, line)
    }

    /// Takes a line, given without its newline, or answers the failure that is met there.
    pub fn take(
        &mut self,
        alloc: Global,
        book: &Book,
        means: &Means,
        text: &[u8],
    ) -> Result<Option<Verdict>, Memory>
        requires judging { IsJudging book.now self.old }
        requires means { AreMeansOf book.now means.now }
        requires lines { self.old.lines < 2 ^ 63 }
        ensures judging { IfOk result (λ _. IsJudging book.now self.new) }
        ensures step { IfOk result (Answers (take_text book.now (state_of self.old) text.now) self.new) }
        ensures lines { IfOk result (λ answer. answer ≡ None → self.new.lines ≡ self.old.lines + 1) }
    {
        match read_line(text) {
            Ok(line) => self.take_read(alloc, book, means, line),
            Err(_) => Ok(Some(failed(self.lines + 1, Reason::BadLine))),
        }
    }

    /// The verdict at the end of a text, of which this stands behind the last newline.
    pub fn end(&self, rest: &[u8]) -> Verdict
        requires { self.now.lines ≤ 2 ^ 63 }
        ensures { result ≡ end_with (state_of self.now) rest.now }
    {
        if rest.len() > LENGTH_LIMIT {
            return failed(self.lines + 1, Reason::BadLine);
        }
        if !rest.is_empty() {
            return failed(self.lines + 1, Reason::Unfinished);
        }
        match self.part {
            Part::Claimed(claim) => Verdict::Yes(claim),
            _ => failed(self.lines + 1, Reason::Unfinished),
        }
    }
}
