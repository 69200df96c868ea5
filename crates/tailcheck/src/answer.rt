//! What a run finds: the audit of a plan or the verdict on a certificate, and how each is printed. A certificate that
//! is too long is a finding as well, with a status of its own, since nothing was judged.

ghost use Rattle.std.specs.Prelude.{◌≡◌, ◌≤◌, ℕ, false, List, OnErr, OnOk, IsErrOf};
ghost use Rattle.tailcheck.specs.Answers.{found_lines};
ghost use Rattle.tailcheck.specs.inside.Findings.{IsFit, found_status};

use crate::verdict_text::{too_long_line, verdict_line};
use cert_checker::Verdict;
use plan_audit::Audit;
use plan_report::{ReportFail, write_audit, write_lines};
use run_frame::{Finding, Status, audit_status};
use std::alloc::Global;
use tail_book::Book;
use tail_outside::Sink;

/// The book of the tables, and what an audit of the plan found.
#[derive(Debug, Drop)]
pub struct Judged {
    pub book: Book,
    pub found: Audit,
}

/// What a run finds: its judgement of a plan or of a certificate.
#[derive(Debug, Drop)]
pub enum Judgement {
    /// What an audit of the plan found.
    Plan(Judged),
    /// The verdict on the certificate.
    Certificate(Verdict),
    /// The certificate is too long to be judged.
    TooLong,
}

impl Finding for Judgement {
    ghost lines = { found_lines };

    ghost code = { found_status };

    ghost is_printable = { IsFit };

    fn status(&self) -> Status {
        match self {
            Judgement::Plan(judged) => audit_status(&judged.found),
            Judgement::Certificate(Verdict::Yes(_)) => Status(0),
            Judgement::Certificate(Verdict::No { .. }) => Status(1),
            Judgement::TooLong => Status(8),
        }
    }

    fn write<S: Sink>(&self, alloc: Global, out: &mut S) -> Result<(), ReportFail> {
        let line = match self {
            Judgement::Plan(judged) => return write_audit(alloc, &judged.book, &judged.found, out),
            Judgement::Certificate(verdict) => verdict_line(alloc, verdict),
            Judgement::TooLong => too_long_line(alloc),
        };
        match line {
            Ok(line) => write_lines(&[line], out),
            Err(_) => Err(ReportFail::Memory),
        }
    }
}
