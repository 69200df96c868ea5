//! What is found of a book, printed over any sink: standard output, a file, or memory. Where a sink fails in between,
//! nothing is said of what it took.

ghost use Rattle.std.specs.Prelude.{OnOk, IsErrOf};
ghost use Rattle.tail_outside.specs.Outside.{PieceHasFailed};
ghost use Rattle.sample_calls.specs.Printing.{PrintsAudit, PrintsLeastPlan};

use branch_tree::least_plan;
use plan_audit::audit;
use plan_report::laws::{audits_can_be_written, true_outcomes_can_be_written};
use plan_report::{ReportFail, write_audit, write_report};
use std::alloc::Global;
use tail_book::{Book, RawPlan, laws};
use tail_outside::Sink;

/// Finds a plan of least cost and prints its report, or that no plan is legal.
pub fn print_least_plan<S: Sink>(alloc: Global, book: &Book, out: &mut S) -> Result<(), ReportFail>
    ensures printed { OnOk result (PrintsLeastPlan book.now (S.shows out.old) (S.shows out.new)) }
    ensures cause { IsErrOf result ReportFail.Write → PieceHasFailed (S.shows out.old) (S.shows out.new) }
    ensures beside { S.beside out.old out.new }
{
    laws::every_book_is_sound(book);
    true_outcomes_can_be_written();
    match least_plan(alloc, book) {
        Ok(outcome) => write_report(alloc, book, &outcome, out),
        Err(_) => Err(ReportFail::Memory),
    }
}

/// Judges a plan that spells its names, and prints what is found: what it costs, or the rules that it breaks.
pub fn print_audit<S: Sink>(
    alloc: Global,
    book: &Book,
    raw: &RawPlan,
    out: &mut S,
) -> Result<(), ReportFail>
    ensures printed { OnOk result (PrintsAudit book.now raw.now (S.shows out.old) (S.shows out.new)) }
    ensures cause { IsErrOf result ReportFail.Write → PieceHasFailed (S.shows out.old) (S.shows out.new) }
    ensures beside { S.beside out.old out.new }
{
    audits_can_be_written();
    match audit(alloc, book, raw) {
        Ok(found) => write_audit(alloc, book, &found, out),
        Err(_) => Err(ReportFail::Memory),
    }
}
