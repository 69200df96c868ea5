//! The judging of a plan: its file is read before one of the tables is judged, and refused only where they are a book.

ghost use Rattle.std.specs.Prelude.{◌≡◌, IsTrue};
ghost use Rattle.tail_outside.specs.Outside.{OnlyRead, ReadHasFailed};
ghost use Rattle.run_frame.specs.inside.Answer.{IsAnswerTo, IsPrintable};
ghost use Rattle.run_frame.specs.declared.answer.Answer.TheVariants.{ReadFailed};
ghost use Rattle.tailcheck.specs.Answers.{AreJudged, AreRefused};
ghost use Rattle.tailcheck.specs.Texts.{PlanBytes, PlanName};
ghost use Rattle.tailcheck.specs.inside.Findings.{IsAnswerOver, IsFit};

use crate::answer::{Judged, Judgement};
use plan_audit::audit;
use plan_report::laws::audits_can_be_written;
use plan_report::read_plan;
use run_frame::{Answer, READ_LIMIT, Tables, book_of};
use std::alloc::Global;
use tail_outside::{Files, ReadFail, read_all};
use tail_text::Stopped;

/// The answer to the three tables and the plan under this name.
pub fn audited<F: Files>(
    alloc: Global,
    files: &mut F,
    tables: &Tables,
    name: &str,
) -> Answer<Judgement>
    requires { IsTrue ((F.shows files.old).lets_read name.now) }
    ensures answer { IsAnswerOver (F.shows files.old) tables.now (PlanName name.now) result }
    ensures printable { IsPrintable IsFit result }
    ensures same { OnlyRead (F.shows files.old) (F.shows files.new) }
    ensures cause { result ≡ ReadFailed → ReadHasFailed (F.shows files.old) (F.shows files.new) }
{
    match read_all(alloc, files, name, READ_LIMIT) {
        Ok(plan) => audit_of(alloc, tables, &plan),
        Err(ReadFail::Failed) => Answer::ReadFailed,
        Err(ReadFail::Memory) => Answer::Memory,
    }
}

// The audit of the plan in these bytes, by the tables.
fn audit_of(alloc: Global, tables: &Tables, plan: &[u8]) -> Answer<Judgement>
    ensures answer { IsAnswerTo AreRefused AreJudged (record { tables = tables.now; subject = PlanBytes plan.now }) result }
    ensures printable { IsPrintable IsFit result }
{
    let book = match book_of(alloc, tables) {
        Ok(book) => book,
        Err(answer) => return answer,
    };
    let raw = match read_plan(alloc, plan) {
        Ok(raw) => raw,
        Err(Stopped::Refused(refusal)) => return Answer::Refused(refusal),
        Err(Stopped::Memory) => return Answer::Memory,
    };
    audits_can_be_written();
    match audit(alloc, &book, &raw) {
        Ok(found) => Answer::Found(Judgement::Plan(Judged { book, found })),
        Err(_) => Answer::Memory,
    }
}
