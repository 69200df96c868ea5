//! The run of a repair: the four files, the least repair, and what is printed. A step that fails gives the answer, so the
//! first cause is what is told. No file is written.

ghost use Rattle.std.specs.Prelude.{◌≡◌, ◌≤◌, None, false};
ghost use Rattle.tail_outside.specs.Outside.{OnlyRead, PieceHasFailed, ReadHasFailed};
ghost use Rattle.plan_repair.specs.inside.Report.{HasPlanFor};
ghost use Rattle.run_frame.specs.inside.Answer.{IsAnswerTo, IsPrintable};
ghost use Rattle.run_frame.specs.Answer.{IsUnlessStopped};
ghost use Rattle.run_frame.specs.Spelled.{spelled};
ghost use Rattle.run_frame.specs.declared.answer.Answer.TheVariants.{ReadFailed};
ghost use Rattle.tailplan.specs.RepairAnswers.{AreRefusedTexts, AreRepaired, IsTrueRepairAnswer, MayReadPlan};
ghost use Rattle.tailplan.specs.RepairCases.{too_large};
ghost use Rattle.tailplan.specs.RepairPromises.{JudgesRepair, RefusesTexts, RepairPromise};
ghost use Rattle.tailplan.specs.RepairWords.{repair_of};

use crate::four_texts::{FourTexts, read_texts};
use crate::repair_words::repair_of;
use crate::repaired::Repaired;
use crate::usage::repair_usage_line;
use plan_repair::laws::true_repairs_can_be_written;
use plan_repair::{REPAIR_LIMIT, homes, repair};
use plan_report::read_plan;
use run_frame::{Answer, Ran, book_of, print};
use std::alloc::Global;
use tail_outside::{Files, ReadFail, Sink};
use tail_text::{Refusal, Stopped, Table, codes};

/// Repairs the published plan for the tables that the words name, and prints the least repair, or that no plan is legal, or
/// why the words or a file are refused.
pub fn run_repair<F: Files, S: Sink>(
    alloc: Global,
    words: &[String],
    files: F,
    out: &mut S,
) -> Ran<F>
    requires { MayReadPlan (spelled words.now) (F.shows files) }
    ensures promised { RepairPromise (spelled words.now) (F.shows files) (S.shows out.old) (S.shows out.new) result.status.0 }
    ensures read_failed { result.status.0 ≡ 5 → ReadHasFailed (F.shows files) (F.shows result.files) }
    ensures write_failed { result.status.0 ≡ 6 → PieceHasFailed (S.shows out.old) (S.shows out.new) }
    ensures words_refused { repair_of (spelled words.now) ≡ None → IsUnlessStopped 2 result.status.0 }
    ensures texts_refused { RefusesTexts (spelled words.now) (F.shows files) result.status.0 }
    ensures judged { JudgesRepair (spelled words.now) (F.shows files) result.status.0 }
    ensures same { OnlyRead (F.shows files) (F.shows result.files) }
    ensures beside { S.beside out.old out.new }
    ensures ceases { (S.shows out.new).ceased ≡ false → (S.shows out.old).ceased ≡ false }
    ensures counts { (S.shows out.old).faults ≤ (S.shows out.new).faults }
{
    let mut files = files;
    let answer = answer_of(alloc, words, &mut files);
    let status = print(alloc, repair_usage_line(), &answer, out);
    Ran { status, files }
}

// The answer to the words.
fn answer_of<F: Files>(alloc: Global, words: &[String], files: &mut F) -> Answer<Repaired>
    requires { MayReadPlan (spelled words.now) (F.shows files.old) }
    ensures answer { IsTrueRepairAnswer (spelled words.now) (F.shows files.old) result }
    ensures printable { IsPrintable (λ found. HasPlanFor found.book found.repair) result }
    ensures same { OnlyRead (F.shows files.old) (F.shows files.new) }
    ensures cause { result ≡ ReadFailed → ReadHasFailed (F.shows files.old) (F.shows files.new) }
{
    let Some(names) = repair_of(words) else {
        return Answer::Usage;
    };
    match read_texts(alloc, files, &names) {
        Ok(texts) => repaired(alloc, &texts),
        Err(ReadFail::Failed) => Answer::ReadFailed,
        Err(ReadFail::Memory) => Answer::Memory,
    }
}

// The refusal of a book that is too large: its first activity too many, behind the header and a thousand records.
fn too_large() -> Refusal
    ensures { result ≡ too_large }
{
    Refusal {
        code: codes::TOO_MANY,
        table: Table::Timetable,
        place: REPAIR_LIMIT as u64 + 2,
    }
}

// The answer to the three tables and the published plan's file.
fn repaired(alloc: Global, texts: &FourTexts) -> Answer<Repaired>
    ensures answer { IsAnswerTo AreRefusedTexts AreRepaired texts.now result }
    ensures printable { IsPrintable (λ found. HasPlanFor found.book found.repair) result }
{
    let book = match book_of(alloc, &texts.tables) {
        Ok(book) => book,
        Err(answer) => return answer,
    };
    let raw = match read_plan(alloc, &texts.fourth) {
        Ok(raw) => raw,
        Err(Stopped::Refused(refusal)) => return Answer::Refused(refusal),
        Err(Stopped::Memory) => return Answer::Memory,
    };
    if book.activities.len() > REPAIR_LIMIT {
        return Answer::Refused(too_large());
    }
    true_repairs_can_be_written();
    let Ok(home_of_each) = homes(alloc, &book, &raw) else {
        return Answer::Memory;
    };
    match repair(alloc, &book, &home_of_each) {
        Ok(repair) => Answer::Found(Repaired { book, repair }),
        Err(_) => Answer::Memory,
    }
}
