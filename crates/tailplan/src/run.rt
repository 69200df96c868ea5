//! A whole run: the words, the three tables, the search for a least plan with its certificate, and what is printed; or a trial,
//! or a repair, why no plan is legal, or a run under quotas.

ghost use Rattle.std.specs.Prelude.{◌≡◌, ◌≤◌, IfOk, IfSome, IsErr, IsSome, IsTrue, None, Ok, false};
ghost use Rattle.tail_book.specs.Faults.{HasRisen};
ghost use Rattle.tail_outside.specs.Outside.{OnlyRead, ReadHasFailed};
ghost use Rattle.plan_report.specs.inside.Report.{HasPlanFor};
ghost use Rattle.run_frame.specs.inside.Answer.{IsAnswerTo, IsPrintable as IsPrintableBy};
ghost use Rattle.run_frame.specs.Answer.{IsUnlessStopped};
ghost use Rattle.run_frame.specs.Spelled.{spelled};
ghost use Rattle.run_frame.specs.TableFiles.{AreGiven};
ghost use Rattle.run_frame.specs.declared.answer.Answer.TheVariants.{ReadFailed};
ghost use Rattle.tailplan.specs.Answers.{AreRefused, AreSolved, IsTrueAnswer, MayUse, cert_of};
ghost use Rattle.tailplan.specs.Kept.{FailsByWrite, LeavesCertificate, OnlyCertificate, OnlyReads, WriteHasFailed};
ghost use Rattle.tailplan.specs.Promises.{JudgesBook, Promise, RefusesTables};
ghost use Rattle.tailplan.specs.QuotaAnswers.{MayReadQuotas};
ghost use Rattle.tailplan.specs.QuotaPromises.{JudgesQuotas, RefusesQuotas};
ghost use Rattle.tailplan.specs.RepairAnswers.{MayReadPlan};
ghost use Rattle.tailplan.specs.RepairPromises.{JudgesRepair, RefusesTexts};
ghost use Rattle.tailplan.specs.Trials.{RefusesWords, RunPromise};
ghost use Rattle.tailplan.specs.WhyAnswers.{MayReadWhy};
ghost use Rattle.tailplan.specs.WhyPromises.{JudgesWhy, RefusesWhy};
ghost use Rattle.tailplan.specs.Words.{run_of, seed_of};
ghost use Rattle.tailplan.specs.inside.Ending.{KeepsFiles, LeavesFile};

use crate::answered::{Answered, report};
use crate::book_plan::planned;
use crate::quota_run::run_quota;
use crate::quota_words::is_quota;
use crate::repair_run::run_repair;
use crate::repair_words::is_repair;
use crate::tasks::Task;
use crate::trial::{Checker, run_trial};
use crate::why_run::run_why;
use crate::why_words::is_why;
use crate::words::{run_of, seed_of};
use run_frame::{Answer, Ran, book_of, read_tables};
use std::alloc::Global;
use tail_outside::{Files, ReadFail, Sink};

/// Plans the timetable, the fleet and the rules that the words name: prints a legal plan of least cost, or that no
/// plan is legal, or, at a limit of nodes, a bound with the best plan found, or why the words or a table are refused. A
/// certificate is written where the words name a file for it. The files are handed back as they stand. Where the words ask
/// for a trial it is run, and no file is touched; where they ask for a repair, why no plan is legal, or quotas, files are only read.
pub fn solve_run<F: Files, S: Sink>(
    alloc: Global,
    words: &[String],
    files: F,
    out: &mut S,
) -> Ran<F>
    requires tables { MayUse (spelled words.now) (F.shows files) }
    requires plan { MayReadPlan (spelled words.now) (F.shows files) }
    requires why { MayReadWhy (spelled words.now) (F.shows files) }
    requires quotas { MayReadQuotas (spelled words.now) (F.shows files) }

    // What the status says, and the causes of faults.
    ensures promised { RunPromise F.shows S.shows words.now files result.files out.old out.new result.status.0 }
    ensures read_failed { result.status.0 ≡ 5 → ReadHasFailed (F.shows files) (F.shows result.files) }
    ensures write_failed { FailsByWrite F.shows S.shows words.now files result.files out.old out.new result.status.0 }

    // When each status comes.
    ensures words_refused { RefusesWords (spelled words.now) result.status.0 }
    ensures tables_refused { RefusesTables (spelled words.now) (F.shows files) result.status.0 }
    ensures judged { JudgesBook (spelled words.now) (F.shows files) result.status.0 }
    ensures texts_refused { RefusesTexts (spelled words.now) (F.shows files) result.status.0 }
    ensures repaired { JudgesRepair (spelled words.now) (F.shows files) result.status.0 }
    ensures why_refused { RefusesWhy (spelled words.now) (F.shows files) result.status.0 }
    ensures explained { JudgesWhy (spelled words.now) (F.shows files) result.status.0 }
    ensures quota_refused { RefusesQuotas (spelled words.now) (F.shows files) result.status.0 }
    ensures kept { JudgesQuotas (spelled words.now) (F.shows files) result.status.0 }

    // What stays, and what the certificate's file is left with.
    ensures others { OnlyCertificate (cert_of (spelled words.now)) (F.shows files) (F.shows result.files) }
    ensures same { OnlyReads (spelled words.now) result.status.0 (F.shows files) (F.shows result.files) }
    ensures untouched { IsSome (seed_of (spelled words.now)) → F.shows result.files ≡ F.shows files }
    ensures left { LeavesCertificate (spelled words.now) (F.shows files) (F.shows result.files) }
    ensures beside { S.beside out.old out.new }
    ensures ceases { (S.shows out.new).ceased ≡ false → (S.shows out.old).ceased ≡ false }
    ensures counts { (S.shows out.old).faults ≤ (S.shows out.new).faults }
{
    if is_repair(words) {
        return run_repair(alloc, words, files, out);
    }
    if is_why(words) {
        return run_why(alloc, words, files, out);
    }
    if is_quota(words) {
        return run_quota(alloc, words, files, out);
    }
    match seed_of(words) {
        None => run_tables(alloc, words, files, out),
        Some(seed) => Ran {
            status: run_trial(alloc, seed, &mut Checker, out),
            files,
        },
    }
}

// A run over the tables that the words name.
fn run_tables<F: Files, S: Sink>(alloc: Global, words: &[String], files: F, out: &mut S) -> Ran<F>
    requires { MayUse (spelled words.now) (F.shows files) }
    ensures promised { Promise (spelled words.now) (F.shows files) (F.shows result.files) (S.shows out.old) (S.shows out.new) result.status.0 }
    ensures read_failed { result.status.0 ≡ 5 → ReadHasFailed (F.shows files) (F.shows result.files) }
    ensures write_failed { result.status.0 ≡ 6 → WriteHasFailed (spelled words.now) (F.shows files) (F.shows result.files) (S.shows out.old) (S.shows out.new) }
    ensures words_refused { run_of (spelled words.now) ≡ None → IsUnlessStopped 2 result.status.0 }
    ensures tables_refused { RefusesTables (spelled words.now) (F.shows files) result.status.0 }
    ensures judged { JudgesBook (spelled words.now) (F.shows files) result.status.0 }
    ensures others { OnlyCertificate (cert_of (spelled words.now)) (F.shows files) (F.shows result.files) }
    ensures same { OnlyReads (spelled words.now) result.status.0 (F.shows files) (F.shows result.files) }
    ensures left { LeavesCertificate (spelled words.now) (F.shows files) (F.shows result.files) }
    ensures beside { S.beside out.old out.new }
    ensures ceases { (S.shows out.new).ceased ≡ false → (S.shows out.old).ceased ≡ false }
    ensures counts { (S.shows out.old).faults ≤ (S.shows out.new).faults }
{
    let Answered { answer, files } = answer_of(alloc, words, files);
    let status = report(alloc, &answer, out);
    Ran { status, files }
}

// The answer to the words, and the files with the certificate.
fn answer_of<F: Files>(alloc: Global, words: &[String], files: F) -> Answered<F>
    requires { MayUse (spelled words.now) (F.shows files) }
    ensures answer { IfOk result.answer (IsTrueAnswer (spelled words.now) (F.shows files) (F.shows result.files)) }
    ensures printable { IfOk result.answer (IsPrintableBy (λ solved. HasPlanFor solved.book solved.outcome)) }
    ensures others { OnlyCertificate (cert_of (spelled words.now)) (F.shows files) (F.shows result.files) }
    ensures kept { IfOk result.answer (KeepsFiles (F.shows files) (F.shows result.files)) }
    ensures same { cert_of (spelled words.now) ≡ None → OnlyRead (F.shows files) (F.shows result.files) }
    ensures left { LeavesCertificate (spelled words.now) (F.shows files) (F.shows result.files) }
    ensures read_cause { result.answer ≡ Ok ReadFailed → ReadHasFailed (F.shows files) (F.shows result.files) }
    ensures write_cause { IsErr result.answer → AreGiven (cert_of (spelled words.now))
        × HasRisen (F.shows files).write_faults (F.shows result.files).write_faults }
{
    let mut files = files;
    let names = match run_of(alloc, words) {
        Ok(Some(names)) => names,
        Ok(None) => return Answered::of(Answer::Usage, files),
        Err(_) => return Answered::of(Answer::Memory, files),
    };
    match read_tables(alloc, &mut files, &names.tables) {
        Ok(tables) => {
            let task = Task {
                tables,
                limit: names.limit,
                order: names.order,
                version: names.version,
                cert: names.cert,
            };
            solved(alloc, &task, files)
        }
        Err(ReadFail::Failed) => Answered::of(Answer::ReadFailed, files),
        Err(ReadFail::Memory) => Answered::of(Answer::Memory, files),
    }
}

// The answer to a task.
fn solved<F: Files>(alloc: Global, task: &Task<'_>, files: F) -> Answered<F>
    requires { IfSome task.now.cert (λ name. IsTrue ((F.shows files).lets_write name)) }
    ensures answer { IfOk result.answer (IsAnswerTo AreRefused (AreSolved (F.shows result.files)) task.now) }
    ensures printable { IfOk result.answer (IsPrintableBy (λ solved. HasPlanFor solved.book solved.outcome)) }
    ensures others { OnlyCertificate task.now.cert (F.shows files) (F.shows result.files) }
    ensures kept { IfOk result.answer (KeepsFiles (F.shows files) (F.shows result.files)) }
    ensures same { task.now.cert ≡ None → OnlyRead (F.shows files) (F.shows result.files) }
    ensures left { LeavesFile task.now (F.shows files) (F.shows result.files) }
    ensures cause { IsErr result.answer → AreGiven task.now.cert
        × HasRisen (F.shows files).write_faults (F.shows result.files).write_faults }
{
    match book_of(alloc, &task.tables) {
        Ok(book) => planned(alloc, book, task, files),
        Err(answer) => Answered::of(answer, files),
    }
}
