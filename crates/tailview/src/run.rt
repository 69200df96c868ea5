//! A whole run: the words, the files, the audit of the plan, and the picture that is printed; or a run that draws a shortage. A step
//! that fails gives the answer, so the first cause is what is told.

ghost use Rattle.std.specs.Prelude.{◌≡◌, ◌≤◌, None, false, IfOk};
ghost use Rattle.tail_outside.specs.Outside.{OnlyRead, PieceHasFailed, ReadHasFailed};
ghost use Rattle.plan_picture.specs.inside.Drawable.{IsDrawable};
ghost use Rattle.run_frame.specs.inside.Answer.{IsAnswerTo, IsPrintable};
ghost use Rattle.run_frame.specs.Answer.{IsUnlessStopped};
ghost use Rattle.run_frame.specs.Spelled.{spelled};
ghost use Rattle.run_frame.specs.declared.answer.Answer.TheVariants.{ReadFailed};
ghost use Rattle.tailview.specs.Answers.{AreJudged, AreRefused, IsTrueAnswer, MayRead, view_in};
ghost use Rattle.tailview.specs.Promises.{JudgesPlan, Promise, RefusesTexts};
ghost use Rattle.tailview.specs.ShortageAnswers.{MayReadShortage};
ghost use Rattle.tailview.specs.ViewPromises.{JudgesFiles, RefusesFiles, RefusesWords, ViewPromise};
ghost use Rattle.tailview.specs.Words.{names_of};
ghost use Rattle.tailview.specs.Drawn.{drawn_rules};

use crate::answer::Judged;
use crate::before::{homes_before, plan_before};
use crate::shortage_run::run_shortage;
use crate::shortage_words::is_shortage;
use crate::texts::{Texts, read_texts};
use crate::usage::usage_line;
use crate::words::names_of;
use plan_audit::laws::kept_plans_fly_once;
use plan_audit::{audit, kept};
use plan_picture::{View, port_named};
use plan_report::laws::audits_can_be_written;
use plan_report::read_plan;
use run_frame::{Answer, Ran, book_of, print};
use std::alloc::Global;
use tail_book::{Book, Memory, RawPlan};
use tail_outside::{Files, ReadFail, Sink};
use tail_text::Stopped;

/// Draws the plan by the tables that the words name: prints the picture of what is kept of it, with what it costs where
/// it breaks no rule and else with the rules that it breaks, or why the words, a table or a plan's file are refused.
/// Where a plan that was published before is named, what another aircraft flew in it is marked and counted.
/// Where the words begin with a shortage's file, its picture is printed.
/// The files are handed back as they stand.
pub fn view_run<F: Files, S: Sink>(alloc: Global, words: &[String], files: F, out: &mut S) -> Ran<F>
    requires plan { MayRead (spelled words.now) (F.shows files) }
    requires shortage { MayReadShortage (spelled words.now) (F.shows files) }

    // What the status says, and the causes of faults.
    ensures promised { ViewPromise (spelled words.now) (F.shows files) (S.shows out.old) (S.shows out.new) result.status.0 }
    ensures read_failed { result.status.0 ≡ 5 → ReadHasFailed (F.shows files) (F.shows result.files) }
    ensures write_failed { result.status.0 ≡ 6 → PieceHasFailed (S.shows out.old) (S.shows out.new) }

    // When each status comes.
    ensures words_refused { RefusesWords (spelled words.now) result.status.0 }
    ensures texts_refused { RefusesFiles (spelled words.now) (F.shows files) result.status.0 }
    ensures judged { JudgesFiles (spelled words.now) (F.shows files) result.status.0 }

    // What stays.
    ensures same { OnlyRead (F.shows files) (F.shows result.files) }
    ensures beside { S.beside out.old out.new }
    ensures ceases { (S.shows out.new).ceased ≡ false → (S.shows out.old).ceased ≡ false }
    ensures counts { (S.shows out.old).faults ≤ (S.shows out.new).faults }
{
    if is_shortage(words) {
        run_shortage(alloc, words, files, out)
    } else {
        run_plan(alloc, words, files, out)
    }
}

// A run that draws a plan.
fn run_plan<F: Files, S: Sink>(alloc: Global, words: &[String], files: F, out: &mut S) -> Ran<F>
    requires { MayRead (spelled words.now) (F.shows files) }
    ensures promised { Promise (spelled words.now) (F.shows files) (S.shows out.old) (S.shows out.new) result.status.0 }
    ensures read_failed { result.status.0 ≡ 5 → ReadHasFailed (F.shows files) (F.shows result.files) }
    ensures write_failed { result.status.0 ≡ 6 → PieceHasFailed (S.shows out.old) (S.shows out.new) }
    ensures words_refused { names_of (spelled words.now) ≡ None → IsUnlessStopped 2 result.status.0 }
    ensures texts_refused { RefusesTexts (spelled words.now) (F.shows files) result.status.0 }
    ensures judged { JudgesPlan (spelled words.now) (F.shows files) result.status.0 }
    ensures same { OnlyRead (F.shows files) (F.shows result.files) }
    ensures beside { S.beside out.old out.new }
    ensures ceases { (S.shows out.new).ceased ≡ false → (S.shows out.old).ceased ≡ false }
    ensures counts { (S.shows out.old).faults ≤ (S.shows out.new).faults }
{
    let mut files = files;
    let answer = answer_of(alloc, words, &mut files);
    let status = print(alloc, usage_line(), &answer, out);
    Ran { status, files }
}

// The answer to the words.
fn answer_of<F: Files>(alloc: Global, words: &[String], files: &mut F) -> Answer<Judged>
    requires { MayRead (spelled words.now) (F.shows files.old) }
    ensures answer { IsTrueAnswer (spelled words.now) (F.shows files.old) result }
    ensures printable { IsPrintable (λ judged. IsDrawable judged.book judged.plan (drawn_rules judged.found)) result }
    ensures same { OnlyRead (F.shows files.old) (F.shows files.new) }
    ensures cause { result ≡ ReadFailed → ReadHasFailed (F.shows files.old) (F.shows files.new) }
{
    let names = match names_of(alloc, words) {
        Ok(Some(names)) => names,
        Ok(None) => return Answer::Usage,
        Err(_) => return Answer::Memory,
    };
    match read_texts(alloc, files, &names) {
        Ok(texts) => judged(alloc, &texts),
        Err(ReadFail::Failed) => Answer::ReadFailed,
        Err(ReadFail::Memory) => Answer::Memory,
    }
}

// What a picture of this book shows beside the plan.
fn view_in(
    alloc: Global,
    book: &Book,
    texts: &Texts<'_>,
    before: &Option<RawPlan>,
) -> Result<View, Memory>
    ensures { IfOk result (λ view. view ≡ view_in book.now texts.now before.now) }
{
    let airport = match texts.airport {
        Some(name) => port_named(book, name.as_bytes()),
        None => None,
    };
    Ok(View {
        airport,
        homes: homes_before(alloc, book, before)?,
        by_day: texts.by_day,
        html: texts.html,
    })
}

// The answer to the three tables and the plans' files.
fn judged(alloc: Global, texts: &Texts<'_>) -> Answer<Judged>
    ensures answer { IsAnswerTo AreRefused AreJudged texts.now result }
    ensures printable { IsPrintable (λ judged. IsDrawable judged.book judged.plan (drawn_rules judged.found)) result }
{
    let book = match book_of(alloc, &texts.tables) {
        Ok(book) => book,
        Err(answer) => return answer,
    };
    let raw = match read_plan(alloc, &texts.plan) {
        Ok(raw) => raw,
        Err(Stopped::Refused(refusal)) => return Answer::Refused(refusal),
        Err(Stopped::Memory) => return Answer::Memory,
    };
    let before = match plan_before(alloc, &texts.before) {
        Ok(before) => before,
        Err(Stopped::Refused(refusal)) => return Answer::Refused(refusal),
        Err(Stopped::Memory) => return Answer::Memory,
    };
    let Ok(view) = view_in(alloc, &book, texts, &before) else {
        return Answer::Memory;
    };
    let Ok(plan) = kept(alloc, &book, &raw) else {
        return Answer::Memory;
    };
    let Ok(found) = audit(alloc, &book, &raw) else {
        return Answer::Memory;
    };
    audits_can_be_written();
    kept_plans_fly_once();
    Answer::Found(Judged {
        book,
        plan,
        found,
        view,
    })
}
