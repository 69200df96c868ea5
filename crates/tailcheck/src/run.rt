//! A whole run: the words, the files, what is judged, and what is printed. A step that fails gives the answer, so the
//! first cause is what is told.

ghost use Rattle.std.specs.Prelude.{◌≡◌, ◌≤◌, None, false};
ghost use Rattle.tail_outside.specs.Outside.{OnlyRead, PieceHasFailed, ReadHasFailed};
ghost use Rattle.run_frame.specs.inside.Answer.{IsPrintable};
ghost use Rattle.run_frame.specs.Answer.{IsUnlessStopped};
ghost use Rattle.run_frame.specs.Spelled.{spelled};
ghost use Rattle.run_frame.specs.declared.answer.Answer.TheVariants.{ReadFailed};
ghost use Rattle.tailcheck.specs.Answers.{IsTrueAnswer, MayRead};
ghost use Rattle.tailcheck.specs.Promises.{JudgesTexts, Promise, RefusesTexts};
ghost use Rattle.tailcheck.specs.Texts.{MayReadSubject};
ghost use Rattle.tailcheck.specs.Words.{check_of};
ghost use Rattle.tailcheck.specs.inside.Findings.{IsAnswerOver, IsFit};
ghost use Rattle.tailcheck.specs.inside.Texts.{subject_seen};

use crate::answer::Judgement;
use crate::audited::audited;
use crate::certified::certified;
use crate::usage::usage_line;
use crate::words::{Subject, check_of};
use cert_checker::laws::{
    accepted_is_yes, failures_are_no, failures_stay, verdicts_are_of_ends, yes_is_accepted,
};
use run_frame::{Answer, Ran, Tables, print, read_tables};
use std::alloc::Global;
use tail_outside::{Files, ReadFail, Sink};

/// Judges the plan or the certificate by the tables that the words name. Of a plan it prints what it costs where it breaks no
/// rule, or the rules that it breaks; of a certificate its claim where it is accepted, or its first failure; else why the words, a
/// table or the plan's file are refused. The files are handed back as they stand.
pub fn check_run<F: Files, S: Sink>(
    alloc: Global,
    words: &[String],
    files: F,
    out: &mut S,
) -> Ran<F>
    requires { MayRead (spelled words.now) (F.shows files) }

    // What the status says, and the causes of faults.
    ensures promised { Promise (spelled words.now) (F.shows files) (S.shows out.old) (S.shows out.new) result.status.0 }
    ensures read_failed { result.status.0 ≡ 5 → ReadHasFailed (F.shows files) (F.shows result.files) }
    ensures write_failed { result.status.0 ≡ 6 → PieceHasFailed (S.shows out.old) (S.shows out.new) }

    // When each status comes.
    ensures words_refused { check_of (spelled words.now) ≡ None → IsUnlessStopped 2 result.status.0 }
    ensures texts_refused { RefusesTexts (spelled words.now) (F.shows files) result.status.0 }
    ensures judged { JudgesTexts (spelled words.now) (F.shows files) result.status.0 }

    // What stays.
    ensures same { OnlyRead (F.shows files) (F.shows result.files) }
    ensures beside { S.beside out.old out.new }
    ensures ceases { (S.shows out.new).ceased ≡ false → (S.shows out.old).ceased ≡ false }
    ensures counts { (S.shows out.old).faults ≤ (S.shows out.new).faults }
{
    yes_is_accepted();
    accepted_is_yes();
    failures_stay();
    verdicts_are_of_ends();
    failures_are_no();
    let mut files = files;
    let answer = answer_of(alloc, words, &mut files);
    let status = print(alloc, usage_line(), &answer, out);
    Ran { status, files }
}

// The answer to the words.
fn answer_of<F: Files>(alloc: Global, words: &[String], files: &mut F) -> Answer<Judgement>
    requires { MayRead (spelled words.now) (F.shows files.old) }
    ensures answer { IsTrueAnswer (spelled words.now) (F.shows files.old) result }
    ensures printable { IsPrintable IsFit result }
    ensures same { OnlyRead (F.shows files.old) (F.shows files.new) }
    ensures cause { result ≡ ReadFailed → ReadHasFailed (F.shows files.old) (F.shows files.new) }
{
    let names = match check_of(alloc, words) {
        Ok(Some(names)) => names,
        Ok(None) => return Answer::Usage,
        Err(_) => return Answer::Memory,
    };
    match read_tables(alloc, files, &names.tables) {
        Ok(tables) => judged(alloc, files, &tables, names.subject),
        Err(ReadFail::Failed) => Answer::ReadFailed,
        Err(ReadFail::Memory) => Answer::Memory,
    }
}

// The answer to the three tables and to what is judged by them.
fn judged<F: Files>(
    alloc: Global,
    files: &mut F,
    tables: &Tables,
    subject: Subject<'_>,
) -> Answer<Judgement>
    requires { MayReadSubject (F.shows files.old) (subject_seen subject) }
    ensures answer { IsAnswerOver (F.shows files.old) tables.now (subject_seen subject.entry) result }
    ensures printable { IsPrintable IsFit result }
    ensures same { OnlyRead (F.shows files.old) (F.shows files.new) }
    ensures cause { result ≡ ReadFailed → ReadHasFailed (F.shows files.old) (F.shows files.new) }
{
    match subject {
        Subject::Plan(name) => audited(alloc, files, tables, name),
        Subject::Certificate(name) => certified(alloc, files, tables, name),
    }
}
