//! The run that says why no plan is legal: the three tables, what is found, and what is printed. A step that fails gives the
//! answer, so the first cause is what is told. No file is written.

ghost use Rattle.std.specs.Prelude.{◌≡◌, ◌≤◌, None, false};
ghost use Rattle.tail_outside.specs.Outside.{OnlyRead, PieceHasFailed, ReadHasFailed};
ghost use Rattle.shortage_report.specs.inside.Told.{CanBeTold};
ghost use Rattle.run_frame.specs.inside.Answer.{IsAnswerTo, IsPrintable};
ghost use Rattle.run_frame.specs.Answer.{IsUnlessStopped};
ghost use Rattle.run_frame.specs.Spelled.{spelled};
ghost use Rattle.run_frame.specs.declared.answer.Answer.TheVariants.{ReadFailed};
ghost use Rattle.tailplan.specs.WhyAnswers.{AreExplained, AreNoBook, IsTrueWhyAnswer, MayReadWhy};
ghost use Rattle.tailplan.specs.WhyPromises.{JudgesWhy, RefusesWhy, WhyPromise};
ghost use Rattle.tailplan.specs.WhyWords.{why_of};

use crate::explained::Explained;
use crate::explaining::why;
use crate::usage::why_usage_line;
use crate::why_words::why_of;
use run_frame::{Answer, Ran, Tables, book_of, print, read_tables};
use shortage_report::laws::true_whys_leave_no_plan;
use std::alloc::Global;
use tail_outside::{Files, ReadFail, Sink};

/// Prints why no plan of the tables that the words name is legal, or that one is, or why the words or a table are refused.
pub fn run_why<F: Files, S: Sink>(alloc: Global, words: &[String], files: F, out: &mut S) -> Ran<F>
    requires { MayReadWhy (spelled words.now) (F.shows files) }
    ensures promised { WhyPromise (spelled words.now) (F.shows files) (S.shows out.old) (S.shows out.new) result.status.0 }
    ensures read_failed { result.status.0 ≡ 5 → ReadHasFailed (F.shows files) (F.shows result.files) }
    ensures write_failed { result.status.0 ≡ 6 → PieceHasFailed (S.shows out.old) (S.shows out.new) }
    ensures words_refused { why_of (spelled words.now) ≡ None → IsUnlessStopped 2 result.status.0 }
    ensures tables_refused { RefusesWhy (spelled words.now) (F.shows files) result.status.0 }
    ensures judged { JudgesWhy (spelled words.now) (F.shows files) result.status.0 }
    ensures same { OnlyRead (F.shows files) (F.shows result.files) }
    ensures beside { S.beside out.old out.new }
    ensures ceases { (S.shows out.new).ceased ≡ false → (S.shows out.old).ceased ≡ false }
    ensures counts { (S.shows out.old).faults ≤ (S.shows out.new).faults }
{
    true_whys_leave_no_plan();
    let mut files = files;
    let answer = answer_of(alloc, words, &mut files);
    let status = print(alloc, why_usage_line(), &answer, out);
    Ran { status, files }
}

// The answer to the words.
fn answer_of<F: Files>(alloc: Global, words: &[String], files: &mut F) -> Answer<Explained>
    requires { MayReadWhy (spelled words.now) (F.shows files.old) }
    ensures answer { IsTrueWhyAnswer (spelled words.now) (F.shows files.old) result }
    ensures printable { IsPrintable (λ found. CanBeTold found.book found.why) result }
    ensures same { OnlyRead (F.shows files.old) (F.shows files.new) }
    ensures cause { result ≡ ReadFailed → ReadHasFailed (F.shows files.old) (F.shows files.new) }
{
    let Some(names) = why_of(words) else {
        return Answer::Usage;
    };
    match read_tables(alloc, files, &names) {
        Ok(tables) => explained(alloc, &tables),
        Err(ReadFail::Failed) => Answer::ReadFailed,
        Err(ReadFail::Memory) => Answer::Memory,
    }
}

// The answer to the three tables.
fn explained(alloc: Global, tables: &Tables) -> Answer<Explained>
    ensures answer { IsAnswerTo AreNoBook AreExplained tables.now result }
    ensures printable { IsPrintable (λ found. CanBeTold found.book found.why) result }
{
    let book = match book_of(alloc, tables) {
        Ok(book) => book,
        Err(answer) => return answer,
    };
    match why(alloc, &book) {
        Ok(why) => Answer::Found(Explained { book, why }),
        Err(_) => Answer::Memory,
    }
}
