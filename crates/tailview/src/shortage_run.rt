//! The run that draws a shortage: the words, the files, and the picture that is printed. A step that fails gives the answer, so the
//! first cause is what is told. Whether it is a shortage is not judged.

ghost use Rattle.std.specs.Prelude.{◌≡◌, ◌≤◌, None, false};
ghost use Rattle.tail_outside.specs.Outside.{OnlyRead, PieceHasFailed, ReadHasFailed};
ghost use Rattle.run_frame.specs.inside.Answer.{IsAnswerTo, IsPrintable};
ghost use Rattle.run_frame.specs.Answer.{IsUnlessStopped};
ghost use Rattle.run_frame.specs.Spelled.{spelled};
ghost use Rattle.run_frame.specs.declared.answer.Answer.TheVariants.{ReadFailed};
ghost use Rattle.shortage_reader.specs.inside.OfBook.{IsToldOf};
ghost use Rattle.tailview.specs.ShortageAnswers.{AreNotShown, AreShown, IsTrueShortageAnswer, MayReadShortage, shown_view};
ghost use Rattle.tailview.specs.ShortagePromises.{DrawsShortage, RefusesShortage, ShortagePromise};
ghost use Rattle.tailview.specs.ShortageWords.{shortage_of};

use crate::shortage_texts::{ShortageTexts, read_shortage_texts};
use crate::shortage_words::shortage_of;
use crate::shown::Shown;
use crate::usage::shortage_usage_line;
use plan_picture::port_named;
use run_frame::{Answer, Ran, book_of, print};
use shortage_picture::View;
use shortage_reader::read_shortage;
use std::alloc::Global;
use tail_book::Book;
use tail_outside::{Files, ReadFail, Sink};
use tail_text::Stopped;

/// Draws the shortage that the words name by its tables: prints its picture, or why the words, a table or the shortage's file are
/// refused.
pub fn run_shortage<F: Files, S: Sink>(
    alloc: Global,
    words: &[String],
    files: F,
    out: &mut S,
) -> Ran<F>
    requires { MayReadShortage (spelled words.now) (F.shows files) }
    ensures promised { ShortagePromise (spelled words.now) (F.shows files) (S.shows out.old) (S.shows out.new) result.status.0 }
    ensures read_failed { result.status.0 ≡ 5 → ReadHasFailed (F.shows files) (F.shows result.files) }
    ensures write_failed { result.status.0 ≡ 6 → PieceHasFailed (S.shows out.old) (S.shows out.new) }
    ensures words_refused { shortage_of (spelled words.now) ≡ None → IsUnlessStopped 2 result.status.0 }
    ensures texts_refused { RefusesShortage (spelled words.now) (F.shows files) result.status.0 }
    ensures drawn { DrawsShortage (spelled words.now) (F.shows files) result.status.0 }
    ensures same { OnlyRead (F.shows files) (F.shows result.files) }
    ensures beside { S.beside out.old out.new }
    ensures ceases { (S.shows out.new).ceased ≡ false → (S.shows out.old).ceased ≡ false }
    ensures counts { (S.shows out.old).faults ≤ (S.shows out.new).faults }
{
    let mut files = files;
    let answer = answer_of(alloc, words, &mut files);
    let status = print(alloc, shortage_usage_line(), &answer, out);
    Ran { status, files }
}

// The answer to the words.
fn answer_of<F: Files>(alloc: Global, words: &[String], files: &mut F) -> Answer<Shown>
    requires { MayReadShortage (spelled words.now) (F.shows files.old) }
    ensures answer { IsTrueShortageAnswer (spelled words.now) (F.shows files.old) result }
    ensures printable { IsPrintable (λ shown. IsToldOf shown.book shown.told) result }
    ensures same { OnlyRead (F.shows files.old) (F.shows files.new) }
    ensures cause { result ≡ ReadFailed → ReadHasFailed (F.shows files.old) (F.shows files.new) }
{
    let names = match shortage_of(alloc, words) {
        Ok(Some(names)) => names,
        Ok(None) => return Answer::Usage,
        Err(_) => return Answer::Memory,
    };
    match read_shortage_texts(alloc, files, &names) {
        Ok(texts) => shown(alloc, &texts),
        Err(ReadFail::Failed) => Answer::ReadFailed,
        Err(ReadFail::Memory) => Answer::Memory,
    }
}

// What a picture of this book shows beside the shortage.
fn shown_view(book: &Book, texts: &ShortageTexts<'_>) -> View
    ensures { result ≡ shown_view book.now texts.now }
{
    let airport = match texts.airport {
        Some(name) => port_named(book, name.as_bytes()),
        None => None,
    };
    View {
        airport,
        html: texts.html,
    }
}

// The answer to the three tables and the shortage's file.
fn shown(alloc: Global, texts: &ShortageTexts<'_>) -> Answer<Shown>
    ensures answer { IsAnswerTo AreNotShown AreShown texts.now result }
    ensures printable { IsPrintable (λ shown. IsToldOf shown.book shown.told) result }
{
    let book = match book_of(alloc, &texts.tables) {
        Ok(book) => book,
        Err(answer) => return answer,
    };
    let view = shown_view(&book, texts);
    match read_shortage(alloc, &book, &texts.told) {
        Ok(told) => Answer::Found(Shown { book, told, view }),
        Err(Stopped::Refused(refusal)) => Answer::Refused(refusal),
        Err(Stopped::Memory) => Answer::Memory,
    }
}
