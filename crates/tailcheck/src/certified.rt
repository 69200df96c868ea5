//! The judging of a certificate: its file is read only where the tables are a book, and whatever stands in it is judged.

ghost use Rattle.std.specs.Prelude.{◌≡◌, ◌<◌, IsTrue, length};
ghost use Rattle.tail_outside.specs.Outside.{OnlyRead, ReadHasFailed};
ghost use Rattle.run_frame.specs.inside.Answer.{IsPrintable};
ghost use Rattle.run_frame.specs.declared.answer.Answer.TheVariants.{ReadFailed};
ghost use Rattle.tailcheck.specs.Texts.{CertificateName};
ghost use Rattle.tailcheck.specs.inside.Findings.{IsAnswerOver, IsFit, IsVerdictOn};

use crate::answer::Judgement;
use crate::feeding::{Fed, buffer_of, feed_file};
use cert_checker::Checker;
use cert_checker::laws::yes_is_true;
use run_frame::{Answer, Tables, book_of};
use std::alloc::Global;
use tail_book::Book;
use tail_book::laws::every_book_is_sound;
use tail_outside::{Files, ReadFail};

/// The most bytes of a certificate that are judged.
pub const CERTIFICATE_LIMIT: u64 = 68_719_476_736;

/// The answer to the three tables and the certificate under this name.
pub fn certified<F: Files>(
    alloc: Global,
    files: &mut F,
    tables: &Tables,
    name: &str,
) -> Answer<Judgement>
    requires { IsTrue ((F.shows files.old).lets_read name.now) }
    ensures answer { IsAnswerOver (F.shows files.old) tables.now (CertificateName name.now) result }
    ensures printable { IsPrintable IsFit result }
    ensures same { OnlyRead (F.shows files.old) (F.shows files.new) }
    ensures cause { result ≡ ReadFailed → ReadHasFailed (F.shows files.old) (F.shows files.new) }
{
    let book = match book_of(alloc, tables) {
        Ok(book) => book,
        Err(answer) => return answer,
    };
    let Ok(mut buffer) = buffer_of(alloc) else {
        return Answer::Memory;
    };
    verdict_on(alloc, files, name, &book, buffer.as_mut_slice())
}

// The verdict of the book on the file's bytes, which are read through a buffer.
fn verdict_on<F: Files>(
    alloc: Global,
    files: &mut F,
    name: &str,
    book: &Book,
    buffer: &mut [u8],
) -> Answer<Judgement>
    requires named { IsTrue ((F.shows files.old).lets_read name.now) }
    requires room { 0 < length buffer.old }
    ensures verdict { IsVerdictOn book.now ((F.shows files.old).holds name.now) result }
    ensures printable { IsPrintable IsFit result }
    ensures same { OnlyRead (F.shows files.old) (F.shows files.new) }
    ensures cause { result ≡ ReadFailed → ReadHasFailed (F.shows files.old) (F.shows files.new) }
{
    every_book_is_sound(book);
    yes_is_true();
    let Ok(mut checker) = Checker::new(alloc, book) else {
        return Answer::Memory;
    };
    let fed = feed_file(files, name, &mut checker, buffer);
    let verdict = checker.finish();
    match fed {
        Ok(Fed::Decided) => match verdict {
            Ok(verdict) => Answer::Found(Judgement::Certificate(verdict)),
            Err(_) => Answer::Memory,
        },
        Ok(Fed::TooLong) => Answer::Found(Judgement::TooLong),
        Err(ReadFail::Failed) => Answer::ReadFailed,
        Err(ReadFail::Memory) => Answer::Memory,
    }
}
