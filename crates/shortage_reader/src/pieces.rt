//! The lines of a shortage's file, each judged alone: a line of words, and one of activities.

ghost use Rattle.std.specs.Prelude.{◌≡◌, ◌<◌, All, IfOk};
ghost use Rattle.tail_book.specs.Lookup.{activities};
ghost use Rattle.tail_text.specs.Checks.{look_each};
ghost use Rattle.tail_text.specs.Parts.{parts_of, space};
ghost use Rattle.tail_text.specs.inside.Reading.{Answers};
ghost use Rattle.tail_text.specs.declared.refusal.Stopped.TheVariants.{Refused};
ghost use Rattle.shortage_reader.specs.ShortageText.{ids_in, is_plain_byte, is_plain, number_at, refused, words_in};

use crate::book_ids::activity_named;
use std::alloc::Global;
use tail_book::Book;
use tail_text::{Line, Parts, Refusal, Stopped, Table, codes};

/// The refusal of a shortage's file with a code, at a line, or at 0 for the whole file.
pub fn refused(code: u8, place: u64) -> Stopped
    ensures { result ≡ Refused (refused code place) }
{
    Stopped::Refused(Refusal {
        code,
        table: Table::Plan,
        place,
    })
}

// Whether a byte is one of a name, or stands between the words of a line.
fn is_plain_byte(byte: u8) -> bool
    ensures { result ≡ is_plain_byte byte }
{
    byte.is_ascii_alphanumeric()
        || byte == b'-'
        || byte == b'_'
        || byte == b' '
        || byte == b','
        || byte == b':'
}

fn is_plain(text: &[u8]) -> bool
    ensures { result ≡ is_plain text.now }
{
    text.iter().all(|byte| is_plain_byte(*byte))
}

/// A line that begins with a word, as it stands.
pub fn words_in(alloc: Global, word: &[u8], place: u64, text: &[u8]) -> Result<Line, Stopped>
    ensures { Answers (λ line. line) (words_in word.now place text.now) result }
{
    if text.strip_prefix(word).is_none() || !is_plain(text) {
        return Err(refused(codes::SHAPE, place));
    }
    let mut line = Line::new(alloc)?;
    line.text(text)?;
    Ok(line)
}

// The number of the activity of an id.
fn number_at(book: &Book, place: u64, id: &[u8]) -> Result<u32, Stopped>
    ensures number { Answers (λ a. a) (number_at book.now place id.now) result }
    ensures range { IfOk result (λ a. a < activities book.now) }
{
    match activity_named(book, id) {
        Some(a) => Ok(a),
        None => Err(refused(codes::UNKNOWN, place)),
    }
}

// The numbers of the activities of ids.
fn numbers_at(
    alloc: Global,
    book: &Book,
    place: u64,
    ids: &mut Parts<'_>,
) -> Result<Vec<u32>, Stopped>
    ensures numbers { Answers (λ list. list.items) (look_each (number_at book.now place) ids.old) result }
    ensures range { IfOk result (λ list. All (λ a. a < activities book.now) list.items) }
{
    let mut list = Vec::new(alloc);
    while let Some(id) = ids.take() {
        let a = match number_at(book, place, id) {
            Ok(a) => a,
            Err(stopped) => return Err(stopped),
        };
        if list.push(a).is_err() {
            return Err(Stopped::Memory);
        }
    }
    Ok(list)
}

/// The activities of a line that begins with a word.
pub fn ids_in(
    alloc: Global,
    book: &Book,
    word: &[u8],
    place: u64,
    text: &[u8],
) -> Result<Vec<u32>, Stopped>
    ensures ids { Answers (λ list. list.items) (ids_in book.now word.now place (parts_of space text.now)) result }
    ensures range { IfOk result (λ list. All (λ a. a < activities book.now) list.items) }
{
    let mut parts = Parts::new(text, b' ');
    if parts.take() != Some(word) {
        return Err(refused(codes::SHAPE, place));
    }
    numbers_at(alloc, book, place, &mut parts)
}
