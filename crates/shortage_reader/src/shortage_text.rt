//! The reading of a shortage's file, line by line, up to its first refusal.
//!
//! The file is what was printed where it was asked why no plan is legal, and a shortage was found.

ghost use Rattle.std.specs.Prelude.{◌≡◌, ◌<◌, All, IfOk};
ghost use Rattle.tail_book.specs.Lookup.{activities};
ghost use Rattle.tail_text.specs.inside.Reading.{Answers};
ghost use Rattle.shortage_reader.specs.ShortageText.{behind_asked, behind_brought, behind_first, first_of, is_brought, is_end, later, shortage_in, shortage_of};
ghost use Rattle.shortage_reader.specs.inside.OfBook.{IsToldOf};

use crate::pieces::{ids_in, refused, words_in};
use crate::told::ToldShortage;
use std::alloc::Global;
use tail_book::Book;
use tail_text::{Line, Parts, SIZE_LIMIT, Stopped, codes};

/// The shortage that a file tells of, for this book, or the file's first refusal. A refusal's place is the number of its
/// line, counted from 1, or 0 where the whole file is meant.
pub fn read_shortage(alloc: Global, book: &Book, bytes: &[u8]) -> Result<ToldShortage, Stopped>
    ensures told { Answers (λ told. told) (shortage_in book.now bytes.now) result }
    ensures of_book { IfOk result (IsToldOf book.now) }
{
    if bytes.len() > SIZE_LIMIT {
        return Err(refused(codes::TOO_BIG, 0));
    }
    let mut lines = Parts::new(bytes, b'\n');
    shortage_of(alloc, book, &mut lines)
}

// The shortage of a file's lines.
fn shortage_of(alloc: Global, book: &Book, lines: &mut Parts<'_>) -> Result<ToldShortage, Stopped>
    ensures told { Answers (λ told. told) (shortage_of book.now lines.old) result }
    ensures of_book { IfOk result (IsToldOf book.now) }
{
    if first_of(lines) != b"infeasible".as_slice() {
        return Err(refused(codes::HEADER, 1));
    }
    behind_first(alloc, book, lines)
}

// The first line that is left, or an empty one where none is.
fn first_of<'a>(lines: &mut Parts<'a>) -> &'a [u8]
    ensures first { result.now ≡ first_of lines.old }
    ensures later { lines.new ≡ later lines.old }
{
    match lines.take() {
        Some(line) => line,
        None => &[],
    }
}

// What stands behind the first line.
fn behind_first(alloc: Global, book: &Book, lines: &mut Parts<'_>) -> Result<ToldShortage, Stopped>
    ensures told { Answers (λ told. told) (behind_first book.now lines.old) result }
    ensures of_book { IfOk result (IsToldOf book.now) }
{
    let because = match words_in(alloc, b"because ", 2, first_of(lines)) {
        Ok(because) => because,
        Err(stopped) => return Err(stopped),
    };
    match ids_in(alloc, book, b"asked", 3, first_of(lines)) {
        Ok(asked) => behind_asked(alloc, book, because, asked, lines),
        Err(stopped) => Err(stopped),
    }
}

// Whether a line is one of brought activities.
fn is_brought(line: &[u8]) -> bool
    ensures { result ≡ is_brought line.now }
{
    line.strip_prefix(b"brought ".as_slice()).is_some()
}

// What stands behind the asked activities: brought ones, or how many the aircraft can fly.
fn behind_asked(
    alloc: Global,
    book: &Book,
    because: Line,
    asked: Vec<u32>,
    lines: &mut Parts<'_>,
) -> Result<ToldShortage, Stopped>
    requires { All (λ a. a < activities book.now) asked.items }
    ensures told { Answers (λ told. told) (behind_asked book.now because asked.items lines.old) result }
    ensures of_book { IfOk result (IsToldOf book.now) }
{
    let next = first_of(lines);
    if !is_brought(next) {
        return behind_brought(alloc, book, because, asked, Vec::new(alloc), 4, next, lines);
    }
    let brought = match ids_in(alloc, book, b"brought", 4, next) {
        Ok(brought) => brought,
        Err(stopped) => return Err(stopped),
    };
    let last = first_of(lines);
    behind_brought(alloc, book, because, asked, brought, 5, last, lines)
}

// Whether nothing stands behind the last newline.
fn is_end(lines: &mut Parts<'_>) -> bool
    ensures { result ≡ is_end lines.old }
{
    match lines.take() {
        Some(line) => line.is_empty() && lines.is_done(),
        None => false,
    }
}

// The last line, and the end behind it.
fn behind_brought(
    alloc: Global,
    book: &Book,
    because: Line,
    asked: Vec<u32>,
    brought: Vec<u32>,
    place: u64,
    last: &[u8],
    lines: &mut Parts<'_>,
) -> Result<ToldShortage, Stopped>
    requires asked { All (λ a. a < activities book.now) asked.items }
    requires brought { All (λ a. a < activities book.now) brought.items }
    requires place { place < 10 }
    ensures told { Answers (λ told. told) (behind_brought because asked.items brought.items place last.now lines.old) result }
    ensures of_book { IfOk result (IsToldOf book.now) }
{
    let at_most = match words_in(alloc, b"at most ", place, last) {
        Ok(at_most) => at_most,
        Err(stopped) => return Err(stopped),
    };
    if !is_end(lines) {
        return Err(refused(codes::SHAPE, place + 1));
    }
    Ok(ToldShortage {
        because,
        asked,
        brought,
        at_most,
    })
}
