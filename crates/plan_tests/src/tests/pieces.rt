//! Certificates that come in pieces: however they are cut, the verdict is that on the whole text, and a failure is told with the
//! byte that makes it one.

ghost use Rattle.std.specs.Prelude.{◌<◌};

use super::certificates::{
    BARE_LEAF, LATE, LEAST, Made, NOBODY, RATES, SPLIT, book_of, fails, with_lines,
};
use cert_checker::{Checker, Taken, Verdict, judge};
use std::alloc::Global;
use std::test::Fail;
use tail_book::*;

// Bytes of a piece.
const SIZES: &[usize] = &[1, 2, 3, 7, 64, 65_536];

fn sizes() -> &'static [usize] {
    SIZES
}

// The verdict on a text that is fed by pieces of this size.
fn fed_by(alloc: Global, book: &Book, text: &[u8], size: usize) -> Result<Verdict, Memory>
    requires { 0 < size }
{
    let mut checker = Checker::new(alloc, book)?;
    for piece in text.chunks(size) {
        checker.feed(piece)?;
    }
    checker.finish()
}

/// Whether a text that is fed by pieces of any size has a verdict.
pub fn is_fed_so(alloc: Global, book: &Book, text: &[u8], told: Verdict) -> bool {
    for size in sizes() {
        if *size > 0 && fed_by(alloc, book, text, *size) != Ok(told) {
            return false;
        }
    }
    true
}

// The verdict on a text that is fed in two pieces.
fn fed_twice(alloc: Global, book: &Book, front: &[u8], back: &[u8]) -> Result<Verdict, Memory> {
    let mut checker = Checker::new(alloc, book)?;
    checker.feed(front)?;
    checker.feed(back)?;
    checker.finish()
}

// The first place at which a text in two pieces has another verdict than the whole.
fn first_cut(alloc: Global, book: &Book, text: &[u8]) -> Result<Option<usize>, Memory> {
    let told = judge(alloc, book, text)?;
    for at in 0..text.len() {
        if fed_twice(alloc, book, &text[..at], &text[at..])? != told {
            return Ok(Some(at));
        }
    }
    Ok(None)
}

// Whether a text has the same verdict in pieces and whole.
fn is_fed_as_whole(alloc: Global, book: &Book, text: &[u8]) -> Result<bool, Memory> {
    let told = judge(alloc, book, text)?;
    Ok(is_fed_so(alloc, book, text, told))
}

// Whether it is so of a front, with a byte behind it, and with that byte before some others.
fn is_fed_with(
    alloc: Global,
    book: &Book,
    front: &[u8],
    others: [&[u8]; 2],
) -> Result<bool, Memory> {
    let mut text = Vec::from_slice(alloc, front)?;
    if !is_fed_as_whole(alloc, book, &text)? {
        return Ok(false);
    }
    text.push(b'0')?;
    for behind in others {
        let mut whole = Vec::from_slice(alloc, &text)?;
        whole.extend_from_slice(behind)?;
        if !is_fed_as_whole(alloc, book, &whole)? {
            return Ok(false);
        }
    }
    Ok(true)
}

// The first byte before which a text that is cut there, or has one byte more or another there, has another verdict in pieces.
fn first_torn(alloc: Global, book: &Book, text: &[u8]) -> Result<Option<usize>, Memory> {
    for at in 0..text.len() {
        let others = [&text[at..], &text[at + 1..]];
        if !is_fed_with(alloc, book, &text[..at], others)? {
            return Ok(Some(at));
        }
    }
    Ok(None)
}

// Both places in a certificate.
fn wrong_places(
    alloc: Global,
    made: &Made,
    text: &str,
) -> Result<(Option<usize>, Option<usize>), Fail> {
    let book = book_of(alloc, made)?;
    let cut = first_cut(alloc, &book, text.as_bytes())?;
    let torn = first_torn(alloc, &book, text.as_bytes())?;
    Ok((cut, torn))
}

// A certificate cut in two pieces at each of its bytes; and cut short, longer by a byte or changed there, fed by pieces.
#[test]
fn cuts_change_no_verdict(rt: HostRuntime) -> Result<(), Fail> {
    let least = with_lines(rt.alloc(), 0, 0, "")?;
    let wrong = wrong_places(rt.alloc(), &RATES, &least)?;
    assert!(rt; wrong == (None, None), "a least cost, {wrong:?}");
    let wrong = wrong_places(rt.alloc(), &LATE, SPLIT)?;
    assert!(rt; wrong == (None, None), "a split, {wrong:?}");
    let wrong = wrong_places(rt.alloc(), &NOBODY, BARE_LEAF)?;
    assert!(rt; wrong == (None, None), "a bare leaf, {wrong:?}");
    Ok(())
}

// The byte with which a failure is told, and the failure, where a text comes byte by byte.
fn told_at(alloc: Global, book: &Book, text: &[u8]) -> Result<Option<(usize, Verdict)>, Memory> {
    let mut checker = Checker::new(alloc, book)?;
    for at in 0..text.len() {
        if let Taken::Done(failure) = checker.feed(&text[at..at + 1])? {
            return Ok(Some((at, failure)));
        }
    }
    Ok(None)
}

// Lines of the certificate of the least cost, a text in place of them, and the byte with which a failure is told, its line and
// its reason.
type Told = (usize, usize, &'static str, Option<(usize, u64, u8)>);

const TOLD: &[Told] = &[
    // Behind the newline of the line that is bad, and of the line behind the labels of a cover that is not shown.
    (0, 0, "", None),
    (2, 3, "dual 0 0120000\n", Some((37, 3, 1))),
    (4, 5, "cover 0 0\n", Some((100, 5, 6))),
    // No newline at the end.
    (13, 14, "claim optimal 240", None),
    (13, 14, "claim infeasible", None),
];

fn rows() -> &'static [Told] {
    TOLD
}

fn failure_at(told: Option<(usize, u64, u8)>) -> Option<(usize, Verdict)> {
    let (at, line, reason) = told?;
    Some((at, fails(line, reason)))
}

fn is_told_so(alloc: Global, book: &Book, row: &Told) -> bool {
    let &(from, until, put, told) = row;
    match with_lines(alloc, from, until, put) {
        Ok(text) => told_at(alloc, book, text.as_bytes()) == Ok(failure_at(told)),
        Err(_) => false,
    }
}

// The number of the first row that is told otherwise.
fn first_told(alloc: Global, book: &Book) -> Option<usize> {
    for (number, row) in rows().iter().enumerate() {
        if !is_told_so(alloc, book, row) {
            return Some(number);
        }
    }
    None
}

#[test]
fn failures_are_told_at_once(rt: HostRuntime) -> Result<(), Fail> {
    let book = book_of(rt.alloc(), &RATES)?;
    let wrong = first_told(rt.alloc(), &book);
    assert!(rt; wrong.is_none(), "row {wrong:?}");
    let zeros = [b'0'; 300];
    let told = told_at(rt.alloc(), &book, &zeros)?;
    assert!(rt; told == Some((200, fails(1, 1))), "{told:?}");
    Ok(())
}

// The verdict on lines that are taken one by one, with what was fed before.
fn taken(alloc: Global, book: &Book, front: &str, lines: &[&str]) -> Result<Verdict, Memory> {
    let mut checker = Checker::new(alloc, book)?;
    checker.feed(front.as_bytes())?;
    for line in lines {
        checker.take(line.as_bytes())?;
    }
    checker.finish()
}

#[test]
fn lines_are_taken(rt: HostRuntime) -> Result<(), Fail> {
    let book = book_of(rt.alloc(), &RATES)?;
    let verdict = taken(rt.alloc(), &book, "", LEAST)?;
    assert!(rt; verdict == Verdict::Yes(Claim::Optimal(240)), "{verdict:?}");
    let verdict = taken(rt.alloc(), &book, "tail", &["cert 1 2 2 0", "bound"])?;
    assert!(rt; verdict == fails(3, 10), "{verdict:?}");
    let verdict = taken(rt.alloc(), &book, "x", LEAST)?;
    assert!(rt; verdict == fails(1, 1), "{verdict:?}");
    Ok(())
}
