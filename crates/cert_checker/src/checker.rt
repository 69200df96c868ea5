//! The checker of a text that comes in pieces, however it is cut: a line is judged as soon as its newline comes, and the first
//! failure is told at once.
//!
//! Beside what judging keeps, only the front of one line is held, which is no longer than a line may be. A line that stands
//! whole in a piece is judged where it stands.

ghost use Rattle.std.specs.Prelude.{◌≡◌, ◌↔◌, ◌≤◌, ◌^◌, ◌++◌, ◌∷◌, [], List, ℕ, true, false, length, IfOk, IsErr, None, Ok, Err};
ghost use Rattle.tail_text.specs.Parts.{parts_of};
ghost use Rattle.cert_lines.specs.declared.cert_line.TheConstants.{LENGTH_LIMIT};
ghost use Rattle.cert_checker.specs.Judged.{Stands, begun_with, judged_from, taken_of};
ghost use Rattle.cert_checker.specs.Verdict.{take_text, verdict};
ghost use Rattle.cert_checker.specs.declared.checker.Taken.TheVariants.{Done};
ghost use Rattle.cert_checker.specs.inside.Kept.{Answers, state_of};
ghost use Rattle.cert_checker.specs.inside.Means.{AreMeansOf};
ghost use Rattle.cert_checker.specs.inside.Pieces.{GoesOn, IsKept, met_in, onto_rest};

use crate::means::Means;
use crate::state::Judging;
use crate::text::failed;
use crate::verdict::{Reason, Verdict};
use cert_lines::LENGTH_LIMIT;
use cert_lines::laws::{read_lines_are_spelled, spelled_lines_are_short};
use std::alloc::Global;
use std::marker::Model;
use tail_book::{Book, Memory};
use tail_text::Parts;

/// The most lines that are taken.
const LINES_LIMIT: u64 = 9_223_372_036_854_775_808;

/// What a checker answers to bytes: more may come, or a failure was met, which is the verdict whatever comes.
#[derive(Clone, Copy, PartialEq, Eq, Debug)]
pub enum Taken {
    /// No failure was met.
    More,
    /// The first failure, which is a `Verdict::No`.
    Done(Verdict),
}

/// A certificate that is judged while it comes. Contracts see its book, what it met so far, and whether it was wanting memory.
#[derive(Drop)]
pub struct Checker<'a> {
    alloc: Global,
    book: &'a Book,
    means: Means,
    judging: Judging,
    // What stands behind the last newline.
    rest: Vec<u8>,
    met: Option<Verdict>,
    wanting: bool,
}

impl<'a> Model for Checker<'a> {
    ghost use Rattle.cert_checker.specs.Judged.{CheckerSeen};
    ghost use Rattle.cert_checker.specs.inside.Pieces.{IsChecker, met_in};

    ghost Value = { CheckerSeen };

    ghost view = { λ c. record { book = c.book.now; wanting = c.wanting; judged = met_in c.judging c.rest.items c.met } };

    ghost invariant = { λ c. IsChecker c.book.now c.means c.judging c.rest.items c.met c.wanting };
}

impl<'a> Checker<'a> {
    /// A checker to which no byte was fed.
    pub fn new(alloc: Global, book: &'a Book) -> Result<Checker<'a>, Memory>
        ensures book { IfOk result (λ checker. checker.book ≡ book.now) }
        ensures stands { IfOk result (λ checker. Stands checker []) }
    {
        let means = Means::of(alloc, book)?;
        let judging = Judging::new(alloc, book)?;
        let rest = Vec::with_capacity(alloc, LENGTH_LIMIT)?;
        Ok(Checker {
            alloc,
            book,
            means,
            judging,
            rest,
            met: None,
            wanting: false,
        })
    }

    /// Takes a line, given without its newline. What was fed before goes on with it.
    pub fn take(&mut self, line: &[u8]) -> Result<Taken, Memory>
        ensures book { self.new.book ≡ self.old.book }
        ensures stands { IfOk result (λ _. (text : List ℕ) → Stands self.old text → Stands self.new (text ++ line.now ++ 10 ∷ [])) }
        ensures taken { IfOk result (λ taken. taken ≡ taken_of self.new.judged) }
        ensures done { self.old.wanting ≡ false → (failure : Verdict) → self.old.judged ≡ Err failure →
            (result ≡ Ok (Done failure)) × (self.new ≡ self.old) }
        ensures memory { IsErr result → self.new.wanting ≡ true }
        ensures wanting { self.old.wanting ≡ true → IsErr result }
    {
        self.feed(line)?;
        self.feed(b"\n")
    }

    /// Takes the bytes that come next, however they are cut. Once a failure was met, each call answers it.
    pub fn feed(&mut self, piece: &[u8]) -> Result<Taken, Memory>
        ensures book { self.new.book ≡ self.old.book }
        ensures stands { IfOk result (λ _. (text : List ℕ) → Stands self.old text → Stands self.new (text ++ piece.now)) }
        ensures taken { IfOk result (λ taken. taken ≡ taken_of self.new.judged) }
        ensures done { self.old.wanting ≡ false → (failure : Verdict) → self.old.judged ≡ Err failure →
            (result ≡ Ok (Done failure)) × (self.new ≡ self.old) }
        ensures memory { IsErr result → self.new.wanting ≡ true }
        ensures wanting { self.old.wanting ≡ true → IsErr result }
    {
        read_lines_are_spelled();
        spelled_lines_are_short();
        if self.wanting {
            return Err(Memory);
        }
        if let Some(failure) = self.met {
            return Ok(Taken::Done(failure));
        }
        let book = self.book;
        let (judging, rest) = (&mut self.judging, &mut self.rest);
        match feed_parts(self.alloc, book, &self.means, judging, rest, piece) {
            Ok(met) => {
                self.met = met;
                Ok(taken_of(met))
            }
            Err(_) => {
                self.wanting = true;
                Err(Memory)
            }
        }
    }

    /// The verdict, where no byte comes any more.
    pub fn finish(self) -> Result<Verdict, Memory>
        ensures verdict { (text : List ℕ) → Stands self.entry text → result ≡ Ok (verdict self.entry.book text) }
        ensures memory { IsErr result ↔ self.entry.wanting ≡ true }
    {
        self.verdict()
    }

    // The verdict where the bytes so far are all.
    fn verdict(&self) -> Result<Verdict, Memory>
        ensures verdict { (text : List ℕ) → Stands self.now text → result ≡ Ok (verdict self.now.book text) }
        ensures memory { IsErr result ↔ self.now.wanting ≡ true }
    {
        if self.wanting {
            return Err(Memory);
        }
        match self.met {
            Some(failure) => Ok(failure),
            None => Ok(self.judging.end(&self.rest)),
        }
    }
}

// What is answered where this failure was met, or none.
fn taken_of(met: Option<Verdict>) -> Taken
    ensures { (judging : Judging) (rest : List ℕ) → result ≡ taken_of (met_in judging rest met) }
{
    match met {
        Some(failure) => Taken::Done(failure),
        None => Taken::More,
    }
}

// Takes the parts of a piece: each ends a line, but for the last one, which begins one or goes on with it.
fn feed_parts(
    alloc: Global,
    book: &Book,
    means: &Means,
    judging: &mut Judging,
    rest: &mut Vec<u8>,
    piece: &[u8],
) -> Result<Option<Verdict>, Memory>
    requires means { AreMeansOf book.now means.now }
    requires kept { IsKept book.now judging.old rest.old.items }
    ensures kept { IfOk result (GoesOn book.now judging.new rest.new.items) }
    ensures judged { IfOk result (λ met. met_in judging.new rest.new.items met
        ≡ judged_from book.now (state_of judging.old) (onto_rest rest.old.items (parts_of 10 piece.now))) }
{
    let mut parts = Parts::new(piece, b'\n');
    while let Some(part) = parts.take() {
        if parts.is_done() {
            return begin_line(judging, rest, part);
        }
        if let Some(failure) = end_line(alloc, book, means, judging, rest, part)? {
            return Ok(Some(failure));
        }
    }
    Ok(None)
}

// Takes the line that this part ends.
fn end_line(
    alloc: Global,
    book: &Book,
    means: &Means,
    judging: &mut Judging,
    rest: &mut Vec<u8>,
    part: &[u8],
) -> Result<Option<Verdict>, Memory>
    requires means { AreMeansOf book.now means.now }
    requires kept { IsKept book.now judging.old rest.old.items }
    ensures kept { IfOk result (GoesOn book.now judging.new rest.new.items) }
    ensures rest { IfOk result (λ met. met ≡ None → rest.new.items ≡ []) }
    ensures step { IfOk result (Answers (take_text book.now (state_of judging.old) (rest.old.items ++ part.now)) judging.new) }
{
    read_lines_are_spelled();
    spelled_lines_are_short();
    if judging.lines >= LINES_LIMIT {
        return Err(Memory);
    }
    if rest.is_empty() {
        return judging.take(alloc, book, means, part);
    }
    if let Some(failure) = begin_line(judging, rest, part)? {
        return Ok(Some(failure));
    }
    let met = judging.take(alloc, book, means, rest)?;
    rest.clear();
    Ok(met)
}

// Holds the part behind what is held of its line, unless they are too long for one.
fn begin_line(judging: &Judging, rest: &mut Vec<u8>, part: &[u8]) -> Result<Option<Verdict>, Memory>
    requires lines { judging.now.lines ≤ 2 ^ 63 }
    ensures judged { IfOk result (λ met. met_in judging.now rest.new.items met ≡ begun_with (state_of judging.now) (rest.old.items ++ part.now)) }
    ensures short { IfOk result (λ met. met ≡ None → length rest.new.items ≤ LENGTH_LIMIT) }
    ensures held { IfOk result (λ met. met ≡ None → rest.new.items ≡ rest.old.items ++ part.now) }
{
    if rest.len() + part.len() > LENGTH_LIMIT {
        return Ok(Some(failed(judging.lines + 1, Reason::BadLine)));
    }
    rest.extend_from_slice(part)?;
    Ok(None)
}

/// The verdict on a text: whether it is accepted as a certificate of the book, and for which claim, or its first failure.
pub fn judge(alloc: Global, book: &Book, text: &[u8]) -> Result<Verdict, Memory>
    ensures verdict { IfOk result (λ answer. answer ≡ verdict book.now text.now) }
{
    let mut checker = Checker::new(alloc, book)?;
    checker.feed(text)?;
    checker.finish()
}
