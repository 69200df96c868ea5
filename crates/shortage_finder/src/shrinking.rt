//! Smaller shortages: parts are left out of one, as long as exact pricing finds what is left short.

ghost use Rattle.std.specs.Prelude.{IfOk, IfSome};
ghost use Rattle.plan_shortage.specs.inside.Pricing.{IsSurplusPricerOf};
ghost use Rattle.shortage_finder.specs.Causes.{IsCauseIn};
ghost use Rattle.shortage_finder.specs.Found.{IsFoundIn};

use crate::judging::judged;
use crate::{Cause, FoundShortage};
use plan_shortage::SurplusPricer;
use shortage_suspects::Suspect;
use std::alloc::Global;
use tail_book::{Book, Memory};

// The work that all tries together may take. A try takes as much as there are activities times aircraft, and as much once more for
// each so many asked activities.
const MOST_WORK: usize = 5_000_000;

const ASKED: usize = 50;

const MOST_TRIES: usize = 1_000;

// The work of one try to make a shortage smaller.
fn work_of(book: &Book, found: &FoundShortage) -> usize {
    let (n, m) = (book.activities.len(), book.tails.len());
    let passes = (found.asked.len() / ASKED).saturating_add(1);
    n.saturating_mul(m).saturating_mul(passes)
}

// A list without so many numbers from a place on.
fn without(alloc: Global, list: &[u32], at: usize, piece: usize) -> Result<Vec<u32>, Memory> {
    let mut left = Vec::new(alloc);
    for i in 0..list.len() {
        if i < at || i >= at.saturating_add(piece) {
            left.push(list[i])?;
        }
    }
    Ok(left)
}

// Where the next part is left out: so many activities from a place on, the asked ones first.
#[derive(Clone, Copy, Debug)]
struct Part {
    at: usize,
    size: usize,
    // Whether a part of this size could be left out since the walk began at the first activity.
    gained: bool,
}

impl Part {
    // The first part of a set of so many activities: half of them.
    fn first(of: usize) -> Part {
        Part {
            at: 0,
            size: (of / 2).max(1),
            gained: false,
        }
    }

    // This part if it is one of a shortage, and else the first of those half as large; nothing where no single activity could be left
    // out, or where the work is too much.
    fn within(self, found: &FoundShortage, work: usize) -> Option<Part> {
        let end = found.asked.len().saturating_add(found.brought.len());
        if work > MOST_WORK || self.at >= end && self.size == 1 && !self.gained {
            None
        } else if self.at < end {
            Some(self)
        } else {
            Some(Part::first(self.size))
        }
    }

    // The next part, where this one was left out, or stays.
    fn next(self, is_out: bool) -> Part {
        if is_out {
            Part {
                gained: true,
                ..self
            }
        } else {
            Part {
                at: self.at.saturating_add(self.size),
                ..self
            }
        }
    }

    // What is left of a shortage without this part.
    fn left_of(self, alloc: Global, found: &FoundShortage) -> Result<Suspect, Memory> {
        let asked = found.asked.len();
        if self.at < asked {
            Ok(Suspect {
                asked: without(alloc, &found.asked, self.at, self.size)?,
                brought: Vec::from_slice(alloc, &found.brought)?,
            })
        } else {
            Ok(Suspect {
                asked: Vec::from_slice(alloc, &found.asked)?,
                brought: without(
                    alloc,
                    &found.brought,
                    self.at.saturating_sub(asked),
                    self.size,
                )?,
            })
        }
    }
}

// A shortage without a part, if that still is one.
fn less(
    alloc: Global,
    book: &Book,
    pricer: &mut SurplusPricer,
    found: &FoundShortage,
    part: Part,
) -> Result<Option<FoundShortage>, Memory>
    requires pricer { IsSurplusPricerOf book.now pricer.old }
    requires found { IsFoundIn book.now found.now }
    ensures found { IfOk result (λ found. IfSome found (IsFoundIn book.now)) }
    ensures pricer { IsSurplusPricerOf book.now pricer.new }
{
    let suspect = part.left_of(alloc, found)?;
    judged(alloc, book, pricer, found.cause, suspect)
}

// A shortage of the same cause with no more activities: parts are left out, the large ones first, within a limit of work.
fn shrunk(
    alloc: Global,
    book: &Book,
    pricer: &mut SurplusPricer,
    found: FoundShortage,
) -> Result<FoundShortage, Memory>
    requires pricer { IsSurplusPricerOf book.now pricer.old }
    requires found { IsFoundIn book.now found }
    ensures found { IfOk result (IsFoundIn book.now) }
    ensures pricer { IsSurplusPricerOf book.now pricer.new }
{
    let (mut least, mut work) = (found, 0usize);
    let mut part = Part::first(least.asked.len());
    for _turn in 0..MOST_TRIES {
        work = work.saturating_add(work_of(book, &least));
        let Some(tried) = part.within(&least, work) else {
            break;
        };
        let smaller = less(alloc, book, pricer, &least, tried)?;
        part = tried.next(smaller.is_some());
        if let Some(it) = smaller {
            least = it;
        }
    }
    Ok(least)
}

/// A suspect, if there is one and it is a shortage, without what can be left out of it.
pub fn shrunk_if_short(
    alloc: Global,
    book: &Book,
    pricer: &mut SurplusPricer,
    cause: Cause,
    suspect: Option<Suspect>,
) -> Result<Option<FoundShortage>, Memory>
    requires pricer { IsSurplusPricerOf book.now pricer.old }
    requires cause { IsCauseIn book.now cause }
    ensures found { IfOk result (λ found. IfSome found (IsFoundIn book.now)) }
    ensures pricer { IsSurplusPricerOf book.now pricer.new }
{
    let Some(suspect) = suspect else {
        return Ok(None);
    };
    match judged(alloc, book, pricer, cause, suspect)? {
        Some(found) => Ok(Some(shrunk(alloc, book, pricer, found)?)),
        None => Ok(None),
    }
}
