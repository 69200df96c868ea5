//! Suspects before exact pricing: only what it finds short is handed on.

ghost use Rattle.std.specs.Prelude.{IfOk, IfSome};
ghost use Rattle.plan_shortage.specs.inside.Pricing.{IsSurplusPricerOf};
ghost use Rattle.shortage_finder.specs.Causes.{IsCauseIn};
ghost use Rattle.shortage_finder.specs.Found.{IsFoundIn};

use crate::{Cause, FoundShortage};
use plan_shortage::SurplusPricer;
use shortage_suspects::Suspect;
use std::alloc::Global;
use tail_book::{Book, Memory};

/// A suspect with its mosts, where it is a shortage.
pub fn judged(
    alloc: Global,
    book: &Book,
    pricer: &mut SurplusPricer,
    cause: Cause,
    suspect: Suspect,
) -> Result<Option<FoundShortage>, Memory>
    requires pricer { IsSurplusPricerOf book.now pricer.old }
    requires cause { IsCauseIn book.now cause }
    ensures found { IfOk result (λ found. IfSome found (IsFoundIn book.now)) }
    ensures pricer { IsSurplusPricerOf book.now pricer.new }
{
    match pricer.shortage(alloc, book, &suspect.asked, &suspect.brought)? {
        Some(mosts) => Ok(Some(FoundShortage {
            cause,
            asked: suspect.asked,
            brought: suspect.brought,
            mosts,
        })),
        None => Ok(None),
    }
}
