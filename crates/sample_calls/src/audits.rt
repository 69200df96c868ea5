//! The audit of a plan that spells its names: the first rule that it breaks, or what is kept of it whether it breaks
//! one or not.

ghost use Rattle.std.specs.Prelude.{◌≡◌, IfOk, Ok, slice_get};
ghost use Rattle.tail_text.specs.Checks.{look};
ghost use Rattle.tail_text.specs.inside.Reading.{Answers};
ghost use Rattle.plan_audit.specs.Broken.{broken};
ghost use Rattle.plan_audit.specs.Kept.{kept};
ghost use Rattle.plan_report.specs.PlanText.{plan_in};

use plan_audit::{Audit, Broken, audit, kept};
use plan_report::read_plan;
use std::alloc::Global;
use tail_book::{Book, Memory, Plan, RawPlan};
use tail_text::Stopped;

/// The first rule that a plan breaks, in the order of an audit, and nothing exactly where it breaks none.
pub fn first_broken(alloc: Global, book: &Book, raw: &RawPlan) -> Result<Option<Broken>, Memory>
    ensures { IfOk result (λ first. first ≡ slice_get (broken book.now raw.now) 0) }
{
    match audit(alloc, book, raw)? {
        Audit::Legal(_) => Ok(None),
        Audit::Broken(rules) => Ok(rules.first().copied()),
    }
}

/// The routes that a plan's text gives the book's aircraft, whether they are legal or not: what stays of it without
/// the names that are unknown or repeated. A text that is no plan is refused.
pub fn kept_in_text(alloc: Global, book: &Book, text: &[u8]) -> Result<Plan, Stopped>
    ensures { Answers (λ plan. plan) (look (plan_in text.now) (λ raw. Ok (kept book.now raw))) result }
{
    let raw = read_plan(alloc, text)?;
    Ok(kept(alloc, book, &raw)?)
}
