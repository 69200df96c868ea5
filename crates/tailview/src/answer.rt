//! What a run finds: a book, the kept plan and its audit, which are drawn. A plan that breaks rules is drawn too, by
//! what is kept of it.

ghost use Rattle.std.specs.Prelude.{◌≡◌, ◌≤◌, ℕ, [], false, List, OnErr, OnOk, IsErrOf};
ghost use Rattle.plan_picture.specs.inside.Drawable.{IsDrawable};
ghost use Rattle.run_frame.specs.inside.Answer.{audit_status};
ghost use Rattle.tailview.specs.Answers.{drawn_lines};
ghost use Rattle.tailview.specs.Drawn.{drawn_cost, drawn_rules};

use plan_audit::{Audit, Broken};
use plan_picture::{View, write_picture};
use plan_report::ReportFail;
use run_frame::{Finding, Status, audit_status};
use std::alloc::Global;
use tail_book::{Book, Plan};
use tail_outside::Sink;

/// What a run finds: the book of the tables, what is kept of the plan, what an audit of it found, and what is shown
/// beside it.
#[derive(Debug, Drop)]
pub struct Judged {
    pub book: Book,
    pub plan: Plan,
    pub found: Audit,
    pub view: View,
}

// What a legal plan costs, and 0 where it is not legal.
fn drawn_cost(found: &Audit) -> u64
    ensures { result ≡ drawn_cost found.now }
{
    match found {
        Audit::Legal(cost) => *cost,
        Audit::Broken(_) => 0,
    }
}

// The rules that are broken.
fn drawn_rules(found: &Audit) -> &[Broken]
    ensures { result.now ≡ drawn_rules found.now }
{
    match found {
        Audit::Legal(_) => &[],
        Audit::Broken(rules) => rules,
    }
}

impl Finding for Judged {
    ghost lines = { drawn_lines };

    ghost code = { λ j. audit_status j.found };

    ghost is_printable = { λ j. IsDrawable j.book j.plan (drawn_rules j.found) };

    fn status(&self) -> Status {
        audit_status(&self.found)
    }

    fn write<S: Sink>(&self, alloc: Global, out: &mut S) -> Result<(), ReportFail> {
        let cost = drawn_cost(&self.found);
        let rules = drawn_rules(&self.found);
        write_picture(alloc, &self.view, &self.book, &self.plan, cost, rules, out)
    }
}
