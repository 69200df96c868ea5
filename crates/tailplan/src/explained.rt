//! What is found where it is asked why no plan is legal: a book, and why, or that a legal plan exists.

ghost use Rattle.std.specs.Prelude.{◌≡◌, ◌≤◌, ℕ, false, List, OnErr, OnOk, IsErrOf};
ghost use Rattle.shortage_report.specs.ShortageText.{why_lines};
ghost use Rattle.shortage_report.specs.inside.Told.{CanBeTold};
ghost use Rattle.tailplan.specs.inside.Whys.{why_status};

use plan_report::ReportFail;
use run_frame::{Finding, Status};
use shortage_report::{Why, write_why};
use std::alloc::Global;
use tail_book::Book;
use tail_outside::Sink;

// The status of a run that told this.
fn why_status(why: &Why) -> Status
    ensures { result.0 ≡ why_status why.now }
{
    Status(match why {
        Why::Feasible => 0,
        Why::Short(_) => 1,
        Why::Nothing(_) => 1,
    })
}

/// What is found: the book of the tables, and why no plan of it is legal.
#[derive(Drop)]
pub struct Explained {
    /// The book that was asked of.
    pub book: Book,
    /// Why no plan of it is legal, or that one is.
    pub why: Why,
}

impl Finding for Explained {
    ghost lines = { λ e. why_lines e.book e.why };

    ghost code = { λ e. why_status e.why };

    ghost is_printable = { λ e. CanBeTold e.book e.why };

    fn status(&self) -> Status {
        why_status(&self.why)
    }

    fn write<S: Sink>(&self, alloc: Global, out: &mut S) -> Result<(), ReportFail> {
        write_why(alloc, &self.book, &self.why, out)
    }
}
