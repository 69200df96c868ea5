//! What a run finds: a book and what is true of it, which is printed as the report of an outcome. The outcome has
//! numbers, and the book the names that are printed for them.

ghost use Rattle.std.specs.Prelude.{◌≡◌, ◌≤◌, ℕ, false, List, OnErr, OnOk, IsErrOf};
ghost use Rattle.plan_report.specs.Report.{report_lines};
ghost use Rattle.plan_report.specs.inside.Report.{HasPlanFor};
ghost use Rattle.tailplan.specs.inside.Outcomes.{outcome_status};

use plan_report::{ReportFail, write_report};
use run_frame::{Finding, Status};
use std::alloc::Global;
use tail_book::{Book, Outcome};
use tail_outside::Sink;

/// The status of a run that printed this outcome.
pub fn outcome_status(outcome: &Outcome) -> Status
    ensures { result.0 ≡ outcome_status outcome.now }
{
    Status(match outcome {
        Outcome::Optimal(_, _) => 0,
        Outcome::Infeasible => 1,
        Outcome::Between { .. } => 4,
        Outcome::Above { .. } => 4,
    })
}

/// What a run finds: the book of the tables, and what is true of it.
#[derive(Debug, Drop)]
pub struct Solved {
    /// The book that was planned.
    pub book: Book,
    /// The plan or bound that was found, or that no plan is legal.
    pub outcome: Outcome,
}

impl Finding for Solved {
    ghost lines = { λ s. report_lines s.book s.outcome };

    ghost code = { λ s. outcome_status s.outcome };

    ghost is_printable = { λ s. HasPlanFor s.book s.outcome };

    fn status(&self) -> Status {
        outcome_status(&self.outcome)
    }

    fn write<S: Sink>(&self, alloc: Global, out: &mut S) -> Result<(), ReportFail> {
        write_report(alloc, &self.book, &self.outcome, out)
    }
}
