//! What a repair finds: a book, and the least repair of a published plan for it, or that no plan is legal.

ghost use Rattle.std.specs.Prelude.{◌≡◌, ◌≤◌, ℕ, false, List, OnErr, OnOk, IsErrOf};
ghost use Rattle.plan_repair.specs.RepairText.{repair_lines};
ghost use Rattle.plan_repair.specs.inside.Report.{HasPlanFor};
ghost use Rattle.tailplan.specs.inside.Repairs.{repair_status};

use plan_repair::{Repair, write_repair};
use plan_report::ReportFail;
use run_frame::{Finding, Status};
use std::alloc::Global;
use tail_book::Book;
use tail_outside::Sink;

// The status of a run that printed this repair.
fn repair_status(repair: &Repair) -> Status
    ensures { result.0 ≡ repair_status repair.now }
{
    Status(match repair {
        Repair::Done { .. } => 0,
        Repair::Infeasible => 1,
    })
}

/// What a repair finds: the book of the tables, and the repaired plan.
#[derive(Debug, Drop)]
pub struct Repaired {
    /// The book for which the plan is repaired.
    pub book: Book,
    /// The plan with its moves and its cost, or that no plan is legal.
    pub repair: Repair,
}

impl Finding for Repaired {
    ghost lines = { λ r. repair_lines r.book r.repair };

    ghost code = { λ r. repair_status r.repair };

    ghost is_printable = { λ r. HasPlanFor r.book r.repair };

    fn status(&self) -> Status {
        repair_status(&self.repair)
    }

    fn write<S: Sink>(&self, alloc: Global, out: &mut S) -> Result<(), ReportFail> {
        write_repair(alloc, &self.book, &self.repair, out)
    }
}
