//! What a run under quotas finds: a book and a least plan of it that keeps the quotas, or that no legal plan keeps them, which is
//! printed as the report of an outcome; or that the quotas are refused, whose table is not one of the three that a refusal names.

ghost use Rattle.std.specs.Prelude.{◌≡◌, ◌≤◌, ℕ, false, IfOk, List, OnErr, OnOk, IsErrOf};
ghost use Rattle.quota_rows.specs.QuotaTable.{refused_at};
ghost use Rattle.tailplan.specs.QuotaAnswers.{quota_lines, quota_refusal_line};
ghost use Rattle.tailplan.specs.inside.Quotas.{CanBeReported, quota_status};

use crate::answer::Solved;
use plan_report::{ReportFail, write_lines};
use run_frame::{Finding, REFUSED, Status};
use std::alloc::Global;
use tail_book::Memory;
use tail_outside::Sink;
use tail_text::Line;

/// What a run under quotas finds.
#[derive(Debug, Drop)]
pub enum UnderQuotas {
    /// The quotas are refused.
    Refused {
        /// What is wrong: one of `tail_text::codes`.
        code: u8,
        /// The number of its record, where the header is record 1; 0 is the whole table.
        place: u64,
    },
    /// The book was planned.
    Planned(Solved),
}

// The line that is printed where the quotas are refused: the refusal's code and its place.
fn quota_refusal_line(alloc: Global, code: u8, place: u64) -> Result<Line, Memory>
    ensures { IfOk result (λ line. line ≡ quota_refusal_line (refused_at code place)) }
{
    let mut line = Line::new(alloc)?;
    line.text(b"refused ")?;
    line.unsigned(code as u64)?;
    line.text(b" quotas ")?;
    line.unsigned(place)?;
    line.text(b"\n")?;
    Ok(line)
}

impl Finding for UnderQuotas {
    ghost lines = { quota_lines };

    ghost code = { quota_status };

    ghost is_printable = { CanBeReported };

    fn status(&self) -> Status {
        match self {
            UnderQuotas::Refused { .. } => REFUSED,
            UnderQuotas::Planned(solved) => solved.status(),
        }
    }

    fn write<S: Sink>(&self, alloc: Global, out: &mut S) -> Result<(), ReportFail> {
        match self {
            UnderQuotas::Refused { code, place } => {
                let Ok(line) = quota_refusal_line(alloc, *code, *place) else {
                    return Err(ReportFail::Memory);
                };
                write_lines(&[line], out)
            }
            UnderQuotas::Planned(solved) => solved.write(alloc, out),
        }
    }
}
