//! The report of a repair, line by line: what was found, and a line for each aircraft. It is a plan file too: read back, it
//! gives the names of the repaired plan, by a law.

ghost use Rattle.std.specs.Prelude.{◌≡◌, ◌≤◌, ◌++◌, false, IfOk, OnOk, OnErr, IsErrOf};
ghost use Rattle.tail_outside.specs.Outside.{PieceHasFailed, Takes, TakesFront};
ghost use Rattle.plan_report.specs.Report.{repaired_line, repaired_text};
ghost use Rattle.plan_repair.specs.RepairText.{repair_lines, repair_text};
ghost use Rattle.plan_repair.specs.inside.Report.{HasPlanFor};

use crate::answer::Repair;
use plan_report::{ReportFail, add_aircraft, first_line, write_lines};
use std::alloc::Global;
use tail_book::{Book, Memory, Outcome};
use tail_outside::Sink;
use tail_text::Line;

/// Writes what a repair found, one put a line: how many activities are moved and what the plan costs, with a line for each
/// aircraft, or that no plan is legal. All lines are made before the first is put.
pub fn write_repair<S: Sink>(
    alloc: Global,
    book: &Book,
    repair: &Repair,
    out: &mut S,
) -> Result<(), ReportFail>
    requires { HasPlanFor book.now repair.now }
    ensures taken { OnOk result (Takes (S.shows out.old) (S.shows out.new) (repair_text book.now repair.now)) }
    ensures front { OnErr result (TakesFront (S.shows out.old) (S.shows out.new) (repair_text book.now repair.now)) }
    ensures beside { S.beside out.old out.new }
    ensures ceases { (S.shows out.new).ceased ≡ false → (S.shows out.old).ceased ≡ false }
    ensures counts { (S.shows out.old).faults ≤ (S.shows out.new).faults }
    ensures cause { IsErrOf result ReportFail.Write → PieceHasFailed (S.shows out.old) (S.shows out.new) }
{
    let Ok(lines) = repair_lines(alloc, book, repair) else {
        return Err(ReportFail::Memory);
    };
    write_lines(&lines, out)
}

fn repair_lines(alloc: Global, book: &Book, repair: &Repair) -> Result<Vec<Line>, Memory>
    requires { HasPlanFor book.now repair.now }
    ensures { IfOk result (λ lines. lines.items ≡ repair_lines book.now repair.now) }
{
    let mut lines = Vec::new(alloc);
    match repair {
        Repair::Done { plan, moves, cost } => {
            lines.push(repaired_line(alloc, *moves, *cost)?)?;
            add_aircraft(alloc, book, &plan.0, &mut lines)?;
        }
        Repair::Infeasible => lines.push(first_line(alloc, &Outcome::Infeasible)?)?,
    }
    Ok(lines)
}

// The line that says how many activities are moved, and what the plan costs.
fn repaired_line(alloc: Global, moves: u64, cost: u64) -> Result<Line, Memory>
    ensures { IfOk result (λ line. line ≡ repaired_line moves cost) }
{
    let mut line = Line::new(alloc)?;
    add_repaired(moves, cost, &mut line)?;
    line.text(b"\n")?;
    Ok(line)
}

fn add_repaired(moves: u64, cost: u64, line: &mut Line) -> Result<(), Memory>
    ensures { OnOk result (line.new ≡ line.old ++ repaired_text moves cost) }
{
    line.text(b"repaired ")?;
    line.unsigned(moves)?;
    line.text(b" ")?;
    line.unsigned(cost)
}
