//! What is told of a book, line by line: that a legal plan exists, or that none does and which activities are too many.

ghost use Rattle.std.specs.Prelude.{◌≡◌, ◌≤◌, false, IfOk, OnOk, OnErr, IsErrOf};
ghost use Rattle.tail_outside.specs.Outside.{PieceHasFailed, Takes, TakesFront};
ghost use Rattle.shortage_report.specs.ShortageText.{feasible_line, nothing_line, why_lines, why_text};
ghost use Rattle.shortage_report.specs.inside.Told.{CanBeTold};

use crate::shortage_lines::{add_shortage, ids_line};
use crate::why::Why;
use plan_report::{ReportFail, first_line, write_lines};
use std::alloc::Global;
use tail_book::{Book, Memory, Outcome};
use tail_outside::Sink;
use tail_text::Line;

/// Writes what is told of a book, one put a line. All lines are made before the first is put.
pub fn write_why<S: Sink>(
    alloc: Global,
    book: &Book,
    why: &Why,
    out: &mut S,
) -> Result<(), ReportFail>
    requires { CanBeTold book.now why.now }
    ensures taken { OnOk result (Takes (S.shows out.old) (S.shows out.new) (why_text book.now why.now)) }
    ensures front { OnErr result (TakesFront (S.shows out.old) (S.shows out.new) (why_text book.now why.now)) }
    ensures beside { S.beside out.old out.new }
    ensures ceases { (S.shows out.new).ceased ≡ false → (S.shows out.old).ceased ≡ false }
    ensures counts { (S.shows out.old).faults ≤ (S.shows out.new).faults }
    ensures cause { IsErrOf result ReportFail.Write → PieceHasFailed (S.shows out.old) (S.shows out.new) }
{
    let Ok(lines) = why_lines(alloc, book, why) else {
        return Err(ReportFail::Memory);
    };
    write_lines(&lines, out)
}

fn why_lines(alloc: Global, book: &Book, why: &Why) -> Result<Vec<Line>, Memory>
    requires { CanBeTold book.now why.now }
    ensures { IfOk result (λ lines. lines.items ≡ why_lines book.now why.now) }
{
    let mut lines = Vec::new(alloc);
    match why {
        Why::Feasible => lines.push(feasible_line(alloc)?)?,
        Why::Short(found) => {
            lines.push(first_line(alloc, &Outcome::Infeasible)?)?;
            add_shortage(alloc, book, found, &mut lines)?;
        }
        Why::Nothing(uncovered) => {
            lines.push(first_line(alloc, &Outcome::Infeasible)?)?;
            lines.push(nothing_line(alloc)?)?;
            lines.push(ids_line(alloc, b"uncovered", book, uncovered)?)?;
        }
    }
    Ok(lines)
}

// The line that says that a legal plan exists.
fn feasible_line(alloc: Global) -> Result<Line, Memory>
    ensures { IfOk result (λ line. line ≡ feasible_line) }
{
    let mut line = Line::new(alloc)?;
    line.text(b"feasible\n")?;
    Ok(line)
}

// The line that says that no shortage was found.
fn nothing_line(alloc: Global) -> Result<Line, Memory>
    ensures { IfOk result (λ line. line ≡ nothing_line) }
{
    let mut line = Line::new(alloc)?;
    line.text(b"because nothing short\n")?;
    Ok(line)
}
