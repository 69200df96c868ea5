//! The printing of an answer, line by line as the lines are made. Where it stops in the middle, what is printed is a front
//! of the answer, and the status says why it stopped.

ghost use Rattle.std.specs.Prelude.{◌≡◌, ◌≤◌, false, IfOk, OnErr, OnOk, IsErrOf};
ghost use Rattle.tail_outside.specs.Outside.{PieceHasFailed, Takes, TakesFront};
ghost use Rattle.plan_report.specs.Lines.{text_of};
ghost use Rattle.run_frame.specs.inside.Answer.{IsPrintable, IsPrinted, status_of};
ghost use Rattle.run_frame.specs.Answer.{lines_of};

use crate::{Answer, Finding, NO_MEMORY, READ_FAILED, REFUSED, Status, USAGE, WRITE_FAILED};
use plan_report::{ReportFail, refusal_line, write_lines};
use std::alloc::Global;
use tail_book::Memory;
use tail_outside::Sink;
use tail_text::Line;

/// Prints the answer, by the usage line where the words are refused, and says how the run ends.
pub fn print<T: Finding, S: Sink>(
    alloc: Global,
    usage: &[u8],
    answer: &Answer<T>,
    out: &mut S,
) -> Status
    requires { IsPrintable T.is_printable answer.now }
    ensures printed { IsPrinted (text_of (lines_of usage.now T.lines answer.now)) (status_of T.code answer.now)
        (S.shows out.old) (S.shows out.new) result.0 }
    ensures beside { S.beside out.old out.new }
    ensures ceases { (S.shows out.new).ceased ≡ false → (S.shows out.old).ceased ≡ false }
    ensures counts { (S.shows out.old).faults ≤ (S.shows out.new).faults }
{
    match write_answer(alloc, usage, answer, out) {
        Ok(()) => status_of(answer),
        Err(ReportFail::Write) => WRITE_FAILED,
        Err(ReportFail::Memory) => NO_MEMORY,
    }
}

// The status of an answer that was printed.
fn status_of<T: Finding>(answer: &Answer<T>) -> Status
    ensures { result.0 ≡ status_of T.code answer.now }
{
    match answer {
        Answer::Usage => USAGE,
        Answer::Refused(_) => REFUSED,
        Answer::Found(found) => found.status(),
        Answer::ReadFailed => READ_FAILED,
        Answer::Memory => NO_MEMORY,
    }
}

// Writes the lines of an answer, one put a line.
fn write_answer<T: Finding, S: Sink>(
    alloc: Global,
    usage: &[u8],
    answer: &Answer<T>,
    out: &mut S,
) -> Result<(), ReportFail>
    requires { IsPrintable T.is_printable answer.now }
    ensures taken { OnOk result (Takes (S.shows out.old) (S.shows out.new)
        (text_of (lines_of usage.now T.lines answer.now))) }
    ensures front { OnErr result (TakesFront (S.shows out.old) (S.shows out.new)
        (text_of (lines_of usage.now T.lines answer.now))) }
    ensures beside { S.beside out.old out.new }
    ensures ceases { (S.shows out.new).ceased ≡ false → (S.shows out.old).ceased ≡ false }
    ensures counts { (S.shows out.old).faults ≤ (S.shows out.new).faults }
    ensures cause { IsErrOf result ReportFail.Write → PieceHasFailed (S.shows out.old) (S.shows out.new) }
{
    match answer {
        Answer::Usage => {
            let Ok(line) = line_of(alloc, usage) else {
                return Err(ReportFail::Memory);
            };
            write_lines(&[line], out)
        }
        Answer::Refused(refusal) => {
            let Ok(line) = refusal_line(alloc, *refusal) else {
                return Err(ReportFail::Memory);
            };
            write_lines(&[line], out)
        }
        Answer::Found(found) => found.write(alloc, out),
        Answer::ReadFailed => write_lines(&[], out),
        Answer::Memory => write_lines(&[], out),
    }
}

// A line of this text.
fn line_of(alloc: Global, text: &[u8]) -> Result<Line, Memory>
    ensures { IfOk result (λ line. line ≡ text.now) }
{
    let mut line = Line::new(alloc)?;
    line.text(text)?;
    Ok(line)
}
